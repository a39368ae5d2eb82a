use crate::listed::{Put, Reading, other_put, other_read};
use job_devices::{
    Discard, Failed, ListingFile, MemorySink, MemorySource, PunchFile, Sink, SourceStop,
    StreamSink, StreamSource, SureSink, WriteStop, put_all, put_each, read_up_to,
};
use std::alloc::Global;
use std::fs;
use std::io::{self, ErrorKind, Read, Write};
use std::test::Fail;

// What a fake device does at one call.
#[derive(Clone, Copy)]
enum Step {
    Take(usize),
    Fail(ErrorKind),
}

// Gives so many letters at each step, or fails, and is at its end after the last.
#[derive(Drop)]
struct FakeReader<'a> {
    steps: &'a [Step],
}

impl Read for FakeReader<'_> {
    fn read(&mut self, buf: &mut [u8]) -> io::Result<usize> {
        let Some((step, rest)) = self.steps.split_first() else {
            return Ok(0);
        };
        self.steps = rest;
        match *step {
            Step::Take(most) => {
                let count = most.min(buf.len());
                for byte in &mut buf[..count] {
                    *byte = b'x';
                }
                Ok(count)
            }
            Step::Fail(kind) => Err(io::Error::from(kind)),
        }
    }
}

// Takes as many bytes at each step as it says, or fails. After the last step it takes all.
#[derive(Drop)]
struct FakeWriter<'a> {
    writes: &'a [Step],
    flushes: &'a [Step],
    taken: &'a mut Vec<u8>,
}

impl Write for FakeWriter<'_> {
    fn write(&mut self, buf: &[u8]) -> io::Result<usize> {
        let mut count = buf.len();
        if let Some((step, rest)) = self.writes.split_first() {
            self.writes = rest;
            match *step {
                Step::Take(most) => count = most.min(count),
                Step::Fail(kind) => return Err(io::Error::from(kind)),
            }
        }
        self.taken.extend_from_slice(&buf[..count])?;
        Ok(count)
    }

    fn flush(&mut self) -> io::Result<()> {
        if let Some((step, rest)) = self.flushes.split_first() {
            self.flushes = rest;
            if let Step::Fail(kind) = *step {
                return Err(io::Error::from(kind));
            }
        }
        Ok(())
    }
}

// The second read is listed as one that fails.
const LISTED_READS: [Reading; 4] = [
    (Ok(3), b""),
    (Err(Failed), b""),
    (Ok(1), b"d"),
    (Ok(0), b""),
];

// The same where a read gives three bytes at most.
const READS_IN_PIECES: [Reading; 4] = [
    (Ok(3), b"car."),
    (Err(Failed), b""),
    (Ok(2), b"dsr."),
    (Ok(0), b""),
];

const STREAM_STEPS: [Step; 5] = [
    Step::Take(2),
    Step::Fail(ErrorKind::Other),
    Step::Take(9),
    Step::Fail(ErrorKind::Interrupted),
    Step::Take(1),
];

const STREAM_READS: [Reading; 6] = [
    (Ok(2), b""),
    (Err(Failed), b""),
    (Ok(4), b"xxxx"),
    (Err(Failed), b""),
    (Ok(1), b""),
    (Ok(0), b""),
];

#[test]
fn sources_answer_as_listed(rt: HostRuntime) -> Result<(), Fail> {
    let mut source = MemorySource::new(rt.alloc(), b"card", &[2])?;
    assert_eq!(rt; other_read(&mut source, &mut [0; 3], &LISTED_READS), None);
    let mut source = MemorySource::in_pieces(rt.alloc(), b"cards", &[2], 3)?;
    assert_eq!(rt;
        other_read(&mut source, &mut [b'.'; 4], &READS_IN_PIECES),
        None
    );
    let mut source = StreamSource::new(FakeReader {
        steps: &STREAM_STEPS,
    });
    assert_eq!(rt; other_read(&mut source, &mut [0; 4], &STREAM_READS), None);
    Ok(())
}

#[test]
fn a_source_is_read_as_far_as_is_asked(rt: HostRuntime) -> Result<(), Fail> {
    let mut source = MemorySource::in_pieces(rt.alloc(), b"cards", &[4], 2)?;
    assert_eq!(rt;
        read_up_to(rt.alloc(), &mut source, 3)?.as_slice(),
        b"car".as_slice()
    );
    assert_eq!(rt;
        read_up_to(rt.alloc(), &mut source, 0)?.as_slice(),
        b"".as_slice()
    );
    // The third read gives the rest, and the fourth, at the end, fails.
    let stopped = read_up_to(rt.alloc(), &mut source, 9);
    assert!(rt; matches!(&stopped, Err(SourceStop::Failed)));
    Ok(())
}

#[test]
fn the_listing_file_is_opened_at_the_first_read(rt: HostRuntime) -> Result<(), Fail> {
    let mut listing = ListingFile::new(&rt);
    let mut buf = [b'.'; 4];
    assert_eq!(rt;
        other_read(&mut listing, &mut buf, &[(Err(Failed), b"")]),
        None
    );
    fs::write(&rt, "LISTING", b"END 0\n")?;
    let readings: [Reading; 3] = [(Ok(4), b"END "), (Ok(2), b"0\nD "), (Ok(0), b"")];
    assert_eq!(rt; other_read(&mut listing, &mut buf, &readings), None);
    fs::remove_file(&rt, "LISTING")?;
    Ok(())
}

#[test]
fn sinks_in_memory_take_pieces(rt: HostRuntime) -> Result<(), Fail> {
    put_each(&mut Discard, &[b"NAME\n", b"ENDATA\n"])?;
    let mut sink = SureSink::new(rt.alloc())?;
    put_each(&mut sink, &[b"END ", b"0", b"\n"])?;
    assert_eq!(rt; sink.bytes(), b"END 0\n".as_slice());
    // The second write is listed as one that fails, and leaves a prefix.
    let mut sink = MemorySink::new(rt.alloc(), &[2])?;
    assert_eq!(rt;
        put_each(&mut sink, &[b"END ", b"0"]),
        Err(WriteStop::Failed)
    );
    assert_eq!(rt; sink.bytes(), b"END ".as_slice());
    put_all(&mut sink, b"0")?;
    assert_eq!(rt; sink.bytes(), b"END 0".as_slice());
    Ok(())
}

// What a writer does at its writes and its flushes, what is put there, and what it takes of that.
#[derive(Clone, Copy)]
struct Stream {
    writes: &'static [Step],
    flushes: &'static [Step],
    puts: &'static [Put],
    taken: &'static [u8],
}

// Writes in parts, and faults of writes.
const PARTS: Stream = Stream {
    writes: &[
        Step::Take(3),
        Step::Take(9),
        Step::Fail(ErrorKind::Interrupted),
        Step::Take(2),
        Step::Take(0),
    ],
    flushes: &[],
    puts: &[
        (&[b"END 0\n"], Ok(())),
        (&[b"A"], Err(WriteStop::Failed)),
        (&[b"STOP"], Err(WriteStop::Failed)),
        (&[b"!"], Ok(())),
    ],
    taken: b"END 0\nST!",
};

// A flush that fails.
const FLUSHES: Stream = Stream {
    writes: &[],
    flushes: &[Step::Take(0), Step::Fail(ErrorKind::Other)],
    puts: &[
        (&[b"A"], Ok(())),
        (&[b"B"], Err(WriteStop::Failed)),
        (&[b"C"], Ok(())),
    ],
    taken: b"ABC",
};

// The place of the first put to this stream that answers otherwise than is listed, or how many puts there are where an empty write
// fails or the writer took something else.
fn other_in_stream(alloc: Global, stream: &Stream) -> Result<Option<usize>, Fail> {
    let mut taken = Vec::new(alloc);
    let mut sink = StreamSink::new(FakeWriter {
        writes: stream.writes,
        flushes: stream.flushes,
        taken: &mut taken,
    });
    let found = other_put(&mut sink, stream.puts);
    if found.is_some() {
        return Ok(found);
    }
    let empty = sink.write(b"");
    if empty != Ok(0) || taken.as_slice() != stream.taken {
        return Ok(Some(stream.puts.len()));
    }
    Ok(None)
}

#[test]
fn streams_take_what_is_put(rt: HostRuntime) -> Result<(), Fail> {
    assert_eq!(rt; other_in_stream(rt.alloc(), &PARTS)?, None);
    assert_eq!(rt; other_in_stream(rt.alloc(), &FLUSHES)?, None);
    Ok(())
}

#[test]
fn the_punch_file_is_created_at_the_first_write(rt: HostRuntime) -> Result<(), Fail> {
    let mut punch = PunchFile::new(&rt);
    fs::create_dir(&rt, "PUNCH")?;
    assert_eq!(rt;
        other_put(&mut punch, &[(&[b"NAME\n"], Err(WriteStop::Failed))]),
        None
    );
    fs::remove_dir(&rt, "PUNCH")?;
    assert_eq!(rt;
        other_put(&mut punch, &[(&[b"NAME\n", b"ENDATA\n"], Ok(()))]),
        None
    );
    assert_eq!(rt;
        fs::read(&rt, "PUNCH")?.as_slice(),
        b"NAME\nENDATA\n".as_slice()
    );
    fs::remove_file(&rt, "PUNCH")?;
    Ok(())
}
