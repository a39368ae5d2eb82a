// Sources and sinks over real files.
use crate::listed::{Reading, other_put, other_read};
use job_devices::{Failed, Sink, StreamSink, StreamSource, WriteStop};
use std::fs::{self, File};
use std::test::Fail;

#[test]
fn a_file_gives_its_bytes_to_the_end(rt: HostRuntime) -> Result<(), Fail> {
    fs::write(&rt, "CARDS", b"ENDATA\n")?;
    let mut source = StreamSource::new(File::open(&rt, "CARDS")?);
    let readings: [Reading; 3] = [(Ok(4), b"ENDA"), (Ok(3), b""), (Ok(0), b"")];
    assert_eq!(rt; other_read(&mut source, &mut [0; 4], &readings), None);
    fs::remove_file(&rt, "CARDS")?;
    Ok(())
}

#[test]
fn a_file_takes_what_is_printed(rt: HostRuntime) -> Result<(), Fail> {
    let mut sink = StreamSink::new(File::create(&rt, "LISTING")?);
    assert_eq!(rt;
        other_put(&mut sink, &[(&[b"END ", b"0", b"\n"], Ok(()))]),
        None
    );
    assert_eq!(rt; sink.write(b""), Ok(0));
    assert_eq!(rt; fs::read(&rt, "LISTING")?.as_slice(), b"END 0\n".as_slice());
    fs::remove_file(&rt, "LISTING")?;
    Ok(())
}

#[test]
fn a_file_opened_the_other_way_fails_at_each_call(rt: HostRuntime) -> Result<(), Fail> {
    fs::write(&rt, "CARDS", b"ENDATA\n")?;
    let mut sink = StreamSink::new(File::open(&rt, "CARDS")?);
    assert_eq!(rt;
        other_put(&mut sink, &[(&[b"END 0\n"], Err(WriteStop::Failed))]),
        None
    );
    assert_eq!(rt; fs::read(&rt, "CARDS")?.as_slice(), b"ENDATA\n".as_slice());
    let mut source = StreamSource::new(File::create(&rt, "CARDS")?);
    assert_eq!(rt;
        other_read(&mut source, &mut [0; 4], &[(Err(Failed), b"")]),
        None
    );
    fs::remove_file(&rt, "CARDS")?;
    Ok(())
}
