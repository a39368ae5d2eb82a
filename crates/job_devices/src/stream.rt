// Sources and sinks over std's readers and writers. They tell nothing of the bytes.
ghost use Rattle.std.specs.Prelude.{◌≡◌, ◌≤◌, None, take, length, MatchOption, MatchResult, IfSome, is_ok, if◌then◌else◌};
ghost use Rattle.std.specs.Io.KnownBytes.{Appends, ReadConsumes};
ghost use Rattle.job_devices.specs.Text.{AppendsPrefix};
ghost use Rattle.job_devices.specs.Calls.{IsRead, IsWrite};

use crate::{Failed, Sink, Source, WriteStop};
use std::io::{Read, Write};

/// A reader or a writer, with the number of its faults.
#[derive(Drop)]
pub struct Stream<T> {
    inner: T,
    faults: u64,
}

/// Reads from a reader, and counts each `Err` as a fault, an interrupted call too.
pub type StreamSource<R> = Stream<R>;

/// Writes to a writer, with a flush after each write. It counts as a fault each `Err` of these two, an interrupted
/// call too, and a write that takes nothing of a piece that has bytes.
pub type StreamSink<W> = Stream<W>;

impl<T> Stream<T> {
    ghost use Rattle.job_devices.specs.Stream.{stream_inner, stream_faults};

    /// A source over this reader, or a sink over this writer, with no fault yet.
    pub fn new(inner: T) -> Stream<T>
        ensures inner { stream_inner result ≡ inner }
        ensures faults { stream_faults result ≡ 0 }
    {
        Stream { inner, faults: 0 }
    }
}

impl<R: Read> Source for Stream<R> {
    ghost use Rattle.job_devices.specs.Causes.{next_count};
    ghost use Rattle.job_devices.specs.States.{untold_source};
    ghost use Rattle.job_devices.specs.Stream.{stream_inner, stream_faults};

    ghost given = { λ s. untold_source (stream_faults s) };

    fn read(&mut self, buf: &mut [u8]) -> Result<usize, Failed>
        ensures read { IsRead (untold_source (stream_faults self.old))
            (untold_source (stream_faults self.new)) result buf.new }

        // The reader has given these bytes, 0 only at its end, and none where the read failed.
        ensures reader { ReadConsumes (R.remaining (stream_inner self.old))
            (R.remaining (stream_inner self.new)) result buf.new }
        ensures count { stream_faults self.new ≡ (if is_ok result then stream_faults
            self.old else next_count (stream_faults self.old)) }
    {
        match self.inner.read(buf) {
            Ok(count) => Ok(count),
            Err(_) => {
                self.faults = self.faults.saturating_add(1);
                Err(Failed)
            }
        }
    }
}

impl<W: Write> Sink for Stream<W> {
    ghost use Rattle.job_devices.specs.Causes.{next_count};
    ghost use Rattle.job_devices.specs.States.{untold_sink};
    ghost use Rattle.job_devices.specs.Stream.{stream_inner, stream_faults};

    ghost taken = { λ s. untold_sink (stream_faults s) };

    fn write(&mut self, piece: &[u8]) -> Result<usize, WriteStop>
        ensures write { IsWrite (untold_sink (stream_faults self.old))
            (untold_sink (stream_faults self.new)) result piece.now }

        // The writer holds the bytes that were taken. After a fault it may hold some too, where its flush failed.
        ensures writer { MatchResult result
            (λ taken. Appends (W.contents (stream_inner self.old))
            (W.contents (stream_inner self.new)) (take taken piece.now))
            (λ _. AppendsPrefix (W.contents (stream_inner self.old))
            (W.contents (stream_inner self.new)) piece.now) }
        ensures count { stream_faults self.new ≡ (if is_ok result then stream_faults
            self.old else next_count (stream_faults self.old)) }
    {
        match write_once(&mut self.inner, piece) {
            Some(taken) => Ok(taken),
            None => {
                self.faults = self.faults.saturating_add(1);
                Err(WriteStop::Failed)
            }
        }
    }
}

// One write and one flush. None where either failed, or the write took no byte of a piece that has some.
fn write_once<W: Write>(writer: &mut W, piece: &[u8]) -> Option<usize>
    ensures bound { IfSome result (λ taken. taken ≤ length piece.now) }
    ensures some { IfSome result (λ taken. taken ≡ 0 → length piece.now ≡ 0) }
    ensures bytes { MatchOption result
        (AppendsPrefix (W.contents writer.old) (W.contents writer.new) piece.now)
        (λ taken. Appends (W.contents writer.old) (W.contents writer.new) (take taken piece.now)) }
{
    let Ok(taken) = writer.write(piece) else {
        return None;
    };
    if taken == 0 && !piece.is_empty() {
        return None;
    }
    match writer.flush() {
        Ok(()) => Some(taken),
        Err(_) => None,
    }
}
