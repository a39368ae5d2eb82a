// Sources and sinks as the layers above see them.
ghost use Rattle.std.specs.Prelude.{◌≡◌, ◌<◌, ◌≤◌, [], length};
ghost use Rattle.job_devices.specs.Text.{Writes, text_of_pieces};
ghost use Rattle.job_devices.specs.Calls.{IsRead, IsWrite};
ghost use Rattle.job_devices.specs.States.{SourceState, SinkState};

use thiserror::Error;

/// A read failed. The device has counted it, and gives the same bytes at the next read.
#[derive(Clone, Copy, Debug, PartialEq, Eq, Error)]
#[error("a read failed")]
pub struct Failed;

/// Why a write took nothing.
#[derive(Clone, Copy, Debug, PartialEq, Eq, Error)]
pub enum WriteStop {
    /// The device failed, and has counted it.
    #[error("a write failed")]
    Failed,
    /// The device found no memory to keep the bytes.
    #[error("out of memory")]
    NoMemory,
}

/// Gives bytes, from the first to the last, and counts its faults.
pub trait Source {
    /// What the source still gives, and how often a read has failed.
    ghost given: { Self → SourceState };

    /// Moves the next bytes into the front of `buf` and says how many. 0 is the end of the input.
    ///
    /// A read that fails moves nothing: the bytes that are left stay, and the count of faults has risen.
    fn read(&mut self, buf: &mut [u8]) -> Result<usize, Failed>
        requires { 0 < length buf.old }
        ensures { IsRead (given self.old) (given self.new) result buf.new };
}

/// Takes bytes, each after those that came before, and counts its faults.
pub trait Sink {
    /// What was written, how often a write has failed or found no memory, and what was written when
    /// one last stopped.
    ghost taken: { Self → SinkState };

    /// Appends a prefix of the piece and says how long it is. 0 is only for an empty piece.
    ///
    /// A write that stops appends nothing, and the count of its cause has risen.
    fn write(&mut self, piece: &[u8]) -> Result<usize, WriteStop>
        ensures { IsWrite (taken self.old) (taken self.new) result piece.now };
}

/// Writes the whole piece, in as many writes as the sink wants. At a stop a prefix of it is written.
pub fn put_all<P: Sink>(sink: &mut P, piece: &[u8]) -> Result<(), WriteStop>
    ensures { Writes (P.taken sink.old) (P.taken sink.new) result piece.now }
{
    let mut rest = piece;
    while !rest.is_empty() {
        let taken = sink.write(rest)?;
        rest = &rest[taken..];
    }
    Ok(())
}

/// Writes some pieces, one after the other. At a stop a prefix of all of them is written.
pub fn put_each<P: Sink>(sink: &mut P, pieces: &[&[u8]]) -> Result<(), WriteStop>
    ensures { Writes (P.taken sink.old) (P.taken sink.new) result
        (text_of_pieces pieces.now) }
{
    for piece in pieces {
        put_all(sink, piece)?;
    }
    Ok(())
}
