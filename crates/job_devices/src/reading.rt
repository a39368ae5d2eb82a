// Reads a source as far as it is asked to.
ghost use Rattle.std.specs.Prelude.{◌≡◌, ◌<◌, length, take, IfOk, IfSome, OnOk};
ghost use Rattle.std.specs.Io.KnownBytes.{IsAtEnd};
ghost use Rattle.job_devices.specs.Reading.{ReadsUpTo, ReadsWhole, HasSourceCause};

use crate::Source;
use std::alloc::Global;
use thiserror::Error;

const PIECE: usize = 65_536;

/// Why a source isn't read as far as was asked.
#[derive(Clone, Copy, Debug, PartialEq, Eq, Error)]
pub enum SourceStop {
    /// A read failed, and the source has counted it.
    #[error("a read failed")]
    Failed,
    /// Memory ran out.
    #[error("out of memory")]
    NoMemory,
}

/// Reads the source to its end, or as far as `most` bytes, in pieces. At a stop no more has been read either.
pub fn read_up_to<S: Source>(
    alloc: Global,
    source: &mut S,
    most: usize,
) -> Result<Vec<u8>, SourceStop>
    ensures bytes { IfOk result (λ bytes. IfSome (S.given source.old).left
        (λ left. bytes.items ≡ take most left)) }
    ensures whole { OnOk result
        (ReadsWhole most (S.given source.old).left (S.given source.new).left) }
    ensures no_further { ReadsUpTo most (S.given source.old).left (S.given source.new).left }
    ensures end { IfOk result (λ bytes. length bytes.items < most →
        IsAtEnd (S.given source.new).left) }
    ensures cause { HasSourceCause (S.given source.old) (S.given source.new) result }
{
    let mut bytes = Vec::new(alloc);
    let mut piece = [0; PIECE];
    while bytes.len() < most {
        let room = PIECE.min(most - bytes.len());
        let Ok(count) = source.read(&mut piece[..room]) else {
            return Err(SourceStop::Failed);
        };
        if count == 0 {
            return Ok(bytes);
        }
        if bytes.extend_from_slice(&piece[..count]).is_err() {
            return Err(SourceStop::NoMemory);
        }
    }
    Ok(bytes)
}
