// The sink that keeps nothing.
ghost use Rattle.std.specs.Prelude.{◌≡◌, Ok, length};
ghost use Rattle.job_devices.specs.States.{untold_sink};

use crate::{Sink, WriteStop};

/// Takes all that is written, and keeps nothing of it.
#[derive(Clone, Copy, Debug)]
pub struct Discard;

impl Sink for Discard {
    ghost taken = { λ _. untold_sink 0 };

    fn write(&mut self, piece: &[u8]) -> Result<usize, WriteStop>
        ensures all { result ≡ Ok (length piece.now) }
    {
        Ok(piece.len())
    }
}
