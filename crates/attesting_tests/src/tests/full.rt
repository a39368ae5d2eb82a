// A print that never finds memory.
ghost use Rattle.std.specs.Prelude.{Some, []};

use job_devices::{Sink, WriteStop};

/// Takes no byte, since it finds no memory, and counts how often.
#[derive(Drop)]
pub struct Full {
    refusals: u64,
}

impl Full {
    /// One to which nothing was written.
    pub fn new() -> Full {
        Full { refusals: 0 }
    }
}

impl Sink for Full {
    ghost taken = { λ sink. record {
      written = Some [];
      faults = 0;
      refusals = sink.refusals;
      stopped_at = Some [];
    } };

    fn write(&mut self, _piece: &[u8]) -> Result<usize, WriteStop> {
        self.refusals = self.refusals.saturating_add(1);
        Err(WriteStop::NoMemory)
    }
}
