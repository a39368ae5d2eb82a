// A piece of text that is put together before it is written.
ghost use Rattle.std.specs.Prelude.{◌≡◌, ◌≤◌, [], Some, length};
ghost use Rattle.std.specs.Option.{ForSome};
ghost use Rattle.arrayvec.specs.ArrayVec.{array_vec_len};

use arrayvec::ArrayVec;
use job_devices::{Sink, WriteStop};

/// Keeps a piece of text, and refuses what it has no room for. It takes no memory.
#[derive(Drop)]
pub struct TextBuffer {
    bytes: ArrayVec<u8, 1024>,
    refusals: u64,
    stopped: Option<usize>,
    ghost written: { ForSome stopped (λ count. count ≤ array_vec_len bytes) },
}

impl TextBuffer {
    ghost use Rattle.listing_tables.specs.Buffers.{buffer_text};

    /// The bytes that a buffer has room for.
    pub const CAPACITY: usize = 1024;

    /// A buffer that holds nothing yet.
    pub fn new() -> TextBuffer
        ensures { buffer_text result ≡ [] }
    {
        TextBuffer {
            bytes: ArrayVec::new(),
            refusals: 0,
            stopped: None,
        }
    }

    /// What was written.
    pub fn bytes(&self) -> &[u8]
        ensures { result.now ≡ buffer_text self.now }
    {
        self.bytes.as_slice()
    }
}

impl Sink for TextBuffer {
    ghost use Rattle.listing_tables.specs.Buffers.{buffer_state};

    ghost taken = { λ buffer. buffer_state buffer };

    fn write(&mut self, piece: &[u8]) -> Result<usize, WriteStop> {
        if self.bytes.try_extend_from_slice(piece).is_err() {
            self.refusals = self.refusals.saturating_add(1);
            self.stopped = Some(self.bytes.len());
            return Err(WriteStop::NoMemory);
        }
        Ok(piece.len())
    }
}
