// The text of a title.
ghost use Rattle.std.specs.Prelude.{◌≡◌, ◌≤◌, nat_le, length};
ghost use Rattle.control_definitions.specs.Arguments.{if_passes};

use std::marker::Model;

const MOST_BYTES: usize = 60;

/// 0 to 60 bytes.
#[derive(Debug, Drop)]
pub struct Text {
    // The text with zeros after it.
    bytes: [u8; MOST_BYTES],
    len: usize,
}

impl Model for Text {
    ghost use Rattle.std.specs.Prelude.{List, ℕ, length, take, ◌≡◌, ◌≤◌};

    ghost Value = { List ℕ };

    ghost view = { λ t. take t.len t.bytes };

    ghost invariant = { λ t. (length t.bytes ≡ 60) × (t.len ≤ 60) };
}

impl Text {
    /// The text of these bytes, if they are at most 60.
    pub fn of(bytes: &[u8]) -> Option<Text>
        ensures { result ≡ if_passes (λ text. nat_le (length text) 60) bytes.now }
    {
        if bytes.len() > MOST_BYTES {
            return None;
        }
        let mut kept = [0; MOST_BYTES];
        kept[..bytes.len()].copy_from_slice(bytes);
        Some(Text {
            bytes: kept,
            len: bytes.len(),
        })
    }

    /// The bytes of the text.
    pub fn bytes(&self) -> &[u8]
        ensures bytes { result.now ≡ self.now }
        ensures short { length result.now ≤ 60 }
    {
        &self.bytes[..self.len]
    }
}
