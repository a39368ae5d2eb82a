// A place in a text.
ghost use Rattle.std.specs.Prelude.{◌≡◌, ◌≤◌, length, drop, false};
ghost use Rattle.std.specs.List.{position_or_len};
ghost use Rattle.walk_definitions.specs.Words.{left_after, ends_word, word_in};
ghost use Rattle.listing_words.specs.Read.{taken};

use crate::allowance::Allowance;
use std::marker::Model;

/// A place in a text, seen as what is left of it; and how much work the tests of what stands there may still take.
#[derive(Drop)]
pub struct Cursor<'a> {
    bytes: &'a [u8],
    at: usize,
    allowance: Allowance,
}

impl<'a> Model for Cursor<'a> {
    ghost use Rattle.std.specs.Prelude.{ℕ, List, drop, length, ◌≤◌};

    ghost Value = { List ℕ };

    ghost view = { λ c. drop c.at c.bytes.now };

    ghost invariant = { λ c. c.at ≤ length c.bytes.now };
}

impl<'a> Cursor<'a> {
    /// At the beginning, with the whole allowance.
    pub fn new(bytes: &'a [u8]) -> Cursor<'a>
        ensures { result ≡ bytes.now }
    {
        Cursor {
            bytes,
            at: 0,
            allowance: Allowance::new(),
        }
    }

    /// The same place once more, with what is left of the allowance.
    pub fn again(&self) -> Cursor<'a>
        ensures { result ≡ self.now }
    {
        Cursor {
            bytes: self.bytes,
            at: self.at,
            allowance: self.allowance,
        }
    }

    /// What is left of the allowance. What a test takes of it is set again behind the test.
    pub fn allowance(&self) -> Allowance {
        self.allowance
    }

    /// Sets what is left of the allowance.
    pub fn set_allowance(&mut self, allowance: Allowance)
        ensures { self.new ≡ self.old }
    {
        self.allowance = allowance;
    }

    /// What is left.
    pub fn rest(&self) -> &[u8]
        ensures { result.now ≡ self.now }
    {
        &self.bytes[self.at..]
    }

    /// What is left, for as long as the text stands.
    pub fn left(&self) -> &'a [u8]
        ensures { result.now ≡ self.now }
    {
        &self.bytes[self.at..]
    }

    /// Takes a text, if it stands here.
    pub fn take(&mut self, text: &[u8]) -> bool
        ensures taken { left_after text.now self.old ≡ taken result self.new }
        ensures kept { result ≡ false → self.new ≡ self.old }
    {
        let rest = &self.bytes[self.at..];
        if rest.len() < text.len() {
            return false;
        }
        if &rest[..text.len()] == text {
            self.at += text.len();
            true
        } else {
            false
        }
    }

    /// Takes the word that stands here.
    pub fn word(&mut self) -> &'a [u8]
        ensures word { result.now ≡ word_in self.old }
        ensures left { self.new ≡ drop (length (word_in self.old)) self.old }
    {
        let rest = &self.bytes[self.at..];
        let size = word_size(rest);
        let (word, _) = rest.split_at(size);
        self.at += size;
        word
    }
}

// How long the word at the beginning is.
fn word_size(bytes: &[u8]) -> usize
    ensures most { result ≤ length bytes.now }
    ensures size { result ≡ position_or_len ends_word bytes.now }
{
    bytes
        .iter()
        .take_while(|b| **b != b' ' && **b != b'\n')
        .count()
}
