// Lines that can't be attested: stops that a run chooses, or that only a basis or a device shows, and reports that only a basis shows.
ghost use Rattle.std.specs.Prelude.{◌≡◌, ◌++◌};
ghost use Rattle.std.specs.List.{flat_map, list_any};
ghost use Rattle.listing_definitions.specs.Text.{name8};
ghost use Rattle.walk_definitions.specs.Words.{left_after, max_count};
ghost use Rattle.walk_definitions.specs.Forms as forms;
ghost use Rattle.walk_definitions.specs.Forms.{left_by_piece, left_by, has_form, counted_line, is_open_stop, is_ranges, is_punched};
ghost use Rattle.walk_definitions.specs.Forms.{is_inserted};
ghost use Rattle.listing_words.specs.Read.{taken};
ghost use Rattle.listing_readers.specs.Pieces.{kind_view, labelled, form_view};

use crate::lines::{operation_of, take_name};
use crate::stops::Kind::{Count, Fraction, Operation};
use listing_words::{Cursor, count_in, fraction_in};
use name_table::Name;

/// A printed count has 32 bits.
pub const MAX_COUNT: u32 = u32::MAX;

/// What a word of a line is.
#[derive(Clone, Copy, Debug, PartialEq, Eq)]
pub enum Kind {
    Count,
    Fraction,
    Operation,
}

/// How a line goes: words of their kinds, each after a text, and a text at the end.
#[derive(Clone, Copy)]
pub struct Form {
    pub words: &'static [(&'static [u8], Kind)],
    pub end: &'static [u8],
}

// Takes a count.
fn take_count(cursor: &mut Cursor<'_>) -> bool
    ensures { left_by_piece forms.Count cursor.old ≡ taken result cursor.new }
{
    count_in(cursor.word(), MAX_COUNT).is_some()
}

// Takes a fraction.
fn take_fraction(cursor: &mut Cursor<'_>) -> bool
    ensures { left_by_piece forms.Fraction cursor.old ≡ taken result cursor.new }
{
    fraction_in(cursor.word()).is_some()
}

// Takes an operation.
fn take_operation(cursor: &mut Cursor<'_>) -> bool
    ensures { left_by_piece forms.Operation cursor.old ≡ taken result cursor.new }
{
    operation_of(cursor.word()).is_some()
}

// Takes a word of a kind.
fn take_word(cursor: &mut Cursor<'_>, kind: Kind) -> bool
    ensures { left_by_piece (kind_view kind) cursor.old ≡ taken result cursor.new }
{
    match kind {
        Kind::Count => take_count(cursor),
        Kind::Fraction => take_fraction(cursor),
        Kind::Operation => take_operation(cursor),
    }
}

// Takes a word of a kind after a text.
fn take_labelled(cursor: &mut Cursor<'_>, word: &(&'static [u8], Kind)) -> bool
    ensures { left_by (labelled word.now) cursor.old ≡ taken result cursor.new }
{
    cursor.take(word.0) && take_word(cursor, word.1)
}

// Takes some words, each after its text.
fn take_words(cursor: &mut Cursor<'_>, words: &[(&'static [u8], Kind)]) -> bool
    ensures { left_by (flat_map labelled words.now) cursor.old ≡ taken result cursor.new }
{
    for word in words {
        if !take_labelled(cursor, word) {
            return false;
        }
    }
    true
}

// Whether a line of a form begins here.
fn begins_with(bytes: &[u8], form: &Form) -> bool
    ensures { result ≡ has_form (form_view form.now) bytes.now }
{
    let mut cursor = Cursor::new(bytes);
    take_words(&mut cursor, form.words) && cursor.take(form.end)
}

// ---- stop texts

// The first lines of the stop texts that can't be attested: the limit on steps; the faults of devices, and that memory ran out; a
// singular basis, and wrong prices; and an overflow, with its formula, its operation and the operands, its numbers, the value of the
// parameter and the card.
const OPEN_STOPS: [Form; 7] = [
    Form {
        words: &[(b"STOP 16 ITERATION LIMIT ", Count), (b" CARD ", Count)],
        end: b"\n",
    },
    Form {
        words: &[],
        end: b"STOP 24 READ FAULT\n",
    },
    Form {
        words: &[],
        end: b"STOP 26 PUNCH FAULT\n",
    },
    Form {
        words: &[],
        end: b"STOP 28 MEMORY\n",
    },
    Form {
        words: &[(b"STOP 10 VERB FAULT 15 CARD ", Count)],
        end: b"\n",
    },
    Form {
        words: &[
            (b"STOP 10 VERB FAULT 16 CARD ", Count),
            (b" VARIABLE ", Count),
        ],
        end: b"\n",
    },
    Form {
        words: &[
            (b"STOP 20 OVERFLOW F", Count),
            (b" ", Operation),
            (b" ", Fraction),
            (b" ", Fraction),
            (b" P ", Count),
            (b" Q ", Count),
            (b" I ", Count),
            (b" J ", Count),
            (b" TERM ", Count),
            (b" THETA ", Fraction),
            (b" CARD ", Count),
        ],
        end: b"\n",
    },
];

// Whether a line of one of these forms begins here.
fn begins_with_any(bytes: &[u8], forms: &[Form]) -> bool
    ensures { result ≡ list_any (λ form. has_form (form_view form) bytes.now) forms.now }
{
    forms.iter().any(|form| begins_with(bytes, form))
}

/// Whether the first line of a stop text that can't be attested stands here, whole.
#[tactic(auto, unfolding(walk_definitions::specs::Forms::is_open_stop))]
pub fn is_open_stop(bytes: &[u8]) -> bool
    ensures { result ≡ is_open_stop bytes.now }
{
    begins_with_any(bytes, &OPEN_STOPS)
}

// ---- reports

/// Whether the first line of RANGE stands here, whole.
#[tactic(auto, unfolding(walk_definitions::specs::Forms::is_ranges))]
pub fn is_ranges(bytes: &[u8]) -> bool
    ensures { result ≡ is_ranges bytes.now }
{
    let mut cursor = Cursor::new(bytes);
    cursor.take(b"RANGE\n")
}

// Takes a name and a text after it.
#[tactic(auto, using(walk_definitions::proofs::Texts::left_after_both))]
fn take_name_and_text(cursor: &mut Cursor<'_>, name: Name, text: &[u8]) -> bool
    ensures { left_after (name8 name ++ text.now) cursor.old ≡ taken result cursor.new }
{
    take_name(cursor, name) && cursor.take(text)
}

// Takes a verb, a name and a text.
#[tactic(auto, using(walk_definitions::proofs::Texts::left_after_both))]
fn take_named_line(cursor: &mut Cursor<'_>, verb: &[u8], name: Name, text: &[u8]) -> bool
    ensures { left_after (verb.now ++ (name8 name ++ text.now)) cursor.old ≡
        taken result cursor.new }
{
    cursor.take(verb) && take_name_and_text(cursor, name, text)
}

// Whether a line of a verb, with a name and a count, stands here.
fn is_counted_line(bytes: &[u8], verb: &[u8], name: Name, text: &[u8]) -> bool
    ensures { result ≡ has_form (counted_line verb.now name text.now) bytes.now }
{
    let mut cursor = Cursor::new(bytes);
    take_named_line(&mut cursor, verb, name, text) && take_count(&mut cursor) && cursor.take(b"\n")
}

/// Whether the line of PUNCH stands here, for a problem of this name.
#[tactic(auto, unfolding(walk_definitions::specs::Forms::is_punched))]
pub fn is_punched(bytes: &[u8], name: Name) -> bool
    ensures { result ≡ is_punched name bytes.now }
{
    is_counted_line(bytes, b"PUNCH   ", name, b" CARDS ")
}

/// Whether the line of INSERT stands here, for a deck of this name.
#[tactic(auto, unfolding(walk_definitions::specs::Forms::is_inserted))]
pub fn is_inserted(bytes: &[u8], name: Name) -> bool
    ensures { result ≡ is_inserted name bytes.now }
{
    is_counted_line(bytes, b"INSERT  ", name, b" BASIC ")
}
