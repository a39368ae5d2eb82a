// The words of a card.
ghost use Rattle.std.specs.Prelude.{◌≡◌, ◌≤◌, ◌<◌, ◌+◌, ◌==◌, ℕ, List, IfSome, length, position, set, slice_get, unwrap_or, if◌then◌else◌, nat_lt};
ghost use Rattle.card_reader.specs.Card.{card_bytes};
ghost use Rattle.card_definitions.specs.Fields.{word_text, word_of, words, read_words, no_word};
ghost use Rattle.deck_fields.specs.Readings.{ShowsFields};
ghost use Rattle.deck_fields.specs.WordsViewed.{word_view, IsColumn, ShowsWords, AreWordsBefore};
ghost use Rattle.card_definitions.specs.declared.TheConstants.{CARD_COLUMNS};

use crate::blanks::first_blank;
use crate::texts::Fields;
use card_reader::Card;

// So many words of a card are noted: one more than a data card has fields.
const NOTED: usize = 7;

/// A word of a card: its first column, from 1, and its bytes. One that isn't there has column 0 and no byte.
#[derive(Clone, Copy, Debug)]
pub struct Word<'a> {
    pub column: u8,
    pub text: &'a [u8],
}

/// How many words a card has, and the first seven of them.
#[derive(Clone, Copy, Debug)]
pub struct Words<'a> {
    pub count: u8,
    pub words: [Word<'a>; NOTED],
}

// Counts one more word, and notes it where there is room.
fn add_word<'a>(words: &mut Words<'a>, word: Word<'a>)
    requires { words.old.count ≤ 200 }
    ensures count { words.new.count ≡ words.old.count + 1 }
    ensures items { words.new.words ≡
        (if nat_lt words.old.count 7
        then set words.old.words words.old.count word.entry else words.old.words) }
{
    let place = words.count as usize;
    if place < NOTED {
        words.words[place] = word;
    }
    words.count += 1;
}

// Adds the word that begins at a place, if one does, and gives the place where the next may begin.
fn next_word<'a>(found: &mut Words<'a>, card: &'a [u8], start: usize) -> usize
    requires short { length card.now ≤ CARD_COLUMNS }
    requires inside { start < length card.now }
    requires before { AreWordsBefore found.old card.now start }
    ensures before { AreWordsBefore found.new card.now result }
    ensures later { start < result }
    ensures bound { result ≤ length card.now + 1 }
{
    let rest = &card[start..];
    let len = first_blank(rest);
    if len > 0 {
        let column = start as u8 + 1;
        let text = &rest[..len];
        add_word(found, Word { column, text });
    }
    start + len + 1
}

/// The words of a card. Nothing is copied.
pub fn free_words(card: Card<'_>) -> Words<'_>
    ensures { ShowsWords result (card_bytes card.entry) }
{
    let bytes = card.bytes();
    let none = Word {
        column: 0,
        text: &bytes[..0],
    };
    let mut found = Words {
        count: 0,
        words: [none; NOTED],
    };
    let mut start = 0;
    while start < bytes.len() {
        start = next_word(&mut found, bytes, start);
    }
    found
}

/// The text of a word by its place, from 0; empty where the card has fewer words.
pub fn word_text<'a>(found: &Words<'a>, place: usize) -> &'a [u8]
    requires { place < 7 }
    ensures { (card : List ℕ) → ShowsWords found.now card → result.now ≡ word_text card place }
{
    found.words[place].text
}

// Where a field stands among others.
fn place_of(fields: &[u8], field: u8) -> Option<usize>
    ensures place { result ≡ position (λ other. other == field) fields.now }
    ensures bound { IfSome result (λ place. place < length fields.now) }
{
    fields.iter().position(|other| *other == field)
}

// A field that no word is.
fn no_word<'a>() -> Word<'a>
    ensures { word_view result ≡ no_word }
{
    Word {
        column: 1,
        text: &[],
    }
}

// The word at a place, from 0; one that no field is, where the card has fewer.
fn word_at<'a>(found: &Words<'a>, place: usize) -> Word<'a>
    requires { place < 7 }
    ensures word { (card : List ℕ) → ShowsWords found.now card →
        word_view result ≡ unwrap_or (slice_get (words card) place) no_word }
    ensures column { (card : List ℕ) → ShowsWords found.now card → IsColumn result.column }
{
    if place >= found.count as usize {
        return no_word();
    }
    found.words[place]
}

// The word that is a field, where the words are these fields in order.
fn word_of<'a>(found: &Words<'a>, fields: &[u8], field: u8) -> Word<'a>
    requires { length fields.now ≤ 6 }
    ensures word { (card : List ℕ) → ShowsWords found.now card →
        word_view result ≡ word_of fields.now (words card) field }
    ensures column { (card : List ℕ) → ShowsWords found.now card → IsColumn result.column }
{
    match place_of(fields, field) {
        Some(place) => word_at(found, place),
        None => no_word(),
    }
}

/// What is read of words that are these fields in order.
pub fn read_words<'a>(found: &Words<'a>, fields: &[u8]) -> Fields<'a>
    requires { length fields.now ≤ 6 }
    ensures reading { (card : List ℕ) → ShowsWords found.now card →
        ShowsFields result (read_words fields.now (words card)) }
    ensures columns { (card : List ℕ) → ShowsWords found.now card → IsColumn result.value1_column ×
        IsColumn result.value2_column }
{
    let value1 = word_of(found, fields, 4);
    let value2 = word_of(found, fields, 6);
    Fields {
        kind: word_of(found, fields, 1).text,
        name1: word_of(found, fields, 2).text,
        name2: word_of(found, fields, 3).text,
        value1: value1.text,
        name3: word_of(found, fields, 5).text,
        value2: value2.text,
        value1_column: value1.column,
        value2_column: value2.column,
    }
}
