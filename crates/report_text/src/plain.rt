// The reports of one line.
ghost use Rattle.std.specs.Prelude.{◌∷◌, [], codes};
ghost use Rattle.std.specs.List.{concat};
ghost use Rattle.listing_definitions.specs.Numbers.{digits};
ghost use Rattle.job_devices.specs.Text.{Writes};
ghost use Rattle.listing_definitions.specs.Report as reports;
ghost use Rattle.listing_definitions.specs.Text.{name8, filed_text, report_text};

use itoa::Buffer;
use job_devices::{Sink, WriteStop, put_each};
use listing_tables::{NAME_PLACES, blanks, decimal, sense_word};
use lp_definitions::Sense;
use name_table::Name;

pub fn put_title<P: Sink>(print: &mut P, text: &[u8]) -> Result<(), WriteStop>
    ensures { Writes (P.taken print.old) (P.taken print.new) result
        (report_text (reports.Titled text.now)) }
{
    put_each(print, &[b"TITLE ", text, b"\n"])
}

/// The line of a problem that was filed, with the word of its verb.
pub fn put_filed<P: Sink>(
    print: &mut P,
    word: &'static [u8],
    name: Name,
    rows: u32,
    columns: u32,
    entries: u32,
) -> Result<(), WriteStop>
    ensures { Writes (P.taken print.old) (P.taken print.new) result
        (filed_text word.now (record {
          name = name;
          rows = rows;
          columns = columns;
          entries =
              entries;
        })) }
{
    let mut row_digits = Buffer::new();
    let mut column_digits = Buffer::new();
    let mut entry_digits = Buffer::new();
    let letters = name.bytes();
    put_each(
        print,
        &[
            word,
            b" ",
            letters,
            blanks(NAME_PLACES, letters.len()),
            b" ROWS ",
            decimal(&mut row_digits, rows).as_bytes(),
            b" COLUMNS ",
            decimal(&mut column_digits, columns).as_bytes(),
            b" ENTRIES ",
            decimal(&mut entry_digits, entries).as_bytes(),
            b"\n",
        ],
    )
}

pub fn put_setup<P: Sink>(print: &mut P, name: Name, sense: Sense) -> Result<(), WriteStop>
    ensures { Writes (P.taken print.old) (P.taken print.new) result
        (report_text (reports.SetUp name sense)) }
{
    let letters = name.bytes();
    put_each(
        print,
        &[
            b"SETUP   ",
            letters,
            blanks(NAME_PLACES, letters.len()),
            b" ",
            sense_word(sense),
            b"\n",
        ],
    )
}

// The line of a deck, by its name or its problem's, with how many of something it has.
fn put_counted<P: Sink>(
    print: &mut P,
    word: &'static [u8],
    name: Name,
    of: &'static [u8],
    count: u32,
) -> Result<(), WriteStop>
    ensures { Writes (P.taken print.old) (P.taken print.new) result
        (concat (word.now ∷ name8 name ∷ of.now ∷ digits count ∷ codes "\n" ∷ [])) }
{
    let mut count_digits = Buffer::new();
    let letters = name.bytes();
    put_each(
        print,
        &[
            word,
            letters,
            blanks(NAME_PLACES, letters.len()),
            of,
            decimal(&mut count_digits, count).as_bytes(),
            b"\n",
        ],
    )
}

pub fn put_bcd_out<P: Sink>(print: &mut P, name: Name, cards: u32) -> Result<(), WriteStop>
    ensures { Writes (P.taken print.old) (P.taken print.new) result
        (report_text (reports.BcdOut name cards)) }
{
    put_counted(print, b"BCDOUT  ", name, b" CARDS ", cards)
}

pub fn put_basis_out<P: Sink>(print: &mut P, name: Name, cards: u32) -> Result<(), WriteStop>
    ensures { Writes (P.taken print.old) (P.taken print.new) result
        (report_text (reports.BasisOut name cards)) }
{
    put_counted(print, b"PUNCH   ", name, b" CARDS ", cards)
}

pub fn put_inserted<P: Sink>(print: &mut P, name: Name, basic: u32) -> Result<(), WriteStop>
    ensures { Writes (P.taken print.old) (P.taken print.new) result
        (report_text (reports.Inserted name basic)) }
{
    put_counted(print, b"INSERT  ", name, b" BASIC ", basic)
}
