// Lines of tables: a variable's number and name, and its values.
ghost use Rattle.std.specs.Prelude.{◌≡◌, ◌∷◌, ◌++◌, [], codes, map};
ghost use Rattle.std.specs.List.{concat, flat_map};
ghost use Rattle.job_devices.specs.Text.{Writes};
ghost use Rattle.listing_definitions.specs.Report.{limit_value};
ghost use Rattle.listing_definitions.specs.Text.{number5, name8, value_text, line_text};
ghost use Rattle.listing_tables.specs.Values.{value_view, value_after_blank};

use crate::buffer::TextBuffer;
use crate::pieces::{NAME_PLACES, NUMBER_PLACES, at_word, blanks, decimal, fraction};
use frac128::Frac;
use itoa::Buffer;
use job_devices::{Sink, WriteStop, put_all, put_each};
use listing_definitions::At;
use name_table::Name;

/// A printed value of a table line.
#[derive(Clone, Copy, Debug)]
pub enum Value {
    /// Where the variable stands.
    Code(At),
    Number(Frac),
    /// A limit that isn't there.
    Absent,
    /// A value that the variable doesn't have.
    Dash,
}

impl Value {
    /// A limit, which may be absent.
    pub fn limit(limit: Option<Frac>) -> Value
        ensures { value_view result ≡ limit_value limit }
    {
        match limit {
            Some(number) => Value::Number(number),
            None => Value::Absent,
        }
    }
}

// A value after a blank.
fn put_value<P: Sink>(print: &mut P, value: Value) -> Result<(), WriteStop>
    ensures { Writes (P.taken print.old) (P.taken print.new) result (value_after_blank value) }
{
    match value {
        Value::Code(at) => put_each(print, &[b" ", at_word(at)]),
        Value::Number(number) => {
            let text = fraction(number);
            put_each(print, &[b" ", text.as_str().as_bytes()])
        }
        Value::Absent => put_all(print, b" NONE"),
        Value::Dash => put_all(print, b" -"),
    }
}

// Each value after a blank.
fn put_values<P: Sink>(print: &mut P, values: &[Value]) -> Result<(), WriteStop>
    ensures { Writes (P.taken print.old) (P.taken print.new) result
        (flat_map value_after_blank values.now) }
{
    for value in values {
        put_value(print, *value)?;
    }
    Ok(())
}

// The number and the name.
fn put_line_head<P: Sink>(print: &mut P, number: u32, name: Name) -> Result<(), WriteStop>
    ensures { Writes (P.taken print.old) (P.taken print.new) result
        (concat (number5 number ∷ codes " " ∷ name8 name ∷ [])) }
{
    let mut buffer = Buffer::new();
    let digits = decimal(&mut buffer, number).as_bytes();
    let letters = name.bytes();
    put_each(
        print,
        &[
            blanks(NUMBER_PLACES, digits.len()),
            digits,
            b" ",
            letters,
            blanks(NAME_PLACES, letters.len()),
        ],
    )
}

// A line of a table, part by part.
fn put_line_parts<P: Sink>(
    print: &mut P,
    number: u32,
    name: Name,
    values: &[Value],
) -> Result<(), WriteStop>
    ensures { Writes (P.taken print.old) (P.taken print.new) result
        (line_text (record { number = number; name = name; values = map value_view values.now })) }
{
    put_line_head(print, number, name)?;
    put_values(print, values)?;
    put_all(print, b"\n")
}

/// Writes a line of a table, in one piece where a buffer has room for it.
pub fn put_line<P: Sink>(
    print: &mut P,
    number: u32,
    name: Name,
    values: &[Value],
) -> Result<(), WriteStop>
    ensures { Writes (P.taken print.old) (P.taken print.new) result
        (line_text (record { number = number; name = name; values = map value_view values.now })) }
{
    let mut line = TextBuffer::new();
    match put_line_parts(&mut line, number, name, values) {
        Ok(()) => put_all(print, line.bytes()),
        Err(_no_room) => put_line_parts(print, number, name, values),
    }
}
