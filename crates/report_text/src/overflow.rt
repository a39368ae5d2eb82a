// The text of an operation that was refused.
ghost use Rattle.std.specs.Prelude.{ℕ, ◌≡◌, ◌∷◌, ◌++◌, [], codes};
ghost use Rattle.std.specs.List.{concat, flat_map};
ghost use Rattle.listing_definitions.specs.Numbers.{digits, rational_text};
ghost use Rattle.job_devices.specs.Text.{Writes};
ghost use Rattle.listing_definitions.specs.Listing.{status_letter, basic_letter, overflow_text};
ghost use Rattle.listing_definitions.specs.Text.{refused_text};
ghost use Rattle.report_text.specs.Views.{place_view, place_text, evidence_tail, letters_of, letter_line};

use itoa::Buffer;
use job_devices::{Sink, WriteStop, put_all, put_each};
use listing_tables::{TextBuffer, decimal, fraction, operation};
use lp_definitions::{Evidence, Status};
use lp_model::Basis;

// The formula, and the refused operation.
fn put_evidence_head<P: Sink>(
    print: &mut P,
    stop: &'static [u8],
    evidence: &Evidence,
) -> Result<(), WriteStop>
    ensures { Writes (P.taken print.old) (P.taken print.new) result
        (concat (stop.now ∷ digits evidence.now.formula ∷ codes " " ∷ refused_text
        evidence.now.refused ∷ [])) }
{
    let mut formula_digits = Buffer::new();
    let left = fraction(evidence.refused.left);
    let right = fraction(evidence.refused.right);
    put_each(
        print,
        &[
            stop,
            decimal(&mut formula_digits, u32::from(evidence.formula)).as_bytes(),
            b" ",
            operation(evidence.refused.op),
            b" ",
            left.as_str().as_bytes(),
            b" ",
            right.as_str().as_bytes(),
        ],
    )
}

// The numbers of the evidence, and the card.
fn put_evidence_tail<P: Sink>(
    print: &mut P,
    evidence: &Evidence,
    card: u32,
) -> Result<(), WriteStop>
    ensures { Writes (P.taken print.old) (P.taken print.new) result
        (concat (evidence_tail evidence.now ∷ codes " CARD " ∷ digits card ∷ codes "\n" ∷ [])) }
{
    let mut p_digits = Buffer::new();
    let mut q_digits = Buffer::new();
    let mut i_digits = Buffer::new();
    let mut j_digits = Buffer::new();
    let mut term_digits = Buffer::new();
    let mut card_digits = Buffer::new();
    let theta = fraction(evidence.theta);
    put_each(
        print,
        &[
            b" P ",
            decimal(&mut p_digits, evidence.p).as_bytes(),
            b" Q ",
            decimal(&mut q_digits, evidence.q).as_bytes(),
            b" I ",
            decimal(&mut i_digits, evidence.i).as_bytes(),
            b" J ",
            decimal(&mut j_digits, evidence.j).as_bytes(),
            b" TERM ",
            decimal(&mut term_digits, evidence.term).as_bytes(),
            b" THETA ",
            theta.as_str().as_bytes(),
            b" CARD ",
            decimal(&mut card_digits, card).as_bytes(),
            b"\n",
        ],
    )
}

// What is printed as one letter.
trait Lettered: Copy {
    ghost letter_of: { Self → ℕ };

    fn letter(self) -> &'static [u8]
        ensures { result.now ≡ letter_of self ∷ [] };
}

// B, L, U or F.
impl Lettered for Status {
    ghost letter_of = { status_letter };

    fn letter(self) -> &'static [u8] {
        match self {
            Status::Bs => b"B",
            Status::Ll => b"L",
            Status::Ul => b"U",
            Status::Fr => b"F",
        }
    }
}

// B for a basic, and N for a nonbasic.
impl Lettered for bool {
    ghost letter_of = { basic_letter };

    fn letter(self) -> &'static [u8] {
        if self { b"B" } else { b"N" }
    }
}

// A letter for each of these variables, one by one.
fn put_each_letter<T: Lettered, P: Sink>(print: &mut P, items: &[T]) -> Result<(), WriteStop>
    ensures { Writes (P.taken print.old) (P.taken print.new) result
        (flat_map (letters_of T.letter_of) items.now) }
{
    for item in items {
        put_all(print, item.letter())?;
    }
    Ok(())
}

// A letter for each of these variables, in one piece where a buffer has room for it.
fn put_piece<T: Lettered, P: Sink>(print: &mut P, items: &[T]) -> Result<(), WriteStop>
    ensures { Writes (P.taken print.old) (P.taken print.new) result
        (flat_map (letters_of T.letter_of) items.now) }
{
    let mut letters = TextBuffer::new();
    match put_each_letter(&mut letters, items) {
        Ok(()) => put_all(print, letters.bytes()),
        Err(_no_room) => put_each_letter(print, items),
    }
}

// A letter for each variable, piece by piece.
fn put_letters<T: Lettered, P: Sink>(print: &mut P, items: &[T]) -> Result<(), WriteStop>
    ensures { Writes (P.taken print.old) (P.taken print.new) result
        (flat_map (letters_of T.letter_of) items.now) }
{
    let mut rest = items;
    while !rest.is_empty() {
        let (piece, after) = rest.split_at(rest.len().min(TextBuffer::CAPACITY));
        put_piece(print, piece)?;
        rest = after;
    }
    Ok(())
}

// A line of letters, after its word.
fn put_letter_line<T: Lettered, P: Sink>(
    print: &mut P,
    word: &'static [u8],
    items: &[T],
) -> Result<(), WriteStop>
    ensures { Writes (P.taken print.old) (P.taken print.new) result
        (letter_line word.now T.letter_of items.now) }
{
    put_all(print, word)?;
    put_letters(print, items)?;
    put_all(print, b"\n")
}

// The lines of the basis and of the waypoint.
fn put_letter_lines<P: Sink>(
    print: &mut P,
    statuses: &[Status],
    way: &[bool],
) -> Result<(), WriteStop>
    ensures { Writes (P.taken print.old) (P.taken print.new) result
        (letter_line (codes "BASIS ") status_letter statuses.now ++ letter_line (codes "WAY ")
        basic_letter way.now) }
{
    put_letter_line(print, b"BASIS ", statuses)?;
    put_letter_line(print, b"WAY ", way)
}

// The same lines, where there is a basis.
fn put_place<P: Sink>(print: &mut P, basis: Option<&Basis>, way: &[bool]) -> Result<(), WriteStop>
    ensures { Writes (P.taken print.old) (P.taken print.new) result
        (place_text (place_view basis.entry way.now)) }
{
    match basis {
        Some(basis) => put_letter_lines(print, basis.statuses(), way),
        None => put_all(print, b"BASIS NONE\nWAY NONE\n"),
    }
}

/// Writes the three lines of an overflow.
pub fn put_overflow<P: Sink>(
    print: &mut P,
    evidence: &Evidence,
    basis: Option<&Basis>,
    way: &[bool],
    card: u32,
) -> Result<(), WriteStop>
    ensures { Writes (P.taken print.old) (P.taken print.new) result
        (overflow_text (record {
          evidence = evidence.now;
          place = place_view basis.entry way.now;
          card = card;
        })) }
{
    put_evidence_head(print, b"STOP 20 OVERFLOW F", evidence)?;
    put_evidence_tail(print, evidence, card)?;
    put_place(print, basis, way)
}
