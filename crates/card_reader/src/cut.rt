// Cuts the bytes of a job into cards, and looks for the first card with a fault on the way.
ghost use Rattle.std.specs.Prelude.{◌≡◌, ◌+◌, ◌≤◌, ◌<◌, ◌∷◌, length, drop, All, Some, IfOk, IsErrOf};
ghost use Rattle.std.specs.List.{list_all, position, position_or_len, suffix_len};
ghost use Rattle.card_definitions.specs.Cards.{is_line_feed, is_trailing, is_printable, cards_of, card_fault};
ghost use Rattle.card_reader.specs.Reading.{Judges};
ghost use Rattle.card_reader.specs.Spans.{span_bytes, cards_at, IsWithin, IsFaultless};
ghost use Rattle.card_definitions.specs.declared.TheConstants.{MAX_JOB_BYTES};

use crate::span::Span;
use crate::stop::{CardStop, ReadingFault};
use card_definitions::{CARD_COLUMNS, CardFault, MAX_JOB_CARDS};
use std::alloc::Global;

fn line_feed_at(bytes: &[u8]) -> Option<usize>
    ensures { result ≡ position is_line_feed bytes.now }
{
    bytes.iter().position(|&byte| byte == b'\n')
}

// How many bytes stand before the first line feed, or in all.
fn line_len(bytes: &[u8]) -> usize
    ensures { result ≡ position_or_len is_line_feed bytes.now }
{
    line_feed_at(bytes).unwrap_or(bytes.len())
}

// How many bytes are left without the blanks and carriage returns at the end.
fn trimmed_len(line: &[u8]) -> usize
    ensures { result + suffix_len is_trailing line.now ≡ length line.now }
{
    let mut len = line.len();
    while len > 0 && (line[len - 1] == b' ' || line[len - 1] == b'\r') {
        len -= 1;
    }
    len
}

// The card that starts here, and where the next one starts.
fn next_span(bytes: &[u8], start: usize) -> (Span, usize)
    requires { start < length bytes.now }
    ensures card { cards_of (drop start bytes.now) ≡ span_bytes bytes.now result.0 ∷ cards_of
        (drop result.1 bytes.now) }
    ensures within { IsWithin (length bytes.now) result.0 }
    ensures later { start < result.1 }
    ensures in_range { result.1 ≤ length bytes.now + 1 }
{
    let rest = &bytes[start..];
    let len = line_len(rest);
    let card = trimmed_len(&rest[..len]);
    let span = Span {
        start,
        end: start + card,
    };
    (span, start + len + 1)
}

fn is_printable(card: &[u8]) -> bool
    ensures { result ≡ list_all is_printable card.now }
{
    card.iter().all(|&byte| byte >= 32 && byte <= 126)
}

// What is wrong with the card with this number.
fn fault_of(number: u32, card: &[u8]) -> Option<CardFault>
    ensures { result ≡ card_fault (record { number = number; bytes = card.now }) }
{
    if !is_printable(card) {
        return Some(CardFault::NotPrintable(number));
    }
    if card.len() > CARD_COLUMNS {
        return Some(CardFault::CardTooLong(number));
    }
    None
}

/// Where the cards of the job stand.
pub fn cut_cards(alloc: Global, bytes: &[u8]) -> Result<Vec<Span>, CardStop<ReadingFault>>
    requires { length bytes.now ≤ MAX_JOB_BYTES }
    ensures cards { IfOk result (λ spans. cards_at bytes.now spans.items ≡ cards_of bytes.now) }
    ensures within { IfOk result (λ spans. All (IsWithin (length bytes.now)) spans.items) }
    ensures few { IfOk result (λ spans. length spans.items ≤ MAX_JOB_CARDS) }
    ensures faultless { IfOk result (λ spans. All IsFaultless (cards_at bytes.now spans.items)) }
    ensures fault { Judges result (Some bytes.now) }
    ensures no_read { IsErrOf result (CardStop.Fault ReadingFault.Source) → ⊥ }
{
    let mut spans = Vec::new(alloc);
    let mut fault = None;
    let mut start = 0;
    while start < bytes.len() {
        if spans.len() == MAX_JOB_CARDS {
            return Err(CardStop::Fault(ReadingFault::Card(CardFault::TooLong)));
        }
        let (span, next) = next_span(bytes, start);
        spans.push(span)?;
        let card = &bytes[span.start..span.end];
        fault = fault.or(fault_of(spans.len() as u32, card));
        start = next;
    }
    match fault {
        Some(fault) => Err(CardStop::Fault(ReadingFault::Card(fault))),
        None => Ok(spans),
    }
}
