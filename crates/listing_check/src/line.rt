// The lines that a check prints.
ghost use Rattle.std.specs.Prelude.{◌≡◌, ◌+◌, ◌-◌, ◌≤◌, ◌∷◌, [], Some, codes, length};
ghost use Rattle.std.specs.List.{concat};
ghost use Rattle.listing_definitions.specs.Numbers.{digits};
ghost use Rattle.job_devices.specs.Text.{Writes};
ghost use Rattle.walk_definitions.specs.Found.{line_feeds, line_number, line_text, answer_text};
ghost use Rattle.listing_walk.specs.Ended.{found_view};
ghost use Rattle.listing_check.specs.Statuses.{cut_status, status_of};
ghost use Rattle.listing_check.specs.Devices.{EndsWith};

use crate::status::CheckStatus;
use itoa::Buffer;
use job_devices::{Sink, WriteStop, put_all, put_each};
use listing_walk::Found;

// The digits of a number.
#[tactic(auto, using(listing_definitions::proofs::Decimals::decimal_is_digits))]
fn decimal(buffer: &mut Buffer, number: usize) -> &str
    ensures { result.now ≡ digits number }
{
    buffer.format(number)
}

// How many line feeds there are.
fn line_feeds(bytes: &[u8]) -> usize
    ensures count { result ≡ line_feeds bytes.now }
    ensures most { result ≤ length bytes.now }
{
    bytes.iter().filter(|byte| **byte == b'\n').count()
}

// The line that begins where so much is left.
fn line_number(listing: &[u8], rest: &[u8]) -> usize
    ensures { result ≡ line_number listing.now rest.now }
{
    line_feeds(listing).saturating_sub(line_feeds(rest)) + 1
}

// A word, and the line of which it is said.
fn put_place<P: Sink>(
    print: &mut P,
    word: &'static [u8],
    listing: &[u8],
    rest: &[u8],
) -> Result<(), WriteStop>
    ensures { Writes (P.taken print.old) (P.taken print.new) result
        (line_text word.now listing.now rest.now) }
{
    let mut digits = Buffer::new();
    put_each(
        print,
        &[
            word,
            b" LINE ",
            decimal(&mut digits, line_number(listing, rest)).as_bytes(),
            b"\n",
        ],
    )
}

// That the listing is attested, with so many reports.
fn put_attested<P: Sink>(print: &mut P, reports: u32) -> Result<(), WriteStop>
    ensures { Writes (P.taken print.old) (P.taken print.new) result
        (concat (codes "ATTESTED " ∷ digits reports ∷ codes " REPORTS\n" ∷ [])) }
{
    let mut digits = Buffer::new();
    put_each(
        print,
        &[
            b"ATTESTED ",
            decimal(&mut digits, reports as usize).as_bytes(),
            b" REPORTS\n",
        ],
    )
}

// What a listing is found to be.
fn put_found<P: Sink>(print: &mut P, listing: &[u8], found: &Found<'_>) -> Result<(), WriteStop>
    ensures { Writes (P.taken print.old) (P.taken print.new) result
        (answer_text listing.now (Some (found_view found.now))) }
{
    match found {
        Found::Attested(reports) => put_attested(print, *reports),
        Found::Wrong(rest) => put_place(print, b"WRONG", listing, rest),
        Found::Open(rest) => put_place(print, b"OPEN", listing, rest),
        Found::Unchecked(rest) => put_place(print, b"UNCHECKED", listing, rest),
    }
}

// The status of what a listing is found to be.
fn found_status(found: &Found<'_>) -> CheckStatus
    ensures { result ≡ status_of (Some (found_view found.now)) }
{
    match found {
        Found::Attested(_) => CheckStatus::Attested,
        Found::Wrong(_) => CheckStatus::Wrong,
        Found::Open(_) => CheckStatus::Open,
        Found::Unchecked(_) => CheckStatus::Unchecked,
    }
}

// The status where the print took no more.
fn status_of_cut(stop: WriteStop) -> CheckStatus
    ensures { result ≡ cut_status stop }
{
    match stop {
        WriteStop::Failed => CheckStatus::PrintFault,
        WriteStop::NoMemory => CheckStatus::Memory,
    }
}

/// Prints a line, and answers its status. A stop of the print comes before it.
pub fn end_with<P: Sink>(print: &mut P, line: &'static [u8], own: CheckStatus) -> CheckStatus
    ensures { EndsWith (P.taken print.old) (P.taken print.new) line.now own result }
{
    match put_all(print, line) {
        Ok(()) => own,
        Err(stop) => status_of_cut(stop),
    }
}

/// Prints what a listing is found to be, and answers the status of that. A stop of the print comes before it.
pub fn end_found<P: Sink>(print: &mut P, listing: &[u8], found: &Found<'_>) -> CheckStatus
    ensures { EndsWith (P.taken print.old) (P.taken print.new)
        (answer_text listing.now (Some (found_view found.now)))
        (status_of (Some (found_view found.now))) result }
{
    match put_found(print, listing, found) {
        Ok(()) => found_status(found),
        Err(stop) => status_of_cut(stop),
    }
}
