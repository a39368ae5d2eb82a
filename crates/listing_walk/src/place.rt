// Where the walk stands in a listing.
ghost use Rattle.std.specs.Prelude.{◌≡◌, ◌+◌, ◌≤◌, ◌<◌, true, false, [], IfOk, option_map};
ghost use Rattle.job_devices.specs.Memory.{sure_bytes};
ghost use Rattle.job_devices.specs.Text.{Writes};
ghost use Rattle.report_text.specs.Views.{IsEnding, ending_view};
ghost use Rattle.listing_definitions.specs.Listing.{ending_text};
ghost use Rattle.walk_definitions.specs.Words.{left_after, max_count};
ghost use Rattle.walk_definitions.specs.Walker as walks;
ghost use Rattle.listing_words.specs.Read.{taken};
ghost use Rattle.listing_walk.specs.Ended.{found_view};
ghost use Rattle.listing_walk.specs.Standing.{Faces};
ghost use Rattle.listing_walk.specs.Walking.{open_by, has_text, one_if, IsUnchecked, IsReported};

use crate::found::Found;
use job_devices::{NoMemory, Sink, SureSink, WriteStop};
use listing_readers::is_open_stop;
use listing_words::{Cursor, Number};
use report_text::{Ending, Report, text_of};
use std::alloc::Global;

/// An optimal verdict that no SOLUTION has shown yet: what was left of the listing where it stands, its objective, and whether the
/// listing says that it was checked.
#[derive(Drop)]
pub struct Pending<'a> {
    pub rest: &'a [u8],
    pub objective: Number<'a>,
    pub is_checked: bool,
}

/// Where the walk stands in a listing: what is left of it, the verdict that is pending, and the number of reports so far.
#[derive(Drop)]
pub struct ListingPlace<'a> {
    pub cursor: Cursor<'a>,
    pub pending: Option<Pending<'a>>,
    pub reports: u32,
}

// Writes the text of an end.
fn put_end<P: Sink>(print: &mut P, ending: &Ending<'_>) -> Result<(), WriteStop>
    requires { IsEnding ending.now }
    ensures { Writes (P.taken print.old) (P.taken print.new) result
        (ending_text (ending_view ending.now)) }
{
    text_of(&Report::End(*ending), print)
}

// The text of an end.
fn end_text(alloc: Global, ending: &Ending<'_>) -> Result<SureSink, NoMemory>
    requires { IsEnding ending.now }
    ensures { IfOk result (λ text. sure_bytes text ≡ ending_text (ending_view ending.now)) }
{
    let mut text = SureSink::new(alloc)?;
    match put_end(&mut text, ending) {
        Ok(()) => Ok(text),
        Err(_) => Err(NoMemory),
    }
}

/// Something is printed.
pub fn has_text(text: &[u8]) -> bool
    ensures { result ≡ has_text text.now }
{
    !text.is_empty()
}

impl<'a> ListingPlace<'a> {
    /// At the beginning of a listing.
    pub fn new(listing: &'a [u8]) -> ListingPlace<'a>
        ensures rest { result.cursor ≡ listing.now }
        ensures pending { result.pending ≡ None }
        ensures reports { result.reports ≡ 0 }
    {
        ListingPlace {
            cursor: Cursor::new(listing),
            pending: None,
            reports: 0,
        }
    }

    // The verdict that is pending.
    fn pending_here(&self) -> Option<Found<'a>>
        ensures { (w : walks.Walker) → Faces self.now w →
            option_map found_view result ≡ walks.open_pending w }
    {
        match &self.pending {
            Some(pending) => Some(Found::Open(pending.rest)),
            None => None,
        }
    }

    /// What can't be attested here: a stop, if one is looked for, and then the verdict that is pending, if it has to be settled.
    pub fn open_here(&self, looks: bool, clears: bool) -> Option<Found<'a>>
        ensures { (w : walks.Walker) → Faces self.now w →
            option_map found_view result ≡ open_by looks clears w }
    {
        let rest = self.cursor.left();
        if looks && is_open_stop(rest) {
            return Some(Found::Open(rest));
        }
        if clears {
            return self.pending_here();
        }
        None
    }

    /// An operation is refused here, where a stop and the verdict that is pending come first.
    pub fn unchecked(&self) -> Found<'a>
        ensures { IsUnchecked self.now result }
    {
        match self.open_here(true, true) {
            Some(found) => found,
            None => Found::Unchecked(self.cursor.left()),
        }
    }

    /// A report that can't be attested is due here, and its line stands or doesn't: a stop comes first; where the line doesn't stand it is
    /// wrong, unless an operation of the selection is refused.
    pub fn reported_here(&self, stands: bool, is_made: bool) -> Found<'a>
        ensures { IsReported self.now stands is_made result }
    {
        let rest = self.cursor.left();
        if is_open_stop(rest) || stands {
            return Found::Open(rest);
        }
        if is_made {
            Found::Wrong(rest)
        } else {
            Found::Unchecked(rest)
        }
    }

    /// Passes a text, if it stands here. One that isn't empty is a report.
    pub fn pass(&mut self, text: &[u8]) -> bool
        requires { self.old.reports < max_count }
        ensures taken { left_after text.now self.old.cursor ≡ taken result self.new.cursor }
        ensures kept { result ≡ false → self.new ≡ self.old }
        ensures pending { self.new.pending ≡ self.old.pending }
        ensures reports { result ≡ true →
            self.new.reports ≡ self.old.reports + one_if (has_text text.now) }
        ensures few { self.new.reports ≤ self.old.reports + 1 }
    {
        if !self.cursor.take(text) {
            return false;
        }
        if has_text(text) {
            self.reports += 1;
        }
        true
    }

    /// Compares what is left with the text of an end.
    pub fn close(&mut self, alloc: Global, ending: &Ending<'_>) -> Result<Found<'a>, NoMemory>
        requires { IsEnding ending.now }
        ensures closes { IfOk result (λ found. (w : walks.Walker) → Faces self.old w →
            walks.closes w (ending_view ending.now) ≡ walks.Finds (found_view found)) }
        ensures reports { self.new.reports ≡ self.old.reports }
    {
        if let Some(found) = self.open_here(true, true) {
            return Ok(found);
        }
        let rest = self.cursor.left();
        let text = end_text(alloc, ending)?;
        if !self.cursor.take(text.bytes()) {
            return Ok(Found::Wrong(rest));
        }
        let left = self.cursor.left();
        if left.is_empty() {
            Ok(Found::Attested(self.reports))
        } else {
            Ok(Found::Wrong(left))
        }
    }
}
