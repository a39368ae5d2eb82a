// Listings that are changed, and what each is found to be.
ghost use Rattle.std.specs.Prelude.{◌≤◌, length, IfSome};

use job_devices::{MemorySink, MemorySource};
use listing_check::check_listing;
use listing_claims::Checks;
use std::alloc::Global;
use std::test::Fail;

/// What is changed in a text.
#[derive(Clone, Copy)]
pub enum Edit {
    /// The first place where the one text stands gets the other.
    Text(&'static [u8], &'static [u8]),
    /// All from there on is replaced by the other.
    From(&'static [u8], &'static [u8]),
    /// The first place where these parts stand one after another gets the others.
    Parts(&'static [&'static [u8]], &'static [&'static [u8]]),
}

/// What a checker finds of a listing.
#[derive(Clone, Copy)]
pub enum Finding {
    /// So many reports are attested.
    Attested(u64),
    /// What is due at the line of this number is wrong.
    Wrong(u64),
    /// It can't be attested.
    Open(u64),
    /// An operation of its test is refused.
    Unchecked(u64),
}

impl Finding {
    // The status with which it is answered.
    fn status(self) -> u8 {
        match self {
            Finding::Attested(_) => 0,
            Finding::Wrong(_) => 40,
            Finding::Open(_) => 41,
            Finding::Unchecked(_) => 42,
        }
    }

    // The line that is printed of it.
    fn line(self, alloc: Global) -> Result<String, Fail> {
        Ok(match self {
            Finding::Attested(reports) => format!(in alloc; "ATTESTED {reports} REPORTS\n")?,
            Finding::Wrong(line) => format!(in alloc; "WRONG LINE {line}\n")?,
            Finding::Open(line) => format!(in alloc; "OPEN LINE {line}\n")?,
            Finding::Unchecked(line) => format!(in alloc; "UNCHECKED LINE {line}\n")?,
        })
    }
}

/// A change of a listing, and what is found of it then.
pub struct Case {
    /// What is changed.
    pub name: &'static str,
    pub edit: Edit,
    pub found: Finding,
}

/// A job, its listing with what is found of it, and changes of that.
pub struct Listing {
    pub name: &'static str,
    /// The control program and the decks, one after another.
    pub job: &'static [&'static [u8]],
    /// The parts of the listing, one after another.
    pub text: &'static [&'static [u8]],
    pub found: Finding,
    pub cases: &'static [Case],
}

/// What is answered.
#[derive(Drop)]
pub struct Answer {
    pub status: u8,
    pub print: MemorySink,
}

impl Answer {
    /// Whether it has this status and this line.
    pub fn is(&self, status: u8, line: &[u8]) -> bool {
        self.status == status && self.print.bytes() == line
    }
}

// Where a text stands first.
fn place_of(text: &[u8], part: &[u8]) -> Option<usize>
    ensures { IfSome result (λ place. place ≤ length text.now) }
{
    for place in 0..text.len() {
        if text[place..].starts_with(part) {
            return Some(place);
        }
    }
    None
}

// The text with this at the first place of the other. What is left there goes on, or ends.
fn replaced(
    alloc: Global,
    text: &[u8],
    old: &[u8],
    new: &[u8],
    goes_on: bool,
) -> Result<Option<Vec<u8>>, Fail> {
    let Some(place) = place_of(text, old) else {
        return Ok(None);
    };
    let (before, from) = text.split_at(place);
    let mut made = Vec::from_slice(alloc, before)?;
    made.extend_from_slice(new)?;
    if goes_on {
        made.extend_from_slice(from.strip_prefix(old).unwrap_or(b""))?;
    }
    Ok(Some(made))
}

/// The text after a change. None where what is to be changed isn't there.
pub fn edited(alloc: Global, text: &[u8], edit: Edit) -> Result<Option<Vec<u8>>, Fail> {
    match edit {
        Edit::Text(old, new) => replaced(alloc, text, old, new, true),
        Edit::From(old, new) => replaced(alloc, text, old, new, false),
        Edit::Parts(old, new) => {
            replaced(alloc, text, &old.concat(alloc)?, &new.concat(alloc)?, true)
        }
    }
}

/// What a checker answers to a job and a listing, over a print whose writes with these numbers fail.
pub fn answer_from<T: Checks>(
    alloc: Global,
    mut job: MemorySource,
    mut listing: MemorySource,
    failing_writes: &[u64],
) -> Result<Answer, Fail> {
    let mut print = MemorySink::new(alloc, failing_writes)?;
    let status = check_listing::<T, _, _, _>(alloc, &[], &mut job, &mut listing, &mut print).code();
    Ok(Answer { status, print })
}

/// Whether a checker answers with this finding to the job of these parts and a listing.
pub fn finds<T: Checks>(
    alloc: Global,
    parts: &[&[u8]],
    listing: &[u8],
    found: Finding,
) -> Result<bool, Fail> {
    let job = parts.concat(alloc)?;
    let answer = answer_from::<T>(
        alloc,
        MemorySource::new(alloc, &job, &[])?,
        MemorySource::new(alloc, listing, &[])?,
        &[],
    )?;
    Ok(answer.is(found.status(), found.line(alloc)?.as_bytes()))
}

// The first change of a listing after which a checker answers with another finding, or which can't be made. The listing as it is
// comes before its changes.
fn first_other<T: Checks>(alloc: Global, listing: &Listing) -> Result<Option<&'static str>, Fail> {
    let text = listing.text.concat(alloc)?;
    if !finds::<T>(alloc, listing.job, &text, listing.found)? {
        return Ok(Some("as it is"));
    }
    for case in listing.cases {
        let Some(changed) = edited(alloc, &text, case.edit)? else {
            return Ok(Some(case.name));
        };
        if !finds::<T>(alloc, listing.job, &changed, case.found)? {
            return Ok(Some(case.name));
        }
    }
    Ok(None)
}

/// The first listing of which a change is answered otherwise by a checker, with this change.
pub fn first_wrong<T: Checks>(
    alloc: Global,
    listings: &[&Listing],
) -> Result<Option<(&'static str, &'static str)>, Fail> {
    for listing in listings {
        if let Some(case) = first_other::<T>(alloc, listing)? {
            return Ok(Some((listing.name, case)));
        }
    }
    Ok(None)
}
