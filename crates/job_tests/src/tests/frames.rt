// Jobs that are alike but for some cards, with what is answered to each.
use super::jobs::answer_of;
use std::alloc::Global;
use std::test::Fail;

/// The parts of a text that stand before and after what changes from case to case.
pub struct Frame {
    pub before: &'static [&'static [u8]],
    pub after: &'static [&'static [u8]],
}

impl Frame {
    /// The text with this between the parts.
    pub fn around(&self, alloc: Global, changing: &[u8]) -> Result<Vec<u8>, Fail> {
        let mut text = self.before.concat(alloc)?;
        text.extend_from_slice(changing)?;
        text.extend_from_slice(&self.after.concat(alloc)?)?;
        Ok(text)
    }
}

/// What a job stops at.
#[derive(Clone, Copy)]
pub enum Stop {
    Control,
    Verb,
    Deck,
    Card,
}

impl Stop {
    fn status(self) -> u8 {
        match self {
            Stop::Control => 8,
            Stop::Verb => 10,
            Stop::Deck => 12,
            Stop::Card => 13,
        }
    }

    // The last line of the listing, before the number of the fault.
    fn words(self) -> &'static [u8] {
        match self {
            Stop::Control => b"STOP 8 CONTROL FAULT ",
            Stop::Verb => b"STOP 10 VERB FAULT ",
            Stop::Deck => b"STOP 12 DECK FAULT ",
            Stop::Card => b"STOP 13 CARD FAULT ",
        }
    }
}

/// Cards with a fault: what they show, the cards, and the fault's number with its place, as the listing tells them.
pub type Fault = (&'static str, &'static str, &'static str);

/// Jobs of which some cards have a fault: what stands around the cards, the lines of the listing before the last, and what the jobs
/// stop at.
pub struct Refusals {
    pub job: Frame,
    pub listing: &'static [u8],
    pub stop: Stop,
}

impl Refusals {
    /// Whether the job with these cards stops at this fault.
    pub fn has(&self, alloc: Global, cards: &str, fault: &str) -> Result<bool, Fail> {
        let job = self.job.around(alloc, cards.as_bytes())?;
        let mut listing = Vec::from_slice(alloc, self.listing)?;
        listing.extend_from_slice(self.stop.words())?;
        listing.extend_from_slice(fault.as_bytes())?;
        listing.push(b'\n')?;
        Ok(answer_of(alloc, &job)?.is(self.stop.status(), &listing))
    }

    /// The name of the first of these cards that don't have this fault.
    pub fn first_unmet(
        &self,
        alloc: Global,
        faults: &[Fault],
    ) -> Result<Option<&'static str>, Fail> {
        for (name, cards, fault) in faults {
            if !self.has(alloc, cards, fault)? {
                return Ok(Some(*name));
            }
        }
        Ok(None)
    }
}

/// The first cards of a program: it reads a problem, sets it up, or does so with the set BND of bounds.
pub const CONVERTED: &[u8] = b"         PROGRAM\n         CONVERT\n";

pub const SET_UP: &[u8] = b"         PROGRAM\n         CONVERT\n         SETUP\n";

pub const SET_UP_BND: &[u8] = b"         PROGRAM
         CONVERT
         SETUP('BOUND','BND')
";

/// Jobs over one problem: the first cards of their programs, the problem's deck in parts, and the first lines of their listings.
pub struct Jobs {
    pub program: &'static [u8],
    pub problem: &'static [&'static [u8]],
    pub listing: &'static [u8],
}

impl Jobs {
    // The job with these statements and these decks behind the problem's.
    fn job(&self, alloc: Global, statements: &[u8], decks: &[u8]) -> Result<Vec<u8>, Fail> {
        let mut job = Vec::from_slice(alloc, self.program)?;
        job.extend_from_slice(statements)?;
        job.extend_from_slice(b"         EXIT\n         PEND\n")?;
        job.extend_from_slice(&self.problem.concat(alloc)?)?;
        job.extend_from_slice(decks)?;
        Ok(job)
    }

    fn listing(&self, alloc: Global, lines: &[u8]) -> Result<Vec<u8>, Fail> {
        let mut listing = Vec::from_slice(alloc, self.listing)?;
        listing.extend_from_slice(lines)?;
        Ok(listing)
    }
}

/// A job over a problem: its statements, and the lines of its listing after the first.
pub struct Case {
    pub name: &'static str,
    pub jobs: &'static Jobs,
    pub statements: &'static [u8],
    pub status: u8,
    pub lines: &'static [u8],
}

impl Case {
    /// The whole job.
    pub fn job(&self, alloc: Global) -> Result<Vec<u8>, Fail> {
        self.jobs.job(alloc, self.statements, b"")
    }

    /// The whole listing.
    pub fn listing(&self, alloc: Global) -> Result<Vec<u8>, Fail> {
        self.jobs.listing(alloc, self.lines)
    }
}

/// The name of the first of these cases that has another status or listing.
pub fn first_unanswered(alloc: Global, cases: &[Case]) -> Result<Option<&'static str>, Fail> {
    for case in cases {
        let answer = answer_of(alloc, &case.job(alloc)?)?;
        if !answer.is(case.status, &case.listing(alloc)?) {
            return Ok(Some(case.name));
        }
    }
    Ok(None)
}

/// A job over a problem that has other decks behind it, or punches some: also these decks, and the cards that it punches, in parts.
pub struct DeckCase {
    pub name: &'static str,
    pub jobs: &'static Jobs,
    pub statements: &'static [u8],
    pub decks: &'static [u8],
    pub status: u8,
    pub lines: &'static [u8],
    pub cards: &'static [&'static [u8]],
}

impl DeckCase {
    /// Whether the job has this status and this listing, and has punched these cards.
    pub fn is_punched(&self, alloc: Global) -> Result<bool, Fail> {
        let answer = answer_of(alloc, &self.jobs.job(alloc, self.statements, self.decks)?)?;
        let listing = self.jobs.listing(alloc, self.lines)?;
        Ok(answer.is_punched(self.status, &listing, &self.cards.concat(alloc)?))
    }
}
