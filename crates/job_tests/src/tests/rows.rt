// Worked jobs, with the status and the listing of each.
use std::alloc::Global;
use std::test::Fail;

/// A worked job.
pub struct Row {
    /// What it shows.
    pub name: &'static str,
    /// Its control program and its decks, one after another.
    pub job: &'static [&'static [u8]],
    pub status: u8,
    pub listing: &'static [u8],
}

/// A worked job that shows a plan and ends.
pub struct Solved {
    /// What it shows.
    pub name: &'static str,
    /// Its control program and its decks, one after another.
    pub job: &'static [&'static [u8]],
    /// The lines of its listing before the plan.
    pub lines: &'static [u8],
    /// The lines of the plan's rows, and of its columns.
    pub rows: &'static [u8],
    pub columns: &'static [u8],
}

const ROWS: &[u8] = b"SOLUTION OPTIMAL
SECTION 1 - ROWS
NUMBER ROW AT ACTIVITY SLACK LOWER UPPER DUAL
";

const COLUMNS: &[u8] = b"SECTION 2 - COLUMNS\nNUMBER COLUMN AT ACTIVITY COST LOWER UPPER REDUCED\n";

impl Solved {
    /// The whole listing.
    pub fn listing(&self, alloc: Global) -> Result<Vec<u8>, Fail> {
        let mut listing = Vec::from_slice(alloc, self.lines)?;
        listing.extend_from_slice(ROWS)?;
        listing.extend_from_slice(self.rows)?;
        listing.extend_from_slice(COLUMNS)?;
        listing.extend_from_slice(self.columns)?;
        listing.extend_from_slice(b"END 0\n")?;
        Ok(listing)
    }
}

/// A worked job that punches decks.
pub struct DeckRow {
    /// What it shows.
    pub name: &'static str,
    /// Its control program and its decks, one after another.
    pub job: &'static [&'static [u8]],
    pub status: u8,
    pub listing: &'static [u8],
    /// The parts of the decks that it punches.
    pub cards: &'static [&'static [u8]],
}
