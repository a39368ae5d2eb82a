//! The order in which the basic columns enter a new file. A column that is 0 at the pivot rows before it makes no new numbers, so rows
//! with one column left come first, and columns with one row left come last but for a few. The order decides how sparse the etas are;
//! nothing else rests on it.

use eta_file::EtaFile;
use lp_model::{Entry, NoMemory};
use std::alloc::Global;

/// A column that enters, from 1, and the row that it had better take, from 1; 0 where any row will do.
#[derive(Clone, Copy)]
pub struct Entering {
    pub column: u32,
    pub row: u32,
}

/// A row or a column of the deck, and the places of the columns or the rows that it has a number in.
#[derive(Drop)]
struct Line {
    number: u32,
    crossed: Vec<usize>,
    left: usize,
    open: bool,
}

impl Line {
    fn new(alloc: Global, number: u32, open: bool) -> Line {
        Line {
            number,
            crossed: Vec::new(alloc),
            left: 0,
            open,
        }
    }

    /// One number more.
    fn cross(&mut self, place: usize) -> Result<(), NoMemory> {
        self.crossed.push(place).map_err(|_| NoMemory)?;
        self.left = self.left.saturating_add(1);
        Ok(())
    }

    /// One number less. Answers whether one is left.
    fn leave(&mut self) -> bool {
        self.left = self.left.saturating_sub(1);
        self.open && self.left == 1
    }
}

/// All rows, or all columns that are basic. Those are open that have no place in the order yet. The single ones came to one open
/// number left.
#[derive(Drop)]
struct Side {
    lines: Vec<Line>,
    single: Vec<usize>,
}

impl Side {
    fn new(alloc: Global) -> Side {
        Side {
            lines: Vec::new(alloc),
            single: Vec::new(alloc),
        }
    }

    /// The line at a place in the deck, or 0 where there is none.
    fn number(&self, place: usize) -> u32 {
        match self.lines.get(place) {
            Some(line) => line.number,
            None => 0,
        }
    }

    /// Whether the line at this place is open.
    fn is_open(&self, place: usize) -> bool {
        match self.lines.get(place) {
            Some(line) => line.open,
            None => false,
        }
    }

    /// The open line that the one at this place crosses, if it is open and crosses one alone.
    fn only(&self, across: &Side, place: usize) -> Option<usize> {
        let line = self.lines.get(place)?;
        if !line.open || line.left != 1 {
            return None;
        }
        for other in &line.crossed {
            if across.is_open(*other) {
                return Some(*other);
            }
        }
        None
    }

    /// Closes the line at this place: those that it crosses have one number less.
    fn close(&mut self, across: &mut Side, place: usize) -> Result<(), NoMemory> {
        let Some(line) = self.lines.get_mut(place) else {
            return Ok(());
        };
        line.open = false;
        for other in &line.crossed {
            across.lose(*other)?;
        }
        Ok(())
    }

    /// The line at this place has one number less.
    fn lose(&mut self, place: usize) -> Result<(), NoMemory> {
        if let Some(line) = self.lines.get_mut(place) {
            if line.leave() {
                self.single.push(place).map_err(|_| NoMemory)?;
            }
        }
        Ok(())
    }

    /// Lists the open lines with one number.
    fn list_single(&mut self) -> Result<(), NoMemory> {
        for (place, line) in self.lines.iter().enumerate() {
            if line.open && line.left == 1 {
                self.single.push(place).map_err(|_| NoMemory)?;
            }
        }
        Ok(())
    }
}

/// The rows that have to leave and the columns that are to enter, and the order so far.
#[derive(Drop)]
struct Pattern {
    rows: Side,
    columns: Side,
    front: Vec<Entering>,
    back: Vec<Entering>,
    spikes: Vec<Entering>,
    alloc: Global,
}

impl Pattern {
    /// Of the basics of this file.
    fn of(old: &EtaFile) -> Result<Pattern, NoMemory> {
        let alloc = old.alloc();
        let size = old.size();
        let rows = old.rows();
        let mut pattern = Pattern {
            rows: Side::new(alloc),
            columns: Side::new(alloc),
            front: Vec::new(alloc),
            back: Vec::new(alloc),
            spikes: Vec::new(alloc),
            alloc,
        };
        for r in 0..rows {
            let row = Line::new(alloc, r + 1, !old.is_basic(r + 1));
            pattern.rows.lines.push(row).map_err(|_| NoMemory)?;
        }
        for c in 0..size - rows {
            if old.is_basic(rows + c + 1) {
                pattern.add_column(c + 1, old.numbers(c + 1))?;
            }
        }
        pattern.rows.list_single()?;
        pattern.columns.list_single()?;
        Ok(pattern)
    }

    /// One basic column more.
    fn add_column(&mut self, number: u32, entries: &[Entry]) -> Result<(), NoMemory> {
        let place = self.columns.lines.len();
        let mut column = Line::new(self.alloc, number, true);
        for entry in entries {
            let row_place = (entry.row as usize).saturating_sub(1);
            if self.rows.is_open(row_place) && !entry.value.is_zero() {
                column.cross(row_place)?;
                if let Some(row) = self.rows.lines.get_mut(row_place) {
                    row.cross(place)?;
                }
            }
        }
        self.columns.lines.push(column).map_err(|_| NoMemory)
    }

    /// A row with one column left comes next.
    fn to_front(&mut self, row: usize) -> Result<(), NoMemory> {
        if let Some(column) = self.rows.only(&self.columns, row) {
            let pair = self.close(column, row)?;
            self.front.push(pair).map_err(|_| NoMemory)?;
        }
        Ok(())
    }

    /// A column with one row left goes before those that went to the back earlier.
    fn to_back(&mut self, column: usize) -> Result<(), NoMemory> {
        if let Some(row) = self.columns.only(&self.rows, column) {
            let pair = self.close(column, row)?;
            self.back.push(pair).map_err(|_| NoMemory)?;
        }
        Ok(())
    }

    /// Closes a column and its row, whose place in the order is known, and gives them by their numbers.
    fn close(&mut self, column: usize, row: usize) -> Result<Entering, NoMemory> {
        self.columns.close(&mut self.rows, column)?;
        self.rows.close(&mut self.columns, row)?;
        Ok(Entering {
            column: self.columns.number(column),
            row: self.rows.number(row),
        })
    }

    /// A column that no row waits for is set aside, to enter after all others but those set aside before it.
    fn to_spikes(&mut self, column: usize) -> Result<(), NoMemory> {
        let spike = Entering {
            column: self.columns.number(column),
            row: 0,
        };
        self.spikes.push(spike).map_err(|_| NoMemory)?;
        self.columns.close(&mut self.rows, column)
    }

    /// The fewest columns that an open row has left, of those that have any.
    fn fewest(&self) -> usize {
        let mut fewest = 0;
        for row in &self.rows.lines {
            if row.open && row.left > 0 && (fewest == 0 || row.left < fewest) {
                fewest = row.left;
            }
        }
        fewest
    }

    /// For each column, how many of the open rows with so many columns left it stands in.
    fn tally(&self, left: usize) -> Result<Vec<u32>, NoMemory> {
        let mut tally = vec![in self.alloc; 0; self.columns.lines.len()].map_err(|_| NoMemory)?;
        for row in &self.rows.lines {
            if row.open && row.left == left {
                count_each(&row.crossed, &mut tally);
            }
        }
        Ok(tally)
    }

    /// Of the rows with the fewest columns left, the column that stands in most of them, and of such columns the one with most rows.
    fn spike(&self) -> Result<Option<usize>, NoMemory> {
        let tally = self.tally(self.fewest())?;
        let mut best = None;
        let mut most = 0;
        let mut rows = 0;
        for (place, column) in self.columns.lines.iter().enumerate() {
            let count = count_at(&tally, place);
            if column.open && (count > most || (count > 0 && count == most && column.left > rows)) {
                best = Some(place);
                most = count;
                rows = column.left;
            }
        }
        Ok(best)
    }

    /// One line more. Answers whether there was one.
    fn step(&mut self) -> Result<bool, NoMemory> {
        if let Some(row) = self.rows.single.pop() {
            self.to_front(row)?;
            return Ok(true);
        }
        if let Some(column) = self.columns.single.pop() {
            self.to_back(column)?;
            return Ok(true);
        }
        match self.spike()? {
            Some(column) => {
                self.to_spikes(column)?;
                Ok(true)
            }
            None => Ok(false),
        }
    }

    /// The whole order: the front, then the back, then the spikes, the last of each of these first.
    fn order(mut self) -> Result<Vec<Entering>, NoMemory> {
        while let Some(pair) = self.back.pop() {
            self.front.push(pair).map_err(|_| NoMemory)?;
        }
        while let Some(spike) = self.spikes.pop() {
            self.front.push(spike).map_err(|_| NoMemory)?;
        }
        Ok(self.front)
    }
}

/// Counts one more at each of these places.
fn count_each(places: &[usize], tally: &mut [u32]) {
    for place in places {
        if let Some(count) = tally.get_mut(*place) {
            *count = count.saturating_add(1);
        }
    }
}

/// The count at a place.
fn count_at(tally: &[u32], place: usize) -> u32 {
    match tally.get(place) {
        Some(count) => *count,
        None => 0,
    }
}

/// An order of the basic columns of this file.
pub fn entering_order(old: &EtaFile) -> Result<Vec<Entering>, NoMemory> {
    let mut pattern = Pattern::of(old)?;
    for _ in 0..3 * u64::from(old.size()) {
        if !pattern.step()? {
            break;
        }
    }
    pattern.order()
}
