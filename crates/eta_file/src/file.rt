//! The eta file.

ghost use Rattle.std.specs.Prelude.{◌≡◌, ◌≢◌, ℕ, ◌+◌, ◌-◌, ◌*◌, ◌<◌, ◌≤◌, [], ◌∷◌, length, take, map, filter, All, nat_eq, not, IfOk, IfSome, IfErr, OnOk};
ghost use Rattle.std.specs.Prelude.{OnErr, slice_index_or};
ghost use Rattle.exact_values.specs.Rational.{zero_ℚ};
ghost use Rattle.exact_values.specs.Tests.{eq_ℚ};
ghost use Rattle.lp_definitions.specs.LinearProgram.{IsMatrix, IsVariable, IsColumn, column, size, value_at};
ghost use Rattle.lp_definitions.specs.Basis.{is_in, IsBasic, IsNonbasic, IsNonsingular, IsDirectionOf, exchanged, row_basics};
ghost use Rattle.lp_definitions.specs.Waypoints.{waypoint};
ghost use Rattle.lp_definitions.specs.RatesEvidence.{ExchangeRefused};
ghost use Rattle.lp_model.specs.RatesCalls.{HasPivot, ColumnOverflow, ExchangeOverflow};
ghost use Rattle.eta_file.specs.Transformations.{AreZero, NoneLater, LeftAt};
ghost use Rattle.eta_file.specs.Prefixes.{Passed, entry_of, entries_to, IsLent, IsLentScaled, IsExchangeOf, basic_columns, after, entry_count};
ghost use Rattle.eta_file.specs.declared.eta.StoredEta.{StoredEta};
ghost use Rattle.eta_file.specs.Inverse.{ways_of, IsAppended, IsNextEta, IsDirectionAfter, file_state};
ghost use Rattle.eta_file.specs.WordColumns.{AreWordsOf};
ghost use Rattle.eta_file.specs.Workspaces.{IsWorkspaceFor};
ghost use Rattle.whole_vectors.specs.Quotients.{Represent};

use crate::basic_set::{BasicSet, place_of};
use crate::carry::{clear, fill_column, last_left, leave, transform};
use crate::eta::{Eta, EtaEntry, ScaledEta, StoredEta};
use crate::guess::{gathered, has_long_numbers, keeps_equations};
use crate::modular::{ModularFile, ModularState};
use crate::steps::Steps;
use crate::whole::{begin_whole, leave_whole, transform_whole, whole_eta};
use crate::words::{WordEntry, words_of_columns};
use crate::workspace::ColumnWorkspace;
use frac128::Frac;
use lp_model::{Entry, Evidence, Lp, NoMemory, Ratio, SparseVector, Stop};
use std::alloc::Global;
use std::marker::{Brand, Model};
use std::mem::replace;
use std::rc::Rc;
use std::sync::ledger::{Blank, Ledger};
use whole_vectors::{LARGE, SparseWholes};

/// The most etas that a file holds.
const MOST_ETAS: usize = 4_294_967_294;

/// A denominator of this size or more is reduced, where numbers that fit one machine word mostly stay words.
const VERY_LARGE: u128 = 1 << 58;

/// An eta whose direction has fewer numbers that aren't 0 is kept in lowest terms, since its fractions may be asked for often.
const FEW_NUMBERS: usize = 40;

/// A direction carried with fewer places is put by these, and another one by the basics.
const FEW_PLACES: usize = 48;

/// The least denominator that may have a common divisor with numbers.
const LEAST: u128 = 2;

/// A set of basics of one matrix, and the exchanges that led to it from the rows. Waypoint w, from 1, is the set of basics after the
/// first w - 1 etas.
#[derive(Drop)]
pub struct EtaFile {
    rows: u32,
    cols: u32,
    columns: Rc<Vec<Vec<Entry>>, Global>,
    words: Rc<Vec<Option<Vec<WordEntry>>>, Global>,
    basics: BasicSet,
    etas: Vec<StoredEta>,
    modular: ModularState,
    alloc: Global,
}

impl Model for EtaFile {
    ghost use Rattle.eta_file.specs.Inverse.{Inverse};

    ghost Value = { Inverse };

    ghost use Rattle.eta_file.specs.File.{inverse_of, IsFile};

    ghost view = { inverse_of };

    ghost invariant = { IsFile };
}

/// A mark for each row, and none for the columns.
fn row_marks(alloc: Global, lp: &Lp) -> Result<Vec<bool>, NoMemory>
    ensures { IfOk result (λ marks. marks.items ≡ row_basics lp.now.matrix) }
{
    let mut marks = Vec::new(alloc);
    for k in 0..lp.number_of_variables() {
        marks.push(k < lp.rows).map_err(|_| NoMemory)?;
    }
    Ok(marks)
}

/// The numbers of a direction at the listed variables, where they are not 0.
fn entries_of(alloc: Global, direction: &[Frac], listed: &[u32]) -> Result<Vec<EtaEntry>, NoMemory>
    requires { All (λ k. (1 ≤ k) × (k ≤ length direction.now)) listed.now }
    ensures { IfOk result (λ entries. entries.items ≡ map (entry_of (value_at direction.now))
        (filter (λ k. not (eq_ℚ (value_at direction.now k) zero_ℚ)) listed.now)) }
{
    let mut entries = Vec::new(alloc);
    for k in listed {
        let rate = direction[*k as usize - 1];
        if !rate.is_zero() {
            entries
                .push(EtaEntry {
                    i: *k,
                    rate: Ratio::of(rate),
                })
                .map_err(|_| NoMemory)?;
        }
    }
    Ok(entries)
}

/// The numbers of a direction at the basics, where they are not 0.
fn entries_at(
    alloc: Global,
    direction: &[Frac],
    basics: &BasicSet,
) -> Result<Vec<EtaEntry>, NoMemory>
    requires { length direction.now ≡ length basics.now }
    ensures { IfOk result (λ entries. entries.items ≡ entries_to basics.now (value_at direction.now)
        (length basics.now)) }
{
    entries_of(alloc, direction, basics.listed())
}

/// A rate as an eta keeps it: in lowest terms where the direction has few numbers.
#[inline(always)]
fn kept_rate(rate: &Ratio, few: bool) -> Ratio
    ensures { result ≡ rate.now }
{
    if few {
        Ratio::of(rate.reduced())
    } else {
        rate.copy()
    }
}

/// The numbers of a direction at the listed variables but `q`.
fn entries_but(
    alloc: Global,
    direction: &[Ratio],
    listed: &[u32],
    q: u32,
) -> Result<Vec<EtaEntry>, NoMemory>
    requires { All (λ k. (1 ≤ k) × (k ≤ length direction.now)) listed.now }
    ensures { IfOk result (λ entries. entries.items ≡ map (entry_of (value_at direction.now))
        (filter (λ k. not (nat_eq k q)) listed.now)) }
{
    let mut entries = Vec::with_capacity(alloc, listed.len())?;
    for k in listed {
        if *k != q {
            let rate = kept_rate(&direction[*k as usize - 1], listed.len() < FEW_NUMBERS);
            entries
                .push(EtaEntry { i: *k, rate })
                .map_err(|_| NoMemory)?;
        }
    }
    Ok(entries)
}

impl EtaFile {
    /// All rows are basic, and there is no eta.
    pub fn new(alloc: Global, lp: &Lp) -> Result<EtaFile, NoMemory>
        ensures matrix { IfOk result (λ file. file.matrix ≡ lp.now.matrix) }
        ensures basics { IfOk result (λ file. file.basics ≡ row_basics lp.now.matrix) }
        ensures no_eta { IfOk result (λ file. file.etas ≡ []) }
    {
        let _size = lp.number_of_variables();
        let columns = lp.copied_columns(alloc)?;
        let words = words_of_columns(alloc, &columns)?;
        Ok(EtaFile {
            rows: lp.rows,
            cols: lp.cols,
            columns: Rc::new(alloc, columns).map_err(|_| NoMemory)?,
            words: Rc::new(alloc, words).map_err(|_| NoMemory)?,
            basics: BasicSet::new(alloc, row_marks(alloc, lp)?)?,
            etas: Vec::new(alloc),
            modular: ModularState::Unmade,
            alloc,
        })
    }

    /// The number of variables, and what holds of the matrix.
    pub fn size(&self) -> u32
        ensures size { result ≡ size self.now.matrix }
        ensures lawful { IsMatrix self.now.matrix }
        ensures basics { self.now.basics ≡ after (row_basics self.now.matrix) self.now.etas }
        ensures nonsingular { IsNonsingular self.now.matrix self.now.basics }
        ensures passed { Passed self.now.matrix (row_basics self.now.matrix) self.now.etas }
    {
        self.rows + self.cols
    }

    /// The number of rows.
    pub fn rows(&self) -> u32
        ensures { result ≡ self.now.matrix.rows }
    {
        self.rows
    }

    /// Where the file has its memory from.
    pub fn alloc(&self) -> Global {
        self.alloc
    }

    /// A file of the same matrix where all rows are basic. Both have the same columns in memory.
    pub fn at_rows(&self) -> Result<EtaFile, NoMemory>
        ensures matrix { IfOk result (λ file. file.matrix ≡ self.now.matrix) }
        ensures basics { IfOk result (λ file. file.basics ≡ row_basics self.now.matrix) }
        ensures no_eta { IfOk result (λ file. file.etas ≡ []) }
    {
        let size = self.size();
        let mut marks = vec![in self.alloc; false; size as usize].map_err(|_| NoMemory)?;
        self.mark_rows(&mut marks);
        Ok(EtaFile {
            rows: self.rows,
            cols: self.cols,
            columns: self.columns.clone()?,
            words: self.words.clone()?,
            basics: BasicSet::new(self.alloc, marks)?,
            etas: Vec::new(self.alloc),
            modular: ModularState::Unmade,
            alloc: self.alloc,
        })
    }

    /// Whether variable `k`, from 1, is basic.
    pub fn is_basic(&self, k: u32) -> bool
        requires { IsVariable self.now.matrix k }
        ensures { result ≡ is_in self.now.basics k }
    {
        self.basics.has(k)
    }

    /// The numbers of column `j`, from 1, in the order of the deck.
    pub fn numbers(&self, j: u32) -> &[Entry]
        requires { IsColumn self.now.matrix j }
        ensures { result.now ≡ column self.now.matrix j }
    {
        &self.columns[j as usize - 1]
    }

    /// The same as whole numbers of one machine word, where all are such numbers.
    pub fn words(&self, j: u32) -> Option<&[WordEntry]>
        requires { IsColumn self.now.matrix j }
        ensures { IfSome result (λ words. AreWordsOf (column self.now.matrix j) words.now) }
    {
        let Some(words) = &self.words[j as usize - 1] else {
            return None;
        };
        Some(words)
    }

    /// The direction of the nonbasic `j` at the set after the first so many etas, where it left at the last of them, or where there
    /// is none of them.
    fn begin<L: Ledger>(
        &self,
        first: usize,
        j: u32,
        out: &mut [Frac],
        steps: &mut Steps<L>,
    ) -> Result<(), Evidence>
        requires nonbasic { IsNonbasic self.now.matrix self.now.basics j }
        requires places { length out.old ≡ size self.now.matrix }
        requires within { first ≤ length self.now.etas }
        requires none_later { NoneLater self.now.etas j first }
        requires left { LeftAt self.now.etas j first }
        ensures direction { OnOk result (IsDirectionOf self.now.matrix
            (after (row_basics self.now.matrix) (take first self.now.etas)) j (value_at out.new)) }
        ensures refused { IfErr result (ExchangeRefused self.now.matrix
            (self.now.basics ∷ ways_of self.now) self.now.basics (ways_of self.now)) }
        ensures cost { steps.new ≤ steps.old + 2 * entry_count (take first self.now.etas) }
    {
        if first == 0 {
            fill_column(self.numbers(j - self.rows), j, out);
            Ok(())
        } else {
            let eta = &self.etas[first - 1];
            let way = first as u32;
            leave(eta, way, out, steps)
        }
    }

    /// Transforms the direction of `j` by the eta at this place.
    fn transform_at<L: Ledger>(
        &self,
        place: usize,
        j: u32,
        out: &mut [Frac],
        steps: &mut Steps<L>,
    ) -> Result<(), Evidence>
        requires within { place < length self.now.etas }
        requires before { IsNonbasic self.now.matrix (after (row_basics self.now.matrix)
            (take place self.now.etas)) j }
        requires then { IsNonbasic self.now.matrix (after (row_basics self.now.matrix)
            (take (place + 1) self.now.etas)) j }
        requires places { length out.old ≡ size self.now.matrix }
        requires direction { IsDirectionOf self.now.matrix (after (row_basics self.now.matrix)
            (take place self.now.etas)) j (value_at out.old) }
        ensures direction { OnOk result
            (IsDirectionOf self.now.matrix (after (row_basics self.now.matrix)
            (take (place + 1) self.now.etas)) j (value_at out.new)) }
        ensures refused { IfErr result (ExchangeRefused self.now.matrix
            (self.now.basics ∷ ways_of self.now) self.now.basics (ways_of self.now)) }
        ensures cost { steps.new + 2 * entry_count (take place self.now.etas) ≤ steps.old + 2 *
            entry_count (take (place + 1) self.now.etas) }
    {
        let eta = &self.etas[place];
        let way = place as u32 + 1;
        transform(eta, way, j, out, steps)
    }

    /// Fills `out` with the direction of the nonbasic `j`, or says which number was too large.
    fn carried<L: Ledger>(
        &self,
        j: u32,
        out: &mut [Frac],
        steps: &mut Steps<L>,
    ) -> Result<(), Evidence>
        requires nonbasic { IsNonbasic self.now.matrix self.now.basics j }
        requires places { length out.old ≡ size self.now.matrix }
        ensures direction { OnOk result (IsDirectionOf self.now.matrix self.now.basics j
            (value_at out.new)) }
        ensures refused { IfErr result (ExchangeRefused self.now.matrix
            (self.now.basics ∷ ways_of self.now) self.now.basics (ways_of self.now)) }
        ensures cost { steps.new ≤ steps.old + 2 * entry_count self.now.etas }
    {
        let first = last_left(&self.etas, j);
        self.begin(first, j, out, steps)?;
        for place in first..self.etas.len() {
            self.transform_at(place, j, out, steps)?;
        }
        Ok(())
    }

    /// Fills `out`, which has a place for each variable, with the direction of the nonbasic `j`. It takes no memory, and counts one
    /// step for each operation on fractions; a rate less a product counts as two.
    pub fn carry<L: Ledger>(
        &self,
        j: u32,
        out: &mut [Frac],
        steps: &mut Steps<L>,
    ) -> Result<(), Stop>
        requires nonbasic { IsNonbasic self.now.matrix self.now.basics j }
        requires places { length out.old ≡ size self.now.matrix }
        ensures direction { OnOk result (IsDirectionOf self.now.matrix self.now.basics j
            (value_at out.new)) }
        ensures overflow { ColumnOverflow result (file_state self.now) (file_state self.now) }
        ensures never { IfErr result (λ stop. stop ≢ Stop.NoMemory) }
        ensures cost { steps.new ≤ steps.old + 2 * entry_count self.now.etas }
    {
        match self.carried(j, out, steps) {
            Ok(()) => Ok(()),
            Err(evidence) => Err(Stop::Overflow(evidence)),
        }
    }

    /// The same with a counter of its own.
    fn carry_by<L: Ledger>(&self, j: u32, out: &mut [Frac], blank: Blank) -> Result<(), Stop>
        requires nonbasic { IsNonbasic self.now.matrix self.now.basics j }
        requires places { length out.old ≡ size self.now.matrix }
        requires name { blank.name ≡ L.name }
        requires parts { blank.parts ≡ L.parts }
        requires some { 0 < L.parts }
        ensures direction { OnOk result (IsDirectionOf self.now.matrix self.now.basics j
            (value_at out.new)) }
        ensures overflow { ColumnOverflow result (file_state self.now) (file_state self.now) }
        ensures never { IfErr result (λ stop. stop ≢ Stop.NoMemory) }
    {
        let mut steps = Steps::<L>::new(blank);
        self.carry(j, out, &mut steps)
    }

    /// The same as `begin`, over the denominator that is given, where `out` is all 0. It gives up where a number doesn't fit.
    fn begin_at(&self, first: usize, j: u32, out: &mut SparseWholes) -> Option<Frac>
        requires nonbasic { IsNonbasic self.now.matrix self.now.basics j }
        requires places { length out.old ≡ size self.now.matrix }
        requires within { first ≤ length self.now.etas }
        requires none_later { NoneLater self.now.etas j first }
        requires left { LeftAt self.now.etas j first }
        requires zero { AreZero out.old }
        ensures direction { IfSome result (λ d. Represent (IsDirectionAfter self.now first j)
            d out.new) }
        ensures places { length out.new ≡ length out.old }
    {
        if first == 0 {
            begin_whole(self.numbers(j - self.rows), j, out)
        } else {
            let eta = &self.etas[first - 1];
            leave_whole(eta, out)
        }
    }

    /// Transforms the numbers of the direction of `j` by the eta at this place, and gives their denominator after it. One of `least` or
    /// more is reduced before.
    fn transform_whole_at(
        &self,
        place: usize,
        j: u32,
        least: u128,
        denominator: Frac,
        out: &mut SparseWholes,
    ) -> Option<Frac>
        requires within { place < length self.now.etas }
        requires before { IsNonbasic self.now.matrix (after (row_basics self.now.matrix)
            (take place self.now.etas)) j }
        requires then { IsNonbasic self.now.matrix (after (row_basics self.now.matrix)
            (take (place + 1) self.now.etas)) j }
        requires places { length out.old ≡ size self.now.matrix }
        requires direction { Represent (IsDirectionAfter self.now place j) denominator out.old }
        ensures direction { IfSome result (λ d. Represent (IsDirectionAfter self.now (place + 1) j)
            d out.new) }
        ensures places { length out.new ≡ length out.old }
    {
        let eta = &self.etas[place];
        transform_whole(eta, least, denominator, out)
    }

    /// Makes `wholes` the direction of the nonbasic `j`, carried in whole numbers over the denominator that is given. One of `least` or
    /// more is reduced on the way. It gives up where a number doesn't fit.
    fn carry_reducing(&self, j: u32, least: u128, wholes: &mut SparseWholes) -> Option<Frac>
        requires nonbasic { IsNonbasic self.now.matrix self.now.basics j }
        requires wholes { length wholes.old ≡ size self.now.matrix }
        ensures direction { IfSome result (λ d. Represent (λ xs. IsDirectionOf self.now.matrix
            self.now.basics j (value_at xs)) d wholes.new) }
        ensures wholes { length wholes.new ≡ length wholes.old }
    {
        wholes.clear();
        let first = last_left(&self.etas, j);
        let mut denominator = self.begin_at(first, j, wholes)?;
        for place in first..self.etas.len() {
            denominator = self.transform_whole_at(place, j, least, denominator, wholes)?;
        }
        Some(denominator)
    }

    /// The same, with few reductions, and where a number doesn't fit then, with more.
    fn carry_whole(&self, j: u32, wholes: &mut SparseWholes) -> Option<Frac>
        requires nonbasic { IsNonbasic self.now.matrix self.now.basics j }
        requires wholes { length wholes.old ≡ size self.now.matrix }
        ensures direction { IfSome result (λ d. Represent (λ xs. IsDirectionOf self.now.matrix
            self.now.basics j (value_at xs)) d wholes.new) }
        ensures wholes { length wholes.new ≡ length wholes.old }
    {
        if let Some(denominator) = self.carry_reducing(j, VERY_LARGE, wholes) {
            return Some(denominator);
        }
        self.carry_reducing(j, LARGE, wholes)
    }

    /// Fills `out`, which is all 0, with the direction of the nonbasic `j`, carried in whole numbers over one denominator. It gives up
    /// where one doesn't fit.
    fn carried_whole(&self, j: u32, wholes: &mut SparseWholes, out: &mut [Frac]) -> Option<()>
        requires nonbasic { IsNonbasic self.now.matrix self.now.basics j }
        requires wholes { length wholes.old ≡ size self.now.matrix }
        requires places { length out.old ≡ size self.now.matrix }
        requires zero { AreZero out.old }
        ensures direction { IfSome result (λ _. IsDirectionOf self.now.matrix self.now.basics j
            (value_at out.new)) }
        ensures wholes { length wholes.new ≡ length wholes.old }
    {
        let denominator = self.carry_whole(j, wholes)?;
        wholes.divide_into(denominator, out)
    }

    /// Fills `out`, which is all 0, with the direction of the nonbasic `j`, and counts nothing.
    fn column_in(&self, j: u32, wholes: &mut SparseWholes, out: &mut [Frac]) -> Result<(), Stop>
        requires nonbasic { IsNonbasic self.now.matrix self.now.basics j }
        requires wholes { length wholes.old ≡ size self.now.matrix }
        requires places { length out.old ≡ size self.now.matrix }
        requires zero { AreZero out.old }
        ensures direction { OnOk result (IsDirectionOf self.now.matrix self.now.basics j
            (value_at out.new)) }
        ensures overflow { ColumnOverflow result (file_state self.now) (file_state self.now) }
        ensures never { IfErr result (λ stop. stop ≢ Stop.NoMemory) }
        ensures wholes { length wholes.new ≡ length wholes.old }
    {
        if self.carried_whole(j, wholes, out).is_some() {
            return Ok(());
        }
        self.carry_by::<Brand>(j, out, Blank::new(1))
    }

    /// The same, whatever `out` has. It takes no memory; the numbers are carried in `wholes`.
    pub fn column(&self, j: u32, wholes: &mut SparseWholes, out: &mut [Frac]) -> Result<(), Stop>
        requires nonbasic { IsNonbasic self.now.matrix self.now.basics j }
        requires wholes { length wholes.old ≡ size self.now.matrix }
        requires places { length out.old ≡ size self.now.matrix }
        ensures direction { OnOk result (IsDirectionOf self.now.matrix self.now.basics j
            (value_at out.new)) }
        ensures overflow { ColumnOverflow result (file_state self.now) (file_state self.now) }
        ensures never { IfErr result (λ stop. stop ≢ Stop.NoMemory) }
        ensures wholes { length wholes.new ≡ length wholes.old }
    {
        clear(out);
        self.column_in(j, wholes, out)
    }

    /// The same; `workspace` takes the direction.
    pub fn column_to(&self, j: u32, workspace: &mut ColumnWorkspace) -> Result<(), Stop>
        requires nonbasic { IsNonbasic self.now.matrix self.now.basics j }
        requires places { IsWorkspaceFor (size self.now.matrix) workspace.old }
        ensures direction { OnOk result (IsDirectionOf self.now.matrix self.now.basics j
            (value_at workspace.new.direction.items)) }
        ensures overflow { ColumnOverflow result (file_state self.now) (file_state self.now) }
        ensures never { IfErr result (λ stop. stop ≢ Stop.NoMemory) }
        ensures places { IsWorkspaceFor (size self.now.matrix) workspace.new }
    {
        self.column(j, &mut workspace.wholes, &mut workspace.direction)
    }

    /// Makes `out` the direction of the nonbasic `j`, whose numbers over this denominator are at hand; they are brought to the least one. It
    /// gives up where that one isn't a whole number from 1 on.
    fn put_direction(
        &self,
        j: u32,
        denominator: Frac,
        wholes: &mut SparseWholes,
        out: &mut SparseVector,
    ) -> Result<Option<()>, NoMemory>
        requires nonbasic { IsNonbasic self.now.matrix self.now.basics j }
        requires direction { Represent (λ xs. IsDirectionOf self.now.matrix self.now.basics j
            (value_at xs)) denominator wholes.old }
        requires wholes { length wholes.old ≡ size self.now.matrix }
        requires places { length out.old ≡ size self.now.matrix }
        ensures direction { IfOk result (λ put. IfSome put (λ _. IsDirectionOf self.now.matrix
            self.now.basics j (value_at out.new))) }
        ensures places { OnOk result (length out.new ≡ size self.now.matrix) }
        ensures wholes { length wholes.new ≡ length wholes.old }
    {
        let _size = self.size();
        let Some(least) = wholes.reduce_from(LEAST, denominator) else {
            return Ok(None);
        };
        let number = least.num();
        if least.den() != 1 || number < 1 {
            return Ok(None);
        }
        let places = wholes.listed();
        if places.len() < FEW_PLACES {
            out.put_few(wholes.numbers(), number, places)?;
            return Ok(Some(()));
        }
        let listed = self.basics.listed();
        let (before, after) = listed.split_at(place_of(listed, j));
        out.put_over(wholes.numbers(), number, before, j, after)?;
        Ok(Some(()))
    }

    /// Makes `out` the direction of the nonbasic `j`, carried in fractions.
    fn direction_in_fractions(&self, j: u32, out: &mut SparseVector) -> Result<(), Stop>
        requires nonbasic { IsNonbasic self.now.matrix self.now.basics j }
        requires places { length out.old ≡ size self.now.matrix }
        ensures direction { OnOk result (IsDirectionOf self.now.matrix self.now.basics j
            (value_at out.new)) }
        ensures places { OnOk result (length out.new ≡ size self.now.matrix) }
        ensures overflow { ColumnOverflow result (file_state self.now) (file_state self.now) }
    {
        let _size = self.size();
        let mut values = out.zero_fractions()?;
        self.carry_by::<Brand>(j, &mut values, Blank::new(1))?;
        out.put_all(&values)?;
        Ok(())
    }

    /// Makes `out` the direction of the nonbasic `j`, and counts nothing: carried in whole numbers over one denominator, and where these don't
    /// fit in fractions.
    pub fn direction(
        &self,
        j: u32,
        wholes: &mut SparseWholes,
        out: &mut SparseVector,
    ) -> Result<(), Stop>
        requires nonbasic { IsNonbasic self.now.matrix self.now.basics j }
        requires wholes { length wholes.old ≡ size self.now.matrix }
        requires places { length out.old ≡ size self.now.matrix }
        ensures direction { OnOk result (IsDirectionOf self.now.matrix self.now.basics j
            (value_at out.new)) }
        ensures places { OnOk result (length out.new ≡ size self.now.matrix) }
        ensures overflow { ColumnOverflow result (file_state self.now) (file_state self.now) }
        ensures wholes { length wholes.new ≡ length wholes.old }
    {
        let _size = self.size();
        if let Some(denominator) = self.carry_whole(j, wholes) {
            if self.put_direction(j, denominator, wholes, out)?.is_some() {
                return Ok(());
            }
        }
        self.direction_in_fractions(j, out)
    }

    /// The numbers of the direction of the nonbasic `j` over the denominator that is given, found modulo two primes and tested by the
    /// equations. It gives up where numbers are short, where one doesn't fit, and where there is no memory.
    fn guess(&self, work: &mut ModularFile, j: u32, wholes: &mut SparseWholes) -> Option<Frac>
        requires nonbasic { IsNonbasic self.now.matrix self.now.basics j }
        requires wholes { length wholes.old ≡ size self.now.matrix }
        ensures direction { IfSome result (λ d. Represent (λ xs. IsDirectionOf self.now.matrix
            self.now.basics j (value_at xs)) d wholes.new) }
        ensures wholes { length wholes.new ≡ length wholes.old }
    {
        let first = last_left(&self.etas, j);
        work.follow(self.alloc, &self.etas)?;
        if first == 0 {
            if j <= self.rows {
                return None;
            }
            work.begin(j, self.numbers(j - self.rows))?;
        } else {
            work.leave(first - 1)?;
        }
        work.carry(first)?;
        let denominator = gathered(self, work, j, wholes)?;
        if !keeps_equations(self, self.basics.listed(), j, wholes, &mut work.sums) {
            return None;
        }
        Some(denominator)
    }

    /// The same with the room that the file has for it, which is made where numbers are long.
    fn guess_in_room(&mut self, j: u32, wholes: &mut SparseWholes) -> Option<Frac>
        requires nonbasic { IsNonbasic self.old.matrix self.old.basics j }
        requires wholes { length wholes.old ≡ size self.old.matrix }
        ensures direction { IfSome result (λ d. Represent (λ xs. IsDirectionOf self.old.matrix
            self.old.basics j (value_at xs)) d wholes.new) }
        ensures wholes { length wholes.new ≡ length wholes.old }
        ensures same { self.new ≡ self.old }
    {
        if !has_long_numbers(&self.etas) {
            return None;
        }
        let size = self.size() as usize;
        let mut work = match replace(&mut self.modular, ModularState::GivenUp) {
            ModularState::Made(work) => work,
            ModularState::Unmade => ModularFile::new(self.alloc, size)?,
            ModularState::GivenUp => return None,
        };
        let found = self.guess(&mut work, j, wholes);
        self.modular = work.kept(found.is_some());
        found
    }

    /// The same, where long numbers may be found modulo two primes and are tested.
    pub fn tested_direction(
        &mut self,
        j: u32,
        wholes: &mut SparseWholes,
        out: &mut SparseVector,
    ) -> Result<(), Stop>
        requires nonbasic { IsNonbasic self.old.matrix self.old.basics j }
        requires wholes { length wholes.old ≡ size self.old.matrix }
        requires places { length out.old ≡ size self.old.matrix }
        ensures direction { OnOk result (IsDirectionOf self.old.matrix self.old.basics j
            (value_at out.new)) }
        ensures places { OnOk result (length out.new ≡ size self.old.matrix) }
        ensures overflow { ColumnOverflow result (file_state self.old) (file_state self.old) }
        ensures wholes { length wholes.new ≡ length wholes.old }
        ensures same { self.new ≡ self.old }
    {
        let _size = self.size();
        if let Some(denominator) = self.guess_in_room(j, wholes) {
            if self.put_direction(j, denominator, wholes, out)?.is_some() {
                return Ok(());
            }
        }
        self.direction(j, wholes, out)
    }

    /// Makes the nonbasic `q` basic in place of `p`, where this is the direction of q, and it is not 0 at p.
    pub fn append_carried(&mut self, p: u32, q: u32, direction: &[Frac]) -> Result<(), NoMemory>
        requires leaves { IsBasic self.old.matrix self.old.basics p }
        requires enters { IsNonbasic self.old.matrix self.old.basics q }
        requires places { length direction.now ≡ size self.old.matrix }
        requires direction { IsDirectionOf self.old.matrix self.old.basics q
            (value_at direction.now) }
        requires pivot { value_at direction.now p ≢ zero_ℚ }
        ensures ok { OnOk result (IsAppended self.old p q self.new) }
        ensures err { OnErr result (self.new ≡ self.old) }
    {
        let _size = self.size();
        let entries = entries_at(self.alloc, direction, &self.basics)?;
        self.append_entries(p, q, direction[p as usize - 1], entries)
    }

    /// The same, of a direction with the list of its numbers that are not 0.
    pub fn append_along(&mut self, p: u32, q: u32, direction: &SparseVector) -> Result<(), NoMemory>
        requires leaves { IsBasic self.old.matrix self.old.basics p }
        requires enters { IsNonbasic self.old.matrix self.old.basics q }
        requires places { length direction.now ≡ size self.old.matrix }
        requires direction { IsDirectionOf self.old.matrix self.old.basics q
            (value_at direction.now) }
        requires pivot { value_at direction.now p ≢ zero_ℚ }
        ensures ok { OnOk result (IsAppended self.old p q self.new) }
        ensures err { OnErr result (self.new ≡ self.old) }
    {
        let _size = self.size();
        let values = direction.values();
        let entries = entries_but(self.alloc, values, direction.nonzero(), q)?;
        self.append_entries(p, q, values[p as usize - 1].reduced(), entries)
    }

    /// The same, with the pivot and the entries of the new eta.
    fn append_entries(
        &mut self,
        p: u32,
        q: u32,
        pivot: Frac,
        entries: Vec<EtaEntry>,
    ) -> Result<(), NoMemory>
        requires { IsNextEta self.old p q pivot entries.items }
        ensures ok { OnOk result (IsAppended self.old p q self.new) }
        ensures err { OnErr result (self.new ≡ self.old) }
    {
        let _size = self.size();
        if self.etas.len() >= MOST_ETAS {
            return Err(NoMemory);
        }
        let whole = whole_eta(self.alloc, pivot, &entries)?;
        let eta = StoredEta {
            p,
            q,
            pivot,
            entries,
            whole,
        };
        self.etas.push(eta).map_err(|_| NoMemory)?;
        self.basics.exchange(p, q);
        Ok(())
    }

    /// Makes the nonbasic `q` basic in place of `p`, whose rate at q is not 0. After a Stop the file is as before.
    pub fn append(&mut self, p: u32, q: u32) -> Result<(), Stop>
        requires leaves { IsBasic self.old.matrix self.old.basics p }
        requires enters { IsNonbasic self.old.matrix self.old.basics q }
        requires pivot { HasPivot self.old.matrix self.old.basics p q }
        ensures ok { OnOk result (IsAppended self.old p q self.new) }
        ensures err { OnErr result (self.new ≡ self.old) }
        ensures overflow { ExchangeOverflow result p q (file_state self.old) (file_state self.old) }
    {
        let size = self.size();
        let mut workspace = ColumnWorkspace::zeros(self.alloc, size as usize)?;
        self.append_in(p, q, &mut workspace)
    }

    /// The same; `workspace` takes the direction of `q`.
    pub fn append_in(&mut self, p: u32, q: u32, workspace: &mut ColumnWorkspace) -> Result<(), Stop>
        requires leaves { IsBasic self.old.matrix self.old.basics p }
        requires enters { IsNonbasic self.old.matrix self.old.basics q }
        requires pivot { HasPivot self.old.matrix self.old.basics p q }
        requires places { IsWorkspaceFor (size self.old.matrix) workspace.old }
        ensures ok { OnOk result (IsAppended self.old p q self.new) }
        ensures err { OnErr result (self.new ≡ self.old) }
        ensures overflow { ExchangeOverflow result p q (file_state self.old) (file_state self.old) }
        ensures places { IsWorkspaceFor (size self.old.matrix) workspace.new }
    {
        let _size = self.size();
        self.column_to(q, workspace)?;
        self.append_carried(p, q, &workspace.direction)?;
        Ok(())
    }

    /// The number of entries of all etas.
    pub fn entries(&self) -> u64
        ensures { result ≡ entry_count self.now.etas }
    {
        let _size = self.size();
        let mut total = 0;
        for place in 0..self.etas.len() {
            let eta = &self.etas[place];
            total += eta.entries.len() as u64;
        }
        total
    }

    /// The number of etas. There are at least as many as there are basic columns.
    pub fn etas(&self) -> u32
        ensures all { result ≡ length self.now.etas }
        ensures enough { basic_columns self.now.matrix self.now.basics ≤ result }
    {
        self.etas.len() as u32
    }

    /// The pivot of the k-th exchange.
    pub fn pivot(&self, k: u32) -> Frac
        requires low { 1 ≤ k }
        requires high { k ≤ length self.now.etas }
        ensures { (d : StoredEta) → (slice_index_or self.now.etas (k - 1) d).pivot ≡ result }
    {
        let eta = &self.etas[k as usize - 1];
        eta.pivot
    }

    /// The k-th exchange, and the rates that the basics before it have at the variable that enters, at most one for each row.
    pub fn eta(&self, k: u32) -> Eta<'_>
        requires low { 1 ≤ k }
        requires high { k ≤ length self.now.etas }
        ensures lent { IsLent self.now.etas (k - 1) result.p result.q result.entries.now }
        ensures its { IsExchangeOf self.now.matrix (after (row_basics self.now.matrix)
            (take (k - 1) self.now.etas)) result.p result.q result.entries.now }
        ensures few { length result.entries.now ≤ self.now.matrix.rows }
    {
        let eta = &self.etas[k as usize - 1];
        Eta {
            p: eta.p,
            q: eta.q,
            entries: &eta.entries,
        }
    }

    /// The numbers of the k-th eta as whole numbers, where they fit.
    pub fn whole(&self, k: u32) -> Option<ScaledEta<'_>>
        requires low { 1 ≤ k }
        requires high { k ≤ length self.now.etas }
        ensures { IfSome result (λ lent. IsLentScaled self.now.etas (k - 1) lent.scale lent.pivot
            lent.entries.now) }
    {
        let eta = &self.etas[k as usize - 1];
        let Some(whole) = &eta.whole else {
            return None;
        };
        Some(ScaledEta {
            scale: whole.scale,
            pivot: whole.pivot,
            entries: &whole.entries,
        })
    }

    /// Marks the basics of a waypoint, by its number from 1; 0 is the present set.
    pub fn way_basics(&self, way: u32, out: &mut [bool])
        requires is_way { way ≤ length (ways_of self.now) }
        requires places { length out.old ≡ size self.now.matrix }
        ensures { out.new ≡ waypoint self.now.basics (ways_of self.now) way }
    {
        if way == 0 {
            out.copy_from_slice(self.basics.marks());
            return;
        }
        self.mark_rows(out);
        for place in 0..way as usize - 1 {
            let eta = &self.etas[place];
            out[eta.q as usize - 1] = true;
            out[eta.p as usize - 1] = false;
        }
    }

    /// Marks the rows alone.
    fn mark_rows(&self, out: &mut [bool])
        requires { length out.old ≡ size self.now.matrix }
        ensures { out.new ≡ row_basics self.now.matrix }
    {
        for (k, mark) in out.iter_mut().enumerate() {
            *mark = k < self.rows as usize;
        }
    }
}
