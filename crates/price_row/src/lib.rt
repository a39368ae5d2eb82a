//! The row of a basic, carried backwards through an eta file and multiplied with the columns of the deck.
#![tactic(auto)]

ghost use Rattle.std.specs.Prelude.{◌≡◌, ◌≢◌, ℕ, ◌+◌, ◌-◌, ◌≤◌, ◌<◌, length, All, IfOk, IfSome, IfErr, OnOk};
ghost use Rattle.lp_definitions.specs.LinearProgram.{IsVariable, Vector, size, value_at};
ghost use Rattle.exact_values.specs.Rational.{zero_ℚ};
ghost use Rattle.lp_definitions.specs.Basis.{IsBasic};
ghost use Rattle.lp_definitions.specs.RatesEvidence.{sum_from};
ghost use Rattle.lp_model.specs.RatesCalls.{IsRowOf, RowOverflow};
ghost use Rattle.lp_model.specs.Wanted.{is_wanted, meets, turned, wanted_at, IsLeastWanted, IsFirstWanted};
ghost use Rattle.eta_file.specs.Inverse.{IsColumnStop, file_state};
ghost use Rattle.eta_file.specs.Workspaces.{IsWorkspaceFor};
ghost use Rattle.price_row.specs.Known.{IsKnown, HasMultipliers, IsFilledFrom, IsRateOf, IsUnit, IsMultiplierAt, IsMultiplierOf};
ghost use Rattle.price_row.specs.NumbersOver.{AreNumbersOver};
ghost use Rattle.price_row.specs.Sums.{products};
ghost use Rattle.price_row.specs.Places.{IsRowPlace};

mod column_numbers;
mod exact;
mod numbers;
mod sums;
mod whole;
mod words;

use column_numbers::{column_number, column_rate};
use eta_file::{ColumnWorkspace, EtaFile, rate_by_column};
use exact::{exact_quotient_over, exact_sum_of_column};
use frac128::{Frac, Refused};
use lp_model::{Entry, Lp, NoMemory, Stop, Wanted};
use numbers::{first_by_numbers, is_up_over, row_by_numbers};
use std::alloc::Global;
use std::marker::Model;
use sums::{sum_of_column, sum_over};
use whole_vectors::{SparseWholes, SparseWords};

/// After a row that didn't fit words so many are made in whole numbers at once.
const ROWS_WITHOUT_WORDS: u32 = 8;

/// What is asked of the row of the basic `row`: its first rate, or where `up` is false the opposite of one, that is wanted.
#[derive(Clone, Copy)]
struct Sought<'a> {
    row: u32,
    wanted: &'a [Wanted],
    up: bool,
}

/// Rows of an inverse that is kept as an eta file, with places for the multipliers of the rows, in words, in whole numbers and in
/// fractions, and for a direction. So many searched rows, `without_words`, are still to come that aren't tried in words.
#[derive(Drop)]
pub struct PriceRow {
    words: SparseWords,
    without_words: u32,
    wholes: SparseWholes,
    multipliers: Vec<Frac>,
    workspace: ColumnWorkspace,
}

impl Model for PriceRow {
    ghost use Rattle.std.specs.Prelude.{ℕ};

    ghost Value = { ℕ };

    ghost use Rattle.price_row.specs.Workspace.{workspace_of, HasWorkspace};

    ghost view = { workspace_of };

    ghost invariant = { HasWorkspace };
}

impl PriceRow {
    /// Room for rows of files of this matrix.
    pub fn new(alloc: Global, lp: &Lp) -> Result<PriceRow, NoMemory>
        ensures { IfOk result (λ workspace. workspace ≡ size lp.now.matrix) }
    {
        let size = lp.number_of_variables();
        Ok(PriceRow {
            words: SparseWords::zeros(alloc, size as usize)?,
            without_words: 0,
            wholes: SparseWholes::zeros(alloc, size as usize)?,
            multipliers: vec![in alloc; Frac::whole(0); size as usize]?,
            workspace: ColumnWorkspace::zeros(alloc, size as usize)?,
        })
    }

    /// Fills `out`, which has a place for each variable, with the rates of the basic `i`: its rate at each nonbasic, and 0 at each
    /// basic. The row is carried backwards through the file, and multiplied with the columns of the deck: in whole numbers of one
    /// machine word over one denominator, or where one isn't such a number in larger whole numbers, or where one of these doesn't
    /// fit in fractions, of which the rates at columns are made in whole numbers over a denominator of so many columns as it serves.
    /// Where an operation on fractions is refused, that one multiplier or rate is computed in numbers of any length;
    /// where this doesn't fit either, or there is no memory for it, the multipliers of the rows are computed by their directions, or
    /// the rate by that of its variable.
    pub fn row(&mut self, file: &EtaFile, i: u32, out: &mut [Frac]) -> Result<(), Stop>
        requires basic { IsBasic file.now.matrix file.now.basics i }
        requires places { length out.old ≡ size file.now.matrix }
        requires workspace { self.old ≡ size file.now.matrix }
        ensures rates { OnOk result (IsRowOf file.now.matrix file.now.basics i (value_at out.new)) }
        ensures overflow { RowOverflow result (file_state file.now) (file_state file.now) }
        ensures never { IfErr result (λ stop. stop ≢ Stop.NoMemory) }
        ensures same { self.new ≡ self.old }
    {
        let _size = file.size();
        if row_by_numbers(file, i, &mut self.words, out).is_some() {
            return Ok(());
        }
        if row_by_numbers(file, i, &mut self.wholes, out).is_some() {
            return Ok(());
        }
        multipliers(file, i, &mut self.multipliers, &mut self.workspace)?;
        let (numbers, workspace) = (&mut self.wholes, &mut self.workspace);
        fill_by_multipliers(file, i, &self.multipliers, numbers, out, workspace)
    }

    /// The least-numbered variable whose rate in the row of the basic `i`, or the opposite of it where `up` is false, is wanted there.
    /// `out`, which has a place for each variable, takes the rate of that variable, and where there is none the row: as long as
    /// whole numbers fit, no rate but these is worked out. After a row that was searched here and didn't fit words, the next eight that are
    /// searched, `ROWS_WITHOUT_WORDS`, aren't tried in words, but in larger whole numbers at once. All else is as in `row`.
    pub fn first_wanted(
        &mut self,
        file: &EtaFile,
        i: u32,
        wanted: &[Wanted],
        up: bool,
        out: &mut [Frac],
    ) -> Result<Option<u32>, Stop>
        requires basic { IsBasic file.now.matrix file.now.basics i }
        requires wanted_places { length wanted.now ≡ size file.now.matrix }
        requires places { length out.old ≡ size file.now.matrix }
        requires workspace { self.old ≡ size file.now.matrix }
        ensures found { IfOk result (IsFirstWanted file.now.matrix file.now.basics i wanted.now up
            (value_at out.new)) }
        ensures overflow { RowOverflow result (file_state file.now) (file_state file.now) }
        ensures never { IfErr result (λ stop. stop ≢ Stop.NoMemory) }
        ensures same { self.new ≡ self.old }
    {
        let _size = file.size();
        let sought = Sought { row: i, wanted, up };
        if self.without_words == 0 {
            let quick = first_by_numbers(file, &sought, &mut self.words, out);
            if let Some(found) = quick {
                return Ok(found);
            }
            self.without_words = ROWS_WITHOUT_WORDS;
        } else {
            self.without_words -= 1;
        }
        let quick = first_by_numbers(file, &sought, &mut self.wholes, out);
        if let Some(found) = quick {
            return Ok(found);
        }
        multipliers(file, i, &mut self.multipliers, &mut self.workspace)?;
        let (numbers, workspace) = (&mut self.wholes, &mut self.workspace);
        fill_to_wanted(file, &sought, &self.multipliers, numbers, out, workspace)
    }
}

/// The row of the basic `i` at the basics themselves: 1 at `i`, and 0 elsewhere.
fn begin(i: u32, out: &mut [Frac])
    requires low { 1 ≤ i }
    requires high { i ≤ length out.old }
    ensures { IsUnit i out.new }
{
    for place in out.iter_mut() {
        if !place.is_zero() {
            *place = Frac::whole(0);
        }
    }
    out[i as usize - 1] = Frac::whole(1);
}

/// The multiplier of the leaver of an eta, from those of the set after it, by plain operations.
fn plain_multiplier(file: &EtaFile, place: u32, row: u32, out: &[Frac]) -> Result<Frac, Refused>
    requires within { place < length file.now.etas }
    requires basic { IsBasic file.now.matrix file.now.basics row }
    requires places { length out.now ≡ size file.now.matrix }
    requires known { IsKnown file.now (place + 1) row out.now }
    ensures value { IfOk result (IsMultiplierAt file.now place row) }
{
    let _size = file.size();
    let _etas = file.etas();
    let eta = file.eta(place + 1);
    let pivot = file.pivot(place + 1);
    let sum = sum_over(eta.entries, eta.p, out[eta.q as usize - 1], out)?;
    if sum.is_zero() {
        return Ok(sum);
    }
    let ratio = sum.div(pivot)?;
    Ok(ratio.neg())
}

/// The same in numbers of any length. None where it doesn't fit, or there is no memory for the numbers on the way.
fn exact_multiplier(
    alloc: Global,
    file: &EtaFile,
    place: u32,
    row: u32,
    out: &[Frac],
) -> Option<Frac>
    requires within { place < length file.now.etas }
    requires basic { IsBasic file.now.matrix file.now.basics row }
    requires places { length out.now ≡ size file.now.matrix }
    requires known { IsKnown file.now (place + 1) row out.now }
    ensures value { IfSome result (IsMultiplierAt file.now place row) }
{
    let _size = file.size();
    let _etas = file.etas();
    let eta = file.eta(place + 1);
    let pivot = file.pivot(place + 1);
    let first = out[eta.q as usize - 1];
    let ratio = exact_quotient_over(alloc, eta.entries, eta.p, first, out, pivot)?;
    Some(ratio.neg())
}

/// The multiplier of the leaver of an eta, from those of the set after it.
fn multiplier_at(
    alloc: Global,
    file: &EtaFile,
    place: u32,
    row: u32,
    out: &[Frac],
) -> Result<Frac, Refused>
    requires within { place < length file.now.etas }
    requires basic { IsBasic file.now.matrix file.now.basics row }
    requires places { length out.now ≡ size file.now.matrix }
    requires known { IsKnown file.now (place + 1) row out.now }
    ensures value { IfOk result (IsMultiplierAt file.now place row) }
{
    match plain_multiplier(file, place, row, out) {
        Ok(multiplier) => Ok(multiplier),
        Err(refused) => match exact_multiplier(alloc, file, place, row, out) {
            Some(multiplier) => Ok(multiplier),
            None => Err(refused),
        },
    }
}

/// Carries the multipliers of the row back over one eta.
fn carry_back(
    alloc: Global,
    file: &EtaFile,
    place: u32,
    row: u32,
    out: &mut [Frac],
) -> Result<(), Refused>
    requires within { place < length file.now.etas }
    requires basic { IsBasic file.now.matrix file.now.basics row }
    requires places { length out.old ≡ size file.now.matrix }
    requires known { IsKnown file.now (place + 1) row out.old }
    ensures known { OnOk result (IsKnown file.now place row out.new) }
{
    let _size = file.size();
    let _etas = file.etas();
    let value = multiplier_at(alloc, file, place, row, out)?;
    let eta = file.eta(place + 1);
    out[eta.p as usize - 1] = value;
    Ok(())
}

/// Carries the multipliers of the row back to the rows.
fn carry_to_rows(file: &EtaFile, row: u32, out: &mut [Frac]) -> Result<(), Refused>
    requires basic { IsBasic file.now.matrix file.now.basics row }
    requires places { length out.old ≡ size file.now.matrix }
    ensures known { OnOk result (IsFilledFrom file.now (size file.now.matrix) row out.new) }
{
    let _size = file.size();
    begin(row, out);
    let alloc = file.alloc();
    let etas = file.etas();
    for back in 0..etas {
        carry_back(alloc, file, etas - 1 - back, row, out)?;
    }
    Ok(())
}

/// The multiplier of row `k` in the row of the basic `i`, by the direction of k where it isn't basic, which `workspace` takes.
fn multiplier_of(
    file: &EtaFile,
    i: u32,
    k: u32,
    workspace: &mut ColumnWorkspace,
) -> Result<Frac, Stop>
    requires basic { IsBasic file.now.matrix file.now.basics i }
    requires row { IsVariable file.now.matrix k }
    requires workspace { IsWorkspaceFor (size file.now.matrix) workspace.old }
    ensures value { IfOk result (IsMultiplierOf file.now i k) }
    ensures overflow { IfErr result (IsColumnStop file.now) }
    ensures never { IfErr result (λ stop. stop ≢ Stop.NoMemory) }
    ensures workspace { IsWorkspaceFor (size file.now.matrix) workspace.new }
{
    if k == i {
        return Ok(Frac::whole(1));
    }
    let rate = rate_by_column(file, i, k, workspace)?;
    Ok(rate.neg())
}

/// Fills the first places of `out` with the multipliers of the rows, by the directions of those that aren't basic.
fn multipliers_by_rows(
    file: &EtaFile,
    i: u32,
    out: &mut [Frac],
    workspace: &mut ColumnWorkspace,
) -> Result<(), Stop>
    requires basic { IsBasic file.now.matrix file.now.basics i }
    requires places { length out.old ≡ size file.now.matrix }
    requires workspace { IsWorkspaceFor (size file.now.matrix) workspace.old }
    ensures known { OnOk result (IsFilledFrom file.now (size file.now.matrix) i out.new) }
    ensures overflow { IfErr result (IsColumnStop file.now) }
    ensures never { IfErr result (λ stop. stop ≢ Stop.NoMemory) }
    ensures workspace { IsWorkspaceFor (size file.now.matrix) workspace.new }
{
    let _size = file.size();
    for k in 0..file.rows() {
        out[k as usize] = multiplier_of(file, i, k + 1, workspace)?;
    }
    Ok(())
}

/// Fills the first places of `out` with the multipliers of the rows: carried back, or where that is refused by their directions.
fn multipliers(
    file: &EtaFile,
    i: u32,
    out: &mut [Frac],
    workspace: &mut ColumnWorkspace,
) -> Result<(), Stop>
    requires basic { IsBasic file.now.matrix file.now.basics i }
    requires places { length out.old ≡ size file.now.matrix }
    requires workspace { IsWorkspaceFor (size file.now.matrix) workspace.old }
    ensures known { OnOk result (IsFilledFrom file.now (size file.now.matrix) i out.new) }
    ensures overflow { IfErr result (IsColumnStop file.now) }
    ensures never { IfErr result (λ stop. stop ≢ Stop.NoMemory) }
    ensures workspace { IsWorkspaceFor (size file.now.matrix) workspace.new }
{
    match carry_to_rows(file, i, out) {
        Ok(()) => Ok(()),
        Err(_refused) => multipliers_by_rows(file, i, out, workspace),
    }
}

/// The sum of the numbers of a column, each times the value at its row.
fn sum_at(alloc: Global, column: &[Entry], values: &[Frac]) -> Result<Frac, Refused>
    requires { All (IsRowPlace (length values.now)) column.now }
    ensures { IfOk result (λ sum. sum ≡ sum_from zero_ℚ (products values.now column.now)) }
{
    match sum_of_column(column, values) {
        Ok(sum) => Ok(sum),
        Err(refused) => match exact_sum_of_column(alloc, column, values) {
            Some(sum) => Ok(sum),
            None => Err(refused),
        },
    }
}

/// The rate of the row at the variable of a place, from the multipliers of the rows up to it.
fn rate_by_multipliers(file: &EtaFile, place: u32, row: u32, out: &[Frac]) -> Result<Frac, Refused>
    requires within { place < size file.now.matrix }
    requires basic { IsBasic file.now.matrix file.now.basics row }
    requires places { length out.now ≡ size file.now.matrix }
    requires known { HasMultipliers file.now (place + 1) row out.now }
    ensures rate { IfOk result (IsRateOf file.now row (place + 1)) }
{
    let _size = file.size();
    let rows = file.rows();
    if file.is_basic(place + 1) {
        return Ok(Frac::whole(0));
    }
    if place < rows {
        let multiplier = out[place as usize];
        return Ok(multiplier.neg());
    }
    sum_at(file.alloc(), file.numbers(place + 1 - rows), out)
}

/// The same, by the direction of the variable where a number doesn't fit.
fn rate_by_fractions(
    file: &EtaFile,
    place: u32,
    row: u32,
    out: &[Frac],
    workspace: &mut ColumnWorkspace,
) -> Result<Frac, Stop>
    requires within { place < size file.now.matrix }
    requires basic { IsBasic file.now.matrix file.now.basics row }
    requires places { length out.now ≡ size file.now.matrix }
    requires workspace { IsWorkspaceFor (size file.now.matrix) workspace.old }
    requires known { HasMultipliers file.now (place + 1) row out.now }
    ensures rate { IfOk result (IsRateOf file.now row (place + 1)) }
    ensures overflow { IfErr result (IsColumnStop file.now) }
    ensures never { IfErr result (λ stop. stop ≢ Stop.NoMemory) }
    ensures workspace { IsWorkspaceFor (size file.now.matrix) workspace.new }
{
    let _size = file.size();
    match rate_by_multipliers(file, place, row, out) {
        Ok(rate) => Ok(rate),
        Err(_refused) => rate_by_column(file, row, place + 1, workspace),
    }
}

/// The same, in whole numbers over the denominator where these fit.
fn rate_at(
    file: &EtaFile,
    place: u32,
    row: u32,
    multipliers: &[Frac],
    numbers: &mut SparseWholes,
    denominator: &mut Frac,
    workspace: &mut ColumnWorkspace,
) -> Result<Frac, Stop>
    requires within { place < size file.now.matrix }
    requires basic { IsBasic file.now.matrix file.now.basics row }
    requires places { length multipliers.now ≡ size file.now.matrix }
    requires workspace { IsWorkspaceFor (size file.now.matrix) workspace.old }
    requires known { HasMultipliers file.now (place + 1) row multipliers.now }
    requires over { AreNumbersOver denominator.old multipliers.now numbers.old }
    ensures rate { IfOk result (IsRateOf file.now row (place + 1)) }
    ensures overflow { IfErr result (IsColumnStop file.now) }
    ensures never { IfErr result (λ stop. stop ≢ Stop.NoMemory) }
    ensures workspace { IsWorkspaceFor (size file.now.matrix) workspace.new }
    ensures over { AreNumbersOver denominator.new multipliers.now numbers.new }
{
    let _size = file.size();
    match column_rate(file, place, row, multipliers, numbers, denominator) {
        Some(rate) => Ok(rate),
        None => rate_by_fractions(file, place, row, multipliers, workspace),
    }
}

/// Whether the rate, or its opposite where `up` is false, is wanted at the variable of a place. Most rates are 0, which is wanted nowhere.
#[inline(always)]
fn is_wanted_at(wanted: &[Wanted], place: u32, up: bool, rate: Frac) -> bool
    requires { place < length wanted.now }
    ensures { result ≡ is_wanted (wanted_at wanted.now (place + 1)) (turned up rate) }
{
    !rate.is_zero() && wanted[place as usize].is_met(up, rate)
}

/// Whether the rate at a place is wanted, by the sign of its number over the denominator where that fits.
fn is_wanted_by_multipliers(
    file: &EtaFile,
    place: u32,
    sought: &Sought<'_>,
    multipliers: &[Frac],
    numbers: &mut SparseWholes,
    denominator: &mut Frac,
    workspace: &mut ColumnWorkspace,
) -> Result<bool, Stop>
    requires within { place < size file.now.matrix }
    requires basic { IsBasic file.now.matrix file.now.basics sought.now.row }
    requires multiplier_places { length multipliers.now ≡ size file.now.matrix }
    requires wanted_places { length sought.now.wanted.now ≡ size file.now.matrix }
    requires workspace { IsWorkspaceFor (size file.now.matrix) workspace.old }
    requires known { HasMultipliers file.now (place + 1) sought.now.row multipliers.now }
    requires over { AreNumbersOver denominator.old multipliers.now numbers.old }
    ensures met { IfOk result (λ met. (rates : Vector) → IsRowOf file.now.matrix file.now.basics
        sought.now.row rates → met ≡ meets sought.now.wanted.now sought.now.up rates (place + 1)) }
    ensures overflow { IfErr result (IsColumnStop file.now) }
    ensures never { IfErr result (λ stop. stop ≢ Stop.NoMemory) }
    ensures workspace { IsWorkspaceFor (size file.now.matrix) workspace.new }
    ensures over { AreNumbersOver denominator.new multipliers.now numbers.new }
{
    let _size = file.size();
    if let Some(number) = column_number(
        file,
        place,
        sought.row,
        multipliers,
        numbers,
        denominator,
    ) {
        let up = is_up_over(sought.up, *denominator);
        return Ok(is_wanted_at(sought.wanted, place, up, Frac::whole(number)));
    }
    let rate = rate_by_fractions(file, place, sought.row, multipliers, workspace)?;
    Ok(is_wanted_at(sought.wanted, place, sought.up, rate))
}

/// The least-numbered variable whose rate is wanted, if there is one.
fn first_by_multipliers(
    file: &EtaFile,
    sought: &Sought<'_>,
    multipliers: &[Frac],
    numbers: &mut SparseWholes,
    workspace: &mut ColumnWorkspace,
) -> Result<Option<u32>, Stop>
    requires basic { IsBasic file.now.matrix file.now.basics sought.now.row }
    requires multiplier_places { length multipliers.now ≡ size file.now.matrix }
    requires wanted_places { length sought.now.wanted.now ≡ size file.now.matrix }
    requires number_places { length numbers.old ≡ size file.now.matrix }
    requires workspace { IsWorkspaceFor (size file.now.matrix) workspace.old }
    requires known { HasMultipliers file.now (size file.now.matrix) sought.now.row multipliers.now }
    ensures least { IfOk result (λ found. (rates : Vector) → IsRowOf file.now.matrix
        file.now.basics sought.now.row rates → IsLeastWanted sought.now.wanted.now sought.now.up
        rates found) }
    ensures variable { IfOk result (λ found. IfSome found (IsVariable file.now.matrix)) }
    ensures overflow { IfErr result (IsColumnStop file.now) }
    ensures never { IfErr result (λ stop. stop ≢ Stop.NoMemory) }
    ensures number_places { length numbers.new ≡ size file.now.matrix }
    ensures workspace { IsWorkspaceFor (size file.now.matrix) workspace.new }
{
    numbers.clear();
    let mut denominator = Frac::whole(1);
    for place in 0..file.size() {
        let wanted = is_wanted_by_multipliers(
            file,
            place,
            sought,
            multipliers,
            numbers,
            &mut denominator,
            workspace,
        )?;
        if wanted {
            return Ok(Some(place + 1));
        }
    }
    Ok(None)
}

/// Fills in the rates from the multipliers of the rows, the last variable's first.
fn fill_by_multipliers(
    file: &EtaFile,
    row: u32,
    multipliers: &[Frac],
    numbers: &mut SparseWholes,
    out: &mut [Frac],
    workspace: &mut ColumnWorkspace,
) -> Result<(), Stop>
    requires basic { IsBasic file.now.matrix file.now.basics row }
    requires multiplier_places { length multipliers.now ≡ size file.now.matrix }
    requires places { length out.old ≡ size file.now.matrix }
    requires number_places { length numbers.old ≡ size file.now.matrix }
    requires workspace { IsWorkspaceFor (size file.now.matrix) workspace.old }
    requires known { HasMultipliers file.now (size file.now.matrix) row multipliers.now }
    ensures rates { OnOk result (IsRowOf file.now.matrix file.now.basics row (value_at out.new)) }
    ensures overflow { IfErr result (IsColumnStop file.now) }
    ensures never { IfErr result (λ stop. stop ≢ Stop.NoMemory) }
    ensures number_places { length numbers.new ≡ size file.now.matrix }
    ensures workspace { IsWorkspaceFor (size file.now.matrix) workspace.new }
{
    numbers.clear();
    let mut denominator = Frac::whole(1);
    let size = file.size();
    for back in 0..size {
        let place = size - 1 - back;
        let rate = rate_at(
            file,
            place,
            row,
            multipliers,
            numbers,
            &mut denominator,
            workspace,
        )?;
        out[place as usize] = rate;
    }
    Ok(())
}

/// Fills in the rate of the first variable whose rate is wanted, or where there is none all rates, from the multipliers of the rows.
fn fill_to_wanted(
    file: &EtaFile,
    sought: &Sought<'_>,
    multipliers: &[Frac],
    numbers: &mut SparseWholes,
    out: &mut [Frac],
    workspace: &mut ColumnWorkspace,
) -> Result<Option<u32>, Stop>
    requires basic { IsBasic file.now.matrix file.now.basics sought.now.row }
    requires multiplier_places { length multipliers.now ≡ size file.now.matrix }
    requires wanted_places { length sought.now.wanted.now ≡ size file.now.matrix }
    requires places { length out.old ≡ size file.now.matrix }
    requires number_places { length numbers.old ≡ size file.now.matrix }
    requires workspace { IsWorkspaceFor (size file.now.matrix) workspace.old }
    requires known { HasMultipliers file.now (size file.now.matrix) sought.now.row multipliers.now }
    ensures found { IfOk result (IsFirstWanted file.now.matrix file.now.basics sought.now.row
        sought.now.wanted.now sought.now.up (value_at out.new)) }
    ensures overflow { IfErr result (IsColumnStop file.now) }
    ensures never { IfErr result (λ stop. stop ≢ Stop.NoMemory) }
    ensures number_places { length numbers.new ≡ size file.now.matrix }
    ensures workspace { IsWorkspaceFor (size file.now.matrix) workspace.new }
{
    let _size = file.size();
    let found = first_by_multipliers(file, sought, multipliers, numbers, workspace)?;
    match found {
        Some(k) => {
            let rate = rate_by_fractions(file, k - 1, sought.row, multipliers, workspace)?;
            out[k as usize - 1] = rate;
            Ok(Some(k))
        }
        None => {
            fill_by_multipliers(file, sought.row, multipliers, numbers, out, workspace)?;
            Ok(None)
        }
    }
}
