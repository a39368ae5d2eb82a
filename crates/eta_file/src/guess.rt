//! Numbers that may be a direction, and the test whether they are one.

ghost use Rattle.std.specs.Prelude.{◌≡◌, ◌≢◌, ◌+◌, ◌≤◌, ℕ, All, length, IfSome, IsTrue};
ghost use Rattle.exact_values.specs.Rational.{whole, zero_ℚ, ◌+ℚ◌, ◌*ℚ◌};
ghost use Rattle.exact_values.specs.Sums.{sum_up_to, sum_over};
ghost use Rattle.lp_definitions.specs.LinearProgram.{IsMatrix, IsRow, IsVariable, size, value_at, on_row, entry, KeepsEquations};
ghost use Rattle.lp_definitions.specs.Basis.{IsNonbasic};
ghost use Rattle.eta_file.specs.ColumnSums.{column_part};
ghost use Rattle.eta_file.specs.Listed.{listed_of};
ghost use Rattle.eta_file.specs.Entries.{AreDistinctRows};
ghost use Rattle.eta_file.specs.Transformations.{AreZero};

use crate::eta::StoredEta;
use crate::file::EtaFile;
use crate::modular::ModularFile;
use frac128::Frac;
use lp_model::Entry;
use whole_vectors::{SparseWholes, whole_at};

/// An eta has long numbers where its pivot, as a whole number over a common denominator of its entries, is of this size or more.
const LONG: u128 = 1 << 10;

/// Whether the last eta has long numbers.
pub fn has_long_numbers(etas: &[StoredEta]) -> bool {
    let Some(eta) = etas.last() else {
        return false;
    };
    let Some(whole) = &eta.whole else {
        return false;
    };
    whole.pivot.num().unsigned_abs() >= LONG
}

/// Adds the numbers of a column, times a number, to the sums of their rows.
fn add_column(column: &[Entry], number: i128, sums: &mut SparseWholes) -> Option<()>
    requires rows { All (λ e. (1 ≤ e.row) × (e.row ≤ length sums.old)) column.now }
    requires distinct { AreDistinctRows column.now }
    ensures added { IfSome result (λ _. (k : ℕ) → 1 ≤ k → value_at sums.new k ≡
        value_at sums.old k +ℚ whole number *ℚ on_row column.now k) }
    ensures places { length sums.new ≡ length sums.old }
{
    for entry in column {
        sums.add_product(entry.row, number, entry.value)?;
    }
    Some(())
}

/// Adds the numbers of the column of a variable, times its number, to the sums of their rows. A row has no column.
#[inline(always)]
fn add_variable(
    file: &EtaFile,
    k: u32,
    numbers: &SparseWholes,
    sums: &mut SparseWholes,
) -> Option<()>
    requires lawful { IsMatrix file.now.matrix }
    requires variable { IsVariable file.now.matrix k }
    requires numbers { length numbers.now ≡ size file.now.matrix }
    requires places { length sums.old ≡ size file.now.matrix }
    ensures added { IfSome result (λ _. (i : ℕ) → 1 ≤ i → value_at sums.new i ≡
        value_at sums.old i +ℚ column_part file.now.matrix (value_at numbers.now) i k) }
    ensures places { length sums.new ≡ length sums.old }
{
    let rows = file.rows();
    if k <= rows {
        return Some(());
    }
    let number = whole_at(numbers.numbers(), k);
    if number == 0 {
        return Some(());
    }
    let column = file.numbers(k - rows);
    add_column(column, number, sums)?;
    Some(())
}

/// The same of all listed variables.
fn add_listed(
    file: &EtaFile,
    listed: &[u32],
    numbers: &SparseWholes,
    sums: &mut SparseWholes,
) -> Option<()>
    requires lawful { IsMatrix file.now.matrix }
    requires listed { All (IsVariable file.now.matrix) listed.now }
    requires numbers { length numbers.now ≡ size file.now.matrix }
    requires places { length sums.old ≡ size file.now.matrix }
    ensures added { IfSome result (λ _. (i : ℕ) → 1 ≤ i → value_at sums.new i ≡
        value_at sums.old i +ℚ sum_over listed.now
        (column_part file.now.matrix (value_at numbers.now) i)) }
    ensures places { length sums.new ≡ length sums.old }
{
    for k in listed {
        add_variable(file, *k, numbers, sums)?;
    }
    Some(())
}

/// Adds the columns of the basics and of `j`, each times its number, to the sums of the rows. All other numbers are 0.
fn add_columns(
    file: &EtaFile,
    basics: &[u32],
    j: u32,
    numbers: &SparseWholes,
    sums: &mut SparseWholes,
) -> Option<()>
    requires basics { basics.now ≡ listed_of file.now.basics }
    requires nonbasic { IsNonbasic file.now.matrix file.now.basics j }
    requires numbers { length numbers.now ≡ size file.now.matrix }
    requires others { (k : ℕ) → IsNonbasic file.now.matrix file.now.basics k → k ≢ j →
        value_at numbers.now k ≡ zero_ℚ }
    requires places { length sums.old ≡ size file.now.matrix }
    requires zero { AreZero sums.old }
    ensures sums { IfSome result (λ _. (i : ℕ) → IsRow file.now.matrix i → value_at sums.new i ≡
        sum_up_to file.now.matrix.cols
        (λ c. entry file.now.matrix i c *ℚ value_at numbers.now (file.now.matrix.rows + c))) }
    ensures places { length sums.new ≡ length sums.old }
{
    let _size = file.size();
    add_listed(file, basics, numbers, sums)?;
    add_variable(file, j, numbers, sums)?;
    Some(())
}

/// Whether the sum of each row is its number.
fn have_rows(file: &EtaFile, numbers: &SparseWholes, sums: &SparseWholes) -> bool
    requires numbers { length numbers.now ≡ size file.now.matrix }
    requires places { length sums.now ≡ size file.now.matrix }
    ensures { IsTrue result → (i : ℕ) → IsRow file.now.matrix i → value_at numbers.now i ≡
        value_at sums.now i }
{
    for r in 0..file.rows() {
        if whole_at(numbers.numbers(), r + 1) != whole_at(sums.numbers(), r + 1) {
            return false;
        }
    }
    true
}

/// Whether numbers, of which all but those of the basics and of `j` are 0, keep the equations. `sums` is a workspace for the sums of the
/// rows.
pub fn keeps_equations(
    file: &EtaFile,
    basics: &[u32],
    j: u32,
    numbers: &SparseWholes,
    sums: &mut SparseWholes,
) -> bool
    requires basics { basics.now ≡ listed_of file.now.basics }
    requires nonbasic { IsNonbasic file.now.matrix file.now.basics j }
    requires numbers { length numbers.now ≡ size file.now.matrix }
    requires others { (k : ℕ) → IsNonbasic file.now.matrix file.now.basics k → k ≢ j →
        value_at numbers.now k ≡ zero_ℚ }
    ensures { IsTrue result → KeepsEquations file.now.matrix (value_at numbers.now) }
{
    if sums.numbers().len() != file.size() as usize {
        return false;
    }
    sums.clear();
    if add_columns(file, basics, j, numbers, sums).is_none() {
        return false;
    }
    have_rows(file, numbers, sums)
}

/// Puts numbers at the basics and at `j`, that of `j` the denominator that is given.
pub fn gathered(file: &EtaFile, work: &ModularFile, j: u32, out: &mut SparseWholes) -> Option<Frac>
    requires nonbasic { IsNonbasic file.now.matrix file.now.basics j }
    requires places { length out.old ≡ size file.now.matrix }
    ensures apart { IfSome result (λ d. d ≢ zero_ℚ) }
    ensures own { IfSome result (λ d. value_at out.new j ≡ d) }
    ensures others { IfSome result (λ d. (k : ℕ) → IsNonbasic file.now.matrix file.now.basics k →
        k ≢ j → value_at out.new k ≡ zero_ℚ) }
    ensures places { length out.new ≡ length out.old }
{
    out.clear();
    let (denominator, residue) = work.denominator()?;
    for k in work.listed() {
        if *k >= 1 && *k <= file.size() && file.is_basic(*k) {
            let number = work.number(*k, residue)?;
            out.put(*k, number)?;
        }
    }
    out.put(j, denominator)?;
    Some(Frac::whole(denominator))
}
