// A problem with the linear program that is selected from it: names, places and costs of its variables.
ghost use Rattle.std.specs.Prelude.{◌≡◌, ◌≤◌, ◌-◌, None, false, not, length};
ghost use Rattle.lp_definitions.specs.LinearProgram.{IsVariable, IsColumn, size, value_at};
ghost use Rattle.lp_definitions.specs.Basis.{is_basic, status_of};
ghost use Rattle.simplex_definitions.specs.Moves.{is_fixed, is_below, is_above, is_outside};
ghost use Rattle.listing_tables.specs.Lines.{name_of, at_by, at_of, stands_between};
ghost use Rattle.listing_tables.specs.Sheets.{IsSheet};

use frac128::Frac;
use listing_definitions::At;
use lp_model::{Basis, Lp, Status};
use name_table::Name;
use problem_file::Problem;

/// A problem, which has the names, and the linear program that is selected from it.
#[derive(Clone, Copy, Debug)]
pub struct Sheet<'a> {
    pub problem: &'a Problem,
    pub lp: &'a Lp,
}

/// The name of variable `k`.
pub fn name_of(sheet: Sheet<'_>, k: u32) -> Name
    requires sheet { IsSheet sheet }
    requires variable { IsVariable sheet.lp.now.matrix k }
    ensures { result ≡ name_of sheet.entry.problem.now k }
{
    let rows = sheet.problem.rows();
    let columns = sheet.problem.columns();
    let place = k as usize - 1;
    if place < rows.len() {
        let row = &rows[place];
        row.name
    } else {
        let column = &columns[place - rows.len()];
        column.name
    }
}

// Whether this activity of `k` is outside its limits.
fn lies_outside(lp: &Lp, activity: Frac, k: u32) -> bool
    requires { IsVariable lp.now.matrix k }
    ensures { result ≡ is_outside lp.now (λ _. activity) k }
{
    let is_below = match lp.lower_limit(k) {
        Some(lower) => activity.is_less(lower),
        None => false,
    };
    let is_above = match lp.upper_limit(k) {
        Some(upper) => upper.is_less(activity),
        None => false,
    };
    is_below || is_above
}

// Where a variable of this status stands, as it is printed.
fn at_by(status: Status, is_outside: bool, is_fixed: bool) -> At
    ensures { result ≡ at_by status is_outside is_fixed }
{
    match status {
        Status::Bs if is_outside => At::Outside,
        Status::Bs => At::Basic,
        _ if is_fixed => At::Equal,
        Status::Ll => At::Lower,
        Status::Ul => At::Upper,
        Status::Fr => At::Free,
    }
}

/// Where variable `k` stands at this point of the basis.
pub fn at_of(lp: &Lp, basis: &Basis, point: &[Frac], k: u32) -> At
    requires variable { IsVariable lp.now.matrix k }
    requires counted { length basis.now ≡ size lp.now.matrix }
    requires places { length point.now ≡ size lp.now.matrix }
    ensures { result ≡ at_of lp.now basis.now (value_at point.now) k }
{
    let is_outside = lies_outside(lp, point[k as usize - 1], k);
    at_by(basis.status(k), is_outside, lp.is_fixed(k))
}

/// Where variable `k` stands, as far as the basis alone tells it: a basic is taken to be within its limits.
pub fn at_in_part(lp: &Lp, basis: &Basis, k: u32) -> At
    requires variable { IsVariable lp.now.matrix k }
    requires counted { length basis.now ≡ size lp.now.matrix }
    ensures { result ≡ at_by (status_of basis.now k) false (is_fixed lp.now k) }
{
    at_by(basis.status(k), false, lp.is_fixed(k))
}

// Whether a status is that of a basic.
fn is_basic(status: Status) -> bool
    ensures { result ≡ is_basic status }
{
    match status {
        Status::Bs => true,
        Status::Ll | Status::Ul | Status::Fr => false,
    }
}

/// Whether variable `k` is nonbasic.
pub fn is_at_limit(basis: &Basis, k: u32) -> bool
    requires first { 1 ≤ k }
    requires last { k ≤ length basis.now }
    ensures { result ≡ not (is_basic (status_of basis.now k)) }
{
    !is_basic(basis.status(k))
}

/// Whether variable `k` is basic, and not the objective.
pub fn is_between(lp: &Lp, basis: &Basis, k: u32) -> bool
    requires first { 1 ≤ k }
    requires last { k ≤ length basis.now }
    ensures { result ≡ stands_between lp.now basis.now k }
{
    is_basic(basis.status(k)) && k != lp.objective
}

/// The activity of the objective row.
pub fn objective_of(lp: &Lp, point: &[Frac]) -> Frac
    requires { length point.now ≡ size lp.now.matrix }
    ensures { result ≡ value_at point.now lp.now.objective }
{
    point[lp.objective as usize - 1]
}

/// How many rows there are.
pub fn row_count(lp: &Lp) -> u32
    ensures { result ≡ lp.now.matrix.rows }
{
    lp.rows
}
