//! The rates of a basis, made anew: from the rows, one exchange for each basic column, in ascending order.

ghost use Rattle.std.specs.Prelude.{◌≡◌, ◌+◌, ◌<◌, ◌≤◌, ◌↔◌, ◌⊎◌, ℕ, All, IsTrue, length, vec_len, IfOk, IfErr, IfSome, OnOk, MatchOption};
ghost use Rattle.lp_definitions.specs.LinearProgram.{size, IsRow, IsVariable};
ghost use Rattle.lp_definitions.specs.Basis.{basics_of, IsBasis};
ghost use Rattle.lp_definitions.specs.Waypoints.{HasColumnsWithin};
ghost use Rattle.problem_definitions.specs.Valid.{IsNumberOf};
ghost use Rattle.basis_values.specs.Calls.{IsAtBasis};
ghost use Rattle.basis_deck.specs.Installing.{IsUnderWay, IsLeaver, HasNoLeaver, FillStops, InstallStops};

use basis_values::stands_basic;
use frac128::Frac;
use lp_model::{Basis, Direction, Engine, Entry, Evidence, Lp, Stop};
use std::alloc::{AllocError, Global};

/// Why the rates of a basis aren't made. A plain enum: an engine is no error.
#[derive(Drop)]
pub enum InstallStop<E: Drop> {
    /// The basics are singular, and this is their dependency.
    Singular(Direction),
    /// A number was too large, at the waypoint of this engine that the evidence names.
    Overflow(Evidence, E),
    /// There was no memory.
    NoMemory,
}

// The same, without what it carries.
#[derive(Clone, Copy)]
enum FillStop {
    Singular,
    Overflow(Evidence),
    NoMemory,
}

impl From<Stop> for FillStop {
    ghost use Rattle.std.specs.Prelude.{◌≡◌};
    ghost use Rattle.basis_deck.specs.Installing.{fill_stop};

    ghost from_gives = { λ stop given. given ≡ fill_stop stop };

    fn from(stop: Stop) -> FillStop {
        match stop {
            Stop::Overflow(evidence) => FillStop::Overflow(evidence),
            Stop::NoMemory => FillStop::NoMemory,
        }
    }
}

// Counts a basic column in, on each row that has a number of it.
fn count_in(column: &[Entry], later: &mut [u32])
    requires { All (λ entry. IsNumberOf (length later.old) entry.row) column.now }
{
    for entry in column {
        let count = &mut later[entry.row as usize - 1];
        *count = count.saturating_add(1);
    }
}

// Counts it out.
fn count_out(column: &[Entry], later: &mut [u32])
    requires { All (λ entry. IsNumberOf (length later.old) entry.row) column.now }
{
    for entry in column {
        let count = &mut later[entry.row as usize - 1];
        *count = count.saturating_sub(1);
    }
}

// For each row the number of basic columns that have a number on it.
fn counted(alloc: Global, lp: &Lp, basis: &Basis) -> Result<Vec<u32>, AllocError>
    requires { length basis.now ≡ size lp.now.matrix }
    ensures { IfOk result (λ later. vec_len later ≡ lp.now.rows) }
{
    let _size = lp.number_of_variables();
    let mut later = vec![in alloc; 0; lp.rows as usize]?;
    for c in 0..lp.cols {
        if stands_basic(basis, lp.rows + c + 1) {
            count_in(lp.column(c + 1), &mut later);
        }
    }
    Ok(later)
}

// Whether row `p` may leave for a column with this direction.
fn may_leave(lp: &Lp, basis: &Basis, direction: &[Frac], p: u32) -> bool
    requires row { IsRow lp.now.matrix p }
    requires basis { length basis.now ≡ size lp.now.matrix }
    requires places { length direction.now ≡ size lp.now.matrix }
    ensures { IsTrue result ↔ IsLeaver lp.now.matrix (basics_of basis.now) direction.now p }
{
    !stands_basic(basis, p) && !direction[p as usize - 1].is_zero()
}

fn is_unit(rate: Frac) -> bool {
    rate == Frac::whole(1) || rate == Frac::whole(-1)
}

// Whether row `p` keeps the file shorter than `best`: fewer of the columns that are still to come have a number on it; or as many,
// and its rate alone is 1 or -1.
fn is_improved(direction: &[Frac], later: &[u32], p: u32, best: u32) -> bool
    requires p { IsNumberOf (length later.now) p }
    requires best { IsNumberOf (length later.now) best }
    requires places { length later.now ≤ length direction.now }
{
    let columns = later[p as usize - 1];
    let least = later[best as usize - 1];
    if columns == least {
        is_unit(direction[p as usize - 1]) && !is_unit(direction[best as usize - 1])
    } else {
        columns < least
    }
}

// The better of a row that may leave and one that was found before it.
fn improve(direction: &[Frac], later: &[u32], p: u32, found: Option<u32>) -> u32
    requires p { IsNumberOf (length later.now) p }
    requires found { IfSome found (IsNumberOf (length later.now)) }
    requires places { length later.now ≤ length direction.now }
    ensures { result ≡ p ⊎ found ≡ Some result }
{
    match found {
        Some(best) if !is_improved(direction, later, p, best) => best,
        _ => p,
    }
}

// A row that may leave for a column with this direction.
fn leaver(lp: &Lp, basis: &Basis, direction: &[Frac], later: &[u32]) -> Option<u32>
    requires basis { length basis.now ≡ size lp.now.matrix }
    requires places { length direction.now ≡ size lp.now.matrix }
    requires rows { length later.now ≡ lp.now.rows }
    ensures { MatchOption result (HasNoLeaver lp.now.matrix (basics_of basis.now) direction.now)
        (IsLeaver lp.now.matrix (basics_of basis.now) direction.now) }
{
    let _size = lp.number_of_variables();
    let mut found = None;
    for k in 0..lp.rows {
        if may_leave(lp, basis, direction, k + 1) {
            found = Some(improve(direction, later, k + 1, found));
        }
    }
    found
}

// Makes the column `k` basic, if the basis has it. `direction` is workspace for its direction, `later` counts the columns from it on.
fn enter<E: Engine>(
    engine: &mut E,
    lp: &Lp,
    basis: &Basis,
    k: u32,
    direction: &mut [Frac],
    later: &mut [u32],
) -> Result<(), FillStop>
    requires column { lp.now.rows < k }
    requires variable { IsVariable lp.now.matrix k }
    requires basis { IsBasis lp.now basis.now }
    requires same_matrix { (E.state engine.old).matrix ≡ lp.now.matrix }
    requires under_way { IsUnderWay lp.now.matrix (basics_of basis.now) (E.state engine.old).basics
        (E.state engine.old).waypoints k }
    requires places { length direction.old ≡ size lp.now.matrix }
    requires rows { length later.old ≡ lp.now.rows }
    ensures under_way { OnOk result (IsUnderWay lp.now.matrix (basics_of basis.now)
        (E.state engine.new).basics (E.state engine.new).waypoints (k + 1)) }
    ensures same_matrix { (E.state engine.new).matrix ≡ lp.now.matrix }
    ensures stops { IfErr result (FillStops lp.now.matrix (basics_of basis.now) direction.new
        (E.state engine.new).basics (E.state engine.new).waypoints) }
{
    let _size = lp.number_of_variables();
    if !stands_basic(basis, k) {
        return Ok(());
    }
    engine.column(k, direction)?;
    count_out(lp.column(k - lp.rows), later);
    let Some(p) = leaver(lp, basis, direction, later) else {
        return Err(FillStop::Singular);
    };
    engine.exchange(p, k)?;
    Ok(())
}

// Brings the engine from the rows to the basics of the basis. It stays where it is, so that a stop can give it away.
fn fill<E: Engine>(
    engine: &mut E,
    lp: &Lp,
    basis: &Basis,
    direction: &mut [Frac],
    later: &mut [u32],
) -> Result<(), FillStop>
    requires basis { IsBasis lp.now basis.now }
    requires same_matrix { (E.state engine.old).matrix ≡ lp.now.matrix }
    requires under_way { IsUnderWay lp.now.matrix (basics_of basis.now) (E.state engine.old).basics
        (E.state engine.old).waypoints (lp.now.rows + 1) }
    requires places { length direction.old ≡ size lp.now.matrix }
    requires rows { length later.old ≡ lp.now.rows }
    ensures under_way { OnOk result (IsUnderWay lp.now.matrix (basics_of basis.now)
        (E.state engine.new).basics (E.state engine.new).waypoints (size lp.now.matrix + 1)) }
    ensures same_matrix { (E.state engine.new).matrix ≡ lp.now.matrix }
    ensures stops { IfErr result (FillStops lp.now.matrix (basics_of basis.now) direction.new
        (E.state engine.new).basics (E.state engine.new).waypoints) }
{
    let _size = lp.number_of_variables();
    for c in 0..lp.cols {
        enter(engine, lp, basis, lp.rows + c + 1, direction, later)?;
    }
    Ok(())
}

/// The rates of a basis, made anew, or the dependency of its basics. Any basis will do, also one whose basics are singular.
pub fn install<E: Engine>(alloc: Global, lp: &Lp, basis: &Basis) -> Result<E, InstallStop<E>>
    requires { IsBasis lp.now basis.now }
    ensures rates { IfOk result (λ engine. IsAtBasis (E.state engine) lp.now basis.now) }
    ensures within { IfOk result (λ engine. All (λ way. HasColumnsWithin lp.now.matrix way
        (basics_of basis.now)) (E.state engine).waypoints) }
    ensures stops { IfErr result (InstallStops E.state lp.now basis.now) }
{
    let size = lp.number_of_variables() as usize;
    let Ok(mut direction) = vec![in alloc; Frac::whole(0); size] else {
        return Err(InstallStop::NoMemory);
    };
    let Ok(mut later) = counted(alloc, lp, basis) else {
        return Err(InstallStop::NoMemory);
    };
    let Ok(mut engine) = E::start(alloc, lp) else {
        return Err(InstallStop::NoMemory);
    };
    match fill(&mut engine, lp, basis, &mut direction, &mut later) {
        Ok(()) => Ok(engine),
        Err(FillStop::Singular) => Err(InstallStop::Singular(Direction::new(direction))),
        Err(FillStop::Overflow(evidence)) => Err(InstallStop::Overflow(evidence, engine)),
        Err(FillStop::NoMemory) => Err(InstallStop::NoMemory),
    }
}
