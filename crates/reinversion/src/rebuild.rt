//! A new file for the basics of another: from the rows, one exchange for each basic column.

ghost use Rattle.std.specs.Prelude.{◌≡◌, ◌≢◌, ◌+◌, ◌-◌, ◌<◌, ◌≤◌, ◌↔◌, ℕ, true, length, IsTrue, IfOk, IfErr, OnOk};
ghost use Rattle.lp_definitions.specs.LinearProgram.{IsRow, IsColumn, size};
ghost use Rattle.lp_definitions.specs.Basis.{is_in};
ghost use Rattle.lp_model.specs.RatesCalls.{IfOverflow};
ghost use Rattle.reinversion.specs.Rebuilt.{IsRebuilt, IsRemade, KeptRefused, IsLeaver, without_way};

use crate::order::{Entering, entering_order};
use eta_file::EtaFile;
use lp_model::{Evidence, NoMemory, Ratio, SparseVector, Stop};
use whole_vectors::SparseWholes;

/// The evidence, naming no set.
fn nameless(evidence: Evidence) -> Evidence
    ensures { result ≡ record evidence { way = 0 } }
{
    Evidence {
        formula: evidence.formula,
        way: 0,
        p: evidence.p,
        q: evidence.q,
        i: evidence.i,
        j: evidence.j,
        term: evidence.term,
        theta: evidence.theta,
        refused: evidence.refused,
    }
}

/// The same stop, with evidence that names no set.
fn kept(stop: Stop) -> Stop
    ensures { result ≡ without_way stop }
{
    match stop {
        Stop::Overflow(evidence) => Stop::Overflow(nameless(evidence)),
        Stop::NoMemory => Stop::NoMemory,
    }
}

/// Whether row `p` may leave the new file for a column with this direction.
fn may_leave(old: &EtaFile, new: &EtaFile, direction: &[Ratio], p: u32) -> bool
    requires row { IsRow old.now.matrix p }
    requires same { new.now.matrix ≡ old.now.matrix }
    requires places { length direction.now ≡ size old.now.matrix }
    ensures { IsTrue result ↔ IsLeaver old.now.matrix old.now.basics new.now.basics
        direction.now p }
{
    new.is_basic(p) && !old.is_basic(p) && !direction[p as usize - 1].is_zero()
}

/// A row that may leave the new file for the column with this direction, where there is one: the one that is wished for if it may,
/// else the first.
fn leaver(old: &EtaFile, new: &EtaFile, direction: &[Ratio], wish: u32) -> u32
    requires same { new.now.matrix ≡ old.now.matrix }
    requires places { length direction.now ≡ size old.now.matrix }
    requires some { ((p : ℕ) → IsRow old.now.matrix p → IsLeaver old.now.matrix old.now.basics
        new.now.basics direction.now p → ⊥) → ⊥ }
    ensures { IsLeaver old.now.matrix old.now.basics new.now.basics direction.now result }
{
    if wish >= 1 && wish <= old.rows() && may_leave(old, new, direction, wish) {
        return wish;
    }
    for k in 0..old.rows() {
        if may_leave(old, new, direction, k + 1) {
            return k + 1;
        }
    }
    0
}

/// Makes column `c`, from 1, basic in the new file if it is in the old one and isn't yet in the new one, in place of the row that is
/// wished for if that may leave.
fn enter(
    old: &EtaFile,
    new: &mut EtaFile,
    c: u32,
    wish: u32,
    wholes: &mut SparseWholes,
    workspace: &mut SparseVector,
) -> Result<(), Stop>
    requires column { IsColumn old.now.matrix c }
    requires wholes { length wholes.old ≡ size old.now.matrix }
    requires places { length workspace.old ≡ size old.now.matrix }
    requires rebuilt { IsRebuilt old.now.matrix old.now.basics 0 new.old }
    ensures keeps { OnOk result ((n : ℕ) → IsRebuilt old.now.matrix old.now.basics n new.old →
        IsRebuilt old.now.matrix old.now.basics n new.new) }
    ensures entered { OnOk result (is_in old.now.basics (old.now.matrix.rows + c) ≡ true →
        is_in new.new.basics (old.now.matrix.rows + c) ≡ true) }
    ensures places { OnOk result (length workspace.new ≡ size old.now.matrix) }
    ensures refused { IfErr result
        (λ stop. IfOverflow stop (KeptRefused old.now.matrix old.now.basics)) }
    ensures wholes { length wholes.new ≡ length wholes.old }
{
    let _size = old.size();
    let _new_size = new.size();
    let k = old.rows() + c;
    if !old.is_basic(k) {
        return Ok(());
    }
    if new.is_basic(k) {
        return Ok(());
    }
    if let Err(stop) = new.direction(k, wholes, workspace) {
        return Err(kept(stop));
    }
    let p = leaver(old, new, workspace.values(), wish);
    new.append_along(p, k, workspace)?;
    Ok(())
}

/// Lets the columns of an order in, each in place of the row that the order wishes for.
fn enter_in_order(
    old: &EtaFile,
    new: &mut EtaFile,
    order: &[Entering],
    wholes: &mut SparseWholes,
    workspace: &mut SparseVector,
) -> Result<(), Stop>
    requires wholes { length wholes.old ≡ size old.now.matrix }
    requires places { length workspace.old ≡ size old.now.matrix }
    requires rebuilt { IsRebuilt old.now.matrix old.now.basics 0 new.old }
    ensures rebuilt { OnOk result (IsRebuilt old.now.matrix old.now.basics 0 new.new) }
    ensures places { OnOk result (length workspace.new ≡ size old.now.matrix) }
    ensures refused { IfErr result
        (λ stop. IfOverflow stop (KeptRefused old.now.matrix old.now.basics)) }
    ensures wholes { length wholes.new ≡ length wholes.old }
{
    let cols = old.size() - old.rows();
    for entering in order {
        if entering.column >= 1 && entering.column <= cols {
            enter(old, new, entering.column, entering.row, wholes, workspace)?;
        }
    }
    Ok(())
}

/// Whole numbers for the directions of a file, all 0.
fn wholes_for(file: &EtaFile) -> Result<SparseWholes, NoMemory>
    ensures { IfOk result (λ wholes. length wholes ≡ size file.now.matrix) }
{
    let size = file.size();
    let wholes = SparseWholes::zeros(file.alloc(), size as usize)?;
    Ok(wholes)
}

/// A new file for the basics of this one. Where the order left a column out, it enters at the end.
pub fn rebuild(old: &EtaFile) -> Result<EtaFile, Stop>
    ensures remade { IfOk result (IsRemade old.now) }
    ensures refused { IfErr result
        (λ stop. IfOverflow stop (KeptRefused old.now.matrix old.now.basics)) }
{
    let size = old.size();
    let rows = old.rows();
    let mut new = old.at_rows()?;
    let order = entering_order(old)?;
    let mut wholes = wholes_for(old)?;
    let mut workspace = SparseVector::zeros(old.alloc(), size as usize)?;
    enter_in_order(old, &mut new, &order, &mut wholes, &mut workspace)?;
    for c in 0..size - rows {
        enter(old, &mut new, c + 1, 0, &mut wholes, &mut workspace)?;
    }
    let _new_size = new.size();
    Ok(new)
}
