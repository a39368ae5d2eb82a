//! Which rates let a nonbasic lower a quantity.

ghost use Rattle.std.specs.Prelude.{◌≡◌, IfOk, length};
ghost use Rattle.lp_definitions.specs.LinearProgram.{size, IsVariable};
ghost use Rattle.basis_values.specs.Wants.{want_of, AreWants, AreWantsBut};

use lp_model::{Basis, Lp, NoMemory, Status, Wanted};
use std::alloc::Global;

/// The sign of a quantity's rate at `k` that lets `k` lower it.
pub fn want_of(lp: &Lp, basis: &Basis, k: u32) -> Wanted
    requires variable { IsVariable lp.now.matrix k }
    requires counted { length basis.now ≡ size lp.now.matrix }
    ensures { result ≡ want_of lp.now basis.now k }
{
    if lp.is_fixed(k) {
        return Wanted::Nothing;
    }
    match basis.status(k) {
        Status::Bs => Wanted::Nothing,
        Status::Ll => Wanted::Below,
        Status::Ul => Wanted::Above,
        Status::Fr => Wanted::Apart,
    }
}

/// The same of each variable.
pub fn wants_of(alloc: Global, lp: &Lp, basis: &Basis) -> Result<Vec<Wanted>, NoMemory>
    requires { length basis.now ≡ size lp.now.matrix }
    ensures { IfOk result (λ wants. AreWants lp.now basis.now wants.items) }
{
    let mut wants = Vec::new(alloc);
    for k in 0..lp.number_of_variables() {
        wants.push(want_of(lp, basis, k + 1)).map_err(|_| NoMemory)?;
    }
    Ok(wants)
}

/// Renews what is wanted at `p` and `q`, the only variables that may stand elsewhere than before.
pub fn renew_wants(lp: &Lp, basis: &Basis, wants: &mut [Wanted], p: u32, q: u32)
    requires first { IsVariable lp.now.matrix p }
    requires second { IsVariable lp.now.matrix q }
    requires counted { length basis.now ≡ size lp.now.matrix }
    requires others { AreWantsBut lp.now basis.now p q wants.old }
    ensures { AreWants lp.now basis.now wants.new }
{
    wants[p as usize - 1] = want_of(lp, basis, p);
    wants[q as usize - 1] = want_of(lp, basis, q);
}
