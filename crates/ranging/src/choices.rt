//! What holds of a variable at a basis.

ghost use Rattle.std.specs.Prelude.{◌≡◌, ◌≤◌, length};
ghost use Rattle.lp_definitions.specs.LinearProgram.{size, IsVariable};
ghost use Rattle.lp_definitions.specs.Basis.{basics_of, status_of, is_basic};
ghost use Rattle.simplex_definitions.specs.Moves.{may_rise, may_fall};
ghost use Rattle.simplex_definitions.specs.Ranges.{stands_at_limit};

use lp_model::{Basis, Lp, Status};

/// Whether `k` is basic.
pub fn stands_basic(basis: &Basis, k: u32) -> bool
    requires low { 1 ≤ k }
    requires high { k ≤ length basis.now }
    ensures { result ≡ is_basic (status_of basis.now k) }
{
    match basis.status(k) {
        Status::Bs => true,
        Status::Ll | Status::Ul | Status::Fr => false,
    }
}

/// Whether `k` is a nonbasic that stands at a limit.
pub fn at_limit(basis: &Basis, k: u32) -> bool
    requires low { 1 ≤ k }
    requires high { k ≤ length basis.now }
    ensures { result ≡ stands_at_limit (status_of basis.now k) }
{
    match basis.status(k) {
        Status::Ll | Status::Ul => true,
        Status::Bs | Status::Fr => false,
    }
}

/// Which ways a nonbasic may move from where it stands.
#[derive(Clone, Copy)]
pub struct Ways {
    pub up: bool,
    pub down: bool,
}

/// Which ways the nonbasic `k` may move from where it stands.
pub fn ways_of(lp: &Lp, basis: &Basis, k: u32) -> Ways
    requires variable { IsVariable lp.now.matrix k }
    requires counted { length basis.now ≡ size lp.now.matrix }
    ensures up { result.up ≡ may_rise lp.now basis.now k }
    ensures down { result.down ≡ may_fall lp.now basis.now k }
{
    let free = !lp.is_fixed(k);
    let (up, down) = match basis.status(k) {
        Status::Bs => (false, false),
        Status::Ll => (free, false),
        Status::Ul => (false, free),
        Status::Fr => (free, free),
    };
    Ways { up, down }
}
