//! Where a path stands.

ghost use Rattle.std.specs.Prelude.{◌≡◌, length};
ghost use Rattle.lp_definitions.specs.LinearProgram.{size};

use crate::kept::Kept;
use lp_model::{Basis, Lp, Ratio};
use std::alloc::Global;

/// Where a path stands: its linear program and its basis, the least-numbered basic outside its limits, which is `broken`, how many steps
/// are made, and how many more may be. The values of `point` that are `kept` are those of the basis's point, and so are those of the
/// variables with a limit in any case. What the path answers is made by `alloc`.
#[derive(Clone, Copy)]
pub struct Position<'a> {
    pub alloc: Global,
    pub lp: &'a Lp,
    pub basis: &'a Basis,
    pub point: &'a [Ratio],
    pub kept: Kept,
    pub broken: Option<u32>,
    pub steps: u32,
    pub left: u32,
    pub ghost point_places: { length point.now ≡ size lp.now.matrix },
}
