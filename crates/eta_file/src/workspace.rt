//! Workspace for a direction.

ghost use Rattle.std.specs.Prelude.{IfOk};
ghost use Rattle.eta_file.specs.Workspaces.{IsWorkspaceFor};

use frac128::Frac;
use lp_model::NoMemory;
use std::alloc::Global;
use whole_vectors::SparseWholes;

/// Places for the numbers of a direction: over one denominator, and in fractions.
#[derive(Drop)]
pub struct ColumnWorkspace {
    pub wholes: SparseWholes,
    pub direction: Vec<Frac>,
}

impl ColumnWorkspace {
    /// Places for so many variables.
    pub fn zeros(alloc: Global, size: usize) -> Result<ColumnWorkspace, NoMemory>
        ensures { IfOk result (IsWorkspaceFor size) }
    {
        Ok(ColumnWorkspace {
            wholes: SparseWholes::zeros(alloc, size)?,
            direction: vec![in alloc; Frac::whole(0); size]?,
        })
    }
}
