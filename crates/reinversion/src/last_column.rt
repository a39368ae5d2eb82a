//! The direction that was carried last, so that an exchange after a column doesn't carry the entering variable again.

ghost use Rattle.std.specs.Prelude.{◌≡◌, None, length, IfOk, OnOk};
ghost use Rattle.lp_definitions.specs.LinearProgram.{size, value_at};
ghost use Rattle.lp_definitions.specs.Basis.{IsNonbasic, IsDirectionOf};
ghost use Rattle.lp_model.specs.RatesCalls.{ColumnOverflow};
ghost use Rattle.eta_file.specs.Inverse.{file_state};
ghost use Rattle.reinversion.specs.Last.{IsLast};

use eta_file::EtaFile;
use frac128::Frac;
use lp_model::{Lp, NoMemory, Stop};
use std::alloc::Global;
use whole_vectors::SparseWholes;

/// The nonbasic whose direction at the present basics was carried last, with that direction; and workspace for whole numbers in which a
/// direction is carried.
#[derive(Drop)]
pub struct LastColumn {
    pub of: Option<u32>,
    pub direction: Vec<Frac>,
    pub wholes: SparseWholes,
}

impl LastColumn {
    /// None yet, and workspace for one.
    pub fn new(alloc: Global, lp: &Lp) -> Result<LastColumn, NoMemory>
        ensures none { IfOk result (λ last. last.of ≡ None) }
        ensures places { IfOk result (λ last. length last.direction.items ≡ size lp.now.matrix) }
        ensures wholes { IfOk result (λ last. length last.wholes ≡ size lp.now.matrix) }
    {
        let size = lp.number_of_variables();
        Ok(LastColumn {
            of: None,
            direction: vec![in alloc; Frac::whole(0); size as usize]?,
            wholes: SparseWholes::zeros(alloc, size as usize)?,
        })
    }

    /// Makes it none again.
    pub fn forget(&mut self)
        ensures none { self.new.of ≡ None }
        ensures places { length self.new.direction.items ≡ length self.old.direction.items }
        ensures wholes { self.new.wholes ≡ self.old.wholes }
    {
        self.of = None;
    }

    /// Has the direction of the nonbasic `j` at hand: it is carried through the file, unless it was carried last.
    pub fn carry(&mut self, file: &EtaFile, j: u32) -> Result<(), Stop>
        requires nonbasic { IsNonbasic file.now.matrix file.now.basics j }
        requires last { IsLast file.now self.old }
        ensures direction { OnOk result (IsDirectionOf file.now.matrix file.now.basics j
            (value_at self.new.direction.items)) }
        ensures last { IsLast file.now self.new }
        ensures overflow { ColumnOverflow result (file_state file.now) (file_state file.now) }
    {
        if self.of == Some(j) {
            return Ok(());
        }
        self.forget();
        file.column(j, &mut self.wholes, &mut self.direction)?;
        self.of = Some(j);
        Ok(())
    }
}
