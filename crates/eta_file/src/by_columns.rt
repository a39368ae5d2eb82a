//! Rates that are computed by carrying columns through an eta file.

ghost use Rattle.std.specs.Prelude.{◌≡◌, ◌≢◌, ◌≤◌, length, All, IfOk, IfErr, OnOk, OnErr};
ghost use Rattle.lp_definitions.specs.LinearProgram.{IsVariable, size, value_at};
ghost use Rattle.lp_definitions.specs.Basis.{IsBasic, IsNonbasic, IsDirectionOf, exchanged, row_basics};
ghost use Rattle.lp_definitions.specs.Waypoints.{waypoint};
ghost use Rattle.lp_model.specs.RatesState.{KeepsBasics, LeavesWaypoints};
ghost use Rattle.lp_model.specs.RatesCalls.{IsRowOf, HasPivot, ColumnOverflow, RowOverflow, ExchangeOverflow};
ghost use Rattle.eta_file.specs.Inverse.{ways_of, IsAppended, IsRateAt, IsColumnStop, file_state};
ghost use Rattle.eta_file.specs.Workspaces.{IsWorkspaceFor};

use crate::file::EtaFile;
use crate::workspace::ColumnWorkspace;
use frac128::Frac;
use lp_model::{Engine, Lp, NoMemory, Rates, Stop};
use std::alloc::Global;
use std::marker::Model;

/// A set of basics with an eta file of it. A row is computed column by column.
#[derive(Drop)]
pub struct ByColumns {
    file: EtaFile,
    workspace: ColumnWorkspace,
}

impl Model for ByColumns {
    ghost use Rattle.eta_file.specs.Inverse.{Inverse};

    ghost Value = { Inverse };

    ghost use Rattle.eta_file.specs.Columns.{file_of, HasWorkspace};

    ghost view = { file_of };

    ghost invariant = { HasWorkspace };
}

impl ByColumns {
    /// All rows are basic.
    pub fn new(alloc: Global, lp: &Lp) -> Result<ByColumns, NoMemory>
        ensures matrix { IfOk result (λ rates. rates.matrix ≡ lp.now.matrix) }
        ensures basics { IfOk result (λ rates. rates.basics ≡ row_basics lp.now.matrix) }
        ensures ways { IfOk result (λ rates. All (λ w. w ≡ row_basics lp.now.matrix)
            (ways_of rates)) }
    {
        let size = lp.number_of_variables();
        Ok(ByColumns {
            file: EtaFile::new(alloc, lp)?,
            workspace: ColumnWorkspace::zeros(alloc, size as usize)?,
        })
    }

    /// The file.
    pub fn file(&self) -> &EtaFile
        ensures { result.now ≡ self.now }
    {
        &self.file
    }
}

/// The rate of `i` at `k`, and 0 where `k` is basic, by the direction of `k`, which `workspace` takes. It takes no memory.
pub fn rate_by_column(
    file: &EtaFile,
    i: u32,
    k: u32,
    workspace: &mut ColumnWorkspace,
) -> Result<Frac, Stop>
    requires low { IsVariable file.now.matrix i }
    requires high { IsVariable file.now.matrix k }
    requires places { IsWorkspaceFor (size file.now.matrix) workspace.old }
    ensures value { IfOk result (IsRateAt file.now i k) }
    ensures overflow { IfErr result (IsColumnStop file.now) }
    ensures never { IfErr result (λ stop. stop ≢ Stop.NoMemory) }
    ensures places { IsWorkspaceFor (size file.now.matrix) workspace.new }
{
    let _size = file.size();
    if file.is_basic(k) {
        return Ok(Frac::whole(0));
    }
    file.column_to(k, workspace)?;
    Ok(workspace.direction[i as usize - 1])
}

/// Fills `out` with the rates of the basic `i`, by the column of each nonbasic, which `workspace` takes. It takes no memory.
fn row_by_columns(
    file: &EtaFile,
    i: u32,
    out: &mut [Frac],
    workspace: &mut ColumnWorkspace,
) -> Result<(), Stop>
    requires basic { IsBasic file.now.matrix file.now.basics i }
    requires places { length out.old ≡ size file.now.matrix }
    requires workspace { IsWorkspaceFor (size file.now.matrix) workspace.old }
    ensures rates { OnOk result (IsRowOf file.now.matrix file.now.basics i (value_at out.new)) }
    ensures overflow { RowOverflow result (file_state file.now) (file_state file.now) }
    ensures never { IfErr result (λ stop. stop ≢ Stop.NoMemory) }
    ensures workspace { IsWorkspaceFor (size file.now.matrix) workspace.new }
{
    for k in 0..file.size() {
        out[k as usize] = rate_by_column(file, i, k + 1, workspace)?;
    }
    Ok(())
}

impl Rates for ByColumns {
    ghost state = { file_state };

    /// Takes no memory.
    fn column(&mut self, j: u32, out: &mut [Frac]) -> Result<(), Stop>
        requires nonbasic { IsNonbasic self.old.matrix self.old.basics j }
        requires places { length out.old ≡ size self.old.matrix }
        ensures direction { OnOk result (IsDirectionOf self.old.matrix self.old.basics j
            (value_at out.new)) }
        ensures overflow { ColumnOverflow result (file_state self.old) (file_state self.old) }
        ensures never { IfErr result (λ stop. stop ≢ Stop.NoMemory) }
        ensures same { self.new ≡ self.old }
        ensures kept { KeepsBasics (file_state self.old) (file_state self.new) }
    {
        let _size = self.file.size();
        self.file.column(j, &mut self.workspace.wholes, out)
    }

    /// Takes no memory.
    fn row(&mut self, i: u32, out: &mut [Frac]) -> Result<(), Stop>
        requires basic { IsBasic self.old.matrix self.old.basics i }
        requires places { length out.old ≡ size self.old.matrix }
        ensures rates { OnOk result (IsRowOf self.old.matrix self.old.basics i (value_at out.new)) }
        ensures overflow { RowOverflow result (file_state self.old) (file_state self.old) }
        ensures same { self.new ≡ self.old }
        ensures kept { KeepsBasics (file_state self.old) (file_state self.new) }
    {
        row_by_columns(&self.file, i, out, &mut self.workspace)
    }

    /// After a Stop the file is as before.
    fn exchange(&mut self, p: u32, q: u32) -> Result<(), Stop>
        requires leaves { IsBasic self.old.matrix self.old.basics p }
        requires enters { IsNonbasic self.old.matrix self.old.basics q }
        requires pivot { HasPivot self.old.matrix self.old.basics p q }
        ensures appended { OnOk result (IsAppended self.old p q self.new) }
        ensures err { OnErr result (self.new ≡ self.old) }
        ensures ok { OnOk result (self.new.basics ≡ exchanged self.old.basics p q) }
        ensures same_matrix { self.new.matrix ≡ self.old.matrix }
        ensures waypoints { LeavesWaypoints (file_state self.old) (file_state self.new) }
        ensures overflow { ExchangeOverflow result p q (file_state self.old) (file_state self.new) }
    {
        let _size = self.file.size();
        self.file.append_in(p, q, &mut self.workspace)
    }

    fn way_basics(&self, way: u32, out: &mut [bool])
        requires is_way { way ≤ length (ways_of self.now) }
        requires places { length out.old ≡ size self.now.matrix }
        ensures { out.new ≡ waypoint self.now.basics (ways_of self.now) way }
    {
        self.file.way_basics(way, out);
    }
}

impl Engine for ByColumns {
    fn start(alloc: Global, lp: &Lp) -> Result<ByColumns, NoMemory> {
        ByColumns::new(alloc, lp)
    }
}
