//! The product form: rates that are carried through an eta file, which is made anew from time to time.

ghost use Rattle.std.specs.Prelude.{◌≡◌, ◌≢◌, ◌+◌, ◌<◌, ◌≤◌, ◌^◌, false, length, All, IfOk, OnOk, OnErr, MatchBool};
ghost use Rattle.exact_values.specs.Rational.{zero_ℚ};
ghost use Rattle.lp_definitions.specs.LinearProgram.{size, value_at};
ghost use Rattle.lp_definitions.specs.Basis.{IsBasic, IsNonbasic, IsDirectionOf, exchanged, row_basics};
ghost use Rattle.lp_definitions.specs.Waypoints.{waypoint};
ghost use Rattle.lp_model.specs.RatesState.{KeepsBasics, LeavesWaypoints};
ghost use Rattle.lp_model.specs.RatesCalls.{IsRowOf, HasPivot, ColumnOverflow, RowOverflow, ExchangeOverflow};
ghost use Rattle.lp_model.specs.Wanted.{IsFirstWanted};
ghost use Rattle.eta_file.specs.Prefixes.{basic_columns};
ghost use Rattle.eta_file.specs.Inverse.{ways_of, IsAppended, file_state};
ghost use Rattle.reinversion.specs.Rebuilt.{KeptRefused};
ghost use Rattle.reinversion.specs.Form.{IfDone, IfKept, HasLongPivot, IsDue, IsShort, IsPrepared, IsTurn};

use crate::last_column::LastColumn;
use crate::rebuild::rebuild;
use eta_file::EtaFile;
use frac128::Frac;
use lp_model::{Engine, Evidence, Lp, NoMemory, Rates, SparseVector, Stop, Wanted};
use price_row::PriceRow;
use std::alloc::Global;
use std::marker::Model;

/// Each of so many exchanges makes the file anew first, counted from the last time.
const EXCHANGES: u32 = 50;

/// Where the pivot of the last exchange is a long number, each of so many exchanges does.
const EXCHANGES_OF_LONG_NUMBERS: u32 = 20;

/// A fraction whose denominator is of this size or more is a long number.
const LONG: u128 = 1 << 32;

/// Whether the pivot of the last exchange is a long number.
fn has_long_pivot(file: &EtaFile) -> bool
    ensures { MatchBool result (HasLongPivot file.now.etas) (HasLongPivot file.now.etas → ⊥) }
{
    let etas = file.etas();
    if etas == 0 {
        return false;
    }
    let pivot = file.pivot(etas);
    if pivot.den().unsigned_abs() < LONG {
        return false;
    }
    true
}

/// How a reinversion ended.
#[derive(Clone, Copy, Debug, PartialEq, Eq)]
pub enum Reinverted {
    /// There is at most one eta for each basic column.
    Done,
    /// A number was too large, and the file is as it was.
    Kept(Evidence),
}

/// A set of basics with an eta file of it, the direction that was carried last, and the number of exchanges since a reinversion.
#[derive(Drop)]
pub struct ProductForm {
    file: EtaFile,
    last: LastColumn,
    price: PriceRow,
    since: u32,
    kept: bool,
}

impl Model for ProductForm {
    ghost use Rattle.reinversion.specs.Form.{Form, form_of, IsForm};

    ghost Value = { Form };

    ghost view = { form_of };

    ghost invariant = { IsForm };
}

impl ProductForm {
    /// All rows are basic.
    pub fn new(alloc: Global, lp: &Lp) -> Result<ProductForm, NoMemory>
        ensures matrix { IfOk result (λ form. form.file.matrix ≡ lp.now.matrix) }
        ensures basics { IfOk result (λ form. form.file.basics ≡ row_basics lp.now.matrix) }
        ensures ways { IfOk result (λ form. All (λ w. w ≡ row_basics lp.now.matrix)
            (ways_of form.file)) }
    {
        Ok(ProductForm {
            file: EtaFile::new(alloc, lp)?,
            last: LastColumn::new(alloc, lp)?,
            price: PriceRow::new(alloc, lp)?,
            since: 0,
            kept: false,
        })
    }

    /// The file, whose basics are the object's own. Unless the last reinversion was refused, it has at most one eta for each row, and
    /// one for each exchange since.
    pub fn file(&self) -> &EtaFile
        ensures file { result.now ≡ self.now.file }
        ensures short { IsShort self.now }
    {
        &self.file
    }

    /// Makes the file anew, with one eta for each basic column. The basics stay the same. Where a number is too large, or there is no
    /// memory, the file stays as it was.
    pub fn reinvert(&mut self) -> Result<Reinverted, NoMemory>
        ensures same_matrix { self.new.file.matrix ≡ self.old.file.matrix }
        ensures same_basics { self.new.file.basics ≡ self.old.file.basics }
        ensures waypoints { LeavesWaypoints (file_state self.old.file) (file_state self.new.file) }
        ensures done { IfOk result (IfDone (length self.new.file.etas ≤ basic_columns
            self.new.file.matrix self.new.file.basics)) }
        ensures kept { IfOk result (IfKept (KeptRefused self.old.file.matrix
            self.old.file.basics)) }
        ensures same { IfOk result (IfKept (λ _. self.new.file ≡ self.old.file)) }
        ensures since { OnOk result (self.new.since ≡ 0) }
        ensures err { OnErr result (self.new ≡ self.old) }
    {
        let _size = self.file.size();
        match rebuild(&self.file) {
            Ok(file) => {
                self.file = file;
                self.since = 0;
                self.kept = false;
                Ok(Reinverted::Done)
            }
            Err(Stop::Overflow(evidence)) => {
                self.since = 0;
                self.kept = true;
                Ok(Reinverted::Kept(evidence))
            }
            Err(Stop::NoMemory) => Err(NoMemory),
        }
    }

    /// Whether the next exchange makes the file anew first.
    fn is_due(&self) -> bool
        ensures due { MatchBool result (IsDue self.now) (IsDue self.now → ⊥) }
        ensures few { self.now.since < 50 }
    {
        let exchanges = self.since + 1;
        if exchanges >= EXCHANGES {
            return true;
        }
        if exchanges < EXCHANGES_OF_LONG_NUMBERS {
            return false;
        }
        has_long_pivot(&self.file)
    }

    /// Makes the file anew before each 50th exchange, and where numbers are long before each 20th.
    fn reinvert_if_due(&mut self) -> Result<(), NoMemory>
        ensures same_matrix { self.new.file.matrix ≡ self.old.file.matrix }
        ensures same_basics { self.new.file.basics ≡ self.old.file.basics }
        ensures waypoints { LeavesWaypoints (file_state self.old.file) (file_state self.new.file) }
        ensures prepared { OnOk result (IsPrepared self.old self.new) }
    {
        if self.is_due() {
            self.reinvert()?;
        }
        Ok(())
    }

    /// Makes the exchange in the file, and counts it.
    fn exchange_in_file(&mut self, p: u32, q: u32) -> Result<(), Stop>
        requires leaves { IsBasic self.old.file.matrix self.old.file.basics p }
        requires enters { IsNonbasic self.old.file.matrix self.old.file.basics q }
        requires pivot { HasPivot self.old.file.matrix self.old.file.basics p q }
        requires not_due { self.old.since + 1 < 50 }
        ensures ok { OnOk result (IsAppended self.old.file p q self.new.file) }
        ensures err { OnErr result (self.new ≡ self.old) }
        ensures counted { OnOk result (self.new.since ≡ self.old.since + 1) }
        ensures same_matrix { self.new.file.matrix ≡ self.old.file.matrix }
        ensures waypoints { LeavesWaypoints (file_state self.old.file) (file_state self.new.file) }
        ensures overflow { ExchangeOverflow result p q (file_state self.old.file)
            (file_state self.new.file) }
    {
        let _size = self.file.size();
        self.last.carry(&self.file, q)?;
        self.file.append_carried(p, q, &self.last.direction)?;
        self.last.forget();
        self.since += 1;
        Ok(())
    }
}

impl ProductForm {
    /// Makes the exchange in the file along the direction of `q`, and counts it.
    fn exchange_in_file_along(
        &mut self,
        p: u32,
        q: u32,
        direction: &SparseVector,
    ) -> Result<(), NoMemory>
        requires leaves { IsBasic self.old.file.matrix self.old.file.basics p }
        requires enters { IsNonbasic self.old.file.matrix self.old.file.basics q }
        requires direction { IsDirectionOf self.old.file.matrix self.old.file.basics q
            (value_at direction.now) }
        requires pivot { value_at direction.now p ≢ zero_ℚ }
        requires places { length direction.now ≡ size self.old.file.matrix }
        requires not_due { self.old.since + 1 < 50 }
        ensures ok { OnOk result (IsAppended self.old.file p q self.new.file) }
        ensures err { OnErr result (self.new ≡ self.old) }
        ensures counted { OnOk result (self.new.since ≡ self.old.since + 1) }
        ensures same_matrix { self.new.file.matrix ≡ self.old.file.matrix }
        ensures waypoints { LeavesWaypoints (file_state self.old.file) (file_state self.new.file) }
    {
        let _size = self.file.size();
        self.file.append_along(p, q, direction)?;
        self.last.forget();
        self.since += 1;
        Ok(())
    }
}

impl Rates for ProductForm {
    ghost state = { λ form. file_state form.file };

    /// Takes no memory. The direction is kept for the exchange.
    fn column(&mut self, j: u32, out: &mut [Frac]) -> Result<(), Stop>
        requires nonbasic { IsNonbasic self.old.file.matrix self.old.file.basics j }
        requires places { length out.old ≡ size self.old.file.matrix }
        ensures direction { OnOk result (IsDirectionOf self.old.file.matrix self.old.file.basics j
            (value_at out.new)) }
        ensures overflow { ColumnOverflow result (file_state self.old.file)
            (file_state self.old.file) }
        ensures same { self.new ≡ self.old }
        ensures kept { KeepsBasics (file_state self.old.file) (file_state self.new.file) }
    {
        let _size = self.file.size();
        self.last.carry(&self.file, j)?;
        out.copy_from_slice(&self.last.direction);
        Ok(())
    }

    /// The direction is carried into `out` itself, and none is kept for an exchange.
    fn direction(&mut self, j: u32, out: &mut SparseVector) -> Result<(), Stop>
        requires nonbasic { IsNonbasic self.old.file.matrix self.old.file.basics j }
        requires places { length out.old ≡ size self.old.file.matrix }
        requires small { size self.old.file.matrix < 2 ^ 32 }
        ensures direction { OnOk result (IsDirectionOf self.old.file.matrix self.old.file.basics j
            (value_at out.new)) }
        ensures places { OnOk result (length out.new ≡ size self.old.file.matrix) }
        ensures overflow { ColumnOverflow result (file_state self.old.file)
            (file_state self.old.file) }
        ensures same { self.new ≡ self.old }
        ensures kept { KeepsBasics (file_state self.old.file) (file_state self.new.file) }
    {
        self.file.tested_direction(j, &mut self.last.wholes, out)
    }

    /// Takes no memory. The row is carried backwards through the file.
    fn row(&mut self, i: u32, out: &mut [Frac]) -> Result<(), Stop>
        requires basic { IsBasic self.old.file.matrix self.old.file.basics i }
        requires places { length out.old ≡ size self.old.file.matrix }
        ensures rates { OnOk result (IsRowOf self.old.file.matrix self.old.file.basics i
            (value_at out.new)) }
        ensures overflow { RowOverflow result (file_state self.old.file)
            (file_state self.old.file) }
        ensures same { self.new ≡ self.old }
        ensures kept { KeepsBasics (file_state self.old.file) (file_state self.new.file) }
    {
        self.price.row(&self.file, i, out)
    }

    /// Takes no memory. The row is carried backwards through the file, and no rate is worked out after the first one that is wanted.
    fn first_wanted(
        &mut self,
        i: u32,
        wanted: &[Wanted],
        up: bool,
        out: &mut [Frac],
    ) -> Result<Option<u32>, Stop>
        requires basic { IsBasic self.old.file.matrix self.old.file.basics i }
        requires wanted_places { length wanted.now ≡ size self.old.file.matrix }
        requires places { length out.old ≡ size self.old.file.matrix }
        requires small { size self.old.file.matrix < 2 ^ 32 }
        ensures found { IfOk result (IsFirstWanted self.old.file.matrix self.old.file.basics i
            wanted.now up (value_at out.new)) }
        ensures overflow { RowOverflow result (file_state self.old.file)
            (file_state self.old.file) }
        ensures same { self.new ≡ self.old }
        ensures kept { KeepsBasics (file_state self.old.file) (file_state self.new.file) }
    {
        self.price.first_wanted(&self.file, i, wanted, up, out)
    }

    /// Each 50th exchange makes the file anew first, and where numbers are long each 20th. After a Stop the basics are as before.
    fn exchange(&mut self, p: u32, q: u32) -> Result<(), Stop>
        requires leaves { IsBasic self.old.file.matrix self.old.file.basics p }
        requires enters { IsNonbasic self.old.file.matrix self.old.file.basics q }
        requires pivot { HasPivot self.old.file.matrix self.old.file.basics p q }
        ensures ok { OnOk result (self.new.file.basics ≡ exchanged self.old.file.basics p q) }
        ensures err { OnErr result (self.new.file.basics ≡ self.old.file.basics) }
        ensures turn { OnOk result (IsTurn self.old self.new) }
        ensures same_matrix { self.new.file.matrix ≡ self.old.file.matrix }
        ensures waypoints { LeavesWaypoints (file_state self.old.file) (file_state self.new.file) }
        ensures overflow { ExchangeOverflow result p q (file_state self.old.file)
            (file_state self.new.file) }
    {
        self.reinvert_if_due()?;
        self.exchange_in_file(p, q)
    }

    /// As `exchange`, and the direction isn't carried again.
    fn exchange_along(&mut self, p: u32, q: u32, direction: &SparseVector) -> Result<(), Stop>
        requires leaves { IsBasic self.old.file.matrix self.old.file.basics p }
        requires enters { IsNonbasic self.old.file.matrix self.old.file.basics q }
        requires direction { IsDirectionOf self.old.file.matrix self.old.file.basics q
            (value_at direction.now) }
        requires pivot { value_at direction.now p ≢ zero_ℚ }
        requires places { length direction.now ≡ size self.old.file.matrix }
        ensures ok { OnOk result (self.new.file.basics ≡ exchanged self.old.file.basics p q) }
        ensures err { OnErr result (self.new.file.basics ≡ self.old.file.basics) }
        ensures turn { OnOk result (IsTurn self.old self.new) }
        ensures same_matrix { self.new.file.matrix ≡ self.old.file.matrix }
        ensures waypoints { LeavesWaypoints (file_state self.old.file) (file_state self.new.file) }
        ensures overflow { ExchangeOverflow result p q (file_state self.old.file)
            (file_state self.new.file) }
    {
        self.reinvert_if_due()?;
        self.exchange_in_file_along(p, q, direction)?;
        Ok(())
    }

    fn way_basics(&self, way: u32, out: &mut [bool])
        requires is_way { way ≤ length (ways_of self.now.file) }
        requires places { length out.old ≡ size self.now.file.matrix }
        ensures { out.new ≡ waypoint self.now.file.basics (ways_of self.now.file) way }
    {
        self.file.way_basics(way, out);
    }
}

impl Engine for ProductForm {
    fn start(alloc: Global, lp: &Lp) -> Result<ProductForm, NoMemory> {
        ProductForm::new(alloc, lp)
    }
}
