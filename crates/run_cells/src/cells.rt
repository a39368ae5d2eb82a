// The cells of a run and its demands.
ghost use Rattle.std.specs.Prelude.{◌≡◌, ◌≤◌, IfSome};
ghost use Rattle.control_definitions.specs.Cells.{default_cells, move_name, move_number, move_limit, steps_allowed, set_demand, name_in, demand_in};

use control_definitions::{Demand, MAX_STEPS, NameCell, NumberCell};
use frac128::Frac;
use name_table::Name;
use std::marker::Model;

/// What was moved to each cell last, and the position that each demand was set to last.
#[derive(Clone, Copy, Debug)]
pub struct Cells {
    xdata: Option<Name>,
    xpbname: Option<Name>,
    xoldname: Option<Name>,
    xobj: Option<Name>,
    xrhs: Option<Name>,
    xchrow: Option<Name>,
    xchcol: Option<Name>,
    xparam: Frac,
    xparmax: Option<Frac>,
    xiterlim: Option<u32>,
    xdonfs: Option<u32>,
    xdounb: Option<u32>,
}

impl Model for Cells {
    ghost use Rattle.std.specs.Prelude.{◌≤◌};
    ghost use Rattle.std.specs.Option.{ForSome};
    ghost use Rattle.control_definitions.specs.declared.TheConstants.{MAX_STEPS};
    ghost use Rattle.control_definitions.specs.Cells.{Cells as Values};

    ghost Value = { Values };

    ghost view = { λ c. record {
      xdata = c.xdata;
      xpbname = c.xpbname;
      xoldname = c.xoldname;
      xobj = c.xobj;
      xrhs = c.xrhs;
      xchrow = c.xchrow;
      xchcol = c.xchcol;
      xparam = c.xparam;
      xparmax = c.xparmax;
      xiterlim = c.xiterlim;
      xdonfs = c.xdonfs;
      xdounb = c.xdounb;
    } };

    ghost invariant = { λ c. ForSome c.xiterlim (λ steps. steps ≤ MAX_STEPS) };

    ghost inverse = { λ v. record {
      xdata = v.xdata;
      xpbname = v.xpbname;
      xoldname = v.xoldname;
      xobj = v.xobj;
      xrhs = v.xrhs;
      xchrow = v.xchrow;
      xchcol = v.xchcol;
      xparam = v.xparam;
      xparmax = v.xparmax;
      xiterlim = v.xiterlim;
      xdonfs = v.xdonfs;
      xdounb = v.xdounb;
    } };
}

impl Cells {
    /// The cells and demands at the start of a run, and after INITIALZ.
    #[tactic(auto, using(exact_values::proofs::RingLaws::over_one))]
    pub fn new() -> Cells
        ensures { result ≡ default_cells }
    {
        Cells {
            xdata: None,
            xpbname: None,
            xoldname: None,
            xobj: None,
            xrhs: None,
            xchrow: None,
            xchcol: None,
            xparam: Frac::whole(0),
            xparmax: None,
            xiterlim: Some(10_000),
            xdonfs: None,
            xdounb: None,
        }
    }

    /// Moves a name to a cell.
    pub fn move_name(&mut self, cell: NameCell, name: Name)
        ensures { self.new ≡ move_name cell name self.old }
    {
        let moved = Some(name);
        match cell {
            NameCell::Xdata => self.xdata = moved,
            NameCell::Xpbname => self.xpbname = moved,
            NameCell::Xobj => self.xobj = moved,
            NameCell::Xrhs => self.xrhs = moved,
            NameCell::Xoldname => self.xoldname = moved,
            NameCell::Xchrow => self.xchrow = moved,
            NameCell::Xchcol => self.xchcol = moved,
        }
    }

    /// Moves a number to a cell.
    pub fn move_number(&mut self, cell: NumberCell, value: Frac)
        ensures { self.new ≡ move_number cell value self.old }
    {
        match cell {
            NumberCell::Xparam => self.xparam = value,
            NumberCell::Xparmax => self.xparmax = Some(value),
        }
    }

    /// Moves the number of steps that one verb may take, at most 1,000,000, or that there is no limit.
    pub fn move_limit(&mut self, limit: Option<u32>)
        requires { IfSome limit (λ steps. steps ≤ MAX_STEPS) }
        ensures { self.new ≡ move_limit limit self.old }
    {
        self.xiterlim = limit;
    }

    /// Sets a demand to a position.
    pub fn set_demand(&mut self, demand: Demand, position: u32)
        ensures { self.new ≡ set_demand demand position self.old }
    {
        match demand {
            Demand::Xdonfs => self.xdonfs = Some(position),
            Demand::Xdounb => self.xdounb = Some(position),
        }
    }

    /// The name that was moved to a cell last.
    pub fn name(&self, cell: NameCell) -> Option<Name>
        ensures { result ≡ name_in cell self.now }
    {
        match cell {
            NameCell::Xdata => self.xdata,
            NameCell::Xpbname => self.xpbname,
            NameCell::Xobj => self.xobj,
            NameCell::Xrhs => self.xrhs,
            NameCell::Xoldname => self.xoldname,
            NameCell::Xchrow => self.xchrow,
            NameCell::Xchcol => self.xchcol,
        }
    }

    /// The first value of the parameter.
    pub fn param(&self) -> Frac
        ensures { result ≡ self.now.xparam }
    {
        self.xparam
    }

    /// The last value of the parameter, if it was moved.
    pub fn parmax(&self) -> Option<Frac>
        ensures { result ≡ self.now.xparmax }
    {
        self.xparmax
    }

    /// The number of steps that one verb may take, or none where there is no limit.
    pub fn limit(&self) -> Option<u32>
        ensures limit { result ≡ self.now.xiterlim }
        ensures at_most { IfSome result (λ steps. steps ≤ MAX_STEPS) }
    {
        self.xiterlim
    }

    /// The number of steps that a verb may take which always has a limit: 1,000,000 where there is none.
    pub fn steps_allowed(&self) -> u32
        ensures steps { result ≡ steps_allowed self.now }
        ensures at_most { result ≤ MAX_STEPS }
    {
        self.xiterlim.unwrap_or(MAX_STEPS)
    }

    /// The position that a demand was set to last.
    pub fn demand(&self, demand: Demand) -> Option<u32>
        ensures { result ≡ demand_in demand self.now }
    {
        match demand {
            Demand::Xdonfs => self.xdonfs,
            Demand::Xdounb => self.xdounb,
        }
    }
}
