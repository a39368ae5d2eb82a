// An engine that runs out of memory whenever it is asked for something.
ghost use Rattle.rates_dense.specs.Inverse.{table_state};

use frac128::Frac;
use lp_model::{Engine, Lp, NoMemory, Rates, Stop};
use rates_dense::Dense;
use std::alloc::Global;

/// The dense table, whose calls all run out of memory once it is there.
#[derive(Drop)]
pub struct Starved {
    table: Dense,
}

impl Rates for Starved {
    ghost state = { λ engine. table_state engine.table };

    fn column(&mut self, _j: u32, _out: &mut [Frac]) -> Result<(), Stop> {
        Err(Stop::NoMemory)
    }

    fn row(&mut self, _i: u32, _out: &mut [Frac]) -> Result<(), Stop> {
        Err(Stop::NoMemory)
    }

    fn exchange(&mut self, _p: u32, _q: u32) -> Result<(), Stop> {
        Err(Stop::NoMemory)
    }

    fn way_basics(&self, way: u32, out: &mut [bool]) {
        self.table.way_basics(way, out);
    }
}

impl Engine for Starved {
    fn start(alloc: Global, lp: &Lp) -> Result<Starved, NoMemory> {
        Ok(Starved {
            table: Dense::start(alloc, lp)?,
        })
    }
}
