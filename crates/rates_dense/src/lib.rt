//! The rates of a matrix as a table: a line for each basic variable, with a place for each variable.
#![tactic(auto)]

ghost use Rattle.std.specs.Prelude.{◌≡◌, ◌≢◌, ◌<◌, ◌≤◌, ◌^◌, length, take, All, Contains, IfOk, IfErr, IsOk, OnOk, OnErr};
ghost use Rattle.std.specs.List.{HoldsAt};
ghost use Rattle.exact_values.specs.Rational.{zero_ℚ};
ghost use Rattle.lp_definitions.specs.LinearProgram.{size, value_at, Vector};
ghost use Rattle.lp_definitions.specs.Basis.{IsBasic, IsNonbasic, IsDirectionOf, exchanged, row_basics};
ghost use Rattle.lp_definitions.specs.Waypoints.{KeepsWaypoints, waypoint};
ghost use Rattle.lp_model.specs.RatesCalls.{IsRowOf, HasPivot, ExchangeOverflow};
ghost use Rattle.rates_dense.specs.Lines.{AreQuotients, AreNumbers, HasPlaces, basics_of, HaveRatesAt, IsTakenOver, LineByLine, AreChanging, SameRates};
ghost use Rattle.rates_dense.specs.Lines.{IsReady, IsCommitted, IsExchanged};
ghost use Rattle.rates_dense.specs.Inverse.{table_state};
ghost use Rattle.rates_dense.specs.Placed.{IsPlaced};
ghost use Rattle.rates_dense.specs.Refusals.{SomeLineRefused, LinesRefused, IsOwnOverflow};

mod line;
mod opening;

use frac128::Frac;
use line::{Exchange, Line, fill_quotients};
use lp_model::{Engine, Entry, Evidence, Lp, NoMemory, Rates, Stop};
use opening::{opening_lines, opening_marks, opening_slots};
use std::alloc::Global;
use std::marker::Model;

/// A set of basics of one matrix, with all its rates. Only `new` takes memory: room for the table, and as much for the rates that
/// an exchange changes.
#[derive(Drop)]
pub struct Dense {
    rows: u32,
    cols: u32,
    columns: Vec<Vec<Entry>>,
    marks: Vec<bool>,
    slots: Vec<u32>,
    lines: Vec<Line>,
    quotients: Vec<Frac>,
    changed: Vec<u32>,
    changing: Vec<usize>,
}

impl Model for Dense {
    ghost use Rattle.rates_dense.specs.Inverse.{Inverse};

    ghost Value = { Inverse };

    ghost use Rattle.rates_dense.specs.Table.{inverse_of, IsTable};

    ghost view = { inverse_of };

    ghost invariant = { IsTable };
}

/// Lists the slots of the lines that the exchange changes, and says how many there are.
fn list_changing(lines: &[Line], exchange: &Exchange, changing: &mut [usize]) -> usize
    requires q_low { 1 ≤ exchange.now.q }
    requires q_high { All (λ line. exchange.now.q ≤ length line.rates.items) lines.now }
    requires room { length changing.old ≡ length lines.now }
    ensures within { result ≤ length lines.now }
    ensures listed { AreChanging exchange.now.p exchange.now.q lines.now
        (take result changing.new) }
{
    let mut count = 0;
    for (slot, line) in lines.iter().enumerate() {
        if !line.changes(exchange) {
            continue;
        }
        changing[count] = slot;
        count += 1;
    }
    count
}

/// Makes the lines that change ready for the exchange, at the variables of the list.
fn prepare_lines(
    lines: &mut [Line],
    changing: &[usize],
    exchange: &Exchange,
    quotients: &[Frac],
    changed: &[u32],
) -> Result<(), Evidence>
    requires q_low { 1 ≤ exchange.now.q }
    requires q_high { exchange.now.q ≤ length quotients.now }
    requires changing { AreChanging exchange.now.p exchange.now.q lines.old changing.now }
    requires variables { AreNumbers (length quotients.now) changed.now }
    requires listed { length changed.now ≤ length quotients.now }
    requires places { All (HasPlaces (length quotients.now)) lines.old }
    ensures same { LineByLine SameRates lines.old lines.new }
    ensures ready { OnOk result
        (All (IsReady exchange.now.p exchange.now.q quotients.now changed.now) lines.new) }
    ensures refused { IfErr result
        (SomeLineRefused exchange.now.p exchange.now.q quotients.now lines.old) }
{
    for slot in changing {
        lines[*slot].prepare(exchange, quotients, changed)?;
    }
    Ok(())
}

/// Takes what was made ready.
fn commit_lines(
    lines: &mut [Line],
    changing: &[usize],
    size: usize,
    exchange: &Exchange,
    changed: &[u32],
)
    requires q_low { 1 ≤ exchange.now.q }
    requires q_high { exchange.now.q ≤ size }
    requires changing { AreChanging exchange.now.p exchange.now.q lines.old changing.now }
    requires variables { AreNumbers size changed.now }
    requires listed { length changed.now ≤ size }
    requires places { All (HasPlaces size) lines.old }
    ensures { LineByLine
        (IsCommitted exchange.now.p exchange.now.q changed.now) lines.old lines.new }
{
    for slot in changing {
        lines[*slot].commit(exchange, changed);
    }
}

/// The line of the basic `k`.
fn line_of<'a>(slots: &[u32], lines: &'a [Line], k: u32) -> &'a Line
    requires low { 1 ≤ k }
    requires high { k ≤ length slots.now }
    requires placed { IsPlaced slots.now lines.now k }
    ensures own { result.now.basic ≡ k }
    ensures one { Contains lines.now result.now }
{
    &lines[slots[k as usize - 1] as usize]
}

/// Writes the rate of each line at `j` to the place of its basic, where there were zeros.
fn take_rates(lines: &[Line], j: u32, out: &mut [Frac])
    requires low { 1 ≤ j }
    requires high { j ≤ length out.old }
    requires basics { AreNumbers (length out.old) (basics_of lines.now) }
    requires places { All (HasPlaces (length out.old)) lines.now }
    requires zeros { All (λ v. v ≡ zero_ℚ) out.old }
    ensures { (f : Vector) → HaveRatesAt j lines.now f → IsTakenOver (basics_of lines.now) out.old
        out.new f }
{
    for line in lines {
        let rate = line.rates[j as usize - 1];
        if rate.is_zero() {
            continue;
        }
        out[line.basic as usize - 1] = rate;
    }
}

/// Makes the lines after the exchange of `p`, whose line has this slot, for `q`. `quotients` is room for the leaver's rates over the
/// pivot, `changed` for the numbers of those that aren't 0, and `changing` for the slots of the lines that change.
fn exchange_lines(
    lines: &mut [Line],
    slot: usize,
    exchange: &Exchange,
    quotients: &mut [Frac],
    changed: &mut [u32],
    changing: &mut [usize],
) -> Result<(), Evidence>
    requires q_low { 1 ≤ exchange.now.q }
    requires q_high { exchange.now.q ≤ length quotients.old }
    requires small { length quotients.old < 2 ^ 32 }
    requires room { length changed.old ≡ length quotients.old }
    requires slots { length changing.old ≡ length lines.old }
    requires places { All (HasPlaces (length quotients.old)) lines.old }
    requires slot { slot < length lines.old }
    requires pivot { HoldsAt
        (λ leaver. value_at leaver.rates.items exchange.now.q ≢ zero_ℚ) lines.old slot }
    ensures quotients { OnOk result
        (HoldsAt (λ leaver. AreQuotients exchange.now.p exchange.now.q leaver.rates.items quotients.new) lines.old slot) }
    ensures lines { OnOk result
        (LineByLine (IsExchanged exchange.now.p exchange.now.q quotients.new) lines.old lines.new) }
    ensures err { OnErr result (LineByLine SameRates lines.old lines.new) }
    ensures refused { IfErr result (LinesRefused exchange.now.p exchange.now.q lines.old slot) }
{
    let count = fill_quotients(&lines[slot].rates, exchange, quotients, changed)?;
    let changed = &changed[..count];
    let count = list_changing(lines, exchange, changing);
    let changing = &changing[..count];
    prepare_lines(lines, changing, exchange, quotients, changed)?;
    commit_lines(lines, changing, quotients.len(), exchange, changed);
    Ok(())
}

impl Dense {
    /// All rows are basic.
    pub fn new(alloc: Global, lp: &Lp) -> Result<Dense, NoMemory>
        ensures matrix { IfOk result (λ table. table.matrix ≡ lp.now.matrix) }
        ensures basics { IfOk result (λ table. table.basics ≡ row_basics lp.now.matrix) }
    {
        let size = lp.number_of_variables();
        Ok(Dense {
            rows: lp.rows,
            cols: lp.cols,
            columns: lp.copied_columns(alloc)?,
            marks: opening_marks(alloc, lp)?,
            slots: opening_slots(alloc, size)?,
            lines: opening_lines(alloc, lp)?,
            quotients: vec![in alloc; Frac::whole(0); size as usize]?,
            changed: vec![in alloc; 0; size as usize]?,
            changing: vec![in alloc; 0; lp.rows as usize]?,
        })
    }
}

impl Rates for Dense {
    ghost state = { table_state };

    /// Always answers Ok, and takes no memory.
    fn column(&mut self, j: u32, out: &mut [Frac]) -> Result<(), Stop>
        requires nonbasic { IsNonbasic self.old.matrix self.old.basics j }
        requires places { length out.old ≡ size self.old.matrix }
        ensures direction { IsDirectionOf self.old.matrix self.old.basics j (value_at out.new) }
        ensures always { IsOk result }
        ensures same { self.new ≡ self.old }
    {
        out.fill(Frac::whole(0));
        take_rates(&self.lines, j, out);
        out[j as usize - 1] = Frac::whole(1);
        Ok(())
    }

    /// Always answers Ok, and takes no memory.
    fn row(&mut self, i: u32, out: &mut [Frac]) -> Result<(), Stop>
        requires basic { IsBasic self.old.matrix self.old.basics i }
        requires places { length out.old ≡ size self.old.matrix }
        ensures rates { IsRowOf self.old.matrix self.old.basics i (value_at out.new) }
        ensures always { IsOk result }
        ensures same { self.new ≡ self.old }
    {
        out.copy_from_slice(&line_of(&self.slots, &self.lines, i).rates);
        Ok(())
    }

    /// Takes no memory. After a Stop the table is as before.
    fn exchange(&mut self, p: u32, q: u32) -> Result<(), Stop>
        requires leaves { IsBasic self.old.matrix self.old.basics p }
        requires enters { IsNonbasic self.old.matrix self.old.basics q }
        requires pivot { HasPivot self.old.matrix self.old.basics p q }
        ensures ok { OnOk result (self.new ≡ record self.old
            { basics = exchanged self.old.basics p q }) }
        ensures err { OnErr result (self.new ≡ self.old) }
        ensures overflow { ExchangeOverflow result p q (table_state self.old)
            (table_state self.new) }

        // an overflow by a formula of this exchange, at the present basics; memory never runs out
        ensures own { IfErr result (IsOwnOverflow p q) }
    {
        let slot = self.slots[p as usize - 1];
        let lines = &mut self.lines;
        let exchange = Exchange { p, q };
        if let Err(evidence) = exchange_lines(
            lines,
            slot as usize,
            &exchange,
            &mut self.quotients,
            &mut self.changed,
            &mut self.changing,
        ) {
            return Err(Stop::Overflow(evidence));
        }
        self.slots[q as usize - 1] = slot;
        self.marks[q as usize - 1] = true;
        self.marks[p as usize - 1] = false;
        Ok(())
    }

    fn way_basics(&self, _way: u32, out: &mut [bool])
        requires { length out.old ≡ size self.now.matrix }
        ensures { out.new ≡ self.now.basics }
    {
        out.copy_from_slice(&self.marks);
    }
}

impl Engine for Dense {
    fn start(alloc: Global, lp: &Lp) -> Result<Dense, NoMemory> {
        Dense::new(alloc, lp)
    }
}
