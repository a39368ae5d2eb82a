//! The deck of a basis. Nothing here takes memory.

ghost use Rattle.std.specs.Prelude.{◌≡◌, ◌+◌, ◌-◌, ◌<◌, ◌≤◌, [], min, codes, length, IfOk, MatchOption, if◌then◌else◌};
ghost use Rattle.lp_definitions.specs.LinearProgram.{size, IsRow, IsVariable};
ghost use Rattle.lp_definitions.specs.Basis.{opening_at_of, IsBasis};
ghost use Rattle.deck_definitions.specs.Written.{card_text};
ghost use Rattle.job_devices.specs.Text.{Writes};
ghost use Rattle.bcd_out.specs.Lines.{line, max_counted};
ghost use Rattle.basis_deck_definitions.specs.Writing.{is_up, is_raised as raised_by, exchange_card, limit_card, basis_deck};
ghost use Rattle.basis_deck.specs.Punching.{rows_from, exchanges_from, limits_from, IsNextRow};

use basis_values::stands_basic;
use bcd_out::{WrittenCard, column_name, put_card, put_name, row_name};
use job_devices::{Sink, WriteStop, put_all};
use lp_model::{Basis, Lp, Status};
use problem_file::Problem;

// The cards NAME and ENDATA.
const ALWAYS: u32 = 2;

// The code of a card on which a row leaves for this limit.
fn exchange_code(to: Status) -> &'static [u8]
    ensures code { result.now ≡ (if is_up to then codes "XU" else codes "XL") }
    ensures short { length result.now ≤ 2 }
{
    match to {
        Status::Ul => b"XU",
        Status::Bs | Status::Ll | Status::Fr => b"XL",
    }
}

// Whether a column opens at its upper limit.
fn opens_up(lp: &Lp, k: u32) -> bool
    requires column { lp.now.rows < k }
    requires variable { IsVariable lp.now.matrix k }
    ensures { result ≡ is_up (opening_at_of lp.now k) }
{
    lp.lower_limit(k).is_none() && lp.upper_limit(k).is_some()
}

// Whether a column stands at its upper limit, and doesn't open there.
fn is_raised(lp: &Lp, basis: &Basis, k: u32) -> bool
    requires column { lp.now.rows < k }
    requires variable { IsVariable lp.now.matrix k }
    requires basis { length basis.now ≡ size lp.now.matrix }
    ensures { result ≡ raised_by lp.now basis.now k }
{
    basis.status(k) == Status::Ul && !opens_up(lp, k)
}

// The first nonbasic row after this one.
fn next_nonbasic_row(lp: &Lp, basis: &Basis, row: u32) -> Option<u32>
    requires row { row ≤ lp.now.rows }
    requires basis { length basis.now ≡ size lp.now.matrix }
    ensures { MatchOption result (rows_from lp.now basis.now row ≡ [])
        (IsNextRow lp.now basis.now row) }
{
    let _size = lp.number_of_variables();
    for i in row..lp.rows {
        if !stands_basic(basis, i + 1) {
            return Some(i + 1);
        }
    }
    None
}

// Writes the card of a basic column and a nonbasic row.
fn put_exchange<U: Sink>(
    problem: &Problem,
    lp: &Lp,
    basis: &Basis,
    column: u32,
    row: u32,
    sink: &mut U,
) -> Result<(), WriteStop>
    requires row { IsRow lp.now.matrix row }
    requires column { lp.now.rows < column }
    requires basis { length basis.now ≡ size lp.now.matrix }
    ensures { Writes (U.taken sink.old) (U.taken sink.new) result
        (line (exchange_card problem.now lp.now basis.now (column, row))) }
{
    let _size = lp.number_of_variables();
    let card = WrittenCard {
        kind: exchange_code(basis.status(row)),
        name1: column_name(problem.columns(), column - lp.rows),
        name2: row_name(problem.rows(), row),
        value: b"",
    };
    put_card(sink, card)
}

// Writes the cards of the basic columns, and answers how many there are.
fn put_exchanges<U: Sink>(
    problem: &Problem,
    lp: &Lp,
    basis: &Basis,
    sink: &mut U,
) -> Result<u32, WriteStop>
    requires { length basis.now ≡ size lp.now.matrix }
    ensures writes { Writes (U.taken sink.old) (U.taken sink.new) result
        (card_text (exchanges_from problem.now lp.now basis.now 0 0)) }
    ensures counted { IfOk result (λ count. count ≡ length (exchanges_from problem.now lp.now
        basis.now 0 0)) }
{
    let _size = lp.number_of_variables();
    let mut count = 0;
    let mut row = 0;
    for c in 0..lp.cols {
        let column = lp.rows + c + 1;
        if !stands_basic(basis, column) {
            continue;
        }
        let Some(next) = next_nonbasic_row(lp, basis, row) else {
            return Ok(count);
        };
        put_exchange(problem, lp, basis, column, next, sink)?;
        row = next;
        count += 1;
    }
    Ok(count)
}

// Writes the card of a column at its upper limit.
fn put_limit<U: Sink>(
    problem: &Problem,
    lp: &Lp,
    column: u32,
    sink: &mut U,
) -> Result<(), WriteStop>
    requires { lp.now.rows < column }
    ensures { Writes (U.taken sink.old) (U.taken sink.new) result
        (line (limit_card problem.now lp.now column)) }
{
    let card = WrittenCard {
        kind: b"UL",
        name1: column_name(problem.columns(), column - lp.rows),
        name2: b"",
        value: b"",
    };
    put_card(sink, card)
}

// Writes the cards of the columns that stand at their upper limits and don't open there, and answers how many there are.
fn put_limits<U: Sink>(
    problem: &Problem,
    lp: &Lp,
    basis: &Basis,
    sink: &mut U,
) -> Result<u32, WriteStop>
    requires { length basis.now ≡ size lp.now.matrix }
    ensures writes { Writes (U.taken sink.old) (U.taken sink.new) result
        (card_text (limits_from problem.now lp.now basis.now 0)) }
    ensures counted { IfOk result (λ count. count ≡ length (limits_from problem.now lp.now
        basis.now 0)) }
{
    let _size = lp.number_of_variables();
    let mut count = 0;
    for c in 0..lp.cols {
        let column = lp.rows + c + 1;
        if !is_raised(lp, basis, column) {
            continue;
        }
        put_limit(problem, lp, column, sink)?;
        count += 1;
    }
    Ok(count)
}

/// Writes the deck of the basis, and answers the number of its cards, which goes no further than 4,294,967,295. At a stop a prefix of
/// their text is written. It takes no memory.
pub fn punch_basis<U: Sink>(
    problem: &Problem,
    lp: &Lp,
    basis: &Basis,
    sink: &mut U,
) -> Result<u32, WriteStop>
    requires { IsBasis lp.now basis.now }
    ensures writes { Writes (U.taken sink.old) (U.taken sink.new) result
        (card_text (basis_deck problem.now lp.now basis.now)) }
    ensures counted { IfOk result (λ count. count ≡ min (length (basis_deck problem.now lp.now
        basis.now)) max_counted) }
{
    let name = problem.name();
    put_name(sink, name.bytes())?;
    let exchanges = put_exchanges(problem, lp, basis, sink)?;
    let limits = put_limits(problem, lp, basis, sink)?;
    put_all(sink, b"ENDATA\n")?;
    Ok(ALWAYS.saturating_add(exchanges).saturating_add(limits))
}
