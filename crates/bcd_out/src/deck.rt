// The whole deck.
ghost use Rattle.std.specs.Prelude.{◌≡◌, ℕ, min, length, IfOk};
ghost use Rattle.problem_definitions.specs.Numbering.{by_names};
ghost use Rattle.deck_definitions.specs.Written.{written, card_text};
ghost use Rattle.job_devices.specs.Text.{Writes};
ghost use Rattle.bcd_out.specs.Lines.{max_counted};

use crate::card::put_name;
use crate::count::card_count;
use crate::sections::{put_bound_section, put_columns, put_rows, put_value_section};
use job_devices::{Sink, WriteStop, put_all};
use problem_file::Problem;

fn put_deck<P: Sink>(problem: &Problem, punch: &mut P) -> Result<(), WriteStop>
    ensures { Writes (P.taken punch.old) (P.taken punch.new) result
        (card_text (written (by_names problem.now))) }
{
    let name = problem.name();
    let rows = problem.rows();
    let columns = problem.columns();
    put_name(punch, name.bytes())?;
    put_rows(punch, rows)?;
    put_columns(punch, rows, columns)?;
    put_value_section(punch, b"RHS", rows, problem.rhs())?;
    put_value_section(punch, b"RANGES", rows, problem.ranges())?;
    put_bound_section(punch, columns, problem.bounds())?;
    put_all(punch, b"ENDATA\n")
}

/// Writes the cards of a problem's deck, and says how many there are: at most 4,294,967,295. At a stop a prefix of their
/// text is written. It takes no memory of its own.
pub fn deck_of<P: Sink>(problem: &Problem, punch: &mut P) -> Result<u32, WriteStop>
    ensures text { Writes (P.taken punch.old) (P.taken punch.new) result
        (card_text (written (by_names problem.now))) }
    ensures count { IfOk result (λ count. count ≡ min (length (written (by_names problem.now)))
        max_counted) }
{
    put_deck(problem, punch)?;
    Ok(card_count(problem))
}
