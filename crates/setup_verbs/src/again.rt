// What the present cells select of a setup's problem.
ghost use Rattle.std.specs.Prelude.{◌≡◌, true, Ok, OnOk, IfErr};
ghost use Rattle.selection_definitions.specs.Selection.{selected};
ghost use Rattle.run_definitions.specs.State.{choice_of};
ghost use Rattle.run_machine.specs.Choosing.{IsUnselected};
ghost use Rattle.setup_verbs.specs.Kept.{chosen};

use crate::kept::Setup;
use lp_model::Engine;
use lp_setup::Choice;
use name_table::Name;
use problem_file::Problem;
use run_cells::Cells;
use run_machine::{Refusal, present_choice, select_present};
use std::alloc::Global;

// Whether two names that may be missing are the same.
fn is_same(one: Option<Name>, other: Option<Name>) -> bool
    ensures { result ≡ true → one ≡ other }
{
    match (one, other) {
        (Some(one), Some(other)) => one == other,
        (None, None) => true,
        _ => false,
    }
}

// Whether a setup's linear program was selected by this choice of a setup with the same options.
fn is_chosen<E: Engine>(setup: &Setup<E>, choice: &Choice) -> bool
    requires { choice.now.options ≡ setup.now.options }
    ensures { result ≡ true → chosen setup.now ≡ choice.now }
{
    is_same(setup.objective, choice.objective) && is_same(setup.rhs, choice.rhs)
}

/// Selects again of a setup's problem by the cells as they stand. Where they say what they said when its linear program was selected, that
/// stays, and nothing is made. Where nothing is selected, the setup is as it was.
pub fn select_again<E: Engine>(
    alloc: Global,
    problem: &Problem,
    cells: &Cells,
    setup: &mut Setup<E>,
) -> Result<(), Refusal>
    requires { selected problem.now (chosen setup.old) ≡ Ok setup.old.lp }
    ensures selected { OnOk result
        (selected problem.now (choice_of cells.now setup.old.options) ≡ Ok setup.new.lp) }
    ensures chosen { OnOk result (chosen setup.new ≡ choice_of cells.now setup.old.options) }
    ensures others { setup.new ≡
        record setup.old { objective = setup.new.objective; rhs = setup.new.rhs; lp = setup.new.lp } }
    ensures refused { IfErr result
        (IsUnselected problem.now (choice_of cells.now setup.old.options)) }
    ensures unchanged { IfErr result (λ refusal. setup.new ≡ setup.old) }
{
    let choice = present_choice(cells, setup.options);
    if is_chosen(setup, &choice) {
        return Ok(());
    }
    let lp = select_present(alloc, problem, cells, setup.options)?;
    setup.objective = choice.objective;
    setup.rhs = choice.rhs;
    setup.lp = lp;
    Ok(())
}
