// What changes along a parametric run.
ghost use Rattle.std.specs.Prelude.{◌≡◌, IfOk, IfSome, option_map};
ghost use Rattle.selection_definitions.specs.Changes.{free_row_number, IsFreeIn, set_values as values_of_set};

use crate::chosen::{has_free_row, items_named, row_number};
use crate::parts::right_hand_sides;
use frac128::Frac;
use lp_model::NoMemory;
use name_table::Name;
use problem_file::Problem;
use std::alloc::Global;

/// The number of the N row of this name, if there is one. It has no limits in any linear program that is selected of the problem.
pub fn free_row(problem: &Problem, name: &Name) -> Option<u32>
    ensures number { result ≡ free_row_number problem.now name.now }
    ensures free { IfSome result (IsFreeIn problem.now) }
{
    let rows = problem.rows();
    if has_free_row(rows, name) {
        return row_number(rows, name);
    }
    None
}

/// The value of each row in the right-hand side set of this name, or 0 where it has none there; if there is such a set.
pub fn set_values(
    alloc: Global,
    problem: &Problem,
    name: &Name,
) -> Result<Option<Vec<Frac>>, NoMemory>
    ensures { IfOk result (λ values. option_map (λ values. values.items) values ≡
        values_of_set problem.now name.now) }
{
    let Some(items) = items_named(problem.rhs(), name) else {
        return Ok(None);
    };
    let values = right_hand_sides(alloc, problem.rows().len(), items)?;
    Ok(Some(values))
}
