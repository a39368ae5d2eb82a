// What is chosen of a problem.

use control_verbs::SetupOptions;
use name_table::Name;
use std::marker::Model;

/// What is chosen of a problem. Where no objective is named it is the first N row, and where no right-hand side set is named it
/// is the first.
#[derive(Clone, Copy, Debug)]
pub struct Choice {
    pub objective: Option<Name>,
    pub rhs: Option<Name>,
    pub options: SetupOptions,
}

impl Model for Choice {
    ghost use Rattle.selection_definitions.specs.Choice.{Choice as Chosen};

    ghost Value = { Chosen };

    ghost view = { λ choice. record { objective = choice.objective; rhs = choice.rhs; options = choice.options } };

    ghost inverse = { λ choice. record { objective = choice.objective; rhs = choice.rhs; options = choice.options } };
}
