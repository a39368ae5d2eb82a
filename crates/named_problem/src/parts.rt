// The parts of a problem by names.

use crate::bound_sets::BoundSets;
use crate::groups::Groups;
use crate::rows::Rows;
use deck_fields::Decimal;
use name_table::Name;
use problem_definitions::BoundKind;
use std::marker::Model;

/// A bound on the column of this name.
#[derive(Clone, Copy, Debug)]
pub struct NamedBound {
    pub kind: BoundKind,
    pub column: Name,
    pub value: Option<Decimal>,
}

impl Model for NamedBound {
    ghost use Rattle.problem_definitions.specs.Names.{Name as Text};
    ghost use Rattle.problem_definitions.specs.Problem.{Bound};

    ghost Value = { Bound Text };

    ghost view = { λ bound. record { kind = bound.kind; column = bound.column; value = bound.value } };

    ghost inverse = { λ bound. record { kind = bound.kind; column = bound.column; value = bound.value } };
}

/// A problem by names.
#[derive(Drop)]
pub struct NamedProblem {
    pub name: Name,
    pub rows: Rows,
    pub columns: Groups,
    pub rhs: Groups,
    pub ranges: Groups,
    pub bounds: BoundSets,
}

impl Model for NamedProblem {
    ghost use Rattle.problem_definitions.specs.Names.{Name as Text};
    ghost use Rattle.problem_definitions.specs.Problem.{Problem};

    ghost Value = { Problem Text };

    ghost view = { λ p. record { name = p.name; rows = p.rows; columns = p.columns; rhs = p.rhs; ranges = p.ranges; bounds = p.bounds } };
}
