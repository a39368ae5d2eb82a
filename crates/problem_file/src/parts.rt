// The rows, columns and sets of a problem. Rows and columns are numbered from 1.

ghost use Rattle.std.specs.Prelude.{◌≡◌, is_some};

use deck_fields::Decimal;
use name_table::Name;
use problem_definitions::{BoundKind, RowKind};
use std::marker::Model;

/// A row: its type and its name, and of a combination its parts, each a row before it and a multiplier.
#[derive(Debug, Drop)]
pub struct RowDecl {
    pub kind: RowKind,
    pub name: Name,
    pub parts: Option<Vec<DeckEntry>>,
}

impl Model for RowDecl {
    ghost use Rattle.std.specs.Prelude.{ℕ, option_map};
    ghost use Rattle.problem_definitions.specs.Problem.{Row};

    ghost Value = { Row ℕ };

    ghost view = { λ row. record {
      kind = row.kind;
      name = row.name;
      parts = option_map
          (λ parts. parts.items) row.parts;
    } };
}

impl RowDecl {
    /// Whether the row is a combination: a sum of multiples of rows before it.
    pub fn is_combination(&self) -> bool
        ensures { result ≡ is_some self.now.parts }
    {
        self.parts.is_some()
    }
}

/// A number on a row: an entry of a column, or of a set of right-hand sides or of ranges.
#[derive(Clone, Copy, Debug)]
pub struct DeckEntry {
    pub row: u32,
    pub value: Decimal,
}

impl Model for DeckEntry {
    ghost use Rattle.std.specs.Prelude.{ℕ};
    ghost use Rattle.problem_definitions.specs.Problem.{Entry};

    ghost Value = { Entry ℕ };

    ghost view = { λ entry. record { row = entry.row; value = entry.value } };

    ghost inverse = { λ entry. record { row = entry.row; value = entry.value } };
}

/// A name with its items, in deck order.
#[derive(Debug, Drop)]
pub struct Group<T> {
    pub name: Name,
    pub items: Vec<T>,
}

impl<T> Model for Group<T> {
    ghost use Rattle.problem_definitions.specs.Problem.{Group as Stated};

    ghost Value = { Stated T };

    ghost view = { λ group. record { name = group.name; items = group.items.items } };
}

/// A column with its entries.
pub type ColumnDecl = Group<DeckEntry>;

/// A set of right-hand sides or of ranges with its entries.
pub type ValueSet = Group<DeckEntry>;

/// A set of bounds with its items.
pub type BoundSet = Group<BoundItem>;

/// A bound on a column. The value is there exactly where the type takes one: for `Up`, `Lo` and `Fx`.
#[derive(Clone, Copy, Debug)]
pub struct BoundItem {
    pub kind: BoundKind,
    pub column: u32,
    pub value: Option<Decimal>,
}

impl Model for BoundItem {
    ghost use Rattle.std.specs.Prelude.{ℕ};
    ghost use Rattle.problem_definitions.specs.Problem.{Bound};

    ghost Value = { Bound ℕ };

    ghost view = { λ bound. record { kind = bound.kind; column = bound.column; value = bound.value } };

    ghost inverse = { λ bound. record { kind = bound.kind; column = bound.column; value = bound.value } };
}
