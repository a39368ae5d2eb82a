// A problem as a deck states it.
ghost use Rattle.std.specs.Prelude.{◌≡◌, ◌≤◌, length};
ghost use Rattle.problem_definitions.specs.Problem.{entry_count};
ghost use Rattle.problem_definitions.specs.Valid.{IsProblem};
ghost use Rattle.problem_definitions.specs.declared.TheConstants.{MAX_ROWS, MAX_COLUMNS};

use crate::parts::{BoundSet, ColumnDecl, RowDecl, ValueSet};
use name_table::Name;
use std::marker::Model;

/// A linear programming problem as a deck states it: rows, columns, and sets of right-hand sides, of ranges and of bounds, all
/// in deck order. Every problem is valid: names are distinct, items stand on rows and columns that are there, and nothing is
/// said twice.
#[derive(Debug, Drop)]
pub struct Problem {
    name: Name,
    rows: Vec<RowDecl>,
    columns: Vec<ColumnDecl>,
    rhs: Vec<ValueSet>,
    ranges: Vec<ValueSet>,
    bounds: Vec<BoundSet>,
}

impl Model for Problem {
    ghost use Rattle.std.specs.Prelude.{ℕ};
    ghost use Rattle.problem_definitions.specs.Problem.{Problem as Stated};
    ghost use Rattle.problem_definitions.specs.Valid.{IsProblem};

    ghost Value = { Stated ℕ };

    ghost view = { λ p. record { name = p.name; rows = p.rows.items; columns = p.columns.items; rhs = p.rhs.items; ranges = p.ranges.items; bounds = p.bounds.items } };

    ghost invariant = { λ p. IsProblem
        (record { name = p.name; rows = p.rows.items; columns = p.columns.items; rhs = p.rhs.items; ranges = p.ranges.items; bounds = p.bounds.items }) };
}

impl Problem {
    /// The problem of these parts.
    pub fn new(
        name: Name,
        rows: Vec<RowDecl>,
        columns: Vec<ColumnDecl>,
        rhs: Vec<ValueSet>,
        ranges: Vec<ValueSet>,
        bounds: Vec<BoundSet>,
    ) -> Problem
        requires { IsProblem (record {
          name = name;
          rows = rows.items;
          columns = columns.items;
          rhs
              = rhs.items;
          ranges = ranges.items;
          bounds = bounds.items;
        }) }
        ensures { result ≡ record {
          name = name;
          rows = rows.items;
          columns = columns.items;
          rhs =
              rhs.items;
          ranges = ranges.items;
          bounds = bounds.items;
        } }
    {
        Problem {
            name,
            rows,
            columns,
            rhs,
            ranges,
            bounds,
        }
    }

    /// The problem's name.
    pub fn name(&self) -> Name
        ensures name { result ≡ self.now.name }
        ensures is_problem { IsProblem self.now }
    {
        self.name
    }

    /// The rows; the row with number i stands at i - 1.
    pub fn rows(&self) -> &[RowDecl]
        ensures rows { result.now ≡ self.now.rows }
        ensures is_problem { IsProblem self.now }
    {
        self.rows.as_slice()
    }

    /// The columns; the column with number j stands at j - 1.
    pub fn columns(&self) -> &[ColumnDecl]
        ensures columns { result.now ≡ self.now.columns }
        ensures is_problem { IsProblem self.now }
    {
        self.columns.as_slice()
    }

    /// The sets of right-hand sides.
    pub fn rhs(&self) -> &[ValueSet]
        ensures rhs { result.now ≡ self.now.rhs }
        ensures is_problem { IsProblem self.now }
    {
        self.rhs.as_slice()
    }

    /// The sets of ranges.
    pub fn ranges(&self) -> &[ValueSet]
        ensures ranges { result.now ≡ self.now.ranges }
        ensures is_problem { IsProblem self.now }
    {
        self.ranges.as_slice()
    }

    /// The sets of bounds.
    pub fn bounds(&self) -> &[BoundSet]
        ensures bounds { result.now ≡ self.now.bounds }
        ensures is_problem { IsProblem self.now }
    {
        self.bounds.as_slice()
    }

    /// How many rows there are: at most 1,000.
    pub fn row_count(&self) -> u32
        ensures count { result ≡ length self.now.rows }
        ensures few { result ≤ MAX_ROWS }
    {
        self.rows.len() as u32
    }

    /// How many columns there are: at most 5,000.
    pub fn column_count(&self) -> u32
        ensures count { result ≡ length self.now.columns }
        ensures few { result ≤ MAX_COLUMNS }
    {
        self.columns.len() as u32
    }
}
