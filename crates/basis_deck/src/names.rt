// The names of the rows and of the columns of a problem, with their numbers.
ghost use Rattle.std.specs.Prelude.{◌≡◌, ◌≤◌, ◌++◌, ◌∷◌, [], None, length, map, IfOk, OnOk};
ghost use Rattle.std.specs.List.{IsDistinct};
ghost use Rattle.problem_definitions.specs.Names.{same};
ghost use Rattle.name_table.specs.Numbers.{number_of};
ghost use Rattle.problem_definitions.specs.declared.TheConstants.{MAX_ROWS, MAX_COLUMNS};

use lp_model::NoMemory;
use name_table::{AddStop, Name, NameTable};
use problem_file::{ColumnDecl, RowDecl};
use std::alloc::Global;

// Puts a name at the end that isn't there.
fn add_new(names: &mut NameTable, name: Name) -> Result<(), NoMemory>
    requires room { length names.old ≤ MAX_COLUMNS }
    requires is_new { number_of name names.old ≡ None }
    ensures { OnOk result (names.new ≡ names.old ++ name ∷ []) }
{
    match names.add(name) {
        Ok(_) => Ok(()),
        Err(AddStop::NoMemory) => Err(NoMemory),
        Err(AddStop::Taken(_)) => unreachable!(),
    }
}

/// The names of these rows.
pub fn names_of_rows(alloc: Global, rows: &[RowDecl]) -> Result<NameTable, NoMemory>
    requires few { length rows.now ≤ MAX_ROWS }
    requires distinct { IsDistinct same (map (λ row. row.name) rows.now) }
    ensures { IfOk result (λ names. names ≡ map (λ row. row.name) rows.now) }
{
    let mut names = NameTable::new(alloc);
    for row in rows {
        add_new(&mut names, row.name)?;
    }
    Ok(names)
}

/// The names of these columns.
pub fn names_of_columns(alloc: Global, columns: &[ColumnDecl]) -> Result<NameTable, NoMemory>
    requires few { length columns.now ≤ MAX_COLUMNS }
    requires distinct { IsDistinct same (map (λ column. column.name) columns.now) }
    ensures { IfOk result (λ names. names ≡ map (λ column. column.name) columns.now) }
{
    let mut names = NameTable::new(alloc);
    for column in columns {
        add_new(&mut names, column.name)?;
    }
    Ok(names)
}
