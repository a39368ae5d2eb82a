// The objective row and the sets that apply.
ghost use Rattle.std.specs.Prelude.{◌≡◌, ◌<◌, ◌≤◌, ◌+◌, length, position, true, Some, false, option_map, find};
ghost use Rattle.std.specs.List.{IsDistinct};
ghost use Rattle.std.specs.Option.{IfSome, IfNone, ForSome, option_copied};
ghost use Rattle.problem_definitions.specs.Names.{same};
ghost use Rattle.problem_definitions.specs.Kinds.{is_free_kind};
ghost use Rattle.problem_definitions.specs.Problem.{has_free_row as has_free, has_group, group_names};
ghost use Rattle.problem_definitions.specs.Groups.{items_of};
ghost use Rattle.selection_definitions.specs.Choice.{objective_of, is_not_free as has_limits, rhs_items as items_of_rhs, set_items, misses_set};
ghost use Rattle.problem_definitions.specs.declared.TheConstants.{MAX_ROWS};

use name_table::Name;
use problem_file::{DeckEntry, Group, RowDecl, RowKind, ValueSet};

// ---- the objective row

/// Whether rows of this type have no limits.
fn is_free(kind: RowKind) -> bool
    ensures { result ≡ is_free_kind kind }
{
    match kind {
        RowKind::N => true,
        RowKind::G | RowKind::L | RowKind::E => false,
    }
}

/// Where the row of this name stands.
fn named_row(rows: &[RowDecl], name: &Name) -> Option<usize>
    ensures place { result ≡ position (λ row. same name.now row.name) rows.now }
    ensures within { IfSome result (λ place. place < length rows.now) }
{
    rows.iter().position(|row| *name == row.name)
}

/// Where the first N row stands.
fn first_free_row(rows: &[RowDecl]) -> Option<usize>
    ensures place { result ≡ position (λ row. is_free_kind row.kind) rows.now }
    ensures within { IfSome result (λ place. place < length rows.now) }
{
    rows.iter().position(|row| is_free(row.kind))
}

/// The number of the row at a place.
fn number_at(place: Option<usize>) -> Option<u32>
    requires { ForSome place (λ place. place < MAX_ROWS) }
    ensures { result ≡ option_map (λ place. place + 1) place }
{
    match place {
        Some(place) => Some(place as u32 + 1),
        None => None,
    }
}

/// The number of the row of this name.
pub fn row_number(rows: &[RowDecl], name: &Name) -> Option<u32>
    requires few { length rows.now ≤ MAX_ROWS }
    ensures number { result ≡ objective_of rows.now (Some name.now) }
{
    number_at(named_row(rows, name))
}

/// The number of the objective row: of the chosen one, or else of the first N row.
pub fn objective_row(rows: &[RowDecl], chosen: Option<Name>) -> Option<u32>
    requires few { length rows.now ≤ MAX_ROWS }
    ensures number { result ≡ objective_of rows.now chosen }
{
    let Some(name) = chosen else {
        return number_at(first_free_row(rows));
    };
    row_number(rows, &name)
}

/// Whether there is an N row of this name.
pub fn has_free_row(rows: &[RowDecl], name: &Name) -> bool
    ensures { result ≡ has_free rows.now name.now }
{
    rows.iter()
        .any(|row| *name == row.name && is_free(row.kind))
}

/// Whether a row is chosen that isn't an N row.
pub fn is_not_free(rows: &[RowDecl], chosen: Option<Name>) -> bool
    ensures { result ≡ has_limits rows.now chosen }
{
    match chosen {
        Some(name) => !has_free_row(rows, &name),
        None => false,
    }
}

// ---- the sets

/// The set with this name.
fn set_named<'a, T>(sets: &'a [Group<T>], name: &Name) -> Option<&'a Group<T>>
    ensures { option_copied result ≡ find (λ set. same name.now set.name) sets.now }
{
    sets.iter().find(|set| *name == set.name)
}

/// The items of the set with this name.
pub fn items_named<'a, T>(sets: &'a [Group<T>], name: &Name) -> Option<&'a [T]>
    requires { IsDistinct same (group_names sets.now) }
    ensures missing { IfNone result (has_group sets.now name.now ≡ false) }
    ensures found { IfSome result (λ items. (has_group sets.now name.now ≡ true) ×
        (items.now ≡ items_of name.now sets.now)) }
{
    let set = set_named(sets, name)?;
    Some(&set.items)
}

/// The items of the first set of right-hand sides, or none.
fn first_rhs(sets: &[ValueSet]) -> &[DeckEntry]
    ensures { result.now ≡ items_of_rhs sets.now None }
{
    match sets {
        [set, ..] => &set.items,
        [] => &[],
    }
}

/// The items of the right-hand side set that applies: of the chosen one, or else of the first.
pub fn rhs_items<'a>(sets: &'a [ValueSet], chosen: Option<Name>) -> Option<&'a [DeckEntry]>
    requires { IsDistinct same (group_names sets.now) }
    ensures missing { IfNone result (misses_set sets.now chosen ≡ true) }
    ensures found { IfSome result (λ items. (misses_set sets.now chosen ≡ false) ×
        (items.now ≡ items_of_rhs sets.now chosen)) }
{
    let Some(name) = chosen else {
        return Some(first_rhs(sets));
    };
    items_named(sets, &name)
}

/// The items of the set that is chosen, or none where none is.
pub fn chosen_items<'a, T>(sets: &'a [Group<T>], chosen: Option<Name>) -> Option<&'a [T]>
    requires { IsDistinct same (group_names sets.now) }
    ensures missing { IfNone result (misses_set sets.now chosen ≡ true) }
    ensures found { IfSome result (λ items. (misses_set sets.now chosen ≡ false) ×
        (items.now ≡ set_items sets.now chosen)) }
{
    match chosen {
        Some(name) => items_named(sets, &name),
        None => Some(&[]),
    }
}
