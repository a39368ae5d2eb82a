// Lists of things with different names, in which a name is looked up by its hash.
ghost use Rattle.std.specs.Prelude.{◌≡◌, ◌++◌, ◌∷◌, [], true, false, not, insert, is_some, map, IfOk, OnOk, OnErr};
ghost use Rattle.std.specs.List.{IsDistinct};
ghost use Rattle.std.specs.Map.{keys_of, lookup};
ghost use Rattle.problem_definitions.specs.Names.{Name as Text, same};
ghost use Rattle.named_problem.specs.Made.{MakesEach};

use indexmap::IndexMap;
use indexmap::map::Entry;
use name_table::Name;
use problem_file::NoMemory;
use std::alloc::{AllocError, Global};

// Puts a value under a name that has none at this place, or at the end where there are fewer.
pub fn insert_new<V: Drop>(
    values: &mut IndexMap<Name, V>,
    place: usize,
    name: Name,
    value: V,
) -> Result<(), AllocError>
    requires { is_some (lookup (same name) values.old.entries) ≡ false }
    ensures placed { OnOk result (values.new.entries ≡ insert values.old.entries place
        (name, value)) }
    ensures refused { OnErr result (values.new.entries ≡ values.old.entries) }
    ensures distinct { IsDistinct same (keys_of values.new.entries) }
{
    let last = values.len();
    values.insert(name, value)?;
    values.move_index(last, place.min(last));
    Ok(())
}

// Puts a value at the end under a name that has none, and tells whether it had none. A value that is there stays.
pub fn add_new<V: Drop>(
    values: &mut IndexMap<Name, V>,
    name: Name,
    value: V,
) -> Result<bool, AllocError>
    ensures is_new { IfOk result (λ is_new. is_new ≡ not (is_some
        (lookup (same name) values.old.entries))) }
    ensures added { IfOk result (λ is_new. is_new ≡ true → values.new.entries ≡ values.old.entries
        ++ (name, value) ∷ []) }
    ensures distinct { IsDistinct same (keys_of values.new.entries) }
{
    match values.entry(name)? {
        Entry::Occupied(_) => Ok(false),
        Entry::Vacant(place) => {
            place.insert(value);
            Ok(true)
        }
    }
}

// What a function makes of each name and its value, in order.
pub fn made_of_each<V, T: Drop, F: Fn(&Name, &V) -> Result<T, NoMemory>>(
    alloc: Global,
    values: &IndexMap<Name, V>,
    make: F,
) -> Result<Vec<T>, NoMemory>
    requires { F.IsAlwaysCallable make }
    ensures { (made : Text × V → T) → MakesEach (F.post make) made →
        IfOk result (λ list. list.items ≡ map made values.now.entries) }
{
    let mut list = Vec::new(alloc);
    for (name, value) in values {
        let item = make(name, value)?;
        list.push(item).map_err(|_| NoMemory)?;
    }
    Ok(list)
}
