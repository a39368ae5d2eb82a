// The numbers of names.
ghost use Rattle.std.specs.Prelude.{◌≡◌, ◌≤◌, ◌<◌, ◌+◌, true, length};
ghost use Rattle.std.specs.Map.{keys_of};
ghost use Rattle.problem_definitions.specs.Names.{number_in};

use indexmap::IndexMap;
use name_table::Name;

/// The number of a name among these, from 1, or 0 where it isn't there. It is looked up only where it doesn't stand at this place,
/// from 0.
pub fn number_from<V>(names: &IndexMap<Name, V>, place: usize, name: &Name) -> u32
    requires { length names.now.entries ≤ 100000 }
    ensures { result ≡ number_in (keys_of names.now.entries) name.now }
{
    if stands_at(names, place, name) {
        return place as u32 + 1;
    }
    number_among(names, name) as u32
}

// Whether a name stands at this place among these, from 0.
fn stands_at<V>(names: &IndexMap<Name, V>, place: usize, name: &Name) -> bool
    ensures within { result ≡ true → place < length names.now.entries }
    ensures number { result ≡ true → number_in (keys_of names.now.entries) name.now ≡ place + 1 }
{
    if names.len() <= place {
        return false;
    }
    match names.get_index(place) {
        Some((found, _)) => *found == *name,
        None => false,
    }
}

/// The number of a name among these, from 1, or 0 where it isn't there.
pub fn number_among<V>(names: &IndexMap<Name, V>, name: &Name) -> usize
    ensures number { result ≡ number_in (keys_of names.now.entries) name.now }
    ensures within { result ≤ length names.now.entries }
{
    let _count = names.len();
    match names.get_index_of(name) {
        Some(place) => place + 1,
        None => 0,
    }
}
