//! Lists of places, in which each place has its rank.

ghost use Rattle.std.specs.Prelude.{◌≡◌, ◌<◌, ℕ, OnSome, MatchBool, length};
ghost use Rattle.whole_vectors.specs.Ranks.{AreRanked, IsListedAt};

/// Whether the list has a place.
#[inline(always)]
fn is_listed(listed: &[usize], ranks: &[usize], place: usize) -> bool
    requires { place < length ranks.now }
    ensures { MatchBool result (IsListedAt listed.now ranks.now place)
        (IsListedAt listed.now ranks.now place → ⊥) }
{
    match listed.get(ranks[place]) {
        Some(other) => *other == place,
        None => false,
    }
}

/// Lists a place, if it isn't listed yet.
#[inline(always)]
pub fn enlist(listed: &mut Vec<usize>, ranks: &mut [usize], place: usize) -> Option<()>
    requires within { place < length ranks.old }
    requires ranked { AreRanked listed.old.items ranks.old }
    ensures ranked { AreRanked listed.new.items ranks.new }
    ensures own { OnSome result (IsListedAt listed.new.items ranks.new place) }
    ensures others { (n : ℕ) → IsListedAt listed.old.items ranks.old n →
        IsListedAt listed.new.items ranks.new n }
{
    if is_listed(listed, ranks, place) {
        return Some(());
    }
    let rank = listed.len();
    listed.push(place).ok()?;
    ranks[place] = rank;
    Some(())
}
