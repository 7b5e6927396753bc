//! Scores that stay below a bound: what holds of all keys, values and pairs of a map, and what is among them, as each call
//! leaves them. Each proof is one line on the call's record.
#![tactic(auto)]

ghost use Rattle.std.specs.List.{Contains};
ghost use Rattle.std.specs.Map.{values_of};
ghost use Rattle.std.specs.Option.{option_map};
ghost use Rattle.std.specs.Prelude.{ℕ, ◌≡◌, ◌≤◌, All, None, OnOk, Some, length, map, nat_eq, remove, slice_get, true};
ghost use Rattle.std.specs.String.{string_bytes};
ghost use Rattle.starlark_hash.specs.Entries.{entry_value, pair_of};
ghost use Rattle.starlark_small.specs.Lookup.{contains_text, get, get_text, keys};
ghost use Rattle.starlark_unordered.specs.Lookup as unordered;
ghost use Rattle.starlark_unordered.specs.Pairs.{pairs_of};

use starlark_hash::NoRoom;
use starlark_small::SmallMap;
use starlark_unordered::UnorderedMap;
use std::hash::Hash;

/// Notes the score of a player, who has a number. Scores of at most 100 stay so; this player, score and pair of both are
/// there then, and no other player comes.
pub fn note(
    scores: &mut SmallMap<u32, u64>,
    player: u32,
    score: u64,
) -> Result<(), NoRoom<(u32, u64)>>
    requires bounded { All (λ score. score ≤ 100) (map entry_value scores.old.entries) }
    requires fits { score ≤ 100 }
    ensures bounded { All (λ score. score ≤ 100) (map entry_value scores.new.entries) }
    ensures score { OnOk result (Contains (map entry_value scores.new.entries) score) }
    ensures player { OnOk result (Contains (keys scores.new) player) }
    ensures pair { OnOk result (Contains (map pair_of scores.new.entries) (player, score)) }
{
    scores.insert(player, score)?;
    Ok(())
}

/// Notes the score of a player, who has a name. Scores of at most 100 stay so, and no name is empty.
pub fn note_name(
    scores: &mut SmallMap<String, u64>,
    player: String,
    score: u64,
) -> Result<(), NoRoom<(String, u64)>>
    requires bounded { All (λ score. score ≤ 100) (map entry_value scores.old.entries) }
    requires fits { score ≤ 100 }
    requires named { All (λ name. 1 ≤ length (string_bytes name)) (keys scores.old) }
    requires is_named { 1 ≤ length (string_bytes player) }
    ensures bounded { All (λ score. score ≤ 100) (map entry_value scores.new.entries) }
    ensures named { All (λ name. 1 ≤ length (string_bytes name)) (keys scores.new) }
    ensures score { OnOk result (Contains (map entry_value scores.new.entries) score) }
{
    scores.insert(player, score)?;
    Ok(())
}

/// Notes the score of a player of any type. Pairs whose scores are at most 100 stay so.
pub fn note_any<K: Eq + Hash + Drop>(
    scores: &mut SmallMap<K, u64>,
    player: K,
    score: u64,
) -> Result<(), NoRoom<(K, u64)>>
    requires bounded { All (λ (pair : K × ℕ). pair.1 ≤ 100) (map pair_of scores.old.entries) }
    requires fits { score ≤ 100 }
    ensures bounded { All (λ (pair : K × ℕ). pair.1 ≤ 100) (map pair_of scores.new.entries) }
    ensures score { OnOk result (Contains (map entry_value scores.new.entries) score) }
{
    scores.insert(player, score)?;
    Ok(())
}

/// Takes a player off the list. Scores of at most 100 stay so, and no player comes.
pub fn forget<K: Eq + Hash + Drop>(scores: &mut SmallMap<K, u64>, player: &K) -> Option<u64>
    requires bounded { All (λ score. score ≤ 100) (map entry_value scores.old.entries) }
    ensures bounded { All (λ score. score ≤ 100) (map entry_value scores.new.entries) }
    ensures players { (other : K) → Contains (keys scores.new) other → Contains (keys scores.old) other }
    ensures was { result ≡ get K.eq K.hash_input scores.old player.now }
    ensures gone { get K.eq K.hash_input scores.new player.now ≡ None }
{
    scores.shift_remove(player)
}

/// Takes the first player off the list. Scores of at most 100 stay so.
pub fn forget_first(scores: &mut SmallMap<String, u64>) -> Option<(String, u64)>
    requires bounded { All (λ score. score ≤ 100) (map entry_value scores.old.entries) }
    ensures bounded { All (λ score. score ≤ 100) (map entry_value scores.new.entries) }
    ensures first { result ≡ option_map pair_of (slice_get scores.old.entries 0) }
    ensures others { scores.new.entries ≡ remove scores.old.entries 0 }
{
    scores.shift_remove_index(0)
}

/// Writes the score of a player who is there. Scores of at most 100 stay so; players and their number stay.
pub fn change(scores: &mut SmallMap<String, u64>, player: &str, score: u64)
    requires bounded { All (λ score. score ≤ 100) (map entry_value scores.old.entries) }
    requires fits { score ≤ 100 }
    ensures bounded { All (λ score. score ≤ 100) (map entry_value scores.new.entries) }
    ensures players { keys scores.new ≡ keys scores.old }
    ensures count { length scores.new.entries ≡ length scores.old.entries }
    ensures score { contains_text scores.old player.now ≡ true → get_text scores.new player.now ≡ Some score }
{
    if let Some(there) = scores.get_mut(player) {
        *there = score;
    }
}

/// Notes a score in a map that keeps no order. Scores of at most 100 stay so, and this one is there then.
pub fn note_unordered(
    scores: &mut UnorderedMap<u32, u64>,
    player: u32,
    score: u64,
) -> Result<(), NoRoom<(u32, u64)>>
    requires bounded { All (λ score. score ≤ 100) (values_of (pairs_of scores.old)) }
    requires fits { score ≤ 100 }
    ensures bounded { All (λ score. score ≤ 100) (values_of (pairs_of scores.new)) }
    ensures score { OnOk result (Contains (values_of (pairs_of scores.new)) score) }
    ensures here { OnOk result (unordered.get nat_eq scores.new player ≡ Some score) }
{
    scores.insert(player, score)?;
    Ok(())
}

/// Takes a player off such a list. Scores of at most 100 stay so.
pub fn forget_unordered(scores: &mut UnorderedMap<u32, u64>, player: u32) -> Option<u64>
    requires bounded { All (λ score. score ≤ 100) (values_of (pairs_of scores.old)) }
    ensures bounded { All (λ score. score ≤ 100) (values_of (pairs_of scores.new)) }
    ensures was { result ≡ unordered.get nat_eq scores.old player }
    ensures gone { unordered.get nat_eq scores.new player ≡ None }
{
    scores.remove(&player)
}
