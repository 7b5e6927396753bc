//! Callers that make unordered maps and sets, or others of them.
ghost use Rattle.std.specs.Map.{update_all};
ghost use Rattle.std.specs.Option.{option_map};
ghost use Rattle.std.specs.Prelude.{◌*◌, ◌/◌, ◌≡◌, ◌≤◌, IfErr, IfOk, IsPermutation, None, filter, length, nat_eq, nat_lt, ℕ};
ghost use Rattle.std.specs.Set.{is_member};
ghost use Rattle.starlark_table.specs.Growth.{most_for};
ghost use Rattle.starlark_unordered.specs.Lookup.{contains, get};
ghost use Rattle.starlark_hash.specs.Clone.{IsEqualClone};
ghost use Rattle.starlark_unordered.specs.Pairs.{HasDistinctKeys, pairs_of};

use starlark_unordered::{UnorderedMap, UnorderedSet};
use std::alloc::{AllocError, Global};
use std::collections::HashMap;
use std::hash::Hash;

/// A map of the pairs of a vector: each key has its last value.
pub fn of_vec<K: Eq + Hash + Drop, V: Drop>(
    alloc: Global,
    items: Vec<(K, V)>,
) -> Result<UnorderedMap<K, V>, AllocError>
    ensures { IfOk result (λ m. (key : K) → get K.eq m key ≡ update_all K.eq (λ _. None) items.items key) }
{
    let made = UnorderedMap::from_iter(alloc, items)?;
    Ok(made)
}

/// A map with room for a number of pairs, and for not many more.
pub fn roomy<K: Eq + Hash, V>(
    alloc: Global,
    capacity: usize,
) -> Result<UnorderedMap<K, V>, AllocError>
    ensures room { IfOk result (λ map. capacity ≤ map.room) }
    ensures most { IfOk result (λ map. map.room ≤ most_for capacity) }
{
    UnorderedMap::with_capacity(alloc, capacity)
}

/// A copy, which has equal keys.
pub fn copied<K: Eq + Hash + Clone, V: Clone>(
    map: &UnorderedMap<K, V>,
) -> Result<UnorderedMap<K, V>, AllocError>
    requires { IsEqualClone K.eq K.is_clone }
    ensures { IfOk result (λ copy. (key : K) → contains K.eq copy key ≡ contains K.eq map.now key) }
{
    map.clone()
}

/// Keeps the pairs whose values are above a bound.
pub fn keep_above<K: Eq + Hash + Drop>(map: &mut UnorderedMap<K, u64>, least: u64)
    ensures { IsPermutation (filter (λ p. nat_lt least p.1) (pairs_of map.old)) (pairs_of map.new) }
{
    map.retain(|_key, value| *value > least);
}

/// Halves every value.
pub fn halve<K: Eq + Hash + Drop>(map: &mut UnorderedMap<K, u64>)
    ensures each { (key : K) → get K.eq map.new key ≡ option_map (λ n. n / 2) (get K.eq map.old key) }
    ensures fewer { length (pairs_of map.new) ≤ length (pairs_of map.old) }
{
    map.retain(|_key, value| {
        *value /= 2;
        true
    });
}

/// The map with each value doubled; refused, it comes back.
pub fn doubled(
    map: UnorderedMap<u32, u32>,
) -> Result<UnorderedMap<u32, u64>, UnorderedMap<u32, u32>>
    ensures each { IfOk result (λ m. (key : ℕ) → get nat_eq m key ≡ option_map (λ value. value * 2) (get nat_eq map key)) }
    ensures count { IfOk result (λ m. length (pairs_of m) ≡ length (pairs_of map)) }
    ensures back { IfErr result (λ m. m ≡ map) }
{
    map.map_values(|value| value as u64 * 2)
}

/// The pairs as a map of the standard library.
pub fn as_std<K: Eq + Hash + Drop, V: Drop>(
    map: UnorderedMap<K, V>,
) -> Result<HashMap<K, V>, AllocError>
    ensures { IfOk result (λ m. IsPermutation (pairs_of map) m.entries) }
{
    map.into_hash_map()
}

/// The distinct items of a slice: each is there once, and nothing else.
pub fn distinct<T: Eq + Hash + Copy + Drop>(
    alloc: Global,
    items: &[T],
) -> Result<UnorderedSet<T>, AllocError>
    ensures found { IfOk result (λ s. (element : T) → contains T.eq s element ≡ is_member T.eq items.now element) }
    ensures apart { IfOk result (λ s. HasDistinctKeys T.eq (pairs_of s)) }
{
    let made = UnorderedSet::from_iter(alloc, items.iter().copied())?;
    let _count = made.len();
    Ok(made)
}
