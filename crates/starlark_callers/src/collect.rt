//! Callers that make maps and sets of items, take items in, copy, or join.
ghost use Rattle.std.specs.Hash as fed;
ghost use Rattle.std.specs.Map.{update_all};
ghost use Rattle.std.specs.Prelude.{[], ◌&&◌, ◌+◌, ◌||◌, ◌∷◌, ◌≡◌, ◌≤◌, All, Contains, IfOk, IfSome, IsSome, None, OnOk, Some, false, length, map, nat_eq, not, true, ℕ};
ghost use Rattle.std.specs.Set.{is_member};
ghost use Rattle.starlark_sets.specs.Difference.{difference_rest};
ghost use Rattle.starlark_sets.specs.Union.{union_rest};
ghost use Rattle.starlark_small.specs.Lookup.{AreOwn, AreOwnEntries, contains, get, keys};
ghost use Rattle.starlark_hash.specs.Clone.{IsEqualClone};
ghost use Rattle.starlark_small.specs.Collect.{insert_all};
ghost use Rattle.starlark_map.specs.Sorted.{AscendsAlong};

use starlark_hash::Hashed;
use starlark_map::sorted_map::SortedMap;
use starlark_map::sorted_set::SortedSet;
use starlark_sets::{Difference, SmallSet, Union};
use starlark_small::SmallMap;
use std::alloc::{AllocError, Global};
use std::hash::Hash;

/// A map of the pairs of a vector: each key has its last value.
pub fn of_vec<K: Eq + Hash + Drop, V: Drop>(
    alloc: Global,
    items: Vec<(K, V)>,
) -> Result<SmallMap<K, V>, AllocError>
    ensures { IfOk result (λ m. (key : K) → get K.eq K.hash_input m key ≡ update_all K.eq (λ _. None) items.items key) }
{
    SmallMap::from_iter(alloc, items)
}

/// Puts the pairs of a vector in. What was there stays, also where that is refused.
pub fn add_vec<K: Eq + Hash + Drop, V: Drop>(
    map: &mut SmallMap<K, V>,
    items: Vec<(K, V)>,
) -> Result<(), AllocError>
    ensures stays { (key : K) → contains K.eq K.hash_input map.old key ≡ true → contains K.eq K.hash_input map.new key ≡ true }
    ensures longer { length map.old.entries ≤ length map.new.entries }
    ensures each { OnOk result ((key : K) → get K.eq K.hash_input map.new key ≡ update_all K.eq (get K.eq K.hash_input map.old) items.items key) }
{
    map.extend(items)?;
    Ok(())
}

/// A map of two pairs.
pub fn two(alloc: Global, a: (u32, u64), b: (u32, u64)) -> Result<SmallMap<u32, u64>, AllocError>
    requires { nat_eq a.0 b.0 ≡ false }
    ensures first { IfOk result (λ m. get nat_eq fed.u32 m a.0 ≡ Some a.1) }
    ensures second { IfOk result (λ m. get nat_eq fed.u32 m b.0 ≡ Some b.1) }
    ensures own { IfOk result (AreOwn fed.u32) }
{
    SmallMap::from_iter(alloc, [a, b])
}

/// A map of entries, each under its hash, inserted in their order.
pub fn of_entries<K: Eq + Hash + Drop, V: Drop>(
    alloc: Global,
    entries: Vec<(Hashed<K>, V)>,
) -> Result<SmallMap<K, V>, AllocError>
    ensures each { IfOk result (λ map. map.entries ≡ insert_all K.eq [] entries.items) }
    ensures own { AreOwnEntries K.hash_input entries.items → IfOk result (AreOwn K.hash_input) }
{
    SmallMap::from_iter_hashed(alloc, entries)
}

/// A map of pairs that are copied: what is found was among them, and each key is found.
pub fn of_copied(alloc: Global, pairs: &[(u32, u64)]) -> Result<SmallMap<u32, u64>, AllocError>
    ensures found { IfOk result (λ m. (key : ℕ) → IfSome (get nat_eq fed.u32 m key) (λ value. Contains pairs.now (key, value))) }
    ensures keys { IfOk result (λ m. All (λ pair. IsSome (get nat_eq fed.u32 m pair.0)) pairs.now) }
{
    SmallMap::from_iter(alloc, pairs.iter().copied())
}

/// A copy, which has equal keys.
pub fn copied<K: Eq + Hash + Clone, V: Clone>(
    map: &SmallMap<K, V>,
) -> Result<SmallMap<K, V>, AllocError>
    requires { IsEqualClone K.eq K.is_clone }
    ensures same { IfOk result (λ copy. (key : K) → contains K.eq K.hash_input copy key ≡ contains K.eq K.hash_input map.now key) }
    ensures own { AreOwn K.hash_input map.now → IfOk result (AreOwn K.hash_input) }
{
    map.clone()
}

/// A copy of numbers, which has what the map has.
pub fn copied_numbers(map: &SmallMap<u32, u64>) -> Result<SmallMap<u32, u64>, AllocError>
    ensures same { IfOk result (λ copy. (key : ℕ) → get nat_eq fed.u32 copy key ≡ get nat_eq fed.u32 map.now key) }
    ensures own { AreOwn fed.u32 map.now → IfOk result (AreOwn fed.u32) }
{
    map.clone()
}

/// A sorted map of the pairs of a vector: each key has its last value, and the keys ascend.
pub fn of_vec_sorted<K: Ord + Hash + Drop, V: Drop>(
    alloc: Global,
    items: Vec<(K, V)>,
) -> Result<SortedMap<K, V>, AllocError>
    ensures ascend { IfOk result (λ m. AscendsAlong K.cmp (keys m)) }
    ensures each { IfOk result (λ m. (key : K) → get K.eq K.hash_input m key ≡ update_all K.eq (λ _. None) items.items key) }
{
    SortedMap::from_iter(alloc, items)
}

/// A set of the elements of a vector.
pub fn of_elements<T: Eq + Hash + Drop>(
    alloc: Global,
    items: Vec<T>,
) -> Result<SmallSet<T>, AllocError>
    ensures found { IfOk result (λ s. (element : T) → contains T.eq T.hash_input s element ≡ is_member T.eq items.items element) }
    ensures own { IfOk result (AreOwn T.hash_input) }
{
    let made = SmallSet::from_iter(alloc, items)?;
    Ok(made)
}

/// Puts two numbers into a set. What was there stays, also where that is refused, and numbers under their own hashes stay so.
pub fn add_both(set: &mut SmallSet<u32>, a: u32, b: u32) -> Result<(), AllocError>
    ensures stays { (n : ℕ) → contains nat_eq fed.u32 set.old n ≡ true → contains nat_eq fed.u32 set.new n ≡ true }
    ensures longer { length set.old.entries ≤ length set.new.entries }
    ensures own { AreOwn fed.u32 set.old → AreOwn fed.u32 set.new }
    ensures each { OnOk result ((n : ℕ) → contains nat_eq fed.u32 set.new n ≡ (contains nat_eq fed.u32 set.old n || is_member nat_eq (a ∷ b ∷ []) n)) }
{
    set.extend([a, b])
}

/// What one set has and the other lacks.
pub fn lacking<'a, T: Eq + Hash>(set: &'a SmallSet<T>, other: &'a SmallSet<T>) -> Difference<'a, T>
    ensures { AreOwn T.hash_input set.now → (n : T) → is_member T.eq (difference_rest T.eq result) n ≡ (contains T.eq T.hash_input set.now n && not (contains T.eq T.hash_input other.now n)) }
{
    set.difference(other)
}

/// What either set has.
pub fn either<'a, T: Eq + Hash>(set: &'a SmallSet<T>, other: &'a SmallSet<T>) -> Union<'a, T>
    ensures { AreOwn T.hash_input set.now → AreOwn T.hash_input other.now → (n : T) → is_member T.eq (union_rest T.eq result) n ≡ (contains T.eq T.hash_input set.now n || contains T.eq T.hash_input other.now n) }
{
    set.union(other)
}

/// A set of what one set has and the other lacks, by reference: it is no longer than the one.
pub fn lacking_shown<'a, T: Eq + Hash>(
    alloc: Global,
    set: &'a SmallSet<T>,
    other: &'a SmallSet<T>,
) -> Result<SmallSet<&'a T>, AllocError>
    ensures { IfOk result (λ made. length made.entries ≤ length set.now.entries) }
{
    SmallSet::from_iter(alloc, set.difference(other))
}

/// A set of the numbers that one set has and the other lacks.
pub fn lacking_numbers(
    alloc: Global,
    set: &SmallSet<u32>,
    other: &SmallSet<u32>,
) -> Result<SmallSet<u32>, AllocError>
    ensures each { AreOwn fed.u32 set.now → IfOk result (λ made. (n : ℕ) → contains nat_eq fed.u32 made n ≡ (contains nat_eq fed.u32 set.now n && not (contains nat_eq fed.u32 other.now n))) }
    ensures most { IfOk result (λ made. length made.entries ≤ length set.now.entries) }
{
    SmallSet::from_iter(alloc, set.difference(other).copied())
}

/// A set of the numbers that either set has.
pub fn either_number(
    alloc: Global,
    set: &SmallSet<u32>,
    other: &SmallSet<u32>,
) -> Result<SmallSet<u32>, AllocError>
    ensures each { AreOwn fed.u32 set.now → AreOwn fed.u32 other.now → IfOk result (λ made. (n : ℕ) → contains nat_eq fed.u32 made n ≡ (contains nat_eq fed.u32 set.now n || contains nat_eq fed.u32 other.now n)) }
    ensures most { IfOk result (λ made. length made.entries ≤ length set.now.entries + length other.now.entries) }
{
    SmallSet::from_iter(alloc, set.union(other).copied())
}

/// The elements that either set has, by reference, in ascending order.
pub fn either_sorted<'a, T: Ord + Hash>(
    set: &'a SortedSet<T>,
    other: &'a SortedSet<T>,
    alloc: Global,
) -> Result<Vec<&'a T>, AllocError>
    ensures ascends { IfOk result (λ all. AscendsAlong T.cmp (map (λ element. element.now) all.items)) }
    ensures first { IfOk result (λ all. length set.now.entries ≤ length all.items) }
    ensures second { IfOk result (λ all. length other.now.entries ≤ length all.items) }
    ensures most { IfOk result (λ all. length all.items ≤ length set.now.entries + length other.now.entries) }
{
    set.union(other).collect(alloc)
}
