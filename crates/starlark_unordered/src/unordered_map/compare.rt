//! `==` and `Hash` of an `UnorderedMap`.
ghost use Rattle.std.specs.Prelude.{◌≡◌, ◌%◌, ◌^◌, Some, length};
ghost use Rattle.std.specs.Cmp.{on_equiv, on_per, partial_equiv_from_equiv};
ghost use Rattle.std.specs.List.{list_all};
ghost use Rattle.std.specs.Ordering.{on};
ghost use Rattle.starlark_unordered.specs.Bag.{same_bag};
ghost use Rattle.starlark_unordered.specs.BagLaws.{pair_equiv, same_bag_equiv, pairs_alike};
ghost use Rattle.starlark_unordered.specs.Pairs.{pairs_of, pair_eq, has_equal, hash_sum, feed_pairs};

use super::UnorderedMap;
use starlark_hash::{StarlarkHashValue, StarlarkHasher};
use starlark_table::Iter;
use std::hash::{Hash, Hasher};

// The sum in 64 bits of the result of a new hasher for each pair.
fn sum_of<K: Hash, V: Hash>(mut pairs: Iter<'_, (K, V), StarlarkHashValue>) -> u64
    ensures { result ≡ hash_sum K.hash_input V.hash_input pairs.entry % 2 ^ 64 }
{
    let mut sum = 0u64;
    while let Some((key, value)) = pairs.next() {
        let mut hasher = StarlarkHasher::new();
        key.hash(&mut hasher);
        value.hash(&mut hasher);
        sum = sum.wrapping_add(hasher.finish());
    }
    sum
}

impl<K: Eq + Hash, V: Hash> Hash for UnorderedMap<K, V> {
    ghost hash_input = { λ m. feed_pairs K.hash_input V.hash_input (pairs_of m) };

    ghost respects_eq = { λ x y. pairs_alike K.eq V.eq K.Eq.laws V.Eq.laws K.hash_input V.hash_input K.Hash.respects_eq V.respects_eq (pairs_of x) (pairs_of y) };

    fn hash<H: Hasher>(&self, state: &mut H) {
        state.write_usize(self.len());
        state.write_u64(sum_of(self.table.iter()));
    }
}

impl<K: Eq + Hash, V: Eq> PartialEq for UnorderedMap<K, V> {
    ghost eq = { on pairs_of (same_bag (pair_eq K.eq V.eq)) };

    ghost laws = { on_per pairs_of (partial_equiv_from_equiv (same_bag_equiv (pair_eq K.eq V.eq) (pair_equiv K.eq V.eq K.Eq.laws V.Eq.laws))) };

    fn eq(&self, other: &UnorderedMap<K, V>) -> bool
        ensures same { result ≡ same_bag (pair_eq K.eq V.eq) (pairs_of self.now) (pairs_of other.now) }
        // If the maps have as many pairs, the result is whether this one has each pair of the other.
        ensures has_each { length (pairs_of self.now) ≡ length (pairs_of other.now) → result ≡ list_all (has_equal K.eq V.eq (pairs_of other.now)) (pairs_of self.now) }
    {
        self.len() == other.len() && found_in(self.table.iter(), other)
    }
}

// Whether the map has each of the pairs.
fn found_in<K: Eq + Hash, V: Eq>(
    mut pairs: Iter<'_, (K, V), StarlarkHashValue>,
    map: &UnorderedMap<K, V>,
) -> bool
    ensures { result ≡ list_all (has_equal K.eq V.eq (pairs_of map.now)) pairs.entry }
{
    while let Some((key, value)) = pairs.next() {
        match map.get(key) {
            Some(other) => {
                if *value != *other {
                    return false;
                }
            }
            None => return false,
        }
    }
    true
}

impl<K: Eq + Hash, V: Eq> Eq for UnorderedMap<K, V> {
    ghost laws = { on_equiv pairs_of (same_bag_equiv (pair_eq K.eq V.eq) (pair_equiv K.eq V.eq K.Eq.laws V.Eq.laws)) };
}
