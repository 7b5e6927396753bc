//! Laws of maps without an order, over the definitions that their contracts cite.
ghost use Rattle.std.specs.Prelude.{◌≡◌, IsPermutation, IsTrue};
ghost use Rattle.starlark_unordered.specs.Bag.{same_bag};
ghost use Rattle.starlark_unordered.specs.Pairs.{pairs_of, pair_eq, feed_pairs};

use crate::unordered_map::UnorderedMap;
use std::hash::Hash;

/// Equal maps feed a hasher alike, whatever history built them.
#[tactic(auto, using(crate::specs::BagLaws::pairs_alike))]
pub fn equal_maps_feed_alike<K: Eq + Hash, V: Eq + Hash>(
    first: &UnorderedMap<K, V>,
    second: &UnorderedMap<K, V>,
)
    ensures { IsTrue (same_bag (pair_eq K.eq V.eq) (pairs_of first.now) (pairs_of second.now)) → feed_pairs K.hash_input V.hash_input (pairs_of first.now) ≡ feed_pairs K.hash_input V.hash_input (pairs_of second.now) }
{}

/// Maps with the same pairs, each in an order of its own, are equal.
pub fn same_pairs_are_equal<K: Eq + Hash, V: Eq>(
    first: &UnorderedMap<K, V>,
    second: &UnorderedMap<K, V>,
)
    ensures { IsPermutation (pairs_of first.now) (pairs_of second.now) → IsTrue (same_bag (pair_eq K.eq V.eq) (pairs_of first.now) (pairs_of second.now)) }
{}
