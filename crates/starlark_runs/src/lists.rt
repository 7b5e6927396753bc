//! The laws over the definitions, for all lists of entries. Each call's contract then gives the law for the call.
ghost use Rattle.std.specs.Prelude.{◌≡◌, ◌↔◌, List, [], All, AllPairs, IsPermutation, IsSome, IsTrue, false, reverse};
ghost use Rattle.std.specs.List.Sorted.{IsStableByKey};
ghost use Rattle.std.specs.Map.{keys_of};
ghost use Rattle.starlark_hash.specs.declared.hashed.Hashed.{Hashed};
ghost use Rattle.starlark_hash.specs.Entries.{Entry, IsSingle, entry_hash, entry_key, match_of};
ghost use Rattle.starlark_hash.specs.Insert.{insert_entry};
ghost use Rattle.starlark_hash.specs.Hasher.{own_hash};
ghost use Rattle.starlark_hash.specs.Sort.{Ascends, sorted_by_key};
ghost use Rattle.starlark_runs.specs.Matches.{HasMatches};
ghost use Rattle.starlark_small.specs.Collect.{insert_all};
ghost use Rattle.starlark_small.specs.Compare.{same_entries};
ghost use Rattle.starlark_hash.specs.Compare.{same_ordered, ordered_feed};

use std::hash::Hash;

/// An insertion of a key that is there keeps each index, and each stored key under its hash.
pub fn insertion_keeps_keys<K: Eq, V>()
    ensures { (es : List (Entry K V)) (key : Hashed K) (value : V) → IsSome (match_of K.eq es key) → keys_of (insert_entry K.eq es key value) ≡ keys_of es }
{}

/// A list that is reversed twice is the list.
pub fn reversed_twice<K: Eq, V>()
    ensures { (es : List (Entry K V)) → reverse (reverse es) ≡ es }
{}

/// A list that is sorted twice is the list that is sorted once.
pub fn sorted_twice<K: Ord, V>()
    ensures { (es : List (Entry K V)) → sorted_by_key K.cmp (sorted_by_key K.cmp es) ≡ sorted_by_key K.cmp es }
{}

/// A list sorted by key ascends, has the same entries, and keeps the order of entries with equal keys. No other list does.
pub fn sorted_stably<K: Ord, V>()
    ensures ascends { (es : List (Entry K V)) → Ascends K.cmp (sorted_by_key K.cmp es) }
    ensures rearranged { (es : List (Entry K V)) → IsPermutation es (sorted_by_key K.cmp es) }
    ensures stable { (es : List (Entry K V)) → IsStableByKey entry_key K.cmp es (sorted_by_key K.cmp es) }
    ensures only { (es sorted : List (Entry K V)) → Ascends K.cmp sorted → IsStableByKey entry_key K.cmp es sorted → sorted ≡ sorted_by_key K.cmp es }
{}

/// Two lists, in neither of which two entries have the same hash and equal keys, have the same entries exactly if they have
/// one length and each entry of the first has a match in the second with an equal value.
pub fn equal_by_matches<K: Eq, V: PartialEq>()
    ensures { (ds es : List (Entry K V)) → IsSingle K.eq ds → IsSingle K.eq es → (IsTrue (same_entries K.eq V.eq ds es) ↔ HasMatches K.eq V.eq ds es) }
{}

/// Lists that are equal in order have the same entries.
pub fn ordered_implies_equal<K: Eq, V: PartialEq>()
    ensures { (ds es : List (Entry K V)) → IsTrue (same_ordered K.eq V.eq ds es) → IsTrue (same_entries K.eq V.eq ds es) }
{}

/// Lists that are equal in order feed a hasher alike.
pub fn ordered_implies_one_feed<K: Eq, V: Hash>()
    ensures { (ds es : List (Entry K V)) → IsTrue (same_ordered K.eq V.eq ds es) → ordered_feed V.hash_input ds ≡ ordered_feed V.hash_input es }
{}

/// Inserting entries, of which no two have the same hash and equal keys, one after the other gives their list.
pub fn collected_is_the_list<K: Eq, V>()
    ensures { (es : List (Entry K V)) → IsSingle K.eq es → insert_all K.eq [] es ≡ es }
{}

/// If no two entries have the same hash and equal keys, and each hash is its key's own, no two keys are equal.
pub fn own_hashes_have_distinct_keys<K: Eq + Hash, V>()
    ensures { (es : List (Entry K V)) → IsSingle K.eq es → All (λ e. entry_hash e ≡ own_hash K.hash_input (entry_key e)) es
        → AllPairs (λ d e. K.eq (entry_key d) (entry_key e) ≡ false) es }
{}
