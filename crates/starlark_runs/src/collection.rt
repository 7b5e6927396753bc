//! Maps that are made of many entries at once.
ghost use Rattle.std.specs.Prelude.{◌≡◌, ◌*◌, ◌≤◌, max, nat_lt, length, [], ◌∷◌, IfOk, IsOk};
ghost use Rattle.starlark_small.specs.Collect.{insert_all, own_entry};
ghost use Rattle.starlark_small.specs.Index.{unindexed};

use starlark_small::macros::inserted;
use starlark_small::{SmallMap, smallmap};
use std::alloc::{AllocError, Global};
use std::hash::Hash;

/// Collecting the entries of a map, taken by `into_iter_hashed`, with `from_iter_hashed` gives the same list, if it is not
/// refused. Capacity and hash index are those of a new map: the capacity is at most 4 or twice the length, and there is a
/// hash index exactly if the list is longer than the threshold.
pub fn collected_anew<K: Eq + Drop, V: Drop>(
    alloc: Global,
    map: SmallMap<K, V>,
) -> Result<SmallMap<K, V>, AllocError>
    ensures entries { IfOk result (λ collected. collected.entries ≡ map.entries) }
    ensures capacity { IfOk result (λ collected. collected.capacity ≤ max 4 (2 * length map.entries)) }
    ensures indexed { IfOk result (λ collected. collected.indexed ≡ nat_lt unindexed (length map.entries)) }
{
    SmallMap::from_iter_hashed(alloc, map.into_iter_hashed())
}

/// `smallmap!` inserts its entries, here three, in their order, each under its key's own hash.
pub fn written_in_order<K: Eq + Hash + Drop, V: Drop>(
    alloc: Global,
    first: (K, V),
    second: (K, V),
    third: (K, V),
) -> Result<SmallMap<K, V>, AllocError>
    ensures { IfOk result (λ map. map.entries ≡ insert_all K.eq [] (own_entry K.hash_input first ∷ own_entry K.hash_input second ∷ own_entry K.hash_input third ∷ [])) }
{
    smallmap![alloc; first.0 => first.1, second.0 => second.1, third.0 => third.1]
}

/// After its reservation `smallmap!` inserts its entries, here three, in their order into a map with room for them. None of
/// these insertions is refused, so only the reservation can be.
pub fn written_with_room<K: Eq + Hash + Drop, V: Drop>(
    map: SmallMap<K, V>,
    first: (K, V),
    second: (K, V),
    third: (K, V),
) -> Result<SmallMap<K, V>, AllocError>
    ensures entries { IfOk result (λ made. made.entries ≡ insert_all K.eq map.entries (own_entry K.hash_input first ∷ own_entry K.hash_input second ∷ own_entry K.hash_input third ∷ [])) }
    ensures succeeds { 3 ≤ map.room → IsOk result }
{
    let one = inserted(Ok(map), first.0, first.1);
    let two = inserted(one, second.0, second.1);
    inserted(two, third.0, third.1)
}
