//! Callers of the entries of a `SmallMap`.
ghost use Rattle.std.specs.Prelude.{◌≡◌, Some, None, IfErr, IfOk, OnErr};
ghost use Rattle.std.specs.Option.{option_map};
ghost use Rattle.starlark_hash.specs.Entries.{entry_value};
ghost use Rattle.starlark_hash.specs.HashValue.{hash_of, key_of};
ghost use Rattle.starlark_hash.specs.Lookup.{found};
ghost use Rattle.starlark_small.specs.MapEntry.{stored, with_entry_value};
ghost use Rattle.starlark_callers.specs.Lend.{with_value_under};

use crate::lent::put::put;
use starlark_hash::Hashed;
use starlark_small::{Entry, OccupiedEntry, SmallMap};

/// Puts the value of an entry that the map has, and gives the one that was there. It writes through
/// `OccupiedEntry::as_key_and_mut_value`; all else of the map stays.
pub fn put_in_entry<K: Eq, V>(entry: &mut OccupiedEntry<'_, K, V>, value: V) -> V
    ensures taken { option_map entry_value (stored entry.old) ≡ Some result }
    ensures written { entry.new ≡ with_entry_value entry.old value }
{
    let (_key, slot) = entry.as_key_and_mut_value();
    put(slot, value)
}

/// Puts the value that a map has under this hash and key, and gives the one that was there. Where it has none, the
/// value comes back and the map stays. It writes through `OccupiedEntry::get_mut`; all else stays.
#[tactic(auto, using(starlark_small::proofs::CallerLookup::look_ups))]
pub fn put_if_there<K: Eq + Drop, V>(
    map: &mut SmallMap<K, V>,
    key: Hashed<K>,
    value: V,
) -> Result<V, V>
    ensures taken { IfOk result (λ was. found (K.eq (key_of key)) (hash_of key) map.old.entries ≡ Some was) }
    ensures written { map.new ≡ with_value_under K.eq map.old key value }
    ensures absent { OnErr result (found (K.eq (key_of key)) (hash_of key) map.old.entries ≡ None) }
    ensures handed_back { IfErr result (λ back. back ≡ value) }
{
    match map.entry_hashed(key) {
        Entry::Occupied(mut entry) => Ok(put(entry.get_mut(), value)),
        Entry::Vacant(_vacant) => Err(value),
    }
}
