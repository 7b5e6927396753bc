//! Callers of the entries that a `VecMap` lends.
ghost use Rattle.std.specs.Prelude.{◌≡◌, ◌<◌, length, slice_get, Some};
ghost use Rattle.std.specs.Option.{option_map};
ghost use Rattle.starlark_hash.specs.Entries.{entry_value, set_value_at};

use crate::lent::put::put;
use starlark_vecmap::VecMap;

/// Puts the value of the entry at this index, and gives the one that was there. It writes through
/// `VecMap::get_unchecked_mut`; all else stays.
pub fn put_value<K, V>(map: &mut VecMap<K, V>, index: usize, value: V) -> V
    requires { index < length map.old.entries }
    ensures taken { option_map entry_value (slice_get map.old.entries index) ≡ Some result }
    ensures entries { map.new.entries ≡ set_value_at map.old.entries index value }
    ensures capacity { map.new.capacity ≡ map.old.capacity }
{
    let (_key, slot) = map.get_unchecked_mut(index);
    put(slot, value)
}
