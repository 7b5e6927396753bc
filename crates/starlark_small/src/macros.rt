//! `smallmap!`.
ghost use Rattle.std.specs.Prelude.{◌≡◌, ◌<◌, IfOk, IsErr, IsOk, IsSome, MatchResult};
ghost use Rattle.starlark_hash.specs.Insert.{insert_entry};
ghost use Rattle.starlark_small.specs.Insert.{LeavesMemory};
ghost use Rattle.starlark_small.specs.Lookup.{get};
ghost use Rattle.starlark_small.specs.Map.{own_hashed};

use crate::SmallMap;
use std::alloc::AllocError;
use std::hash::Hash;

/// Makes a `SmallMap` of these keys and values, as in `smallmap![alloc; 1 => "a", 2 => "b"]?`. The map begins with room
/// for as many entries as are written. They are inserted in their order, each under its key's own hash. A key that is
/// written again keeps its index and takes the later value. Only the room at the beginning may be refused; then nothing
/// is made.
#[macro_export]
macro_rules! smallmap {
    (@one $key:expr) => {
        1usize
    };
    ($alloc:expr; $($key:expr => $value:expr),* $(,)?) => {{
        let map = $crate::SmallMap::with_capacity($alloc, 0usize $(+ $crate::smallmap!(@one $key))*);
        $(let map = $crate::macros::inserted(map, $key, $value);)*
        map
    }};
}

/// One step of `smallmap!`: inserts in the way of `SmallMap::insert` into a map that was made. A key that is there is
/// never refused, and with room to spare no key is. Room, capacity and hash index become what an insertion makes of
/// them. If the map was refused, so is the result.
pub fn inserted<K: Eq + Hash + Drop, V: Drop>(
    map: Result<SmallMap<K, V>, AllocError>,
    key: K,
    value: V,
) -> Result<SmallMap<K, V>, AllocError>
    ensures entries { MatchResult map (λ old. IfOk result (λ new. new.entries ≡ insert_entry K.eq old.entries (own_hashed K.hash_input key) value)) (λ _. IsErr result) }
    ensures succeeds { IfOk map (λ old. 0 < old.room → IsOk result) }
    ensures present { IfOk map (λ old. IsSome (get K.eq K.hash_input old key) → IsOk result) }
    ensures memory { IfOk map (λ old. IfOk result (λ new. LeavesMemory K.eq old new (own_hashed K.hash_input key))) }
{
    let mut map = map?;
    match map.insert(key, value) {
        Ok(_old) => Ok(map),
        Err(_refused) => Err(AllocError),
    }
}
