//! Callers that write through the entries of an `OrderedMap`.
ghost use Rattle.std.specs.Hash as fed;
ghost use Rattle.std.specs.Prelude.{◌≡◌, ℕ, ◌+◌, ◌-◌, ◌^◌, min, nat_eq, false, Some, None, IfErr, IfOk, IsSome, OnErr, OnOk};
ghost use Rattle.std.specs.Borrow.{sem};
ghost use Rattle.std.specs.Option.{unwrap_or};
ghost use Rattle.starlark_hash.specs.Insert.{insert_entry};
ghost use Rattle.starlark_small.specs.Lookup.{get};
ghost use Rattle.starlark_small.specs.Insert.{IsInserted, IsRefused};
ghost use Rattle.starlark_small.specs.Map.{own_hashed};
ghost use Rattle.starlark_callers.specs.Lend.{with_value_under, lends_at};

use crate::lent::put::put;
use starlark_hash::{Hashed, NoRoom};
use starlark_sets::OrderedMap;
use std::hash::Hash;

/// The value that an ordered map has at a key under its own hash, to be written, or else this one, inserted, as
/// `Entry::or_insert` lends it. The ordered map ends with what is left in the value, and all else stays. It is refused
/// where the key is lacking, there is no room and no memory is found: then key and value come back.
///
/// It is one step for the proof of a caller: what the ordered map ends as, `search` does not learn of
/// `OrderedMap::entry`.
pub fn lend_at<K: Eq + Hash + Drop, V: Drop>(
    map: &mut OrderedMap<K, V>,
    key: K,
    value: V,
) -> Result<&mut V, NoRoom<(Hashed<K>, V)>>
    ensures* writes_back { sem 𝓛 (lends_at K.row V.row K.PartialEq map.entry (own_hashed K.hash_input key) result) }
    ensures shown { IfOk result (λ lent. lent.now ≡ unwrap_or (get K.eq K.hash_input map.old key) value) }
    ensures absent { OnErr result (get K.eq K.hash_input map.old key ≡ None) }
    ensures full { OnErr result (map.old.room ≡ 0) }
    ensures handed_back { IfErr result (λ back. back.0 ≡ (own_hashed K.hash_input key, value)) }
{
    map.entry(key).or_insert(value)
}

/// Puts a value at a key through what `lend_at` lends, and gives the one that was there; where the ordered map lacks the
/// key, a new entry is made with the first value, and that is what is replaced and given. Where the new entry is
/// refused, all comes back.
pub fn or_insert_then_put_in_order<K: Eq + Hash + Drop, V: Drop>(
    map: &mut OrderedMap<K, V>,
    key: K,
    value: V,
    next: V,
) -> Result<V, (NoRoom<(Hashed<K>, V)>, V)>
    ensures taken { IfOk result (λ was. was ≡ unwrap_or (get K.eq K.hash_input map.old key) value) }
    ensures written { IsSome (get K.eq K.hash_input map.old key) → map.new ≡ with_value_under K.eq map.old (own_hashed K.hash_input key) next }
    ensures inserted { get K.eq K.hash_input map.old key ≡ None → OnOk result (IsInserted map.old map.new (own_hashed K.hash_input key) next) }
    ensures here { OnOk result (get K.eq K.hash_input map.new key ≡ Some next) }
    ensures others { OnOk result ((other : K) → K.eq key other ≡ false → get K.eq K.hash_input map.new other ≡ get K.eq K.hash_input map.old other) }
    ensures entries { OnOk result (map.new.entries ≡ insert_entry K.eq map.old.entries (own_hashed K.hash_input key) next) }
    ensures absent { OnErr result (get K.eq K.hash_input map.old key ≡ None) }
    ensures full { OnErr result (map.old.room ≡ 0) }
    ensures refused { OnErr result (IsRefused map.old map.new) }
    ensures handed_back { IfErr result (λ back. back.0.0 ≡ (own_hashed K.hash_input key, value)) }
    ensures left { IfErr result (λ back. back.1 ≡ next) }
{
    match lend_at(map, key, value) {
        Ok(slot) => Ok(put(slot, next)),
        Err(refused) => Err((refused, next)),
    }
}

/// Counts a number in an ordered map, up to the greatest count. A number that is new counts 1.
pub fn count_in_order(
    map: &mut OrderedMap<u32, u64>,
    number: u32,
) -> Result<(), NoRoom<(Hashed<u32>, u64)>>
    ensures here { OnOk result (get nat_eq fed.u32 map.new number ≡ Some (min (unwrap_or (get nat_eq fed.u32 map.old number) 0 + 1) (2 ^ 64 - 1))) }
    ensures others { OnOk result ((other : ℕ) → nat_eq number other ≡ false → get nat_eq fed.u32 map.new other ≡ get nat_eq fed.u32 map.old other) }
    ensures entries { OnOk result (map.new.entries ≡ insert_entry nat_eq map.old.entries (own_hashed fed.u32 number) (min (unwrap_or (get nat_eq fed.u32 map.old number) 0 + 1) (2 ^ 64 - 1))) }
    ensures absent { OnErr result (get nat_eq fed.u32 map.old number ≡ None) }
    ensures full { OnErr result (map.old.room ≡ 0) }
    ensures refused { OnErr result (IsRefused map.old map.new) }
{
    let count = lend_at(map, number, 0)?;
    *count = count.saturating_add(1);
    Ok(())
}
