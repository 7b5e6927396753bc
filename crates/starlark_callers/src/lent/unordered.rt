//! Callers of the entries of unordered maps and sets, which they let go or fill.
ghost use Rattle.std.specs.Hash as fed;
ghost use Rattle.std.specs.Option.{IfNone};
ghost use Rattle.std.specs.Prelude.{◌≡◌, nat_eq, not, is_some, false, None, Some, IfErr, IfOk, IfSome, OnErr};
ghost use Rattle.std.specs.Str.{bytes_eq};
ghost use Rattle.std.specs.String.{string_bytes, string_eq};
ghost use Rattle.std.specs.declared.alloc.Global.{Global};
ghost use Rattle.std.specs.declared.string.String.{String};
ghost use Rattle.starlark_hash.specs.HashValue.{hash_of, key_of};
ghost use Rattle.starlark_hash.specs.Hasher.{own_hash};
ghost use Rattle.starlark_unordered.specs.Lookup.{contains, found, get, get_text};
ghost use Rattle.starlark_unordered.specs.Pairs.{pairs_of, under_own, IsSlotOf};
ghost use Rattle.starlark_unordered.specs.RawEntry.{map_of_raw, slot_of_raw, IsRawEntryAt};

use starlark_hash::{HashQuery, Hashed, NoRoom, Query};
use starlark_unordered::unordered_set::RawEntryMut;
use starlark_unordered::{Entry, UnorderedMap, UnorderedSet, raw_entry};
use std::hash::Hash;

/// Whether an unordered map has this key. The entry is let go, or gives the key back, and the map stays.
pub fn has_key<K: Eq + Hash + Drop, V>(map: &mut UnorderedMap<K, V>, key: K) -> bool
    ensures has { result ≡ contains K.eq map.old key }
    ensures unchanged { map.new ≡ map.old }
{
    match map.entry(key) {
        Entry::Occupied(_there) => true,
        Entry::Vacant(lacking) => {
            let _key = lacking.into_key();
            false
        }
    }
}

/// Whether an unordered map has this number. The entries are let go in both arms, and the map stays.
pub fn has_number(map: &mut UnorderedMap<u32, u64>, key: u32) -> bool
    ensures has { result ≡ contains nat_eq map.old key }
    ensures unchanged { map.new ≡ map.old }
{
    match map.entry(key) {
        Entry::Occupied(_there) => true,
        Entry::Vacant(_lacking) => false,
    }
}

/// Puts an element into an unordered set by a raw entry, and says whether it was lacking. Where it is refused, it comes
/// back.
pub fn add_raw<T: Eq + Hash + Drop>(
    set: &mut UnorderedSet<T>,
    element: T,
) -> Result<bool, NoRoom<T>>
    ensures lacking { IfOk result (λ new. new ≡ not (contains T.eq set.old element)) }
    ensures handed_back { IfErr result (λ refused. refused.0 ≡ element) }
    ensures absent { OnErr result (get T.eq set.old element ≡ None) }
{
    match set.raw_entry_mut().from_entry(&element) {
        RawEntryMut::Occupied(_there) => Ok(false),
        RawEntryMut::Vacant(entry) => match entry.insert(element) {
            Ok(()) => Ok(true),
            Err(refused) => Err(refused),
        },
    }
}

/// Whether an unordered set has an element, by its hash and a raw entry.
pub fn has_raw<T: Eq + Hash + Drop>(set: &mut UnorderedSet<T>, element: T) -> bool
    ensures { result ≡ is_some (found (under_own T.hash_input (own_hash T.hash_input element) (T.eq element)) (pairs_of set.old)) }
{
    let hashed = Hashed::new(element);
    match set.raw_entry_mut().from_entry_hashed(hashed.as_ref()) {
        RawEntryMut::Occupied(_there) => true,
        RawEntryMut::Vacant(_lacking) => false,
    }
}

/// Puts the value of a key that an unordered map has, through a raw entry, and answers the one that was there.
pub fn put_raw<K: Eq + Hash, V: Drop>(map: &mut UnorderedMap<K, V>, key: &K, value: V) -> Option<V>
    ensures was { result ≡ get K.eq map.old key.now }
    ensures here { IfSome result (λ _. get K.eq map.new key.now ≡ Some value) }
    ensures others { (other : K) → K.eq key.now other ≡ false → get K.eq map.new other ≡ get K.eq map.old other }
    ensures lacks { IfNone result (map.new ≡ map.old) }
{
    match find_raw(map, key) {
        raw_entry::RawEntryMut::Occupied(mut entry) => Some(entry.insert(value)),
        raw_entry::RawEntryMut::Vacant(_lacking) => None,
    }
}

/// Puts the number of a string that an unordered map has, by its text and a raw entry, and answers the one that was there.
pub fn put_raw_named(map: &mut UnorderedMap<String, u64>, name: &str, value: u64) -> Option<u64>
    ensures was { result ≡ get_text map.old name.now }
    ensures here { IfSome result (λ _. get_text map.new name.now ≡ Some value) }
    ensures others { (other : String Global) → bytes_eq name.now (string_bytes other) ≡ false → get string_eq map.new other ≡ get string_eq map.old other }
    ensures lacks { IfNone result (map.new ≡ map.old) }
{
    match find_raw(map, name) {
        raw_entry::RawEntryMut::Occupied(mut entry) => Some(entry.insert(value)),
        raw_entry::RawEntryMut::Vacant(_lacking) => None,
    }
}

/// The number of a number, by its hash and a raw entry.
pub fn look_up_raw(map: &mut UnorderedMap<u32, u64>, key: u32) -> Option<u64>
    ensures value { result ≡ found (under_own fed.u32 (own_hash fed.u32 key) (nat_eq key)) (pairs_of map.old) }
    ensures unchanged { map.new ≡ map.old }
{
    let hashed = Hashed::new(key);
    match find_raw_hashed(map, hashed.as_ref()) {
        raw_entry::RawEntryMut::Occupied(entry) => Some(*entry.get()),
        raw_entry::RawEntryMut::Vacant(_lacking) => None,
    }
}

// The raw entry that a query names, in one step: a proof does not follow the map from the builder into the entry.
fn find_raw<'a, K: Eq + Hash, V, Q: HashQuery<K>>(
    map: &'a mut UnorderedMap<K, V>,
    query: Q,
) -> raw_entry::RawEntryMut<'a, K, V>
    ensures same_map { (map_of_raw result).ghost_name ≡ map.entry.ghost_name }
    ensures map { (map_of_raw result).now ≡ map.old }
    ensures entry { IsRawEntryAt K.eq (Q.stands_for query) map.old result }
    ensures slot { IsSlotOf (Q.stands_for query) map.old (slot_of_raw result) }
{
    UnorderedMap::raw_entry_mut(map).from_key(query)
}

// The raw entry that a query names under a hash that is brought, in one step.
fn find_raw_hashed<'a, K: Eq + Hash, V, Q: Query<K>>(
    map: &'a mut UnorderedMap<K, V>,
    key: Hashed<Q>,
) -> raw_entry::RawEntryMut<'a, K, V>
    ensures same_map { (map_of_raw result).ghost_name ≡ map.entry.ghost_name }
    ensures map { (map_of_raw result).now ≡ map.old }
    ensures slot { IsSlotOf (under_own K.hash_input (hash_of key) (Q.stands_for (key_of key))) map.old (slot_of_raw result) }
{
    UnorderedMap::raw_entry_mut(map).from_key_hashed(key)
}
