//! The entry of a key in a map, occupied or vacant.
ghost use Rattle.std.specs.Prelude.{◌≡◌, ◌<◌, length, Some, None, IfErr, IfOk, OnErr};
ghost use Rattle.std.specs.Borrow.{sem};
ghost use Rattle.std.specs.Option.{option_map};
ghost use Rattle.starlark_hash.specs.Entries.{entry_key, entry_value, pair_of};
ghost use Rattle.starlark_hash.specs.HashValue.{hash_of, key_of};
ghost use Rattle.starlark_hash.specs.Lookup.{found};

use crate::small_map::SmallMap;
use starlark_hash::{Hashed, NoRoom};
use std::hash::Hash;

/// The entry of a key under a hash, occupied or vacant. Whether the map has the key is a fact of the type, so a call
/// requires only that its closure may be called. A write through the entry changes the value at its index, and nothing
/// else of the map. An entry that is dropped leaves the map as it is.
#[derive(Drop)]
pub enum Entry<'a, K: Eq, V> {
    /// The map has an entry with this hash and an equal key.
    Occupied(OccupiedEntry<'a, K, V>),
    /// The map has no such entry.
    Vacant(VacantEntry<'a, K, V>),
}

/// An entry that the map has. It holds the lent map, and an index below the length of its list.
pub struct OccupiedEntry<'a, K: Eq, V> {
    map: &'a mut SmallMap<K, V>,
    index: usize,
    ghost within: { index < length map.now.entries },
}

/// A key that the map lacks. It holds the lent map, and the key with its hash.
pub struct VacantEntry<'a, K: Eq, V> {
    map: &'a mut SmallMap<K, V>,
    key: Hashed<K>,
    ghost absent: { found (K.eq (key_of key)) (hash_of key) map.now.entries ≡ None },
}

impl<K: Eq, V> Drop for OccupiedEntry<'_, K, V> {
    ghost use Rattle.starlark_small.specs.MapEntry.{occupied_map};

    // The map ends in the state in which the entry has left it.
    fn drop(self)
        ensures { self.exit.0.now ≡ (occupied_map self.entry).now }
    {
        let OccupiedEntry {
            map: _map,
            index: _index,
        } = self;
    }
}

impl<K: Eq + Drop, V> Drop for VacantEntry<'_, K, V> {
    ghost use Rattle.starlark_small.specs.MapEntry.{vacant_map};

    // The map ends as it was.
    fn drop(self)
        ensures { self.exit.0.now ≡ (vacant_map self.entry).now }
    {
        let VacantEntry {
            map: _map,
            key: _key,
        } = self;
    }
}

impl<K: Eq, V> SmallMap<K, V> {
    ghost use Rattle.starlark_small.specs.Map.{own_hashed};
    ghost use Rattle.starlark_small.specs.MapEntry.{map_of_entry, Enters};

    /// The entry of a key under its own hash. An occupied entry keeps its stored key, and the given key is dropped.
    pub fn entry(&mut self, key: K) -> Entry<'_, K, V>
    where
        K: Hash + Drop,
        // The entry lends this very map, so what is written through it is written to the map.
        ensures same_map { (map_of_entry result).ghost_name ≡ self.entry.ghost_name }
        ensures enters { Enters K.eq self.old (own_hashed K.hash_input key) result }
    {
        self.entry_hashed(Hashed::new(key))
    }

    /// The entry of a key under a precomputed hash. An occupied entry keeps its stored key, and the given key is
    /// dropped.
    pub fn entry_hashed(&mut self, key: Hashed<K>) -> Entry<'_, K, V>
    where
        K: Drop,
        // The entry lends this very map, so what is written through it is written to the map.
        ensures same_map { (map_of_entry result).ghost_name ≡ self.entry.ghost_name }
        ensures enters { Enters K.eq self.old key result }
    {
        if let Some(index) = self.get_index_of_hashed(key.as_ref()) {
            return Entry::Occupied(OccupiedEntry { map: self, index });
        }
        Entry::Vacant(VacantEntry { map: self, key })
    }
}

impl<K: Eq, V> SmallMap<K, V> {
    ghost use Rattle.starlark_small.specs.Lend.{lends_new};

    // Appends a new key under this hash, and lends its value.
    fn insert_new(&mut self, key: Hashed<K>, value: V) -> Result<&mut V, NoRoom<(Hashed<K>, V)>>
        requires { found (K.eq (key_of key)) (hash_of key) self.old.entries ≡ None }
        ensures* writes_back { sem 𝓛 (lends_new K.row V.row K.PartialEq self.entry key result) }
        ensures value { IfOk result (λ p. p.now ≡ value) }
        ensures full { OnErr result (self.old.room ≡ 0) }
        ensures handed_back { IfErr result (λ refused. refused.0 ≡ (key, value)) }
    {
        match self.push(key, value) {
            Ok(index) => Ok(self.value_at_mut(index)),
            Err(refused) => Err(refused),
        }
    }
}

impl<'a, K: Eq, V> OccupiedEntry<'a, K, V> {
    ghost use Rattle.starlark_small.specs.MapEntry.{occupied_keeps, occupied_lends, stored, written, Occupied, Puts};

    /// The stored key.
    #[inline]
    pub fn key(&self) -> &K
        ensures { option_map entry_key (stored self.now) ≡ Some result.now }
    {
        let (key, _) = self.map.pair_at(self.index);
        key
    }

    /// The value.
    #[inline]
    pub fn get(&self) -> &V
        ensures { option_map entry_value (stored self.now) ≡ Some result.now }
    {
        let (_, value) = self.map.pair_at(self.index);
        value
    }

    /// The value, for writing. The map has what is left in it, and all else is unchanged.
    #[inline]
    pub fn get_mut(&mut self) -> &mut V
        ensures* writes_back { sem 𝓛 (occupied_keeps K.row V.row self.entry result) }
        ensures value { option_map entry_value (stored self.old) ≡ Some result.now }
        ensures puts { (value : V) → Puts (Occupied self.old) value (written self.old value) }
    {
        let index = self.index;
        self.map.value_at_mut(index)
    }

    /// The value, for writing as long as the map is lent. The map ends with what is left in it, and all else is
    /// unchanged.
    #[inline]
    pub fn into_mut(self) -> &'a mut V
        ensures* writes_back { sem 𝓛 (occupied_lends K.row V.row self.entry result) }
        ensures value { option_map entry_value (stored self.entry) ≡ Some result.now }
        ensures puts { (value : V) → Puts (Occupied self.entry) value (written self.entry value) }
    {
        let OccupiedEntry { map, index } = self;
        map.value_at_mut(index)
    }

    /// The stored key, and the value for writing. The map has what is left in the value, and all else is unchanged.
    #[inline]
    pub fn as_key_and_mut_value(&mut self) -> (&K, &mut V)
        ensures* writes_back { sem 𝓛 (occupied_keeps K.row V.row self.entry result.1) }
        ensures pair { option_map pair_of (stored self.old) ≡ Some (result.0.now, result.1.now) }
        ensures puts { (value : V) → Puts (Occupied self.old) value (written self.old value) }
    {
        let index = self.index;
        self.map.entry_mut(index)
    }
}

impl<'a, K: Eq, V> VacantEntry<'a, K, V> {
    ghost use Rattle.starlark_small.specs.MapEntry.{lacking_key, vacant_lends, vacant_map};

    /// The key that the map lacks.
    #[inline]
    pub fn key(&self) -> &K
        ensures { result.now ≡ key_of (lacking_key self.now) }
    {
        self.key.key()
    }

    /// Appends the key with this value, and lends the value. The map ends with what is left in the value. The insertion
    /// is refused if there is no room and no memory is found: then key and value come back, and entries and hash index
    /// are unchanged. Capacity, room and hash index become what `SmallMap::insert_hashed` makes of them.
    pub fn insert(self, value: V) -> Result<&'a mut V, NoRoom<(Hashed<K>, V)>>
        ensures* writes_back { sem 𝓛 (vacant_lends K.row V.row self.entry result) }
        ensures value { IfOk result (λ p. p.now ≡ value) }
        ensures full { OnErr result ((vacant_map self.entry).now.room ≡ 0) }
        ensures handed_back { IfErr result (λ refused. refused.0 ≡ (lacking_key self.entry, value)) }
    {
        let VacantEntry { map, key } = self;
        map.insert_new(key, value)
    }
}

impl<'a, K: Eq, V> Entry<'a, K, V> {
    ghost use Rattle.std.specs.Map.Calls.{ModifiesValue};
    ghost use Rattle.std.specs.Option.{unwrap_or, UnwrapsOrElse};
    ghost use Rattle.starlark_small.specs.Map.{Map};
    ghost use Rattle.starlark_small.specs.MapEntry.{entry_lends, entry_value_of, map_of_entry, Puts, Refuses, IsKeyOf, IsLeftBy, IsModified, IsVacant, ShowsOrGives, TakesItsValue};

    /// The stored key of an occupied entry, or the key that the map lacks.
    #[inline]
    pub fn key(&self) -> &K
        ensures { IsKeyOf self.now result.now }
    {
        match self {
            Entry::Occupied(entry) => entry.key(),
            Entry::Vacant(entry) => entry.key(),
        }
    }

    /// The value at the key, for writing. A vacant entry inserts `default` in the way of `VacantEntry::insert`; an
    /// occupied one drops it, and asks for no memory.
    pub fn or_insert(self, default: V) -> Result<&'a mut V, NoRoom<(Hashed<K>, V)>>
    where
        V: Drop,
        ensures* writes_back { sem 𝓛 (entry_lends K.row V.row self.entry result) }
        ensures value { ShowsOrGives (λ value. value ≡ default) self.entry result }
        ensures shown { IfOk result (λ p. p.now ≡ unwrap_or (entry_value_of self.entry) default) }
        ensures full { OnErr result ((map_of_entry self.entry).now.room ≡ 0) }
    {
        self.or_insert_with(|| default)
    }

    /// The value at the key, for writing. A vacant entry calls the closure once, before the map grows, and inserts what
    /// it returns in the way of `VacantEntry::insert`. An occupied one does not call it, and asks for no memory.
    pub fn or_insert_with<F: FnOnce() -> V>(
        self,
        default: F,
    ) -> Result<&'a mut V, NoRoom<(Hashed<K>, V)>>
        requires { IsVacant self → F.pre default }
        ensures* writes_back { sem 𝓛 (entry_lends K.row V.row self.entry result) }
        ensures value { ShowsOrGives (F.post default) self.entry result }
        ensures shown { IfOk result (λ p. UnwrapsOrElse (entry_value_of self.entry) (F.post default) p.now) }
        ensures full { OnErr result ((map_of_entry self.entry).now.room ≡ 0) }
    {
        match self {
            Entry::Occupied(entry) => Ok(entry.into_mut()),
            Entry::Vacant(entry) => entry.insert(default()),
        }
    }

    /// The value at the key, for writing. A vacant entry inserts the default value in the way of `VacantEntry::insert`.
    /// An occupied one asks for no memory.
    pub fn or_default(self) -> Result<&'a mut V, NoRoom<(Hashed<K>, V)>>
    where
        V: Default,
        ensures* writes_back { sem 𝓛 (entry_lends K.row V.row self.entry result) }
        ensures value { ShowsOrGives V.is_default self.entry result }
        ensures shown { IfOk result (λ p. UnwrapsOrElse (entry_value_of self.entry) V.is_default p.now) }
        ensures full { OnErr result ((map_of_entry self.entry).now.room ≡ 0) }
    {
        match self {
            Entry::Occupied(occupied) => Ok(occupied.into_mut()),
            Entry::Vacant(vacant) => vacant.insert(V::default()),
        }
    }

    /// Calls the closure once on the value of an occupied entry, and returns the entry. A vacant entry comes back
    /// unchanged.
    pub fn and_modify<F: FnOnce(&mut V)>(self, f: F) -> Self
        requires { TakesItsValue F.FnOnce f self }
        ensures same_map { (map_of_entry result).ghost_name ≡ (map_of_entry self.entry).ghost_name }
        ensures modified { IsModified F.FnOnce f self.entry result }
        ensures changed { ModifiesValue F.FnOnce f (entry_value_of self.entry) (entry_value_of result) }
        ensures left { IsLeftBy F.FnOnce f (entry_value_of self.entry) (entry_value_of result) }
        ensures puts { (value : V) (new : Map K V) → Puts result value new → Puts self.entry value new }
        ensures refused { (new : Map K V) → Refuses result new → Refuses self.entry new }
    {
        match self {
            Entry::Occupied(mut entry) => {
                f(entry.get_mut());
                Entry::Occupied(entry)
            }
            Entry::Vacant(entry) => Entry::Vacant(entry),
        }
    }
}
