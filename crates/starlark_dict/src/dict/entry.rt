//! The entry of a key in a dictionary, or the lack of one.
ghost use Rattle.std.specs.Prelude.{◌≡◌, ◌<◌, slice_get, None, IfErr, IfOk, OnErr, OnOk, Some};
ghost use Rattle.std.specs.Borrow.{sem};
ghost use Rattle.std.specs.Option.{option_map};
ghost use Rattle.starlark_dict.specs.Dict.{dict_len, get, room};
ghost use Rattle.starlark_hash.specs.HashValue.{hash_of, key_of};
ghost use Rattle.starlark_hash.specs.Hasher.{own_hash};

use super::Dict;
use starlark_hash::{Hashed, NoRoom};
use std::hash::Hash;

/// The entry of a key, or the lack of one. That the entry is there, or is lacking, is a fact of the type: no call requires
/// anything but that its closure may be called. What is written through an entry is the value at its key, and all else of
/// the dictionary stays. Let go, it leaves the dictionary as it is.
#[derive(Drop)]
pub enum Entry<'a, K: Eq + Hash, V> {
    /// The dictionary has the key.
    Occupied(OccupiedEntry<'a, K, V>),
    /// The dictionary lacks the key.
    Vacant(VacantEntry<'a, K, V>),
}

/// An entry that the dictionary has: the lent dictionary, and an index within it.
pub struct OccupiedEntry<'a, K: Eq + Hash, V> {
    dict: &'a mut Dict<K, V>,
    index: usize,
    ghost within: { index < dict_len dict.now },
}

/// A key that the dictionary lacks: the lent dictionary, and the key.
pub struct VacantEntry<'a, K: Eq + Hash, V> {
    dict: &'a mut Dict<K, V>,
    key: Hashed<K>,
    ghost own: { hash_of key ≡ own_hash K.hash_input (key_of key) },
    ghost absent: { get K.eq dict.now (key_of key) ≡ None },
}

impl<K: Eq + Hash, V> Drop for OccupiedEntry<'_, K, V> {
    ghost use Rattle.starlark_dict.specs.Entry.{occupied_dict};

    // The dictionary ends as the entry has left it.
    fn drop(self)
        ensures { self.exit.0.now ≡ (occupied_dict self.entry).now }
    {
        let OccupiedEntry {
            dict: _dict,
            index: _index,
        } = self;
    }
}

impl<K: Eq + Hash + Drop, V> Drop for VacantEntry<'_, K, V> {
    ghost use Rattle.starlark_dict.specs.Entry.{vacant_dict};

    // The dictionary ends as it was.
    fn drop(self)
        ensures { self.exit.0.now ≡ (vacant_dict self.entry).now }
    {
        let VacantEntry {
            dict: _dict,
            key: _key,
        } = self;
    }
}

impl<K: Eq + Hash, V> Dict<K, V> {
    ghost use Rattle.starlark_dict.specs.Entry.{dict_of_entry, lends_new, lends_value, Enters, IsAppended, IsRefused};

    /// The entry of a key, or the lack of one. Where there is one, it keeps its key, and this one is dropped.
    pub fn entry(&mut self, key: K) -> Entry<'_, K, V>
    where
        K: Drop,
        // The entry lends this very dictionary, so what is written through it is written to the dictionary.
        ensures same_dict { (dict_of_entry result).ghost_name ≡ self.entry.ghost_name }
        ensures enters { Enters K.eq self.old key result }
    {
        prove!(self.is_empty() == (self.len() == 0));
        let key = Hashed::new(key);
        if let Some(index) = self.get_index_of_hashed(key.as_ref()) {
            return Entry::Occupied(OccupiedEntry { dict: self, index });
        }
        Entry::Vacant(VacantEntry { dict: self, key })
    }

    // The value at an index, to be written.
    #[inline]
    fn value_at_mut(&mut self, index: usize) -> &mut V
        requires { index < dict_len self.old }
        ensures* writes_back { sem 𝓛 (lends_value K.row V.row K.Hash self.entry index result) }
        ensures value { option_map (λ p. p.1) (slice_get self.old.entries index) ≡ Some result.now }
    {
        self.map.value_at_mut(index)
    }

    // Appends a new key, and returns its index.
    fn push(&mut self, key: Hashed<K>, value: V) -> Result<usize, NoRoom<(K, V)>>
        requires own { hash_of key ≡ own_hash K.hash_input (key_of key) }
        requires absent { get K.eq self.old (key_of key) ≡ None }
        ensures index { IfOk result (λ i. i ≡ dict_len self.old) }
        ensures appended { OnOk result (IsAppended self.old self.new (key_of key) value) }
        ensures refused { OnErr result (IsRefused self.old self.new) }
        ensures full { OnErr result (room self.old ≡ 0) }
        ensures handed_back { IfErr result (λ refused. refused.0 ≡ (key_of key, value)) }
    {
        match self.map.push(key, value) {
            Ok(index) => Ok(index),
            Err(NoRoom((key, value))) => Err(NoRoom((key.into_key(), value))),
        }
    }

    // Appends a new key, and lends its value.
    fn insert_new(&mut self, key: Hashed<K>, value: V) -> Result<&mut V, NoRoom<(K, V)>>
        requires own { hash_of key ≡ own_hash K.hash_input (key_of key) }
        requires absent { get K.eq self.old (key_of key) ≡ None }
        ensures* writes_back { sem 𝓛 (lends_new K.row V.row K.Hash self.entry (key_of key) result) }
        ensures value { IfOk result (λ p. p.now ≡ value) }
        ensures full { OnErr result (room self.old ≡ 0) }
        ensures handed_back { IfErr result (λ refused. refused.0 ≡ (key_of key, value)) }
    {
        match self.push(key, value) {
            Ok(index) => Ok(self.value_at_mut(index)),
            Err(refused) => Err(refused),
        }
    }
}

impl<'a, K: Eq + Hash, V> OccupiedEntry<'a, K, V> {
    ghost use Rattle.starlark_dict.specs.Entry.{occupied_keeps, occupied_lends, stored, written, Occupied, Puts};

    /// The stored key.
    #[inline]
    pub fn key(&self) -> &K
        ensures { option_map (λ p. p.0) (stored self.now) ≡ Some result.now }
    {
        let (key, _) = self.pair();
        key
    }

    /// The value.
    #[inline]
    pub fn get(&self) -> &V
        ensures { option_map (λ p. p.1) (stored self.now) ≡ Some result.now }
    {
        let (_, value) = self.pair();
        value
    }

    /// The value, to be written. The dictionary has what is left in it, and all else stays.
    #[inline]
    pub fn get_mut(&mut self) -> &mut V
        ensures* writes_back { sem 𝓛 (occupied_keeps K.row V.row self.entry result) }
        ensures value { option_map (λ p. p.1) (stored self.old) ≡ Some result.now }
        ensures puts { (value : V) → Puts (Occupied self.old) value (written self.old value) }
    {
        let index = self.index;
        self.dict.value_at_mut(index)
    }

    /// The value, to be written for as long as the dictionary is lent. The dictionary ends with what is left in it, and
    /// all else stays.
    #[inline]
    pub fn into_mut(self) -> &'a mut V
        ensures* writes_back { sem 𝓛 (occupied_lends K.row V.row self.entry result) }
        ensures value { option_map (λ p. p.1) (stored self.entry) ≡ Some result.now }
        ensures puts { (value : V) → Puts (Occupied self.entry) value (written self.entry value) }
    {
        let OccupiedEntry { dict, index } = self;
        dict.value_at_mut(index)
    }

    // The key and the value.
    #[inline]
    fn pair(&self) -> (&K, &V)
        ensures { stored self.now ≡ Some (result.0.now, result.1.now) }
    {
        match self.dict.get_index(self.index) {
            Some(pair) => pair,
            None => unreachable!(),
        }
    }
}

impl<'a, K: Eq + Hash, V> VacantEntry<'a, K, V> {
    ghost use Rattle.starlark_dict.specs.Entry.{lacking_key, vacant_dict, vacant_lends};

    /// The key that the dictionary lacks.
    #[inline]
    pub fn key(&self) -> &K
        ensures { result.now ≡ lacking_key self.now }
    {
        self.key.key()
    }

    /// Inserts the key with this value, and lends the value. The pair is appended, and the dictionary ends with what is
    /// left in the value. With room, capacity and hash index stay. It is refused where there is no room and no memory is
    /// found: then key and value come back, entries and hash index stay, and the capacity may have grown.
    pub fn insert(self, value: V) -> Result<&'a mut V, NoRoom<(K, V)>>
        ensures* writes_back { sem 𝓛 (vacant_lends K.row V.row self.entry result) }
        ensures value { IfOk result (λ p. p.now ≡ value) }
        ensures full { OnErr result (room (vacant_dict self.entry).now ≡ 0) }
        ensures handed_back { IfErr result (λ refused. refused.0 ≡ (lacking_key self.entry, value)) }
    {
        let VacantEntry { dict, key } = self;
        dict.insert_new(key, value)
    }
}

impl<'a, K: Eq + Hash, V> Entry<'a, K, V> {
    ghost use Rattle.std.specs.Map.Calls.{ModifiesValue};
    ghost use Rattle.std.specs.Option.{unwrap_or, UnwrapsOrElse};
    ghost use Rattle.starlark_dict.specs.Dict.{Dict as Entries};
    ghost use Rattle.starlark_dict.specs.Entry.{dict_of_entry, entry_lends, entry_value_of, IsKeyOf, IsModified, IsVacant, Puts, Refuses, ShowsOrGives, TakesItsValue};

    /// The stored key, or the one that the dictionary lacks.
    #[inline]
    pub fn key(&self) -> &K
        ensures { IsKeyOf self.now result.now }
    {
        match self {
            Entry::Occupied(entry) => entry.key(),
            Entry::Vacant(entry) => entry.key(),
        }
    }

    /// The value that is there, to be written, or else this one, inserted as `VacantEntry::insert` does. Where there is
    /// a value, this one is dropped and no memory is asked for.
    pub fn or_insert(self, default: V) -> Result<&'a mut V, NoRoom<(K, V)>>
    where
        V: Drop,
        ensures* writes_back { sem 𝓛 (entry_lends K.row V.row self.entry result) }
        ensures value { ShowsOrGives (λ value. value ≡ default) self.entry result }
        ensures shown { IfOk result (λ p. p.now ≡ unwrap_or (entry_value_of self.entry) default) }
        ensures full { OnErr result (room (dict_of_entry self.entry).now ≡ 0) }
    {
        self.or_insert_with(|| default)
    }

    /// The value that is there, to be written, or else what the closure gives, inserted as `VacantEntry::insert` does.
    /// The closure is called once, before the dictionary grows, and only where there is no value; where there is one, no
    /// memory is asked for.
    pub fn or_insert_with<F: FnOnce() -> V>(self, default: F) -> Result<&'a mut V, NoRoom<(K, V)>>
        requires { IsVacant self → F.pre default }
        ensures* writes_back { sem 𝓛 (entry_lends K.row V.row self.entry result) }
        ensures value { ShowsOrGives (F.post default) self.entry result }
        ensures shown { IfOk result (λ p. UnwrapsOrElse (entry_value_of self.entry) (F.post default) p.now) }
        ensures full { OnErr result (room (dict_of_entry self.entry).now ≡ 0) }
    {
        match self {
            Entry::Occupied(entry) => Ok(entry.into_mut()),
            Entry::Vacant(entry) => entry.insert(default()),
        }
    }

    /// Lends the value that is there, to be written. Where there is none, the default one is inserted as by
    /// `VacantEntry::insert`, and lent. Where there is a value, no memory is asked for.
    pub fn or_default(self) -> Result<&'a mut V, NoRoom<(K, V)>>
    where
        V: Default,
        ensures* writes_back { sem 𝓛 (entry_lends K.row V.row self.entry result) }
        ensures value { ShowsOrGives V.is_default self.entry result }
        ensures shown { IfOk result (λ p. UnwrapsOrElse (entry_value_of self.entry) V.is_default p.now) }
        ensures full { OnErr result (room (dict_of_entry self.entry).now ≡ 0) }
    {
        match self {
            Entry::Occupied(occupied) => Ok(occupied.into_mut()),
            Entry::Vacant(vacant) => vacant.insert(V::default()),
        }
    }

    /// The entry, after the closure was called once at its value, where there is one.
    pub fn and_modify<F: FnOnce(&mut V)>(self, f: F) -> Self
        requires { TakesItsValue F.FnOnce f self }
        ensures same_dict { (dict_of_entry result).ghost_name ≡ (dict_of_entry self.entry).ghost_name }
        ensures modified { IsModified F.FnOnce f self.entry result }
        ensures changed { ModifiesValue F.FnOnce f (entry_value_of self.entry) (entry_value_of result) }
        ensures puts { (value : V) (new : Entries K V) → Puts result value new → Puts self.entry value new }
        ensures refused { (new : Entries K V) → Refuses result new → Refuses self.entry new }
    {
        match self {
            Entry::Occupied(mut entry) => {
                f(entry.get_mut());
                Entry::Occupied(entry)
            }
            Entry::Vacant(entry) => Entry::Vacant(entry),
        }
    }
}
