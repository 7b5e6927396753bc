//! Removals from a `SmallMap`. None of them asks for memory.
ghost use Rattle.std.specs.Hash.{HashWrites};
ghost use Rattle.std.specs.Prelude.{◌≡◌, ◌+◌, ◌-◌, ◌<◌, [], slice_get, length, if◌then◌else◌, is_some, IfSome, Some};
ghost use Rattle.std.specs.Option.{option_map};
ghost use Rattle.starlark_hash.specs.Entries.{pair_of};
ghost use Rattle.starlark_hash.specs.Hasher.{own_hash};
ghost use Rattle.starlark_hash.specs.HashValue.{hash_of, key_of};
ghost use Rattle.starlark_hash.specs.Lookup.{found, found_key};
ghost use Rattle.starlark_small.specs.Lookup.{AreOwn, IsEmpty, get, get_key};
ghost use Rattle.starlark_small.specs.Map.{KeepsMemory};
ghost use Rattle.starlark_small.specs.Remove.{Removes, RemovesAt, TakesOut};

use super::SmallMap;
use starlark_hash::{Hashed, Query};
use std::hash::Hash;

impl<K: Eq, V> SmallMap<K, V> {
    /// Removes the entry under this hash whose key the query stands for, drops its key and returns its value. The index
    /// of each later entry falls by one. Capacity and hash index stay.
    #[tactic(auto, using(crate::proofs::CallerLookup::look_ups))]
    pub fn shift_remove_hashed<Q: Query<K>>(&mut self, key: Hashed<Q>) -> Option<V>
    where
        K: Drop,
        // The value that was found comes back.
        ensures value { result ≡ found (Q.stands_for (key_of key)) (hash_of key) self.old.entries }
        // What the map is now, by look-ups and as a list. No room is lost, and capacity and index stay.
        ensures removes { Removes K.eq (Q.stands_for (key_of key)) (hash_of key) self.old self.new }
    {
        let (_, value) = self.shift_remove_hashed_entry(key)?;
        Some(value)
    }

    /// Removes the entry under this hash whose key the query stands for, and returns its key and value. The index of
    /// each later entry falls by one. Capacity and hash index stay.
    #[tactic(auto, using(crate::proofs::CallerLookup::look_ups, crate::proofs::CallerRemove::removed))]
    pub fn shift_remove_hashed_entry<Q: Query<K>>(&mut self, key: Hashed<Q>) -> Option<(K, V)>
        // The key and the value that were found come back.
        ensures key { option_map (λ p. p.0) result ≡ found_key (Q.stands_for (key_of key)) (hash_of key) self.old.entries }
        ensures value { option_map (λ p. p.1) result ≡ found (Q.stands_for (key_of key)) (hash_of key) self.old.entries }
        // What the map is now, by look-ups and as a list. No room is lost, and capacity and index stay.
        ensures removes { Removes K.eq (Q.stands_for (key_of key)) (hash_of key) self.old self.new }
    {
        let index = self.get_index_of_hashed(key)?;
        let (key, value) = self.take_at(index);
        Some((key.into_key(), value))
    }

    /// Removes the entry under the query's own hash whose key the query stands for, drops its key and returns its
    /// value. The index of each later entry falls by one. Without such an entry nothing changes. Capacity and hash
    /// index stay.
    #[inline]
    pub fn shift_remove<Q: Query<K> + Hash>(&mut self, key: Q) -> Option<V>
    where
        K: Drop,
        // The value that was found comes back.
        ensures value { result ≡ get Q.stands_for Q.hash_input self.old key }
        // What the map is now, by look-ups and as a list. No room is lost, and capacity and index stay.
        ensures removes { Removes K.eq (Q.stands_for key) (own_hash Q.hash_input key) self.old self.new }
    {
        self.shift_remove_hashed(Hashed::new(key))
    }

    /// Removes the entry under the query's own hash whose key the query stands for, and returns its key and value. The
    /// index of each later entry falls by one. Capacity and hash index stay.
    #[inline]
    pub fn shift_remove_entry<Q: Query<K> + Hash>(&mut self, key: Q) -> Option<(K, V)>
        // The key and the value that were found come back.
        ensures key { option_map (λ p. p.0) result ≡ get_key Q.stands_for Q.hash_input self.old key }
        ensures value { option_map (λ p. p.1) result ≡ get Q.stands_for Q.hash_input self.old key }
        // What the map is now, by look-ups and as a list. No room is lost, and capacity and index stay.
        ensures removes { Removes K.eq (Q.stands_for key) (own_hash Q.hash_input key) self.old self.new }
    {
        self.shift_remove_hashed_entry(Hashed::new(key))
    }

    /// Removes the entry at an index, and returns its key and value, or `None` past the end. The index of each later
    /// entry falls by one. Capacity and hash index stay.
    pub fn shift_remove_index(&mut self, index: usize) -> Option<(K, V)>
        // The entry that was at the index comes back; there is one entry less.
        ensures taken { result ≡ option_map pair_of (slice_get self.old.entries index) }
        ensures takes { IfSome result (λ p. TakesOut K.eq self.old self.new p.0 p.1) }
        ensures count { length self.old.entries ≡ length self.new.entries + (if is_some result then 1 else 0) }
        // What the map is now, as a list. No room is lost, and capacity and index stay.
        ensures removes { RemovesAt self.old self.new index }
    {
        let (key, value) = self.shift_remove_index_hashed(index)?;
        Some((key.into_key(), value))
    }

    /// Removes the entry at an index, and returns it, or `None` past the end. The index of each later entry falls by
    /// one. Capacity and hash index stay.
    #[tactic(auto, using(std::proofs::lemmas::Grind::common_steps, std::proofs::lemmas::Option::slice_get_past))]
    pub fn shift_remove_index_hashed(&mut self, index: usize) -> Option<(Hashed<K>, V)>
        // The entry that was at the index comes back; there is one entry less.
        ensures taken { result ≡ slice_get self.old.entries index }
        ensures takes { IfSome (option_map pair_of result) (λ p. TakesOut K.eq self.old self.new p.0 p.1) }
        ensures count { length self.old.entries ≡ length self.new.entries + (if is_some result then 1 else 0) }
        // What the map is now, as a list. No room is lost, and capacity and index stay.
        ensures removes { RemovesAt self.old self.new index }
    {
        if index < self.len() {
            Some(self.take_at(index))
        } else {
            None
        }
    }

    /// Removes the last entry, and returns its key and value, or `None` if there is none. Capacity and hash index stay.
    pub fn pop(&mut self) -> Option<(K, V)>
        // Key and value of the last entry come back; there is one entry less. Without entries nothing changes.
        ensures taken { result ≡ option_map pair_of (slice_get self.old.entries (length self.old.entries - 1)) }
        ensures takes { IfSome result (λ p. TakesOut K.eq self.old self.new p.0 p.1) }
        ensures count { length self.old.entries ≡ length self.new.entries + (if is_some result then 1 else 0) }
        // What the map is now, as a list. No room is lost, and capacity and index stay.
        ensures removes { RemovesAt self.old self.new (length self.old.entries - 1) }
    {
        let (key, value) = self.take_last()?;
        Some((key.into_key(), value))
    }

    /// Removes all entries. Capacity and hash index stay for later ones.
    #[tactic(auto, using(std::proofs::lemmas::Grind::common_steps, crate::proofs::CallerOwn::emptied))]
    pub fn clear(&mut self)
    where
        K: Drop,
        V: Drop,
        // No entry is left, and none is found.
        ensures entries { self.new.entries ≡ [] }
        ensures lacks { IsEmpty self.new }
        ensures own { (feeds : K → HashWrites) → AreOwn feeds self.new }
        // No room is lost; capacity and index stay.
        ensures kept { KeepsMemory self.old self.new }
    {
        prove!(self.entries.len() <= self.entries.capacity());
        self.index.clear();
        self.entries.clear();
    }

    // Removes the entry at an index. The index of each later entry falls by one.
    fn take_at(&mut self, index: usize) -> (Hashed<K>, V)
        requires { index < length self.old.entries }
        ensures taken { slice_get self.old.entries index ≡ Some result }
        ensures takes { TakesOut K.eq self.old self.new (key_of result.0) result.1 }
        ensures count { length self.old.entries ≡ length self.new.entries + 1 }
        ensures removes { RemovesAt self.old self.new index }
    {
        prove!(self.entries.len() <= self.entries.capacity());
        self.index.forget(index);
        self.entries.remove(index)
    }

    // Removes the last entry.
    #[inline]
    fn take_last(&mut self) -> Option<(Hashed<K>, V)>
        ensures taken { result ≡ slice_get self.old.entries (length self.old.entries - 1) }
        ensures takes { IfSome (option_map pair_of result) (λ p. TakesOut K.eq self.old self.new p.0 p.1) }
        ensures count { length self.old.entries ≡ length self.new.entries + (if is_some result then 1 else 0) }
        ensures removes { RemovesAt self.old self.new (length self.old.entries - 1) }
    {
        prove!(self.entries.len() <= self.entries.capacity());
        if self.entries.is_empty() {
            return None;
        }
        self.index.forget_last();
        self.entries.pop()
    }
}
