//! The calls that remove elements of a `SmallSet`. None of them asks for memory.
ghost use Rattle.std.specs.Hash.{HashWrites};
ghost use Rattle.std.specs.Option.{IfNone, option_map};
ghost use Rattle.std.specs.Prelude.{◌≡◌, ◌+◌, ◌-◌, [], IfSome, IsTrue, None, if◌then◌else◌, is_some, length, slice_get};
ghost use Rattle.starlark_hash.specs.Entries.{entry_key};
ghost use Rattle.starlark_hash.specs.HashValue.{hash_of, key_of};
ghost use Rattle.starlark_hash.specs.Hasher.{own_hash};
ghost use Rattle.starlark_hash.specs.Lookup.{found, Writes};
ghost use Rattle.starlark_small.specs.Lookup.{AreOwn, IsEmpty, contains, get_key};
ghost use Rattle.starlark_small.specs.Map.{KeepsMemory};
ghost use Rattle.starlark_small.specs.Remove.{Removes, RemovesAt, TakesOut};

use super::SmallSet;
use starlark_hash::{Hashed, Query};
use std::hash::Hash;

impl<T: Eq> SmallSet<T> {
    /// Removes the element under the query's own hash that the query stands for, and returns whether it was there. The
    /// index of each later element falls by one. Capacity and hash index stay.
    #[inline]
    pub fn shift_remove<Q: Query<T> + Hash>(&mut self, key: Q) -> bool
    where
        T: Drop,
        // Whether an element was found.
        ensures found { result ≡ contains Q.stands_for Q.hash_input self.old key }
        // The set now, by look-ups and as a list.
        ensures removes { Removes T.eq (Q.stands_for key) (own_hash Q.hash_input key) self.old self.new }
    {
        self.shift_remove_hashed(Hashed::new(key))
    }

    /// Removes the element under this hash that the query stands for, and returns whether it was there. The index of
    /// each later element falls by one. Capacity and hash index stay.
    #[inline]
    pub fn shift_remove_hashed<Q: Query<T>>(&mut self, key: Hashed<Q>) -> bool
    where
        T: Drop,
        // Whether an element was found.
        ensures found { result ≡ is_some (found (Q.stands_for (key_of key)) (hash_of key) self.old.entries) }
        // The set now, by look-ups and as a list.
        ensures removes { Removes T.eq (Q.stands_for (key_of key)) (hash_of key) self.old self.new }
    {
        self.map.shift_remove_hashed(key).is_some()
    }

    /// Removes the element under the query's own hash that the query stands for, and returns it. The index of each
    /// later element falls by one. Capacity and hash index stay.
    #[inline]
    #[tactic(auto, using(crate::proofs::Callers::lookups))]
    pub fn take<Q: Query<T> + Hash>(&mut self, key: Q) -> Option<T>
        // The stored element that was found comes back, and the query stands for it.
        ensures taken { result ≡ get_key Q.stands_for Q.hash_input self.old key }
        ensures there { is_some result ≡ contains Q.stands_for Q.hash_input self.old key }
        ensures equivalent { IfSome result (λ element. IsTrue (Q.stands_for key element)) }
        // The set now, by look-ups and as a list.
        ensures removes { Removes T.eq (Q.stands_for key) (own_hash Q.hash_input key) self.old self.new }
    {
        let (element, ()) = self.map.shift_remove_entry(key)?;
        Some(element)
    }

    /// Removes the element at an index, and returns it. The index of each later element falls by one. Capacity and hash
    /// index stay.
    #[tactic(auto, using(crate::proofs::Lookups::removals))]
    pub fn shift_remove_index(&mut self, i: usize) -> Option<T>
        // The element at the index comes back. It is no longer found, and there is one element less.
        ensures taken { result ≡ option_map entry_key (slice_get self.old.entries i) }
        ensures takes { IfSome result (λ element. TakesOut T.eq self.old self.new element tt) }
        ensures count { length self.old.entries ≡ length self.new.entries + (if is_some result then 1 else 0) }
        // The set now, by look-ups and as a list.
        ensures unchanged { IfNone result (self.new.entries ≡ self.old.entries) }
        ensures removes { RemovesAt self.old self.new i }
    {
        let (element, ()) = self.map.shift_remove_index(i)?;
        Some(element)
    }

    /// Removes the element at an index, and returns it under its hash. The index of each later element falls by one.
    /// Capacity and hash index stay.
    #[tactic(auto, using(crate::proofs::Lookups::removals))]
    pub fn shift_remove_index_hashed(&mut self, i: usize) -> Option<Hashed<T>>
        // The element at the index comes back. It is no longer found, and there is one element less.
        ensures taken { result ≡ option_map (λ e. e.0) (slice_get self.old.entries i) }
        ensures takes { IfSome (option_map key_of result) (λ element. TakesOut T.eq self.old self.new element tt) }
        ensures count { length self.old.entries ≡ length self.new.entries + (if is_some result then 1 else 0) }
        // The set now, by look-ups and as a list.
        ensures updates { IfSome result (λ element. Writes T.eq (T.eq (key_of element)) (hash_of element) self.old.entries self.new.entries None) }
        ensures unchanged { IfNone result (self.new.entries ≡ self.old.entries) }
        ensures removes { RemovesAt self.old self.new i }
    {
        prove!(self.map.iter_hashed().len() == self.map.len());
        let (element, ()) = self.map.shift_remove_index_hashed(i)?;
        Some(element)
    }

    /// Removes the last element, and returns it, or `None` if there is none. Capacity and hash index stay.
    #[tactic(auto, using(crate::proofs::Lookups::removals))]
    pub fn pop(&mut self) -> Option<T>
        // The last element comes back. It is no longer found, and there is one element less.
        ensures taken { result ≡ option_map entry_key (slice_get self.old.entries (length self.old.entries - 1)) }
        ensures takes { IfSome result (λ element. TakesOut T.eq self.old self.new element tt) }
        ensures count { length self.old.entries ≡ length self.new.entries + (if is_some result then 1 else 0) }
        // The set now, by look-ups and as a list.
        ensures unchanged { IfNone result (self.new.entries ≡ self.old.entries) }
        ensures removes { RemovesAt self.old self.new (length self.old.entries - 1) }
    {
        let (element, ()) = self.map.pop()?;
        Some(element)
    }

    /// Removes all elements. Capacity and hash index stay.
    pub fn clear(&mut self)
    where
        T: Drop,
        // No element is left, and none is found.
        ensures entries { self.new.entries ≡ [] }
        ensures lacks { IsEmpty self.new }
        ensures own { (feeds : T → HashWrites) → AreOwn feeds self.new }
        // No room is lost, and capacity and hash index stay.
        ensures kept { KeepsMemory self.old self.new }
    {
        self.map.clear();
    }
}
