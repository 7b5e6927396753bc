//! Raw entries of a set, found by a query or by a hash and a closure. They are those of its map.
ghost use Rattle.std.specs.Prelude.{◌≡◌, ◌+◌, ◌∷◌, true, Some, None, IfErr, IfSome, IsPermutation, OnErr, OnOk};
ghost use Rattle.std.specs.Borrow.{sem};
ghost use Rattle.std.specs.Option.{is_some};
ghost use Rattle.starlark_hash.specs.HashValue.{hash_of, key_of};
ghost use Rattle.starlark_hash.specs.Hasher.{own_hash};
ghost use Rattle.starlark_hash.specs.Search.{CanSearch, Searches};
ghost use Rattle.starlark_table.specs.Table.{GrowsAsNeeded, item_in, table_len};
ghost use Rattle.starlark_unordered.specs.Insert.{AddsPair, IsRefusedPair};
ghost use Rattle.starlark_unordered.specs.Lookup.{get};
ghost use Rattle.starlark_unordered.specs.Pairs.{pairs_of, keys_under, under_own};
ghost use Rattle.starlark_unordered.specs.RawEntry.{HoldsMap, IsInPlace, NamesSlot};

use super::UnorderedSet;
use crate::unordered_map::UnorderedMap;
use starlark_hash::{HashQuery, Hashed, NoRoom, Query, StarlarkHashValue};
use std::hash::Hash;

/// A set whose slot has still to be chosen. Dropping this leaves the set unchanged.
pub struct RawEntryBuilderMut<'a, T: Eq + Hash> {
    map: &'a mut UnorderedMap<T, ()>,
}

/// The chosen slot, occupied by an element or vacant.
#[derive(Drop)]
pub enum RawEntryMut<'a, T: Eq + Hash> {
    /// An element was found.
    Occupied(RawOccupiedEntryMut<'a, T>),
    /// No element was found.
    Vacant(RawVacantEntryMut<'a, T>),
}

/// An element of the set.
#[derive(Drop)]
pub struct RawOccupiedEntryMut<'a, T: Eq + Hash> {
    map: &'a mut UnorderedMap<T, ()>,
    slot: usize,
    ghost there: { is_some (item_in map.now slot) ≡ true },
}

/// A set in which no element was found. Dropping the entry leaves the set unchanged.
pub struct RawVacantEntryMut<'a, T: Eq + Hash> {
    map: &'a mut UnorderedMap<T, ()>,
}

impl<T: Eq + Hash> Drop for RawEntryBuilderMut<'_, T> {
    // The set ends unchanged.
    fn drop(self)
        ensures { self.exit.0.now ≡ self.entry.map.now }
    {
        let RawEntryBuilderMut { map: _map } = self;
    }
}

impl<T: Eq + Hash> Drop for RawVacantEntryMut<'_, T> {
    // The set ends unchanged.
    fn drop(self)
        ensures { self.exit.0.now ≡ self.entry.map.now }
    {
        let RawVacantEntryMut { map: _map } = self;
    }
}

impl<T: Eq + Hash> UnorderedSet<T> {
    ghost use Rattle.starlark_unordered.specs.SetLend.{lends_entry};

    /// A builder of raw entries of the set, whose slot is chosen by a query, or by a hash and a closure.
    #[inline]
    pub fn raw_entry_mut(&mut self) -> RawEntryBuilderMut<'_, T>
        ensures* writes_back { sem 𝓛 (lends_entry T.row T.Hash self.entry result) }
        ensures set { result.map.now ≡ self.old }
    {
        RawEntryBuilderMut { map: &mut self.map }
    }
}

impl<'a, T: Eq + Hash> RawEntryBuilderMut<'a, T> {
    ghost use Rattle.starlark_unordered.specs.SetRawEntry.{set_of_raw, slot_of_entry};

    /// The element that the query stands for, or a vacant entry if the set lacks it. The set is unchanged.
    #[inline]
    pub fn from_entry<Q: HashQuery<T>>(self, query: Q) -> RawEntryMut<'a, T>
        ensures names { NamesSlot (Q.stands_for query) self.entry.map (set_of_raw result) (slot_of_entry result) }
    {
        let RawEntryBuilderMut { map } = self;
        match map.slot_under(StarlarkHashValue::new(&query), query) {
            Some(slot) => RawEntryMut::Occupied(RawOccupiedEntryMut { map, slot }),
            None => RawEntryMut::Vacant(RawVacantEntryMut { map }),
        }
    }

    /// The element that the query stands for, if the supplied hash is its own, or otherwise a vacant entry. The set is
    /// unchanged.
    #[inline]
    pub fn from_entry_hashed<Q: Query<T>>(self, element: Hashed<Q>) -> RawEntryMut<'a, T>
        ensures names { NamesSlot (under_own T.hash_input (hash_of element) (Q.stands_for (key_of element))) self.entry.map (set_of_raw result) (slot_of_entry result) }
    {
        let RawEntryBuilderMut { map } = self;
        match map.slot_hashed(element.hash(), element.into_key()) {
            Some(slot) => RawEntryMut::Occupied(RawOccupiedEntryMut { map, slot }),
            None => RawEntryMut::Vacant(RawVacantEntryMut { map }),
        }
    }

    /// An element whose own hash this is and which `is_match` accepts. `is_match` is called only on elements of this hash,
    /// at most once on each and in no promised order, until it accepts one; a vacant entry says that it refused them all.
    /// The call requires only that `is_match` may be called on those elements, in the states that its refusals leave. The
    /// set is unchanged.
    pub fn from_hash<F: FnMut(&T) -> bool>(
        self,
        hash: StarlarkHashValue,
        is_match: F,
    ) -> RawEntryMut<'a, T>
        requires { CanSearch F.FnMut (keys_under T.hash_input hash self.map.now) is_match }
        ensures holds { HoldsMap self.entry.map (set_of_raw result) }
        // The slot of an element of this own hash that the closure accepts, or none if it refuses them all.
        ensures found { (last : F) × Searches F.FnMut (keys_under T.hash_input hash self.entry.map.now) is_match (slot_of_entry result) last }
    {
        let RawEntryBuilderMut { map } = self;
        match map.slot_accepted(hash, is_match) {
            Some(slot) => RawEntryMut::Occupied(RawOccupiedEntryMut { map, slot }),
            None => RawEntryMut::Vacant(RawVacantEntryMut { map }),
        }
    }
}

impl<T: Eq + Hash> RawOccupiedEntryMut<'_, T> {
    ghost use Rattle.starlark_unordered.specs.SetRawEntry.{stored_element, with_raw_element};

    /// Removes the element, and returns it. The other elements are unchanged, and the room comes back.
    #[inline]
    pub fn remove(self) -> T
        ensures element { stored_element self.entry ≡ Some result }
        ensures pairs { IsPermutation (pairs_of self.entry.map.now) ((result, tt) ∷ pairs_of self.exit.0.now) }
        ensures room { table_len self.exit.0.now + self.exit.0.now.room ≡ table_len self.entry.map.now + self.entry.map.now.room }
    {
        let slot = self.slot;
        let (element, _) = self.map.take_out(slot);
        element
    }

    /// Replaces the element, and returns the old one. The new element must be equal to it. The other elements and the room
    /// are unchanged.
    #[inline]
    pub fn insert(&mut self, element: T) -> T
        requires { IfSome (stored_element self.old) (λ there. T.eq element there ≡ true) }
        ensures old { stored_element self.old ≡ Some result }
        ensures new { self.new ≡ with_raw_element self.old element }
        ensures shown { stored_element self.new ≡ Some element }
        ensures elements { IsInPlace (result, tt) (element, tt) (pairs_of self.old.map.now) (pairs_of self.new.map.now) }
        ensures room { self.new.map.now.room ≡ self.old.map.now.room }
    {
        let slot = self.slot;
        self.map.replace_key(slot, element)
    }
}

impl<T: Eq + Hash> RawVacantEntryMut<'_, T> {
    /// Inserts an element under its own hash, and lends nothing. The set must lack the element. It is refused if there is
    /// no room and no memory is found: then the element comes back, and the set is unchanged.
    pub fn insert(self, element: T) -> Result<(), NoRoom<T>>
        requires { get T.eq self.map.now element ≡ None }
        // Done: there is one more element.
        ensures adds { OnOk result (AddsPair T.eq self.entry.map.now self.exit.0.now element tt) }
        // Refused: only at room 0. The element comes back, and the set is unchanged.
        ensures refused { OnErr result (IsRefusedPair T.eq self.entry.map.now self.exit.0.now element) }
        ensures handed_back { IfErr result (λ refused. refused.0 ≡ element) }
        // The set grows only for an element that does not fit.
        ensures memory { GrowsAsNeeded self.entry.map.now self.exit.0.now }
    {
        let RawVacantEntryMut { map } = self;
        let hash = StarlarkHashValue::new(&element);
        match map.insert_new(hash, element, ()) {
            Ok(_) => Ok(()),
            Err(NoRoom((element, _))) => Err(NoRoom(element)),
        }
    }

    /// Inserts an element under a supplied hash. The hash must be the element's own, and the set must lack the element. It
    /// is refused if there is no room and no memory is found: then the element comes back with its hash, and the set is
    /// unchanged.
    pub fn insert_hashed(self, element: Hashed<T>) -> Result<(), NoRoom<Hashed<T>>>
        requires own { hash_of element ≡ own_hash T.hash_input (key_of element) }
        requires lacking { get T.eq self.map.now (key_of element) ≡ None }
        // Done: there is one more element.
        ensures adds { OnOk result (AddsPair T.eq self.entry.map.now self.exit.0.now (key_of element) tt) }
        // Refused: only at room 0. The element comes back with its hash, and the set is unchanged.
        ensures refused { OnErr result (IsRefusedPair T.eq self.entry.map.now self.exit.0.now (key_of element)) }
        ensures handed_back { IfErr result (λ refused. refused.0 ≡ element) }
        // The set grows only for an element that does not fit.
        ensures memory { GrowsAsNeeded self.entry.map.now self.exit.0.now }
    {
        let RawVacantEntryMut { map } = self;
        let hash = element.hash();
        match map.insert_new(hash, element.into_key(), ()) {
            Ok(_) => Ok(()),
            Err(NoRoom((element, _))) => Err(NoRoom(Hashed::new_unchecked(hash, element))),
        }
    }
}
