//! The calls of a `SmallSet` that insert an element if it is lacking, and return it or its index.
ghost use Rattle.std.specs.Hash.{HashWrites};
ghost use Rattle.std.specs.Prelude.{◌≡◌, ◌+◌, ◌<◌, length, slice_get, Some, false, true, IfOk, IfSome, IsOk, IsTrue, OnErr, OnOk, if◌then◌else◌};
ghost use Rattle.std.specs.Borrow.{sem};
ghost use Rattle.std.specs.Option.{option_map};
ghost use Rattle.starlark_hash.specs.Entries.{entry_key};
ghost use Rattle.starlark_hash.specs.Hasher.{own_hash};
ghost use Rattle.starlark_small.specs.Lookup.{AreOwn, NamesIndex, UpdatesBy, contains};
ghost use Rattle.starlark_small.specs.Map.{own_hashed};
ghost use Rattle.starlark_sets.specs.Insert.{AnswersIndex, PutsElementFor, ShowsPut, AddsAt, IsShown, Adds};
ghost use Rattle.starlark_sets.specs.Lend.{ends_so};

use super::SmallSet;
use starlark_hash::{Hashed, NoRoom, OwnedQuery};
use starlark_small::SmallMap;
use std::alloc::AllocError;
use std::hash::Hash;

impl<T: Eq> SmallSet<T> {
    /// Returns the equal element that is there under this one's own hash. If there is none, this one is appended and
    /// returned. Only a new element is refused, if there is no room and memory is refused. It comes back, and elements
    /// and hash index are unchanged.
    pub fn get_or_insert(&mut self, value: T) -> Result<&T, NoRoom<T>>
    where
        T: Hash + Drop,
        ensures* set { sem 𝓛 (ends_so T.row T.PartialEq self.entry (λ new. Adds T.eq self.old new (own_hashed T.hash_input value) result)) }
        ensures shows { ShowsPut T.eq self.old (own_hashed T.hash_input value) result }
    {
        let index = self.index_or_push_own(value);
        shown(self.frozen(), index)
    }

    /// Returns the element under the query's own hash that the query stands for. If there is none, the query makes one,
    /// which is appended under that hash. The call is refused only if no such element is there, and either
    /// `to_owned_key` is refused, or there is no room and memory is refused. Then elements and hash index are
    /// unchanged.
    pub fn get_or_insert_owned<Q: OwnedQuery<T> + Hash>(
        &mut self,
        value: Q,
    ) -> Result<&T, AllocError>
    where
        T: Drop,
        ensures* set { sem 𝓛 (ends_so T.row T.PartialEq self.entry (λ new. PutsElementFor T.eq Q.stands_for Q.hash_input self.old new value result)) }
        ensures succeeds { Q.OwnedQuery.is_infallible value → 0 < self.old.room → IsOk result }
    {
        let index = self.index_or_insert_owned(value)?;
        Ok(element_in(&self.map, index))
    }

    // Returns the set by a shared reference, so that it is no longer written.
    fn frozen(&mut self) -> &Self
        ensures* set { sem 𝓛 (ends_so T.row T.PartialEq self.entry (λ new. new ≡ self.old)) }
        ensures now { result.now ≡ self.old }
    {
        self
    }

    // Returns the index of an element, which is appended if it is lacking.
    fn index_or_push(&mut self, element: Hashed<T>) -> Result<usize, NoRoom<Hashed<T>>>
    where
        T: Drop,
        ensures answers { AnswersIndex T.eq self.old self.new element element result }
    {
        match self.map.get_index_of_hashed(element.as_ref()) {
            Some(index) => Ok(index),
            None => match self.map.push(element, ()) {
                Ok(index) => Ok(index),
                Err(NoRoom((element, ()))) => Err(NoRoom(element)),
            },
        }
    }

    // Returns the index of an element under its own hash, which is appended if it is lacking.
    fn index_or_push_own(&mut self, element: T) -> Result<usize, NoRoom<T>>
    where
        T: Hash + Drop,
        ensures answers { AnswersIndex T.eq self.old self.new (own_hashed T.hash_input element) element result }
    {
        match self.index_or_push(Hashed::new(element)) {
            Ok(index) => Ok(index),
            Err(NoRoom(element)) => Err(NoRoom(element.into_key())),
        }
    }
}

impl<T: Eq> SmallSet<T> {
    /// Returns the index of the element under the query's own hash that the query stands for. If there is none, the
    /// query makes one, which is appended under that hash. The call is refused only if no such element is there, and
    /// either `to_owned_key` is refused, or there is no room and memory is refused. Then elements and hash index are
    /// unchanged. Rust's crate has no such call: `get_or_insert_owned` lends the element, and this call returns a
    /// number, so that more can be said of the set.
    pub fn index_or_insert_owned<Q: OwnedQuery<T> + Hash>(
        &mut self,
        query: Q,
    ) -> Result<usize, AllocError>
    where
        T: Drop,
        // Done: a look-up finds the index now, and the query stands for the element there.
        ensures index { IfOk result (λ i. NamesIndex (Q.stands_for query) (own_hash Q.hash_input query) self.new (Some i)) }
        ensures equal { IfOk result (λ i. IfSome (option_map entry_key (slice_get self.new.entries i)) (λ element. IsTrue (Q.stands_for query element))) }
        // The set now: an element that was there changes nothing, and a new one is appended.
        ensures there { contains Q.stands_for Q.hash_input self.old query ≡ true → IsOk result × (self.new ≡ self.old) }
        ensures last { IfOk result (λ i. contains Q.stands_for Q.hash_input self.old query ≡ false → i ≡ length self.old.entries) }
        ensures updates { OnOk result (UpdatesBy T.eq Q.stands_for Q.hash_input self.old self.new query (Some tt)) }
        ensures count { OnOk result (length self.new.entries ≡ length self.old.entries + (if contains Q.stands_for Q.hash_input self.old query then 0 else 1)) }
        // Elements under their own hashes stay so, if the query feeds a hasher what each element feeds that it stands
        // for.
        ensures own { (stored : T → HashWrites) → ((element : T) → IsTrue (Q.stands_for query element) → Q.hash_input query ≡ stored element) → AreOwn stored self.old → AreOwn stored self.new }
        // Refused: only if no such element is there. The elements are unchanged.
        ensures lacking { OnErr result (contains Q.stands_for Q.hash_input self.old query ≡ false) }
        ensures unchanged { OnErr result (self.new.entries ≡ self.old.entries) }
        // With room to spare, a query whose copy is never refused is not refused.
        ensures succeeds { Q.OwnedQuery.is_infallible query → 0 < self.old.room → IsOk result }
        // The whole set, done or refused, with room, capacity and hash index.
        ensures set { AddsAt Q.stands_for (own_hash Q.hash_input query) self.old self.new query result }
    {
        self.index_or_push_for(query)
    }

    // Returns the index of the element that the query finds under its own hash. If there is none, its element is made and
    // appended. On a refusal the elements stay.
    fn index_or_push_for<Q: OwnedQuery<T> + Hash>(&mut self, query: Q) -> Result<usize, AllocError>
    where
        T: Drop,
        ensures set { AddsAt Q.stands_for (own_hash Q.hash_input query) self.old self.new query result }
        ensures succeeds { Q.OwnedQuery.is_infallible query → 0 < self.old.room → IsOk result }
    {
        let query = Hashed::new(query);
        match self.map.get_index_of_hashed(query) {
            Some(index) => Ok(index),
            None => {
                let element = query.owned(self.alloc)?;
                match self.map.push(element, ()) {
                    Ok(index) => Ok(index),
                    Err(_refused) => Err(AllocError),
                }
            }
        }
    }
}

// Returns the element at an index.
fn element_in<T: Eq>(map: &SmallMap<T, ()>, index: usize) -> &T
    requires { index < length map.now.entries }
    ensures { option_map entry_key (slice_get map.now.entries index) ≡ Some result.now }
{
    match map.get_index(index) {
        Some((element, _)) => element,
        None => unreachable!(),
    }
}

// Returns the element at the index, or passes on the refusal.
fn shown<'a, T: Eq>(
    set: &'a SmallSet<T>,
    index: Result<usize, NoRoom<T>>,
) -> Result<&'a T, NoRoom<T>>
    requires { IfOk index (λ i. i < length set.now.entries) }
    ensures { IsShown set.now.entries index result }
{
    match index {
        Ok(index) => match set.get_index(index) {
            Some(element) => Ok(element),
            None => unreachable!(),
        },
        Err(refused) => Err(refused),
    }
}
