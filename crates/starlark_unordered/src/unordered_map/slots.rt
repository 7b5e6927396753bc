//! The pairs of an `UnorderedMap` by their slots, for the calls and the entries.
ghost use Rattle.std.specs.Prelude.{◌≡◌, ◌<◌, true, None, Some, IfErr, IfOk, IfSome, OnErr, OnOk};
ghost use Rattle.std.specs.Borrow.{sem};
ghost use Rattle.std.specs.Fn.{CalledAt, TakesAt};
ghost use Rattle.std.specs.Option.{is_some, option_copied, option_map};
ghost use Rattle.starlark_hash.specs.Hasher.{own_hash};
ghost use Rattle.starlark_hash.specs.HashValue.{hash_number, promoted};
ghost use Rattle.starlark_hash.specs.Search.{CanSearch};
ghost use Rattle.starlark_table.specs.Table.{GrowsAsNeeded, item_in};
ghost use Rattle.starlark_table.specs.Layout.{IsVacancy};
ghost use Rattle.starlark_unordered.specs.Insert.{AddsPair, IsRefusedPair};
ghost use Rattle.starlark_unordered.specs.Lookup.{found, get};
ghost use Rattle.starlark_unordered.specs.Remove.{TakesSlot};
ghost use Rattle.starlark_unordered.specs.Pairs.{pairs_of, keys_under, under_own, IsSlotOf};
ghost use Rattle.starlark_unordered.specs.RawEntry.{Accepts, PutsKey};

use super::UnorderedMap;
use starlark_hash::{HashQuery, NoRoom, Query, StarlarkHashValue};
use std::hash::Hash;
use std::mem;

impl<K: Eq + Hash, V> UnorderedMap<K, V> {
    ghost use Rattle.starlark_unordered.specs.Lend.{lends_value};

    // The slot of the key, found under the query's own hash.
    #[inline(always)]
    pub(crate) fn slot_under<Q: HashQuery<K>>(
        &self,
        hash: StarlarkHashValue,
        query: Q,
    ) -> Option<usize>
        requires { hash ≡ own_hash Q.hash_input query }
        ensures { IsSlotOf (Q.stands_for query) self.now result }
    {
        self.table
            .find(hash, move |p: &(K, V)| query.stands_for(&p.0))
    }

    // The slot of the key that the query stands for, if this is the key's own hash.
    #[inline(always)]
    pub(crate) fn slot_hashed<Q: Query<K>>(
        &self,
        hash: StarlarkHashValue,
        query: Q,
    ) -> Option<usize>
        ensures { IsSlotOf (under_own K.hash_input hash (Q.stands_for query)) self.now result }
    {
        // A hash value has 32 bits, so that no other one has the same promoted hash.
        prove!(hash.get() <= u32::MAX);
        self.table
            .find(hash, move |p: &(K, V)| query.stands_for(&p.0))
    }

    // The pair of the key, found under the query's own hash.
    #[inline(always)]
    pub(super) fn pair_under<Q: HashQuery<K>>(
        &self,
        hash: StarlarkHashValue,
        query: Q,
    ) -> Option<&(K, V)>
        requires { hash ≡ own_hash Q.hash_input query }
        ensures { option_map (λ p. p.1) (option_copied result) ≡ get Q.stands_for self.now query }
    {
        self.table
            .find_item(hash, move |p: &(K, V)| query.stands_for(&p.0))
    }

    // The pair of the key that the query stands for, if this is the key's own hash.
    #[inline(always)]
    pub(super) fn pair_hashed<Q: Query<K>>(
        &self,
        hash: StarlarkHashValue,
        query: Q,
    ) -> Option<&(K, V)>
        ensures { option_map (λ p. p.1) (option_copied result) ≡ found (under_own K.hash_input hash (Q.stands_for query)) (pairs_of self.now) }
    {
        // A hash value has 32 bits, so that no other one has the same promoted hash.
        prove!(hash.get() <= u32::MAX);
        self.table
            .find_item(hash, move |p: &(K, V)| query.stands_for(&p.0))
    }

    // A slot under this hash whose key `is_match` accepts.
    #[inline]
    pub(crate) fn slot_accepted<F: FnMut(&K) -> bool>(
        &self,
        hash: StarlarkHashValue,
        mut is_match: F,
    ) -> Option<usize>
        requires { CanSearch F.FnMut (keys_under K.hash_input hash self.now) is_match }
        ensures accepts { Accepts F.FnMut K.hash_input hash is_match self.now result }
    {
        // A hash value has 32 bits, so that no other one has the same promoted hash.
        prove!(hash.get() <= u32::MAX);
        self.table.find(
            hash,
            |pair: &(K, V)| -> bool
                requires { TakesAt F.FnMut is_match pair.now.0 }
                ensures { CalledAt F.FnMut is_match.entry pair.now.0 result is_match.exit }
            { is_match(&pair.0) },
        )
    }

    // An empty slot for a new key under its own hash, if there is room and the first group shows that no key is the
    // query's. The slot is valid until the next change.
    #[inline(always)]
    pub(crate) fn slot_for_new<Q: HashQuery<K>>(
        &self,
        hash: StarlarkHashValue,
        query: Q,
    ) -> Option<usize>
        requires { hash ≡ own_hash Q.hash_input query }
        ensures room { IfSome result (λ _. 0 < self.now.room) }
        ensures vacant { IfSome result (λ slot. IsVacancy (promoted (hash_number hash)) self.now.slots slot) }
        ensures lacking { IfSome result (λ _. get Q.stands_for self.now query ≡ None) }
    {
        if self.table.room() == 0 {
            return None;
        }
        self.table.vacancy(hash)
    }

    // Inserts a new key under its own hash into a slot that `slot_for_new` returned.
    #[inline(always)]
    pub(crate) fn insert_at(&mut self, hash: StarlarkHashValue, key: K, value: V, slot: usize)
        requires own { hash ≡ own_hash K.hash_input key }
        requires room { 0 < self.old.room }
        requires vacant { IsVacancy (promoted (hash_number hash)) self.old.slots slot }
        requires lacking { get K.eq self.old key ≡ None }
        ensures adds { AddsPair K.eq self.old self.new key value }
        ensures memory { GrowsAsNeeded self.old self.new }
    {
        self.table.insert_at(hash, (key, value), slot);
    }

    // Inserts a new key under its own hash, and returns its slot.
    pub(crate) fn insert_new(
        &mut self,
        hash: StarlarkHashValue,
        key: K,
        value: V,
    ) -> Result<usize, NoRoom<(K, V)>>
        requires own { hash ≡ own_hash K.hash_input key }
        requires lacking { get K.eq self.old key ≡ None }
        ensures placed { IfOk result (λ slot. item_in self.new slot ≡ Some (key, value)) }
        ensures adds { OnOk result (AddsPair K.eq self.old self.new key value) }
        ensures refused { OnErr result (IsRefusedPair K.eq self.old self.new key) }
        ensures handed_back { IfErr result (λ refused. refused.0 ≡ (key, value)) }
        ensures memory { GrowsAsNeeded self.old self.new }
    {
        self.table.insert_unique(hash, (key, value))
    }

    // The value in a slot.
    #[tactic(auto, using(crate::proofs::Keys::full_slots))]
    #[inline]
    pub(crate) fn value_at(&self, slot: usize) -> &V
        requires { is_some (item_in self.now slot) ≡ true }
        ensures { option_map (λ p. p.1) (item_in self.now slot) ≡ Some result.now }
    {
        &self.table.get_unchecked(slot).1
    }

    // The value in a slot, for writing.
    #[tactic(auto, using(crate::proofs::Keys::full_slots))]
    #[inline]
    pub(crate) fn value_at_mut(&mut self, slot: usize) -> &mut V
        requires { is_some (item_in self.old slot) ≡ true }
        ensures* writes_back { sem 𝓛 (lends_value K.row V.row K.Hash self.entry slot result) }
        ensures value { option_map (λ p. p.1) (item_in self.old slot) ≡ Some result.now }
    {
        &mut self.table.get_unchecked_mut(slot).1
    }

    // Removes the pair of a slot.
    #[tactic(auto, using(crate::proofs::Keys::full_slots))]
    pub(crate) fn take_out(&mut self, slot: usize) -> (K, V)
        requires { is_some (item_in self.old slot) ≡ true }
        ensures takes { TakesSlot K.eq self.old self.new slot result }
    {
        let (_, pair) = self.table.remove_unchecked(slot);
        pair
    }

    // The pair in a slot, its value for writing.
    #[tactic(auto, using(crate::proofs::Keys::full_slots))]
    #[inline]
    pub(crate) fn pair_at_mut(&mut self, slot: usize) -> (&K, &mut V)
        requires { is_some (item_in self.old slot) ≡ true }
        ensures* writes_back { sem 𝓛 (lends_value K.row V.row K.Hash self.entry slot result.1) }
        ensures pair { item_in self.old slot ≡ Some (result.0.now, result.1.now) }
    {
        let pair = self.table.get_unchecked_mut(slot);
        (&pair.0, &mut pair.1)
    }

    // Replaces the key in a slot by an equal one, and returns the old one.
    #[tactic(auto, using(crate::proofs::Keys::full_slots))]
    #[inline]
    pub(crate) fn replace_key(&mut self, slot: usize, key: K) -> K
        requires there { is_some (item_in self.old slot) ≡ true }
        requires equal { IfSome (item_in self.old slot) (λ p. K.eq key p.0 ≡ true) }
        ensures puts { PutsKey slot key result self.old self.new }
    {
        let pair = self.table.get_unchecked_mut(slot);
        mem::replace(&mut pair.0, key)
    }
}
