//! The calls that insert an element into a `SmallSet`.
ghost use Rattle.std.specs.Hash.{HashWrites};
ghost use Rattle.std.specs.Prelude.{◌≡◌, false, not, true, IfErr, IfOk, IsOk, OnErr, OnOk, Some, is_some};
ghost use Rattle.starlark_hash.specs.HashValue.{hash_of, key_of};
ghost use Rattle.starlark_hash.specs.Hasher.{own_hash};
ghost use Rattle.starlark_hash.specs.Lookup.{found, Writes};
ghost use Rattle.starlark_small.specs.Insert.{Inserts, IsInserted, IsRefused, IsRefusedInsertion, LeavesMemory};
ghost use Rattle.starlark_small.specs.Lookup.{AreOwn, Updates, contains};
ghost use Rattle.starlark_small.specs.Map.{own_hashed};

use super::SmallSet;
use starlark_hash::{Hashed, NoRoom};
use std::hash::Hash;

impl<T: Eq> SmallSet<T> {
    /// Inserts an element under its own hash, and returns whether it was new. An element that is there stays, and this
    /// one is dropped; a new one is appended. Only a new element is refused, if there is no room and memory is refused.
    #[inline]
    pub fn insert(&mut self, key: T) -> Result<bool, NoRoom<T>>
    where
        T: Hash + Drop,
        // Done: whether the element was lacking comes back. It is there now, and every other element is there if it was.
        ensures is_new { IfOk result (λ is_new. is_new ≡ not (contains T.eq T.hash_input self.old key)) }
        ensures updates { OnOk result (Updates T.eq T.hash_input self.old self.new key (Some tt)) }
        // An element that was there changes nothing.
        ensures there { contains T.eq T.hash_input self.old key ≡ true → IsOk result × (self.new ≡ self.old) }
        // The list now: an element that is there keeps its index, and a new one is appended.
        ensures inserts { OnOk result (Inserts T.eq self.old self.new (own_hashed T.hash_input key) tt) }
        // Elements that are under their own hashes stay so, also if this one is refused.
        ensures own { AreOwn T.hash_input self.old → AreOwn T.hash_input self.new }
        // Refused: only a new element, only without room. It comes back, and elements and hash index are unchanged. The
        // capacity may have grown.
        ensures refused { OnErr result (IsRefusedInsertion T.eq self.old self.new (own_hashed T.hash_input key)) }
        ensures handed_back { IfErr result (λ refused. refused.0 ≡ key) }
        // Done or refused: no room is lost, and with room to spare no memory is asked for.
        ensures memory { LeavesMemory T.eq self.old self.new (own_hashed T.hash_input key) }
    {
        match self.insert_hashed(Hashed::new(key)) {
            Ok(is_new) => Ok(is_new),
            Err(NoRoom(element)) => Err(NoRoom(element.into_key())),
        }
    }

    /// Inserts an element under a precomputed hash, and returns whether it was new. An element that is there stays, and
    /// this one is dropped; a new one is appended. Only a new element is refused, if there is no room and memory is
    /// refused. Capacity, room and hash index are left as `SmallMap::insert_hashed` leaves them.
    #[tactic(auto, using(crate::proofs::Additions::additions))]
    pub fn insert_hashed(&mut self, key: Hashed<T>) -> Result<bool, NoRoom<Hashed<T>>>
    where
        T: Drop,
        // Done: whether the element was lacking comes back. It is there now, and every other element is there if it was.
        ensures is_new { IfOk result (λ is_new. is_new ≡ not (is_some (found (T.eq (key_of key)) (hash_of key) self.old.entries))) }
        ensures updates { OnOk result (Writes T.eq (T.eq (key_of key)) (hash_of key) self.old.entries self.new.entries (Some tt)) }
        // An element that was there changes nothing.
        ensures there { is_some (found (T.eq (key_of key)) (hash_of key) self.old.entries) ≡ true → IsOk result × (self.new ≡ self.old) }
        // The list now: an element that is there keeps its index, and a new one is appended.
        ensures inserts { OnOk result (Inserts T.eq self.old self.new key tt) }
        // Elements that are under their own hashes stay so, also if this one is refused.
        ensures own { (feeds : T → HashWrites) → hash_of key ≡ own_hash feeds (key_of key) → AreOwn feeds self.old → AreOwn feeds self.new }
        // Refused: only a new element, only without room. It comes back, and elements and hash index are unchanged. The
        // capacity may have grown.
        ensures refused { OnErr result (IsRefusedInsertion T.eq self.old self.new key) }
        ensures handed_back { IfErr result (λ refused. refused.0 ≡ key) }
        // Done or refused: no room is lost, and with room to spare no memory is asked for.
        ensures memory { LeavesMemory T.eq self.old self.new key }
    {
        match self.map.insert_hashed(key, ()) {
            Ok(old) => Ok(old.is_none()),
            Err(NoRoom((element, ()))) => Err(NoRoom(element)),
        }
    }

    /// Appends a new element under its own hash, without a look-up. The element is refused if there is no room and
    /// memory is refused.
    pub fn insert_unique_unchecked(&mut self, key: T) -> Result<(), NoRoom<T>>
    where
        T: Hash,
        requires { contains T.eq T.hash_input self.old key ≡ false }
        // Done: the element is the last, it is there now, and every other element is there if it was.
        ensures inserted { OnOk result (IsInserted self.old self.new (own_hashed T.hash_input key) tt) }
        ensures updates { OnOk result (Updates T.eq T.hash_input self.old self.new key (Some tt)) }
        // Elements that are under their own hashes stay so, also if this one is refused.
        ensures own { AreOwn T.hash_input self.old → AreOwn T.hash_input self.new }
        // Refused: only without room. The element comes back, and elements and hash index are unchanged. The capacity
        // may have grown.
        ensures refused { OnErr result (IsRefused self.old self.new) }
        ensures full { OnErr result (self.old.room ≡ 0) }
        ensures handed_back { IfErr result (λ refused. refused.0 ≡ key) }
    {
        match self.map.push_own(key, ()) {
            Ok(_index) => Ok(()),
            Err(NoRoom((element, ()))) => Err(NoRoom(element)),
        }
    }

    /// Appends an element that is new under a precomputed hash, without a look-up. The element is refused if there is
    /// no room and memory is refused.
    pub fn insert_hashed_unique_unchecked(
        &mut self,
        key: Hashed<T>,
    ) -> Result<(), NoRoom<Hashed<T>>>
        requires { is_some (found (T.eq (key_of key)) (hash_of key) self.old.entries) ≡ false }
        // Done: the element is the last, it is there now, and every other element is there if it was.
        ensures inserted { OnOk result (IsInserted self.old self.new key tt) }
        ensures updates { OnOk result (Writes T.eq (T.eq (key_of key)) (hash_of key) self.old.entries self.new.entries (Some tt)) }
        // Elements that are under their own hashes stay so, also if this one is refused.
        ensures own { (feeds : T → HashWrites) → hash_of key ≡ own_hash feeds (key_of key) → AreOwn feeds self.old → AreOwn feeds self.new }
        // Refused: only without room. The element comes back, and elements and hash index are unchanged. The capacity
        // may have grown.
        ensures refused { OnErr result (IsRefused self.old self.new) }
        ensures full { OnErr result (self.old.room ≡ 0) }
        ensures handed_back { IfErr result (λ refused. refused.0 ≡ key) }
    {
        match self.map.push(key, ()) {
            Ok(_index) => Ok(()),
            Err(NoRoom((element, ()))) => Err(NoRoom(element)),
        }
    }
}
