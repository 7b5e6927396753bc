//! What takes entries out. None of it asks for memory.
ghost use Rattle.std.specs.Prelude.{◌≡◌, ◌+◌, ◌-◌, is_some, if◌then◌else◌, None, IfSome, remove, slice_get};
ghost use Rattle.std.specs.Option.{option_map};
ghost use Rattle.starlark_dict.specs.Dict.{dict_len, get_by, get_key_by, remove_entry, IsEmpty, KeepsMemory, Updates, UpdatesBy};
ghost use Rattle.starlark_hash.specs.HashValue.{hash_of, key_of};
ghost use Rattle.starlark_hash.specs.Hasher.{own_hash};

use super::Dict;
use starlark_hash::{HashQuery, Hashed};
use std::hash::Hash;

impl<K: Eq + Hash, V> Dict<K, V> {
    /// Removes the key that the query stands for, and returns its value. The index of each later one falls by one.
    #[inline]
    pub fn shift_remove<Q: HashQuery<K>>(&mut self, key: Q) -> Option<V>
    where
        K: Drop,
        ensures value { result ≡ get_by (Q.stands_for key) self.old }
        ensures updates { UpdatesBy K.eq (Q.stands_for key) self.old self.new None }
        ensures entries { self.new.entries ≡ remove_entry (Q.stands_for key) self.old.entries }
        ensures len { dict_len self.new + (if is_some result then 1 else 0) ≡ dict_len self.old }
        ensures memory { KeepsMemory self.old self.new }
    {
        self.shift_remove_hashed(Hashed::new(key))
    }

    /// `shift_remove` by a hash that was computed before, and is the query's own.
    #[inline]
    pub fn shift_remove_hashed<Q: HashQuery<K>>(&mut self, key: Hashed<Q>) -> Option<V>
    where
        K: Drop,
        requires { hash_of key ≡ own_hash Q.hash_input (key_of key) }
        ensures value { result ≡ get_by (Q.stands_for (key_of key)) self.old }
        ensures updates { UpdatesBy K.eq (Q.stands_for (key_of key)) self.old self.new None }
        ensures entries { self.new.entries ≡ remove_entry (Q.stands_for (key_of key)) self.old.entries }
        ensures len { dict_len self.new + (if is_some result then 1 else 0) ≡ dict_len self.old }
        ensures memory { KeepsMemory self.old self.new }
    {
        let (_, value) = self.shift_remove_hashed_entry(key)?;
        Some(value)
    }

    /// Removes the key that the query stands for, and returns the stored key and its value. The index of each later one
    /// falls by one.
    #[inline]
    pub fn shift_remove_entry<Q: HashQuery<K>>(&mut self, key: Q) -> Option<(K, V)>
        ensures key { option_map (λ p. p.0) result ≡ get_key_by (Q.stands_for key) self.old }
        ensures value { option_map (λ p. p.1) result ≡ get_by (Q.stands_for key) self.old }
        ensures updates { UpdatesBy K.eq (Q.stands_for key) self.old self.new None }
        ensures entries { self.new.entries ≡ remove_entry (Q.stands_for key) self.old.entries }
        ensures len { dict_len self.new + (if is_some result then 1 else 0) ≡ dict_len self.old }
        ensures memory { KeepsMemory self.old self.new }
    {
        self.shift_remove_hashed_entry(Hashed::new(key))
    }

    /// `shift_remove_entry` by a hash that was computed before, and is the query's own. The index of each later one
    /// falls by one.
    #[inline]
    pub fn shift_remove_hashed_entry<Q: HashQuery<K>>(&mut self, key: Hashed<Q>) -> Option<(K, V)>
        requires { hash_of key ≡ own_hash Q.hash_input (key_of key) }
        ensures key { option_map (λ p. p.0) result ≡ get_key_by (Q.stands_for (key_of key)) self.old }
        ensures value { option_map (λ p. p.1) result ≡ get_by (Q.stands_for (key_of key)) self.old }
        ensures updates { UpdatesBy K.eq (Q.stands_for (key_of key)) self.old self.new None }
        ensures entries { self.new.entries ≡ remove_entry (Q.stands_for (key_of key)) self.old.entries }
        ensures len { dict_len self.new + (if is_some result then 1 else 0) ≡ dict_len self.old }
        ensures memory { KeepsMemory self.old self.new }
    {
        prove!(self.map.iter_hashed().len() == self.map.len());
        self.map.shift_remove_hashed_entry(key)
    }

    /// Removes the last entry, and returns its key and value.
    #[inline]
    pub fn pop(&mut self) -> Option<(K, V)>
        ensures entry { result ≡ slice_get self.old.entries (dict_len self.old - 1) }
        ensures updates { IfSome result (λ p. Updates K.eq self.old self.new p.0 None) }
        ensures entries { self.new.entries ≡ remove self.old.entries (dict_len self.old - 1) }
        ensures memory { KeepsMemory self.old self.new }
    {
        prove!(self.map.iter_hashed().len() == self.map.len());
        self.map.pop()
    }

    /// Removes each entry. Capacity and hash index stay for those to come.
    #[tactic(auto, using(crate::proofs::OwnPairs::own_pairs))]
    pub fn clear(&mut self)
    where
        K: Drop,
        V: Drop,
        ensures empty { IsEmpty self.new }
        ensures memory { KeepsMemory self.old self.new }
    {
        self.map.clear()
    }
}
