//! Insertion into an `UnorderedMap`.
ghost use Rattle.std.specs.Prelude.{◌≡◌, ◌+◌, IfErr, IfOk, IsPermutation, OnErr, OnOk, Some, if◌then◌else◌, length};
ghost use Rattle.starlark_hash.specs.Hasher.{own_hash};
ghost use Rattle.starlark_table.specs.Table.{GrowsAsNeeded};
ghost use Rattle.starlark_unordered.specs.Insert.{IsRefusedPair};
ghost use Rattle.starlark_unordered.specs.Lookup.{contains, get, Trades, Updates};
ghost use Rattle.starlark_unordered.specs.Pairs.{pairs_of, with_pair};

use super::UnorderedMap;
use starlark_hash::{NoRoom, StarlarkHashValue};
use std::hash::Hash;
use std::mem;

impl<K: Eq + Hash, V> UnorderedMap<K, V> {
    /// Sets the value at the key. A key that is there is kept and takes the value, and its old value is returned; otherwise
    /// there is one more pair. Only a new key is refused, if there is no room and no memory is found: then key and value
    /// come back, and the map is unchanged. The map grows only at room 0, to room for at most twice its pairs, or for 6.
    #[inline(always)]
    pub fn insert(&mut self, key: K, value: V) -> Result<Option<V>, NoRoom<(K, V)>>
    where
        K: Drop,
        // Done: the key's old value comes back.
        ensures old { IfOk result (λ old. old ≡ get K.eq self.old key) }
        // The key has this value, and each other key what it had. The next clauses say so of the list of pairs, of their
        // number, and of the total weight of the values.
        ensures updates { OnOk result (Updates K.eq self.old self.new key (Some value)) }
        ensures pairs { OnOk result (IsPermutation (with_pair K.eq key value (pairs_of self.old)) (pairs_of self.new)) }
        ensures count { OnOk result (length (pairs_of self.new) ≡ length (pairs_of self.old) + (if contains K.eq self.old key then 0 else 1)) }
        ensures total { OnOk result (Trades self.old self.new (get K.eq self.old key) (Some value)) }
        // Refused: only a new key, only at room 0. Key and value come back, and the map is unchanged.
        ensures refused { OnErr result (IsRefusedPair K.eq self.old self.new key) }
        ensures handed_back { IfErr result (λ refused. refused.0 ≡ (key, value)) }
        // The map grows only for a pair that does not fit.
        ensures memory { GrowsAsNeeded self.old self.new }
    {
        let hash = StarlarkHashValue::new(&key);
        // The first group mostly shows that the key is new, and an empty slot for its pair.
        if let Some(slot) = self.slot_for_new(hash, &key) {
            self.insert_at(hash, key, value, slot);
            return Ok(None);
        }
        self.insert_by_search(hash, key, value)
    }

    // Inserts by a search under the key's own hash. It is not inlined, so that only the test of the first group is.
    #[inline(never)]
    fn insert_by_search(
        &mut self,
        hash: StarlarkHashValue,
        key: K,
        value: V,
    ) -> Result<Option<V>, NoRoom<(K, V)>>
    where
        K: Drop,
        requires { hash ≡ own_hash K.hash_input key }
        ensures old { IfOk result (λ old. old ≡ get K.eq self.old key) }
        ensures updates { OnOk result (Updates K.eq self.old self.new key (Some value)) }
        ensures pairs { OnOk result (IsPermutation (with_pair K.eq key value (pairs_of self.old)) (pairs_of self.new)) }
        ensures count { OnOk result (length (pairs_of self.new) ≡ length (pairs_of self.old) + (if contains K.eq self.old key then 0 else 1)) }
        ensures total { OnOk result (Trades self.old self.new (get K.eq self.old key) (Some value)) }
        ensures refused { OnErr result (IsRefusedPair K.eq self.old self.new key) }
        ensures handed_back { IfErr result (λ refused. refused.0 ≡ (key, value)) }
        ensures memory { GrowsAsNeeded self.old self.new }
    {
        match self.slot_under(hash, &key) {
            Some(slot) => Ok(Some(mem::replace(self.value_at_mut(slot), value))),
            None => match self.insert_new(hash, key, value) {
                Ok(_) => Ok(None),
                Err(refused) => Err(refused),
            },
        }
    }
}
