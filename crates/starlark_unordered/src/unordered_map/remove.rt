//! Removal from an `UnorderedMap`.
ghost use Rattle.std.specs.Prelude.{◌≡◌, ◌+◌, [], IfNone, IfSome, None, if◌then◌else◌, length};
ghost use Rattle.starlark_table.specs.Table.{table_len};
ghost use Rattle.starlark_unordered.specs.Lookup.{contains, get, IsEmpty, Trades, Writes};
ghost use Rattle.starlark_unordered.specs.Pairs.{pairs_of, IsWithout};

use super::UnorderedMap;
use starlark_hash::{HashQuery, StarlarkHashValue};
use std::hash::Hash;

impl<K: Eq + Hash, V> UnorderedMap<K, V> {
    /// Removes the pair of the key, and returns its value. The other pairs are unchanged, and the room comes back. If the
    /// map lacks the key, nothing changes.
    pub fn remove<Q: HashQuery<K>>(&mut self, query: Q) -> Option<V>
    where
        K: Drop,
        // The key's old value comes back, if it had one.
        ensures value { result ≡ get Q.stands_for self.old query }
        // The key has no value, and each other key what it had. The next clauses say so of the list of pairs, of their
        // number, and of the total weight of the values.
        ensures updates { Writes K.eq (Q.stands_for query) self.old self.new None }
        ensures pairs { IfSome result (λ value. IsWithout (Q.stands_for query) value (pairs_of self.old) (pairs_of self.new)) }
        ensures count { length (pairs_of self.old) ≡ length (pairs_of self.new) + (if contains Q.stands_for self.old query then 1 else 0) }
        ensures total { Trades self.old self.new result None }
        ensures unchanged { IfNone result (self.new ≡ self.old) }
        // The pair's room came back.
        ensures room { table_len self.new + self.new.room ≡ table_len self.old + self.old.room }
    {
        match self.slot_under(StarlarkHashValue::new(&query), query) {
            Some(slot) => {
                let (_key, value) = self.take_out(slot);
                Some(value)
            }
            None => None,
        }
    }

    /// Removes every pair. Their room comes back.
    #[tactic(auto, using(crate::proofs::Callers::callers))]
    pub fn clear(&mut self)
    where
        K: Drop,
        V: Drop,
        ensures empty { pairs_of self.new ≡ [] }
        ensures found { IsEmpty self.new }
        ensures room { self.new.room ≡ table_len self.old + self.old.room }
    {
        self.table.clear();
    }
}
