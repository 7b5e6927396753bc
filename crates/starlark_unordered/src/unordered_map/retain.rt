//! `UnorderedMap::retain`.
ghost use Rattle.std.specs.List.Retain.{RetainsInTurn};
ghost use Rattle.std.specs.Option.{option_map};
ghost use Rattle.std.specs.Prelude.{◌≡◌, ◌≤◌, ◌+◌, Bool, IsPermutation, List, filter, length, true};
ghost use Rattle.starlark_table.specs.Table.{table_len};
ghost use Rattle.starlark_unordered.specs.Lookup.{contains, get};
ghost use Rattle.starlark_unordered.specs.Pairs.{pairs_of};
ghost use Rattle.starlark_unordered.specs.Retain.{AnswersTest, AsksPair, CanAskPairs, LeavesChange, TakesPair};

use super::UnorderedMap;
use std::hash::Hash;

impl<K: Eq + Hash, V> UnorderedMap<K, V> {
    /// Keeps the pairs that `keep` accepts, with the value that it left, and removes the others. `keep` is called once on
    /// each pair, in the order of iteration. No memory is asked for, and the room of the removed pairs comes back.
    pub fn retain<F: FnMut(&K, &mut V) -> bool>(&mut self, mut keep: F)
    where
        K: Drop,
        V: Drop,
        requires { CanAskPairs F.FnMut (pairs_of self.old) keep }
        // The pairs that were accepted, with the values that `keep` left. No key is new, and there are at most as many
        // pairs as before.
        ensures kept { (kept : List (K × V)) × RetainsInTurn (AsksPair F.FnMut) keep (pairs_of self.old) kept × IsPermutation kept (pairs_of self.new) }
        ensures no_new { (key : K) → contains K.eq self.new key ≡ true → contains K.eq self.old key ≡ true }
        ensures fewer { length (pairs_of self.new) ≤ length (pairs_of self.old) }
        // Two special cases: `keep` answers a test and writes nothing; `keep` accepts all pairs and changes each value.
        ensures tested { (test : K × V → Bool) → AnswersTest F.FnMut keep test → IsPermutation (filter test (pairs_of self.old)) (pairs_of self.new) }
        ensures changed { (change : V → V) → LeavesChange F.FnMut keep change → (key : K) → get K.eq self.new key ≡ option_map change (get K.eq self.old key) }
        // The room of the removed pairs came back.
        ensures room { table_len self.new + self.new.room ≡ table_len self.old + self.old.room }
    {
        self.table.retain(
            |pair: &mut (K, V)| -> bool
                requires { TakesPair F.FnMut keep pair.old }
                ensures { AsksPair F.FnMut keep.entry pair.old result keep.exit pair.new }
            { keep(&pair.0, &mut pair.1) },
        );
    }
}
