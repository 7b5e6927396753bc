//! `SmallMap::retain`.
ghost use Rattle.std.specs.Hash.{HashWrites};
ghost use Rattle.std.specs.Option.{is_some, option_map};
ghost use Rattle.std.specs.Prelude.{◌≡◌, ◌≤◌, Bool, Some, true, filter, length};
ghost use Rattle.starlark_hash.specs.declared.hash_value.StarlarkHashValue.{StarlarkHashValue};
ghost use Rattle.starlark_hash.specs.Entries.{Entry, entry_value};
ghost use Rattle.starlark_hash.specs.Lookup.{found};
ghost use Rattle.starlark_small.specs.Lookup.{AreOwn, keys};
ghost use Rattle.starlark_small.specs.Map.{KeepsMemory};
ghost use Rattle.starlark_small.specs.Retain.{with_each_value};
ghost use Rattle.starlark_hash.specs.Retain.{Retains, TakesInTurn, TakesEntry, CalledAtEntry};

use super::SmallMap;

impl<K: Eq + Drop, V: Drop> SmallMap<K, V> {
    /// Keeps the entries for which the closure returns true, with the values that it leaves, in their order. It is
    /// called once for each entry, from the front, each time in the state that the call before left. A closure that
    /// tests the entry and leaves the value filters the list; one that always returns true writes all values. No memory
    /// is asked for. Capacity and hash index stay.
    pub fn retain<F: FnMut(&K, &mut V) -> bool>(&mut self, keep: F)
        requires { TakesInTurn (CalledAtEntry F.FnMut) (TakesEntry F.FnMut) keep self.old.entries }
        // Any closure: the map has no new key, and keys under their own hashes stay so.
        ensures entries { Retains (CalledAtEntry F.FnMut) keep self.old.entries self.new.entries }
        ensures fewer { length self.new.entries ≤ length self.old.entries }
        ensures no_new { (under : StarlarkHashValue) (key : K) → is_some (found (K.eq key) under self.new.entries) ≡ true → is_some (found (K.eq key) under self.old.entries) ≡ true }
        ensures own { (feeds : K → HashWrites) → AreOwn feeds self.old → AreOwn feeds self.new }
        // A closure that leaves the value: what is found was found before. If each answer is a test of the entry, the
        // list is filtered by it. The test answers in any state of the closure (`filtered`), or in its first state,
        // which no call changes (`tested`).
        ensures filtered { (test : Entry K V → Bool) → ((f : F) (e : Entry K V) (keeps : Bool) (d : Entry K V) (left : F) → CalledAtEntry F.FnMut f e keeps d left → (keeps ≡ test e) × (d ≡ e)) → self.new.entries ≡ filter test self.old.entries }
        ensures tested { (test : Entry K V → Bool) → ((e : Entry K V) (keeps : Bool) (d : Entry K V) (left : F) → CalledAtEntry F.FnMut keep e keeps d left → (keeps ≡ test e) × (d ≡ e) × (left ≡ keep)) → self.new.entries ≡ filter test self.old.entries }
        ensures unwritten { ((f : F) (e : Entry K V) (keeps : Bool) (d : Entry K V) (left : F) → CalledAtEntry F.FnMut f e keeps d left → d ≡ e) → (under : StarlarkHashValue) (key : K) (value : V) → found (K.eq key) under self.new.entries ≡ Some value → found (K.eq key) under self.old.entries ≡ Some value }
        // A closure that keeps every entry: the keys stay, and each has the value that `value` makes of its entry, or
        // of its old value.
        ensures keys { ((f : F) (e : Entry K V) (keeps : Bool) (d : Entry K V) (left : F) → CalledAtEntry F.FnMut f e keeps d left → keeps ≡ true) → keys self.new ≡ keys self.old }
        ensures there { ((f : F) (e : Entry K V) (keeps : Bool) (d : Entry K V) (left : F) → CalledAtEntry F.FnMut f e keeps d left → keeps ≡ true) → (under : StarlarkHashValue) (key : K) → is_some (found (K.eq key) under self.new.entries) ≡ is_some (found (K.eq key) under self.old.entries) }
        ensures written { (value : Entry K V → V) → ((e : Entry K V) (keeps : Bool) (d : Entry K V) (left : F) → CalledAtEntry F.FnMut keep e keeps d left → (keeps ≡ true) × (d ≡ (e.0, value e)) × (left ≡ keep)) → self.new.entries ≡ with_each_value value self.old.entries }
        ensures found { (value : V → V) → ((e : Entry K V) (keeps : Bool) (d : Entry K V) (left : F) → CalledAtEntry F.FnMut keep e keeps d left → (keeps ≡ true) × (d ≡ (e.0, value (entry_value e))) × (left ≡ keep)) → (under : StarlarkHashValue) (key : K) → found (K.eq key) under self.new.entries ≡ option_map value (found (K.eq key) under self.old.entries) }
        ensures kept { KeepsMemory self.old self.new }
    {
        prove!(self.entries.len() <= self.entries.capacity());
        self.index.clear();
        self.entries.retain(keep);
        self.index.note_all(&self.entries);
    }
}
