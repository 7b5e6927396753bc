//! `SmallSet::retain`.
ghost use Rattle.std.specs.Fn.{CalledAt, TakesAt};
ghost use Rattle.std.specs.Hash.{HashWrites};
ghost use Rattle.std.specs.Prelude.{◌≡◌, ◌≤◌, Bool, true, filter, is_some, length};
ghost use Rattle.starlark_hash.specs.HashValue.{hashed};
ghost use Rattle.starlark_hash.specs.declared.hash_value.StarlarkHashValue.{StarlarkHashValue};
ghost use Rattle.starlark_hash.specs.Entries.{Entry, entry_key};
ghost use Rattle.starlark_hash.specs.Lookup.{found};
ghost use Rattle.starlark_small.specs.Lookup.{AreOwn};
ghost use Rattle.starlark_small.specs.Map.{KeepsMemory};
ghost use Rattle.starlark_hash.specs.Retain.{Retains, TakesInTurn};
ghost use Rattle.starlark_sets.specs.Retain.{CalledAtElement, TakesElement};

use super::SmallSet;

impl<T: Eq + Drop> SmallSet<T> {
    /// Keeps the elements for which the closure returns true, in their order. The closure is called once for each
    /// element, from the front, and its state is carried on. A closure that answers by a test of the element filters
    /// the set. No memory is asked for. Capacity and hash index stay.
    pub fn retain<F: FnMut(&T) -> bool>(&mut self, mut keep: F)
        requires { TakesInTurn (CalledAtElement F.FnMut) (TakesElement F.FnMut) keep self.old.entries }
        // Any closure: the set is no longer than before and has no new element, and own hashes stay own.
        ensures entries { Retains (CalledAtElement F.FnMut) keep self.old.entries self.new.entries }
        ensures fewer { length self.new.entries ≤ length self.old.entries }
        ensures no_new { (under : StarlarkHashValue) (element : T) → is_some (found (T.eq element) under self.new.entries) ≡ true → is_some (found (T.eq element) under self.old.entries) ≡ true }
        ensures own { (feeds : T → HashWrites) → AreOwn feeds self.old → AreOwn feeds self.new }
        // If each answer is a test of the element, the set is filtered by it. The answers may be so in any state of the
        // closure (`filtered`), or in its first state, which no call changes (`tested`).
        ensures filtered { (test : T → Bool) → ((f : F) (element : T) (keeps : Bool) (left : F) → CalledAt F.FnMut f element keeps left → keeps ≡ test element) → self.new.entries ≡ filter (λ e. test (entry_key e)) self.old.entries }
        ensures tested { (test : Entry T (Unit {0}) → Bool) → ((element : T) (keeps : Bool) (left : F) → CalledAt F.FnMut keep element keeps left → ((hash : StarlarkHashValue) → keeps ≡ test (hashed hash element, tt)) × (left ≡ keep)) → self.new.entries ≡ filter test self.old.entries }
        // Capacity and hash index stay, and the sum of length and room does not fall.
        ensures kept { KeepsMemory self.old self.new }
    {
        self.map.retain(
            |element: &T, _unit: &mut ()| -> bool
                requires { TakesAt F.FnMut keep element.now }
                ensures { CalledAt F.FnMut keep.entry element.now result keep.exit }
            { keep(element) },
        );
    }
}
