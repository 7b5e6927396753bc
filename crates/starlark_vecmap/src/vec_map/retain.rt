//! `VecMap::retain`.
ghost use Rattle.std.specs.Prelude.{◌≡◌};
ghost use Rattle.starlark_hash.specs.Retain.{Retains, TakesInTurn, TakesEntry, CalledAtEntry};
ghost use Rattle.starlark_vecmap.specs.EntryList.{entry_of};

use super::VecMap;

impl<K: Drop, V: Drop> VecMap<K, V> {
    /// Keeps the entries for which the closure returns true, with the values that it leaves, in their order. It is
    /// called once for each entry, from the front, each time in the state that the call before left. It must be
    /// possible to call it so. The capacity stays.
    pub fn retain<F: FnMut(&K, &mut V) -> bool>(&mut self, mut keep: F)
        requires { TakesInTurn (CalledAtEntry F.FnMut) (TakesEntry F.FnMut) keep self.old.entries }
        ensures entries { Retains (CalledAtEntry F.FnMut) keep self.old.entries self.new.entries }
        ensures capacity { self.new.capacity ≡ self.old.capacity }
    {
        self.columns.retain(
            |pair: &mut (K, V), hash: &mut u32| -> bool
                requires { TakesEntry F.FnMut keep (entry_of (pair.old, hash.old)) }
                ensures { CalledAtEntry F.FnMut keep.entry (entry_of (pair.old, hash.old)) result (entry_of (pair.new, hash.new)) keep.exit }
            { keep(&pair.0, &mut pair.1) },
        );
    }
}
