//! `retain`.
ghost use Rattle.std.specs.Fn.{CalledAt, TakesAt};
ghost use Rattle.std.specs.List.Retain.{IsFiltered};
ghost use Rattle.std.specs.Prelude.{◌≡◌, ◌≤◌, Bool, filter, true};
ghost use Rattle.starlark_dict.specs.DictSet.{contains, set_len, IsUnique, KeepsMemory};
ghost use Rattle.starlark_dict.specs.Retain.{CallableOnEach};

use super::DictSet;
use std::hash::Hash;

impl<T: Eq + Hash + Drop> DictSet<T> {
    /// Keeps the elements at which the closure answers true, in their order. It is called once an element, from the
    /// front, its state carried on. No memory is asked for.
    pub fn retain<F: FnMut(&T) -> bool>(&mut self, mut keep: F)
        requires { CallableOnEach F.FnMut keep self.old.keys }
        // Any closure: what stays is what it answered true at, in the old order, so no element is new.
        ensures retains { IsFiltered (CalledAt F.FnMut) keep self.old.keys self.new.keys }
        ensures fewer { set_len self.new ≤ set_len self.old }
        ensures no_new { (element : T) → contains T.eq self.new element ≡ true → contains T.eq self.old element ≡ true }
        // If the closure answers by a fixed test of the element, the set is filtered by that test. `filtered` asks this of
        // the closure in every state; `tested` asks it only in the first state, of a closure that no call changes.
        ensures filtered { (test : T → Bool) → ((f : F) (element : T) (keeps : Bool) (g : F) → CalledAt F.FnMut f element keeps g → keeps ≡ test element) → self.new.keys ≡ filter test self.old.keys }
        ensures tested { (test : T → Bool) → ((element : T) (keeps : Bool) (g : F) → CalledAt F.FnMut keep element keeps g → (keeps ≡ test element) × (g ≡ keep)) → self.new.keys ≡ filter test self.old.keys }
        ensures memory { KeepsMemory self.old self.new }
        ensures unique { IsUnique T.eq self.new }
    {
        self.dict.retain(
            |element: &T, _unit: &mut ()| -> bool
                requires { TakesAt F.FnMut keep element.now }
                ensures { CalledAt F.FnMut keep.entry element.now result keep.exit }
            { keep(element) },
        );
    }
}
