//! `retain`.
ghost use Rattle.std.specs.Map.Calls.{CallableOnEachPair, CalledAtPair, RetainsPairs, TakesPair};
ghost use Rattle.std.specs.Prelude.{◌≡◌, ◌≤◌, Bool, Some, filter, is_some, true};
ghost use Rattle.std.specs.Option.{option_map};
ghost use Rattle.starlark_dict.specs.Dict.{dict_len, get, keys, IsUnique, KeepsMemory};
ghost use Rattle.starlark_dict.specs.Retain.{with_each_value};

use super::Dict;
use std::hash::Hash;

impl<K: Eq + Hash + Drop, V: Drop> Dict<K, V> {
    /// Keeps the entries at which the closure answers true, with the value that it leaves, in their order. It is called
    /// once an entry, from the front, its state carried on. No memory is asked for.
    pub fn retain<F: FnMut(&K, &mut V) -> bool>(&mut self, keep: F)
        requires { CallableOnEachPair (CalledAtPair F.FnMut) (TakesPair F.FnMut) keep self.old.entries }
        // Any closure: the map is no longer than it was and has no new key.
        ensures retains { RetainsPairs (CalledAtPair F.FnMut) keep self.old.entries self.new.entries }
        ensures fewer { dict_len self.new ≤ dict_len self.old }
        ensures no_new { (key : K) → is_some (get K.eq self.new key) ≡ true → is_some (get K.eq self.old key) ≡ true }
        // Each call leaves the value: what is found was found. Where each answer is a test of the entry, the map is
        // filtered by it: in any state of the closure (`filtered`), or in its first, where no call changes it
        // (`tested`).
        ensures filtered { (test : K × V → Bool) → ((f : F) (key : K) (value : V) (keeps : Bool) (left : V) (g : F) → CalledAtPair F.FnMut f key value keeps left g → (keeps ≡ test (key, value)) × (left ≡ value)) → self.new.entries ≡ filter test self.old.entries }
        ensures tested { (test : K × V → Bool) → ((key : K) (value : V) (keeps : Bool) (left : V) (g : F) → CalledAtPair F.FnMut keep key value keeps left g → (keeps ≡ test (key, value)) × (left ≡ value) × (g ≡ keep)) → self.new.entries ≡ filter test self.old.entries }
        ensures unwritten { ((f : F) (key : K) (value : V) (keeps : Bool) (left : V) (g : F) → CalledAtPair F.FnMut f key value keeps left g → left ≡ value) → (key : K) (value : V) → get K.eq self.new key ≡ Some value → get K.eq self.old key ≡ Some value }
        // Each call keeps: the keys stay, and each has the value that `written` makes of its entry, or of its old value.
        ensures keys { ((f : F) (key : K) (value : V) (keeps : Bool) (left : V) (g : F) → CalledAtPair F.FnMut f key value keeps left g → keeps ≡ true) → keys self.new ≡ keys self.old }
        ensures there { ((f : F) (key : K) (value : V) (keeps : Bool) (left : V) (g : F) → CalledAtPair F.FnMut f key value keeps left g → keeps ≡ true) → (key : K) → is_some (get K.eq self.new key) ≡ is_some (get K.eq self.old key) }
        ensures written { (written : K × V → V) → ((key : K) (value : V) (keeps : Bool) (left : V) (g : F) → CalledAtPair F.FnMut keep key value keeps left g → (keeps ≡ true) × (left ≡ written (key, value)) × (g ≡ keep)) → self.new.entries ≡ with_each_value written self.old.entries }
        ensures found { (written : V → V) → ((key : K) (value : V) (keeps : Bool) (left : V) (g : F) → CalledAtPair F.FnMut keep key value keeps left g → (keeps ≡ true) × (left ≡ written value) × (g ≡ keep)) → (key : K) → get K.eq self.new key ≡ option_map written (get K.eq self.old key) }
        ensures memory { KeepsMemory self.old self.new }
        ensures unique { IsUnique K.eq self.new }
    {
        self.map.retain(keep);
        prove!(self.map.iter_hashed().len() == self.map.len());
    }
}
