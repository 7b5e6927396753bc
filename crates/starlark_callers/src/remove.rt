//! Callers that take entries out of maps.
ghost use Rattle.std.specs.Hash as fed;
ghost use Rattle.std.specs.Option.{option_map};
ghost use Rattle.std.specs.Prelude.{◌+◌, ◌-◌, ◌≡◌, ◌≤◌, IfSome, None, Some, false, filter, if◌then◌else◌, is_some, length, nat_lt, remove, slice_get, true, ℕ};
ghost use Rattle.std.specs.Str.{bytes_eq};
ghost use Rattle.std.specs.String.{string_bytes, string_eq};
ghost use Rattle.std.specs.declared.alloc.Global.{Global};
ghost use Rattle.std.specs.declared.string.String.{String};
ghost use Rattle.starlark_hash.specs.Entries.{entry_value, pair_of};
ghost use Rattle.starlark_small.specs.Lookup.{AreOwn, contains, get};

use starlark_sets::OrderedMap;
use starlark_small::SmallMap;
use std::hash::Hash;

/// Takes a key out.
pub fn forget<K: Eq + Hash + Drop, V: Drop>(map: &mut SmallMap<K, V>, key: &K) -> Option<V>
    ensures was { result ≡ get K.eq K.hash_input map.old key.now }
    ensures here { get K.eq K.hash_input map.new key.now ≡ None }
    ensures others { (other : K) → K.eq key.now other ≡ false → get K.eq K.hash_input map.new other ≡ get K.eq K.hash_input map.old other }
{
    map.shift_remove(key)
}

/// Takes a key out, and answers how many keys are left.
pub fn forget_and_count<K: Eq + Hash + Drop, V: Drop>(map: &mut SmallMap<K, V>, key: &K) -> usize
    ensures count { length map.old.entries ≡ result + (if contains K.eq K.hash_input map.old key.now then 1 else 0) }
{
    let _was = map.shift_remove(key);
    map.len()
}

/// Takes out the string of a text, and answers its value.
pub fn forget_named(map: &mut SmallMap<String, u64>, name: &str) -> Option<u64>
    ensures was { (s : String Global) → string_bytes s ≡ name.now → result ≡ get string_eq (λ s. fed.str (string_bytes s)) map.old s }
    ensures here { (s : String Global) → string_bytes s ≡ name.now → get string_eq (λ s. fed.str (string_bytes s)) map.new s ≡ None }
    ensures others { (s : String Global) → bytes_eq name.now (string_bytes s) ≡ false → get string_eq (λ s. fed.str (string_bytes s)) map.new s ≡ get string_eq (λ s. fed.str (string_bytes s)) map.old s }
{
    map.shift_remove(name)
}

/// Takes the last entry out, and answers it.
pub fn take_last<K: Eq + Hash + Drop, V: Drop>(map: &mut SmallMap<K, V>) -> Option<(K, V)>
    ensures was { AreOwn K.hash_input map.old → IfSome result (λ p. get K.eq K.hash_input map.old p.0 ≡ Some p.1) }
    ensures gone { AreOwn K.hash_input map.old → IfSome result (λ p. get K.eq K.hash_input map.new p.0 ≡ None) }
    ensures others { IfSome result (λ p. (other : K) → K.eq p.0 other ≡ false → get K.eq K.hash_input map.new other ≡ get K.eq K.hash_input map.old other) }
    ensures own { AreOwn K.hash_input map.old → AreOwn K.hash_input map.new }
    ensures count { length map.old.entries ≡ length map.new.entries + (if is_some result then 1 else 0) }
    ensures taken { result ≡ option_map pair_of (slice_get map.old.entries (length map.old.entries - 1)) }
    ensures left { map.new.entries ≡ remove map.old.entries (length map.old.entries - 1) }
{
    map.pop()
}

/// Takes the entry at an index out, and answers it.
pub fn take_at<K: Eq + Hash + Drop, V: Drop>(
    map: &mut SmallMap<K, V>,
    index: usize,
) -> Option<(K, V)>
    ensures was { AreOwn K.hash_input map.old → IfSome result (λ p. get K.eq K.hash_input map.old p.0 ≡ Some p.1) }
    ensures gone { AreOwn K.hash_input map.old → IfSome result (λ p. get K.eq K.hash_input map.new p.0 ≡ None) }
    ensures others { IfSome result (λ p. (other : K) → K.eq p.0 other ≡ false → get K.eq K.hash_input map.new other ≡ get K.eq K.hash_input map.old other) }
    ensures own { AreOwn K.hash_input map.old → AreOwn K.hash_input map.new }
    ensures count { length map.old.entries ≡ length map.new.entries + (if is_some result then 1 else 0) }
    ensures taken { result ≡ option_map pair_of (slice_get map.old.entries index) }
    ensures left { map.new.entries ≡ remove map.old.entries index }
{
    map.shift_remove_index(index)
}

/// Takes all out, and looks for one.
pub fn empty<K: Eq + Hash + Drop, V: Drop>(map: &mut SmallMap<K, V>, key: &K) -> bool
    ensures none { (other : K) → get K.eq K.hash_input map.new other ≡ None }
    ensures looked { result ≡ false }
{
    map.clear();
    map.contains_key(key)
}

/// Keeps the entries whose values are above a bound: no more than there were, none that is new, and each that is found was
/// found with this value.
pub fn keep_above<K: Eq + Hash + Drop>(map: &mut SmallMap<K, u64>, least: u64)
    ensures kept { map.new.entries ≡ filter (λ e. nat_lt least (entry_value e)) map.old.entries }
    ensures fewer { length map.new.entries ≤ length map.old.entries }
    ensures no_new { (key : K) → contains K.eq K.hash_input map.new key ≡ true → contains K.eq K.hash_input map.old key ≡ true }
    ensures found { (key : K) (value : ℕ) → get K.eq K.hash_input map.new key ≡ Some value → get K.eq K.hash_input map.old key ≡ Some value }
{
    map.retain(|_key, value| *value > least);
}

/// Takes a key out of an ordered map, and answers its value.
pub fn forget_in_order<K: Eq + Hash + Drop, V: Drop>(
    map: &mut OrderedMap<K, V>,
    key: &K,
) -> Option<V>
    ensures was { result ≡ get K.eq K.hash_input map.old key.now }
    ensures here { get K.eq K.hash_input map.new key.now ≡ None }
    ensures others { (other : K) → K.eq key.now other ≡ false → get K.eq K.hash_input map.new other ≡ get K.eq K.hash_input map.old other }
{
    map.remove(key)
}
