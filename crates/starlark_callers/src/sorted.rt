//! Callers of sorted maps and sets: what was made ascends, with no walk that says so.
ghost use Rattle.std.specs.Ordering.{is_gt};
ghost use Rattle.std.specs.Prelude.{◌≡◌, All, IfOk, IfSome, Some, false, is_some, length, nat_lt};
ghost use Rattle.starlark_hash.specs.Clone.{IsEqualClone};
ghost use Rattle.starlark_map.specs.Sorted.{AscendsAlong};
ghost use Rattle.starlark_small.specs.Lookup.{AreOwn, contains, get, keys};

use starlark_map::sorted_map::SortedMap;
use starlark_map::sorted_set::SortedSet;
use starlark_map::sorted_vec::SortedVec;
use starlark_sets::SmallSet;
use starlark_small::SmallMap;
use std::alloc::{AllocError, Global};
use std::hash::Hash;

/// Sorts a map: its keys ascend, each has what it had, and keys under their own hashes stay so.
pub fn sorted_of<K: Ord + Hash, V>(map: SmallMap<K, V>) -> Result<SortedMap<K, V>, SmallMap<K, V>>
    ensures along { IfOk result (λ m. AscendsAlong K.cmp (keys m)) }
    ensures same { IfOk result (λ m. (key : K) → get K.eq K.hash_input m key ≡ get K.eq K.hash_input map key) }
    ensures own { AreOwn K.hash_input map → IfOk result (AreOwn K.hash_input) }
{
    match SortedMap::from_small_map(map) {
        Ok(sorted) => Ok(sorted),
        Err(source) => Err(source),
    }
}

/// A sorted map of pairs: its keys ascend, each under its own hash.
pub fn sorted_pairs<K: Ord + Hash + Drop, V: Drop>(
    alloc: Global,
    pairs: Vec<(K, V)>,
) -> Result<SortedMap<K, V>, AllocError>
    ensures along { IfOk result (λ m. AscendsAlong K.cmp (keys m)) }
    ensures own { IfOk result (AreOwn K.hash_input) }
{
    SortedMap::from_iter(alloc, pairs)
}

/// A copy of a sorted map, whose keys ascend too.
pub fn sorted_copy<K: Ord + Hash + Clone, V: Clone>(
    map: &SortedMap<K, V>,
) -> Result<SortedMap<K, V>, AllocError>
    requires { IsEqualClone K.eq K.is_clone }
    ensures along { IfOk result (λ m. AscendsAlong K.cmp (keys m)) }
    ensures own { AreOwn K.hash_input map.now → IfOk result (AreOwn K.hash_input) }
{
    map.clone()
}

/// Sorts a set: its elements ascend, and it has what it had.
pub fn sorted_elements<T: Ord + Hash>(set: SmallSet<T>) -> Result<SortedSet<T>, SmallSet<T>>
    ensures along { IfOk result (λ s. AscendsAlong T.cmp (keys s)) }
    ensures same { IfOk result (λ s. (element : T) → contains T.eq T.hash_input s element ≡ contains T.eq T.hash_input set element) }
{
    let sorted = SortedSet::from_small_set(set)?;
    Ok(sorted)
}

/// The set of the items of a sorted vector, which ascend, each under its own hash.
pub fn sorted_once<T: Ord + Hash + Drop>(items: SortedVec<T>) -> Result<SortedSet<T>, SortedVec<T>>
    ensures along { IfOk result (λ s. AscendsAlong T.cmp (keys s)) }
    ensures own { IfOk result (AreOwn T.hash_input) }
{
    SortedSet::from_sorted_vec(items)
}

/// The first element, than which none is less.
pub fn least<T: Ord + Hash>(set: &SortedSet<T>) -> Option<&T>
    ensures there { is_some result ≡ nat_lt 0 (length set.now.entries) }
    ensures least { IfSome result (λ first. All (λ other. is_gt (T.cmp first.now other) ≡ false) (keys set.now)) }
{
    set.get_index(0)
}

/// Writes a value of a sorted map where there is one. Keys under their own hashes stay so, and the value that is there
/// changes nothing.
pub fn overwrite_sorted<K: Ord + Hash>(map: &mut SortedMap<K, u64>, key: &K, value: u64)
    ensures keys { keys map.new ≡ keys map.old }
    ensures own { AreOwn K.hash_input map.old → AreOwn K.hash_input map.new }
    ensures same { get K.eq K.hash_input map.old key.now ≡ Some value → map.new.entries ≡ map.old.entries }
{
    if let Some(there) = map.get_mut(key) {
        *there = value;
    }
}
