//! Callers that compare.
ghost use Rattle.std.specs.Prelude.{◌≡◌, length, nat_eq, true};
ghost use Rattle.starlark_hash.specs.Compare.{same_ordered};
ghost use Rattle.starlark_hash.specs.Unit.{same_unit};
ghost use Rattle.starlark_small.specs.Compare.{same_entries};

use starlark_sets::{OrderedMap, SmallSet};

/// Whether two maps have equal entries in one order: if so, they are of one length.
pub fn same(map: &OrderedMap<u32, u64>, other: &OrderedMap<u32, u64>) -> bool
    ensures each { result ≡ same_ordered nat_eq nat_eq map.now.entries other.now.entries }
    ensures count { result ≡ true → length map.now.entries ≡ length other.now.entries }
{
    *map == *other
}

/// Whether two sets have equal elements, in whatever order: if so, they have as many.
pub fn same_set<T: Eq>(set: &SmallSet<T>, other: &SmallSet<T>) -> bool
    ensures each { result ≡ same_entries T.eq same_unit set.now.entries other.now.entries }
    ensures count { result ≡ true → length set.now.entries ≡ length other.now.entries }
{
    *set == *other
}
