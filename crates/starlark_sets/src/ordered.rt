//! Comparisons of lists of entries, in which the order counts.
ghost use Rattle.std.specs.Prelude.{◌≡◌};
ghost use Rattle.std.specs.Cmp.Lexicographic.{slice_cmp};
ghost use Rattle.std.specs.Ordering.{nat_cmp, on};
ghost use Rattle.starlark_sets.specs.Compare.{number_of, pair_cmp};

use starlark_small::IterHashed;
use std::cmp::Ordering;

// Compares the lists of keys and values.
pub(crate) fn cmp_pairs<K: Ord, V: Ord>(
    mut left: IterHashed<'_, K, V>,
    mut right: IterHashed<'_, K, V>,
) -> Ordering
    ensures { result ≡ slice_cmp (pair_cmp K.cmp V.cmp) left.entry right.entry }
{
    while let Some((key, value)) = left.next() {
        let Some((other_key, other)) = right.next() else {
            return Ordering::Greater;
        };
        let order = key.key().cmp(other_key.key()).then(value.cmp(other));
        if order != Ordering::Equal {
            return order;
        }
    }
    if right.next().is_some() {
        Ordering::Less
    } else {
        Ordering::Equal
    }
}

// Compares the lists of hashes.
pub(crate) fn cmp_hashes<K, V>(
    mut left: IterHashed<'_, K, V>,
    mut right: IterHashed<'_, K, V>,
) -> Ordering
    ensures { result ≡ slice_cmp (on number_of nat_cmp) left.entry right.entry }
{
    while let Some((key, _)) = left.next() {
        let Some((other_key, _)) = right.next() else {
            return Ordering::Greater;
        };
        let order = key.hash().get().cmp(&other_key.hash().get());
        if order != Ordering::Equal {
            return order;
        }
    }
    if right.next().is_some() {
        Ordering::Less
    } else {
        Ordering::Equal
    }
}
