//! The mutable iterators over the values of an `UnorderedMap`. Each is seen as the pairs that are left, and the name of its
//! loan.
ghost use Rattle.std.specs.Prelude.{◌≡◌, length};
ghost use Rattle.std.specs.Iterator.{at_most};
ghost use Rattle.std.specs.Map.{values_of};
ghost use Rattle.std.specs.Map.Iter.{TakesFirst};
ghost use Rattle.starlark_table.specs.Lend.{written_through};
ghost use Rattle.starlark_unordered.specs.Iter.{HintsExactly};

use starlark_hash::StarlarkHashValue;
use starlark_table::PairsMut;
use std::iter::FusedIterator;
use std::marker::Model;

/// The mutable iterator over the pairs of a map, each as `(&K, &mut V)`.
pub type EntriesMut<'a, K, V> = PairsMut<'a, K, V, StarlarkHashValue>;

/// The mutable iterator over the values of a map, each by `&mut`.
#[derive(Drop)]
pub struct ValuesUnorderedMut<'a, K, V> {
    inner: EntriesMut<'a, K, V>,
}

impl<'a, K, V> Model for ValuesUnorderedMut<'a, K, V> {
    ghost use Rattle.std.specs.Prelude.{List};
    ghost use Rattle.std.specs.Borrow.{GName};

    ghost Value = { List (K × V) × GName };

    ghost view = { λ it. it.inner };
}

impl<'a, K, V> ValuesUnorderedMut<'a, K, V> {
    #[inline]
    pub(crate) fn new(inner: EntriesMut<'a, K, V>) -> Self
        ensures { result ≡ inner.entry }
    {
        ValuesUnorderedMut { inner }
    }
}

impl<'a, K, V> Iterator for ValuesUnorderedMut<'a, K, V> {
    type Item = &'a mut V;

    ghost next_gives = { λ s r t. TakesFirst written_through (values_of s.0) r (values_of t.0) };

    ghost remaining = { λ s. at_most (length (values_of s.0)) };

    #[inline]
    fn next(&mut self) -> Option<&'a mut V> {
        match self.inner.next() {
            Some((_, value)) => Some(value),
            None => None,
        }
    }

    #[inline]
    fn size_hint(&self) -> (usize, Option<usize>)
        ensures hints { HintsExactly (length (values_of self.now.0)) result }
    {
        let len = self.len();
        (len, Some(len))
    }
}

impl<'a, K, V> ExactSizeIterator for ValuesUnorderedMut<'a, K, V> {
    #[inline]
    fn len(&self) -> usize {
        self.inner.len()
    }
}

impl<'a, K, V> FusedIterator for ValuesUnorderedMut<'a, K, V> {}
