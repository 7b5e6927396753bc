//! The iterators of an `UnorderedMap`. Each is seen as the list of what it has left.
ghost use Rattle.std.specs.Prelude.{◌≡◌, length};
ghost use Rattle.std.specs.Iterator.{at_most};
ghost use Rattle.std.specs.Map.{keys_of, values_of};
ghost use Rattle.std.specs.Map.Iter.{TakesFirst, deref, deref_pair};
ghost use Rattle.starlark_unordered.specs.Iter.{HintsExactly};

use starlark_hash::StarlarkHashValue;
use starlark_table::Iter;
use std::iter::FusedIterator;
use std::marker::Model;

/// The iterator over the pairs of a map, each as `(&K, &V)`.
#[derive(Drop)]
pub struct Entries<'a, K, V> {
    inner: Iter<'a, (K, V), StarlarkHashValue>,
}

impl<'a, K, V> Model for Entries<'a, K, V> {
    ghost use Rattle.std.specs.Prelude.{List};

    ghost Value = { List (K × V) };

    ghost view = { λ it. it.inner };
}

impl<'a, K, V> Entries<'a, K, V> {
    #[inline]
    pub(crate) fn new(inner: Iter<'a, (K, V), StarlarkHashValue>) -> Self
        ensures { result ≡ inner.entry }
    {
        Entries { inner }
    }
}

impl<'a, K, V> Iterator for Entries<'a, K, V> {
    type Item = (&'a K, &'a V);

    ghost next_gives = { TakesFirst deref_pair };

    ghost remaining = { λ rest. at_most (length rest) };

    #[inline]
    fn next(&mut self) -> Option<(&'a K, &'a V)> {
        let pair = self.inner.next()?;
        Some((&pair.0, &pair.1))
    }

    #[inline]
    fn size_hint(&self) -> (usize, Option<usize>)
        ensures hints { HintsExactly (length self.now) result }
    {
        let len = self.len();
        (len, Some(len))
    }
}

impl<'a, K, V> ExactSizeIterator for Entries<'a, K, V> {
    #[inline]
    fn len(&self) -> usize {
        self.inner.len()
    }
}

impl<'a, K, V> FusedIterator for Entries<'a, K, V> {}

/// The iterator over the keys of a map, each by `&`.
#[derive(Drop)]
pub struct KeysUnordered<'a, K, V> {
    inner: Entries<'a, K, V>,
}

impl<'a, K, V> Model for KeysUnordered<'a, K, V> {
    ghost use Rattle.std.specs.Prelude.{List};
    ghost use Rattle.std.specs.Map.{keys_of};

    ghost Value = { List K };

    ghost view = { λ it. keys_of it.inner };
}

impl<'a, K, V> KeysUnordered<'a, K, V> {
    #[inline]
    pub(crate) fn new(inner: Entries<'a, K, V>) -> Self
        ensures { result ≡ keys_of inner.entry }
    {
        KeysUnordered { inner }
    }
}

impl<'a, K, V> Iterator for KeysUnordered<'a, K, V> {
    type Item = &'a K;

    ghost next_gives = { TakesFirst deref };

    ghost remaining = { λ rest. at_most (length rest) };

    #[inline]
    fn next(&mut self) -> Option<&'a K> {
        let (key, _) = self.inner.next()?;
        Some(key)
    }

    #[inline]
    fn size_hint(&self) -> (usize, Option<usize>)
        ensures hints { HintsExactly (length self.now) result }
    {
        let len = self.len();
        (len, Some(len))
    }
}

impl<'a, K, V> ExactSizeIterator for KeysUnordered<'a, K, V> {
    #[inline]
    fn len(&self) -> usize {
        self.inner.len()
    }
}

impl<'a, K, V> FusedIterator for KeysUnordered<'a, K, V> {}

/// The iterator over the values of a map, each by `&`.
#[derive(Drop)]
pub struct ValuesUnordered<'a, K, V> {
    inner: Entries<'a, K, V>,
}

impl<'a, K, V> Model for ValuesUnordered<'a, K, V> {
    ghost use Rattle.std.specs.Prelude.{List};
    ghost use Rattle.std.specs.Map.{values_of};

    ghost Value = { List V };

    ghost view = { λ it. values_of it.inner };
}

impl<'a, K, V> ValuesUnordered<'a, K, V> {
    #[inline]
    pub(crate) fn new(inner: Entries<'a, K, V>) -> Self
        ensures { result ≡ values_of inner.entry }
    {
        ValuesUnordered { inner }
    }
}

impl<'a, K, V> Iterator for ValuesUnordered<'a, K, V> {
    type Item = &'a V;

    ghost next_gives = { TakesFirst deref };

    ghost remaining = { λ rest. at_most (length rest) };

    #[inline]
    fn next(&mut self) -> Option<&'a V> {
        let (_, value) = self.inner.next()?;
        Some(value)
    }

    #[inline]
    fn size_hint(&self) -> (usize, Option<usize>)
        ensures hints { HintsExactly (length self.now) result }
    {
        let len = self.len();
        (len, Some(len))
    }
}

impl<'a, K, V> ExactSizeIterator for ValuesUnordered<'a, K, V> {
    #[inline]
    fn len(&self) -> usize {
        self.inner.len()
    }
}

impl<'a, K, V> FusedIterator for ValuesUnordered<'a, K, V> {}
