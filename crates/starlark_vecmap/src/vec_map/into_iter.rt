//! The iterators that own the entries of a `VecMap`. The model of each is the list of what is left; dropping it drops
//! that.
ghost use Rattle.std.specs.Prelude.{◌≡◌, length, map, IfSome, Some};
ghost use Rattle.std.specs.Iterator.{UpTo, at_most};
ghost use Rattle.std.specs.Iterator.SizeHint.{IsWithinCount};
ghost use Rattle.std.specs.Map.{keys_of, values_of};
ghost use Rattle.std.specs.Map.Iter.{TakesFirst, TakesLast};
ghost use Rattle.starlark_hash.specs.Entries.{pair_of};
ghost use Rattle.starlark_vecmap.specs.EntryList.{entry_of};

use starlark_hash::{Hashed, StarlarkHashValue};
use starlark_vec2::vec2;
use std::iter::FusedIterator;
use std::marker::Model;

/// The entries, by value.
#[derive(Drop)]
pub struct IntoIterHashed<K, V> {
    inner: vec2::IntoIter<(K, V), u32>,
}

impl<K, V> Model for IntoIterHashed<K, V> {
    ghost use Rattle.std.specs.Prelude.{List, map};
    ghost use Rattle.starlark_hash.specs.Entries.{Entry};
    ghost use Rattle.starlark_vecmap.specs.EntryList.{entry_of};

    ghost Value = { List (Entry K V) };

    ghost view = { λ it. map entry_of it.inner };
}

impl<K, V> IntoIterHashed<K, V> {
    #[inline]
    pub(super) fn new(columns: vec2::IntoIter<(K, V), u32>) -> Self
        ensures { result ≡ map entry_of columns }
    {
        IntoIterHashed { inner: columns }
    }
}

impl<K: Drop, V: Drop> Iterator for IntoIterHashed<K, V> {
    type Item = (Hashed<K>, V);

    ghost next_gives = { TakesFirst (λ item. item) };

    ghost remaining = { λ rest. at_most (length rest) };

    #[inline]
    fn next(&mut self) -> Option<(Hashed<K>, V)> {
        let ((key, value), hash) = self.inner.next()?;
        let hash = StarlarkHashValue::new_unchecked(hash);
        Some((Hashed::new_unchecked(hash, key), value))
    }

    #[inline]
    fn size_hint(&self) -> (usize, Option<usize>)
        ensures lower { IsWithinCount result.0 (at_most (length self.now)) }
        ensures upper { IfSome result.1 (UpTo (at_most (length self.now))) }
        ensures exact { result ≡ (length self.now, Some (length self.now)) }
    {
        let len = self.len();
        (len, Some(len))
    }
}

impl<K: Drop, V: Drop> DoubleEndedIterator for IntoIterHashed<K, V> {
    ghost next_back_gives = { TakesLast (λ item. item) };

    #[inline]
    fn next_back(&mut self) -> Option<(Hashed<K>, V)> {
        let ((key, value), hash) = self.inner.next_back()?;
        let hash = StarlarkHashValue::new_unchecked(hash);
        Some((Hashed::new_unchecked(hash, key), value))
    }
}

impl<K: Drop, V: Drop> ExactSizeIterator for IntoIterHashed<K, V> {
    #[inline]
    fn len(&self) -> usize {
        self.inner.len()
    }
}

impl<K: Drop, V: Drop> FusedIterator for IntoIterHashed<K, V> {}

/// The keys and values of the entries, by value.
#[derive(Drop)]
pub struct IntoIter<K, V> {
    inner: IntoIterHashed<K, V>,
}

impl<K, V> Model for IntoIter<K, V> {
    ghost use Rattle.std.specs.Prelude.{List, map};
    ghost use Rattle.starlark_hash.specs.Entries.{pair_of};

    ghost Value = { List (K × V) };

    ghost view = { λ it. map pair_of it.inner };
}

impl<K, V> IntoIter<K, V> {
    #[inline]
    pub(super) fn new(entries: IntoIterHashed<K, V>) -> Self
        ensures { result ≡ map pair_of entries }
    {
        IntoIter { inner: entries }
    }
}

impl<K: Drop, V: Drop> Iterator for IntoIter<K, V> {
    type Item = (K, V);

    ghost next_gives = { TakesFirst (λ item. item) };

    ghost remaining = { λ rest. at_most (length rest) };

    #[inline]
    fn next(&mut self) -> Option<(K, V)> {
        let (key, value) = self.inner.next()?;
        Some((key.into_key(), value))
    }

    #[inline]
    fn size_hint(&self) -> (usize, Option<usize>)
        ensures lower { IsWithinCount result.0 (at_most (length self.now)) }
        ensures upper { IfSome result.1 (UpTo (at_most (length self.now))) }
        ensures exact { result ≡ (length self.now, Some (length self.now)) }
    {
        let len = self.len();
        (len, Some(len))
    }
}

impl<K: Drop, V: Drop> DoubleEndedIterator for IntoIter<K, V> {
    ghost next_back_gives = { TakesLast (λ item. item) };

    #[inline]
    fn next_back(&mut self) -> Option<(K, V)> {
        let (key, value) = self.inner.next_back()?;
        Some((key.into_key(), value))
    }
}

impl<K: Drop, V: Drop> ExactSizeIterator for IntoIter<K, V> {
    #[inline]
    fn len(&self) -> usize {
        self.inner.len()
    }
}

impl<K: Drop, V: Drop> FusedIterator for IntoIter<K, V> {}

/// The keys, by value.
#[derive(Drop)]
pub struct IntoKeys<K, V> {
    inner: IntoIter<K, V>,
}

impl<K, V> Model for IntoKeys<K, V> {
    ghost use Rattle.std.specs.Prelude.{List};
    ghost use Rattle.std.specs.Map.{keys_of};

    ghost Value = { List K };

    ghost view = { λ it. keys_of it.inner };
}

impl<K, V> IntoKeys<K, V> {
    #[inline]
    pub(super) fn new(pairs: IntoIter<K, V>) -> Self
        ensures { result ≡ keys_of pairs }
    {
        IntoKeys { inner: pairs }
    }
}

impl<K: Drop, V: Drop> Iterator for IntoKeys<K, V> {
    type Item = K;

    ghost next_gives = { TakesFirst (λ item. item) };

    ghost remaining = { λ rest. at_most (length rest) };

    #[inline]
    fn next(&mut self) -> Option<K> {
        let (key, _) = self.inner.next()?;
        Some(key)
    }

    #[inline]
    fn size_hint(&self) -> (usize, Option<usize>)
        ensures lower { IsWithinCount result.0 (at_most (length self.now)) }
        ensures upper { IfSome result.1 (UpTo (at_most (length self.now))) }
        ensures exact { result ≡ (length self.now, Some (length self.now)) }
    {
        let len = self.len();
        (len, Some(len))
    }
}

impl<K: Drop, V: Drop> DoubleEndedIterator for IntoKeys<K, V> {
    ghost next_back_gives = { TakesLast (λ item. item) };

    #[inline]
    fn next_back(&mut self) -> Option<K> {
        let (key, _) = self.inner.next_back()?;
        Some(key)
    }
}

impl<K: Drop, V: Drop> ExactSizeIterator for IntoKeys<K, V> {
    #[inline]
    fn len(&self) -> usize {
        self.inner.len()
    }
}

impl<K: Drop, V: Drop> FusedIterator for IntoKeys<K, V> {}

/// The values, by value.
#[derive(Drop)]
pub struct IntoValues<K, V> {
    inner: IntoIter<K, V>,
}

impl<K, V> Model for IntoValues<K, V> {
    ghost use Rattle.std.specs.Prelude.{List};
    ghost use Rattle.std.specs.Map.{values_of};

    ghost Value = { List V };

    ghost view = { λ it. values_of it.inner };
}

impl<K, V> IntoValues<K, V> {
    #[inline]
    pub(super) fn new(pairs: IntoIter<K, V>) -> Self
        ensures { result ≡ values_of pairs }
    {
        IntoValues { inner: pairs }
    }
}

impl<K: Drop, V: Drop> Iterator for IntoValues<K, V> {
    type Item = V;

    ghost next_gives = { TakesFirst (λ item. item) };

    ghost remaining = { λ rest. at_most (length rest) };

    #[inline]
    fn next(&mut self) -> Option<V> {
        let (_, value) = self.inner.next()?;
        Some(value)
    }

    #[inline]
    fn size_hint(&self) -> (usize, Option<usize>)
        ensures lower { IsWithinCount result.0 (at_most (length self.now)) }
        ensures upper { IfSome result.1 (UpTo (at_most (length self.now))) }
        ensures exact { result ≡ (length self.now, Some (length self.now)) }
    {
        let len = self.len();
        (len, Some(len))
    }
}

impl<K: Drop, V: Drop> DoubleEndedIterator for IntoValues<K, V> {
    ghost next_back_gives = { TakesLast (λ item. item) };

    #[inline]
    fn next_back(&mut self) -> Option<V> {
        let (_, value) = self.inner.next_back()?;
        Some(value)
    }
}

impl<K: Drop, V: Drop> ExactSizeIterator for IntoValues<K, V> {
    #[inline]
    fn len(&self) -> usize {
        self.inner.len()
    }
}

impl<K: Drop, V: Drop> FusedIterator for IntoValues<K, V> {}
