//! The iterators that lend the entries of a `VecMap` by `&`. The model of each is the list of what is left.
ghost use Rattle.std.specs.Prelude.{◌≡◌, length, map, ⊤, IfSome, Some};
ghost use Rattle.std.specs.Iterator.{UpTo, at_most};
ghost use Rattle.std.specs.Iterator.SizeHint.{IsWithinCount};
ghost use Rattle.std.specs.Map.{keys_of, values_of};
ghost use Rattle.std.specs.Map.Iter.{TakesFirst, TakesLast, deref, deref_pair};
ghost use Rattle.starlark_vecmap.specs.EntryList.{entry_of, deref_entry};

use starlark_hash::{Hashed, StarlarkHashValue};
use starlark_vec2::vec2;
use std::alloc::AllocError;
use std::iter::FusedIterator;
use std::marker::Model;
use std::slice;

/// The keys and values of the entries, each as `(&K, &V)`.
#[derive(Drop)]
pub struct Iter<'a, K, V> {
    inner: slice::Iter<'a, (K, V)>,
}

impl<'a, K, V> Model for Iter<'a, K, V> {
    ghost use Rattle.std.specs.Prelude.{List};
    ghost use Rattle.std.specs.Slice.Iter.{iter_rest};

    ghost Value = { List (K × V) };

    ghost view = { λ it. iter_rest it.inner };
}

impl<'a, K, V> Iter<'a, K, V> {
    #[inline]
    pub(super) fn new(pairs: &'a [(K, V)]) -> Self
        ensures { result ≡ pairs.now }
    {
        Iter {
            inner: pairs.iter(),
        }
    }
}

impl<'a, K, V> Iterator for Iter<'a, K, V> {
    type Item = (&'a K, &'a V);

    ghost next_gives = { TakesFirst deref_pair };

    ghost remaining = { λ rest. at_most (length rest) };

    #[inline]
    fn next(&mut self) -> Option<(&'a K, &'a V)> {
        let pair = self.inner.next()?;
        Some((&pair.0, &pair.1))
    }

    #[inline]
    fn size_hint(&self) -> (usize, Option<usize>)
        ensures lower { IsWithinCount result.0 (at_most (length self.now)) }
        ensures upper { IfSome result.1 (UpTo (at_most (length self.now))) }
        ensures exact { result ≡ (length self.now, Some (length self.now)) }
    {
        let len = self.len();
        (len, Some(len))
    }
}

impl<'a, K, V> DoubleEndedIterator for Iter<'a, K, V> {
    ghost next_back_gives = { TakesLast deref_pair };

    #[inline]
    fn next_back(&mut self) -> Option<(&'a K, &'a V)> {
        let pair = self.inner.next_back()?;
        Some((&pair.0, &pair.1))
    }
}

impl<'a, K, V> ExactSizeIterator for Iter<'a, K, V> {
    #[inline]
    fn len(&self) -> usize {
        self.inner.len()
    }
}

impl<'a, K, V> FusedIterator for Iter<'a, K, V> {}

impl<'a, K, V> Clone for Iter<'a, K, V> {
    ghost is_clone = { λ rest copy. copy ≡ rest };

    ghost is_infallible = { λ _. ⊤ };

    #[inline]
    fn clone(&self) -> Result<Self, AllocError> {
        Ok(Iter {
            inner: self.inner.clone()?,
        })
    }
}

/// The entries, each as `(Hashed<&K>, &V)`.
#[derive(Drop)]
pub struct IterHashed<'a, K, V> {
    inner: vec2::Iter<'a, (K, V), u32>,
}

impl<'a, K, V> Model for IterHashed<'a, K, V> {
    ghost use Rattle.std.specs.Prelude.{List, map};
    ghost use Rattle.starlark_hash.specs.Entries.{Entry};
    ghost use Rattle.starlark_vecmap.specs.EntryList.{entry_of};

    ghost Value = { List (Entry K V) };

    ghost view = { λ it. map entry_of it.inner };
}

impl<'a, K, V> IterHashed<'a, K, V> {
    #[inline]
    pub(super) fn new(columns: vec2::Iter<'a, (K, V), u32>) -> Self
        ensures { result ≡ map entry_of columns.entry }
    {
        IterHashed { inner: columns }
    }
}

impl<'a, K, V> Iterator for IterHashed<'a, K, V> {
    type Item = (Hashed<&'a K>, &'a V);

    ghost next_gives = { TakesFirst deref_entry };

    ghost remaining = { λ rest. at_most (length rest) };

    #[inline]
    fn next(&mut self) -> Option<(Hashed<&'a K>, &'a V)> {
        let (pair, hash) = self.inner.next()?;
        let hash = StarlarkHashValue::new_unchecked(*hash);
        Some((Hashed::new_unchecked(hash, &pair.0), &pair.1))
    }

    #[inline]
    fn size_hint(&self) -> (usize, Option<usize>)
        ensures lower { IsWithinCount result.0 (at_most (length self.now)) }
        ensures upper { IfSome result.1 (UpTo (at_most (length self.now))) }
        ensures exact { result ≡ (length self.now, Some (length self.now)) }
    {
        let len = self.len();
        (len, Some(len))
    }
}

impl<'a, K, V> DoubleEndedIterator for IterHashed<'a, K, V> {
    ghost next_back_gives = { TakesLast deref_entry };

    #[inline]
    fn next_back(&mut self) -> Option<(Hashed<&'a K>, &'a V)> {
        let (pair, hash) = self.inner.next_back()?;
        let hash = StarlarkHashValue::new_unchecked(*hash);
        Some((Hashed::new_unchecked(hash, &pair.0), &pair.1))
    }
}

impl<'a, K, V> ExactSizeIterator for IterHashed<'a, K, V> {
    #[inline]
    fn len(&self) -> usize {
        self.inner.len()
    }
}

impl<'a, K, V> FusedIterator for IterHashed<'a, K, V> {}

impl<'a, K, V> Clone for IterHashed<'a, K, V> {
    ghost is_clone = { λ rest copy. copy ≡ rest };

    ghost is_infallible = { λ _. ⊤ };

    #[inline]
    fn clone(&self) -> Result<Self, AllocError> {
        Ok(IterHashed {
            inner: self.inner.clone()?,
        })
    }
}

/// The keys, each as `&K`.
#[derive(Drop)]
pub struct Keys<'a, K, V> {
    inner: Iter<'a, K, V>,
}

impl<'a, K, V> Model for Keys<'a, K, V> {
    ghost use Rattle.std.specs.Prelude.{List};
    ghost use Rattle.std.specs.Map.{keys_of};

    ghost Value = { List K };

    ghost view = { λ it. keys_of it.inner };
}

impl<'a, K, V> Keys<'a, K, V> {
    #[inline]
    pub(super) fn new(pairs: Iter<'a, K, V>) -> Self
        ensures { result ≡ keys_of pairs.entry }
    {
        Keys { inner: pairs }
    }
}

impl<'a, K, V> Iterator for Keys<'a, K, V> {
    type Item = &'a K;

    ghost next_gives = { TakesFirst deref };

    ghost remaining = { λ rest. at_most (length rest) };

    #[inline]
    fn next(&mut self) -> Option<&'a K> {
        let (key, _) = self.inner.next()?;
        Some(key)
    }

    #[inline]
    fn size_hint(&self) -> (usize, Option<usize>)
        ensures lower { IsWithinCount result.0 (at_most (length self.now)) }
        ensures upper { IfSome result.1 (UpTo (at_most (length self.now))) }
        ensures exact { result ≡ (length self.now, Some (length self.now)) }
    {
        let len = self.len();
        (len, Some(len))
    }
}

impl<'a, K, V> DoubleEndedIterator for Keys<'a, K, V> {
    ghost next_back_gives = { TakesLast deref };

    #[inline]
    fn next_back(&mut self) -> Option<&'a K> {
        let (key, _) = self.inner.next_back()?;
        Some(key)
    }
}

impl<'a, K, V> ExactSizeIterator for Keys<'a, K, V> {
    #[inline]
    fn len(&self) -> usize {
        self.inner.len()
    }
}

impl<'a, K, V> FusedIterator for Keys<'a, K, V> {}

impl<'a, K, V> Clone for Keys<'a, K, V> {
    ghost is_clone = { λ rest copy. copy ≡ rest };

    ghost is_infallible = { λ _. ⊤ };

    #[inline]
    fn clone(&self) -> Result<Self, AllocError> {
        Ok(Keys {
            inner: self.inner.clone()?,
        })
    }
}

/// The values, each as `&V`.
#[derive(Drop)]
pub struct Values<'a, K, V> {
    inner: Iter<'a, K, V>,
}

impl<'a, K, V> Model for Values<'a, K, V> {
    ghost use Rattle.std.specs.Prelude.{List};
    ghost use Rattle.std.specs.Map.{values_of};

    ghost Value = { List V };

    ghost view = { λ it. values_of it.inner };
}

impl<'a, K, V> Values<'a, K, V> {
    #[inline]
    pub(super) fn new(pairs: Iter<'a, K, V>) -> Self
        ensures { result ≡ values_of pairs.entry }
    {
        Values { inner: pairs }
    }
}

impl<'a, K, V> Iterator for Values<'a, K, V> {
    type Item = &'a V;

    ghost next_gives = { TakesFirst deref };

    ghost remaining = { λ rest. at_most (length rest) };

    #[inline]
    fn next(&mut self) -> Option<&'a V> {
        let (_, value) = self.inner.next()?;
        Some(value)
    }

    #[inline]
    fn size_hint(&self) -> (usize, Option<usize>)
        ensures lower { IsWithinCount result.0 (at_most (length self.now)) }
        ensures upper { IfSome result.1 (UpTo (at_most (length self.now))) }
        ensures exact { result ≡ (length self.now, Some (length self.now)) }
    {
        let len = self.len();
        (len, Some(len))
    }
}

impl<'a, K, V> DoubleEndedIterator for Values<'a, K, V> {
    ghost next_back_gives = { TakesLast deref };

    #[inline]
    fn next_back(&mut self) -> Option<&'a V> {
        let (_, value) = self.inner.next_back()?;
        Some(value)
    }
}

impl<'a, K, V> ExactSizeIterator for Values<'a, K, V> {
    #[inline]
    fn len(&self) -> usize {
        self.inner.len()
    }
}

impl<'a, K, V> FusedIterator for Values<'a, K, V> {}

impl<'a, K, V> Clone for Values<'a, K, V> {
    ghost is_clone = { λ rest copy. copy ≡ rest };

    ghost is_infallible = { λ _. ⊤ };

    #[inline]
    fn clone(&self) -> Result<Self, AllocError> {
        Ok(Values {
            inner: self.inner.clone()?,
        })
    }
}
