//! The iterators of a `SmallSet`. A contract sees each as the list of what it has left.
ghost use Rattle.std.specs.Prelude.{◌≡◌, length, IfSome, Some};
ghost use Rattle.std.specs.Iterator.{UpTo, at_most};
ghost use Rattle.std.specs.Iterator.SizeHint.{IsWithinCount};
ghost use Rattle.std.specs.Map.{keys_of};
ghost use Rattle.std.specs.Map.Iter.{TakesFirst, TakesLast};
ghost use Rattle.starlark_hash.specs.Unit.{deref_hashed};

use starlark_hash::Hashed;
use starlark_small as map;
use std::iter::FusedIterator;
use std::marker::Model;

/// An iterator over the elements, each as `&T`.
pub type Iter<'a, T> = map::Keys<'a, T, ()>;

/// An iterator over the elements by value.
pub type IntoIter<T> = map::IntoKeys<T, ()>;

/// An iterator over the elements, each as `Hashed<&T>`.
#[derive(Drop)]
pub struct IterHashed<'a, T> {
    inner: map::IterHashed<'a, T, ()>,
}

impl<'a, T> Model for IterHashed<'a, T> {
    ghost use Rattle.std.specs.Prelude.{List};
    ghost use Rattle.std.specs.Map.{keys_of};
    ghost use Rattle.starlark_hash.specs.declared.hashed.Hashed.{Hashed as Under};

    ghost Value = { List (Under T) };

    ghost view = { λ it. keys_of it.inner };
}

impl<'a, T> IterHashed<'a, T> {
    #[inline]
    pub(crate) fn new(entries: map::IterHashed<'a, T, ()>) -> Self
        ensures { result ≡ keys_of entries.entry }
    {
        IterHashed { inner: entries }
    }
}

impl<'a, T> Iterator for IterHashed<'a, T> {
    type Item = Hashed<&'a T>;

    ghost next_gives = { TakesFirst deref_hashed };

    ghost remaining = { λ rest. at_most (length rest) };

    #[inline]
    fn next(&mut self) -> Option<Hashed<&'a T>> {
        let (element, _) = self.inner.next()?;
        Some(element)
    }

    #[inline]
    fn size_hint(&self) -> (usize, Option<usize>)
        ensures lower { IsWithinCount result.0 (at_most (length self.now)) }
        ensures upper { IfSome result.1 (UpTo (at_most (length self.now))) }
        ensures exact { result ≡ (length self.now, Some (length self.now)) }
    {
        let len = self.len();
        (len, Some(len))
    }
}

impl<'a, T> DoubleEndedIterator for IterHashed<'a, T> {
    ghost next_back_gives = { TakesLast deref_hashed };

    #[inline]
    fn next_back(&mut self) -> Option<Hashed<&'a T>> {
        let (element, _) = self.inner.next_back()?;
        Some(element)
    }
}

impl<'a, T> ExactSizeIterator for IterHashed<'a, T> {
    #[inline]
    fn len(&self) -> usize {
        self.inner.len()
    }
}

impl<'a, T> FusedIterator for IterHashed<'a, T> {}

/// An iterator over the elements by value, each as `Hashed<T>`.
#[derive(Drop)]
pub struct IntoIterHashed<T> {
    inner: map::IntoIterHashed<T, ()>,
}

impl<T> Model for IntoIterHashed<T> {
    ghost use Rattle.std.specs.Prelude.{List};
    ghost use Rattle.std.specs.Map.{keys_of};
    ghost use Rattle.starlark_hash.specs.declared.hashed.Hashed.{Hashed as Under};

    ghost Value = { List (Under T) };

    ghost view = { λ it. keys_of it.inner };
}

impl<T> IntoIterHashed<T> {
    #[inline]
    pub(crate) fn new(entries: map::IntoIterHashed<T, ()>) -> Self
        ensures { result ≡ keys_of entries }
    {
        IntoIterHashed { inner: entries }
    }
}

impl<T: Drop> Iterator for IntoIterHashed<T> {
    type Item = Hashed<T>;

    ghost next_gives = { TakesFirst (λ item. item) };

    ghost remaining = { λ rest. at_most (length rest) };

    #[inline]
    fn next(&mut self) -> Option<Hashed<T>> {
        let (element, ()) = self.inner.next()?;
        Some(element)
    }

    #[inline]
    fn size_hint(&self) -> (usize, Option<usize>)
        ensures lower { IsWithinCount result.0 (at_most (length self.now)) }
        ensures upper { IfSome result.1 (UpTo (at_most (length self.now))) }
        ensures exact { result ≡ (length self.now, Some (length self.now)) }
    {
        let len = self.len();
        (len, Some(len))
    }
}

impl<T: Drop> DoubleEndedIterator for IntoIterHashed<T> {
    ghost next_back_gives = { TakesLast (λ item. item) };

    #[inline]
    fn next_back(&mut self) -> Option<Hashed<T>> {
        let (element, ()) = self.inner.next_back()?;
        Some(element)
    }
}

impl<T: Drop> ExactSizeIterator for IntoIterHashed<T> {
    #[inline]
    fn len(&self) -> usize {
        self.inner.len()
    }
}

impl<T: Drop> FusedIterator for IntoIterHashed<T> {}
