//! The iterator of a `Vec2` that lends its pairs. The model is the list of the pairs that are left.
ghost use Rattle.std.specs.Prelude.{◌≡◌, ◌<◌, ◌^◌, length, zip, ⊤, IfSome, Some};
ghost use Rattle.std.specs.Iterator.{UpTo, at_most};
ghost use Rattle.std.specs.Iterator.SizeHint.{IsWithinCount};
ghost use Rattle.std.specs.Map.Iter.{TakesFirst, TakesLast, deref_pair};
ghost use Rattle.starlark_vec2.specs.Iter.{WalkShows, WalkShowsBack};

use super::Vec2;
use std::alloc::AllocError;
use std::iter::FusedIterator;
use std::marker::Model;
use std::{fmt, slice};

/// The pairs, each as `(&A, &B)`.
#[derive(Drop)]
pub struct Iter<'a, A, B> {
    firsts: slice::Iter<'a, A>,
    seconds: slice::Iter<'a, B>,
}

impl<'a, A, B> Model for Iter<'a, A, B> {
    ghost use Rattle.std.specs.Prelude.{◌≡◌, List, length, zip};
    ghost use Rattle.std.specs.Slice.Iter.{iter_rest};

    ghost Value = { List (A × B) };

    ghost view = { λ it. zip (iter_rest it.firsts) (iter_rest it.seconds) };

    ghost invariant = { λ it. length (iter_rest it.seconds) ≡ length (iter_rest it.firsts) };
}

impl<'a, A, B> Iter<'a, A, B> {
    #[inline]
    pub(super) fn new(firsts: &'a [A], seconds: &'a [B]) -> Self
        requires { length seconds.now ≡ length firsts.now }
        ensures { result ≡ zip firsts.now seconds.now }
    {
        Iter {
            firsts: firsts.iter(),
            seconds: seconds.iter(),
        }
    }
}

impl<'a, A, B> Iterator for Iter<'a, A, B> {
    type Item = (&'a A, &'a B);

    ghost next_gives = { TakesFirst deref_pair };

    ghost remaining = { λ rest. at_most (length rest) };

    #[inline]
    fn next(&mut self) -> Option<(&'a A, &'a B)> {
        let first = self.firsts.next()?;
        Some((first, self.seconds.next().unwrap()))
    }

    #[inline]
    fn size_hint(&self) -> (usize, Option<usize>)
        ensures lower { IsWithinCount result.0 (at_most (length self.now)) }
        ensures upper { IfSome result.1 (UpTo (at_most (length self.now))) }
        ensures exact { result ≡ (length self.now, Some (length self.now)) }
    {
        let len = self.len();
        (len, Some(len))
    }
}

impl<'a, A, B> DoubleEndedIterator for Iter<'a, A, B> {
    ghost next_back_gives = { TakesLast deref_pair };

    #[inline]
    fn next_back(&mut self) -> Option<(&'a A, &'a B)> {
        let first = self.firsts.next_back()?;
        Some((first, self.seconds.next_back().unwrap()))
    }
}

impl<'a, A, B> ExactSizeIterator for Iter<'a, A, B> {
    #[tactic(auto, using(crate::proofs::Pairs::columns))]
    #[inline]
    fn len(&self) -> usize {
        self.firsts.len()
    }
}

impl<'a, A, B> FusedIterator for Iter<'a, A, B> {}

impl<'a, A, B> Clone for Iter<'a, A, B> {
    ghost is_clone = { λ rest copy. copy ≡ rest };

    ghost is_infallible = { λ _. ⊤ };

    #[inline]
    fn clone(&self) -> Result<Self, AllocError> {
        Ok(Iter {
            firsts: self.firsts.clone()?,
            seconds: self.seconds.clone()?,
        })
    }
}

impl<'a, A: fmt::Debug, B: fmt::Debug> fmt::Debug for Iter<'a, A, B> {
    fn fmt<W: fmt::Write>(&self, f: &mut fmt::Formatter<W>) -> fmt::Result {
        f.debug_list().entries(self.clone().unwrap()).finish()
    }
}

impl<'a, A, B> IntoIterator for &'a Vec2<A, B> {
    type Item = (&'a A, &'a B);

    type IntoIter = Iter<'a, A, B>;

    ghost into_iter_gives = { λ v rest. (rest ≡ v.now.pairs) × (length v.now.pairs < 2 ^ 64) × WalkShows deref_pair rest v.now.pairs × WalkShowsBack deref_pair rest v.now.pairs };

    #[inline]
    fn into_iter(self) -> Iter<'a, A, B> {
        self.iter()
    }
}
