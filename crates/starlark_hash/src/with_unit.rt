//! An iterator that pairs each item with `()`, for a set that is stored as a map from its elements to `()`.
ghost use Rattle.std.specs.Prelude.{◌≡◌};
ghost use Rattle.starlark_hash.specs.Unit.{StepsBeside};

use std::marker::Model;

/// An iterator that returns each item of another one as `(item, ())`.
#[derive(Drop)]
pub struct WithUnit<I> {
    items: I,
}

impl<I> Model for WithUnit<I> {
    ghost Value = { I };

    ghost view = { λ w. w.items };
}

impl<I> WithUnit<I> {
    /// The items of this iterator, each paired with `()`.
    #[inline]
    pub fn new(items: I) -> Self
        ensures { result ≡ items }
    {
        WithUnit { items }
    }
}

impl<I: Iterator> Iterator for WithUnit<I> {
    type Item = (I::Item, ());

    ghost can_next = { I.can_next };

    ghost next_gives = { StepsBeside I.next_gives };

    ghost remaining = { I.remaining };

    fn next(&mut self) -> Option<(I::Item, ())> {
        let item = self.items.next()?;
        Some((item, ()))
    }

    fn size_hint(&self) -> (usize, Option<usize>) {
        self.items.size_hint()
    }
}
