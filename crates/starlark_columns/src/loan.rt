//! The right to write the items of the cells that an iterator has not reached yet. Any of the cells may be empty.
ghost use Rattle.std.specs.Prelude.{◌≡◌, ℕ, ◌+◌, ◌<◌, List, ◌∷◌, length, drop, get_or, Option, Some, None, refl};
ghost use Rattle.std.specs.Option.{option_map};
ghost use Rattle.std.specs.Borrow.{GName};
ghost use Rattle.std.specs.Map.Iter.{deref_pair_mut};
ghost use Rattle.starlark_columns.specs.Cells.{IsFilled};
ghost use Rattle.starlark_columns.specs.Loan.{lent_from};

use std::marker::{Model, PhantomData};

/// Which part of an item stays unchanged while the item is lent.
pub trait Keeps<T> {
    // The second item, with the part that stays taken from the first.
    ghost kept: { T → T → T };

    ghost itself: { (x : T) → kept x x ≡ x };
}

/// The first part of a pair stays.
pub struct First;

impl<A, B> Keeps<(A, B)> for First {
    ghost kept = { λ x w. (x.0, w.1) };

    ghost itself = { λ x. refl };
}

/// All but the last part of an entry stays.
pub struct AllButLast;

impl<A, K, V> Keeps<(A, (K, V))> for AllButLast {
    ghost kept = { λ x w. (x.0, (x.1.0, w.1.1)) };

    ghost itself = { λ x. refl };
}

/// The right to write the cells that are still to be taken: `rest`, which begin at the index `from` of the cells at
/// `start`. Which of them are full does not change, nor does the part of each item that `P` keeps. `name` is the name
/// of the loan of these cells. `tie` is the name of the loan of all cells, which determines what the column ends as.
#[derive(Drop)]
pub struct Loan<'a, T, P: Keeps<T>> {
    pub(crate) start: *mut T,
    pub(crate) mark: PhantomData<(&'a mut T, P)>,
    ghost name: { GName },
    pub ghost tie: { GName },
    pub ghost from: { ℕ },
    pub ghost rest: { List (Option T) },
}

impl<'a, T, P: Keeps<T>> Model for Loan<'a, T, P> {
    ghost also_owns = { λ l. lent_from 'a T.row P.kept l.start l.from l.name l.rest };
}

impl<'a, T, P: Keeps<T>> Loan<'a, T, P> {
    /// Skips the next cell, which stays as it is.
    #[inline]
    pub fn skip(&mut self)
        requires { 0 < length self.old.rest }
        ensures rest { self.new.rest ≡ drop 1 self.old.rest }
        ensures from { self.new.from ≡ self.old.from + 1 }
        ensures tie { self.new.tie ≡ self.old.tie }
    {}
}

impl<'a, A, B> Loan<'a, (A, B), First> {
    /// Takes the pair of the next cell, which must be full, with its second part mutable.
    #[inline]
    pub fn take_pair(&mut self, index: usize) -> (&'a A, &'a mut B)
        requires next { index ≡ self.old.from }
        requires full { IsFilled self.old.rest 0 }
        ensures rest { self.old.rest ≡ Some (deref_pair_mut result) ∷ self.new.rest }
        ensures from { self.new.from ≡ self.old.from + 1 }
        ensures tie { self.new.tie ≡ self.old.tie }
    {
        unsafe {
            let pair = self.start.add(index);
            (&(*pair).0, &mut (*pair).1)
        }
    }
}

impl<'a, A, K, V> Loan<'a, (A, (K, V)), AllButLast> {
    /// Takes the key and the value of the entry in the next cell, which must be full, with the value mutable.
    #[inline]
    pub fn take_value(&mut self, index: usize) -> (&'a K, &'a mut V)
        requires next { index ≡ self.old.from }
        requires full { IsFilled self.old.rest 0 }
        ensures value { option_map (λ e. e.1) (get_or self.old.rest 0 None) ≡ Some (deref_pair_mut result) }
        ensures rest { self.new.rest ≡ drop 1 self.old.rest }
        ensures from { self.new.from ≡ self.old.from + 1 }
        ensures tie { self.new.tie ≡ self.old.tie }
    {
        unsafe {
            let entry = self.start.add(index);
            (&(*entry).1.0, &mut (*entry).1.1)
        }
    }
}
