//! Values put in the place of others, behind references of any type.
ghost use Rattle.std.specs.Prelude.{◌≡◌};

use std::mem;

// Puts the value behind the reference, and gives the one that was there.
#[inline]
pub(crate) fn put<T>(slot: &mut T, value: T) -> T
    ensures put { slot.new ≡ value }
    ensures taken { result ≡ slot.old }
{
    mem::replace(slot, value)
}

// Puts both parts behind the references of a pair, and gives those that were there.
#[inline]
pub(crate) fn put_pair<'a, A, B>(pair: (&'a mut A, &'a mut B), first: A, second: B) -> (A, B)
    ensures first { pair.exit.0.now ≡ first }
    ensures second { pair.exit.1.0.now ≡ second }
    ensures taken { result ≡ (pair.entry.0.now, pair.entry.1.now) }
{
    let (a, b) = pair;
    (put(a, first), put(b, second))
}
