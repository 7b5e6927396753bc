//! `Vec2::retain`.
ghost use Rattle.std.specs.Prelude.{◌≡◌, ◌≤◌, length, take, zip};
ghost use Rattle.starlark_hash.specs.Retain.{Retains, TakesInTurn};
ghost use Rattle.starlark_vec2.specs.Retain.{TakesBoth, CalledAtBoth};

use super::Vec2;

impl<A: Drop, B: Drop> Vec2<A, B> {
    /// Keeps the pairs for which the closure returns true, as it leaves them, in their order. It is called once for
    /// each pair, from the front, each time in the state that the call before left. It must be possible to call it so.
    /// The capacity stays.
    #[inline]
    pub fn retain<F: FnMut(&mut A, &mut B) -> bool>(&mut self, keep: F)
        requires { TakesInTurn (CalledAtBoth F.FnMut) (TakesBoth F.FnMut) keep self.old.pairs }
        ensures pairs { Retains (CalledAtBoth F.FnMut) keep self.old.pairs self.new.pairs }
        ensures capacity { self.new.capacity ≡ self.old.capacity }
    {
        let (spot, len) = (self.spot, self.len);
        let kept = sieve(
            self.firsts.items_mut(self.block.second(spot).address, len),
            self.seconds.items_mut(spot.address, len),
            keep,
        );
        self.truncate(kept);
    }
}

// Moves the pairs that are kept to the front, and returns their number.
fn sieve<A, B, F: FnMut(&mut A, &mut B) -> bool>(
    firsts: &mut [A],
    seconds: &mut [B],
    mut keep: F,
) -> usize
    requires even { length firsts.old ≡ length seconds.old }
    requires callable { TakesInTurn (CalledAtBoth F.FnMut) (TakesBoth F.FnMut) keep (zip firsts.old seconds.old) }
    ensures pairs { Retains (CalledAtBoth F.FnMut) keep (zip firsts.old seconds.old) (zip (take result firsts.new) (take result seconds.new)) }
    ensures within { result ≤ length firsts.old }
{
    let len = firsts.len();
    let mut kept = 0;
    let mut i = 0;
    while i < len {
        if ask(&mut keep, &mut firsts[i], &mut seconds[i]) {
            firsts.swap(kept, i);
            seconds.swap(kept, i);
            kept += 1;
        }
        i += 1;
    }
    kept
}

fn ask<A, B, F: FnMut(&mut A, &mut B) -> bool>(keep: &mut F, first: &mut A, second: &mut B) -> bool
    requires { TakesBoth F.FnMut keep.old (first.old, second.old) }
    ensures { CalledAtBoth F.FnMut keep.old (first.old, second.old) result (first.new, second.new) keep.new }
{
    keep(first, second)
}
