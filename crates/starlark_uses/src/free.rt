//! The least number that is free: sets of those in use, as of slots and of registers.
ghost use Rattle.std.specs.Hash as fed;
ghost use Rattle.std.specs.Prelude.{◌≡◌, ℕ, ◌<◌, nat_eq, false, true, IfNone, IfSome};
ghost use Rattle.starlark_small.specs.Lookup.{contains};

use starlark_sets::SmallSet;

/// The least number below a bound that a set lacks, or none where it has all of them.
pub fn first_free(used: &SmallSet<u32>, bound: u32) -> Option<u32>
    ensures below { IfSome result (λ n. n < bound) }
    ensures lacking { IfSome result (λ n. contains nat_eq fed.u32 used.now n ≡ false) }
    ensures least { IfSome result (λ n. (m : ℕ) → m < n → contains nat_eq fed.u32 used.now m ≡ true) }
    ensures none { IfNone result ((m : ℕ) → m < bound → contains nat_eq fed.u32 used.now m ≡ true) }
{
    for n in 0..bound {
        if !used.contains(&n) {
            return Some(n);
        }
    }
    None
}
