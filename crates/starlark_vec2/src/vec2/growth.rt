//! The capacity that a list of pairs grows to.
ghost use Rattle.std.specs.Prelude.{◌≡◌, ◌+◌, ◌*◌, ◌-◌, ◌^◌, ◌≤◌, max, min, MatchOption};

// The least capacity that a list grows to.
const LEAST_CAPACITY: usize = 4;

// The capacity that a list of `len` pairs grows to, so that `additional` more fit: the largest of `len + additional`, 4, and
// twice `capacity`. `None` if `len + additional` is above the greatest `usize`.
pub(super) fn grown(len: usize, capacity: usize, additional: usize) -> Option<usize>
    ensures { MatchOption result (2 ^ 64 ≤ len + additional) (λ n. n ≡ max (len + additional) (max 4 (min (2 * capacity) (2 ^ 64 - 1)))) }
{
    let needed = len.checked_add(additional)?;
    Some(needed.max(capacity.saturating_mul(2).max(LEAST_CAPACITY)))
}
