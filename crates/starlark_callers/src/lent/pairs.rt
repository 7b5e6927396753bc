//! Callers of the pairs of references that a `Vec2` lends.
ghost use Rattle.std.specs.Prelude.{◌≡◌, ◌<◌, length, slice_get, slice_set, Some, None, IfOk, IfErr, OnOk, OnErr};

use crate::lent::put::put_pair;
use starlark_vec2::Vec2;

/// Puts both parts of the pair at this index, and gives those that were there. It writes through
/// `Vec2::get_unchecked_mut`; all else stays.
pub fn put_both<A, B>(pairs: &mut Vec2<A, B>, index: usize, first: A, second: B) -> (A, B)
    requires { index < length pairs.old.pairs }
    ensures taken { slice_get pairs.old.pairs index ≡ Some result }
    ensures pairs { pairs.new.pairs ≡ slice_set pairs.old.pairs index (first, second) }
    ensures capacity { pairs.new.capacity ≡ pairs.old.capacity }
{
    put_pair(pairs.get_unchecked_mut(index), first, second)
}

/// Puts both parts of the pair at this index, where there is one, and gives those that were there. Without one the
/// parts come back, and the list stays. It writes through `Vec2::get_mut`; all else stays.
pub fn put_both_if<A, B>(
    pairs: &mut Vec2<A, B>,
    index: usize,
    first: A,
    second: B,
) -> Result<(A, B), (A, B)>
    ensures taken { IfOk result (λ was. slice_get pairs.old.pairs index ≡ Some was) }
    ensures pairs { OnOk result (pairs.new.pairs ≡ slice_set pairs.old.pairs index (first, second)) }
    ensures absent { OnErr result (slice_get pairs.old.pairs index ≡ None) }
    ensures handed_back { IfErr result (λ back. back ≡ (first, second)) }
    ensures unchanged { OnErr result (pairs.new.pairs ≡ pairs.old.pairs) }
    ensures capacity { pairs.new.capacity ≡ pairs.old.capacity }
{
    match pairs.get_mut(index) {
        Some(pair) => Ok(put_pair(pair, first, second)),
        None => Err((first, second)),
    }
}
