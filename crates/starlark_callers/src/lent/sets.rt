//! Callers of elements that sets show where they stand, or take where they are lacking.
ghost use Rattle.std.specs.Option.{unwrap_or};
ghost use Rattle.std.specs.Prelude.{◌≡◌, ◌<◌, false, true, None, IfErr, IfOk, IfSome, IsNone, IsSome, OnErr};
ghost use Rattle.starlark_small.specs.Lookup.{contains, get_key};

use starlark_hash::NoRoom;
use starlark_sets::{OrderedSet, SmallSet, TryInsertError};
use std::hash::Hash;

/// The element that is there, or else this one.
pub fn stored<T: Eq + Hash + Drop>(set: &mut SmallSet<T>, element: T) -> Result<&T, NoRoom<T>>
    ensures shown { IfOk result (λ there. there.now ≡ unwrap_or (get_key T.eq T.hash_input set.old element) element) }
    ensures equal { IfOk result (λ there. T.eq element there.now ≡ true) }
    ensures absent { OnErr result (contains T.eq T.hash_input set.old element ≡ false) }
    ensures handed_back { IfErr result (λ refused. refused.0 ≡ element) }
{
    set.get_or_insert(element)
}

/// Tries an element, which comes back where an equal one is there or there is no room.
pub fn try_in<T: Eq + Hash + Drop>(set: &mut OrderedSet<T>, element: T) -> Option<T>
    ensures back { IfSome result (λ back. back ≡ element) }
    ensures there { contains T.eq T.hash_input set.old element ≡ true → IsSome result }
    ensures lacking { 0 < set.old.room → contains T.eq T.hash_input set.old element ≡ false → result ≡ None }
    ensures absent { IsNone result → contains T.eq T.hash_input set.old element ≡ false }
{
    match set.try_insert(element) {
        Ok(()) => None,
        Err(TryInsertError::Occupied(refused)) => Some(refused.value),
        Err(TryInsertError::Memory(NoRoom(back))) => Some(back),
    }
}
