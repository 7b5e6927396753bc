//! The macro `smallset!`, and the function that it calls.
ghost use Rattle.std.specs.Prelude.{◌≡◌, ◌<◌, IfOk, IsErr, IsOk, MatchResult, true};
ghost use Rattle.starlark_hash.specs.Insert.{insert_entry};
ghost use Rattle.starlark_small.specs.Insert.{LeavesMemory};
ghost use Rattle.starlark_small.specs.Lookup.{contains};
ghost use Rattle.starlark_small.specs.Map.{own_hashed};

use crate::SmallSet;
use std::alloc::AllocError;
use std::hash::Hash;

/// Makes a `SmallSet` of these elements, as in `smallset![alloc; 1, 4, 2]?`. The set begins with room for as many
/// elements as are written. The elements are inserted in their order, each under its own hash. An element that is
/// written again changes nothing. Only the room at the beginning may be refused, and then nothing is made.
#[macro_export]
macro_rules! smallset {
    (@one $element:expr) => {
        1usize
    };
    ($alloc:expr; $($element:expr),* $(,)?) => {{
        let set = $crate::SmallSet::with_capacity($alloc, 0usize $(+ $crate::smallset!(@one $element))*);
        $(let set = $crate::macros::inserted(set, $element);)*
        set
    }};
}

/// Makes one step of `smallset!`: inserts an element into the set, or passes on that the set was refused. An element
/// that is there is never refused, nor is any with room to spare. Room, capacity and hash index are left as an
/// insertion leaves them.
pub fn inserted<T: Eq + Hash + Drop>(
    set: Result<SmallSet<T>, AllocError>,
    element: T,
) -> Result<SmallSet<T>, AllocError>
    ensures entries { MatchResult set (λ old. IfOk result (λ new. new.entries ≡ insert_entry T.eq old.entries (own_hashed T.hash_input element) tt)) (λ _. IsErr result) }
    ensures succeeds { IfOk set (λ old. 0 < old.room → IsOk result) }
    ensures present { IfOk set (λ old. contains T.eq T.hash_input old element ≡ true → IsOk result) }
    ensures memory { IfOk set (λ old. IfOk result (λ new. LeavesMemory T.eq old new (own_hashed T.hash_input element))) }
{
    let mut set = set?;
    match set.insert(element) {
        Ok(_is_new) => Ok(set),
        Err(_refused) => Err(AllocError),
    }
}
