//! `dict!` and `dict_set!`.
ghost use Rattle.std.specs.Prelude.{◌≡◌, ◌<◌, IfOk, IsErr, IsOk, MatchResult, Some, true};
ghost use Rattle.starlark_dict.specs.Dict.{insert_entry, room, ContainsKey, KeepsRoom, Updates};
ghost use Rattle.starlark_dict.specs.DictSet.{contains, insert_key, room as set_room, KeepsRoom as KeepsSetRoom, Updates as UpdatesSet};

use crate::{Dict, DictSet};
use std::alloc::AllocError;
use std::hash::Hash;

/// A `Dict` of these keys and values, as `dict![alloc; 1 => "a", 2 => "b"]?`. It begins with room for as many entries as
/// are written, and inserts them in their order: a key that is written again keeps its index and takes the later value.
/// The room at the beginning alone may be refused; then nothing is made.
#[macro_export]
macro_rules! dict {
    (@one $key:expr) => {
        1usize
    };
    ($alloc:expr; $($key:expr => $value:expr),* $(,)?) => {{
        let dict = $crate::Dict::with_capacity($alloc, 0usize $(+ $crate::dict!(@one $key))*);
        $(let dict = $crate::macros::inserted(dict, $key, $value);)*
        dict
    }};
}

/// A `DictSet` of these elements, as `dict_set![alloc; 1, 4, 2]?`. It begins with room for as many elements as are
/// written, and inserts them in their order: one that is written again changes nothing. The room at the beginning alone
/// may be refused; then nothing is made.
#[macro_export]
macro_rules! dict_set {
    (@one $element:expr) => {
        1usize
    };
    ($alloc:expr; $($element:expr),* $(,)?) => {{
        let set = $crate::DictSet::with_capacity($alloc, 0usize $(+ $crate::dict_set!(@one $element))*);
        $(let set = $crate::macros::added(set, $element);)*
        set
    }};
}

/// One step of `dict!`: inserts into a dictionary that was made, as `Dict::insert` does. One that was refused stays so.
pub fn inserted<K: Eq + Hash + Drop, V: Drop>(
    dict: Result<Dict<K, V>, AllocError>,
    key: K,
    value: V,
) -> Result<Dict<K, V>, AllocError>
    ensures entries { MatchResult dict (λ old. IfOk result (λ new. new.entries ≡ insert_entry K.eq old.entries key value)) (λ _. IsErr result) }
    ensures updates { IfOk dict (λ old. IfOk result (λ new. Updates K.eq old new key (Some value))) }
    ensures succeeds { IfOk dict (λ old. 0 < room old → IsOk result) }
    ensures present { IfOk dict (λ old. ContainsKey K.eq old key → IsOk result) }
    ensures room { IfOk dict (λ old. IfOk result (KeepsRoom old)) }
{
    let mut dict = dict?;
    match dict.insert(key, value) {
        Ok(_old) => Ok(dict),
        Err(_refused) => Err(AllocError),
    }
}

/// One step of `dict_set!`: inserts into a set that was made, as `DictSet::insert` does. One that was refused stays so.
pub fn added<T: Eq + Hash + Drop>(
    set: Result<DictSet<T>, AllocError>,
    element: T,
) -> Result<DictSet<T>, AllocError>
    ensures elements { MatchResult set (λ old. IfOk result (λ new. new.keys ≡ insert_key T.eq old.keys element)) (λ _. IsErr result) }
    ensures updates { IfOk set (λ old. IfOk result (λ new. UpdatesSet T.eq old new element true)) }
    ensures succeeds { IfOk set (λ old. 0 < set_room old → IsOk result) }
    ensures present { IfOk set (λ old. contains T.eq old element ≡ true → IsOk result) }
    ensures room { IfOk set (λ old. IfOk result (KeepsSetRoom old)) }
{
    let mut set = set?;
    match set.insert(element) {
        Ok(_is_new) => Ok(set),
        Err(_refused) => Err(AllocError),
    }
}
