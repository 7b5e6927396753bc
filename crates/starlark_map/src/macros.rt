//! `smallmap!` and `smallset!`. The toolchain does not re-export a macro from a crate that the user does not name. So this
//! module repeats the macros, which use the functions of the crates below.

pub use starlark_sets::macros::inserted as inserted_element;
pub use starlark_small::macros::inserted as inserted_entry;

/// A `SmallMap` of these keys and values, as `smallmap![alloc; 1 => "a", 2 => "b"]?`. It begins with room for as many
/// entries as are written, and inserts them in their order, each under its key's own hash. A key that is written again
/// keeps its index and takes the later value. Only the first request for memory may be refused; then nothing is made.
#[macro_export]
macro_rules! smallmap {
    (@one $key:expr) => {
        1usize
    };
    ($alloc:expr; $($key:expr => $value:expr),* $(,)?) => {{
        let map = $crate::small_map::SmallMap::with_capacity($alloc, 0usize $(+ $crate::smallmap!(@one $key))*);
        $(let map = $crate::macros::inserted_entry(map, $key, $value);)*
        map
    }};
}

/// A `SmallSet` of these elements, as `smallset![alloc; 1, 4, 2]?`. It begins with room for as many elements as are
/// written, and inserts them in their order, each under its own hash. An element that is written again changes nothing.
/// Only the first request for memory may be refused; then nothing is made.
#[macro_export]
macro_rules! smallset {
    (@one $element:expr) => {
        1usize
    };
    ($alloc:expr; $($element:expr),* $(,)?) => {{
        let set = $crate::small_set::SmallSet::with_capacity($alloc, 0usize $(+ $crate::smallset!(@one $element))*);
        $(let set = $crate::macros::inserted_element(set, $element);)*
        set
    }};
}
