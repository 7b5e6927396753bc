//! The iterators of a `SmallMap`, which are those of its list.

pub use starlark_vecmap::vec_map::{
    IntoIter, IntoIterHashed, IntoKeys, IntoValues, Iter, IterHashed, IterMut, Keys, Values,
    ValuesMut,
};
