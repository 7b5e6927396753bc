//! `Vec2`: a list of pairs in two columns, one of first parts and one of second parts; its iterators.

pub use starlark_vec2::vec2::{IntoIter, Iter};
pub use starlark_vec2::{PairsMut, ValuesMut, Vec2};
