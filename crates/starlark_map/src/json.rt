//! JSON: small maps to integers and small sets of texts as values, and back. A value is seen as the `Data` of `serde_json`,
//! whose objects have each key once, in ascending order.

pub mod fault;
pub mod map;
pub mod set;

pub use fault::JsonFault;
pub use map::{map_from_value, map_to_value};
pub use set::{set_from_value, set_to_value};
