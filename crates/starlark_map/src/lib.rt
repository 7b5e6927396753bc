//! The collections under Rust's module paths: the crate that a user names first.
#![tactic(auto)]

pub mod json;
pub mod laws;
pub mod macros;
pub mod ordered_map;
pub mod ordered_set;
pub mod small_map;
pub mod small_set;
pub mod sorted_map;
pub mod sorted_set;
pub mod sorted_vec;
pub mod union;
pub mod unordered_map;
pub mod unordered_set;
pub mod vec2;

pub use json::JsonFault;
pub use starlark_hash::{
    Equivalent, HashQuery, Hashed, KeyQuery, NoRoom, OwnedQuery, Query, StarlarkHashValue,
    StarlarkHasher, StarlarkHasherBuilder, TextKey, ToOwnedKey,
};
pub use starlark_runs::{Command, Reply, run};
pub use starlark_sets::TryInsertError;
pub use starlark_table::{Follows, KeptHash, ReadyTable};
