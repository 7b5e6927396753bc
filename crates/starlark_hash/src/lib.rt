//! Hashes, keys stored under them, and the queries by which keys are looked up.
#![tactic(auto)]

pub mod equivalent;
pub mod hash_value;
pub mod hashed;
mod hashed_impls;
pub mod hasher;
pub mod key_query;
pub mod no_room;
pub mod query;
mod same_text;
pub mod text_key;
pub mod with_unit;

pub use equivalent::Equivalent;
pub use hash_value::StarlarkHashValue;
pub use hashed::Hashed;
pub use hasher::{StarlarkHasher, StarlarkHasherBuilder};
pub use key_query::{KeyQuery, ToOwnedKey};
pub use no_room::NoRoom;
pub use query::{HashQuery, OwnedQuery, Query};
pub use text_key::TextKey;
pub use with_unit::WithUnit;
