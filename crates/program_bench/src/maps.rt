//! The maps, each as what the workloads ask for.

mod hash_map;
mod index_map;
mod small_map;
mod unordered_map;

pub use small_map::SmallByHash;
use std::hash::{BuildHasher, BuildHasherDefault, FoldHasher};
pub use unordered_map::UnorderedByHash;

/// A hasher that a map is made with.
pub trait Hashing: BuildHasher + Drop {
    /// The hasher.
    fn hashing() -> Self;
}

impl Hashing for BuildHasherDefault<FoldHasher> {
    #[inline(always)]
    fn hashing() -> Self {
        BuildHasherDefault::new()
    }
}

impl Hashing for starlark_hash::StarlarkHasherBuilder {
    #[inline(always)]
    fn hashing() -> Self {
        starlark_hash::StarlarkHasherBuilder
    }
}
