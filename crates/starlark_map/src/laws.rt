//! Functions whose contract is a law of keys, hashes, lists, runs or unordered maps. A proof gains the law by calling the
//! function.

pub use starlark_hash::hash_value::{equal_keys_have_one_hash, promotion_is_injective};
pub use starlark_hash::key_query::query_has_the_hash_of_its_key;
pub use starlark_runs::{
    collection, held_room_stays, index_never_shows, lists, replies_agree,
    reserved_insertions_succeed,
};
pub use starlark_unordered::laws::{equal_maps_feed_alike, same_pairs_are_equal};
