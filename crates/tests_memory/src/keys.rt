//! Keys that are made of queries.

use crate::given::{gives, under};
use starlark_map::{Hashed, TextKey};
use std::alloc::{AllocError, Global};

// Whether the keys of a text and of a `TextKey` are equal, under the hash of the query, and one of them to its copy.
fn texts(alloc: Global) -> Result<(bool, bool, u32), AllocError> {
    let of_text: Hashed<String> = under(7, "a").owned(alloc)?;
    let of_key: Hashed<String> = under(7, &TextKey("a")).owned(alloc)?;
    let copy = of_key.as_ref().cloned()?;
    Ok((of_text == of_key, copy == of_key, copy.hash().get()))
}

#[test]
fn makes_and_copies_the_key_of_a_query(rt: HostRuntime) {
    gives(&rt, texts(rt.alloc()), texts(rt.alloc()), (true, true, 7));
}
