//! Calls that ask for memory once. `make refused` refuses the first request of each test here, which then fails, and the
//! second, which none makes.

use crate::given::same;
use starlark_map::{TextKey, ToOwnedKey};
use std::test::Fail;

// Case: a copy of a text asks for memory once
#[test]
fn copies_a_text(rt: HostRuntime) -> Result<(), Fail> {
    let key: String = TextKey("a text of some length").to_owned_key(rt.alloc())?;
    same(&rt, key.as_str(), "a text of some length");
    Ok(())
}
