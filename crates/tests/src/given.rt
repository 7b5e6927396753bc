//! What several tests begin with. These functions say nothing of what they do: a test that makes its calls through them
//! carries no knowledge from line to line, and is proved in a part of the time.

use starlark_map::{Hashed, StarlarkHashValue};
use std::fmt::Debug;
use std::process::Abort;

pub(crate) fn under<K>(hash: u32, key: K) -> Hashed<K> {
    Hashed::new_unchecked(StarlarkHashValue::new_unchecked(hash), key)
}

// Ends the process where the two are not equal, and shows both.
pub(crate) fn same<T: PartialEq + Debug>(rt: &impl Abort, found: T, wanted: T)
where
    T: Drop,
{
    assert_eq!(rt; found, wanted);
}
