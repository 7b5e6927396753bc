//! What several tests begin with. A test that compares by `same` learns nothing by it, as it would by an assertion of its
//! own, and is proved in a part of the time.

use starlark_map::{Hashed, StarlarkHashValue};
use std::fmt::Debug;
use std::process::Abort;

pub(crate) fn under<K>(hash: u32, key: K) -> Hashed<K> {
    Hashed::new_unchecked(StarlarkHashValue::new_unchecked(hash), key)
}

// Ends the process where the two are not equal, and shows both.
pub(crate) fn same<T: PartialEq + Debug>(rt: &impl Abort, found: T, wanted: T)
where
    T: Drop,
{
    assert_eq!(rt; found, wanted);
}
