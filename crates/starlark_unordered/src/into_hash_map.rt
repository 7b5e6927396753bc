//! The loop that fills a map of the standard library.
ghost use Rattle.std.specs.Prelude.{◌++◌, map, OnOk, IsPermutation};
ghost use Rattle.starlark_unordered.specs.Pairs.{HasDistinctKeys};

use starlark_hash::StarlarkHashValue;
use starlark_table::IntoIter;
use std::alloc::AllocError;
use std::collections::HashMap;
use std::hash::Hash;

// Inserts each pair of the iterator. All keys are new.
pub(crate) fn move_pairs<K: Eq + Hash + Drop, V: Drop>(
    mut walk: IntoIter<(K, V), StarlarkHashValue>,
    moved: &mut HashMap<K, V>,
) -> Result<(), AllocError>
    requires { HasDistinctKeys K.eq (map (λ m. m.1) walk ++ moved.old.entries) }
    ensures { OnOk result (IsPermutation (map (λ m. m.1) walk ++ moved.old.entries) moved.new.entries) }
{
    while let Some((_, (key, value))) = walk.next() {
        match moved.insert(key, value) {
            Ok(_old) => {}
            Err(_refused) => return Err(AllocError),
        }
    }
    Ok(())
}
