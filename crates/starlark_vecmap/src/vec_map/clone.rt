//! `VecMap::clone`.
ghost use Rattle.std.specs.Prelude.{◌≡◌, length, IfOk, IsOk};
ghost use Rattle.std.specs.List.{AllZip};
ghost use Rattle.starlark_hash.specs.Clone.{IsLawfulClone, IsEntryClone};
ghost use Rattle.starlark_vecmap.specs.EntryList.{entry_list};

use super::VecMap;
use std::alloc::AllocError;

impl<K: Clone, V: Clone> VecMap<K, V> {
    /// A map of clones of the entries with the same hashes, whose capacity is their number. If memory is refused, also
    /// to the clone of a key or a value, nothing is made. Without entries no memory is needed.
    pub fn clone(&self) -> Result<Self, AllocError>
        ensures entries { IfOk result (λ m. AllZip (IsEntryClone K.is_clone V.is_clone) self.now.entries m.entries) }
        ensures capacity { IfOk result (λ m. m.capacity ≡ length self.now.entries) }
        ensures same { IfOk result (λ m. IsLawfulClone K.is_clone → IsLawfulClone V.is_clone → m ≡ entry_list self.now.entries (length self.now.entries)) }
        ensures succeeds { length self.now.entries ≡ 0 → IsOk result }
    {
        Ok(VecMap {
            columns: self.columns.clone()?,
        })
    }
}
