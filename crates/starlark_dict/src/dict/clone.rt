//! Dictionaries made of clones.
ghost use Rattle.std.specs.Prelude.{◌≡◌, is_some, nat_lt, IfOk, IsOk};
ghost use Rattle.starlark_dict.specs.Dict.{dict_len, get, memory, IsClone, IsEmpty};
ghost use Rattle.starlark_hash.specs.Clone.{IsEqualClone, IsLawfulClone};
ghost use Rattle.starlark_small.specs.Index.{unindexed};

use super::Dict;
use std::alloc::AllocError;
use std::hash::Hash;

impl<K: Eq + Hash + Clone, V: Clone> Dict<K, V> {
    /// A dictionary of clones of the keys and values, in their order. Where memory is refused, also to the clone of a key
    /// or a value, nothing is made. Without entries it is not refused. Required is that a clone of a key is equal to it.
    pub fn clone(&self) -> Result<Self, AllocError>
        requires { IsEqualClone K.eq K.is_clone }
        ensures clones { IfOk result (λ d. IsClone K.is_clone V.is_clone self.now d) }
        ensures same { IsLawfulClone K.is_clone → IsLawfulClone V.is_clone → IfOk result (λ d. d.entries ≡ self.now.entries) }
        ensures keys { IfOk result (λ d. (key : K) → is_some (get K.eq d key) ≡ is_some (get K.eq self.now key)) }
        // There is room for no more, and an index exactly where so many need one.
        ensures capacity { IfOk result (λ d. (memory d).capacity ≡ dict_len self.now) }
        ensures indexed { IfOk result (λ d. (memory d).indexed ≡ nat_lt unindexed (dict_len self.now)) }
        ensures succeeds { IsEmpty self.now → IsOk result }
    {
        let map = self.map.clone()?;
        Ok(Dict { map })
    }
}
