//! Clones of `UnorderedMap`s.
ghost use Rattle.std.specs.List.{AllZip};
ghost use Rattle.std.specs.Prelude.{◌≡◌, [], IfOk, IsOk};
ghost use Rattle.starlark_hash.specs.Clone.{IsEqualClone, IsLawfulClone, IsPairClone};
ghost use Rattle.starlark_unordered.specs.Lookup.{contains};
ghost use Rattle.starlark_unordered.specs.Pairs.{pairs_of};

use super::UnorderedMap;
use std::alloc::AllocError;
use std::hash::Hash;

impl<K: Eq + Hash + Clone, V: Clone> UnorderedMap<K, V> {
    /// A map of clones of the pairs, with as much room. If memory is refused, also to the clone of a key or a value,
    /// nothing is made. An empty map without room needs no memory. The clone of a key must be equal to the key.
    pub fn clone(&self) -> Result<Self, AllocError>
        // The clone of a key is equal to the key.
        requires { IsEqualClone K.eq K.is_clone }
        ensures pairs { IfOk result (λ map. AllZip (IsPairClone K.is_clone V.is_clone) (pairs_of self.now) (pairs_of map)) }
        ensures same { IsLawfulClone K.is_clone → IsLawfulClone V.is_clone → IfOk result (λ map. pairs_of map ≡ pairs_of self.now) }
        ensures found { IfOk result (λ map. (key : K) → contains K.eq map key ≡ contains K.eq self.now key) }
        ensures room { IfOk result (λ map. map.room ≡ self.now.room) }
        ensures none_for_none { pairs_of self.now ≡ [] → self.now.room ≡ 0 → IsOk result }
    {
        if self.len() == 0 && self.room() == 0 {
            return Ok(UnorderedMap::new(self.alloc));
        }
        Ok(UnorderedMap {
            table: self.table.clone()?,
            alloc: self.alloc,
        })
    }
}
