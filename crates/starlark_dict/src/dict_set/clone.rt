//! Sets made of clones.
ghost use Rattle.std.specs.Prelude.{◌≡◌, nat_lt, IfOk, IsOk};
ghost use Rattle.starlark_dict.specs.DictSet.{contains, memory, set_len, IsClone, IsEmpty};
ghost use Rattle.starlark_hash.specs.Clone.{IsEqualClone, IsLawfulClone};
ghost use Rattle.starlark_small.specs.Index.{unindexed};

use super::DictSet;
use std::alloc::AllocError;
use std::hash::Hash;

impl<T: Eq + Hash + Clone> DictSet<T> {
    /// A set of clones of the elements, in their order. Where memory is refused, also to the clone of an element, nothing
    /// is made. Without elements it is not refused. Required is that a clone of an element is equal to it.
    #[tactic(auto, using(crate::proofs::Elements::elements))]
    pub fn clone(&self) -> Result<Self, AllocError>
        requires { IsEqualClone T.eq T.is_clone }
        ensures clones { IfOk result (λ s. IsClone T.is_clone self.now s) }
        ensures same { IsLawfulClone T.is_clone → IfOk result (λ s. s.keys ≡ self.now.keys) }
        ensures members { IfOk result (λ s. (element : T) → contains T.eq s element ≡ contains T.eq self.now element) }
        // There is room for no more, and an index exactly where so many need one.
        ensures capacity { IfOk result (λ s. (memory s).capacity ≡ set_len self.now) }
        ensures indexed { IfOk result (λ s. (memory s).indexed ≡ nat_lt unindexed (set_len self.now)) }
        ensures succeeds { IsEmpty self.now → IsOk result }
    {
        let dict = self.dict.clone()?;
        Ok(DictSet { dict })
    }
}
