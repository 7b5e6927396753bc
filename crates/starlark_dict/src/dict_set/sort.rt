//! The order of the elements.
ghost use Rattle.std.specs.Prelude.{◌≡◌, reverse, IsOk, IsSorted, OnErr, OnOk};
ghost use Rattle.starlark_dict.specs.DictSet.{IsReordered, IsUnchanged, IsUnique, KeepsMemory};
ghost use Rattle.starlark_dict.specs.Sort.{sorted};

use super::DictSet;
use std::alloc::AllocError;
use std::hash::Hash;

impl<T: Eq + Hash> DictSet<T> {
    /// Sorts the elements; those that are equal in order keep theirs. Where they ascend already it asks for no memory. A
    /// refusal leaves them as they were.
    #[tactic(auto, using(crate::proofs::Elements::elements))]
    pub fn sort(&mut self) -> Result<(), AllocError>
    where
        T: Ord,
        // On success the elements ascend.
        ensures elements { OnOk result (self.new.keys ≡ sorted T.cmp self.old.keys) }
        ensures sorted { OnOk result (IsSorted T.cmp self.new.keys) }

        // On failure they stay. Elements that ascend are never refused.
        ensures err { OnErr result (IsUnchanged self.old self.new) }
        ensures succeeds { IsSorted T.cmp self.old.keys → IsOk result }

        // Either way no element comes or goes, and no room is lost.
        ensures reordered { IsReordered T.eq self.old self.new }
        ensures memory { KeepsMemory self.old self.new }
        ensures unique { IsUnique T.eq self.new }
    {
        self.dict.sort_keys()
    }

    /// Reverses the order of the elements.
    #[tactic(auto, using(crate::proofs::Elements::elements))]
    pub fn reverse(&mut self)
        ensures elements { self.new.keys ≡ reverse self.old.keys }
        ensures reordered { IsReordered T.eq self.old self.new }
        ensures memory { KeepsMemory self.old self.new }
        ensures unique { IsUnique T.eq self.new }
    {
        self.dict.reverse();
    }
}
