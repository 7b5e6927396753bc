//! `insert`.
ghost use Rattle.std.specs.Prelude.{◌≡◌, ◌+◌, ◌<◌, false, true, not, if◌then◌else◌, IsOk, IfOk, IfErr, OnOk, OnErr};
ghost use Rattle.starlark_dict.specs.Dict.{LeavesMemory};
ghost use Rattle.starlark_dict.specs.DictSet.{as_dict, contains, insert_key, room, set_len, IsUnchanged, IsUnique, KeepsRoom, Updates};

use super::DictSet;
use starlark_hash::NoRoom;
use std::hash::Hash;

impl<T: Eq + Hash + Drop> DictSet<T> {
    /// Inserts an element, and returns whether it was new. An element that is there stays in its place, and this one is
    /// dropped. A new one is appended.
    #[inline(always)]
    #[tactic(auto, using(crate::proofs::Elements::elements))]
    pub fn insert(&mut self, element: T) -> Result<bool, NoRoom<T>>
        // On success the set has `element`, other elements stay, and the result says whether it was new.
        ensures is_new { IfOk result (λ is_new. is_new ≡ not (contains T.eq self.old element)) }
        ensures updates { OnOk result (Updates T.eq self.old self.new element true) }
        ensures elements { OnOk result (self.new.keys ≡ insert_key T.eq self.old.keys element) }
        ensures len { IfOk result (λ is_new. set_len self.new ≡ set_len self.old + (if is_new then 1 else 0)) }

        // On failure the element comes back and the others stay. Only a new one can fail.
        ensures handed_back { IfErr result (λ refused. refused.0 ≡ element) }
        ensures err { OnErr result (IsUnchanged self.old self.new) }
        ensures absent { OnErr result (contains T.eq self.old element ≡ false) }

        // Its memory. With room to spare it succeeds. No room is lost.
        ensures succeeds { 0 < room self.old → IsOk result }
        ensures room { KeepsRoom self.old self.new }
        ensures memory { LeavesMemory (as_dict self.old) (as_dict self.new) }
        ensures unique { IsUnique T.eq self.new }
    {
        match self.dict.insert(element, ()) {
            Ok(old) => Ok(old.is_none()),
            Err(NoRoom((element, ()))) => Err(NoRoom(element)),
        }
    }
}
