//! What takes elements out. None of it asks for memory.
ghost use Rattle.std.specs.Prelude.{◌≡◌, ◌+◌, ◌-◌, false, is_some, if◌then◌else◌, IfSome, remove, slice_get};
ghost use Rattle.std.specs.Option.{option_map};
ghost use Rattle.starlark_dict.specs.DictSet.{contains_by, get_by, remove_key, set_len, IsEmpty, KeepsMemory, Updates, UpdatesBy};

use super::DictSet;
use starlark_hash::HashQuery;
use std::hash::Hash;

impl<T: Eq + Hash> DictSet<T> {
    /// Removes the element that the query stands for, and returns whether it was there. The index of each later one
    /// falls by one.
    #[inline]
    pub fn shift_remove<Q: HashQuery<T>>(&mut self, element: Q) -> bool
    where
        T: Drop,
        ensures found { result ≡ contains_by (Q.stands_for element) self.old }
        ensures updates { UpdatesBy T.eq (Q.stands_for element) self.old self.new false }
        ensures elements { self.new.keys ≡ remove_key (Q.stands_for element) self.old.keys }
        ensures len { set_len self.new + (if result then 1 else 0) ≡ set_len self.old }
        ensures memory { KeepsMemory self.old self.new }
    {
        self.take(element).is_some()
    }

    /// Removes the element that the query stands for, and returns the stored one. The index of each later one falls by
    /// one.
    #[inline]
    #[tactic(auto, using(crate::proofs::Elements::elements))]
    pub fn take<Q: HashQuery<T>>(&mut self, element: Q) -> Option<T>
        ensures element { result ≡ get_by (Q.stands_for element) self.old }
        ensures found { is_some result ≡ contains_by (Q.stands_for element) self.old }
        ensures updates { UpdatesBy T.eq (Q.stands_for element) self.old self.new false }
        ensures elements { self.new.keys ≡ remove_key (Q.stands_for element) self.old.keys }
        ensures len { set_len self.new + (if is_some result then 1 else 0) ≡ set_len self.old }
        ensures memory { KeepsMemory self.old self.new }
    {
        alone(self.dict.shift_remove_entry(element))
    }

    /// Removes the last element, and returns it.
    #[inline]
    pub fn pop(&mut self) -> Option<T>
        ensures element { result ≡ slice_get self.old.keys (set_len self.old - 1) }
        ensures updates { IfSome result (λ element. Updates T.eq self.old self.new element false) }
        ensures elements { self.new.keys ≡ remove self.old.keys (set_len self.old - 1) }
        ensures memory { KeepsMemory self.old self.new }
    {
        alone(self.dict.pop())
    }

    /// Removes each element. Capacity and hash index stay for those to come.
    #[tactic(auto, using(crate::proofs::Elements::elements))]
    pub fn clear(&mut self)
    where
        T: Drop,
        ensures empty { IsEmpty self.new }
        ensures memory { KeepsMemory self.old self.new }
    {
        self.dict.clear();
    }
}

// The key alone, of a key and its `()`.
#[inline(always)]
fn alone<T>(pair: Option<(T, ())>) -> Option<T>
    ensures { result ≡ option_map (λ p. p.0) pair }
{
    let (key, ()) = pair?;
    Some(key)
}
