//! Dictionaries of an iterator's items, by `collect` too, and what items are put into.
ghost use Rattle.std.specs.Iterator.{size, DrainsIf, ExtendsWithItems, IsFiniteIterable};
ghost use Rattle.std.specs.Prelude.{[], ◌≡◌, ◌≤◌, is_some, true, List, None, IfOk, IsOk, OnOk, ⊤};
ghost use Rattle.starlark_dict.specs.Dict.{dict_len, get, insert_all, room, Extends, FindsLast, InsertsItems, IsFromIterResult};

use super::Dict;
use starlark_small::SmallMap;
use std::alloc::{AllocError, Global};
use std::hash::Hash;

impl<K: Eq + Hash + Drop, V: Drop> FromIterator<(K, V)> for Dict<K, V> {
    type Alloc = Global;

    ghost from_iter_gives = { λ xs d. (d.entries ≡ insert_all K.eq [] xs) × IsFromIterResult K.eq xs d };

    /// A dictionary of the items, inserted in their order, so that each key has its last value. It begins with room for
    /// the lower bound of the iterator's `size_hint`. Where memory is refused, nothing is made and the items are
    /// dropped; an iterator that bounds that it has no items is not refused. The call requires that the iterator's type
    /// bounds its items.
    fn from_iter<I: IntoIterator<Item = (K, V)>>(alloc: Global, iter: I) -> Result<Self, AllocError>
        requires { IsFiniteIterable I.into_iter_gives I.IntoIter.can_next I.IntoIter.remaining iter }
        ensures ran { IfOk result (λ d. (it : I.IntoIter) × (xs : List (K × V)) × I.into_iter_gives iter it × DrainsIf I.IntoIter.next_gives ⊤ it xs × (d.entries ≡ insert_all K.eq [] xs) × IsFromIterResult K.eq xs d) }
        ensures items { IfOk result (InsertsItems K.eq I.IntoIter.next_gives I.into_iter_gives iter []) }
        ensures found { IfOk result (FindsLast K.eq I.IntoIter.next_gives I.into_iter_gives iter (λ _. None)) }
        ensures succeeds { ((it : I.IntoIter) → I.into_iter_gives iter it → size (I.IntoIter.remaining it) ≡ 0) → IsOk result }
    {
        let map = SmallMap::from_iter(alloc, iter)?;
        prove!(map.iter_hashed().len() == map.len());
        Ok(Dict { map })
    }
}

impl<K: Eq + Hash + Drop, V: Drop> Extend<(K, V)> for Dict<K, V> {
    ghost extend_gives = { Extends K.eq };

    /// Inserts the items in their order, as `insert` does. It reserves nothing. Where a new key is refused, the items
    /// that came before are there, and it and the items after it are dropped. The call requires that the iterator's
    /// type bounds its items.
    fn extend<I: IntoIterator<Item = (K, V)>>(&mut self, iter: I) -> Result<(), AllocError>
        requires { IsFiniteIterable I.into_iter_gives I.IntoIter.can_next I.IntoIter.remaining iter }
        ensures ran { ExtendsWithItems I.into_iter_gives I.IntoIter.next_gives (Extends K.eq) iter self.old self.new result }
        ensures items { OnOk result (InsertsItems K.eq I.IntoIter.next_gives I.into_iter_gives iter self.old.entries self.new) }
        ensures found { OnOk result (FindsLast K.eq I.IntoIter.next_gives I.into_iter_gives iter (get K.eq self.old) self.new) }
        // Done or refused, what was there stays.
        ensures stays { (key : K) → is_some (get K.eq self.old key) ≡ true → is_some (get K.eq self.new key) ≡ true }
        ensures longer { dict_len self.old ≤ dict_len self.new }
        ensures succeeds { ((it : I.IntoIter) → I.into_iter_gives iter it → size (I.IntoIter.remaining it) ≤ room self.old) → IsOk result }
    {
        let taken = self.map.extend(iter);
        prove!(self.map.iter_hashed().len() == self.map.len());
        taken
    }
}
