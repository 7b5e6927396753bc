//! `UnorderedMap`s from the items of iterators.
ghost use Rattle.std.specs.Iterator.{Drains, IsFinite, IsFiniteIterable, size};
ghost use Rattle.std.specs.Prelude.{◌≡◌, IfOk, IsOk, List, OnOk};
ghost use Rattle.starlark_table.specs.Table.{GrowsAsNeeded};
ghost use Rattle.starlark_unordered.specs.Collect.{HasLast, InsertsAll, IsCollected};
ghost use Rattle.starlark_unordered.specs.Pairs.{pairs_of};

use super::UnorderedMap;
use std::alloc::{AllocError, Global};
use std::hash::Hash;

impl<K: Eq + Hash + Drop, V: Drop> UnorderedMap<K, V> {
    /// A map of the items, inserted in their order by `insert`. It begins with room for the lower bound of the
    /// iterator's `size_hint`. If memory is refused, nothing is made and the items are dropped. It is not refused if
    /// there are no items. The call requires that the iterator's type bounds its items.
    pub fn from_iter<I: IntoIterator<Item = (K, V)>>(
        alloc: Global,
        iter: I,
    ) -> Result<Self, AllocError>
        requires { IsFiniteIterable I.into_iter_gives I.IntoIter.can_next I.IntoIter.remaining iter }
        ensures found { IfOk result (λ map. HasLast K.eq I.IntoIter.next_gives I.into_iter_gives iter map) }
        ensures pairs { IfOk result (λ map. IsCollected K.eq I.IntoIter.next_gives I.into_iter_gives I.IntoIter.remaining iter map) }
        ensures none_for_none { ((it : I.IntoIter) → I.into_iter_gives iter it → size (I.IntoIter.remaining it) ≡ 0) → IsOk result }
    {
        let items = iter.into_iter();
        let mut map = UnorderedMap::with_capacity(alloc, items.size_hint().0)?;
        map.insert_items(items)?;
        Ok(map)
    }

    // Inserts the items of an iterator.
    fn insert_items<I: Iterator<Item = (K, V)>>(&mut self, mut items: I) -> Result<(), AllocError>
        requires can { I.can_next items }
        requires finite { IsFinite (I.remaining items) }
        ensures pairs { OnOk result ((xs : List (K × V)) × Drains I.next_gives items xs × InsertsAll K.eq (pairs_of self.old) xs (pairs_of self.new)) }
        ensures none_for_none { size (I.remaining items) ≡ 0 → IsOk result }
        ensures memory { GrowsAsNeeded self.old self.new }
    {
        while let Some(pair) = items.next() {
            let (key, value) = pair;
            match self.insert(key, value) {
                Ok(_old) => {}
                Err(_refused) => return Err(AllocError),
            }
        }
        Ok(())
    }
}
