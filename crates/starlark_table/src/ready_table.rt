//! A bag of items with hashes that callers supply. No other crate sees how the slots are laid out.
ghost use Rattle.std.specs.Prelude.{◌≡◌, ℕ, ◌+◌, ◌*◌, ◌^◌, ◌<◌, ◌≤◌, Some, None, [], ◌∷◌, ◌++◌, List, length, slice_set, IsOk, IfOk, OnOk, OnErr, IfErr, IfSome, IfNone, IsSome, is_some, IsPermutation, Option};
ghost use Rattle.std.specs.Option.{option_and_then, option_copied, option_copied_mut, option_map};
ghost use Rattle.std.specs.Borrow.{sem};
ghost use Rattle.std.specs.List.Retain.{RetainsInTurn};
ghost use Rattle.starlark_hash.specs.Search.{Searches, CanSearch};
ghost use Rattle.starlark_table.specs.Table.{members, table_capacity, table_len, member_at, item_in, items_of, items_under, GrowsAsNeeded, IsTableClone, NeedsNoMemory};
ghost use Rattle.starlark_table.specs.Growth.{limit, most_for};
ghost use Rattle.starlark_table.specs.Layout.{IsVacancy};
ghost use Rattle.starlark_table.specs.Walk.{CanReplace, ReplacesEach, CanRetain, AsksMember};

mod iter_mut;
mod pairs_mut;

use crate::clear::{drop_all, empty_all, next_full};
use crate::follow::Follows;
use crate::growth::{clone_members, empty_slots, limit, move_all, slots_for};
use crate::home::mask_of;
use crate::iter::{IntoIter, Iter};
use crate::kept_hash::{Kept, KeptHash};
use crate::probe::{Slots, find_slot, is_full, put, put_at, vacancy};
use crate::remove::take_out;
use crate::replace::replace_items;
use crate::retain::retain_items;
use crate::tags::{WINDOW, tags_beside, untag};
use starlark_columns::{Bytes, Column};
use starlark_hash::NoRoom;
use std::alloc::{AllocError, Global};
use std::marker::Model;
use std::mem;

/// A bag of items, each stored under a 64-bit hash that the caller supplied. Items may be equal, and so may hashes. It is
/// seen as its slots and its room. Length plus room falls in no call.
///
/// The table uses open addressing: each slot is empty or has a member. Each member is in the group of sixteen slots at its
/// home, or every slot from its home up to it is full. Each slot has a tag, one byte of the hash, so that a search mostly
/// sees at once where its hash may be.
///
/// The slots store each hash in the form of `H`: all 64 bits, or a `StarlarkHashValue`, which determines its promoted hash.
pub struct ReadyTable<T, H: KeptHash = u64> {
    slots: Slots<T, H>,
    // One byte for each slot. Only the tag says at run time whether the slot has a member. The number of tags is computed
    // from that of the slots.
    tags: Bytes,
    // How many members there are.
    len: usize,
    // The overflow filter: which tags belong to members that may be outside their homes' groups.
    far: u64,
}

impl<T, H: KeptHash> Model for ReadyTable<T, H> {
    ghost use Rattle.std.specs.Prelude.{ℕ, ◌-◌, length};
    ghost use Rattle.starlark_table.specs.Table.{Table, table_code};

    ghost Value = { Table T };

    ghost coded = { table_code T.code };

    ghost use Rattle.starlark_table.specs.Layout.{IsSound};
    ghost use Rattle.starlark_table.specs.Growth.{limit};

    ghost view = { λ t. record { slots = t.slots; room = limit (length t.slots) - t.len } };

    ghost invariant = { λ t. IsSound t.slots t.tags t.len t.far };
}

impl<T> ReadyTable<T> {
    /// An empty table without room. It asks for no memory before the first insertion.
    pub fn new(alloc: Global) -> ReadyTable<T>
        ensures empty { members result ≡ [] }
        ensures room { result.room ≡ 0 }
    {
        ReadyTable::without_slots(alloc)
    }

    /// An empty table with room for at least `capacity` insertions, and for at most twice as many, or 6. If memory is
    /// refused, nothing is made. Capacity 0 is never refused.
    pub fn with_capacity(alloc: Global, capacity: usize) -> Result<ReadyTable<T>, AllocError>
        ensures empty { IfOk result (λ t. members t ≡ []) }
        ensures room { IfOk result (λ t. capacity ≤ t.room) }
        ensures most { IfOk result (λ t. t.room ≤ most_for capacity) }
        ensures none_for_none { capacity ≡ 0 → IsOk result }
    {
        ReadyTable::keeping(alloc, capacity)
    }
}

impl<T, H: KeptHash> ReadyTable<T, H> {
    ghost use Rattle.starlark_table.specs.Lend.{lends_item, lends_get};

    /// An empty table without room, which stores hashes in the form of `H`. It asks for no memory before the first
    /// insertion.
    pub fn without_slots(alloc: Global) -> ReadyTable<T, H>
        ensures empty { members result ≡ [] }
        ensures slots { result.slots ≡ [] }
        ensures room { result.room ≡ 0 }
    {
        ReadyTable {
            slots: Column::new(alloc),
            tags: Bytes::none(alloc),
            len: 0,
            far: 0,
        }
    }

    /// An empty table that stores hashes in the form of `H`, with room for at least `capacity` insertions, and for at most
    /// twice as many, or 6. It has the fewest slots that give this room. If memory is refused, nothing is made. Capacity 0
    /// is never refused.
    pub fn keeping(alloc: Global, capacity: usize) -> Result<ReadyTable<T, H>, AllocError>
        ensures empty { IfOk result (λ t. members t ≡ []) }
        ensures room { IfOk result (λ t. capacity ≤ t.room) }
        ensures most { IfOk result (λ t. t.room ≤ most_for capacity) }
        ensures slots { IfOk result (λ t. length t.slots ≤ 2 * most_for capacity) }
        ensures fewest { IfOk result (λ t. (k : ℕ) → capacity ≤ limit (8 * 2 ^ k) → length t.slots ≤ 8 * 2 ^ k) }
        ensures load { IfOk result (λ t. t.room ≡ limit (length t.slots)) }
        ensures none_for_none { capacity ≡ 0 → IsOk result }
    {
        if capacity == 0 {
            return Ok(ReadyTable::without_slots(alloc));
        }
        let Some(count) = slots_for(capacity) else {
            return Err(AllocError);
        };
        let (slots, tags) = empty_slots(alloc, count)?;
        Ok(ReadyTable {
            slots,
            tags,
            len: 0,
            far: 0,
        })
    }

    /// The number of members.
    #[inline]
    pub fn len(&self) -> usize
        ensures { result ≡ table_len self.now }
    {
        self.len
    }

    /// The number of slots, full and empty.
    #[inline]
    pub fn slots(&self) -> usize
        ensures { result ≡ length self.now.slots }
    {
        self.slots.cells()
    }

    /// How many insertions certainly need no memory.
    #[inline]
    pub fn room(&self) -> usize
        ensures { result ≡ self.now.room }
    {
        limit(self.slots.cells()) - self.len()
    }

    /// The slot of an item under exactly this hash that `eq` accepts. `eq` is called only on items of this hash, at most
    /// once on each and in no promised order, until it accepts one; `None` says that it refused them all. A slot is valid
    /// until the next change. The call requires only that `eq` may be called on those items, in the states that its
    /// refusals leave.
    #[inline]
    pub fn find<F: FnMut(&T) -> bool>(&self, hash: H, eq: F) -> Option<usize>
        requires { CanSearch F.FnMut (items_under (H.number hash) self.now) eq }
        ensures { (last : F) × Searches F.FnMut (items_under (H.number hash) self.now) eq result last }
    {
        if self.slots() == 0 {
            return None;
        }
        let (slot, _) = find_slot(
            &self.slots,
            self.tags.as_slice(tags_beside(&self.slots)),
            self.far,
            mask_of(&self.slots),
            Kept::of(hash),
            eq,
        )?;
        Some(slot)
    }

    /// The item under exactly this hash that `eq` accepts. `eq` is called just as by `find`.
    #[inline(always)]
    pub fn find_item<F: FnMut(&T) -> bool>(&self, hash: H, eq: F) -> Option<&T>
        requires { CanSearch F.FnMut (items_under (H.number hash) self.now) eq }
        ensures { (slot : Option ℕ) × (last : F) × Searches F.FnMut (items_under (H.number hash) self.now) eq slot last × (option_copied result ≡ option_and_then (item_in self.now) slot) }
    {
        if self.slots() == 0 {
            return None;
        }
        self.find_item_unchecked(hash, eq)
    }

    /// Finds the item in the way of `find_item`, in a table that has slots. This is required, not tested.
    #[inline(always)]
    pub fn find_item_unchecked<F: FnMut(&T) -> bool>(&self, hash: H, eq: F) -> Option<&T>
        requires some { 0 < length self.now.slots }
        requires callable { CanSearch F.FnMut (items_under (H.number hash) self.now) eq }
        ensures { (slot : Option ℕ) × (last : F) × Searches F.FnMut (items_under (H.number hash) self.now) eq slot last × (option_copied result ≡ option_and_then (item_in self.now) slot) }
    {
        let (_, item) = find_slot(
            &self.slots,
            self.tags.as_slice(tags_beside(&self.slots)),
            self.far,
            mask_of(&self.slots),
            Kept::of(hash),
            eq,
        )?;
        Some(item)
    }

    /// An empty slot for a new item under this hash, if the group at the hash's home shows one and shows that no item is
    /// under the hash; otherwise `None`. It mostly finds one if no item is under the hash. The slot is valid until the next
    /// change.
    #[inline(always)]
    pub fn vacancy(&self, hash: H) -> Option<usize>
        ensures none { IfSome result (λ _. items_under (H.number hash) self.now ≡ []) }
        ensures vacant { IfSome result (λ slot. IsVacancy (H.number hash) self.now.slots slot) }
    {
        // The test also shows the compiler that there are slots.
        if self.slots() == 0 {
            return None;
        }
        vacancy(
            &self.slots,
            self.tags.as_slice(tags_beside(&self.slots)),
            mask_of(&self.slots),
            Kept::of(hash),
        )
    }

    /// The first full slot from `from` on, or `None`.
    #[inline]
    pub fn next_full(&self, from: usize) -> Option<usize>
        ensures full { IfSome result (λ slot. from ≤ slot × IsSome (member_at self.now slot)) }
        ensures passed { IfSome result (λ slot. (p : ℕ) → from ≤ p → p < slot → member_at self.now p ≡ None) }
        ensures none { IfNone result ((p : ℕ) → from ≤ p → member_at self.now p ≡ None) }
    {
        next_full(
            &self.slots,
            self.tags.as_slice(tags_beside(&self.slots)),
            from,
        )
    }

    /// The item at a slot, or `None` if the slot is empty.
    #[inline]
    pub fn get(&self, slot: usize) -> Option<&T>
        ensures { option_copied result ≡ option_map (λ m. m.1) (member_at self.now slot) }
    {
        if self.is_full(slot) {
            Some(self.get_unchecked(slot))
        } else {
            None
        }
    }

    /// The item at a full slot. The tag of the slot is not read.
    #[inline]
    pub fn get_unchecked(&self, slot: usize) -> &T
        requires { IsSome (member_at self.now slot) }
        ensures { option_map (λ m. m.1) (member_at self.now slot) ≡ Some result.now }
    {
        &self.slots.get(slot).1
    }

    /// The item at a slot for writing, or `None` if the slot is empty. The slot ends with what is left in it, under its
    /// hash, and all else is unchanged.
    #[inline]
    pub fn get_mut(&mut self, slot: usize) -> Option<&mut T>
        ensures* writes_back { sem 𝓛 (lends_get T.row H.row ⟦<H as KeptHash>⟧ self.entry slot result) }
        ensures value { option_copied_mut result ≡ option_map (λ m. m.1) (member_at self.old slot) }
    {
        if self.is_full(slot) {
            Some(self.get_unchecked_mut(slot))
        } else {
            None
        }
    }

    /// The item at a full slot, for writing. The tag of the slot is not read.
    #[inline]
    pub fn get_unchecked_mut(&mut self, slot: usize) -> &mut T
        requires { IsSome (member_at self.old slot) }
        ensures* writes_back { sem 𝓛 (lends_item T.row H.row ⟦<H as KeptHash>⟧ self.entry slot result) }
        ensures value { option_map (λ m. m.1) (member_at self.old slot) ≡ Some result.now }
    {
        &mut self.slots.get_mut(slot).1
    }

    // Whether a slot is full, by its tag.
    #[inline]
    fn is_full(&self, slot: usize) -> bool
        ensures { result ≡ is_some (member_at self.now slot) }
    {
        is_full(
            &self.slots,
            self.tags.as_slice(tags_beside(&self.slots)),
            slot,
        )
    }

    /// Inserts an item, even if an equal one is there, and returns its slot. The table grows only at room 0, and then at
    /// most to room for twice its length, or for 6. Refused only at room 0; the table is then unchanged, and the item comes
    /// back.
    #[inline]
    pub fn insert_unique(&mut self, hash: H, item: T) -> Result<usize, NoRoom<T>>
        ensures named { IfOk result (λ slot. member_at self.new slot ≡ Some (H.number hash, item)) }
        ensures added { OnOk result (IsPermutation ((H.number hash, item) ∷ members self.old) (members self.new)) }
        ensures room { OnOk result (GrowsAsNeeded self.old self.new) }

        ensures refused { OnErr result (self.old.room ≡ 0) }
        ensures unchanged { OnErr result (self.new ≡ self.old) }
        ensures returned { IfErr result (λ e. e.0 ≡ item) }
    {
        if let Err(AllocError) = self.reserve(1) {
            return Err(NoRoom(item));
        }
        Ok(self.insert_reserved(hash, item))
    }

    /// Inserts an item into a table with room, such as `reserve` leaves, and returns its slot. It is never refused.
    #[inline]
    pub fn insert_reserved(&mut self, hash: H, item: T) -> usize
        requires { 0 < self.old.room }
        ensures empty { member_at self.old result ≡ None }
        ensures within { result < length self.old.slots }
        ensures slots { self.new.slots ≡ slice_set self.old.slots result (Some (H.number hash, item)) }
        ensures named { member_at self.new result ≡ Some (H.number hash, item) }
        ensures added { IsPermutation ((H.number hash, item) ∷ members self.old) (members self.new) }
        ensures room { table_capacity self.new ≡ table_capacity self.old }
    {
        let count = tags_beside(&self.slots);
        let slot = put(
            &mut self.slots,
            self.tags.as_mut_slice(count),
            &mut self.far,
            Kept::of(hash),
            item,
        );
        self.len += 1;
        slot
    }

    /// Inserts an item into a slot that `vacancy` returned for this hash, with no change since. No slot is searched for.
    #[inline(always)]
    pub fn insert_at(&mut self, hash: H, item: T, slot: usize)
        requires room { 0 < self.old.room }
        requires vacant { IsVacancy (H.number hash) self.old.slots slot }
        ensures empty { member_at self.old slot ≡ None }
        ensures within { slot < length self.old.slots }
        ensures slots { self.new.slots ≡ slice_set self.old.slots slot (Some (H.number hash, item)) }
        ensures named { member_at self.new slot ≡ Some (H.number hash, item) }
        ensures added { IsPermutation ((H.number hash, item) ∷ members self.old) (members self.new) }
        ensures room { table_capacity self.new ≡ table_capacity self.old }
    {
        let count = tags_beside(&self.slots);
        put_at(
            &mut self.slots,
            self.tags.as_mut_slice(count),
            slot,
            Kept::of(hash),
            item,
        );
        self.len += 1;
    }

    /// Makes room for at least `additional` insertions. If the room is there, it asks for no memory and changes nothing;
    /// otherwise the table grows at most to room for twice the members that it is to have, or for 6. If memory is refused,
    /// the table is unchanged.
    #[inline]
    pub fn reserve(&mut self, additional: usize) -> Result<(), AllocError>
        ensures ok { OnOk result (additional ≤ self.new.room) }
        ensures most { self.old.room < additional → OnOk result (table_capacity self.new ≤ most_for (table_len self.old + additional)) }
        ensures bag { IsPermutation (members self.old) (members self.new) }
        ensures room { self.old.room ≤ self.new.room }
        ensures enough { additional ≤ self.old.room → self.new ≡ self.old }

        ensures refused { OnErr result (self.old.room < additional) }
        ensures unchanged { OnErr result (self.new ≡ self.old) }
    {
        if additional <= self.room() {
            return Ok(());
        }
        let Some(needed) = self.len().checked_add(additional) else {
            return Err(AllocError);
        };
        self.grow(needed)
    }

    #[inline(never)]
    fn grow(&mut self, needed: usize) -> Result<(), AllocError>
        requires { table_len self.old + self.old.room < needed }
        ensures ok { OnOk result (needed ≤ table_len self.old + self.new.room) }
        ensures most { OnOk result (table_capacity self.new ≤ most_for needed) }
        ensures room { self.old.room ≤ self.new.room }
        ensures bag { IsPermutation (members self.old) (members self.new) }
        ensures unchanged { OnErr result (self.new ≡ self.old) }
    {
        let larger = ReadyTable::keeping(self.tags.allocator(), needed)?;
        let old = mem::replace(self, larger);
        self.take_members(old);
        Ok(())
    }

    /// Takes in the members of another table, with their hashes. The call requires room for all of them, and for one even
    /// if the other table has none.
    pub fn take_members(&mut self, other: ReadyTable<T, H>)
        requires room { table_len other ≤ self.old.room }
        requires some { 0 < self.old.room }
        ensures added { IsPermutation (members other ++ members self.old) (members self.new) }
        ensures room { table_capacity self.new ≡ table_capacity self.old }
        ensures slots { length self.new.slots ≡ length self.old.slots }
    {
        let count = tags_beside(&self.slots);
        let ReadyTable {
            slots,
            tags,
            len,
            far: _,
        } = other;
        move_all(
            slots,
            tags,
            &mut self.slots,
            self.tags.as_mut_slice(count),
            &mut self.far,
        );
        self.len += len;
    }

    /// Removes the member of a slot, and returns it with its hash. Other members may move to other slots, and a search
    /// still finds each. The room comes back at once. If the slot is empty, nothing changes.
    #[inline]
    pub fn remove(&mut self, slot: usize) -> Option<(u64, T)>
        ensures found { result ≡ member_at self.old slot }
        ensures rest { IfSome result (λ m. IsPermutation (members self.old) (m ∷ members self.new)) }
        ensures none { IfNone result (self.new ≡ self.old) }
        ensures room { table_capacity self.new ≡ table_capacity self.old }
    {
        if self.is_full(slot) {
            Some(self.remove_unchecked(slot))
        } else {
            None
        }
    }

    /// Removes the member of a full slot, and returns it with its hash. That the slot is full is required, not tested.
    #[inline]
    pub fn remove_unchecked(&mut self, slot: usize) -> (u64, T)
        requires { IsSome (member_at self.old slot) }
        ensures found { member_at self.old slot ≡ Some result }
        ensures rest { IsPermutation (members self.old) (result ∷ members self.new) }
        ensures room { table_capacity self.new ≡ table_capacity self.old }
    {
        self.remove_followed(slot, &mut ())
    }

    /// Removes the member of a full slot, and returns it with its hash. It notifies `follower` of each member that moves.
    #[inline]
    pub fn remove_followed<F: Follows<T>>(&mut self, slot: usize, follower: &mut F) -> (u64, T)
        requires full { IsSome (member_at self.old slot) }
        requires known { F.knows follower.old (slice_set self.old.slots slot None) }
        ensures known { F.knows follower.new self.new.slots }
        ensures size { F.size follower.new ≡ F.size follower.old }
        ensures slots { length self.new.slots ≡ length self.old.slots }
        ensures found { member_at self.old slot ≡ Some result }
        ensures rest { IsPermutation (members self.old) (result ∷ members self.new) }
        ensures room { table_capacity self.new ≡ table_capacity self.old }
    {
        let count = tags_beside(&self.slots);
        let tags = self.tags.as_mut_slice(count);
        let member = take_out(&mut self.slots, tags, self.far, slot, follower);
        self.len -= 1;
        (member.0.number(), member.1)
    }

    /// Replaces each item by what `f` returns for it, under its hash. `f` is called once on each member, in the order of
    /// iteration. The room is unchanged.
    pub fn replace_each<F: FnMut(&T) -> T>(&mut self, f: F)
    where
        T: Drop,
        requires { CanReplace F.FnMut (items_of self.old) f }
        ensures replaced { (last : F) × ReplacesEach F.FnMut f self.old.slots self.new.slots last }
        ensures room { self.new.room ≡ self.old.room }
    {
        let count = tags_beside(&self.slots);
        replace_items(&mut self.slots, self.tags.as_slice(count), f);
    }

    /// Keeps the members that `f` accepts, with what `f` left in their items, and removes the others. `f` is called once on
    /// each member, in the order of iteration. No memory is asked for, and the room of the removed members comes back.
    pub fn retain<F: FnMut(&mut T) -> bool>(&mut self, f: F)
    where
        T: Drop,
        requires { CanRetain F.FnMut (items_of self.old) f }
        ensures kept { (kept : List (ℕ × T)) × RetainsInTurn (AsksMember F.FnMut) f (members self.old) kept × IsPermutation kept (members self.new) }
        ensures room { table_capacity self.new ≡ table_capacity self.old }
    {
        let count = tags_beside(&self.slots);
        let kept = retain_items(&mut self.slots, self.tags.as_mut_slice(count), f);
        self.len = kept;
        self.far = u64::MAX;
    }

    /// Removes every member. Their room comes back.
    pub fn clear(&mut self)
    where
        T: Drop,
        ensures empty { members self.new ≡ [] }
        ensures room { self.new.room ≡ table_capacity self.old }
        ensures slots { length self.new.slots ≡ length self.old.slots }
    {
        if self.len() == 0 {
            return;
        }
        let count = tags_beside(&self.slots);
        empty_all(&mut self.slots, self.tags.as_slice(count));
        untag(self.tags.as_mut_slice(count), &self.slots);
        self.len = 0;
        self.far = 0;
    }

    /// The items in the order of iteration, which is not promised, with exact length and size hint.
    #[inline]
    pub fn iter(&self) -> Iter<'_, T, H>
        ensures { result ≡ items_of self.now }
    {
        let tags = self.tags.as_slice(tags_beside(&self.slots));
        Iter::new(&self.slots, tags, self.len())
    }

    /// The members in the order of iteration, each as its hash and its item, by value, with exact length and size hint.
    #[inline]
    pub fn into_iter(self) -> IntoIter<T, H>
        ensures { result ≡ members self }
    {
        let ReadyTable {
            slots,
            tags,
            len,
            far: _,
        } = self;
        IntoIter::new(slots, tags, len)
    }
}

impl<'a, T, H: KeptHash> IntoIterator for &'a ReadyTable<T, H> {
    type Item = &'a T;

    type IntoIter = Iter<'a, T, H>;

    ghost into_iter_gives = { λ t it. it ≡ items_of t.now };

    #[inline]
    fn into_iter(self) -> Iter<'a, T, H> {
        self.iter()
    }
}

impl<T: Clone, H: KeptHash> Clone for ReadyTable<T, H> {
    ghost is_clone = { IsTableClone T.is_clone };

    ghost is_infallible = { λ t. NeedsNoMemory t };

    /// Clones the table slot by slot. A table without members and room asks for no memory, and its clone is not refused.
    #[tactic(auto, using(crate::proofs::TagCount::tags_fit))]
    fn clone(&self) -> Result<Self, AllocError> {
        let alloc = self.tags.allocator();
        let count = self.slots.cells();
        if count == 0 {
            return Ok(ReadyTable::without_slots(alloc));
        }
        let (mut slots, mut tags) = empty_slots(alloc, count)?;
        let cloned = clone_members(
            &self.slots,
            self.tags.as_slice(count + WINDOW),
            &mut slots,
            tags.as_mut_slice(count + WINDOW),
        );
        match cloned {
            Ok(()) => Ok(ReadyTable {
                slots,
                tags,
                len: self.len,
                far: self.far,
            }),
            Err(refused) => {
                drop_all(slots, tags);
                Err(refused)
            }
        }
    }
}

impl<T: Drop, H: KeptHash> Drop for ReadyTable<T, H> {
    fn drop(self) {
        let ReadyTable {
            slots,
            tags,
            len: _,
            far: _,
        } = self;
        drop_all(slots, tags);
    }
}
