//! Removals of an index from the table, and changes of indices. Each keeps the cells true.
ghost use Rattle.std.specs.Prelude.{◌≡◌, ℕ, ◌-◌, ◌^◌, ◌<◌, ◌≤◌, length, slice_index, IsSome};
ghost use Rattle.std.specs.List.{All};
ghost use Rattle.starlark_small.specs.Slots.{IsSited, NamesSlots, RenamesEach, StandsBut, StandsOnce, TakesIndex, lowered};
ghost use Rattle.starlark_table.specs.Table.{member_at, members, with_item};

use super::{Cells, Indices};

// Up to this many slots, which take 2 MB, the table fits a processor's caches, and indices are lowered slot by slot.
const NEAR: usize = 1 << 18;

// Removes an index from its slot. The cells follow the members that move back.
#[inline]
pub(super) fn take_index(table: &mut Indices, cells: &mut Cells, index: usize)
    requires within { index < length cells.old.0.items }
    requires sited { IsSited cells.old.0.items table.old.slots }
    requires stands { IsSome (member_at table.old (slice_index cells.old.0.items index)) }
    requires few { length table.old.slots ≤ 2 ^ 32 }
    ensures { TakesIndex index table.old table.new cells.old.0 cells.new.0 }
{
    let slot = cells.0[index] as usize;
    table.remove_followed(slot, cells);
}

// Decrements each index above a removed one: slot by slot if the table is small or if these indices are few.
pub(super) fn lower_above(table: &mut Indices, cells: &Vec<u32>, index: usize)
    requires within { index < length cells.now.items }
    requires few { length cells.now.items ≤ 2 ^ 32 }
    requires sited { IsSited cells.now.items table.old.slots }
    requires stands { StandsBut index cells.now.items table.old.slots }
    ensures { RenamesEach (lowered index) table.old table.new }
{
    let slots = table.slots();
    if slots <= NEAR || cells.len() - index < slots / 4 {
        lower_each(table, cells, index);
    } else {
        lower_all(table, index);
    }
}

// Writes another index into a full slot. The old index is not read.
#[inline]
fn write_index(table: &mut Indices, slot: usize, index: usize)
    requires full { IsSome (member_at table.old slot) }
    requires few { index < 2 ^ 32 }
    ensures { table.new ≡ with_item table.old slot index }
{
    *table.get_unchecked_mut(slot) = index as u32;
}

// Decrements each index above a removed one, slot by slot.
fn lower_each(table: &mut Indices, cells: &Vec<u32>, index: usize)
    requires within { index < length cells.now.items }
    requires few { length cells.now.items ≤ 2 ^ 32 }
    requires sited { IsSited cells.now.items table.old.slots }
    requires stands { StandsBut index cells.now.items table.old.slots }
    ensures { RenamesEach (lowered index) table.old table.new }
{
    for j in index + 1..cells.len() {
        write_index(table, cells[j] as usize, j - 1);
    }
}

// The index, decremented if it is above `last`. Branch-free, since the comparison would be mispredicted.
#[inline]
fn one_lower(index: u32, last: usize) -> u32
    ensures { result ≡ lowered last index }
{
    index - u32::from(index as usize > last)
}

// Decrements each index above a removed one, in one pass over the slots.
fn lower_all(table: &mut Indices, last: usize)
    ensures { RenamesEach (lowered last) table.old table.new }
{
    table.replace_each(
        |i: &u32| -> u32
            ensures { result ≡ lowered last i.now }
        { one_lower(*i, last) },
    );
}

// Replaces each index `i` by `to[i]`, in one pass over the slots.
pub(super) fn rename_each(table: &mut Indices, to: &[u32])
    requires { All (λ m. m.1 < length to.now) (members table.old) }
    ensures { RenamesEach (slice_index to.now) table.old table.new }
{
    table.replace_each(
        |i: &u32| -> u32
            requires { i.now < length to.now }
            ensures { result ≡ slice_index to.entry.now i.now }
        { to[*i as usize] },
    );
}

// Replaces each index of a list of length `len` by the index as far from the end, in one pass over the slots.
pub(super) fn reverse_each(table: &mut Indices, len: usize)
    requires within { All (λ m. m.1 < len) (members table.old) }
    requires few { len ≤ 2 ^ 32 }
    ensures { RenamesEach (λ index. len - 1 - index) table.old table.new }
{
    table.replace_each(
        |i: &u32| -> u32
            requires within { i.now < len }
            requires few { len ≤ 2 ^ 32 }
            ensures { result ≡ len - 1 - i.now }
        { (len - 1 - *i as usize) as u32 },
    );
}

// Writes the slot of each index into its cell, in one pass over the slots.
pub(super) fn name_slots(table: &Indices, cells: &mut Vec<u32>)
    requires below { All (λ m. m.1 < length cells.old.items) (members table.now) }
    requires once { StandsOnce table.now.slots }
    requires few { length table.now.slots ≤ 2 ^ 32 }
    ensures { NamesSlots table.now.slots cells.old cells.new }
{
    let mut from = 0;
    'slots: while let Some(slot) = table.next_full(from) {
        prove!(slot < table.slots());
        let index = *table.get_unchecked(slot);
        cells[index as usize] = slot as u32;
        from = slot + 1;
    }
}
