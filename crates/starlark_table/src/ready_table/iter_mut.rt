//! Mutable iteration over the items of a `ReadyTable`.
ghost use Rattle.std.specs.Prelude.{◌≡◌, ℕ};
ghost use Rattle.std.specs.Borrow.{sem};
ghost use Rattle.starlark_columns.specs.Loan.{cells_follow};
ghost use Rattle.starlark_table.specs.Layout.{IsTagged};
ghost use Rattle.starlark_table.specs.Lend.{Member, tags_stay};
ghost use Rattle.starlark_table.specs.Table.{items_of};

use super::ReadyTable;
use crate::iter_mut::IterMut;
use crate::kept_hash::{Kept, KeptHash};
use crate::loan::Loan;
use crate::probe::Slots;
use crate::tags::tags_beside;
use starlark_columns::Bytes;
use starlark_columns::loan::{First, Keeps};

// Lends the members of slots for writing, except what `P` keeps.
#[inline]
fn lend_members<T, H: KeptHash, P: Keeps<(Kept<H>, T)>>(
    slots: &mut Slots<T, H>,
) -> starlark_columns::Loan<'_, (Kept<H>, T), P>
    ensures* writes_back { sem 𝓛 (cells_follow (Member T.row H.row ⟦<H as KeptHash>⟧) P.kept slots.entry result.tie) }
    ensures untouched { result.from ≡ 0 }
    ensures rest { result.rest ≡ slots.old }
{
    slots.lend()
}

// Lends the tags for reading. They end unchanged.
#[inline]
fn shown(tags: &mut Bytes) -> &Bytes
    ensures* stay { sem 𝓛 (tags_stay tags.entry) }
    ensures now { result.now ≡ tags.old }
{
    tags
}

// Lends the members and the tags, by one call.
#[inline]
fn lend_fields<'a, T, H: KeptHash, P: Keeps<(Kept<H>, T)>>(
    slots: &'a mut Slots<T, H>,
    tags: &'a mut Bytes,
) -> (starlark_columns::Loan<'a, (Kept<H>, T), P>, &'a Bytes)
    ensures* slots { sem 𝓛 (cells_follow (Member T.row H.row ⟦<H as KeptHash>⟧) P.kept slots.entry result.0.tie) }
    ensures* tags { sem 𝓛 (tags_stay tags.entry) }
    ensures untouched { result.0.from ≡ 0 }
    ensures rest { result.0.rest ≡ slots.old }
    ensures shown { result.1.now ≡ tags.old }
{
    (lend_members(slots), shown(tags))
}

impl<T, H: KeptHash> ReadyTable<T, H> {
    ghost use Rattle.starlark_table.specs.Lend.{table_follows};
    ghost use Rattle.starlark_table.specs.Lend.{table_keeps};

    // Lends the members for writing, except what `P` keeps of them, and the tags for reading.
    #[inline]
    pub(super) fn lend_kept<P: Keeps<(Kept<H>, T)>>(
        &mut self,
    ) -> (starlark_columns::Loan<'_, (Kept<H>, T), P>, &Bytes)
        requires hash { (x w : ℕ × T) → (P.kept x w).0 ≡ x.0 }
        requires again { (x w : ℕ × T) → P.kept x (P.kept x w) ≡ P.kept x w }
        ensures* writes_back { sem 𝓛 (table_keeps T.row H.row ⟦<H as KeptHash>⟧ P.kept self.entry result.0.tie) }
        ensures untouched { result.0.from ≡ 0 }
        ensures rest { result.0.rest ≡ self.old.slots }
        ensures tagged { IsTagged result.1.now self.old.slots }
    {
        lend_fields(&mut self.slots, &mut self.tags)
    }

    #[inline]
    #[tactic(auto, using(crate::proofs::LentSlots::marking))]
    pub(crate) fn lend(&mut self) -> Loan<'_, T, H>
        ensures* writes_back { sem 𝓛 (table_follows T.row H.row ⟦<H as KeptHash>⟧ self.entry result.tie) }
        ensures rest { (result.from ≡ 0) × (result.rest ≡ self.old.slots) }
    {
        let count = tags_beside(&self.slots);
        let (slots, tags) = self.lend_kept::<First>();
        Loan::new(slots, tags.as_slice(count))
    }

    /// The items in the order of iteration, each for writing, with exact length and size hint. The table ends with the
    /// items that are left in its slots. Hashes, room and all else are unchanged.
    #[inline]
    pub fn iter_mut(&mut self) -> IterMut<'_, T, H>
        ensures* writes_back { sem 𝓛 (table_follows T.row H.row ⟦<H as KeptHash>⟧ self.entry result.1) }
        ensures items { result.0 ≡ items_of self.old }
    {
        let left = self.len();
        let end = self.slots.cells();
        IterMut::new(self.lend(), end, left)
    }
}
