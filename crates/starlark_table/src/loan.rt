//! The right to write the items of adjoining slots that a mutable iterator has still to reach.
ghost use Rattle.std.specs.Prelude.{◌≡◌, ℕ, ◌+◌, ◌<◌, ◌∷◌, length, Option};
ghost use Rattle.std.specs.Map.Iter.{deref_pair_mut};
ghost use Rattle.std.specs.Option.{option_copied_mut, option_map};
ghost use Rattle.starlark_table.specs.Loan.{AreMarked};

use crate::kept_hash::{Kept, KeptHash};
use crate::tags::EMPTY;
use starlark_columns::loan::{AllButLast, First};
use std::marker::Model;

// The right to write the slots still to be taken, `rest`, which begin with the `from`-th. Their hashes are frozen. `tie`
// names the loan of all slots, which the table follows.
#[derive(Drop)]
pub(crate) struct Loan<'a, T, H: KeptHash> {
    slots: starlark_columns::Loan<'a, (Kept<H>, T), First>,
    // Only the tags say at run time which slots are full.
    tags: &'a [u8],
}

impl<'a, T, H: KeptHash> Model for Loan<'a, T, H> {
    ghost use Rattle.starlark_table.specs.Loan.{AreMarked, Lent, lent_code};

    ghost Value = { Lent T };

    ghost coded = { lent_code T.code };

    ghost view = { λ l. record { from = l.slots.from; rest = l.slots.rest; tie = l.slots.tie } };

    ghost invariant = { λ l. AreMarked l.tags.now l.slots.from l.slots.rest };
}

impl<'a, T, H: KeptHash> Loan<'a, T, H> {
    #[inline]
    pub(crate) fn new(
        slots: starlark_columns::Loan<'a, (Kept<H>, T), First>,
        tags: &'a [u8],
    ) -> Self
        requires { AreMarked tags.now slots.from slots.rest }
        ensures from { result.from ≡ slots.entry.from }
        ensures rest { result.rest ≡ slots.entry.rest }
        ensures tie { result.tie ≡ slots.entry.tie }
    {
        Loan { slots, tags }
    }

    // Takes the next slot, and returns its item if it has one.
    #[inline]
    #[tactic(auto, using(crate::proofs::LentSlots::marking))]
    pub(crate) fn take(&mut self, index: usize) -> Option<&'a mut T>
        requires { (index ≡ self.old.from) × (0 < length self.old.rest) }
        ensures { (slot : Option (ℕ × T)) × (self.old.rest ≡ slot ∷ self.new.rest) × (option_copied_mut result ≡ option_map (λ m. m.1) slot) × (self.new.from ≡ self.old.from + 1) × (self.new.tie ≡ self.old.tie) }
    {
        if self.tags[index] == EMPTY {
            self.slots.skip();
            return None;
        }
        let (_, item) = self.slots.take_pair(index);
        Some(item)
    }
}

// The right to write the values of pairs in slots. Hashes and keys are frozen.
#[derive(Drop)]
pub(crate) struct PairLoan<'a, K, V, H: KeptHash> {
    slots: starlark_columns::Loan<'a, (Kept<H>, (K, V)), AllButLast>,
    tags: &'a [u8],
}

impl<'a, K, V, H: KeptHash> Model for PairLoan<'a, K, V, H> {
    ghost use Rattle.std.specs.Coded.{coded×};
    ghost use Rattle.starlark_table.specs.Loan.{AreMarked, Lent, lent_code};

    ghost Value = { Lent (K × V) };

    ghost coded = { lent_code (coded× K.code V.code) };

    ghost view = { λ l. record { from = l.slots.from; rest = l.slots.rest; tie = l.slots.tie } };

    ghost invariant = { λ l. AreMarked l.tags.now l.slots.from l.slots.rest };
}

impl<'a, K, V, H: KeptHash> PairLoan<'a, K, V, H> {
    #[inline]
    pub(crate) fn new(
        slots: starlark_columns::Loan<'a, (Kept<H>, (K, V)), AllButLast>,
        tags: &'a [u8],
    ) -> Self
        requires { AreMarked tags.now slots.from slots.rest }
        ensures from { result.from ≡ slots.entry.from }
        ensures rest { result.rest ≡ slots.entry.rest }
        ensures tie { result.tie ≡ slots.entry.tie }
    {
        PairLoan { slots, tags }
    }

    // Takes the next slot, and returns its pair if it has one.
    #[inline]
    #[tactic(auto, using(crate::proofs::LentSlots::marking))]
    pub(crate) fn take(&mut self, index: usize) -> Option<(&'a K, &'a mut V)>
        requires { (index ≡ self.old.from) × (0 < length self.old.rest) }
        ensures { (slot : Option (ℕ × (K × V))) × (self.old.rest ≡ slot ∷ self.new.rest) × (option_map deref_pair_mut result ≡ option_map (λ m. m.1) slot) × (self.new.from ≡ self.old.from + 1) × (self.new.tie ≡ self.old.tie) }
    {
        if self.tags[index] == EMPTY {
            self.slots.skip();
            return None;
        }
        Some(self.slots.take_value(index))
    }
}
