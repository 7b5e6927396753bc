//! Observers of a table's moves.
ghost use Rattle.std.specs.Prelude.{◌≡◌, ℕ, ⊤, List, Option};
ghost use Rattle.starlark_table.specs.Follow.{CanMove, after_move};

/// An observer that knows the slot of each member. A table notifies it of each member that it moves.
pub trait Follows<T> {
    // whether the observer knows the members of these slots
    ghost knows: { Self → List (Option (ℕ × T)) → Type 0 };

    // what no move changes: how many slots the observer records, and how many it has memory for
    ghost size: { Self → ℕ × ℕ };

    /// Notes that a member has moved, by its item and its new slot.
    fn moved(&mut self, item: &T, slot: usize)
        requires { (slots : List (Option (ℕ × T))) × (from : ℕ) × (h : ℕ) × CanMove slots from slot h item.now × knows self.old slots }
        ensures known { (slots : List (Option (ℕ × T))) → (from h : ℕ) → CanMove slots from slot h item.now → knows self.old slots → knows self.new (after_move slots from slot h item.now) }
        ensures size { size self.new ≡ size self.old };
}

/// The observer that records nothing.
impl<T> Follows<T> for () {
    ghost knows = { λ _ _. ⊤ };

    ghost size = { λ _. (0, 0) };

    #[inline(always)]
    fn moved(&mut self, _item: &T, _slot: usize) {}
}
