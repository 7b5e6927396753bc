//! `OrderedSet::try_insert`, and why it refuses.
ghost use Rattle.std.specs.Prelude.{◌≡◌, IfErr};
ghost use Rattle.std.specs.Borrow.{sem};
ghost use Rattle.starlark_hash.specs.Entries.{match_of};
ghost use Rattle.starlark_small.specs.Map.{own_hashed};
ghost use Rattle.starlark_sets.specs.Lend.{ordered_ends_so};
ghost use Rattle.starlark_sets.specs.TryInsert.{AnswersTry, IsPlaced, IsTold, IsWithin, Tries};
ghost use Rattle.starlark_sets.specs.Set.{element_at};

use super::OrderedSet;
use starlark_hash::{Hashed, NoRoom};
use std::hash::Hash;

/// A refused element, and the equal one that is there.
#[derive(Debug, Drop)]
pub struct OccupiedError<'a, T> {
    /// The refused element.
    pub value: T,
    /// The element that is there.
    pub occupied: &'a T,
}

/// Why `OrderedSet::try_insert` refused an element.
#[derive(Debug, Drop)]
pub enum TryInsertError<'a, T> {
    /// An equal element is there, under the same hash.
    Occupied(OccupiedError<'a, T>),
    /// There was no room, and memory was refused.
    Memory(NoRoom<T>),
}

// Why `insert_new` refused an element. `Placed` has the index of the equal element that is there.
#[derive(Drop)]
enum Refusal<T> {
    Placed(usize, T),
    Full(NoRoom<T>),
}

impl<T: Eq> OrderedSet<T> {
    /// Appends an element that is new under its own hash. If an equal one is there, `Occupied` hands this one back
    /// beside it, and nothing changes. If a new one finds no room and memory is refused, `Memory` hands it back, and
    /// elements and hash index are unchanged.
    pub fn try_insert(&mut self, value: T) -> Result<(), TryInsertError<'_, T>>
    where
        T: Hash,
        ensures* set { sem 𝓛 (ordered_ends_so T.row T.PartialEq self.entry (λ new. Tries T.eq self.old new (own_hashed T.hash_input value) result)) }
        ensures answers { AnswersTry T.eq self.old (own_hashed T.hash_input value) result }
    {
        let tried = self.insert_new(value);
        told(self.frozen(), tried)
    }

    // Returns the set by a shared reference, so that it is no longer written.
    fn frozen(&mut self) -> &Self
        ensures* set { sem 𝓛 (ordered_ends_so T.row T.PartialEq self.entry (λ new. new ≡ self.old)) }
        ensures now { result.now ≡ self.old }
    {
        self
    }

    // Appends an element that is new under its own hash, or returns it with the index of the equal one that is there.
    fn insert_new(&mut self, value: T) -> Result<(), Refusal<T>>
    where
        T: Hash,
        ensures set { Tries T.eq self.old self.new (own_hashed T.hash_input value) result }
        ensures placed { IfErr result (IsPlaced self.new.entries (element_at self.old (match_of T.eq self.old.entries (own_hashed T.hash_input value))) value) }
        ensures within { IfErr result (IsWithin self.new.entries) }
    {
        let element = Hashed::new(value);
        if let Some(index) = self.0.get_index_of_hashed(element.as_ref()) {
            return Err(Refusal::Placed(index, element.into_key()));
        }
        if let Err(NoRoom(element)) = self.0.insert_hashed_unique_unchecked(element) {
            return Err(Refusal::Full(NoRoom(element.into_key())));
        }
        Ok(())
    }
}

// Turns the index of a refusal into the element there.
fn told<'a, T: Eq>(
    set: &'a OrderedSet<T>,
    tried: Result<(), Refusal<T>>,
) -> Result<(), TryInsertError<'a, T>>
    requires { IfErr tried (IsWithin set.now.entries) }
    ensures { IsTold set.now.entries tried result }
{
    match tried {
        Ok(()) => Ok(()),
        Err(Refusal::Placed(index, value)) => match set.0.get_index(index) {
            Some(occupied) => Err(TryInsertError::Occupied(OccupiedError { value, occupied })),
            None => unreachable!(),
        },
        Err(Refusal::Full(refused)) => Err(TryInsertError::Memory(refused)),
    }
}
