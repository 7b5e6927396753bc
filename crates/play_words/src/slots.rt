//! The four collections of a type that a script has.

use crate::values::compare;
use crate::{Fault, Out, Words};
use std::alloc::AllocError;

/// The letter of a collection.
#[derive(Clone, Copy, PartialEq, Eq)]
pub enum Slot {
    A,
    B,
    C,
    D,
}

/// Four collections of a type. They stand in an array, since the check takes minutes for a function that drops a struct with
/// dozens of collections, and a second where they stand in arrays.
#[derive(Drop)]
pub struct Slots<T> {
    all: [T; 4],
}

impl<T> Slots<T> {
    /// These four.
    pub fn new(a: T, b: T, c: T, d: T) -> Slots<T> {
        Slots { all: [a, b, c, d] }
    }

    /// The collection under a letter.
    pub fn at(&self, slot: Slot) -> &T {
        match slot {
            Slot::A => &self.all[0],
            Slot::B => &self.all[1],
            Slot::C => &self.all[2],
            Slot::D => &self.all[3],
        }
    }

    /// The collection under a letter, to be written.
    pub fn at_mut(&mut self, slot: Slot) -> &mut T {
        match slot {
            Slot::A => &mut self.all[0],
            Slot::B => &mut self.all[1],
            Slot::C => &mut self.all[2],
            Slot::D => &mut self.all[3],
        }
    }
}

impl<T: Drop> Slots<T> {
    /// Puts a collection that was made under a letter.
    pub fn set(
        &mut self,
        slot: Slot,
        made: Result<T, AllocError>,
        out: &mut Out,
    ) -> Result<(), Fault> {
        *self.at_mut(slot) = made?;
        out.say("ok")
    }
}

impl<T: PartialEq> Slots<T> {
    /// SLOT: whether the collection under a letter is equal to this one.
    pub fn equal(&self, slot: Slot, mut words: Words<'_>, out: &mut Out) -> Result<(), Fault> {
        let other = words.slot()?;
        out.put(self.at(slot) == self.at(other))
    }
}

impl<T: Ord> Slots<T> {
    /// SLOT: how the collection under a letter compares with this one.
    pub fn compare(&self, slot: Slot, mut words: Words<'_>, out: &mut Out) -> Result<(), Fault> {
        let other = words.slot()?;
        compare(self.at(slot), self.at(other), out)
    }
}
