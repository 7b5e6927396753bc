//! `SmallMap::reserve` and `maybe_drop_index`.
ghost use Rattle.std.specs.Prelude.{◌<◌, ◌≡◌, ◌+◌, ◌-◌, ◌≤◌, false, min, nat_le, length, if◌then◌else◌};
ghost use Rattle.starlark_small.specs.Memory.{Reserves};
ghost use Rattle.starlark_small.specs.Index.{unindexed};

use super::SmallMap;
use crate::index::UNINDEXED;
use std::alloc::AllocError;

impl<K: Eq, V> SmallMap<K, V> {
    /// Makes room for `additional` new entries. If there is room already, it asks for no memory and changes nothing.
    /// The capacity grows as that of a `Vec2` does. Afterwards there is a hash index exactly if there was one, or if
    /// the length asked for is above `UNINDEXED`. A refusal leaves entries and hash index unchanged. The capacity may
    /// then have grown; a second refusal grows it no further. Length plus room never falls.
    #[inline]
    pub fn reserve(&mut self, additional: usize) -> Result<(), AllocError>
        ensures reserves { Reserves additional self.old self.new result }
    {
        // Two tests take fewer instructions than one of the room, which is the smaller of two numbers.
        let len = self.entries.len();
        if additional <= self.entries.capacity() - len && additional <= self.index.room(len) {
            return Ok(());
        }
        self.grow(additional)
    }

    // The part of `reserve` that asks for memory. It is not inlined, so that only the test is.
    #[cold]
    #[inline(never)]
    fn grow(&mut self, additional: usize) -> Result<(), AllocError>
        requires { self.old.room < additional }
        ensures reserves { Reserves additional self.old self.new result }
    {
        self.entries.reserve(additional)?;
        self.index.reserve(&self.entries, additional)
    }

    /// Drops the hash index of a list that is no longer than `UNINDEXED`. A longer list keeps it, and nothing changes.
    /// Length plus room is then at least the smaller of what it was and `UNINDEXED`. No other call lowers this sum, and
    /// no other call drops the hash index.
    pub fn maybe_drop_index(&mut self)
        ensures entries { self.new.entries ≡ self.old.entries }
        ensures capacity { self.new.capacity ≡ self.old.capacity }
        ensures indexed { self.new.indexed ≡ (if nat_le (length self.old.entries) unindexed then false else self.old.indexed) }
        ensures room { min (length self.old.entries + self.old.room) unindexed ≤ length self.new.entries + self.new.room }
        ensures long { unindexed < length self.old.entries → self.new ≡ self.old }
    {
        self.index.drop_if_short(self.entries.len());
    }
}
