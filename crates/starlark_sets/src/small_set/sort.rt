//! The calls that change the order of a `SmallSet`.
ghost use Rattle.starlark_small.specs.Sort.{SortsByKey, Turns};
ghost use Rattle.std.specs.Prelude.{◌-◌};

use super::SmallSet;
use std::alloc::AllocError;

impl<T: Eq> SmallSet<T> {
    /// Sorts the elements; equal ones keep their order. If they ascend already, no memory is asked for. A refusal
    /// leaves the elements as they were. Capacity and hash index stay.
    pub fn sort(&mut self) -> Result<(), AllocError>
    where
        T: Ord,
        ensures { SortsByKey T.eq T.cmp self.old self.new result }
    {
        self.map.sort_keys()
    }

    /// Reverses the order of the elements. Capacity and hash index stay.
    pub fn reverse(&mut self)
        ensures { Turns T.eq self.old self.new }
    {
        self.map.reverse();
    }
}
