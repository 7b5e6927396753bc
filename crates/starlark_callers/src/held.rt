//! A small map in a field.
ghost use Rattle.std.specs.Hash as fed;
ghost use Rattle.std.specs.Option.{unwrap_or};
ghost use Rattle.std.specs.Prelude.{◌≡◌, ◌≢◌, ℕ, ◌+◌, ◌<◌, ◌^◌, nat_eq, Some, OnOk, OnErr};
ghost use Rattle.starlark_small.specs.Lookup.{get};

use starlark_small::SmallMap;
use std::alloc::AllocError;

/// How many of each item there are.
#[derive(Drop)]
pub struct Stock {
    counts: SmallMap<u32, u32>,
}

impl Stock {
    /// How many of an item there are, and 0 of one that was never delivered.
    pub fn count(&self, item: u32) -> u32
        ensures { result ≡ unwrap_or (get nat_eq fed.u32 self.now.counts item) 0 }
    {
        self.counts.get(&item).copied().unwrap_or(0)
    }

    /// Adds so many of an item. Where memory is refused, all counts stay.
    pub fn deliver(&mut self, item: u32, n: u32) -> Result<(), AllocError>
        requires { unwrap_or (get nat_eq fed.u32 self.old.counts item) 0 + n < 2 ^ 32 }
        ensures here { OnOk result (get nat_eq fed.u32 self.new.counts item ≡ Some (unwrap_or (get nat_eq fed.u32 self.old.counts item) 0 + n)) }
        ensures others { OnOk result ((other : ℕ) → other ≢ item → get nat_eq fed.u32 self.new.counts other ≡ get nat_eq fed.u32 self.old.counts other) }
        ensures unchanged { OnErr result ((other : ℕ) → get nat_eq fed.u32 self.new.counts other ≡ get nat_eq fed.u32 self.old.counts other) }
    {
        *self.counts.entry(item).or_insert(0)? += n;
        Ok(())
    }
}
