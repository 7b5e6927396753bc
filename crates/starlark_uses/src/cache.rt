//! Answers that are kept under sets of numbers.
ghost use Rattle.std.specs.Option.{option_copied};
ghost use Rattle.std.specs.Prelude.{◌≡◌, [], None, IfErr, IfOk, OnErr, OnOk};
ghost use Rattle.starlark_unordered.specs.Pairs.{pairs_of};
ghost use Rattle.starlark_uses.specs.Cache.{Caches, cached};

use starlark_hash::NoRoom;
use starlark_sets::OrderedSet;
use starlark_unordered::UnorderedMap;
use std::alloc::Global;
use std::marker::Model;

/// A cache whose keys are sets. Sets with the same elements in the same order are one key.
#[derive(Drop)]
pub struct Cache<V> {
    answers: UnorderedMap<OrderedSet<u32>, V>,
}

impl<V> Model for Cache<V> {
    ghost use Rattle.starlark_uses.specs.Cache.{Answers};

    ghost Value = { Answers V };

    ghost view = { λ c. c.answers };
}

impl<V> Cache<V> {
    /// A cache without answers, which asks for no memory before the first.
    pub fn new(alloc: Global) -> Self
        ensures { pairs_of result ≡ [] }
    {
        Cache {
            answers: UnorderedMap::new(alloc),
        }
    }

    /// The answer for an equal set.
    pub fn get(&self, set: &OrderedSet<u32>) -> Option<&V>
        ensures { option_copied result ≡ cached self.now set.now }
    {
        self.answers.get(set)
    }

    /// Keeps the answer for a set, and gives the one that it had. Every equal set hits it then, and all others have
    /// what they had. A set that has an answer is never refused. Where there is no memory, the set and the answer come
    /// back, and nothing changes.
    pub fn put(
        &mut self,
        set: OrderedSet<u32>,
        answer: V,
    ) -> Result<Option<V>, NoRoom<(OrderedSet<u32>, V)>>
    where
        V: Drop,
        ensures had { IfOk result (λ had. had ≡ cached self.old set) }
        ensures kept { OnOk result (Caches self.old self.new set answer) }
        ensures absent { OnErr result (cached self.old set ≡ None) }
        ensures handed_back { IfErr result (λ refused. refused.0 ≡ (set, answer)) }
        ensures unchanged { OnErr result (self.new ≡ self.old) }
    {
        let had = self.answers.insert(set, answer)?;
        Ok(had)
    }
}
