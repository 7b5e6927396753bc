//! The workloads of maps from texts to numbers: which there are, of what lengths, and on which maps.

mod made;
mod map;
mod ours;
mod passes;
mod peers;

use crate::fault::Fault;
use crate::pass::Pass;
use crate::rows::{Map, Rows};
use indexmap::IndexMap;
pub use made::Texts;
use map::{Asks, TextMap};
use passes::{MILLION, attributes, hashes, labels, look_up, rounds, words};
use starlark_hash::{Hashed, StarlarkHasherBuilder};
use starlark_small::SmallMap;
use starlark_unordered::UnorderedMap;
use std::collections::HashMap;

/// A workload.
#[derive(Clone, Copy, Debug, PartialEq, Eq)]
pub enum Work {
    Hit,
    Miss,
    Attributes,
    Words,
    Labels,
    Hash,
    HashLabels,
}

/// What the map has.
#[derive(Clone, Copy, Debug, PartialEq, Eq)]
pub enum Keys {
    /// Strings.
    Owned,
    /// Texts that are borrowed.
    Borrowed,
    /// Strings, in no order: the map is an `UnorderedMap`.
    Unordered,
}

/// The workloads in the order of their lines.
pub const ALL: [(Work, Keys); 17] = [
    (Work::Hit, Keys::Owned),
    (Work::Hit, Keys::Borrowed),
    (Work::Hit, Keys::Unordered),
    (Work::Miss, Keys::Owned),
    (Work::Miss, Keys::Borrowed),
    (Work::Miss, Keys::Unordered),
    (Work::Attributes, Keys::Borrowed),
    (Work::Attributes, Keys::Owned),
    (Work::Attributes, Keys::Unordered),
    (Work::Words, Keys::Owned),
    (Work::Words, Keys::Borrowed),
    (Work::Words, Keys::Unordered),
    (Work::Labels, Keys::Owned),
    (Work::Labels, Keys::Borrowed),
    (Work::Labels, Keys::Unordered),
    (Work::Hash, Keys::Borrowed),
    (Work::HashLabels, Keys::Borrowed),
];

/// A workload with its texts.
#[derive(Clone, Copy)]
pub struct TextRows<'a> {
    pub work: Work,
    pub keys: Keys,
    pub texts: &'a Texts,
}

impl<'a> Rows for TextRows<'a> {
    fn name(&self) -> &'static str {
        match self.work {
            Work::Hit => "t_hit",
            Work::Miss => "t_miss",
            Work::Attributes => "t_attrs",
            Work::Words => "t_words",
            Work::Labels => "t_labels",
            Work::Hash => "t_hash",
            Work::HashLabels => "t_hash_labels",
        }
    }

    fn keys(&self) -> &'static str {
        match self.keys {
            Keys::Owned => "text",
            Keys::Borrowed => "str",
            Keys::Unordered => "unordered",
        }
    }

    fn lengths(&self) -> &'static [usize] {
        match self.work {
            Work::Hit | Work::Miss => &[4, 8, 16, 32, 64, 200, 1000, 100_000],
            Work::Attributes => &[3, 5, 8, 12],
            Work::Words => &[5000],
            Work::Labels => &[1000, 50_000],
            Work::Hash => &[64, 1000, 100_000],
            Work::HashLabels => &[64, 1000, 50_000],
        }
    }

    fn operations(&self, n: usize) -> usize {
        let n = n.max(1);
        match self.work {
            Work::Attributes => MILLION / n * n,
            Work::Words => made::PROSE,
            Work::Labels => rounds(n).saturating_mul(6).saturating_mul(n),
            _ => MILLION,
        }
    }

    fn maps(&self) -> &'static [Map] {
        match (self.work, self.keys) {
            (Work::Hash | Work::HashLabels, _) => &[Map::ByKey],
            (Work::Words | Work::Labels, Keys::Owned) => &[Map::ByKey, Map::IndexFx, Map::HashFx],
            (Work::Words | Work::Labels, Keys::Unordered) => &[Map::ByKey, Map::HashFx],
            (Work::Words | Work::Labels, Keys::Borrowed) => &[Map::ByKey],
            (_, Keys::Owned) => &[Map::Proved, Map::ByKey, Map::IndexFx, Map::HashFx],
            (_, Keys::Unordered) => &[Map::Proved, Map::ByKey, Map::HashFx],
            (_, Keys::Borrowed) => &[Map::Proved, Map::ByKey],
        }
    }

    fn pass(&self, rt: &HostRuntime, map: Map, n: usize) -> Result<Pass, Fault> {
        match (map, self.keys) {
            (Map::Proved, Keys::Owned) => {
                self.on::<SmallMap<String, u64>, Hashed<&'a str>>(rt, n)
            }
            (Map::Proved, Keys::Borrowed) => {
                self.on::<SmallMap<&'a str, u64>, Hashed<&'a str>>(rt, n)
            }
            (Map::Proved, Keys::Unordered) => {
                self.on::<UnorderedMap<String, u64>, Hashed<&'a str>>(rt, n)
            }
            (Map::ByKey, Keys::Owned) => self.on::<SmallMap<String, u64>, &'a str>(rt, n),
            (Map::ByKey, Keys::Borrowed) => self.on::<SmallMap<&'a str, u64>, &'a str>(rt, n),
            (Map::ByKey, Keys::Unordered) => self.on::<UnorderedMap<String, u64>, &'a str>(rt, n),
            (Map::IndexFx, _) => {
                self.on::<IndexMap<String, u64, StarlarkHasherBuilder>, &'a str>(rt, n)
            }
            _ => self.on::<HashMap<String, u64, StarlarkHasherBuilder>, &'a str>(rt, n),
        }
    }
}

impl<'a> TextRows<'a> {
    // One turn on a map that is asked in this way.
    fn on<M: TextMap<'a>, Q: Asks<'a, M>>(
        &self,
        rt: &HostRuntime,
        n: usize,
    ) -> Result<Pass, Fault> {
        let texts = self.texts;
        match self.work {
            Work::Hit => look_up::<M, Q>(rt, texts, texts.there(), n, n),
            Work::Miss => look_up::<M, Q>(rt, texts, texts.absent(), n, n.max(1000)),
            Work::Attributes => attributes::<M, Q>(rt, texts, n),
            Work::Words => words::<M>(rt, texts),
            Work::Labels => labels::<M>(rt, texts, n),
            Work::Hash => hashes(rt, &texts.name_copies, n),
            Work::HashLabels => hashes(rt, &texts.label_copies, n),
        }
    }
}
