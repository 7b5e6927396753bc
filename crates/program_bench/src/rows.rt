//! What the report asks of a workload, and the maps that workloads are run on.

use crate::fault::Fault;
use crate::pass::Pass;

/// A map.
#[derive(Clone, Copy, Debug, PartialEq, Eq)]
pub enum Map {
    /// Ours; its look-ups are by a hash that was computed before.
    Proved,
    /// Ours, with look-ups by key.
    ByKey,
    /// `IndexMap`, with its own hasher.
    Index,
    /// `IndexMap`, with ours.
    IndexFx,
    /// `HashMap`, with its own hasher.
    Hash,
    /// `HashMap`, with ours.
    HashFx,
}

impl Map {
    /// What stands for it in a line.
    pub fn name(self) -> &'static str {
        match self {
            Map::Proved => "proved",
            Map::ByKey => "by_key",
            Map::Index => "indexmap",
            Map::IndexFx => "indexmap_fx",
            Map::Hash => "hashmap",
            Map::HashFx => "hashmap_fx",
        }
    }
}

/// A workload with its keys: a row for each length and map.
pub trait Rows {
    /// Its name in a line.
    fn name(&self) -> &'static str;
    /// What stands for its keys in a line.
    fn keys(&self) -> &'static str;
    /// The lengths of its maps.
    fn lengths(&self) -> &'static [usize];
    /// How many operations a pass at this length has.
    fn operations(&self, n: usize) -> usize;
    /// The maps that it is run on.
    fn maps(&self) -> &'static [Map];
    /// One turn on a map: its quickest pass, where it has more than one.
    fn pass(&self, rt: &HostRuntime, map: Map, n: usize) -> Result<Pass, Fault>;
}
