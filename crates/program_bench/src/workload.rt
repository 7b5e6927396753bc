//! The workloads of maps from numbers to numbers: which there are, of what lengths, and on which maps.

use crate::fault::Fault;
use crate::keys::Key;
use crate::maps::{SmallByHash, UnorderedByHash};
use crate::pass::Pass;
use crate::peer::{Asked, Listed, Roomy, Walked};
use crate::rows::{Map, Rows};
use crate::sorted;
use crate::sorts::{sort, sort_again};
use crate::workloads::{
    MILLION, Removed, build, build_roomy, cycle, cycle_keys, hit, hold, insert, miss, pop, turns,
    walk,
};
use indexmap::IndexMap;
use starlark_hash::StarlarkHasherBuilder;
use starlark_small::SmallMap;
use starlark_unordered::UnorderedMap;
use std::collections::HashMap;
use std::hash::{BuildHasherDefault, FoldHasher};

/// A workload. Those of unordered maps are run on our `UnorderedMap`, the union on our `SortedSet`, all others on our
/// `SmallMap`.
#[derive(Clone, Copy, Debug, PartialEq, Eq)]
pub enum Workload {
    Build,
    BuildRoomy,
    Hold,
    Hit,
    Miss,
    Walk,
    Cycle(Removed),
    Pop,
    Sort,
    SortAgain,
    UnorderedInsert,
    UnorderedHit,
    UnorderedMiss,
    UnorderedWalk,
    UnorderedCycle,
    Union,
}

/// The workloads in the order of their lines.
pub const ALL: [Workload; 18] = [
    Workload::Build,
    Workload::BuildRoomy,
    Workload::Hold,
    Workload::Hit,
    Workload::Miss,
    Workload::Walk,
    Workload::Cycle(Removed::Middle),
    Workload::Cycle(Removed::First),
    Workload::Cycle(Removed::Random),
    Workload::Pop,
    Workload::Sort,
    Workload::SortAgain,
    Workload::UnorderedInsert,
    Workload::UnorderedHit,
    Workload::UnorderedMiss,
    Workload::UnorderedWalk,
    Workload::UnorderedCycle,
    Workload::Union,
];

/// A workload with its keys.
#[derive(Clone, Copy)]
pub struct NumberRows<'a, K: Key> {
    pub workload: Workload,
    pub keys: &'a [K],
}

impl<'a, K: Key> Rows for NumberRows<'a, K> {
    fn name(&self) -> &'static str {
        self.workload.name()
    }

    fn keys(&self) -> &'static str {
        K::name()
    }

    fn lengths(&self) -> &'static [usize] {
        self.workload.lengths()
    }

    fn operations(&self, n: usize) -> usize {
        self.workload.operations(n)
    }

    fn maps(&self) -> &'static [Map] {
        self.workload.maps()
    }

    fn pass(&self, rt: &HostRuntime, map: Map, n: usize) -> Result<Pass, Fault> {
        self.workload.pass(rt, map, self.keys, n)
    }
}

impl Workload {
    fn name(self) -> &'static str {
        match self {
            Workload::Build => "a_build",
            Workload::BuildRoomy => "e_capacity",
            Workload::Hold => "h_hold",
            Workload::Hit => "b_hit",
            Workload::Miss => "b_miss",
            Workload::Walk => "c_walk",
            Workload::Cycle(Removed::Middle) => "d_cycle",
            Workload::Cycle(Removed::First) => "d_first",
            Workload::Cycle(Removed::Random) => "d_random",
            Workload::Pop => "d_pop",
            Workload::Sort => "g_sort",
            Workload::SortAgain => "g_again",
            Workload::UnorderedInsert => "f_insert",
            Workload::UnorderedHit => "f_hit",
            Workload::UnorderedMiss => "f_miss",
            Workload::UnorderedWalk => "f_walk",
            Workload::UnorderedCycle => "f_cycle",
            Workload::Union => "i_union",
        }
    }

    fn lengths(self) -> &'static [usize] {
        match self {
            Workload::Build
            | Workload::BuildRoomy
            | Workload::Hit
            | Workload::Miss
            | Workload::Walk => &[4, 8, 16, 17, 24, 32, 64, 1000, 10_000, 100_000, 1_000_000],
            Workload::Hold => &[0, 1, 4, 8],
            Workload::Cycle(Removed::Middle) => &[8, 17, 24, 32, 64, 1000, 10_000],
            Workload::Cycle(_) => &[1000, 10_000, 100_000],
            Workload::Pop => &[8, 17, 24, 32, 64, 1000, 10_000, 1_000_000],
            Workload::Sort | Workload::SortAgain => &[8, 32, 1000, 100_000, 1_000_000],
            Workload::UnorderedInsert
            | Workload::UnorderedHit
            | Workload::UnorderedMiss
            | Workload::UnorderedWalk => &[8, 32, 1000, 100_000, 1_000_000],
            Workload::UnorderedCycle => &[8, 32, 1000, 10_000],
            Workload::Union => &[1000, 100_000],
        }
    }

    fn operations(self, n: usize) -> usize {
        let n = n.max(1);
        match self {
            Workload::Build | Workload::BuildRoomy | Workload::Pop => MILLION / n * n,
            Workload::Sort | Workload::SortAgain => MILLION / n * n,
            Workload::UnorderedInsert | Workload::Union => MILLION / n * n,
            Workload::Hit | Workload::Miss | Workload::Hold => MILLION,
            Workload::UnorderedHit | Workload::UnorderedMiss => MILLION,
            Workload::Walk | Workload::UnorderedWalk => 4 * MILLION / n * n,
            Workload::Cycle(_) | Workload::UnorderedCycle => turns(n),
        }
    }

    fn maps(self) -> &'static [Map] {
        match self {
            Workload::Build | Workload::BuildRoomy | Workload::Hold | Workload::Walk => &[
                Map::Proved,
                Map::Index,
                Map::IndexFx,
                Map::Hash,
                Map::HashFx,
            ],
            Workload::Hit | Workload::Miss => &[
                Map::Proved,
                Map::ByKey,
                Map::Index,
                Map::IndexFx,
                Map::Hash,
                Map::HashFx,
            ],
            Workload::Cycle(_) | Workload::Pop | Workload::Sort | Workload::SortAgain => &[
                Map::Proved,
                Map::Index,
                Map::IndexFx,
            ],
            Workload::UnorderedInsert | Workload::UnorderedWalk | Workload::UnorderedCycle => {
                &[Map::Proved, Map::Hash, Map::HashFx]
            }
            Workload::UnorderedHit | Workload::UnorderedMiss => {
                &[Map::Proved, Map::ByKey, Map::Hash, Map::HashFx]
            }
            Workload::Union => &[Map::Proved],
        }
    }

    // One turn on a map.
    fn pass<K: Key>(self, rt: &HostRuntime, map: Map, keys: &[K], n: usize) -> Result<Pass, Fault> {
        match (map, self) {
            (_, Workload::Union) => sorted::union(rt, keys, n),
            (Map::Proved, Workload::Hit | Workload::Miss) => {
                self.asked::<K, SmallByHash<K>>(rt, keys, n)
            }
            (Map::Proved, Workload::UnorderedHit | Workload::UnorderedMiss) => {
                self.asked::<K, UnorderedByHash<K>>(rt, keys, n)
            }
            (
                Map::Proved | Map::ByKey,
                Workload::UnorderedInsert
                | Workload::UnorderedHit
                | Workload::UnorderedMiss
                | Workload::UnorderedWalk
                | Workload::UnorderedCycle,
            ) => self.walked::<K, UnorderedMap<K, K>>(rt, keys, n),
            (Map::Proved | Map::ByKey, _) => self.listed::<K, SmallMap<K, K>>(rt, keys, n),
            (Map::Index, _) => {
                self.listed::<K, IndexMap<K, K, BuildHasherDefault<FoldHasher>>>(rt, keys, n)
            }
            (Map::IndexFx, _) => self.listed::<K, IndexMap<K, K, StarlarkHasherBuilder>>(
                rt, keys, n,
            ),
            (Map::Hash, _) => {
                self.roomy::<K, HashMap<K, K, BuildHasherDefault<FoldHasher>>>(rt, keys, n)
            }
            (Map::HashFx, _) => self.roomy::<K, HashMap<K, K, StarlarkHasherBuilder>>(rt, keys, n),
        }
    }

    // One pass on a map that is asked.
    fn asked<K: Key, M: Asked<K>>(
        self,
        rt: &HostRuntime,
        keys: &[K],
        n: usize,
    ) -> Result<Pass, Fault> {
        match self {
            Workload::Hit | Workload::UnorderedHit => hit::<K, M>(rt, keys, n),
            Workload::Miss | Workload::UnorderedMiss => miss::<K, M>(rt, keys, n),
            _ => Err(Fault::Map),
        }
    }

    // One pass on a map that is walked, and that gives a key away.
    fn walked<K: Key, M: Walked<K>>(
        self,
        rt: &HostRuntime,
        keys: &[K],
        n: usize,
    ) -> Result<Pass, Fault> {
        match self {
            Workload::Build => build::<K, M>(rt, keys, n),
            Workload::Hold => hold::<K, M>(rt, keys, n),
            Workload::Walk | Workload::UnorderedWalk => walk::<K, M>(rt, keys, n),
            Workload::UnorderedInsert => insert::<K, M>(rt, keys, n),
            Workload::UnorderedCycle => cycle_keys::<K, M>(rt, keys, n),
            _ => self.asked::<K, M>(rt, keys, n),
        }
    }

    // One pass on a map that makes room for its keys.
    fn roomy<K: Key, M: Roomy<K>>(
        self,
        rt: &HostRuntime,
        keys: &[K],
        n: usize,
    ) -> Result<Pass, Fault> {
        match self {
            Workload::BuildRoomy => build_roomy::<K, M>(rt, keys, n),
            _ => self.walked::<K, M>(rt, keys, n),
        }
    }

    // One pass on a list of entries.
    fn listed<K: Key, M: Listed<K>>(
        self,
        rt: &HostRuntime,
        keys: &[K],
        n: usize,
    ) -> Result<Pass, Fault> {
        match self {
            Workload::Cycle(removed) => cycle::<K, M>(rt, removed, keys, n),
            Workload::Pop => pop::<K, M>(rt, keys, n),
            Workload::Sort => sort::<K, M>(rt, keys, n),
            Workload::SortAgain => sort_again::<K, M>(rt, keys, n),
            _ => self.roomy::<K, M>(rt, keys, n),
        }
    }
}
