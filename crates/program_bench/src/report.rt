//! What is printed of the workloads.

use crate::fault::Fault;
use crate::keys::{Key, stream};
use crate::pass::Pass;
use crate::rows::{Map, Rows};
use crate::texts::{self, Keys, TextRows, Texts, Work};
use crate::workload::{self, NumberRows, Workload};
use crate::workloads::{MILLION, Removed};

// How many turns a map has. A figure is the best of all its passes.
const TURNS: usize = 7;

// The few workloads of texts that the gate compares, on each of their maps.
const FEW_TEXTS: [(Work, Keys, usize); 9] = [
    (Work::Hit, Keys::Owned, 64),
    (Work::Hit, Keys::Borrowed, 8),
    (Work::Hit, Keys::Unordered, 1000),
    (Work::Miss, Keys::Owned, 200),
    (Work::Attributes, Keys::Borrowed, 5),
    (Work::Attributes, Keys::Owned, 5),
    (Work::Words, Keys::Owned, 5000),
    (Work::Labels, Keys::Unordered, 1000),
    (Work::Hash, Keys::Borrowed, 64),
];

// The few workloads of numbers that it compares, on our maps.
const FEW: [(Workload, usize); 17] = [
    (Workload::Build, 4),
    (Workload::Build, 64),
    (Workload::Build, 1000),
    (Workload::BuildRoomy, 1000),
    (Workload::Hold, 1),
    (Workload::Hit, 1000),
    (Workload::Miss, 1000),
    (Workload::Walk, 1000),
    (Workload::Cycle(Removed::Middle), 32),
    (Workload::Cycle(Removed::First), 1000),
    (Workload::Cycle(Removed::Random), 1000),
    (Workload::Pop, 32),
    (Workload::Sort, 8),
    (Workload::UnorderedInsert, 1000),
    (Workload::UnorderedHit, 1000),
    (Workload::UnorderedMiss, 1000),
    (Workload::Union, 1000),
];

// The fewer of them that it compares on each of the maps.
const PEERS: [(Workload, usize); 5] = [
    (Workload::Hit, 64),
    (Workload::Cycle(Removed::Middle), 8),
    (Workload::Sort, 8),
    (Workload::UnorderedWalk, 1000),
    (Workload::UnorderedCycle, 32),
];

/// Prints the checksums of a few workloads.
pub fn checksums(rt: &HostRuntime) -> Result<(), Fault> {
    checksums_of_texts(rt)?;
    checksums_of::<u32>(rt)?;
    checksums_of::<u64>(rt)?;
    checksums_of_peers(rt)
}

fn checksums_of_texts(rt: &HostRuntime) -> Result<(), Fault> {
    let texts = Texts::new(rt.alloc())?;
    for (work, keys, n) in FEW_TEXTS {
        let rows = TextRows {
            work,
            keys,
            texts: &texts,
        };
        print_checksums(rt, &rows, rows.maps(), n)?;
    }
    Ok(())
}

fn checksums_of<K: Key>(rt: &HostRuntime) -> Result<(), Fault> {
    let keys = stream::<K>(rt.alloc(), 2 * MILLION)?;
    for (workload, n) in FEW {
        let rows = NumberRows {
            workload,
            keys: keys.as_slice(),
        };
        print_checksums(rt, &rows, &[Map::Proved], n)?;
    }
    Ok(())
}

fn checksums_of_peers(rt: &HostRuntime) -> Result<(), Fault> {
    let keys = stream::<u32>(rt.alloc(), 2 * MILLION)?;
    for (workload, n) in PEERS {
        let rows = NumberRows {
            workload,
            keys: keys.as_slice(),
        };
        print_checksums(rt, &rows, rows.maps(), n)?;
    }
    Ok(())
}

// The checksum of one turn on each of these maps.
fn print_checksums<R: Rows>(
    rt: &HostRuntime,
    rows: &R,
    maps: &[Map],
    n: usize,
) -> Result<(), Fault> {
    for map in maps {
        let pass = rows.pass(rt, *map, n)?;
        println!(rt;
            "{}.{}.{} {n} {}",
            rows.name(),
            map.name(),
            rows.keys(),
            pass.checksum
        )?;
    }
    Ok(())
}

/// Prints name, length, nanoseconds an operation and checksum of each workload on each map whose line begins with one
/// of the words.
pub fn times(rt: &HostRuntime, words: &[String]) -> Result<(), Fault> {
    times_of_texts(rt, words)?;
    times_of::<u32>(rt, words)?;
    times_of::<u64>(rt, words)
}

fn times_of_texts(rt: &HostRuntime, words: &[String]) -> Result<(), Fault> {
    let texts = Texts::new(rt.alloc())?;
    for (work, keys) in texts::ALL {
        print_times(
            rt,
            words,
            &TextRows {
                work,
                keys,
                texts: &texts,
            },
        )?;
    }
    Ok(())
}

fn times_of<K: Key>(rt: &HostRuntime, words: &[String]) -> Result<(), Fault> {
    let keys = stream::<K>(rt.alloc(), 2 * MILLION)?;
    for workload in workload::ALL {
        print_times(
            rt,
            words,
            &NumberRows {
                workload,
                keys: keys.as_slice(),
            },
        )?;
    }
    Ok(())
}

// The lines of a workload that begin with one of the words.
fn print_times<R: Rows>(rt: &HostRuntime, words: &[String], rows: &R) -> Result<(), Fault> {
    for n in rows.lengths() {
        let maps = wanted(rt, words, rows, *n)?;
        let bests = bests(rt, rows, &maps, *n)?;
        let operations = rows.operations(*n).max(1) as u128;
        for (map, best) in maps.iter().zip(bests.iter()) {
            let hundredths = best.nanos.saturating_mul(100) / operations;
            println!(rt;
                "{}.{}.{} {n} {}.{:02} {}",
                rows.name(),
                map.name(),
                rows.keys(),
                hundredths / 100,
                hundredths % 100,
                best.checksum
            )?;
        }
    }
    Ok(())
}

// The maps of whose lines one at this length begins with one of the words.
fn wanted<R: Rows>(
    rt: &HostRuntime,
    words: &[String],
    rows: &R,
    n: usize,
) -> Result<Vec<Map>, Fault> {
    let mut maps = Vec::new(rt.alloc());
    for map in rows.maps() {
        let line = format!(in rt.alloc(); "{}.{}.{} {n} ", rows.name(), map.name(), rows.keys())?;
        if words.iter().any(|word| line.starts_with(word.as_str())) {
            maps.push(*map)?;
        }
    }
    Ok(maps)
}

// The quickest pass of each map, whose passes all have one checksum. The maps take turns, so that each meets the same
// load.
fn bests<R: Rows>(rt: &HostRuntime, rows: &R, maps: &[Map], n: usize) -> Result<Vec<Pass>, Fault> {
    let mut bests = Vec::with_capacity(rt.alloc(), maps.len())?;
    for map in maps {
        bests.push(rows.pass(rt, *map, n)?)?;
    }
    for _ in 1..TURNS {
        for (map, best) in maps.iter().zip(bests.iter_mut()) {
            *best = best.or(rows.pass(rt, *map, n)?)?;
        }
    }
    Ok(bests)
}
