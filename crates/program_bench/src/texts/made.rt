//! The texts of the workloads, out of streams of numbers.

use crate::fault::Fault;
use crate::keys::{Key, places};
use std::alloc::Global;
use std::collections::HashSet;

// Where identifiers take their signs from: the first 27 may begin one.
const SIGNS: &[u8] = b"abcdefghijklmnopqrstuvwxyz_0123456789";

const FOLDERS: [&str; 16] = [
    "src",
    "lib",
    "core",
    "util",
    "tools",
    "third_party",
    "rust",
    "python",
    "java",
    "net",
    "http",
    "json",
    "parser",
    "runtime",
    "compiler",
    "analysis",
];

const TARGETS: [&str; 8] = [
    "target", "library", "tests", "main", "proto", "bindings", "headers", "data",
];

// The attributes of rules, as they are named in build files.
const ATTRIBUTES: [&str; 40] = [
    "name",
    "srcs",
    "deps",
    "visibility",
    "hdrs",
    "copts",
    "linkopts",
    "data",
    "tags",
    "testonly",
    "licenses",
    "features",
    "defines",
    "includes",
    "outs",
    "cmd",
    "tools",
    "args",
    "env",
    "size",
    "timeout",
    "flaky",
    "shard_count",
    "main",
    "crate_name",
    "edition",
    "rustc_flags",
    "exported_deps",
    "exported_headers",
    "compiler_flags",
    "resources",
    "out",
    "executable",
    "compatible_with",
    "exec_properties",
    "toolchains",
    "labels",
    "contacts",
    "within_view",
    "metadata",
];

// Steps that meet each of 40 attributes, and steps that meet each of 3, 5, 8 or 12.
const STEPS: [usize; 8] = [1, 3, 7, 9, 11, 13, 17, 19];

const STRIDES: [usize; 4] = [1, 7, 11, 13];

// The names that stand in maps; as many follow that stand in none.
const NAMES: usize = 100_000;

// How many words there are in each part of a vocabulary: each part has as much of the text as any other.
const OCTAVES: [usize; 13] = [1, 2, 4, 8, 16, 32, 64, 128, 256, 512, 1024, 2048, 4096];

/// How many words there are in the text whose words are counted.
pub const PROSE: usize = 200_000;

/// The texts, and of each a copy at another address.
#[derive(Drop)]
pub struct Texts {
    pub names: Vec<String>,
    pub name_copies: Vec<String>,
    pub labels: Vec<String>,
    pub label_copies: Vec<String>,
    attributes: Vec<String>,
    attribute_copies: Vec<String>,
    pub prose: String,
}

impl Texts {
    /// The texts.
    pub fn new(alloc: Global) -> Result<Texts, Fault> {
        let names = identifiers(alloc, &NAME, 2 * NAMES)?;
        let name_copies = names.clone()?;
        let labels = labels(alloc, 50_000)?;
        let label_copies = labels.clone()?;
        let attributes = attributes(alloc)?;
        let attribute_copies = attributes.clone()?;
        let prose = prose(alloc, &identifiers(alloc, &WORD, 5000)?)?;
        Ok(Texts {
            names,
            name_copies,
            labels,
            label_copies,
            attributes,
            attribute_copies,
            prose,
        })
    }

    /// Copies of the names that stand in maps.
    pub fn there(&self) -> &[String] {
        self.name_copies.get(..NAMES).unwrap_or(&[])
    }

    /// Copies of the names that stand in none.
    pub fn absent(&self) -> &[String] {
        self.name_copies.get(NAMES..).unwrap_or(&[])
    }
}

/// As many of the first `n` texts as asked for.
pub fn drawn(alloc: Global, texts: &[String], n: usize, len: usize) -> Result<Vec<&str>, Fault> {
    let mut drawn = Vec::with_capacity(alloc, len)?;
    for place in places(alloc, n, len)? {
        if let Some(text) = texts.get(place) {
            drawn.push(text.as_str())?;
        }
    }
    Ok(drawn)
}

// The next number of a stream below `end`.
fn below(state: &mut u64, end: usize) -> usize {
    *state = state.after();
    ((*state >> 32) % (end as u64).max(1)) as usize
}

// A kind of identifiers.
struct Kind {
    seed: u64,
    shortest: usize,
    lengths: usize,
    signs: usize,
}

// As in a program: 3 to 18 letters, `_` and digits.
const NAME: Kind = Kind {
    seed: 0x9e37_79b9_7f4a_7c15,
    shortest: 3,
    lengths: 16,
    signs: 37,
};

// As in a text: 2 to 11 letters.
const WORD: Kind = Kind {
    seed: 0x2545_f491_4f6c_dd1d,
    shortest: 2,
    lengths: 10,
    signs: 26,
};

// One of the first signs.
fn sign(state: &mut u64, signs: usize) -> char {
    SIGNS
        .get(below(state, signs))
        .map_or('_', |sign| *sign as char)
}

fn identifier(alloc: Global, state: &mut u64, kind: &Kind) -> Result<String, Fault> {
    let len = kind.shortest.saturating_add(below(state, kind.lengths));
    let mut text = String::with_capacity(alloc, len)?;
    text.push(sign(state, kind.signs.min(27)))?;
    for _ in 1..len {
        text.push(sign(state, kind.signs))?;
    }
    Ok(text)
}

// So many identifiers, of which no two are equal.
fn identifiers(alloc: Global, kind: &Kind, count: usize) -> Result<Vec<String>, Fault> {
    let mut state = kind.seed;
    let mut seen = HashSet::new(alloc);
    let mut texts = Vec::with_capacity(alloc, count)?;
    for _ in 0..count.saturating_mul(4) {
        if texts.len() == count {
            break;
        }
        let text = identifier(alloc, &mut state, kind)?;
        if seen.insert(text.clone()?)? {
            texts.push(text)?;
        }
    }
    Ok(texts)
}

// One of these.
fn one_of<T: Copy + Default>(state: &mut u64, these: &[T]) -> T {
    these
        .get(below(state, these.len()))
        .copied()
        .unwrap_or_default()
}

// So many labels of targets, as `//util/src/dir7:target_123`, of which no two are equal.
fn labels(alloc: Global, count: usize) -> Result<Vec<String>, Fault> {
    let mut state = 0xd1b5_4a32_d192_ed03_u64;
    let mut labels = Vec::with_capacity(alloc, count)?;
    for number in 0..count {
        let package = one_of(&mut state, &FOLDERS);
        let folder = one_of(&mut state, &FOLDERS);
        let inner = below(&mut state, 10);
        let target = one_of(&mut state, &TARGETS);
        labels.push(format!(in alloc; "//{package}/{folder}/dir{inner}:{target}_{number}")?)?;
    }
    Ok(labels)
}

fn attributes(alloc: Global) -> Result<Vec<String>, Fault> {
    let mut names = Vec::with_capacity(alloc, ATTRIBUTES.len())?;
    for name in ATTRIBUTES {
        names.push(String::from_str(alloc, name)?)?;
    }
    Ok(names)
}

// The attribute so many steps on.
fn attribute(names: &[String], first: usize, steps: usize, step: usize) -> &str {
    match names.get(first.wrapping_add(steps.wrapping_mul(step)) % 40) {
        Some(name) => name.as_str(),
        None => "",
    }
}

/// The attributes of so many rules of `n` attributes each, in the order in which they are given and in that in which they
/// are asked for.
pub fn rules(
    alloc: Global,
    texts: &Texts,
    n: usize,
    count: usize,
) -> Result<(Vec<&str>, Vec<&str>), Fault> {
    let mut state = 0xbf58_476d_1ce4_e5b9_u64;
    let mut given = Vec::new(alloc);
    let mut asked = Vec::new(alloc);
    for _ in 0..count {
        let first = below(&mut state, 40);
        let step = one_of(&mut state, &STEPS);
        for k in 0..n {
            given.push(attribute(&texts.attributes, first, k, step))?;
        }
        let begin = below(&mut state, 12);
        let stride = one_of(&mut state, &STRIDES);
        for k in 0..n {
            let turned = begin.wrapping_add(k.wrapping_mul(stride)) % n.max(1);
            asked.push(attribute(&texts.attribute_copies, first, turned, step))?;
        }
    }
    Ok((given, asked))
}

// A text of some of these words, the k-th of them about 1/k as often as the first.
fn prose(alloc: Global, words: &[String]) -> Result<String, Fault> {
    let mut state = 0x94d0_49bb_1331_11eb_u64;
    let mut text = String::new(alloc);
    for _ in 0..PROSE {
        let size = one_of(&mut state, &OCTAVES);
        let first = size.saturating_sub(1);
        let rank = below(&mut state, size.min(words.len().saturating_sub(first)));
        if !text.is_empty() {
            text.push(' ')?;
        }
        if let Some(word) = words.get(first.saturating_add(rank)) {
            text.push_str(word)?;
        }
    }
    Ok(text)
}
