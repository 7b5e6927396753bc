//! Keys under a hash, and the hasher.

use play_words::values::finished;
use play_words::{Fault, Key, Out, Words};
use starlark_map::{Hashed, StarlarkHashValue, StarlarkHasher};
use std::hash::Hasher;

/// Two keys under a hash: how they compare, what the first one feeds, and their texts.
pub fn hashed_keys<K: Key>(mut words: Words<'_>, out: &mut Out) -> Result<(), Fault> {
    let first: Hashed<K> = words.hashed()?;
    let second: Hashed<K> = words.hashed()?;
    order(&first, &second, out)?;
    out.put(first == second)?;
    out.put(finished(&first))?;
    out.put(first.key())?;
    out.put(second.as_ref().cloned()?)?;
    out.debug(&first)?;
    out.put(&*second)
}

// How two keys compare, by both comparisons.
fn order<K: Key>(first: &Hashed<K>, second: &Hashed<K>, out: &mut Out) -> Result<(), Fault> {
    let ordering = first.cmp(second);
    if first.partial_cmp(second) != Some(ordering) {
        out.say("another partial order")?;
    }
    out.put(ordering)
}

/// What a hasher finishes with that is fed numbers and bytes, and what becomes of a number.
pub fn feed_hasher(mut words: Words<'_>, out: &mut Out) -> Result<(), Fault> {
    let mut hasher = StarlarkHasher::new();
    for _ in 0..words.rest().len() {
        let Some(kind) = words.maybe() else {
            break;
        };
        match kind {
            "mix" => mixed(words.number()?, out)?,
            "bytes" => hasher.write(words.word()?.as_bytes()),
            _ => feed(&mut hasher, kind, &mut words)?,
        }
    }
    out.put(hasher.finish())?;
    out.put(hasher.finish_small().get())
}

fn mixed(number: u64, out: &mut Out) -> Result<(), Fault> {
    out.put(StarlarkHashValue::hash_64(number).get())?;
    let hash = (number & 0xffff_ffff) as u32;
    out.put(StarlarkHashValue::new_unchecked(hash).promote())
}

fn feed(hasher: &mut StarlarkHasher, kind: &str, words: &mut Words<'_>) -> Result<(), Fault> {
    match kind {
        "u8" => hasher.write_u8(words.number()?),
        "u16" => hasher.write_u16(words.number()?),
        "u32" => hasher.write_u32(words.number()?),
        "u64" => hasher.write_u64(words.number()?),
        "u128" => hasher.write_u128(words.number()?),
        "usize" => hasher.write_usize(words.number()?),
        "i8" => hasher.write_i8(words.number()?),
        "i16" => hasher.write_i16(words.number()?),
        "i32" => hasher.write_i32(words.number()?),
        "i64" => hasher.write_i64(words.number()?),
        "i128" => hasher.write_i128(words.number()?),
        "isize" => hasher.write_isize(words.number()?),
        _ => return Err(Fault::BadLine),
    }
    Ok(())
}
