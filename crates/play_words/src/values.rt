//! What is reckoned of values, and how collections compare.

use crate::answers::Out;
use crate::fault::Fault;
use starlark_map::StarlarkHasher;
use std::hash::{Hash, Hasher};

/// What a value becomes where it is written.
pub fn raised(value: i64, by: i64) -> i64 {
    value.wrapping_add(by)
}

/// Writes a value that is there, and adds to it.
pub fn write(value: Option<&mut i64>, by: i64, out: &mut Out) -> Result<(), Fault> {
    match value {
        None => out.say("none"),
        Some(value) => {
            out.put(*value)?;
            *value = raised(*value, by);
            Ok(())
        }
    }
}

/// Writes how many values a walk has, and adds to each.
pub fn raise<'a, I: ExactSizeIterator<Item = &'a mut i64>>(
    walk: I,
    by: i64,
    out: &mut Out,
) -> Result<(), Fault>
    requires { I.can_next walk }
{
    out.put(walk.len())?;
    for value in walk {
        *value = raised(*value, by);
    }
    Ok(())
}

/// The rest that is at least 0, by a number that is read as at least 1.
pub fn remainder(value: i64, by: i64) -> i64 {
    let by = by.max(1);
    let rest = value % by;
    if rest < 0 { rest + by } else { rest }
}

/// Whether the call numbered so, from 0 on, keeps: whether its number leaves another rest than this. The divisor is
/// read as at least 1.
pub fn sieve(by: u64, rest: u64, calls: &mut u64) -> bool {
    let keeps = *calls % by.max(1) != rest;
    *calls = calls.wrapping_add(1);
    keeps
}

/// With what a fresh hasher finishes.
pub fn finished<T: Hash>(value: &T) -> u64 {
    let mut hasher = StarlarkHasher::new();
    value.hash(&mut hasher);
    hasher.finish()
}

/// How two values compare.
pub fn compare<T: Ord>(first: &T, second: &T, out: &mut Out) -> Result<(), Fault> {
    let ordering = first.cmp(second);
    if first.partial_cmp(second) != Some(ordering) {
        out.say("another partial order")?;
    }
    out.put(ordering)?;
    out.put(first < second)?;
    out.put(first == second)
}
