//! Walks that are played step by step. Each may be called at any state, as those of the library may.
ghost use Rattle.std.specs.Iterator.{IsFinite};

use crate::answers::Out;
use crate::fault::Fault;
use crate::shown::Shown;

// f: next, n: nth(1), N: nth(3), h: size_hint.
fn step<I: Iterator>(walk: &mut I, step: char, out: &mut Out) -> Result<(), Fault>
where
    I::Item: Shown + Drop,
    requires { (state : I) → I.can_next state }
{
    match step {
        'f' => out.item(walk.next()),
        'n' => out.item(walk.nth(1)),
        'N' => out.item(walk.nth(3)),
        'h' => out.hint(walk.size_hint()),
        _ => Err(Fault::BadLine),
    }
}

/// Plays the steps of a walk, and writes what each answers, and `/` and how many items are left. f: next, n: nth(1),
/// N: nth(3), h: size_hint; l: last, and k: count, which end it.
pub fn forth<I: ExactSizeIterator>(mut walk: I, steps: &str, out: &mut Out) -> Result<(), Fault>
where
    I::Item: Shown + Drop,
    requires { (state : I) → I.can_next state }
{
    for letter in steps.chars() {
        match letter {
            'l' => return last(walk, out),
            'k' => return count(walk, out),
            _ => step(&mut walk, letter, out)?,
        }
        out.left(walk.len())?;
    }
    Ok(())
}

fn last<I: ExactSizeIterator>(walk: I, out: &mut Out) -> Result<(), Fault>
where
    I::Item: Shown + Drop,
    requires { I.can_next walk }
{
    let _ = walk.len();
    out.item(walk.last())
}

fn count<I: ExactSizeIterator>(walk: I, out: &mut Out) -> Result<(), Fault>
where
    I::Item: Drop,
    requires { I.can_next walk }
{
    let _ = walk.len();
    out.put(walk.count())
}

/// Plays the steps of `forth`, and b: next_back. A c does nothing.
pub fn ends<I: ExactSizeIterator + DoubleEndedIterator>(
    mut walk: I,
    steps: &str,
    out: &mut Out,
) -> Result<(), Fault>
where
    I::Item: Shown + Drop,
    requires front { (state : I) → I.can_next state }
    requires back { (state : I) → I.can_next_back state }
{
    for letter in steps.chars() {
        match letter {
            'l' => return last(walk, out),
            'k' => return count(walk, out),
            'b' => out.item(walk.next_back())?,
            'c' => {}
            _ => step(&mut walk, letter, out)?,
        }
        out.left(walk.len())?;
    }
    Ok(())
}

/// Plays the steps of `ends`, where c is a clone that is walked to its end.
pub fn cloned_ends<I: ExactSizeIterator + DoubleEndedIterator + Clone>(
    mut walk: I,
    steps: &str,
    out: &mut Out,
) -> Result<(), Fault>
where
    I::Item: Shown + Drop,
    requires front { (state : I) → I.can_next state }
    requires back { (state : I) → I.can_next_back state }
{
    for letter in steps.chars() {
        match letter {
            'l' => return last(walk, out),
            'k' => return count(walk, out),
            'b' => out.item(walk.next_back())?,
            'c' => out.list(walk.clone()?)?,
            _ => step(&mut walk, letter, out)?,
        }
        out.left(walk.len())?;
    }
    Ok(())
}

/// Writes how many items a walk has, and the items.
pub fn all<I: ExactSizeIterator>(walk: I, out: &mut Out) -> Result<(), Fault>
where
    I::Item: Shown + Drop,
    requires { I.can_next walk }
{
    out.put(walk.len())?;
    for item in walk {
        out.put(item)?;
    }
    Ok(())
}

/// Plays a walk to its end, with its hint before each item and after the last, and once more after the end.
pub fn hinted<I: Iterator>(mut walk: I, out: &mut Out) -> Result<(), Fault>
where
    I::Item: Shown + Drop,
    requires can { (state : I) → I.can_next state }
    requires finite { (state : I) → IsFinite (I.remaining state) }
{
    out.hint(walk.size_hint())?;
    while let Some(item) = walk.next() {
        out.put(item)?;
        out.hint(walk.size_hint())?;
    }
    out.put(walk.next())?;
    out.hint(walk.size_hint())
}

/// Plays the steps of `forth` on a walk without a length: its hint stands after each step.
pub fn part<I: Iterator>(mut walk: I, steps: &str, out: &mut Out) -> Result<(), Fault>
where
    I::Item: Shown + Drop,
    requires can { (state : I) → I.can_next state }
    requires finite { (state : I) → IsFinite (I.remaining state) }
{
    for letter in steps.chars() {
        match letter {
            'l' => return out.put(walk.last()),
            'k' => return out.put(rest(walk)),
            'h' => {}
            _ => step(&mut walk, letter, out)?,
        }
        out.hint(walk.size_hint())?;
    }
    Ok(())
}

// How many items are left. No `count`, which asks of its caller that a `usize` counts them.
fn rest<I: Iterator>(walk: I) -> u64
where
    I::Item: Drop,
    requires can { I.can_next walk }
    requires finite { IsFinite (I.remaining walk) }
{
    let mut count = 0u64;
    for _ in walk {
        count = count.wrapping_add(1);
    }
    count
}
