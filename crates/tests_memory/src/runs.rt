//! Whole runs: each of their calls does its commands where memory is there for the replies.

use crate::given::{Numbers, gives, same};
use starlark_map::Hashed;
use starlark_map::small_map::SmallMap;
use starlark_runs::{
    Command, Reply, held_room_stays, replies_agree, reserved_insertions_succeed, run,
};
use std::alloc::{AllocError, Global};
use std::process::Abort;

type Replies = Vec<Reply<u32, u32, u32>>;

fn value_of(_key: &u32, value: &u32) -> u32 {
    *value
}

// Room for two keys, and the two keys.
fn two_keys(alloc: Global) -> Result<Vec<Command<u32, u32>>, AllocError> {
    Ok(vec![in alloc;
        Command::Reserve(2),
        Command::Insert(Hashed::new(1), 10),
        Command::Insert(Hashed::new(2), 20),
    ]?)
}

// How many of the replies are that a new key was inserted.
fn inserted(replies: &Replies) -> usize {
    let mut count = 0usize;
    for reply in replies {
        if matches!(reply, Reply::Old(None)) {
            count = count.wrapping_add(1);
        }
    }
    count
}

// How many keys a run inserted, and such as take what was held and what was reserved.
fn done(alloc: Global) -> Result<[usize; 3], AllocError> {
    let mut first: Numbers = SmallMap::new(alloc);
    let replies = run(alloc, &mut first, two_keys(alloc)?, value_of)?;
    let mut second: Numbers = SmallMap::new(alloc);
    let held = held_room_stays(alloc, &mut second, two_keys(alloc)?, value_of)?;
    let mut third: Numbers = SmallMap::new(alloc);
    let reserved = reserved_insertions_succeed(alloc, &mut third, two_keys(alloc)?, value_of)?;
    Ok([inserted(&replies), inserted(&held), inserted(&reserved)])
}

#[test]
fn runs_or_is_refused(rt: HostRuntime) {
    gives(&rt, done(rt.alloc()), done(rt.alloc()), [2, 2, 2]);
}

// How many keys each of two equal runs inserted.
fn done_twice(alloc: Global) -> Result<(usize, usize), AllocError> {
    let mut first: Numbers = SmallMap::new(alloc);
    let mut second: Numbers = SmallMap::new(alloc);
    let (commands, again) = (two_keys(alloc)?, two_keys(alloc)?);
    let (replies, others) = replies_agree(
        alloc,
        &mut first,
        &mut second,
        commands,
        again,
        value_of,
        value_of,
    )?;
    Ok((inserted(&replies), inserted(&others)))
}

#[test]
fn runs_twice_or_is_refused(rt: HostRuntime) {
    gives(&rt, done_twice(rt.alloc()), done_twice(rt.alloc()), (2, 2));
}

// Room for forty keys, and the forty keys.
fn forty_keys(alloc: Global, drops_index: bool) -> Result<Vec<Command<u32, u32>>, AllocError> {
    let mut commands = vec![in alloc; Command::Reserve(40)]?;
    if drops_index {
        commands.push(Command::DropIndex)?;
    }
    for key in 0..40u32 {
        commands.push(Command::Insert(Hashed::new(key), key))?;
    }
    Ok(commands)
}

// Whether a run made room for two thousand keys.
fn made_room(alloc: Global) -> Result<bool, AllocError> {
    let mut map: Numbers = SmallMap::new(alloc);
    let commands = vec![in alloc; Command::Reserve(2000)]?;
    let replies = run(alloc, &mut map, commands, value_of)?;
    Ok(matches!(replies.get(0), Some(Reply::Done)))
}

// Of two runs one finds memory.
// Case: room for two thousand is reserved by a run
#[test]
fn makes_room_for_two_thousand(rt: HostRuntime) {
    let made = [made_room(rt.alloc()), made_room(rt.alloc())];
    same(&rt, made.contains(&Ok(true)), true);
}

// Whether the room was reserved, how many keys were inserted, and how many there are.
fn done_with_room(alloc: Global, drops_index: bool) -> Result<(bool, usize, usize), AllocError> {
    let mut map: Numbers = SmallMap::new(alloc);
    let commands = forty_keys(alloc, drops_index)?;
    let replies = run(alloc, &mut map, commands, value_of)?;
    let reserved = matches!(replies.get(0), Some(Reply::Done));
    Ok((reserved, inserted(&replies), map.len()))
}

// Ends the process where two runs that were done inserted other keys than those for which there was room.
fn runs_with_room(rt: &(impl Abort + AllocGlobal), drops_index: bool, least: usize) {
    for _ in 0..2 {
        if let Ok((true, inserted, len)) = done_with_room(rt.alloc(), drops_index) {
            same(rt, (inserted.max(least), len), (inserted, inserted));
        }
    }
}

// Case: a run inserts what it reserved, and without its index what needs none
#[test]
fn inserts_what_it_reserved(rt: HostRuntime) {
    runs_with_room(&rt, false, 40);
}

// Case: a run inserts what it reserved, and without its index what needs none
#[test]
fn inserts_what_needs_no_index(rt: HostRuntime) {
    runs_with_room(&rt, true, 16);
}
