//! Runs of commands, over the map's public calls.
ghost use Rattle.std.specs.Prelude.{◌≡◌, ◌+◌, ◌*◌, ◌≤◌, ℕ, [], length, max, slice_get, vec_capacity, IfOk, IsOk, OnErr, Some};
ghost use Rattle.std.specs.Option.{option_map};
ghost use Rattle.starlark_hash.specs.Entries.{Entry, entry_at, match_of, value_at, with_value};
ghost use Rattle.starlark_small.specs.Map.{KeepsMemory};
ghost use Rattle.starlark_runs.specs.Memory.{EndsWith, HasMemory, IsPastCeiling, Memory, MemoryRun, RefusesPastCeiling, ceiling_after, indexed_after, length_asked, memory_of};
ghost use Rattle.starlark_runs.specs.Run.{CanShow, IsDetermined, IsShown, Run, Shows, Step, TakesEntry, entry_shown};

use crate::command::{Command, Reply};
use starlark_hash::{Hashed, NoRoom};
use starlark_small::SmallMap;
use std::alloc::{AllocError, Global};
use std::mem;

// The index of a key, and what `look` shows of the entry there.
fn found_under<K: Eq, V, R, F: Fn(&K, &V) -> R>(
    map: &SmallMap<K, V>,
    key: &Hashed<K>,
    look: &F,
) -> Option<(usize, R)>
    requires { (e : Entry K V) → entry_at map.now.entries (match_of K.eq map.now.entries key.now) ≡ Some e → TakesEntry F.Fn look.now e }
    ensures index { option_map (λ found. found.0) result ≡ match_of K.eq map.now.entries key.now }
    ensures shown { IsShown (Shows F.Fn look.now) (entry_at map.now.entries (match_of K.eq map.now.entries key.now)) (option_map (λ found. found.1) result) }
{
    match map.get_full_hashed(key.as_ref()) {
        Some((i, key, value)) => Some((i, look(key, value))),
        None => None,
    }
}

// What `look` shows of the entry at an index.
fn shown_at<K: Eq, V, R, F: Fn(&K, &V) -> R>(map: &SmallMap<K, V>, i: usize, look: &F) -> Option<R>
    requires { (e : Entry K V) → slice_get map.now.entries i ≡ Some e → TakesEntry F.Fn look.now e }
    ensures { IsShown (Shows F.Fn look.now) (slice_get map.now.entries i) result }
{
    let (key, value) = map.get_index(i)?;
    Some(look(key, value))
}

// Replaces the value under a hash and key, and returns the old one. If there is none, the value is dropped.
#[tactic(auto, using(starlark_small::proofs::CallerLookup::look_ups))]
fn change<K: Eq, V: Drop>(map: &mut SmallMap<K, V>, key: &Hashed<K>, value: V) -> Option<V>
    ensures old { result ≡ value_at map.old.entries (match_of K.eq map.old.entries key.now) }
    ensures entries { map.new.entries ≡ with_value map.old.entries (match_of K.eq map.old.entries key.now) value }
    ensures kept { KeepsMemory map.old map.new }
{
    match map.get_mut_hashed(key.as_ref()) {
        Some(stored) => Some(mem::replace(stored, value)),
        None => None,
    }
}

// Does one command.
#[tactic(auto, using(starlark_small::proofs::CallerLookup::look_ups))]
fn step<K: Ord + Drop, V: Drop, R, F: Fn(&K, &V) -> R>(
    map: &mut SmallMap<K, V>,
    command: Command<K, V>,
    look: &F,
) -> Reply<K, V, R>
    requires { (e : Entry K V) → entry_shown K.eq map.old.entries command ≡ Some e → TakesEntry F.Fn look.now e }
    ensures step { Step K.eq K.cmp (Shows F.Fn look.now) map.old.entries command result map.new.entries }
    ensures refused { (ceiling : ℕ) → ceiling ≤ length map.old.entries + map.old.room → IsPastCeiling ceiling map.old.entries command result }
    ensures room { (ceiling : ℕ) → ceiling ≤ length map.old.entries + map.old.room → ceiling_after K.eq ceiling map.old.entries command result ≤ length map.new.entries + map.new.room }
    ensures capacity { map.new.capacity ≤ max map.old.capacity (max 4 (2 * length_asked K.eq map.old.entries command)) }
    ensures indexed { map.new.indexed ≡ indexed_after K.eq map.old.indexed map.old.entries command result }
{
    match command {
        Command::Look(key) => Reply::Found(found_under(map, &key, look)),
        Command::At(i) => Reply::Shown(shown_at(map, i, look)),
        Command::First => Reply::Shown(shown_at(map, 0, look)),
        Command::Last => Reply::Shown(shown_at(map, map.len().saturating_sub(1), look)),
        Command::Len => Reply::Count(map.len()),
        Command::Insert(key, value) => match map.insert_hashed(key, value) {
            Ok(old) => Reply::Old(old),
            Err(NoRoom((key, value))) => Reply::Refused(key, value),
        },
        Command::Change(key, value) => Reply::Old(change(map, &key, value)),
        Command::Remove(key) => Reply::Taken(map.shift_remove_hashed_entry(key.as_ref())),
        Command::RemoveAt(i) => Reply::TakenHashed(map.shift_remove_index_hashed(i)),
        Command::Pop => Reply::Taken(map.pop()),
        Command::Clear => {
            map.clear();
            Reply::Done
        }
        Command::Reverse => {
            map.reverse();
            Reply::Done
        }
        Command::Reserve(additional) => match map.reserve(additional) {
            Ok(()) => Reply::Done,
            Err(AllocError) => Reply::NoMemory,
        },
        Command::DropIndex => {
            map.maybe_drop_index();
            Reply::Done
        }
        Command::Sort => match map.sort_keys() {
            Ok(()) => Reply::Done,
            Err(_) => Reply::NoMemory,
        },
    }
}

// Does the commands in order, and pushes their replies onto an empty list that has room for them.
fn run_in<K: Ord + Drop, V: Drop, R, F: Fn(&K, &V) -> R>(
    map: &mut SmallMap<K, V>,
    commands: Vec<Command<K, V>>,
    look: &F,
    replies: &mut Vec<Reply<K, V, R>>,
)
    requires callable { CanShow F.Fn K.eq K.cmp look.now map.old.entries commands.items }
    requires empty { replies.old.items ≡ [] }
    requires room { length commands.items ≤ vec_capacity replies.old }
    ensures { (last : Memory) × MemoryRun K.eq K.cmp (Shows F.Fn look.now) (memory_of map.old) map.old.entries commands.items replies.new.items map.new.entries last × HasMemory map.old last map.new }
{
    let mut rest = commands.into_iter();
    while let Some(command) = rest.next() {
        replies.push_reserved(step(map, command, look));
    }
}

/// Does the commands in order on the map, and returns their replies. They are those of one plain list, and of every run
/// with the same refusals. `look` returns the part of an entry that a reply shows. It must be callable only on the entries
/// that commands show.
///
/// Memory for the replies is asked for before the first command: if it is not found, no command is done. What needs no
/// memory is not refused: a run of no commands, and in a run an insertion or a reservation below the ceiling, which is
/// computed from the lengths and reservations before it. Afterwards length plus room is at least the last ceiling. The
/// capacity is at most the largest of the one before, 4 and twice the greatest length that was asked for. There is a hash
/// index exactly if commands and replies leave one.
pub fn run<K: Ord + Drop, V: Drop, R: Drop, F: Fn(&K, &V) -> R>(
    alloc: Global,
    map: &mut SmallMap<K, V>,
    commands: Vec<Command<K, V>>,
    look: F,
) -> Result<Vec<Reply<K, V, R>>, AllocError>
where
    F: Drop,
    requires { CanShow F.Fn K.eq K.cmp look map.old.entries commands.items }
    // The replies and the final list are those of one plain list, and of no other run with these refusals.
    ensures run { IfOk result (λ replies.
        Run K.eq K.cmp (Shows F.Fn look) map.old.entries commands.items replies.items map.new.entries) }
    ensures determined { IfOk result (λ replies.
        IsDetermined K.eq K.cmp (Shows F.Fn look) map.old.entries commands.items replies.items map.new.entries) }

    // An insertion or a reservation is refused only past the ceiling. The run ends with the last ceiling, with a capacity
    // for what was asked, and with a hash index if the commands leave one.
    ensures refused { IfOk result (λ replies.
        RefusesPastCeiling K.eq K.cmp (Shows F.Fn look) map.old commands.items replies.items map.new.entries) }
    ensures room { IfOk result (λ replies.
        EndsWith K.eq K.cmp (Shows F.Fn look) map.old commands.items replies.items map.new.entries (λ last. last.ceiling ≤ length map.new.entries + map.new.room)) }
    ensures capacity { IfOk result (λ replies.
        EndsWith K.eq K.cmp (Shows F.Fn look) map.old commands.items replies.items map.new.entries (λ last. map.new.capacity ≤ max map.old.capacity (max 4 (2 * last.asked)))) }
    ensures indexed { IfOk result (λ replies.
        EndsWith K.eq K.cmp (Shows F.Fn look) map.old commands.items replies.items map.new.entries (λ last. map.new.indexed ≡ last.indexed)) }

    // A refusal comes before the first command.
    ensures unchanged { OnErr result (map.new ≡ map.old) }
    ensures succeeds { commands.items ≡ [] → IsOk result }
{
    let mut replies = Vec::with_capacity(alloc, commands.len())?;
    run_in(map, commands, &look, &mut replies);
    Ok(replies)
}
