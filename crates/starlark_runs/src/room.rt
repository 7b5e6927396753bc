//! The laws that a map accepts again, in a run, as many entries as it has held or as were reserved.
ghost use Rattle.std.specs.Prelude.{◌≡◌, ◌+◌, [], length, IfOk, IsOk, OnErr};
ghost use Rattle.starlark_runs.specs.Room.{AcceptsReserved, AcceptsUpTo, AcceptsWhatItHeld, AcceptsWhatItReserved};
ghost use Rattle.starlark_runs.specs.Run.{CanShow, Run, Shows};

use crate::command::{Command, Reply};
use crate::runs::run;
use starlark_small::SmallMap;
use std::alloc::{AllocError, Global};

/// Does the commands by `run`. A map that has held n entries, or for which n were reserved, refuses no insertion that
/// leaves it at n entries or fewer, whatever was removed, reversed, sorted or cleared in between, until a `DropIndex`. This
/// holds from the start, for length plus room, and from each command on. A run that is refused leaves the map unchanged.
pub fn held_room_stays<K: Ord + Drop, V: Drop, R: Drop, F: Fn(&K, &V) -> R>(
    alloc: Global,
    map: &mut SmallMap<K, V>,
    commands: Vec<Command<K, V>>,
    look: F,
) -> Result<Vec<Reply<K, V, R>>, AllocError>
where
    F: Drop,
    requires { CanShow F.Fn K.eq K.cmp look map.old.entries commands.items }
    ensures run { IfOk result (λ replies.
        Run K.eq K.cmp (Shows F.Fn look) map.old.entries commands.items replies.items map.new.entries) }
    ensures start { IfOk result (λ replies.
        AcceptsUpTo K.eq K.cmp (Shows F.Fn look) (length map.old.entries + map.old.room) map.old.entries commands.items replies.items) }
    ensures held { IfOk result (λ replies.
        AcceptsWhatItHeld K.eq K.cmp (Shows F.Fn look) map.old.entries commands.items replies.items) }
    ensures reserved { IfOk result (λ replies.
        AcceptsWhatItReserved K.eq K.cmp (Shows F.Fn look) map.old.entries commands.items replies.items) }
    ensures unchanged { OnErr result (map.new ≡ map.old) }
    ensures succeeds { commands.items ≡ [] → IsOk result }
{
    let replies = run(alloc, map, commands, look)?;
    Ok(replies)
}

/// Does the commands by `run`. After a `Reserve(n)` that is done, the next n insertions are not refused, whatever commands
/// come in between, until a `DropIndex`. A run that is refused leaves the map unchanged.
pub fn reserved_insertions_succeed<K: Ord + Drop, V: Drop, R: Drop, F: Fn(&K, &V) -> R>(
    alloc: Global,
    map: &mut SmallMap<K, V>,
    commands: Vec<Command<K, V>>,
    look: F,
) -> Result<Vec<Reply<K, V, R>>, AllocError>
where
    F: Drop,
    requires { CanShow F.Fn K.eq K.cmp look map.old.entries commands.items }
    ensures run { IfOk result (λ replies.
        Run K.eq K.cmp (Shows F.Fn look) map.old.entries commands.items replies.items map.new.entries) }
    ensures next { IfOk result (λ replies.
        AcceptsReserved K.eq K.cmp (Shows F.Fn look) map.old.entries commands.items replies.items) }
    ensures unchanged { OnErr result (map.new ≡ map.old) }
    ensures succeeds { commands.items ≡ [] → IsOk result }
{
    let replies = run(alloc, map, commands, look)?;
    Ok(replies)
}
