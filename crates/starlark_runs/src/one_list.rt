//! The law that the hash index never shows in a reply.
ghost use Rattle.std.specs.Prelude.{◌≡◌, IfOk, OnErr};
ghost use Rattle.starlark_runs.specs.OneList.{AgreeWhere, HaveSameRuns, IsShownOnce, NoneRefused, RunsOrStays, SameRefused};
ghost use Rattle.starlark_runs.specs.Run.{CanShow, Run, Shows};

use crate::command::{Command, Reply};
use crate::runs::run;
use starlark_small::SmallMap;
use std::alloc::{AllocError, Global};

/// Two maps with the same entries have the same runs, with a hash index or without: each reply that one map may give the
/// other may give, and both end with the same list. If the same commands are refused memory on both, or none is on either,
/// the replies are equal, if `look` shows an entry in one way only.
pub fn index_never_shows<K: Ord, V, R, F: Fn(&K, &V) -> R>(
    first: &SmallMap<K, V>,
    second: &SmallMap<K, V>,
    look: &F,
)
    ensures runs { first.now.entries ≡ second.now.entries → HaveSameRuns K.eq K.cmp (Shows F.Fn look.now) first.now.entries second.now.entries }
    ensures same_refused { first.now.entries ≡ second.now.entries → IsShownOnce (Shows F.Fn look.now) → AgreeWhere K.eq K.cmp (Shows F.Fn look.now) SameRefused first.now.entries second.now.entries }
    ensures none_refused { first.now.entries ≡ second.now.entries → IsShownOnce (Shows F.Fn look.now) → AgreeWhere K.eq K.cmp (Shows F.Fn look.now) NoneRefused first.now.entries second.now.entries }
{}

/// Does the same commands on two maps with the same entries, of which one may have a hash index and the other not, with one
/// `look` that shows an entry in one way only. If the same commands are refused memory on both, the replies are equal, and
/// both maps have the same entries afterwards. If memory for replies is refused, the second map is unchanged, and on the
/// first either no command was begun or all are done.
pub fn replies_agree<K: Ord + Drop, V: Drop, R: Drop, F: Fn(&K, &V) -> R>(
    alloc: Global,
    first: &mut SmallMap<K, V>,
    second: &mut SmallMap<K, V>,
    commands: Vec<Command<K, V>>,
    same_commands: Vec<Command<K, V>>,
    look: F,
    same_look: F,
) -> Result<(Vec<Reply<K, V, R>>, Vec<Reply<K, V, R>>), AllocError>
where
    F: Drop,
    requires first { CanShow F.Fn K.eq K.cmp look first.old.entries commands.items }
    requires second { CanShow F.Fn K.eq K.cmp same_look second.old.entries same_commands.items }
    ensures first_run { IfOk result (λ replies.
        Run K.eq K.cmp (Shows F.Fn look) first.old.entries commands.items replies.0.items first.new.entries) }
    ensures second_run { IfOk result (λ replies.
        Run K.eq K.cmp (Shows F.Fn same_look) second.old.entries same_commands.items replies.1.items second.new.entries) }
    ensures agree { IfOk result (λ replies.
        first.old.entries ≡ second.old.entries → commands.items ≡ same_commands.items → look ≡ same_look
        → IsShownOnce (Shows F.Fn look) → SameRefused replies.0.items replies.1.items
        → (replies.0.items ≡ replies.1.items) × (first.new.entries ≡ second.new.entries)) }
    ensures unchanged { OnErr result (second.new ≡ second.old) }
    ensures first_alone { OnErr result (RunsOrStays K.eq K.cmp (Shows F.Fn look) first.old first.new commands.items) }
{
    index_never_shows(first, second, &look);
    let replies = run(alloc, first, commands, look)?;
    let others = run(alloc, second, same_commands, same_look)?;
    Ok((replies, others))
}
