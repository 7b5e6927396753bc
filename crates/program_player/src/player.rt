//! The collections of a script whose keys are of one kind, and which command goes to which.

use crate::pages::Pages;
use play_dicts::{Dicts, dicts};
use play_maps::Maps;
use play_sets::Sets;
use play_tables::Tables;
use play_tables::hashes::{feed_hasher, hashed_keys};
use play_words::{Call, Fault, Key, Out, Words};
use std::alloc::Global;

/// The collections of a script whose keys are of one kind.
#[derive(Drop)]
pub struct Player<K: Key> {
    maps: Maps<K>,
    dicts: Dicts<K>,
    sets: Sets<K>,
    tables: Tables<K>,
}

impl<K: Key> Player<K> {
    /// Empty collections.
    pub fn new(alloc: Global) -> Player<K> {
        Player {
            maps: Maps::new(alloc),
            dicts: dicts::new(alloc),
            sets: Sets::new(alloc),
            tables: Tables::new(alloc),
        }
    }

    /// Plays a line, and tells whether it is a command, which has an answer.
    pub fn line(&mut self, words: Words<'_>, pages: &mut Pages) -> Result<bool, Fault> {
        let mut rest = words;
        let first = rest.word()?;
        if first.is_empty() || first.starts_with('#') {
            return Ok(false);
        }
        match first {
            "watch" => pages.watches = true,
            "ask" => ask(rest)?,
            _ => {
                pages.out.clear();
                self.command(first, rest, words, pages)?;
                return Ok(true);
            }
        }
        Ok(false)
    }

    fn command(
        &mut self,
        first: &str,
        rest: Words<'_>,
        words: Words<'_>,
        pages: &mut Pages,
    ) -> Result<(), Fault> {
        match first {
            "hk" => hashed_keys::<K>(rest, &mut pages.out),
            "hs" => feed_hasher(rest, &mut pages.out),
            "reset" => self.reset(words.alloc, &mut pages.out),
            _ => self.collection(words.call()?, pages),
        }
    }

    fn reset(&mut self, alloc: Global, out: &mut Out) -> Result<(), Fault> {
        *self = Player::new(alloc);
        out.say("reset")
    }

    fn collection(&mut self, call: Call<'_>, pages: &mut Pages) -> Result<(), Fault> {
        if pages.watches {
            self.watched(call, &mut pages.before, &mut pages.out)
        } else {
            self.call(call, &mut pages.out)
        }
    }

    fn call(&mut self, call: Call<'_>, out: &mut Out) -> Result<(), Fault> {
        match call.kind {
            "sm" | "om" | "tm" | "v2" => self.maps.play(call, out),
            "dm" => dicts::play(&mut self.dicts, call, out),
            "ss" | "os" | "ts" | "tv" => self.sets.play(call, out),
            _ => self.tables.play(call, out),
        }
    }

    // Plays a call. Where memory is refused for it, the collection is compared with what it was, and the call is played once
    // more.
    fn watched(&mut self, call: Call<'_>, before: &mut Out, out: &mut Out) -> Result<(), Fault> {
        self.walk(call, before)?;
        match self.call(call, out) {
            Err(Fault::Memory) => self.again(call, before.line(), out),
            played => played,
        }
    }

    // Plays a call that was refused, if the collection is what it was. Where `extend` is refused in its middle, the items that
    // it put in stay.
    fn again(&mut self, call: Call<'_>, before: &str, out: &mut Out) -> Result<(), Fault> {
        self.walk(call, out)?;
        if call.op != "extend" && out.line() != before {
            return out.say("is left by a call that was refused");
        }
        out.clear();
        self.call(call, out)
    }

    // What a call's collection holds, with the hashes that it has. A walk that is refused is played once more.
    fn walk(&mut self, call: Call<'_>, out: &mut Out) -> Result<(), Fault> {
        let walk = Call {
            op: if call.kind == "os" { "walkh" } else { "walk" },
            words: Words::new(call.words.alloc, ""),
            ..call
        };
        out.clear();
        match self.call(walk, out) {
            Err(Fault::Memory) => {
                out.clear();
                self.call(walk, out)
            }
            walked => walked,
        }
    }
}

// Asks for memory as many times as the line says, and gives it back. So a run in which a certain request is refused, as the
// hundredth, refuses an earlier one of the script.
fn ask(mut words: Words<'_>) -> Result<(), Fault> {
    for _ in 0..words.count()? {
        let _ = String::with_capacity(words.alloc, 1)?;
    }
    Ok(())
}
