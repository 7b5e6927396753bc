//! Reads, writes and flushes that fail under `play`: the script ends there, and nothing is read or written after it.

use crate::fakes::{Asked, Held, NEVER, Narrow, Pieces, unfailing};
use crate::given::same;
use starlark_script::play::play;
use starlark_script::{PlayFault, PromptReader, SharedWriter};
use std::alloc::Global;
use std::cell::RefCell;
use std::io::ErrorKind;

const KINDS: [ErrorKind; 2] = [ErrorKind::Other, ErrorKind::Interrupted];

// Each reply is written before the next line is read.
// Case: a read that fails ends a script
#[test]
fn failing_reads(rt: HostRuntime) {
    let script = "len\nlen\nlen\nlen\n";
    for kind in KINDS {
        for calls in 0..6 {
            let mut out = Vec::new(rt.alloc());
            let mut reader = Pieces {
                fails_after: calls,
                kind,
                ..unfailing(script, 4)
            };
            let played = play(rt.alloc(), &mut reader, &mut out);
            same(
                &rt,
                played,
                if calls < 5 {
                    Err(PlayFault::Io)
                } else {
                    Ok(())
                },
            );
            let done = calls.min(4);
            same(&rt, out.as_slice(), &b"0\n0\n0\n0\n"[..2 * done]);
            same(&rt, reader.rest, &script.as_bytes()[4 * done..]);
        }
    }
}

// A read gives two lines, and the next one fails: both lines are answered before it.
// Case: lines that one read gave are answered before the next
#[test]
fn lines_that_are_held_are_answered_before_a_read(rt: HostRuntime) {
    let mut out = Vec::new(rt.alloc());
    let mut reader = Pieces {
        fails_after: 1,
        ..unfailing("len\nlen\nlen\n", 8)
    };
    let played = play(rt.alloc(), &mut reader, &mut out);
    same(&rt, played, Err(PlayFault::Io));
    same(&rt, out.as_slice(), b"0\n0\n".as_slice());
    same(&rt, reader.rest, b"len\n".as_slice());
}

// A writer whose write after so many writes fails, and its first flush where `flush_fails`.
fn narrow_writer(alloc: Global, fails_after: usize, kind: ErrorKind, flush_fails: bool) -> Narrow {
    Narrow {
        taken: Vec::new(alloc),
        fails_after,
        kind,
        flushes: 0,
        flush_fails,
    }
}

// The flush fails behind the last write.
// Case: a write or a flush that fails ends a script
#[test]
fn failing_writes(rt: HostRuntime) {
    let script = "put 1 a 10\nget 1 a\nlen\nwalk\n";
    let replies = b"none\nsome 10\n1\n1 a 10\n";
    for kind in KINDS {
        for calls in 0..=replies.len() {
            let mut writer = narrow_writer(rt.alloc(), calls, kind, true);
            let played = play(rt.alloc(), &mut unfailing(script, 100), &mut writer);
            same(&rt, played, Err(PlayFault::Io));
            same(&rt, writer.taken.as_slice(), &replies[..calls]);
            same(&rt, writer.flushes, usize::from(calls == replies.len()));
        }
    }
    let mut full = [0; 4];
    let played = play(rt.alloc(), &mut unfailing(script, 100), &mut &mut full[..]);
    same(&rt, played, Err(PlayFault::Io));
}

// Case: a script is flushed at its end alone
#[test]
fn flushes_at_the_end_alone(rt: HostRuntime) {
    let scripts = [
        ("", 1),
        ("put 1 a 1\nput 1 a 2\nget 1 a\nat 0\nlen\nwalk\n", 1),
        ("rev\nsort\nreserve 1\nslim\nclear\n", 1),
        ("put 1 a 1\nput 2 b 2\nrev\nsort\npop\ndel 1 a\n", 1),
        ("rev\nlen\nx\n", 0),
    ];
    for (script, flushes) in scripts {
        let mut writer = narrow_writer(rt.alloc(), NEVER, ErrorKind::Other, false);
        let _ = play(rt.alloc(), &mut unfailing(script, 100), &mut writer);
        same(&rt, (script, writer.flushes), (script, flushes));
    }
}

// The writer has nothing left to put out whenever the reader is asked.
// Case: replies go out before the next read
#[test]
fn replies_go_out_before_a_read(rt: HostRuntime) {
    for most in [1, 11, 100] {
        let output = RefCell::new(Held {
            kept: Vec::new(rt.alloc()),
            out: Vec::new(rt.alloc()),
        });
        let asked = Asked {
            pieces: unfailing("put 1 a 10\nget 1 a\nlen\n", most),
            writer: &output,
        };
        let mut reader = PromptReader::new(asked, &output);
        let played = play(rt.alloc(), &mut reader, &mut SharedWriter::new(&output));
        same(&rt, played, Ok(()));
        let out = output.into_inner().out;
        same(&rt, out.as_slice(), b"none\nsome 10\n1\n".as_slice());
    }
}

// A flush that fails before a read is answered as a read that failed.
// Case: a write or a flush that fails ends a script
#[test]
fn failing_flushes_before_a_read(rt: HostRuntime) {
    for kind in KINDS {
        let output = RefCell::new(narrow_writer(rt.alloc(), NEVER, kind, true));
        let mut reader = PromptReader::new("len\n".as_bytes(), &output);
        let played = play(rt.alloc(), &mut reader, &mut SharedWriter::new(&output));
        same(&rt, played, Err(PlayFault::Io));
        same(&rt, output.into_inner().taken.len(), 0);
    }
}

// A writer that is shared takes what the writer behind it takes, a byte a call.
// Case: a shared writer is the writer behind it
#[test]
fn shared_writers_tell_how_much_is_taken(rt: HostRuntime) {
    let output = RefCell::new(narrow_writer(rt.alloc(), NEVER, ErrorKind::Other, false));
    let mut reader = unfailing("put 1 a 10\nget 1 a\nlen\n", 100);
    let played = play(rt.alloc(), &mut reader, &mut SharedWriter::new(&output));
    same(&rt, played, Ok(()));
    let Narrow { taken, flushes, .. } = output.into_inner();
    same(&rt, taken.as_slice(), b"none\nsome 10\n1\n".as_slice());
    same(&rt, flushes, 1);
}

// The flush at the end is that of the writer behind a shared one.
// Case: a shared writer is the writer behind it
#[test]
fn failing_flushes_of_shared_writers(rt: HostRuntime) {
    for kind in KINDS {
        let output = RefCell::new(narrow_writer(rt.alloc(), NEVER, kind, true));
        let mut reader = unfailing("len\n", 100);
        let played = play(rt.alloc(), &mut reader, &mut SharedWriter::new(&output));
        same(&rt, played, Err(PlayFault::Io));
        same(&rt, output.into_inner().flushes, 1);
    }
}
