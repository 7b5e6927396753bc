//! Scripts: what was replied where memory is refused.

use crate::given::same;
use starlark_script::PlayFault;
use starlark_script::play::play;
use std::process::Abort;

// Plays the script, or stops for want of memory after the replies to some first lines. Nothing but `play` asks for
// memory.
fn plays(rt: &(impl Abort + AllocGlobal), script: &str, replies: &str) {
    let mut room = [0; 256];
    let mut writer = &mut room[..];
    let mut reader = script.as_bytes();
    let answer = play(rt.alloc(), &mut reader, &mut writer);
    let left = writer.len();
    let written = &room[..room.len().saturating_sub(left)];
    match answer {
        Ok(()) => same(rt, written, replies.as_bytes()),
        Err(fault) => {
            same(rt, fault, PlayFault::Memory);
            let lines = written.is_empty() || written.ends_with(b"\n");
            same(
                rt,
                (lines, replies.as_bytes().starts_with(written)),
                (true, true),
            );
        }
    }
}

// Lists that grow, room that is asked for without an index and with one, and a sort that asks for memory.
// Case: a script that is refused memory has answered whole lines
#[test]
fn plays_each_line_or_stops(rt: HostRuntime) {
    plays(
        &rt,
        "put 1 a 1\nput 2 b 2\nput 1 a 3\nput 3 c 3\nput 4 d 4\nput 5 e 5\nlen\nrev\nsort\nat 1\n",
        "none\nnone\nsome 1\nnone\nnone\nnone\n5\nok\nok\nsome b 2\n",
    );
    plays(
        &rt,
        "reserve 5\nput 1 a 1\nreserve 40\nput 2 b 2\nslim\nreserve 100\nreserve 0\nwalk\n",
        "ok\nnone\nok\nnone\nok\nok\nok\n1 a 1\n2 b 2\n",
    );
    plays(
        &rt,
        "reserve 21\nput 0 t 0\nput 0 u 0\nput 0 s 0\nput 0 r 0\nput 0 q 0\nput 0 p 0\nput 0 o 0\n\
        put 0 n 0\nput 0 m 0\nput 0 l 0\nput 0 k 0\nput 0 j 0\nput 0 i 0\nput 0 h 0\nput 0 g 0\n\
        put 0 f 0\nput 0 e 0\nput 0 d 0\nput 0 c 0\nput 0 b 0\nput 0 a 0\nsort\nat 0\nat 20\n",
        "ok\nnone\nnone\nnone\nnone\nnone\nnone\nnone\nnone\nnone\nnone\nnone\nnone\nnone\nnone\nnone\n\
        none\nnone\nnone\nnone\nnone\nnone\nok\nsome a 0\nsome u 0\n",
    );
}
