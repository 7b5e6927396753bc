//! Scripts, through `play`: values from outside of what its grammar and its replies are.

use crate::fakes::unfailing;
use crate::given::same;
use starlark_script::PlayFault;
use starlark_script::play::play;
use std::alloc::Global;
use std::process::Abort;
use std::test::Fail;

// The script ends so, with these replies, whether it is read at once or a byte a call.
fn check(
    rt: &(impl Abort + AllocGlobal),
    script: &str,
    replies: &str,
    answer: Result<(), PlayFault>,
) {
    for most in [script.len(), 1] {
        let mut out = Vec::new(rt.alloc());
        let played = play(rt.alloc(), &mut unfailing(script, most), &mut out);
        same(rt, (script, played), (script, answer));
        same(rt, (script, out.as_slice()), (script, replies.as_bytes()));
    }
}

#[test]
fn good_scripts(rt: HostRuntime) {
    let scripts = [
        // Case: a script of the first four commands
        (
            "put 1 a 10\nput 2 a 20\nget 2 a\nget 3 a\nlen\nwalk\n",
            "none\nnone\nsome 20\nnone\n2\n1 a 10\n2 a 20\n",
        ),
        // Case: a script that puts a value twice
        ("put 1 a 10\nput 1 a 11\nwalk\n", "none\nsome 10\n1 a 11\n"),
        // Case: an empty script
        ("", ""),
        // Case: the last line of a script needs no line feed
        ("len", "0\n"),
        // Case: the least value of a script
        (
            "put 1 a -9223372036854775808\nget 1 a\n",
            "none\nsome -9223372036854775808\n",
        ),
        (
            "put 4294967295 ~! -9223372036854775808\nput 0 z 9223372036854775807\nwalk",
            "none\nnone\n4294967295 ~! -9223372036854775808\n0 z 9223372036854775807\n",
        ),
        // Bytes order the keys, a key comes before those that go on from it, and equal keys keep their order.
        (
            "put 2 k 1\nput 1 k -2\nput 3 ab 3\nput 4 a 4\nput 5 Z 5\nsort\nwalk\nsort\nat 4\n",
            "none\nnone\nnone\nnone\nnone\nok\n5 Z 5\n4 a 4\n3 ab 3\n2 k 1\n1 k -2\nok\nsome k -2\n",
        ),
        // Case: a script that turns, sorts, removes and pops
        (
            "put 7 b 1\nput 9 a 2\nrev\nwalk\nput 9 a 5\nsort\nat 0\nat 2\ndel 9 b\ndel 7 b\npop\npop\nwalk\nlen\n",
            "none\nnone\nok\n9 a 2\n7 b 1\nsome 2\nok\nsome a 5\nnone\nnone\nsome 1\nsome a 5\nnone\n0\n",
        ),
        (
            "slim\nreserve 40\nput 2 b 2\nslim\nget 2 b\nclear\nlen\nat 1000000\n",
            "ok\nok\nnone\nok\nsome 2\nok\n0\nnone\n",
        ),
        // Case: a script on both sides of the index threshold
        (
            "put 1 a 1\nput 2 a 2\nput 3 a 3\nput 4 a 4\nput 5 a 5\nput 6 a 6\nput 7 a 7\nput 8 a 8\nput 9 a 9\n\
            put 10 a 10\nput 11 a 11\nput 12 a 12\nput 13 a 13\nput 14 a 14\nput 15 a 15\nput 16 a 16\n\
            put 17 a 17\ndel 3 a\nslim\nget 17 a\nget 3 a\nput 18 a 18\nlen\n",
            "none\nnone\nnone\nnone\nnone\nnone\nnone\nnone\nnone\nnone\nnone\nnone\nnone\nnone\nnone\nnone\n\
            none\nsome 3\nok\nsome 17\nnone\nnone\n17\n",
        ),
        // Case: the greatest number of a script is reserved
        ("reserve 1000000\nlen\n", "ok\n0\n"),
    ];
    for (script, replies) in scripts {
        check(&rt, script, replies, Ok(()));
    }
}

// A key of this many bytes.
fn long_key(alloc: Global, length: usize) -> Result<String, Fail> {
    let mut key = String::new(alloc);
    for _ in 0..length {
        key.push('k')?;
    }
    Ok(key)
}

// The replies that show the key are longer than one write takes.
// Case: a line of a script has a thousand bytes at most
#[test]
fn long_lines(rt: HostRuntime) -> Result<(), Fail> {
    let key = long_key(rt.alloc(), 992)?;
    let script = format!(in rt.alloc(); "put 1 {key} 5\nat 0\nwalk\npop\n")?;
    let replies = format!(in rt.alloc(); "none\nsome {key} 5\n1 {key} 5\nsome {key} 5\n")?;
    check(&rt, script.as_str(), replies.as_str(), Ok(()));
    let longer = format!(in rt.alloc(); "put 1 {key}k 5\n")?;
    check(&rt, longer.as_str(), "", Err(PlayFault::BadLine(1)));
    Ok(())
}

// Lines that are none of the grammar.
const BAD_LINES: [&str; 4] = [
    "len\r|put 4294967296 a 1|put 1 a 07|put 1 a -0|put 1 a +7|put 1 a 9223372036854775808",
    "put 1 a -9223372036854775809|put 1  a 5|put 1 a 5 |put 01 a 5|get 1 é|Len|walk 1||at|at 1000001",
    "at 4294967296|at 01|at -1|at 0 a|del 1|del 01 a|del 1 a 1|pop 1|rev |Sort| clear|reserve",
    "reserve 1000001|reserve 01|reserve -1|reserve 5 5|reserve 1 a 1|slim 1|Slim",
];

// Case: bad lines of a script
#[test]
fn bad_lines(rt: HostRuntime) -> Result<(), Fail> {
    for lines in BAD_LINES {
        for line in lines.split('|') {
            let script = format!(in rt.alloc(); "put 1 a 5\n{line}\nlen\n")?;
            check(&rt, script.as_str(), "none\n", Err(PlayFault::BadLine(2)));
        }
    }
    Ok(())
}

// Case: a script that ends at its first line, or behind a good one
#[test]
fn bad_scripts(rt: HostRuntime) {
    let scripts = [
        ("put 1 a 5\nput x a 5\n", "none\n", 2),
        ("reserve 1000001\n", "", 1),
        ("put 4294967296 a 1\n", "", 1),
        ("len\n\n", "0\n", 2),
        ("len\r\n", "", 1),
        ("put 1  a 5\n", "", 1),
        ("Len\n", "", 1),
    ];
    for (script, replies, line) in scripts {
        check(&rt, script, replies, Err(PlayFault::BadLine(line)));
    }
}

// Case: statuses and texts of the faults
#[test]
fn faults(rt: HostRuntime) -> Result<(), Fail> {
    let faults = [
        (PlayFault::BadLine(7), 2, "line 7: bad line"),
        (PlayFault::Memory, 3, "out of memory"),
        (PlayFault::Io, 4, "input or output failed"),
    ];
    for (fault, status, text) in faults {
        same(&rt, fault.status(), status);
        same(&rt, format!(in rt.alloc(); "{fault}")?.as_str(), text);
    }
    Ok(())
}
