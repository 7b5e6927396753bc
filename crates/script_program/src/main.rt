//! Plays a script of map calls: reads standard input, and writes the reply to each line.
#![tactic(auto)]

use starlark_script::play::play;
use starlark_script::{PlayFault, PromptReader, SharedWriter};
use std::cell::RefCell;
use std::io::{BufWriter, Write};
use std::process::ExitCode;

fn main(rt: HostRuntime) -> ExitCode {
    match run(&rt) {
        Ok(()) => ExitCode::SUCCESS,
        Err(fault) => {
            let _ = eprintln!(rt; "{fault}");
            ExitCode::from(fault.status())
        }
    }
}

// Plays standard input, and puts the replies out before each read and at the end, whether or not it was played to its end.
fn run(rt: &HostRuntime) -> Result<(), PlayFault> {
    let Ok(output) = BufWriter::new(rt.alloc(), rt.stdout()) else {
        return Err(PlayFault::Memory);
    };
    let output = RefCell::new(output);
    let mut reader = PromptReader::new(rt.stdin(), &output);
    let mut writer = SharedWriter::new(&output);
    let played = play(rt.alloc(), &mut reader, &mut writer);
    match writer.flush() {
        Ok(()) => played,
        Err(_) => Err(PlayFault::Io),
    }
}
