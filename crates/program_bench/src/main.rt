//! Measures the maps: `program_bench [PREFIX ..]`, or `program_bench script SPACE PUT GET` for a script.
#![tactic(auto)]

mod fault;
mod keys;
mod maps;
mod pass;
mod peer;
mod report;
mod rows;
mod script;
mod sorted;
mod sorts;
mod texts;
mod workload;
mod workloads;

use fault::Fault;
use std::env;
use std::process::ExitCode;

fn main(rt: HostRuntime) -> ExitCode {
    match run(&rt) {
        Ok(()) => ExitCode::SUCCESS,
        Err(fault) => {
            let _ = eprintln!(rt; "{fault}");
            ExitCode::FAILURE
        }
    }
}

fn run(rt: &HostRuntime) -> Result<(), Fault> {
    let mut words = Vec::new(rt.alloc());
    for word in env::args(rt)?.skip(1) {
        words.push(word)?;
    }
    match words.first() {
        None => report::checksums(rt),
        Some(word) if word.as_str() == "script" => script::write_script(rt, &words),
        Some(_) => report::times(rt, &words),
    }
}
