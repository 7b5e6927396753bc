//! Plays a script of calls on the collections of `starlark_map`, and on dictionaries: reads standard input, and writes a
//! line of answer for each command.
#![tactic(auto)]

mod pages;
mod player;

use pages::Pages;
use play_words::{Crowd, Fault, Key, Loose, Words};
use player::Player;
use std::io;
use std::process::ExitCode;

// Why the play ended before the end of the script: the number of the line, and its fault.
#[derive(Clone, Copy)]
struct Stop {
    line: usize,
    fault: Fault,
}

// The lines behind a line `mode KIND`, up to the next, and the number of that line.
#[derive(Clone, Copy)]
struct Part<'a> {
    kind: &'a str,
    line: usize,
    lines: &'a str,
}

fn main(rt: HostRuntime) -> ExitCode {
    match run(&rt) {
        Ok(None) => ExitCode::SUCCESS,
        Ok(Some(stop)) => stopped(&rt, stop),
        Err(error) => {
            let _ = eprintln!(rt; "{error}");
            ExitCode::from(1)
        }
    }
}

// Says which line was not played, and why.
fn stopped(rt: &HostRuntime, stop: Stop) -> ExitCode {
    let line = stop.line;
    match stop.fault {
        Fault::BadLine => {
            let _ = eprintln!(rt; "line {line}: no command");
            ExitCode::from(2)
        }
        Fault::Memory => {
            let _ = eprintln!(rt; "line {line}: memory was refused");
            ExitCode::from(3)
        }
    }
}

// Plays standard input. The lines before the first `mode` have texts as keys.
fn run(rt: &HostRuntime) -> io::Result<Option<Stop>> {
    let text = io::read_to_string(rt.alloc(), rt.stdin())?;
    let mut script = String::from_str(rt.alloc(), "mode text\n")?;
    script.push_str(text.as_str())?;
    let mut pages = Pages::new(rt.alloc())?;
    play(rt, script.as_str(), &mut pages)
}

// Plays the parts of a script that begins with a line `mode`, which is no line of the user's.
fn play(rt: &HostRuntime, script: &str, pages: &mut Pages) -> io::Result<Option<Stop>> {
    let mut line = 0usize;
    for part in script
        .strip_prefix("mode ")
        .unwrap_or(script)
        .split("\nmode ")
    {
        let (kind, lines) = part.split_once('\n').unwrap_or((part, ""));
        if let Some(stop) = play_part(rt, Part { kind, line, lines }, pages)? {
            return Ok(Some(stop));
        }
        line = line.wrapping_add(lines.lines().count()).wrapping_add(1);
    }
    Ok(None)
}

fn play_part(rt: &HostRuntime, part: Part<'_>, pages: &mut Pages) -> io::Result<Option<Stop>> {
    match part.kind {
        "text" => play_with::<String>(rt, part, pages),
        "number" => play_with::<u32>(rt, part, pages),
        "crowd" => play_with::<Crowd>(rt, part, pages),
        "loose" => play_with::<Loose>(rt, part, pages),
        _ => Ok(Some(Stop {
            line: part.line,
            fault: Fault::BadLine,
        })),
    }
}

// Plays the lines on empty collections whose keys are of a type.
fn play_with<K: Key>(
    rt: &HostRuntime,
    part: Part<'_>,
    pages: &mut Pages,
) -> io::Result<Option<Stop>> {
    let mut player: Player<K> = Player::new(rt.alloc());
    play_lines(rt, &mut player, part, pages)
}

fn play_lines<K: Key>(
    rt: &HostRuntime,
    player: &mut Player<K>,
    part: Part<'_>,
    pages: &mut Pages,
) -> io::Result<Option<Stop>> {
    let mut line = part.line;
    for text in part.lines.lines() {
        line = line.wrapping_add(1);
        match player.line(Words::new(rt.alloc(), text), pages) {
            Ok(true) => println!(rt; "{}", pages.out.line())?,
            Ok(false) => {}
            Err(fault) => return Ok(Some(Stop { line, fault })),
        }
    }
    Ok(None)
}
