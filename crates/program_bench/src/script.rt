//! A script for the script program: a million lines on `SPACE` keys, `PUT` of a hundred `put`, `GET` of a hundred `get`.

use crate::fault::Fault;
use crate::keys::Key;
use crate::workloads::MILLION;
use std::io::{BufWriter, Write};

// The number that a word spells.
fn number(words: &[String], place: usize) -> Result<u64, Fault> {
    match words.get(place) {
        Some(word) => word.parse::<u64>().map_err(|_| Fault::Words),
        None => Err(Fault::Words),
    }
}

/// Writes the script that the words ask for.
pub fn write_script(rt: &HostRuntime, words: &[String]) -> Result<(), Fault> {
    let space = number(words, 1)?;
    let put = number(words, 2)?;
    let get = number(words, 3)?;
    if space == 0 {
        return Err(Fault::Words);
    }
    let mut output = BufWriter::new(rt.alloc(), rt.stdout())?;
    let mut state = 0x2545_f491_4f6c_dd1d_u64;
    for line in 0..MILLION {
        state = state.after();
        let choice = (state >> 32) % 100;
        state = state.after();
        let key = (state >> 32) % space;
        let hash = u32::of(key).wrapping_mul(2_654_435_761);
        if choice < put {
            writeln!(output, "put {hash} k{key} {line}")?;
        } else if choice < put.saturating_add(get) {
            writeln!(output, "get {hash} k{key}")?;
        } else {
            writeln!(output, "del {hash} k{key}")?;
        }
    }
    output.flush()?;
    Ok(())
}
