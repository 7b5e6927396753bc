//! The loop over a script's lines.
ghost use Rattle.std.specs.Prelude.{◌≡◌, ℕ, IfSome, OnOk, IfErr};
ghost use Rattle.std.specs.Io.KnownBytes.{Keeps, IsAtEnd};
ghost use Rattle.starlark_script.specs.Script.{IsPlayed, StopsAtBadLine, StopsForMemory};

use crate::answer::answer;
use crate::{Found, PlayFault, Window, read_line};
use starlark_small::SmallMap;
use std::alloc::Global;
use std::io::{Read, Write};

/// Plays the script of the reader on a map that begins empty: does what each line asks for, and writes its reply before the
/// next line is taken. The writer is flushed only at the end of the script, behind the last reply; then the reader is at
/// its end. How reads cut the bytes makes no difference.
///
/// A bad line, or a line for which memory is refused, ends it: exactly the replies to the lines before are then written.
/// `BadLine` has the number of the line, counted from 1. Memory is refused only to a new key, to a sort of keys that do not
/// ascend, and to a reservation of more than 0; whether a line is bad is decided before memory is asked for. Nothing is
/// said of what was written before a read, a write or the flush failed.
pub fn play<R: Read, W: Write>(
    alloc: Global,
    reader: &mut R,
    writer: &mut W,
) -> Result<(), PlayFault>
    ensures ok { OnOk result (IfSome (R.remaining reader.old) (IsPlayed (W.contents writer.old) (W.contents writer.new))) }
    ensures end { OnOk result (IsAtEnd (R.remaining reader.new)) }
    ensures bad_line { (n : ℕ) → result ≡ Err (PlayFault.BadLine n) → IfSome (R.remaining reader.old) (StopsAtBadLine (W.contents writer.old) (W.contents writer.new) n) }
    ensures memory { result ≡ Err PlayFault.Memory → IfSome (R.remaining reader.old) (StopsForMemory (W.contents writer.old) (W.contents writer.new)) }
{
    let mut window = Window::new();
    let mut map = SmallMap::new(alloc);
    for i in 0..u64::MAX {
        let len = match window.find_line(reader)? {
            Found::End => return finish(writer),
            Found::Line(len) => len,
            Found::TooLong => return Err(PlayFault::BadLine(i + 1)),
        };
        let text = &window.bytes()[..len];
        let Some(line) = read_line(text) else {
            return Err(PlayFault::BadLine(i + 1));
        };
        answer(alloc, &mut map, writer, line)?;
        window.skip_line(len);
    }
    Err(PlayFault::Io)
}

fn finish<W: Write>(writer: &mut W) -> Result<(), PlayFault>
    ensures ok { OnOk result (Keeps (W.contents writer.old) (W.contents writer.new)) }
    ensures err { IfErr result (λ fault. fault ≡ PlayFault.Io) }
{
    match writer.flush() {
        Ok(()) => Ok(()),
        Err(_) => Err(PlayFault::Io),
    }
}
