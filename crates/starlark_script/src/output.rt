//! Writing lines to a writer.
ghost use Rattle.std.specs.Prelude.{◌≡◌, ◌<◌, length, IfSome, OnOk, IfErr};
ghost use Rattle.std.specs.Fmt.{with_newline};
ghost use Rattle.std.specs.Io.KnownBytes.{Appends};

use crate::fault::PlayFault;
use arrayvec::ArrayString;
use std::fmt;
use std::fmt::{Display, Formatter};
use std::io::Write;

// The most bytes of a line that is written by one write.
const SHORT: usize = 64;

/// Writes a text and a line feed, by one write if they are short. A write that fails is not tried again, whatever its kind.
pub fn write_line<W: Write, D: Display + Drop>(writer: &mut W, text: D) -> Result<(), PlayFault>
    ensures ok { OnOk result (IfSome (with_newline (D.output text)) (Appends (W.contents writer.old) (W.contents writer.new))) }
    ensures err { IfErr result (λ fault. fault ≡ PlayFault.Io) }
{
    let mut line: ArrayString<SHORT> = ArrayString::new();
    match fmt::Write::writeln(&mut line, &text) {
        Ok(()) => write_text(writer, line.as_str()),
        Err(_) => write_in_parts(writer, text),
    }
}

// Writes a text and a line feed, with one write for each part of the text.
fn write_in_parts<W: Write, D: Display + Drop>(writer: &mut W, text: D) -> Result<(), PlayFault>
    ensures ok { OnOk result (IfSome (with_newline (D.output text)) (Appends (W.contents writer.old) (W.contents writer.new))) }
    ensures err { IfErr result (λ fault. fault ≡ PlayFault.Io) }
{
    let mut line = Formatter::new(Output { writer });
    let written = line.writeln(text);
    let Output { writer } = line.into_inner();
    // This has no effect at run time. The proof reads the writer's content from this use.
    let _ = &*writer;
    match written {
        Ok(()) => Ok(()),
        Err(_) => Err(PlayFault::Io),
    }
}

/// Writes a text unchanged. A write that fails is not tried again, whatever its kind.
pub fn write_text<W: Write>(writer: &mut W, text: &str) -> Result<(), PlayFault>
    ensures ok { OnOk result (Appends (W.contents writer.old) (W.contents writer.new) text.now) }
    ensures err { IfErr result (λ fault. fault ≡ PlayFault.Io) }
{
    write_bytes(writer, text.as_bytes()).map_err(|_| PlayFault::Io)
}

// A writer of texts over a writer of bytes.
#[derive(Drop)]
struct Output<'a, W> {
    writer: &'a mut W,
}

impl<W: Write> fmt::Write for Output<'_, W> {
    ghost write_str_gives = { λ s text t. (t.writer.ghost_name ≡ s.writer.ghost_name)
        × Appends (W.contents s.writer.now) (W.contents t.writer.now) text };

    #[inline]
    fn write_str(&mut self, text: &str) -> fmt::Result {
        write_bytes(self.writer, text.as_bytes())
    }
}

// Writes all the bytes. It ends at any failed write, and at one that writes no bytes.
#[inline]
fn write_bytes<W: Write>(writer: &mut W, bytes: &[u8]) -> fmt::Result
    ensures { OnOk result (Appends (W.contents writer.old) (W.contents writer.new) bytes.now) }
{
    let mut rest = bytes;
    while !rest.is_empty() {
        match writer.write(rest) {
            Ok(n) if n > 0 => rest = &rest[n..],
            _ => return Err(fmt::Error),
        }
    }
    Ok(())
}
