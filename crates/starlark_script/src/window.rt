//! Lines of at most 1,000 bytes, cut out of a reader's bytes.
ghost use Rattle.std.specs.Prelude.{◌≡◌, ℕ, ◌+◌, ◌-◌, ◌<◌, ◌≤◌, List, [], length, take, drop, slice_range, position, ◌==◌, IfSome, IfNone, IsOk, OnOk, IfErr, IfOk};
ghost use Rattle.std.specs.Io.KnownBytes.{Keeps, Consumes, IsAtEnd, prepend_known};
ghost use Rattle.starlark_script.specs.Found.{HasNoBreak, IsHeld, Shows, ShowsBreak, ShowsRest};
ghost use Rattle.starlark_script.specs.declared.window.Found.{Found};

use crate::fault::PlayFault;
use std::io;
use std::io::Read;
use std::marker::Model;

// The most bytes of a line, without its end.
const LONGEST: usize = 1000;

// The most bytes in the window, and thus the most that one read returns.
const ROOM: usize = 16_384;

/// The line that a window begins with.
#[derive(Clone, Copy)]
pub enum Found {
    /// No line: the input has ended.
    End,
    /// A line of this many bytes. A line feed or the end of the input follows.
    Line(usize),
    /// A line of more bytes than a line may have.
    TooLong,
}

/// The bytes that were read and not yet taken.
#[derive(Drop)]
pub struct Window {
    buffer: [u8; ROOM],
    start: usize,
    end: usize,
}

impl Model for Window {
    ghost use Rattle.std.specs.Prelude.{ℕ, ◌≤◌, List, slice_range};
    ghost use Rattle.starlark_script.specs.declared.window.TheConstants.{ROOM};

    ghost Value = { List ℕ };

    ghost view = { λ w. slice_range w.buffer w.start w.end };

    ghost invariant = { λ w. (w.start ≤ w.end) × (w.end ≤ ROOM) };
}

impl Window {
    /// A window without bytes.
    pub fn new() -> Window
        ensures { result ≡ [] }
    {
        Window {
            buffer: [0; ROOM],
            start: 0,
            end: 0,
        }
    }

    /// The bytes in the window.
    pub fn bytes(&self) -> &[u8]
        ensures { result.now ≡ self.now }
    {
        let (start, end) = (self.start, self.end);
        let all = &self.buffer[..];
        &all[start..end]
    }

    /// Takes a line of `len` bytes from the front, and its end.
    pub fn skip_line(&mut self, len: usize)
        requires { len ≤ length self.old }
        ensures { self.new ≡ drop (len + 1) self.old }
    {
        let held = self.end - self.start;
        self.start += held.min(len + 1);
    }

    /// Finds the first line, or that it is too long, or that the input has ended. Reads only while the bytes in the window do
    /// not tell, one block each time. A failed read ends it, whatever its kind.
    pub fn find_line<R: Read>(&mut self, reader: &mut R) -> Result<Found, PlayFault>
        ensures kept { OnOk result (Keeps (prepend_known self.old (R.remaining reader.old)) (prepend_known self.new (R.remaining reader.new))) }
        ensures shows { IfOk result (λ found. Shows found self.new (R.remaining reader.new)) }
        ensures held { IfOk result (λ found. IsHeld found self.new) }
        // A line that is in the window is shown before anything is read.
        ensures unread { (found : Found) → ShowsBreak found self.old → IsOk result × (self.new ≡ self.old) × Keeps (R.remaining reader.old) (R.remaining reader.new) }
        ensures err { IfErr result (λ fault. fault ≡ PlayFault.Io) }
    {
        if let Some(held) = found_in(self.bytes()) {
            return Ok(held);
        }
        self.read_on(reader)
    }

    // Reads on, until the first line is whole or too long, or the input has ended.
    fn read_on<R: Read>(&mut self, reader: &mut R) -> Result<Found, PlayFault>
        requires short { length self.old ≤ LONGEST }
        requires whole { HasNoBreak self.old }
        ensures kept { OnOk result (Keeps (prepend_known self.old (R.remaining reader.old)) (prepend_known self.new (R.remaining reader.new))) }
        ensures shows { IfOk result (λ found. Shows found self.new (R.remaining reader.new)) }
        ensures held { IfOk result (λ found. IsHeld found self.new) }
        ensures err { IfErr result (λ fault. fault ≡ PlayFault.Io) }
    {
        for _ in 0..u64::MAX {
            let Ok(n) = self.refill(reader) else {
                return Err(PlayFault::Io);
            };
            if n == 0 {
                return Ok(last_of(self.bytes()));
            }
            if let Some(found) = found_in(self.bytes()) {
                return Ok(found);
            }
        }
        Err(PlayFault::Io)
    }

    // Reads once, behind the bytes in the window.
    fn refill<R: Read>(&mut self, reader: &mut R) -> io::Result<usize>
        requires { length self.old ≤ LONGEST }
        ensures kept { OnOk result (Keeps (prepend_known self.old (R.remaining reader.old)) (prepend_known self.new (R.remaining reader.new))) }
        ensures grown { IfOk result (λ n. length self.new ≡ length self.old + n) }
        ensures end { IfOk result (λ n. n ≡ 0 → (self.new ≡ self.old) × IsAtEnd (R.remaining reader.new)) }
    {
        let len = self.end - self.start;
        self.buffer.copy_within(self.start..self.end, 0);
        self.start = 0;
        self.end = len;
        let n = read_at(reader, &mut self.buffer, len)?;
        self.end = len + n;
        Ok(n)
    }
}

// The line that the bytes begin with, if they are enough to say so before the input has ended.
fn found_in(bytes: &[u8]) -> Option<Found>
    ensures some { IfSome result (λ found. ShowsBreak found bytes.now) }
    ensures none { IfNone result ((length bytes.now ≤ LONGEST) × HasNoBreak bytes.now) }
{
    let front = &bytes[..bytes.len().min(LONGEST + 1)];
    match line_break(front) {
        Some(n) => Some(Found::Line(n)),
        None if bytes.len() > LONGEST => Some(Found::TooLong),
        None => None,
    }
}

// The line that the bytes begin with, if the input has ended.
fn last_of(bytes: &[u8]) -> Found
    requires short { length bytes.now ≤ LONGEST }
    requires whole { HasNoBreak bytes.now }
    ensures { ShowsRest result bytes.now }
{
    if bytes.is_empty() {
        Found::End
    } else {
        Found::Line(bytes.len())
    }
}

fn read_at<R: Read>(reader: &mut R, buffer: &mut [u8], at: usize) -> io::Result<usize>
    requires { at < length buffer.old }
    ensures front { take at buffer.new ≡ take at buffer.old }
    ensures fits { IfOk result (λ n. at + n ≤ length buffer.new) }
    ensures bytes { IfOk result (λ n. Consumes (R.remaining reader.old) (R.remaining reader.new) (slice_range buffer.new at (at + n))) }
    ensures end { IfOk result (λ n. n ≡ 0 → IsAtEnd (R.remaining reader.new)) }
{
    reader.read(&mut buffer[at..])
}

// The position of the first line feed.
fn line_break(bytes: &[u8]) -> Option<usize>
    ensures { result ≡ position (λ b. b == 10) bytes.now }
{
    bytes.iter().position(|b| *b == b'\n')
}
