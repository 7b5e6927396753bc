//! Readers and writers that take or give little a call, and fail at one call. The calls after it go on, so that a call
//! that is made again after a failure shows.

use std::cell::RefCell;
use std::io;
use std::io::{ErrorKind, Read, Write};

/// A number of calls that no script reaches.
pub const NEVER: usize = usize::MAX;

/// Gives at most so many bytes a call. The call after `fails_after` calls fails, and takes nothing.
#[derive(Drop)]
pub struct Pieces<'a> {
    pub rest: &'a [u8],
    pub most: usize,
    pub fails_after: usize,
    pub kind: ErrorKind,
}

impl Read for Pieces<'_> {
    fn read(&mut self, buf: &mut [u8]) -> io::Result<usize> {
        if self.fails_after == 0 {
            self.fails_after = NEVER;
            return Err(io::Error::from(self.kind));
        }
        self.fails_after -= 1;
        let n = self.most.min(self.rest.len()).min(buf.len());
        buf[..n].copy_from_slice(&self.rest[..n]);
        self.rest = &self.rest[n..];
        Ok(n)
    }
}

/// A reader of a script that does not fail.
pub fn unfailing(script: &str, most: usize) -> Pieces<'_> {
    Pieces {
        rest: script.as_bytes(),
        most,
        fails_after: NEVER,
        kind: ErrorKind::Other,
    }
}

/// Takes one byte a call, and counts the flushes. The write after `fails_after` writes fails, and the first flush where
/// `flush_fails`.
#[derive(Drop)]
pub struct Narrow {
    pub taken: Vec<u8>,
    pub fails_after: usize,
    pub kind: ErrorKind,
    pub flushes: usize,
    pub flush_fails: bool,
}

impl Write for Narrow {
    fn write(&mut self, buf: &[u8]) -> io::Result<usize> {
        if self.fails_after == 0 {
            self.fails_after = NEVER;
            return Err(io::Error::from(self.kind));
        }
        self.fails_after -= 1;
        let n = buf.len().min(1);
        self.taken.extend_from_slice(&buf[..n])?;
        Ok(n)
    }

    fn flush(&mut self) -> io::Result<()> {
        self.flushes = self.flushes.saturating_add(1);
        if self.flush_fails {
            self.flush_fails = false;
            return Err(io::Error::from(self.kind));
        }
        Ok(())
    }
}

/// Keeps what it is given until it is flushed.
#[derive(Drop)]
pub struct Held {
    pub kept: Vec<u8>,
    pub out: Vec<u8>,
}

impl Write for Held {
    fn write(&mut self, buf: &[u8]) -> io::Result<usize> {
        self.kept.extend_from_slice(buf)?;
        Ok(buf.len())
    }

    fn flush(&mut self) -> io::Result<()> {
        self.out.extend_from_slice(self.kept.as_slice())?;
        self.kept.clear();
        Ok(())
    }
}

/// Gives what the pieces give, and fails where the writer keeps anything back.
#[derive(Drop)]
pub struct Asked<'a> {
    pub pieces: Pieces<'a>,
    pub writer: &'a RefCell<Held>,
}

impl Read for Asked<'_> {
    fn read(&mut self, buf: &mut [u8]) -> io::Result<usize> {
        if !self.writer.try_borrow()?.kept.is_empty() {
            return Err(io::Error::from(ErrorKind::Other));
        }
        self.pieces.read(buf)
    }
}
