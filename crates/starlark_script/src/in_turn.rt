//! A reader and a writer that take turns: what was written is flushed before the next read, which may block.

use std::cell::RefCell;
use std::io;
use std::io::{Read, Write};

/// A reader that flushes a writer before each read. If the flush fails, nothing is read, and the read fails with the
/// flush's error.
#[derive(Drop)]
pub struct PromptReader<'a, R, W> {
    reader: R,
    writer: &'a RefCell<W>,
}

/// A writer that a `PromptReader` flushes.
#[derive(Drop)]
pub struct SharedWriter<'a, W> {
    writer: &'a RefCell<W>,
}

impl<'a, R, W> PromptReader<'a, R, W> {
    /// A reader over `reader` that flushes `writer` before each read.
    pub fn new(reader: R, writer: &'a RefCell<W>) -> PromptReader<'a, R, W> {
        PromptReader { reader, writer }
    }
}

impl<'a, W> SharedWriter<'a, W> {
    /// A writer to `writer`.
    pub fn new(writer: &'a RefCell<W>) -> SharedWriter<'a, W> {
        SharedWriter { writer }
    }
}

impl<R: Read, W: Write> Read for PromptReader<'_, R, W> {
    ghost remaining = { λ r. R.remaining r.reader };

    fn read(&mut self, buf: &mut [u8]) -> io::Result<usize> {
        flush(self.writer)?;
        self.reader.read(buf)
    }
}

impl<W: Write> Write for SharedWriter<'_, W> {
    #[inline]
    fn write(&mut self, buf: &[u8]) -> io::Result<usize> {
        let mut writer = self.writer.try_borrow_mut()?;
        // Only the count outlives the borrow. A whole `Result` would be taken apart by its bytes.
        let count = writer.write(buf)?;
        Ok(count)
    }

    fn flush(&mut self) -> io::Result<()> {
        flush(self.writer)
    }
}

fn flush<W: Write>(writer: &RefCell<W>) -> io::Result<()> {
    let mut writer = writer.try_borrow_mut()?;
    writer.flush()
}
