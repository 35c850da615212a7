//! Readers and writers that pass one byte a call, fail, or take nothing.

ghost use Rattle.std.specs.Prelude.{◌≤◌};

use std::io;
use std::io::{ErrorKind, Read, Write};

/// Reader that returns one byte a read, and fails after a number of reads.
#[derive(Clone, Copy)]
pub struct SlowReader<'a> {
    bytes: &'a [u8],
    reads_left: usize,
}

impl<'a> SlowReader<'a> {
    /// Returns a reader of these bytes that fails after `reads_left` reads.
    pub fn new(bytes: &'a [u8], reads_left: usize) -> SlowReader<'a> {
        SlowReader { bytes, reads_left }
    }
}

impl Read for SlowReader<'_> {
    fn read(&mut self, buffer: &mut [u8]) -> io::Result<usize> {
        if self.reads_left == 0 {
            return Err(ErrorKind::Interrupted.into());
        }
        self.reads_left -= 1;
        let Some(byte) = self.bytes.first() else {
            return Ok(0);
        };
        if buffer.is_empty() {
            return Ok(0);
        }
        buffer[0] = *byte;
        self.bytes = &self.bytes[1..];
        Ok(1)
    }
}

/// Writer that takes one byte a write, and fails after a number of writes. It holds at most 128 bytes and then takes none.
#[derive(Drop)]
pub struct SlowWriter {
    bytes: [u8; 128],
    len: usize,
    writes_left: usize,
    ghost fits: { len ≤ 128 },
}

impl SlowWriter {
    /// Returns an empty writer that fails after `writes_left` writes.
    pub fn new(writes_left: usize) -> SlowWriter {
        SlowWriter {
            bytes: [0; 128],
            len: 0,
            writes_left,
        }
    }

    /// Returns the bytes written so far.
    pub fn taken(&self) -> &[u8] {
        &self.bytes[..self.len]
    }
}

impl Write for SlowWriter {
    fn write(&mut self, buffer: &[u8]) -> io::Result<usize> {
        if self.writes_left == 0 {
            return Err(ErrorKind::Interrupted.into());
        }
        self.writes_left -= 1;
        let Some(byte) = buffer.first() else {
            return Ok(0);
        };
        if self.len == self.bytes.len() {
            return Ok(0);
        }
        self.bytes[self.len] = *byte;
        self.len += 1;
        Ok(1)
    }

    fn flush(&mut self) -> io::Result<()> {
        Ok(())
    }
}

/// Writer that takes nothing and does not fail.
#[derive(Drop)]
pub struct FullWriter;

impl Write for FullWriter {
    fn write(&mut self, _buffer: &[u8]) -> io::Result<usize> {
        Ok(0)
    }

    fn flush(&mut self) -> io::Result<()> {
        Ok(())
    }
}
