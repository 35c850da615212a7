//! Readers with a limit of reads, and writers. Both record whether they have failed.

ghost use Rattle.std.specs.Prelude.{◌≡◌, ◌≤◌, ◌<◌, ◌+◌, length, take, true, false, Err, IfOk, OnOk, OnErr};
ghost use Rattle.std.specs.Io.KnownBytes.{Consumes, IsAtEnd, Keeps, Appends};
ghost use Rattle.wl_frames.specs.Device.{fresh_reader, fresh_writer, WritesPrefix};
ghost use Rattle.wl_frames.specs.declared.device.TheConstants.{READ_LIMIT};

use std::io::{Read, Write};
use std::marker::Model;
use thiserror::Error;

/// Maximum number of reads of one reader.
pub const READ_LIMIT: u32 = 1_000_000;

/// Number of bytes requested from a reader by one read.
pub const PIECE_LEN: usize = 4_096;

/// Number of bytes collected before they are written, if more output follows.
pub const BUNDLE_LEN: usize = 32_768;

/// Reason why nothing was read.
#[derive(Clone, Copy, Debug, PartialEq, Eq, Error)]
pub enum ReadFault {
    /// The reader failed. An interrupted read counts as a failure.
    #[error("Read")]
    Failed,
    /// The reader has reached its limit of reads.
    #[error("TooManyReads")]
    TooManyReads,
}

/// Error if not all bytes were written.
#[derive(Clone, Copy, Debug, PartialEq, Eq, Error)]
#[error("Write")]
pub struct WriteFault;

/// A reader, with the number of its reads, and whether it has failed.
#[derive(Drop)]
pub struct Source<R> {
    reader: R,
    reads: u32,
    has_failed: bool,
}

impl<R> Model for Source<R> {
    ghost use Rattle.wl_frames.specs.Device.{Reading};
    ghost use Rattle.std.specs.Prelude.{◌≤◌};
    ghost use Rattle.wl_frames.specs.declared.device.TheConstants.{READ_LIMIT};

    ghost Value = { Reading R };

    ghost view = { λ s. record { reader = s.reader; reads = s.reads; has_failed = s.has_failed } };

    ghost invariant = { λ s. s.reads ≤ READ_LIMIT };
}

impl<R> Source<R> {
    /// Wraps a reader that has not been read yet.
    pub fn new(reader: R) -> Source<R>
        ensures { result ≡ fresh_reader reader }
    {
        Source {
            reader,
            reads: 0,
            has_failed: false,
        }
    }
}

impl<R: Read> Source<R> {
    /// Reads once, at most as many bytes as the buffer holds. Returns the number of bytes, which is
    /// 0 only at the end of input. Fails with `Failed` if the reader fails, and with `TooManyReads`
    /// after READ_LIMIT reads.
    pub fn read(&mut self, buffer: &mut [u8]) -> Result<usize, ReadFault>
        requires { 0 < length buffer.old }
        ensures bound { IfOk result (λ n. n ≤ length buffer.new) }
        ensures bytes { IfOk result (λ n.
            Consumes (R.remaining self.old.reader) (R.remaining self.new.reader) (take n buffer.new)) }
        ensures end { IfOk result (λ n. n ≡ 0 → IsAtEnd (R.remaining self.new.reader)) }
        ensures counted { IfOk result (λ n.
            (self.new.reads ≡ self.old.reads + 1) × (self.new.has_failed ≡ self.old.has_failed)) }
        ensures failed { result ≡ Err ReadFault.Failed → (self.new.has_failed ≡ true)
            × Keeps (R.remaining self.old.reader) (R.remaining self.new.reader) }
        ensures limit { result ≡ Err ReadFault.TooManyReads
            → (self.old.reads ≡ READ_LIMIT) × (self.new ≡ self.old) }
        ensures within { self.new.reads ≤ READ_LIMIT }
    {
        if self.reads >= READ_LIMIT {
            return Err(ReadFault::TooManyReads);
        }
        self.reads += 1;
        match self.reader.read(buffer) {
            Ok(n) => Ok(n),
            Err(_) => {
                self.has_failed = true;
                Err(ReadFault::Failed)
            }
        }
    }
}

/// A writer, and whether it has failed.
#[derive(Drop)]
pub struct Sink<W> {
    writer: W,
    has_failed: bool,
}

impl<W> Model for Sink<W> {
    ghost use Rattle.wl_frames.specs.Device.{Writing};

    ghost Value = { Writing W };

    ghost view = { λ s. record { writer = s.writer; has_failed = s.has_failed } };
}

impl<W> Sink<W> {
    /// Wraps a writer.
    pub fn new(writer: W) -> Sink<W>
        ensures { result ≡ fresh_writer writer }
    {
        Sink {
            writer,
            has_failed: false,
        }
    }
}

impl<W: Write> Sink<W> {
    /// Writes all bytes, in as many writes as the writer needs. Fails if the writer fails or
    /// accepts no byte.
    pub fn write(&mut self, bytes: &[u8]) -> Result<(), WriteFault>
        ensures written { OnOk result
            (Appends (W.contents self.old.writer) (W.contents self.new.writer) bytes.now) }
        ensures sound { OnOk result (self.new.has_failed ≡ self.old.has_failed) }
        // The bytes written before a failure are a prefix of all bytes.
        ensures failed { OnErr result ((self.new.has_failed ≡ true)
            × WritesPrefix (W.contents self.old.writer) (W.contents self.new.writer) bytes.now) }
    {
        let mut rest = bytes;
        while !rest.is_empty() {
            match self.writer.write(rest) {
                Ok(n) if n > 0 => rest = &rest[n..],
                _ => {
                    self.has_failed = true;
                    return Err(WriteFault);
                }
            }
        }
        Ok(())
    }
}
