//! Buffered writing to a link. A thread flushes its buffer before it sleeps.

use std::alloc::Global;
use std::cell::RefCell;
use std::io;
use std::io::{ErrorKind, Write};
use std::os::unix::net::UnixStream;
use wl_frames::device::BUNDLE_LEN;

#[derive(Drop)]
struct LinkBytes {
    bytes: Vec<u8>,
    has_failed: bool,
}

/// A buffer of bytes to be written to a link.
#[derive(Drop)]
pub struct LinkBuffer<'a> {
    link: &'a UnixStream,
    gathered: RefCell<LinkBytes>,
}

impl<'a> LinkBuffer<'a> {
    /// Creates an empty buffer for a link.
    pub fn new(alloc: Global, link: &'a UnixStream) -> LinkBuffer<'a> {
        LinkBuffer {
            link,
            gathered: RefCell::new(LinkBytes {
                bytes: Vec::new(alloc),
                has_failed: false,
            }),
        }
    }

    fn gather(&self, bytes: &[u8]) -> io::Result<()> {
        let Ok(mut gathered) = self.gathered.try_borrow_mut() else {
            return Err(io::Error::from(ErrorKind::ResourceBusy));
        };
        if gathered.has_failed {
            return Err(io::Error::from(ErrorKind::BrokenPipe));
        }
        gathered.bytes.extend_from_slice(bytes)?;
        if gathered.bytes.len() >= BUNDLE_LEN {
            self.empty(&mut gathered);
        }
        Ok(())
    }

    fn empty(&self, gathered: &mut LinkBytes) {
        if gathered.bytes.is_empty() {
            return;
        }
        let mut writer = self.link;
        if writer.write_all(gathered.bytes.as_slice()).is_err() {
            gathered.has_failed = true;
        }
        gathered.bytes.clear();
    }

    /// Writes the buffered bytes. After a write has failed, later writes to the buffer fail.
    pub fn flush(&self) {
        if let Ok(mut gathered) = self.gathered.try_borrow_mut() {
            self.empty(&mut gathered);
        }
    }
}

/// A writer into a buffer.
#[derive(Drop)]
pub struct LinkBufferWriter<'a> {
    pub bundle: &'a LinkBuffer<'a>,
}

impl Write for LinkBufferWriter<'_> {
    fn write(&mut self, bytes: &[u8]) -> io::Result<usize> {
        self.bundle.gather(bytes)?;
        Ok(bytes.len())
    }

    fn flush(&mut self) -> io::Result<()> {
        self.bundle.flush();
        Ok(())
    }
}
