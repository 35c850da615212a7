//! The reading end of a child's link, which ends with the child even if another process holds the
//! link open.

ghost use Rattle.std.specs.Io.{ReadsAtMost};

use crate::clock::milliseconds_since;
use std::io;
use std::io::{ErrorKind, Read};
use std::net::Shutdown;
use std::os::unix::net::UnixStream;
use std::rt::Clock;
use std::sync::Wait;
use std::time::{Duration, Instant};
use wl_process_rules::{LOOK_INTERVAL, is_look_due};

/// A child's process, as seen by the reader of its link.
pub(crate) trait Watched {
    /// Returns true if the process has ended.
    fn has_ended<R: Wait>(&self, rt: &R) -> bool;
}

/// The reading end of a child's link. It ends when the child's process ends, although a descendant
/// of the child may keep the link open and send on it. Data sent before the end is still read.
#[derive(Drop)]
pub(crate) struct ChildLink<'a, R, P> {
    rt: R,
    link: &'a UnixStream,
    process: &'a P,
    /// The time of the last look at the process.
    looked: Option<Instant>,
}

impl<'a, R: Wait + Clock + Drop, P: Watched> ChildLink<'a, R, P> {
    pub(crate) fn new(
        rt: R,
        link: &'a UnixStream,
        process: &'a P,
    ) -> io::Result<ChildLink<'a, R, P>> {
        link.set_read_timeout(Some(Duration::from_millis(LOOK_INTERVAL)))?;
        Ok(ChildLink {
            rt,
            link,
            process,
            looked: None,
        })
    }

    /// Looks at the process if a look is due. If the process has ended, shuts down reading: later
    /// reads return the data sent before, and then the end of input.
    fn watch(&mut self) {
        if !is_look_due(milliseconds_since(&self.rt, self.looked)) {
            return;
        }
        self.looked = Instant::now(&self.rt).ok();
        if self.process.has_ended(&self.rt) {
            let _ = self.link.shutdown(Shutdown::Read);
        }
    }

    /// Reads once. Looks at the process while no data arrives.
    fn read_watching(&mut self, buffer: &mut [u8]) -> io::Result<usize>
        ensures bound { ReadsAtMost result buffer.new }
    {
        for _turn in 0..u32::MAX {
            self.watch();
            let mut link = self.link;
            match link.read(buffer) {
                Err(error) if is_passing(&error) => {}
                done => return done,
            }
        }
        Ok(0)
    }
}

/// Returns true if a read should be repeated: it timed out, or a signal interrupted it.
fn is_passing(error: &io::Error) -> bool {
    matches!(
        error.kind(),
        ErrorKind::WouldBlock | ErrorKind::TimedOut | ErrorKind::Interrupted
    )
}

impl<R: Wait + Clock + Drop, P: Watched> Read for ChildLink<'_, R, P> {
    fn read(&mut self, buffer: &mut [u8]) -> io::Result<usize> {
        self.read_watching(buffer)
    }
}
