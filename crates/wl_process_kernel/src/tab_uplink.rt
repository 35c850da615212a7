//! Uplink of a tab: gathers the tab's frames for the broker, and paces the tab.

use crate::shared_kernel::SharedKernel;
use std::alloc::Global;
use std::cell::RefCell;
use std::io::Read;
use std::rt::Clock;
use std::sync::Wait;
use std::time::{Duration, Instant};
use std::{io, thread};
use wl_frames::Frame;
use wl_kernel::RouteFault;
use wl_process_rules::{Load, Pace};
use wl_workers::Uplink;

/// Frames for the broker gathered by a tab's reader since its last read or post, and the tab's rate
/// limiter.
#[derive(Drop)]
pub(crate) struct UplinkBatch {
    /// Encoded frames for the broker.
    gathered: Vec<u8>,
    /// The amount of data that the tab sent, including frames for other tabs and refused frames.
    load: Load,
    pace: Pace,
    /// The time at which the tab last sent data.
    sent: Option<Instant>,
}

impl UplinkBatch {
    pub(crate) fn new(alloc: Global) -> UplinkBatch {
        UplinkBatch {
            gathered: Vec::new(alloc),
            load: Load::NOTHING,
            pace: Pace::new(),
            sent: None,
        }
    }

    /// Writes the gathered frames to the broker, and counts them for the tab's pace.
    fn flush<R: Wait + Clock>(&mut self, rt: &R, shared: &SharedKernel) {
        if self.load == Load::NOTHING {
            return;
        }
        shared.flush(rt, &mut self.gathered);
        let elapsed = self.restart_stopwatch(rt);
        self.pace.send(self.load, elapsed);
        self.load = Load::NOTHING;
    }

    /// Returns the nanoseconds since the last call, when the tab last sent data. Returns `u64::MAX` at
    /// the first call and if the clock fails.
    fn restart_stopwatch<R: Clock>(&mut self, rt: &R) -> u64 {
        let now = Instant::now(rt).ok();
        match (now, std::mem::replace(&mut self.sent, now)) {
            (Some(now), Some(sent)) => {
                u64::try_from(now.duration_since(sent).as_nanos()).unwrap_or(u64::MAX)
            }
            _ => u64::MAX,
        }
    }
}

/// The uplink of a tab's frames. It gathers the frames for the broker until the next flush or post.
#[derive(Drop)]
pub(crate) struct TabUplink<'a> {
    pub(crate) shared: &'a SharedKernel,
    pub(crate) batch: &'a RefCell<UplinkBatch>,
}

impl Uplink for TabUplink<'_> {
    fn flush<R: Wait + Clock>(&self, rt: &R) {
        if let Ok(mut batch) = self.batch.try_borrow_mut() {
            batch.flush(rt, self.shared);
        }
    }

    /// Pauses if the tab is ahead of its pace.
    fn pace<R: Wait + Clock>(&self, rt: &R) {
        let pause = match self.batch.try_borrow() {
            Ok(batch) => Duration::from_nanos(batch.pace.pause()),
            Err(_) => Duration::ZERO,
        };
        if !pause.is_zero() {
            thread::sleep(rt, pause);
        }
    }

    fn up<R: Wait + Clock>(&mut self, rt: &R, tab: u16, frame: Frame) -> Result<(), RouteFault> {
        let Ok(mut batch) = self.batch.try_borrow_mut() else {
            drop(frame);
            return Err(RouteFault::Memory);
        };
        batch.load.frames = batch.load.frames.saturating_add(1);
        self.shared.up(rt, tab, frame, &mut batch.gathered)
    }
}

/// A tab's link that counts the bytes read for the tab's pace.
#[derive(Drop)]
pub(crate) struct CountedLink<'a, L> {
    pub(crate) link: L,
    pub(crate) batch: &'a RefCell<UplinkBatch>,
}

impl<L: Read> Read for CountedLink<'_, L> {
    fn read(&mut self, buffer: &mut [u8]) -> io::Result<usize> {
        let count = self.link.read(buffer)?;
        if let Ok(mut batch) = self.batch.try_borrow_mut() {
            let bytes = u32::try_from(count).unwrap_or(u32::MAX);
            batch.load.bytes = batch.load.bytes.saturating_add(bytes);
        }
        Ok(count)
    }
}
