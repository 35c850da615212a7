//! A tab's link in the kernel: the reading thread and the writing thread.

use crate::child_link::ChildLink;
use crate::shared_kernel::SharedKernel;
use crate::tab_death::{Ending, TabProcess, ending_after};
use crate::tab_outbox::{OutboxConsumer, TabOutbox};
use crate::tab_uplink::{CountedLink, TabUplink, UplinkBatch};
use crate::writer_wait::FlushBeforeWait;
use std::alloc::{AllocError, AllocFailed, Global};
use std::cell::RefCell;
use std::os::unix::net::UnixStream;
use std::sync::Arc;
use std::thread;
use std::thread::JoinHandle;
use wl_frames::device::{Sink, Source};
use wl_process::link_buffer::{LinkBuffer, LinkBufferWriter};
use wl_process::{Host, ProcessFault};
use wl_workers::tab_reader::tab_reader;
use wl_workers::tab_writer::tab_writer;
use wl_workers::{AfterBell, ReadEnd, SharedSeat, Uplink, WriteEnd};

/// Reads a tab's link to its end.
fn read_link<R: Host>(
    rt: &R,
    alloc: Global,
    shared: &SharedKernel,
    process: &TabProcess,
    link: &UnixStream,
) -> Result<ReadEnd, AllocError> {
    let tab = process.tab;
    let Ok(link) = ChildLink::new(*rt, link, process) else {
        return Ok(ReadEnd::Read);
    };
    let batch = RefCell::new(UplinkBatch::new(alloc));
    let mut lives = SharedSeat::new(shared.liveness_seat(tab)?);
    let mut uplink = TabUplink {
        shared,
        batch: &batch,
    };
    let mut source = Source::new(CountedLink {
        link,
        batch: &batch,
    });
    let end = tab_reader(rt, alloc, tab, &mut source, &mut lives, &mut uplink);
    uplink.flush(rt);
    Ok(end)
}

/// Reads a tab's link to its end, and announces the tab's death.
fn read_until_death<R: Host>(rt: &R, alloc: Global, shared: &SharedKernel, process: &TabProcess) {
    let end = match &process.link {
        Some(link) => read_link(rt, alloc, shared, process, link),
        None => Ok(ReadEnd::End),
    };
    let ending = match end {
        Ok(end) => ending_after(end),
        Err(_) => Ending::AtOnce,
    };
    process.end_and_announce(rt, shared, ending);
}

/// Writes the frames put for a tab until the tab is dead. Shuts the link down if a write fails or
/// memory runs out, because the tab would wait for the lost frames.
fn write_link_or_end<R: Host>(
    rt: &R,
    alloc: Global,
    shared: &SharedKernel,
    process: &TabProcess,
    tab_outbox: &TabOutbox,
    consumer: OutboxConsumer,
) {
    match write_link(rt, alloc, shared, process, tab_outbox, consumer) {
        Ok(WriteEnd::Dead) => {}
        Ok(WriteEnd::Write) | Err(AllocError) => process.hang_up(),
    }
}

/// Writes the frames put for a tab until the tab is dead or a write fails.
fn write_link<R: Host>(
    rt: &R,
    alloc: Global,
    shared: &SharedKernel,
    process: &TabProcess,
    tab_outbox: &TabOutbox,
    consumer: OutboxConsumer,
) -> Result<WriteEnd, AllocError> {
    let Some(link) = &process.link else {
        return Ok(WriteEnd::Dead);
    };
    let OutboxConsumer { outbox, mut pass } = consumer;
    let buffer = LinkBuffer::new(alloc, link);
    let seat = SharedSeat::new(shared.liveness_seat(process.tab)?);
    let mut lives = FlushBeforeWait {
        buffer: &buffer,
        tab_outbox,
        lives: AfterBell::new(Arc::try_clone(&tab_outbox.bell)?, seat),
    };
    let mut sink = Sink::new(LinkBufferWriter { bundle: &buffer });
    let end = tab_writer(
        rt,
        alloc,
        process.tab,
        &outbox,
        &mut pass,
        &mut lives,
        &mut sink,
    );
    buffer.flush();
    Ok(end)
}

/// Starts the thread that reads a tab's link. Returns `None` if the thread cannot be created.
fn start_reader<R: Host>(
    rt: R,
    alloc: Global,
    shared: &Arc<SharedKernel>,
    process: &Arc<TabProcess>,
) -> Result<Option<JoinHandle<()>>, AllocError> {
    let (shared, process) = (Arc::try_clone(shared)?, Arc::try_clone(process)?);
    Ok(thread::spawn(&rt, move || read_until_death(&rt, alloc, &shared, &process)).ok())
}

/// Starts the thread that writes to a tab's link. Returns `None` if the thread cannot be created.
fn start_writer<R: Host>(
    rt: R,
    alloc: Global,
    shared: &Arc<SharedKernel>,
    process: &Arc<TabProcess>,
    tab_outbox: &Arc<TabOutbox>,
    consumer: OutboxConsumer,
) -> Result<Option<JoinHandle<()>>, AllocError> {
    let (shared, process) = (Arc::try_clone(shared)?, Arc::try_clone(process)?);
    let tab_outbox = Arc::try_clone(tab_outbox)?;
    Ok(thread::spawn(&rt, move || {
        write_link_or_end(&rt, alloc, &shared, &process, &tab_outbox, consumer);
    })
    .ok())
}

/// A tab as the script sees it: its process and the threads of its link.
#[derive(Drop)]
pub(crate) struct TabHandle {
    pub(crate) process: Arc<TabProcess>,
    reader: Option<JoinHandle<()>>,
    writer: Option<JoinHandle<()>>,
}

impl TabHandle {
    /// Starts the threads of a tab's link. If one cannot be created, the process is killed and the
    /// tab's death announced.
    pub(crate) fn new<R: Host>(
        rt: R,
        alloc: Global,
        shared: &Arc<SharedKernel>,
        process: TabProcess,
        tab_outbox: &Arc<TabOutbox>,
        consumer: OutboxConsumer,
    ) -> Result<TabHandle, ProcessFault> {
        let process = match Arc::new(alloc, process) {
            Ok(process) => process,
            Err(AllocFailed { value: process }) => {
                process.kill(&rt);
                process.end_and_announce(&rt, shared, Ending::AtOnce);
                return Err(ProcessFault::Memory);
            }
        };
        let reader = start_reader(rt, alloc, shared, &process)?;
        let writer = start_writer(rt, alloc, shared, &process, tab_outbox, consumer)?;
        let has_failed = reader.is_none() || writer.is_none();
        if has_failed {
            process.kill(&rt);
        }
        if reader.is_none() {
            process.end_and_announce(&rt, shared, Ending::AtOnce);
        }
        Ok(TabHandle {
            process,
            reader,
            writer,
        })
    }

    /// Returns true if both threads were created.
    pub(crate) fn is_served(&self) -> bool {
        self.reader.is_some() && self.writer.is_some()
    }

    /// Joins the threads. The process must have been ended first.
    pub(crate) fn join<R: Host>(self, rt: &R) {
        let TabHandle {
            process: _,
            reader,
            writer,
        } = self;
        if let Some(reader) = reader {
            reader.join(rt);
        }
        if let Some(writer) = writer {
            writer.join(rt);
        }
    }
}
