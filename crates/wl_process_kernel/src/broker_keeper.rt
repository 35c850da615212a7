//! The keeper: the thread that starts the broker's process of each generation and reads its link.

use crate::child_link::ChildLink;
use crate::clock::milliseconds_since;
use crate::shared_kernel::{BrokerProcess, CurrentBroker, SharedKernel};
use std::alloc::{AllocError, Global};
use std::net::Shutdown;
use std::os::unix::net::UnixStream;
use std::process::Child;
use std::sync::Arc;
use std::time::{Duration, Instant};
use wl_frames::device::READ_LIMIT;
use wl_process::children::{ChildNotStarted, Started, end, path_prefix, start_child};
use wl_process::{Host, Incoming, ProcessFault};
use wl_process_rules::{Restarts, is_beyond_hello};

/// The largest number of starts of a broker's process in a row, if each ends before it connects.
const TRIES: u32 = 16;

/// The time between starts if no file descriptor was left, in milliseconds.
const BETWEEN_TRIES: u64 = 20;

/// Parameters of a broker's process.
#[derive(Drop)]
pub(crate) struct BrokerWords {
    pub(crate) program: String,
    pub(crate) directory: String,
    pub(crate) lanes: u16,
    pub(crate) shards: u16,
    pub(crate) limit: u32,
}

impl BrokerWords {
    /// Starts the broker's process of a generation.
    fn start<R: Host>(&self, rt: &R, generation: u32) -> Result<Started, ChildNotStarted> {
        let alloc = rt.alloc();
        let directory = self.directory.as_str();
        let path = format!(in alloc;
            "{}{directory}/broker{generation}.sock",
            path_prefix(directory)
        )?;
        let lanes = format!(in alloc; "{}", self.lanes)?;
        let shards = format!(in alloc; "{}", self.shards)?;
        let limit = format!(in alloc; "{}", self.limit)?;
        start_child(
            rt,
            self.program.as_str(),
            path.as_str(),
            &[
                "broker",
                "--socket",
                path.as_str(),
                "--lanes",
                lanes.as_str(),
                "--shards",
                shards.as_str(),
                "--limit",
                limit.as_str(),
            ],
            0,
        )
    }

    /// Starts the broker's process of the next generation. Returns `None` if the kernel is ending.
    ///
    /// Retries up to `TRIES` times if the process ends before it connects, or if no file descriptor
    /// is left. The opening of a tab may use up all file descriptors for a moment.
    fn start_next<R: Host>(
        &self,
        rt: &R,
        shared: &SharedKernel,
    ) -> Result<Option<(Child, UnixStream)>, ProcessFault> {
        for _try in 0..TRIES {
            match self.start(rt, shared.generation(rt)) {
                Ok(
                    Started {
                        child,
                        link: Some(link),
                    },
                ) => return Ok(Some((child, link))),
                Ok(
                    Started {
                        mut child,
                        link: None,
                    },
                ) => end(&mut child),
                Err(ChildNotStarted::NoDescriptor) => shared.pause(
                    rt,
                    Duration::from_millis(BETWEEN_TRIES),
                ),
                Err(ChildNotStarted::Fault(fault)) => return Err(fault),
            }
            if shared.is_ending(rt) {
                return Ok(None);
            }
        }
        Err(ProcessFault::Device)
    }
}

/// Runs the keeper until the kernel ends: starts a broker whenever one is wanted. Pauses between
/// starts if brokers repeatedly fail at once.
pub(crate) fn keep<R: Host>(rt: &R, alloc: Global, shared: &SharedKernel, words: &BrokerWords) {
    let mut restarts = Restarts::new();
    for _generation in rt.forever() {
        if !shared.wait_for_order(rt) {
            return;
        }
        let begun = Instant::now(rt).ok();
        let has_answered = match run_generation(rt, alloc, shared, words) {
            Ok(has_answered) => has_answered,
            Err(fault) => {
                shared.note_failure(rt, fault);
                false
            }
        };
        if shared.is_starting(rt) {
            restarts.end(milliseconds_since(rt, begun), has_answered);
            shared.pause(rt, Duration::from_millis(restarts.pause()));
        }
    }
}

/// Runs one generation to its end. Returns true if its broker answered anything.
fn run_generation<R: Host>(
    rt: &R,
    alloc: Global,
    shared: &SharedKernel,
    words: &BrokerWords,
) -> Result<bool, ProcessFault> {
    let Some((mut child, link)) = words.start_next(rt, shared)? else {
        return Ok(false);
    };
    let Ok((link, ending)) = shared_link(alloc, link) else {
        end(&mut child);
        return Err(ProcessFault::Memory);
    };
    shared.hold(rt, BrokerProcess::new(child, ending));
    let served = serve(rt, alloc, shared, &link);
    if let Some(process) = shared.let_go(rt) {
        process.end();
    }
    shared.note_end_of_broker(rt);
    served
}

/// Shares a link between two owners without a second file descriptor.
fn shared_link(
    alloc: Global,
    link: UnixStream,
) -> Result<(Arc<UnixStream>, Arc<UnixStream>), AllocError> {
    let link = Arc::new(alloc, link)?;
    let other = Arc::try_clone(&link)?;
    Ok((link, other))
}

/// Starts the generation of a link and forwards the broker's frames until the link ends. Returns
/// true if any frame other than a Hello came.
fn serve<R: Host>(
    rt: &R,
    alloc: Global,
    shared: &SharedKernel,
    link: &Arc<UnixStream>,
) -> Result<bool, ProcessFault> {
    let writing = Arc::try_clone(link)?;
    let process = CurrentBroker { shared };
    let reading = ChildLink::new(*rt, link, &process).map_err(ProcessFault::of_device)?;
    let generation = shared.install(rt, writing)?;
    shared.note_up(rt, generation);
    let has_answered = read_broker(rt, alloc, shared, generation, reading);
    // Wake the threads that are blocked on writes to the link.
    let _ = link.shutdown(Shutdown::Both);
    shared.note_end_of_link(rt, generation);
    shared.uninstall(rt, generation);
    Ok(has_answered)
}

/// Reads a broker's link until its end or first fault. Returns true if any frame other than a Hello
/// came.
fn read_broker<R: Host>(
    rt: &R,
    alloc: Global,
    shared: &SharedKernel,
    generation: u32,
    link: ChildLink<'_, R, CurrentBroker<'_>>,
) -> bool {
    let mut incoming = Incoming::new(alloc, link);
    let mut has_answered = false;
    for _reads in 0..READ_LIMIT {
        let Ok(Some(frames)) = incoming.next() else {
            return has_answered;
        };
        for frame in frames {
            has_answered = has_answered || is_beyond_hello(&frame);
            shared.down(rt, generation, frame);
        }
    }
    has_answered
}
