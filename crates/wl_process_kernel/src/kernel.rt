//! The kernel's process: runs a script that starts and stops the broker and tabs, and serves their
//! links.

ghost use Rattle.std.specs.Prelude.{◌≡◌};

use crate::broker_keeper::{BrokerWords, keep};
use crate::shared_kernel::{Opened, SharedKernel, Stop};
use crate::tab_death::TabProcess;
use crate::tab_link::TabHandle;
use std::alloc::{AllocError, Global};
use std::io::Write;
use std::sync::{Arc, Mutex};
use std::thread::JoinHandle;
use std::time::Duration;
use std::{io, thread};
use wl_origin::{OriginFault, Partition, partition, partition_pair};
use wl_process::children::{ChildNotStarted, Started, path_prefix, start_child};
use wl_process::fault::DEVICE_OR_MEMORY;
use wl_process::{Host, ProcessFault, line_number, read_script};
use wl_process_rules::{KernelLine, KernelReply, read_kernel_line, unopened_reply, unread_reply};
use wl_script_words::ParseFault;

/// The number of file descriptors that the opening of a tab leaves free, so that a broker can be
/// restarted. A start needs at most two: the socket and the link.
const SPARE_DESCRIPTORS: usize = 8;

/// Parameters of a kernel.
#[derive(Drop)]
pub struct KernelWords {
    /// The directory of the sockets.
    pub directory: String,
    /// 1 to 16.
    pub lanes: u16,
    /// 1 to 16.
    pub shards: u16,
    /// The largest number of steps per generation and shard: 1 to 65,536.
    pub limit: u32,
    /// The path of the script.
    pub script: String,
    /// The program to run for the broker and the tabs.
    pub program: String,
}

/// A running kernel.
#[derive(Drop)]
struct Kernel {
    alloc: Global,
    shared: Arc<SharedKernel>,
    words: Arc<BrokerWords>,
    tabs: Vec<TabHandle>,
}

/// Runs a kernel's script to its end, then ends the broker and all tabs.
///
/// Fails with the fault of the script, or with the fault that kept a broker from starting.
pub fn run_kernel<R: Host>(rt: R, alloc: Global, words: KernelWords) -> Result<(), ProcessFault> {
    let KernelWords {
        directory,
        lanes,
        shards,
        limit,
        script,
        program,
    } = words;
    let text = read_script(&rt, script.as_str())?;
    let shared = Arc::new(alloc, SharedKernel::new(alloc)?)?;
    let words = Arc::new(
        alloc,
        BrokerWords {
            program,
            directory,
            lanes,
            shards,
            limit,
        },
    )?;
    let keeper = start_keeper(rt, alloc, &shared, &words)?;
    let mut kernel = Kernel {
        alloc,
        shared,
        words,
        tabs: Vec::new(alloc),
    };
    let ran = kernel.run(rt, text.as_slice());
    let shared = kernel.end(&rt);
    keeper.join(&rt);
    ran?;
    match shared.failure(&rt) {
        Some(fault) => Err(fault),
        None => Ok(()),
    }
}

/// Starts the keeper's thread.
fn start_keeper<R: Host>(
    rt: R,
    alloc: Global,
    shared: &Arc<SharedKernel>,
    words: &Arc<BrokerWords>,
) -> Result<JoinHandle<()>, ProcessFault> {
    let (shared, words) = (Arc::try_clone(shared)?, Arc::try_clone(words)?);
    thread::spawn(&rt, move || keep(&rt, alloc, &shared, &words)).map_err(|_| ProcessFault::Device)
}

impl Kernel {
    /// Runs the lines of a script.
    fn run<R: Host>(&mut self, rt: R, script: &[u8]) -> Result<(), ProcessFault> {
        let mut out = Vec::new(self.alloc);
        for (index, text) in script.split(|byte| *byte == b'\n').enumerate() {
            let number = line_number(index, text)?;
            let line = match read_kernel_line(self.alloc, text) {
                Ok(line) => line,
                Err(ParseFault::Form) => return Err(ProcessFault::Line(number)),
                Err(ParseFault::Memory) => return Err(ProcessFault::Memory),
            };
            out.clear();
            self.obey(rt, line, &mut out)?;
            if !out.is_empty() {
                let mut writer = io::writer(&rt);
                if writer.write_all(out.as_slice()).is_err() {
                    return Err(ProcessFault::Write);
                }
            }
            if let Some(fault) = self.shared.failure(&rt) {
                return Err(fault);
            }
        }
        Ok(())
    }

    /// Executes a line and appends its output.
    fn obey<R: Host>(
        &mut self,
        rt: R,
        line: KernelLine,
        out: &mut Vec<u8>,
    ) -> Result<(), ProcessFault> {
        match line {
            KernelLine::Blank => {}
            KernelLine::Start => self.order_start(&rt)?.put(out)?,
            KernelLine::Stop => self.order_stop(&rt)?.put(out)?,
            KernelLine::Open { url, file } => {
                let read = partition(self.alloc, url.as_str());
                self.open(rt, read, false, file.as_str(), out)?;
            }
            KernelLine::OpenTwo { top, url, file } => {
                let read = partition_pair(self.alloc, top.as_str(), url.as_str());
                self.open(rt, read, true, file.as_str(), out)?;
            }
            KernelLine::Kill { tab } => self.kill(&rt, tab).put(out)?,
            KernelLine::Pause { milliseconds } => {
                thread::sleep(&rt, Duration::from_millis(u64::from(milliseconds)));
            }
            KernelLine::Join => self.join(&rt, out)?,
        }
        Ok(())
    }

    fn order_start<R: Host>(&self, rt: &R) -> Result<KernelReply<'static>, ProcessFault> {
        Ok(match self.shared.order_start(rt)? {
            Some(generation) => KernelReply::Up(generation),
            None => KernelReply::AlreadyUp,
        })
    }

    fn order_stop<R: Host>(&self, rt: &R) -> Result<KernelReply<'static>, ProcessFault> {
        Ok(match self.shared.order_stop(rt)? {
            Stop::Stopped(generation) => KernelReply::Stopped(generation),
            Stop::AlreadyDown => KernelReply::AlreadyDown,
            Stop::GenerationsUsedUp => KernelReply::GenerationsUsedUp,
        })
    }

    /// Waits for the ends of all tabs and appends those not reported yet.
    fn join<R: Host>(&self, rt: &R, out: &mut Vec<u8>) -> Result<(), ProcessFault> {
        for (tab, status) in self.shared.wait_for_all(rt)? {
            KernelReply::Ended { tab, status }.put(out)?;
        }
        Ok(())
    }

    /// Opens a tab for a page whose partition was computed, starts its process, and appends the
    /// output.
    fn open<R: Host>(
        &mut self,
        rt: R,
        read: Result<Partition, OriginFault>,
        is_pair: bool,
        file: &str,
        out: &mut Vec<u8>,
    ) -> Result<(), ProcessFault> {
        match read {
            Ok(partition) => self.open_in(rt, partition, is_pair, file, out),
            Err(fault) => {
                unread_reply(fault)?.put(out)?;
                Ok(())
            }
        }
    }

    /// Opens a tab in a partition, starts its process, and appends the output.
    fn open_in<R: Host>(
        &mut self,
        rt: R,
        partition: Partition,
        is_pair: bool,
        file: &str,
        out: &mut Vec<u8>,
    ) -> Result<(), ProcessFault> {
        self.let_go_of_the_dead(&rt);
        let texts = Texts::new(self.alloc, &partition)?;
        match self.shared.open(&rt, partition, is_pair) {
            Ok(opened) => {
                let tab = opened.tab;
                self.start(rt, opened, file)?;
                texts.reply(tab, is_pair).put(out)?;
            }
            Err(fault) => unopened_reply(fault)?.put(out)?,
        }
        Ok(())
    }

    /// Joins the threads of dead tabs and drops their links.
    fn let_go_of_the_dead<R: Host>(&mut self, rt: &R) {
        let mut place = 0;
        for _tab in 0..self.tabs.len() {
            let Some(handle) = self.tabs.get(place) else {
                return;
            };
            if self.shared.is_running(rt, handle.process.tab) {
                place += 1;
            } else {
                self.tabs.swap_remove(place).join(rt);
            }
        }
    }

    /// Starts a tab's process and the threads of its link. If no file descriptor is left, only this
    /// tab fails: its death is announced with the status `DEVICE_OR_MEMORY`.
    fn start<R: Host>(&mut self, rt: R, opened: Opened, file: &str) -> Result<(), ProcessFault>
        requires { opened.death ≡ opened.tab }
    {
        self.tabs.reserve(1)?;
        let started = match self.start_process(&rt, opened.tab, file) {
            Ok(started) => started,
            Err(ChildNotStarted::NoDescriptor) => {
                self.shared
                    .announce_death(&rt, opened.tab, &opened.death, DEVICE_OR_MEMORY);
                return Ok(());
            }
            Err(ChildNotStarted::Fault(fault)) => return Err(fault),
        };
        let Opened {
            tab,
            tab_outbox,
            consumer,
            death,
        } = opened;
        let process = TabProcess {
            tab,
            child: Mutex::new(started.child),
            link: started.link,
            death,
        };
        let handle = TabHandle::new(rt, self.alloc, &self.shared, process, &tab_outbox, consumer)?;
        let is_served = handle.is_served();
        self.tabs.push_reserved(handle);
        if !is_served {
            return Err(ProcessFault::Device);
        }
        Ok(())
    }

    /// Starts a tab's process and accepts its link.
    fn start_process<R: Host>(
        &self,
        rt: &R,
        tab: u16,
        file: &str,
    ) -> Result<Started, ChildNotStarted> {
        let directory = self.words.directory.as_str();
        let path = format!(in self.alloc; "{}{directory}/tab{tab}.sock", path_prefix(directory))?;
        let script = format!(in self.alloc; "{}{file}", path_prefix(file))?;
        start_child(
            rt,
            self.words.program.as_str(),
            path.as_str(),
            &["tab", "--socket", path.as_str(), script.as_str()],
            SPARE_DESCRIPTORS,
        )
    }

    /// Kills a tab's process and waits until its death has been announced.
    fn kill<R: Host>(&self, rt: &R, tab: u16) -> KernelReply {
        if !self.shared.is_running(rt, tab) {
            return KernelReply::NoTab;
        }
        for handle in self.tabs.iter() {
            if handle.process.tab == tab {
                handle.process.kill(rt);
            }
        }
        self.shared.wait_for_end(rt, tab);
        self.shared.forget_end(rt, tab);
        KernelReply::Killed(tab)
    }

    /// Ends the broker and all tabs, and joins the tabs' threads.
    fn end<R: Host>(self, rt: &R) -> Arc<SharedKernel> {
        let Kernel {
            alloc: _,
            shared,
            words: _,
            tabs,
        } = self;
        shared.order_end(rt);
        for handle in tabs.iter() {
            handle.process.kill(rt);
        }
        for handle in tabs {
            handle.join(rt);
        }
        shared
    }
}

/// The texts of a partition's two origins.
#[derive(Drop)]
struct Texts {
    top: String,
    origin: String,
}

impl Texts {
    fn new(alloc: Global, partition: &Partition) -> Result<Texts, AllocError> {
        let top = String::from_str(alloc, partition.top_text())?;
        let origin = String::from_str(alloc, partition.text())?;
        Ok(Texts { top, origin })
    }

    /// Returns the output line for an opened tab.
    fn reply(&self, tab: u16, is_pair: bool) -> KernelReply<'_> {
        let (top, origin) = (self.top.as_str(), self.origin.as_str());
        if is_pair {
            KernelReply::OpenedTwo { tab, top, origin }
        } else {
            KernelReply::Opened { tab, origin }
        }
    }
}
