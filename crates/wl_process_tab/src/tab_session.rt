//! State shared by the two threads of a tab's process: its locks and its link, behind one lock.

use std::alloc::{AllocError, Global};
use std::io::Write;
use std::os::unix::net::UnixStream;
use std::sync::{Condvar, CondvarTimeouts, Mutex};
use std::time::Duration;
use wl_agent::{AgentFault, MessageFault, Snapshot};
use wl_frames::{Frame, Mode, Name};
use wl_process::{Host, ProcessFault, append};
use wl_process_rules::patience::RESEND_LIMIT;
use wl_process_rules::{Next, Patience};
use wl_tab::{AbortResult, TabLocks};
use wl_world_messages::Effect;

/// The time without an event that could end a wait, in milliseconds, after which a waiting tab
/// resends its commands. Other frames do not count as such events.
const QUIET: u64 = 20;

/// Why a script line was not executed.
#[derive(Clone, Copy, Debug, PartialEq, Eq)]
pub(crate) enum LineFailure {
    /// The agent refused the command.
    Refused,
    /// The wait took too long, or a file could not be read or written.
    Failed,
    /// The tab must end.
    Fault(ProcessFault),
}

impl From<ProcessFault> for LineFailure {
    fn from(fault: ProcessFault) -> LineFailure {
        LineFailure::Fault(fault)
    }
}

impl From<AgentFault> for LineFailure {
    fn from(fault: AgentFault) -> LineFailure {
        match fault {
            AgentFault::Memory => LineFailure::Fault(ProcessFault::Memory),
            _ => LineFailure::Refused,
        }
    }
}

/// A tab's locks and its link. Frames are written under the lock, so they leave in the order in
/// which the agent issued them.
#[derive(Drop)]
pub(crate) struct TabSession {
    alloc: Global,
    link: UnixStream,
    /// `None` before the welcome.
    locks: Option<TabLocks>,
    /// Encoded frames to be written next.
    bytes: Vec<u8>,
    /// The number that the script waits for.
    awaited: Option<u32>,
    /// The last answered query with its answer, until the script takes it.
    answer: Option<(u32, Snapshot)>,
    /// Whether an event arrived that may end the script's wait.
    has_come: bool,
    /// The fault with which the link ended.
    end: Option<ProcessFault>,
}

impl TabSession {
    /// Appends a command's message, if a generation has been entered.
    fn append_command(&mut self, number: u32) -> Result<(), ProcessFault> {
        let Some(locks) = &self.locks else {
            return Ok(());
        };
        let said = locks.message(number);
        self.append_said(&said)
    }

    /// Appends a message of the agent. There is none before a generation is entered.
    fn append_said(&mut self, said: &Result<Frame, MessageFault>) -> Result<(), ProcessFault> {
        match said {
            Ok(frame) => self.append_one(frame),
            Err(MessageFault::Memory) => Err(ProcessFault::Memory),
            Err(_) => Ok(()),
        }
    }

    /// Appends everything that the broker may not have received: the report, if it is due, and
    /// commands.
    fn say_again(&mut self) -> Result<(), ProcessFault> {
        let Some(locks) = &self.locks else {
            return Ok(());
        };
        let due = locks.resend()?;
        if due.report {
            let _base = self.say_report()?;
        }
        self.say_from(0, due.numbers.as_slice())
    }

    /// Appends the report, if a generation has been entered, and returns its base.
    fn say_report(&mut self) -> Result<u32, ProcessFault> {
        let Some(locks) = &self.locks else {
            return Ok(0);
        };
        match locks.report_frames() {
            Ok(report) => {
                let report = report.into_vec();
                self.append_all(report.as_slice())?;
                Ok(base_of(report.as_slice()))
            }
            Err(MessageFault::Memory) => Err(ProcessFault::Memory),
            Err(_) => Ok(0),
        }
    }

    /// Appends the commands of these numbers, except those below the base, which the report covers.
    fn say_from(&mut self, base: u32, numbers: &[u32]) -> Result<(), ProcessFault> {
        for number in numbers {
            if *number >= base {
                self.append_command(*number)?;
            }
        }
        Ok(())
    }

    fn append_one(&mut self, frame: &Frame) -> Result<(), ProcessFault> {
        append(&mut self.bytes, frame)?;
        Ok(())
    }

    fn append_all(&mut self, frames: &[Frame]) -> Result<(), ProcessFault> {
        for frame in frames {
            self.append_one(frame)?;
        }
        Ok(())
    }

    /// Writes the appended frames.
    fn send(&mut self) -> Result<(), ProcessFault> {
        if self.bytes.is_empty() {
            return Ok(());
        }
        let mut writer = &self.link;
        let written = writer.write_all(self.bytes.as_slice());
        self.bytes.clear();
        written.map_err(|_| ProcessFault::Write)
    }

    /// Appends and writes a command's message.
    fn send_command(&mut self, number: u32) -> Result<(), ProcessFault> {
        self.append_command(number)?;
        self.send()
    }

    fn ask(&mut self, mode: Mode, name: &Name) -> Result<(), LineFailure> {
        let Some(locks) = &mut self.locks else {
            return Ok(());
        };
        let number = locks.request(name, mode)?;
        Ok(self.send_command(number)?)
    }

    fn probe(&mut self, mode: Mode, name: &Name) -> Result<(), LineFailure> {
        let Some(locks) = &mut self.locks else {
            return Ok(());
        };
        let number = locks.probe(name, mode)?;
        Ok(self.send_command(number)?)
    }

    fn release(&mut self, number: u32) -> Result<(), ProcessFault> {
        let Some(locks) = &mut self.locks else {
            return Ok(());
        };
        match locks.release(number) {
            Some(next) => self.send_command(next),
            None => Ok(()),
        }
    }

    fn abort(&mut self, number: u32) -> Result<(), ProcessFault> {
        let Some(locks) = &mut self.locks else {
            return Ok(());
        };
        match locks.abort(number) {
            AbortResult::Issued(next) => self.send_command(next),
            AbortResult::Held | AbortResult::Nothing => Ok(()),
        }
    }

    /// Issues a query and returns its number. Returns `None` before the welcome.
    fn query(&mut self) -> Result<Option<u32>, LineFailure> {
        let Some(locks) = &mut self.locks else {
            return Ok(None);
        };
        let number = locks.query()?;
        self.send_command(number)?;
        Ok(Some(number))
    }

    /// Returns the result of waiting for a number. If it is still pending, records it as awaited
    /// and returns `None`.
    fn look(&mut self, number: u32) -> Option<Result<Option<Snapshot>, LineFailure>> {
        if let Some(fault) = self.end {
            return Some(Err(LineFailure::Fault(fault)));
        }
        if self.is_open(number) {
            self.awaited = Some(number);
            self.has_come = false;
            return None;
        }
        Some(Ok(self.take_answer(number)))
    }

    /// Returns true if the request or query of this number is pending.
    fn is_open(&self, number: u32) -> bool {
        match &self.locks {
            Some(locks) => locks.is_open(number),
            None => false,
        }
    }

    /// Takes the answer to this query, if it has arrived.
    fn take_answer(&mut self, number: u32) -> Option<Snapshot> {
        let (query, snapshot) = self.answer.take()?;
        if query == number {
            return Some(snapshot);
        }
        drop(snapshot);
        None
    }

    /// Resends all that may be lost, after an interval without an event that could end the wait.
    /// Fails with `Failed` after too many resends.
    fn resend(&mut self, patience: &mut Patience) -> Result<(), LineFailure> {
        match patience.quiet() {
            Next::Resend => {
                self.say_again()?;
                Ok(self.send()?)
            }
            Next::GiveUp => Err(LineFailure::Failed),
        }
    }

    /// Handles a frame from the kernel. The first one must be a welcome. A frame dropped for lack
    /// of memory comes again after a resend.
    fn take(&mut self, frame: &Frame) -> Result<(), ProcessFault> {
        let Some(locks) = &mut self.locks else {
            return self.welcome(frame);
        };
        match locks.deliver(frame) {
            Ok(said) => self.hear(said),
            Err(AllocError) => Ok(()),
        }
    }

    /// Handles the welcome.
    fn welcome(&mut self, frame: &Frame) -> Result<(), ProcessFault> {
        self.locks = Some(welcomed(self.alloc, frame)?);
        self.has_come = true;
        Ok(())
    }

    /// Handles the agent's result of a delivery.
    fn hear(&mut self, said: Effect) -> Result<(), ProcessFault> {
        match said {
            Effect::Entered { .. } => return self.enter(),
            Effect::Granted(number) | Effect::Null(number) | Effect::Lost(number) => self.note(
                number,
            ),
            Effect::Whole { number, snapshot } => {
                self.answer = Some((number, snapshot));
                self.note(number);
            }
            _ => {}
        }
        Ok(())
    }

    /// Records that this number is decided.
    fn note(&mut self, number: u32) {
        if self.awaited == Some(number) {
            self.has_come = true;
        }
    }

    /// Enters a generation: appends the report, and the commands that the report does not cover.
    fn enter(&mut self) -> Result<(), ProcessFault> {
        self.has_come = true;
        let base = self.say_report()?;
        let Some(locks) = &self.locks else {
            return Ok(());
        };
        let due = locks.resend()?;
        self.say_from(base, due.numbers.as_slice())
    }

    fn take_all(&mut self, frames: &[Frame]) -> Result<(), ProcessFault> {
        for frame in frames {
            self.take(frame)?;
        }
        self.send()
    }
}

/// Returns the base of a report.
fn base_of(report: &[Frame]) -> u32 {
    match report.first() {
        Some(Frame::Report(report)) => report.base,
        Some(Frame::ReportPart(part)) => part.base,
        _ => 0,
    }
}

/// A page shared by two threads.
#[derive(Drop)]
pub(crate) struct SharedTabSession {
    page: Mutex<TabSession>,
    came: Condvar,
}

impl SharedTabSession {
    pub(crate) fn new(alloc: Global, link: UnixStream) -> SharedTabSession {
        SharedTabSession {
            page: Mutex::new(TabSession {
                alloc,
                link,
                locks: None,
                bytes: Vec::new(alloc),
                awaited: None,
                answer: None,
                has_come: false,
                end: None,
            }),
            came: Condvar::new(),
        }
    }

    // The thread that reads the link

    /// Handles arrived frames, and wakes the script if they may end its wait.
    pub(crate) fn take<R: Host>(&self, rt: &R, frames: Vec<Frame>) -> Result<(), ProcessFault> {
        let mut page = self.page.lock(rt);
        let taken = page.take_all(frames.as_slice());
        let has_come = page.has_come;
        drop(page);
        if has_come {
            self.came.notify_one();
        }
        taken
    }

    /// Records the end of the link and wakes the script.
    pub(crate) fn end<R: Host>(&self, rt: &R, fault: ProcessFault) {
        let mut page = self.page.lock(rt);
        page.end = Some(fault);
        drop(page);
        self.came.notify_one();
    }

    // The thread that runs the script

    /// Waits for the welcome, for at most as long as for a lock. Fails with `Read` on timeout,
    /// because a lost welcome is not sent again.
    pub(crate) fn wait_for_welcome<R: Host>(&self, rt: &R) -> Result<(), ProcessFault> {
        let most = Duration::from_millis(QUIET * u64::from(RESEND_LIMIT));
        let (page, result) = self
            .came
            .wait_timeout_while(rt, self.page.lock(rt), most, |page| {
                page.locks.is_none() && page.end.is_none()
            });
        match page.end {
            Some(fault) => Err(fault),
            None if result.timed_out() => Err(ProcessFault::Read),
            None => Ok(()),
        }
    }

    /// Fails with the link's fault if the link has ended.
    pub(crate) fn check<R: Host>(&self, rt: &R) -> Result<(), ProcessFault> {
        match self.page.lock(rt).end {
            Some(fault) => Err(fault),
            None => Ok(()),
        }
    }

    pub(crate) fn ask<R: Host>(&self, rt: &R, mode: Mode, name: &Name) -> Result<(), LineFailure> {
        self.page.lock(rt).ask(mode, name)
    }

    pub(crate) fn probe<R: Host>(
        &self,
        rt: &R,
        mode: Mode,
        name: &Name,
    ) -> Result<(), LineFailure> {
        self.page.lock(rt).probe(mode, name)
    }

    pub(crate) fn release<R: Host>(&self, rt: &R, number: u32) -> Result<(), ProcessFault> {
        self.page.lock(rt).release(number)
    }

    pub(crate) fn abort<R: Host>(&self, rt: &R, number: u32) -> Result<(), ProcessFault> {
        self.page.lock(rt).abort(number)
    }

    /// Issues a query and waits for its answer. Returns `None` if the query is lost.
    pub(crate) fn query<R: Host>(&self, rt: &R) -> Result<Option<Snapshot>, LineFailure> {
        let asked = self.page.lock(rt).query()?;
        match asked {
            Some(number) => self.wait(rt, number),
            None => Ok(None),
        }
    }

    /// Waits until a number is decided. Returns the answer if it is that of a complete query.
    ///
    /// The delivery that ends the wait wakes this thread. After each quiet interval the tab resends
    /// all that may be lost.
    pub(crate) fn wait<R: Host>(
        &self,
        rt: &R,
        number: u32,
    ) -> Result<Option<Snapshot>, LineFailure> {
        let mut patience = Patience::new();
        let mut page = self.page.lock(rt);
        for _ in rt.forever() {
            if let Some(over) = page.look(number) {
                return over;
            }
            let quiet = Duration::from_millis(QUIET);
            let (woken, result) = self.came.wait_timeout_while(rt, page, quiet, |page| {
                !page.has_come && page.end.is_none()
            });
            page = woken;
            if result.timed_out() {
                page.resend(&mut patience)?;
            }
        }
        unreachable!()
    }
}

/// Creates a tab's locks from its welcome. Fails with `Unexpected` for any other frame.
fn welcomed(alloc: Global, frame: &Frame) -> Result<TabLocks, ProcessFault> {
    match frame {
        Frame::Welcome(welcome) => Ok(TabLocks::new(alloc, welcome.tab)),
        Frame::PairWelcome(welcome) => Ok(TabLocks::new_two(alloc, welcome.tab)),
        _ => Err(ProcessFault::Unexpected),
    }
}
