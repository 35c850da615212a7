//! The broker's input, read by its lanes in turn.
//!
//! The lane that reads distributes the works to all lanes, by their tabs. A lane that reads works
//! of its own wakes no other thread.
//!
//! Works of one shard are stepped in the order in which they were dealt. So each shard has a line of
//! lanes, with an entry for each work that was dealt and is not done: neither stepped nor lost. A lane
//! takes its oldest work when it is first in the line of the work's shard, and leaves the line when
//! the work is done.
//!
//! No lane waits forever for its place in a line. Take the oldest work that is not done. In its shard no
//! older work is left, so its lane is first in line. In its lane's mailbox no older work is left, so it
//! is the next one, or the lane has it in hand. So that lane waits for no other. A lane that ends with
//! works in its mailbox, or with one in hand, cuts all mailboxes, and then no lane waits.

ghost use Rattle.std.specs.Prelude.{◌≡◌, ◌<◌, ◌%◌};
ghost use Rattle.wl_process_broker.specs.Tabs.{tab_of};

use crate::mailbox::{Look, Mailbox, Woken};
use std::alloc::{AllocError, Global};
use std::collections::VecDeque;
use std::hint::spin_loop;
use std::os::unix::net::UnixStream;
use std::rt::Clock;
use std::sync::{Condvar, CondvarTimeouts, Mutex, Wait};
use std::time::Duration;
use wl_frames::Frame;
use wl_locked::{BookEvent, Work, deal};
use wl_process::{Incoming, ProcessFault};
use wl_process_rules::Dealt;

/// The time that a lane waits for the threads of all other lanes, in milliseconds.
const MEETING: u64 = 5_000;

/// The number of looks at its mailbox before a lane sleeps until it is first in line.
const LOOKS: u32 = 12;

/// The rendezvous of the lanes before any of them reads.
#[derive(Drop)]
struct StartBarrier {
    /// The number of lanes that have a thread.
    met: usize,
    /// Whether the wait for the other lanes timed out.
    is_off: bool,
}

/// The turn to read the link.
#[derive(Drop)]
enum Turn<'a> {
    /// No lane reads. The next idle lane takes the turn.
    Free(Incoming<&'a UnixStream>),
    /// A lane is reading.
    Taken,
    /// Reading has ended, with this result.
    Over(Result<(), ProcessFault>),
}

/// The link's reading end, the lines of the shards, and the mailboxes of the lanes. Their locks are taken
/// in this order.
#[derive(Drop)]
pub(crate) struct Inbox<'a> {
    alloc: Global,
    lanes: u16,
    shards: u16,
    mailboxes: Vec<Mailbox>,
    lines: Vec<Mutex<VecDeque<usize>>>,
    turn: Mutex<Turn<'a>>,
    meeting: Mutex<StartBarrier>,
    met: Condvar,
    ghost some_lanes: { 0 < lanes },
    ghost some_shards: { 0 < shards },
}

impl<'a> Inbox<'a> {
    /// Creates the inbox of a broker with these numbers of lanes and shards.
    pub(crate) fn new(
        alloc: Global,
        lanes: u16,
        shards: u16,
        incoming: Incoming<&'a UnixStream>,
    ) -> Result<Inbox<'a>, AllocError>
        requires lanes { 0 < lanes }
        requires shards { 0 < shards }
    {
        let mut mailboxes = Vec::new(alloc);
        for _lane in 0..lanes {
            mailboxes.push(Mailbox::new(alloc))?;
        }
        let mut lines = Vec::new(alloc);
        for _shard in 0..shards {
            lines.push(Mutex::new(VecDeque::new(alloc)))?;
        }
        Ok(Inbox {
            alloc,
            lanes,
            shards,
            mailboxes,
            lines,
            turn: Mutex::new(Turn::Free(incoming)),
            meeting: Mutex::new(StartBarrier {
                met: 0,
                is_off: false,
            }),
            met: Condvar::new(),
        })
    }

    /// Waits until every lane has a thread. Returns false if a lane gets none, because works for
    /// that lane would wait forever.
    pub(crate) fn meet<R: Wait + Clock>(&self, rt: &R) -> bool {
        let (lanes, most) = (self.mailboxes.len(), Duration::from_millis(MEETING));
        let mut meeting = self.meeting.lock(rt);
        meeting.met = meeting.met.saturating_add(1);
        self.met.notify_all();
        let (mut meeting, result) = self.met.wait_timeout_while(
            rt,
            meeting,
            most,
            |meeting| meeting.met < lanes && !meeting.is_off,
        );
        if result.timed_out() {
            meeting.is_off = true;
            self.met.notify_all();
        }
        !meeting.is_off
    }

    /// Returns true if a lane got no thread, so no lane reads.
    pub(crate) fn is_off<R: Wait>(&self, rt: &R) -> bool {
        self.meeting.lock(rt).is_off
    }

    /// Distributes frames that arrived before the lanes were started.
    pub(crate) fn begin<R: Wait>(&self, rt: &R, frames: Vec<Frame>) {
        let mut turn = self.turn.lock(rt);
        if let Err(fault) = self.deal_frames(rt, self.mailboxes.len(), frames) {
            *turn = Turn::Over(Err(fault));
            self.shut(rt);
        }
    }

    /// Returns the next work of a lane, if the lane may take one soon. Looks again if the lane is not
    /// first in line for it, with pauses that double.
    pub(crate) fn take_now<R: Wait>(&self, rt: &R, lane: usize) -> Option<Work> {
        let mailbox = self.mailboxes.get(lane)?;
        for look in 0..LOOKS {
            match mailbox.look(rt) {
                Look::Work(work) => return Some(work),
                Look::Empty => return None,
                Look::Waits => pause(look),
            }
        }
        None
    }

    /// Waits for the next work of a lane. Returns `None` if no more will come. A lane without works
    /// reads the link, unless another lane does.
    pub(crate) fn take<R: Wait>(&self, rt: &R, lane: usize) -> Option<Work> {
        let mailbox = self.mailboxes.get(lane)?;
        for _turns in rt.forever() {
            match self.look(rt, lane, mailbox) {
                Woken::Work(work) => return Some(work),
                Woken::Turn => {}
                Woken::Closed => return None,
            }
        }
        None
    }

    /// Returns the next work of a lane, if there is one. Otherwise the lane reads the link, if it
    /// is free, or sleeps until it is woken.
    fn look<R: Wait>(&self, rt: &R, lane: usize, mailbox: &Mailbox) -> Woken {
        if let Look::Work(work) = mailbox.look(rt) {
            return Woken::Work(work);
        }
        if self.reads_on(rt, lane, mailbox) {
            return Woken::Turn;
        }
        mailbox.take(rt)
    }

    /// Reads the link if no lane reads. Returns true if the lane must look again without sleeping.
    fn reads_on<R: Wait>(&self, rt: &R, lane: usize, mailbox: &Mailbox) -> bool {
        match self.take_turn(rt, mailbox) {
            Some(incoming) => self.read(rt, lane, incoming),
            None => false,
        }
    }

    /// Closes all mailboxes, so no lane waits for works.
    pub(crate) fn shut<R: Wait>(&self, rt: &R) {
        for mailbox in self.mailboxes.iter() {
            mailbox.close(rt);
        }
    }

    /// Cuts all mailboxes, so no lane takes or waits for a work.
    pub(crate) fn cut<R: Wait>(&self, rt: &R) {
        for mailbox in self.mailboxes.iter() {
            mailbox.cut(rt);
        }
    }

    /// Takes a lane whose work is done out of the line of a shard. Wakes the lane that is first then.
    pub(crate) fn leave_line<R: Wait>(&self, rt: &R, lane: usize, shard: u16) {
        let Some(line) = self.lines.get(usize::from(shard)) else {
            return;
        };
        let mut line = line.lock(rt);
        let _left = line.pop_front();
        let next = line.front().copied();
        if next == Some(lane) {
            return;
        }
        self.set_first(rt, Some(lane), shard, false);
        self.set_first(rt, next, shard, true);
    }

    fn set_first<R: Wait>(&self, rt: &R, lane: Option<usize>, shard: u16, is_first: bool) {
        if let Some(mailbox) = lane.and_then(|lane| self.mailboxes.get(lane)) {
            mailbox.set_first(rt, shard, is_first);
        }
    }

    /// Returns the fault that ended reading, if any.
    pub(crate) fn end<R: Wait>(&self, rt: &R) -> Result<(), ProcessFault> {
        match &*self.turn.lock(rt) {
            Turn::Over(Err(fault)) => Err(*fault),
            _ => Ok(()),
        }
    }

    /// Takes the turn to read, if it is free. A lane with works in its mailbox does not read. The
    /// works may have arrived since the lane looked, and the lane that put them left the turn to
    /// this one.
    fn take_turn<R: Wait>(&self, rt: &R, mailbox: &Mailbox) -> Option<Incoming<&'a UnixStream>> {
        let mut turn = self.turn.lock(rt);
        if mailbox.has_work(rt) {
            return None;
        }
        match std::mem::replace(&mut *turn, Turn::Taken) {
            Turn::Free(incoming) => Some(incoming),
            other => {
                *turn = other;
                None
            }
        }
    }

    /// Reads once and distributes the works. Returns true if this lane must look again without
    /// sleeping. Returns false if another lane reads next or the input has ended.
    ///
    /// The lock of the turn is held during distribution, so a woken lane finds the turn free.
    fn read<R: Wait>(&self, rt: &R, lane: usize, mut incoming: Incoming<&'a UnixStream>) -> bool {
        let came = incoming.next();
        let mut turn = self.turn.lock(rt);
        let dealt = self.deal_all(rt, lane, came);
        *turn = turn_after(dealt, incoming);
        let Ok(Some(dealt)) = dealt else {
            self.shut(rt);
            return false;
        };
        if dealt.offers() {
            self.offer_turn(rt, lane);
        }
        !dealt.leaves()
    }

    /// Asks an idle lane, if there is one, to read while this one has many works to do.
    fn offer_turn<R: Wait>(&self, rt: &R, lane: usize) {
        for (place, mailbox) in self.mailboxes.iter().enumerate() {
            if place != lane && mailbox.offer_turn(rt) {
                return;
            }
        }
    }

    /// Distributes the frames of a read. Returns `None` if it was the last read.
    fn deal_all<R: Wait>(
        &self,
        rt: &R,
        lane: usize,
        came: Result<Option<Vec<Frame>>, ProcessFault>,
    ) -> Result<Option<Dealt>, ProcessFault> {
        match came {
            Ok(Some(frames)) => self.deal_frames(rt, lane, frames).map(Some),
            Ok(None) => Ok(None),
            Err(fault) => Err(fault),
        }
    }

    /// Puts the works of these frames into the mailboxes of their tabs' lanes. Returns how the
    /// works were distributed. An event is lost if memory runs out.
    fn deal_frames<R: Wait>(
        &self,
        rt: &R,
        lane: usize,
        frames: Vec<Frame>,
    ) -> Result<Dealt, ProcessFault> {
        let mut dealt = Dealt { own: 0, others: 0 };
        let mut works = Vec::new(self.alloc);
        for frame in frames {
            let _lost = deal(&mut works, self.shards, event_of(frame)?).is_err();
            while let Some(work) = works.pop() {
                let place = usize::from(lane_of(&work, self.lanes));
                let coming = self.put(rt, place, work);
                if place == lane {
                    dealt.own = dealt.own.saturating_add(1);
                } else {
                    dealt.others = dealt.others.max(coming);
                }
            }
        }
        Ok(dealt)
    }

    /// Puts a work into a lane's mailbox, and the lane into the line of the work's shard. Returns the
    /// number of works that the lane will take, or 0 if it has not started. The work is lost if memory
    /// runs out.
    fn put<R: Wait>(&self, rt: &R, lane: usize, work: Work) -> usize {
        let Some(line) = self.lines.get(usize::from(work.shard)) else {
            return 0;
        };
        let Some(mailbox) = self.mailboxes.get(lane) else {
            return 0;
        };
        let mut line = line.lock(rt);
        if line.push_back(lane).is_err() {
            return 0;
        }
        match mailbox.put(rt, work, line.len() == 1) {
            Some(coming) => coming,
            None => {
                let _lost = line.pop_back();
                0
            }
        }
    }
}

/// Returns the turn after a read and its distribution.
fn turn_after<'a>(
    dealt: Result<Option<Dealt>, ProcessFault>,
    incoming: Incoming<&'a UnixStream>,
) -> Turn<'a> {
    match dealt {
        Ok(Some(_)) => Turn::Free(incoming),
        Ok(None) => Turn::Over(Ok(())),
        Err(fault) => Turn::Over(Err(fault)),
    }
}

/// Returns the lane that takes a work: that of the event's tab.
fn lane_of(work: &Work, lanes: u16) -> u16
    requires { 0 < lanes }
    ensures { result ≡ tab_of work.now.event % lanes }
{
    match &work.event {
        BookEvent::Take(stamped) => stamped.tab % lanes,
        BookEvent::Dead(tab) => *tab % lanes,
    }
}

/// Pauses before another look, twice as long as before the last one.
fn pause(look: u32)
    requires { look < LOOKS }
{
    for _ in 0..1u32 << look {
        spin_loop();
    }
}

/// Returns a frame's event. Fails with `Unexpected` if the frame is no event.
fn event_of(frame: Frame) -> Result<BookEvent, ProcessFault> {
    match frame {
        Frame::Stamped(stamped) => Ok(BookEvent::Take(stamped)),
        Frame::Dead(dead) => Ok(BookEvent::Dead(dead.tab)),
        _ => Err(ProcessFault::Unexpected),
    }
}
