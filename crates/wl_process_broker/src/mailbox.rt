//! The mailbox of a lane: a queue of works, filled by the lane that reads the link.

use std::alloc::Global;
use std::collections::VecDeque;
use std::sync::{Condvar, Mutex, Wait};
use wl_locked::{SHARD_LIMIT, Work};

#[derive(Drop)]
struct MailboxQueue {
    works: VecDeque<Work>,
    /// Whether the lane is first in the line of each shard.
    is_first: [bool; SHARD_LIMIT as usize],
    /// Whether the lane has started to take works.
    is_served: bool,
    /// Whether the lane is asked to read the link.
    is_offered: bool,
    is_closed: bool,
    /// Whether the works that are left are taken no more.
    is_cut: bool,
}

impl MailboxQueue {
    /// Appends a work. Fails if out of memory.
    fn put(&mut self, work: Work) -> Option<usize> {
        if self.works.push_back(work).is_err() {
            return None;
        }
        if self.is_served {
            Some(self.works.len())
        } else {
            Some(0)
        }
    }

    fn set_first(&mut self, shard: u16, is_first: bool) {
        if let Some(first) = self.is_first.get_mut(usize::from(shard)) {
            *first = is_first;
        }
    }

    /// Returns true if the lane may take the oldest work.
    fn is_ready(&self) -> bool {
        match self.works.front() {
            Some(work) if !self.is_cut => self.is_first.get(usize::from(work.shard)) == Some(&true),
            _ => false,
        }
    }

    /// Returns true if the lane has to sleep.
    fn is_waiting(&self) -> bool {
        if self.is_cut || self.is_ready() {
            return false;
        }
        !self.works.is_empty() || !(self.is_offered || self.is_closed)
    }
}

#[derive(Drop)]
pub(crate) struct Mailbox {
    queue: Mutex<MailboxQueue>,
    changed: Condvar,
}

/// A look into the mailbox.
#[derive(Drop)]
pub(crate) enum Look {
    /// The oldest work.
    Work(Work),
    /// The lane is not first in line for the oldest work.
    Waits,
    Empty,
}

/// The reason why a lane was woken.
#[derive(Drop)]
pub(crate) enum Woken {
    /// The oldest work.
    Work(Work),
    /// The lane must read the link.
    Turn,
    /// No more works will come.
    Closed,
}

impl Mailbox {
    pub(crate) fn new(alloc: Global) -> Mailbox {
        Mailbox {
            queue: Mutex::new(MailboxQueue {
                works: VecDeque::new(alloc),
                is_first: [false; SHARD_LIMIT as usize],
                is_served: false,
                is_offered: false,
                is_closed: false,
                is_cut: false,
            }),
            changed: Condvar::new(),
        }
    }

    /// Appends a work, for which the lane may be first in line. Wakes the lane if it may take a work. Returns the number of works
    /// that the lane will take, or 0 if it has not started. Returns `None` if out of memory, and the work is lost.
    pub(crate) fn put<R: Wait>(&self, rt: &R, work: Work, is_first: bool) -> Option<usize> {
        let shard = work.shard;
        let mut queue = self.queue.lock(rt);
        let coming = queue.put(work)?;
        if is_first {
            queue.set_first(shard, true);
        }
        let is_ready = queue.is_ready();
        drop(queue);
        if is_ready {
            self.changed.notify_one();
        }
        Some(coming)
    }

    /// Notes whether the lane is first in the line of a shard. Wakes the lane if it may take a work.
    pub(crate) fn set_first<R: Wait>(&self, rt: &R, shard: u16, is_first: bool) {
        let mut queue = self.queue.lock(rt);
        queue.set_first(shard, is_first);
        let is_ready = queue.is_ready();
        drop(queue);
        if is_ready {
            self.changed.notify_one();
        }
    }

    /// Asks the lane to read the link. Returns false if the lane is busy or has not started.
    pub(crate) fn offer_turn<R: Wait>(&self, rt: &R) -> bool {
        let mut queue = self.queue.lock(rt);
        let is_coming = queue.is_served && queue.works.is_empty();
        queue.is_offered = is_coming;
        drop(queue);
        if is_coming {
            self.changed.notify_one();
        }
        is_coming
    }

    /// Closes the mailbox: no more works will come.
    pub(crate) fn close<R: Wait>(&self, rt: &R) {
        self.queue.lock(rt).is_closed = true;
        self.changed.notify_all();
    }

    /// Closes the mailbox, and keeps the works that are left from the lane.
    pub(crate) fn cut<R: Wait>(&self, rt: &R) {
        self.queue.lock(rt).is_cut = true;
        self.changed.notify_all();
    }

    /// Removes and returns the oldest work, if the lane is first in line for it. Marks the lane as started.
    pub(crate) fn look<R: Wait>(&self, rt: &R) -> Look {
        let mut queue = self.queue.lock(rt);
        queue.is_served = true;
        if !queue.is_ready() {
            return if queue.works.is_empty() {
                Look::Empty
            } else {
                Look::Waits
            };
        }
        match queue.works.pop_front() {
            Some(work) => Look::Work(work),
            None => Look::Empty,
        }
    }

    /// Returns true if there is a work.
    pub(crate) fn has_work<R: Wait>(&self, rt: &R) -> bool {
        !self.queue.lock(rt).works.is_empty()
    }

    /// Waits until the lane is first in line for the oldest work, or an offer to read or the close of an empty mailbox, or for a cut.
    pub(crate) fn take<R: Wait>(&self, rt: &R) -> Woken {
        let mut queue = self
            .changed
            .wait_while(rt, self.queue.lock(rt), |queue| queue.is_waiting());
        if queue.is_ready() {
            if let Some(work) = queue.works.pop_front() {
                return Woken::Work(work);
            }
        }
        if queue.is_offered && !queue.is_cut {
            queue.is_offered = false;
            return Woken::Turn;
        }
        Woken::Closed
    }
}
