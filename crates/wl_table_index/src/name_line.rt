//! Line of one name: its queue, and the number of its holders.

ghost use Rattle.std.specs.Prelude.{◌≡◌, true, ◌+◌, ◌<◌, ◌≤◌, ◌^◌, OnOk, length, ◌==◌, slice_get};
ghost use Rattle.wl_draft.specs.declared.mode.Mode.TheVariants.{Shared, Exclusive};
ghost use Rattle.wl_table_index.specs.NameLines.{nobody, is_nobody, line_seen, lets_in, with_holder, with_waiter, without_holder, without_waiter, line_room};
ghost use Rattle.wl_table_index.specs.OrderNumbers.{do_rise};

use crate::request_queue::RequestQueue;
use std::alloc::{AllocError, Global};
use wl_draft::Mode;

/// The number of holders of a name in each mode, and the order numbers of its waiting requests,
/// rising.
#[derive(Drop)]
pub struct NameLine {
    pub shared: usize,
    pub exclusive: usize,
    pub queue: RequestQueue,
}

impl NameLine {
    /// Returns a line without holders and requests.
    pub fn new(alloc: Global) -> NameLine
        ensures { line_seen result ≡ nobody }
    {
        NameLine {
            shared: 0,
            exclusive: 0,
            queue: RequestQueue::new(alloc),
        }
    }

    /// Returns whether a lock in this mode conflicts with no held lock.
    pub fn is_free(&self, mode: Mode) -> bool
        ensures { result ≡ lets_in (line_seen self.now) mode }
    {
        match mode {
            Mode::Shared => self.exclusive == 0,
            Mode::Exclusive => self.exclusive == 0 && self.shared == 0,
        }
    }

    /// Returns the order number of the first waiting request.
    pub fn front(&self) -> Option<u128>
        ensures { result ≡ slice_get (line_seen self.now).queue 0 }
    {
        self.queue.front()
    }

    /// Reserves capacity for `count` more requests. Fails if out of memory.
    pub fn reserve(&mut self, count: usize) -> Result<(), AllocError>
        ensures seen { line_seen self.new ≡ line_seen self.old }
        ensures room { OnOk result (count ≤ line_room self.new) }
        ensures kept { line_room self.old ≤ line_room self.new }
    {
        self.queue.reserve(count)
    }

    /// Counts one more holder.
    pub fn hold(&mut self, mode: Mode)
        requires { self.old.shared + self.old.exclusive + 1 < 2 ^ 64 }
        ensures seen { line_seen self.new ≡ with_holder (line_seen self.old) mode }
        ensures room { line_room self.new ≡ line_room self.old }
    {
        match mode {
            Mode::Shared => self.shared += 1,
            Mode::Exclusive => self.exclusive += 1,
        }
    }

    /// Appends a request. Capacity must be reserved.
    pub fn push(&mut self, order: u128)
        requires { 0 < line_room self.old }
        ensures seen { line_seen self.new ≡ with_waiter (line_seen self.old) order }
        ensures room { line_room self.old ≡ line_room self.new + 1 }
    {
        self.queue.push(order);
    }

    /// Returns whether no request is waiting.
    pub fn is_queue_empty(&self) -> bool
        ensures { result ≡ (length (line_seen self.now).queue == 0) }
    {
        self.queue.is_empty()
    }

    /// Returns whether the name has no holder and no waiting request.
    pub fn is_idle(&self) -> bool
        ensures { result ≡ is_nobody (line_seen self.now) }
    {
        self.queue.is_empty() && self.shared == 0 && self.exclusive == 0
    }

    /// Counts one holder less.
    pub fn remove_holder(&mut self, mode: Mode)
        ensures seen { line_seen self.new ≡ without_holder (line_seen self.old) mode }
        ensures room { line_room self.new ≡ line_room self.old }
    {
        match mode {
            Mode::Shared => self.shared = self.shared.saturating_sub(1),
            Mode::Exclusive => self.exclusive = self.exclusive.saturating_sub(1),
        }
    }

    /// Removes a request at any position.
    pub fn take_out(&mut self, order: u128)
        requires { do_rise (line_seen self.old).queue ≡ true }
        ensures seen { line_seen self.new ≡ without_waiter (line_seen self.old) order }
        ensures room { line_room self.old ≤ line_room self.new }
    {
        self.queue.take_out(order);
    }
}
