//! Waiting requests of one name, in order.

ghost use Rattle.std.specs.Prelude.{◌≡◌, ◌≤◌, ◌<◌, ◌+◌, ◌∷◌, ◌++◌, [], true, false, OnOk, IfSome, length, ◌==◌, slice_get};
ghost use Rattle.std.specs.VecDeque.{deque_len, deque_capacity};
ghost use Rattle.wl_table_index.specs.OrderNumbers.{do_rise, without_number};
ghost use Rattle.wl_table_index.specs.RequestQueue.{numbers_in, is_front_gone, WaitsAt};

use std::alloc::{AllocError, Global};
use std::collections::VecDeque;
use std::marker::Model;

/// The order number of a request, and whether the request was removed.
#[derive(Clone, Copy)]
pub struct Waiter {
    pub order: u128,
    pub is_marked: bool,
}

/// The order numbers of the waiting requests, rising. A request that is removed from the middle is
/// only marked, so that no other has to be moved. It is dropped together with those before it, or
/// when more waiters are marked than waiting.
#[derive(Drop)]
pub struct RequestQueue {
    waiters: VecDeque<Waiter>,
    /// Number of marked waiters.
    gone: usize,
}

impl Model for RequestQueue {
    ghost use Rattle.std.specs.Prelude.{◌≡◌, ◌-◌, false};
    ghost use Rattle.std.specs.VecDeque.{deque_len, deque_capacity};
    ghost use Rattle.wl_table_index.specs.OrderNumbers.{Numbers};
    ghost use Rattle.wl_table_index.specs.RequestQueue.{numbers_in, is_front_gone};

    ghost Value = { Numbers };

    ghost view = { λ q. record { items = numbers_in q.waiters.items; room = deque_capacity q.waiters - deque_len q.waiters } };

    ghost invariant = { λ q. is_front_gone q.waiters.items ≡ false };
}

impl RequestQueue {
    /// Returns an empty queue.
    pub fn new(alloc: Global) -> RequestQueue
        ensures { result.items ≡ [] }
    {
        RequestQueue {
            waiters: VecDeque::new(alloc),
            gone: 0,
        }
    }

    /// Returns the order number of the first waiting request.
    pub fn front(&self) -> Option<u128>
        ensures { result ≡ slice_get self.now.items 0 }
    {
        match self.waiters.front() {
            Some(waiter) => Some(waiter.order),
            None => None,
        }
    }

    /// Returns whether no request is waiting.
    pub fn is_empty(&self) -> bool
        ensures { result ≡ (length self.now.items == 0) }
    {
        self.waiters.is_empty()
    }

    /// Reserves capacity for `count` more requests. Fails if out of memory.
    pub fn reserve(&mut self, count: usize) -> Result<(), AllocError>
        ensures items { self.new.items ≡ self.old.items }
        ensures room { OnOk result (count ≤ self.new.room) }
        ensures kept { self.old.room ≤ self.new.room }
    {
        self.waiters.reserve(count)
    }

    /// Appends a request. Capacity must be reserved.
    pub fn push(&mut self, order: u128)
        requires { 0 < self.old.room }
        ensures items { self.new.items ≡ self.old.items ++ order ∷ [] }
        ensures room { self.old.room ≡ self.new.room + 1 }
    {
        self.waiters.push_back_reserved(Waiter {
            order,
            is_marked: false,
        });
    }

    /// Removes a request at any position.
    pub fn take_out(&mut self, order: u128)
        requires { do_rise self.old.items ≡ true }
        ensures items { self.new.items ≡ without_number order self.old.items }
        ensures room { self.old.room ≤ self.new.room }
    {
        if mark(&mut self.waiters, order) {
            self.gone = self.gone.saturating_add(1);
        }
        let left = drop_marked_front(&mut self.waiters);
        self.gone = self.gone.saturating_sub(left);
        if self.gone > self.waiters.len() / 2 {
            clear(&mut self.waiters);
            self.gone = 0;
        }
    }
}

/// Marks a request as removed, and returns whether it was found. If not, it drops each waiter with
/// this number.
fn mark(waiters: &mut VecDeque<Waiter>, order: u128) -> bool
    requires { do_rise (numbers_in waiters.old.items) ≡ true }
    ensures numbers { numbers_in waiters.new.items ≡ without_number order (numbers_in waiters.old.items) }
    ensures len { deque_len waiters.new ≤ deque_len waiters.old }
    ensures capacity { deque_capacity waiters.new ≡ deque_capacity waiters.old }
{
    match place_of(waiters, order) {
        Some(index) => {
            waiters.get_mut(index).unwrap().is_marked = true;
            true
        }
        None => {
            waiters.retain(|waiter| waiter.order != order);
            false
        }
    }
}

/// Returns the index of a request. The numbers rise, so a binary search finds it.
fn place_of(waiters: &VecDeque<Waiter>, order: u128) -> Option<usize>
    ensures { IfSome result (WaitsAt order waiters.now.items) }
{
    let (Ok(index) | Err(index)) = waiters.binary_search_by_key(&order, |waiter| waiter.order);
    match waiters.get(index) {
        Some(waiter) if waiter.order == order && !waiter.is_marked => Some(index),
        _ => None,
    }
}

/// Drops the marked waiters before the first waiting one, and returns their number.
fn drop_marked_front(waiters: &mut VecDeque<Waiter>) -> usize
    ensures numbers { numbers_in waiters.new.items ≡ numbers_in waiters.old.items }
    ensures front { is_front_gone waiters.new.items ≡ false }
    ensures len { deque_len waiters.new ≤ deque_len waiters.old }
    ensures capacity { deque_capacity waiters.new ≡ deque_capacity waiters.old }
{
    let before = waiters.len();
    while is_front_gone(waiters) {
        let _ = waiters.pop_front();
    }
    before.saturating_sub(waiters.len())
}

fn is_front_gone(waiters: &VecDeque<Waiter>) -> bool
    ensures { result ≡ is_front_gone waiters.now.items }
{
    match waiters.front() {
        Some(waiter) => waiter.is_marked,
        None => false,
    }
}

/// Drops all marked waiters.
fn clear(waiters: &mut VecDeque<Waiter>)
    ensures numbers { numbers_in waiters.new.items ≡ numbers_in waiters.old.items }
    ensures front { is_front_gone waiters.new.items ≡ false }
    ensures len { deque_len waiters.new ≤ deque_len waiters.old }
    ensures capacity { deque_capacity waiters.new ≡ deque_capacity waiters.old }
{
    waiters.retain(|waiter| !waiter.is_marked);
}
