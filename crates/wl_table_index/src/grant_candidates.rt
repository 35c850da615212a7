//! Candidates for granting.

ghost use Rattle.std.specs.Prelude.{◌≡◌, ◌+◌, ◌≤◌, ◌<◌, [], ℕ, true, ◌==◌, ◌||◌, length, Some, OnOk, OnSome, IfSome, IfNone};
ghost use Rattle.wl_table_index.specs.Nexts.{is_among};

use std::alloc::{AllocError, Global};
use std::cmp::Reverse;
use std::collections::BinaryHeap;
use std::marker::Model;

/// Order numbers of requests that may be grantable, least first. A number may occur more than once.
#[derive(Drop)]
pub struct Candidates {
    orders: BinaryHeap<Reverse<u128>>,
}

impl Model for Candidates {
    ghost use Rattle.wl_table_index.specs.OrderNumbers.{Numbers};

    ghost Value = { Numbers };

    ghost use Rattle.std.specs.Prelude.{map, ◌-◌};
    ghost use Rattle.std.specs.Ordering.{nat_cmp};
    ghost use Rattle.std.specs.BinaryHeap.{IsHeap, heap_items, heap_len, heap_capacity};

    ghost view = { λ c. record { items = map (λ o. o.0) (heap_items c.orders); room = heap_capacity c.orders - heap_len c.orders } };

    ghost invariant = { λ c. IsHeap (λ x y. nat_cmp y.0 x.0) (heap_items c.orders) };
}

impl Candidates {
    /// Returns an empty heap.
    pub fn new(alloc: Global) -> Candidates
        ensures { result.items ≡ [] }
    {
        Candidates {
            orders: BinaryHeap::new(alloc),
        }
    }

    /// Returns whether there is no candidate.
    pub fn is_empty(&self) -> bool
        ensures { result ≡ (length self.now.items == 0) }
    {
        self.orders.is_empty()
    }

    /// Reserves capacity for `count` more candidates. Fails if out of memory.
    pub fn reserve(&mut self, count: usize) -> Result<(), AllocError>
        ensures items { self.new.items ≡ self.old.items }
        ensures room { OnOk result (count ≤ self.new.room) }
    {
        self.orders.reserve(count)
    }

    /// Adds a candidate. Capacity must be reserved.
    pub fn push(&mut self, order: u128)
        requires { 0 < self.old.room }
        ensures items { (k : ℕ) → is_among k self.new.items ≡ (order == k || is_among k self.old.items) }
        ensures len { length self.new.items ≡ length self.old.items + 1 }
        ensures room { self.old.room ≤ self.new.room + 1 }
    {
        self.orders.push(Reverse(order)).unwrap();
    }

    /// Adds the front request of a name, if there is one. Capacity must be reserved.
    pub fn push_front(&mut self, front: Option<u128>)
        requires { 0 < self.old.room }
        ensures front { (k : ℕ) → front ≡ Some k → is_among k self.new.items ≡ true }
        ensures kept { (k : ℕ) → is_among k self.old.items ≡ true → is_among k self.new.items ≡ true }
        ensures len { length self.new.items ≤ length self.old.items + 1 }
        ensures room { self.old.room ≤ self.new.room + 1 }
    {
        match front {
            Some(order) => self.push(order),
            None => {}
        }
    }

    /// Removes and returns the least candidate.
    pub fn pop(&mut self) -> Option<u128>
        ensures items { IfSome result (λ o.
            (k : ℕ) → is_among k self.old.items ≡ (o == k || is_among k self.new.items)) }
        ensures least { IfSome result (λ o. (k : ℕ) → is_among k self.new.items ≡ true → o ≤ k) }
        ensures len { OnSome result (length self.new.items + 1 ≡ length self.old.items) }
        ensures room { OnSome result (self.old.room + 1 ≤ self.new.room) }
        ensures none { IfNone result (self.old.items ≡ []) }
        ensures unchanged { IfNone result (self.new.items ≡ self.old.items) }
    {
        let Reverse(order) = self.orders.pop()?;
        Some(order)
    }
}
