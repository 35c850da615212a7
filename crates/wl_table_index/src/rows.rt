//! Rows in the slots of a slab. Finding, removing and appending a row take constant time.

ghost use Rattle.std.specs.Prelude.{◌≡◌, ◌+◌, ◌≤◌, ◌<◌, ◌^◌, [], ◌∷◌, ◌++◌, true, length, OnOk, IfOk, option_copied};
ghost use Rattle.wl_draft.specs.Tables.{find};
ghost use Rattle.wl_table_index.specs.OrderNumbers.{is_below, is_rising, without_order, orders_in, values_in, order_at, slot_of};

use slab::Slab;
use std::alloc::{AllocError, Global};
use std::marker::Model;
use wl_draft::Row;

/// A row with its order number.
#[derive(Drop)]
pub struct StoredRow {
    pub order: u128,
    /// Probable place of its name's line. If it is wrong, the line is found by the name.
    pub line: usize,
    pub row: Row,
}

/// The rows of a list, sorted by order number. The low half of an order number is the slot of its
/// row, and the high half is the turn in which the row was appended.
#[derive(Drop)]
pub struct Rows {
    rows: Slab<StoredRow>,
}

impl Model for Rows {
    ghost use Rattle.wl_table_index.specs.OrderNumbers.{Ordered};

    ghost Value = { Ordered };

    ghost use Rattle.std.specs.Prelude.{◌-◌};
    ghost use Rattle.slab.specs.Slab.{slab_len, entries};
    ghost use Rattle.wl_table_index.specs.OrderNumbers.{ordered};
    ghost use Rattle.wl_table_index.specs.Slots.{rows_in, AreInSlots};

    ghost view = { λ r. record { items = ordered (rows_in (entries r.rows)); slot = r.rows.vacant_key; room = r.rows.capacity - slab_len r.rows } };

    ghost invariant = { λ r. AreInSlots r.rows };
}

/// Number of order numbers of a turn, one for each slot.
const SLOTS: u128 = 1 << 64;

impl Rows {
    /// Returns an empty list.
    pub fn new(alloc: Global) -> Rows
        ensures { result.items ≡ [] }
    {
        Rows {
            rows: Slab::new(alloc),
        }
    }

    /// Returns the number of rows.
    pub fn len(&self) -> usize
        ensures len { result ≡ length self.now.items }
        ensures small { result + self.now.room < 2 ^ 64 }
    {
        let _capacity = self.rows.capacity();
        self.rows.len()
    }

    /// Reserves capacity for `count` more rows. Fails if out of memory.
    pub fn reserve(&mut self, count: usize) -> Result<(), AllocError>
        ensures items { self.new.items ≡ self.old.items }
        ensures room { OnOk result (count ≤ self.new.room) }
        ensures kept { self.old.room ≤ self.new.room }
    {
        self.rows.reserve(count)
    }

    /// Returns the order number of the next row, if it is appended in this turn.
    pub fn next_order(&self, turn: u64) -> u128
        ensures order { result ≡ order_at turn self.now.slot }
        ensures slot { self.now.slot < 2 ^ 64 }
    {
        u128::from(turn) * SLOTS + self.rows.vacant_key() as u128
    }

    /// Appends a row. Its order number must be above all others, and capacity must be reserved.
    pub fn append(&mut self, turn: u64, line: usize, row: Row)
        requires last { is_below self.old.items (order_at turn self.old.slot) ≡ true }
        requires room { 0 < self.old.room }
        ensures items { self.new.items ≡ self.old.items ++ (order_at turn self.old.slot, row) ∷ [] }
        ensures room { self.old.room ≤ self.new.room + 1 }
    {
        let order = self.next_order(turn);
        let _slot = self.rows.insert_reserved(StoredRow { order, line, row });
    }

    /// Returns the row with this order number.
    pub fn get(&self, order: u128) -> Option<&Row>
        ensures { option_copied result ≡ find self.now.items order }
    {
        match self.rows.get(slot_of(order)) {
            Some(stored) if stored.order == order => Some(&stored.row),
            _ => None,
        }
    }

    /// Returns the probable place of the line of the row with this order number. No clause speaks of it:
    /// `Lines` finds a line from any place.
    pub fn line_of(&self, order: u128) -> usize {
        match self.rows.get(slot_of(order)) {
            Some(stored) => stored.line,
            None => 0,
        }
    }

    /// Removes and returns the row with this order number.
    pub fn remove(&mut self, order: u128) -> Option<Row>
        ensures value { result ≡ find self.old.items order }
        ensures items { self.new.items ≡ without_order order self.old.items }
        ensures room { self.old.room ≤ self.new.room }
    {
        if self.get(order).is_none() {
            return None;
        }
        match self.rows.try_remove(slot_of(order)) {
            Some(stored) => Some(stored.row),
            None => None,
        }
    }

    // Returns the order numbers, rising.
    fn orders(&self, alloc: Global) -> Result<Vec<u128>, AllocError>
        ensures orders { IfOk result (λ orders. orders.items ≡ orders_in self.now.items) }
        ensures rising { OnOk result (is_rising self.now.items ≡ true) }
    {
        let mut orders = Vec::with_capacity(alloc, self.rows.len())?;
        for (_, stored) in self.rows.iter() {
            orders.push(stored.order)?;
        }
        orders.sort_unstable();
        Ok(orders)
    }

    /// Returns copies of the rows, in order. Fails if out of memory.
    pub fn copies(&self, alloc: Global) -> Result<Vec<Row>, AllocError>
        ensures { IfOk result (λ copies. copies.items ≡ values_in self.now.items) }
    {
        let orders = self.orders(alloc)?;
        let mut copies = Vec::with_capacity(alloc, orders.len())?;
        for order in &orders {
            if let Some(row) = self.get(*order) {
                copies.push(copy_of(row)?)?;
            }
        }
        Ok(copies)
    }
}

fn slot_of(order: u128) -> usize
    ensures { result ≡ slot_of order }
{
    (order % SLOTS) as usize
}

fn copy_of(row: &Row) -> Result<Row, AllocError>
    ensures { IfOk result (λ copy. copy ≡ row.now) }
{
    row.clone()
}
