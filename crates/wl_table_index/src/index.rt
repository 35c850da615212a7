//! Index of the two lists of a lock table, by name and by client.

ghost use Rattle.std.specs.Prelude.{false, ◌≡◌, ◌+◌, ◌-◌, ◌<◌, ◌≤◌, ◌^◌, [], ◌∷◌, ◌++◌, ℕ, List, ◌==◌, bytes_eq, OnOk, OnErr, IfOk, IfSome, IfNone};
ghost use Rattle.wl_draft.specs.Tables.{find};
ghost use Rattle.wl_draft.specs.Locks.{row_of};
ghost use Rattle.wl_table_index.specs.Clients.{has_number_at};
ghost use Rattle.wl_table_index.specs.OrderNumbers.{without_order, order_at};
ghost use Rattle.wl_table_index.specs.Index.{IsIndexed, IsHoldable, IsReady, TakesRoom, IsLean, IsLeanBut, Fills, Empties};

use crate::clients::Clients;
use crate::holdings::Place;
use crate::name_lines::Lines;
use crate::rows::Rows;
use std::alloc::{AllocError, Global};
use wl_draft::{Mode, Name, Row};

/// Held locks and waiting requests with rising order numbers, which can be found by name and by
/// client.
#[derive(Drop)]
pub struct Index {
    /// Turn in which the next entry is appended.
    pub next: u64,
    pub held: Rows,
    pub waiting: Rows,
    pub lines: Lines,
    pub clients: Clients,
}

impl Index {
    /// Returns an index without entries.
    pub fn new(alloc: Global) -> Index
        ensures indexed { IsIndexed result }
        ensures held { result.held.items ≡ [] }
        ensures waiting { result.waiting.items ≡ [] }
        ensures lean { IsLean result }
    {
        Index {
            next: 0,
            held: Rows::new(alloc),
            waiting: Rows::new(alloc),
            lines: Lines::new(alloc),
            clients: Clients::new(alloc),
        }
    }

    /// Appends a held lock. Capacity must be reserved. `place` is the probable place of the name's line.
    pub fn hold(&mut self, place: usize, row: Row)
        requires indexed { IsIndexed self.old }
        requires holdable { IsHoldable self.old row.client row.number row.name }
        requires small { self.old.next + 1 < 2 ^ 64 }
        ensures indexed { IsIndexed self.new }
        ensures held { self.new.held.items
            ≡ self.old.held.items ++ (order_at self.old.next self.old.held.slot, row) ∷ [] }
        ensures waiting { self.new.waiting.items ≡ self.old.waiting.items }
        ensures next { self.new.next ≡ self.old.next + 1 }
        ensures room { TakesRoom self.old self.new 1 0 row.name }
        ensures fills { Fills self.old self.new row }
    {
        let turn = self.next;
        let order = self.held.next_order(turn);
        let _count = self.held.len();
        self.next = turn + 1;
        self.lines.hold(place, &row.name, row.mode);
        self.clients.add(
            row.client,
            row.number,
            Place {
                order,
                is_held: true,
            },
        );
        self.held.append(turn, place, row);
    }

    /// Appends a waiting request, and returns its order number. Capacity must be reserved. `place` is
    /// the probable place of the name's line.
    pub fn queue(&mut self, place: usize, row: Row) -> u128
        requires indexed { IsIndexed self.old }
        requires ready { IsReady self.old row.client row.number row.name }
        requires small { self.old.next + 1 < 2 ^ 64 }
        ensures indexed { IsIndexed self.new }
        ensures held { self.new.held.items ≡ self.old.held.items }
        ensures waiting { self.new.waiting.items ≡ self.old.waiting.items ++ (result, row) ∷ [] }
        ensures next { self.new.next ≡ self.old.next + 1 }
        ensures room { TakesRoom self.old self.new 0 1 row.name }
        ensures fills { Fills self.old self.new row }
    {
        let turn = self.next;
        let order = self.waiting.next_order(turn);
        let _count = self.held.len();
        self.next = turn + 1;
        self.lines.push(place, &row.name, order);
        self.clients.add(
            row.client,
            row.number,
            Place {
                order,
                is_held: false,
            },
        );
        self.waiting.append(turn, place, row);
        order
    }

    /// Removes and returns a held lock.
    pub fn take_held(&mut self, order: u128) -> Option<Row>
        requires { IsIndexed self.old }
        ensures indexed { IsIndexed self.new }
        ensures value { result ≡ find self.old.held.items order }
        ensures held { self.new.held.items ≡ without_order order self.old.held.items }
        ensures waiting { self.new.waiting.items ≡ self.old.waiting.items }
        ensures next { self.new.next ≡ self.old.next }
        ensures empties { IfSome result (λ r. Empties self.old self.new r) }
    {
        let place = self.held.line_of(order);
        match self.held.remove(order) {
            Some(row) => {
                self.lines.remove_holder(place, &row.name, row.mode);
                self.clients.drop_entry(
                    row.client,
                    row.number,
                    Place {
                        order,
                        is_held: true,
                    },
                );
                Some(row)
            }
            None => None,
        }
    }

    /// Removes and returns a waiting request.
    pub fn take_waiting(&mut self, order: u128) -> Option<Row>
        requires { IsIndexed self.old }
        ensures indexed { IsIndexed self.new }
        ensures value { result ≡ find self.old.waiting.items order }
        ensures held { self.new.held.items ≡ self.old.held.items }
        ensures waiting { self.new.waiting.items ≡ without_order order self.old.waiting.items }
        ensures next { self.new.next ≡ self.old.next }
        ensures empties { IfSome result (λ r. Empties self.old self.new r) }
    {
        let place = self.waiting.line_of(order);
        match self.waiting.remove(order) {
            Some(row) => {
                self.lines.take_out(place, &row.name, order);
                self.clients.drop_entry(
                    row.client,
                    row.number,
                    Place {
                        order,
                        is_held: false,
                    },
                );
                Some(row)
            }
            None => None,
        }
    }

    /// Reserves capacity for one more entry of the client with this name, held or waiting. Returns
    /// its row. Fails if out of memory, and then keeps the index lean.
    pub fn ready(
        &mut self,
        place: usize,
        client: u16,
        number: u32,
        name: &Name,
        mode: Mode,
    ) -> Result<Row, AllocError>
        requires indexed { IsIndexed self.old }
        requires fresh { has_number_at self.old.clients client number ≡ false }
        ensures indexed { IsIndexed self.new }
        ensures held { self.new.held.items ≡ self.old.held.items }
        ensures waiting { self.new.waiting.items ≡ self.old.waiting.items }
        ensures next { self.new.next ≡ self.old.next }
        ensures row { IfOk result (λ r. r ≡ row_of client number name.now mode) }
        ensures ready { OnOk result (IsReady self.new client number name.now) }
        ensures small { OnOk result (self.new.next + 1 < 2 ^ 64) }
        ensures lean { OnOk result (IsLean self.old
            → IsLeanBut self.new (λ n. bytes_eq name.now n) (λ c. client == c)) }
        ensures refused { OnErr result (IsLean self.old → IsLean self.new) }
    {
        let row = self.make_ready(place, client, number, name, mode);
        if row.is_err() {
            self.forget(client, place, name);
        }
        row
    }

    // Does the same as `ready`, but a failure may leave a name or a client without an entry.
    fn make_ready(
        &mut self,
        place: usize,
        client: u16,
        number: u32,
        name: &Name,
        mode: Mode,
    ) -> Result<Row, AllocError>
        requires indexed { IsIndexed self.old }
        requires fresh { has_number_at self.old.clients client number ≡ false }
        ensures indexed { IsIndexed self.new }
        ensures held { self.new.held.items ≡ self.old.held.items }
        ensures waiting { self.new.waiting.items ≡ self.old.waiting.items }
        ensures next { self.new.next ≡ self.old.next }
        ensures row { IfOk result (λ r. r ≡ row_of client number name.now mode) }
        ensures ready { OnOk result (IsReady self.new client number name.now) }
        ensures small { OnOk result (self.new.next + 1 < 2 ^ 64) }
        ensures lean { IsLean self.old → IsLeanBut self.new (λ n. bytes_eq name.now n) (λ c. client == c) }
    {
        if self.next == u64::MAX {
            return Err(AllocError);
        }
        self.waiting.reserve(1)?;
        self.held.reserve(self.waiting.len() + 1)?;
        self.clients.reserve(client, 1, 0)?;
        self.lines.reserve(place, name, 1)?;
        new_row(client, number, name, mode)
    }

    /// Reserves capacity for one more lock of the client with this name, which does not have to
    /// wait. Returns its row. Fails if out of memory, and then keeps the index lean.
    pub fn ready_lock(
        &mut self,
        place: usize,
        client: u16,
        number: u32,
        name: &Name,
        mode: Mode,
    ) -> Result<Row, AllocError>
        requires indexed { IsIndexed self.old }
        requires fresh { has_number_at self.old.clients client number ≡ false }
        ensures indexed { IsIndexed self.new }
        ensures held { self.new.held.items ≡ self.old.held.items }
        ensures waiting { self.new.waiting.items ≡ self.old.waiting.items }
        ensures next { self.new.next ≡ self.old.next }
        ensures row { IfOk result (λ r. r ≡ row_of client number name.now mode) }
        ensures holdable { OnOk result (IsHoldable self.new client number name.now) }
        ensures small { OnOk result (self.new.next + 1 < 2 ^ 64) }
        ensures lean { OnOk result (IsLean self.old
            → IsLeanBut self.new (λ n. bytes_eq name.now n) (λ c. client == c)) }
        ensures refused { OnErr result (IsLean self.old → IsLean self.new) }
    {
        let row = self.make_ready_lock(place, client, number, name, mode);
        if row.is_err() {
            self.forget(client, place, name);
        }
        row
    }

    // Does the same as `ready_lock`, but a failure may leave a name or a client without an entry.
    fn make_ready_lock(
        &mut self,
        place: usize,
        client: u16,
        number: u32,
        name: &Name,
        mode: Mode,
    ) -> Result<Row, AllocError>
        requires indexed { IsIndexed self.old }
        requires fresh { has_number_at self.old.clients client number ≡ false }
        ensures indexed { IsIndexed self.new }
        ensures held { self.new.held.items ≡ self.old.held.items }
        ensures waiting { self.new.waiting.items ≡ self.old.waiting.items }
        ensures next { self.new.next ≡ self.old.next }
        ensures row { IfOk result (λ r. r ≡ row_of client number name.now mode) }
        ensures holdable { OnOk result (IsHoldable self.new client number name.now) }
        ensures small { OnOk result (self.new.next + 1 < 2 ^ 64) }
        ensures lean { IsLean self.old → IsLeanBut self.new (λ n. bytes_eq name.now n) (λ c. client == c) }
    {
        let Some(most) = self.waiting.len().checked_add(1) else {
            return Err(AllocError);
        };
        if self.next == u64::MAX {
            return Err(AllocError);
        }
        self.held.reserve(most)?;
        self.clients.reserve(client, 1, 0)?;
        self.lines.open(place, name)?;
        new_row(client, number, name, mode)
    }
}

fn new_row(client: u16, number: u32, name: &Name, mode: Mode) -> Result<Row, AllocError>
    ensures { IfOk result (λ r. r ≡ row_of client number name.now mode) }
{
    Ok(Row {
        client,
        number,
        name: name.clone()?,
        mode,
    })
}
