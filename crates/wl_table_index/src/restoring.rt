//! Restoring of the entries of a client's report.

ghost use Rattle.std.specs.Prelude.{◌≡◌, ◌+◌, ◌<◌, ◌≤◌, ◌^◌, ◌==◌, ◌||◌, ◌++◌, true, false, OnOk, OnErr, length};
ghost use Rattle.wl_table_index.specs.OrderNumbers.{values_in};
ghost use Rattle.wl_draft.specs.Locks.{is_named};
ghost use Rattle.wl_table_index.specs.Index.{IsIndexed, HasRoom, IsLean, IsLeanBut, are_of};
ghost use Rattle.wl_table_index.specs.Nexts.{AreCandidates};

use crate::grant_candidates::Candidates;
use crate::index::Index;
use std::alloc::AllocError;
use wl_draft::Row;

impl Index {
    /// Reserves capacity for these locks and requests of a client. Fails if out of memory, and then
    /// keeps the index lean.
    pub fn make_room(
        &mut self,
        client: u16,
        held: &[Row],
        waiting: &[Row],
    ) -> Result<(), AllocError>
        requires indexed { IsIndexed self.old }
        requires small { length held.now + length waiting.now < 2 ^ 63 }
        ensures indexed { IsIndexed self.new }
        ensures held { self.new.held.items ≡ self.old.held.items }
        ensures waiting { self.new.waiting.items ≡ self.old.waiting.items }
        ensures next { self.new.next ≡ self.old.next }
        ensures room { OnOk result (HasRoom self.new client held.now waiting.now) }
        ensures lean { OnOk result (IsLean self.old → IsLeanBut self.new
            (λ n. is_named n held.now || is_named n waiting.now) (λ c. client == c)) }
        ensures refused { OnErr result (IsLean self.old → IsLean self.new) }
    {
        let made = self.reserve(client, held, waiting);
        if made.is_err() {
            self.forget_rows(client, held, waiting);
        }
        made
    }

    // Does the same as `make_room`, but a failure may leave names or the client without an entry.
    fn reserve(&mut self, client: u16, held: &[Row], waiting: &[Row]) -> Result<(), AllocError>
        requires indexed { IsIndexed self.old }
        requires small { length held.now + length waiting.now < 2 ^ 63 }
        ensures indexed { IsIndexed self.new }
        ensures held { self.new.held.items ≡ self.old.held.items }
        ensures waiting { self.new.waiting.items ≡ self.old.waiting.items }
        ensures next { self.new.next ≡ self.old.next }
        ensures room { OnOk result (HasRoom self.new client held.now waiting.now) }
        ensures lean { IsLean self.old → IsLeanBut self.new
            (λ n. is_named n held.now || is_named n waiting.now) (λ c. client == c) }
    {
        let more = held.len() + waiting.len();
        let Some(most) = self.waiting.len().checked_add(more) else {
            return Err(AllocError);
        };
        self.waiting.reserve(waiting.len())?;
        self.held.reserve(most)?;
        self.clients.reserve(client, more, more)?;
        self.lines.open_all(held)?;
        self.lines.reserve_all(waiting)
    }

    /// Appends locks of a client to the held locks, and requests to the waiting ones. Capacity must
    /// be reserved.
    pub fn put_all(
        &mut self,
        client: u16,
        held: Vec<Row>,
        waiting: Vec<Row>,
        candidates: &mut Candidates,
    )
        requires indexed { IsIndexed self.old }
        requires room { HasRoom self.old client held.items waiting.items }
        requires held_mine { are_of client held.items ≡ true }
        requires waiting_mine { are_of client waiting.items ≡ true }
        requires small { self.old.next + length held.items + length waiting.items < 2 ^ 64 }
        requires candidates_room { length waiting.items ≤ candidates.old.room }
        requires candidates { AreCandidates candidates.old.items self.old.held.items self.old.waiting.items }
        ensures indexed { IsIndexed self.new }
        ensures held { values_in self.new.held.items ≡ values_in self.old.held.items ++ held.items }
        ensures waiting { values_in self.new.waiting.items
            ≡ values_in self.old.waiting.items ++ waiting.items }
        ensures next { self.new.next ≡ self.old.next + length held.items + length waiting.items }
        ensures candidates { AreCandidates candidates.new.items self.new.held.items self.new.waiting.items }
        ensures lean { IsLeanBut self.old
            (λ n. is_named n held.items || is_named n waiting.items) (λ c. client == c)
            → IsLeanBut self.new (λ n. false) (λ c. client == c) }
    {
        for row in held {
            let place = self.lines.place(&row.name);
            self.hold(place, row);
        }
        for row in waiting {
            let place = self.lines.place(&row.name);
            let order = self.queue(place, row);
            candidates.push(order);
        }
        self.clients.shrink(client);
    }
}
