//! The book: a broker with the history of its steps.

ghost use Rattle.std.specs.Prelude.{◌≡◌, ◌≢◌, ◌+◌, ◌<◌, ◌≤◌, ◌↔◌, ◌∷◌, ◌++◌, [], ℕ, List, length, map, true, false, Ok, Err, IfOk, IsTrue, OnOk, OnErr, vec_len, vec_capacity};
ghost use Rattle.wl_locked.specs.Stepping.{stepped};
ghost use Rattle.wl_locked.specs.Replying.{AreReplies};
ghost use Rattle.wl_locked.specs.History.{replay, events, taken, IsReplay};
ghost use Rattle.wl_locked.specs.Receipts.{step_of, total, IsMadeOf, IsMismatch};
ghost use Rattle.wl_locked.specs.Closing.{IsClosed, IsCompared};
ghost use Rattle.wl_locked.specs.declared.receipt.Receipt.{Receipt};
ghost use Rattle.wl_locked.specs.declared.shards.TheConstants.{SHARD_LIMIT};

use crate::answering::{Replies, answer};
use crate::event::{BookEvent, Reply};
use crate::lane::{Generation, Lane, ShardReceipts, gather};
use crate::marking::compare;
use crate::receipt::{CloseFault, History, NotStepped, Receipt, Step};
use crate::reservation;
use crate::shared_event::{EventHandles, SharedEvent};
use std::alloc::{AllocError, Global};
use std::marker::Model;
use std::sync::ledger;
use std::sync::ledger::Share;
use wl_broker::{Broker, Dropped};
use wl_table::IndexedTable;

/// A broker with all its steps since it was opened, and the ledger that counts them. Its value in
/// contracts is the list of steps.
#[derive(Drop)]
pub struct Book<J: Generation> {
    broker: Broker<IndexedTable>,
    steps: Vec<Step>,
    /// One mark per step. `close` sets it when it finds the step's receipt.
    marks: Vec<bool>,
    limit: u32,
    calls: ledger::Book<J>,
    /// A share with no parts, into which `close` merges the lanes' shares.
    spare: Share<J>,
    alloc: Global,
}

impl<J: Generation> Model for Book<J> {
    ghost use Rattle.std.specs.Prelude.{◌≡◌, List};
    ghost use Rattle.wl_locked.specs.declared.receipt.Step.{Step};
    ghost use Rattle.wl_locked.specs.History.{IsKept};

    ghost Value = { List Step };

    ghost view = { λ b. b.steps.items };

    ghost invariant = { λ b. IsKept J.opening b.broker b.steps.items b.marks.items b.limit b.calls.total × (b.limit ≡ J.limit) × (b.spare.parts ≡ 0) × (b.spare.amount ≡ 0) };
}

/// Allocates the handles of an event for a step and its two receipts, and reserves space for one
/// more receipt. If the list is full, it grows by `reserve_step` receipts if memory allows, else by one.
pub(crate) fn handles_with_room(
    alloc: Global,
    receipts: &mut Vec<Receipt>,
    reserve_step: usize,
    event: BookEvent,
) -> Result<EventHandles, AllocError>
    ensures receipts { receipts.new.items ≡ receipts.old.items }
    ensures room { OnOk result (vec_len receipts.new < vec_capacity receipts.new) }
    ensures event { IfOk result (λ h. h ≡ event) }
{
    reservation::for_one(receipts, reserve_step)?;
    EventHandles::new(alloc, event)
}

impl<J: Generation> Book<J> {
    /// Creates a book without steps. `spare` is a share without parts.
    pub fn open(
        alloc: Global,
        broker: Broker<IndexedTable>,
        limit: u32,
        calls: ledger::Book<J>,
        spare: Share<J>,
    ) -> Book<J>
        requires opening { broker ≡ J.opening }
        requires limit { limit ≡ J.limit }
        requires calls { calls.total ≡ 0 }
        requires spare { (spare.parts ≡ 0) × (spare.amount ≡ 0) }
        ensures { result ≡ [] }
    {
        Book {
            broker,
            steps: Vec::new(alloc),
            marks: Vec::new(alloc),
            limit,
            calls,
            spare,
            alloc,
        }
    }

    /// Returns true if the book has reached its step limit.
    pub fn is_spent(&self) -> bool
        ensures { IsTrue result ↔ (length self.now ≡ J.limit) }
    {
        self.steps.len() >= self.limit as usize
    }

    /// Steps the broker, stores the step, and returns two equal receipts of it.
    ///
    /// The step is counted in the caller's share of the ledger. Fails with `GenerationSpent` at the
    /// step limit, and with `Memory` if out of memory. On failure nothing has changed.
    pub fn step(
        &mut self,
        share: &mut Share<J>,
        event: EventHandles,
    ) -> Result<(Receipt, Receipt), NotStepped>
        requires { 0 < share.old.parts }
        ensures equal { IfOk result (λ r. r.0 ≡ r.1) }
        ensures event { IfOk result (λ r. r.0.event ≡ event) }
        ensures place { IfOk result (λ r. r.0.place ≡ length self.old) }
        ensures reply { IfOk result (λ r.
            r.0.reply ≡ (stepped (replay J.opening (events self.old)) event).1) }
        ensures cause { IfOk result (λ r. r.0.reply ≢ Reply.Dropped Dropped.Memory) }
        ensures stored { IfOk result (λ r. self.new ≡ self.old ++ step_of r.0 ∷ []) }
        ensures counted { OnOk result (share.new.amount ≡ share.old.amount + 1) }
        ensures parts { share.new.parts ≡ share.old.parts }
        ensures behind { OnOk result (share.old.amount ≤ length self.old) }
        ensures limit { OnOk result (length self.old < J.limit) }
        ensures spent { (result ≡ Err NotStepped.GenerationSpent) ↔ (length self.old ≡ J.limit) }
        ensures err { OnErr result ((self.new ≡ self.old) × (share.new.amount ≡ share.old.amount)) }
    {
        let EventHandles {
            stored,
            first,
            second,
        } = event;
        let (place, mut replies) = self.store(share, stored)?;
        let one = Receipt {
            place,
            event: first,
            reply: replies.next(),
        };
        let other = Receipt {
            place,
            event: second,
            reply: replies.last(),
        };
        Ok((one, other))
    }

    /// Returns the reason for making no step when memory ran out: `GenerationSpent` if the book is
    /// spent, else `Memory`.
    pub(crate) fn without_memory(&self) -> NotStepped
        ensures { (result ≡ NotStepped.GenerationSpent) ↔ (length self.now ≡ J.limit) }
    {
        if self.is_spent() {
            NotStepped::GenerationSpent
        } else {
            NotStepped::Memory
        }
    }

    /// Steps the broker and stores the step. Returns the step's place and two copies of its reply.
    ///
    /// All memory is allocated before the broker is stepped, so a failure changes nothing.
    fn store(
        &mut self,
        share: &mut Share<J>,
        event: SharedEvent,
    ) -> Result<(u32, Replies), NotStepped>
        requires share { 0 < share.old.parts }
        ensures place { IfOk result (λ r. r.0 ≡ length self.old) }
        ensures replies { IfOk result (λ r.
            AreReplies 2 (stepped (replay J.opening (events self.old)) event).1 r.1) }
        ensures cause { OnOk result
            ((stepped (replay J.opening (events self.old)) event).1 ≢ Reply.Dropped Dropped.Memory) }
        ensures stored { OnOk result (self.new ≡ self.old ++ taken J.opening self.old event ∷ []) }
        ensures counted { OnOk result (share.new.amount ≡ share.old.amount + 1) }
        ensures parts { share.new.parts ≡ share.old.parts }
        ensures behind { OnOk result (share.old.amount ≤ length self.old) }
        ensures limit { OnOk result (length self.old < J.limit) }
        ensures spent { (result ≡ Err NotStepped.GenerationSpent) ↔ (length self.old ≡ J.limit) }
        ensures err { OnErr result ((self.new ≡ self.old) × (share.new.amount ≡ share.old.amount)) }
    {
        if let Err(fault) = reservation::for_step(
            self.is_spent(),
            self.limit,
            &mut self.steps,
            &mut self.marks,
        ) {
            drop(event);
            return Err(fault);
        }
        let mut replies = match answer(&mut self.broker, &event) {
            Ok(replies) => replies,
            Err(fault) => {
                drop(event);
                return Err(fault);
            }
        };
        let place = self.steps.len() as u32;
        self.calls.audit(share);
        self.calls.add(share, 1);
        let reply = replies.next();
        self.steps.push_reserved(Step { event, reply });
        self.marks.push_reserved(false);
        Ok((place, replies))
    }

    /// Compares the history with the lanes' receipts by marking the place of each receipt.
    /// Allocates nothing.
    ///
    /// Fails with `Mismatch` if a receipt does not fit the history, and with `WrongCount` if there
    /// are fewer receipts than steps.
    pub fn close(self, lanes: Vec<Lane<J>>) -> Result<History, CloseFault>
        ensures same { IfOk result (λ h. h ≡ self) }
        ensures replays { IfOk result (λ h. IsReplay J.opening h) }
        ensures within { IfOk result (λ h. length h ≤ J.limit) }
        ensures made { IfOk result (λ h. IsMadeOf h lanes.items) }
        ensures mismatch { (p : ℕ) → result ≡ Err (CloseFault.Mismatch p) → IsMismatch self lanes.items p }
        ensures counted { length lanes.items ≡ J.parts → length self ≡ total lanes.items }
        ensures count { result ≡ Err CloseFault.WrongCount → length lanes.items ≢ J.parts }
    {
        let (ending, spare) = self.compare(0, lanes.as_slice());
        ending.end(gather(spare, lanes))
    }

    /// Compares the history with the lanes' receipts of one shard. Returns the result and the spare
    /// share.
    pub(crate) fn compare<L: ShardReceipts>(
        self,
        shard: u16,
        lanes: &[L],
    ) -> (ComparedBook<J>, Share<J>)
        requires { shard < SHARD_LIMIT }
        ensures same { result.0.steps.items ≡ self }
        ensures compared { IsCompared J.opening J.limit
            (map (L.kept shard) lanes.now) self result.0.compared result.0.calls.total }
        ensures spare { (result.1.parts ≡ 0) × (result.1.amount ≡ 0) }
    {
        let Book {
            broker: _,
            steps,
            mut marks,
            limit: _,
            calls,
            spare,
            alloc: _,
        } = self;
        let compared = compare(steps.as_slice(), marks.as_mut_slice(), shard, lanes);
        (
            ComparedBook {
                steps,
                compared,
                calls,
            },
            spare,
        )
    }
}

/// A book that has been compared with its lanes' receipts.
#[derive(Drop)]
pub(crate) struct ComparedBook<J: Generation> {
    steps: Vec<Step>,
    /// Whether the receipts cover all steps, or the place of a receipt that does not fit.
    compared: Result<bool, u32>,
    calls: ledger::Book<J>,
}

impl<J: Generation> ComparedBook<J> {
    /// Returns the history, or why it differs from the lanes' receipts. `all` is the sum of the
    /// lanes' shares.
    pub(crate) fn end(self, all: Share<J>) -> Result<History, CloseFault>
        ensures same { IfOk result (λ h. h ≡ self.steps.items) }
        ensures whole { OnOk result (self.compared ≡ Ok true) }
        ensures mismatch { (p : ℕ) → result ≡ Err (CloseFault.Mismatch p) → self.compared ≡ Err p }
        ensures fewer { result ≡ Err CloseFault.WrongCount → self.compared ≡ Ok false }
        ensures counted { all.parts ≡ J.parts → all.amount ≡ self.calls.total }
        ensures closed { (lanes : List (List Receipt))
            → IsCompared J.opening J.limit lanes self.steps.items self.compared self.calls.total
            → all.parts ≡ length lanes → all.amount ≡ total lanes
            → IsClosed J.opening J.limit J.parts lanes result }
    {
        let ComparedBook {
            steps,
            compared,
            mut calls,
        } = self;
        let mut all = all;
        calls.audit(&mut all);
        match compared {
            Err(place) => Err(CloseFault::Mismatch(place)),
            Ok(false) => Err(CloseFault::WrongCount),
            Ok(true) => Ok(History::new(steps)),
        }
    }
}
