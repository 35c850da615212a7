//! The queue of parcels that threads share.

ghost use Rattle.std.specs.Prelude.{◌≡◌, ◌≤◌, [], true, false, IfOk, OnOk, IfErr, OnErr, IfSome, IfNone, All, vec_len};
ghost use Rattle.crossbeam_queue.specs.Fifo.{Held};
ghost use Rattle.crossbeam_queue.specs.Passes.{view, IsPassOf, ruled_capacity};
ghost use Rattle.wl_outbox.specs.declared.outbox.TheConstants.{CAPACITY, PUTTER_LIMIT};
ghost use Rattle.wl_outbox.specs.OutboxRule.{opening};
ghost use Rattle.wl_outbox.specs.OutboxSteps.{with_parcel, taker_of, putter_of, IsMoment};
ghost use Rattle.wl_outbox.specs.Passes.{Shared, takes, IsOf, IsSamePass, IsFor};

use crate::fault::Full;
use crate::parcel::Parcel;
use crate::pass::{Pass, Place};
use crate::rule::{Address, Deal, Open, OutboxRule, Put, Role, Take, View};
use crossbeam_queue::RuledArrayQueue;
use std::alloc::Global;
use std::marker::{Brand, Model};
use std::sync::Wait;
use wl_grammar::Memory;

/// The number of parcels that an outbox can hold.
pub const CAPACITY: usize = 256;

/// The largest number of passes that put into one outbox.
pub const PUTTER_LIMIT: u16 = 16;

type Queue = RuledArrayQueue<Parcel, View, OutboxRule>;

/// A bounded queue of parcels for one tab. Calls on a shared outbox neither allocate nor lock.
#[derive(Drop)]
pub struct Outbox {
    queue: Queue,
    partition: u16,
    tab: u16,
}

impl Model for Outbox {
    ghost use Rattle.std.specs.Prelude.{◌≡◌};
    ghost use Rattle.crossbeam_queue.specs.Passes.{ruled_capacity};
    ghost use Rattle.wl_outbox.specs.declared.outbox.TheConstants.{CAPACITY};
    ghost use Rattle.wl_outbox.specs.Passes.{Shared};

    ghost Value = { Shared };

    ghost view = { λ o. record { queue = o.queue.table.shared.table_id; partition = o.partition; tab = o.tab } };

    ghost invariant = { λ o. ruled_capacity o.queue ≡ CAPACITY };
}

impl Outbox {
    /// Creates an empty outbox for a tab. Returns it with the pass that takes and the `putters`
    /// passes that put. Fails if out of memory.
    pub fn new(
        alloc: Global,
        partition: u16,
        tab: u16,
        putters: u16,
    ) -> Result<(Outbox, Pass, Vec<Pass>), Memory>
        requires { (1 ≤ putters) × (putters ≤ PUTTER_LIMIT) }
        ensures tab { IfOk result (λ r. (r.0.partition ≡ partition) × (r.0.tab ≡ tab)) }
        ensures taker { IfOk result (λ r. IsOf r.1 r.0 × (takes r.1 ≡ true) × (r.1.view.parcels ≡ [])) }
        ensures count { IfOk result (λ r. vec_len r.2 ≡ putters) }
        ensures putters { IfOk result (λ r.
            All (λ p. IsOf p r.0 × (takes p ≡ false) × (p.view.parcels ≡ [])) r.2.items) }
    {
        let mut list = Vec::with_capacity(alloc, usize::from(putters))?;
        let (queue, mut taker) = Queue::ruled(alloc, CAPACITY)?;
        let first = open::<Brand>(&queue, &mut taker, partition, tab);
        list.push_reserved(putting(first));
        for _more in 1..putters {
            let place = queue.another::<Deal>(&mut taker);
            list.push_reserved(putting(place));
        }
        let outbox = Outbox {
            queue,
            partition,
            tab,
        };
        let taker = Pass {
            place: taker,
            takes: true,
        };
        Ok((outbox, taker, list))
    }

    /// Returns the number of the tab's partition.
    pub fn partition(&self) -> u16
        ensures { result ≡ self.now.partition }
    {
        self.partition
    }

    /// Returns the tab that the outbox belongs to.
    pub fn tab(&self) -> u16
        ensures { result ≡ self.now.tab }
    {
        self.tab
    }

    /// Appends a parcel. Fails with `Full` and returns the parcel if the outbox is full.
    pub fn put<R: Wait>(&self, rt: &R, pass: &mut Pass, parcel: Parcel) -> Result<(), Full>
        requires pass { IsOf pass.old self.now }
        requires puts { takes pass.old ≡ false }
        requires tab { IsFor parcel self.now }
        ensures pass { IsSamePass pass.old pass.new }
        ensures put { OnOk result (pass.new.view ≡ with_parcel pass.old.view parcel) }
        ensures back { IfErr result (λ full. full.0 ≡ parcel) }
        // Nothing was put. The contract cannot say that the queue was full, only that the rule and
        // the pass's view allow it.
        ensures full { OnErr result ((pass.new ≡ pass.old) × Held CAPACITY (IsMoment pass.old.view)) }
    {
        self.queue
            .push_as::<Put, R>(rt, &mut pass.place, parcel)
            .map_err(Full)
    }

    /// Removes and returns the oldest parcel, or returns `None` if the outbox is empty.
    pub fn take<R: Wait>(&self, rt: &R, pass: &mut Pass) -> Option<Parcel>
        requires pass { IsOf pass.old self.now }
        requires takes { takes pass.old ≡ true }
        ensures pass { IsSamePass pass.old pass.new }
        ensures taken { IfSome result (λ p. pass.new.view ≡ with_parcel pass.old.view p) }
        ensures tab { IfSome result (λ p. IsFor p self.now) }
        // Nothing was taken. The contract cannot say that the queue was empty, only that the rule
        // and the pass's view allow it.
        ensures empty { IfNone result ((pass.new ≡ pass.old) × Held 0 (IsMoment pass.old.view)) }
    {
        self.queue.pop_as::<Take, R>(rt, &mut pass.place)
    }
}

/// Assigns a new queue to a tab. The given pass becomes the taking pass, and the returned one puts.
fn open<A: Address>(queue: &Queue, taker: &mut Place, partition: u16, tab: u16) -> Place
    requires taker { IsPassOf queue.now taker.old × (view taker.old ≡ opening) }
    requires address { (partition ≡ A.partition) × (tab ≡ A.tab) }
    ensures passes { IsPassOf queue.now taker.new × IsPassOf queue.now result }
    ensures views { (view taker.new ≡ taker_of partition tab) × (view result ≡ putter_of partition tab) }
{
    queue.another::<Open<A>>(taker)
}

/// Wraps a place into a pass that puts.
fn putting(place: Place) -> Pass
    requires { (place.me.1 ≡ []) × ((view place).role ≡ Role.Putting) }
    ensures { result ≡ record { queue = place.table_id; pass = place.id; view = view place } }
{
    Pass {
        place,
        takes: false,
    }
}
