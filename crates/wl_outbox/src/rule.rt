//! The ghost state of passes, the rule over all passes, and the effect of each kind of step.
//! Everything here is erased at run time.

use crate::parcel::Parcel;
use crossbeam_queue::protocol::{Lesson, Outcome, Protocol, Split};
use std::collections::LinkedList;
use std::marker::{Brand, PhantomData};

/// The role of a pass.
pub enum Role {
    /// The outbox is being created and has no tab yet.
    Opening,
    Taking,
    Putting,
}

/// Ghost record of a pass's knowledge. It has no values at run time.
pub struct View {
    pub role: Role,
    /// The partition of the outbox's tab.
    pub partition: u16,
    pub tab: u16,
    /// The parcels that the pass took, or those that it put, in order.
    pub parcels: LinkedList<Parcel>,
}

/// The rule of an outbox.
pub struct OutboxRule;

impl Protocol<Parcel, View> for OutboxRule {
    ghost use Rattle.wl_outbox.specs.OutboxRule.{IsOrderly, opening};

    ghost holds = { IsOrderly };

    ghost first = { opening };
}

/// Ghost address of an outbox: the tab that it is created for. The creating call picks it.
pub(crate) trait Address {
    ghost use Rattle.std.specs.Prelude.{ℕ};

    ghost partition: { ℕ };

    ghost tab: { ℕ };
}

impl Address for Brand {
    ghost partition = { 0 };

    ghost tab = { 0 };
}

/// Step that assigns the outbox to its tab. The given pass takes from then on, and the new one
/// puts.
pub(crate) struct Open<A> {
    address: PhantomData<A>,
}

impl<A: Address> Split<View> for Open<A> {
    ghost use Rattle.wl_outbox.specs.OutboxSteps.{taker_of, putter_of};

    ghost left = { λ v. taker_of A.partition A.tab };

    ghost right = { λ v. putter_of A.partition A.tab };
}

/// Step that adds one more putting pass.
pub(crate) struct Deal;

impl Split<View> for Deal {
    ghost use Rattle.wl_outbox.specs.OutboxSteps.{putter_of};

    ghost left = { λ v. v };

    ghost right = { λ v. putter_of v.partition v.tab };
}

pub(crate) struct Put;

impl Outcome<Parcel, View> for Put {
    ghost use Rattle.wl_outbox.specs.OutboxSteps.{put_in};

    ghost then = { put_in };
}

impl Lesson<Parcel, View> for Put {
    ghost use Rattle.wl_outbox.specs.OutboxSteps.{IsMoment};

    ghost fact = { IsMoment };
}

pub(crate) struct Take;

impl Outcome<Parcel, View> for Take {
    ghost use Rattle.wl_outbox.specs.OutboxSteps.{taken_out};

    ghost then = { taken_out };
}

impl Lesson<Parcel, View> for Take {
    ghost use Rattle.wl_outbox.specs.OutboxSteps.{IsMoment};

    ghost fact = { IsMoment };
}
