//! A thread's capability to put into an outbox or to take from it.

ghost use Rattle.std.specs.Prelude.{◌≡◌, []};
ghost use Rattle.wl_outbox.specs.Passes.{Handed, takes};

use crate::parcel::Parcel;
use crate::rule::View;
use std::marker::Model;

/// A place among the threads that share the queue.
pub(crate) type Place = crossbeam_queue::Pass<Parcel, View>;

/// A thread's capability to put into an outbox or to take from it. All passes of an outbox are made
/// by `Outbox::new`.
#[derive(Drop)]
pub struct Pass {
    pub(crate) place: Place,
    pub(crate) takes: bool,
}

impl Model for Pass {
    ghost use Rattle.std.specs.Prelude.{◌≡◌, []};
    ghost use Rattle.wl_outbox.specs.Passes.{Handed, IsRole};
    ghost use Rattle.crossbeam_queue.specs.Passes.{view as known};

    ghost Value = { Handed };

    ghost view = { λ p. record { queue = p.place.table_id; pass = p.place.id; view = known p.place } };

    ghost invariant = { λ p. (p.place.me.1 ≡ []) × IsRole (known p.place).role p.takes };
}

impl Pass {
    /// Returns true if the pass takes, and false if it puts.
    pub fn takes(&self) -> bool
        ensures { result ≡ takes self.now }
    {
        self.takes
    }
}
