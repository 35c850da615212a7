//! Orders from the script to the broker's keeper, and the waits of each for the other.

use crate::shared_kernel::SharedKernel;
use std::sync::CondvarTimeouts;
use std::time::Duration;
use wl_kernel::NotStopped;
use wl_process::{Host, ProcessFault};

/// The result of a stop.
pub(crate) enum Stop {
    Stopped(u32),
    AlreadyDown,
    GenerationsUsedUp,
}

impl SharedKernel {
    /// Orders a broker and waits until it is up. Returns its generation, or `None` if a broker was
    /// already wanted.
    pub(crate) fn order_start<R: Host>(&self, rt: &R) -> Result<Option<u32>, ProcessFault> {
        let mut orders = self.orders.lock(rt);
        if !orders.start()? {
            return Ok(None);
        }
        self.ordered.notify_all();
        let orders = self
            .ordered
            .wait_while(rt, orders, |orders| orders.outcome().is_none());
        match orders.outcome() {
            Some(outcome) => Ok(Some(outcome?)),
            None => Err(ProcessFault::Device),
        }
    }

    /// Stops the broker and waits until its process has ended.
    pub(crate) fn order_stop<R: Host>(&self, rt: &R) -> Result<Stop, ProcessFault> {
        let mut orders = self
            .ordered
            .wait_while(rt, self.orders.lock(rt), |orders| orders.is_starting());
        if !orders.may_stop()? {
            return Ok(Stop::AlreadyDown);
        }
        let Ok(generation) = self.stop(rt) else {
            return Ok(Stop::GenerationsUsedUp);
        };
        orders.stop();
        drop(orders);
        self.hang_up(rt);
        let _orders = self
            .ordered
            .wait_while(rt, self.orders.lock(rt), |orders| orders.is_stopping());
        Ok(Stop::Stopped(generation))
    }

    /// Stops the broker's generation and starts the next one on the board.
    fn stop<R: Host>(&self, rt: &R) -> Result<u32, NotStopped> {
        let generation = self.supervisor.lock(rt).stop()?;
        if let Some(seat) = self.seats.first() {
            // A seat allows more bumps than there are generations.
            let _ = seat.lock(rt).bump();
        }
        Ok(generation)
    }

    /// Ends the keeper and the broker when the kernel ends.
    pub(crate) fn order_end<R: Host>(&self, rt: &R) {
        let mut orders = self.orders.lock(rt);
        orders.end();
        self.ordered.notify_all();
        drop(orders);
        self.hang_up(rt);
    }

    /// Waits until a broker is wanted. Returns false if the kernel is ending.
    pub(crate) fn wait_for_order<R: Host>(&self, rt: &R) -> bool {
        let orders = self.ordered.wait_while(rt, self.orders.lock(rt), |orders| {
            !orders.is_ending && !orders.is_starting()
        });
        !orders.is_ending
    }

    /// Returns true if a broker is to be started.
    pub(crate) fn is_starting<R: Host>(&self, rt: &R) -> bool {
        self.orders.lock(rt).is_starting()
    }

    /// Pauses for this long, or until the kernel ends.
    pub(crate) fn pause<R: Host>(&self, rt: &R, pause: Duration) {
        if pause.is_zero() {
            return;
        }
        let (_orders, _timeout) = self.ordered.wait_timeout_while(
            rt,
            self.orders.lock(rt),
            pause,
            |orders| !orders.is_ending,
        );
    }

    /// Returns true if the kernel is ending.
    pub(crate) fn is_ending<R: Host>(&self, rt: &R) -> bool {
        self.orders.lock(rt).is_ending
    }

    /// Records that the broker of this generation is up.
    pub(crate) fn note_up<R: Host>(&self, rt: &R, generation: u32) {
        let mut orders = self.orders.lock(rt);
        orders.note_up(generation);
        let is_ending = orders.is_ending;
        self.ordered.notify_all();
        drop(orders);
        if is_ending {
            self.hang_up(rt);
        }
    }

    /// Records that the broker's link has ended. If the generation is current, stops it and orders
    /// the next one.
    pub(crate) fn note_end_of_link<R: Host>(&self, rt: &R, generation: u32) {
        let mut orders = self.orders.lock(rt);
        if orders.is_missed(generation) {
            let has_next = self.stop(rt).is_ok();
            orders.note_next(has_next);
        }
    }

    /// Records that the broker's process has ended.
    pub(crate) fn note_end_of_broker<R: Host>(&self, rt: &R) {
        self.orders.lock(rt).note_end();
        self.ordered.notify_all();
    }

    /// Records that no broker can be started.
    pub(crate) fn note_failure<R: Host>(&self, rt: &R, fault: ProcessFault) {
        self.orders.lock(rt).fail(fault);
        self.ordered.notify_all();
    }

    /// Returns the reason why no broker can be started, if there is one.
    pub(crate) fn failure<R: Host>(&self, rt: &R) -> Option<ProcessFault> {
        self.orders.lock(rt).failure()
    }
}
