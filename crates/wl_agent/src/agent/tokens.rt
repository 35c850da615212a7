//! Results for tokens, and calls that consume them.

ghost use Rattle.std.specs.Prelude.{◌≡◌, true, false, length, IfOk, OnOk, IfErr, OnErr};
ghost use Rattle.wl_draft.specs.Refusals.{RefusesOnlyBy};
ghost use Rattle.wl_grammar.specs.Grammar.{IsOperation};
ghost use Rattle.wl_agent.specs.Tab.{released, aborted, finish, reserves_number, status_of};
ghost use Rattle.wl_agent.specs.Tokens.{is_pending, is_probing, is_holding, is_asking, is_own, told_pending, told_probe, result_of_query_answer, after_query, abort_refusal};

use crate::agent::Agent;
use crate::operations::{is_probe_at, is_query_at, is_request_at};
use crate::status::Status;
use crate::token::{
    AbortFault, Asking, Foreign, HeldLock, Pending, Probe, ProbeSettled, QuerySettled, Settled,
};
use wl_grammar::Operation;

impl Agent {
    /// Returns the state of a request. Fails if the token is foreign, and then returns it. Does not
    /// allocate.
    pub fn settle(&mut self, pending: Pending) -> Result<Settled, Foreign<Pending>>
        ensures told { IfOk result (λ told. told ≡ told_pending self.old pending) }
        ensures own { OnOk result (is_own is_pending self.old pending.tab pending.number ≡ true) }
        ensures foreign { OnErr result (is_own is_pending self.old pending.tab pending.number ≡ false) }
        ensures given_back { IfErr result (λ foreign. foreign.value ≡ pending) }
        ensures same { self.new ≡ self.old }
    {
        if !self.is_pending(&pending) {
            return Err(Foreign { value: pending });
        }
        if self.statuses.is_held(pending.number) {
            return Ok(Settled::Held(pending.into_lock()));
        }
        Ok(Settled::Waiting(pending))
    }

    /// Returns the state of a probe. Fails if the token is foreign, and then returns it. Does not
    /// allocate.
    pub fn settle_probe(&mut self, probe: Probe) -> Result<ProbeSettled, Foreign<Probe>>
        ensures told { IfOk result (λ told. told ≡ told_probe self.old probe) }
        ensures own { OnOk result (is_own is_probing self.old probe.tab probe.number ≡ true) }
        ensures foreign { OnErr result (is_own is_probing self.old probe.tab probe.number ≡ false) }
        ensures given_back { IfErr result (λ foreign. foreign.value ≡ probe) }
        ensures same { self.new ≡ self.old }
    {
        if !self.is_probing(&probe) {
            return Err(Foreign { value: probe });
        }
        if self.statuses.is_asked(probe.number) {
            return Ok(ProbeSettled::Waiting(probe));
        }
        if self.statuses.is_held(probe.number) {
            return Ok(ProbeSettled::Held(probe.into_lock()));
        }
        probe.consume();
        Ok(ProbeSettled::Null)
    }

    /// Returns the state of a query, and ends its number unless it is still asked. Fails if the
    /// token is foreign, and then returns it. Does not allocate.
    pub fn settle_query(&mut self, asking: Asking) -> Result<QuerySettled, Foreign<Asking>>
        ensures told { IfOk result (λ told. told ≡ result_of_query_answer self.old asking) }
        ensures ok { OnOk result (self.new ≡ after_query asking.number self.old) }
        ensures own { OnOk result (is_own is_asking self.old asking.tab asking.number ≡ true) }
        ensures foreign { OnErr result (is_own is_asking self.old asking.tab asking.number ≡ false) }
        ensures given_back { IfErr result (λ foreign. foreign.value ≡ asking) }
        ensures err { OnErr result (self.new ≡ self.old) }
    {
        if !self.is_asking(&asking) {
            return Err(Foreign { value: asking });
        }
        if self.statuses.is_querying(asking.number) {
            return Ok(QuerySettled::Waiting(asking));
        }
        let number = asking.number;
        asking.consume();
        match self.statuses.remove(number) {
            Some(Status::Whole(snapshot)) => Ok(QuerySettled::Whole(snapshot)),
            _ => Ok(QuerySettled::Lost),
        }
    }

    /// Aborts a request (Web Locks, "abort the request"), and returns the number of the abort
    /// command. Fails if the token is foreign or the lock is held, and then returns a token. Does
    /// not allocate.
    pub fn abort(&mut self, pending: Pending) -> Result<u32, AbortFault>
        ensures ok { OnOk result (self.new ≡ aborted pending.number self.old) }
        ensures number { IfOk result (λ n. n ≡ length self.old.issued) }
        ensures refused { RefusesOnlyBy result (abort_refusal self.old pending) }
        ensures err { OnErr result (self.new ≡ self.old) }
    {
        if !self.is_pending(&pending) {
            return Err(AbortFault::Foreign(pending));
        }
        if self.statuses.is_held(pending.number) {
            return Err(AbortFault::Held(pending.into_lock()));
        }
        let number = pending.number;
        pending.consume();
        Ok(self.finish(Operation::Abort { number }, number))
    }

    /// Releases a lock (Web Locks, "release the lock"), and returns the number of the release
    /// command. Fails if the token is foreign, and then returns it. Does not allocate.
    pub fn release(&mut self, lock: HeldLock) -> Result<u32, Foreign<HeldLock>>
        ensures ok { OnOk result (self.new ≡ released lock.number self.old) }
        ensures number { IfOk result (λ n. n ≡ length self.old.issued) }
        ensures own { OnOk result (is_own is_holding self.old lock.tab lock.number ≡ true) }
        ensures foreign { OnErr result (is_own is_holding self.old lock.tab lock.number ≡ false) }
        ensures given_back { IfErr result (λ foreign. foreign.value ≡ lock) }
        ensures err { OnErr result (self.new ≡ self.old) }
    {
        if !self.is_holding(&lock) {
            return Err(Foreign { value: lock });
        }
        let number = lock.number;
        lock.consume();
        Ok(self.finish(Operation::Release { number }, number))
    }

    fn is_pending(&self, pending: &Pending) -> bool
        ensures { result ≡ is_own is_pending self.now pending.now.tab pending.now.number }
    {
        pending.tab == self.tab
            && is_request_at(&self.issued, pending.number)
            && self.statuses.reserves_number(pending.number)
    }

    fn is_probing(&self, probe: &Probe) -> bool
        ensures { result ≡ is_own is_probing self.now probe.now.tab probe.now.number }
    {
        probe.tab == self.tab && is_probe_at(&self.issued, probe.number)
    }

    fn is_holding(&self, lock: &HeldLock) -> bool
        ensures { result ≡ is_own is_holding self.now lock.now.tab lock.now.number }
    {
        lock.tab == self.tab && self.statuses.is_held(lock.number)
    }

    fn is_asking(&self, asking: &Asking) -> bool
        ensures { result ≡ is_own is_asking self.now asking.now.tab asking.now.number }
    {
        asking.tab == self.tab
            && is_query_at(&self.issued, asking.number)
            && self.statuses.get(asking.number).is_some()
    }

    /// Issues the command that ends a number, in the capacity reserved for it.
    fn finish(&mut self, operation: Operation, number: u32) -> u32
        requires keeps { reserves_number (status_of self.old number) ≡ true }
        requires spoken { IsOperation operation }
        ensures new { self.new ≡ finish operation number self.old }
        ensures number { result ≡ length self.old.issued }
    {
        let next = self.count();
        self.statuses.end(number);
        self.issued.push_reserved(operation);
        next
    }
}
