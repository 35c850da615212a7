//! Requests, probes and queries.

ghost use Rattle.std.specs.Prelude.{◌≡◌, ◌<◌, ◌≤◌, ◌+◌, true, false, length, Some, IfOk, OnOk, OnErr, if◌then◌else◌};
ghost use Rattle.wl_draft.specs.Refusals.{RefusesBy};
ghost use Rattle.wl_grammar.specs.Grammar.{IsOperation};
ghost use Rattle.wl_agent.specs.Tab.{asked, queried, issue, ask_refusal, query_refusal, live_refusal, is_supported, reserves_number, reserved_numbers, live_numbers, live_limit};
ghost use Rattle.wl_agent.specs.AgentInvariant.{can_become};

use crate::agent::Agent;
use crate::fault::AgentFault;
use crate::snapshot_parts::SnapshotParts;
use crate::status::Status;
use crate::token::{Asking, Pending, Probe};
use std::alloc::AllocError;
use wl_grammar::{Mode, Name, Operation};
use wl_limits::texts::NAME_LIMIT;

impl Agent {
    /// Issues a request for a lock (Web Locks, "request"), and returns its token. Fails with
    /// `NotSupported`, `NameTooLong`, `TooMany` or `NumbersUsedUp`, or with `Memory` if out of
    /// memory.
    pub fn request(&mut self, name: &str, mode: Mode) -> Result<Pending, AgentFault>
        ensures ok { OnOk result (self.new ≡ asked mode false name.now self.old) }
        ensures pending { IfOk result (λ p. (p.tab ≡ self.old.tab) × (p.number ≡ length self.old.issued)) }
        ensures refused { RefusesBy result (ask_refusal self.old name.now) AgentFault.Memory }
        ensures err { OnErr result (self.new ≡ self.old) }
    {
        let tab = self.tab;
        let number = self.ask(name, mode, false)?;
        Ok(Pending::new(tab, number))
    }

    /// Issues a probe, which is a request with `ifAvailable`, and returns its token. Fails like
    /// `request`.
    pub fn probe(&mut self, name: &str, mode: Mode) -> Result<Probe, AgentFault>
        ensures ok { OnOk result (self.new ≡ asked mode true name.now self.old) }
        ensures probe { IfOk result (λ p. (p.tab ≡ self.old.tab) × (p.number ≡ length self.old.issued)) }
        ensures refused { RefusesBy result (ask_refusal self.old name.now) AgentFault.Memory }
        ensures err { OnErr result (self.new ≡ self.old) }
    {
        let tab = self.tab;
        let number = self.ask(name, mode, true)?;
        Ok(Probe::new(tab, number))
    }

    /// Issues a query for a snapshot of the partition's locks (Web Locks, "query"), and returns its
    /// token. Fails with `TooMany` or `NumbersUsedUp`, or with `Memory` if out of memory.
    pub fn query(&mut self) -> Result<Asking, AgentFault>
        ensures ok { OnOk result (self.new ≡ queried self.old) }
        ensures asking { IfOk result (λ q. (q.tab ≡ self.old.tab) × (q.number ≡ length self.old.issued)) }
        ensures refused { RefusesBy result (query_refusal self.old) AgentFault.Memory }
        ensures err { OnErr result (self.new ≡ self.old) }
    {
        if let Some(fault) = self.query_refusal() {
            return Err(fault);
        }
        let tab = self.tab;
        let parts = SnapshotParts::new(self.alloc);
        let number = self.issue(Operation::Query, Status::Querying(parts))?;
        Ok(Asking::new(tab, number))
    }

    /// Issues a request or a probe, and returns its number.
    fn ask(&mut self, name: &str, mode: Mode, if_available: bool) -> Result<u32, AgentFault>
        ensures ok { OnOk result (self.new ≡ asked mode if_available name.now self.old) }
        ensures number { IfOk result (λ n. n ≡ length self.old.issued) }
        ensures refused { RefusesBy result (ask_refusal self.old name.now) AgentFault.Memory }
        ensures err { OnErr result (self.new ≡ self.old) }
    {
        if let Some(fault) = self.ask_refusal(name) {
            return Err(fault);
        }
        let name = Name::new(String::from_str(self.alloc, name)?);
        let operation = Operation::Request {
            mode,
            if_available,
            name,
        };
        Ok(self.issue(operation, Status::Asked)?)
    }

    /// Returns the fault with which `request` and `probe` fail even if there is enough memory, or
    /// `None`. Never returns `Memory`.
    pub fn ask_refusal(&self, name: &str) -> Option<AgentFault>
        ensures { result ≡ ask_refusal self.now name.now }
    {
        if !is_supported(name) {
            return Some(AgentFault::NotSupported);
        }
        if name.len() > NAME_LIMIT {
            return Some(AgentFault::NameTooLong);
        }
        self.live_refusal(2)
    }

    /// Returns the fault with which `query` fails even if there is enough memory, or `None`. Never
    /// returns `Memory`.
    pub fn query_refusal(&self) -> Option<AgentFault>
        ensures { result ≡ query_refusal self.now }
    {
        self.live_refusal(1)
    }

    /// Returns the fault of a command that uses or reserves `more` numbers, or `None`.
    fn live_refusal(&self, more: usize) -> Option<AgentFault>
        requires { more ≤ 2 }
        ensures { result ≡ live_refusal self.now more }
    {
        if self.statuses.live() >= self.live_limit() {
            return Some(AgentFault::TooMany);
        }
        if self.issued.len() + self.statuses.kept() + more > self.numbers as usize {
            return Some(AgentFault::NumbersUsedUp);
        }
        None
    }

    /// Issues a command, and reserves capacity for the release or abort of each number that needs
    /// one.
    fn issue(&mut self, operation: Operation, status: Status) -> Result<u32, AllocError>
        requires few { live_numbers self.old < live_limit self.old.in_parts }
        requires becomes { can_become operation status ≡ true }
        requires spoken { IsOperation operation }
        requires numbers { length self.old.issued + reserved_numbers self.old
            + (if reserves_number (Some status) then 2 else 1) ≤ self.old.numbers }
        ensures ok { OnOk result (self.new ≡ issue operation status self.old) }
        ensures number { IfOk result (λ n. n ≡ length self.old.issued) }
        ensures err { OnErr result (self.new ≡ self.old) }
    {
        let number = self.count();
        let more = 1 + usize::from(status.reserves_number());
        self.issued.reserve(self.statuses.kept() + more)?;
        self.statuses.insert(number, status)?;
        self.issued.push_reserved(operation);
        Ok(number)
    }
}

/// Returns whether the Web Locks API supports the name.
fn is_supported(name: &str) -> bool
    ensures { result ≡ is_supported name.now }
{
    name.as_bytes().first() != Some(&b'-')
}
