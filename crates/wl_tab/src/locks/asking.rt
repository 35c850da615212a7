//! Requests, probes and queries, whose tokens are stored.

ghost use Rattle.std.specs.Prelude.{◌≡◌, ◌<◌, true, false, length, IfOk, OnOk, OnErr, vec_len, vec_capacity};
ghost use Rattle.wl_draft.specs.Refusals.{RefusesBy};
ghost use Rattle.wl_grammar.specs.declared.frame.Operation.TheVariants.{Request};
ghost use Rattle.wl_agent.specs.Tab.{asked, queried, ask_refusal, query_refusal};

use crate::locks::TabLocks;
use crate::locks::live_command::LiveCommand;
use std::alloc::Global;
use wl_agent::{Agent, AgentFault, Token};
use wl_draft::{Mode, Name};
use wl_grammar::Operation;

impl TabLocks {
    /// Requests a lock and returns the command's number. Memory for its token is reserved before the agent issues it.
    pub fn request(&mut self, name: &Name, mode: Mode) -> Result<u32, AgentFault>
        ensures ok { OnOk result (self.new ≡ asked mode false name.now self.old) }
        ensures number { IfOk result (λ n. n ≡ length self.old.issued) }
        ensures refused { RefusesBy result (ask_refusal self.old name.now) AgentFault.Memory }
        ensures err { OnErr result (self.new ≡ self.old) }
    {
        let operation = prepared(&self.agent, &mut self.kept, name, mode, false)?;
        let pending = self.agent.request(name.as_str(), mode)?;
        let number = pending.number();
        self.kept.push_reserved(LiveCommand {
            operation,
            token: Token::Pending(pending),
        });
        Ok(number)
    }

    /// Requests a lock with `ifAvailable` and returns the command's number.
    pub fn probe(&mut self, name: &Name, mode: Mode) -> Result<u32, AgentFault>
        ensures ok { OnOk result (self.new ≡ asked mode true name.now self.old) }
        ensures number { IfOk result (λ n. n ≡ length self.old.issued) }
        ensures refused { RefusesBy result (ask_refusal self.old name.now) AgentFault.Memory }
        ensures err { OnErr result (self.new ≡ self.old) }
    {
        let operation = prepared(&self.agent, &mut self.kept, name, mode, true)?;
        let probe = self.agent.probe(name.as_str(), mode)?;
        let number = probe.number();
        self.kept.push_reserved(LiveCommand {
            operation,
            token: Token::Probe(probe),
        });
        Ok(number)
    }

    /// Queries the locks of the tab's partition and returns the command's number.
    pub fn query(&mut self) -> Result<u32, AgentFault>
        ensures ok { OnOk result (self.new ≡ queried self.old) }
        ensures number { IfOk result (λ n. n ≡ length self.old.issued) }
        ensures refused { RefusesBy result (query_refusal self.old) AgentFault.Memory }
        ensures err { OnErr result (self.new ≡ self.old) }
    {
        if let Some(fault) = self.agent.query_refusal() {
            return Err(fault);
        }
        self.kept.reserve(1)?;
        let asking = self.agent.query()?;
        let number = asking.number();
        self.kept.push_reserved(LiveCommand {
            operation: Operation::Query,
            token: Token::Asking(asking),
        });
        Ok(number)
    }
}

/// Reserves memory for the token of a request or a probe, and returns its operation. Fails if the agent would refuse it.
fn prepared(
    agent: &Agent,
    kept: &mut Vec<LiveCommand>,
    name: &Name,
    mode: Mode,
    if_available: bool,
) -> Result<Operation, AgentFault>
    ensures operation { IfOk result (λ operation. operation ≡ Request mode if_available name.now) }
    ensures room { OnOk result (vec_len kept.new < vec_capacity kept.new) }
    ensures kept { kept.new.items ≡ kept.old.items }
    ensures refused { RefusesBy result (ask_refusal agent.now name.now) AgentFault.Memory }
{
    if let Some(fault) = agent.ask_refusal(name.as_str()) {
        return Err(fault);
    }
    kept.reserve(1)?;
    Ok(Operation::Request {
        mode,
        if_available,
        name: name.clone()?,
    })
}
