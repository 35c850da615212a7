//! Lock commands of tabs: requests, queries, aborts, releases and resends.

ghost use Rattle.std.specs.Prelude.{◌≡◌, ◌≢◌, true, IfOk, OnOk};
ghost use Rattle.wl_world_messages.specs.declared.effect.Effect.TheVariants as said;
ghost use Rattle.wl_world_model.specs.World.{tab_of, lives, asks, queries, aborts, releases, resends};
ghost use Rattle.wl_world_model.specs.Sends.{issued_messages};
ghost use Rattle.wl_world_model.specs.Replies.{asking, querying, aborting, releasing, resending, some_resent};

use crate::components::{Components, EventResult, refused};
use crate::sending;
use std::alloc::AllocError;
use wl_agent::AgentFault;
use wl_draft::{Mode, Name};
use wl_tab::{AbortResult, lock_tables};
use wl_world_messages::{Effect, Message, Refusal};

impl Components {
    /// Issues a request, or a probe if `if_available` is set.
    #[tactic(auto, unfolding(wl_world_model::specs::World::acts))]
    pub fn ask(
        &mut self,
        tab: u16,
        mode: Mode,
        if_available: bool,
        name: &Name,
    ) -> Result<EventResult, AllocError>
        ensures world { OnOk result (self.new ≡ (asks self.old tab mode if_available name.now).world) }
        ensures said { IfOk result (λ done. done.said ≡ asking self.old tab name.now) }
        ensures sends { IfOk result (λ done.
            done.sends.items ≡ (asks self.old tab mode if_available name.now).sends) }
    {
        if !self.lives(tab) {
            return Ok(refused(self.alloc, Refusal::NoTab));
        }
        match lock_tables::ask_at(&mut self.tabs, tab, mode, if_available, name) {
            Ok(number) => self.issued(tab, number),
            Err(fault) => Ok(refused(self.alloc, agent_refusal(fault)?)),
        }
    }

    /// Issues a query for a snapshot.
    #[tactic(auto, unfolding(wl_world_model::specs::World::acts))]
    pub fn query(&mut self, tab: u16) -> Result<EventResult, AllocError>
        ensures world { OnOk result (self.new ≡ (queries self.old tab).world) }
        ensures said { IfOk result (λ done. done.said ≡ querying self.old tab) }
        ensures sends { IfOk result (λ done. done.sends.items ≡ (queries self.old tab).sends) }
    {
        if !self.lives(tab) {
            return Ok(refused(self.alloc, Refusal::NoTab));
        }
        match lock_tables::query_at(&mut self.tabs, tab) {
            Ok(number) => self.issued(tab, number),
            Err(fault) => Ok(refused(self.alloc, agent_refusal(fault)?)),
        }
    }

    /// Aborts a request.
    #[tactic(auto, unfolding(wl_world_model::specs::World::acts))]
    pub fn abort(&mut self, tab: u16, number: u32) -> Result<EventResult, AllocError>
        ensures world { OnOk result (self.new ≡ (aborts self.old tab number).world) }
        ensures said { IfOk result (λ done. done.said ≡ aborting self.old tab number) }
        ensures sends { IfOk result (λ done. done.sends.items ≡ (aborts self.old tab number).sends) }
    {
        if !self.lives(tab) {
            return Ok(refused(self.alloc, Refusal::NoTab));
        }
        match lock_tables::abort_at(&mut self.tabs, tab, number) {
            AbortResult::Issued(next) => self.issued(tab, next),
            AbortResult::Held => Ok(refused(self.alloc, Refusal::Held)),
            AbortResult::Nothing => Ok(refused(self.alloc, Refusal::Nothing)),
        }
    }

    /// Releases a lock.
    #[tactic(auto, unfolding(wl_world_model::specs::World::acts))]
    pub fn release(&mut self, tab: u16, number: u32) -> Result<EventResult, AllocError>
        ensures world { OnOk result (self.new ≡ (releases self.old tab number).world) }
        ensures said { IfOk result (λ done. done.said ≡ releasing self.old tab number) }
        ensures sends { IfOk result (λ done. done.sends.items ≡ (releases self.old tab number).sends) }
    {
        if !self.lives(tab) {
            return Ok(refused(self.alloc, Refusal::NoTab));
        }
        match lock_tables::release_at(&mut self.tabs, tab, number) {
            Some(next) => self.issued(tab, next),
            None => Ok(refused(self.alloc, Refusal::Nothing)),
        }
    }

    /// Sends again every message of the tab that may have been lost.
    pub fn resend(&self, tab: u16) -> Result<EventResult, AllocError>
        ensures said { IfOk result (λ done. done.said ≡ resending self.now tab) }
        ensures sends { IfOk result (λ done. done.sends.items ≡ (resends self.now tab).sends) }
        ensures world { (resends self.now tab).world ≡ self.now }
    {
        if !self.lives(tab) {
            return Ok(refused(self.alloc, Refusal::NoTab));
        }
        let sends = sending::resent(self.alloc, self.supervisor.tabs(), tab, self.locks(tab))?;
        let said = resent_said(&sends);
        Ok(EventResult { said, sends })
    }

    /// Returns the effect of a command that the tab has just issued.
    fn issued(&self, tab: u16, number: u32) -> Result<EventResult, AllocError>
        requires { lives self.now tab ≡ true }
        ensures said { IfOk result (λ done. done.said ≡ said.Issued tab number) }
        ensures sends { IfOk result (λ done.
            done.sends.items ≡ issued_messages self.now.kernel tab (tab_of self.now tab) number) }
    {
        let kernel = self.supervisor.tabs();
        let sends = sending::issued(self.alloc, kernel, tab, self.locks(tab), number)?;
        let said = Effect::Issued { tab, number };
        Ok(EventResult { said, sends })
    }
}

/// Returns the reply to a resend: a refusal if nothing was due.
fn resent_said(sends: &[Message]) -> Effect
    ensures { result ≡ some_resent sends.now }
{
    if sends.is_empty() {
        Effect::Refused(Refusal::Nothing)
    } else {
        Effect::Resent
    }
}

/// Converts a fault of the agent into a refusal. Fails if the fault is out of memory.
fn agent_refusal(fault: AgentFault) -> Result<Refusal, AllocError>
    ensures refusal { IfOk result (λ refusal. refusal ≡ Refusal.Ask fault) }
    ensures fault { OnOk result (fault ≢ AgentFault.Memory) }
{
    match fault {
        AgentFault::Memory => Err(AllocError),
        fault => Ok(Refusal::Ask(fault)),
    }
}
