//! Supervisor with the broker that is up.

ghost use Rattle.std.specs.Prelude.{◌≡◌, [], IfOk, OnOk, OnErr, is_some, if◌then◌else◌};
ghost use Rattle.wl_draft.specs.Refusals.{RefusesBy};
ghost use Rattle.wl_kernel.specs.Kernel.{no_tabs, number_for, open_refusal, opened, is_living, killed};
ghost use Rattle.wl_world_messages.specs.declared.effect.Effect.TheVariants as said;
ghost use Rattle.wl_supervised_broker.specs.Supervising.{kill_effect, stop_effect, start_effect, message_effect, death_effect, taken_said};
ghost use Rattle.wl_supervised_broker.specs.SupervisedStates.{without_broker, with_kernel, is_active_for, after_stop, after_start, frames_at_start, after_message, frames_after_message, after_death, frames_at_death};
ghost use Rattle.wl_limits.specs.declared.brokers.TheConstants.{LAST_GENERATION};

use std::alloc::{AllocError, Global};
use std::marker::Model;
use wl_broker::{Broker, Dropped, Outs};
use wl_grammar::{Stamped, Upward};
use wl_kernel::{NotStopped, OpenFault, StartFault, Supervisor, Tabs};
use wl_limits::brokers::LAST_GENERATION;
use wl_origin::Partition;
use wl_table::IndexedTable;
use wl_world_messages::{Effect, Reason, Refusal};

/// The supervisor, with the broker that is up.
#[derive(Drop)]
pub struct SupervisedBroker {
    supervisor: Supervisor,
    broker: Option<Broker<IndexedTable>>,
}

impl Model for SupervisedBroker {
    ghost use Rattle.std.specs.Prelude.{◌≡◌, is_some};
    ghost use Rattle.wl_supervised_broker.specs.SupervisedStates.{SupervisedState};

    ghost Value = { SupervisedState };

    ghost view = { λ s. record { kernel = s.supervisor.kernel; broker = s.broker } };

    ghost invariant = { λ s. s.supervisor.is_up ≡ is_some s.broker };
}

/// Outcome of an event: the reply, and the frames that the broker sends.
#[derive(Drop)]
pub struct SupervisorOutcome {
    pub said: Effect,
    pub outs: Outs,
}

impl SupervisedBroker {
    /// Returns a supervisor without tabs and without a broker.
    pub fn new(alloc: Global) -> SupervisedBroker
        ensures { result ≡ without_broker (no_tabs LAST_GENERATION) }
    {
        SupervisedBroker {
            supervisor: Supervisor::new(alloc, LAST_GENERATION),
            broker: None,
        }
    }

    /// Returns the kernel's table of tabs.
    pub fn tabs(&self) -> &Tabs
        ensures { result.now ≡ self.now.kernel }
    {
        self.supervisor.tabs()
    }

    /// Returns whether a broker is up.
    pub fn is_up(&self) -> bool
        ensures { result ≡ is_some self.now.broker }
    {
        self.supervisor.is_up()
    }

    /// Returns whether a broker is up and grants locks in the tab's partition: each of the partition's tabs that it
    /// started with has joined or died.
    pub fn is_active_for(&self, tab: u16) -> bool
        ensures { result ≡ is_active_for tab self.now }
    {
        let Some(partition) = self.supervisor.tabs().partition_number(tab) else {
            return false;
        };
        match &self.broker {
            Some(broker) => broker.is_active(partition),
            None => false,
        }
    }

    /// Opens a tab and returns the number of its partition.
    pub fn open(&mut self, tab: u16, partition: Partition) -> Result<u16, OpenFault>
        ensures ok { OnOk result (self.new
            ≡ with_kernel (opened tab partition self.old.kernel) self.old) }
        ensures number { IfOk result (λ number. number ≡ number_for tab partition self.old.kernel) }
        ensures refused { RefusesBy result
            (open_refusal tab partition self.old.kernel) OpenFault.Memory }
        ensures err { OnErr result (self.new ≡ self.old) }
    {
        self.supervisor.open(tab, partition)
    }

    /// Marks a tab as dead. Refuses with `NoTab` unless the tab lives.
    pub fn kill(&mut self, tab: u16) -> Effect
        ensures said { result ≡ kill_effect self.old.kernel tab }
        ensures kernel { self.new ≡ with_kernel (if is_living self.old.kernel tab
            then killed tab self.old.kernel else self.old.kernel) self.old }
    {
        match self.supervisor.kill(tab) {
            Ok(_killed) => Effect::Killed { tab },
            Err(_) => Effect::Refused(Refusal::NoTab),
        }
    }

    /// Starts the broker of the current generation with this start list. The broker greets the listed tabs.
    /// Fails if out of memory, and changes nothing then.
    pub fn start(&mut self, alloc: Global, listed: &[u16]) -> Result<SupervisorOutcome, AllocError>
        ensures supervisor { OnOk result (self.new ≡ after_start listed.now self.old) }
        ensures said { IfOk result (λ r. r.said ≡ start_effect self.old.kernel listed.now self.old.broker) }
        ensures outs { IfOk result (λ r. r.outs ≡ frames_at_start listed.now self.old) }
        ensures err { OnErr result (self.new ≡ self.old) }
    {
        if self.broker.is_some() {
            return Ok(silent(alloc, Effect::Refused(Refusal::AlreadyUp)));
        }
        let list = match self.supervisor.tabs().start_list(listed) {
            Ok(list) => list,
            Err(StartFault::Memory) => return Err(AllocError),
            Err(fault) => return Ok(silent(alloc, Effect::Refused(Refusal::Start(fault)))),
        };
        let generation = self.supervisor.generation();
        let (broker, outs) = Broker::start(alloc, generation, list.as_slice())?;
        // The list is allowed, so a refusal means that memory has run out.
        let Ok(_frame) = self.supervisor.start(listed) else {
            return Err(AllocError);
        };
        self.broker = Some(broker);
        let said = Effect::Started { generation };
        Ok(SupervisorOutcome { said, outs })
    }

    /// Stops the broker.
    pub fn stop(&mut self) -> Effect
        ensures supervisor { self.new ≡ after_stop self.old }
        ensures said { result ≡ stop_effect self.old.kernel self.old.broker }
    {
        match self.supervisor.stop() {
            Ok(generation) => {
                self.broker = None;
                Effect::Stopped { generation }
            }
            Err(NotStopped::NotUp) => Effect::Refused(Refusal::AlreadyDown),
            Err(NotStopped::GenerationsUsedUp) => Effect::Refused(Refusal::GenerationsUsedUp),
        }
    }

    /// Delivers a command or a report to the broker. Fails if out of memory.
    pub fn take(
        &mut self,
        alloc: Global,
        stamped: &Stamped,
    ) -> Result<SupervisorOutcome, AllocError>
        ensures supervisor { OnOk result (self.new ≡ after_message stamped.now self.old) }
        ensures kernel { self.new.kernel ≡ self.old.kernel }
        ensures said { IfOk result (λ r. r.said ≡ message_effect stamped.now self.old.broker) }
        ensures outs { IfOk result (λ r. r.outs ≡ frames_after_message stamped.now self.old) }
        ensures err { OnErr result (self.new ≡ self.old) }
    {
        let Some(broker) = &mut self.broker else {
            return Ok(silent(alloc, Effect::Dropped(Reason::Down)));
        };
        match broker.take(stamped) {
            Ok(outs) => Ok(SupervisorOutcome {
                said: taken(broker, stamped),
                outs,
            }),
            Err(Dropped::Memory) => Err(AllocError),
            Err(dropped) => Ok(silent(alloc, Effect::Dropped(Reason::AtBroker(dropped)))),
        }
    }

    /// Tells the broker that a tab is dead. Fails if out of memory.
    pub fn tell(&mut self, alloc: Global, tab: u16) -> Result<SupervisorOutcome, AllocError>
        ensures supervisor { OnOk result (self.new ≡ after_death tab self.old) }
        ensures kernel { self.new.kernel ≡ self.old.kernel }
        ensures said { IfOk result (λ r. r.said ≡ death_effect self.old.kernel tab self.old.broker) }
        ensures outs { IfOk result (λ r. r.outs ≡ frames_at_death tab self.old) }
        ensures err { OnErr result (self.new ≡ self.old) }
    {
        let tabs = self.supervisor.tabs();
        if tabs.partition_number(tab).is_none() {
            return Ok(silent(alloc, Effect::Refused(Refusal::NoTab)));
        }
        if tabs.is_living(tab) {
            return Ok(silent(alloc, Effect::Refused(Refusal::Living)));
        }
        match &mut self.broker {
            None => Ok(silent(alloc, Effect::Refused(Refusal::Down))),
            Some(broker) => Ok(SupervisorOutcome {
                outs: broker.dead(tab)?,
                said: Effect::Told { tab },
            }),
        }
    }
}

/// Returns the outcome of an event on which the broker sends nothing.
fn silent(alloc: Global, said: Effect) -> SupervisorOutcome
    ensures { result ≡ record { said = said; outs = [] } }
{
    SupervisorOutcome {
        said,
        outs: Outs::new(Vec::new(alloc)),
    }
}

/// Returns the reply to a message that the broker has just taken.
fn taken(broker: &Broker<IndexedTable>, stamped: &Stamped) -> Effect
    ensures { result ≡ taken_said broker.now stamped.now.tab stamped.now.inner }
{
    let tab = stamped.tab;
    match &stamped.inner {
        Upward::Command(_) => Effect::Answered,
        Upward::Report(_) => Effect::Joined { tab },
        Upward::ReportPart(part) => {
            if broker.is_joined(tab) {
                return Effect::Joined { tab };
            }
            Effect::Part {
                part: part.part,
                parts: part.parts,
            }
        }
    }
}
