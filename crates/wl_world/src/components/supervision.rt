//! Openings and deaths of tabs, starts and stops of the broker.

ghost use Rattle.std.specs.Prelude.{◌≡◌, ◌≢◌, option_map, IfOk, OnOk};
ghost use Rattle.wl_agent.specs.Tab.{born};
ghost use Rattle.wl_kernel.specs.Kernel.{open_refusal};
ghost use Rattle.wl_limits.specs.declared.tabs.TheConstants.{COMMAND_LIMIT};
ghost use Rattle.wl_world_messages.specs.declared.effect.Refusal.TheVariants.{Open};
ghost use Rattle.wl_supervised_broker.specs.Supervising.{kill_effect, death_effect, stop_effect, start_effect};
ghost use Rattle.wl_world_model.specs.World.{opens_as, opens, opens_two, kills, tells, stops, starts, greets};
ghost use Rattle.wl_world_model.specs.Replies.{opening, opening_two, greeting};

use crate::components::{Components, EventResult, of_broker, refused, silent};
use std::alloc::AllocError;
use wl_grammar::{Addressed, Downward, Hello};
use wl_kernel::OpenFault;
use wl_origin::Partition;
use wl_tab::lock_tables::put_row;
use wl_tab::{TabChannels, TabLocks};
use wl_world_messages::{Effect, Message, Refusal, Sender};

impl Components {
    /// Opens a tab that reports at once.
    pub fn open(
        self,
        tab: u16,
        partition: &Partition,
    ) -> Result<(Components, EventResult), AllocError>
        ensures world { IfOk result (λ r. r.0 ≡ (opens self tab partition.now).world) }
        ensures said { IfOk result (λ r. r.1.said ≡ opening self.kernel tab partition.now) }
        ensures sends { IfOk result (λ r. r.1.sends.items ≡ (opens self tab partition.now).sends) }
    {
        let alloc = self.alloc;
        let (parts, refusal) = self.open_with(tab, partition, TabLocks::new(alloc, tab))?;
        if let Some(refusal) = refusal {
            return Ok((parts, refused(alloc, refusal)));
        }
        let partition = partition.copy(alloc)?;
        Ok((parts, silent(alloc, Effect::Opened { tab, partition })))
    }

    /// Opens a tab of the second kind, which may have more locks and reports in parts.
    pub fn open_two(
        self,
        tab: u16,
        partition: &Partition,
    ) -> Result<(Components, EventResult), AllocError>
        ensures world { IfOk result (λ r. r.0 ≡ (opens_two self tab partition.now).world) }
        ensures said { IfOk result (λ r. r.1.said ≡ opening_two self.kernel tab partition.now) }
        ensures sends { IfOk result (λ r. r.1.sends.items ≡ (opens_two self tab partition.now).sends) }
    {
        let alloc = self.alloc;
        let (parts, refusal) = self.open_with(tab, partition, TabLocks::new_two(alloc, tab))?;
        if let Some(refusal) = refusal {
            return Ok((parts, refused(alloc, refusal)));
        }
        let partition = partition.copy(alloc)?;
        Ok((parts, silent(alloc, Effect::OpenedTwo { tab, partition })))
    }

    /// Opens a tab with these locks and no channels. Returns a refusal if the kernel rejects the opening.
    fn open_with(
        self,
        tab: u16,
        partition: &Partition,
        locks: TabLocks,
    ) -> Result<(Components, Option<Refusal>), AllocError>
        requires born { locks ≡ born locks.in_parts tab COMMAND_LIMIT }
        ensures world { IfOk result (λ r. r.0 ≡ (opens_as locks.in_parts self tab partition.now).world) }
        ensures refusal { IfOk result (λ r.
            r.1 ≡ option_map Open (open_refusal tab partition.now self.kernel)) }
    {
        let Components {
            alloc,
            mut tabs,
            mut channels,
            mut supervisor,
            bag,
            corrupt,
        } = self;
        let copy = partition.copy(alloc)?;
        let refusal = match supervisor.open(tab, copy) {
            Ok(_) => {
                put_row(&mut tabs, tab, locks)?;
                put_row(&mut channels, tab, TabChannels::new(alloc, tab))?;
                None
            }
            Err(fault) => Some(open_refusal(fault)?),
        };
        let parts = Components {
            alloc,
            tabs,
            channels,
            supervisor,
            bag,
            corrupt,
        };
        Ok((parts, refusal))
    }

    /// Marks a tab as dead.
    pub fn kill(&mut self, tab: u16) -> EventResult
        ensures world { self.new ≡ (kills self.old tab).world }
        ensures said { result.said ≡ kill_effect self.old.kernel tab }
        ensures sends { result.sends.items ≡ (kills self.old tab).sends }
    {
        let said = self.supervisor.kill(tab);
        silent(self.alloc, said)
    }

    /// Tells the broker that a tab is dead.
    pub fn tell(&mut self, tab: u16) -> Result<EventResult, AllocError>
        ensures world { OnOk result (self.new ≡ (tells self.old tab self.old.broker).world) }
        ensures said { IfOk result (λ done. done.said ≡ death_effect self.old.kernel tab self.old.broker) }
        ensures sends { IfOk result (λ done. done.sends.items ≡ (tells self.old tab self.old.broker).sends) }
    {
        let outcome = self.supervisor.tell(self.alloc, tab)?;
        of_broker(self.alloc, outcome)
    }

    /// Stops the broker.
    pub fn stop(&mut self) -> EventResult
        ensures world { self.new ≡ (stops self.old self.old.broker).world }
        ensures said { result.said ≡ stop_effect self.old.kernel self.old.broker }
        ensures sends { result.sends.items ≡ (stops self.old self.old.broker).sends }
    {
        let said = self.supervisor.stop();
        silent(self.alloc, said)
    }

    /// Starts the broker of the next generation with this start list.
    pub fn start(&mut self, listed: &[u16]) -> Result<EventResult, AllocError>
        ensures world { OnOk result (self.new ≡ (starts self.old listed.now self.old.broker).world) }
        ensures said { IfOk result (λ done. done.said ≡ start_effect self.old.kernel listed.now self.old.broker) }
        ensures sends { IfOk result (λ done. done.sends.items ≡ (starts self.old listed.now self.old.broker).sends) }
    {
        let outcome = self.supervisor.start(self.alloc, listed)?;
        of_broker(self.alloc, outcome)
    }

    /// Sends one tab a hello of the kernel.
    pub fn greet(&self, tab: u16) -> Result<EventResult, AllocError>
        ensures said { IfOk result (λ done. done.said ≡ greeting self.now.kernel tab self.now.broker) }
        ensures sends { IfOk result (λ done. done.sends.items ≡ (greets self.now tab self.now.broker).sends) }
        ensures world { (greets self.now tab self.now.broker).world ≡ self.now }
    {
        if !self.lives(tab) {
            return Ok(refused(self.alloc, Refusal::NoTab));
        }
        if !self.supervisor.is_up() {
            return Ok(refused(self.alloc, Refusal::Down));
        }
        let generation = self.supervisor.tabs().generation();
        let hello = Message::Down {
            sender: Sender::Kernel,
            addressed: Addressed {
                tab,
                inner: Downward::Hello(Hello { generation }),
            },
        };
        let mut sends = Vec::new(self.alloc);
        sends.push(hello)?;
        Ok(EventResult {
            said: Effect::Greeted,
            sends,
        })
    }
}

/// Converts a fault of an opening into a refusal. Fails if the fault is out of memory.
fn open_refusal(fault: OpenFault) -> Result<Refusal, AllocError>
    ensures refusal { IfOk result (λ refusal. refusal ≡ Refusal.Open fault) }
    ensures fault { OnOk result (fault ≢ OpenFault.Memory) }
{
    match fault {
        OpenFault::Memory => Err(AllocError),
        fault => Ok(Refusal::Open(fault)),
    }
}
