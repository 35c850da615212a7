//! Parts of the world: tabs, channels, the supervisor with its broker, and the bag.

ghost use Rattle.std.specs.Prelude.{◌≡◌, [], ◌++◌, true, IfOk, OnOk, is_some, map, slice_get};
ghost use Rattle.std.specs.Option.{option_copied};
ghost use Rattle.wl_world_messages.specs.declared.effect.Effect.TheVariants as said;
ghost use Rattle.wl_tab.specs.TabTokens.{holdings_of};
ghost use Rattle.wl_world_model.specs.Machine.{held_by_living};
ghost use Rattle.wl_world_model.specs.World.{empty_world, lives, tab_of, from_broker};
ghost use Rattle.wl_kernel.specs.Kernel.{living_tabs};

mod channels;
mod commands;
mod deliveries;
mod dispatch;
mod forgeries;
mod supervision;

use crate::sending::from_broker;
use std::alloc::{AllocError, Global};
use std::collections::BTreeMap;
use std::marker::Model;
use wl_supervised_broker::{SupervisedBroker, SupervisorOutcome};
use wl_tab::{Holding, TabChannels, TabLocks};
use wl_world_messages::{Bag, Effect, Message, Refusal};

/// All parts of the world.
#[derive(Drop)]
pub struct Components {
    alloc: Global,
    tabs: BTreeMap<u16, TabLocks>,
    channels: BTreeMap<u16, TabChannels>,
    supervisor: SupervisedBroker,
    bag: Bag,
    /// The tabs that were taken over.
    corrupt: Vec<u16>,
}

impl Model for Components {
    ghost use Rattle.wl_world_model.specs.World.{WorldState};
    ghost use Rattle.wl_world.specs.Components.{world_of, IsRowed};

    ghost Value = { WorldState };

    ghost view = { λ p. world_of p.tabs.entries p.channels.entries p.supervisor p.bag p.corrupt.items };

    ghost invariant = { λ p. IsRowed p.supervisor.kernel p.tabs.entries p.channels.entries };
}

/// Effect of an event: the reply's text, and the messages sent, in order.
#[derive(Drop)]
pub struct EventResult {
    pub said: Effect,
    pub sends: Vec<Message>,
}

impl Components {
    /// Returns the world before any event.
    pub fn new(alloc: Global) -> Components
        ensures { result ≡ empty_world }
    {
        Components {
            alloc,
            tabs: BTreeMap::new(alloc),
            channels: BTreeMap::new(alloc),
            supervisor: SupervisedBroker::new(alloc),
            bag: Bag::new(alloc),
            corrupt: Vec::new(alloc),
        }
    }

    /// Returns whether a broker is up.
    pub fn is_up(&self) -> bool
        ensures { result ≡ is_some self.now.broker }
    {
        self.supervisor.is_up()
    }

    /// Returns the living tabs, by rising number.
    pub fn living(&self) -> &[u16]
        ensures { result.now ≡ living_tabs self.now.kernel }
    {
        self.supervisor.tabs().living()
    }

    /// Returns the message at a place of the bag, counted from 0.
    pub fn message(&self, place: usize) -> Option<&Message>
        ensures { option_copied result ≡ slice_get self.now.bag place }
    {
        self.bag.get(place)
    }

    /// Returns the locks that living tabs hold, by tab and then by number.
    pub fn holdings(&self) -> Result<Vec<Holding>, AllocError>
        ensures { IfOk result (λ holdings. holdings.items ≡ held_by_living self.now) }
    {
        let mut holdings = Vec::new(self.alloc);
        for tab in self.living() {
            self.add_holdings(*tab, &mut holdings)?;
        }
        Ok(holdings)
    }

    fn add_holdings(&self, tab: u16, holdings: &mut Vec<Holding>) -> Result<(), AllocError>
        ensures { OnOk result (holdings.new.items ≡ holdings.old.items ++ holdings_of (tab_of self.now tab)) }
    {
        match self.tabs.get(&tab) {
            Some(locks) => locks.add_holdings(holdings),
            // The tab was never opened, so it holds nothing.
            None => Ok(()),
        }
    }

    /// Returns the locks of a living tab, which always has a row.
    fn locks(&self, tab: u16) -> &TabLocks
        requires { lives self.now tab ≡ true }
        ensures { result.now ≡ tab_of self.now tab }
    {
        let Some(locks) = self.tabs.get(&tab) else {
            unreachable!()
        };
        locks
    }

    fn lives(&self, tab: u16) -> bool
        ensures { result ≡ lives self.now tab }
    {
        self.supervisor.tabs().is_living(tab)
    }
}

/// Returns the effect of an event that sends nothing.
fn silent(alloc: Global, said: Effect) -> EventResult
    ensures said { result.said ≡ said }
    ensures sends { result.sends.items ≡ [] }
{
    EventResult {
        said,
        sends: Vec::new(alloc),
    }
}

/// Returns the effect of an event that is refused: nothing is done or sent.
fn refused(alloc: Global, refusal: Refusal) -> EventResult
    ensures said { result.said ≡ said.Refused refusal }
    ensures sends { result.sends.items ≡ [] }
{
    silent(alloc, Effect::Refused(refusal))
}

/// Converts an outcome of the broker into the effect of an event.
fn of_broker(alloc: Global, outcome: SupervisorOutcome) -> Result<EventResult, AllocError>
    ensures said { IfOk result (λ done. done.said ≡ outcome.said) }
    ensures sends { IfOk result (λ done. done.sends.items ≡ map from_broker outcome.outs) }
{
    let SupervisorOutcome { said, outs } = outcome;
    let sends = from_broker(alloc, outs)?;
    Ok(EventResult { said, sends })
}
