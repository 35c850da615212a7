//! State of a hub, and the openings and deaths of tabs.

ghost use Rattle.std.specs.Prelude.{◌≡◌, ◌⊎◌, true, false, Some, None, length, is_some, option_map, IfErr, OnOk, OnErr, if◌then◌else◌};
ghost use Rattle.wl_origin.specs.Partition.{partition_of, partition_of_pair};
ghost use Rattle.wl_kernel.specs.Kernel.{open_refusal, is_living};
ghost use Rattle.wl_hub.specs.Hub.{new_hub, status_of, page_refusal, page_opened, hub_opened, hub_closed};
ghost use Rattle.wl_hub.specs.declared.fault.OpenRefusal.TheVariants as refusals;
ghost use Rattle.wl_hub.specs.declared.fault.CloseFault.TheVariants as faults;

use crate::early::EarlyTabs;
use crate::fault::{CloseFault, OpenRefusal};
use crate::outputs::Outputs;
use indexmap::IndexMap;
use std::alloc::{AllocError, Global};
use std::collections::VecDeque;
use std::marker::Model;
use wl_frames::{Feed, Frame, Hello};
use wl_kernel::{OpenFault, Origins};
use wl_origin::{Partition, partition, partition_pair};
use wl_supervised_broker::SupervisedBroker;

/// Numbers of a status page.
#[derive(Clone, Copy, Debug, PartialEq, Eq)]
pub struct HubStatus {
    /// The generation of the broker that is up.
    pub generation: Option<u32>,
    /// The number of living tabs.
    pub living: usize,
    /// The number of dead tabs that the broker has not been told of.
    pub untold: usize,
    /// The number of frames for tabs.
    pub outputs: usize,
}

/// The kernel with its broker, and the links of the tabs as bytes.
#[derive(Drop)]
pub struct Hub {
    pub(crate) alloc: Global,
    pub(crate) supervised: SupervisedBroker,
    /// The decoder of each living tab.
    pub(crate) feeds: IndexMap<u16, Feed>,
    /// Dead tabs that the broker has not been told of.
    pub(crate) untold: VecDeque<u16>,
    /// The tab that sent the arrived frames.
    pub(crate) sender: u16,
    /// The frames of the last piece that arrived.
    pub(crate) arrived: Vec<Frame>,
    /// The number of arrived frames that have been handled.
    pub(crate) handled: usize,
    pub(crate) early: EarlyTabs,
    pub(crate) outputs: Outputs,
}

impl Model for Hub {
    ghost use Rattle.std.specs.Prelude.{drop};
    ghost use Rattle.wl_hub.specs.Hub.{HubState};
    ghost use Rattle.wl_hub.specs.Stored.{queued};

    ghost Value = { HubState };

    ghost view = { λ h. record {
      supervised = h.supervised;
      feeds = h.feeds.entries;
      untold = h.untold.items;
      sender = h.sender;
      arrived = drop h.handled h.arrived.items;
      early = h.early.tabs.items;
      greetings = h.early.greetings;
      outputs = queued h.outputs;
    } };
}

impl Hub {
    /// Creates a hub without tabs and without a broker.
    pub fn new(alloc: Global) -> Hub
        ensures { result ≡ new_hub }
    {
        Hub {
            alloc,
            supervised: SupervisedBroker::new(alloc),
            feeds: IndexMap::new(alloc),
            untold: VecDeque::new(alloc),
            sender: 0,
            arrived: Vec::new(alloc),
            handled: 0,
            early: EarlyTabs::new(alloc),
            outputs: Outputs::new(alloc),
        }
    }

    /// Opens a tab of a top-level page, and sends the tab its welcome. The page's own origin is the
    /// top-level origin, too. If a broker is up, the tab is also told its generation.
    pub fn open(&mut self, tab: u16, own: &str) -> Result<(), OpenRefusal>
        ensures allowed { OnOk result (page_refusal tab (partition_of own.now) self.old ≡ None) }
        ensures ok { OnOk result (self.new ≡ page_opened tab (partition_of own.now) false self.old) }
        ensures refused { IfErr result (λ e. (e ≡ refusals.Memory) ⊎ (page_refusal tab (partition_of own.now) self.old ≡ Some e)) }
        ensures err { OnErr result (self.new ≡ self.old) }
    {
        match partition(self.alloc, own) {
            Ok(partition) => self.admit(tab, partition, false),
            Err(fault) => Err(OpenRefusal::of_origin(fault)),
        }
    }

    /// Opens a tab of a page under another top-level page, and sends the tab its welcome with both
    /// origins.
    pub fn open_pair(&mut self, tab: u16, top: &str, own: &str) -> Result<(), OpenRefusal>
        ensures allowed { OnOk result (page_refusal tab (partition_of_pair top.now own.now) self.old ≡ None) }
        ensures ok { OnOk result (self.new ≡ page_opened tab (partition_of_pair top.now own.now) true self.old) }
        ensures refused { IfErr result (λ e. (e ≡ refusals.Memory) ⊎ (page_refusal tab (partition_of_pair top.now own.now) self.old ≡ Some e)) }
        ensures err { OnErr result (self.new ≡ self.old) }
    {
        match partition_pair(self.alloc, top, own) {
            Ok(partition) => self.admit(tab, partition, true),
            Err(fault) => Err(OpenRefusal::of_origin(fault)),
        }
    }

    /// Opens a tab in a partition.
    fn admit(&mut self, tab: u16, partition: Partition, is_pair: bool) -> Result<(), OpenRefusal>
        ensures allowed { OnOk result (open_refusal tab partition self.old.supervised.kernel ≡ None) }
        ensures ok { OnOk result (self.new ≡ hub_opened tab partition is_pair self.old) }
        ensures refused { IfErr result (λ e. (e ≡ refusals.Memory)
            ⊎ (option_map refusals.Tab (open_refusal tab partition self.old.supervised.kernel) ≡ Some e)) }
        ensures err { OnErr result (self.new ≡ self.old) }
    {
        self.outputs.make_room()?;
        self.feeds.reserve(1)?;
        let origins = Origins::new(self.alloc, &partition, is_pair)?;
        self.supervised
            .open(tab, partition)
            .map_err(OpenRefusal::of_kernel)?;
        // The map has room for the tab.
        let _ = self.feeds.insert(tab, Feed::new(self.alloc));
        self.outputs.put(tab, origins.welcome(tab));
        if self.supervised.is_up() {
            let generation = self.supervised.tabs().generation();
            self.outputs.put(tab, Frame::Hello(Hello { generation }));
        }
        Ok(())
    }

    /// Closes a tab: it is dead from now on. Its frames that have not been handled are dropped. `advance`
    /// tells the broker. If out of memory, nothing changes, and the caller has to close the tab again.
    pub fn close(&mut self, tab: u16) -> Result<(), CloseFault>
        ensures ok { OnOk result (self.new ≡ hub_closed tab self.old) }
        ensures allowed { OnOk result (is_living self.old.supervised.kernel tab ≡ true) }
        ensures refused { IfErr result (λ e. e ≡ faults.NotLiving → is_living self.old.supervised.kernel tab ≡ false) }
        ensures memory { IfErr result (λ e. e ≡ faults.Memory → is_living self.old.supervised.kernel tab ≡ true) }
        ensures err { OnErr result (self.new ≡ self.old) }
    {
        if !self.is_living(tab) {
            return Err(CloseFault::NotLiving);
        }
        self.untold.reserve(1)?;
        drop(self.supervised.kill(tab));
        drop(self.feeds.swap_remove(&tab));
        self.untold.push_back_reserved(tab);
        self.early.forget(tab);
        if self.sender == tab {
            self.arrived.clear();
            self.handled = 0;
        }
        Ok(())
    }

    /// Returns whether the tab was opened and has not been closed.
    pub fn is_living(&self, tab: u16) -> bool
        ensures { result ≡ is_living self.now.supervised.kernel tab }
    {
        self.supervised.tabs().is_living(tab)
    }

    /// Returns the numbers of a status page.
    pub fn status(&self) -> HubStatus
        ensures { result ≡ status_of self.now }
    {
        let tabs = self.supervised.tabs();
        let generation = match self.supervised.is_up() {
            true => Some(tabs.generation()),
            false => None,
        };
        HubStatus {
            generation,
            living: tabs.living().len(),
            untold: self.untold.len(),
            outputs: self.outputs.len(),
        }
    }
}
