//! States of the supervisor: a broker runs, or none does.

ghost use Rattle.std.specs.Prelude.{◌≡◌, ◌≢◌, ◌<◌, ◌≤◌, length, None, Some, Err, IfOk, OnOk, IfErr, OnErr, IsTrue, false};
ghost use Rattle.std.specs.Borrow.{sem};
ghost use Rattle.wl_draft.specs.Refusals.{RefusesOnlyBy};
ghost use Rattle.wl_grammar.specs.Grammar.{IsTab, IsWellFormed};
ghost use Rattle.wl_kernel.specs.Kernel.{no_tabs, start_refusal, start_frame, may_stop, stopped};
ghost use Rattle.wl_kernel.specs.Routes.{route_down_refusal, routed_down};
ghost use Rattle.wl_kernel.specs.Lending.{LendsDownTabs, LendsUpTabs};

use crate::fault::{GenerationsUsedUp, RouteFault, StartFault};
use crate::tabs::Tabs;
use std::alloc::Global;
use std::marker::Model;
use wl_grammar::{Frame, Start};

/// State without a broker. `start` and `end` consume it.
pub struct Down {
    tabs: Tabs,
}

impl Model for Down {
    ghost use Rattle.wl_kernel.specs.Kernel.{KernelState};

    ghost Value = { KernelState };

    ghost view = { λ d. d.tabs };
}

/// State in which the broker of the current generation runs. `stop` and `end` consume it.
pub struct Up {
    tabs: Tabs,
}

impl Model for Up {
    ghost use Rattle.wl_kernel.specs.Kernel.{KernelState};

    ghost Value = { KernelState };

    ghost view = { λ u. u.tabs };
}

impl Down {
    /// Returns a state without tabs, before the first generation. `last` is the last generation that there may be.
    pub fn new(alloc: Global, last: u32) -> Down
        requires { 1 ≤ last }
        ensures { result ≡ no_tabs last }
    {
        Down {
            tabs: Tabs::new(alloc, last),
        }
    }

    /// Starts the broker of the current generation and returns its Start frame. The list may contain dead
    /// tabs. Fails with the unchanged state.
    pub fn start(self, listed: &[u16]) -> Result<(Up, Frame), (Down, StartFault)>
        ensures up { IfOk result (λ r. r.0 ≡ self) }
        ensures frame { IfOk result (λ r. r.1 ≡ start_frame listed.now self) }
        ensures well_formed { IfOk result (λ r. IsWellFormed r.1) }
        ensures allowed { OnOk result (start_refusal listed.now self ≡ None) }
        ensures refused { IfErr result (λ r.
            r.1 ≢ StartFault.Memory → start_refusal listed.now self ≡ Some r.1) }
        ensures memory { IfErr result (λ r. r.1 ≡ StartFault.Memory → start_refusal listed.now self ≡ None) }
        ensures growth { IfErr result (λ r. r.1 ≡ StartFault.Memory → 0 < length listed.now) }
        ensures err { IfErr result (λ r. r.0 ≡ self) }
    {
        let list = match self.tabs.start_list(listed) {
            Ok(list) => list,
            Err(fault) => return Err((self, fault)),
        };
        let Down { tabs } = self;
        let generation = tabs.generation();
        let frame = Frame::Start(Start { generation, list });
        Ok((Up { tabs }, frame))
    }

    /// Rejects the frame as from a stale link, since no broker runs. Allocates no memory.
    pub fn route_down(&self, _link: u32, frame: Frame) -> Result<(u16, Frame), RouteFault>
        ensures { result ≡ Err RouteFault.StaleLink }
    {
        drop(frame);
        Err(RouteFault::StaleLink)
    }

    /// Returns the table of tabs.
    pub fn tabs(&self) -> &Tabs
        ensures { result.now ≡ self.now }
    {
        &self.tabs
    }

    /// Lends the table of tabs for changes.
    pub fn tabs_mut(&mut self) -> &mut Tabs
        ensures* lends { sem 𝓛 (LendsDownTabs self.entry result) }
        ensures value { result.now ≡ self.old }
    {
        &mut self.tabs
    }

    /// Drops the supervisor.
    pub fn end(self) {
        let Down { tabs: _ } = self;
    }
}

impl Up {
    /// Stops the broker and advances to the next generation. Fails with the unchanged state if the current
    /// generation is the last. Allocates no memory.
    pub fn stop(self) -> Result<Down, (Up, GenerationsUsedUp)>
        ensures ok { IfOk result (λ down. down ≡ stopped self) }
        ensures allowed { OnOk result (IsTrue (may_stop self)) }
        ensures refused { OnErr result (may_stop self ≡ false) }
        ensures err { IfErr result (λ r. r.0 ≡ self) }
    {
        let Up { mut tabs } = self;
        match tabs.stop() {
            Ok(()) => Ok(Down { tabs }),
            Err(used_up) => Err((Up { tabs }, used_up)),
        }
    }

    /// Routes a frame of the broker behind a link to a living tab. Allocates no memory.
    pub fn route_down(&self, link: u32, frame: Frame) -> Result<(u16, Frame), RouteFault>
        ensures routed { IfOk result (λ r. routed_down frame ≡ Some r) }
        ensures refused { RefusesOnlyBy result (route_down_refusal link frame self.now) }
        ensures well_formed { IfOk result (λ r. IsWellFormed frame → IsTab r.0 × IsWellFormed r.1) }
    {
        self.tabs.route_down(link, frame)
    }

    /// Returns the table of tabs.
    pub fn tabs(&self) -> &Tabs
        ensures { result.now ≡ self.now }
    {
        &self.tabs
    }

    /// Lends the table of tabs for changes.
    pub fn tabs_mut(&mut self) -> &mut Tabs
        ensures* lends { sem 𝓛 (LendsUpTabs self.entry result) }
        ensures value { result.now ≡ self.old }
    {
        &mut self.tabs
    }

    /// Drops the supervisor. The broker process keeps running, but its frames are not routed.
    pub fn end(self) {
        let Up { tabs: _ } = self;
    }
}
