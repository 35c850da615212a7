//! Supervisor: the kernel's table of tabs, and whether a broker is up.

ghost use Rattle.std.specs.Prelude.{◌≡◌, ◌≢◌, ◌<◌, ◌≤◌, [], length, None, Some, Err, IfOk, OnOk, IfErr, OnErr, true};
ghost use Rattle.wl_draft.specs.Refusals.{RefusesBy, RefusesOnlyBy};
ghost use Rattle.wl_grammar.specs.Grammar.{IsTab, IsWellFormed};
ghost use Rattle.wl_kernel.specs.declared.supervisor.StartRefusal.TheVariants.{Listed};
ghost use Rattle.wl_kernel.specs.Kernel.{no_tabs, living_tabs, partition_number, number_for, open_refusal, opened, kill_refusal, killed, start_refusal, start_frame};
ghost use Rattle.wl_kernel.specs.Routes.{route_up_refusal, routed_up, TakesMemory, IsWellRouted, routed_down};
ghost use Rattle.wl_kernel.specs.SupervisorStates.{IsReached, without_broker, with_broker, current, with_kernel, begun, list_refusal, stop_refusal, halted, down_refusal, seen};

use crate::fault::{KillFault, OpenFault, RouteFault, StartFault};
use crate::routes::Routed;
use crate::states::{Down, Up};
use crate::tabs::Tabs;
use std::alloc::{AllocError, Global};
use std::marker::Model;
use thiserror::Error;
use wl_grammar::Frame;
use wl_origin::Partition;

/// The kernel, with or without a broker that is up.
enum State {
    Down(Down),
    Up(Up),
}

impl Drop for State {
    fn drop(self) {
        match self {
            State::Down(down) => down.end(),
            State::Up(up) => up.end(),
        }
    }
}

impl State {
    /// Starts the broker with this start list, if none is up.
    fn start(self, listed: &[u16]) -> (State, Result<(u32, Frame), StartRefusal>)
        ensures ok { OnOk result.1 (seen result.0 ≡ begun (seen self)) }
        ensures generation { IfOk result.1 (λ r. r.0 ≡ (seen self).kernel.generation) }
        ensures frame { IfOk result.1 (λ r. r.1 ≡ start_frame listed.now (seen self).kernel) }
        ensures well_formed { IfOk result.1 (λ r. IsWellFormed r.1) }
        ensures refused { RefusesBy result.1 (list_refusal listed.now (seen self)) (Listed StartFault.Memory) }
        ensures growth { result.1 ≡ Err (Listed StartFault.Memory) → 0 < length listed.now }
        ensures err { OnErr result.1 (seen result.0 ≡ seen self) }
    {
        match self {
            State::Up(up) => (State::Up(up), Err(StartRefusal::AlreadyUp)),
            State::Down(down) => match start(down, listed) {
                (state, Ok(started)) => (state, Ok(started)),
                (state, Err(fault)) => (state, Err(StartRefusal::Listed(fault))),
            },
        }
    }

    /// Starts the broker with exactly the living tabs, if none is up.
    #[tactic(auto, using(crate::proofs::Reaching::starts_reached))]
    fn start_with_living(self, alloc: Global) -> (State, Result<(u32, Frame), NotStarted>)
        requires { IsReached (seen self).kernel }
        ensures allowed { start_refusal (living_tabs (seen self).kernel) (seen self).kernel ≡ None }
        ensures growth { result.1 ≡ Err NotStarted.Memory → living_tabs (seen self).kernel ≢ [] }
        ensures ok { OnOk result.1 (seen result.0 ≡ begun (seen self)) }
        ensures generation { IfOk result.1 (λ r. r.0 ≡ (seen self).kernel.generation) }
        ensures frame { IfOk result.1 (λ r. r.1 ≡ start_frame (living_tabs (seen self).kernel) (seen self).kernel) }
        ensures well_formed { IfOk result.1 (λ r. IsWellFormed r.1) }
        ensures up { (seen self).is_up ≡ true → result.1 ≡ Err NotStarted.AlreadyUp }
        ensures down { result.1 ≡ Err NotStarted.AlreadyUp → (seen self).is_up ≡ true }
        ensures err { OnErr result.1 (seen result.0 ≡ seen self) }
    {
        match self {
            State::Up(up) => (State::Up(up), Err(NotStarted::AlreadyUp)),
            State::Down(down) => start_with_living(alloc, down),
        }
    }

    /// Stops the broker, if one is up.
    #[tactic(auto, using(crate::proofs::Reaching::stops_reached))]
    fn stop(self) -> (State, Result<u32, NotStopped>)
        requires { IsReached (seen self).kernel }
        ensures ok { OnOk result.1 (seen result.0 ≡ halted (seen self)) }
        ensures generation { IfOk result.1 (λ g. g ≡ (seen self).kernel.generation) }
        ensures refused { RefusesOnlyBy result.1 (stop_refusal (seen self)) }
        ensures err { OnErr result.1 (seen result.0 ≡ seen self) }
        ensures reached { IsReached (seen result.0).kernel }
    {
        match self {
            State::Down(down) => (State::Down(down), Err(NotStopped::NotUp)),
            State::Up(up) => {
                let generation = up.tabs().generation();
                match up.stop() {
                    Ok(down) => (State::Down(down), Ok(generation)),
                    Err((up, _used_up)) => (State::Up(up), Err(NotStopped::GenerationsUsedUp)),
                }
            }
        }
    }
}

/// Starts the broker of a kernel without one.
fn start(down: Down, listed: &[u16]) -> (State, Result<(u32, Frame), StartFault>)
    ensures ok { OnOk result.1 (seen result.0 ≡ with_broker down) }
    ensures generation { IfOk result.1 (λ r. r.0 ≡ down.generation) }
    ensures frame { IfOk result.1 (λ r. r.1 ≡ start_frame listed.now down) }
    ensures well_formed { IfOk result.1 (λ r. IsWellFormed r.1) }
    ensures refused { RefusesBy result.1 (start_refusal listed.now down) StartFault.Memory }
    ensures growth { result.1 ≡ Err StartFault.Memory → 0 < length listed.now }
    ensures err { OnErr result.1 (seen result.0 ≡ without_broker down) }
{
    match down.start(listed) {
        Ok((up, frame)) => {
            let generation = up.tabs().generation();
            (State::Up(up), Ok((generation, frame)))
        }
        Err((down, fault)) => (State::Down(down), Err(fault)),
    }
}

/// Returns a copy of the list of living tabs.
fn living_in(alloc: Global, down: &Down) -> Result<Vec<u16>, AllocError>
    ensures list { IfOk result (λ v. v.items ≡ living_tabs down.now) }
    ensures growth { OnErr result (living_tabs down.now ≢ []) }
{
    let living = down.tabs().living();
    if living.is_empty() {
        return Ok(Vec::new(alloc));
    }
    living.to_vec(alloc)
}

/// Starts the broker of a kernel without one, with exactly the living tabs.
#[tactic(auto, using(crate::proofs::Reaching::starts_reached))]
fn start_with_living(alloc: Global, down: Down) -> (State, Result<(u32, Frame), NotStarted>)
    requires { IsReached down }
    ensures growth { OnErr result.1 (living_tabs down ≢ []) }
    ensures ok { OnOk result.1 (seen result.0 ≡ with_broker down) }
    ensures generation { IfOk result.1 (λ r. r.0 ≡ down.generation) }
    ensures frame { IfOk result.1 (λ r. r.1 ≡ start_frame (living_tabs down) down) }
    ensures well_formed { IfOk result.1 (λ r. IsWellFormed r.1) }
    ensures memory { IfErr result.1 (λ e. e ≡ NotStarted.Memory) }
    ensures err { OnErr result.1 (seen result.0 ≡ without_broker down) }
{
    let Ok(listed) = living_in(alloc, &down) else {
        return (State::Down(down), Err(NotStarted::Memory));
    };
    match start(down, listed.as_slice()) {
        (state, Ok(started)) => (state, Ok(started)),
        (state, Err(StartFault::Memory)) => (state, Err(NotStarted::Memory)),
        // A start with all living tabs is never refused.
        (_state, Err(_fault)) => unreachable!(),
    }
}

/// The kernel's table of tabs, and whether a broker is up. Its kernel is always the result of some list of
/// kernel calls, starting without tabs.
#[derive(Drop)]
pub struct Supervisor {
    alloc: Global,
    state: State,
}

impl Model for Supervisor {
    ghost use Rattle.wl_kernel.specs.SupervisorStates.{SupervisorState, IsReached, seen};

    ghost Value = { SupervisorState };

    ghost view = { λ s. seen s.state };

    ghost invariant = { λ s. IsReached (seen s.state).kernel };
}

/// Reason for which no broker was started with a start list.
#[derive(Clone, Copy, Debug, PartialEq, Eq, Error)]
pub enum StartRefusal {
    /// A broker is up.
    #[error("AlreadyUp")]
    AlreadyUp,
    /// The kernel refused the list, or ran out of memory.
    #[error("Listed")]
    Listed(StartFault),
}

/// Reason for which no broker was started with the living tabs.
#[derive(Clone, Copy, Debug, PartialEq, Eq, Error)]
pub enum NotStarted {
    /// A broker is up.
    #[error("AlreadyUp")]
    AlreadyUp,
    /// Out of memory.
    #[error("Memory")]
    Memory,
}

/// Reason for which no broker was stopped.
#[derive(Clone, Copy, Debug, PartialEq, Eq, Error)]
pub enum NotStopped {
    /// No broker is up.
    #[error("NotUp")]
    NotUp,
    /// The broker is of the last generation.
    #[error("GenerationsUsedUp")]
    GenerationsUsedUp,
}

/// Evidence that the kernel's table lists a tab as dead. Only `Supervisor::kill` creates one.
#[derive(Drop)]
pub struct KilledTab {
    tab: u16,
}

impl Model for KilledTab {
    ghost use Rattle.std.specs.Prelude.{ℕ};

    ghost Value = { ℕ };

    ghost view = { λ k. k.tab };
}

/// Destination of a tab's frame, with facts about its sender.
#[derive(Drop)]
pub struct RoutedUp {
    pub routed: Routed,
    /// The number of the sender's partition.
    pub partition: u16,
    /// The generation of the broker that is up, if there is one.
    pub current: Option<u32>,
}

/// A broker's frame for a tab.
#[derive(Drop)]
pub struct RoutedDown {
    pub tab: u16,
    /// The number of the tab's partition.
    pub partition: u16,
    pub frame: Frame,
}

impl Supervisor {
    /// Returns a supervisor without tabs and without a broker. `last` is the last generation that there may be.
    pub fn new(alloc: Global, last: u32) -> Supervisor
        requires { 1 ≤ last }
        ensures { result ≡ without_broker (no_tabs last) }
    {
        Supervisor {
            alloc,
            state: State::Down(Down::new(alloc, last)),
        }
    }

    /// Returns the kernel's table of tabs.
    pub fn tabs(&self) -> &Tabs
        ensures table { result.now ≡ self.now.kernel }
        ensures reached { IsReached self.now.kernel }
    {
        match &self.state {
            State::Down(down) => down.tabs(),
            State::Up(up) => up.tabs(),
        }
    }

    /// Returns whether a broker is up.
    pub fn is_up(&self) -> bool
        ensures { result ≡ self.now.is_up }
    {
        match &self.state {
            State::Down(_) => false,
            State::Up(_) => true,
        }
    }

    /// Returns the generation of the broker that is up, if there is one.
    pub fn current(&self) -> Option<u32>
        ensures { result ≡ current self.now }
    {
        match &self.state {
            State::Down(_) => None,
            State::Up(up) => Some(up.tabs().generation()),
        }
    }

    /// Returns the generation of the broker that is up, or of the next one.
    pub fn generation(&self) -> u32
        ensures value { result ≡ self.now.kernel.generation }
        ensures from_one { 1 ≤ result }
    {
        self.tabs().generation()
    }

    /// Opens a tab in a partition and returns the partition's number.
    #[tactic(auto, using(crate::proofs::Reaching::opens_reached))]
    pub fn open(&mut self, tab: u16, partition: Partition) -> Result<u16, OpenFault>
        ensures ok { OnOk result (self.new ≡ with_kernel (opened tab partition self.old.kernel) self.old) }
        ensures number { IfOk result (λ n. n ≡ number_for tab partition self.old.kernel) }
        ensures refused { RefusesBy result (open_refusal tab partition self.old.kernel) OpenFault.Memory }
        ensures err { OnErr result (self.new ≡ self.old) }
    {
        match &mut self.state {
            State::Down(down) => down.tabs_mut().open(tab, partition),
            State::Up(up) => up.tabs_mut().open(tab, partition),
        }
    }

    /// Marks a tab as dead. Allocates no memory.
    #[tactic(auto, using(crate::proofs::Reaching::kills_reached))]
    pub fn kill(&mut self, tab: u16) -> Result<KilledTab, KillFault>
        ensures ok { OnOk result (self.new ≡ with_kernel (killed tab self.old.kernel) self.old) }
        ensures tab { IfOk result (λ k. k ≡ tab) }
        ensures refused { RefusesOnlyBy result (kill_refusal tab self.old.kernel) }
        ensures err { OnErr result (self.new ≡ self.old) }
    {
        match &mut self.state {
            State::Down(down) => down.tabs_mut().kill(tab)?,
            State::Up(up) => up.tabs_mut().kill(tab)?,
        }
        Ok(KilledTab { tab })
    }

    /// Routes a tab's frame. A frame for the broker is stamped with the numbers of the tab and its partition.
    /// A post goes to the other living tabs of the partition.
    pub fn route_up(&self, tab: u16, frame: Frame) -> Result<RoutedUp, RouteFault>
        ensures routed { IfOk result (λ s. s.routed ≡ routed_up tab frame self.now.kernel) }
        ensures partition { IfOk result (λ s. s.partition ≡ partition_number self.now.kernel tab) }
        ensures current { IfOk result (λ s. s.current ≡ current self.now) }
        ensures refused { RefusesBy result (route_up_refusal tab frame self.now.kernel) RouteFault.Memory }
        ensures growth { result ≡ Err RouteFault.Memory → TakesMemory tab frame self.now.kernel }
        ensures well_formed { IfOk result (λ s. IsWellFormed frame → IsWellRouted s.routed) }
        ensures reached { IsReached self.now.kernel }
    {
        let routed = self.tabs().route_up(tab, frame)?;
        Ok(RoutedUp {
            routed,
            partition: self.partition_number(tab),
            current: self.current(),
        })
    }

    /// Routes a frame of the broker behind a generation's link to a living tab. Allocates no memory.
    pub fn route_down(&self, link: u32, frame: Frame) -> Result<RoutedDown, RouteFault>
        ensures routed { IfOk result (λ d. routed_down frame ≡ Some (d.tab, d.frame)) }
        ensures partition { IfOk result (λ d. d.partition ≡ partition_number self.now.kernel d.tab) }
        ensures refused { RefusesOnlyBy result (down_refusal link frame self.now) }
        ensures well_formed { IfOk result (λ d. IsWellFormed frame → IsTab d.tab × IsWellFormed d.frame) }
    {
        let (tab, frame) = match &self.state {
            State::Down(down) => down.route_down(link, frame)?,
            State::Up(up) => up.route_down(link, frame)?,
        };
        Ok(RoutedDown {
            tab,
            partition: self.partition_number(tab),
            frame,
        })
    }

    /// Returns the number of a tab's partition, or 0 if the tab was never opened.
    fn partition_number(&self, tab: u16) -> u16
        ensures { result ≡ partition_number self.now.kernel tab }
    {
        self.tabs().partition_number(tab).unwrap_or(0)
    }

    /// Starts the broker of the current generation with this start list, and returns the generation with its
    /// Start frame. The list may contain dead tabs. Fails with `AlreadyUp` if a broker is up.
    pub fn start(&mut self, listed: &[u16]) -> Result<(u32, Frame), StartRefusal>
        ensures ok { OnOk result (self.new ≡ begun self.old) }
        ensures generation { IfOk result (λ r. r.0 ≡ self.old.kernel.generation) }
        ensures frame { IfOk result (λ r. r.1 ≡ start_frame listed.now self.old.kernel) }
        ensures well_formed { IfOk result (λ r. IsWellFormed r.1) }
        ensures refused { RefusesBy result (list_refusal listed.now self.old) (Listed StartFault.Memory) }
        // Memory is needed only if a tab is listed.
        ensures growth { result ≡ Err (Listed StartFault.Memory) → 0 < length listed.now }
        ensures err { OnErr result (self.new ≡ self.old) }
    {
        let (state, started) = self.take_state().start(listed);
        self.state = state;
        started
    }

    /// Starts the broker of the current generation with exactly the living tabs, and returns the generation
    /// with its Start frame. Fails with `AlreadyUp` if one is up, and with `Memory` if out of memory.
    pub fn start_with_living(&mut self) -> Result<(u32, Frame), NotStarted>
        // The kernel never refuses a start with exactly the living tabs.
        ensures allowed { start_refusal (living_tabs self.old.kernel) self.old.kernel ≡ None }
        // Memory is needed only if a tab lives.
        ensures growth { result ≡ Err NotStarted.Memory → living_tabs self.old.kernel ≢ [] }
        ensures ok { OnOk result (self.new ≡ begun self.old) }
        ensures generation { IfOk result (λ r. r.0 ≡ self.old.kernel.generation) }
        ensures frame { IfOk result (λ r. r.1 ≡ start_frame (living_tabs self.old.kernel) self.old.kernel) }
        ensures well_formed { IfOk result (λ r. IsWellFormed r.1) }
        ensures up { self.old.is_up ≡ true → result ≡ Err NotStarted.AlreadyUp }
        ensures down { result ≡ Err NotStarted.AlreadyUp → self.old.is_up ≡ true }
        ensures err { OnErr result (self.new ≡ self.old) }
    {
        let (state, started) = self.take_state().start_with_living(self.alloc);
        self.state = state;
        started
    }

    /// Stops the broker and returns its generation. Fails with `NotUp` if none is up, and with
    /// `GenerationsUsedUp` if its generation is the last. Allocates no memory.
    pub fn stop(&mut self) -> Result<u32, NotStopped>
        ensures ok { OnOk result (self.new ≡ halted self.old) }
        ensures generation { IfOk result (λ g. g ≡ self.old.kernel.generation) }
        ensures refused { RefusesOnlyBy result (stop_refusal self.old) }
        ensures err { OnErr result (self.new ≡ self.old) }
    {
        let (state, stopped) = self.take_state().stop();
        self.state = state;
        stopped
    }

    /// Moves the state out, leaving an empty one.
    fn take_state(&mut self) -> State
        ensures state { seen result ≡ self.old }
        ensures reached { IsReached (seen result).kernel }
    {
        std::mem::replace(&mut self.state, State::Down(Down::new(self.alloc, 1)))
    }
}
