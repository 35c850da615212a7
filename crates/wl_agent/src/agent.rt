//! Agent of a tab.

ghost use Rattle.std.specs.Prelude.{◌≡◌, ◌≤◌, length};
ghost use Rattle.wl_agent.specs.Tab.{born, newborn, newborn_two, live_limit};
ghost use Rattle.wl_limits.specs.declared.tabs.TheConstants.{COMMAND_LIMIT};

pub mod ending;
mod entering;
pub mod issuing;
pub mod receiving;
pub mod sending;
pub mod tokens;

use crate::statuses::Statuses;
use std::alloc::Global;
use std::marker::Model;
use wl_grammar::{Operation, Report, Sequence};
use wl_limits::tabs::{LIVE_LIMIT, LIVE_LIMIT_IN_PARTS};

/// A tab's locks, the numbers of its commands, and the generation it has entered.
#[derive(Drop)]
pub struct Agent {
    alloc: Global,
    tab: u16,
    /// Maximum number of commands in the tab's life.
    numbers: u32,
    /// The commands issued, with capacity for the release or abort of each number that reserves
    /// one.
    issued: Vec<Operation>,
    statuses: Statuses,
    entered: u32,
    acknowledged: u32,
    answered: bool,
    report: Report,
    /// Whether the tab sends its reports in parts, and so has a higher limit of live numbers.
    in_parts: bool,
}

impl Model for Agent {
    ghost use Rattle.std.specs.Prelude.{vec_capacity};
    ghost use Rattle.wl_agent.specs.Tab.{TabState};
    ghost use Rattle.wl_agent.specs.AgentInvariant.{IsAgentInvariant, HasValidFrames};

    ghost Value = { TabState };

    ghost view = { λ a. record { tab = a.tab; numbers = a.numbers; issued = a.issued.items; statuses = a.statuses; entered = a.entered; acknowledged = a.acknowledged; answered = a.answered; report = a.report; in_parts = a.in_parts } };

    ghost invariant = { λ a. IsAgentInvariant (record { tab = a.tab; numbers = a.numbers; issued = a.issued.items; statuses = a.statuses; entered = a.entered; acknowledged = a.acknowledged; answered = a.answered; report = a.report; in_parts = a.in_parts }) (vec_capacity a.issued) × HasValidFrames a.in_parts a.entered a.report a.issued.items };
}

impl Agent {
    /// Returns the agent of a tab that may issue `numbers` commands in its life. The agent sends
    /// each report in a single frame, and allows 64 live numbers.
    pub fn new(alloc: Global, tab: u16, numbers: u32) -> Agent
        requires { numbers ≤ COMMAND_LIMIT }
        ensures { result ≡ newborn tab numbers }
    {
        Agent::born(alloc, tab, numbers, false)
    }

    /// Returns such an agent that sends its reports in parts, and allows 1,024 live numbers.
    pub fn new_two(alloc: Global, tab: u16, numbers: u32) -> Agent
        requires { numbers ≤ COMMAND_LIMIT }
        ensures { result ≡ newborn_two tab numbers }
    {
        Agent::born(alloc, tab, numbers, true)
    }

    fn born(alloc: Global, tab: u16, numbers: u32, in_parts: bool) -> Agent
        requires { numbers ≤ COMMAND_LIMIT }
        ensures { result ≡ born in_parts tab numbers }
    {
        Agent {
            alloc,
            tab,
            numbers,
            issued: Vec::new(alloc),
            statuses: Statuses::new(alloc),
            entered: 0,
            acknowledged: 0,
            answered: false,
            report: Report {
                generation: 0,
                base: 0,
                entries: Sequence::new(Vec::new(alloc)),
            },
            in_parts,
        }
    }

    /// Returns the maximum number of live numbers.
    fn live_limit(&self) -> usize
        ensures { result ≡ live_limit self.now.in_parts }
    {
        if self.in_parts {
            LIVE_LIMIT_IN_PARTS
        } else {
            LIVE_LIMIT
        }
    }

    /// Returns the number of commands issued, which is also the number of the next command.
    fn count(&self) -> u32
        ensures { result ≡ length self.now.issued }
    {
        self.issued.len() as u32
    }
}
