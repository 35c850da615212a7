//! Locks of a tab: its agent, and the token of each number in use.

ghost use Rattle.std.specs.Prelude.{◌≡◌, ◌≢◌, ◌++◌, [], IfOk, OnOk, OnErr};
ghost use Rattle.wl_draft.specs.Refusals.{RefusesBy};
ghost use Rattle.wl_agent.specs.Tab.{newborn, newborn_two, report_frames, command_frame, message_refusal, report_refusal, due, is_report_due};
ghost use Rattle.wl_limits.specs.declared.tabs.TheConstants.{COMMAND_LIMIT};
ghost use Rattle.wl_tab.specs.TabTokens.{holdings_of, holding_in};
ghost use Rattle.std.specs.List.{filter_map};

mod asking;
mod ending;
mod live_command;
mod receiving;
mod settling;

use crate::holding::Holding;
use crate::locks::live_command::LiveCommand;
use std::alloc::{AllocError, Global};
use std::marker::Model;
use wl_agent::{Agent, MessageFault, Resend};
use wl_grammar::{Frame, Sequence};
use wl_limits::tabs::COMMAND_LIMIT;

/// A tab's agent, with the token of each number that is not over. Each token is settled as soon as the agent
/// has a result for it.
pub struct TabLocks {
    alloc: Global,
    tab: u16,
    agent: Agent,
    /// The generation that the tab has entered, or 0 for none.
    entered: u32,
    /// Ordered by rising number.
    kept: Vec<LiveCommand>,
}

impl Model for TabLocks {
    ghost use Rattle.wl_agent.specs.Tab.{TabState};
    ghost use Rattle.wl_tab.specs.TabTokens.{IsKept};

    ghost Value = { TabState };

    ghost view = { λ t. t.agent };

    ghost invariant = { λ t. IsKept t.agent t.tab t.entered t.kept.items };
}

impl Drop for TabLocks {
    fn drop(self) {
        let TabLocks {
            alloc: _,
            tab: _,
            agent,
            entered: _,
            mut kept,
        } = self;
        let dead = agent.die();
        while let Some(last) = kept.pop() {
            let LiveCommand {
                operation: _,
                token,
            } = last;
            dead.void(token);
        }
        kept.destroy_empty();
    }
}

/// Result of an abort.
#[derive(Clone, Copy)]
pub enum AbortResult {
    /// The request is aborted by the command with this number.
    Issued(u32),
    /// The lock is held, so its request cannot be aborted.
    Held,
    /// The number does not name a request that is asked.
    Nothing,
}

impl TabLocks {
    /// Returns the locks of a tab that has issued no command.
    pub fn new(alloc: Global, tab: u16) -> TabLocks
        ensures { result ≡ newborn tab COMMAND_LIMIT }
    {
        TabLocks {
            alloc,
            tab,
            agent: Agent::new(alloc, tab, COMMAND_LIMIT),
            entered: 0,
            kept: Vec::new(alloc),
        }
    }

    /// Returns the locks of a tab of the second kind, which may have more locks and reports in parts.
    pub fn new_two(alloc: Global, tab: u16) -> TabLocks
        ensures { result ≡ newborn_two tab COMMAND_LIMIT }
    {
        TabLocks {
            alloc,
            tab,
            agent: Agent::new_two(alloc, tab, COMMAND_LIMIT),
            entered: 0,
            kept: Vec::new(alloc),
        }
    }

    /// Returns the generation that the tab has entered, or 0 for none.
    pub fn entered(&self) -> u32
        ensures { result ≡ self.now.entered }
    {
        self.entered
    }

    /// Returns the frame of a command, for the broker of the entered generation.
    pub fn message(&self, number: u32) -> Result<Frame, MessageFault>
        ensures message { IfOk result (λ f. f ≡ command_frame self.now number) }
        ensures refused { RefusesBy result (message_refusal self.now number) MessageFault.Memory }
    {
        self.agent.message(number)
    }

    /// Returns the frames of the entered generation's report, one for each part.
    pub fn report_frames(&self) -> Result<Sequence<Frame>, MessageFault>
        ensures report { IfOk result (λ frames. frames ≡ report_frames self.now) }
        ensures refused { RefusesBy result (report_refusal self.now) MessageFault.Memory }
    {
        self.agent.report_frames()
    }

    /// Returns the report and the commands that are due to be sent again.
    pub fn resend(&self) -> Result<Resend, AllocError>
        ensures report { IfOk result (λ r. r.report ≡ is_report_due self.now) }
        ensures numbers { IfOk result (λ r. r.numbers.items ≡ due self.now) }
        ensures growth { OnErr result (due self.now ≢ []) }
    {
        self.agent.resend()
    }

    /// Appends the locks that the tab holds, by rising number.
    pub fn add_holdings(&self, holdings: &mut Vec<Holding>) -> Result<(), AllocError>
        ensures { OnOk result (holdings.new.items ≡ holdings.old.items ++ holdings_of self.now) }
    {
        add_holdings(self.tab, &self.kept, holdings)
    }
}

/// Appends the holdings among these numbers.
fn add_holdings(
    tab: u16,
    kept: &[LiveCommand],
    holdings: &mut Vec<Holding>,
) -> Result<(), AllocError>
    ensures { OnOk result (holdings.new.items ≡ holdings.old.items ++ filter_map (holding_in tab) kept.now) }
{
    for number in kept {
        if let Some(holding) = number.holding(tab)? {
            holdings.push(holding)?;
        }
    }
    Ok(())
}
