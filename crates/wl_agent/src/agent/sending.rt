//! Frames that the tab sends.

ghost use Rattle.std.specs.Prelude.{◌≡◌, ◌≢◌, [], IfOk, OnErr};
ghost use Rattle.wl_draft.specs.Refusals.{RefusesBy};
ghost use Rattle.std.specs.List.{AllByRecursion};
ghost use Rattle.wl_grammar.specs.Grammar.{IsWellFormed};
ghost use Rattle.wl_agent.specs.Tab.{command_frame, report_frames, message_refusal, report_refusal, due, is_report_due};

use crate::agent::Agent;
use crate::fault::MessageFault;
use crate::reporting::report_frames;
use wl_grammar::{Command, Frame, Memory, Sequence};

/// Frames that the tab sends again, since they may have been lost.
#[derive(Debug, Drop)]
pub struct Resend {
    /// Whether to send the report again, before the commands.
    pub report: bool,
    /// Numbers of the commands to send again, in rising order.
    pub numbers: Vec<u32>,
}

impl Agent {
    /// Returns the frame of a command, for the broker of the entered generation. Fails with
    /// `NotEntered` if the tab has entered none, with `NoSuchNumber` if no command has the number,
    /// and with `Memory` if out of memory.
    pub fn message(&self, number: u32) -> Result<Frame, MessageFault>
        ensures message { IfOk result (λ f. f ≡ command_frame self.now number) }
        ensures spoken { IfOk result IsWellFormed }
        ensures refused { RefusesBy result (message_refusal self.now number) MessageFault.Memory }
    {
        if self.entered == 0 {
            return Err(MessageFault::NotEntered);
        }
        let Some(operation) = self.issued.get(number as usize) else {
            return Err(MessageFault::NoSuchNumber);
        };
        Ok(Frame::Command(Command {
            generation: self.entered,
            number,
            operation: operation.clone()?,
        }))
    }

    /// Returns the frames of the report of the entered generation: a single frame, or one for each
    /// part by rising index. Fails with `NotEntered` if the tab has entered none, and with `Memory`
    /// if out of memory.
    pub fn report_frames(&self) -> Result<Sequence<Frame>, MessageFault>
        ensures report { IfOk result (λ frames. frames ≡ report_frames self.now) }
        ensures spoken { IfOk result (λ frames. AllByRecursion IsWellFormed frames) }
        ensures refused { RefusesBy result (report_refusal self.now) MessageFault.Memory }
    {
        if self.entered == 0 {
            return Err(MessageFault::NotEntered);
        }
        Ok(report_frames(self.alloc, self.in_parts, &self.report)?)
    }

    /// Returns the report and the commands to send again. The broker takes each frame once, however
    /// often it arrives. Fails if out of memory.
    pub fn resend(&self) -> Result<Resend, Memory>
        ensures report { IfOk result (λ r. r.report ≡ is_report_due self.now) }
        ensures numbers { IfOk result (λ r. r.numbers.items ≡ due self.now) }
        ensures growth { OnErr result (due self.now ≢ []) }
    {
        if self.entered == 0 {
            return Ok(Resend {
                report: false,
                numbers: Vec::new(self.alloc),
            });
        }
        let mut numbers = self.statuses.due_below(self.alloc, self.acknowledged)?;
        for number in self.acknowledged..self.count() {
            numbers.push(number)?;
        }
        Ok(Resend {
            report: !self.answered,
            numbers,
        })
    }
}
