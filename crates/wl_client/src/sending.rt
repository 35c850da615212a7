//! Frames for the hub, as bytes.

ghost use Rattle.std.specs.Prelude.{◌≡◌, [], ◌∷◌, IfOk, OnErr, if◌then◌else◌};
ghost use Rattle.wl_agent.specs.Tab.{is_report_due, report_frames};
ghost use Rattle.wl_client.specs.Sending.{IsNext, Sends, SendsCommand, SendsDue, SendsFrame, SendsItem, after_item};
ghost use Rattle.wl_client.specs.declared.client.Unsent.TheVariants as unsent_with;
ghost use Rattle.wl_client.specs.declared.sending.Output.TheVariants as outputs;

use crate::client::{Client, Unsent};
use std::alloc::{AllocError, Global};
use std::collections::VecDeque;
use wl_agent::MessageFault;
use wl_frames::{Frame, encode_into};
use wl_tab::TabLocks;

/// Result of `next_output`.
#[derive(Clone, Copy, Debug, PartialEq, Eq)]
pub enum Output {
    /// Nothing was left to send.
    Idle,
    /// The encoding of one frame was appended.
    Sent,
    /// Nothing was appended this time: a report was prepared, or the oldest item needs no frame. The caller has
    /// to call again.
    Skipped,
}

impl Client {
    /// Appends the encoding of the oldest frame for the hub to `out`, and removes the frame. Fails if out of
    /// memory, and then changes nothing.
    pub fn next_output(&mut self, out: &mut Vec<u8>) -> Result<Output, AllocError>
        ensures next { IfOk result (λ done. IsNext self.old done out.old.items out.new.items self.new) }
        ensures err { OnErr result ((self.new ≡ self.old) × (out.new.items ≡ out.old.items)) }
    {
        let Some(frame) = self.report.front() else {
            return self.send_due(out);
        };
        let done = append(out, frame)?;
        let _ = self.report.pop_front();
        Ok(done)
    }

    /// Sends the oldest command that is due again, or the oldest other item if there is none.
    fn send_due(&mut self, out: &mut Vec<u8>) -> Result<Output, AllocError>
        ensures next { IfOk result (λ done. SendsDue self.old.due self.old done out.old.items out.new.items self.new) }
        ensures err { OnErr result ((self.new ≡ self.old) × (out.new.items ≡ out.old.items)) }
    {
        let Some(number) = self.due.front() else {
            return self.send_item(out);
        };
        let done = append_command(out, &self.locks, *number)?;
        let _ = self.due.pop_front();
        Ok(done)
    }

    /// Sends the oldest item.
    fn send_item(&mut self, out: &mut Vec<u8>) -> Result<Output, AllocError>
        ensures next { IfOk result (λ done. SendsItem self.old.unsent self.old done out.old.items out.new.items self.new) }
        ensures err { OnErr result ((self.new ≡ self.old) × (out.new.items ≡ out.old.items)) }
    {
        let Some(item) = self.unsent.front() else {
            return Ok(Output::Idle);
        };
        if let Unsent::Resend = item {
            let resend = self.locks.resend()?;
            let report = report_if(self.alloc, &self.locks, resend.report)?;
            self.report = VecDeque::from(report);
            self.due = VecDeque::from(resend.numbers);
            let _ = self.unsent.pop_front();
            return Ok(Output::Skipped);
        }
        let done = append_item(out, &self.locks, item)?;
        let _ = self.unsent.pop_front();
        Ok(done)
    }
}

/// Returns the frames of the report if it is due, and none otherwise.
fn report_if(alloc: Global, locks: &TabLocks, is_due: bool) -> Result<Vec<Frame>, AllocError>
    ensures { IfOk result (λ frames. frames.items ≡ (if is_due then report_frames locks.now else [])) }
{
    if !is_due {
        return Ok(Vec::new(alloc));
    }
    let frames = locks.report_frames().map_err(|_| AllocError)?;
    Ok(frames.into_vec())
}

/// Appends the frame of an item. A resend has none.
fn append_item(out: &mut Vec<u8>, locks: &TabLocks, item: &Unsent) -> Result<Output, AllocError>
    ensures ok { IfOk result (λ done. Sends locks.now item.now done out.old.items out.new.items) }
    ensures err { OnErr result (out.new.items ≡ out.old.items) }
{
    match item {
        Unsent::Resend => Ok(Output::Skipped),
        Unsent::Command(number) => append_command(out, locks, *number),
        Unsent::Post(frame) => append(out, frame),
    }
}

/// Appends the frame of a command.
fn append_command(out: &mut Vec<u8>, locks: &TabLocks, number: u32) -> Result<Output, AllocError>
    ensures ok { IfOk result (λ done. SendsCommand locks.now number done out.old.items out.new.items) }
    ensures err { OnErr result (out.new.items ≡ out.old.items) }
{
    match locks.message(number) {
        Ok(frame) => append(out, &frame),
        Err(MessageFault::Memory) => Err(AllocError),
        Err(_) => Ok(Output::Skipped),
    }
}

/// Appends the encoding of a well-formed frame.
fn append(out: &mut Vec<u8>, frame: &Frame) -> Result<Output, AllocError>
    ensures ok { IfOk result (λ done. SendsFrame frame.now done out.old.items out.new.items) }
    ensures err { OnErr result (out.new.items ≡ out.old.items) }
{
    if !frame.is_well_formed() {
        return Ok(Output::Skipped);
    }
    encode_into(out, frame)?;
    Ok(Output::Sent)
}
