//! Frames that arrive at a tab.

ghost use Rattle.std.specs.Prelude.{◌≡◌, ◌≢◌, true, IfOk, OnOk, OnErr};
ghost use Rattle.wl_agent.specs.Delivery.{delivery};
ghost use Rattle.wl_tab.specs.Tabs.{told};
ghost use Rattle.wl_tab.specs.Arrivals.{arrival, said_of_told, generation_in, part_in, parts_in};
ghost use Rattle.wl_tab.specs.TabTokens.{ended_before, has_snapshot, whole_said, entered_by};

use crate::locks::TabLocks;
use crate::locks::live_command::LiveCommand;
use crate::locks::settling::tell_all;
use std::alloc::{AllocError, Global};
use wl_agent::{Delivered, DropReason, Snapshot};
use wl_grammar::{Frame, Sequence};
use wl_world_messages::{Effect, Ended, Reason};

impl TabLocks {
    /// Takes a frame, settles the tokens that it concerns, and returns the reply. If memory runs out nothing
    /// changes, and the frame may be delivered again.
    pub fn deliver(&mut self, frame: &Frame) -> Result<Effect, AllocError>
        ensures new { OnOk result (self.new ≡ told (delivery frame.now self.old).0) }
        ensures said { IfOk result (λ said. said ≡ arrival frame.now self.old) }
        ensures err { OnErr result (self.new ≡ self.old) }
    {
        let ended = ended_by_entering(self.alloc, self.entered, &self.kept)?;
        let delivered = taken(self.agent.deliver(frame))?;
        self.entered = entered_by(frame, &delivered, self.entered);
        let snapshot = tell_all(&mut self.agent, &mut self.kept);
        Ok(said_of_told(frame, ended, snapshot, delivered))
    }
}

/// Fails if the agent dropped the frame because memory ran out.
fn taken(delivered: Delivered) -> Result<Delivered, AllocError>
    ensures same { IfOk result (λ d. d ≡ delivered) }
    ensures ok { OnOk result (delivered ≢ Delivered.Dropped DropReason.Memory) }
    ensures err { OnErr result (delivered ≡ Delivered.Dropped DropReason.Memory) }
{
    match delivered {
        Delivered::Dropped(DropReason::Memory) => Err(AllocError),
        delivered => Ok(delivered),
    }
}

/// Returns the numbers that entering a generation ends. The first generation of a tab's life ends none.
fn ended_by_entering(
    alloc: Global,
    entered: u32,
    kept: &[LiveCommand],
) -> Result<Vec<Ended>, AllocError>
    ensures { IfOk result (λ ended. ended.items ≡ ended_before entered kept.now) }
{
    if entered == 0 {
        return Ok(Vec::new(alloc));
    }
    kept.iter()
        .filter_map(|number| number.ended())
        .collect(alloc)
}

/// Converts the agent's delivery result into the reply.
fn said_of_told(
    frame: &Frame,
    ended: Vec<Ended>,
    snapshot: Option<Snapshot>,
    delivered: Delivered,
) -> Effect
    requires { has_snapshot delivered snapshot ≡ true }
    ensures { result ≡ said_of_told frame.now ended.items (whole_said snapshot) delivered }
{
    match delivered {
        Delivered::Entered(_) => Effect::Entered {
            generation: generation_in(frame),
            ended: Sequence::new(ended),
        },
        Delivered::Granted(number) => Effect::Granted(number),
        Delivered::Waiting(number) => Effect::Waiting(number),
        Delivered::Null(number) => Effect::Null(number),
        Delivered::Lost(number) => Effect::Lost(number),
        Delivered::Taken(number) => Effect::Taken(number),
        Delivered::Part(_) => Effect::Part {
            part: part_in(frame),
            parts: parts_in(frame),
        },
        Delivered::Whole(number) => match snapshot {
            Some(snapshot) => Effect::Whole { number, snapshot },
            None => unreachable!(),
        },
        Delivered::Dropped(unheard) => Effect::Dropped(Reason::AtTab(unheard)),
    }
}

/// Returns the generation that the tab has entered after this frame.
fn entered_by(frame: &Frame, delivered: &Delivered, entered: u32) -> u32
    ensures { result ≡ entered_by frame.now delivered.now entered }
{
    match delivered {
        Delivered::Entered(_) => generation_in(frame),
        _ => entered,
    }
}

/// Returns the generation of a hello, or 0 for any other frame.
fn generation_in(frame: &Frame) -> u32
    ensures { result ≡ generation_in frame.now }
{
    match frame {
        Frame::Hello(hello) => hello.generation,
        _ => 0,
    }
}

/// Returns the index of a snapshot part, or 0 for any other frame.
fn part_in(frame: &Frame) -> u16
    ensures { result ≡ part_in frame.now }
{
    match frame {
        Frame::Snapshot(snapshot) => snapshot.part,
        _ => 0,
    }
}

/// Returns the part count of a snapshot, or 0 for any other frame.
fn parts_in(frame: &Frame) -> u16
    ensures { result ≡ parts_in frame.now }
{
    match frame {
        Frame::Snapshot(snapshot) => snapshot.parts,
        _ => 0,
    }
}
