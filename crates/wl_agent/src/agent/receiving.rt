//! Delivery of frames to the tab.

ghost use Rattle.std.specs.Prelude.{◌≡◌, ◌≢◌, true, IfOk, OnOk, OnErr, None};
ghost use Rattle.wl_agent.specs.Delivery.{delivery, takes_memory, noted, acknowledged_by, has_entered, of_other, told_by_answer, told_by_part, after_answer, after_part, part_refusal, IsSendable};
ghost use Rattle.wl_agent.specs.AgentInvariant.{CanFollow};
ghost use Rattle.wl_grammar.specs.declared.frame.Frame.TheVariants as frame;

use crate::agent::Agent;
use crate::answers::result_of_answer;
use crate::delivered::Delivered;
use crate::drop_reason::DropReason;
use crate::operations::is_query_at;
use crate::status::Status;
use std::alloc::AllocError;
use wl_grammar::{Answer, Frame, Hello, Snapshot};

impl Agent {
    /// Processes a received frame, and returns its result. A frame that is dropped because of lack
    /// of memory may be delivered again.
    pub fn deliver(&mut self, frame: &Frame) -> Delivered
        ensures done { result ≢ Delivered.Dropped DropReason.Memory
            → (self.new, result) ≡ delivery frame.now self.old }
        // The frames of a report can be sent unchanged.
        ensures sendable { IsSendable result }
        // A frame is dropped for lack of memory only if it allocates. Nothing changes then.
        ensures memory { result ≡ Delivered.Dropped DropReason.Memory
            → (self.new ≡ self.old) × (takes_memory (delivery frame.now self.old).1 ≡ true) }
    {
        match self.take(frame) {
            Ok(delivered) => delivered,
            Err(_) => Delivered::Dropped(DropReason::Memory),
        }
    }

    fn take(&mut self, frame: &Frame) -> Result<Delivered, AllocError>
        ensures ok { IfOk result (λ d. (self.new, d) ≡ delivery frame.now self.old) }
        ensures sendable { IfOk result IsSendable }
        ensures memory { OnErr result (takes_memory (delivery frame.now self.old).1 ≡ true) }
        ensures err { OnErr result (self.new ≡ self.old) }
    {
        match frame {
            Frame::Hello(hello) => self.greet(hello),
            Frame::Answer(answer) => Ok(self.hear(answer)),
            Frame::Snapshot(part) => self.collect(part),
            _ => Ok(Delivered::Dropped(DropReason::WrongKind)),
        }
    }

    fn greet(&mut self, hello: &Hello) -> Result<Delivered, AllocError>
        ensures ok { IfOk result (λ d. (self.new, d) ≡ delivery (frame.Hello hello.now) self.old) }
        ensures sendable { IfOk result IsSendable }
        ensures memory { OnErr result (takes_memory (delivery (frame.Hello hello.now) self.old).1 ≡ true) }
        ensures err { OnErr result (self.new ≡ self.old) }
    {
        if hello.generation <= self.entered {
            return Ok(Delivered::Dropped(DropReason::OldGeneration));
        }
        Ok(Delivered::Entered(self.enter(hello.generation)?))
    }

    fn hear(&mut self, answer: &Answer) -> Delivered
        ensures ok { (self.new, result) ≡ delivery (frame.Answer answer.now) self.old }
        ensures sendable { IsSendable result }
    {
        if !self.has_entered(answer.generation) {
            return self.of_other(answer.generation);
        }
        let delivered = self.told_by_answer(answer);
        self.follow(&delivered);
        self.note(answer.upto as usize);
        delivered
    }

    fn collect(&mut self, part: &Snapshot) -> Result<Delivered, AllocError>
        ensures ok { IfOk result (λ d. (self.new, d) ≡ delivery (frame.Snapshot part.now) self.old) }
        ensures sendable { IfOk result IsSendable }
        ensures memory { OnErr result (takes_memory (delivery (frame.Snapshot part.now) self.old).1 ≡ true) }
        ensures err { OnErr result (self.new ≡ self.old) }
    {
        if !self.has_entered(part.generation) {
            return Ok(self.of_other(part.generation));
        }
        let delivered = self.take_part(part)?;
        self.note(part.number as usize + 1);
        Ok(delivered)
    }

    /// Returns whether the tab has entered this generation.
    fn has_entered(&self, generation: u32) -> bool
        ensures { result ≡ has_entered generation self.now }
    {
        generation == self.entered && self.entered != 0
    }

    /// Returns the result of a frame whose generation the tab has not entered.
    fn of_other(&self, generation: u32) -> Delivered
        ensures { result ≡ of_other generation self.now }
    {
        Delivered::Dropped(if generation < self.entered {
            DropReason::OldGeneration
        } else {
            DropReason::LaterGeneration
        })
    }

    fn told_by_answer(&self, answer: &Answer) -> Delivered
        ensures value { result ≡ told_by_answer answer.now self.now }
        ensures follows { CanFollow result self.now }
    {
        match self.issued.get(answer.number as usize) {
            Some(operation) => result_of_answer(
                answer.number,
                operation,
                self.statuses.get(answer.number),
                answer.outcome,
            ),
            None => Delivered::Dropped(DropReason::Odd),
        }
    }

    /// Changes the status of the number that an answer concerns.
    fn follow(&mut self, delivered: &Delivered)
        requires { CanFollow delivered.now self.old }
        ensures { self.new ≡ after_answer delivered.now self.old }
    {
        match delivered {
            Delivered::Granted(number) => self.statuses.set(*number, Status::Held),
            Delivered::Lost(number) => self.statuses.set(*number, Status::Lost),
            Delivered::Null(number) => self.statuses.end(*number),
            _ => {}
        }
    }

    /// Records that a frame of the entered generation was received, when the broker had taken
    /// `upto` commands.
    fn note(&mut self, upto: usize)
        ensures { self.new ≡ noted upto self.old }
    {
        self.acknowledged = self.acknowledged_by(upto);
        self.answered = true;
    }

    fn acknowledged_by(&self, upto: usize) -> u32
        ensures { result ≡ acknowledged_by upto self.now }
    {
        if (self.acknowledged as usize) < upto && upto <= self.issued.len() {
            upto as u32
        } else {
            self.acknowledged
        }
    }

    fn part_refusal(&self, part: &Snapshot) -> Option<DropReason>
        ensures { result ≡ part_refusal part.now self.now }
    {
        if !is_query_at(&self.issued, part.number) {
            return Some(DropReason::Odd);
        }
        match self.statuses.get(part.number) {
            Some(Status::Querying(parts)) => parts.refusal(part),
            _ => Some(DropReason::Over),
        }
    }

    /// Adds a snapshot part if it is missing. Returns the result. Fails if out of memory.
    fn take_part(&mut self, part: &Snapshot) -> Result<Delivered, AllocError>
        ensures ok { OnOk result (self.new ≡ after_part part.now self.old) }
        ensures told { IfOk result (λ d. d ≡ told_by_part part.now self.old) }
        ensures memory { OnErr result (takes_memory (told_by_part part.now self.old) ≡ true) }
        ensures err { OnErr result (self.new ≡ self.old) }
    {
        if let Some(reason) = self.part_refusal(part) {
            return Ok(Delivered::Dropped(reason));
        }
        Ok(if self.statuses.take_part(self.alloc, part)? {
            Delivered::Whole(part.number)
        } else {
            Delivered::Part(part.number)
        })
    }
}
