//! The desk: a broker between a frame reader and a frame writer.

ghost use Rattle.std.specs.Prelude.{◌≡◌, ◌≢◌, ◌↔◌, ℕ, List, [], ◌++◌, true, false, Err, IfOk, OnOk, OnErr, MatchResult};
ghost use Rattle.std.specs.List.{AllByRecursion};
ghost use Rattle.std.specs.Io.KnownBytes.{Appends, IsAtEnd};
ghost use Rattle.wl_frames.specs.declared.device.TheConstants.{READ_LIMIT};
ghost use Rattle.wl_frames.specs.Device.{WritesPrefix};
ghost use Rattle.wl_grammar.specs.Grammar.{IsWellFormed, IsAddressed, spelling};
ghost use Rattle.wl_frames.specs.Stream.{IsPartial};
ghost use Rattle.wl_frames.specs.Faults.{of_read, of_frame};
ghost use Rattle.wl_workers.specs.declared.desk.DeskFault.TheVariants as faults;
ghost use Rattle.wl_workers.specs.Desk.{Opening, IsRefused, Runs};
ghost use Rattle.wl_workers.specs.DeskSteps.{spelled, IsBegun, Steps, Spells, Deals, Treats, Closes};

use std::alloc::{AllocError, Global};
use std::io::{Read, Write};
use std::marker::Model;
use thiserror::Error;
use wl_broker::{Broker, Dropped, Frames, LockTable, Outs};
use wl_frames::device::{BUNDLE_LEN, PIECE_LEN, READ_LIMIT, ReadFault, Sink, Source, WriteFault};
use wl_frames::{Addressed, Dead, Feed, Frame, FrameFault, Stamped, Start, encode_into};
use wl_table::IndexedTable;

/// Why a run of the desk failed.
#[derive(Clone, Copy, Debug, PartialEq, Eq, Error)]
pub enum DeskFault {
    /// The input is not a valid stream of frames, or it ended within a frame.
    #[error("{0}")]
    Frame(FrameFault),
    /// The desk received a frame that it does not expect, or the input had no frame at all.
    #[error("Unexpected")]
    Unexpected,
    /// The reader failed.
    #[error("Read")]
    Read,
    /// The writer failed.
    #[error("Write")]
    Write,
    /// The input was not at its end after `READ_LIMIT` reads.
    #[error("TooManyReads")]
    TooManyReads,
    /// Out of memory.
    #[error("Memory")]
    Memory,
}

impl From<ReadFault> for DeskFault {
    ghost from_gives = { λ fault e. e ≡ of_read faults.Read faults.TooManyReads fault };

    fn from(fault: ReadFault) -> DeskFault {
        match fault {
            ReadFault::Failed => DeskFault::Read,
            ReadFault::TooManyReads => DeskFault::TooManyReads,
        }
    }
}

impl From<WriteFault> for DeskFault {
    ghost from_gives = { λ _ e. e ≡ faults.Write };

    fn from(_fault: WriteFault) -> DeskFault {
        DeskFault::Write
    }
}

impl From<FrameFault> for DeskFault {
    ghost from_gives = { λ fault e. e ≡ of_frame faults.Memory faults.Frame fault };

    fn from(fault: FrameFault) -> DeskFault {
        match fault {
            FrameFault::Memory => DeskFault::Memory,
            fault => DeskFault::Frame(fault),
        }
    }
}

impl From<AllocError> for DeskFault {
    ghost from_gives = { λ _ e. e ≡ faults.Memory };

    fn from(_fault: AllocError) -> DeskFault {
        DeskFault::Memory
    }
}

/// A broker that the first frame starts.
#[derive(Drop)]
struct Desk<T: LockTable> {
    broker: Option<Broker<T>>,
}

impl<T: LockTable> Model for Desk<T> {
    ghost use Rattle.wl_workers.specs.Desk.{DeskState};
    ghost use Rattle.wl_workers.specs.DeskSteps.{state_of, IsSpeaking};

    ghost Value = { DeskState };

    ghost view = { λ d. state_of d.broker };

    ghost invariant = { λ d. IsSpeaking (state_of d.broker) };
}

impl<T: LockTable> Desk<T> {
    fn new() -> Desk<T>
        ensures { result ≡ Opening }
    {
        Desk { broker: None }
    }

    /// Starts the broker. Fails with `Unexpected` if it was started before.
    fn start(&mut self, alloc: Global, start: &Start) -> Result<Outs, DeskFault>
        requires { IsWellFormed (Frame.Start start.now) }
        ensures step { Steps self.old (Frame.Start start.now) self.new result }
        ensures spellable { IfOk result (AllByRecursion IsAddressed) }
    {
        if self.broker.is_some() {
            return Err(DeskFault::Unexpected);
        }
        let (broker, outs) = Broker::start(alloc, start.generation, start.list.as_slice())?;
        self.broker = Some(broker);
        Ok(outs)
    }

    /// Passes a tab's message to the broker and returns the frames that the broker sends.
    fn take(&mut self, alloc: Global, stamped: &Stamped) -> Result<Outs, DeskFault>
        requires { IsWellFormed (Frame.Stamped stamped.now) }
        ensures step { Steps self.old (Frame.Stamped stamped.now) self.new result }
        ensures spellable { IfOk result (AllByRecursion IsAddressed) }
    {
        let Some(broker) = &mut self.broker else {
            return Err(DeskFault::Unexpected);
        };
        match broker.take(stamped) {
            Ok(outs) => Ok(outs),
            Err(reason) => unanswered(alloc, reason),
        }
    }

    /// Tells the broker that a tab has died and returns the frames that the broker sends.
    fn bury(&mut self, dead: &Dead) -> Result<Outs, DeskFault>
        requires { IsWellFormed (Frame.Dead dead.now) }
        ensures step { Steps self.old (Frame.Dead dead.now) self.new result }
        ensures spellable { IfOk result (AllByRecursion IsAddressed) }
    {
        let Some(broker) = &mut self.broker else {
            return Err(DeskFault::Unexpected);
        };
        Ok(broker.dead(dead.tab)?)
    }

    /// Returns the frames that the broker sends in answer to one frame.
    fn answer(&mut self, alloc: Global, frame: &Frame) -> Result<Outs, DeskFault>
        requires { IsWellFormed frame.now }
        ensures step { Steps self.old frame.now self.new result }
        ensures spellable { IfOk result (AllByRecursion IsAddressed) }
    {
        match frame {
            Frame::Start(start) => self.start(alloc, start),
            Frame::Stamped(stamped) => self.take(alloc, stamped),
            Frame::Dead(dead) => self.bury(dead),
            _ => Err(DeskFault::Unexpected),
        }
    }

    /// Appends the encoding of the broker's answer to one frame.
    fn spell_answer(
        &mut self,
        alloc: Global,
        frame: &Frame,
        bytes: &mut Vec<u8>,
    ) -> Result<(), DeskFault>
        requires { IsWellFormed frame.now }
        ensures { Spells self.old frame.now self.new bytes.old.items bytes.new.items result }
    {
        let outs = self.answer(alloc, frame)?;
        spell_all(outs, bytes)?;
        Ok(())
    }

    /// Answers frames in order, up to the first fault, and writes the answers before it returns.
    /// The buffer `bytes` is reused between calls.
    fn answer_all<W: Write>(
        &mut self,
        alloc: Global,
        frames: &[Frame],
        bytes: &mut Vec<u8>,
        sink: &mut Sink<W>,
    ) -> Result<(), DeskFault>
        requires frames { AllByRecursion IsWellFormed frames.now }
        requires is_open { IsRefused self.old → ⊥ }
        requires sink { sink.old.has_failed ≡ false }
        ensures answered { (output : List ℕ)
            × Appends (W.contents sink.old.writer) (W.contents sink.new.writer) output
            × Deals self.old frames.now self.new result output }
        ensures write { (result ≡ Err DeskFault.Write) ↔ (sink.new.has_failed ≡ true) }
    {
        if frames.is_empty() {
            return Ok(());
        }
        bytes.clear();
        for frame in frames {
            if let Err(fault) = self.spell_answer(alloc, frame, bytes) {
                // Write the answers to the frames before the fault.
                sink.write(bytes.as_slice())?;
                return Err(fault);
            }
            write_bundle(bytes, sink)?;
        }
        sink.write(bytes.as_slice())?;
        Ok(())
    }

    /// Decodes a piece of the input and answers its frames. If a fault is found, the frames before
    /// it are answered first.
    fn take_piece<W: Write>(
        &mut self,
        alloc: Global,
        feed: &mut Feed,
        piece: &[u8],
        bytes: &mut Vec<u8>,
        sink: &mut Sink<W>,
    ) -> Result<(), DeskFault>
        requires feed { feed.old.has_failed ≡ false }
        requires rest { IsPartial feed.old.rest }
        requires is_open { IsRefused self.old → ⊥ }
        requires sink { sink.old.has_failed ≡ false }
        ensures treated { (output : List ℕ)
            × Appends (W.contents sink.old.writer) (W.contents sink.new.writer) output
            × Treats self.old self.new feed.old.rest piece.now feed.new result output }
        ensures write { (result ≡ Err DeskFault.Write) ↔ (sink.new.has_failed ≡ true) }
    {
        match feed.push(piece) {
            Ok(frames) => self.answer_all(alloc, frames.as_slice(), bytes, sink),
            Err(refused) => {
                self.answer_all(alloc, refused.before.as_slice(), bytes, sink)?;
                Err(DeskFault::from(refused.fault))
            }
        }
    }

    /// Checks that the input may end here. Fails with `Frame` within a frame, and with `Unexpected`
    /// if no frame came.
    fn end(&self, feed: Feed) -> Result<(), DeskFault>
        requires { feed.has_failed ≡ false }
        ensures { Closes self.now feed.rest result }
    {
        feed.end()?;
        if self.broker.is_none() {
            return Err(DeskFault::Unexpected);
        }
        Ok(())
    }

    /// Reads the input and writes the answers to its frames, up to end of input or the first fault.
    fn run<R: Read, W: Write>(
        &mut self,
        alloc: Global,
        source: &mut Source<R>,
        sink: &mut Sink<W>,
    ) -> Result<(), DeskFault>
        requires opening { self.old ≡ Opening }
        requires source { source.old.has_failed ≡ false }
        requires reads { source.old.reads ≡ 0 }
        requires sink { sink.old.has_failed ≡ false }
        ensures runs { Runs (R.remaining source.old.reader) (R.remaining source.new.reader)
            (W.contents sink.old.writer) (W.contents sink.new.writer) result }
        ensures end { OnOk result (IsAtEnd (R.remaining source.new.reader)) }
        ensures read { (result ≡ Err DeskFault.Read) ↔ (source.new.has_failed ≡ true) }
        ensures write { (result ≡ Err DeskFault.Write) ↔ (sink.new.has_failed ≡ true) }
        ensures limit { result ≡ Err DeskFault.TooManyReads → source.new.reads ≡ READ_LIMIT }
    {
        let mut feed = Feed::new(alloc);
        let mut buffer = [0; PIECE_LEN];
        let mut bytes = Vec::new(alloc);
        // The prover needs a bounded loop, so this loop counts the reads too.
        for _reads in 0..READ_LIMIT {
            let n = source.read(&mut buffer)?;
            if n == 0 {
                return self.end(feed);
            }
            self.take_piece(alloc, &mut feed, &buffer[..n], &mut bytes, sink)?;
        }
        Err(DeskFault::TooManyReads)
    }
}

/// Returns no frames for a dropped message. Fails with `Memory` if it was dropped for lack of
/// memory.
fn unanswered(alloc: Global, reason: Dropped) -> Result<Outs, DeskFault>
    ensures { MatchResult result (λ outs.
        (outs ≡ []) × (reason ≢ Dropped.Memory)) (λ e. e ≡ DeskFault.Memory) }
{
    match reason {
        Dropped::Memory => Err(DeskFault::Memory),
        _ => Ok(Outs::new(Vec::new(alloc))),
    }
}

/// Appends the encodings of the broker's frames, in order.
fn spell_all(outs: Outs, bytes: &mut Vec<u8>) -> Result<(), AllocError>
    requires { AllByRecursion IsAddressed outs }
    ensures spelled { OnOk result (bytes.new.items ≡ bytes.old.items ++ spelled outs) }
    ensures refused { OnErr result (IsBegun bytes.old.items (spelled outs) bytes.new.items) }
{
    match outs.into_frames() {
        Frames::One(addressed) => spell_one(addressed, bytes),
        Frames::Listed(listed) => spell_list(listed, bytes),
    }
}

/// Appends the encodings of the frames in a list, in order.
fn spell_list(listed: Vec<Addressed>, bytes: &mut Vec<u8>) -> Result<(), AllocError>
    requires { AllByRecursion IsAddressed listed.items }
    ensures spelled { OnOk result (bytes.new.items ≡ bytes.old.items ++ spelled listed.items) }
    ensures refused { OnErr result (IsBegun bytes.old.items (spelled listed.items) bytes.new.items) }
{
    for addressed in listed {
        spell_one(addressed, bytes)?;
    }
    Ok(())
}

/// Appends the encoding of one of the broker's frames. Leaves the bytes unchanged if out of memory.
fn spell_one(addressed: Addressed, bytes: &mut Vec<u8>) -> Result<(), AllocError>
    requires { IsAddressed addressed }
    ensures spelled { OnOk result
        (bytes.new.items ≡ bytes.old.items ++ spelling (Frame.Addressed addressed)) }
    ensures refused { OnErr result (bytes.new.items ≡ bytes.old.items) }
{
    let frame = Frame::Addressed(addressed);
    let spelled = encode_into(bytes, &frame);
    drop(frame);
    spelled
}

/// Writes the bytes and clears the buffer if it holds at least `BUNDLE_LEN` bytes.
fn write_bundle<W: Write>(bytes: &mut Vec<u8>, sink: &mut Sink<W>) -> Result<(), WriteFault>
    ensures written { OnOk result
        ((piece : List ℕ) × Appends (W.contents sink.old.writer) (W.contents sink.new.writer) piece
        × (bytes.old.items ≡ piece ++ bytes.new.items)) }
    ensures sound { OnOk result (sink.new.has_failed ≡ sink.old.has_failed) }
    ensures failed { OnErr result ((sink.new.has_failed ≡ true)
        × WritesPrefix (W.contents sink.old.writer) (W.contents sink.new.writer) bytes.old.items) }
{
    if bytes.len() < BUNDLE_LEN {
        return Ok(());
    }
    sink.write(bytes.as_slice())?;
    bytes.clear();
    Ok(())
}

/// Runs a broker between a reader and a writer, up to end of input or the first fault.
///
/// The input is a Start frame followed by stamped frames and deaths. The output is the frames that
/// the broker sends.
pub fn desk_run_on<T: LockTable, R: Read, W: Write>(
    alloc: Global,
    source: &mut Source<R>,
    sink: &mut Sink<W>,
) -> Result<(), DeskFault>
    requires source { source.old.has_failed ≡ false }
    requires reads { source.old.reads ≡ 0 }
    requires sink { sink.old.has_failed ≡ false }

    // The output is exactly the answer to the input.
    ensures runs { Runs (R.remaining source.old.reader) (R.remaining source.new.reader)
        (W.contents sink.old.writer) (W.contents sink.new.writer) result }
    ensures end { OnOk result (IsAtEnd (R.remaining source.new.reader)) }

    // `Read` and `Write` are returned exactly if the source or the sink recorded a failure.
    ensures read { (result ≡ Err DeskFault.Read) ↔ (source.new.has_failed ≡ true) }
    ensures write { (result ≡ Err DeskFault.Write) ↔ (sink.new.has_failed ≡ true) }
    ensures limit { result ≡ Err DeskFault.TooManyReads → source.new.reads ≡ READ_LIMIT }
{
    let mut desk = Desk::<T>::new();
    let ran = desk.run(alloc, source, sink);
    drop(desk);
    ran
}

/// Runs a broker over indexed lock tables between a reader and a writer, up to end of input or the
/// first fault.
///
/// The input is a Start frame followed by stamped frames and deaths. The output is the frames that
/// the broker sends.
pub fn desk_run<R: Read, W: Write>(
    alloc: Global,
    source: &mut Source<R>,
    sink: &mut Sink<W>,
) -> Result<(), DeskFault>
    requires source { source.old.has_failed ≡ false }
    requires reads { source.old.reads ≡ 0 }
    requires sink { sink.old.has_failed ≡ false }

    // The output is exactly the answer to the input.
    ensures runs { Runs (R.remaining source.old.reader) (R.remaining source.new.reader)
        (W.contents sink.old.writer) (W.contents sink.new.writer) result }
    ensures end { OnOk result (IsAtEnd (R.remaining source.new.reader)) }

    // `Read` and `Write` are returned exactly if the source or the sink recorded a failure.
    ensures read { (result ≡ Err DeskFault.Read) ↔ (source.new.has_failed ≡ true) }
    ensures write { (result ≡ Err DeskFault.Write) ↔ (sink.new.has_failed ≡ true) }
    ensures limit { result ≡ Err DeskFault.TooManyReads → source.new.reads ≡ READ_LIMIT }
{
    desk_run_on::<IndexedTable, R, W>(alloc, source, sink)
}
