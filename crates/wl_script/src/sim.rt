//! The simulator: plays a script and prints the replies.

ghost use Rattle.std.specs.Prelude.{◌≡◌, ◌↔◌, ◌+◌, ◌<◌, ◌^◌, ℕ, List, length, true, false, Err, OnOk};
ghost use Rattle.std.specs.Io.KnownBytes.{Appends, IsAtEnd};
ghost use Rattle.wl_frames.specs.declared.device.TheConstants.{READ_LIMIT};
ghost use Rattle.wl_frames.specs.Faults.{of_read};
ghost use Rattle.wl_script.specs.declared.sim.SimFault.TheVariants as faults;
ghost use Rattle.wl_script.specs.Sim.{Runs};
ghost use Rattle.wl_script.specs.SimSteps.{at_first, PlaysLine, Takes, Closes};

use crate::line_reading::read_line;
use crate::play::play;
use std::alloc::{AllocError, AllocFailed, Global};
use std::io::{Read, Write};
use std::marker::Model;
use thiserror::Error;
use wl_frames::device::{PIECE_LEN, READ_LIMIT, ReadFault, Sink, Source, WriteFault};
use wl_limits::scripts::LINE_LIMIT;
use wl_script_words::ParseFault;
use wl_world::world::World;

/// Why the simulator ended before the end of its script.
#[derive(Clone, Copy, Debug, PartialEq, Eq, Error)]
pub enum SimFault {
    /// Syntax error in this line, counted from 1.
    #[error("line {0}")]
    Line(u32),
    /// The reader failed.
    #[error("Read")]
    Read,
    /// The writer failed.
    #[error("Write")]
    Write,
    /// The input was not at its end after `READ_LIMIT` reads.
    #[error("TooManyReads")]
    TooManyReads,
    /// Out of memory.
    #[error("Memory")]
    Memory,
}

impl From<ReadFault> for SimFault {
    ghost from_gives = { λ fault e. e ≡ of_read faults.Read faults.TooManyReads fault };

    fn from(fault: ReadFault) -> SimFault {
        match fault {
            ReadFault::Failed => SimFault::Read,
            ReadFault::TooManyReads => SimFault::TooManyReads,
        }
    }
}

impl From<WriteFault> for SimFault {
    ghost from_gives = { λ _ e. e ≡ faults.Write };

    fn from(_fault: WriteFault) -> SimFault {
        SimFault::Write
    }
}

impl From<AllocError> for SimFault {
    ghost from_gives = { λ _ e. e ≡ faults.Memory };

    fn from(_fault: AllocError) -> SimFault {
        SimFault::Memory
    }
}

impl<T: Drop> From<AllocFailed<T>> for SimFault {
    ghost from_gives = { λ _ e. e ≡ faults.Memory };

    fn from(_fault: AllocFailed<T>) -> SimFault {
        SimFault::Memory
    }
}

/// The state of a script being read: the world, the number of the current line, counted from 1, and
/// the part of that line read so far.
#[derive(Drop)]
struct Sim {
    world: World,
    number: u32,
    text: Vec<u8>,
}

impl Model for Sim {
    ghost use Rattle.wl_script.specs.SimSteps.{SimState};

    ghost Value = { SimState };

    ghost view = { λ s. record { world = s.world.world; number = s.number; text = s.text.items } };
}

impl Sim {
    fn new(alloc: Global) -> Sim
        ensures { result ≡ at_first }
    {
        Sim {
            world: World::new(alloc),
            number: 1,
            text: Vec::new(alloc),
        }
    }

    /// Reads a piece of the script and plays the lines that end in it.
    fn take_piece<W: Write>(
        self,
        alloc: Global,
        piece: &[u8],
        sink: &mut Sink<W>,
    ) -> Result<Sim, SimFault>
        requires number { self.number + length piece.now < 2 ^ 32 }
        requires sink { sink.old.has_failed ≡ false }
        ensures taken { (output : List ℕ)
            × Appends (W.contents sink.old.writer) (W.contents sink.new.writer) output
            × Takes self piece.now result output }
        ensures write { (result ≡ Err SimFault.Write) ↔ (sink.new.has_failed ≡ true) }
    {
        let Sim {
            mut world,
            mut number,
            mut text,
        } = self;
        for byte in piece {
            if *byte == b'\n' {
                world = play_line(alloc, world, number, text.as_slice(), sink)?;
                number += 1;
                text.clear();
            } else if text.len() >= LINE_LIMIT {
                return Err(SimFault::Line(number));
            } else {
                text.push(*byte)?;
            }
        }
        Ok(Sim {
            world,
            number,
            text,
        })
    }

    /// Plays the last line, which has no line feed.
    fn end<W: Write>(self, alloc: Global, sink: &mut Sink<W>) -> Result<(), SimFault>
        requires sink { sink.old.has_failed ≡ false }
        ensures closed { (output : List ℕ)
            × Appends (W.contents sink.old.writer) (W.contents sink.new.writer) output
            × Closes self result output }
        ensures write { (result ≡ Err SimFault.Write) ↔ (sink.new.has_failed ≡ true) }
    {
        play_line(alloc, self.world, self.number, self.text.as_slice(), sink)?;
        Ok(())
    }
}

/// Plays a whole line and writes its output.
fn play_line<W: Write>(
    alloc: Global,
    world: World,
    number: u32,
    text: &[u8],
    sink: &mut Sink<W>,
) -> Result<World, SimFault>
    requires sink { sink.old.has_failed ≡ false }
    ensures played { (output : List ℕ)
        × Appends (W.contents sink.old.writer) (W.contents sink.new.writer) output
        × PlaysLine number world.world text.now result output }
    ensures write { (result ≡ Err SimFault.Write) ↔ (sink.new.has_failed ≡ true) }
{
    let line = match read_line(alloc, text) {
        Ok(line) => line,
        Err(ParseFault::Form) => return Err(SimFault::Line(number)),
        Err(ParseFault::Memory) => return Err(SimFault::Memory),
    };
    let mut out = Vec::new(alloc);
    let world = play(alloc, world, line, &mut out)?;
    sink.write(out.as_slice())?;
    Ok(world)
}

/// Plays a script: reads its lines and writes each reply at once. Ends at the end of the script, at
/// the first syntax error or at the first fault.
pub fn sim_run<R: Read, W: Write>(
    alloc: Global,
    source: &mut Source<R>,
    sink: &mut Sink<W>,
) -> Result<(), SimFault>
    requires source { source.old.has_failed ≡ false }
    requires reads { source.old.reads ≡ 0 }
    requires sink { sink.old.has_failed ≡ false }

    // The output is exactly the text of the replies to the lines read.
    ensures runs { Runs (R.remaining source.old.reader) (R.remaining source.new.reader)
        (W.contents sink.old.writer) (W.contents sink.new.writer) result }
    ensures end { OnOk result (IsAtEnd (R.remaining source.new.reader)) }

    // `Read` and `Write` are returned exactly if the source or the sink recorded a failure.
    ensures read { (result ≡ Err SimFault.Read) ↔ (source.new.has_failed ≡ true) }
    ensures write { (result ≡ Err SimFault.Write) ↔ (sink.new.has_failed ≡ true) }
    ensures limit { result ≡ Err SimFault.TooManyReads → source.new.reads ≡ READ_LIMIT }
{
    let mut sim = Sim::new(alloc);
    let mut buffer = [0; PIECE_LEN];
    // The prover needs a bounded loop, so this loop counts the reads too.
    for _reads in 0..READ_LIMIT {
        let n = source.read(&mut buffer)?;
        if n == 0 {
            return sim.end(alloc, sink);
        }
        sim = sim.take_piece(alloc, &buffer[..n], sink)?;
    }
    Err(SimFault::TooManyReads)
}
