//! Conversations with many locks, many requests and many frames, written by the tables of the protocol.

use crate::tests::broker::answers;
use crate::tests::desk::expect;
use std::alloc::{AllocError, Global};
use std::process::Abort;
use test_support::retry::{BACK, append, bytes};

/// Conversation with the desk. Each lock has the same name of 255 bytes, and partition and generation are 1.
#[derive(Drop)]
struct Talk {
    input: Vec<u8>,
    output: Vec<u8>,
    name: Vec<u8>,
}

const SHARED: u8 = 1;

const EXCLUSIVE: u8 = 2;

const WAITING: u8 = 1;

const GRANTED: u8 = 2;

const TAKEN: u8 = 4;

impl Talk {
    /// Begins with the start of a broker without tabs.
    fn new(alloc: Global) -> Result<Talk, AllocError> {
        let mut input = Vec::new(alloc);
        append(
            &mut input,
            b"\x00\x00\x00\x08\x01\x21\x00\x00\x00\x01\x00\x00",
        )?;
        Ok(Talk {
            input,
            output: Vec::new(alloc),
            name: bytes(alloc, b'x', 255)?,
        })
    }

    /// Adds the head of a stamped frame: its length, the stamp, and the kind of its body.
    fn stamp(&mut self, length: u32, tab: u16, kind: u8) -> Result<(), AllocError> {
        append(&mut self.input, &length.to_be_bytes())?;
        append(&mut self.input, b"\x01\x20")?;
        append(&mut self.input, &tab.to_be_bytes())?;
        append(&mut self.input, &[0, 1, 1, kind, 0, 0, 0, 1])
    }

    fn joins(&mut self, tab: u16) -> Result<(), AllocError> {
        self.stamp(18, tab, 2)?;
        append(&mut self.input, &[0; 6])
    }

    fn answer(&mut self, tab: u16, upto: u32, number: u32, outcome: u8) -> Result<(), AllocError> {
        append(&mut self.output, b"\x00\x00\x00\x13\x01\x22")?;
        append(&mut self.output, &tab.to_be_bytes())?;
        append(&mut self.output, b"\x01\x11\x00\x00\x00\x01")?;
        append(&mut self.output, &upto.to_be_bytes())?;
        append(&mut self.output, &number.to_be_bytes())?;
        append(&mut self.output, &[outcome])
    }

    /// Adds a request and its answer.
    fn requests(&mut self, tab: u16, number: u32, mode: u8, outcome: u8) -> Result<(), AllocError> {
        self.stamp(275, tab, 1)?;
        append(&mut self.input, &number.to_be_bytes())?;
        append(&mut self.input, &[1, mode, 0, 255])?;
        append(&mut self.input, self.name.as_slice())?;
        self.answer(tab, number.saturating_add(1), number, outcome)
    }

    /// Adds the release of the lock with the number before, and its answer.
    fn releases(&mut self, tab: u16, number: u32) -> Result<(), AllocError> {
        self.stamp(21, tab, 1)?;
        append(&mut self.input, &number.to_be_bytes())?;
        append(&mut self.input, &[2])?;
        append(&mut self.input, &number.saturating_sub(1).to_be_bytes())?;
        self.answer(tab, number.saturating_add(1), number, TAKEN)
    }

    /// Adds a query of tab 1.
    fn queries(&mut self, number: u32) -> Result<(), AllocError> {
        self.stamp(17, 1, 1)?;
        append(&mut self.input, &number.to_be_bytes())?;
        append(&mut self.input, &[4])
    }

    /// Adds one of 64 parts of a snapshot for tab 1: the 64 shared locks of a tab.
    fn part(&mut self, number: u32, part: u16, holder: u16) -> Result<(), AllocError> {
        append(&mut self.output, b"\x00\x00\x41\x14\x01\x22\x00\x01")?;
        append(&mut self.output, b"\x01\x12\x00\x00\x00\x01")?;
        append(&mut self.output, &number.to_be_bytes())?;
        append(&mut self.output, &part.to_be_bytes())?;
        append(&mut self.output, b"\x00\x40\x00\x40")?;
        for _lock in 0..64 {
            append(&mut self.output, b"\x01")?;
            append(&mut self.output, &holder.to_be_bytes())?;
            append(&mut self.output, b"\x01\xFF")?;
            append(&mut self.output, self.name.as_slice())?;
        }
        Ok(())
    }
}

/// 64 tabs hold 64 locks each, and one of them asks for a snapshot, of more than a million bytes.
fn many_locks(alloc: Global) -> Result<Talk, AllocError> {
    let mut talk = Talk::new(alloc)?;
    for tab in 1..=64 {
        talk.joins(tab)?;
        for number in 0..64 {
            talk.requests(tab, number, SHARED, GRANTED)?;
        }
    }
    talk.queries(64)?;
    for part in 0..64 {
        talk.part(64, part, part + 1)?;
    }
    Ok(talk)
}

/// 2,016 requests of 63 tabs wait for the lock of a tab, and its release grants them all.
fn many_requests(alloc: Global) -> Result<Talk, AllocError> {
    let mut talk = Talk::new(alloc)?;
    talk.joins(1)?;
    talk.requests(1, 0, EXCLUSIVE, GRANTED)?;
    for tab in 2..=64 {
        talk.joins(tab)?;
        for number in 0..32 {
            talk.requests(tab, number, SHARED, WAITING)?;
        }
    }
    talk.releases(1, 1)?;
    for tab in 2..=64 {
        for number in 0..32 {
            talk.answer(tab, 32, number, GRANTED)?;
        }
    }
    Ok(talk)
}

/// A tab takes a lock and releases it 14,000 times: more than a thousand pieces of 4,096 bytes.
fn many_frames(alloc: Global) -> Result<Talk, AllocError> {
    let mut talk = Talk::new(alloc)?;
    talk.joins(1)?;
    for turn in 0..14_000 {
        talk.requests(1, 2 * turn, EXCLUSIVE, GRANTED)?;
        talk.releases(1, 2 * turn + 1)?;
    }
    Ok(talk)
}

/// Plays a conversation through the desk.
fn expect_talk(rt: &impl Abort, alloc: Global, made: Result<Talk, AllocError>, name: &str) {
    let talk = made.expect(rt, BACK);
    let (input, output) = (talk.input.as_slice(), talk.output.as_slice());
    expect(rt, alloc, input, Ok(()), output, name);
}

#[test]
fn desk_tells_4096_locks(rt: HostRuntime) {
    let alloc = rt.alloc();
    expect_talk(&rt, alloc, many_locks(alloc), "many locks");
}

#[test]
fn desk_grants_2016_requests(rt: HostRuntime) {
    let alloc = rt.alloc();
    expect_talk(&rt, alloc, many_requests(alloc), "many requests");
}

#[test]
fn desk_reads_1000_pieces(rt: HostRuntime) {
    let alloc = rt.alloc();
    expect_talk(&rt, alloc, many_frames(alloc), "many frames");
}

#[test]
fn broker_grants_2016_requests(rt: HostRuntime) {
    let alloc = rt.alloc();
    let talk = many_requests(alloc).expect(&rt, BACK);
    answers(
        &rt,
        alloc,
        talk.input.as_slice(),
        talk.output.as_slice(),
        "many requests",
    );
}
