//! Calls of the frame reader that the tests of frames share. A call that is refused memory is made again, and must then give its
//! answer.

mod examples;
mod forms;
mod limits;
mod process_lines;
mod streams;
mod words;

use std::alloc::Global;
use std::process::Abort;
use wl_frames::{Command, Feed, Frame, FrameFault, Mode, Operation, PushFault};

/// Command 0 of generation 1: an exclusive request for lock `a`.
const COMMAND: [u8; 19] = [0, 0, 0, 15, 1, 1, 0, 0, 0, 1, 0, 0, 0, 0, 1, 2, 0, 1, b'a'];

fn is_first_operation(operation: &Operation) -> bool {
    match operation {
        Operation::Request {
            mode,
            if_available,
            name,
        } => *mode == Mode::Exclusive && !*if_available && name.as_str() == "a",
        _ => false,
    }
}

fn is_first_command(command: &Command) -> bool {
    command.generation == 1 && command.number == 0 && is_first_operation(&command.operation)
}

/// Returns whether a frame is `COMMAND`.
fn is_command(frame: &Frame) -> bool {
    match frame {
        Frame::Command(command) => is_first_command(command),
        _ => false,
    }
}

/// Pushes a piece, again if memory is refused: the reader has taken nothing then.
fn push(rt: &impl Abort, feed: &mut Feed, piece: &[u8]) -> Result<Vec<Frame>, PushFault> {
    match feed.push(piece) {
        Err(
            PushFault {
                before,
                fault: FrameFault::Memory,
            },
        ) => {
            assert!(rt; before.is_empty());
            feed.push(piece)
        }
        answered => answered,
    }
}

/// Returns the frames of a piece without a fault.
fn pushed(rt: &impl Abort, feed: &mut Feed, piece: &[u8]) -> Vec<Frame> {
    match push(rt, feed, piece) {
        Ok(frames) => frames,
        Err(refused) => panic!(rt; "{} at {piece:?}", refused.fault),
    }
}

/// Returns the frames of bytes without a fault.
fn frames_of(rt: &impl Abort, alloc: Global, bytes: &[u8]) -> Vec<Frame> {
    pushed(rt, &mut Feed::new(alloc), bytes)
}

/// Asserts that all frames are `COMMAND`, and how many there are.
fn expect_commands(rt: &impl Abort, frames: &[Frame], count: usize) {
    assert_eq!(rt; frames.len(), count);
    assert!(rt; frames.iter().all(is_command));
}

/// Asserts that a piece gives `COMMAND` `count` times and no fault.
fn gives(rt: &impl Abort, feed: &mut Feed, piece: &[u8], count: usize) {
    expect_commands(rt, &pushed(rt, feed, piece), count);
}

/// Asserts that a piece gives `COMMAND` `count` times and then the fault.
fn fails(rt: &impl Abort, feed: &mut Feed, piece: &[u8], count: usize, fault: FrameFault) {
    match push(rt, feed, piece) {
        Ok(_) => panic!(rt; "no {fault} at {piece:?}"),
        Err(refused) => {
            expect_fault_is(rt, refused.fault, fault);
            expect_commands(rt, &refused.before, count);
        }
    }
}

fn expect_fault_is(rt: &impl Abort, fault: FrameFault, expected: FrameFault) {
    assert_eq!(rt; fault, expected);
}

/// Asserts that the fault comes at the last byte, and that the reader reads no later piece.
fn expect_fault(rt: &impl Abort, alloc: Global, bytes: &[u8], fault: FrameFault) {
    let [front @ .., last] = bytes else {
        panic!(rt; "no bytes");
    };
    let mut feed = Feed::new(alloc);
    gives(rt, &mut feed, front, 0);
    fails(rt, &mut feed, &[*last], 0, fault);
    fails(rt, &mut feed, &COMMAND, 0, FrameFault::Failed);
    fails(rt, &mut feed, &[], 0, FrameFault::Failed);
    assert_eq!(rt; feed.end(), Err(FrameFault::Failed));
}
