//! Frames that come into a process. A link that is refused memory ends, and the test reads another in its place.

use crate::tests::same;
use std::alloc::Global;
use std::io::Read;
use std::process::Abort;
use test_support::devices::SlowReader;
use wl_frames::{Frame, FrameFault};
use wl_process::{Incoming, ProcessFault};

/// Hello of generation 1, and a length that no frame has.
static INPUT: [u8; 14] = [0, 0, 0, 6, 1, 16, 0, 0, 0, 1, 0, 0, 0, 1];

/// Length of the hello in bytes.
const HELLO: usize = 10;

/// Limit of reads, more than any of these links has.
const READS: usize = 64;

/// Count of hellos of a link, and its end.
#[derive(Clone, Copy)]
struct Came {
    hellos: usize,
    /// Fault that ended the link, or None at the end of its input.
    fault: Option<ProcessFault>,
}

fn hellos_in(frames: Vec<Frame>) -> usize {
    let mut hellos: usize = 0;
    for frame in frames {
        if let Frame::Hello(hello) = &frame {
            if hello.generation == 1 {
                hellos = hellos.saturating_add(1);
            }
        }
        drop(frame);
    }
    hellos
}

/// Reads a link to its end or its first fault.
fn read_all<S: Read>(incoming: &mut Incoming<S>) -> Came {
    let mut hellos: usize = 0;
    for _reads in 0..READS {
        match incoming.next() {
            Ok(Some(frames)) => hellos = hellos.saturating_add(hellos_in(frames)),
            Ok(None) => {
                return Came {
                    hellos,
                    fault: None,
                };
            }
            Err(fault) => {
                return Came {
                    hellos,
                    fault: Some(fault),
                };
            }
        }
    }
    Came {
        hellos,
        fault: Some(ProcessFault::TooManyReads),
    }
}

/// Reads an input to its end, and asserts that the link tells its end again when it is read again.
fn read_through(rt: &impl Abort, alloc: Global, input: &[u8], reads: usize) -> Came {
    let mut incoming = Incoming::new(alloc, SlowReader::new(input, reads));
    let came = read_all(&mut incoming);
    let again = read_all(&mut incoming);
    same(rt, again.hellos, 0);
    same(rt, again.fault, came.fault);
    came
}

/// Asserts that an input gives the hello, and then this end.
fn gives_a_hello(
    rt: &impl Abort,
    alloc: Global,
    input: &[u8],
    reads: usize,
    fault: Option<ProcessFault>,
) {
    let mut came = read_through(rt, alloc, input, reads);
    if came.fault == Some(ProcessFault::Memory) {
        came = read_through(rt, alloc, input, reads);
    }
    same(rt, came.hellos, 1);
    same(rt, came.fault, fault);
}

/// A link ends between two frames, within a frame, at a fault behind a frame, and with its reader.
#[test]
fn ends_of_a_link(rt: HostRuntime) {
    let alloc = rt.alloc();
    gives_a_hello(&rt, alloc, &INPUT[..HELLO], READS, None);
    let truncated = ProcessFault::Frame(FrameFault::Truncated);
    gives_a_hello(&rt, alloc, &INPUT[..HELLO + 3], READS, Some(truncated));
    let bad_length = ProcessFault::Frame(FrameFault::BadLength);
    gives_a_hello(&rt, alloc, &INPUT, READS, Some(bad_length));
    let read = ProcessFault::Read;
    gives_a_hello(&rt, alloc, &INPUT, HELLO + 1, Some(read));
}
