//! Frames that a process gathers for one write.

use crate::tests::same;
use std::alloc::Global;
use std::process::Abort;
use test_support::retry::BACK;
use wl_frames::{Answer, Frame, Hello, Outcome};
use wl_process::append;

/// Bytes of a hello and of the grant of a lock.
static GATHERED: [u8; 29] = [
    0, 0, 0, 6, 1, 16, 0, 0, 0, 1, 0, 0, 0, 15, 1, 17, 0, 0, 0, 1, 0, 0, 0, 1, 0, 0, 0, 0, 2,
];

/// Appends a frame, again if memory is refused: the bytes are unchanged then.
fn gather(rt: &impl Abort, bytes: &mut Vec<u8>, frame: Frame) {
    let len = bytes.len();
    if append(bytes, &frame).is_err() {
        same(rt, bytes.len(), len);
        append(bytes, &frame).expect(rt, BACK);
    }
    drop(frame);
}

#[test]
fn frames_are_gathered(rt: HostRuntime) {
    let alloc = rt.alloc();
    let mut bytes = Vec::new(alloc);
    let hello = Hello { generation: 1 };
    gather(&rt, &mut bytes, Frame::Hello(hello));
    let granted = Answer {
        generation: 1,
        upto: 1,
        number: 0,
        outcome: Outcome::Granted,
    };
    gather(&rt, &mut bytes, Frame::Answer(granted));
    // No frame has generation 0, so nothing is appended.
    let hello = Hello { generation: 0 };
    gather(&rt, &mut bytes, Frame::Hello(hello));
    same(&rt, bytes.as_slice(), GATHERED.as_slice());
}
