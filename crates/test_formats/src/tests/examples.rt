//! Example of each frame kind, as bytes and as a value.

use super::{COMMAND, frames_of, is_command};
use std::alloc::Global;
use std::process::Abort;
use test_support::retry::{BACK, is_spelled};
use wl_frames::{
    Addressed, Answer, Command, Downward, Entry, Frame, Heard, Mode, Operation, Outcome,
    PairWelcome, Post, Report, ReportPart, Snapshot, SnapshotEntry, Stamped, Start, Upward,
    encode_into,
};

static EXAMPLES: [&[u8]; 18] = [
    &COMMAND,
    b"\x00\x00\x00\x0F\x01\x01\x00\x00\x00\x01\x00\x00\x00\x05\x02\x00\x00\x01\x02",
    b"\x00\x00\x00\x0F\x01\x01\x00\x00\x00\x01\x00\x00\x00\x05\x03\x00\x00\x00\x04",
    b"\x00\x00\x00\x0B\x01\x01\x00\x00\x00\x01\x00\x00\x00\x05\x04",
    b"\x00\x00\x00\x1B\x01\x02\x00\x00\x00\x02\x00\x00\x00\x01\x00\x02\
        \x00\x00\x00\x00\x01\x02\x01a\x00\x00\x00\x03\x02\x01\x00",
    b"\x00\x00\x00\x18\x02\x02\x00\x00\x00\x02\x00\x00\x00\x42\x00\x01\x00\x02\x00\x01\
        \x00\x00\x00\x41\x02\x02\x01a",
    b"\x00\x00\x00\x0C\x01\x03\x00\x00\x00\x09\x01-\x00\x02\xFFx",
    b"\x00\x00\x00\x06\x01\x10\x00\x00\x01\x02",
    b"\x00\x00\x00\x0F\x01\x11\x00\x00\x00\x01\x00\x00\x00\x03\x00\x00\x00\x02\x02",
    b"\x00\x00\x00\x1C\x01\x12\x00\x00\x00\x02\x00\x00\x00\x05\x00\x00\x00\x01\x00\x02\
        \x01\x00\x01\x02\x01f\x02\x00\x02\x01\x01f",
    b"\x00\x00\x00\x0D\x01\x13\x00\x02\x00\x00\x00\x04\x01n\x00\x01\x07",
    b"\x00\x00\x00\x14\x01\x14\x00\x07\x00\x0Ehttps://a.test",
    b"\x00\x00\x00\x24\x02\x14\x00\x07\x00\x0Ehttps://t.test\x00\x0Ehttps://a.test",
    b"\x00\x00\x00\x15\x01\x20\x00\x05\x00\x06\
        \x01\x01\x00\x00\x00\x01\x00\x00\x00\x05\x03\x00\x00\x00\x04",
    b"\x00\x00\x00\x16\x01\x20\x00\x01\x00\x01\
        \x02\x02\x00\x00\x00\x01\x00\x00\x00\x00\x00\x00\x00\x01\x00\x00",
    b"\x00\x00\x00\x10\x01\x21\x00\x00\x00\x07\x00\x02\x00\x01\x00\x09\x01\x2C\x00\x02",
    b"\x00\x00\x00\x0A\x01\x22\x00\x05\x01\x10\x00\x00\x01\x02",
    b"\x00\x00\x00\x04\x01\x23\x01\x00",
];

/// Returns whether a frame is the example of its kind.
fn is_example(frame: &Frame) -> bool {
    match frame {
        Frame::Command(command) => is_command(frame) || is_later_command(command),
        Frame::Report(report) => is_report(report),
        Frame::ReportPart(part) => is_last_part(part),
        Frame::Post(post) => is_post(post),
        Frame::Hello(hello) => hello.generation == 258,
        Frame::Answer(answer) => is_answer(answer),
        Frame::Snapshot(snapshot) => is_snapshot(snapshot),
        Frame::Heard(heard) => is_heard(heard),
        Frame::Welcome(welcome) => welcome.tab == 7 && welcome.origin.as_str() == "https://a.test",
        Frame::PairWelcome(welcome) => is_pair_welcome(welcome),
        Frame::Stamped(stamped) => is_stamped(stamped),
        Frame::Start(start) => is_start(start),
        Frame::Addressed(addressed) => is_addressed(addressed),
        Frame::Dead(dead) => dead.tab == 256,
    }
}

fn is_later_command(command: &Command) -> bool {
    command.generation == 1 && command.number == 5 && is_later_operation(&command.operation)
}

fn is_later_operation(operation: &Operation) -> bool {
    match operation {
        Operation::Request { .. } => false,
        Operation::Release { number } => *number == 258,
        Operation::Abort { number } => *number == 4,
        Operation::Query => true,
    }
}

fn is_report(report: &Report) -> bool {
    let [first, second] = report.entries.as_slice() else {
        return false;
    };
    report.generation == 2
        && report.base == 1
        && is_entry(first, 0, true, Mode::Exclusive, "a")
        && is_entry(second, 3, false, Mode::Shared, "")
}

/// Returns whether this is the second and last part of a report, with one entry.
fn is_last_part(report: &ReportPart) -> bool {
    let [entry] = report.entries.as_slice() else {
        return false;
    };
    report.generation == 2
        && report.base == 66
        && report.part == 1
        && report.parts == 2
        && is_entry(entry, 65, false, Mode::Exclusive, "a")
}

/// Returns whether this is the only part of a report without entries.
fn is_only_part(report: &ReportPart) -> bool {
    report.generation == 1
        && report.base == 0
        && report.part == 0
        && report.parts == 1
        && report.entries.as_slice().is_empty()
}

fn is_entry(entry: &Entry, number: u32, held: bool, mode: Mode, name: &str) -> bool {
    entry.number == number
        && entry.held == held
        && entry.mode == mode
        && entry.name.as_str() == name
}

fn is_post(post: &Post) -> bool {
    post.number == 9 && post.channel.as_str() == "-" && post.bytes.as_slice() == b"\xFFx".as_slice()
}

fn is_answer(answer: &Answer) -> bool {
    answer.generation == 1
        && answer.upto == 3
        && answer.number == 2
        && answer.outcome == Outcome::Granted
}

fn is_snapshot(snapshot: &Snapshot) -> bool {
    let [first, second] = snapshot.entries.as_slice() else {
        return false;
    };
    snapshot.generation == 2
        && snapshot.number == 5
        && snapshot.part == 0
        && snapshot.parts == 1
        && is_lock(first, true, 1, Mode::Exclusive)
        && is_lock(second, false, 2, Mode::Shared)
}

fn is_lock(entry: &SnapshotEntry, held: bool, tab: u16, mode: Mode) -> bool {
    entry.held == held && entry.tab == tab && entry.mode == mode && entry.name.as_str() == "f"
}

fn is_heard(heard: &Heard) -> bool {
    heard.source == 2
        && heard.number == 4
        && heard.channel.as_str() == "n"
        && heard.bytes.as_slice() == b"\x07".as_slice()
}

fn is_pair_welcome(welcome: &PairWelcome) -> bool {
    welcome.tab == 7
        && welcome.top.as_str() == "https://t.test"
        && welcome.own.as_str() == "https://a.test"
}

fn is_stamped(stamped: &Stamped) -> bool {
    match &stamped.inner {
        Upward::Command(command) => {
            stamped.tab == 5 && stamped.partition == 6 && is_later_command(command)
        }
        Upward::Report(_) => false,
        Upward::ReportPart(part) => {
            stamped.tab == 1 && stamped.partition == 1 && is_only_part(part)
        }
    }
}

fn is_start(start: &Start) -> bool {
    start.generation == 7 && start.list.as_slice() == [(1, 9), (300, 2)].as_slice()
}

fn is_addressed(addressed: &Addressed) -> bool {
    match &addressed.inner {
        Downward::Hello(hello) => addressed.tab == 5 && hello.generation == 258,
        _ => false,
    }
}

fn copy_of(rt: &impl Abort, frame: &Frame) -> Frame {
    match frame.copy() {
        Ok(copy) => copy,
        Err(_) => frame.copy().expect(rt, BACK),
    }
}

/// Returns whether a copy of the frame has these bytes.
fn is_copy_spelled(rt: &impl Abort, alloc: Global, frame: &Frame, bytes: &[u8]) -> bool {
    let copy = copy_of(rt, frame);
    let is_copy_spelled = is_spelled(alloc, &copy, bytes);
    drop(copy);
    is_copy_spelled
}

/// Asserts that the bytes are one frame, the example of its kind, and that it and a copy of it have these bytes.
fn expect_example(rt: &impl Abort, alloc: Global, bytes: &[u8]) {
    let frames = frames_of(rt, alloc, bytes);
    assert_eq!(rt; frames.len(), 1);
    for frame in &frames {
        assert!(rt; is_example(frame), "{bytes:?}");
        assert!(rt; is_spelled(alloc, frame, bytes), "{bytes:?}");
        assert!(rt; is_copy_spelled(rt, alloc, frame, bytes), "{bytes:?}");
    }
}

#[test]
fn frames_of_each_kind(rt: HostRuntime) {
    for bytes in EXAMPLES.iter() {
        expect_example(&rt, rt.alloc(), bytes);
    }
}

/// Appends an encoding, again if memory is refused: the bytes are unchanged then.
fn append(rt: &impl Abort, bytes: &mut Vec<u8>, frame: &Frame) {
    assert!(rt; frame.is_well_formed());
    let before = bytes.len();
    if encode_into(bytes, frame).is_err() {
        assert_eq!(rt; bytes.len(), before);
        encode_into(bytes, frame).expect(rt, BACK);
    }
}

fn append_all(rt: &impl Abort, bytes: &mut Vec<u8>, frames: &[Frame]) {
    for frame in frames {
        append(rt, bytes, frame);
    }
}

/// Asserts that the bytes are the first `count` examples.
fn expect_examples(rt: &impl Abort, bytes: &[u8], count: usize) {
    let mut rest = bytes;
    for example in EXAMPLES.iter().take(count) {
        rest = rest.strip_prefix(*example).expect(rt, "the next example");
    }
    assert!(rt; rest.is_empty());
}

#[test]
fn frames_behind_each_other(rt: HostRuntime) {
    let mut bytes = Vec::new(rt.alloc());
    for (place, example) in EXAMPLES.iter().enumerate() {
        append_all(
            &rt,
            &mut bytes,
            frames_of(&rt, rt.alloc(), example).as_slice(),
        );
        expect_examples(&rt, bytes.as_slice(), place.saturating_add(1));
    }
}
