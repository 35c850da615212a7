//! Streams in pieces, and the faults of streams that no frames spell.

use super::{COMMAND, expect_fault, fails, gives};
use wl_frames::{Feed, FrameFault};

#[test]
fn one_command_frame(rt: HostRuntime) {
    let mut feed = Feed::new(rt.alloc());
    gives(&rt, &mut feed, &COMMAND, 1);
    for (i, byte) in COMMAND.iter().enumerate() {
        let count = if i == 18 { 1 } else { 0 };
        gives(&rt, &mut feed, &[*byte], count);
    }
    // Two frames and a part of the third, then its rest.
    let mut piece = [0; 42];
    piece[..19].copy_from_slice(&COMMAND);
    piece[19..38].copy_from_slice(&COMMAND);
    piece[38..].copy_from_slice(&COMMAND[..4]);
    gives(&rt, &mut feed, &piece, 2);
    gives(&rt, &mut feed, &COMMAND[4..], 1);
    assert_eq!(rt; feed.end(), Ok(()));
}

static FAULTS: [(&[u8], FrameFault); 27] = [
    (b"\x00\x00\x00\x00", FrameFault::BadLength),
    (b"\x00\x00\x00\x01", FrameFault::BadLength),
    (b"\x00\x01\x00\x01", FrameFault::BadLength),
    // Version 3, kind 99, and kinds of version 2 other than 2 and 20.
    (b"\x00\x00\x00\x02\x03\x01", FrameFault::BadVersion),
    (b"\x00\x00\x00\x02\x01\x63", FrameFault::BadKind),
    (b"\x00\x00\x00\x02\x02\x01", FrameFault::BadKind),
    (
        b"\x00\x00\x00\x06\x02\x10\x00\x00\x00\x01",
        FrameFault::BadKind,
    ),
    (b"\x00\x00\x00\x02\x01\x01", FrameFault::BadField),
    // The command with another flag, and with one more byte.
    (
        b"\x00\x00\x00\x0F\x01\x01\x00\x00\x00\x01\x00\x00\x00\x00\x01\x02\x02\x01a",
        FrameFault::BadField,
    ),
    (
        b"\x00\x00\x00\x10\x01\x01\x00\x00\x00\x01\x00\x00\x00\x00\x01\x02\x00\x01a\x00",
        FrameFault::LeftOver,
    ),
    // A lock name that begins with a dash, and one that is not UTF-8.
    (
        b"\x00\x00\x00\x0F\x01\x01\x00\x00\x00\x01\x00\x00\x00\x00\x01\x02\x00\x01-",
        FrameFault::BadField,
    ),
    (
        b"\x00\x00\x00\x0F\x01\x01\x00\x00\x00\x01\x00\x00\x00\x00\x01\x02\x00\x01\xFF",
        FrameFault::BadField,
    ),
    // Generation 0, and tab 0.
    (
        b"\x00\x00\x00\x06\x01\x10\x00\x00\x00\x00",
        FrameFault::BadField,
    ),
    (b"\x00\x00\x00\x04\x01\x23\x00\x00", FrameFault::BadField),
    // Entries out of order, and one number twice.
    (
        b"\x00\x00\x00\x1A\x01\x02\x00\x00\x00\x01\x00\x00\x00\x05\x00\x02\
            \x00\x00\x00\x03\x01\x01\x00\x00\x00\x00\x02\x01\x01\x00",
        FrameFault::BadField,
    ),
    (
        b"\x00\x00\x00\x1A\x01\x02\x00\x00\x00\x01\x00\x00\x00\x05\x00\x02\
            \x00\x00\x00\x03\x01\x01\x00\x00\x00\x00\x03\x01\x01\x00",
        FrameFault::BadField,
    ),
    // A tab listed twice, and partition 0.
    (
        b"\x00\x00\x00\x10\x01\x21\x00\x00\x00\x07\x00\x02\x00\x02\x00\x01\x00\x02\x00\x01",
        FrameFault::BadField,
    ),
    (
        b"\x00\x00\x00\x0C\x01\x21\x00\x00\x00\x07\x00\x01\x00\x02\x00\x00",
        FrameFault::BadField,
    ),
    // Part 1 of 1.
    (
        b"\x00\x00\x00\x10\x01\x12\x00\x00\x00\x01\x00\x00\x00\x01\x00\x01\x00\x01\x00\x00",
        FrameFault::BadField,
    ),
    // Part 0 of no parts, and part 0 of 17.
    (
        b"\x00\x00\x00\x16\x01\x20\x00\x01\x00\x01\
            \x02\x02\x00\x00\x00\x01\x00\x00\x00\x00\x00\x00\x00\x00\x00\x00",
        FrameFault::BadField,
    ),
    (
        b"\x00\x00\x00\x16\x01\x20\x00\x01\x00\x01\
            \x02\x02\x00\x00\x00\x01\x00\x00\x00\x00\x00\x00\x00\x11\x00\x00",
        FrameFault::BadField,
    ),
    // A missing second origin, and two empty origins with one more byte.
    (
        b"\x00\x00\x00\x06\x02\x14\x00\x07\x00\x00",
        FrameFault::BadField,
    ),
    (
        b"\x00\x00\x00\x09\x02\x14\x00\x07\x00\x00\x00\x00\x00",
        FrameFault::LeftOver,
    ),
    // Inner bodies of another kind, of another kind of version 2, of another version, and with one more byte.
    (
        b"\x00\x00\x00\x0C\x01\x20\x00\x02\x00\x03\x01\x10\x00\x00\x00\x01",
        FrameFault::BadField,
    ),
    (
        b"\x00\x00\x00\x0E\x01\x20\x00\x01\x00\x01\x02\x14\x00\x07\x00\x00\x00\x00",
        FrameFault::BadField,
    ),
    (
        b"\x00\x00\x00\x0A\x01\x22\x00\x01\x02\x10\x00\x00\x00\x01",
        FrameFault::BadField,
    ),
    (
        b"\x00\x00\x00\x0B\x01\x22\x00\x01\x01\x10\x00\x00\x00\x01\x00",
        FrameFault::BadField,
    ),
];

#[test]
fn feed_faults(rt: HostRuntime) {
    for (bytes, fault) in FAULTS.iter() {
        expect_fault(&rt, rt.alloc(), bytes, *fault);
    }
}

#[test]
fn frames_before_a_fault(rt: HostRuntime) {
    let mut piece = [0; 23];
    piece[..19].copy_from_slice(&COMMAND);
    piece[22] = 1;
    let mut feed = Feed::new(rt.alloc());
    fails(&rt, &mut feed, &piece, 1, FrameFault::BadLength);
    fails(&rt, &mut feed, &COMMAND, 0, FrameFault::Failed);
    assert_eq!(rt; feed.end(), Err(FrameFault::Failed));
}

#[test]
fn feed_ends(rt: HostRuntime) {
    let feed = Feed::new(rt.alloc());
    assert_eq!(rt; feed.end(), Ok(()));
    let mut feed = Feed::new(rt.alloc());
    gives(&rt, &mut feed, &COMMAND[..18], 0);
    assert_eq!(rt; feed.end(), Err(FrameFault::Truncated));
}
