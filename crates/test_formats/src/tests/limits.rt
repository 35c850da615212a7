//! Limits of frames, each reached and exceeded by one. Each appended piece is tried again when memory is refused.

use super::{COMMAND, expect_fault, fails, pushed};
use std::alloc::{AllocError, Global};
use std::process::Abort;
use test_support::retry::{BACK, append, bytes};
use wl_frames::{Entry, Feed, Frame, FrameFault, Mode, ReportPart, Upward};

/// Returns a frame: the length, the front of its body, and the rest of it.
fn framed(alloc: Global, front: &[u8], rest: &[u8]) -> Result<Vec<u8>, AllocError> {
    let front_len = u32::try_from(front.len()).unwrap_or(u32::MAX);
    let rest_len = u32::try_from(rest.len()).unwrap_or(u32::MAX);
    let mut frame = Vec::new(alloc);
    append(
        &mut frame,
        &front_len.saturating_add(rest_len).to_be_bytes(),
    )?;
    append(&mut frame, front)?;
    append(&mut frame, rest)?;
    Ok(frame)
}

/// Returns a frame: the front of its body, and one byte `count` times.
fn filled(alloc: Global, front: &[u8], byte: u8, count: usize) -> Result<Vec<u8>, AllocError> {
    framed(alloc, front, bytes(alloc, byte, count)?.as_slice())
}

/// Kinds of lists in a frame.
#[derive(Clone, Copy)]
enum List {
    /// Report entries that hold the lock of the empty name.
    Entries,
    /// Tabs of partition 1.
    Tabs,
    /// Shared locks of tab 1, all of the empty name.
    Locks,
}

fn item(list: List, number: u16) -> [u8; 7] {
    let [high, low] = number.to_be_bytes();
    match list {
        List::Entries => [0, 0, high, low, 1, 1, 0],
        List::Tabs => [high, low, 0, 1, 0, 0, 0],
        List::Locks => [1, 0, 1, 1, 0, 0, 0],
    }
}

/// Returns how many bytes of `item` a list has for each item.
fn item_length(list: List) -> usize {
    match list {
        List::Entries => 7,
        List::Tabs => 4,
        List::Locks => 5,
    }
}

/// Returns a frame with a list of `count` items behind the front of its body.
fn listing(alloc: Global, front: &[u8], list: List, count: u16) -> Result<Vec<u8>, AllocError> {
    let mut rest = Vec::new(alloc);
    append(&mut rest, &count.to_be_bytes())?;
    for number in 1..=count {
        for byte in item(list, number).iter().take(item_length(list)) {
            append(&mut rest, &[*byte])?;
        }
    }
    framed(alloc, front, rest.as_slice())
}

/// Asserts that the first bytes are a frame, and that the others are none, since they have one item more.
fn expect_most(
    rt: &impl Abort,
    alloc: Global,
    most: Result<Vec<u8>, AllocError>,
    one_more: Result<Vec<u8>, AllocError>,
) {
    let (most, one_more) = (most.expect(rt, BACK), one_more.expect(rt, BACK));
    let mut feed = Feed::new(alloc);
    assert!(rt; pushed(rt, &mut feed, most.as_slice()).len() == 1);
    fails(rt, &mut feed, one_more.as_slice(), 0, FrameFault::BadField);
}

/// Asserts that a list has at most `most` items.
fn expect_list(rt: &impl Abort, alloc: Global, front: &[u8], list: List, most: u16) {
    let one_more = listing(alloc, front, list, most.saturating_add(1));
    expect_most(rt, alloc, listing(alloc, front, list, most), one_more);
}

#[test]
fn at_most_64_entries(rt: HostRuntime) {
    let report = b"\x01\x02\x00\x00\x00\x01\x00\x00\x00\x64";
    expect_list(&rt, rt.alloc(), report, List::Entries, 64);
    let part = b"\x02\x02\x00\x00\x00\x01\x00\x00\x00\x64\x00\x00\x00\x01";
    expect_list(&rt, rt.alloc(), part, List::Entries, 64);
}

#[test]
fn at_most_1024_listed_tabs(rt: HostRuntime) {
    let start = b"\x01\x21\x00\x00\x00\x01";
    expect_list(&rt, rt.alloc(), start, List::Tabs, 1_024);
}

#[test]
fn at_most_64_locks_of_a_snapshot(rt: HostRuntime) {
    let snapshot = b"\x01\x12\x00\x00\x00\x01\x00\x00\x00\x00\x00\x00\x00\x01";
    expect_list(&rt, rt.alloc(), snapshot, List::Locks, 64);
}

#[test]
fn at_most_16384_bytes_of_data(rt: HostRuntime) {
    let alloc = rt.alloc();
    let most = filled(alloc, b"\x01\x03\x00\x00\x00\x09\x01n\x40\x00", 7, 16_384);
    let one_more = filled(alloc, b"\x01\x03\x00\x00\x00\x09\x01n\x40\x01", 7, 16_385);
    expect_most(&rt, alloc, most, one_more);
}

#[test]
fn at_most_4096_bytes_of_an_origin(rt: HostRuntime) {
    let alloc = rt.alloc();
    let most = filled(alloc, b"\x01\x14\x00\x07\x10\x00", b'x', 4_096);
    let one_more = filled(alloc, b"\x01\x14\x00\x07\x10\x01", b'x', 4_097);
    expect_most(&rt, alloc, most, one_more);
}

/// The reader reads a body of 65,536 bytes to its end, and refuses one more byte by the length alone.
#[test]
fn at_most_65536_bytes_of_a_body(rt: HostRuntime) {
    let most = filled(rt.alloc(), &COMMAND[4..], 0, 65_521).expect(&rt, BACK);
    expect_fault(&rt, rt.alloc(), most.as_slice(), FrameFault::LeftOver);
    expect_fault(&rt, rt.alloc(), &[0, 1, 0, 1], FrameFault::BadLength);
}

/// Returns the longest frame: a stamped report part with the most entries, each with the longest name.
fn longest(alloc: Global) -> Result<Vec<u8>, AllocError> {
    let name = bytes(alloc, b'x', 255)?;
    let mut frame = Vec::new(alloc);
    append(&mut frame, b"\x00\x00\x41\x96\x01\x20\x00\x07\x00\x05")?;
    append(
        &mut frame,
        b"\x02\x02\x00\x00\x00\x01\x00\x00\x00\x40\x00\x03\x00\x10\x00\x40",
    )?;
    for number in 0..64 {
        append(&mut frame, &[0, 0, 0, number, 2, 1, 255])?;
        append(&mut frame, name.as_slice())?;
    }
    Ok(frame)
}

/// Returns whether a report part has 64 waiting requests, each for a lock with the longest name.
fn is_longest_part(part: &ReportPart) -> bool {
    let entries = part.entries.as_slice();
    part.base == 64
        && (part.part, part.parts) == (3, 16)
        && entries.len() == 64
        && (0_u32..)
            .zip(entries.iter())
            .all(|(number, entry)| is_long_entry(entry, number))
}

fn is_long_entry(entry: &Entry, number: u32) -> bool {
    let name = entry.name.as_str();
    entry.number == number
        && !entry.held
        && entry.mode == Mode::Shared
        && name.len() == 255
        && name.bytes().all(|letter| letter == b'x')
}

fn is_longest(frame: &Frame) -> bool {
    match frame {
        Frame::Stamped(stamped) => match &stamped.inner {
            Upward::ReportPart(part) => {
                (stamped.tab, stamped.partition) == (7, 5) && is_longest_part(part)
            }
            _ => false,
        },
        _ => false,
    }
}

/// Returns the number of frames in a piece. Panics if a frame is not the longest one.
fn count_longest(rt: &impl Abort, feed: &mut Feed, piece: &[u8]) -> usize {
    let frames = pushed(rt, feed, piece);
    assert!(rt; frames.iter().all(is_longest));
    frames.len()
}

/// The frame comes with its last piece, and none before.
#[test]
fn longest_frame_in_pieces(rt: HostRuntime) {
    let bytes = longest(rt.alloc()).expect(&rt, BACK);
    assert_eq!(&rt; bytes.len(), 16_794);
    let mut feed = Feed::new(rt.alloc());
    let mut left = bytes.len();
    for piece in bytes.chunks(7) {
        left = left.saturating_sub(piece.len());
        let count = count_longest(&rt, &mut feed, piece);
        assert_eq!(&rt; count, usize::from(left == 0));
    }
}
