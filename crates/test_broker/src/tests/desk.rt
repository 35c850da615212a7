//! Rows through the desk, and its faults. A run that is refused memory has written a prefix of its output, and is made again.

use crate::tests::rows::{FIRST_GRANT, Row};
use crate::tests::{rows, same};
use std::alloc::{AllocError, Global};
use std::io::Read;
use std::process::Abort;
use test_support::devices::{SlowReader, SlowWriter};
use test_support::retry::{BACK, append};
use wl_frames::FrameFault;
use wl_workers::{DeskFault, Sink, Source, desk_run};

/// Returns the value of a hexadecimal digit.
fn digit_of(byte: u8) -> Option<u8> {
    match byte {
        b'0'..=b'9' => Some(byte - b'0'),
        b'A'..=b'F' => Some(byte - b'A' + 10),
        _ => None,
    }
}

/// Appends the byte of two digits, or keeps the first of them.
fn spell(bytes: &mut Vec<u8>, high: &mut Option<u8>, digit: u8) -> Result<(), AllocError> {
    match high.take() {
        None => *high = Some(digit),
        Some(first) => bytes.push((first << 4) | digit)?,
    }
    Ok(())
}

/// Returns the bytes of the hexadecimal digits in these lines.
pub fn bytes_of(alloc: Global, lines: &[&str]) -> Result<Vec<u8>, AllocError> {
    let mut bytes = Vec::new(alloc);
    let mut high = None;
    for line in lines {
        for byte in line.bytes() {
            if let Some(digit) = digit_of(byte) {
                spell(&mut bytes, &mut high, digit)?;
            }
        }
    }
    Ok(bytes)
}

/// Returns the bytes of these lines, tried again if memory is refused.
pub fn bytes(rt: &impl Abort, alloc: Global, lines: &[&str]) -> Vec<u8> {
    match bytes_of(alloc, lines) {
        Ok(bytes) => bytes,
        Err(_) => bytes_of(alloc, lines).expect(rt, BACK),
    }
}

/// Runs the desk over a reader.
fn run<S: Read + Drop>(alloc: Global, reader: S, written: &mut Vec<u8>) -> Result<(), DeskFault> {
    let mut source = Source::new(reader);
    let mut sink = Sink::new(written);
    desk_run(alloc, &mut source, &mut sink)
}

/// Runs the desk, and compares its end and its output.
pub fn expect<S: Read + Copy + Drop>(
    rt: &impl Abort,
    alloc: Global,
    reader: S,
    end: Result<(), DeskFault>,
    output: &[u8],
    name: &str,
) {
    let mut written = match Vec::with_capacity(alloc, output.len()) {
        Ok(written) => written,
        Err(_) => Vec::with_capacity(alloc, output.len()).expect(rt, BACK),
    };
    let mut ended = run(alloc, reader, &mut written);
    if ended == Err(DeskFault::Memory) {
        assert!(rt; output.starts_with(written.as_slice()), "{name}");
        written.clear();
        ended = run(alloc, reader, &mut written);
    }
    are_as(rt, (ended, written.as_slice()), (end, output), name);
}

/// Compares the end and the output of a run.
fn are_as(
    rt: &impl Abort,
    found: (Result<(), DeskFault>, &[u8]),
    wanted: (Result<(), DeskFault>, &[u8]),
    name: &str,
) {
    assert_eq!(rt; found.0, wanted.0, "of {name}");
    assert_eq!(rt; found.1, wanted.1, "of {name}");
}

fn expect_row(rt: &impl Abort, alloc: Global, row: &Row) {
    let input = bytes(rt, alloc, &[row.input]);
    let output = bytes(rt, alloc, &[row.output]);
    let (input, output) = (input.as_slice(), output.as_slice());
    expect(rt, alloc, input, Ok(()), output, row.name);
}

fn expect_rows(rt: &impl Abort, alloc: Global, rows: &[&Row]) {
    for row in rows {
        expect_row(rt, alloc, row);
    }
}

#[test]
fn rows_of_grants(rt: HostRuntime) {
    let rows = [
        &rows::FIRST_GRANT,
        &rows::REPORT_IN_ONE_PART,
        &rows::HANDOVER,
        &rows::SHARED_THEN_EXCLUSIVE,
        &rows::PROBE_BEHIND_QUEUE,
        &rows::ABORT_UNBLOCKS,
        &rows::RELEASE_HANDS_OVER,
    ];
    expect_rows(&rt, rt.alloc(), &rows);
}

#[test]
fn rows_of_turns(rt: HostRuntime) {
    let rows = [
        &rows::LATE_GRANT_AFTER_ABORT,
        &rows::REPEATED_REQUEST,
        &rows::OUT_OF_TURN,
        &rows::COMMANDS,
        &rows::REFUSALS,
    ];
    expect_rows(&rt, rt.alloc(), &rows);
}

#[test]
fn rows_of_restarts(rt: HostRuntime) {
    let rows = [
        &rows::RESTART_WHILE_ASKED,
        &rows::RESTART_WHILE_HELD,
        &rows::OTHER_ORIGIN_UNBLOCKED,
        &rows::MISSING_TAB,
        &rows::HELD_NEWCOMER,
    ];
    expect_rows(&rt, rt.alloc(), &rows);
}

#[test]
fn rows_of_deaths_partitions_and_snapshots(rt: HostRuntime) {
    let rows = [
        &rows::DEATH_HANDS_OVER,
        &rows::ORIGINS_APART,
        &rows::SNAPSHOT,
        &rows::SNAPSHOT_OF_65,
    ];
    expect_rows(&rt, rt.alloc(), &rows);
}

#[test]
fn unexpected_frames(rt: HostRuntime) {
    let alloc = rt.alloc();
    let end = Err(DeskFault::Unexpected);
    expect(&rt, alloc, b"".as_slice(), end, b"", "no frame");
    let start = "00000008 01 21 00000001 0000";
    let input = bytes(&rt, alloc, &[FIRST_GRANT.input, start]);
    let output = bytes(&rt, alloc, &[FIRST_GRANT.output]);
    expect(
        &rt,
        alloc,
        input.as_slice(),
        end,
        output.as_slice(),
        "two starts",
    );
}

/// Runs the first row, a faulty frame, and the row's frames again: the desk answers only the frames before the fault.
fn expect_bad_field(rt: &impl Abort, alloc: Global, fault: &[u8], name: &str) {
    let mut input = bytes(rt, alloc, &[FIRST_GRANT.input]);
    let again = bytes(rt, alloc, &[FIRST_GRANT.input]);
    let output = bytes(rt, alloc, &[FIRST_GRANT.output]);
    append(&mut input, fault).expect(rt, BACK);
    append(&mut input, again.as_slice()).expect(rt, BACK);
    let end = Err(DeskFault::Frame(FrameFault::BadField));
    expect(rt, alloc, input.as_slice(), end, output.as_slice(), name);
}

#[test]
fn fields_out_of_form(rt: HostRuntime) {
    let alloc = rt.alloc();
    let part = "00000016 01 20 0001 0001 02 02 00000001 00000000 0000";
    let request = "0000000F 01 01 00000001 00000000 01 02 00 01";
    for (head, rest, name) in [
        (part, "0000 0000", "a part of no parts"),
        (part, "0011 0000", "a part of 17 parts"),
        (request, "2D", "a name that begins with a dash"),
        (request, "FF", "a name that is not UTF-8"),
    ] {
        let frame = bytes(&rt, alloc, &[head, rest]);
        expect_bad_field(&rt, alloc, frame.as_slice(), name);
    }
}

#[test]
fn report_of_65(rt: HostRuntime) {
    let alloc = rt.alloc();
    let mut report = bytes(&rt, alloc, &["000001D3 01 02 00000001 00000041 0041"]);
    for number in 0..65_u32 {
        append(&mut report, &number.to_be_bytes()).expect(&rt, BACK);
        append(&mut report, &[2, 1, 0]).expect(&rt, BACK);
    }
    expect_bad_field(&rt, alloc, report.as_slice(), "65 entries");
}

#[test]
fn cut_input(rt: HostRuntime) {
    let alloc = rt.alloc();
    let input = bytes(&rt, alloc, &[FIRST_GRANT.input]);
    assert_eq!(&rt; input.len(), 59);
    for len in 0..59 {
        let end = match len {
            0 => Err(DeskFault::Unexpected),
            12 | 34 => Ok(()),
            _ => Err(DeskFault::Frame(FrameFault::Truncated)),
        };
        expect(&rt, alloc, &input[..len], end, b"", "cut");
    }
}

#[test]
fn failing_reader(rt: HostRuntime) {
    let alloc = rt.alloc();
    let input = bytes(&rt, alloc, &[FIRST_GRANT.input]);
    let output = bytes(&rt, alloc, &[FIRST_GRANT.output]);
    for reads in 0..60 {
        let reader = SlowReader::new(input.as_slice(), reads);
        let answered = if reads < 59 { 0 } else { output.len() };
        let end = Err(DeskFault::Read);
        expect(&rt, alloc, reader, end, &output[..answered], "failing");
    }
}

/// Runs the desk over these bytes, into a writer that fails after a number of writes.
fn write_until(alloc: Global, input: &[u8], writes: usize) -> (Result<(), DeskFault>, SlowWriter) {
    let mut source = Source::new(input);
    let mut writer = SlowWriter::new(writes);
    let end = desk_run(alloc, &mut source, &mut Sink::new(&mut writer));
    (end, writer)
}

/// Runs the desk into a writer that fails after a number of writes, and compares the bytes that the writer took.
fn fail_after(rt: &impl Abort, alloc: Global, input: &[u8], output: &[u8], writes: usize) {
    let (mut end, mut writer) = write_until(alloc, input, writes);
    if end == Err(DeskFault::Memory) {
        assert!(rt; output.starts_with(writer.taken()));
        (end, writer) = write_until(alloc, input, writes);
    }
    same(rt, end, Err(DeskFault::Write));
    assert!(rt; writes <= output.len());
    same(rt, writer.taken(), &output[..writes]);
}

#[test]
fn failing_writer(rt: HostRuntime) {
    let alloc = rt.alloc();
    let input = bytes(&rt, alloc, &[FIRST_GRANT.input]);
    let output = bytes(&rt, alloc, &[FIRST_GRANT.output]);
    same(&rt, output.len(), 23);
    for writes in 0..23 {
        fail_after(&rt, alloc, input.as_slice(), output.as_slice(), writes);
    }
}
