//! Ends of a run of the sim: its script, a reader that fails, and a writer that fails. A run that is refused memory has written a
//! prefix of the output, and is made again.

use std::alloc::Global;
use std::io::Read;
use std::process::Abort;
use test_support::devices::{SlowReader, SlowWriter};
use test_support::retry::BACK;
use test_support::text::Text;
use wl_frames::device::{Sink, Source};
use wl_script::sim::{SimFault, sim_run};

/// Runs the sim over a reader.
fn run<S: Read + Drop>(alloc: Global, reader: S, written: &mut Vec<u8>) -> Result<(), SimFault> {
    let mut source = Source::new(reader);
    let mut sink = Sink::new(written);
    sim_run(alloc, &mut source, &mut sink)
}

/// Runs the sim, and compares its end and its output.
fn expect<S: Read + Copy + Drop>(
    rt: &impl Abort,
    alloc: Global,
    reader: S,
    end: Result<(), SimFault>,
    output: &[u8],
    name: &str,
) {
    let mut written = match Vec::with_capacity(alloc, output.len()) {
        Ok(written) => written,
        Err(_) => Vec::with_capacity(alloc, output.len()).expect(rt, BACK),
    };
    let mut ended = run(alloc, reader, &mut written);
    if ended == Err(SimFault::Memory) {
        assert!(rt; output.starts_with(written.as_slice()), "{name}");
        written.clear();
        ended = run(alloc, reader, &mut written);
    }
    assert_eq!(rt; ended, end, "of {name}");
    assert_eq!(rt; Text(written.as_slice()), Text(output), "of {name}");
}

/// Four tabs join. The first is granted a shared lock, and an exclusive and a shared request wait behind it.
const QUEUE: &str = "\
start -
open 1 https://a.test/
deliver m1
deliver m2
open 2 https://a.test/
deliver m3
deliver m4
open 3 https://a.test/
deliver m5
deliver m6
open 4 https://a.test/
deliver m7
deliver m8
ask 1 shared a
deliver m9
ask 2 exclusive a
deliver m11
ask 3 shared a
deliver m13
";

const QUEUED: &str = "\
up 1
opened 1 https://a.test
m1 k>1 hello 1
entered 1
m2 1>b report 1 base 0
joined 1
opened 2 https://a.test
m3 k>2 hello 1
entered 1
m4 2>b report 1 base 0
joined 2
opened 3 https://a.test
m5 k>3 hello 1
entered 1
m6 3>b report 1 base 0
joined 3
opened 4 https://a.test
m7 k>4 hello 1
entered 1
m8 4>b report 1 base 0
joined 4
1#0
m9 1>b gen 1 #0 request shared a
m10 b>1 gen 1 #0 granted upto 1
2#0
m11 2>b gen 1 #0 request exclusive a
m12 b>2 gen 1 #0 waiting upto 1
3#0
m13 3>b gen 1 #0 request shared a
m14 b>3 gen 1 #0 waiting upto 1
";

#[test]
fn a_script_to_its_end(rt: HostRuntime) {
    let (script, output) = (QUEUE.as_bytes(), QUEUED.as_bytes());
    expect(&rt, rt.alloc(), script, Ok(()), output, "a queue");
}

/// Reads two lines from a reader that fails after `reads` reads.
fn expect_reads(rt: &impl Abort, alloc: Global, reads: usize) {
    let due = b"already down\nalready down\n".as_slice();
    let (end, output) = match reads {
        0..=4 => (Err(SimFault::Read), &due[..0]),
        5..=9 => (Err(SimFault::Read), &due[..13]),
        _ => (Ok(()), due),
    };
    let reader = SlowReader::new(b"stop\nstop", reads);
    expect(rt, alloc, reader, end, output, "a failing reader");
}

#[test]
fn a_reader_that_fails(rt: HostRuntime) {
    for reads in 0..11 {
        expect_reads(&rt, rt.alloc(), reads);
    }
}

/// Runs a script into a writer that fails after `writes` writes.
fn write_until(alloc: Global, script: &[u8], writes: usize) -> (Result<(), SimFault>, SlowWriter) {
    let mut source = Source::new(script);
    let mut writer = SlowWriter::new(writes);
    let end = sim_run(alloc, &mut source, &mut Sink::new(&mut writer));
    (end, writer)
}

/// Runs two lines into a writer that fails after `writes` writes, and compares the bytes that it took.
fn expect_writes(rt: &impl Abort, alloc: Global, writes: usize) {
    let script = b"stop\nstop\n".as_slice();
    let due = b"already down\nalready down\n".as_slice();
    let (mut end, mut writer) = write_until(alloc, script, writes);
    if end == Err(SimFault::Memory) {
        assert!(rt; due.starts_with(writer.taken()), "after {writes} writes");
        (end, writer) = write_until(alloc, script, writes);
    }
    let (expected, written) = if writes < due.len() {
        (Err(SimFault::Write), &due[..writes])
    } else {
        (Ok(()), due)
    };
    assert_eq!(rt; end, expected, "after {writes} writes");
    assert_eq!(rt; Text(writer.taken()), Text(written), "of {}", "two lines");
}

#[test]
fn a_writer_that_fails(rt: HostRuntime) {
    for writes in 0..28 {
        expect_writes(&rt, rt.alloc(), writes);
    }
}
