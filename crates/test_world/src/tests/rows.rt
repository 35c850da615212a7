//! Rows of events with the locks that living tabs hold after them. Each row is played in two ways, by a test of each.

use super::play::{Way, check};
use std::alloc::{AllocError, Global};
use std::process::Abort;
use std::str::from_utf8;
use test_support::retry::{BACK, append, letters, with_numbers};

/// Start of a broker without tabs. Tab 1 of https://a.test/ joins by the messages 1 and 2. A line is an event in the words of a
/// script, or lists the locks that living tabs hold. The sim greets the tab that it opens, and finds that the row's own hello was
/// sent before, so both give a message the same name.
pub const FIRST: &str = "\
start -
open 1 https://a.test/
hello 1
deliver m1
deliver m2
";

/// Tab 2 of that partition joins, and tabs 3 and 4 in the next parts.
pub const SECOND: &str = "\
open 2 https://a.test/
hello 2
deliver m3
deliver m4
";

pub const THIRD: &str = "\
open 3 https://a.test/
hello 3
deliver m5
deliver m6
";

pub const FOURTH: &str = "\
open 4 https://a.test/
hello 4
deliver m7
deliver m8
";

/// Message 6 grants tab 1 an exclusive lock, and has not come yet. Tab 2 waits for the lock.
const CONTENDED: &str = "\
ask 1 exclusive a
deliver m5
ask 2 exclusive a
deliver m7
";

/// Message 10 grants the first of four tabs a shared lock. An exclusive and a shared request wait behind it.
pub const QUEUED: &str = "\
ask 1 shared a
deliver m9
ask 2 exclusive a
deliver m11
ask 3 shared a
deliver m13
held
";

/// A probe behind the queue gets null. The abort of the exclusive request grants the last request by message 19.
const UNBLOCKED: &str = "\
probe 4 shared a
deliver m15
deliver m16
held
abort 2 0
deliver m17
";

/// A tab holds a granted lock when it hears of the grant.
const GRANTED: &str = "\
held
deliver m10
deliver m19
held 1#0 shared a 3#0 shared a
";

/// A release hands the lock over.
const RELEASED: &str = "\
deliver m10
deliver m19
ask 2 exclusive a
deliver m20
release 1 0
held 3#0 shared a
deliver m22
release 3 0
deliver m24
held
deliver m26
held 2#2 exclusive a
";

/// A tab drops a grant that comes after its abort.
const GRANTED_AFTER_ABORT: &str = "\
abort 1 0
deliver m6
held
deliver m9
deliver m11
held 2#0 exclusive a
";

/// A command that comes again is taken once.
const COMES_AGAIN: &str = "\
ask 1 shared a
deliver m3
deliver m3
deliver m3
deliver m4
held 1#0 shared a
release 1 0
deliver m5
deliver m3
deliver m7
held
";

/// A waiting request is reported to the next broker.
const ASKED_AGAIN: &str = "\
stop
start 1 2
deliver m9
deliver m10
deliver m12
deliver m11
deliver m6
held
deliver m13
held 2#0 exclusive a
";

/// A held lock outlives the broker.
const HELD_AT_THE_STOP: &str = "\
deliver m6
stop
start 1 2
deliver m9
deliver m10
deliver m12
deliver m11
held 1#0 exclusive a
";

/// A lock of an earlier broker is released at the next broker.
const RELEASED_LATER: &str = "\
ask 1 exclusive a
deliver m3
deliver m4
probe 1 shared a
query 1
stop
start 1
deliver m7
deliver m8
deliver m5
held 1#0 exclusive a
release 1 0
deliver m9
held
";

/// A death hands the lock over.
const DEATH: &str = "\
deliver m6
query 1
kill 1
held
tell 1
deliver m9
deliver m10
held 2#0 exclusive a
";

/// A partition waits for no other partition.
const OTHER_PARTITION: &str = "\
open 3 http://b.test/
hello 3
deliver m5
deliver m6
ask 3 exclusive a
stop
start 1 2 3
deliver m10
deliver m11
deliver m12
held 3#0 exclusive a
";

/// Each partition has lock names of its own.
const TWO_PARTITIONS: &str = "\
open 1 https://a.test/
open 2 https://a.test:443/x
open 3 http://a.test/
start 1 2 3
deliver m1
deliver m2
deliver m3
deliver m4
deliver m5
deliver m6
ask 1 exclusive a
deliver m7
ask 3 exclusive a
deliver m9
ask 2 exclusive a
deliver m11
deliver m8
deliver m10
deliver m12
held 1#0 exclusive a 3#0 exclusive a
";

/// A query changes nothing.
const QUERIES: &str = "\
ask 1 exclusive a
deliver m5
deliver m6
ask 2 shared a
deliver m7
query 1
deliver m9
deliver m10
query 2
deliver m11
deliver m11
deliver m13
held 1#0 exclusive a
";

/// A command that comes out of turn is taken in its turn.
const OUT_OF_TURN: &str = "\
ask 1 shared a
ask 1 shared b
deliver m4
deliver m3
deliver m4
deliver m5
deliver m6
held 1#0 shared a 1#1 shared b
";

/// A tab sends messages again that may be lost.
const SENT_AGAIN: &str = "\
resend 1
ask 1 shared a
resend 1
deliver m2
deliver m3
deliver m4
resend 1
held 1#0 shared a
";

/// A partition recovers when its missing tab is dead.
const MISSING_TAB_DIES: &str = "\
open 1 https://a.test/
open 2 https://a.test/
start 1 2
deliver m1
deliver m3
ask 1 shared a
deliver m4
kill 2
deliver m2
tell 2
deliver m4
deliver m5
held 1#0 shared a
";

/// Tab 1 keeps its lock although tab 2 is taken over. Tab 2 forges the release of that lock's number, and after a stop a report
/// that claims the lock.
const BESIEGED: &str = "\
ask 1 exclusive a
deliver m5
deliver m6
forge 2 010100000001000000000200000000
corrupt 2
forge 2 010100000001000000000200000000
deliver m7
stop
start 1 2
forge 2 0102000000020000000100010000000001020161
deliver m11
deliver m9
deliver m12
corrupt 2
held 1#0 exclusive a
";

/// A page under another top shares no lock.
const UNDER_ANOTHER_TOP: &str = "\
open2 2 https://t.test/ https://a.test/
hello 2
deliver m3
deliver m4
ask 1 exclusive a
deliver m5
deliver m6
ask 2 exclusive a
deliver m7
deliver m8
held 1#0 exclusive a 2#0 exclusive a
";

fn play_queues(rt: &impl Abort, alloc: Global, way: Way) {
    check(
        rt,
        alloc,
        way,
        &[FIRST, SECOND, THIRD, FOURTH, QUEUED, UNBLOCKED, GRANTED],
    );
    check(
        rt,
        alloc,
        way,
        &[FIRST, SECOND, THIRD, FOURTH, QUEUED, UNBLOCKED, RELEASED],
    );
    check(
        rt,
        alloc,
        way,
        &[FIRST, SECOND, CONTENDED, GRANTED_AFTER_ABORT],
    );
    check(rt, alloc, way, &[FIRST, SECOND, QUERIES]);
}

#[test]
fn rows_of_queues(rt: HostRuntime) {
    play_queues(&rt, rt.alloc(), Way::Steps);
}

#[test]
fn shown_queues(rt: HostRuntime) {
    play_queues(&rt, rt.alloc(), Way::Shows);
}

fn play_messages(rt: &impl Abort, alloc: Global, way: Way) {
    check(rt, alloc, way, &[FIRST, COMES_AGAIN]);
    check(rt, alloc, way, &[FIRST, OUT_OF_TURN]);
    check(rt, alloc, way, &[FIRST, SENT_AGAIN]);
}

#[test]
fn rows_of_repeated_and_late_messages(rt: HostRuntime) {
    play_messages(&rt, rt.alloc(), Way::Steps);
}

#[test]
fn shown_repeated_and_late_messages(rt: HostRuntime) {
    play_messages(&rt, rt.alloc(), Way::Shows);
}

fn play_restarts(rt: &impl Abort, alloc: Global, way: Way) {
    check(rt, alloc, way, &[FIRST, SECOND, CONTENDED, ASKED_AGAIN]);
    check(
        rt,
        alloc,
        way,
        &[FIRST, SECOND, CONTENDED, HELD_AT_THE_STOP],
    );
    check(rt, alloc, way, &[FIRST, RELEASED_LATER]);
}

#[test]
fn rows_of_restarts(rt: HostRuntime) {
    play_restarts(&rt, rt.alloc(), Way::Steps);
}

#[test]
fn shown_restarts(rt: HostRuntime) {
    play_restarts(&rt, rt.alloc(), Way::Shows);
}

fn play_deaths(rt: &impl Abort, alloc: Global, way: Way) {
    check(rt, alloc, way, &[FIRST, SECOND, CONTENDED, DEATH]);
    check(rt, alloc, way, &[MISSING_TAB_DIES]);
}

#[test]
fn rows_of_deaths(rt: HostRuntime) {
    play_deaths(&rt, rt.alloc(), Way::Steps);
}

#[test]
fn shown_deaths(rt: HostRuntime) {
    play_deaths(&rt, rt.alloc(), Way::Shows);
}

fn play_partitions(rt: &impl Abort, alloc: Global, way: Way) {
    check(rt, alloc, way, &[FIRST, SECOND, OTHER_PARTITION]);
    check(rt, alloc, way, &[TWO_PARTITIONS]);
    check(rt, alloc, way, &[FIRST, UNDER_ANOTHER_TOP]);
}

#[test]
fn rows_of_partitions(rt: HostRuntime) {
    play_partitions(&rt, rt.alloc(), Way::Steps);
}

#[test]
fn shown_partitions(rt: HostRuntime) {
    play_partitions(&rt, rt.alloc(), Way::Shows);
}

#[test]
fn row_of_a_hostile_tab(rt: HostRuntime) {
    check(&rt, rt.alloc(), Way::Steps, &[FIRST, SECOND, BESIEGED]);
}

#[test]
fn shown_hostile_tab(rt: HostRuntime) {
    check(&rt, rt.alloc(), Way::Shows, &[FIRST, SECOND, BESIEGED]);
}

/// Appends a template with two numbers.
fn put(
    alloc: Global,
    text: &mut Vec<u8>,
    template: &str,
    number: u32,
    other: u32,
) -> Result<(), AllocError> {
    let lines = with_numbers(alloc, template, number, other)?;
    append(text, lines.as_bytes())
}

/// Returns a row of refusals: refused names, the longest name, and more requests than a tab may have. The abort of the first request
/// makes room for another. Refused requests take no number and send nothing, so no other lock is held.
fn refusals(alloc: Global) -> Result<Vec<u8>, AllocError> {
    let name = letters(alloc, 255)?;
    let name = name.as_bytes();
    let mut text = Vec::new(alloc);
    append(
        &mut text,
        b"ask 1 exclusive -x\nask 1 exclusive %\nask 1 shared ",
    )?;
    append(&mut text, name)?;
    append(&mut text, b"\nask 1 shared ")?;
    append(&mut text, name)?;
    append(&mut text, b"x\n")?;
    for _request in 0..63 {
        append(&mut text, b"ask 1 shared b\n")?;
    }
    append(&mut text, b"abort 1 0\nask 1 shared b\nheld\n")?;
    for message in 3..135 {
        put(alloc, &mut text, "deliver m{n}\n", message, 0)?;
    }
    append(&mut text, b"held 1#1 shared ")?;
    append(&mut text, name)?;
    for number in 2..64 {
        put(alloc, &mut text, " 1#{n} shared b", number, 0)?;
    }
    append(&mut text, b" 1#65 shared b\n")?;
    Ok(text)
}

/// Plays the first row, and then lines that are made from numbers.
fn check_made(rt: &impl Abort, alloc: Global, way: Way, lines: Result<Vec<u8>, AllocError>) {
    let lines = lines.expect(rt, BACK);
    let lines = from_utf8(lines.as_slice()).expect(rt, "a text");
    check(rt, alloc, way, &[FIRST, lines]);
}

#[test]
fn row_of_refusals(rt: HostRuntime) {
    check_made(&rt, rt.alloc(), Way::Steps, refusals(rt.alloc()));
}

#[test]
fn shown_refusals(rt: HostRuntime) {
    check_made(&rt, rt.alloc(), Way::Shows, refusals(rt.alloc()));
}

/// Returns a row of 20,001 events: a tab takes a lock and releases it 3,333 times, and takes it once more.
fn many_events(alloc: Global) -> Result<Vec<u8>, AllocError> {
    let mut text = Vec::new(alloc);
    let deliveries = "deliver m{n}\ndeliver m{m}\n";
    for turn in 0..3_333_u32 {
        let (request, release) = (4 * turn + 3, 4 * turn + 5);
        append(&mut text, b"ask 1 exclusive a\n")?;
        put(alloc, &mut text, deliveries, request, request + 1)?;
        put(alloc, &mut text, "release 1 {n}\n", 2 * turn, 0)?;
        put(alloc, &mut text, deliveries, release, release + 1)?;
    }
    append(&mut text, b"ask 1 exclusive a\n")?;
    put(alloc, &mut text, deliveries, 13_335, 13_336)?;
    append(&mut text, b"held 1#6666 exclusive a\n")?;
    Ok(text)
}

#[test]
fn twenty_thousand_events(rt: HostRuntime) {
    check_made(&rt, rt.alloc(), Way::Shows, many_events(rt.alloc()));
}
