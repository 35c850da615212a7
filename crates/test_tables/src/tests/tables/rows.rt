//! Rows that both tables play.

use super::{Both, Call, EXCLUSIVE, JOINS, JOINS_EARLY, SHARED, Step, is_listed, play};
use crate::tests::entries::Reported;
use std::alloc::{AllocError, Global};
use std::ops::Range;
use std::process::Abort;
use std::test::Fail;
use wl_table::{Mode, Row, Standing};

impl Both {
    /// Lets client 1 request 62 shared locks of one name.
    fn take_shared(&mut self, rt: &impl Abort) -> Result<(), AllocError> {
        let request = Call::Request(Mode::Shared, "b");
        for number in 2..64 {
            self.grants(rt, 1, number, request, &[(1, number)], Standing::Held)?;
        }
        Ok(())
    }

    /// Asserts that client 1 holds 64 locks.
    fn holds_many(&self, rt: &impl Abort) -> Result<(), AllocError> {
        let (held, waiting) = self.rows(rt)?;
        assert!(rt; are_many(held.as_slice()) && waiting.is_empty());
        Ok(())
    }

    /// Asserts that client 1 holds 63 of them and the one that replaces the first.
    fn holds_others(&self, rt: &impl Abort) -> Result<(), AllocError> {
        let (held, waiting) = self.rows(rt)?;
        assert!(rt; are_others(held.as_slice()) && waiting.is_empty());
        Ok(())
    }

    /// Takes 64 locks, replaces one of them, and ends the client.
    fn take_many(&mut self, rt: &impl Abort) -> Result<(), AllocError> {
        self.join(rt, 1)?;
        self.play(rt, &LIMITS_OF_NAMES)?;
        self.take_shared(rt)?;
        self.holds_many(rt)?;
        self.play(rt, &ONE_REPLACED)?;
        self.holds_others(rt)?;
        self.play(rt, &ALL_END)
    }
}

/// A shared lock is held, an exclusive request waits for it, and another shared request waits behind.
static SHARED_THEN_EXCLUSIVE: [Step<'static>; 4] = [
    Step::Make(1, 0, SHARED, &[(1, 0)], Standing::Held),
    Step::Make(2, 0, EXCLUSIVE, &[], Standing::Waiting),
    Step::Make(3, 0, SHARED, &[], Standing::Waiting),
    Step::Lists(
        &[(1, 0, Mode::Shared, "a")],
        &[(2, 0, Mode::Exclusive, "a"), (3, 0, Mode::Shared, "a")],
    ),
];

static PROBE_BEHIND_QUEUE: [Step<'static>; 2] = [
    Step::Make(4, 0, Call::Probe(Mode::Shared, "a"), &[], Standing::Absent),
    Step::Lists(
        &[(1, 0, Mode::Shared, "a")],
        &[(2, 0, Mode::Exclusive, "a"), (3, 0, Mode::Shared, "a")],
    ),
];

static ABORT_UNBLOCKS: [Step<'static>; 3] = [
    Step::Make(2, 0, Call::Abort, &[(3, 0)], Standing::Absent),
    Step::Stands(3, 0, Standing::Held),
    Step::Lists(&[(1, 0, Mode::Shared, "a"), (3, 0, Mode::Shared, "a")], &[]),
];

static RELEASE_HANDS_OVER: [Step<'static>; 5] = [
    Step::Make(2, 2, EXCLUSIVE, &[], Standing::Waiting),
    Step::Make(1, 0, Call::Release, &[], Standing::Absent),
    Step::Make(3, 0, Call::Release, &[(2, 2)], Standing::Absent),
    Step::Stands(2, 2, Standing::Held),
    Step::Lists(&[(2, 2, Mode::Exclusive, "a")], &[]),
];

/// An exclusive lock is held, and another exclusive request waits for it.
static TWO_EXCLUSIVE: [Step<'static>; 3] = [
    Step::Make(1, 0, EXCLUSIVE, &[(1, 0)], Standing::Held),
    Step::Make(2, 0, EXCLUSIVE, &[], Standing::Waiting),
    Step::Lists(
        &[(1, 0, Mode::Exclusive, "a")],
        &[(2, 0, Mode::Exclusive, "a")],
    ),
];

/// The abort of a lock releases it, even if its tab has not heard of the grant.
static LATE_GRANT_AFTER_ABORT: [Step<'static>; 3] = [
    Step::Make(1, 0, Call::Abort, &[(2, 0)], Standing::Absent),
    Step::Stands(2, 0, Standing::Held),
    Step::Lists(&[(2, 0, Mode::Exclusive, "a")], &[]),
];

/// The request comes twice more while its lock is held, and once after the release.
static REPEATED_REQUEST: [Step<'static>; 6] = [
    Step::Make(1, 0, SHARED, &[(1, 0)], Standing::Held),
    Step::Stands(1, 0, Standing::Held),
    Step::Stands(1, 0, Standing::Held),
    Step::Make(1, 0, Call::Release, &[], Standing::Absent),
    Step::Stands(1, 0, Standing::Absent),
    Step::Lists(&[], &[]),
];

/// Report of one entry, the exclusive lock `a` under number 0: held here, and waiting in `WAITS`.
const HELD: [Reported; 1] = [(0, true, Mode::Exclusive, "a")];

const WAITS: [Reported; 1] = [(0, false, Mode::Exclusive, "a")];

/// Tab 2 reports in a new generation, and tab 1 is missing.
static FIRST_REPORT: [Step<'static>; 2] = [
    Step::Make(
        2,
        0,
        Call::Restore {
            report: &WAITS,
            settle: false,
        },
        &[],
        Standing::Waiting,
    ),
    Step::Lists(&[], &[(2, 0, Mode::Exclusive, "a")]),
];

static RESTART_WHILE_ASKED: [Step<'static>; 3] = [
    Step::Make(
        1,
        0,
        Call::Restore {
            report: &WAITS,
            settle: true,
        },
        &[(2, 0)],
        Standing::Waiting,
    ),
    Step::Stands(2, 0, Standing::Held),
    Step::Lists(
        &[(2, 0, Mode::Exclusive, "a")],
        &[(1, 0, Mode::Exclusive, "a")],
    ),
];

static RESTART_WHILE_HELD: [Step<'static>; 3] = [
    Step::Make(
        1,
        0,
        Call::Restore {
            report: &HELD,
            settle: true,
        },
        &[],
        Standing::Held,
    ),
    Step::Stands(2, 0, Standing::Waiting),
    Step::Lists(
        &[(1, 0, Mode::Exclusive, "a")],
        &[(2, 0, Mode::Exclusive, "a")],
    ),
];

/// The death of tab 1 hands its lock over to tab 2.
static DEATH_HANDS_OVER: [Step<'static>; 3] = [
    Step::Make(
        1,
        0,
        Call::End { settle: true },
        &[(2, 0)],
        Standing::Absent,
    ),
    Step::Stands(2, 0, Standing::Held),
    Step::Lists(&[(2, 0, Mode::Exclusive, "a")], &[]),
];

/// A death that does not settle leaves a grantable request, and the next call that settles grants it.
static SETTLED_LATER: [Step<'static>; 5] = [
    Step::Make(1, 0, Call::End { settle: false }, &[], Standing::Absent),
    Step::Stands(2, 0, Standing::Waiting),
    Step::Grantable(2, 0),
    Step::Make(
        3,
        0,
        Call::Probe(Mode::Shared, "b"),
        &[(3, 0)],
        Standing::Held,
    ),
    Step::Make(3, 0, Call::Release, &[(2, 0)], Standing::Absent),
];

/// Tab 3 joins, alone in its partition.
static THIRD_JOINS: [Step<'static>; 1] = [Step::Make(3, 0, JOINS, &[], Standing::Absent)];

/// Tab 3, alone in its partition, reports its request before any other tab has reported.
static OTHER_ORIGIN_UNBLOCKED: [Step<'static>; 2] = [
    Step::Make(
        3,
        0,
        Call::Restore {
            report: &WAITS,
            settle: true,
        },
        &[(3, 0)],
        Standing::Held,
    ),
    Step::Lists(&[(3, 0, Mode::Exclusive, "a")], &[]),
];

/// Tabs 1 and 2, listed in one partition, report one after another.
static LISTED_JOIN: [Step<'static>; 2] = [
    Step::Make(1, 0, JOINS_EARLY, &[], Standing::Absent),
    Step::Make(2, 0, JOINS, &[], Standing::Absent),
];

static FIRST_ASKS: [Step<'static>; 2] = [
    Step::Make(1, 0, EXCLUSIVE, &[(1, 0)], Standing::Held),
    Step::Lists(&[(1, 0, Mode::Exclusive, "a")], &[]),
];

static THIRD_ASKS: [Step<'static>; 2] = [
    Step::Make(3, 0, EXCLUSIVE, &[(3, 0)], Standing::Held),
    Step::Lists(&[(3, 0, Mode::Exclusive, "a")], &[]),
];

static SECOND_ASKS: [Step<'static>; 2] = [
    Step::Make(2, 0, EXCLUSIVE, &[], Standing::Waiting),
    Step::Lists(
        &[(1, 0, Mode::Exclusive, "a")],
        &[(2, 0, Mode::Exclusive, "a")],
    ),
];

/// Plays tabs 1 and 2 in one partition, and tab 3 in another.
fn ask_apart(rt: &impl Abort, here: &mut Both, there: &mut Both) -> Result<(), AllocError> {
    here.play(rt, &LISTED_JOIN)?;
    there.play(rt, &THIRD_JOINS)?;
    here.play(rt, &FIRST_ASKS)?;
    there.play(rt, &THIRD_ASKS)?;
    here.play(rt, &SECOND_ASKS)
}

fn play_apart(rt: &impl Abort, alloc: Global) -> Result<(), Fail> {
    let mut here = Both::new(alloc);
    let mut there = Both::new(alloc);
    let played = ask_apart(rt, &mut here, &mut there);
    drop(here);
    drop(there);
    Ok(played?)
}

const LONGEST: &str =
    "nnnnnnnnnnnnnnnnnnnnnnnnnnnnnnnnnnnnnnnnnnnnnnnnnnnnnnnnnnnnnnnnnnnnnnnnnnnnnnnnnnnnnnnnnnnnnnnnnnnn\
    nnnnnnnnnnnnnnnnnnnnnnnnnnnnnnnnnnnnnnnnnnnnnnnnnnnnnnnnnnnnnnnnnnnnnnnnnnnnnnnnnnnnnnnnnnnnnnnnnnnn\
    nnnnnnnnnnnnnnnnnnnnnnnnnnnnnnnnnnnnnnnnnnnnnnnnnnnnnnn";

/// A lock of the empty name, and one of the longest name.
static LIMITS_OF_NAMES: [Step<'static>; 2] = [
    Step::Make(
        1,
        0,
        Call::Request(Mode::Exclusive, ""),
        &[(1, 0)],
        Standing::Held,
    ),
    Step::Make(
        1,
        1,
        Call::Request(Mode::Exclusive, LONGEST),
        &[(1, 1)],
        Standing::Held,
    ),
];

/// The lock of the empty name is aborted, and another request takes its place.
static ONE_REPLACED: [Step<'static>; 2] = [
    Step::Make(1, 0, Call::Abort, &[], Standing::Absent),
    Step::Make(
        1,
        65,
        Call::Request(Mode::Shared, "b"),
        &[(1, 65)],
        Standing::Held,
    ),
];

static ALL_END: [Step<'static>; 2] = [
    Step::Make(1, 1, Call::End { settle: true }, &[], Standing::Absent),
    Step::Lists(&[], &[]),
];

/// Returns whether the rows are client 1's shared locks `b` under these numbers.
fn are_shared(rows: &[Row], numbers: Range<u32>) -> bool {
    rows.iter().zip(numbers).all(|(row, number)| is_listed(row, &(1, number, Mode::Shared, "b")))
}

/// Returns whether the rows are the 64 locks in the order of their grants.
fn are_many(rows: &[Row]) -> bool {
    match rows {
        [empty, longest, others @ ..] => {
            is_listed(empty, &(1, 0, Mode::Exclusive, ""))
                && is_listed(longest, &(1, 1, Mode::Exclusive, LONGEST))
                && others.len() == 62
                && are_shared(others, 2..64)
        }
        _ => false,
    }
}

/// Returns whether the rows lack the first lock, and end with its replacement.
fn are_others(rows: &[Row]) -> bool {
    match rows {
        [longest, others @ .., last] => {
            is_listed(longest, &(1, 1, Mode::Exclusive, LONGEST))
                && others.len() == 62
                && are_shared(others, 2..64)
                && is_listed(last, &(1, 65, Mode::Shared, "b"))
        }
        _ => false,
    }
}

fn take_many(rt: &impl Abort, alloc: Global) -> Result<(), Fail> {
    let mut both = Both::new(alloc);
    let taken = both.take_many(rt);
    drop(both);
    Ok(taken?)
}

/// An exclusive lock is held, a shared request waits for it, and both tabs query.
static SNAPSHOT: [Step<'static>; 4] = [
    Step::Make(1, 0, EXCLUSIVE, &[(1, 0)], Standing::Held),
    Step::Make(2, 0, SHARED, &[], Standing::Waiting),
    Step::Lists(
        &[(1, 0, Mode::Exclusive, "a")],
        &[(2, 0, Mode::Shared, "a")],
    ),
    Step::Lists(
        &[(1, 0, Mode::Exclusive, "a")],
        &[(2, 0, Mode::Shared, "a")],
    ),
];

#[test]
fn rows_of_queues(rt: HostRuntime) -> Result<(), Fail> {
    let alloc = rt.alloc();
    let rows = [
        SHARED_THEN_EXCLUSIVE.as_slice(),
        PROBE_BEHIND_QUEUE.as_slice(),
        ABORT_UNBLOCKS.as_slice(),
        RELEASE_HANDS_OVER.as_slice(),
    ];
    play(&rt, alloc, 4, &rows)?;
    play(&rt, alloc, 2, &[&TWO_EXCLUSIVE, &LATE_GRANT_AFTER_ABORT])?;
    play(&rt, alloc, 1, &[&REPEATED_REQUEST])?;
    play(&rt, alloc, 2, &[&SNAPSHOT])
}

#[test]
fn rows_of_restarts(rt: HostRuntime) -> Result<(), Fail> {
    let alloc = rt.alloc();
    play(&rt, alloc, 0, &[&FIRST_REPORT, &RESTART_WHILE_ASKED])?;
    play(&rt, alloc, 0, &[&FIRST_REPORT, &RESTART_WHILE_HELD])
}

#[test]
fn rows_of_deaths(rt: HostRuntime) -> Result<(), Fail> {
    let alloc = rt.alloc();
    play(&rt, alloc, 2, &[&TWO_EXCLUSIVE, &DEATH_HANDS_OVER])?;
    play(&rt, alloc, 2, &[&TWO_EXCLUSIVE, &SETTLED_LATER])
}

#[test]
fn rows_of_partitions(rt: HostRuntime) -> Result<(), Fail> {
    let alloc = rt.alloc();
    play(&rt, alloc, 0, &[&THIRD_JOINS])?;
    play(&rt, alloc, 0, &[&OTHER_ORIGIN_UNBLOCKED])?;
    play_apart(&rt, alloc)
}

/// A tab's 64 locks. Its agent refuses more before any table hears of them.
#[test]
fn refusals(rt: HostRuntime) -> Result<(), Fail> {
    assert_eq!(rt; LONGEST.len(), 255);
    take_many(&rt, rt.alloc())
}
