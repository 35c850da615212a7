//! A broker in two shards of two steps each, and one lane that uses up the steps of one shard.

ghost use Rattle.std.specs.Prelude.{◌≡◌, []};
ghost use Rattle.wl_locked.specs.Blanks.{HaveParts, AreNamed};

use super::events::{command, report, request};
use super::steps::{add_silent, are_of, is_row};
use crate::tests::same;
use std::alloc::{AllocError, Global};
use std::marker::Brand;
use std::process::Abort;
use std::sync::Wait;
use test_support::retry::BACK;
use wl_locked::{Blanks, History, NotStepped, Receipt, ShardLane, Sharded, Shards, Step, Work};

/// Steps of the two shards.
#[derive(Drop)]
struct Rows {
    first: Vec<Step>,
    second: Vec<Step>,
}

/// Returns the report of tab 2 for shard 0, and those of the tabs 1 and 3 for shard 1.
fn rows_once(alloc: Global) -> Result<Rows, AllocError> {
    let mut first = Vec::new(alloc);
    let mut second = Vec::new(alloc);
    add_silent(alloc, &mut first, report(alloc, 2, 2))?;
    add_silent(alloc, &mut second, report(alloc, 1, 1))?;
    add_silent(alloc, &mut second, report(alloc, 3, 3))?;
    Ok(Rows { first, second })
}

fn rows_of_shards(rt: &impl Abort, alloc: Global) -> Rows {
    match rows_once(alloc) {
        Ok(rows) => rows,
        Err(_) => rows_once(alloc).expect(rt, BACK),
    }
}

/// Takes a copy of a work.
fn take<J: Shards, R: Wait + Abort>(
    rt: &R,
    alloc: Global,
    broker: &Sharded<J>,
    lane: &mut ShardLane<J>,
    work: &Work,
) -> Result<Receipt, NotStepped> {
    let event = work.event.copy()?;
    let copy = Work {
        shard: work.shard,
        event,
    };
    assert!(rt; copy.is_dealt(broker.shards()));
    broker.take(rt, lane, copy)
}

/// Returns how many receipts a lane has of each of two shards.
fn counts<J: Shards>(lane: &ShardLane<J>) -> (usize, usize) {
    (lane.receipts(0).len(), lane.receipts(1).len())
}

/// Asserts how many receipts a lane has of each of two shards, and that they equal receipts of the rows.
fn has_receipts<J: Shards>(
    rt: &impl Abort,
    lane: &ShardLane<J>,
    counts: (usize, usize),
    rows: &Rows,
) {
    assert!(rt; are_of(lane.receipts(0), counts.0, rows.first.as_slice()));
    assert!(rt; are_of(lane.receipts(1), counts.1, rows.second.as_slice()));
}

/// Takes a work, again if memory is refused: the lane's receipts are unchanged then.
fn answered<J: Shards, R: Wait + Abort>(
    rt: &R,
    alloc: Global,
    broker: &Sharded<J>,
    lane: &mut ShardLane<J>,
    work: &Work,
    rows: &Rows,
) -> Result<Receipt, NotStepped> {
    let before = counts(lane);
    match take(rt, alloc, broker, lane, work) {
        Err(NotStepped::Memory) => {
            has_receipts(rt, lane, before, rows);
            take(rt, alloc, broker, lane, work)
        }
        answer => answer,
    }
}

/// Takes a work, and compares the place of its step, or None if the generation of the shard is spent.
fn step<J: Shards, R: Wait + Abort>(
    rt: &R,
    alloc: Global,
    broker: &Sharded<J>,
    lane: &mut ShardLane<J>,
    work: Work,
    rows: &Rows,
    want: Option<u32>,
) -> Result<(), AllocError> {
    let place = match answered(rt, alloc, broker, lane, &work, rows) {
        Ok(receipt) => Ok(Some(receipt.place)),
        Err(NotStepped::GenerationSpent) => Ok(None),
        Err(NotStepped::Memory) => Err(AllocError),
    };
    drop(work);
    same(rt, place?, want);
    Ok(())
}

/// Uses up the two steps of shard 1. Shard 0 has steps of its own.
fn use_up_one<J: Shards, R: Wait + Abort>(
    rt: &R,
    alloc: Global,
    broker: &Sharded<J>,
    lane: &mut ShardLane<J>,
    rows: &Rows,
) -> Result<(), AllocError> {
    for (shard, tab, place) in [(1, 1, 0), (1, 3, 1)] {
        let event = report(alloc, tab, tab);
        let work = Work { shard, event };
        step(rt, alloc, broker, lane, work, rows, Some(place))?;
    }
    let asked = command(1, 1, 0, request(alloc)?);
    let work = Work {
        shard: 1,
        event: asked,
    };
    step(rt, alloc, broker, lane, work, rows, None)?;
    let event = report(alloc, 2, 2);
    let work = Work { shard: 0, event };
    step(rt, alloc, broker, lane, work, rows, Some(0))?;
    has_receipts(rt, lane, (1, 2), rows);
    Ok(())
}

/// Asserts that the histories of the two shards are the rows.
fn are_rows(rt: &impl Abort, histories: &[History], rows: &Rows) {
    let [first, second] = histories else {
        panic!(rt; "not two histories");
    };
    is_row(rt, first.steps(), rows.first.as_slice());
    is_row(rt, second.steps(), rows.second.as_slice());
}

/// Uses up a shard's steps, and closes the broker, whose histories are then the rows.
fn use_up_named<J: Shards, R: Wait + Abort>(
    rt: &R,
    alloc: Global,
    blanks: Blanks,
    rows: &Rows,
) -> Result<(), AllocError>
    requires names { AreNamed J.names blanks }
    requires parts { HaveParts 1 blanks }
    requires run { J.run ≡ record { generation = 1; listed = []; shards = 2; lanes = 1; limit = 2 } }
{
    let (broker, mut lanes, hellos) = Sharded::<J>::new(alloc, blanks, 1, &[], 2, 1, 2)?;
    assert!(rt; hellos.as_slice().is_empty());
    let used = use_up_one(
        rt,
        alloc,
        &broker,
        lanes.get_mut(0).expect(rt, "a lane"),
        rows,
    );
    if used.is_ok() {
        let histories = broker.close(lanes).expect(rt, "the steps of one lane");
        are_rows(rt, histories.as_slice(), rows);
    } else {
        drop(broker);
    }
    used
}

fn use_up<R: Wait + Abort>(rt: &R, alloc: Global, rows: &Rows) -> Result<(), AllocError> {
    use_up_named::<Brand, R>(rt, alloc, Blanks::new(1), rows)
}

#[test]
fn generation_spent_in_one_of_two_shards(rt: HostRuntime) {
    let alloc = rt.alloc();
    let rows = rows_of_shards(&rt, alloc);
    if use_up(&rt, alloc, &rows).is_err() {
        use_up(&rt, alloc, &rows).expect(&rt, BACK);
    }
}
