//! Copies of the events of a row. A copy that is refused memory is made again.

use super::play::{Play, Way, played, run_holds};
use super::rows::{FIRST, FOURTH, QUEUED, SECOND, THIRD};
use std::alloc::{AllocError, Global};
use std::process::Abort;
use test_support::retry::BACK;
use wl_world::event::Event;

fn copy_of(rt: &impl Abort, alloc: Global, event: &Event) -> Event {
    match event.copy(alloc) {
        Ok(copy) => copy,
        Err(_) => event.copy(alloc).expect(rt, BACK),
    }
}

/// Returns whether both or neither of the events open a tab, and then the same tab of the same partition.
fn are_same_openings(one: &Event, other: &Event) -> bool {
    match (one, other) {
        (
            Event::Open { tab, partition },
            Event::Open {
                tab: other_tab,
                partition: other,
            },
        ) => tab == other_tab && partition == other && partition.text() == other.text(),
        (Event::Open { .. }, _) | (_, Event::Open { .. }) => false,
        _ => true,
    }
}

/// Returns copies of events, each the same opening as its original.
fn copies(rt: &impl Abort, alloc: Global, events: &[Event]) -> Result<Vec<Event>, AllocError> {
    let mut copies = Vec::new(alloc);
    for event in events {
        let copy = copy_of(rt, alloc, event);
        assert!(rt; are_same_openings(&copy, event));
        copies.push(copy)?;
    }
    Ok(copies)
}

/// Asserts that a run of copies of the row's events ends as the row does.
fn run_copies(rt: &impl Abort, alloc: Global, play: &Play) -> Result<(), AllocError> {
    let copies = copies(rt, alloc, play.events())?;
    run_holds(rt, alloc, copies.as_slice(), "held")
}

fn play_copies(rt: &impl Abort, alloc: Global) -> Result<(), AllocError> {
    let row = [FIRST, SECOND, THIRD, FOURTH, QUEUED];
    let play = played(rt, alloc, Way::Steps, &row)?;
    let ran = run_copies(rt, alloc, &play);
    drop(play);
    ran
}

#[test]
fn copies_of_events(rt: HostRuntime) {
    let alloc = rt.alloc();
    if play_copies(&rt, alloc).is_err() {
        play_copies(&rt, alloc).expect(&rt, BACK);
    }
}
