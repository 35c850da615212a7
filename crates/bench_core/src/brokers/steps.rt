//! A locked broker with one lane, which records its history and is stepped by one thread.

ghost use Rattle.std.specs.Prelude.{◌≡◌, []};
ghost use Rattle.wl_broker.specs.Broker.{started};

use crate::brokers::events::Events;
use crate::brokers::{Outcome, is_taken};
use std::alloc::Global;
use std::io;
use std::marker::Brand;
use std::sync::Wait;
use std::sync::ledger::Blank;
use std::time::{Clock, Instant};
use wl_locked::{Generation, Lane, LockedBroker};

/// Runs these events through the only lane of a locked broker.
pub(crate) fn run<R: Wait + Clock>(rt: &R, alloc: Global, events: Events) -> io::Result<Outcome> {
    run_named::<Brand, R>(rt, alloc, Blank::new(1), events)
}

fn run_named<J: Generation, R: Wait + Clock>(
    rt: &R,
    alloc: Global,
    blank: Blank,
    events: Events,
) -> io::Result<Outcome>
    requires name { blank.name ≡ J.name }
    requires parts { (blank.parts ≡ J.parts) × (J.parts ≡ 1) }
    requires opening { J.opening ≡ started 1 [] }
    requires limit { J.limit ≡ 4294967295 }
{
    let (broker, mut lanes, hellos) = LockedBroker::<J>::new(alloc, blank, 1, &[], u32::MAX, 1)?;
    drop(hellos);
    match lanes.get_mut(0) {
        Some(lane) => timed(rt, &broker, lane, events),
        None => Err(io::Error::from(io::ErrorKind::Other)),
    }
}

/// Times a lane on these events.
fn timed<J: Generation, R: Wait + Clock>(
    rt: &R,
    broker: &LockedBroker<J>,
    lane: &mut Lane<J>,
    events: Events,
) -> io::Result<Outcome> {
    let start = Instant::now(rt)?;
    let steps = steps_of(rt, broker, lane, events);
    Ok(Outcome {
        steps,
        nanoseconds: start.elapsed(rt)?.as_nanos(),
    })
}

/// Returns the number of these events that make a step.
fn steps_of<J: Generation, R: Wait>(
    rt: &R,
    broker: &LockedBroker<J>,
    lane: &mut Lane<J>,
    events: Events,
) -> u32 {
    let mut steps = 0u32;
    for event in events {
        if is_taken(broker.take(rt, lane, event)) {
            steps = steps.saturating_add(1);
        }
    }
    steps
}
