//! Benchmark of the broker's lanes over shards, beside a broker without a lock and a locked broker that
//! one thread steps. The single brokers take two traces: one tab, and sixteen tabs that contend for
//! four locks.

mod events;
mod lanes;
mod steps;

use crate::brokers::events::Events;
use std::alloc::{AllocError, Global};
use std::io;
use std::sync::Wait;
use std::thread::Threads;
use std::time::{Clock, Instant};
use wl_broker::Broker;
use wl_locked::BookEvent;
use wl_table::IndexedTable;

/// The numbers of lanes and shards of each run.
const RUNS: [(u16, u16); 9] = [
    (1, 1),
    (1, 2),
    (1, 4),
    (2, 1),
    (2, 2),
    (2, 4),
    (4, 1),
    (4, 2),
    (4, 4),
];

/// The number of locks that each lane requests in a run without arguments.
const FEW: u32 = 50;

/// The number of locks that each lane requests in a timed run.
const MANY: u32 = 100_000;

/// The number of alternating runs with and without a lock.
const TURNS: u32 = 24;

/// The number of handovers of a timed run of one broker. With the reports and first requests it
/// makes at most as many steps as a generation may have in a shard.
const WHOLE: u32 = 32_751;

/// The source of one broker's events: a tab without rivals, or tabs that contend for the same
/// locks.
#[derive(Clone, Copy)]
enum Trace {
    OneTab,
    Tabs,
}

const TRACES: [Trace; 2] = [Trace::OneTab, Trace::Tabs];

/// The result of a run.
#[derive(Clone, Copy)]
pub(crate) struct Outcome {
    pub(crate) steps: u32,
    pub(crate) nanoseconds: u128,
}

/// Makes the runs that `only` selects: `alone`, `locked` or `lanes`; all if it is `None`. The word `turns`
/// repeats the first two alternately.
pub(crate) fn run<R: Threads + Wait + Clock + Sync + Print>(
    rt: &R,
    alloc: Global,
    is_timed: bool,
    only: Option<String>,
) -> io::Result<()> {
    if is_named(&only, "turns") {
        return alternate_alone_and_locked(rt, alloc, is_timed);
    }
    let whole = if is_timed { WHOLE } else { FEW };
    for trace in TRACES {
        if is_wanted(&only, "alone") {
            run_alone(rt, alloc, trace, is_timed, whole)?;
        }
        if is_wanted(&only, "locked") {
            run_locked(rt, alloc, trace, is_timed, whole)?;
        }
    }
    if is_wanted(&only, "lanes") {
        run_lanes(rt, alloc, is_timed)?;
    }
    Ok(())
}

/// Runs each number of lanes over each number of shards.
fn run_lanes<R: Threads + Wait + Clock + Sync + Print>(
    rt: &R,
    alloc: Global,
    is_timed: bool,
) -> io::Result<()> {
    let locks = if is_timed { MANY } else { FEW };
    for (lanes, shards) in RUNS {
        let outcome = lanes::run(rt, alloc, lanes, shards, locks)?;
        tell(rt, "lanes", (lanes, shards), is_timed, outcome)?;
    }
    Ok(())
}

/// Returns true if these runs are selected. All are if none is named.
fn is_wanted(only: &Option<String>, what: &str) -> bool {
    only.is_none() || is_named(only, what)
}

fn is_named(only: &Option<String>, what: &str) -> bool {
    match only {
        Some(word) => word.as_str() == what,
        None => false,
    }
}

/// Repeatedly runs the events of each trace without a lock and then with one.
fn alternate_alone_and_locked<R: Wait + Clock + Print>(
    rt: &R,
    alloc: Global,
    is_timed: bool,
) -> io::Result<()> {
    for trace in TRACES {
        for _ in 0..TURNS {
            run_alone(rt, alloc, trace, is_timed, WHOLE)?;
            run_locked(rt, alloc, trace, is_timed, WHOLE)?;
        }
    }
    Ok(())
}

/// Runs the events of a trace through a broker without a lock.
fn run_alone<R: Clock + Print>(
    rt: &R,
    alloc: Global,
    trace: Trace,
    is_timed: bool,
    locks: u32,
) -> io::Result<()> {
    let what = match trace {
        Trace::OneTab => "alone",
        Trace::Tabs => "alone-contended",
    };
    let events = events_of(alloc, trace, locks)?;
    let mut broker = started(alloc)?;
    tell(rt, what, (1, 1), is_timed, timed(rt, &mut broker, events)?)
}

/// Runs the events of a trace through a locked broker.
fn run_locked<R: Wait + Clock + Print>(
    rt: &R,
    alloc: Global,
    trace: Trace,
    is_timed: bool,
    locks: u32,
) -> io::Result<()> {
    let what = match trace {
        Trace::OneTab => "locked",
        Trace::Tabs => "locked-contended",
    };
    let events = events_of(alloc, trace, locks)?;
    tell(rt, what, (1, 1), is_timed, steps::run(rt, alloc, events)?)
}

fn events_of(alloc: Global, trace: Trace, locks: u32) -> Result<Events, AllocError> {
    match trace {
        Trace::OneTab => events::of_tab(alloc, 1, locks),
        Trace::Tabs => events::of_tabs(alloc, locks),
    }
}

/// Creates a broker of the first generation, and drops its hellos.
fn started(alloc: Global) -> Result<Broker<IndexedTable>, AllocError> {
    let (broker, hellos) = Broker::start(alloc, 1, &[])?;
    drop(hellos);
    Ok(broker)
}

/// Times a broker on these events.
fn timed<R: Clock>(
    rt: &R,
    broker: &mut Broker<IndexedTable>,
    events: Events,
) -> io::Result<Outcome> {
    let start = Instant::now(rt)?;
    let steps = steps_of(broker, events);
    Ok(Outcome {
        steps,
        nanoseconds: start.elapsed(rt)?.as_nanos(),
    })
}

/// Returns the number of these events that a broker accepts.
fn steps_of(broker: &mut Broker<IndexedTable>, events: Events) -> u32 {
    let mut steps = 0u32;
    for event in events {
        if takes(broker, &event) {
            steps = steps.saturating_add(1);
        }
    }
    steps
}

fn takes(broker: &mut Broker<IndexedTable>, event: &BookEvent) -> bool {
    match event {
        BookEvent::Take(stamped) => is_taken(broker.take(stamped)),
        BookEvent::Dead(tab) => is_taken(broker.dead(*tab)),
    }
}

/// Returns true if an event was accepted. Drops the result.
pub(crate) fn is_taken<T: Drop, E: Drop>(answer: Result<T, E>) -> bool {
    answer.is_ok()
}

/// Prints the time or the step count of a run.
fn tell<R: Print>(
    rt: &R,
    what: &str,
    (lanes, shards): (u16, u16),
    is_timed: bool,
    outcome: Outcome,
) -> io::Result<()> {
    if is_timed {
        println!(rt;
            "{what} {lanes} {shards} {} {}",
            outcome.steps, outcome.nanoseconds
        )
    } else {
        println!(rt; "{what} {lanes} {shards} {}", outcome.steps)
    }
}
