//! Event traces for the lanes.

use std::alloc::{AllocError, AllocFailed, Global};
use std::collections::VecDeque;
use wl_grammar::{Command, Mode, Name, Operation, Report, Sequence, Stamped, Upward};
use wl_locked::BookEvent;

pub(crate) type Events = VecDeque<BookEvent>;

/// The names of the locks. Tabs share a name if their numbers have the same remainder.
const NAMES: [&str; 4] = ["a", "b", "c", "d"];

/// The number of tabs of one partition that want the locks, four tabs per lock.
const TABS: u16 = 16;

/// Creates the trace of a tab without rivals: its report, then `locks` requests of one lock, each
/// followed by its release. Each tab has a partition of its own.
pub(crate) fn of_tab(alloc: Global, tab: u16, locks: u32) -> Result<Events, AllocError> {
    let name = name_of(tab);
    let mut events = VecDeque::new(alloc);
    add(&mut events, said(tab, tab, report(alloc)))?;
    for lock in 0..locks {
        let number = lock.wrapping_mul(2);
        let asked = request(alloc, name)?;
        add(&mut events, said(tab, tab, command(number, asked)))?;
        add(&mut events, said(tab, tab, release(number)))?;
    }
    Ok(events)
}

/// Creates the trace of tabs of one partition that contend for four locks, with three tabs waiting
/// for each.
///
/// After the reports and the first requests come `locks` handovers. In each, a lock's holder
/// releases it, which grants it to the next tab, and then requests it again.
pub(crate) fn of_tabs(alloc: Global, locks: u32) -> Result<Events, AllocError> {
    let mut events = VecDeque::new(alloc);
    for tab in 1..=TABS {
        add(&mut events, said(tab, 1, report(alloc)))?;
    }
    for tab in 1..=TABS {
        let asked = request(alloc, name_of(tab))?;
        add(&mut events, said(tab, 1, command(0, asked)))?;
    }
    for lock in 0..locks {
        let tab = (lock % u32::from(TABS)) as u16 + 1;
        let number = (lock / u32::from(TABS)).wrapping_mul(2);
        add(&mut events, said(tab, 1, release(number)))?;
        let asked = request(alloc, name_of(tab))?;
        add(
            &mut events,
            said(tab, 1, command(number.wrapping_add(2), asked)),
        )?;
    }
    Ok(events)
}

fn name_of(tab: u16) -> &'static str {
    NAMES[usize::from(tab) % NAMES.len()]
}

/// Appends an event. Fails if out of memory.
fn add<E: Drop>(events: &mut VecDeque<E>, event: E) -> Result<(), AllocError> {
    match events.push_back(event) {
        Ok(()) => Ok(()),
        Err(AllocFailed { value: _ }) => Err(AllocError),
    }
}

/// Creates an exclusive request of the lock of this name.
fn request(alloc: Global, name: &str) -> Result<Operation, AllocError> {
    Ok(Operation::Request {
        mode: Mode::Exclusive,
        if_available: false,
        name: Name::new(String::from_str(alloc, name)?),
    })
}

fn said(tab: u16, partition: u16, inner: Upward) -> BookEvent {
    BookEvent::Take(Stamped {
        tab,
        partition,
        inner,
    })
}

fn report(alloc: Global) -> Upward {
    Upward::Report(Report {
        generation: 1,
        base: 0,
        entries: Sequence::new(Vec::new(alloc)),
    })
}

fn command(number: u32, operation: Operation) -> Upward {
    Upward::Command(Command {
        generation: 1,
        number,
        operation,
    })
}

/// Creates the release of the lock that the request of this number got. It is the next command.
fn release(number: u32) -> Upward {
    command(number.wrapping_add(1), Operation::Release { number })
}
