//! Events of a broker: reports, commands and deaths of tabs, and replies to them.

ghost use Rattle.std.specs.Prelude.{◌<◌};

use std::alloc::{AllocError, Global};
use std::collections::VecDeque;
use std::sync::Wait;
use wl_frames::{
    Addressed, Answer, Command, Downward, Mode, Name, Operation, Outcome, Report, Sequence,
    Stamped, Upward,
};
use wl_locked::{
    BookEvent, Generation, Lane, LockedBroker, NotStepped, Outs, Receipt, Reply, Work, deal,
};

pub type Events = VecDeque<BookEvent>;

fn stamped(partition: u16, tab: u16, inner: Upward) -> BookEvent {
    BookEvent::Take(Stamped {
        tab,
        partition,
        inner,
    })
}

/// Returns a tab's first report.
pub fn report(alloc: Global, partition: u16, tab: u16) -> BookEvent {
    let report = Report {
        generation: 1,
        base: 0,
        entries: Sequence::new(Vec::new(alloc)),
    };
    stamped(partition, tab, Upward::Report(report))
}

/// Returns a tab's command.
pub fn command(partition: u16, tab: u16, number: u32, operation: Operation) -> BookEvent {
    let command = Command {
        generation: 1,
        number,
        operation,
    };
    stamped(partition, tab, Upward::Command(command))
}

/// Returns a request for the exclusive lock `a`.
pub fn request(alloc: Global) -> Result<Operation, AllocError> {
    Ok(Operation::Request {
        mode: Mode::Exclusive,
        if_available: false,
        name: Name::new(String::from_str(alloc, "a")?),
    })
}

/// Adds an event.
pub fn add(events: &mut Events, event: BookEvent) -> Result<(), AllocError> {
    events.push_back(event)?;
    Ok(())
}

/// Returns these events as works over `shards` shards.
pub fn dealt(alloc: Global, shards: u16, events: Events) -> Result<VecDeque<Work>, AllocError>
    requires { 0 < shards }
{
    let mut works = Vec::new(alloc);
    for event in events {
        deal(&mut works, shards, event)?;
    }
    works.into_iter().collect::<VecDeque<Work>>(alloc)
}

/// Calls `take` alone: a caller without its clauses is proved much sooner.
pub fn take_once<J: Generation, R: Wait>(
    rt: &R,
    broker: &LockedBroker<J>,
    lane: &mut Lane<J>,
    event: BookEvent,
) -> Result<Receipt, NotStepped> {
    broker.take(rt, lane, event)
}

/// Returns the answer to a tab's command.
pub fn answer(tab: u16, upto: u32, number: u32, outcome: Outcome) -> Addressed {
    Addressed {
        tab,
        inner: Downward::Answer(Answer {
            generation: 1,
            upto,
            number,
            outcome,
        }),
    }
}

/// Returns a reply that sends up to two frames.
pub fn reply(
    alloc: Global,
    first: Option<Addressed>,
    second: Option<Addressed>,
) -> Result<Reply, AllocError> {
    let mut outs = Vec::new(alloc);
    if let Some(first) = first {
        outs.push(first)?;
    }
    if let Some(second) = second {
        outs.push(second)?;
    }
    Ok(Reply::Outs(Outs::new(outs)))
}
