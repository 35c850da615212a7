//! Frames of the protocol, with one struct for each kind.

use crate::boxed::Boxed;
use crate::origin::Origin;
use crate::sequence::Sequence;
use bytes::Bytes;
use wl_draft::{Entry, Mode, Name};

/// Operation that a tab's command asks of the lock manager.
#[derive(Clone, Drop, PartialEq, Eq)]
pub enum Operation {
    /// Requests a lock. If `if_available` is set, the broker grants it at once or not at all.
    Request {
        mode: Mode,
        if_available: bool,
        name: Name,
    },
    /// Releases the lock that the command `number` requested.
    Release {
        number: u32,
    },
    /// Aborts the request that the command `number` made.
    Abort {
        number: u32,
    },
    /// Asks for a snapshot of the partition's locks.
    Query,
}

/// One numbered command of a tab.
#[derive(Clone, Drop, PartialEq, Eq)]
pub struct Command {
    pub generation: u32,
    pub number: u32,
    pub operation: Operation,
}

/// Report of a tab that enters a generation: the number of commands it has issued, and its live
/// locks.
#[derive(Clone, Drop, PartialEq, Eq)]
pub struct Report {
    pub generation: u32,
    pub base: u32,
    /// Sorted by strictly rising number.
    pub entries: Sequence<Entry>,
}

/// One part of a tab's report: the number of commands it has issued, and some of its live locks.
#[derive(Clone, Drop, PartialEq, Eq)]
pub struct ReportPart {
    pub generation: u32,
    pub base: u32,
    /// Index of the part, counted from 0.
    pub part: u16,
    pub parts: u16,
    /// Sorted by strictly rising number.
    pub entries: Sequence<Entry>,
}

/// A tab's message to the other tabs of its partition (HTML Standard 9.5 BroadcastChannel).
#[derive(Clone, Drop)]
pub struct Post {
    pub number: u32,
    pub channel: Name,
    pub bytes: Bytes,
}

/// Message to a tab that a generation has begun.
#[derive(Clone, Drop, PartialEq, Eq)]
pub struct Hello {
    pub generation: u32,
}

/// Result of a command.
#[derive(Clone, Copy, Debug, PartialEq, Eq)]
pub enum Outcome {
    /// The request is waiting.
    Waiting,
    /// The lock is held.
    Granted,
    /// The request, lock or answer does not exist. For a probe, the lock was not available.
    Gone,
    /// The release or abort is done.
    Taken,
}

/// The broker's answer to one command.
#[derive(Clone, Drop, PartialEq, Eq)]
pub struct Answer {
    pub generation: u32,
    /// Number of the tab's commands that the broker has taken.
    pub upto: u32,
    pub number: u32,
    pub outcome: Outcome,
}

/// One lock in a snapshot.
#[derive(Clone, Drop, PartialEq, Eq)]
pub struct SnapshotEntry {
    /// Whether the lock is held. If not, its request is waiting.
    pub held: bool,
    pub tab: u16,
    pub mode: Mode,
    pub name: Name,
}

/// One part of the answer to a query. It lists the held locks in the order of granting, then the
/// waiting requests in the order of queueing.
#[derive(Clone, Drop, PartialEq, Eq)]
pub struct Snapshot {
    pub generation: u32,
    pub number: u32,
    /// Index of the part, counted from 0.
    pub part: u16,
    pub parts: u16,
    pub entries: Sequence<SnapshotEntry>,
}

/// A post as it is delivered to a tab.
#[derive(Clone, Drop)]
pub struct Heard {
    /// The tab that sent the post.
    pub source: u16,
    pub number: u32,
    pub channel: Name,
    pub bytes: Bytes,
}

/// The kernel's first frame to a tab's process: the tab's number and its origin.
#[derive(Clone, Drop)]
pub struct Welcome {
    pub tab: u16,
    pub origin: Origin,
}

/// The kernel's first frame to a tab's process whose page has another top-level origin.
#[derive(Clone, Drop)]
pub struct PairWelcome {
    pub tab: u16,
    pub top: Origin,
    pub own: Origin,
}

/// A frame's content from a tab to the broker.
#[derive(Clone, Drop, PartialEq, Eq)]
pub enum Upward {
    Command(Command),
    Report(Report),
    ReportPart(ReportPart),
}

/// A frame's content from the broker to a tab.
#[derive(Clone, Drop, PartialEq, Eq)]
pub enum Downward {
    Hello(Hello),
    Answer(Answer),
    Snapshot(Boxed<Snapshot>),
}

/// A tab's frame with the tab's number and its partition, which the kernel adds.
#[derive(Clone, Drop, PartialEq, Eq)]
pub struct Stamped {
    pub tab: u16,
    pub partition: u16,
    pub inner: Upward,
}

/// The kernel's first frame to a broker: its generation and its start list.
#[derive(Clone, Drop)]
pub struct Start {
    pub generation: u32,
    /// The tabs that the broker waits for, each with its partition, sorted by strictly rising tab
    /// number.
    pub list: Sequence<(u16, u16)>,
}

/// A broker's frame with the number of the tab that it is for.
#[derive(Clone, Drop, PartialEq, Eq)]
pub struct Addressed {
    pub tab: u16,
    pub inner: Downward,
}

/// Message to the broker that a tab is dead.
#[derive(Clone, Drop)]
pub struct Dead {
    pub tab: u16,
}

/// Any frame of the protocol.
#[derive(Clone, Drop)]
pub enum Frame {
    Command(Command),
    Report(Report),
    ReportPart(ReportPart),
    Post(Post),
    Hello(Hello),
    Answer(Answer),
    Snapshot(Snapshot),
    Heard(Heard),
    Welcome(Welcome),
    PairWelcome(PairWelcome),
    Stamped(Stamped),
    Start(Start),
    Addressed(Addressed),
    Dead(Dead),
}
