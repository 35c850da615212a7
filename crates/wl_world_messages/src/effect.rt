//! Effects of events, and reasons for refusals and drops.

use bytes::Bytes;
use wl_agent::{AgentFault, DropReason, Snapshot};
use wl_broadcast::{ChannelFault, Letter};
use wl_broker::Dropped;
use wl_grammar::Sequence;
use wl_kernel::{OpenFault, StartFault};
use wl_origin::Partition;

/// Effect of an event, apart from the messages that it sends.
#[derive(Drop)]
pub enum Effect {
    /// The event was refused and did nothing.
    Refused(Refusal),
    /// A message was delivered and changed nothing, except possibly the count of commands that
    /// its recipient knows to be taken.
    Dropped(Reason),
    /// The tab was opened in this partition.
    Opened {
        tab: u16,
        partition: Partition,
    },
    /// The tab of the second kind was opened in this partition.
    OpenedTwo {
        tab: u16,
        partition: Partition,
    },
    /// The broker of this generation is up.
    Started {
        generation: u32,
    },
    /// The broker of this generation is down.
    Stopped {
        generation: u32,
    },
    /// The kernel has sent the tab a hello with the broker's generation.
    Greeted,
    /// The tab is dead.
    Killed {
        tab: u16,
    },
    /// The broker knows that the tab is dead.
    Told {
        tab: u16,
    },
    /// The tab has issued its next command, with this number.
    Issued {
        tab: u16,
        number: u32,
    },
    /// All messages that may have been lost were sent again.
    Resent,
    /// The broker has taken the tab's report.
    Joined {
        tab: u16,
    },
    /// The broker has taken a command, or has answered it again.
    Answered,
    /// The tab has entered a generation.
    Entered {
        generation: u32,
        /// The numbers that ended on entering, by rising number.
        ended: Sequence<Ended>,
    },
    /// The tab holds the lock with this number.
    Granted(u32),
    /// The request with this number waits.
    Waiting(u32),
    /// The probe with this number was refused.
    Null(u32),
    /// The query with this number is lost and gets no answer.
    Lost(u32),
    /// The broker has taken the release or abort with this number.
    Taken(u32),
    /// A part of a snapshot or of a report was taken, and others are missing.
    Part {
        part: u16,
        parts: u16,
    },
    /// A snapshot is complete.
    Whole {
        number: u32,
        snapshot: Snapshot,
    },
    /// A post has arrived at the tab. `objects` has the result at each open object of its name, oldest first.
    Heard {
        tab: u16,
        letter: Letter,
        objects: Sequence<Reached>,
    },
    /// The tab has opened the channel object with this number.
    ChannelOpened {
        channel: usize,
    },
    /// The tab has posted. `objects` has the result at each other open object of the name, oldest first.
    Posted {
        tab: u16,
        number: u32,
        bytes: Bytes,
        objects: Sequence<Reached>,
    },
    /// The oldest post was taken out of the channel's inbox.
    Read(Letter),
    /// The channel is closed. It may have been closed before.
    Closed {
        channel: usize,
    },
    /// The tab is taken over. It may have been taken over before.
    Corrupted {
        tab: u16,
    },
    /// The forged body was sent.
    Forged,
}

/// A number that ended when its tab entered a generation.
#[derive(Clone, Copy, Debug, PartialEq, Eq)]
pub enum Ended {
    /// The probe with this number was refused.
    Null(u32),
    /// The query with this number is lost and gets no answer.
    Lost(u32),
}

/// Result of a post at the channel object with this number.
#[derive(Clone, Copy, Debug, PartialEq, Eq)]
pub enum Reached {
    /// The post is in its inbox.
    Took(usize),
    /// Its inbox was full.
    Full(usize),
}

/// Reason for which an event was refused.
#[derive(Clone, Copy, Debug, PartialEq, Eq)]
pub enum Refusal {
    /// The tab was never opened, or is dead.
    NoTab,
    /// The kernel did not open the tab.
    Open(OpenFault),
    /// A broker is already up.
    AlreadyUp,
    /// The kernel did not start a broker.
    Start(StartFault),
    /// No broker is up that could be stopped.
    AlreadyDown,
    /// The broker is of the last generation, 65,535.
    GenerationsUsedUp,
    /// No broker is up.
    Down,
    /// The tab lives.
    Living,
    /// The tab's agent did not issue the command.
    Ask(AgentFault),
    /// The lock is held, so its request cannot be aborted.
    Held,
    /// There is nothing to abort, to release, to send again or to read.
    Nothing,
    /// No such message was ever sent.
    NoMessage,
    /// The channel was not opened, or nothing was posted.
    Channel(ChannelFault),
    /// The tab has opened no channel with this number.
    NoChannel,
    /// The channel is closed.
    InvalidState,
    /// The tab was never taken over, so it cannot forge.
    Honest,
}

/// Reason for which a delivered message was dropped.
#[derive(Clone, Copy, Debug, PartialEq, Eq)]
pub enum Reason {
    /// The recipient is dead.
    DeadTab,
    /// The tab that received it dropped it.
    AtTab(DropReason),
    /// The tab has already received this post or a later one from the same source.
    OldPost,
    /// No broker is up.
    Down,
    /// The broker dropped it.
    AtBroker(Dropped),
}
