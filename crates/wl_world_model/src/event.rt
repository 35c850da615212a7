//! Events of the world, and bodies that a tab may forge.

ghost use Rattle.std.specs.Prelude.{◌≡◌, IfOk};

use bytes::Bytes;
use std::alloc::{AllocError, Global};
use wl_draft::{Mode, Name};
use wl_grammar::{Post, Sequence, Upward};
use wl_origin::Partition;
use wl_world_messages::Message;

/// One event. A message that is lost is one that no `Deliver` event ever names.
#[derive(Drop)]
pub enum Event {
    /// The kernel opens a tab.
    Open {
        tab: u16,
        partition: Partition,
    },
    /// The kernel opens a tab of the second kind, which may have more locks and reports in parts.
    OpenTwo {
        tab: u16,
        partition: Partition,
    },
    /// The tab requests a lock and waits for it.
    Ask {
        tab: u16,
        mode: Mode,
        name: Name,
    },
    /// The tab requests a lock with `ifAvailable`.
    Probe {
        tab: u16,
        mode: Mode,
        name: Name,
    },
    /// The tab queries the held locks and pending requests of its partition.
    Query {
        tab: u16,
    },
    /// The tab aborts the request with this number.
    Abort {
        tab: u16,
        number: u32,
    },
    /// The tab releases the lock with this number.
    Release {
        tab: u16,
        number: u32,
    },
    /// The tab sends again every message that may have been lost.
    Resend {
        tab: u16,
    },
    /// The tab opens a channel object.
    Channel {
        tab: u16,
        name: Name,
    },
    /// The tab posts on its channel object with this number.
    Post {
        tab: u16,
        channel: usize,
        bytes: Bytes,
    },
    /// The tab takes the oldest post out of the channel object's inbox.
    Read {
        tab: u16,
        channel: usize,
    },
    /// The tab closes the channel object.
    Close {
        tab: u16,
        channel: usize,
    },
    /// A message that was sent before arrives. It may arrive any number of times.
    Deliver(Message),
    /// The tab dies.
    Kill {
        tab: u16,
    },
    /// The kernel tells the broker that the tab is dead.
    Tell {
        tab: u16,
    },
    /// The broker stops.
    Stop,
    /// The broker of the next generation starts with this start list.
    Start(Sequence<u16>),
    /// The kernel sends the tab a hello with the broker's generation.
    Hello {
        tab: u16,
    },
    /// The tab is taken over: from here on it may send arbitrary frames.
    Corrupt {
        tab: u16,
    },
    /// A tab that was taken over sends this body.
    Forge {
        tab: u16,
        forged: Forged,
    },
}

/// A body that a tab may forge: any body of a kind that tabs send.
#[derive(Drop)]
pub enum Forged {
    /// A command, a report or a part of a report.
    Upward(Upward),
    Post(Post),
}

impl Event {
    /// Returns an equal event. The bytes of a post are shared with this event. Everything else is copied.
    pub fn copy(&self, alloc: Global) -> Result<Event, AllocError>
        ensures equals { IfOk result (λ copy. copy ≡ self.now) }
    {
        Ok(match self {
            Event::Open { tab, partition } => Event::Open {
                tab: *tab,
                partition: partition.copy(alloc)?,
            },
            Event::OpenTwo { tab, partition } => Event::OpenTwo {
                tab: *tab,
                partition: partition.copy(alloc)?,
            },
            Event::Ask { tab, mode, name } => Event::Ask {
                tab: *tab,
                mode: *mode,
                name: name.clone()?,
            },
            Event::Probe { tab, mode, name } => Event::Probe {
                tab: *tab,
                mode: *mode,
                name: name.clone()?,
            },
            Event::Query { tab } => Event::Query { tab: *tab },
            Event::Abort { tab, number } => Event::Abort {
                tab: *tab,
                number: *number,
            },
            Event::Release { tab, number } => Event::Release {
                tab: *tab,
                number: *number,
            },
            Event::Resend { tab } => Event::Resend { tab: *tab },
            Event::Channel { tab, name } => Event::Channel {
                tab: *tab,
                name: name.clone()?,
            },
            Event::Post {
                tab,
                channel,
                bytes,
            } => Event::Post {
                tab: *tab,
                channel: *channel,
                bytes: bytes.clone()?,
            },
            Event::Read { tab, channel } => Event::Read {
                tab: *tab,
                channel: *channel,
            },
            Event::Close { tab, channel } => Event::Close {
                tab: *tab,
                channel: *channel,
            },
            Event::Deliver(message) => Event::Deliver(message.copy()?),
            Event::Kill { tab } => Event::Kill { tab: *tab },
            Event::Tell { tab } => Event::Tell { tab: *tab },
            Event::Stop => Event::Stop,
            Event::Start(tabs) => Event::Start(Sequence::new(tabs.as_slice().to_vec(alloc)?)),
            Event::Hello { tab } => Event::Hello { tab: *tab },
            Event::Corrupt { tab } => Event::Corrupt { tab: *tab },
            Event::Forge { tab, forged } => Event::Forge {
                tab: *tab,
                forged: forged.copy()?,
            },
        })
    }
}

impl Forged {
    /// Returns an equal body. The bytes of a post are shared with this body. Everything else is copied.
    pub fn copy(&self) -> Result<Forged, AllocError>
        ensures equals { IfOk result (λ copy. copy ≡ self.now) }
    {
        Ok(match self {
            Forged::Upward(upward) => Forged::Upward(upward.clone()?),
            Forged::Post(post) => Forged::Post(post.clone()?),
        })
    }
}
