//! State of a client, and its events.

ghost use Rattle.std.specs.Prelude.{◌≡◌, [], ◌∷◌, None, IfSome};
ghost use Rattle.wl_client.specs.Client.{new_client};

use std::alloc::Global;
use std::collections::VecDeque;
use std::marker::Model;
use wl_broadcast::Hearing;
use wl_frames::{Feed, Frame};
use wl_tab::{TabChannels, TabLocks};
use wl_world_messages::Effect;

/// Something that has happened to the tab.
#[derive(Drop)]
pub enum Event {
    /// The welcome has arrived. The tab has this number.
    Welcomed(u16),
    /// A frame has changed the tab's locks: the tab has entered a generation, or a request, probe or query
    /// has a result.
    Told(Effect),
    /// A post can be read from some of the tab's channels.
    Heard(Hearing),
}

/// An item that the client has still to send.
#[derive(Drop)]
pub enum Unsent {
    /// The report, if it is due, and all commands that are due.
    Resend,
    /// The command with this number.
    Command(u32),
    /// A post.
    Post(Frame),
}

/// A tab's locks and channels, and its link to the hub as bytes.
#[derive(Drop)]
pub struct Client {
    pub(crate) alloc: Global,
    /// Whether the welcome has arrived. It tells the tab's number.
    pub(crate) is_welcomed: bool,
    pub(crate) locks: TabLocks,
    pub(crate) channels: TabChannels,
    pub(crate) feed: Feed,
    /// The frames of the last piece that arrived.
    pub(crate) arrived: Vec<Frame>,
    /// The number of arrived frames that have been handled.
    pub(crate) handled: usize,
    /// The frames of a report that is being sent.
    pub(crate) report: VecDeque<Frame>,
    /// The commands that are sent again behind the report.
    pub(crate) due: VecDeque<u32>,
    /// Items behind the report and the commands that are due.
    pub(crate) unsent: VecDeque<Unsent>,
    /// Events that the caller has not taken.
    pub(crate) events: VecDeque<Event>,
}

impl Model for Client {
    ghost use Rattle.std.specs.Prelude.{drop};
    ghost use Rattle.wl_client.specs.Client.{ClientState};

    ghost Value = { ClientState };

    ghost view = { λ c. record {
      is_welcomed = c.is_welcomed;
      locks = c.locks;
      channels = c.channels;
      feeding = c.feed;
      arrived = drop c.handled c.arrived.items;
      report = c.report.items;
      due = c.due.items;
      unsent = c.unsent.items;
      events = c.events.items;
    } };
}

impl Client {
    /// Creates a client that has not been welcomed.
    pub fn new(alloc: Global) -> Client
        ensures { result ≡ new_client }
    {
        Client {
            alloc,
            is_welcomed: false,
            locks: TabLocks::new(alloc, 0),
            channels: TabChannels::new(alloc, 0),
            feed: Feed::new(alloc),
            arrived: Vec::new(alloc),
            handled: 0,
            report: VecDeque::new(alloc),
            due: VecDeque::new(alloc),
            unsent: VecDeque::new(alloc),
            events: VecDeque::new(alloc),
        }
    }

    /// Removes and returns the oldest event.
    pub fn next_event(&mut self) -> Option<Event>
        ensures oldest { IfSome result (λ e. self.old ≡ record self.new { events = e ∷ self.new.events }) }
        ensures none { result ≡ None → (self.old.events ≡ []) × (self.new ≡ self.old) }
    {
        self.events.pop_front()
    }
}
