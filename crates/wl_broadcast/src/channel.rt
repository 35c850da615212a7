//! Handles of channel objects.

ghost use Rattle.std.specs.Prelude.{◌≡◌};

use std::marker::Model;

/// Handle of a tab's channel object, held by the owner of the channel. `Channels::close` or
/// `Channels::end` consumes it.
#[derive(Debug)]
pub struct Channel {
    pub(crate) tab: u16,
    pub(crate) number: usize,
}

impl Model for Channel {
    ghost use Rattle.wl_broadcast.specs.Owned.{Owned};

    ghost Value = { Owned };

    ghost view = { λ channel. record { tab = channel.tab; number = channel.number } };
}

impl Channel {
    /// Returns the channel's number, counted from 0 over the tab's life.
    pub fn number(&self) -> usize
        ensures { result ≡ self.now.number }
    {
        self.number
    }
}

/// A channel passed to the channels of another tab, which return it to the caller.
#[derive(Debug)]
pub struct Foreign<C> {
    pub value: C,
}
