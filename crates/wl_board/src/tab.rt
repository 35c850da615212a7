//! Tab numbers, tickets and life states.

ghost use Rattle.std.specs.Prelude.{◌≡◌};

use std::marker::Model;

/// A tab number drawn by a seat, which lets that seat bring the tab to life once. Its value in
/// contracts is the number.
#[derive(Debug, Drop)]
pub struct Ticket {
    tab: u16,
}

impl Model for Ticket {
    ghost use Rattle.std.specs.Prelude.{ℕ};

    ghost Value = { ℕ };

    ghost view = { λ ticket. ticket.tab };
}

impl Ticket {
    pub(crate) fn new(tab: u16) -> Ticket
        ensures { result ≡ tab }
    {
        Ticket { tab }
    }

    /// Returns the number drawn.
    pub fn tab(&self) -> u16
        ensures { result ≡ self.now }
    {
        self.tab
    }
}

/// The result of redeeming a ticket.
#[derive(Clone, Copy, Debug, PartialEq, Eq)]
pub enum Birth {
    /// The tab lives.
    Born,
    /// The tab was marked dead before it lived.
    WasDead,
}

/// The life state of a tab number.
#[derive(Clone, Copy, Debug, PartialEq, Eq)]
pub enum Life {
    /// No tab of this number has lived.
    None,
    Living,
    Dead,
}
