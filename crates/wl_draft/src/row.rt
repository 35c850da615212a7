//! Rows, report entries, grants and standings of locks.

ghost use Rattle.std.specs.Prelude.{◌≡◌};
ghost use Rattle.wl_draft.specs.Locks.{is_pair};

use crate::mode::Mode;
use crate::name::Name;

/// A held lock or a waiting request.
#[derive(Clone, Debug, Drop, PartialEq, Eq)]
pub struct Row {
    /// The client that requested the lock.
    pub client: u16,
    /// The client's number of the command that requested the lock.
    pub number: u32,
    pub name: Name,
    pub mode: Mode,
}

impl Row {
    /// Returns whether the row belongs to the pair.
    pub fn is_pair(&self, client: u16, number: u32) -> bool
        ensures { result ≡ is_pair client number self.now }
    {
        self.client == client && self.number == number
    }
}

/// A lock in a client's report.
#[derive(Clone, Debug, Drop, PartialEq, Eq)]
pub struct Entry {
    pub number: u32,
    /// Whether the lock is held. If not, its request is waiting.
    pub held: bool,
    pub mode: Mode,
    pub name: Name,
}

/// A lock that a call has granted.
#[derive(Clone, Copy, Debug, PartialEq, Eq)]
pub struct Grant {
    pub client: u16,
    pub number: u32,
}

impl From<&Row> for Grant {
    ghost from_gives = { λ row grant. grant ≡ record { client = row.now.client; number = row.now.number } };

    fn from(row: &Row) -> Grant {
        Grant {
            client: row.client,
            number: row.number,
        }
    }
}

/// State of a client's command number at the manager.
#[derive(Clone, Copy, Debug, PartialEq, Eq)]
pub enum Standing {
    Held,
    Waiting,
    Absent,
}
