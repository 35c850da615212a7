//! Tokens for the owners of commands, and the results they are told. Each token has to be consumed.

ghost use Rattle.std.specs.Prelude.{◌≡◌};

use crate::snapshot::Snapshot;
use std::marker::{Model, PhantomData};

/// Token of a command, for the owner of the command. It has to be consumed.
#[derive_where(Debug)]
pub struct CommandToken<K> {
    pub(crate) tab: u16,
    pub(crate) number: u32,
    #[derive_where(skip)]
    kind: PhantomData<K>,
}

/// Token of a request. `Agent::settle` or `Agent::abort` consumes it.
pub type Pending = CommandToken<kind::Pending>;

/// Token of a probe. `Agent::settle_probe` consumes it. A probe cannot be aborted.
pub type Probe = CommandToken<kind::Probe>;

/// Token of a lock that the tab holds. `Agent::release` consumes it.
pub type HeldLock = CommandToken<kind::HeldLock>;

/// Token of a query. `Agent::settle_query` consumes it.
pub type Asking = CommandToken<kind::Asking>;

/// Kinds of tokens. They have no values, and only tell the types of tokens apart.
pub mod kind {
    pub enum Pending {}

    pub enum Probe {}

    pub enum HeldLock {}

    pub enum Asking {}
}

impl<K> Model for CommandToken<K> {
    ghost use Rattle.wl_agent.specs.Issued.{Issued};

    ghost Value = { Issued };

    ghost view = { λ token. record { tab = token.tab; number = token.number } };
}

impl<K> CommandToken<K> {
    /// Creates the token of a command.
    pub(crate) fn new(tab: u16, number: u32) -> CommandToken<K>
        ensures { result ≡ record { tab = tab; number = number } }
    {
        CommandToken {
            tab,
            number,
            kind: PhantomData,
        }
    }

    /// Returns the number of the command, counted from 0 over the tab's life.
    pub fn number(&self) -> u32
        ensures { result ≡ self.now.number }
    {
        self.number
    }

    /// Turns the token of a granted command into the token of its lock.
    pub(crate) fn into_lock(self) -> HeldLock
        ensures { result ≡ self }
    {
        let CommandToken {
            tab,
            number,
            kind: _,
        } = self;
        CommandToken::new(tab, number)
    }

    /// Consumes the token.
    pub(crate) fn consume(self) {
        let CommandToken {
            tab: _,
            number: _,
            kind: _,
        } = self;
    }
}

/// A token of any kind.
#[derive(Debug)]
pub enum Token {
    Pending(Pending),
    Probe(Probe),
    HeldLock(HeldLock),
    Asking(Asking),
}

/// A token that an agent returns, because it belongs to another tab or its number is in no state
/// that allows such a token.
#[derive(Debug)]
pub struct Foreign<T> {
    pub value: T,
}

/// State of a request.
#[derive(Debug)]
pub enum Settled {
    /// The request is still asked.
    Waiting(Pending),
    Held(HeldLock),
}

/// State of a probe.
#[derive(Debug)]
pub enum ProbeSettled {
    /// The probe is still asked.
    Waiting(Probe),
    Held(HeldLock),
    /// The lock was not available.
    Null,
}

/// State of a query.
#[derive(Debug)]
pub enum QuerySettled {
    /// The query is still asked.
    Waiting(Asking),
    Whole(Snapshot),
    /// The generation that had to answer has ended, or its answer is lost.
    Lost,
}

/// Reason why a request was not aborted, with the token for its number.
#[derive(Debug)]
pub enum AbortFault {
    Foreign(Pending),
    /// The tab already holds the lock.
    Held(HeldLock),
}
