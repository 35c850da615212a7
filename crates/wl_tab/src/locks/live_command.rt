//! Command and token of a number in use.

ghost use Rattle.std.specs.Prelude.{◌≡◌, IfOk};
ghost use Rattle.wl_agent.specs.Tab.{is_request};
ghost use Rattle.wl_tab.specs.TabTokens.{number_of, is_lock, holding_in, ended_by};

use crate::holding::Holding;
use std::alloc::{AllocError, Global};
use wl_agent::Token;
use wl_grammar::Operation;
use wl_world_messages::Ended;

/// A number that is not over: its command and its token.
pub struct LiveCommand {
    pub(crate) operation: Operation,
    pub(crate) token: Token,
}

impl LiveCommand {
    pub(crate) fn number(&self) -> u32
        ensures { result ≡ number_of self.now.token }
    {
        match &self.token {
            Token::Pending(pending) => pending.number(),
            Token::Probe(probe) => probe.number(),
            Token::HeldLock(lock) => lock.number(),
            Token::Asking(asking) => asking.number(),
        }
    }

    /// Returns whether it is a request that may wait.
    pub(crate) fn is_request(&self) -> bool
        ensures { result ≡ is_request self.now.operation }
    {
        match &self.operation {
            Operation::Request { if_available, .. } => !*if_available,
            _ => false,
        }
    }

    /// Returns whether its lock is held.
    pub(crate) fn is_lock(&self) -> bool
        ensures { result ≡ is_lock self.now.token }
    {
        matches!(&self.token, Token::HeldLock(_))
    }

    /// Returns the result that ends a probe or a query when its tab enters a later generation. Others have none.
    pub(crate) fn ended(&self) -> Option<Ended>
        ensures { result ≡ ended_by self.now.token }
    {
        match &self.token {
            Token::Probe(probe) => Some(Ended::Null(probe.number())),
            Token::Asking(asking) => Some(Ended::Lost(asking.number())),
            _ => None,
        }
    }

    /// Returns the holding for this number if its lock is held.
    pub(crate) fn holding(&self, tab: u16) -> Result<Option<Holding>, AllocError>
        ensures { IfOk result (λ holding. holding ≡ holding_in tab self.now) }
    {
        match (&self.token, &self.operation) {
            (Token::HeldLock(lock), Operation::Request { mode, name, .. }) => Ok(Some(Holding {
                tab,
                number: lock.number(),
                mode: *mode,
                name: name.clone()?,
            })),
            _ => Ok(None),
        }
    }
}
