//! End of a tab's agent.

ghost use Rattle.std.specs.Prelude.{◌≡◌};

use crate::agent::Agent;
use crate::token::Token;
use std::marker::Model;

/// The remains of a dead tab's agent, which consume its remaining tokens. Contracts see it as the
/// tab's number.
#[derive(Debug, Drop)]
pub struct DeadAgent {
    tab: u16,
}

impl Model for DeadAgent {
    ghost use Rattle.std.specs.Prelude.{ℕ};

    ghost Value = { ℕ };

    ghost view = { λ dead. dead.tab };
}

impl Agent {
    /// Ends the agent of a dead tab.
    pub fn die(self) -> DeadAgent
        ensures { result ≡ self.tab }
    {
        DeadAgent { tab: self.tab }
    }
}

impl DeadAgent {
    /// Returns the number of the dead tab.
    pub fn tab(&self) -> u16
        ensures { result ≡ self.now }
    {
        self.tab
    }

    /// Consumes a token. Does not allocate.
    pub fn void(&self, token: Token) {
        match token {
            Token::Pending(pending) => pending.consume(),
            Token::Probe(probe) => probe.consume(),
            Token::HeldLock(lock) => lock.consume(),
            Token::Asking(asking) => asking.consume(),
        }
    }
}
