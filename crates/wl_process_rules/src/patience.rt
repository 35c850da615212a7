//! Patience of a tab that waits for a request.

ghost use Rattle.std.specs.Prelude.{◌≡◌, ◌<◌, ◌≤◌, ◌+◌};
ghost use Rattle.wl_process_rules.specs.declared.patience.TheConstants.{RESEND_LIMIT};

use std::marker::Model;

/// The number of times that a waiting tab resends its commands.
pub const RESEND_LIMIT: u16 = 3_000;

/// The next action of a waiting tab after a quiet interval.
#[derive(Clone, Copy, Debug, PartialEq, Eq)]
pub enum Next {
    /// The tab resends its commands.
    Resend,
    /// The tab gives up, because it has resent `RESEND_LIMIT` times.
    GiveUp,
}

/// The number of resends of a waiting tab. Its value in contracts is that number.
#[derive(Debug, Drop)]
pub struct Patience {
    resends: u16,
}

impl Model for Patience {
    ghost use Rattle.std.specs.Prelude.{ℕ};

    ghost Value = { ℕ };

    ghost view = { λ p. p.resends };
}

impl Patience {
    /// Creates the state of a tab that starts to wait.
    pub fn new() -> Patience
        ensures { result ≡ 0 }
    {
        Patience { resends: 0 }
    }

    /// Returns the tab's next action after an interval without an event that could end the wait.
    /// Counts a resend.
    pub fn quiet(&mut self) -> Next
        ensures resend { self.old < RESEND_LIMIT → (result ≡ Next.Resend) × (self.new ≡ self.old + 1) }
        ensures give_up { RESEND_LIMIT ≤ self.old → (result ≡ Next.GiveUp) × (self.new ≡ self.old) }
    {
        if self.resends >= RESEND_LIMIT {
            return Next::GiveUp;
        }
        self.resends += 1;
        Next::Resend
    }
}
