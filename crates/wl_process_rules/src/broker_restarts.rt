//! Pauses of the kernel's keeper before it restarts a broker.
//!
//! Brokers may fail at once, for instance while memory is short. The pauses keep such brokers from
//! using up the generations.

ghost use Rattle.std.specs.Prelude.{◌≡◌, ◌<◌, ◌≤◌, ◌+◌, ◌-◌, ◌*◌, ◌^◌, min, true, false};
ghost use Rattle.wl_process_rules.specs.declared.broker_restarts.TheConstants.{MIN_RUN, FREE_FAILURES, PAUSE_STEP, MAX_PAUSE};

use std::marker::Model;

/// The minimum run time of a broker, in milliseconds. A broker that ran for less and answered
/// nothing counts as a failed start.
pub const MIN_RUN: u64 = 50;

/// The number of failed starts in a row that cause no pause.
pub const FREE_FAILURES: u32 = 16;

/// The increase of the pause for each further failed start, in milliseconds.
pub const PAUSE_STEP: u64 = 20;

/// The longest pause, in milliseconds.
pub const MAX_PAUSE: u64 = 1_000;

/// The number of failed starts in a row. Its value in contracts is that number.
#[derive(Debug, Drop)]
pub struct Restarts {
    in_a_row: u32,
}

impl Model for Restarts {
    ghost use Rattle.std.specs.Prelude.{ℕ};

    ghost Value = { ℕ };

    ghost view = { λ r. r.in_a_row };
}

impl Restarts {
    /// Creates the state before any broker has ended.
    pub fn new() -> Restarts
        ensures { result ≡ 0 }
    {
        Restarts { in_a_row: 0 }
    }

    /// Records that a broker ended by itself after `lasted` milliseconds. `has_answered` tells
    /// whether it answered anything.
    pub fn end(&mut self, lasted: u64, has_answered: bool)
        ensures long { MIN_RUN ≤ lasted → self.new ≡ 0 }
        ensures answered { has_answered ≡ true → self.new ≡ 0 }
        ensures at_once { lasted < MIN_RUN → has_answered ≡ false → self.new ≡ min (self.old + 1) (2 ^ 32 - 1) }
    {
        self.in_a_row = if lasted < MIN_RUN && !has_answered {
            self.in_a_row.saturating_add(1)
        } else {
            0
        };
    }

    /// Returns the pause before the next start, in milliseconds.
    pub fn pause(&self) -> u64
        ensures { result ≡ min ((self.now - FREE_FAILURES) * PAUSE_STEP) MAX_PAUSE }
    {
        let more = u64::from(self.in_a_row.saturating_sub(FREE_FAILURES));
        (more * PAUSE_STEP).min(MAX_PAUSE)
    }
}
