//! Rate limit of a tab's frames to the broker.
//!
//! All tabs share the broker's link. A tab that floods its own link is paused there, so the frames
//! of other tabs do not queue behind its flood.

ghost use Rattle.std.specs.Prelude.{◌≡◌, ◌+◌, ◌*◌, ◌^◌, ◌-◌, min};
ghost use Rattle.wl_process_rules.specs.declared.tab_pace.TheConstants.{FRAME_COST, BYTE_COST, BURST};

use std::marker::Model;

/// The time that one frame costs, in nanoseconds. Limits the sustained rate to 62,500 frames per
/// second.
pub const FRAME_COST: u64 = 16_000;

/// The time that one byte costs, in nanoseconds. Limits the sustained rate to 8,000,000 bytes per
/// second.
pub const BYTE_COST: u64 = 125;

/// The time by which a tab may be ahead of its pace, in nanoseconds.
pub const BURST: u64 = 50_000_000;

/// An amount of data that a tab sends at once.
#[derive(Clone, Copy, Debug, PartialEq, Eq)]
pub struct Load {
    pub frames: u32,
    /// Total size of all frames.
    pub bytes: u32,
}

impl Load {
    /// No data.
    pub const NOTHING: Load = Load {
        frames: 0,
        bytes: 0,
    };
}

/// A tab's rate limiter. Its value in contracts is the time by which the tab is ahead, in
/// nanoseconds.
#[derive(Debug, Drop)]
pub struct Pace {
    ahead: u64,
}

impl Model for Pace {
    ghost use Rattle.std.specs.Prelude.{ℕ};

    ghost Value = { ℕ };

    ghost view = { λ p. p.ahead };
}

impl Pace {
    /// Creates the limiter of a tab that has sent nothing.
    pub fn new() -> Pace
        ensures { result ≡ 0 }
    {
        Pace { ahead: 0 }
    }

    /// Records that the tab sends `load`, `elapsed` nanoseconds after it last sent.
    pub fn send(&mut self, load: Load, elapsed: u64)
        ensures { self.new
            ≡ min (self.old - elapsed + (load.frames * FRAME_COST + load.bytes * BYTE_COST)) (2 ^ 64 - 1) }
    {
        let cost = u64::from(load.frames) * FRAME_COST + u64::from(load.bytes) * BYTE_COST;
        self.ahead = self.ahead.saturating_sub(elapsed).saturating_add(cost);
    }

    /// Returns the number of nanoseconds that the tab must pause. After the pause it is ahead by at
    /// most `BURST`.
    pub fn pause(&self) -> u64
        ensures { result ≡ self.now - BURST }
    {
        self.ahead.saturating_sub(BURST)
    }
}
