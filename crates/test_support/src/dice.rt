//! Numbers that look random, the same at each run.

ghost use Rattle.std.specs.Prelude.{◌<◌};

use wl_frames::Mode;

/// Pseudorandom sequence: the high bits of a linear congruence.
#[derive(Drop)]
pub struct Dice {
    state: u64,
}

impl Dice {
    /// Returns the sequence of a seed.
    pub fn new(seed: u64) -> Dice {
        Dice { state: seed }
    }

    /// Returns the next number, below `sides`.
    pub fn below(&mut self, sides: u64) -> u64
        ensures below { 0 < sides → result < sides }
    {
        self.state = self
            .state
            .wrapping_mul(6_364_136_223_846_793_005)
            .wrapping_add(1_442_695_040_888_963_407);
        (self.state >> 33).checked_rem(sides).unwrap_or(0)
    }

    /// Returns the next number as a command number, below `sides`.
    pub fn number(&mut self, sides: u64) -> u32 {
        u32::try_from(self.below(sides)).unwrap_or(0)
    }

    /// Returns true once in two calls on average.
    pub fn is_true(&mut self) -> bool {
        self.below(2) == 0
    }

    /// Returns a lock mode.
    pub fn mode(&mut self) -> Mode {
        if self.is_true() {
            Mode::Shared
        } else {
            Mode::Exclusive
        }
    }

    /// Returns one of the lock names `a`, `b` and `c`.
    pub fn lock_name(&mut self) -> &'static str {
        match self.below(3) {
            0 => "a",
            1 => "b",
            _ => "c",
        }
    }
}
