//! Choice of the lane that reads a broker's link next.
//!
//! The lane that has read distributes the works. It then reads again, leaves reading to a lane that
//! has works to do, or asks an idle lane to read.

ghost use Rattle.std.specs.Prelude.{◌≡◌, ◌<◌, ◌≤◌, true, false};
ghost use Rattle.wl_process_rules.specs.declared.read_turns.TheConstants.{MAX_READER_WORKS};

/// The largest number of pending works with which a lane may be left to read next. A busier lane
/// would read late and delay all others.
pub const MAX_READER_WORKS: usize = 8;

/// The distribution of the works that one read brought.
#[derive(Clone, Copy, Debug, PartialEq, Eq)]
pub struct Dealt {
    /// The number of works of the reading lane.
    pub own: usize,
    /// The largest number of works of any other lane that was woken for them, or 0 if none was.
    pub others: usize,
}

impl Dealt {
    /// Returns true if the link is left to another lane, which reads it after its works.
    pub fn leaves(self) -> bool
        ensures idle { self.others ≡ 0 → result ≡ false }
        ensures few { 0 < self.others → self.others ≤ MAX_READER_WORKS → result ≡ true }
        ensures busy { MAX_READER_WORKS < self.others → result ≡ false }
    {
        self.others > 0 && self.others <= MAX_READER_WORKS
    }

    /// Returns true if an idle lane is asked to read, because the reading lane has many works to
    /// do.
    pub fn offers(self) -> bool
        ensures few { self.own ≤ MAX_READER_WORKS → result ≡ false }
        ensures left { 0 < self.others → self.others ≤ MAX_READER_WORKS → result ≡ false }
        ensures alone { MAX_READER_WORKS < self.own → self.others ≡ 0 → result ≡ true }
        ensures busy { MAX_READER_WORKS < self.own → MAX_READER_WORKS < self.others → result ≡ true }
    {
        self.own > MAX_READER_WORKS && !self.leaves()
    }
}
