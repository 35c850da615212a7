//! Reasons for which a tab drops a frame, such as a grant that arrives after the abort.

/// Reason why a frame was dropped.
#[derive(Clone, Copy, Debug, PartialEq, Eq)]
pub enum DropReason {
    /// The generation is before the entered one. A hello is also dropped if its generation is the
    /// entered one.
    OldGeneration,
    /// The tab has not entered the generation yet.
    LaterGeneration,
    /// The lock is already held.
    Held,
    /// The number is over, because of an abort, a release, an earlier answer or a later generation.
    Over,
    /// A broker never sends this answer to this command.
    Odd,
    /// The part was received before.
    Twice,
    /// A broker never sends a frame of this kind to a tab.
    WrongKind,
    /// Out of memory. Nothing changed.
    Memory,
}
