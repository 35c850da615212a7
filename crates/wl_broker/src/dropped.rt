//! Reasons why the broker drops a message.

use thiserror::Error;

/// Reason why the broker did not take a message. A dropped message changes nothing.
#[derive(Clone, Copy, Debug, PartialEq, Eq, Error)]
pub enum Dropped {
    /// The message belongs to an earlier generation.
    #[error("OldGeneration")]
    OldGeneration,
    /// The message belongs to a later generation.
    #[error("LaterGeneration")]
    LaterGeneration,
    /// The command's tab has not reported in this generation.
    #[error("NotJoined")]
    NotJoined,
    /// The command's partition is recovering: not all its listed tabs have arrived.
    #[error("Recovering")]
    Recovering,
    /// The command's number is above the tab's next one, or is the last number of all.
    #[error("OutOfTurn")]
    OutOfTurn,
    /// The tab is dead.
    #[error("DeadTab")]
    DeadTab,
    /// The tab has already joined.
    #[error("AlreadyJoined")]
    AlreadyJoined,
    /// The tab is not listed, and reports a held lock.
    #[error("HeldByNewcomer")]
    HeldByNewcomer,
    /// The report has an entry that is not below its base, or does not fit the parts kept of it.
    #[error("BadReport")]
    BadReport,
    /// The tab is listed, has joined or has a part of its report kept under another partition.
    #[error("Misplaced")]
    Misplaced,
    /// Out of memory.
    #[error("Memory")]
    Memory,
    /// The tab has reached its limit of locks.
    #[error("TooMany")]
    TooMany,
    /// This part of the report is already kept.
    #[error("PartTwice")]
    PartTwice,
}
