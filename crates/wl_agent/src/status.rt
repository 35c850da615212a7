//! Status of a command's number.

ghost use Rattle.std.specs.Prelude.{◌≡◌, true, false, Some, IfOk, OnOk, OnErr};
ghost use Rattle.wl_draft.specs.Tables.{has_row};
ghost use Rattle.wl_agent.specs.SnapshotParts.{with_part, is_whole};
ghost use Rattle.wl_agent.specs.Tab.{reserves_number, is_live, is_querying, unless_asked};
ghost use Rattle.wl_agent.specs.Delivery.{parts_of, with_part_come};

use crate::snapshot::Snapshot;
use crate::snapshot_parts::SnapshotParts;
use std::alloc::{AllocError, Global};

/// Status of a number that is not over. It is public only for contracts.
#[derive(Drop)]
pub enum Status {
    /// A request or probe that no answer has granted or refused yet.
    Asked,
    /// The tab holds the lock.
    Held,
    /// A query without its whole answer, and the parts received so far.
    Querying(SnapshotParts),
    /// A query's whole answer, which its token has not taken yet.
    Whole(Snapshot),
    /// A query that gets no answer, and whose token has not been told yet.
    Lost,
}

impl Status {
    /// Returns whether the number reserves another one, for its release or abort.
    pub(crate) fn reserves_number(&self) -> bool
        ensures { result ≡ reserves_number (Some self.now) }
    {
        matches!(self, Status::Asked | Status::Held)
    }

    pub(crate) fn is_live(&self) -> bool
        ensures { result ≡ is_live (Some self.now) }
    {
        matches!(self, Status::Asked | Status::Held | Status::Querying(_))
    }

    pub(crate) fn set(&mut self, status: Status)
        ensures { self.new ≡ status }
    {
        *self = status;
    }

    /// Adds a missing part of the snapshot. Returns whether it was the last one. Fails if out of
    /// memory.
    pub(crate) fn take_part(
        &mut self,
        alloc: Global,
        part: &wl_grammar::Snapshot,
    ) -> Result<bool, AllocError>
        requires querying { is_querying (Some self.old) ≡ true }
        requires missing { has_row (parts_of (Some self.old)).came part.now.part ≡ false }
        ensures ok { OnOk result (self.new ≡ with_part_come part.now (parts_of (Some self.old))) }
        ensures whole { IfOk result (λ whole.
            whole ≡ is_whole (with_part part.now (parts_of (Some self.old)))) }
        ensures err { OnErr result (self.new ≡ self.old) }
    {
        match self {
            Status::Querying(parts) => match parts.take(alloc, part)? {
                Some(snapshot) => {
                    *self = Status::Whole(snapshot);
                    Ok(true)
                }
                None => Ok(false),
            },
            _ => unreachable!(),
        }
    }

    /// Updates the status for a later generation: an asked query is lost.
    pub(crate) fn carry(&mut self)
        ensures { self.new ≡ unless_asked self.old }
    {
        if let Status::Querying(_) = self {
            *self = Status::Lost;
        }
    }
}
