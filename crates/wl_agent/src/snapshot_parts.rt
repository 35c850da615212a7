//! Snapshot parts that a tab has received.

ghost use Rattle.std.specs.Prelude.{◌≡◌, ◌++◌, false, IfOk, OnOk, OnErr};
ghost use Rattle.wl_draft.specs.Tables.{has_row};
ghost use Rattle.wl_agent.specs.SnapshotParts.{no_parts, fits, with_part, whole_of, all_entries, held_in, pending_in, info_of};
ghost use Rattle.wl_agent.specs.Delivery.{parts_refusal};

use crate::drop_reason::DropReason;
use crate::snapshot::{LockInfo, Snapshot};
use std::alloc::{AllocError, Global};
use std::collections::BTreeMap;
use std::marker::Model;
use wl_grammar::{Sequence, SnapshotEntry};

/// The snapshot parts received for a query. It is public only for contracts, which see it as
/// `PartsState`.
#[derive(Drop)]
pub struct SnapshotParts {
    /// Number of parts of the snapshot, once one is received.
    count: u16,
    came: BTreeMap<u16, Sequence<SnapshotEntry>>,
}

impl Model for SnapshotParts {
    ghost use Rattle.wl_agent.specs.SnapshotParts.{PartsState};

    ghost Value = { PartsState };

    ghost view = { λ p. record { count = p.count; came = p.came.entries } };
}

impl SnapshotParts {
    pub(crate) fn new(alloc: Global) -> SnapshotParts
        ensures { result ≡ no_parts }
    {
        SnapshotParts {
            count: 0,
            came: BTreeMap::new(alloc),
        }
    }

    fn has(&self, part: u16) -> bool
        ensures { result ≡ has_row self.now.came part }
    {
        self.came.contains_key(&part)
    }

    /// Returns whether the part is a missing one.
    fn fits(&self, part: &wl_grammar::Snapshot) -> bool
        ensures { result ≡ fits part.now self.now }
    {
        (self.came.is_empty() || part.parts == self.count)
            && part.part < part.parts
            && !self.has(part.part)
    }

    /// Returns the reason to drop a part, or `None` if it is a missing one.
    pub(crate) fn refusal(&self, part: &wl_grammar::Snapshot) -> Option<DropReason>
        ensures { result ≡ parts_refusal part.now self.now }
    {
        if self.fits(part) {
            None
        } else if self.has(part.part) {
            Some(DropReason::Twice)
        } else {
            Some(DropReason::Odd)
        }
    }

    /// Adds a missing part. Returns the snapshot if it was the last one. Fails if out of memory,
    /// and then changes nothing.
    pub(crate) fn take(
        &mut self,
        alloc: Global,
        part: &wl_grammar::Snapshot,
    ) -> Result<Option<Snapshot>, AllocError>
        requires { has_row self.old.came part.now.part ≡ false }
        ensures ok { OnOk result (self.new ≡ with_part part.now self.old) }
        ensures snapshot { IfOk result (λ s. s ≡ whole_of (with_part part.now self.old)) }
        ensures err { OnErr result (self.new ≡ self.old) }
    {
        let entries = entries_of(part)?;
        self.came.insert(part.part, entries)?;
        if self.came.len() != usize::from(part.parts) {
            self.count = part.parts;
            return Ok(None);
        }
        match assemble(alloc, &self.came) {
            Ok(snapshot) => {
                self.count = part.parts;
                Ok(Some(snapshot))
            }
            Err(refused) => {
                self.came.remove(&part.part);
                Err(refused)
            }
        }
    }
}

fn entries_of(part: &wl_grammar::Snapshot) -> Result<Sequence<SnapshotEntry>, AllocError>
    ensures { IfOk result (λ entries. entries ≡ part.now.entries) }
{
    part.entries.clone()
}

/// Returns the snapshot made of these parts.
fn assemble(
    alloc: Global,
    came: &BTreeMap<u16, Sequence<SnapshotEntry>>,
) -> Result<Snapshot, AllocError>
    ensures held { IfOk result (λ s. s.held ≡ held_in (all_entries came.now.entries)) }
    ensures pending { IfOk result (λ s. s.pending ≡ pending_in (all_entries came.now.entries)) }
{
    let mut held = Vec::new(alloc);
    let mut pending = Vec::new(alloc);
    for entries in came.values() {
        divide(entries.as_slice(), &mut held, &mut pending)?;
    }
    Ok(Snapshot {
        held: Sequence::new(held),
        pending: Sequence::new(pending),
    })
}

/// Appends the held locks to one list, and the pending requests to the other.
fn divide(
    entries: &[SnapshotEntry],
    held: &mut Vec<LockInfo>,
    pending: &mut Vec<LockInfo>,
) -> Result<(), AllocError>
    ensures held { OnOk result (held.new.items ≡ held.old.items ++ held_in entries.now) }
    ensures pending { OnOk result (pending.new.items ≡ pending.old.items ++ pending_in entries.now) }
{
    for entry in entries {
        let info = info_of(entry)?;
        if entry.held {
            held.push(info)?;
        } else {
            pending.push(info)?;
        }
    }
    Ok(())
}

fn info_of(entry: &SnapshotEntry) -> Result<LockInfo, AllocError>
    ensures { IfOk result (λ info. info ≡ info_of entry.now) }
{
    Ok(LockInfo {
        tab: entry.tab,
        mode: entry.mode,
        name: entry.name.clone()?,
    })
}
