//! Statuses of a tab's numbers.

ghost use Rattle.std.specs.Prelude.{◌≡◌, ◌≢◌, ◌<◌, ◌≤◌, [], true, false, None, IsSome, IfOk, OnOk, OnErr};
ghost use Rattle.std.specs.Option.{option_copied};
ghost use Rattle.wl_draft.specs.Tables.{find, put, has_row, without_row};
ghost use Rattle.wl_agent.specs.SnapshotParts.{with_part, is_whole};
ghost use Rattle.wl_agent.specs.Tab.{is_live, reserves_number, is_asked, is_held, is_querying, count_of, carried};
ghost use Rattle.wl_agent.specs.Delivery.{parts_of, with_part_come};
ghost use Rattle.wl_agent.specs.AgentInvariant.{RowsFit, entries_of, due_below};
ghost use Rattle.wl_limits.specs.declared.tabs.TheConstants.{LIVE_LIMIT_IN_PARTS};

use crate::operations::{is_probe_at, reported};
use crate::status::Status;
use std::alloc::{AllocError, Global};
use std::collections::BTreeMap;
use std::marker::Model;
use wl_draft::Entry;
use wl_grammar::Operation;

/// The statuses of the numbers that are not over, with the counts needed for the limits.
#[derive(Drop)]
pub(crate) struct Statuses {
    rows: BTreeMap<u32, Status>,
    live: usize,
    /// Number of rows that reserve another number.
    kept: usize,
}

impl Model for Statuses {
    ghost use Rattle.std.specs.Prelude.{ℕ, List};
    ghost use Rattle.wl_agent.specs.declared.status.Status.{Status};
    ghost use Rattle.wl_agent.specs.AgentInvariant.{IsCounted};

    ghost Value = { List (ℕ × Status) };

    ghost view = { λ s. s.rows.entries };

    ghost invariant = { λ s. IsCounted s.rows.entries s.live s.kept };
}

impl Statuses {
    pub(crate) fn new(alloc: Global) -> Statuses
        ensures { result ≡ [] }
    {
        Statuses {
            rows: BTreeMap::new(alloc),
            live: 0,
            kept: 0,
        }
    }

    pub(crate) fn get(&self, number: u32) -> Option<&Status>
        ensures { option_copied result ≡ find self.now number }
    {
        self.rows.get(&number)
    }

    pub(crate) fn is_asked(&self, number: u32) -> bool
        ensures { result ≡ is_asked (find self.now number) }
    {
        matches!(self.get(number), Some(Status::Asked))
    }

    pub(crate) fn is_held(&self, number: u32) -> bool
        ensures { result ≡ is_held (find self.now number) }
    {
        matches!(self.get(number), Some(Status::Held))
    }

    pub(crate) fn is_querying(&self, number: u32) -> bool
        ensures { result ≡ is_querying (find self.now number) }
    {
        matches!(self.get(number), Some(Status::Querying(_)))
    }

    pub(crate) fn reserves_number(&self, number: u32) -> bool
        ensures { result ≡ reserves_number (find self.now number) }
    {
        self.get(number).is_some_and(Status::reserves_number)
    }

    pub(crate) fn live(&self) -> usize
        ensures { result ≡ count_of is_live self.now }
    {
        self.live
    }

    pub(crate) fn kept(&self) -> usize
        ensures { result ≡ count_of reserves_number self.now }
    {
        self.kept
    }

    /// Adds the status of a number that has none. Fails if out of memory.
    pub(crate) fn insert(&mut self, number: u32, status: Status) -> Result<(), AllocError>
        requires new { find self.old number ≡ None }
        requires few { count_of is_live self.old < LIVE_LIMIT_IN_PARTS }
        ensures ok { OnOk result (self.new ≡ put number status self.old) }
        ensures err { OnErr result (self.new ≡ self.old) }
    {
        let live = usize::from(status.is_live());
        let kept = usize::from(status.reserves_number());
        self.rows.insert(number, status)?;
        self.live += live;
        self.kept += kept;
        Ok(())
    }

    /// Replaces the status of a number that has one. Does not allocate.
    pub(crate) fn set(&mut self, number: u32, status: Status)
        requires there { IsSome (find self.old number) }
        requires few { count_of is_live self.old ≤ LIVE_LIMIT_IN_PARTS }
        ensures { self.new ≡ put number status self.old }
    {
        match self.rows.get_mut(&number) {
            Some(row) => {
                self.live = self.live - usize::from(row.is_live()) + usize::from(status.is_live());
                self.kept = self.kept - usize::from(row.reserves_number())
                    + usize::from(status.reserves_number());
                row.set(status);
            }
            None => unreachable!(),
        }
    }

    /// Removes the status of a number, which ends it.
    pub(crate) fn remove(&mut self, number: u32) -> Option<Status>
        ensures rest { self.new ≡ without_row number self.old }
        ensures status { result ≡ find self.old number }
    {
        let before = self.rows.remove(&number)?;
        self.live -= usize::from(before.is_live());
        self.kept -= usize::from(before.reserves_number());
        Some(before)
    }

    /// Ends the number.
    pub(crate) fn end(&mut self, number: u32)
        ensures { self.new ≡ without_row number self.old }
    {
        self.remove(number);
    }

    /// Adds a missing part of the snapshot to an asked query. Returns whether it was the last one.
    /// Fails if out of memory.
    pub(crate) fn take_part(
        &mut self,
        alloc: Global,
        part: &wl_grammar::Snapshot,
    ) -> Result<bool, AllocError>
        requires querying { is_querying (find self.old part.now.number) ≡ true }
        requires missing { has_row (parts_of (find self.old part.now.number)).came part.now.part ≡ false }
        ensures ok { OnOk result (self.new ≡ put part.now.number
            (with_part_come part.now (parts_of (find self.old part.now.number))) self.old) }
        ensures whole { IfOk result (λ whole.
            whole ≡ is_whole (with_part part.now (parts_of (find self.old part.now.number)))) }
        ensures err { OnErr result (self.new ≡ self.old) }
    {
        match self.rows.get_mut(&part.number) {
            Some(status) => {
                let whole = status.take_part(alloc, part)?;
                self.live -= usize::from(whole);
                Ok(whole)
            }
            None => unreachable!(),
        }
    }

    /// Updates the statuses for a later generation: asked probes end, and asked queries are lost.
    pub(crate) fn carry(&mut self, issued: &[Operation])
        ensures { self.new ≡ carried issued.now self.old }
    {
        self.rows.retain(|number, status| {
            status.carry();
            !(matches!(status, Status::Asked) && is_probe_at(issued, *number))
        });
        (self.live, self.kept) = counts(&self.rows);
    }

    /// Returns the entries of a report, by rising number. Fails if out of memory.
    pub(crate) fn reported(
        &self,
        alloc: Global,
        issued: &[Operation],
    ) -> Result<Vec<Entry>, AllocError>
        requires { RowsFit issued.now self.now }
        ensures { IfOk result (λ entries. entries.items ≡ entries_of issued.now self.now) }
    {
        let mut entries = Vec::new(alloc);
        for (number, status) in &self.rows {
            if let Some(entry) = reported(issued, *number, status)? {
                entries.push(entry)?;
            }
        }
        Ok(entries)
    }

    /// Returns the numbers below `bound` that are still asked, in rising order. Fails if out of
    /// memory.
    pub(crate) fn due_below(&self, alloc: Global, bound: u32) -> Result<Vec<u32>, AllocError>
        ensures numbers { IfOk result (λ numbers. numbers.items ≡ due_below bound self.now) }
        ensures growth { OnErr result (due_below bound self.now ≢ []) }
    {
        let mut numbers = Vec::new(alloc);
        for (number, status) in &self.rows {
            if *number < bound && matches!(status, Status::Asked | Status::Querying(_)) {
                numbers.push(*number)?;
            }
        }
        Ok(numbers)
    }
}

/// Returns the number of live rows, and the number of rows that reserve another number.
fn counts(rows: &BTreeMap<u32, Status>) -> (usize, usize)
    ensures live { result.0 ≡ count_of is_live rows.now.entries }
    ensures kept { result.1 ≡ count_of reserves_number rows.now.entries }
{
    let mut live = 0usize;
    let mut kept = 0usize;
    for status in rows.values() {
        live += usize::from(status.is_live());
        kept += usize::from(status.reserves_number());
    }
    (live, kept)
}
