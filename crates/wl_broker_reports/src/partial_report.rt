//! Reports that are not yet whole.

ghost use Rattle.std.specs.Prelude.{◌≡◌, ◌<◌, ◌++◌, ◌==◌, ◌+◌, ◌^◌, [], true, false, Some, IfOk, OnOk, OnErr, length, nat_le};
ghost use Rattle.std.specs.List.{list_all, flat_map};
ghost use Rattle.std.specs.Option.{option_copied};
ghost use Rattle.wl_draft.specs.Tables.{find, put, has_row, Rises};
ghost use Rattle.wl_broker_reports.specs.ReportParts.{all_above, all_below, is_in_order, fits, kept_at, came_in, with_told, without_partial};
ghost use Rattle.wl_broker_reports.specs.PartialReports.{told, is_kept, all_in_below, end_of};

use crate::heading::PartHeader;
use std::alloc::{AllocError, Global};
use std::collections::BTreeMap;
use std::marker::Model;
use wl_grammar::{Entry, Sequence};

/// The parts received of a tab's report. Each entry has a number below the base.
#[derive(Drop)]
pub struct PartialReport {
    /// The partition stamped on the first part.
    partition: u16,
    base: u32,
    /// Number of parts of the report.
    parts: u16,
    /// Maximum number of locks of the tab.
    limit: u16,
    came: BTreeMap<u16, Sequence<Entry>>,
}

impl Model for PartialReport {
    ghost use Rattle.std.specs.Prelude.{◌≡◌, true};
    ghost use Rattle.wl_broker_reports.specs.ReportParts.{Partial};
    ghost use Rattle.wl_broker_reports.specs.PartialReports.{all_in_below};

    ghost Value = { Partial };

    ghost view = { λ k. record { partition = k.partition; base = k.base; parts = k.parts; limit = k.limit; came = k.came.entries } };

    ghost invariant = { λ k. all_in_below k.base k.came.entries ≡ true };
}

impl PartialReport {
    /// Returns the report of this header, without any part yet.
    fn new(alloc: Global, partition: u16, heading: PartHeader) -> PartialReport
        ensures { result ≡ record {
          partition = partition;
          base = heading.base;
          parts = heading.parts;
          limit = heading.limit;
          came = [];
        } }
    {
        PartialReport {
            partition,
            base: heading.base,
            parts: heading.parts,
            limit: heading.limit,
            came: BTreeMap::new(alloc),
        }
    }

    /// Returns whether the part belongs to this report.
    fn fits(&self, heading: PartHeader, entries: &[Entry]) -> bool
        ensures { result ≡ fits (told heading entries.now) (Some self.now) }
    {
        heading.base == self.base
            && heading.parts == self.parts
            && heading.limit == self.limit
            && self.is_in_order(heading, entries)
    }

    /// Returns whether the numbers are above those of each lower part, and below those of each
    /// higher part.
    fn is_in_order(&self, heading: PartHeader, entries: &[Entry]) -> bool
        ensures { result ≡ list_all (is_in_order (told heading entries.now)) self.now.came }
    {
        for (part, row) in &self.came {
            if !is_in_order(heading, entries, *part, row.as_slice()) {
                return false;
            }
        }
        true
    }

    fn has(&self, part: u16) -> bool
        ensures { result ≡ has_row self.now.came part }
    {
        self.came.contains_key(&part)
    }

    /// Returns the number of parts received.
    fn count(&self) -> usize
        ensures count { result ≡ length self.now.came }
        ensures small { result < 2 ^ 63 }
    {
        self.came.len()
    }

    /// Adds a part. Fails if out of memory, and then changes nothing.
    fn insert(&mut self, alloc: Global, part: u16, entries: &[Entry]) -> Result<(), AllocError>
        requires { all_below self.old.base entries.now ≡ true }
        ensures ok { OnOk result (self.new ≡ record self.old { came = put part entries.now self.old.came }) }
        ensures err { OnErr result (self.new ≡ self.old) }
    {
        let mut copies = Vec::new(alloc);
        push_copies(entries, &mut copies)?;
        self.came.insert(part, Sequence::new(copies))?;
        Ok(())
    }

    /// Returns the entries of all parts, in the order of the parts, given the last missing part.
    /// Fails if out of memory.
    pub fn gathered(
        &self,
        alloc: Global,
        part: u16,
        entries: &[Entry],
    ) -> Result<Vec<Entry>, AllocError>
        requires { has_row self.now.came part ≡ false }
        ensures gathered { IfOk result (λ v.
            v.items ≡ flat_map (λ row. row.1) (put part entries.now self.now.came)) }
        ensures below { all_in_below self.now.base self.now.came ≡ true }
    {
        let mut gathered = Vec::new(alloc);
        let mut is_placed = false;
        for (number, row) in &self.came {
            if !is_placed && part < *number {
                push_copies(entries, &mut gathered)?;
                is_placed = true;
            }
            push_copies(row.as_slice(), &mut gathered)?;
        }
        if !is_placed {
            push_copies(entries, &mut gathered)?;
        }
        Ok(gathered)
    }
}

fn push_copies(entries: &[Entry], copies: &mut Vec<Entry>) -> Result<(), AllocError>
    ensures { OnOk result (copies.new.items ≡ copies.old.items ++ entries.now) }
{
    for entry in entries {
        copies.push(entry.clone()?)?;
    }
    Ok(())
}

/// Returns the least number above the numbers of all entries.
fn end_of(entries: &[Entry]) -> u64
    ensures { result ≡ end_of entries.now }
{
    let mut end = 0;
    for entry in entries {
        end = end.max(u64::from(entry.number) + 1);
    }
    end
}

/// Returns whether each number is at least `least`.
fn all_from(least: u64, entries: &[Entry]) -> bool
    ensures { result ≡ list_all (λ e. nat_le least e.number) entries.now }
{
    entries.iter().all(|entry| least <= u64::from(entry.number))
}

/// Returns whether each number of the second list is above all numbers of the first.
fn all_above(below: &[Entry], above: &[Entry]) -> bool
    ensures { result ≡ all_above below.now above.now }
{
    all_from(end_of(below), above)
}

/// Returns whether the entries are in order beside those of another part.
fn is_in_order(heading: PartHeader, entries: &[Entry], part: u16, row: &[Entry]) -> bool
    ensures { result ≡ is_in_order (told heading entries.now) (part, row.now) }
{
    if part < heading.part {
        all_above(row, entries)
    } else if heading.part < part {
        all_above(entries, row)
    } else {
        true
    }
}

// Reports of all tabs

/// Returns the parts kept of a tab's report, if there are any.
pub fn kept_of(kept: &BTreeMap<u16, PartialReport>, tab: u16) -> Option<&PartialReport>
    ensures { option_copied result ≡ find kept.now.entries tab }
{
    kept.get(&tab)
}

/// Returns the partition stamped on the first part of a tab's report, if any part is kept.
pub fn kept_at(kept: &BTreeMap<u16, PartialReport>, tab: u16) -> Option<u16>
    ensures { result ≡ kept_at (find kept.now.entries tab) }
{
    let kept = kept_of(kept, tab)?;
    Some(kept.partition)
}

/// Returns whether the part belongs to the report whose parts are kept. Any part fits if none is
/// kept.
pub fn fits(
    kept: &BTreeMap<u16, PartialReport>,
    tab: u16,
    heading: PartHeader,
    entries: &[Entry],
) -> bool
    ensures { result ≡ fits (told heading entries.now) (find kept.now.entries tab) }
{
    match kept_of(kept, tab) {
        Some(kept) => kept.fits(heading, entries),
        None => true,
    }
}

/// Returns whether this part of the tab's report is already kept.
pub fn has_part(kept: &BTreeMap<u16, PartialReport>, tab: u16, part: u16) -> bool
    ensures { result ≡ is_kept part (find kept.now.entries tab) }
{
    match kept_of(kept, tab) {
        Some(kept) => kept.has(part),
        None => false,
    }
}

/// Returns the number of parts received.
fn count_of(kept: &BTreeMap<u16, PartialReport>, tab: u16) -> usize
    ensures count { result ≡ length (came_in (find kept.now.entries tab)) }
    ensures small { result < 2 ^ 63 }
{
    match kept_of(kept, tab) {
        Some(kept) => kept.count(),
        None => 0,
    }
}

/// Returns whether all other parts are kept, so that this part is the last one missing.
pub fn is_last(kept: &BTreeMap<u16, PartialReport>, tab: u16, heading: PartHeader) -> bool
    ensures { result ≡ (length (came_in (find kept.now.entries tab)) + 1 == heading.parts) }
{
    count_of(kept, tab) + 1 == usize::from(heading.parts)
}

/// Keeps a part of a tab's report. Fails if out of memory, and then changes nothing.
pub fn keep(
    alloc: Global,
    kept: &mut BTreeMap<u16, PartialReport>,
    tab: u16,
    partition: u16,
    heading: PartHeader,
    entries: &[Entry],
) -> Result<(), AllocError>
    requires below { all_below heading.base entries.now ≡ true }
    requires fits { fits (told heading entries.now) (find kept.old.entries tab) ≡ true }
    ensures ok { OnOk result (kept.new.entries
        ≡ put tab (with_told partition (told heading entries.now) (find kept.old.entries tab))
        kept.old.entries) }
    ensures err { OnErr result (kept.new.entries ≡ kept.old.entries) }
{
    match kept.get_mut(&tab) {
        Some(row) => row.insert(alloc, heading.part, entries),
        None => {
            let mut row = PartialReport::new(alloc, partition, heading);
            row.insert(alloc, heading.part, entries)?;
            kept.insert(tab, row)?;
            Ok(())
        }
    }
}

/// Discards the parts kept of a tab's report. Does not allocate.
pub fn discard(kept: &mut BTreeMap<u16, PartialReport>, tab: u16)
    requires { Rises 0 kept.old.entries }
    ensures { kept.new.entries ≡ without_partial tab kept.old.entries }
{
    kept.remove(&tab);
}
