//! Tests that decide whether the broker takes a message.

ghost use Rattle.std.specs.Prelude.{◌≡◌, ◌&&◌, ◌||◌, ◌==◌, not, nat_lt};
ghost use Rattle.wl_draft.specs.Tables.{find};
ghost use Rattle.wl_broker_reports.specs.ReportParts.{kept_at, has_held, all_below, fits};
ghost use Rattle.wl_broker_reports.specs.PartialReports.{told};
ghost use Rattle.wl_broker.specs.Broker.{elsewhere, seated_at, is_listed, is_lock};
ghost use Rattle.wl_limits.specs.declared.tabs.TheConstants.{LAST_NUMBER};

use crate::seat::TabSeat;
use crate::seats::seated_at;
use std::collections::BTreeMap;
use wl_broker_reports::PartHeader;
use wl_broker_reports::partial_report::{PartialReport, fits, kept_at};
use wl_draft::Entry;
use wl_grammar::Operation;
use wl_limits::tabs::LAST_NUMBER;

fn elsewhere(place: Option<u16>, partition: u16) -> bool
    ensures { result ≡ elsewhere place partition }
{
    match place {
        Some(other) => other != partition,
        None => false,
    }
}

/// Returns whether a tab is listed, has joined or has a part of its report kept under another
/// partition.
pub fn is_misplaced(
    place: Option<u16>,
    seat: Option<TabSeat>,
    kept: &BTreeMap<u16, PartialReport>,
    tab: u16,
    partition: u16,
) -> bool
    ensures { result ≡ (elsewhere place partition
        || (elsewhere (seated_at seat) partition || elsewhere
        (kept_at (find kept.now.entries tab)) partition)) }
{
    elsewhere(place, partition)
        || elsewhere(seated_at(seat), partition)
        || elsewhere(kept_at(kept, tab), partition)
}

fn has_held(entries: &[Entry]) -> bool
    ensures { result ≡ has_held entries.now }
{
    entries.iter().any(|entry| entry.held)
}

/// Returns whether the tab is not listed and reports a held lock.
pub fn is_held_by_newcomer(place: Option<u16>, entries: &[Entry]) -> bool
    ensures { result ≡ (not (is_listed place) && has_held entries.now) }
{
    place.is_none() && has_held(entries)
}

fn all_below(base: u32, entries: &[Entry]) -> bool
    ensures { result ≡ all_below base entries.now }
{
    entries.iter().all(|entry| entry.number < base)
}

/// Returns whether some entry is not below the base, or the part does not fit the parts kept of the
/// report.
pub fn is_bad_report(
    kept: &BTreeMap<u16, PartialReport>,
    tab: u16,
    heading: PartHeader,
    entries: &[Entry],
) -> bool
    ensures { result ≡ not
        (all_below heading.base entries.now && fits (told heading entries.now) (find kept.now.entries tab)) }
{
    !(all_below(heading.base, entries) && fits(kept, tab, heading, entries))
}

/// Returns whether the operation requests a lock.
pub fn is_lock(operation: &Operation) -> bool
    ensures { result ≡ is_lock operation.now }
{
    matches!(operation, Operation::Request { .. })
}

/// Returns whether the number is above the next one, or is the last number, with which no command
/// is taken.
pub fn is_out_of_turn(next: u32, number: u32) -> bool
    ensures { result ≡ (nat_lt next number || number == LAST_NUMBER) }
{
    next < number || number == LAST_NUMBER
}
