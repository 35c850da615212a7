//! Start list of a generation, and the number of listed tabs of each partition that have not
//! arrived.

ghost use Rattle.std.specs.Prelude.{◌≡◌, ◌-◌, IfOk, ℕ, []};
ghost use Rattle.wl_draft.specs.Tables.{at};
ghost use Rattle.wl_grammar.specs.Grammar.{TabsRiseFrom};
ghost use Rattle.wl_broker.specs.Broker.{listed_at};
ghost use Rattle.wl_broker.specs.BrokerInvariant.{missing_in, awaited_at, one_at};

use crate::seat::TabSeat;
use std::alloc::{AllocError, Global};
use std::collections::BTreeMap;

/// Returns the start list by tab, and the number of listed tabs of each partition. Fails if out of
/// memory.
pub fn read_list(
    alloc: Global,
    list: &[(u16, u16)],
) -> Result<(BTreeMap<u16, u16>, BTreeMap<u16, usize>), AllocError>
    requires { TabsRiseFrom 1 list.now }
    ensures listed { IfOk result (λ r. r.0.entries ≡ list.now) }
    ensures missing { IfOk result (λ r. (p : ℕ) → at 0 r.1.entries p ≡ missing_in list.now [] p) }
{
    let mut listed = BTreeMap::new(alloc);
    let mut missing = BTreeMap::new(alloc);
    for (tab, partition) in list {
        let others = missing_at(&missing, *partition);
        listed.insert(*tab, *partition)?;
        missing.insert(*partition, others + 1)?;
    }
    Ok((listed, missing))
}

/// Returns the partition under which a tab is listed.
pub fn listed_at(listed: &BTreeMap<u16, u16>, tab: u16) -> Option<u16>
    ensures { result ≡ listed_at tab listed.now.entries }
{
    listed.get(&tab).copied()
}

/// Returns the partition that waits for the tab, or `None` if the tab has arrived.
pub fn awaited_at(seat: Option<TabSeat>, partition: u16) -> Option<u16>
    ensures { result ≡ awaited_at seat (Some partition) }
{
    match seat {
        Some(_) => None,
        None => Some(partition),
    }
}

/// Returns the number of listed tabs of the partition that have not arrived.
pub fn missing_at(missing: &BTreeMap<u16, usize>, partition: u16) -> usize
    ensures { result ≡ at 0 missing.now.entries partition }
{
    missing.get(&partition).copied().unwrap_or(0)
}

/// Returns that number after the arrival of a tab for which the partition `place` waits.
pub fn missing_without(missing: &BTreeMap<u16, usize>, place: Option<u16>, partition: u16) -> usize
    ensures { result ≡ at 0 missing.now.entries partition - one_at place partition }
{
    let before = missing_at(missing, partition);
    if place == Some(partition) {
        before.saturating_sub(1)
    } else {
        before
    }
}

/// Records the arrival of a tab for which the partition `place` waits. The partition has a count,
/// so this does not allocate.
pub fn count_arrival(missing: &mut BTreeMap<u16, usize>, place: Option<u16>)
    ensures { (p : ℕ) → at 0 missing.new.entries p ≡ at 0 missing.old.entries p - one_at place p }
{
    if let Some(partition) = place {
        let count = missing_without(missing, place, partition);
        let _ = missing.insert(partition, count);
    }
}
