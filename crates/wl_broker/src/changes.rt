//! Effects of reports, deaths and commands on the partitions.

ghost use Rattle.std.specs.Prelude.{◌≡◌, IfOk, OnOk, OnErr, IsTrue, true, [], length, replicate, ◌&&◌, nat_le};
ghost use Rattle.std.specs.Option.{option_copied};
ghost use Rattle.wl_draft.specs.declared.row.Standing.TheVariants.{Absent};
ghost use Rattle.wl_draft.specs.Tables.{at, put};
ghost use Rattle.wl_draft.specs.Locks.{settle, newly_granted, settle_if, newly_granted_if, standing, live, grants, without, ended, restored};
ghost use Rattle.wl_broker.specs.Broker.{drafted, is_lock, outcome_at, snapshot_of, snapshot_entries};
ghost use Rattle.wl_broker.specs.BrokerInvariant.{no_partition, state_of, row_or};

use crate::answers::outcome;
use crate::judging::is_lock;
use crate::outs::Outs;
use crate::partition_locks::PartitionLocks;
use std::alloc::{AllocError, Global};
use std::collections::BTreeMap;
use wl_draft::{Entry, Grant};
use wl_grammar::{Operation, Outcome};
use wl_table::LockTable;

/// Returns the partition, if any tab has used it.
pub fn row_at<T: LockTable>(
    partitions: &BTreeMap<u16, PartitionLocks<T>>,
    partition: u16,
) -> Option<&PartitionLocks<T>>
    ensures { row_or (option_copied result) ≡ at no_partition partitions.now.entries partition }
{
    partitions.get(&partition)
}

/// Returns whether the partition is active.
pub fn is_active_in<T: LockTable>(row: Option<&PartitionLocks<T>>) -> bool
    ensures { result ≡ (row_or (option_copied row.entry)).is_active }
{
    match row {
        Some(row) => row.is_active(),
        None => false,
    }
}

/// Returns the number of waiting requests in the partition.
pub fn waiting_in<T: LockTable>(row: Option<&PartitionLocks<T>>) -> usize
    ensures { result ≡ length (row_or (option_copied row.entry)).locks.waiting }
{
    match row {
        Some(row) => row.waiting(),
        None => 0,
    }
}

/// Returns the number of locks that the tab holds or waits for.
fn live_in<T: LockTable>(row: Option<&PartitionLocks<T>>, tab: u16) -> usize
    ensures { result ≡ live (row_or (option_copied row.entry)).locks tab }
{
    match row {
        Some(row) => row.live(tab),
        None => 0,
    }
}

/// Returns whether the operation requests a lock beyond the tab's limit.
pub fn is_too_many<T: LockTable>(
    row: Option<&PartitionLocks<T>>,
    tab: u16,
    limit: u16,
    operation: &Operation,
) -> bool
    ensures { result
        ≡ (is_lock operation.now && nat_le limit (live (row_or (option_copied row.entry)).locks tab)) }
{
    is_lock(operation) && live_in(row, tab) >= usize::from(limit)
}

/// Returns the outcome of a command that was taken, except for the first answer to a query.
pub fn outcome_in<T: LockTable>(
    row: Option<&PartitionLocks<T>>,
    tab: u16,
    number: u32,
    operation: &Operation,
) -> Outcome
    ensures { result ≡ outcome_at (row_or (option_copied row.entry)).locks tab number operation.now }
{
    match operation {
        Operation::Request { .. } => match row {
            Some(row) => outcome(row.state(tab, number)),
            None => Outcome::Gone,
        },
        Operation::Release { .. } | Operation::Abort { .. } => Outcome::Taken,
        Operation::Query => Outcome::Gone,
    }
}

/// Returns `copies` copies of the answer to a query in an active partition.
pub fn snapshots_at<T: LockTable>(
    alloc: Global,
    partitions: &BTreeMap<u16, PartitionLocks<T>>,
    partition: u16,
    copies: usize,
    generation: u32,
    upto: u32,
    tab: u16,
    number: u32,
) -> Result<Vec<Outs>, AllocError>
    requires { IsTrue (at no_partition partitions.now.entries partition).is_active }
    ensures copies { let m = (at no_partition partitions.now.entries partition).locks in
        IfOk result (λ all. all.items
        ≡ replicate copies (snapshot_of generation upto tab number (snapshot_entries m))) }
    ensures settled { OnOk result (newly_granted (at no_partition partitions.now.entries partition).locks ≡ []) }
{
    match row_at(partitions, partition) {
        Some(row) => row.snapshots(alloc, copies, generation, upto, tab, number),
        None => unreachable!(),
    }
}

/// Adds a tab's reported locks to its partition. Creates the partition if needed. Returns the
/// grants.
pub fn restore_at<T: LockTable>(
    alloc: Global,
    partitions: &mut BTreeMap<u16, PartitionLocks<T>>,
    partition: u16,
    tab: u16,
    entries: &[Entry],
    is_active: bool,
) -> Result<Vec<Grant>, AllocError>
    ensures grants { let m = restored tab entries.now
        (at no_partition partitions.old.entries partition).locks in
        IfOk result (λ g. g.items ≡ grants (newly_granted_if is_active m)) }
    ensures ok { let m = restored tab entries.now (at no_partition partitions.old.entries partition).locks in
        OnOk result (partitions.new.entries
        ≡ put partition (state_of (settle_if is_active m) is_active) partitions.old.entries) }
    ensures err { OnErr result (partitions.new.entries ≡ partitions.old.entries) }
{
    match partitions.get_mut(&partition) {
        Some(row) => row.restore(tab, entries, is_active),
        None => {
            let mut row = PartitionLocks::new(alloc);
            let granted = row.restore(tab, entries, is_active)?;
            partitions.insert(partition, row)?;
            Ok(granted)
        }
    }
}

/// Removes a tab's locks and requests from its partition. Creates the partition if needed. Returns
/// the grants.
pub fn end_at<T: LockTable>(
    alloc: Global,
    partitions: &mut BTreeMap<u16, PartitionLocks<T>>,
    partition: u16,
    tab: u16,
    is_active: bool,
) -> Result<Vec<Grant>, AllocError>
    ensures grants { let m = ended tab (at no_partition partitions.old.entries partition).locks in
        IfOk result (λ g. g.items ≡ grants (newly_granted_if is_active m)) }
    ensures ok { let m = ended tab (at no_partition partitions.old.entries partition).locks in
        OnOk result (partitions.new.entries
        ≡ put partition (state_of (settle_if is_active m) is_active) partitions.old.entries) }
    ensures err { OnErr result (partitions.new.entries ≡ partitions.old.entries) }
{
    match partitions.get_mut(&partition) {
        Some(row) => row.end_tab(tab, is_active),
        None => {
            let mut row = PartitionLocks::new(alloc);
            let granted = row.end_tab(tab, is_active)?;
            partitions.insert(partition, row)?;
            Ok(granted)
        }
    }
}

/// Executes a tab's command in its active partition. The number must be new. Returns the grants to
/// other requests, and the command's outcome.
pub fn command_at<T: LockTable>(
    alloc: Global,
    partitions: &mut BTreeMap<u16, PartitionLocks<T>>,
    partition: u16,
    tab: u16,
    number: u32,
    operation: &Operation,
) -> Result<(Vec<Grant>, Outcome), AllocError>
    requires active { IsTrue (at no_partition partitions.old.entries partition).is_active }
    requires new { standing (at no_partition partitions.old.entries partition).locks tab number ≡ Absent }
    ensures grants { let m = drafted tab number operation.now
        (at no_partition partitions.old.entries partition).locks in
        IfOk result (λ r. r.0.items ≡ grants (without tab number (newly_granted m))) }
    ensures outcome { let m = drafted tab number operation.now
        (at no_partition partitions.old.entries partition).locks in
        IfOk result (λ r. r.1 ≡ outcome_at (settle m) tab number operation.now) }
    ensures ok { let m = drafted tab number operation.now
        (at no_partition partitions.old.entries partition).locks in
        OnOk result (partitions.new.entries
        ≡ put partition (state_of (settle m) true) partitions.old.entries) }
    ensures err { OnErr result (partitions.new.entries ≡ partitions.old.entries) }
{
    match partitions.get_mut(&partition) {
        Some(row) => {
            let granted = row.command(alloc, tab, number, operation)?;
            let outcome = outcome_in(Some(&*row), tab, number, operation);
            Ok((granted, outcome))
        }
        None => unreachable!(),
    }
}
