//! Operations of the lock manager on its two lists of rows.

ghost use Rattle.std.specs.Prelude.{◌≡◌, ◌+◌, ◌≤◌, [], ◌++◌, IfOk, OnOk, length, vec_len, vec_capacity};
ghost use Rattle.wl_draft.specs.Locks.{is_named, is_free, is_grantable, granted, left_waiting, grants, has_pair, without, without_client, count_of, grantable_behind, held_of, waiting_of};

use crate::mode::Mode;
use crate::name::Name;
use crate::row::{Entry, Grant, Row};
use std::alloc::{AllocError, Global};

fn is_named(name: &Name, rows: &[Row]) -> bool
    ensures { result ≡ is_named name.now rows.now }
{
    rows.iter().any(|row| row.name == *name)
}

fn is_free(name: &Name, mode: Mode, held: &[Row]) -> bool
    ensures { result ≡ is_free name.now mode held.now }
{
    held.iter()
        .all(|row| !(row.name == *name && row.mode.conflicts(mode)))
}

// Returns whether the row is grantable, given the held locks and the requests ahead of it.
#[tactic(auto, unfolding(crate::specs::Locks::is_grantable))]
pub(crate) fn is_grantable(held: &[Row], ahead: &[Row], row: &Row) -> bool
    ensures { result ≡ is_grantable held.now ahead.now row.now }
{
    !is_named(&row.name, ahead) && is_free(&row.name, row.mode, held)
}

pub(crate) fn has_pair(client: u16, number: u32, rows: &[Row]) -> bool
    ensures { result ≡ has_pair client number rows.now }
{
    rows.iter().any(|row| row.is_pair(client, number))
}

pub(crate) fn count_of(client: u16, rows: &[Row]) -> usize
    ensures count { result ≡ count_of client rows.now }
    ensures bound { result ≤ length rows.now }
{
    rows.iter().filter(|row| row.client == client).count()
}

// Returns whether the pair is among the waiting requests and is grantable.
pub(crate) fn is_grantable_pair(held: &[Row], waiting: &[Row], client: u16, number: u32) -> bool
    ensures { result ≡ grantable_behind held.now [] client number waiting.now }
{
    for (index, row) in waiting.iter().enumerate() {
        if row.is_pair(client, number) {
            return is_grantable(held, &waiting[..index], row);
        }
    }
    false
}

pub(crate) fn remove_pair(client: u16, number: u32, rows: &mut Vec<Row>)
    ensures items { rows.new.items ≡ without client number rows.old.items }
    ensures len { vec_len rows.new ≤ vec_len rows.old }
    ensures capacity { vec_capacity rows.new ≡ vec_capacity rows.old }
{
    rows.retain(|row| !row.is_pair(client, number));
}

pub(crate) fn remove_client(client: u16, rows: &mut Vec<Row>)
    ensures items { rows.new.items ≡ without_client client rows.old.items }
    ensures len { vec_len rows.new ≤ vec_len rows.old }
    ensures capacity { vec_capacity rows.new ≡ vec_capacity rows.old }
{
    rows.retain(|row| row.client != client);
}

// Reserves capacity for `count` grants in `held`, and in the list of grants that it returns.
pub(crate) fn reserve_grants(
    alloc: Global,
    held: &mut Vec<Row>,
    count: usize,
) -> Result<Vec<Grant>, AllocError>
    ensures items { held.new.items ≡ held.old.items }
    ensures room { OnOk result (vec_len held.new + count ≤ vec_capacity held.new) }
    ensures grants { IfOk result (λ g. g.items ≡ []) }
    ensures grants_room { IfOk result (λ g. vec_len g + count ≤ vec_capacity g) }
{
    held.reserve(count)?;
    Vec::with_capacity(alloc, count)
}

// Grants each grantable request, in the order of queueing.
pub(crate) fn settle(held: &mut Vec<Row>, waiting: &mut Vec<Row>, newly_granted: &mut Vec<Grant>)
    requires held_room { vec_len held.old + vec_len waiting.old ≤ vec_capacity held.old }
    requires newly_room { vec_len newly_granted.old + vec_len waiting.old ≤ vec_capacity newly_granted.old }
    ensures held { held.new.items ≡ held.old.items ++ granted held.old.items [] waiting.old.items }
    ensures waiting { waiting.new.items ≡ left_waiting held.old.items [] waiting.old.items }
    ensures newly_granted { newly_granted.new.items
        ≡ newly_granted.old.items ++ grants (granted held.old.items [] waiting.old.items) }
{
    let mut index = 0;
    while index < waiting.len() {
        if is_grantable(held, &waiting[..index], &waiting[index]) {
            let row = waiting.remove(index);
            newly_granted.push(Grant::from(&row)).unwrap();
            held.push(row).unwrap();
        } else {
            index += 1;
        }
    }
}

/// Returns the rows of a client's report: the held ones, and the waiting ones. Fails if out of
/// memory.
pub fn rows_of(
    alloc: Global,
    client: u16,
    entries: &[Entry],
) -> Result<(Vec<Row>, Vec<Row>), AllocError>
    ensures rows { IfOk result
        (λ rows. (rows.0.items ≡ held_of client entries.now)
        × (rows.1.items ≡ waiting_of client entries.now)) }
{
    let mut held = Vec::new(alloc);
    let mut waiting = Vec::new(alloc);
    for entry in entries {
        let row = Row {
            client,
            number: entry.number,
            name: entry.name.clone()?,
            mode: entry.mode,
        };
        if entry.held {
            held.push(row)?;
        } else {
            waiting.push(row)?;
        }
    }
    Ok((held, waiting))
}

pub(crate) fn copy_rows(alloc: Global, rows: &[Row]) -> Result<Vec<Row>, AllocError>
    ensures { IfOk result (λ copy. copy.items ≡ rows.now) }
{
    rows.to_vec(alloc)
}
