//! Frames that the broker sends: hellos, answers, grants, and snapshots in parts.

ghost use Rattle.std.specs.Prelude.{◌≡◌, ◌+◌, ◌≤◌, ◌++◌, IfOk, OnOk, length, map, take, drop, true, false};
ghost use Rattle.std.specs.Vec.{vec_len, vec_capacity};
ghost use Rattle.std.specs.Vec.Iter.{into_iter_items};
ghost use Rattle.wl_broker.specs.Broker.{hello_to, hellos, outcome_of, answer_of, snapshot_entry_of, snapshot_of};
ghost use Rattle.wl_broker.specs.BrokerInvariant.{grant_of};
ghost use Rattle.wl_limits.specs.declared.frames.TheConstants.{ENTRY_LIMIT};
ghost use Rattle.wl_grammar.specs.PartCount.{part_count};

use crate::seat::TabSeat;
use crate::seats::{next_in, seat_of};
use std::alloc::{AllocError, Global};
use std::collections::BTreeMap;
use std::vec::IntoIter;
use wl_draft::{Grant, Row, Standing};
use wl_grammar::{
    Addressed, Answer, Boxed, Downward, Hello, Outcome, Sequence, Snapshot, SnapshotEntry,
};
use wl_limits::frames::{ENTRY_LIMIT, SNAPSHOT_PART_LIMIT};

fn hello(generation: u32, tab: u16) -> Addressed
    ensures { result ≡ hello_to generation tab }
{
    Addressed {
        tab,
        inner: Downward::Hello(Hello { generation }),
    }
}

/// An answer to a tab, which states how many of its commands were taken.
#[derive(Clone, Copy)]
pub struct TabAnswer {
    pub tab: u16,
    pub upto: u32,
    pub number: u32,
    pub outcome: Outcome,
}

impl TabAnswer {
    /// Returns the frame of the answer in this generation.
    pub fn to_frame(self, generation: u32) -> Addressed
        ensures { result ≡ answer_of generation self.upto self.tab self.number self.outcome }
    {
        answer(generation, self.upto, self.tab, self.number, self.outcome)
    }
}

/// Returns a hello for each listed tab. Fails if out of memory.
pub fn hellos(
    alloc: Global,
    generation: u32,
    listed: &[(u16, u16)],
) -> Result<Vec<Addressed>, AllocError>
    ensures { IfOk result (λ outs. outs.items ≡ hellos generation listed.now) }
{
    listed
        .iter()
        .map(|place| hello(generation, place.0))
        .collect(alloc)
}

/// Returns an answer, which states how many commands of the tab were taken.
fn answer(generation: u32, upto: u32, tab: u16, number: u32, outcome: Outcome) -> Addressed
    ensures { result ≡ answer_of generation upto tab number outcome }
{
    Addressed {
        tab,
        inner: Downward::Answer(Answer {
            generation,
            upto,
            number,
            outcome,
        }),
    }
}

/// Returns the outcome of a request, from the standing of its lock.
pub fn outcome(standing: Standing) -> Outcome
    ensures { result ≡ outcome_of standing }
{
    match standing {
        Standing::Held => Outcome::Granted,
        Standing::Waiting => Outcome::Waiting,
        Standing::Absent => Outcome::Gone,
    }
}

/// Appends a frame for each grant. Capacity must be reserved.
pub fn push_grants(
    outs: &mut Vec<Addressed>,
    generation: u32,
    seats: &BTreeMap<u16, TabSeat>,
    granted: &[Grant],
)
    requires { vec_len outs.old + length granted.now ≤ vec_capacity outs.old }
    ensures { outs.new.items ≡ outs.old.items ++ map (grant_of generation seats.now.entries) granted.now }
{
    for grant in granted {
        let upto = next_in(seat_of(seats, grant.client));
        outs.push_reserved(answer(
            generation,
            upto,
            grant.client,
            grant.number,
            Outcome::Granted,
        ));
    }
}

fn snapshot_entry(held: bool, row: Row) -> SnapshotEntry
    ensures { result ≡ snapshot_entry_of held row }
{
    let Row {
        client,
        number: _,
        name,
        mode,
    } = row;
    SnapshotEntry {
        held,
        tab: client,
        mode,
        name,
    }
}

/// Returns the entries of a snapshot: the held locks, followed by the waiting requests. The names
/// are moved.
fn snapshot_entries(
    alloc: Global,
    held: Vec<Row>,
    waiting: Vec<Row>,
) -> Result<Vec<SnapshotEntry>, AllocError>
    ensures { IfOk result (λ v.
        v.items ≡ map (snapshot_entry_of true) held.items ++ map (snapshot_entry_of false) waiting.items) }
{
    held.into_iter()
        .map(|row| snapshot_entry(true, row))
        .chain(waiting.into_iter().map(|row| snapshot_entry(false, row)))
        .collect(alloc)
}

/// Takes the entries of the next part.
fn next_part(
    alloc: Global,
    rest: &mut IntoIter<SnapshotEntry>,
) -> Result<Vec<SnapshotEntry>, AllocError>
    ensures part { IfOk result (λ v. v.items ≡ take ENTRY_LIMIT (into_iter_items rest.old)) }
    ensures rest { OnOk result (into_iter_items rest.new ≡ drop ENTRY_LIMIT (into_iter_items rest.old)) }
{
    let mut part = Vec::new(alloc);
    while part.len() < ENTRY_LIMIT {
        let Some(entry) = rest.next() else {
            return Ok(part);
        };
        part.push(entry)?;
    }
    Ok(part)
}

/// Returns the number of parts of a snapshot. A snapshot without entries is one part.
fn part_count(entries: &[SnapshotEntry]) -> usize
    ensures { result ≡ part_count entries.now }
{
    if entries.is_empty() {
        1
    } else {
        entries.len().div_ceil(ENTRY_LIMIT)
    }
}

/// Returns the parts of a snapshot, or the answer Gone if there are more parts than the protocol
/// allows.
fn snapshot_parts(
    alloc: Global,
    generation: u32,
    upto: u32,
    tab: u16,
    number: u32,
    entries: Vec<SnapshotEntry>,
) -> Result<Vec<Addressed>, AllocError>
    ensures { IfOk result (λ outs. outs.items ≡ snapshot_of generation upto tab number entries.items) }
{
    let parts = part_count(&entries);
    let mut outs = Vec::new(alloc);
    if parts > usize::from(SNAPSHOT_PART_LIMIT) {
        outs.push(answer(generation, upto, tab, number, Outcome::Gone))?;
        return Ok(outs);
    }
    let parts = parts as u16;
    let mut rest = entries.into_iter();
    for part in 0..parts {
        let entries = Sequence::new(next_part(alloc, &mut rest)?);
        let snapshot = Snapshot {
            generation,
            number,
            part,
            parts,
            entries,
        };
        let boxed = Boxed::new(alloc, snapshot)?;
        outs.push(Addressed {
            tab,
            inner: Downward::Snapshot(boxed),
        })?;
    }
    Ok(outs)
}

/// Returns the answer to a query: the held locks and the waiting requests, in parts. Fails if out
/// of memory.
pub fn snapshot(
    alloc: Global,
    generation: u32,
    upto: u32,
    tab: u16,
    number: u32,
    held: Vec<Row>,
    waiting: Vec<Row>,
) -> Result<Vec<Addressed>, AllocError>
    ensures { IfOk result (λ outs. outs.items ≡ snapshot_of generation upto tab number
        (map (snapshot_entry_of true) held.items ++ map (snapshot_entry_of false) waiting.items)) }
{
    let entries = snapshot_entries(alloc, held, waiting)?;
    snapshot_parts(alloc, generation, upto, tab, number, entries)
}
