//! Benchmark of the indexed lock table on traces of random calls. `tools/std_table.rs` plays the same
//! traces on a table over the collections of Rust's standard library.

use std::alloc::{AllocError, Global};
use std::time::Instant;
use wl_table::{Entry, Grant, IndexedTable, LockTable, Mode, Name, Standing};

/// A trace of calls. In each call a client requests an absent entry, or releases or aborts a
/// present one.
#[derive(Clone, Copy)]
struct Trace {
    title: &'static str,
    clients: u16,
    // The number of entries of each client.
    entries: u32,
    names: usize,
    // Whether each entry has a name of its own.
    is_apart: bool,
    calls: usize,
}

const SHORT: Trace = Trace {
    title: "short",
    clients: 8,
    entries: 4,
    names: 5,
    is_apart: false,
    calls: 2_000,
};

const CONTENDED: Trace = Trace {
    title: "one name, 64 clients",
    clients: 64,
    entries: 4,
    names: 1,
    is_apart: false,
    calls: 400_000,
};

const APART: Trace = Trace {
    title: "1,000 names, nobody waits",
    clients: 50,
    entries: 20,
    names: 1_000,
    is_apart: true,
    calls: 400_000,
};

const MANY: Trace = Trace {
    title: "1,024 clients with 16 entries each",
    clients: 1_024,
    entries: 16,
    names: 16_384,
    is_apart: false,
    calls: 400_000,
};

const RESTORED: Trace = Trace {
    title: "65,536 restored entries",
    clients: 1_024,
    entries: 64,
    names: 65_536,
    is_apart: false,
    calls: 400_000,
};

/// A pseudorandom number generator: the high bits of a linear congruence.
#[derive(Drop)]
struct Dice {
    state: u64,
}

impl Dice {
    fn below(&mut self, sides: usize) -> usize {
        self.state = self
            .state
            .wrapping_mul(6_364_136_223_846_793_005)
            .wrapping_add(1_442_695_040_888_963_407);
        ((self.state >> 33) as usize)
            .checked_rem(sides)
            .unwrap_or(0)
    }

    fn mode(&mut self) -> Mode {
        match self.below(2) {
            0 => Mode::Shared,
            _ => Mode::Exclusive,
        }
    }
}

/// Creates `count` names.
fn names_of(alloc: Global, count: usize) -> Result<Vec<Name>, AllocError> {
    let mut names = Vec::with_capacity(alloc, count)?;
    for index in 0..count {
        names.push(Name::new(format!(in alloc; "lock/name/{index}")?))?;
    }
    Ok(names)
}

/// Returns the index of a name: a random one, or the one of this client's entry.
fn place_of(dice: &mut Dice, trace: Trace, client: u16, number: u32) -> usize {
    let chance = dice.below(trace.names);
    if trace.is_apart {
        (client as usize)
            .wrapping_mul(trace.entries as usize)
            .wrapping_add(number as usize)
    } else {
        chance
    }
}

/// Returns the digest with these grants added.
fn digest_with(digest: u64, granted: &[Grant]) -> u64 {
    let mut sum = digest.wrapping_mul(31);
    for grant in granted {
        sum = sum
            .wrapping_mul(31)
            .wrapping_add(u64::from(grant.client))
            .wrapping_mul(31)
            .wrapping_add(u64::from(grant.number));
    }
    sum
}

/// Makes one call of the trace.
fn turn(
    table: &mut IndexedTable,
    dice: &mut Dice,
    trace: Trace,
    names: &[Name],
) -> Result<Vec<Grant>, AllocError> {
    let client = u16::try_from(dice.below(trace.clients as usize)).unwrap_or(0);
    let number = u32::try_from(dice.below(trace.entries as usize)).unwrap_or(0);
    let mode = dice.mode();
    let place = place_of(dice, trace, client, number);
    match (table.state(client, number), names.get(place)) {
        (Standing::Absent, Some(name)) => table.request(client, number, name, mode),
        (Standing::Held, _) => table.release(client, number),
        (_, _) => table.abort(client, number),
    }
}

/// Creates the report of a client with all its entries, each held or waiting at random.
fn report_of(
    alloc: Global,
    dice: &mut Dice,
    trace: Trace,
    client: u16,
    names: &[Name],
) -> Result<Vec<Entry>, AllocError> {
    let mut entries = Vec::with_capacity(alloc, trace.entries as usize)?;
    for number in 0..trace.entries {
        let held = dice.below(4) > 0;
        let mode = dice.mode();
        let place = place_of(dice, trace, client, number);
        if let Some(name) = names.get(place) {
            entries.push(Entry {
                number,
                held,
                mode,
                name: name.clone()?,
            })?;
        }
    }
    Ok(entries)
}

/// Restores the reports of all clients, and returns a digest of the grants. The last report settles
/// the queues.
fn fill(
    alloc: Global,
    table: &mut IndexedTable,
    dice: &mut Dice,
    trace: Trace,
    names: &[Name],
) -> Result<u64, AllocError> {
    let mut digest = 0;
    for client in 0..trace.clients {
        let report = report_of(alloc, dice, trace, client, names)?;
        let settles = client.wrapping_add(1) == trace.clients;
        digest = digest_with(digest, &table.restore(client, &report, settles)?);
    }
    Ok(digest)
}

/// Plays the calls of a trace, and returns the digest with their grants added.
fn play_calls(
    table: &mut IndexedTable,
    dice: &mut Dice,
    trace: Trace,
    names: &[Name],
    filled: u64,
) -> Result<u64, AllocError> {
    let mut digest = filled;
    for _ in 0..trace.calls {
        digest = digest_with(digest, &turn(table, dice, trace, names)?);
    }
    Ok(digest)
}

/// Plays a trace on an empty table. Returns the calls a second and a digest of the grants.
fn play(rt: &HostRuntime, trace: Trace) -> anyhow::Result<(u64, u64)> {
    let names = names_of(rt.alloc(), trace.names)?;
    let mut table = IndexedTable::new(rt.alloc());
    play_on(rt, &mut table, trace, &names)
}

fn play_on(
    rt: &HostRuntime,
    table: &mut IndexedTable,
    trace: Trace,
    names: &[Name],
) -> anyhow::Result<(u64, u64)> {
    let mut dice = Dice { state: 20_261_123 };
    let filled = fill(rt.alloc(), table, &mut dice, trace, names)?;
    let began = Instant::now(rt)?;
    let digest = play_calls(table, &mut dice, trace, names, filled)?;
    let micros = u64::try_from(began.elapsed(rt)?.as_micros()).unwrap_or(u64::MAX);
    Ok((rate(trace.calls, micros), digest))
}

/// Returns the rate per second.
fn rate(count: usize, micros: u64) -> u64 {
    (count as u64)
        .saturating_mul(1_000_000)
        .checked_div(micros)
        .unwrap_or(u64::MAX)
}

/// Times all traces.
pub(crate) fn time(rt: &HostRuntime) -> anyhow::Result<()> {
    tell(rt, CONTENDED)?;
    tell(rt, APART)?;
    tell(rt, MANY)?;
    tell(rt, RESTORED)
}

/// Plays a trace, and prints its rate and the digest of its grants.
fn tell(rt: &HostRuntime, trace: Trace) -> anyhow::Result<()> {
    let (rate, digest) = play(rt, trace)?;
    println!(rt; "{}\n  calls a second: indexed {rate}", trace.title)?;
    println!(rt; "  digest of the grants: {digest}")?;
    Ok(())
}

/// Plays a short trace, and prints the digest of its grants.
pub(crate) fn check(rt: &HostRuntime) -> anyhow::Result<()> {
    let (_, digest) = play(rt, SHORT)?;
    println!(rt; "{}, digest of the grants: {digest}", SHORT.title)?;
    Ok(())
}
