//! Both lock tables side by side: each call gives the same answer on both, and their snapshots agree. In the rows a call that is
//! refused memory leaves its table unchanged, is made again, and must then give the answer of its row.

mod random;
mod rows;

use super::entries::{Reported, are, entries_of};
use std::alloc::{AllocError, Global};
use std::marker::Model;
use std::process::Abort;
use std::test::Fail;
use test_support::retry::name;
use wl_table::{Grant, IndexedTable, LockTable, Mode, PlainTable, Row, Standing};

// Calls of both tables

/// Call that changes a table.
#[derive(Clone, Copy)]
enum Call<'a> {
    Request(Mode, &'static str),
    Probe(Mode, &'static str),
    Release,
    Abort,
    End {
        settle: bool,
    },
    Restore {
        report: &'a [Reported],
        settle: bool,
    },
}

/// Requests a lock under a client's number, or releases the number if it is in use.
fn request<T: LockTable>(
    alloc: Global,
    table: &mut T,
    client: u16,
    number: u32,
    lock: &str,
    mode: Mode,
) -> Result<Vec<Grant>, AllocError> {
    let name = name(alloc, lock)?;
    if table.state(client, number) == Standing::Absent {
        table.request(client, number, &name, mode)
    } else {
        table.release(client, number)
    }
}

/// Probes for a lock under a client's number, or releases the number if it is in use.
fn probe<T: LockTable>(
    alloc: Global,
    table: &mut T,
    client: u16,
    number: u32,
    lock: &str,
    mode: Mode,
) -> Result<Vec<Grant>, AllocError> {
    let name = name(alloc, lock)?;
    if table.state(client, number) == Standing::Absent {
        table.probe(client, number, &name, mode)
    } else {
        table.release(client, number)
    }
}

fn restore<T: LockTable>(
    alloc: Global,
    table: &mut T,
    client: u16,
    report: &[Reported],
    settle: bool,
) -> Result<Vec<Grant>, AllocError> {
    let entries = entries_of(alloc, report)?;
    table.restore(client, entries.as_slice(), settle)
}

fn make<T: LockTable>(
    alloc: Global,
    table: &mut T,
    client: u16,
    number: u32,
    call: Call<'_>,
) -> Result<Vec<Grant>, AllocError> {
    match call {
        Call::Request(mode, name) => request(alloc, table, client, number, name, mode),
        Call::Probe(mode, name) => probe(alloc, table, client, number, name, mode),
        Call::Release => table.release(client, number),
        Call::Abort => table.abort(client, number),
        Call::End { settle } => table.end_client(client, settle),
        Call::Restore { report, settle } => restore(alloc, table, client, report, settle),
    }
}

/// State of a client's number, whether it is grantable, the count of the client's entries, and the count of waiting requests.
type Seen = (Standing, bool, usize, usize);

fn seen<T: LockTable>(table: &T, client: u16, number: u32) -> Seen {
    (
        table.state(client, number),
        table.grantable(client, number),
        table.live(client),
        table.waiting(),
    )
}

/// Held and waiting list of a table.
type Rows = (Vec<Row>, Vec<Row>);

/// Returns the snapshot of a table.
fn rows_of<T: LockTable>(table: &T) -> Result<Rows, AllocError> {
    match table.snapshot() {
        Err(_) => table.snapshot(),
        answer => answer,
    }
}

/// Count of client numbers that `Content` has, and how many it has of each client.
const SEEN_PAIRS: usize = 15;

const SEEN_NUMBERS: u16 = 3;

/// Content of a table: its snapshot, and its answers for some client numbers.
#[derive(Drop, PartialEq, Eq)]
struct Content {
    rows: Rows,
    pairs: [Seen; SEEN_PAIRS],
}

fn pairs_of<T: LockTable>(table: &T) -> [Seen; SEEN_PAIRS] {
    let mut pairs = [(Standing::Absent, false, 0, 0); SEEN_PAIRS];
    for (place, pair) in (0..=u16::MAX).zip(pairs.iter_mut()) {
        *pair = seen(table, place / SEEN_NUMBERS, u32::from(place % SEEN_NUMBERS));
    }
    pairs
}

fn content_of<T: LockTable>(table: &T) -> Result<Content, AllocError> {
    Ok(Content {
        rows: rows_of(table)?,
        pairs: pairs_of(table),
    })
}

fn is_content_of<T: LockTable>(table: &T, content: &Content) -> Result<bool, AllocError> {
    Ok(content_of(table)? == *content)
}

/// Makes a call, again if memory is refused: the content must be unchanged then.
fn make_again<T: LockTable>(
    rt: &impl Abort,
    alloc: Global,
    table: &mut T,
    client: u16,
    number: u32,
    call: Call<'_>,
) -> Result<Vec<Grant>, AllocError> {
    let before = content_of(table)?;
    match make(alloc, table, client, number, call) {
        Err(_) => {
            assert!(rt; is_content_of(table, &before)?, "{client} {number}");
            make(alloc, table, client, number, call)
        }
        answer => answer,
    }
}

/// Plain table and indexed table that get the same calls.
#[derive(Drop)]
struct Both {
    alloc: Global,
    plain: PlainTable,
    indexed: IndexedTable,
}

// Contracts see nothing of the tables, so that proofs of their callers stay small.
impl Model for Both {
    ghost use Rattle.std.specs.Prelude.{⊤};

    ghost Value = { ⊤ };

    ghost view = { λ _. tt };
}

impl Both {
    fn new(alloc: Global) -> Both {
        Both {
            alloc,
            plain: PlainTable::new(alloc),
            indexed: IndexedTable::new(alloc),
        }
    }

    /// Makes a call of both tables, and returns the grants.
    fn make_again(
        &mut self,
        rt: &impl Abort,
        client: u16,
        number: u32,
        call: Call<'_>,
    ) -> Result<Vec<Grant>, AllocError> {
        let alloc = self.alloc;
        let indexed = make_again(rt, alloc, &mut self.indexed, client, number, call)?;
        let plain = make_again(rt, alloc, &mut self.plain, client, number, call)?;
        Ok(agreed(rt, plain, indexed))
    }

    /// Returns the answers of both tables for a client's number.
    fn look(&self, rt: &impl Abort, client: u16, number: u32) -> Seen {
        let indexed = seen(&self.indexed, client, number);
        assert_eq!(rt; seen(&self.plain, client, number), indexed);
        indexed
    }

    /// Compares the snapshots, and returns the rows of both lists.
    fn rows(&self, rt: &impl Abort) -> Result<Rows, AllocError> {
        let plain = rows_of(&self.plain)?;
        let indexed = rows_of(&self.indexed)?;
        expect_same_rows(rt, &plain, &indexed);
        Ok(indexed)
    }

    /// Compares the snapshots, and returns the counts of held locks and of waiting requests.
    fn compare(&self, rt: &impl Abort) -> Result<(usize, usize), AllocError> {
        let (held, waiting) = self.rows(rt)?;
        Ok((held.len(), waiting.len()))
    }

    /// Makes a call, and compares the grants and the state of its own number.
    fn grants(
        &mut self,
        rt: &impl Abort,
        client: u16,
        number: u32,
        call: Call<'_>,
        pairs: &[(u16, u32)],
        standing: Standing,
    ) -> Result<(), AllocError> {
        let granted = self.make_again(rt, client, number, call)?;
        assert!(rt; are(granted.as_slice(), pairs), "{client} {number}");
        self.stands(rt, client, number, standing);
        Ok(())
    }

    fn stands(&self, rt: &impl Abort, client: u16, number: u32, standing: Standing) {
        assert_eq!(rt;
            self.look(rt, client, number).0,
            standing,
            "{client} {number}"
        );
    }

    fn is_grantable(&self, rt: &impl Abort, client: u16, number: u32) {
        assert!(rt; self.look(rt, client, number).1, "{client} {number}");
    }

    fn lists(
        &self,
        rt: &impl Abort,
        held: &[Listed],
        waiting: &[Listed],
    ) -> Result<(), AllocError> {
        let rows = self.rows(rt)?;
        assert!(rt; are_listed(rows.0.as_slice(), held));
        assert!(rt; are_listed(rows.1.as_slice(), waiting));
        Ok(())
    }

    /// Takes a step.
    fn step(&mut self, rt: &impl Abort, step: Step<'_>) -> Result<(), AllocError> {
        match step {
            Step::Make(client, number, call, pairs, standing) => {
                return self.grants(rt, client, number, call, pairs, standing);
            }
            Step::Stands(client, number, standing) => self.stands(rt, client, number, standing),
            Step::Grantable(client, number) => self.is_grantable(rt, client, number),
            Step::Lists(held, waiting) => return self.lists(rt, held, waiting),
        }
        Ok(())
    }

    fn play(&mut self, rt: &impl Abort, row: &[Step<'_>]) -> Result<(), AllocError> {
        for step in row {
            self.step(rt, *step)?;
        }
        Ok(())
    }

    /// Lets tabs 1 to `tabs` join, one after another, with empty reports.
    fn join(&mut self, rt: &impl Abort, tabs: u16) -> Result<(), AllocError> {
        for tab in 1..=tabs {
            self.grants(rt, tab, 0, JOINS, &[], Standing::Absent)?;
        }
        Ok(())
    }

    fn play_all(
        &mut self,
        rt: &impl Abort,
        tabs: u16,
        rows: &[&[Step<'_>]],
    ) -> Result<(), AllocError> {
        self.join(rt, tabs)?;
        for row in rows {
            self.play(rt, row)?;
        }
        Ok(())
    }
}

/// Returns the grants of both tables, which must be the same.
fn agreed(rt: &impl Abort, plain: Vec<Grant>, indexed: Vec<Grant>) -> Vec<Grant> {
    assert_eq!(rt; plain.as_slice(), indexed.as_slice());
    indexed
}

fn expect_same_rows(rt: &impl Abort, plain: &Rows, indexed: &Rows) {
    assert_eq!(rt; plain.0.as_slice(), indexed.0.as_slice());
    assert_eq!(rt; plain.1.as_slice(), indexed.1.as_slice());
}

// Steps of rows

/// Lock in a snapshot: its client, its number, its mode and its name.
type Listed = (u16, u32, Mode, &'static str);

fn is_listed(row: &Row, listed: &Listed) -> bool {
    row.client == listed.0
        && row.number == listed.1
        && row.mode == listed.2
        && row.name.as_str() == listed.3
}

fn are_listed(rows: &[Row], list: &[Listed]) -> bool {
    rows.len() == list.len()
        && rows
            .iter()
            .zip(list)
            .all(|(row, listed)| is_listed(row, listed))
}

/// Step of a row: a call of the broker on one partition's table, or a look at that table.
#[derive(Clone, Copy)]
enum Step<'a> {
    /// Call of a client under a number, the locks that it grants, and the state of its number after it.
    Make(u16, u32, Call<'a>, &'a [(u16, u32)], Standing),
    /// State of a client's number, which answers a request that comes again.
    Stands(u16, u32, Standing),
    /// Client's number that is grantable.
    Grantable(u16, u32),
    /// Held and waiting locks, which answer a query.
    Lists(&'a [Listed], &'a [Listed]),
}

/// Empty first report of a tab, when no other tab is missing.
const JOINS: Call<'static> = Call::Restore {
    report: &[],
    settle: true,
};

/// Empty first report of a tab while another tab is missing.
const JOINS_EARLY: Call<'static> = Call::Restore {
    report: &[],
    settle: false,
};

const SHARED: Call<'static> = Call::Request(Mode::Shared, "a");

const EXCLUSIVE: Call<'static> = Call::Request(Mode::Exclusive, "a");

/// Lets tabs 1 to `tabs` join two new tables, and plays rows there one after another.
fn play(rt: &impl Abort, alloc: Global, tabs: u16, rows: &[&[Step<'_>]]) -> Result<(), Fail> {
    let mut both = Both::new(alloc);
    let played = both.play_all(rt, tabs, rows);
    drop(both);
    Ok(played?)
}
