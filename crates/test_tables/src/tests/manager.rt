//! Rows of the lock manager: calls with the locks that each grants, and looks at the manager between them. A call that is refused
//! memory leaves the lists unchanged, is made again, and must then give the answer of its row.

use super::entries::{Reported, are, are_rows, entries_of};
use std::alloc::{AllocError, Global};
use std::process::Abort;
use test_support::retry::{BACK, name};
use wl_draft::{Grant, Manager, Mode, Row, Standing};

/// Call of the manager.
#[derive(Clone, Copy)]
enum Call {
    /// Request of a client under number 0, which is free.
    Request(u16, Mode, &'static str),
    /// Probe of a client under number 1, which is free.
    Probe(u16, Mode, &'static str),
    Release(u16, u32),
    Abort(u16, u32),
    /// End of a client, and whether the manager settles the queues.
    End(u16, bool),
    Restore(u16, &'static [Reported], bool),
}

/// Step of a row.
#[derive(Clone, Copy)]
enum Step {
    /// Call, and the clients and numbers that it grants.
    Make(Call, &'static [(u16, u32)]),
    /// State of a client's number.
    Stands(u16, u32, Standing),
    /// Whether a client's number is grantable.
    Grantable(u16, u32, bool),
    /// Count of a client's entries.
    Live(u16, usize),
    /// Count of waiting requests.
    Waiting(usize),
    /// Clients that hold and wait for the exclusive lock `a` under number 0.
    Lists(&'static [u16], &'static [u16]),
    /// Counts of held locks and of waiting requests.
    Counts(usize, usize),
}

fn request(
    rt: &impl Abort,
    alloc: Global,
    manager: &mut Manager,
    client: u16,
    lock: &str,
    mode: Mode,
) -> Result<Vec<Grant>, AllocError> {
    let name = name(alloc, lock)?;
    assert_eq!(rt; manager.state(client, 0), Standing::Absent);
    manager.request(client, 0, &name, mode)
}

fn probe(
    rt: &impl Abort,
    alloc: Global,
    manager: &mut Manager,
    client: u16,
    lock: &str,
    mode: Mode,
) -> Result<Vec<Grant>, AllocError> {
    let name = name(alloc, lock)?;
    assert_eq!(rt; manager.state(client, 1), Standing::Absent);
    manager.probe(client, 1, &name, mode)
}

fn restore(
    alloc: Global,
    manager: &mut Manager,
    client: u16,
    report: &[Reported],
    settles: bool,
) -> Result<Vec<Grant>, AllocError> {
    let entries = entries_of(alloc, report)?;
    manager.restore(client, entries.as_slice(), settles)
}

fn make(
    rt: &impl Abort,
    alloc: Global,
    manager: &mut Manager,
    call: Call,
) -> Result<Vec<Grant>, AllocError> {
    match call {
        Call::Request(client, mode, name) => request(rt, alloc, manager, client, name, mode),
        Call::Probe(client, mode, name) => probe(rt, alloc, manager, client, name, mode),
        Call::Release(client, number) => manager.release(client, number),
        Call::Abort(client, number) => manager.abort(client, number),
        Call::End(client, settles) => manager.end_client(client, settles),
        Call::Restore(client, report, settles) => restore(alloc, manager, client, report, settles),
    }
}

/// Held and waiting list of a manager.
type Rows = (Vec<Row>, Vec<Row>);

fn snapshot(manager: &Manager) -> Result<Rows, AllocError> {
    manager.snapshot()
}

fn rows_of(rt: &impl Abort, manager: &Manager) -> Rows {
    match snapshot(manager) {
        Ok(rows) => rows,
        Err(_) => snapshot(manager).expect(rt, BACK),
    }
}

/// Makes a call again after a refusal, which must have left the lists unchanged.
fn again(
    rt: &impl Abort,
    alloc: Global,
    manager: &mut Manager,
    call: Call,
    before: &Rows,
) -> Vec<Grant> {
    assert!(rt; rows_of(rt, manager) == *before);
    make(rt, alloc, manager, call).expect(rt, BACK)
}

fn granted_by(rt: &impl Abort, alloc: Global, manager: &mut Manager, call: Call) -> Vec<Grant> {
    let before = rows_of(rt, manager);
    match make(rt, alloc, manager, call) {
        Ok(granted) => granted,
        Err(_) => again(rt, alloc, manager, call, &before),
    }
}

/// Returns whether a call grants these clients and numbers.
fn grants(
    rt: &impl Abort,
    alloc: Global,
    manager: &mut Manager,
    call: Call,
    pairs: &[(u16, u32)],
) -> bool {
    are(granted_by(rt, alloc, manager, call).as_slice(), pairs)
}

fn are_lists(rows: &Rows, held: &[u16], waiting: &[u16]) -> bool {
    are_rows(rows.0.as_slice(), held) && are_rows(rows.1.as_slice(), waiting)
}

fn counts(rows: &Rows) -> (usize, usize) {
    (rows.0.len(), rows.1.len())
}

/// Returns whether a step goes as its row says.
fn is_so(rt: &impl Abort, alloc: Global, manager: &mut Manager, step: Step) -> bool {
    match step {
        Step::Make(call, pairs) => grants(rt, alloc, manager, call, pairs),
        Step::Stands(client, number, standing) => manager.state(client, number) == standing,
        Step::Grantable(client, number, want) => manager.grantable(client, number) == want,
        Step::Live(client, count) => manager.live(client) == count,
        Step::Waiting(count) => manager.waiting() == count,
        Step::Lists(held, waiting) => are_lists(&rows_of(rt, manager), held, waiting),
        Step::Counts(held, waiting) => counts(&rows_of(rt, manager)) == (held, waiting),
    }
}

/// Plays a row on a new manager.
fn play(rt: &impl Abort, alloc: Global, name: &str, row: &[Step]) {
    let mut manager = Manager::new(alloc);
    for (place, step) in row.iter().enumerate() {
        assert!(rt;
            is_so(rt, alloc, &mut manager, *step),
            "step {place} of {name}"
        );
    }
}

/// A probe behind the queue gets nothing, and a probe of another name is granted. When the exclusive request is aborted, the
/// shared one behind it is granted. The abort of a held lock releases it.
static SHARED_EXCLUSIVE_SHARED: [Step; 15] = [
    Step::Make(Call::Request(1, Mode::Shared, "a"), &[(1, 0)]),
    Step::Make(Call::Request(2, Mode::Exclusive, "a"), &[]),
    Step::Make(Call::Request(3, Mode::Shared, "a"), &[]),
    Step::Make(Call::Probe(3, Mode::Shared, "a"), &[]),
    Step::Make(Call::Probe(2, Mode::Exclusive, "b"), &[(2, 1)]),
    Step::Stands(1, 0, Standing::Held),
    Step::Stands(3, 0, Standing::Waiting),
    Step::Stands(3, 1, Standing::Absent),
    Step::Live(2, 2),
    Step::Waiting(2),
    Step::Grantable(2, 0, false),
    Step::Make(Call::Abort(2, 0), &[(3, 0)]),
    Step::Make(Call::Request(4, Mode::Shared, "b"), &[]),
    Step::Make(Call::Abort(2, 1), &[(4, 0)]),
    Step::Live(2, 0),
];

static TWO_REQUESTS: [Step; 3] = [
    Step::Make(Call::Request(1, Mode::Exclusive, "a"), &[(1, 0)]),
    Step::Make(Call::Request(2, Mode::Exclusive, "a"), &[]),
    Step::Lists(&[1], &[2]),
];

/// Releases of another number and of a waiting request change nothing.
static RELEASED: [Step; 11] = [
    Step::Make(Call::Request(0, Mode::Exclusive, "a"), &[(0, 0)]),
    Step::Make(Call::Request(1, Mode::Shared, "a"), &[]),
    Step::Make(Call::Request(2, Mode::Shared, "a"), &[]),
    Step::Make(Call::Request(3, Mode::Exclusive, "a"), &[]),
    Step::Make(Call::Request(4, Mode::Shared, "a"), &[]),
    Step::Make(Call::Release(0, 1), &[]),
    Step::Make(Call::Release(1, 0), &[]),
    Step::Make(Call::Release(0, 0), &[(1, 0), (2, 0)]),
    Step::Make(Call::Release(1, 0), &[]),
    Step::Make(Call::Release(2, 0), &[(3, 0)]),
    Step::Stands(4, 0, Standing::Waiting),
];

const HELD_A: [Reported; 1] = [(7, true, Mode::Exclusive, "a")];

const OF_BOTH_NAMES: [Reported; 3] = [
    (3, false, Mode::Shared, "a"),
    (5, true, Mode::Shared, "b"),
    (6, false, Mode::Shared, "b"),
];

static RESTORED: [Step; 9] = [
    Step::Make(Call::Restore(1, &HELD_A, false), &[]),
    Step::Make(Call::Restore(2, &OF_BOTH_NAMES, false), &[]),
    Step::Stands(2, 5, Standing::Held),
    Step::Waiting(2),
    Step::Grantable(2, 6, true),
    Step::Grantable(2, 3, false),
    Step::Make(Call::End(9, false), &[]),
    Step::Make(Call::End(1, true), &[(2, 3), (2, 6)]),
    Step::Live(2, 3),
];

const HELD_AND_WAITING: [Reported; 2] = [
    (0, true, Mode::Shared, "a"),
    (1, false, Mode::Exclusive, "a"),
];

/// One call of each kind.
static TURNS: [Step; 10] = [
    Step::Make(Call::Request(1, Mode::Shared, "a"), &[(1, 0)]),
    Step::Make(Call::Request(2, Mode::Exclusive, "a"), &[]),
    Step::Make(Call::Request(3, Mode::Shared, "a"), &[]),
    Step::Make(Call::Probe(3, Mode::Shared, "a"), &[]),
    Step::Make(Call::Abort(2, 0), &[(3, 0)]),
    Step::Make(Call::Probe(2, Mode::Shared, "a"), &[(2, 1)]),
    Step::Make(Call::Restore(4, &HELD_AND_WAITING, true), &[]),
    Step::Make(Call::Release(1, 0), &[]),
    Step::Make(Call::End(3, true), &[]),
    Step::Counts(2, 1),
];

#[test]
fn rows_of_the_manager(rt: HostRuntime) {
    let alloc = rt.alloc();
    play(
        &rt,
        alloc,
        "shared, exclusive, shared",
        &SHARED_EXCLUSIVE_SHARED,
    );
    play(&rt, alloc, "snapshot of both lists", &TWO_REQUESTS);
    play(&rt, alloc, "release hands over", &RELEASED);
    play(&rt, alloc, "restored locks wait for settling", &RESTORED);
    play(&rt, alloc, "each kind of call", &TURNS);
}
