//! Calls of a tab's agent that the rows share. A call that is refused memory leaves the agent unchanged, is made again, and must
//! then give its answer.

mod rows;

use std::alloc::{AllocError, Global};
use std::process::Abort;
use test_support::retry::{BACK, is_spelled, name, spelling};
use wl_agent::{
    Agent, AgentFault, Asking, DeadAgent, Delivered, DropReason, HeldLock, LockInfo, MessageFault,
    Mode, Pending, Probe, ProbeSettled, QuerySettled, Resend, Settled, Snapshot, Token,
};
use wl_frames::{Answer, Frame, Hello, Outcome, Sequence, SnapshotEntry};

/// Limit of a tab's commands, if a row does not say otherwise.
const NUMBERS: u32 = 1_000_000;

/// Report of generation 1, base 0, without entries.
static FIRST_REPORT: &[u8] = b"\0\0\0\x0c\x01\x02\0\0\0\x01\0\0\0\0\0\0";

/// Report of generation 2, base 2, without entries.
static EMPTY_REPORT: &[u8] = b"\0\0\0\x0c\x01\x02\0\0\0\x02\0\0\0\x02\0\0";

/// Report of generation 2, base 1: number 0 waits for the exclusive lock `a`.
static ASKED_REPORT: &[u8] = b"\0\0\0\x14\x01\x02\0\0\0\x02\0\0\0\x01\0\x01\0\0\0\0\x02\x02\x01a";

/// Report of generation 2, base 1: number 0 holds the exclusive lock `a`.
static HELD_REPORT: &[u8] = b"\0\0\0\x14\x01\x02\0\0\0\x02\0\0\0\x01\0\x01\0\0\0\0\x01\x02\x01a";

/// Report of generation 2, base 3: number 0 holds the exclusive lock `a`.
static LATER_REPORT: &[u8] = b"\0\0\0\x14\x01\x02\0\0\0\x02\0\0\0\x03\0\x01\0\0\0\0\x01\x02\x01a";

/// Part 0 of 1 of the report of generation 1, base 0, without entries.
static FIRST_PART: &[u8] = b"\0\0\0\x10\x02\x02\0\0\0\x01\0\0\0\0\0\0\0\x01\0\0";

/// Part 0 of 2 of the report of generation 2, base 65, before its 64 entries.
static PART_0: &[u8] = b"\0\0\x02\x10\x02\x02\0\0\0\x02\0\0\0\x41\0\0\0\x02\0\x40";

/// Part 1 of 2 of that report: number 64 waits for the shared lock `b`.
static PART_1: &[u8] =
    b"\0\0\0\x18\x02\x02\0\0\0\x02\0\0\0\x41\0\x01\0\x02\0\x01\0\0\0\x40\x02\x01\x01b";

/// Command 0 of generation 1: a request for the exclusive lock `a`.
static REQUEST: &[u8] = b"\0\0\0\x0f\x01\x01\0\0\0\x01\0\0\0\0\x01\x02\0\x01a";

/// Command 3 of generation 2: the release of number 0.
static RELEASE: &[u8] = b"\0\0\0\x0f\x01\x01\0\0\0\x02\0\0\0\x03\x02\0\0\0\0";

// Calls of the agent

fn message(agent: &Agent, number: u32) -> Result<Frame, MessageFault> {
    match agent.message(number) {
        Err(MessageFault::Memory) => agent.message(number),
        answer => answer,
    }
}

fn report(agent: &Agent) -> Result<Sequence<Frame>, MessageFault> {
    match agent.report_frames() {
        Err(MessageFault::Memory) => agent.report_frames(),
        answer => answer,
    }
}

fn resend(rt: &impl Abort, agent: &Agent) -> Resend {
    match agent.resend() {
        Ok(resend) => resend,
        Err(_) => agent.resend().expect(rt, BACK),
    }
}

/// Count of messages that `State` has.
const SEEN: usize = 4;

/// State of a tab as its calls show it: its report, its first messages, and the messages that it sends again. Looking takes memory
/// only after the tab has entered a generation.
#[derive(Drop)]
struct State {
    report: Result<Sequence<Frame>, MessageFault>,
    messages: [Result<Frame, MessageFault>; SEEN],
    resends_report: bool,
    resends: Vec<u32>,
}

fn are_same_frames(one: &Frame, other: &Frame) -> bool {
    match (one, other) {
        (Frame::Command(one), Frame::Command(other)) => one == other,
        (Frame::Report(one), Frame::Report(other)) => one == other,
        (Frame::ReportPart(one), Frame::ReportPart(other)) => one == other,
        _ => false,
    }
}

fn are_same_messages(
    one: &Result<Frame, MessageFault>,
    other: &Result<Frame, MessageFault>,
) -> bool {
    match (one, other) {
        (Ok(one), Ok(other)) => are_same_frames(one, other),
        (Err(one), Err(other)) => one == other,
        _ => false,
    }
}

fn are_same_parts(one: &[Frame], other: &[Frame]) -> bool {
    one.len() == other.len()
        && one
            .iter()
            .zip(other)
            .all(|(one, other)| are_same_frames(one, other))
}

fn are_same_reports(
    one: &Result<Sequence<Frame>, MessageFault>,
    other: &Result<Sequence<Frame>, MessageFault>,
) -> bool {
    match (one, other) {
        (Ok(one), Ok(other)) => are_same_parts(one.as_slice(), other.as_slice()),
        (Err(one), Err(other)) => one == other,
        _ => false,
    }
}

fn are_same_states(one: &State, other: &State) -> bool {
    let mut messages = one.messages.iter().zip(other.messages.iter());
    one.resends_report == other.resends_report
        && one.resends == other.resends
        && are_same_reports(&one.report, &other.report)
        && messages.all(|(one, other)| are_same_messages(one, other))
}

fn state_of(rt: &impl Abort, agent: &Agent) -> State {
    let Resend {
        report: resends_report,
        numbers,
    } = resend(rt, agent);
    State {
        report: report(agent),
        messages: [
            message(agent, 0),
            message(agent, 1),
            message(agent, 2),
            message(agent, 3),
        ],
        resends_report,
        resends: numbers,
    }
}

/// Asserts that a refused call has changed nothing.
fn is_unchanged(rt: &impl Abort, agent: &Agent, before: &State) {
    let after = state_of(rt, agent);
    assert!(rt; are_same_states(&after, before));
    drop(after);
}

fn request(
    rt: &impl Abort,
    agent: &mut Agent,
    name: &str,
    mode: Mode,
) -> Result<Pending, AgentFault> {
    let before = state_of(rt, agent);
    match agent.request(name, mode) {
        Ok(pending) => Ok(pending),
        Err(fault) => {
            is_unchanged(rt, agent, &before);
            if fault == AgentFault::Memory {
                agent.request(name, mode)
            } else {
                Err(fault)
            }
        }
    }
}

fn probe(rt: &impl Abort, agent: &mut Agent, name: &str, mode: Mode) -> Result<Probe, AgentFault> {
    let before = state_of(rt, agent);
    match agent.probe(name, mode) {
        Ok(probe) => Ok(probe),
        Err(fault) => {
            is_unchanged(rt, agent, &before);
            if fault == AgentFault::Memory {
                agent.probe(name, mode)
            } else {
                Err(fault)
            }
        }
    }
}

fn query(rt: &impl Abort, agent: &mut Agent) -> Result<Asking, AgentFault> {
    let before = state_of(rt, agent);
    match agent.query() {
        Ok(asking) => Ok(asking),
        Err(fault) => {
            is_unchanged(rt, agent, &before);
            if fault == AgentFault::Memory {
                agent.query()
            } else {
                Err(fault)
            }
        }
    }
}

fn deliver(rt: &impl Abort, agent: &mut Agent, frame: &Frame) -> Delivered {
    let before = state_of(rt, agent);
    match agent.deliver(frame) {
        Delivered::Dropped(DropReason::Memory) => {
            is_unchanged(rt, agent, &before);
            agent.deliver(frame)
        }
        delivered => delivered,
    }
}

/// Issues a request, voids its token, and returns its number or the cause of the refusal.
fn ask(
    rt: &impl Abort,
    agent: &mut Agent,
    dead: &DeadAgent,
    name: &str,
    mode: Mode,
) -> Result<u32, AgentFault> {
    let pending = request(rt, agent, name, mode)?;
    let number = pending.number();
    dead.void(Token::Pending(pending));
    Ok(number)
}

// Deliveries

/// Outcome of a delivery, without the report that a hello gives.
#[derive(Clone, Copy, PartialEq, Eq)]
enum Told {
    Granted(u32),
    Waiting(u32),
    Lost(u32),
    Taken(u32),
    Part(u32),
    Whole(u32),
    Dropped(DropReason),
    Other,
}

fn told_by(delivered: &Delivered) -> Told {
    match delivered {
        Delivered::Granted(number) => Told::Granted(*number),
        Delivered::Waiting(number) => Told::Waiting(*number),
        Delivered::Lost(number) => Told::Lost(*number),
        Delivered::Taken(number) => Told::Taken(*number),
        Delivered::Part(number) => Told::Part(*number),
        Delivered::Whole(number) => Told::Whole(*number),
        Delivered::Dropped(reason) => Told::Dropped(*reason),
        _ => Told::Other,
    }
}

/// Delivers a frame.
fn delivered(rt: &impl Abort, agent: &mut Agent, frame: Frame) -> Delivered {
    let delivered = deliver(rt, agent, &frame);
    drop(frame);
    delivered
}

/// Delivers a frame, and compares the outcome.
fn hears(rt: &impl Abort, agent: &mut Agent, frame: Frame, want: Told) {
    assert!(rt; told_by(&delivered(rt, agent, frame)) == want);
}

fn hello(generation: u32) -> Frame {
    Frame::Hello(Hello { generation })
}

fn answer(generation: u32, number: u32, outcome: Outcome, upto: u32) -> Frame {
    Frame::Answer(Answer {
        generation,
        upto,
        number,
        outcome,
    })
}

/// Returns a part of the answer to a query of generation 1.
fn part(number: u32, part: u16, parts: u16, entries: Vec<SnapshotEntry>) -> Frame {
    Frame::Snapshot(wl_frames::Snapshot {
        generation: 1,
        number,
        part,
        parts,
        entries: Sequence::new(entries),
    })
}

fn entry(rt: &impl Abort, alloc: Global, held: bool, tab: u16, mode: Mode) -> SnapshotEntry {
    SnapshotEntry {
        held,
        tab,
        mode,
        name: name(alloc, "a").expect(rt, BACK),
    }
}

/// Returns snapshot entries: tab 1 holds the exclusive lock `a`, and tab 2 waits for a shared one.
fn entries(rt: &impl Abort, alloc: Global) -> Result<Vec<SnapshotEntry>, AllocError> {
    let held = entry(rt, alloc, true, 1, Mode::Exclusive);
    let waiting = entry(rt, alloc, false, 2, Mode::Shared);
    Ok(vec![in alloc; held, waiting]?)
}

fn locks(rt: &impl Abort, alloc: Global) -> Vec<SnapshotEntry> {
    match entries(rt, alloc) {
        Ok(entries) => entries,
        Err(_) => entries(rt, alloc).expect(rt, BACK),
    }
}

// Messages of the tab

/// Returns the rest of these bytes behind those of a frame.
fn behind<'a>(rt: &impl Abort, alloc: Global, frame: &Frame, bytes: &'a [u8]) -> &'a [u8] {
    let spelling = spelling(alloc, frame).expect(rt, BACK);
    bytes
        .strip_prefix(spelling.as_slice())
        .expect(rt, "what is wanted next")
}

/// Asserts the bytes of frames, one after another.
fn spells_all(rt: &impl Abort, alloc: Global, frames: Sequence<Frame>, want: &[u8]) {
    let mut rest = want;
    for frame in frames.as_slice() {
        rest = behind(rt, alloc, frame, rest);
    }
    assert!(rt; rest.is_empty());
}

/// Delivers a hello, and returns the report that it gives.
fn entering(rt: &impl Abort, agent: &mut Agent, generation: u32) -> Sequence<Frame> {
    match delivered(rt, agent, hello(generation)) {
        Delivered::Entered(frames) => frames,
        _ => panic!(rt; "no generation was entered"),
    }
}

/// Delivers a hello, and compares the report that it gives.
fn enters(rt: &impl Abort, alloc: Global, agent: &mut Agent, generation: u32, want: &[u8]) {
    spells_all(rt, alloc, entering(rt, agent, generation), want);
}

fn sends(rt: &impl Abort, alloc: Global, agent: &Agent, number: u32, want: &[u8]) {
    let frame = message(agent, number).expect(rt, "issued");
    assert!(rt; is_spelled(alloc, &frame, want));
    drop(frame);
}

fn reports(rt: &impl Abort, alloc: Global, agent: &Agent, want: &[u8]) {
    let frames = report(agent).expect(rt, "entered");
    spells_all(rt, alloc, frames, want);
}

fn sends_again(rt: &impl Abort, agent: &Agent, report: bool, numbers: &[u32]) {
    let resend = resend(rt, agent);
    assert_eq!(rt; resend.report, report);
    assert_eq!(rt; resend.numbers.as_slice(), numbers);
}

// Tokens

fn aborts(rt: &impl Abort, agent: &mut Agent, pending: Pending, want: u32) {
    let number = agent.abort(pending).expect(rt, "asked");
    assert_eq!(rt; number, want);
}

fn releases(rt: &impl Abort, agent: &mut Agent, lock: HeldLock, want: u32) {
    let number = agent.release(lock).expect(rt, "held");
    assert_eq!(rt; number, want);
}

fn lock_of(rt: &impl Abort, agent: &mut Agent, pending: Pending) -> HeldLock {
    match agent.settle(pending).expect(rt, "its own") {
        Settled::Held(lock) => lock,
        Settled::Waiting(_pending) => panic!(rt; "the request is asked still"),
    }
}

fn is_null(rt: &impl Abort, agent: &mut Agent, probe: Probe) {
    match agent.settle_probe(probe).expect(rt, "its own") {
        ProbeSettled::Null => {}
        ProbeSettled::Waiting(_probe) => panic!(rt; "the probe is asked still"),
        ProbeSettled::Held(_lock) => panic!(rt; "the lock is held"),
    }
}

fn is_lost(rt: &impl Abort, agent: &mut Agent, asking: Asking) {
    match agent.settle_query(asking).expect(rt, "its own") {
        QuerySettled::Lost => {}
        QuerySettled::Whole(_) => panic!(rt; "the query is answered"),
        QuerySettled::Waiting(_asking) => panic!(rt; "the query is asked still"),
    }
}

fn is_info(infos: &[LockInfo], tab: u16, mode: Mode) -> bool {
    match infos {
        [info] => info.tab == tab && info.mode == mode && info.name.as_str() == "a",
        _ => false,
    }
}

fn has_locks(snapshot: &Snapshot) -> bool {
    is_info(snapshot.held.as_slice(), 1, Mode::Exclusive)
        && is_info(snapshot.pending.as_slice(), 2, Mode::Shared)
}

/// Asserts that the answer to a query is the entries of `locks`.
fn is_answered(rt: &impl Abort, agent: &mut Agent, asking: Asking) {
    match agent.settle_query(asking).expect(rt, "its own") {
        QuerySettled::Whole(snapshot) => assert!(rt; has_locks(&snapshot)),
        QuerySettled::Lost => panic!(rt; "the query is lost"),
        QuerySettled::Waiting(_asking) => panic!(rt; "the query is asked still"),
    }
}

// Tabs

/// Returns a tab that has entered generation 1.
fn entered(rt: &impl Abort, alloc: Global, tab: u16) -> Agent {
    let mut agent = Agent::new(alloc, tab, NUMBERS);
    enters(rt, alloc, &mut agent, 1, FIRST_REPORT);
    agent
}

/// Returns a tab that has requested the lock `a`.
fn asked(rt: &impl Abort, alloc: Global, tab: u16, mode: Mode) -> (Agent, Pending) {
    let mut agent = entered(rt, alloc, tab);
    let pending = request(rt, &mut agent, "a", mode).expect(rt, "issued");
    (agent, pending)
}

/// Returns a tab that has heard of the grant of the lock `a`.
fn granted(rt: &impl Abort, alloc: Global, mode: Mode) -> (Agent, Pending) {
    let (mut agent, pending) = asked(rt, alloc, 1, mode);
    hears(
        rt,
        &mut agent,
        answer(1, 0, Outcome::Granted, 1),
        Told::Granted(0),
    );
    (agent, pending)
}

/// Issues a request, and compares its number.
fn requests(rt: &impl Abort, agent: &mut Agent, name: &str, number: u32) -> Pending {
    let pending = request(rt, agent, name, Mode::Exclusive).expect(rt, "issued");
    assert_eq!(rt; pending.number(), number);
    pending
}

/// Issues a query, and compares its number.
fn queries(rt: &impl Abort, agent: &mut Agent, number: u32) -> Asking {
    let asking = query(rt, agent).expect(rt, "issued");
    assert_eq!(rt; asking.number(), number);
    asking
}

/// Asserts that a request and a probe are refused for this cause.
fn refuses_locks(rt: &impl Abort, agent: &mut Agent, want: AgentFault) {
    let fault = request(rt, agent, "a", Mode::Exclusive).expect_err(rt, "refused");
    assert_eq!(rt; fault, want);
    let fault = probe(rt, agent, "a", Mode::Exclusive).expect_err(rt, "refused");
    assert_eq!(rt; fault, want);
}

/// Asserts that each kind of command is refused for this cause.
fn refuses_all(rt: &impl Abort, agent: &mut Agent, want: AgentFault) {
    refuses_locks(rt, agent, want);
    let fault = query(rt, agent).expect_err(rt, "refused");
    assert_eq!(rt; fault, want);
}

/// Returns a tab of three numbers: a request has two of them, and a query the third.
fn full(rt: &impl Abort, alloc: Global) -> (Agent, Pending, Asking) {
    let mut agent = Agent::new(alloc, 1, 3);
    let pending = requests(rt, &mut agent, "a", 0);
    refuses_locks(rt, &mut agent, AgentFault::NumbersUsedUp);
    let asking = queries(rt, &mut agent, 1);
    refuses_all(rt, &mut agent, AgentFault::NumbersUsedUp);
    (agent, pending, asking)
}

/// Returns the tab of `full` after the abort of its request.
fn used_up(rt: &impl Abort, alloc: Global) -> (Agent, Asking) {
    let (mut agent, pending, asking) = full(rt, alloc);
    aborts(rt, &mut agent, pending, 2);
    refuses_all(rt, &mut agent, AgentFault::NumbersUsedUp);
    (agent, asking)
}
