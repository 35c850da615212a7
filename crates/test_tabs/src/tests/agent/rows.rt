//! Rows of a tab's agent: its locks, limits and generations, and its reports in parts.

use super::{
    ASKED_REPORT, EMPTY_REPORT, FIRST_PART, FIRST_REPORT, HELD_REPORT, LATER_REPORT, NUMBERS,
    PART_0, PART_1, RELEASE, REQUEST, Told, aborts, answer, ask, asked, entered, entering, enters,
    full, granted, hears, hello, is_answered, is_lost, is_null, lock_of, locks, message, part,
    probe, queries, query, refuses_all, refuses_locks, releases, report, reports, request,
    requests, resend, sends, sends_again, used_up,
};
use std::alloc::{AllocError, Global};
use std::process::Abort;
use test_support::retry::{BACK, append, letters};
use wl_agent::{
    Agent, AgentFault, Asking, DeadAgent, DropReason, Foreign, HeldLock, MessageFault, Mode,
    Pending, Probe, Token,
};
use wl_frames::Outcome;

/// A request and a query use up the numbers of a tab.
#[test]
fn agent_1(rt: HostRuntime) {
    let (agent, pending, asking) = full(&rt, rt.alloc());
    let dead = agent.die();
    dead.void(Token::Pending(pending));
    dead.void(Token::Asking(asking));
}

/// The abort of a request is issued even if the numbers are used up. The tab has no message before it enters a generation.
#[test]
fn agent_2(rt: HostRuntime) {
    let (agent, asking) = used_up(&rt, rt.alloc());
    assert_eq!(&rt; message(&agent, 2).err(), Some(MessageFault::NotEntered));
    assert_eq!(&rt; report(&agent).err(), Some(MessageFault::NotEntered));
    agent.die().void(Token::Asking(asking));
}

/// A tab enters its first generation with an empty report, and drops a grant that comes after the abort.
#[test]
fn agent_3(rt: HostRuntime) {
    let alloc = rt.alloc();
    let (mut agent, asking) = used_up(&rt, alloc);
    enters(&rt, alloc, &mut agent, 1, FIRST_REPORT);
    let late = answer(1, 0, Outcome::Granted, 1);
    hears(&rt, &mut agent, late, Told::Dropped(DropReason::Over));
    assert_eq!(&rt; message(&agent, 3).err(), Some(MessageFault::NoSuchNumber));
    agent.die().void(Token::Asking(asking));
}

/// The agent of one tab returns the token of another.
#[test]
fn agent_4(rt: HostRuntime) {
    let mut agent = Agent::new(rt.alloc(), 1, 3);
    let mut other = Agent::new(rt.alloc(), 2, 3);
    let pending = request(&rt, &mut agent, "a", Mode::Exclusive).expect(&rt, "issued");
    let Foreign { value: pending } = other.settle(pending).expect_err(&rt, "foreign");
    assert_eq!(rt; pending.number(), 0);
    aborts(&rt, &mut agent, pending, 1);
    other.die();
    agent.die();
}

#[test]
fn late_grant_after_abort(rt: HostRuntime) {
    let alloc = rt.alloc();
    let (mut agent, pending) = asked(&rt, alloc, 1, Mode::Exclusive);
    sends(&rt, alloc, &agent, 0, REQUEST);
    aborts(&rt, &mut agent, pending, 1);
    let late = answer(1, 0, Outcome::Granted, 1);
    hears(&rt, &mut agent, late, Told::Dropped(DropReason::Over));
    let taken = answer(1, 1, Outcome::Taken, 2);
    hears(&rt, &mut agent, taken, Told::Taken(1));
    // Nothing is held.
    enters(&rt, alloc, &mut agent, 2, EMPTY_REPORT);
    agent.die();
}

#[test]
fn repeated_request(rt: HostRuntime) {
    let (mut agent, pending) = granted(&rt, rt.alloc(), Mode::Shared);
    let lock = lock_of(&rt, &mut agent, pending);
    releases(&rt, &mut agent, lock, 1);
    let taken = answer(1, 1, Outcome::Taken, 2);
    hears(&rt, &mut agent, taken, Told::Taken(1));
    let gone = answer(1, 0, Outcome::Gone, 2);
    hears(&rt, &mut agent, gone, Told::Dropped(DropReason::Over));
    agent.die();
}

#[test]
fn restart_while_asked(rt: HostRuntime) {
    let alloc = rt.alloc();
    let (mut agent, pending) = asked(&rt, alloc, 2, Mode::Exclusive);
    let waiting = answer(1, 0, Outcome::Waiting, 1);
    hears(&rt, &mut agent, waiting, Told::Waiting(0));
    enters(&rt, alloc, &mut agent, 2, ASKED_REPORT);
    let old = answer(1, 0, Outcome::Granted, 1);
    hears(
        &rt,
        &mut agent,
        old,
        Told::Dropped(DropReason::OldGeneration),
    );
    let granted = answer(2, 0, Outcome::Granted, 1);
    hears(&rt, &mut agent, granted, Told::Granted(0));
    let lock = lock_of(&rt, &mut agent, pending);
    agent.die().void(Token::HeldLock(lock));
}

#[test]
fn restart_while_held(rt: HostRuntime) {
    let alloc = rt.alloc();
    let (mut agent, pending) = granted(&rt, alloc, Mode::Exclusive);
    enters(&rt, alloc, &mut agent, 2, HELD_REPORT);
    hears(
        &rt,
        &mut agent,
        hello(2),
        Told::Dropped(DropReason::OldGeneration),
    );
    let lock = lock_of(&rt, &mut agent, pending);
    releases(&rt, &mut agent, lock, 1);
    // The report stays what it was on entering.
    reports(&rt, alloc, &agent, HELD_REPORT);
    agent.die();
}

#[test]
fn snapshot(rt: HostRuntime) {
    let alloc = rt.alloc();
    let (mut agent, pending) = granted(&rt, alloc, Mode::Exclusive);
    let asking = query(&rt, &mut agent).expect(&rt, "issued");
    let whole = part(1, 0, 1, locks(&rt, alloc));
    hears(&rt, &mut agent, whole, Told::Whole(1));
    is_answered(&rt, &mut agent, asking);
    agent.die().void(Token::Pending(pending));
}

#[test]
fn snapshot_in_parts(rt: HostRuntime) {
    let alloc = rt.alloc();
    let mut agent = entered(&rt, alloc, 1);
    let asking = query(&rt, &mut agent).expect(&rt, "issued");
    let last = part(0, 1, 2, locks(&rt, alloc));
    hears(&rt, &mut agent, last, Told::Part(0));
    let again = part(0, 1, 2, Vec::new(alloc));
    hears(&rt, &mut agent, again, Told::Dropped(DropReason::Twice));
    let of_three = part(0, 0, 3, Vec::new(alloc));
    hears(&rt, &mut agent, of_three, Told::Dropped(DropReason::Odd));
    let first = part(0, 0, 2, Vec::new(alloc));
    hears(&rt, &mut agent, first, Told::Whole(0));
    is_answered(&rt, &mut agent, asking);
    agent.die();
}

#[test]
fn snapshot_is_lost(rt: HostRuntime) {
    let mut agent = entered(&rt, rt.alloc(), 2);
    let asking = query(&rt, &mut agent).expect(&rt, "issued");
    let gone = answer(1, 0, Outcome::Gone, 1);
    hears(&rt, &mut agent, gone, Told::Lost(0));
    is_lost(&rt, &mut agent, asking);
    agent.die();
}

/// Issues shared requests for the lock `b` with the numbers from `first` to `limit`.
fn fill(rt: &impl Abort, agent: &mut Agent, dead: &DeadAgent, first: u32, limit: u32) {
    for number in first..limit {
        assert_eq!(rt; ask(rt, agent, dead, "b", Mode::Shared), Ok(number));
    }
}

#[test]
fn refusals(rt: HostRuntime) {
    let alloc = rt.alloc();
    let dead = Agent::new(alloc, 9, 0).die();
    let mut agent = entered(&rt, alloc, 1);
    let too_long = letters(alloc, 256).expect(&rt, BACK);
    let longest = letters(alloc, 255).expect(&rt, BACK);
    let is = Mode::Exclusive;
    let refused = ask(&rt, &mut agent, &dead, "-x", is);
    assert_eq!(&rt; refused, Err(AgentFault::NotSupported));
    let empty = requests(&rt, &mut agent, "", 0);
    assert_eq!(&rt; ask(&rt, &mut agent, &dead, longest.as_str(), is), Ok(1));
    let refused = ask(&rt, &mut agent, &dead, too_long.as_str(), is);
    assert_eq!(&rt; refused, Err(AgentFault::NameTooLong));
    fill(&rt, &mut agent, &dead, 2, 64);
    refuses_all(&rt, &mut agent, AgentFault::TooMany);
    aborts(&rt, &mut agent, empty, 64);
    fill(&rt, &mut agent, &dead, 65, 66);
    agent.die();
}

/// A request or a probe reserves a number beside its own, for its abort or release. A query has its own alone.
#[test]
fn limits_of_numbers(rt: HostRuntime) {
    let mut agent = Agent::new(rt.alloc(), 1, 1);
    refuses_locks(&rt, &mut agent, AgentFault::NumbersUsedUp);
    let asking = queries(&rt, &mut agent, 0);
    refuses_all(&rt, &mut agent, AgentFault::NumbersUsedUp);
    agent.die().void(Token::Asking(asking));
    let mut agent = Agent::new(rt.alloc(), 1, 2);
    let pending = requests(&rt, &mut agent, "a", 0);
    refuses_all(&rt, &mut agent, AgentFault::NumbersUsedUp);
    aborts(&rt, &mut agent, pending, 1);
    refuses_all(&rt, &mut agent, AgentFault::NumbersUsedUp);
    agent.die();
}

/// If too many numbers are live and none is left, the first cause is given.
#[test]
fn last_numbers_of_a_full_tab(rt: HostRuntime) {
    let dead = Agent::new(rt.alloc(), 9, 0).die();
    let mut agent = Agent::new(rt.alloc(), 1, 128);
    let first = requests(&rt, &mut agent, "a", 0);
    fill(&rt, &mut agent, &dead, 1, 64);
    refuses_all(&rt, &mut agent, AgentFault::TooMany);
    aborts(&rt, &mut agent, first, 64);
    refuses_all(&rt, &mut agent, AgentFault::NumbersUsedUp);
    agent.die();
}

// Generations

/// Returns a tab that holds the lock `a`, probes for it, and queries.
fn busy(rt: &impl Abort, alloc: Global) -> (Agent, Pending, Probe, Asking) {
    let (mut agent, pending) = granted(rt, alloc, Mode::Exclusive);
    let probe = probe(rt, &mut agent, "a", Mode::Shared).expect(rt, "issued");
    assert_eq!(rt; probe.number(), 1);
    let asking = queries(rt, &mut agent, 2);
    (agent, pending, probe, asking)
}

/// A tab that enters a later generation reports the lock that it holds. Its probe and its query end.
#[test]
fn generations_1(rt: HostRuntime) {
    let alloc = rt.alloc();
    let (mut agent, pending, probe, asking) = busy(&rt, alloc);
    enters(&rt, alloc, &mut agent, 2, LATER_REPORT);
    is_null(&rt, &mut agent, probe);
    is_lost(&rt, &mut agent, asking);
    let lock = lock_of(&rt, &mut agent, pending);
    releases(&rt, &mut agent, lock, 3);
    sends(&rt, alloc, &agent, 3, RELEASE);
    let taken = answer(2, 3, Outcome::Taken, 4);
    hears(&rt, &mut agent, taken, Told::Taken(3));
    agent.die();
}

#[test]
fn resend_all(rt: HostRuntime) {
    let alloc = rt.alloc();
    let mut agent = Agent::new(alloc, 1, NUMBERS);
    sends_again(&rt, &agent, false, &[]);
    enters(&rt, alloc, &mut agent, 1, FIRST_REPORT);
    sends_again(&rt, &agent, true, &[]);
    let pending = request(&rt, &mut agent, "a", Mode::Shared).expect(&rt, "issued");
    sends_again(&rt, &agent, true, &[0]);
    let granted = answer(1, 0, Outcome::Granted, 1);
    hears(&rt, &mut agent, granted, Told::Granted(0));
    sends_again(&rt, &agent, false, &[]);
    agent.die().void(Token::Pending(pending));
}

// Reports in parts

/// Returns the report of 65 requests for the lock `b`, in two parts.
fn two_parts(alloc: Global) -> Result<Vec<u8>, AllocError> {
    let mut parts = Vec::new(alloc);
    append(&mut parts, PART_0)?;
    for number in 0..64 {
        append(&mut parts, &[0, 0, 0, number, 2, 1, 1, b'b'])?;
    }
    append(&mut parts, PART_1)?;
    Ok(parts)
}

#[test]
fn report_in_parts(rt: HostRuntime) {
    let alloc = rt.alloc();
    let dead = Agent::new(alloc, 9, 0).die();
    let want = two_parts(alloc).expect(&rt, BACK);
    let mut agent = Agent::new_two(alloc, 1, NUMBERS);
    assert_eq!(&rt; report(&agent).err(), Some(MessageFault::NotEntered));
    enters(&rt, alloc, &mut agent, 1, FIRST_PART);
    fill(&rt, &mut agent, &dead, 0, 65);
    enters(&rt, alloc, &mut agent, 2, &want);
    // The report stays what it was on entering.
    fill(&rt, &mut agent, &dead, 65, 66);
    reports(&rt, alloc, &agent, &want);
    let resend = resend(&rt, &agent);
    assert!(&rt; resend.report);
    assert_eq!(&rt; resend.numbers.len(), 66);
    agent.die();
}

#[test]
fn more_live_numbers(rt: HostRuntime) {
    let alloc = rt.alloc();
    let dead = Agent::new(alloc, 9, 0).die();
    assert_eq!(rt; dead.tab(), 9);
    let mut agent = Agent::new_two(alloc, 1, NUMBERS);
    fill(&rt, &mut agent, &dead, 0, 1024);
    refuses_all(&rt, &mut agent, AgentFault::TooMany);
    enters(&rt, alloc, &mut agent, 1, FIRST_PART);
    assert_eq!(&rt; entering(&rt, &mut agent, 2).as_slice().len(), 16);
    agent.die();
}
