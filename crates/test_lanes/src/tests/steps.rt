//! Rows of steps behind one lock. A call that is refused memory leaves the steps and the lane's receipts unchanged, is made
//! again, and must then give its reply.

ghost use Rattle.std.specs.Prelude.{◌≡◌, ◌<◌, ◌≤◌, []};
ghost use Rattle.wl_broker.specs.Broker.{started};
ghost use Rattle.wl_grammar.specs.Grammar.{TabsRiseFrom};
ghost use Rattle.wl_locked.specs.declared.locked.TheConstants.{LANE_LIMIT};

use super::events::{answer, command, reply, report, request, take_once};
use crate::tests::same;
use std::alloc::{AllocError, Global};
use std::marker::Brand;
use std::process::Abort;
use std::sync::Wait;
use std::sync::ledger::Blank;
use test_support::retry::BACK;
use wl_frames::{Addressed, Downward, Operation, Outcome};
use wl_locked::{
    BookEvent, CloseFault, Generation, LANE_LIMIT, Lane, LockedBroker, NotStepped, Receipt, Reply,
    STEP_LIMIT, SharedEvent, Step,
};

// Rows

/// Adds a step: an event and its reply.
fn add(
    alloc: Global,
    steps: &mut Vec<Step>,
    event: BookEvent,
    reply: Result<Reply, AllocError>,
) -> Result<(), AllocError> {
    steps.push(Step {
        event: SharedEvent::new(alloc, event)?,
        reply: reply?,
    })?;
    Ok(())
}

/// Adds an event with an empty reply: a first report or a death.
pub fn add_silent(
    alloc: Global,
    steps: &mut Vec<Step>,
    event: BookEvent,
) -> Result<(), AllocError> {
    add(alloc, steps, event, reply(alloc, None, None))
}

/// Adds a tab's request for the exclusive lock `a`, and its outcome.
fn add_request(
    alloc: Global,
    steps: &mut Vec<Step>,
    tab: u16,
    number: u32,
    outcome: Outcome,
) -> Result<(), AllocError> {
    let event = command(1, tab, number, request(alloc)?);
    let told = answer(tab, number.wrapping_add(1), number, outcome);
    add(alloc, steps, event, reply(alloc, Some(told), None))
}

/// Adds the release of a tab's lock, its next command, which may grant the last request of another tab.
fn add_release(
    alloc: Global,
    steps: &mut Vec<Step>,
    tab: u16,
    number: u32,
    granted: Option<Addressed>,
) -> Result<(), AllocError> {
    let next = number.wrapping_add(1);
    let event = command(1, tab, next, Operation::Release { number });
    let told = answer(tab, next.wrapping_add(1), next, Outcome::Taken);
    add(alloc, steps, event, reply(alloc, Some(told), granted))
}

/// Returns the grant of a tab's last request.
fn grant(tab: u16, number: u32) -> Option<Addressed> {
    Some(answer(tab, number.wrapping_add(1), number, Outcome::Granted))
}

/// Returns two tabs' reports, and a request.
fn three_steps(alloc: Global) -> Result<Vec<Step>, AllocError> {
    let mut steps = Vec::new(alloc);
    add_silent(alloc, &mut steps, report(alloc, 1, 1))?;
    add_silent(alloc, &mut steps, report(alloc, 1, 2))?;
    add_request(alloc, &mut steps, 1, 0, Outcome::Granted)?;
    Ok(steps)
}

/// Returns a tab's report, its request, and its death twice.
fn four_steps(alloc: Global) -> Result<Vec<Step>, AllocError> {
    let mut steps = Vec::new(alloc);
    add_silent(alloc, &mut steps, report(alloc, 1, 1))?;
    add_request(alloc, &mut steps, 1, 0, Outcome::Granted)?;
    add_silent(alloc, &mut steps, BookEvent::Dead(1))?;
    add_silent(alloc, &mut steps, BookEvent::Dead(1))?;
    Ok(steps)
}

/// Count of the times that each of two tabs has the lock.
const TIMES: u32 = 50;

/// Returns two tabs' reports, and requests of each tab while the other one has the lock, which then hands it over.
fn handing_over(alloc: Global) -> Result<Vec<Step>, AllocError> {
    let mut steps = three_steps(alloc)?;
    for time in 1..TIMES {
        let number = time.wrapping_mul(2);
        let last = number.wrapping_sub(2);
        add_request(alloc, &mut steps, 2, last, Outcome::Waiting)?;
        add_release(alloc, &mut steps, 1, last, grant(2, last))?;
        add_request(alloc, &mut steps, 1, number, Outcome::Waiting)?;
        add_release(alloc, &mut steps, 2, last, grant(1, number))?;
    }
    let last = TIMES.wrapping_mul(2).wrapping_sub(2);
    add_request(alloc, &mut steps, 2, last, Outcome::Waiting)?;
    add_release(alloc, &mut steps, 1, last, grant(2, last))?;
    add_release(alloc, &mut steps, 2, last, None)?;
    Ok(steps)
}

// Calls of the broker

pub fn copy(rt: &impl Abort, event: &BookEvent) -> BookEvent {
    match event.copy() {
        Ok(copy) => copy,
        Err(_) => event.copy().expect(rt, BACK),
    }
}

/// Returns whether a receipt equals the step at its place.
pub fn is_of(receipt: &Receipt, steps: &[Step]) -> bool {
    match steps.get(receipt.place as usize) {
        Some(step) => receipt.event == step.event && receipt.reply == step.reply,
        None => false,
    }
}

/// Returns whether there are `count` receipts, which equal receipts of a row.
pub fn are_of(receipts: &[Receipt], count: usize, row: &[Step]) -> bool {
    receipts.len() == count && receipts.iter().all(|receipt| is_of(receipt, row))
}

/// Takes an event of a row for a lane, again if memory is refused: the lane's receipts are unchanged then.
fn take<J: Generation, R: Wait + Abort>(
    rt: &R,
    alloc: Global,
    broker: &LockedBroker<J>,
    lane: &mut Lane<J>,
    event: &BookEvent,
    row: &[Step],
) -> Result<Receipt, NotStepped> {
    let count = lane.count();
    match take_once(rt, broker, lane, copy(rt, event)) {
        Err(NotStepped::Memory) => {
            assert!(rt; are_of(lane.receipts(), count, row));
            take_once(rt, broker, lane, copy(rt, event))
        }
        answer => answer,
    }
}

/// Returns the number of the lane that takes an event, by the number of its tab.
fn lane_of(event: &BookEvent, lanes: usize) -> usize {
    let tab = match event {
        BookEvent::Take(stamped) => stamped.tab,
        BookEvent::Dead(tab) => *tab,
    };
    usize::from(tab).checked_rem(lanes).unwrap_or(0)
}

/// Takes the step at a place of a row for a lane.
fn take_step<J: Generation, R: Wait + Abort>(
    rt: &R,
    alloc: Global,
    broker: &LockedBroker<J>,
    lane: &mut Lane<J>,
    row: &[Step],
    place: usize,
) {
    let step = row.get(place).expect(rt, "a step of the row");
    let receipt = take(rt, alloc, broker, lane, step.event.get(), row).expect(rt, "a step");
    assert!(rt;
        receipt.place as usize == place && is_of(&receipt, row),
        "at {place}"
    );
    drop(receipt);
}

/// Takes an event for which the generation has no step left.
fn find_spent<J: Generation, R: Wait + Abort>(
    rt: &R,
    broker: &LockedBroker<J>,
    lane: &mut Lane<J>,
    row: &[Step],
) {
    let count = lane.count();
    let query = command(1, 1, 1, Operation::Query);
    let spent = take_once(rt, broker, lane, query).err();
    same(rt, spent, Some(NotStepped::GenerationSpent));
    assert!(rt; are_of(lane.receipts(), count, row));
}

/// Takes the steps of a row. Takes one more event if these steps use up the generation.
fn take_row<J: Generation, R: Wait + Abort>(
    rt: &R,
    alloc: Global,
    broker: &LockedBroker<J>,
    lanes: &mut [Lane<J>],
    limit: u32,
    row: &[Step],
) {
    for (place, step) in row.iter().enumerate() {
        let number = lane_of(step.event.get(), lanes.len());
        let lane = lanes.get_mut(number).expect(rt, "a lane");
        take_step(rt, alloc, broker, lane, row, place);
    }
    if row.len() == limit as usize {
        find_spent(rt, broker, lanes.get_mut(0).expect(rt, "a lane"), row);
    }
}

/// Asserts that the lanes' receipts equal the receipts of a row.
fn are_of_row<J: Generation>(rt: &impl Abort, lanes: &[Lane<J>], row: &[Step]) {
    for lane in lanes {
        for receipt in lane.receipts() {
            assert!(rt; is_of(receipt, row));
        }
    }
}

/// Asserts that the steps of a history equal the steps of a row.
pub fn is_row(rt: &impl Abort, steps: &[Step], row: &[Step]) {
    same(rt, steps.len(), row.len());
    for (step, wanted) in steps.iter().zip(row) {
        assert!(rt; step.event == wanted.event && step.reply == wanted.reply);
    }
}

/// Plays a row on a broker whose generation has `limit` steps. Fails only if there is no memory for the broker itself.
fn play_named<J: Generation, R: Wait + Abort>(
    rt: &R,
    alloc: Global,
    blank: Blank,
    lanes: u16,
    limit: u32,
    row: &[Step],
) -> Result<(), AllocError>
    requires name { blank.name ≡ J.name }
    requires parts { (blank.parts ≡ J.parts) × (J.parts ≡ lanes) }
    requires lanes { (0 < lanes) × (lanes ≤ LANE_LIMIT) }
    requires opening { J.opening ≡ started 1 [] }
    requires limit { J.limit ≡ limit }
{
    let (broker, mut lanes, _hellos) = LockedBroker::<J>::new(alloc, blank, 1, &[], limit, lanes)?;
    take_row(rt, alloc, &broker, lanes.as_mut_slice(), limit, row);
    are_of_row(rt, lanes.as_slice(), row);
    let history = broker.close(lanes).expect(rt, "the steps of the lanes");
    is_row(rt, history.steps(), row);
    Ok(())
}

/// Plays a row with one or two lanes.
fn play<R: Wait + Abort>(
    rt: &R,
    alloc: Global,
    lanes: u16,
    limit: u32,
    row: &[Step],
) -> Result<(), AllocError> {
    assert!(rt; 0 < lanes && lanes <= LANE_LIMIT);
    let blank = Blank::new(u64::from(lanes));
    play_named::<Brand, R>(rt, alloc, blank, lanes, limit, row)
}

/// Rows of steps.
#[derive(Clone, Copy)]
pub enum Row {
    Three,
    Four,
    HandingOver,
}

fn steps_of(alloc: Global, row: Row) -> Result<Vec<Step>, AllocError> {
    match row {
        Row::Three => three_steps(alloc),
        Row::Four => four_steps(alloc),
        Row::HandingOver => handing_over(alloc),
    }
}

/// Returns the steps of a row.
pub fn steps_in(rt: &impl Abort, alloc: Global, row: Row) -> Vec<Step> {
    match steps_of(alloc, row) {
        Ok(steps) => steps,
        Err(_) => steps_of(alloc, row).expect(rt, BACK),
    }
}

/// Plays a row of `count` steps on a broker whose generation has `limit` steps.
fn plays<R: Wait + Abort>(rt: &R, alloc: Global, lanes: u16, limit: u32, row: Row, count: usize) {
    let steps = steps_in(rt, alloc, row);
    same(rt, steps.len(), count);
    if play(rt, alloc, lanes, limit, steps.as_slice()).is_err() {
        play(rt, alloc, lanes, limit, steps.as_slice()).expect(rt, BACK);
    }
}

#[test]
fn generation_spent(rt: HostRuntime) {
    plays(&rt, rt.alloc(), 1, 3, Row::Three, 3);
}

/// A generation begins even if there is no memory for all of its steps: room for one after the other is enough.
#[test]
fn a_long_generation_begins_with_three_steps(rt: HostRuntime) {
    plays(&rt, rt.alloc(), 1, STEP_LIMIT, Row::Three, 3);
}

#[test]
fn four_steps_of_one_lane(rt: HostRuntime) {
    plays(&rt, rt.alloc(), 1, 4, Row::Four, 4);
}

#[test]
fn two_lanes_hand_over(rt: HostRuntime) {
    plays(&rt, rt.alloc(), 2, 202, Row::HandingOver, 202);
}

// A broker with listed tabs

/// Returns the tab that is greeted in generation 2, if this is a greeting.
fn greeted(out: &Addressed) -> Option<u16> {
    match &out.inner {
        Downward::Hello(hello) if hello.generation == 2 => Some(out.tab),
        _ => None,
    }
}

/// Asserts that tab 1 is greeted, and then tab 2.
fn are_greetings(rt: &impl Abort, hellos: &[Addressed]) {
    same(rt, hellos.len(), 2);
    for (tab, hello) in (1u16..).zip(hellos) {
        same(rt, greeted(hello), Some(tab));
    }
}

/// Starts a broker of three lanes for listed tabs, and closes it at once.
fn greet_named<J: Generation>(
    rt: &impl Abort,
    alloc: Global,
    blank: Blank,
    list: &[(u16, u16)],
) -> Result<(), AllocError>
    requires list { TabsRiseFrom 1 list.now }
    requires name { blank.name ≡ J.name }
    requires parts { (blank.parts ≡ J.parts) × (J.parts ≡ 3) }
    requires opening { J.opening ≡ started 2 list.now }
    requires limit { J.limit ≡ 1 }
{
    let (broker, lanes, hellos) = LockedBroker::<J>::new(alloc, blank, 2, list, 1, 3)?;
    same(rt, lanes.len(), 3);
    are_of_row(rt, lanes.as_slice(), &[]);
    are_greetings(rt, hellos.as_slice());
    let history = broker.close(lanes).expect(rt, "no steps");
    assert!(rt; history.steps().is_empty());
    Ok(())
}

fn greet(rt: &impl Abort, alloc: Global) -> Result<(), AllocError> {
    greet_named::<Brand>(rt, alloc, Blank::new(3), &[(1, 1), (2, 1)])
}

#[test]
fn listed_tabs_are_greeted(rt: HostRuntime) {
    let alloc = rt.alloc();
    if greet(&rt, alloc).is_err() {
        greet(&rt, alloc).expect(&rt, BACK);
    }
}

// A lane left out

/// Two lanes make a step each, and the broker is closed with one of them.
fn leave_out_named<J: Generation, R: Wait + Abort>(
    rt: &R,
    alloc: Global,
    blank: Blank,
    row: &[Step],
) -> Result<(), AllocError>
    requires name { blank.name ≡ J.name }
    requires parts { (blank.parts ≡ J.parts) × (J.parts ≡ 2) }
    requires opening { J.opening ≡ started 1 [] }
    requires limit { J.limit ≡ 2 }
{
    let (broker, mut lanes, _hellos) = LockedBroker::<J>::new(alloc, blank, 1, &[], 2, 2)?;
    for place in 0..2usize {
        let lane = lanes.get_mut(place).expect(rt, "a lane");
        take_step(rt, alloc, &broker, lane, row, place);
    }
    drop(lanes.pop());
    same(rt, broker.close(lanes).err(), Some(CloseFault::WrongCount));
    Ok(())
}

fn leave_out<R: Wait + Abort>(rt: &R, alloc: Global, row: &[Step]) -> Result<(), AllocError> {
    leave_out_named::<Brand, R>(rt, alloc, Blank::new(2), row)
}

#[test]
fn a_lane_of_one_lock_left_out(rt: HostRuntime) {
    let alloc = rt.alloc();
    let steps = steps_in(&rt, alloc, Row::Three);
    if leave_out(&rt, alloc, steps.as_slice()).is_err() {
        leave_out(&rt, alloc, steps.as_slice()).expect(&rt, BACK);
    }
}
