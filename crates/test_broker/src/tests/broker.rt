//! Rows of the broker. A frame that is refused memory leaves the broker unchanged, comes again, and must then get its answer.

ghost use Rattle.wl_grammar.specs.Grammar.{TabsRiseFrom};

use crate::tests::desk::bytes;
use crate::tests::rows::{DEATH_HANDS_OVER, HANDOVER, RESTART_WHILE_HELD, Row, SNAPSHOT};
use crate::tests::same;
use std::alloc::{AllocError, Global};
use std::marker::Model;
use std::process::Abort;
use test_support::retry::{BACK, append};
use wl_broker::{Broker, Dropped, Frames, Outs};
use wl_frames::{
    Addressed, Command, Dead, Downward, Entry, Feed, Frame, Hello, Mode, Name, Operation, Report,
    ReportPart, Sequence, Stamped, Upward, encode,
};
use wl_table::IndexedTable;

type TestedBroker = Broker<IndexedTable>;

/// A report in one part counts as a whole report.
static ONE_PART: Row = Row {
    name: "one-part",
    input: "
        00000016 01 20 0001 0001 02 02 00000001 00000000 0000 0001 0000
        00000015 01 20 0001 0001 01 01 00000001 00000000 01 02 00 0161
    ",
    output: "00000013 01 22 0001 01 11 00000001 00000001 00000000 02",
};

/// The second part comes first and again. The first part then lets the tab join, with its entries in the order of the parts.
static TWO_PARTS: Row = Row {
    name: "two-parts",
    input: "
        0000001E 01 20 0001 0001 02 02 00000002 00000002 0001 0002 0001 00000001 02 01 0161
        0000001E 01 20 0001 0001 02 02 00000002 00000002 0001 0002 0001 00000001 02 01 0161
        0000001E 01 20 0001 0001 02 02 00000002 00000002 0000 0002 0001 00000000 02 01 0161
    ",
    output: "
        0000000A 01 22 0001 01 10 00000002
        00000013 01 22 0001 01 11 00000002 00000002 00000000 02
        00000013 01 22 0001 01 11 00000002 00000002 00000001 02
    ",
};

fn nothing(alloc: Global) -> Outs {
    Outs::new(Vec::new(alloc))
}

/// Broker of a row, and its twin: a broker that gets each frame after it. When a frame is refused memory, the twin shows the state
/// before that frame.
#[derive(Drop)]
struct Twins {
    generation: u32,
    broker: TestedBroker,
    twin: TestedBroker,
}

// Contracts see nothing of the brokers, so that proofs of their callers stay small.
impl Model for Twins {
    ghost use Rattle.std.specs.Prelude.{⊤};

    ghost Value = { ⊤ };

    ghost view = { λ _. tt };
}

fn start_once(
    alloc: Global,
    generation: u32,
    list: &[(u16, u16)],
) -> Result<(TestedBroker, Outs), AllocError>
    requires { TabsRiseFrom 1 list.now }
{
    Broker::start(alloc, generation, list)
}

fn start_one(
    rt: &impl Abort,
    alloc: Global,
    generation: u32,
    list: &[(u16, u16)],
) -> (TestedBroker, Outs)
    requires { TabsRiseFrom 1 list.now }
{
    match start_once(alloc, generation, list) {
        Ok(started) => started,
        Err(_) => start_once(alloc, generation, list).expect(rt, BACK),
    }
}

/// Starts a broker and its twin, and returns the broker's hellos.
fn start(rt: &impl Abort, alloc: Global, generation: u32, list: &[(u16, u16)]) -> (Twins, Outs)
    requires { TabsRiseFrom 1 list.now }
{
    let (broker, hellos) = start_one(rt, alloc, generation, list);
    let (twin, hellos_of_twin) = start_one(rt, alloc, generation, list);
    drop(hellos_of_twin);
    let twins = Twins {
        generation,
        broker,
        twin,
    };
    (twins, hellos)
}

/// Gives a broker a frame behind the start. A caller without the clauses of `take` is proved much sooner.
fn give(alloc: Global, broker: &mut TestedBroker, frame: &Frame) -> Result<Outs, Dropped> {
    match frame {
        Frame::Stamped(stamped) => broker.take(stamped),
        Frame::Dead(dead) => broker.dead(dead.tab).map_err(|_| Dropped::Memory),
        _ => Ok(nothing(alloc)),
    }
}

// State of a broker

/// Returns the joined ones of a broker's first four tabs, and the active ones of its first three partitions.
fn joined_and_active(broker: &TestedBroker) -> [bool; 7] {
    [
        broker.is_joined(1),
        broker.is_joined(2),
        broker.is_joined(3),
        broker.is_joined(4),
        broker.is_active(1),
        broker.is_active(2),
        broker.is_active(3),
    ]
}

/// First number of the tabs that look at partitions. No row has a tab of such a number.
const VISITORS: u16 = 60_000;

/// Returns the query of a tab that has issued no other command.
fn first_query(generation: u32) -> Upward {
    Upward::Command(Command {
        generation,
        number: 0,
        operation: Operation::Query,
    })
}

/// Returns the snapshot of a partition, or why the broker gives none: a new tab joins, queries, and dies.
fn snapshot_in(
    rt: &impl Abort,
    alloc: Global,
    broker: &mut TestedBroker,
    generation: u32,
    partition: u16,
) -> Result<Outs, Dropped> {
    let tab = VISITORS.saturating_add(partition);
    let report = Frame::Stamped(stamped(tab, partition, report(alloc, generation, 0)));
    let query = Frame::Stamped(stamped(tab, partition, first_query(generation)));
    let death = Frame::Dead(Dead { tab });
    give(alloc, broker, &report).expect(rt, BACK);
    let snapshot = give(alloc, broker, &query);
    give(alloc, broker, &death).expect(rt, BACK);
    snapshot
}

/// Asserts that a partition of the broker is that of its twin.
fn is_partition_of_twin(rt: &impl Abort, alloc: Global, twins: &mut Twins, partition: u16) {
    let generation = twins.generation;
    let found = snapshot_in(rt, alloc, &mut twins.broker, generation, partition);
    let wanted = snapshot_in(rt, alloc, &mut twins.twin, generation, partition);
    assert!(rt; found != Err(Dropped::Memory));
    assert!(rt; found == wanted, "partition {partition}");
}

/// Asserts that the broker, to which a frame was refused memory, is as its twin, which has not got that frame.
fn is_unchanged(rt: &impl Abort, alloc: Global, twins: &mut Twins) {
    assert!(rt; joined_and_active(&twins.broker) == joined_and_active(&twins.twin));
    for partition in 1..=3 {
        is_partition_of_twin(rt, alloc, twins, partition);
    }
}

/// Gives the twin a frame, again if memory is refused.
fn follow(alloc: Global, twins: &mut Twins, frame: &Frame) {
    let mut answer = give(alloc, &mut twins.twin, frame);
    if answer == Err(Dropped::Memory) {
        answer = give(alloc, &mut twins.twin, frame);
    }
    drop(answer);
}

// Answers

/// Gives the broker a frame, again if memory is refused.
fn give_again(
    rt: &impl Abort,
    alloc: Global,
    twins: &mut Twins,
    frame: &Frame,
) -> Result<Outs, Dropped> {
    let mut answer = give(alloc, &mut twins.broker, frame);
    if answer == Err(Dropped::Memory) {
        is_unchanged(rt, alloc, twins);
        answer = give(alloc, &mut twins.broker, frame);
    }
    follow(alloc, twins, frame);
    answer
}

/// Returns the answer to a frame behind the start, which is empty if the broker drops the frame.
fn answer(rt: &impl Abort, alloc: Global, twins: &mut Twins, frame: &Frame) -> Outs {
    match give_again(rt, alloc, twins, frame) {
        Ok(outs) => outs,
        Err(dropped) => {
            assert!(rt; dropped != Dropped::Memory);
            nothing(alloc)
        }
    }
}

/// Returns the bytes of one of the broker's frames.
fn encoding(rt: &impl Abort, alloc: Global, frame: &Frame) -> Vec<u8> {
    assert!(rt; frame.is_well_formed(), "a frame is not well formed");
    match encode(alloc, frame) {
        Ok(bytes) => bytes,
        Err(_) => encode(alloc, frame).expect(rt, BACK),
    }
}

/// Appends the bytes of one of the broker's frames.
fn write_one(rt: &impl Abort, alloc: Global, addressed: Addressed, written: &mut Vec<u8>) {
    let frame = Frame::Addressed(addressed);
    let bytes = encoding(rt, alloc, &frame);
    drop(frame);
    append(written, bytes.as_slice()).expect(rt, BACK);
}

/// Appends the bytes of the broker's frames.
fn write(rt: &impl Abort, alloc: Global, outs: Outs, written: &mut Vec<u8>) {
    match outs.into_frames() {
        Frames::One(addressed) => write_one(rt, alloc, addressed, written),
        Frames::Listed(listed) => {
            for addressed in listed {
                write_one(rt, alloc, addressed, written);
            }
        }
    }
}

/// Decodes bytes that hold whole frames only.
fn frames_of(alloc: Global, bytes: &[u8]) -> Result<Vec<Frame>, AllocError> {
    Feed::new(alloc).push(bytes).map_err(|_| AllocError)
}

/// Returns the frames of bytes, tried again if memory is refused.
fn frames_again(rt: &impl Abort, alloc: Global, bytes: &[u8]) -> Vec<Frame> {
    match frames_of(alloc, bytes) {
        Ok(frames) => frames,
        Err(_) => frames_of(alloc, bytes).expect(rt, BACK),
    }
}

/// Returns the frames of a row.
fn frames(rt: &impl Abort, alloc: Global, row: &Row) -> Vec<Frame> {
    let bytes = bytes(rt, alloc, &[row.input]);
    frames_again(rt, alloc, bytes.as_slice())
}

/// Gives frames to a broker of generation 1 without tabs, and compares its answers.
pub fn answers(rt: &impl Abort, alloc: Global, input: &[u8], output: &[u8], name: &str) {
    let (mut twins, _hellos) = start(rt, alloc, 1, &[]);
    let mut written = Vec::new(alloc);
    for frame in &frames_again(rt, alloc, input) {
        let outs = answer(rt, alloc, &mut twins, frame);
        write(rt, alloc, outs, &mut written);
    }
    assert!(rt; written.as_slice() == output, "of {name}");
}

/// Compares the bytes of a broker's answers with the output of a row.
fn writes(rt: &impl Abort, alloc: Global, written: &[u8], row: &Row) {
    let output = bytes(rt, alloc, &[row.output]);
    assert_eq!(rt; written, output.as_slice(), "of {}", row.name);
}

/// Plays a row on a started broker, and compares its hellos and answers. With a place, each answer is the copy at that place.
fn plays(rt: &impl Abort, alloc: Global, started: (Twins, Outs), row: &Row, place: Option<usize>) {
    let (mut twins, hellos) = started;
    let mut written = Vec::new(alloc);
    write(rt, alloc, hellos, &mut written);
    answer_all(rt, alloc, &mut twins, row, place, &mut written);
    writes(rt, alloc, written.as_slice(), row);
}

/// Appends the broker's answers to the frames of a row.
fn answer_all(
    rt: &impl Abort,
    alloc: Global,
    twins: &mut Twins,
    row: &Row,
    place: Option<usize>,
    written: &mut Vec<u8>,
) {
    for frame in &frames(rt, alloc, row) {
        let outs = match place {
            Some(place) => copy(rt, alloc, twins, frame, place),
            None => answer(rt, alloc, twins, frame),
        };
        write(rt, alloc, outs, written);
    }
}

// Copies

/// Count of copies of each answer.
const COPIES: usize = 3;

/// Returns the answer to a frame in copies, or None if the broker drops the frame.
fn told(broker: &mut TestedBroker, frame: &Frame) -> Result<Option<Vec<Outs>>, AllocError> {
    match frame {
        Frame::Stamped(stamped) => match broker.take_copies(stamped, COPIES) {
            Ok(copies) => Ok(Some(copies)),
            Err(Dropped::Memory) => Err(AllocError),
            Err(_) => Ok(None),
        },
        Frame::Dead(dead) => Ok(Some(broker.dead_copies(dead.tab, COPIES)?)),
        _ => Ok(None),
    }
}

/// Returns the copy at this place of the answer to a frame, which is empty if the broker drops the frame.
fn copy(rt: &impl Abort, alloc: Global, twins: &mut Twins, frame: &Frame, place: usize) -> Outs {
    let copies = match told(&mut twins.broker, frame) {
        Ok(copies) => copies,
        Err(_) => {
            is_unchanged(rt, alloc, twins);
            told(&mut twins.broker, frame).expect(rt, BACK)
        }
    };
    follow(alloc, twins, frame);
    match copies {
        Some(copies) => pick(rt, copies, place),
        None => nothing(alloc),
    }
}

/// Returns the copy at this place.
fn pick(rt: &impl Abort, mut copies: Vec<Outs>, place: usize) -> Outs {
    same(rt, copies.len(), COPIES);
    assert!(rt; place < copies.len(), "there are {COPIES} copies");
    copies.swap_remove(place)
}

/// Plays a row on a broker of generation 1 without tabs, by single answers and by each copy.
fn plays_row(rt: &impl Abort, alloc: Global, row: &Row) {
    plays(rt, alloc, start(rt, alloc, 1, &[]), row, None);
    for place in 0..COPIES {
        plays(rt, alloc, start(rt, alloc, 1, &[]), row, Some(place));
    }
}

#[test]
fn rows_of_commands(rt: HostRuntime) {
    plays_row(&rt, rt.alloc(), &HANDOVER);
}

#[test]
fn rows_of_snapshots(rt: HostRuntime) {
    plays_row(&rt, rt.alloc(), &SNAPSHOT);
}

#[test]
fn rows_of_deaths(rt: HostRuntime) {
    plays_row(&rt, rt.alloc(), &DEATH_HANDS_OVER);
}

#[test]
fn rows_of_reports(rt: HostRuntime) {
    let alloc = rt.alloc();
    let started = start(&rt, alloc, 2, &[(1, 1), (2, 1)]);
    plays(&rt, alloc, started, &RESTART_WHILE_HELD, None);
    let started = start(&rt, alloc, 2, &[(1, 1)]);
    plays(&rt, alloc, started, &TWO_PARTS, None);
    plays(&rt, alloc, start(&rt, alloc, 1, &[]), &ONE_PART, None);
}

// Reports in parts

fn stamped(tab: u16, partition: u16, inner: Upward) -> Stamped {
    Stamped {
        tab,
        partition,
        inner,
    }
}

/// Returns a part of two of the report of generation 2, base 2, in which this number waits.
fn part_of(alloc: Global, part: u16, number: u32) -> Result<Upward, AllocError> {
    let mut entries = Vec::new(alloc);
    entries.push(Entry {
        number,
        held: false,
        mode: Mode::Shared,
        name: Name::new(String::from_str(alloc, "a")?),
    })?;
    Ok(Upward::ReportPart(ReportPart {
        generation: 2,
        base: 2,
        part,
        parts: 2,
        entries: Sequence::new(entries),
    }))
}

/// Returns that part, stamped as tab 1 of a partition.
fn part_in(rt: &impl Abort, alloc: Global, partition: u16, part: u16, number: u32) -> Frame {
    let inner = match part_of(alloc, part, number) {
        Ok(inner) => inner,
        Err(_) => part_of(alloc, part, number).expect(rt, BACK),
    };
    Frame::Stamped(stamped(1, partition, inner))
}

/// Returns a whole report without entries.
fn report(alloc: Global, generation: u32, base: u32) -> Upward {
    Upward::Report(Report {
        generation,
        base,
        entries: Sequence::new(Vec::new(alloc)),
    })
}

/// Gives the broker a frame, and compares the cause for which it drops the frame.
fn drops(rt: &impl Abort, alloc: Global, twins: &mut Twins, frame: Frame, want: Dropped) {
    let fault = give_again(rt, alloc, twins, &frame).err();
    drop(frame);
    same(rt, fault, Some(want));
}

/// Gives the broker a frame, and asserts that its answer is empty.
fn keeps(rt: &impl Abort, alloc: Global, twins: &mut Twins, frame: Frame) {
    let answer = give_again(rt, alloc, twins, &frame);
    drop(frame);
    assert!(rt; answer.expect(rt, "it is kept").as_slice().is_empty());
}

#[test]
fn parts_that_do_not_fit(rt: HostRuntime) {
    let alloc = rt.alloc();
    let (mut twins, _hellos) = start(&rt, alloc, 2, &[(2, 1)]);
    keeps(&rt, alloc, &mut twins, part_in(&rt, alloc, 1, 1, 0));
    let second = part_in(&rt, alloc, 1, 1, 0);
    drops(&rt, alloc, &mut twins, second, Dropped::PartTwice);
    let whole = Frame::Stamped(stamped(1, 1, report(alloc, 2, 2)));
    drops(&rt, alloc, &mut twins, whole, Dropped::BadReport);
    let not_below = part_in(&rt, alloc, 1, 0, 1);
    drops(&rt, alloc, &mut twins, not_below, Dropped::BadReport);
    let elsewhere = part_in(&rt, alloc, 3, 0, 0);
    drops(&rt, alloc, &mut twins, elsewhere, Dropped::Misplaced);
    keeps(&rt, alloc, &mut twins, Frame::Dead(Dead { tab: 1 }));
    let second = part_in(&rt, alloc, 1, 1, 0);
    drops(&rt, alloc, &mut twins, second, Dropped::DeadTab);
}

// Answers to one event

fn hello(tab: u16) -> Addressed {
    Addressed {
        tab,
        inner: Downward::Hello(Hello { generation: 1 }),
    }
}

fn list_of_hello(alloc: Global, tab: u16) -> Result<Outs, AllocError> {
    Ok(Outs::new(Vec::from_array(alloc, [hello(tab)])?))
}

/// Returns an answer that is a list of one frame.
fn in_list(rt: &impl Abort, alloc: Global, tab: u16) -> Outs {
    match list_of_hello(alloc, tab) {
        Ok(outs) => outs,
        Err(_) => list_of_hello(alloc, tab).expect(rt, BACK),
    }
}

/// Asserts whether two answers are equal, in both orders.
fn compares(rt: &impl Abort, one: Outs, other: Outs, want: bool) {
    assert!(rt; (one == other) == want);
    assert!(rt; (other == one) == want);
}

#[test]
fn a_frame_alone_equals_it_in_a_list(rt: HostRuntime) {
    let alloc = rt.alloc();
    compares(&rt, Outs::one(hello(1)), in_list(&rt, alloc, 1), true);
    compares(&rt, Outs::one(hello(1)), in_list(&rt, alloc, 2), false);
    compares(&rt, Outs::one(hello(1)), nothing(alloc), false);
    compares(&rt, Outs::one(hello(1)), Outs::one(hello(1)), true);
    compares(&rt, Outs::one(hello(1)), Outs::one(hello(2)), false);
}

/// Returns whether an answer is one frame, which takes no memory of its own.
fn is_alone(outs: Outs) -> bool {
    match outs.into_frames() {
        Frames::One(_frame) => true,
        Frames::Listed(_frames) => false,
    }
}

/// Returns whether the last answer to a row's frames is one frame without memory of its own.
fn ends_alone(rt: &impl Abort, alloc: Global, row: &Row) -> bool {
    let (mut twins, _hellos) = start(rt, alloc, 1, &[]);
    let mut is_last_alone = false;
    for frame in &frames(rt, alloc, row) {
        is_last_alone = is_alone(answer(rt, alloc, &mut twins, frame));
    }
    is_last_alone
}

/// No clause states this, since contracts see the answer as a list.
#[test]
fn an_answer_alone_takes_no_memory(rt: HostRuntime) {
    assert!(&rt; ends_alone(&rt, rt.alloc(), &ONE_PART));
    assert!(&rt; !ends_alone(&rt, rt.alloc(), &HANDOVER));
}
