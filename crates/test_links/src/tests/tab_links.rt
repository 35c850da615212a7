//! The kernel's reader and writer of a tab's link. If memory is refused, a frame is lost or the link ends, and the test tries
//! again.

ghost use Rattle.std.specs.Arc.{arc_value};
ghost use Rattle.std.specs.Prelude.{◌≡◌, ◌≤◌, true, false, IfOk};
ghost use Rattle.wl_board.specs.BoardCalls.{IsOf as IsSeatOf};
ghost use Rattle.wl_outbox.specs.Passes.{IsOf, takes};

use crate::tests::same;
use std::alloc::{AllocError, Global};
use std::io::{Read, Write};
use std::process::Abort;
use std::rt::Clock;
use std::sync::{Arc, Mutex, Wait};
use std::thread;
use std::thread::{Parker, Threads};
use std::time::Duration;
use test_support::devices::{SlowReader, SlowWriter};
use wl_board::{Board, Life, Seat};
use wl_frames::device::{Sink, Source};
use wl_frames::{Frame, FrameFault, Hello};
use wl_kernel::RouteFault;
use wl_outbox::{Outbox, Parcel, Pass};
use wl_workers::liveness::{AfterBell, BoardSeat, Lives, SharedSeat};
use wl_workers::tab_reader::{ReadEnd, tab_reader};
use wl_workers::tab_writer::{WriteEnd, tab_writer};
use wl_workers::uplink::Uplink;

/// Hellos of the generations 1, 2 and 3.
static HELLOS: [u8; 30] = [
    0, 0, 0, 6, 1, 16, 0, 0, 0, 1, 0, 0, 0, 6, 1, 16, 0, 0, 0, 2, 0, 0, 0, 6, 1, 16, 0, 0, 0, 3,
];

fn hellos() -> &'static [u8] {
    HELLOS.as_slice()
}

/// Returns a board of three tabs on which tab 2 is dead.
fn dead_tab(alloc: Global) -> Result<BoardSeat, AllocError> {
    let Ok((board, mut seats)) = Board::new(alloc, 3, 1) else {
        return Err(AllocError);
    };
    let Some(mut seat) = seats.pop() else {
        return Err(AllocError);
    };
    board.mark_dead(&mut seat, 2);
    let board = Arc::new(alloc, board)?;
    Ok(BoardSeat::new(board, seat))
}

/// Returns the outbox of tab 2 in partition 1, its taking pass, and a putting pass.
fn outbox_of_one(alloc: Global) -> Result<(Outbox, Pass, Pass), AllocError>
    ensures tab { IfOk result (λ r. (r.0.partition ≡ 1) × (r.0.tab ≡ 2)) }
    ensures taker { IfOk result (λ r. IsOf r.1 r.0 × (takes r.1 ≡ true)) }
    ensures putter { IfOk result (λ r. IsOf r.2 r.0 × (takes r.2 ≡ false)) }
{
    let Ok((outbox, taker, mut putters)) = Outbox::new(alloc, 1, 2, 1) else {
        return Err(AllocError);
    };
    let Some(putter) = putters.pop() else {
        return Err(AllocError);
    };
    Ok((outbox, taker, putter))
}

/// Puts a hello for tab 2 in partition 1.
fn put_hello<R: Wait + Abort>(rt: &R, outbox: &Outbox, pass: &mut Pass, generation: u32)
    requires pass { IsOf pass.old outbox.now × (takes pass.old ≡ false) }
    requires tab { (outbox.now.partition ≡ 1) × (outbox.now.tab ≡ 2) }
    ensures { IsOf pass.new outbox.now × (takes pass.new ≡ false) }
{
    let hello = Frame::Hello(Hello { generation });
    let parcel = Parcel::new(1, 1, 2, hello).expect(rt, "of one partition");
    let put = outbox.put(rt, pass, parcel);
    assert!(rt; put.is_ok());
    drop(put);
}

/// Puts three parcels for a dead tab, and writes them.
fn write_three<R: Wait + Clock + Abort, W: Write>(
    rt: &R,
    alloc: Global,
    sink: &mut Sink<W>,
) -> Result<WriteEnd, AllocError>
    requires { sink.old.has_failed ≡ false }
{
    let mut lives = dead_tab(alloc)?;
    let (outbox, mut taker, mut putter) = outbox_of_one(alloc)?;
    put_hello(rt, &outbox, &mut putter, 1);
    put_hello(rt, &outbox, &mut putter, 2);
    put_hello(rt, &outbox, &mut putter, 3);
    Ok(tab_writer(rt, alloc, 2, &outbox, &mut taker, &mut lives, sink))
}

/// Returns whether the three hellos are written before the link ends.
fn writes_three<R: Wait + Clock + Abort>(rt: &R, alloc: Global) -> bool {
    let mut bytes = Vec::new(alloc);
    let mut sink = Sink::new(&mut bytes);
    let end = write_three(rt, alloc, &mut sink);
    end == Ok(WriteEnd::Dead) && bytes.as_slice() == hellos()
}

#[test]
fn parcels_of_a_dead_tab_are_written(rt: HostRuntime) {
    let alloc = rt.alloc();
    assert!(&rt; writes_three(&rt, alloc) || writes_three(&rt, alloc));
}

/// Returns whether a writer that fails after `bytes` bytes takes just these, and ends the link.
fn writes_front<R: Wait + Clock + Abort>(rt: &R, alloc: Global, bytes: usize) -> bool {
    let mut writer = SlowWriter::new(bytes);
    let mut sink = Sink::new(&mut writer);
    let end = write_three(rt, alloc, &mut sink);
    end == Ok(WriteEnd::Write)
        && hellos().starts_with(writer.taken())
        && writer.taken().len() == bytes
}

#[test]
fn a_failing_writer_ends_the_link(rt: HostRuntime) {
    let alloc = rt.alloc();
    for bytes in 0..hellos().len() {
        assert!(&rt;
            writes_front(&rt, alloc, bytes) || writes_front(&rt, alloc, bytes),
            "after {bytes} bytes"
        );
    }
}

/// Tab that is found dead, and gets one more parcel at that moment.
#[derive(Drop)]
struct LastWord<'a> {
    outbox: &'a Outbox,
    pass: Pass,
    ghost of_outbox: { IsOf pass outbox.now },
    ghost puts: { takes pass ≡ false },
    ghost tab: { (outbox.now.partition ≡ 1) × (outbox.now.tab ≡ 2) },
}

impl Lives for LastWord<'_> {
    fn look<R: Wait + Clock>(&mut self, rt: &R, _tab: u16) -> Life {
        if let Ok(parcel) = Parcel::new(1, 1, 2, Frame::Hello(Hello { generation: 3 })) {
            drop(self.outbox.put(rt, &mut self.pass, parcel));
        }
        Life::Dead
    }
}

/// Writes the parcels of a tab until it is found dead, and returns the bytes.
fn write_until_dead<R: Wait + Clock, L: Lives>(
    rt: &R,
    alloc: Global,
    outbox: &Outbox,
    taker: &mut Pass,
    lives: &mut L,
) -> Result<Vec<u8>, AllocError>
    requires { IsOf taker.old outbox.now × (takes taker.old ≡ true) }
{
    let mut bytes = Vec::new(alloc);
    let mut sink = Sink::new(&mut bytes);
    match tab_writer(rt, alloc, 2, outbox, taker, lives, &mut sink) {
        WriteEnd::Dead => Ok(bytes),
        WriteEnd::Write => Err(AllocError),
    }
}

/// Writes the parcels of a tab. The last parcel comes as the tab dies.
fn last_words<R: Wait + Clock + Abort>(rt: &R, alloc: Global) -> Result<Vec<u8>, AllocError> {
    let (outbox, mut taker, mut putter) = outbox_of_one(alloc)?;
    put_hello(rt, &outbox, &mut putter, 1);
    put_hello(rt, &outbox, &mut putter, 2);
    let mut lives = LastWord {
        outbox: &outbox,
        pass: putter,
    };
    write_until_dead(rt, alloc, &outbox, &mut taker, &mut lives)
}

/// Returns whether these are the three hellos.
fn is_whole(written: Result<Vec<u8>, AllocError>) -> bool {
    match written {
        Ok(bytes) => bytes.as_slice() == hellos(),
        Err(_) => false,
    }
}

#[test]
fn parcels_put_before_a_death_are_written(rt: HostRuntime) {
    let alloc = rt.alloc();
    assert!(&rt; is_whole(last_words(&rt, alloc)) || is_whole(last_words(&rt, alloc)));
}

/// Count of the rings of `ring_for_all`.
const RINGS: u32 = 4;

/// Milliseconds between the look that a ring wakes and the next ring: enough for many looks of a writer that does not sleep.
const PAUSE: u64 = 5;

/// Limit of the milliseconds before that look. It does not come if the writer is refused memory.
const TURNS: u32 = 2_000;

/// Looks at a tab's life, which are counted.
#[derive(Drop)]
struct Counted<'a> {
    looks: &'a Mutex<u32>,
    seat: SharedSeat,
}

impl Lives for Counted<'_> {
    fn look<R: Wait + Clock>(&mut self, rt: &R, tab: u16) -> Life {
        let mut looks = self.looks.lock(rt);
        *looks = looks.wrapping_add(1);
        drop(looks);
        self.seat.look(rt, tab)
    }
}

/// Rings the bell, waits until the writer has looked `times` times, and pauses.
fn ring<R: Wait + Clock>(rt: &R, bell: &Parker, looks: &Mutex<u32>, times: u32) {
    bell.unpark();
    for _turn in 0..TURNS {
        if *looks.lock(rt) >= times {
            break;
        }
        thread::sleep(rt, Duration::from_millis(1));
    }
    thread::sleep(rt, Duration::from_millis(PAUSE));
}

/// Puts three hellos and marks the tab dead, and rings the bell after each.
fn ring_for_all<R: Wait + Clock + Abort>(
    rt: &R,
    outbox: &Outbox,
    mut pass: Pass,
    bell: &Parker,
    looks: &Mutex<u32>,
    board: &Board,
    mut seat: Seat,
)
    requires pass { IsOf pass outbox.now × (takes pass ≡ false) }
    requires tab { (outbox.now.partition ≡ 1) × (outbox.now.tab ≡ 2) }
    requires seat { IsSeatOf seat board.now × (2 ≤ board.now.tabs) }
{
    for generation in 1..RINGS {
        put_hello(rt, outbox, &mut pass, generation);
        ring(rt, bell, looks, generation);
    }
    board.mark_dead(&mut seat, 2);
    bell.unpark();
}

/// Writes the parcels of a tab, and sleeps until the bell rings when there is none.
fn write_rung<R: Wait + Clock>(
    rt: &R,
    alloc: Global,
    outbox: &Outbox,
    mut taker: Pass,
    mut lives: AfterBell<Counted<'_>>,
) -> Result<Vec<u8>, AllocError>
    requires { IsOf taker outbox.now × (takes taker ≡ true) }
{
    write_until_dead(rt, alloc, outbox, &mut taker, &mut lives)
}

/// Returns a board of three tabs, and its two seats.
fn board_of_two(alloc: Global) -> Result<(Board, Seat, Seat), AllocError>
    ensures tabs { IfOk result (λ r. r.0.tabs ≡ 3) }
    ensures first { IfOk result (λ r. IsSeatOf r.1 r.0) }
    ensures second { IfOk result (λ r. IsSeatOf r.2 r.0) }
{
    let Ok((board, mut seats)) = Board::new(alloc, 3, 2) else {
        return Err(AllocError);
    };
    let Some(first) = seats.pop() else {
        return Err(AllocError);
    };
    let Some(second) = seats.pop() else {
        return Err(AllocError);
    };
    Ok((board, first, second))
}

/// Writes in one thread while another rings its bell, and returns the bytes.
fn write_and_ring<R: Wait + Clock + Abort + Threads + Sync>(
    rt: &R,
    alloc: Global,
    outbox: &Outbox,
    taker: Pass,
    putter: Pass,
    lives: AfterBell<Counted<'_>>,
    bell: &Parker,
    looks: &Mutex<u32>,
    board: &Board,
    seat: Seat,
) -> Result<Vec<u8>, AllocError>
    requires taker { IsOf taker outbox.now × (takes taker ≡ true) }
    requires putter { IsOf putter outbox.now × (takes putter ≡ false) }
    requires tab { (outbox.now.partition ≡ 1) × (outbox.now.tab ≡ 2) }
    requires seat { IsSeatOf seat board.now × (2 ≤ board.now.tabs) }
{
    let (written, ()) = thread::join(
        rt,
        move ||
            requires { IsOf taker outbox.now × (takes taker ≡ true) }
        { write_rung(rt, alloc, outbox, taker, lives) },
        move ||
            requires putter { IsOf putter outbox.now × (takes putter ≡ false) }
            requires tab { (outbox.now.partition ≡ 1) × (outbox.now.tab ≡ 2) }
            requires seat { IsSeatOf seat board.now × (2 ≤ board.now.tabs) }
        { ring_for_all(rt, outbox, putter, bell, looks, board, seat) },
    );
    written
}

/// Returns a bell, and counted looks at a board that sleep until it rings.
fn bell_and_lives<'a>(
    alloc: Global,
    board: &Arc<Board>,
    seat: Seat,
    looks: &'a Mutex<u32>,
) -> Result<(Arc<Parker>, AfterBell<Counted<'a>>), AllocError>
    requires { IsSeatOf seat (arc_value board.now) }
{
    let seat = BoardSeat::new(Arc::try_clone(board)?, seat);
    let seat = SharedSeat::new(Arc::new(alloc, Mutex::new(seat))?);
    let bell = Arc::new(alloc, Parker::new())?;
    Ok((
        Arc::try_clone(&bell)?,
        AfterBell::new(bell, Counted { looks, seat }),
    ))
}

/// Returns the bytes of a writer whose bell rings. The writer looks at most once for each ring.
fn rung<R: Wait + Clock + Abort + Threads + Sync>(
    rt: &R,
    alloc: Global,
) -> Result<Vec<u8>, AllocError> {
    let (board, watching, marking) = board_of_two(alloc)?;
    let board = Arc::new(alloc, board)?;
    let looks = Mutex::new(0);
    let (bell, lives) = bell_and_lives(alloc, &board, watching, &looks)?;
    let (outbox, taker, putter) = outbox_of_one(alloc)?;
    let written = write_and_ring(
        rt, alloc, &outbox, taker, putter, lives, &bell, &looks, &board, marking,
    );
    let looks = looks.into_inner();
    assert!(rt; looks <= RINGS, "{looks} looks for {RINGS} rings");
    written
}

#[test]
fn a_writer_sleeps_until_its_bell_rings(rt: HostRuntime) {
    let alloc = rt.alloc();
    assert!(&rt; is_whole(rung(&rt, alloc)) || is_whole(rung(&rt, alloc)));
}

/// Tab that is found living a number of times, and then dead.
#[derive(Drop)]
struct Dying {
    looks_left: u32,
}

impl Lives for Dying {
    fn look<R: Wait + Clock>(&mut self, _rt: &R, _tab: u16) -> Life {
        if self.looks_left == 0 {
            return Life::Dead;
        }
        self.looks_left -= 1;
        Life::Living
    }
}

/// Uplink that counts hellos, and refuses each.
#[derive(Drop)]
struct Counter {
    hellos: u32,
}

impl Uplink for Counter {
    fn up<R: Wait + Clock>(&mut self, _rt: &R, _tab: u16, frame: Frame) -> Result<(), RouteFault> {
        if let Frame::Hello(_) = &frame {
            self.hellos = self.hellos.wrapping_add(1);
        }
        drop(frame);
        Err(RouteFault::WrongKind)
    }
}

/// Reads the link of a tab that is found living `looks` times, and returns the end and the count of hellos.
fn read<R: Wait + Clock, S: Read + Drop>(
    rt: &R,
    alloc: Global,
    reader: S,
    looks: u32,
) -> (ReadEnd, u32) {
    let mut source = Source::new(reader);
    let mut lives = Dying { looks_left: looks };
    let mut uplink = Counter { hellos: 0 };
    let end = tab_reader(rt, alloc, 2, &mut source, &mut lives, &mut uplink);
    (end, uplink.hellos)
}

/// Reads such a link, again if memory is refused.
fn reads<R: Wait + Clock, S: Read + Copy + Drop>(
    rt: &R,
    alloc: Global,
    reader: S,
    looks: u32,
) -> (ReadEnd, u32) {
    match read(rt, alloc, reader, looks) {
        (ReadEnd::Frame(FrameFault::Memory), _) => read(rt, alloc, reader, looks),
        done => done,
    }
}

/// Reads the first bytes of the hellos, and compares the end and the count.
fn reads_first<R: Wait + Clock + Abort>(
    rt: &R,
    alloc: Global,
    bytes: usize,
    looks: u32,
    want: (ReadEnd, u32),
) {
    let all = hellos();
    assert!(rt; bytes <= all.len());
    same(rt, reads(rt, alloc, &all[..bytes], looks), want);
}

#[test]
fn frames_of_a_living_tab_are_handed_up(rt: HostRuntime) {
    let alloc = rt.alloc();
    reads_first(&rt, alloc, 30, 9, (ReadEnd::End, 3));
    reads_first(&rt, alloc, 30, 1, (ReadEnd::Dead, 1));
    let cut = ReadEnd::Frame(FrameFault::Truncated);
    reads_first(&rt, alloc, 25, 9, (cut, 2));
}

/// Reads the hellos from a reader that fails after `bytes` reads, and compares the end and the count.
fn fails_after<R: Wait + Clock + Abort>(rt: &R, alloc: Global, bytes: u32, want: (ReadEnd, u32)) {
    let reader = SlowReader::new(hellos(), bytes as usize);
    let found = reads(rt, alloc, reader, 9);
    same(rt, (bytes, found), (bytes, want));
}

#[test]
fn a_failing_reader_ends_the_link(rt: HostRuntime) {
    let alloc = rt.alloc();
    for bytes in 0..31u32 {
        fails_after(&rt, alloc, bytes, (ReadEnd::Read, bytes / 10));
    }
    fails_after(&rt, alloc, 31, (ReadEnd::End, 3));
}
