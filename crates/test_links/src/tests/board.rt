//! The board of tab numbers, births, deaths and generations that threads share.

ghost use Rattle.std.specs.Prelude.{◌≡◌, ◌≤◌};
ghost use Rattle.wl_board.specs.BoardCalls.{IsOf};
ghost use Rattle.wl_board.specs.BoardRule.{Has};

use crate::tests::same;
use std::alloc::Global;
use std::process::Abort;
use std::thread;
use std::thread::Threads;
use test_support::retry::BACK;
use wl_board::{Birth, Board, DrawFault, Life, Memory, Seat, SeatSpent, Ticket};

/// Returns a board and its two seats.
fn two_seats(rt: &impl Abort, alloc: Global, tabs: u16) -> (Board, Seat, Seat)
    ensures tabs { result.0.tabs ≡ tabs }
    ensures first { IsOf result.1 result.0 }
    ensures second { IsOf result.2 result.0 }
{
    let (board, mut seats) = match Board::new(alloc, tabs, 2) {
        Ok(made) => made,
        Err(Memory) => Board::new(alloc, tabs, 2).expect(rt, BACK),
    };
    let first = seats.pop().expect(rt, "two seats");
    let second = seats.pop().expect(rt, "two seats");
    (board, first, second)
}

/// Draws `count` numbers, and lists them.
fn draw_all<R: Abort>(
    rt: &R,
    alloc: Global,
    board: &Board,
    mut seat: Seat,
    count: usize,
) -> (Seat, Vec<u16>)
    requires { IsOf seat board.now }
    ensures { IsOf result.0 board.now }
{
    let mut numbers = Vec::new(alloc);
    for _ in 0..count {
        let ticket = board.draw(&mut seat).expect(rt, "a number");
        list(rt, &mut numbers, ticket.tab());
    }
    (seat, numbers)
}

/// Lists one more number.
fn list(rt: &impl Abort, numbers: &mut Vec<u16>, tab: u16) {
    if numbers.push(tab).is_err() {
        numbers.push(tab).expect(rt, BACK);
    }
}

/// Draws `count` numbers in each of two threads, and lists them.
fn draw_in_two_threads<R: Threads + Abort + Sync>(
    rt: &R,
    alloc: Global,
    board: &Board,
    first: Seat,
    second: Seat,
    count: usize,
) -> ((Seat, Vec<u16>), (Seat, Vec<u16>))
    requires first { IsOf first board.now }
    requires second { IsOf second board.now }
    ensures first { IsOf result.0.0 board.now }
    ensures second { IsOf result.1.0 board.now }
{
    thread::join(
        rt,
        move ||
            requires { IsOf first board.now }
            ensures { IsOf result.0 board.entry.now }
        { draw_all(rt, alloc, board, first, count) },
        move ||
            requires { IsOf second board.now }
            ensures { IsOf result.0 board.entry.now }
        { draw_all(rt, alloc, board, second, count) },
    )
}

/// Asserts that a seat draws no number for this cause.
fn draw_none(rt: &impl Abort, board: &Board, seat: &mut Seat, fault: DrawFault)
    requires { IsOf seat.old board.now }
    ensures { IsOf seat.new board.now }
{
    same(rt, board.draw(seat).err(), Some(fault));
}

/// Asserts that the numbers are those from 1 to 2,000, in any order.
fn are_all(rt: &impl Abort, numbers: &mut [u16]) {
    numbers.sort_unstable();
    same(rt, numbers.len(), 2_000);
    assert!(rt; numbers.iter().copied().eq(1..=2_000));
}

/// Lists these numbers behind the others.
fn list_all(rt: &impl Abort, numbers: &mut Vec<u16>, more: &[u16]) {
    for tab in more {
        list(rt, numbers, *tab);
    }
}

#[test]
fn two_threads_draw_each_number_once(rt: HostRuntime) {
    let alloc = rt.alloc();
    let (board, first, second) = two_seats(&rt, alloc, 2_000);
    let ((mut first, mut numbers), (mut second, more)) = draw_in_two_threads(
        &rt, alloc, &board, first, second, 1_000,
    );
    list_all(&rt, &mut numbers, more.as_slice());
    are_all(&rt, numbers.as_mut_slice());
    draw_none(&rt, &board, &mut first, DrawFault::TabsUsedUp);
    draw_none(&rt, &board, &mut second, DrawFault::TabsUsedUp);
    // The board refuses further draws without a step.
    draw_none(&rt, &board, &mut first, DrawFault::TabsUsedUp);
}

/// Draws a number, and compares it.
fn draw(rt: &impl Abort, board: &Board, seat: &mut Seat, tab: u16) -> Ticket
    requires { IsOf seat.old board.now }
    ensures seat { IsOf seat.new board.now }
    ensures drawn { Has result seat.new.view.drawn }
    ensures unborn { ¬ Has result seat.new.view.born }
{
    let ticket = board.draw(seat).expect(rt, "a number");
    same(rt, ticket.tab(), tab);
    ticket
}

/// Marks the birth of a number's tab, and compares the answer.
fn bear(rt: &impl Abort, board: &Board, seat: &mut Seat, ticket: Ticket, birth: Birth)
    requires seat { IsOf seat.old board.now }
    requires drawn { Has ticket seat.old.view.drawn }
    requires unborn { ¬ Has ticket seat.old.view.born }
    ensures { IsOf seat.new board.now }
{
    same(rt, board.birth(seat, ticket), birth);
}

/// Marks a tab dead.
fn bury(board: &Board, seat: &mut Seat, tab: u16)
    requires seat { IsOf seat.old board.now }
    requires tab { (1 ≤ tab) × (tab ≤ board.now.tabs) }
    ensures { IsOf seat.new board.now }
{
    board.mark_dead(seat, tab);
}

/// Looks whether a tab lives, and compares the answer.
fn look(rt: &impl Abort, board: &Board, seat: &mut Seat, tab: u16, life: Life)
    requires seat { IsOf seat.old board.now }
    requires tab { (1 ≤ tab) × (tab ≤ board.now.tabs) }
    ensures { IsOf seat.new board.now }
{
    same(rt, board.look(seat, tab), life);
}

/// Reads the generation, and compares it.
fn read_generation(rt: &impl Abort, board: &Board, seat: &mut Seat, generation: u64)
    requires { IsOf seat.old board.now }
    ensures { IsOf seat.new board.now }
{
    same(rt, board.generation(seat), generation);
}

/// Bumps the generation, and compares the answer.
fn bump(rt: &impl Abort, board: &Board, seat: &mut Seat, answer: Result<u64, SeatSpent>)
    requires { IsOf seat.old board.now }
    ensures { IsOf seat.new board.now }
{
    same(rt, board.bump(seat), answer);
}

#[test]
fn a_tab_marked_dead_is_not_born(rt: HostRuntime) {
    let alloc = rt.alloc();
    let (board, mut a, mut b) = two_seats(&rt, alloc, 3);
    let ticket = draw(&rt, &board, &mut a, 1);
    bury(&board, &mut b, 1);
    bear(&rt, &board, &mut a, ticket, Birth::WasDead);
    look(&rt, &board, &mut a, 1, Life::Dead);
}

#[test]
fn a_born_tab_lives_for_the_other_seat(rt: HostRuntime) {
    let alloc = rt.alloc();
    let (board, mut a, mut b) = two_seats(&rt, alloc, 3);
    let _first = draw(&rt, &board, &mut b, 1);
    read_generation(&rt, &board, &mut a, 1);
    let ticket = draw(&rt, &board, &mut a, 2);
    look(&rt, &board, &mut b, 2, Life::None);
    bear(&rt, &board, &mut a, ticket, Birth::Born);
    look(&rt, &board, &mut b, 2, Life::Living);
    bump(&rt, &board, &mut b, Ok(2));
    read_generation(&rt, &board, &mut b, 2);
    read_generation(&rt, &board, &mut a, 2);
    bury(&board, &mut a, 2);
    look(&rt, &board, &mut b, 2, Life::Dead);
}

#[test]
fn a_seat_that_drew_all_is_spent(rt: HostRuntime) {
    let alloc = rt.alloc();
    let (board, a, mut b) = two_seats(&rt, alloc, 65_535);
    let (mut a, numbers) = draw_all(&rt, alloc, &board, a, 65_535);
    same(&rt, numbers.len(), 65_535);
    draw_none(&rt, &board, &mut a, DrawFault::SeatSpent);
    draw_none(&rt, &board, &mut b, DrawFault::TabsUsedUp);
    draw_none(&rt, &board, &mut b, DrawFault::TabsUsedUp);
}

/// Bumps the generation as often as a seat may.
fn bump_all(rt: &impl Abort, board: &Board, seat: &mut Seat)
    requires { IsOf seat.old board.now }
    ensures { IsOf seat.new board.now }
{
    for past in 1u64..65_536 {
        bump(rt, board, seat, Ok(past + 1));
    }
}

#[test]
fn a_seat_that_made_all_bumps_is_spent(rt: HostRuntime) {
    let alloc = rt.alloc();
    let (board, mut a, mut b) = two_seats(&rt, alloc, 1);
    bump_all(&rt, &board, &mut a);
    bump(&rt, &board, &mut a, Err(SeatSpent));
    bump(&rt, &board, &mut b, Ok(65_537));
}
