//! Access to the life state of tabs.

ghost use Rattle.std.specs.Prelude.{◌≡◌, ◌+◌, ◌<◌, ◌≤◌, Err, IfOk, OnOk, OnErr};
ghost use Rattle.std.specs.Arc.{arc_value};
ghost use Rattle.wl_board.specs.BoardCalls.{IsOf, IsSameSeat, HasMetEnd, MeetsEnd, counter_seen, generation_seen, tab_seen, word_of};
ghost use Rattle.wl_board.specs.BoardRule.{Has};
ghost use Rattle.wl_board.specs.BoardSteps.{sees, marks, draws_number, bears, bumps_to};
ghost use Rattle.wl_board.specs.declared.board.TheConstants.{SEAT_STEP_LIMIT};
ghost use Rattle.wl_workers.specs.Looks.{IsOnBoard, FindsDead};

use std::marker::Model;
use std::rt::Clock;
use std::sync::{Arc, Mutex, Wait};
use std::thread::Parker;
use wl_board::{Birth, Board, DrawFault, Life, Seat, SeatSpent, Ticket};

/// Tells whether tabs live.
pub trait Lives {
    ghost use Rattle.std.specs.Prelude.{ℕ, List, [], ◌∷◌, Option, None};
    ghost use Rattle.wl_board.specs.declared.tab.Life.{Life};
    ghost use Rattle.wl_workers.specs.CallRecords.{RecordGrows};

    /// The looks made so far, each with its tab and result. `None` if the implementation keeps no
    /// record.
    ghost answered: { Self → Option (List (ℕ × Life)) } = { λ _. None };

    /// Blocks until a look may find something new, for instance until a bell rings. The default returns
    /// at once.
    fn wait<R: Wait + Clock>(&self, _rt: &R) {}

    /// Returns the life state of a tab.
    fn look<R: Wait + Clock>(&mut self, rt: &R, tab: u16) -> Life
        ensures { RecordGrows (answered self.old) (answered self.new) ((tab, result) ∷ []) };
}

/// A board and one of its seats. Its looks do not block.
#[derive(Drop)]
pub struct BoardSeat {
    board: Arc<Board>,
    seat: Seat,
}

impl Model for BoardSeat {
    ghost use Rattle.std.specs.Arc.{arc_value};
    ghost use Rattle.wl_board.specs.BoardCalls.{IsOf};
    ghost use Rattle.wl_workers.specs.Looks.{Watching};

    ghost Value = { Watching };

    ghost view = { λ s. record { board = arc_value s.board; seat = s.seat } };

    ghost invariant = { λ s. IsOf s.seat (arc_value s.board) };
}

impl BoardSeat {
    /// Combines a board and one of its seats.
    pub fn new(board: Arc<Board>, seat: Seat) -> BoardSeat
        requires { IsOf seat (arc_value board) }
        ensures { result ≡ record { board = arc_value board; seat = seat } }
    {
        BoardSeat { board, seat }
    }

    /// Draws the next tab number. After a draw fails with `TabsUsedUp`, every later draw fails so
    /// too, and takes no step.
    pub fn draw(&mut self) -> Result<Ticket, DrawFault>
        ensures same { (self.new.board ≡ self.old.board) × IsSameSeat self.old.seat self.new.seat }
        ensures range { IfOk result (λ t. IsOnBoard t self.old.board) }
        ensures rising { IfOk result (λ t. counter_seen self.old.seat.view ≤ t) }
        ensures unknown { IfOk result (λ t. ¬ Has t self.old.seat.view.drawn) }
        ensures drawn { IfOk result (λ t. self.new.seat.view ≡ draws_number self.old.seat.view t) }
        ensures ticket { IfOk result (λ t.
            Has t self.new.seat.view.drawn × (¬ Has t self.new.seat.view.born)) }
        ensures allowed { OnOk result ((¬ HasMetEnd self.old.board.tabs self.old.seat.view)
            × (self.old.seat.view.draws < SEAT_STEP_LIMIT)) }
        ensures used_up { result ≡ Err DrawFault.TabsUsedUp
            → MeetsEnd self.old.board.tabs self.old.seat.view self.new.seat.view }
        ensures spent { result ≡ Err DrawFault.SeatSpent
            → (¬ HasMetEnd self.old.board.tabs self.old.seat.view)
            × (self.old.seat.view.draws ≡ SEAT_STEP_LIMIT) × (self.new ≡ self.old) }
    {
        self.board.draw(&mut self.seat)
    }

    /// Brings the tab of a ticket to life. Returns `WasDead` if the tab was marked dead before.
    pub fn birth(&mut self, ticket: Ticket) -> Birth
        requires drawn { Has ticket self.old.seat.view.drawn }
        requires unborn { ¬ Has ticket self.old.seat.view.born }
        ensures same { (self.new.board ≡ self.old.board) × IsSameSeat self.old.seat self.new.seat }
        ensures born { result ≡ Birth.Born → self.new.seat.view ≡ bears self.old.seat.view ticket }
        ensures dead { result ≡ Birth.WasDead → self.new.seat.view ≡ sees self.old.seat.view (ticket + 1) 2 }
    {
        self.board.birth(&mut self.seat, ticket)
    }

    /// Marks a tab dead, whether it ever lived or not. Ignores a number that is not on the board.
    pub fn mark_dead(&mut self, tab: u16)
        ensures same { (self.new.board ≡ self.old.board) × IsSameSeat self.old.seat self.new.seat }
        ensures marked { IsOnBoard tab self.old.board → self.new.seat.view ≡ marks self.old.seat.view tab }
        ensures unknown { (¬ IsOnBoard tab self.old.board) → self.new ≡ self.old }
    {
        if tab == 0 || tab > self.board.tabs() {
            return;
        }
        self.board.mark_dead(&mut self.seat, tab);
    }

    /// Starts the next generation and returns its number. Fails if the seat has used up its steps.
    pub fn bump(&mut self) -> Result<u64, SeatSpent>
        ensures same { (self.new.board ≡ self.old.board) × IsSameSeat self.old.seat self.new.seat }
        ensures later { IfOk result (λ g. generation_seen self.old.seat.view < g) }
        ensures bumped { IfOk result (λ g. self.new.seat.view ≡ bumps_to self.old.seat.view g) }
        ensures allowed { OnOk result (self.old.seat.view.bumps < SEAT_STEP_LIMIT) }
        ensures spent { OnErr result
            ((self.old.seat.view.bumps ≡ SEAT_STEP_LIMIT) × (self.new ≡ self.old)) }
    {
        self.board.bump(&mut self.seat)
    }
}

impl Lives for BoardSeat {
    /// Returns `Life::None` for a number that is not on the board.
    fn look<R: Wait + Clock>(&mut self, _rt: &R, tab: u16) -> Life
        ensures same { (self.new.board ≡ self.old.board) × IsSameSeat self.old.seat self.new.seat }
        ensures seen { IsOnBoard tab self.old.board
            → self.new.seat.view ≡ sees self.old.seat.view (tab + 1) (word_of result) }
        ensures not_back { IsOnBoard tab self.old.board → tab_seen tab self.old.seat.view ≤ word_of result }
        ensures unknown { (¬ IsOnBoard tab self.old.board) → (result ≡ Life.None) × (self.new ≡ self.old) }
    {
        if tab == 0 || tab > self.board.tabs() {
            return Life::None;
        }
        self.board.look(&mut self.seat, tab)
    }
}

/// A board seat behind a mutex. Its looks wait only for the mutex.
#[derive(Drop)]
pub struct SharedSeat {
    seat: Arc<Mutex<BoardSeat>>,
}

impl SharedSeat {
    /// Creates a handle of a seat behind a mutex.
    pub fn new(seat: Arc<Mutex<BoardSeat>>) -> SharedSeat {
        SharedSeat { seat }
    }
}

impl Lives for SharedSeat {
    fn look<R: Wait + Clock>(&mut self, rt: &R, tab: u16) -> Life {
        self.seat.lock(rt).look(rt, tab)
    }
}

/// Lives that wait for a bell. The bell must be rung after a parcel is put and after a tab is marked
/// dead. A ring since the last wait is not lost.
#[derive(Drop)]
pub struct AfterBell<L> {
    bell: Arc<Parker>,
    lives: L,
}

impl<L> AfterBell<L> {
    /// Lets `lives` wait for a bell.
    pub fn new(bell: Arc<Parker>, lives: L) -> AfterBell<L>
        ensures { result.lives ≡ lives }
    {
        AfterBell { bell, lives }
    }
}

impl<L: Lives> Lives for AfterBell<L> {
    ghost answered = { λ r. L.answered r.lives };

    /// Sleeps until the bell rings, and then waits as `lives` does.
    fn wait<R: Wait + Clock>(&self, rt: &R) {
        self.bell.park(rt);
        self.lives.wait(rt);
    }

    fn look<R: Wait + Clock>(&mut self, rt: &R, tab: u16) -> Life {
        self.lives.look(rt, tab)
    }
}

/// Looks once and returns true if the tab is dead.
pub(crate) fn finds_dead<R: Wait + Clock, L: Lives>(rt: &R, tab: u16, lives: &mut L) -> bool
    ensures { FindsDead tab result (L.answered lives.old) (L.answered lives.new) }
{
    match lives.look(rt, tab) {
        Life::Dead => true,
        Life::None | Life::Living => false,
    }
}
