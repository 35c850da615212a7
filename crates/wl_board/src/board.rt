//! The board: an array of atomic words that threads share.

ghost use Rattle.std.specs.Prelude.{◌≡◌, ◌+◌, ◌<◌, ◌≤◌, Err, IfOk, OnOk, OnErr, All, vec_len};
ghost use Rattle.wl_board.specs.declared.board.TheConstants.{SEAT_LIMIT, SEAT_STEP_LIMIT};
ghost use Rattle.wl_board.specs.BoardRule.{Has, first_seat};
ghost use Rattle.wl_board.specs.BoardSteps.{sees, marks, draws_number, bears, bumps_to};
ghost use Rattle.wl_board.specs.BoardCalls.{IsOf, IsSameSeat, IsNew, HasMetEnd, MeetsEnd, counter_seen, generation_seen, tab_seen, word_of};

use crate::fault::{DrawFault, Memory, SeatSpent};
use crate::rule::{Bear, BoardRule, Bump, Deal, Draw, Look, MarkDead, ReadGeneration, View};
use crate::seat::{Place, Seat};
use crate::tab::{Birth, Life, Ticket};
use atomic_table::Table;
use std::alloc::Global;
use std::marker::Model;

/// Index of the generation's word.
const GENERATION: usize = 0;

/// Index of the word that holds the next tab number.
const COUNTER: usize = 1;

/// The number of words before the tabs' words.
const FIRST_WORDS: usize = 2;

/// State of a tab that has not lived.
const NONE: u64 = 0;

/// State of a living tab.
const LIVING: u64 = 1;

/// State of a dead tab.
const DEAD: u64 = 2;

/// The largest number of seats of a board.
pub const SEAT_LIMIT: u16 = 16;

/// The largest number of draws by one seat, and of bumps by one seat.
pub const SEAT_STEP_LIMIT: u16 = 65_535;

/// A counter of tab numbers, a life state for each tab, and the broker's generation.
///
/// Calls on a shared board neither allocate nor lock: each is one atomic operation.
#[derive(Drop)]
pub struct Board {
    table: Table<(), View, u16, BoardRule, Global>,
    tabs: u16,
}

impl Model for Board {
    ghost use Rattle.std.specs.Prelude.{◌≡◌, ◌+◌};
    ghost use Rattle.wl_board.specs.Seats.{SharedBoard};

    ghost Value = { SharedBoard };

    ghost view = { λ b. record { table = b.table.shared.table_id; tabs = b.tabs } };

    ghost invariant = { λ b. (b.table.shared.table_id.words ≡ b.tabs + 2) × (b.table.shared.key ≡ b.tabs) };
}

impl Board {
    /// Creates a board for the tab numbers 1 to `tabs`, with all its seats. No number is drawn, and
    /// the generation is 1. Fails if out of memory.
    pub fn new(alloc: Global, tabs: u16, seats: u16) -> Result<(Board, Vec<Seat>), Memory>
        requires { (1 ≤ seats) × (seats ≤ SEAT_LIMIT) }
        ensures tabs { IfOk result (λ r. r.0.tabs ≡ tabs) }
        ensures count { IfOk result (λ r. vec_len r.1 ≡ seats) }
        ensures seats { IfOk result (λ r. All (λ s. IsOf s r.0 × IsNew tabs s) r.1.items) }
    {
        let mut words = Vec::from_elem(alloc, NONE, usize::from(tabs) + FIRST_WORDS)?;
        words[GENERATION] = 1;
        words[COUNTER] = 1;
        let (table, first) = Table::of_words(alloc, words.as_slice(), &tabs)?;
        let board = Board { table, tabs };
        let list = board.deal(alloc, first, seats)?;
        Ok((board, list))
    }

    /// Splits the first place into `seats` seats.
    fn deal(&self, alloc: Global, mut first: Place, seats: u16) -> Result<Vec<Seat>, Memory>
        requires count { (1 ≤ seats) × (seats ≤ SEAT_LIMIT) }
        requires first { (first.table_id ≡ self.now.table) × (first.me.0 ≡ first_seat self.now.tabs) }
        ensures count { IfOk result (λ v. vec_len v ≡ seats) }
        ensures seats { IfOk result (λ v. All (λ s. IsOf s self.now × IsNew self.now.tabs s) v.items) }
    {
        let mut list = Vec::with_capacity(alloc, usize::from(seats))?;
        for _made in 1..seats {
            let place = self.table.shared.split_seat::<Deal>(&mut first);
            list.push_reserved(Seat::new(place));
        }
        list.push_reserved(Seat::new(first));
        Ok(list)
    }

    /// Returns the largest tab number.
    pub fn tabs(&self) -> u16
        ensures { result ≡ self.now.tabs }
    {
        self.tabs
    }

    /// Draws the next tab number.
    ///
    /// Fails with `TabsUsedUp` if all numbers are drawn, and with `SeatSpent` after
    /// `SEAT_STEP_LIMIT` draws of this seat. After `TabsUsedUp` every later draw of the seat fails
    /// so too, without a step.
    pub fn draw(&self, seat: &mut Seat) -> Result<Ticket, DrawFault>
        requires { IsOf seat.old self.now }
        ensures seat { IsSameSeat seat.old seat.new }

        // The number is on the board and not below any number the seat has seen drawn.
        ensures range { IfOk result (λ t. (1 ≤ t) × (t ≤ self.now.tabs)) }
        ensures rising { IfOk result (λ t. counter_seen seat.old.view ≤ t) }
        ensures unknown { IfOk result (λ t. ¬ Has t seat.old.view.drawn) }
        ensures drawn { IfOk result (λ t. seat.new.view ≡ draws_number seat.old.view t) }
        ensures ticket { IfOk result (λ t. Has t seat.new.view.drawn × (¬ Has t seat.new.view.born)) }
        ensures allowed { OnOk result ((¬ HasMetEnd self.now.tabs seat.old.view)
            × (seat.old.view.draws < SEAT_STEP_LIMIT)) }

        // A draw fails only for the reason it reports.
        ensures used_up { result ≡ Err DrawFault.TabsUsedUp
            → MeetsEnd self.now.tabs seat.old.view seat.new.view }
        ensures spent { result ≡ Err DrawFault.SeatSpent
            → (¬ HasMetEnd self.now.tabs seat.old.view)
            × (seat.old.view.draws ≡ SEAT_STEP_LIMIT) × (seat.new ≡ seat.old) }
    {
        let tabs = self.tabs;
        if seat.met_end {
            return Err(DrawFault::TabsUsedUp);
        }
        if seat.draws == SEAT_STEP_LIMIT {
            return Err(DrawFault::SeatSpent);
        }
        let found = self
            .table
            .shared
            .fetch_add::<Draw>(&mut seat.place, COUNTER, 1);
        seat.draws += 1;
        if found > u64::from(tabs) {
            seat.met_end = true;
            return Err(DrawFault::TabsUsedUp);
        }
        Ok(Ticket::new(found as u16))
    }

    /// Brings the tab of a ticket to life. Returns `WasDead` if the tab was marked dead before.
    pub fn birth(&self, seat: &mut Seat, ticket: Ticket) -> Birth
        requires seat { IsOf seat.old self.now }
        requires drawn { Has ticket seat.old.view.drawn }
        requires unborn { ¬ Has ticket seat.old.view.born }
        ensures seat { IsSameSeat seat.old seat.new }
        ensures born { result ≡ Birth.Born
            → (tab_seen ticket seat.old.view ≡ 0) × (seat.new.view ≡ bears seat.old.view ticket) }
        ensures dead { result ≡ Birth.WasDead → seat.new.view ≡ sees seat.old.view (ticket + 1) 2 }
    {
        let word = word_index(ticket.tab());
        let shared = &self.table.shared;
        match shared.compare_exchange::<Bear>(&mut seat.place, word, NONE, LIVING) {
            NONE => Birth::Born,
            _ => Birth::WasDead,
        }
    }

    /// Marks a tab dead, whether it ever lived or not. A dead tab stays dead.
    pub fn mark_dead(&self, seat: &mut Seat, tab: u16)
        requires seat { IsOf seat.old self.now }
        requires tab { (1 ≤ tab) × (tab ≤ self.now.tabs) }
        ensures seat { IsSameSeat seat.old seat.new }
        ensures marked { seat.new.view ≡ marks seat.old.view tab }
    {
        let word = word_index(tab);
        self.table
            .shared
            .fetch_max::<MarkDead>(&mut seat.place, word, DEAD);
    }

    /// Returns the life state of a tab.
    pub fn look(&self, seat: &mut Seat, tab: u16) -> Life
        requires seat { IsOf seat.old self.now }
        requires tab { (1 ≤ tab) × (tab ≤ self.now.tabs) }
        ensures seat { IsSameSeat seat.old seat.new }
        ensures not_back { tab_seen tab seat.old.view ≤ word_of result }
        ensures seen { seat.new.view ≡ sees seat.old.view (tab + 1) (word_of result) }
    {
        let word = word_index(tab);
        match self.table.shared.load::<Look>(&mut seat.place, word) {
            NONE => Life::None,
            LIVING => Life::Living,
            _ => Life::Dead,
        }
    }

    /// Starts the next generation and returns its number. Fails after `SEAT_STEP_LIMIT` bumps of
    /// this seat.
    pub fn bump(&self, seat: &mut Seat) -> Result<u64, SeatSpent>
        requires { IsOf seat.old self.now }
        ensures seat { IsSameSeat seat.old seat.new }
        ensures later { IfOk result (λ g. generation_seen seat.old.view < g) }
        ensures counted { IfOk result (λ g. seat.old.view.bumps + 1 < g) }
        ensures bumped { IfOk result (λ g. seat.new.view ≡ bumps_to seat.old.view g) }
        ensures allowed { OnOk result (seat.old.view.bumps < SEAT_STEP_LIMIT) }
        ensures spent { OnErr result ((seat.old.view.bumps ≡ SEAT_STEP_LIMIT) × (seat.new ≡ seat.old)) }
    {
        if seat.bumps == SEAT_STEP_LIMIT {
            return Err(SeatSpent);
        }
        let found = self
            .table
            .shared
            .fetch_add::<Bump>(&mut seat.place, GENERATION, 1);
        seat.bumps += 1;
        Ok(found + 1)
    }

    /// Returns the current generation.
    pub fn generation(&self, seat: &mut Seat) -> u64
        requires { IsOf seat.old self.now }
        ensures seat { IsSameSeat seat.old seat.new }
        ensures not_back { generation_seen seat.old.view ≤ result }
        ensures counted { seat.old.view.bumps < result }
        ensures seen { seat.new.view ≡ sees seat.old.view 0 result }
    {
        self.table
            .shared
            .load::<ReadGeneration>(&mut seat.place, GENERATION)
    }
}

/// Returns the index of a tab's word.
fn word_index(tab: u16) -> usize
    ensures { result ≡ tab + 1 }
{
    usize::from(tab) + 1
}
