//! A thread's capability to call a board.

ghost use Rattle.std.specs.Prelude.{◌≡◌, ◌-◌, ◌≤◌, length};
ghost use Rattle.wl_board.specs.BoardRule.{newcomer};
ghost use Rattle.wl_board.specs.Seats.{Sitting};

use crate::rule::View;
use std::marker::Model;

/// A seat at the board's table of atomic words.
pub(crate) type Place = atomic_table::Seat<(), View>;

/// A thread's capability to call a board. All seats of a board are made by `Board::new`.
#[derive(Drop)]
pub struct Seat {
    pub(crate) place: Place,
    /// The number of draws made.
    pub(crate) draws: u16,
    /// The number of bumps made.
    pub(crate) bumps: u16,
    /// Whether a draw found all numbers drawn.
    pub(crate) met_end: bool,
}

impl Model for Seat {
    ghost use Rattle.wl_board.specs.Seats.{Sitting, IsCounted};

    ghost Value = { Sitting };

    ghost view = { λ s. record { table = s.place.table_id; place = s.place.id; view = s.place.me.0 } };

    ghost invariant = { λ s. IsCounted s.place s.draws s.bumps s.met_end };
}

impl Seat {
    pub(crate) fn new(place: Place) -> Seat
        requires view { place.me.0 ≡ newcomer (length place.me.0.seen - 2) place.me.0.to_give }
        requires words { length place.me.0.seen ≡ place.table_id.words }
        requires room { 2 ≤ place.table_id.words }
        ensures { result ≡ record { table = place.table_id; place = place.id; view = place.me.0 } }
    {
        Seat {
            place,
            draws: 0,
            bumps: 0,
            met_end: false,
        }
    }
}
