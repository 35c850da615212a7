//! The ghost state of seats, the rule over all seats, and the effect of each kind of step.
//! Everything here is erased at run time.

use atomic_table::{Play, Split, TableRule};
use std::collections::LinkedList;

/// Ghost record of a seat's knowledge and steps. It has no values at run time.
pub struct View {
    /// The largest value seen of each word, or 0 if the seat has not seen it.
    pub seen: LinkedList<u64>,
    /// The numbers that the seat drew.
    pub drawn: LinkedList<u64>,
    /// The drawn numbers whose tabs the seat brought to life.
    pub born: LinkedList<u64>,
    /// The tabs that the seat marked dead.
    pub marked: LinkedList<u64>,
    /// The number of draws, including one that found all numbers drawn.
    pub draws: u64,
    /// The number of bumps.
    pub bumps: u64,
    /// The number of steps of any kind.
    pub steps: u64,
    /// The number of seats that this one may still split off.
    pub to_give: u64,
}

/// The rule of a board. Its key is the number of tabs.
pub struct BoardRule;

impl TableRule<(), View, u16> for BoardRule {
    ghost use Rattle.wl_board.specs.BoardRule.{IsOrderly, first_seat};

    ghost holds = { IsOrderly };

    ghost first = { first_seat };
}

pub(crate) struct Draw;

impl Play<(), View> for Draw {
    ghost use Rattle.wl_board.specs.BoardSteps.{drew};

    ghost then = { drew };
}

pub(crate) struct Bear;

impl Play<(), View> for Bear {
    ghost use Rattle.wl_board.specs.BoardSteps.{born_or_dead};

    ghost then = { born_or_dead };
}

pub(crate) struct MarkDead;

impl Play<(), View> for MarkDead {
    ghost use Rattle.wl_board.specs.BoardSteps.{marked};

    ghost then = { marked };
}

pub(crate) struct Look;

impl Play<(), View> for Look {
    ghost use Rattle.wl_board.specs.BoardSteps.{looked};

    ghost then = { looked };
}

pub(crate) struct Bump;

impl Play<(), View> for Bump {
    ghost use Rattle.wl_board.specs.BoardSteps.{bumped};

    ghost then = { bumped };
}

pub(crate) struct ReadGeneration;

impl Play<(), View> for ReadGeneration {
    ghost use Rattle.wl_board.specs.BoardSteps.{read};

    ghost then = { read };
}

pub(crate) struct Deal;

impl Split<View> for Deal {
    ghost use Rattle.wl_board.specs.BoardSteps.{stays, splits_off};

    ghost left = { stays };

    ghost right = { splits_off };
}
