//! Laws of a board's rule, which hold between any two steps.

ghost use Rattle.std.specs.Prelude.{◌≡◌};
ghost use Rattle.wl_board.specs.BoardLaws.{DrawnOnce, DeadForAll, LivingIsDrawn, GenerationIsCount};
ghost use Rattle.wl_board.specs.declared.board.TheConstants.{SEAT_LIMIT, SEAT_STEP_LIMIT};

/// States the laws of a board. They hold for every interleaving of its threads.
pub fn law_board()
    // No number is drawn twice.
    ensures drawn_once { DrawnOnce }
    // If one seat has seen a tab dead, no seat finds it in another state.
    ensures dead_for_all { DeadForAll }
    // Every living tab was brought to life by the seat that drew its number.
    ensures living_is_drawn { LivingIsDrawn }
    // The generation is 1 plus the number of bumps, and no seat has seen a later one.
    ensures generation { GenerationIsCount }
{}

/// States the value of each limit of this crate. All other contracts cite the limits by name.
pub fn law_limits()
    ensures seats { SEAT_LIMIT ≡ 16 }
    ensures steps { SEAT_STEP_LIMIT ≡ 65535 }
{}
