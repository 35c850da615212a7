//! Laws that state the numeric values of this crate's limits.

ghost use Rattle.std.specs.Prelude.{◌≡◌};
ghost use Rattle.wl_workers.specs.declared.lanes.TheConstants.{EVENT_LIMIT};

/// States the value of `EVENT_LIMIT`. All other contracts cite it by name.
pub fn law_limits()
    ensures events { EVENT_LIMIT ≡ 1000000 }
{}
