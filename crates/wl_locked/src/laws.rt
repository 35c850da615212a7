//! Laws that state the numeric values of this crate's limits.

ghost use Rattle.std.specs.Prelude.{◌≡◌};
ghost use Rattle.wl_locked.specs.declared.locked.TheConstants.{LANE_LIMIT, STEP_LIMIT};
ghost use Rattle.wl_locked.specs.declared.shards.TheConstants.{SHARD_LIMIT};

/// States the value of each limit of this crate. All other contracts cite the limits by name.
pub fn law_limits()
    ensures lanes { LANE_LIMIT ≡ 16 }
    ensures steps { STEP_LIMIT ≡ 65536 }
    ensures shards { SHARD_LIMIT ≡ 16 }
{}
