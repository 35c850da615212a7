//! The ledgers of a sharded broker, one for each shard.

ghost use Rattle.wl_locked.specs.Blanks.{HaveParts};

use crate::lane::Generation;
use std::marker::{Brand, PhantomData};
use std::sync::ledger::{Blank, Ledger};

/// The largest number of shards of a broker.
pub const SHARD_LIMIT: u16 = 16;

/// A ghost description of one run of a sharded broker: its parameters and the names of the ledgers
/// that count each shard's steps. A program uses a fresh brand for each run.
pub trait Shards {
    ghost use Rattle.std.specs.Prelude.{ℕ};
    ghost use Rattle.wl_locked.specs.Sharding.{Run};

    /// The name of each shard's ledger.
    ghost names: { ℕ → ℕ };

    ghost run: { Run };
}

impl Shards for Brand {
    ghost use Rattle.std.specs.Prelude.{[]};

    ghost names = { λ _. 0 };

    ghost run = { record { generation = 0; listed = []; shards = 0; lanes = 0; limit = 0 } };
}

/// One shard of such a run.
pub struct At<J, const SHARD: u16> {
    of: PhantomData<J>,
}

impl<J: Shards, const SHARD: u16> Ledger for At<J, SHARD> {
    ghost name = { J.names SHARD };

    ghost parts = { J.run.lanes };
}

impl<J: Shards, const SHARD: u16> Generation for At<J, SHARD> {
    ghost use Rattle.wl_locked.specs.Sharding.{opening_of};

    ghost opening = { opening_of J.run SHARD };

    ghost limit = { J.run.limit };
}

/// One unopened ledger for each of `SHARD_LIMIT` shards.
#[derive(Drop)]
pub struct Blanks {
    pub zero: Blank,
    pub one: Blank,
    pub two: Blank,
    pub three: Blank,
    pub four: Blank,
    pub five: Blank,
    pub six: Blank,
    pub seven: Blank,
    pub eight: Blank,
    pub nine: Blank,
    pub ten: Blank,
    pub eleven: Blank,
    pub twelve: Blank,
    pub thirteen: Blank,
    pub fourteen: Blank,
    pub fifteen: Blank,
}

impl Blanks {
    /// Creates ledgers of `lanes` parts each, one part per lane.
    pub fn new(lanes: u64) -> Blanks
        ensures { HaveParts lanes result }
    {
        Blanks {
            zero: Blank::new(lanes),
            one: Blank::new(lanes),
            two: Blank::new(lanes),
            three: Blank::new(lanes),
            four: Blank::new(lanes),
            five: Blank::new(lanes),
            six: Blank::new(lanes),
            seven: Blank::new(lanes),
            eight: Blank::new(lanes),
            nine: Blank::new(lanes),
            ten: Blank::new(lanes),
            eleven: Blank::new(lanes),
            twelve: Blank::new(lanes),
            thirteen: Blank::new(lanes),
            fourteen: Blank::new(lanes),
            fifteen: Blank::new(lanes),
        }
    }
}
