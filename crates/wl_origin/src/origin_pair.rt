//! Partition of a page.

ghost use Rattle.std.specs.Prelude.{◌≡◌, ◌↔◌, ◌≤◌, length, IfOk, IsTrue};
ghost use Rattle.std.specs.Ordering.{as_partial_cmp};
ghost use Rattle.std.specs.Cmp.{partial_order_from_own_ties};
ghost use Rattle.std.specs.Cmp.Rules.{comparing};
ghost use Rattle.std.proofs.Common.{rules};
ghost use Rattle.wl_origin.specs.Partition.{origin_text};
ghost use Rattle.wl_origin.specs.Order.{pair_eq, pair_cmp};
ghost use Rattle.wl_origin.specs.Ties.{pairs_tied};
ghost use Rattle.wl_limits.specs.declared.texts.TheConstants.{ORIGIN_LIMIT};

use crate::tuple_origin::TupleOrigin;
use std::alloc::{AllocError, Global};
use std::cmp::Ordering;
use std::marker::Model;

/// A partition (storage key): the top-level origin of a page and its own origin. Pages with both
/// equal share their locks.
#[derive(Debug, Drop)]
pub struct Partition {
    top: TupleOrigin,
    own: TupleOrigin,
}

impl Model for Partition {
    ghost use Rattle.wl_origin.specs.Order.{Pair};

    ghost Value = { Pair };

    ghost view = { λ p. (p.top, p.own) };
}

impl Partition {
    pub(crate) fn new(top: TupleOrigin, own: TupleOrigin) -> Partition
        ensures { result ≡ (top, own) }
    {
        Partition { top, own }
    }

    /// Returns the own origin in ASCII, without a default port.
    pub fn text(&self) -> &str
        ensures value { result.now ≡ origin_text self.now.1 }
        ensures within { length result.now ≤ ORIGIN_LIMIT }
    {
        self.own.text()
    }

    /// Returns the top-level origin in ASCII, without a default port.
    pub fn top_text(&self) -> &str
        ensures value { result.now ≡ origin_text self.now.0 }
        ensures within { length result.now ≤ ORIGIN_LIMIT }
    {
        self.top.text()
    }

    /// Returns a deep copy. Fails if out of memory.
    pub fn copy(&self, alloc: Global) -> Result<Partition, AllocError>
        ensures { IfOk result (λ copy. copy ≡ self.now) }
    {
        let top = self.top.copy(alloc)?;
        let own = self.own.copy(alloc)?;
        Ok(Partition::new(top, own))
    }
}

impl PartialEq for Partition {
    ghost eq = { pair_eq };

    ghost laws = { Prim.search (comparing, rules) depth 9 };

    fn eq(&self, other: &Partition) -> bool
        ensures value { result ≡ pair_eq self.now other.now }
        ensures same { IsTrue result ↔ (self.now ≡ other.now) }
    {
        self.top == other.top && self.own == other.own
    }
}

impl Eq for Partition {
    ghost laws = { Prim.search (comparing, rules) depth 9 };
}

impl PartialOrd for Partition {
    ghost partial_cmp = { as_partial_cmp pair_cmp };

    ghost laws = { partial_order_from_own_ties
        (Prim.search (comparing, rules) depth 12) pairs_tied.ties };

    fn partial_cmp(&self, other: &Partition) -> Option<Ordering> {
        Some(self.cmp(other))
    }
}

impl Ord for Partition {
    ghost cmp = { pair_cmp };

    ghost total = { Prim.search (comparing, rules) depth 12 };

    ghost matches_partial_cmp = { Prim.search (comparing, rules) };

    ghost matches_eq = { pairs_tied.ties };

    fn cmp(&self, other: &Partition) -> Ordering {
        self.top.cmp(&other.top).then(self.own.cmp(&other.own))
    }
}
