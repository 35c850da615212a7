//! Law of settling, stated over its definition.

ghost use Rattle.wl_draft.specs.Locks.{Locks, settle};
ghost use Rattle.wl_draft.specs.Settling.{IsSettled, GrantsWhatIsFree, GrantsPrefixes, MovesGrants, SettlesByName};

/// States the effect of settling. Of each name, it grants a prefix of the waiting requests, each
/// free when the ones before it are held. It leaves no grantable request waiting. The other
/// requests keep their order, and the result for one name does not depend on other names.
pub fn law_settling()
    ensures settled { (m : Locks) → IsSettled (settle m) }
    ensures free { (m : Locks) → GrantsWhatIsFree m }
    ensures prefixes { (m : Locks) → GrantsPrefixes m }
    ensures moves { (m : Locks) → MovesGrants m }
    ensures by_name { (m : Locks) → SettlesByName m }
{}
