//! Law of rest.

ghost use Rattle.wl_quiescence.specs.Quiescence.{ServedAtRest, ServedBesideOthers, HeldUpByOthers, NobodyWaitsForNothing, RestIsMet};

/// What holds after any list of steps at which the hub and the clients of a partition are at rest, while the broker is up.
pub fn law_quiescence()
    // In a partition of honest tabs, each living tab has joined and knows all that the broker has for it.
    ensures served { ServedAtRest }
    // The same holds beside tabs that were taken over, if the partition is active.
    ensures beside { ServedBesideOthers }
    // A partition that is not active is held up by a tab that was taken over.
    ensures held_up { HeldUpByOthers }
    // In a partition of honest tabs, a request waits only for a lock that a living tab holds.
    ensures nobody_waits { NobodyWaitsForNothing }
    // An example: two clients at rest after a restart, of which one holds the lock and the other waits.
    ensures met { RestIsMet }
{}
