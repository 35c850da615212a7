//! Laws of progress, once all frames on their way were delivered.

ghost use Rattle.wl_library_model.specs.Progress.{NewTabsAreServed, NewTabsJoin, PremisesAreMet, RequestsAreGranted};

/// Grants and joins, after every list of steps.
///
/// The frames are delivered by steps of the hub and of one client, with no step of another client in between.
pub fn law_progress()
    // In an active partition, the client of an honest tab that has joined, with fewer locks than its limit, requests a
    // lock. No request waits for the name, and no held lock of the name conflicts. The hub has nothing to do, and the
    // client nothing to send. Once the hub has the request and the client the answer, the client holds the lock,
    // whatever else was on its way to it.
    ensures granted { RequestsAreGranted }
    // A tab that opens under a running broker, while the hub has nothing to do, has joined once its greeting has reached
    // its client and the client's report has reached the hub.
    ensures joined { NewTabsJoin }
    // If its partition is active then, and the hub has nothing to do, its first request for a free lock ends with its
    // client holding the lock.
    ensures served { NewTabsAreServed }
    // An example: these premises are met when a second tab opens.
    ensures met { PremisesAreMet }
{}
