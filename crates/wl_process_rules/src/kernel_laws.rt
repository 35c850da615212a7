//! Laws of the orders for the broker's keeper and of the Hello owed to a tab, stated over their definitions.

ghost use Rattle.wl_process_rules.specs.BrokerKeeping.{TellsTheFirst, WaitsForTheEnd, MissesWhatRuns, MissesAllThatRuns, FailsForGood};
ghost use Rattle.wl_process_rules.specs.OwedHello.{OwesWhatIsMissing, OwesTheLatest, OwesTheLast};

/// Laws of the orders, over any list of calls.
///
/// - A caller that requested a broker gets the first generation started after its request.
/// - A stopped broker is waited for until its process has ended.
/// - The end of a link is missed exactly if its broker is up, was neither stopped nor lost since, and the
///   kernel does not end.
/// - Once a broker has failed to start, every request for one, or for its stop, returns that failure.
pub fn law_orders()
    ensures first { TellsTheFirst }
    ensures stop { WaitsForTheEnd }
    ensures missed { MissesWhatRuns }
    ensures all_missed { MissesAllThatRuns }
    ensures failure { FailsForGood }
{}

/// Laws over any list of Hellos for one tab, each put into the tab's outbox or refused by it.
///
/// A Hello is missing if it was refused and neither it nor a later one was put afterwards. The tab is owed
/// the latest missing Hello, and nothing else. If the last Hello was refused, the tab is owed one.
pub fn law_owed_hello()
    ensures missing { OwesWhatIsMissing }
    ensures latest { OwesTheLatest }
    ensures last { OwesTheLast }
{}
