//! Safety laws that hold after every list of events.

ghost use Rattle.wl_broker.specs.Shards.{AnsweredByItsShard, DeathsSentByOneShard, DeathsSentByShards, HellosOfShards, InOneOrder, SeenAtEachShard};
ghost use Rattle.wl_world_model.specs.Apart.{DroppedLeavesAlone, KeptDoesAlike, RunsApartForAll};
ghost use Rattle.wl_world_model.specs.Heard.{HeardIsReadForAll, HeardPostsForAll, HeardRisingForAll, HeardTillClosedForAll};
ghost use Rattle.wl_world_model.specs.Holdings.{ExclusionForAll, OwnForAll};
ghost use Rattle.wl_world_model.specs.Hostile.{HonestBefore, HonestUnlessNamed, TakesOwnAlone};
ghost use Rattle.wl_world_model.specs.Orders.{CommandsInOrderForAll, GrantedWereHeldForAll, GrantsWereSentForAll, ManagerIsFoldForAll};
ghost use Rattle.wl_world_model.specs.Refusals.{MemoryIsNeverSaid, RefusedChangesNothing};

/// The laws of the whole system, stated over its definitions alone. `refused` and `moves` hold in any world. The shard
/// laws hold for lists of messages and deaths, all others after every list of events.
///
/// - A tab is honest unless it was taken over. Exclusion is about locks held by living honest tabs, Own about
///   locks held by living tabs.
/// - The order laws are about the taken list of a generation and partition: the items that the broker of that
///   generation took in the partition, picked from the events.
/// - The laws on separate partitions are about the part of a world that belongs to a partition: its tabs with
///   their locks, channels and messages, the broker's state for these tabs, whether a broker is up, and the
///   generation.
/// - The channel laws are about the posts that a channel object takes, whether they are read or not.
/// - The shard laws are about a broker's list of messages and deaths in which each tab has one partition, as
///   in every world.
pub fn law_safety()
    // An event whose reply is a refusal leaves any world unchanged and sends nothing.
    ensures refused { RefusedChangesNothing }

    // If living honest tabs of one partition hold two different locks of one name, both are shared.
    ensures exclusion { ExclusionForAll }
    // Each held lock was requested by its holder, which has neither released nor aborted it.
    ensures own { OwnForAll }

    // An honest tab's taken commands are a prefix of its issued commands from its report's base on, each once and in order.
    ensures commands { CommandsInOrderForAll }
    // A granted answer is sent only for a lock that is held after some prefix of the taken list.
    ensures held { GrantedWereHeldForAll }
    // Each lock that settling or a probe newly grants is sent a granted answer.
    ensures sent { GrantsWereSentForAll }
    // While a generation is up, its broker's locks in a partition are the draft's commands folded over the taken list.
    ensures fold { ManagerIsFoldForAll }

    // After any list of events, an event that the projection drops leaves the partition's part unchanged.
    ensures dropped { DroppedLeavesAlone }
    // An event that the projection keeps has the same effect in every world that contains only this partition
    // and agrees on it. A Start is kept with a shorter list.
    ensures kept { KeptDoesAlike }
    // After the whole list, the partition's part is the world after the projected list.
    ensures apart { RunsApartForAll }

    // A channel object takes posts of one source with strictly rising numbers.
    ensures rising { HeardRisingForAll }
    // A channel object takes from honest sources only posts to its name, by tabs of its partition, that were
    // not made on the object itself.
    ensures posts { HeardPostsForAll }
    // A closed channel object takes no posts, and none are read from it.
    ensures closed { HeardTillClosedForAll }
    // The posts taken are those read, as the replies say, followed by a rest. The rest is the
    // inbox while the object is open.
    ensures told { HeardIsReadForAll }

    // A message that arrives at the broker, forged or not, moves its own tab's locks alone. Other
    // locks move only by settling.
    ensures moves { TakesOwnAlone }
    // A tab that no event names as taken over is honest.
    ensures unnamed { HonestUnlessNamed }
    // A tab that is honest after more events was honest before them.
    ensures before { HonestBefore }

    // The state of the unsharded broker, seen at a shard, is the shard's state. The shard is given its
    // partitions' messages and every death.
    ensures shards { SeenAtEachShard }
    // The shard of a message's partition drops it for the same reason as the unsharded broker, or answers it identically.
    ensures answers { AnsweredByItsShard }
    // The frames that all shards send on a death are together those that the unsharded broker sends.
    ensures deaths { DeathsSentByShards }
    // The shard in which the dead tab had its seat sends all of these frames, every other shard none.
    ensures one_sends { DeathsSentByOneShard }
    // The hellos of all shards, by rising shard, are the hellos of the list in another order.
    ensures hellos { HellosOfShards }
    // For any orders of arrival at the shards, some single list gives each shard its messages in order, if all
    // shards saw the deaths in one order.
    ensures order { InOneOrder }
{}

/// Replies that no event has, in any world.
pub fn law_answers()
    // No reply gives out of memory as its reason. If memory runs out, the event has no reply.
    ensures memory { MemoryIsNeverSaid }
{}
