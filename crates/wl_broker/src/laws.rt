//! Laws of the broker, stated over its definition.

ghost use Rattle.std.specs.Prelude.{ℕ, List};
ghost use Rattle.wl_grammar.specs.declared.frame.Stamped.{Stamped};
ghost use Rattle.wl_broker.specs.Broker.{BrokerState};
ghost use Rattle.wl_broker.specs.BrokerLaws.{IsListedOnce, TakesInOnePartition, BuriesInOnePartition, GrantsNothingWhileRecovering, BuriesInSilenceWhileRecovering, StaysActive, MovesItsOwn, KeepsCompatible, LeavesPartsOfOthers, CountsCommands, WaitsForItsOwn};
ghost use Rattle.wl_broker.specs.Grants.{StartsSettled, TakesSettled, BuriesSettled, BuriesItsOwn, BuriesOnce, BuriesActive, TakesTelling, BuriesTelling};
ghost use Rattle.wl_broker.specs.Shards.{SeenAtEachShard, AnsweredByItsShard, DeathsSentByShards, DeathsSentByOneShard, HellosOfShards, InOneOrder};
ghost use Rattle.wl_broker.specs.SentFrames.{SpellsStart, SpellsTaking, SpellsBurial};

/// States the effects of any message and any death. Each changes only one partition. Nothing is
/// granted while the partition recovers. A message adds or removes only locks of its own tab, and
/// keeps the parts of other tabs' reports. Held locks conflict only if they were reported so. Each
/// command takes effect once.
pub fn law_broker()
    ensures one_partition { (b : BrokerState) (s : Stamped) → IsListedOnce b → TakesInOnePartition b s }
    ensures one_burial { (b : BrokerState) (t : ℕ) → IsListedOnce b → BuriesInOnePartition b t }
    ensures recovery { (b : BrokerState) (s : Stamped) → GrantsNothingWhileRecovering b s }
    ensures silence { (b : BrokerState) (t : ℕ) → BuriesInSilenceWhileRecovering b t }
    ensures active { (b : BrokerState) (s : Stamped) → StaysActive b s }
    ensures own { (b : BrokerState) (s : Stamped) → MovesItsOwn b s }
    ensures compatible { (b : BrokerState) (s : Stamped) → KeepsCompatible b s }
    ensures parts { (b : BrokerState) (s : Stamped) → LeavesPartsOfOthers b s }
    ensures numbers { (b : BrokerState) (s : Stamped) → CountsCommands b s }
{}

/// States that partitions recover independently: tabs of other partitions neither delay nor hasten
/// a partition's first grant.
pub fn law_recovery()
    ensures own_tabs { (b : BrokerState) (p : ℕ) → WaitsForItsOwn b p }
{}

/// States the laws of active partitions. No grantable request is waiting. A death removes only the
/// dead tab's locks. The broker sends the sender's answer, and then one grant for each newly
/// granted request.
pub fn law_grants()
    ensures start { (g : ℕ) (listed : List (ℕ × ℕ)) → StartsSettled g listed }
    ensures settled { (b : BrokerState) (s : Stamped) → TakesSettled b s }
    ensures settled_by_death { (b : BrokerState) (t : ℕ) → BuriesSettled b t }
    ensures own { (b : BrokerState) (t : ℕ) → BuriesItsOwn b t }
    ensures once { (b : BrokerState) (t : ℕ) → BuriesOnce b t }
    ensures active { (b : BrokerState) (t : ℕ) → BuriesActive b t }
    ensures telling { (b : BrokerState) (s : Stamped) → TakesTelling b s }
    ensures telling_of_death { (b : BrokerState) (t : ℕ) → BuriesTelling b t }
{}

/// States that the broker sends only well-formed frames if it receives only well-formed ones.
pub fn law_speech()
    ensures start { (g : ℕ) (listed : List (ℕ × ℕ)) → SpellsStart g listed }
    ensures taking { (b : BrokerState) (s : Stamped) → SpellsTaking b s }
    ensures death_step { (b : BrokerState) (t : ℕ) → SpellsBurial b t }
{}

/// States that the brokers of the shards behave as one broker. This holds for each start list and
/// each list of events in which each tab has only one partition. Partition `p` belongs to shard `p`
/// modulo the number of shards.
pub fn law_shards()
    // Restricted to a shard, the single broker's state is the state of a broker with only the
    // shard's tabs and events.
    ensures state { SeenAtEachShard }
    // Both drop a message for the same reason, or send the same answer.
    ensures answers { AnsweredByItsShard }
    // The frames that the shards send on a death are together those of the single broker.
    ensures deaths { DeathsSentByShards }
    // Only the shard of the dead tab's partition sends frames.
    ensures one_sends { DeathsSentByOneShard }
    // The hellos of the shards, by rising shard, are those of the single broker in another order.
    ensures hellos { HellosOfShards }
    // If all shards receive the deaths in the same order, a single list of events gives each shard
    // its own events.
    ensures order { InOneOrder }
{}
