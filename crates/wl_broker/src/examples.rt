//! Worked examples, computed on the broker's definition.

ghost use Rattle.wl_broker.specs.BrokerExamples.{SharedThenExclusive, ReleaseHandsOver, LateGrantAfterAbort, RepeatedRequest, RestartWhileAsked, RestartWhileHeld, DeathHandsOver, OtherOriginUnblocked, SnapshotRow, OutOfTurnRow, HeldNewcomer, DeadTabUnblocks, InTwoParts, PartsThatDoNotFit};
ghost use Rattle.wl_broker.specs.ShardExamples.{TwoShards, DeathInOneShard, UnderTwoPartitions};

/// States the results of the definition for short conversations.
pub fn law_examples()
    ensures shared_then_exclusive { SharedThenExclusive }
    ensures release_hands_over { ReleaseHandsOver }
    ensures late_grant_after_abort { LateGrantAfterAbort }
    ensures repeated_request { RepeatedRequest }
    ensures restart_while_asked { RestartWhileAsked }
    ensures restart_while_held { RestartWhileHeld }
    ensures death_hands_over { DeathHandsOver }
    ensures other_origin_unblocked { OtherOriginUnblocked }
    ensures snapshot { SnapshotRow }
    ensures out_of_turn { OutOfTurnRow }
    ensures held_newcomer { HeldNewcomer }
    ensures dead_tab_unblocks { DeadTabUnblocks }
    ensures in_two_parts { InTwoParts }
    ensures parts_that_do_not_fit { PartsThatDoNotFit }
{}

/// States the states and frames of two shards. An example with a tab under two partitions shows why
/// the law of shards excludes it.
pub fn law_shard_examples()
    ensures two_shards { TwoShards }
    ensures death_in_one_shard { DeathInOneShard }
    ensures under_two_partitions { UnderTwoPartitions }
{}
