//! Worked examples, computed on the machine's definition.

ghost use Rattle.wl_world_model.specs.HostileExamples.{CorruptHolderIsNotExcluded, ForgedPostIsItsTabs, HonestHolderStays};
ghost use Rattle.wl_world_model.specs.PartExamples.{ApartByTop, ForgedParts, InTwoParts, OnePart, PartsGivenUp, PartsRefused};
ghost use Rattle.wl_world_model.specs.ReplyExamples.{Joining, LateGrant, Snapshots, Recovery, Ending, Posts, FullInbox, Refusals};
ghost use Rattle.wl_world_model.specs.WorldExamples.{FirstGrant, ReleaseHandsOver, LateGrantAfterAbort, RestartWhileAsked, RestartWhileHeld, RivalsAreExcluded, OldGrantExcluded, EarlyGrantExcluded, DeathHandsOver, PostsInThePartition, TakenOnce, OtherOriginUnblocked};

/// Results of short scripts.
pub fn law_examples()
    ensures first_grant { FirstGrant }
    ensures release_hands_over { ReleaseHandsOver }
    ensures late_grant_after_abort { LateGrantAfterAbort }
    ensures restart_while_asked { RestartWhileAsked }
    ensures restart_while_held { RestartWhileHeld }
    ensures rivals { RivalsAreExcluded }
    ensures old_grant { OldGrantExcluded }
    ensures early_grant { EarlyGrantExcluded }
    ensures death_hands_over { DeathHandsOver }
    ensures posts_in_the_partition { PostsInThePartition }
    ensures taken_once { TakenOnce }
    ensures other_origin_unblocked { OtherOriginUnblocked }
{}

/// Replies to the lines of short scripts.
pub fn law_replies()
    ensures joining { Joining }
    ensures late_grant { LateGrant }
    ensures snapshots { Snapshots }
    ensures recovery { Recovery }
    ensures ending { Ending }
    ensures posts { Posts }
    ensures full_inbox { FullInbox }
    ensures refusals { Refusals }
{}

/// Results of short scripts in which a tab is taken over.
pub fn law_hostile_examples()
    ensures honest_holder_stays { HonestHolderStays }
    ensures corrupt_holder_is_not_excluded { CorruptHolderIsNotExcluded }
    ensures forged_post_is_its_tabs { ForgedPostIsItsTabs }
{}

/// Results of reports in parts, and of partitions under another top origin.
pub fn law_part_examples()
    ensures one_part { OnePart }
    ensures parts_refused { PartsRefused }
    ensures parts_given_up { PartsGivenUp }
    ensures in_two_parts { InTwoParts }
    ensures forged_parts { ForgedParts }
    ensures apart_by_top { ApartByTop }
{}
