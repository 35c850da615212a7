//! Laws of channel objects, stated over their definition.

ghost use Rattle.std.specs.Prelude.{◌≡◌};
ghost use Rattle.wl_broadcast.specs.Heard.{TakesRising, TakesPosts, KeepsName, ClosedTakesNothing, ReadsInOrder, OldOnlyAfter, DeliversNew, DeliversOwn, NeverTooManyOpen, NeverTooManyWait, NeverTooManyPosts};
ghost use Rattle.wl_broadcast.specs.declared.channels.TheConstants.{CHANNEL_LIMIT, POST_LIMIT};
ghost use Rattle.wl_broadcast.specs.declared.object.TheConstants.{INBOX_LIMIT};

/// States which posts a channel object receives. It takes only posts with its name, in rising
/// number for each source. It takes none of its own posts, and none after its close. A post is old
/// only if one of its source with the same number or a greater one was received before. Any other
/// post is delivered to each open object of its name that has room. Posts are read in the order in
/// which they were taken. The limits of open objects, inboxes and posts always hold.
pub fn law_channels()
    ensures rising { TakesRising }
    ensures posts { TakesPosts }
    ensures names { KeepsName }
    ensures closed { ClosedTakesNothing }
    ensures reads { ReadsInOrder }
    ensures old { OldOnlyAfter }
    ensures delivers { DeliversNew }
    ensures delivers_own { DeliversOwn }
    ensures open_limit { NeverTooManyOpen }
    ensures inbox_limit { NeverTooManyWait }
    ensures post_limit { NeverTooManyPosts }
{}

/// States the value of each limit of this crate. All other contracts cite the limits by name.
pub fn law_limits()
    ensures inbox { INBOX_LIMIT ≡ 256 }
    ensures channels { CHANNEL_LIMIT ≡ 64 }
    ensures posts { POST_LIMIT ≡ 1000000 }
{}
