//! Law of channels while no tab opens amid posts.

ghost use Rattle.wl_library_model.specs.Timely.{ChannelsAreRuns};

/// Compares the channels of a client with those that the world has for its tab.
///
/// The hub decides who hears a post when it handles the post, and the world decides when the post is made.
pub fn law_timely()
    // If no tab of a partition opens while a post of one of its tabs is on its way to the hub, the clients of the
    // partition's tabs have the channels that the world has after the steps' events.
    ensures channels { ChannelsAreRuns }
{}
