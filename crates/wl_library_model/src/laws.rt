//! Laws that hold after every list of steps.

ghost use Rattle.wl_library_model.specs.Calls.{ClientOutputIsStep, HubOutputIsStep, PiecesAreFrames};
ghost use Rattle.wl_library_model.specs.Channels.{ChannelsAreCalls, HeardArePosts, HeardRising, HeardTillClosed};
ghost use Rattle.wl_library_model.specs.Simulation.{IsRunOfItsEvents};
ghost use Rattle.wl_library_model.specs.Promises.{ApartForAll, CommandsInOrderForAll, ExclusionForAll, ManagerIsFoldForAll, OwnForAll};

/// The laws that join the hub and its clients to the world, stated over their definitions alone.
///
/// - A step is a public call of the hub or of a tab's client, or something that a tab that was taken over does.
/// - The events of a list of steps are given by a definition that maps each step to events of the world.
pub fn law_library()
    // The library is the world after the steps' events: it has the same kernel and broker and the same locks. Each frame
    // on its way from an honest tab, or to a living one, is a message in the world's bag, a welcome, a post, a repeated
    // command or its answer.
    ensures events { IsRunOfItsEvents }

    // If clients of living honest tabs of one partition hold two different locks of one name, both are shared.
    ensures exclusion { ExclusionForAll }
    // Each held lock was requested by its tab, whose client has neither released nor aborted it.
    ensures own { OwnForAll }

    // The commands of an honest tab's client are taken in order, each once.
    ensures commands { CommandsInOrderForAll }
    // While a generation is up, its broker's locks in a partition are the draft's commands folded over the taken list.
    ensures fold { ManagerIsFoldForAll }

    // The locks of a partition are those that the events about that partition alone make.
    ensures apart { ApartForAll }

    // A client's channels are what the calls on them make, and each post that the hub hands on is of another tab.
    ensures channels { ChannelsAreCalls }
    // Each post that reaches a client was handed on by the hub, to a tab of its source's partition, and an honest source has
    // posted it.
    ensures heard { HeardArePosts }
    // A channel object takes posts of one source with strictly rising numbers.
    ensures rising { HeardRising }
    // A closed channel object takes no posts.
    ensures closed { HeardTillClosed }
{}

/// The calls whose contracts are relations. The contracts of all other calls cite the definitions of their steps.
pub fn law_calls()
    // Sending the hub's next frame is `HubSends`.
    ensures hub_output { HubOutputIsStep }
    // Sending the client's next item is `ClientSends`.
    ensures client_output { ClientOutputIsStep }
    // Bytes that are cut anywhere arrive as the next frames on their way.
    ensures pieces { PiecesAreFrames }
{}
