//! Laws of an outbox's rule, which hold between any two steps.

ghost use Rattle.std.specs.Prelude.{◌≡◌};
ghost use Rattle.wl_outbox.specs.OutboxLaws.{TakesInOrder, OnePassTakes, AllForOneTab, AllArrived};
ghost use Rattle.wl_outbox.specs.MergeLaws.{KeepsOrder, HasEachOnce, HasNothingElse};
ghost use Rattle.wl_outbox.specs.declared.outbox.TheConstants.{CAPACITY, PUTTER_LIMIT};

/// States the laws of an outbox. They hold for every interleaving of its threads.
pub fn law_outbox()
    // The parcels taken, followed by those in the queue, are a merge of the passes' puts.
    ensures merge { TakesInOrder }
    // At most one pass takes.
    ensures one_takes { OnePassTakes }
    // All parcels are for the outbox's tab and come from its partition.
    ensures one_tab { AllForOneTab }
    // If the queue is empty, the parcels taken are a merge of all puts.
    ensures arrived { AllArrived }
{}

/// States the laws of merges.
pub fn law_merge()
    // The items of each source keep their order in the merge.
    ensures order { KeepsOrder }
    // The merge is as long as all sources together, so each item occurs once.
    ensures once { HasEachOnce }
    // Each item of the merge comes from a source.
    ensures nothing_else { HasNothingElse }
{}

/// States the value of each limit of this crate. All other contracts cite the limits by name.
pub fn law_limits()
    ensures parcels { CAPACITY ≡ 256 }
    ensures putters { PUTTER_LIMIT ≡ 16 }
{}
