//! Worked conversation, computed on the machine's definition.

ghost use Rattle.wl_library_model.specs.Examples.{Bereaved, Contended, ContendedIsThese, DeathsAndRestartsAreEvents, Recovering, Released, Restarted, Talked};

/// Results of a conversation of two clients.
pub fn law_examples()
    ensures events { ContendedIsThese }
    ensures contended { Contended }
    ensures released { Released }
    ensures told { DeathsAndRestartsAreEvents }
    ensures recovering { Recovering }
    ensures restarted { Restarted }
    ensures bereaved { Bereaved }
    ensures talked { Talked }
{}
