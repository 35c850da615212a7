//! The interval of the kernel's looks at a child's process.

ghost use Rattle.std.specs.Prelude.{◌↔◌, ◌≤◌, IsTrue};
ghost use Rattle.wl_process_rules.specs.declared.looks.TheConstants.{LOOK_INTERVAL};

/// The minimum time between two looks, in milliseconds. A read of a child's link waits no longer
/// than this, so two looks are at most two intervals apart.
pub const LOOK_INTERVAL: u64 = 500;

/// Returns true if a look is due `elapsed` milliseconds after the last one.
pub fn is_look_due(elapsed: u64) -> bool
    ensures { IsTrue result ↔ (LOOK_INTERVAL ≤ elapsed) }
{
    elapsed >= LOOK_INTERVAL
}
