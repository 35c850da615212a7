//! Statuses of the C interface, and their meanings for the faults of `wl_hub`.

ghost use Rattle.std.specs.Prelude.{◌≡◌, ◌≢◌, ◌⊎◌};
ghost use Rattle.wlb_hub.specs.Statuses.{IsStatusOfBytes, IsStatusOfRestart, status_of_refusal};
ghost use Rattle.wl_hub.specs.declared.fault.CloseFault.TheVariants as closings;
ghost use Rattle.wlb_hub.specs.declared.status.TheConstants.{WLB_OK, WLB_MEMORY, WLB_BUSY, WLB_BAD_FRAME, WLB_NO_TAB, WLB_GENERATIONS_USED_UP};
ghost use Rattle.wl_frames.specs.declared.fault.FrameFault.{FrameFault};
ghost use Rattle.wl_frames.specs.declared.fault.FrameFault.TheVariants.{Memory};
ghost use Rattle.wl_hub.specs.declared.fault.ReceiveFault.TheVariants as receipts;
ghost use Rattle.wl_hub.specs.declared.fault.RestartFault.TheVariants as restarts;

use wl_frames::FrameFault;
use wl_hub::{CloseFault, OpenRefusal, ReceiveFault, RestartFault};
use wl_kernel::OpenFault;
use wl_origin::OriginFault;

/// The call succeeded.
pub const WLB_OK: i32 = 0;
/// There was nothing to do.
pub const WLB_IDLE: i32 = 1;
/// Out of memory.
pub const WLB_MEMORY: i32 = 2;
/// The handle holds nothing.
pub const WLB_NO_HANDLE: i32 = 3;
/// Frames that arrived earlier wait for `advance`.
pub const WLB_BUSY: i32 = 4;
/// The bytes are not frames, or a frame may not come over this link.
pub const WLB_BAD_FRAME: i32 = 5;
/// The oldest frame for a tab was dropped.
pub const WLB_DROPPED: i32 = 6;
/// No such tab lives.
pub const WLB_NO_TAB: i32 = 7;
/// A text is not UTF-8.
pub const WLB_BAD_TEXT: i32 = 8;
/// A text is not a URL, or is too long.
pub const WLB_BAD_URL: i32 = 9;
/// The origin of a URL is opaque.
pub const WLB_OPAQUE_ORIGIN: i32 = 10;
/// The tab's number is 0, or a tab was opened with it before.
pub const WLB_NUMBER_TAKEN: i32 = 11;
/// Too many tabs live.
pub const WLB_TOO_MANY_LIVING: i32 = 12;
/// Too many tabs of the partition live.
pub const WLB_PARTITION_FULL: i32 = 13;
/// The broker is of the last generation.
pub const WLB_GENERATIONS_USED_UP: i32 = 14;
/// The caller's buffer is too short.
pub const WLB_SHORT_BUFFER: i32 = 27;

/// Returns the status of a tab that was not opened.
pub(crate) fn of_open(refusal: OpenRefusal) -> i32
    ensures status { result ≡ status_of_refusal refusal }
    ensures not_ok { result ≢ WLB_OK }
{
    match refusal {
        OpenRefusal::Origin(OriginFault::BadUrl) => WLB_BAD_URL,
        OpenRefusal::Origin(OriginFault::Security) => WLB_OPAQUE_ORIGIN,
        OpenRefusal::Tab(OpenFault::NumberTaken) => WLB_NUMBER_TAKEN,
        OpenRefusal::Tab(OpenFault::TooManyLiving) => WLB_TOO_MANY_LIVING,
        OpenRefusal::Tab(OpenFault::PartitionFull) => WLB_PARTITION_FULL,
        OpenRefusal::Origin(OriginFault::Memory)
        | OpenRefusal::Tab(OpenFault::Memory)
        | OpenRefusal::Memory => WLB_MEMORY,
    }
}

/// Returns the status of a tab that was not closed.
pub(crate) fn of_close(fault: CloseFault) -> i32
    ensures not_ok { result ≢ WLB_OK }
    ensures no_tab { (result ≡ WLB_MEMORY) ⊎ ((result ≡ WLB_NO_TAB) × (fault ≡ closings.NotLiving)) }
{
    match fault {
        CloseFault::NotLiving => WLB_NO_TAB,
        CloseFault::Memory => WLB_MEMORY,
    }
}

/// Returns the status of bytes that were not taken.
pub(crate) fn of_receive(fault: ReceiveFault) -> i32
    ensures not_ok { result ≢ WLB_OK }
    ensures memory { result ≡ WLB_MEMORY → fault ≡ receipts.Frame Memory }
    ensures busy { result ≡ WLB_BUSY → fault ≡ receipts.Busy }
    ensures frame { result ≡ WLB_BAD_FRAME → (f : FrameFault) × (fault ≡ receipts.Frame f) }
    ensures no_tab { result ≡ WLB_NO_TAB → fault ≡ receipts.NoTab }
    ensures listed { IsStatusOfBytes result }
{
    match fault {
        ReceiveFault::NoTab => WLB_NO_TAB,
        ReceiveFault::Busy => WLB_BUSY,
        ReceiveFault::Frame(FrameFault::Memory) => WLB_MEMORY,
        ReceiveFault::Frame(_) => WLB_BAD_FRAME,
    }
}

/// Returns the status of a broker that was not started.
pub(crate) fn of_restart(fault: RestartFault) -> i32
    ensures not_ok { result ≢ WLB_OK }
    ensures memory { result ≡ WLB_MEMORY → fault ≡ restarts.Memory }
    ensures used_up { result ≡ WLB_GENERATIONS_USED_UP → fault ≡ restarts.GenerationsUsedUp }
    ensures listed { IsStatusOfRestart result }
{
    match fault {
        RestartFault::GenerationsUsedUp => WLB_GENERATIONS_USED_UP,
        RestartFault::Memory => WLB_MEMORY,
    }
}
