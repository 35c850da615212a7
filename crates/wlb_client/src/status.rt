//! Statuses of the C interface, and their meanings for the faults of `wl_client`.

ghost use Rattle.std.specs.Prelude.{◌≡◌, ◌≢◌};
ghost use Rattle.wl_frames.specs.declared.fault.FrameFault.{FrameFault};
ghost use Rattle.wl_frames.specs.declared.fault.FrameFault.TheVariants.{Memory};
ghost use Rattle.wl_client.specs.declared.fault.ReceiveFault.TheVariants as receipts;
ghost use Rattle.wlb_client.specs.Statuses.{IsStatusOfBytes, status_of_call, status_of_channel, status_of_channel_call, status_of_refusal};
ghost use Rattle.wlb_client.specs.declared.status.TheConstants.{WLB_OK, WLB_IDLE, WLB_MEMORY, WLB_BUSY, WLB_BAD_FRAME};

use wl_agent::AgentFault;
use wl_broadcast::ChannelFault;
use wl_client::{CallFault, ChannelCallFault, ReceiveFault};
use wl_frames::FrameFault;
use wl_tab::ChannelRefusal;

/// The call succeeded.
pub const WLB_OK: i32 = 0;
/// There was nothing to do.
pub const WLB_IDLE: i32 = 1;
/// Out of memory.
pub const WLB_MEMORY: i32 = 2;
/// The handle holds nothing.
pub const WLB_NO_HANDLE: i32 = 3;
/// Frames that arrived earlier wait for `advance`.
pub const WLB_BUSY: i32 = 4;
/// The bytes are not frames, or a frame may not come over this link.
pub const WLB_BAD_FRAME: i32 = 5;
/// The oldest item needed no frame, or frames were prepared.
pub const WLB_DROPPED: i32 = 6;
/// A text is not UTF-8.
pub const WLB_BAD_TEXT: i32 = 8;
/// The welcome has not arrived.
pub const WLB_NOT_WELCOMED: i32 = 15;
/// The name starts with U+002D.
pub const WLB_NOT_SUPPORTED: i32 = 16;
/// The name is too long.
pub const WLB_NAME_TOO_LONG: i32 = 17;
/// The tab has too many live numbers.
pub const WLB_TOO_MANY: i32 = 18;
/// Too few numbers are left.
pub const WLB_NUMBERS_USED_UP: i32 = 19;
/// The lock is held.
pub const WLB_HELD: i32 = 20;
/// There is no such request, lock or item.
pub const WLB_NOTHING: i32 = 21;
/// The tab has opened no channel with this number.
pub const WLB_NO_CHANNEL: i32 = 22;
/// The channel is closed.
pub const WLB_CLOSED: i32 = 23;
/// The data is too long.
pub const WLB_DATA_TOO_LONG: i32 = 24;
/// The tab has too many open channels.
pub const WLB_TOO_MANY_CHANNELS: i32 = 25;
/// The tab has made all posts that it may make.
pub const WLB_POSTS_USED_UP: i32 = 26;
/// The caller's buffer is too short.
pub const WLB_SHORT_BUFFER: i32 = 27;

/// Returns the status of bytes that were not taken.
pub(crate) fn of_receive(fault: ReceiveFault) -> i32
    ensures not_ok { result ≢ WLB_OK }
    ensures memory { result ≡ WLB_MEMORY → fault ≡ receipts.Frame Memory }
    ensures busy { result ≡ WLB_BUSY → fault ≡ receipts.Busy }
    ensures frame { result ≡ WLB_BAD_FRAME → (f : FrameFault) × (fault ≡ receipts.Frame f) }
    ensures listed { IsStatusOfBytes result }
{
    match fault {
        ReceiveFault::Busy => WLB_BUSY,
        ReceiveFault::Frame(FrameFault::Memory) => WLB_MEMORY,
        ReceiveFault::Frame(_) => WLB_BAD_FRAME,
    }
}

/// Returns the status of a command that was not issued.
pub(crate) fn of_call(fault: CallFault) -> i32
    ensures status { result ≡ status_of_call fault }
    ensures not_ok { result ≢ WLB_OK }
{
    match fault {
        CallFault::NotWelcomed => WLB_NOT_WELCOMED,
        CallFault::Agent(AgentFault::NotSupported) => WLB_NOT_SUPPORTED,
        CallFault::Agent(AgentFault::NameTooLong) => WLB_NAME_TOO_LONG,
        CallFault::Agent(AgentFault::TooMany) => WLB_TOO_MANY,
        CallFault::Agent(AgentFault::NumbersUsedUp) => WLB_NUMBERS_USED_UP,
        CallFault::Agent(AgentFault::Memory) | CallFault::Memory => WLB_MEMORY,
    }
}

/// Returns the status of a call on a channel that failed.
pub(crate) fn of_channel_call(fault: ChannelCallFault) -> i32
    ensures status { result ≡ status_of_channel_call fault }
    ensures not_ok { result ≢ WLB_OK }
    ensures not_idle { result ≢ WLB_IDLE }
{
    match fault {
        ChannelCallFault::NotWelcomed => WLB_NOT_WELCOMED,
        ChannelCallFault::Channel(refusal) => of_refusal(refusal),
        ChannelCallFault::Memory => WLB_MEMORY,
    }
}

/// Returns the status of a refused call on a channel.
fn of_refusal(refusal: ChannelRefusal) -> i32
    ensures status { result ≡ status_of_refusal refusal }
    ensures not_ok { result ≢ WLB_OK }
    ensures not_idle { result ≢ WLB_IDLE }
{
    match refusal {
        ChannelRefusal::NoChannel => WLB_NO_CHANNEL,
        ChannelRefusal::Closed => WLB_CLOSED,
        ChannelRefusal::Fault(fault) => of_channel(fault),
    }
}

/// Returns the status of a fault of the tab's channels.
fn of_channel(fault: ChannelFault) -> i32
    ensures status { result ≡ status_of_channel fault }
    ensures not_ok { result ≢ WLB_OK }
    ensures not_idle { result ≢ WLB_IDLE }
{
    match fault {
        ChannelFault::NameTooLong => WLB_NAME_TOO_LONG,
        ChannelFault::DataTooLong => WLB_DATA_TOO_LONG,
        ChannelFault::TooManyChannels => WLB_TOO_MANY_CHANNELS,
        ChannelFault::PostsUsedUp => WLB_POSTS_USED_UP,
        ChannelFault::ForeignChannel => WLB_NO_CHANNEL,
        ChannelFault::WrongKind => WLB_BAD_FRAME,
        ChannelFault::Memory => WLB_MEMORY,
    }
}
