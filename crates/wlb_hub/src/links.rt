//! Bytes from tabs and for tabs.

ghost use Rattle.std.specs.Prelude.{◌≡◌, ◌≢◌, ◌⊎◌, ◌≤◌, ◌<◌, [], Some, None, is_some, option_map, take, length, IfSome};
ghost use Rattle.wl_frames.specs.declared.fault.FrameFault.{FrameFault};
ghost use Rattle.wl_frames.specs.declared.fault.FrameFault.TheVariants.{Memory};
ghost use Rattle.wl_hub.specs.Hub.{IsReceived, advanced, progress_of};
ghost use Rattle.wl_hub.specs.Sending.{IsNext};
ghost use Rattle.wl_hub.specs.declared.sending.Output.TheVariants as output;
ghost use Rattle.wlb_hub.specs.Statuses.{IsStatusOfBytes, IsStatusOfOutput, status_of_progress};
ghost use Rattle.wlb_hub.specs.declared.links.TheConstants.{WLB_FRAME_BYTES};
ghost use Rattle.wlb_hub.specs.declared.status.TheConstants.{WLB_OK, WLB_IDLE, WLB_MEMORY, WLB_NO_HANDLE, WLB_BUSY, WLB_BAD_FRAME, WLB_DROPPED, WLB_NO_TAB, WLB_SHORT_BUFFER};

use crate::handle::Handle;
use crate::life::{put, taken};
use crate::status::{
    WLB_BAD_FRAME, WLB_DROPPED, WLB_IDLE, WLB_MEMORY, WLB_NO_HANDLE, WLB_OK, WLB_SHORT_BUFFER,
    of_receive,
};
use std::alloc::Global;
use wl_hub::{Hub, Output, Progress};

/// Number of bytes that a buffer for one frame must have.
pub const WLB_FRAME_BYTES: usize = 65_540;

/// Room that a frame gets at once. Few frames need more.
const USUAL_FRAME_BYTES: usize = 64;

/// Takes bytes that a tab has sent.
fn receive(hub: &mut Hub, tab: u16, bytes: &[u8]) -> i32
    ensures status { IsStatusOfBytes result }
    ensures ok { result ≡ WLB_OK → IsReceived tab bytes.now hub.old hub.new None }
    ensures memory { result ≡ WLB_MEMORY → IsReceived tab bytes.now hub.old hub.new (Some Memory) }
    ensures frame { result ≡ WLB_BAD_FRAME → (f : FrameFault) × IsReceived tab bytes.now hub.old hub.new (Some f) }
    ensures busy { result ≡ WLB_BUSY → hub.new ≡ hub.old }
    ensures no_tab { result ≡ WLB_NO_TAB → hub.new ≡ hub.old }
{
    match hub.receive(tab, bytes) {
        Ok(()) => WLB_OK,
        Err(fault) => of_receive(fault),
    }
}

/// Tells the broker of a death, or handles the oldest arrived frame.
fn advance(hub: &mut Hub) -> i32
    ensures status { (result ≡ WLB_MEMORY) ⊎ (result ≡ status_of_progress (progress_of hub.old)) }
    ensures done { result ≢ WLB_MEMORY → hub.new ≡ advanced hub.old }
    ensures memory { result ≡ WLB_MEMORY → hub.new ≡ hub.old }
{
    match hub.advance() {
        Ok(Progress::Idle) => WLB_IDLE,
        Ok(Progress::Told(_) | Progress::Greeted(_) | Progress::Postponed(_) | Progress::Handled) =>
            WLB_OK,
        Ok(Progress::Refused(_)) => WLB_BAD_FRAME,
        Err(_) => WLB_MEMORY,
    }
}

/// Copies bytes to the front of a buffer that has room for them.
fn copy(from: &[u8], out: &mut [u8])
    requires { length from.now ≤ length out.old }
    ensures { take (length from.now) out.new ≡ from.now }
{
    out[..from.len()].copy_from_slice(from);
}

/// Writes the oldest frame for a tab.
fn next_output(
    hub: &mut Hub,
    alloc: Global,
    tab: &mut u16,
    out: &mut [u8],
    written: &mut usize,
) -> i32
    ensures status { IsStatusOfOutput result }
    ensures sent { result ≡ WLB_OK → IsNext hub.old (output.For tab.new) [] (take written.new out.new) hub.new }
    ensures idle { result ≡ WLB_IDLE → IsNext hub.old output.Idle [] [] hub.new }
    ensures dropped { result ≡ WLB_DROPPED → IsNext hub.old output.Dropped [] [] hub.new }
    ensures memory { result ≡ WLB_MEMORY → hub.new ≡ hub.old }
    ensures short { result ≡ WLB_SHORT_BUFFER → (hub.new ≡ hub.old) × (length out.old < WLB_FRAME_BYTES) }
    ensures unwritten { result ≢ WLB_OK → (tab.new ≡ tab.old) × (out.new ≡ out.old) × (written.new ≡ written.old) }
{
    if out.len() < WLB_FRAME_BYTES {
        return WLB_SHORT_BUFFER;
    }
    let mut bytes = Vec::new(alloc);
    if bytes.reserve(USUAL_FRAME_BYTES).is_err() {
        return WLB_MEMORY;
    }
    match hub.next_output(&mut bytes) {
        Ok(Output::Idle) => WLB_IDLE,
        Ok(Output::For(to)) => {
            copy(&bytes, out);
            *tab = to;
            *written = bytes.len();
            WLB_OK
        }
        Ok(Output::Dropped) => WLB_DROPPED,
        Err(_) => WLB_MEMORY,
    }
}

/// Takes bytes that a tab has sent. `wlb_hub_advance` handles the frames that they complete.
#[unsafe(no_mangle)]
pub extern "C" fn wlb_hub_receive(handle: &mut Handle, alloc: Global, tab: u16, bytes: &[u8]) -> i32
    ensures empty { handle.old.value ≡ None → result ≡ WLB_NO_HANDLE }
    ensures kept { is_some handle.new.value ≡ is_some handle.old.value }
    ensures status { IfSome handle.old.value (λ h. IsStatusOfBytes result) }
    ensures ok { result ≡ WLB_OK → IfSome handle.old.value (λ old. IfSome handle.new.value (λ new. IsReceived tab bytes.now old new None)) }
    ensures memory { result ≡ WLB_MEMORY → IfSome handle.old.value (λ old. IfSome handle.new.value (λ new.
        IsReceived tab bytes.now old new (Some Memory))) }
    ensures frame { result ≡ WLB_BAD_FRAME → IfSome handle.old.value (λ old. IfSome handle.new.value (λ new.
        (f : FrameFault) × IsReceived tab bytes.now old new (Some f))) }
    ensures busy { result ≡ WLB_BUSY → handle.new.value ≡ handle.old.value }
    ensures no_tab { result ≡ WLB_NO_TAB → handle.new.value ≡ handle.old.value }
{
    let Some(mut hub) = taken(handle, alloc) else {
        return WLB_NO_HANDLE;
    };
    let status = receive(&mut hub, tab, bytes);
    put(handle, hub);
    status
}

/// Tells the broker of a death, or handles the oldest arrived frame. Deaths come first.
#[unsafe(no_mangle)]
pub extern "C" fn wlb_hub_advance(handle: &mut Handle, alloc: Global) -> i32
    ensures empty { handle.old.value ≡ None → result ≡ WLB_NO_HANDLE }
    ensures kept { is_some handle.new.value ≡ is_some handle.old.value }
    ensures status { IfSome handle.old.value (λ h. (result ≡ WLB_MEMORY) ⊎ (result ≡ status_of_progress (progress_of h))) }
    ensures done { result ≢ WLB_MEMORY → handle.new.value ≡ option_map advanced handle.old.value }
    ensures memory { result ≡ WLB_MEMORY → handle.new.value ≡ handle.old.value }
{
    let Some(mut hub) = taken(handle, alloc) else {
        return WLB_NO_HANDLE;
    };
    let status = advance(&mut hub);
    put(handle, hub);
    status
}

/// Writes the oldest frame for a tab, with its tab and its length, and removes it.
#[unsafe(no_mangle)]
pub extern "C" fn wlb_hub_next_output(
    handle: &mut Handle,
    alloc: Global,
    tab: &mut u16,
    out: &mut [u8],
    written: &mut usize,
) -> i32
    ensures empty { handle.old.value ≡ None → result ≡ WLB_NO_HANDLE }
    ensures kept { is_some handle.new.value ≡ is_some handle.old.value }
    ensures status { IfSome handle.old.value (λ h. IsStatusOfOutput result) }
    ensures sent { result ≡ WLB_OK → IfSome handle.old.value (λ old. IfSome handle.new.value (λ new.
        IsNext old (output.For tab.new) [] (take written.new out.new) new)) }
    ensures idle { result ≡ WLB_IDLE → IfSome handle.old.value (λ old. IfSome handle.new.value (λ new. IsNext old output.Idle [] [] new)) }
    ensures dropped { result ≡ WLB_DROPPED → IfSome handle.old.value (λ old. IfSome handle.new.value (λ new. IsNext old output.Dropped [] [] new)) }
    ensures memory { result ≡ WLB_MEMORY → handle.new.value ≡ handle.old.value }
    ensures short { result ≡ WLB_SHORT_BUFFER → (handle.new.value ≡ handle.old.value) × (length out.old < WLB_FRAME_BYTES) }
    ensures unwritten { result ≢ WLB_OK → (tab.new ≡ tab.old) × (out.new ≡ out.old) × (written.new ≡ written.old) }
{
    let Some(mut hub) = taken(handle, alloc) else {
        return WLB_NO_HANDLE;
    };
    let status = next_output(&mut hub, alloc, tab, out, written);
    put(handle, hub);
    status
}
