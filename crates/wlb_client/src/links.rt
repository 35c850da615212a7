//! Bytes from the hub and for the hub.

ghost use Rattle.std.specs.Prelude.{◌≡◌, ◌≢◌, ◌⊎◌, ◌≤◌, ◌<◌, [], Some, None, is_some, option_map, take, length, IfSome};
ghost use Rattle.wl_frames.specs.declared.fault.FrameFault.{FrameFault};
ghost use Rattle.wl_frames.specs.declared.fault.FrameFault.TheVariants.{Memory};
ghost use Rattle.wl_client.specs.Client.{IsReceived, advanced, progress_of};
ghost use Rattle.wl_client.specs.Sending.{IsNext};
ghost use Rattle.wl_client.specs.declared.sending.Output.TheVariants as output;
ghost use Rattle.wlb_client.specs.Pages.{on_client};
ghost use Rattle.wlb_client.specs.Statuses.{IsStatusOfBytes, IsStatusOfOutput, status_of_progress};
ghost use Rattle.wlb_client.specs.declared.links.TheConstants.{WLB_FRAME_BYTES};
ghost use Rattle.wlb_client.specs.declared.status.TheConstants.{WLB_OK, WLB_IDLE, WLB_MEMORY, WLB_NO_HANDLE, WLB_BUSY, WLB_BAD_FRAME, WLB_DROPPED, WLB_SHORT_BUFFER};

use crate::handle::Handle;
use crate::life::{put, taken};
use crate::status::{
    WLB_BAD_FRAME, WLB_DROPPED, WLB_IDLE, WLB_MEMORY, WLB_NO_HANDLE, WLB_OK, WLB_SHORT_BUFFER,
    of_receive,
};
use std::alloc::Global;
use wl_client::{Client, Output, Progress};

/// Number of bytes that a buffer for one frame must have.
pub const WLB_FRAME_BYTES: usize = 65_540;

/// Room that a frame gets at once. Few frames need more.
const USUAL_FRAME_BYTES: usize = 64;

/// Takes bytes that the hub has sent.
fn receive(client: &mut Client, bytes: &[u8]) -> i32
    ensures status { IsStatusOfBytes result }
    ensures ok { result ≡ WLB_OK → IsReceived bytes.now client.old client.new None }
    ensures memory { result ≡ WLB_MEMORY → IsReceived bytes.now client.old client.new (Some Memory) }
    ensures frame { result ≡ WLB_BAD_FRAME → (f : FrameFault) × IsReceived bytes.now client.old client.new (Some f) }
    ensures busy { result ≡ WLB_BUSY → client.new ≡ client.old }
{
    match client.receive(bytes) {
        Ok(()) => WLB_OK,
        Err(fault) => of_receive(fault),
    }
}

/// Handles the oldest arrived frame.
fn advance(client: &mut Client) -> i32
    ensures status { (result ≡ WLB_MEMORY) ⊎ (result ≡ status_of_progress (progress_of client.old)) }
    ensures done { result ≢ WLB_MEMORY → client.new ≡ advanced client.old }
    ensures memory { result ≡ WLB_MEMORY → client.new ≡ client.old }
{
    match client.advance() {
        Ok(Progress::Idle) => WLB_IDLE,
        Ok(Progress::Handled) => WLB_OK,
        Ok(Progress::NotWelcome) => WLB_BAD_FRAME,
        Err(_) => WLB_MEMORY,
    }
}

/// Copies bytes to the front of a buffer that has room for them.
pub(crate) fn copy(from: &[u8], out: &mut [u8])
    requires { length from.now ≤ length out.old }
    ensures { take (length from.now) out.new ≡ from.now }
{
    out[..from.len()].copy_from_slice(from);
}

/// Writes the oldest frame for the hub.
fn next_output(client: &mut Client, alloc: Global, out: &mut [u8], written: &mut usize) -> i32
    ensures status { IsStatusOfOutput result }
    ensures sent { result ≡ WLB_OK → IsNext client.old output.Sent [] (take written.new out.new) client.new }
    ensures idle { result ≡ WLB_IDLE → IsNext client.old output.Idle [] [] client.new }
    ensures skipped { result ≡ WLB_DROPPED → IsNext client.old output.Skipped [] [] client.new }
    ensures memory { result ≡ WLB_MEMORY → client.new ≡ client.old }
    ensures short { result ≡ WLB_SHORT_BUFFER → (client.new ≡ client.old) × (length out.old < WLB_FRAME_BYTES) }
    ensures unwritten { result ≢ WLB_OK → (out.new ≡ out.old) × (written.new ≡ written.old) }
{
    if out.len() < WLB_FRAME_BYTES {
        return WLB_SHORT_BUFFER;
    }
    let mut bytes = Vec::new(alloc);
    if bytes.reserve(USUAL_FRAME_BYTES).is_err() {
        return WLB_MEMORY;
    }
    match client.next_output(&mut bytes) {
        Ok(Output::Idle) => WLB_IDLE,
        Ok(Output::Sent) => {
            copy(&bytes, out);
            *written = bytes.len();
            WLB_OK
        }
        Ok(Output::Skipped) => WLB_DROPPED,
        Err(_) => WLB_MEMORY,
    }
}

/// Takes bytes that the hub has sent. `wlb_client_advance` handles the frames that they complete.
#[unsafe(no_mangle)]
pub extern "C" fn wlb_client_receive(handle: &mut Handle, alloc: Global, bytes: &[u8]) -> i32
    ensures empty { handle.old.value ≡ None → result ≡ WLB_NO_HANDLE }
    ensures kept { is_some handle.new.value ≡ is_some handle.old.value }
    ensures status { IfSome handle.old.value (λ p. IsStatusOfBytes result) }
    ensures ok { result ≡ WLB_OK → IfSome handle.old.value (λ old. IfSome handle.new.value (λ new.
        IsReceived bytes.now old.client new.client None)) }
    ensures memory { result ≡ WLB_MEMORY → IfSome handle.old.value (λ old. IfSome handle.new.value (λ new.
        IsReceived bytes.now old.client new.client (Some Memory))) }
    ensures frame { result ≡ WLB_BAD_FRAME → IfSome handle.old.value (λ old. IfSome handle.new.value (λ new.
        (f : FrameFault) × IsReceived bytes.now old.client new.client (Some f))) }
    ensures busy { result ≡ WLB_BUSY → handle.new.value ≡ handle.old.value }
    ensures last { option_map (λ p. p.last) handle.new.value ≡ option_map (λ p. p.last) handle.old.value }
{
    let Some(mut page) = taken(handle, alloc) else {
        return WLB_NO_HANDLE;
    };
    let status = receive(&mut page.client, bytes);
    put(handle, page);
    status
}

/// Handles the oldest arrived frame.
#[unsafe(no_mangle)]
pub extern "C" fn wlb_client_advance(handle: &mut Handle, alloc: Global) -> i32
    ensures empty { handle.old.value ≡ None → result ≡ WLB_NO_HANDLE }
    ensures kept { is_some handle.new.value ≡ is_some handle.old.value }
    ensures status { IfSome handle.old.value (λ p. (result ≡ WLB_MEMORY) ⊎ (result ≡ status_of_progress (progress_of p.client))) }
    ensures done { result ≢ WLB_MEMORY → handle.new.value ≡ option_map (on_client advanced) handle.old.value }
    ensures memory { result ≡ WLB_MEMORY → handle.new.value ≡ handle.old.value }
{
    let Some(mut page) = taken(handle, alloc) else {
        return WLB_NO_HANDLE;
    };
    let status = advance(&mut page.client);
    put(handle, page);
    status
}

/// Writes the oldest frame for the hub, with its length, and removes it.
#[unsafe(no_mangle)]
pub extern "C" fn wlb_client_next_output(
    handle: &mut Handle,
    alloc: Global,
    out: &mut [u8],
    written: &mut usize,
) -> i32
    ensures empty { handle.old.value ≡ None → result ≡ WLB_NO_HANDLE }
    ensures kept { is_some handle.new.value ≡ is_some handle.old.value }
    ensures status { IfSome handle.old.value (λ p. IsStatusOfOutput result) }
    ensures sent { result ≡ WLB_OK → IfSome handle.old.value (λ old. IfSome handle.new.value (λ new.
        IsNext old.client output.Sent [] (take written.new out.new) new.client)) }
    ensures idle { result ≡ WLB_IDLE → IfSome handle.old.value (λ old. IfSome handle.new.value (λ new.
        IsNext old.client output.Idle [] [] new.client)) }
    ensures skipped { result ≡ WLB_DROPPED → IfSome handle.old.value (λ old. IfSome handle.new.value (λ new.
        IsNext old.client output.Skipped [] [] new.client)) }
    ensures memory { result ≡ WLB_MEMORY → handle.new.value ≡ handle.old.value }
    ensures short { result ≡ WLB_SHORT_BUFFER → (handle.new.value ≡ handle.old.value) × (length out.old < WLB_FRAME_BYTES) }
    ensures unwritten { result ≢ WLB_OK → (out.new ≡ out.old) × (written.new ≡ written.old) }
    ensures last { option_map (λ p. p.last) handle.new.value ≡ option_map (λ p. p.last) handle.old.value }
{
    let Some(mut page) = taken(handle, alloc) else {
        return WLB_NO_HANDLE;
    };
    let status = next_output(&mut page.client, alloc, out, written);
    put(handle, page);
    status
}
