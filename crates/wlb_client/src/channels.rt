//! Channels of the tab.

ghost use Rattle.std.specs.Prelude.{◌≡◌, ◌≢◌, ◌⊎◌, ◌≤◌, ◌<◌, ℕ, [], None, Some, true, false, is_some, option_map, length, take, IfSome, if◌then◌else◌};
ghost use Rattle.std.specs.Str.{IsUtf8};
ghost use Rattle.wl_broadcast.specs.Channels.{inbox_at, first_of, open_refusal};
ghost use Rattle.wl_tab.specs.TabChannels.{number_refusal, posting_refusal};
ghost use Rattle.wl_tab.specs.declared.channels.ChannelRefusal.TheVariants.{Fault};
ghost use Rattle.wl_client.specs.Client.{after_post, after_close, channel_refusal, closing_refusal};
ghost use Rattle.wlb_client.specs.Pages.{IsCopied, IsWritten, capped, on_client, opens, reads};
ghost use Rattle.wlb_client.specs.Statuses.{channel_status};
ghost use Rattle.wlb_client.specs.declared.status.TheConstants.{WLB_OK, WLB_IDLE, WLB_MEMORY, WLB_NO_HANDLE, WLB_BAD_TEXT, WLB_SHORT_BUFFER};
ghost use Rattle.wlb_client.specs.declared.channels.TheConstants.{WLB_DATA_BYTES};

use crate::commands::name_of;
use crate::handle::Handle;
use crate::life::{put, taken};
use crate::status::{WLB_IDLE, WLB_NO_HANDLE, WLB_OK, WLB_SHORT_BUFFER, of_channel_call};
use std::alloc::Global;
use wl_client::Client;

/// Number of bytes that a buffer for the data of a post must have.
pub const WLB_DATA_BYTES: usize = 16_384;

/// Converts a count or an index. One of more than 32 bits becomes the greatest number.
pub(crate) fn capped(n: usize) -> u32
    ensures { result ≡ capped n }
{
    u32::try_from(n).unwrap_or(u32::MAX)
}

/// Opens a channel.
fn open_channel(client: &mut Client, alloc: Global, name: &[u8], channel: &mut u32) -> i32
    ensures status { ((result ≡ WLB_BAD_TEXT) × ¬ (IsUtf8 name.now)) ⊎ (result ≡ WLB_MEMORY)
        ⊎ (result ≡ channel_status (channel_refusal (option_map Fault (open_refusal name.now client.old.channels)) client.old)) }
    ensures text { ¬ (IsUtf8 name.now) → result ≡ WLB_BAD_TEXT }
    ensures ok { result ≡ WLB_OK → client.new ≡ opens name.now client.old }
    ensures number { result ≡ WLB_OK → channel.new ≡ capped (length client.old.channels.objects) }
    ensures refused { result ≢ WLB_OK → client.new ≡ client.old }
    ensures unwritten { result ≢ WLB_OK → channel.new ≡ channel.old }
{
    let name = match name_of(alloc, name) {
        Ok(name) => name,
        Err(status) => return status,
    };
    match client.open_channel(&name) {
        Ok(opened) => {
            *channel = capped(opened);
            WLB_OK
        }
        Err(fault) => of_channel_call(fault),
    }
}

/// Posts data on a channel.
fn post(client: &mut Client, channel: u32, data: &[u8]) -> i32
    ensures status { (result ≡ WLB_MEMORY)
        ⊎ (result ≡ channel_status (channel_refusal (posting_refusal channel data.now client.old.channels) client.old)) }
    ensures ok { result ≡ WLB_OK → client.new ≡ after_post channel data.now client.old }
    ensures refused { result ≢ WLB_OK → client.new ≡ client.old }
{
    match client.post(channel as usize, data) {
        Ok(()) => WLB_OK,
        Err(fault) => of_channel_call(fault),
    }
}

/// Closes a channel.
fn close_channel(client: &mut Client, channel: u32) -> i32
    ensures status { result ≡ channel_status (channel_refusal (closing_refusal channel client.old.channels) client.old) }
    ensures new { client.new ≡ after_close channel client.old }
{
    match client.close_channel(channel as usize) {
        Ok(()) => WLB_OK,
        Err(fault) => of_channel_call(fault),
    }
}

/// Copies bytes to the front of a buffer, as many as it has room for, and returns their number.
fn copied(from: &[u8], out: &mut [u8]) -> usize
    ensures { IsCopied from.now out.new result }
{
    let n = from.len().min(out.len());
    out[..n].copy_from_slice(&from[..n]);
    n
}

/// Takes the oldest post out of a channel's inbox.
fn read(
    client: &mut Client,
    channel: u32,
    source: &mut u16,
    data: &mut [u8],
    written: &mut usize,
) -> i32
    ensures status { (result ≡ WLB_SHORT_BUFFER) ⊎ (result ≡ WLB_IDLE)
        ⊎ (result ≡ channel_status (channel_refusal (number_refusal channel client.old.channels) client.old)) }
    ensures ok { result ≡ WLB_OK → client.new ≡ reads channel client.old }
    ensures post { result ≡ WLB_OK → IsWritten (first_of (inbox_at client.old.channels.objects channel)) source.new data.new written.new }
    ensures idle { result ≡ WLB_IDLE → first_of (inbox_at client.old.channels.objects channel) ≡ None }
    ensures idle_state { result ≡ WLB_IDLE → client.new ≡ reads channel client.old }
    ensures refused { result ≢ WLB_OK → result ≢ WLB_IDLE → client.new ≡ client.old }
    ensures short { result ≡ WLB_SHORT_BUFFER → length data.old < WLB_DATA_BYTES }
    ensures unwritten { result ≢ WLB_OK → (source.new ≡ source.old) × (data.new ≡ data.old) × (written.new ≡ written.old) }
{
    if data.len() < WLB_DATA_BYTES {
        return WLB_SHORT_BUFFER;
    }
    match client.read(channel as usize) {
        Ok(Some(letter)) => {
            *source = letter.source;
            *written = copied(letter.bytes.as_slice(), data);
            WLB_OK
        }
        Ok(None) => WLB_IDLE,
        Err(fault) => of_channel_call(fault),
    }
}

/// Opens a channel, and writes its number.
#[unsafe(no_mangle)]
pub extern "C" fn wlb_client_open_channel(
    handle: &mut Handle,
    alloc: Global,
    name: &[u8],
    channel: &mut u32,
) -> i32
    ensures empty { handle.old.value ≡ None → result ≡ WLB_NO_HANDLE }
    ensures kept { is_some handle.new.value ≡ is_some handle.old.value }
    ensures status { IfSome handle.old.value (λ p. ((result ≡ WLB_BAD_TEXT) × ¬ (IsUtf8 name.now)) ⊎ (result ≡ WLB_MEMORY)
        ⊎ (result ≡ channel_status (channel_refusal (option_map Fault (open_refusal name.now p.client.channels)) p.client))) }
    ensures text { is_some handle.old.value ≡ true → ¬ (IsUtf8 name.now) → result ≡ WLB_BAD_TEXT }
    ensures ok { result ≡ WLB_OK → handle.new.value ≡ option_map (on_client (opens name.now)) handle.old.value }
    ensures number { result ≡ WLB_OK → IfSome handle.old.value (λ p. channel.new ≡ capped (length p.client.channels.objects)) }
    ensures refused { result ≢ WLB_OK → handle.new.value ≡ handle.old.value }
    ensures unwritten { result ≢ WLB_OK → channel.new ≡ channel.old }
{
    let Some(mut page) = taken(handle, alloc) else {
        return WLB_NO_HANDLE;
    };
    let status = open_channel(&mut page.client, alloc, name, channel);
    put(handle, page);
    status
}

/// Posts data on a channel. The tab's other open channels of the name take the post at once.
#[unsafe(no_mangle)]
pub extern "C" fn wlb_client_post(
    handle: &mut Handle,
    alloc: Global,
    channel: u32,
    data: &[u8],
) -> i32
    ensures empty { handle.old.value ≡ None → result ≡ WLB_NO_HANDLE }
    ensures kept { is_some handle.new.value ≡ is_some handle.old.value }
    ensures status { IfSome handle.old.value (λ p. (result ≡ WLB_MEMORY)
        ⊎ (result ≡ channel_status (channel_refusal (posting_refusal channel data.now p.client.channels) p.client))) }
    ensures ok { result ≡ WLB_OK → handle.new.value ≡ option_map (on_client (after_post channel data.now)) handle.old.value }
    ensures refused { result ≢ WLB_OK → handle.new.value ≡ handle.old.value }
{
    let Some(mut page) = taken(handle, alloc) else {
        return WLB_NO_HANDLE;
    };
    let status = post(&mut page.client, channel, data);
    put(handle, page);
    status
}

/// Takes the oldest post out of a channel's inbox, and writes its source, its data and the length of the
/// data.
#[unsafe(no_mangle)]
pub extern "C" fn wlb_client_read(
    handle: &mut Handle,
    alloc: Global,
    channel: u32,
    source: &mut u16,
    data: &mut [u8],
    written: &mut usize,
) -> i32
    ensures empty { handle.old.value ≡ None → result ≡ WLB_NO_HANDLE }
    ensures kept { is_some handle.new.value ≡ is_some handle.old.value }
    ensures status { IfSome handle.old.value (λ p. (result ≡ WLB_SHORT_BUFFER) ⊎ (result ≡ WLB_IDLE)
        ⊎ (result ≡ channel_status (channel_refusal (number_refusal channel p.client.channels) p.client))) }
    ensures ok { result ≡ WLB_OK → handle.new.value ≡ option_map (on_client (reads channel)) handle.old.value }
    ensures post { result ≡ WLB_OK → IfSome handle.old.value (λ p.
        IsWritten (first_of (inbox_at p.client.channels.objects channel)) source.new data.new written.new) }
    ensures idle { result ≡ WLB_IDLE → IfSome handle.old.value (λ p. first_of (inbox_at p.client.channels.objects channel) ≡ None) }
    ensures idle_state { result ≡ WLB_IDLE → handle.new.value ≡ option_map (on_client (reads channel)) handle.old.value }
    ensures refused { result ≢ WLB_OK → result ≢ WLB_IDLE → handle.new.value ≡ handle.old.value }
    ensures short { result ≡ WLB_SHORT_BUFFER → length data.old < WLB_DATA_BYTES }
    ensures unwritten { result ≢ WLB_OK → (source.new ≡ source.old) × (data.new ≡ data.old) × (written.new ≡ written.old) }
{
    let Some(mut page) = taken(handle, alloc) else {
        return WLB_NO_HANDLE;
    };
    let status = read(&mut page.client, channel, source, data, written);
    put(handle, page);
    status
}

/// Closes a channel. A closed channel stays closed.
#[unsafe(no_mangle)]
pub extern "C" fn wlb_client_close_channel(handle: &mut Handle, alloc: Global, channel: u32) -> i32
    ensures empty { handle.old.value ≡ None → result ≡ WLB_NO_HANDLE }
    ensures kept { is_some handle.new.value ≡ is_some handle.old.value }
    ensures status { IfSome handle.old.value (λ p.
        result ≡ channel_status (channel_refusal (closing_refusal channel p.client.channels) p.client)) }
    ensures new { handle.new.value ≡ option_map (on_client (after_close channel)) handle.old.value }
{
    let Some(mut page) = taken(handle, alloc) else {
        return WLB_NO_HANDLE;
    };
    let status = close_channel(&mut page.client, channel);
    put(handle, page);
    status
}
