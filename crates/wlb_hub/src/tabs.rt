//! Openings and deaths of tabs.

ghost use Rattle.std.specs.Prelude.{◌≡◌, ◌≢◌, ◌⊎◌, Some, None, false, true, is_some, option_map, IfSome};
ghost use Rattle.std.specs.Str.{IsUtf8};
ghost use Rattle.wl_origin.specs.Partition.{partition_of, partition_of_pair};
ghost use Rattle.wl_kernel.specs.Kernel.{is_living};
ghost use Rattle.wl_hub.specs.Hub.{page_opened, page_refusal, hub_closed};
ghost use Rattle.wlb_hub.specs.Statuses.{close_status, open_status};
ghost use Rattle.wlb_hub.specs.declared.status.TheConstants.{WLB_OK, WLB_MEMORY, WLB_NO_HANDLE, WLB_BAD_TEXT};

use crate::handle::Handle;
use crate::life::{put, taken};
use crate::status::{WLB_BAD_TEXT, WLB_NO_HANDLE, WLB_OK, of_close, of_open};
use std::alloc::Global;
use wl_hub::Hub;

/// Opens a tab of a top-level page.
fn open(hub: &mut Hub, tab: u16, own: &[u8]) -> i32
    ensures status { ((result ≡ WLB_BAD_TEXT) × ¬ (IsUtf8 own.now)) ⊎ (result ≡ WLB_MEMORY)
        ⊎ (result ≡ open_status (page_refusal tab (partition_of own.now) hub.old)) }
    ensures text { ¬ (IsUtf8 own.now) → result ≡ WLB_BAD_TEXT }
    ensures ok { result ≡ WLB_OK → hub.new ≡ page_opened tab (partition_of own.now) false hub.old }
    ensures refused { result ≢ WLB_OK → hub.new ≡ hub.old }
{
    let Ok(own) = std::str::from_utf8(own) else {
        return WLB_BAD_TEXT;
    };
    match hub.open(tab, own) {
        Ok(()) => WLB_OK,
        Err(refusal) => of_open(refusal),
    }
}

/// Opens a tab of a page under another top-level page.
fn open_pair(hub: &mut Hub, tab: u16, top: &[u8], own: &[u8]) -> i32
    ensures status { ((result ≡ WLB_BAD_TEXT) × ¬ (IsUtf8 top.now × IsUtf8 own.now)) ⊎ (result ≡ WLB_MEMORY)
        ⊎ (result ≡ open_status (page_refusal tab (partition_of_pair top.now own.now) hub.old)) }
    ensures text { ¬ (IsUtf8 top.now × IsUtf8 own.now) → result ≡ WLB_BAD_TEXT }
    ensures ok { result ≡ WLB_OK → hub.new ≡ page_opened tab (partition_of_pair top.now own.now) true hub.old }
    ensures refused { result ≢ WLB_OK → hub.new ≡ hub.old }
{
    let Ok(top) = std::str::from_utf8(top) else {
        return WLB_BAD_TEXT;
    };
    let Ok(own) = std::str::from_utf8(own) else {
        return WLB_BAD_TEXT;
    };
    match hub.open_pair(tab, top, own) {
        Ok(()) => WLB_OK,
        Err(refusal) => of_open(refusal),
    }
}

/// Closes a tab.
fn close(hub: &mut Hub, tab: u16) -> i32
    ensures status { (result ≡ WLB_MEMORY) ⊎ (result ≡ close_status tab hub.old) }
    ensures ok { result ≡ WLB_OK → hub.new ≡ hub_closed tab hub.old }
    ensures refused { result ≢ WLB_OK → hub.new ≡ hub.old }
{
    match hub.close(tab) {
        Ok(()) => WLB_OK,
        Err(fault) => of_close(fault),
    }
}

/// Opens a tab of a top-level page, whose URL is `own`.
#[unsafe(no_mangle)]
pub extern "C" fn wlb_hub_open(handle: &mut Handle, alloc: Global, tab: u16, own: &[u8]) -> i32
    ensures empty { handle.old.value ≡ None → result ≡ WLB_NO_HANDLE }
    ensures kept { is_some handle.new.value ≡ is_some handle.old.value }
    ensures status { IfSome handle.old.value (λ h. ((result ≡ WLB_BAD_TEXT) × ¬ (IsUtf8 own.now)) ⊎ (result ≡ WLB_MEMORY)
        ⊎ (result ≡ open_status (page_refusal tab (partition_of own.now) h))) }
    ensures text { is_some handle.old.value ≡ true → ¬ (IsUtf8 own.now) → result ≡ WLB_BAD_TEXT }
    ensures ok { result ≡ WLB_OK → handle.new.value ≡ option_map (page_opened tab (partition_of own.now) false) handle.old.value }
    ensures refused { result ≢ WLB_OK → handle.new.value ≡ handle.old.value }
{
    let Some(mut hub) = taken(handle, alloc) else {
        return WLB_NO_HANDLE;
    };
    let status = open(&mut hub, tab, own);
    put(handle, hub);
    status
}

/// Opens a tab of a page with the URL `own` under a top-level page with the URL `top`.
#[unsafe(no_mangle)]
pub extern "C" fn wlb_hub_open_pair(
    handle: &mut Handle,
    alloc: Global,
    tab: u16,
    top: &[u8],
    own: &[u8],
) -> i32
    ensures empty { handle.old.value ≡ None → result ≡ WLB_NO_HANDLE }
    ensures kept { is_some handle.new.value ≡ is_some handle.old.value }
    ensures status { IfSome handle.old.value (λ h. ((result ≡ WLB_BAD_TEXT) × ¬ (IsUtf8 top.now × IsUtf8 own.now)) ⊎ (result ≡ WLB_MEMORY)
        ⊎ (result ≡ open_status (page_refusal tab (partition_of_pair top.now own.now) h))) }
    ensures text { is_some handle.old.value ≡ true → ¬ (IsUtf8 top.now × IsUtf8 own.now) → result ≡ WLB_BAD_TEXT }
    ensures ok { result ≡ WLB_OK → handle.new.value ≡ option_map (page_opened tab (partition_of_pair top.now own.now) true) handle.old.value }
    ensures refused { result ≢ WLB_OK → handle.new.value ≡ handle.old.value }
{
    let Some(mut hub) = taken(handle, alloc) else {
        return WLB_NO_HANDLE;
    };
    let status = open_pair(&mut hub, tab, top, own);
    put(handle, hub);
    status
}

/// Closes a tab: it is dead from now on.
#[unsafe(no_mangle)]
pub extern "C" fn wlb_hub_close(handle: &mut Handle, alloc: Global, tab: u16) -> i32
    ensures empty { handle.old.value ≡ None → result ≡ WLB_NO_HANDLE }
    ensures kept { is_some handle.new.value ≡ is_some handle.old.value }
    ensures status { IfSome handle.old.value (λ h. (result ≡ WLB_MEMORY) ⊎ (result ≡ close_status tab h)) }
    ensures ok { result ≡ WLB_OK → handle.new.value ≡ option_map (hub_closed tab) handle.old.value }
    ensures refused { result ≢ WLB_OK → handle.new.value ≡ handle.old.value }
{
    let Some(mut hub) = taken(handle, alloc) else {
        return WLB_NO_HANDLE;
    };
    let status = close(&mut hub, tab);
    put(handle, hub);
    status
}

/// Returns whether the tab was opened and has not been closed. Returns `false` if the handle holds
/// nothing.
#[unsafe(no_mangle)]
pub extern "C" fn wlb_hub_is_living(handle: &mut Handle, alloc: Global, tab: u16) -> bool
    ensures empty { handle.old.value ≡ None → result ≡ false }
    ensures living { IfSome handle.old.value (λ h. result ≡ is_living h.supervised.kernel tab) }
    ensures same { handle.new.value ≡ handle.old.value }
{
    let Some(hub) = taken(handle, alloc) else {
        return false;
    };
    let is_living = hub.is_living(tab);
    put(handle, hub);
    is_living
}
