//! Commands of the tab.

ghost use Rattle.std.specs.Prelude.{◌≡◌, ◌≢◌, ◌⊎◌, ◌++◌, [], ◌∷◌, true, false, Some, None, is_some, option_map, length, IfSome, IfOk, IfErr, Err};
ghost use Rattle.std.specs.Str.{IsUtf8};
ghost use Rattle.wl_agent.specs.Tab.{asked, queried, ask_refusal, query_refusal};
ghost use Rattle.wl_agent.specs.Tokens.{is_holding};
ghost use Rattle.wl_tab.specs.TabTokens.{abortion};
ghost use Rattle.wl_tab.specs.declared.locks.AbortResult.TheVariants as aborts;
ghost use Rattle.wl_client.specs.Client.{call_refusal, after_command, after_abort, after_release};
ghost use Rattle.wl_client.specs.declared.client.Unsent.TheVariants as unsent_with;
ghost use Rattle.wlb_client.specs.Pages.{mode_of, on_client};
ghost use Rattle.wlb_client.specs.Statuses.{abort_status, call_status, release_status};
ghost use Rattle.wlb_client.specs.declared.status.TheConstants.{WLB_OK, WLB_MEMORY, WLB_NO_HANDLE, WLB_BAD_TEXT, WLB_HELD, WLB_NOTHING};

use crate::handle::Handle;
use crate::life::{put, taken};
use crate::status::{
    WLB_BAD_TEXT, WLB_HELD, WLB_MEMORY, WLB_NO_HANDLE, WLB_NOTHING, WLB_OK, of_call,
};
use std::alloc::Global;
use wl_client::Client;
use wl_draft::{Mode, Name};
use wl_tab::AbortResult;

/// Returns the mode of a lock.
fn mode_of(shared: bool) -> Mode
    ensures { result ≡ mode_of shared }
{
    if shared {
        Mode::Shared
    } else {
        Mode::Exclusive
    }
}

/// Converts a text to a name. Fails with a status.
pub(crate) fn name_of(alloc: Global, bytes: &[u8]) -> Result<Name, i32>
    ensures ok { IfOk result (λ name. name ≡ bytes.now) }
    ensures err { IfErr result (λ status. ((status ≡ WLB_BAD_TEXT) × ¬ (IsUtf8 bytes.now)) ⊎ (status ≡ WLB_MEMORY)) }
    ensures text { ¬ (IsUtf8 bytes.now) → result ≡ Err WLB_BAD_TEXT }
{
    let Ok(text) = std::str::from_utf8(bytes) else {
        return Err(WLB_BAD_TEXT);
    };
    match text.to_string(alloc) {
        Ok(text) => Ok(Name::new(text)),
        Err(_) => Err(WLB_MEMORY),
    }
}

/// Requests a lock.
fn request(client: &mut Client, alloc: Global, name: &[u8], shared: bool, number: &mut u32) -> i32
    ensures status { ((result ≡ WLB_BAD_TEXT) × ¬ (IsUtf8 name.now)) ⊎ (result ≡ WLB_MEMORY)
        ⊎ (result ≡ call_status (call_refusal (ask_refusal client.old.locks name.now) client.old)) }
    ensures text { ¬ (IsUtf8 name.now) → result ≡ WLB_BAD_TEXT }
    ensures ok { result ≡ WLB_OK → client.new ≡ after_command (asked (mode_of shared) false name.now) client.old }
    ensures number { result ≡ WLB_OK → number.new ≡ length client.old.locks.issued }
    ensures refused { result ≢ WLB_OK → client.new ≡ client.old }
    ensures unwritten { result ≢ WLB_OK → number.new ≡ number.old }
{
    let name = match name_of(alloc, name) {
        Ok(name) => name,
        Err(status) => return status,
    };
    match client.request(&name, mode_of(shared)) {
        Ok(issued) => {
            *number = issued;
            WLB_OK
        }
        Err(fault) => of_call(fault),
    }
}

/// Requests a lock with `ifAvailable`.
fn probe(client: &mut Client, alloc: Global, name: &[u8], shared: bool, number: &mut u32) -> i32
    ensures status { ((result ≡ WLB_BAD_TEXT) × ¬ (IsUtf8 name.now)) ⊎ (result ≡ WLB_MEMORY)
        ⊎ (result ≡ call_status (call_refusal (ask_refusal client.old.locks name.now) client.old)) }
    ensures text { ¬ (IsUtf8 name.now) → result ≡ WLB_BAD_TEXT }
    ensures ok { result ≡ WLB_OK → client.new ≡ after_command (asked (mode_of shared) true name.now) client.old }
    ensures number { result ≡ WLB_OK → number.new ≡ length client.old.locks.issued }
    ensures refused { result ≢ WLB_OK → client.new ≡ client.old }
    ensures unwritten { result ≢ WLB_OK → number.new ≡ number.old }
{
    let name = match name_of(alloc, name) {
        Ok(name) => name,
        Err(status) => return status,
    };
    match client.probe(&name, mode_of(shared)) {
        Ok(issued) => {
            *number = issued;
            WLB_OK
        }
        Err(fault) => of_call(fault),
    }
}

/// Queries the locks of the tab's partition.
fn query(client: &mut Client, number: &mut u32) -> i32
    ensures status { (result ≡ WLB_MEMORY) ⊎ (result ≡ call_status (call_refusal (query_refusal client.old.locks) client.old)) }
    ensures ok { result ≡ WLB_OK → client.new ≡ after_command queried client.old }
    ensures number { result ≡ WLB_OK → number.new ≡ length client.old.locks.issued }
    ensures refused { result ≢ WLB_OK → client.new ≡ client.old }
    ensures unwritten { result ≢ WLB_OK → number.new ≡ number.old }
{
    match client.query() {
        Ok(issued) => {
            *number = issued;
            WLB_OK
        }
        Err(fault) => of_call(fault),
    }
}

/// Aborts a request that is not held.
fn abort(client: &mut Client, number: u32) -> i32
    ensures status { (result ≡ WLB_MEMORY) ⊎ (result ≡ abort_status number client.old) }
    ensures ok { result ≡ WLB_OK → client.new ≡ after_abort number client.old }
    ensures refused { result ≢ WLB_OK → client.new ≡ client.old }
{
    match client.abort(number) {
        Ok(AbortResult::Issued(_)) => WLB_OK,
        Ok(AbortResult::Held) => WLB_HELD,
        Ok(AbortResult::Nothing) => WLB_NOTHING,
        Err(fault) => of_call(fault),
    }
}

/// Releases a held lock.
fn release(client: &mut Client, number: u32) -> i32
    ensures status { (result ≡ WLB_MEMORY) ⊎ (result ≡ release_status number client.old) }
    ensures ok { result ≡ WLB_OK → client.new ≡ after_release number client.old }
    ensures refused { result ≢ WLB_OK → client.new ≡ client.old }
{
    match client.release(number) {
        Ok(Some(_)) => WLB_OK,
        Ok(None) => WLB_NOTHING,
        Err(fault) => of_call(fault),
    }
}

/// Sends the report and all commands that are due again.
fn resend(client: &mut Client) -> i32
    ensures status { (result ≡ WLB_MEMORY) ⊎ (result ≡ call_status (call_refusal None client.old)) }
    ensures ok { result ≡ WLB_OK → client.new ≡ record client.old { unsent = client.old.unsent ++ unsent_with.Resend ∷ [] } }
    ensures refused { result ≢ WLB_OK → client.new ≡ client.old }
{
    match client.resend() {
        Ok(()) => WLB_OK,
        Err(fault) => of_call(fault),
    }
}

/// Requests a lock, and writes the command's number.
#[unsafe(no_mangle)]
pub extern "C" fn wlb_client_request(
    handle: &mut Handle,
    alloc: Global,
    name: &[u8],
    shared: bool,
    number: &mut u32,
) -> i32
    ensures empty { handle.old.value ≡ None → result ≡ WLB_NO_HANDLE }
    ensures kept { is_some handle.new.value ≡ is_some handle.old.value }
    ensures status { IfSome handle.old.value (λ p. ((result ≡ WLB_BAD_TEXT) × ¬ (IsUtf8 name.now)) ⊎ (result ≡ WLB_MEMORY)
        ⊎ (result ≡ call_status (call_refusal (ask_refusal p.client.locks name.now) p.client))) }
    ensures text { is_some handle.old.value ≡ true → ¬ (IsUtf8 name.now) → result ≡ WLB_BAD_TEXT }
    ensures ok { result ≡ WLB_OK → handle.new.value
        ≡ option_map (on_client (after_command (asked (mode_of shared) false name.now))) handle.old.value }
    ensures number { result ≡ WLB_OK → IfSome handle.old.value (λ p. number.new ≡ length p.client.locks.issued) }
    ensures refused { result ≢ WLB_OK → handle.new.value ≡ handle.old.value }
    ensures unwritten { result ≢ WLB_OK → number.new ≡ number.old }
{
    let Some(mut page) = taken(handle, alloc) else {
        return WLB_NO_HANDLE;
    };
    let status = request(&mut page.client, alloc, name, shared, number);
    put(handle, page);
    status
}

/// Requests a lock with `ifAvailable`, and writes the command's number.
#[unsafe(no_mangle)]
pub extern "C" fn wlb_client_probe(
    handle: &mut Handle,
    alloc: Global,
    name: &[u8],
    shared: bool,
    number: &mut u32,
) -> i32
    ensures empty { handle.old.value ≡ None → result ≡ WLB_NO_HANDLE }
    ensures kept { is_some handle.new.value ≡ is_some handle.old.value }
    ensures status { IfSome handle.old.value (λ p. ((result ≡ WLB_BAD_TEXT) × ¬ (IsUtf8 name.now)) ⊎ (result ≡ WLB_MEMORY)
        ⊎ (result ≡ call_status (call_refusal (ask_refusal p.client.locks name.now) p.client))) }
    ensures text { is_some handle.old.value ≡ true → ¬ (IsUtf8 name.now) → result ≡ WLB_BAD_TEXT }
    ensures ok { result ≡ WLB_OK → handle.new.value
        ≡ option_map (on_client (after_command (asked (mode_of shared) true name.now))) handle.old.value }
    ensures number { result ≡ WLB_OK → IfSome handle.old.value (λ p. number.new ≡ length p.client.locks.issued) }
    ensures refused { result ≢ WLB_OK → handle.new.value ≡ handle.old.value }
    ensures unwritten { result ≢ WLB_OK → number.new ≡ number.old }
{
    let Some(mut page) = taken(handle, alloc) else {
        return WLB_NO_HANDLE;
    };
    let status = probe(&mut page.client, alloc, name, shared, number);
    put(handle, page);
    status
}

/// Queries the locks of the tab's partition, and writes the command's number.
#[unsafe(no_mangle)]
pub extern "C" fn wlb_client_query(handle: &mut Handle, alloc: Global, number: &mut u32) -> i32
    ensures empty { handle.old.value ≡ None → result ≡ WLB_NO_HANDLE }
    ensures kept { is_some handle.new.value ≡ is_some handle.old.value }
    ensures status { IfSome handle.old.value (λ p. (result ≡ WLB_MEMORY) ⊎ (result ≡ call_status (call_refusal (query_refusal p.client.locks) p.client))) }
    ensures ok { result ≡ WLB_OK → handle.new.value ≡ option_map (on_client (after_command queried)) handle.old.value }
    ensures number { result ≡ WLB_OK → IfSome handle.old.value (λ p. number.new ≡ length p.client.locks.issued) }
    ensures refused { result ≢ WLB_OK → handle.new.value ≡ handle.old.value }
    ensures unwritten { result ≢ WLB_OK → number.new ≡ number.old }
{
    let Some(mut page) = taken(handle, alloc) else {
        return WLB_NO_HANDLE;
    };
    let status = query(&mut page.client, number);
    put(handle, page);
    status
}

/// Aborts a request that is not held.
#[unsafe(no_mangle)]
pub extern "C" fn wlb_client_abort(handle: &mut Handle, alloc: Global, number: u32) -> i32
    ensures empty { handle.old.value ≡ None → result ≡ WLB_NO_HANDLE }
    ensures kept { is_some handle.new.value ≡ is_some handle.old.value }
    ensures status { IfSome handle.old.value (λ p. (result ≡ WLB_MEMORY) ⊎ (result ≡ abort_status number p.client)) }
    ensures ok { result ≡ WLB_OK → handle.new.value ≡ option_map (on_client (after_abort number)) handle.old.value }
    ensures refused { result ≢ WLB_OK → handle.new.value ≡ handle.old.value }
{
    let Some(mut page) = taken(handle, alloc) else {
        return WLB_NO_HANDLE;
    };
    let status = abort(&mut page.client, number);
    put(handle, page);
    status
}

/// Releases a held lock.
#[unsafe(no_mangle)]
pub extern "C" fn wlb_client_release(handle: &mut Handle, alloc: Global, number: u32) -> i32
    ensures empty { handle.old.value ≡ None → result ≡ WLB_NO_HANDLE }
    ensures kept { is_some handle.new.value ≡ is_some handle.old.value }
    ensures status { IfSome handle.old.value (λ p. (result ≡ WLB_MEMORY) ⊎ (result ≡ release_status number p.client)) }
    ensures ok { result ≡ WLB_OK → handle.new.value ≡ option_map (on_client (after_release number)) handle.old.value }
    ensures refused { result ≢ WLB_OK → handle.new.value ≡ handle.old.value }
{
    let Some(mut page) = taken(handle, alloc) else {
        return WLB_NO_HANDLE;
    };
    let status = release(&mut page.client, number);
    put(handle, page);
    status
}

/// Sends the report, if it is due, and all commands that are due again. Only a link that loses frames
/// needs this call.
#[unsafe(no_mangle)]
pub extern "C" fn wlb_client_resend(handle: &mut Handle, alloc: Global) -> i32
    ensures empty { handle.old.value ≡ None → result ≡ WLB_NO_HANDLE }
    ensures kept { is_some handle.new.value ≡ is_some handle.old.value }
    ensures status { IfSome handle.old.value (λ p. (result ≡ WLB_MEMORY) ⊎ (result ≡ call_status (call_refusal None p.client))) }
    ensures ok { result ≡ WLB_OK → handle.new.value
        ≡ option_map (on_client (λ c. record c { unsent = c.unsent ++ unsent_with.Resend ∷ [] })) handle.old.value }
    ensures refused { result ≢ WLB_OK → handle.new.value ≡ handle.old.value }
{
    let Some(mut page) = taken(handle, alloc) else {
        return WLB_NO_HANDLE;
    };
    let status = resend(&mut page.client);
    put(handle, page);
    status
}
