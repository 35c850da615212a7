//! Table of the tabs' locks. Each tab has a row from its opening on.

ghost use Rattle.std.specs.Prelude.{◌≡◌, ◌&&◌, ℕ, length, true, is_some, Some, None, IfOk, OnOk, OnErr, if◌then◌else◌};
ghost use Rattle.wl_draft.specs.Refusals.{RefusesBy};
ghost use Rattle.wl_draft.specs.Tables.{find, put};
ghost use Rattle.wl_agent.specs.Tab.{asked, queried, aborted, released, ask_refusal, query_refusal, status_of, is_asked};
ghost use Rattle.wl_agent.specs.Tokens.{is_pending, is_holding};
ghost use Rattle.wl_agent.specs.Delivery.{delivery};
ghost use Rattle.wl_tab.specs.Tabs.{tab_in, told};
ghost use Rattle.wl_tab.specs.Arrivals.{arrival};
ghost use Rattle.wl_tab.specs.TabTokens.{abortion};

use crate::locks::{AbortResult, TabLocks};
use std::alloc::AllocError;
use std::collections::BTreeMap;
use wl_agent::AgentFault;
use wl_draft::{Mode, Name};
use wl_grammar::Frame;
use wl_world_messages::Effect;

/// Puts a tab's row into the table. Fails if out of memory.
pub fn put_row<T: Drop>(rows: &mut BTreeMap<u16, T>, tab: u16, row: T) -> Result<(), AllocError>
    ensures ok { OnOk result (rows.new.entries ≡ put tab row rows.old.entries) }
    ensures err { OnErr result (rows.new.entries ≡ rows.old.entries) }
{
    rows.insert(tab, row)?;
    Ok(())
}

/// Issues a tab's request, or its probe if `if_available` is set. Returns the command's number.
pub fn ask_at(
    tabs: &mut BTreeMap<u16, TabLocks>,
    tab: u16,
    mode: Mode,
    if_available: bool,
    name: &Name,
) -> Result<u32, AgentFault>
    requires there { is_some (find tabs.old.entries tab) ≡ true }
    ensures ok { let a = tab_in tab (find tabs.old.entries tab) in
        OnOk result (tabs.new.entries ≡ put tab (asked mode if_available name.now a) tabs.old.entries) }
    ensures number { IfOk result (λ n. n ≡ length (tab_in tab (find tabs.old.entries tab)).issued) }
    ensures refused { RefusesBy result
        (ask_refusal (tab_in tab (find tabs.old.entries tab)) name.now) AgentFault.Memory }
    ensures err { OnErr result (tabs.new.entries ≡ tabs.old.entries) }
{
    let Some(locks) = tabs.get_mut(&tab) else {
        unreachable!()
    };
    ask(locks, mode, if_available, name)
}

fn ask(locks: &mut TabLocks, mode: Mode, if_available: bool, name: &Name) -> Result<u32, AgentFault>
    ensures ok { OnOk result (locks.new ≡ asked mode if_available name.now locks.old) }
    ensures number { IfOk result (λ n. n ≡ length locks.old.issued) }
    ensures refused { RefusesBy result (ask_refusal locks.old name.now) AgentFault.Memory }
    ensures err { OnErr result (locks.new ≡ locks.old) }
{
    if if_available {
        locks.probe(name, mode)
    } else {
        locks.request(name, mode)
    }
}

/// Issues a tab's query for a snapshot. Returns the command's number.
pub fn query_at(tabs: &mut BTreeMap<u16, TabLocks>, tab: u16) -> Result<u32, AgentFault>
    requires there { is_some (find tabs.old.entries tab) ≡ true }
    ensures ok { let a = tab_in tab (find tabs.old.entries tab) in
        OnOk result (tabs.new.entries ≡ put tab (queried a) tabs.old.entries) }
    ensures number { IfOk result (λ n. n ≡ length (tab_in tab (find tabs.old.entries tab)).issued) }
    ensures refused { RefusesBy result
        (query_refusal (tab_in tab (find tabs.old.entries tab))) AgentFault.Memory }
    ensures err { OnErr result (tabs.new.entries ≡ tabs.old.entries) }
{
    let Some(locks) = tabs.get_mut(&tab) else {
        unreachable!()
    };
    locks.query()
}

/// Aborts a tab's request.
pub fn abort_at(tabs: &mut BTreeMap<u16, TabLocks>, tab: u16, number: u32) -> AbortResult
    requires there { is_some (find tabs.old.entries tab) ≡ true }
    ensures said { result ≡ abortion number (tab_in tab (find tabs.old.entries tab)) }
    ensures tabs { let a = tab_in tab (find tabs.old.entries tab) in
        tabs.new.entries ≡ (if is_pending a number && is_asked (status_of a number)
        then put tab (aborted number a) tabs.old.entries else tabs.old.entries) }
{
    let Some(locks) = tabs.get_mut(&tab) else {
        unreachable!()
    };
    locks.abort(number)
}

/// Releases a tab's lock. Returns the number of the release, or `None` if the lock is not held.
pub fn release_at(tabs: &mut BTreeMap<u16, TabLocks>, tab: u16, number: u32) -> Option<u32>
    requires there { is_some (find tabs.old.entries tab) ≡ true }
    ensures next { let a = tab_in tab (find tabs.old.entries tab) in result
        ≡ (if is_holding a number then Some (length a.issued) else None) }
    ensures tabs { let a = tab_in tab (find tabs.old.entries tab) in
        tabs.new.entries ≡ (if is_holding a number
        then put tab (released number a) tabs.old.entries else tabs.old.entries) }
{
    let Some(locks) = tabs.get_mut(&tab) else {
        unreachable!()
    };
    locks.release(number)
}

/// Delivers a frame to a tab and returns the reply. Fails if out of memory.
pub fn deliver_at(
    tabs: &mut BTreeMap<u16, TabLocks>,
    tab: u16,
    frame: &Frame,
) -> Result<Effect, AllocError>
    requires there { is_some (find tabs.old.entries tab) ≡ true }
    ensures tabs { let a = tab_in tab (find tabs.old.entries tab) in
        OnOk result (tabs.new.entries ≡ put tab (told (delivery frame.now a).0) tabs.old.entries) }
    ensures said { IfOk result (λ said. said ≡ arrival frame.now (tab_in tab (find tabs.old.entries tab))) }
    ensures err { OnErr result (tabs.new.entries ≡ tabs.old.entries) }
    // No row is added or removed.
    ensures rows { (t : ℕ) → is_some (find tabs.new.entries t) ≡ is_some (find tabs.old.entries t) }
{
    let Some(locks) = tabs.get_mut(&tab) else {
        unreachable!()
    };
    locks.deliver(frame)
}
