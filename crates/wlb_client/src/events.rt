//! Events, and the items of the last event.

ghost use Rattle.std.specs.Prelude.{◌≡◌, ◌≢◌, ◌⊎◌, ◌≤◌, ◌+◌, [], None, Some, true, false, is_some, option_map, length, take, slice_get, IfSome};
ghost use Rattle.wlb_client.specs.Pages.{IsTaken, IsEntryWritten, entry_of, mode_of, happening_of, happening_of_effect, happening_of_hearing, happens, item_at, entry_at, ended_number};
ghost use Rattle.wlb_client.specs.Statuses.{status_of_events, status_of_search};
ghost use Rattle.wlb_client.specs.declared.status.TheConstants.{WLB_OK, WLB_NO_HANDLE, WLB_SHORT_BUFFER};
ghost use Rattle.wlb_client.specs.declared.events.TheConstants.{WLB_ANSWERED};

use crate::channels::capped;
use crate::handle::Handle;
use crate::life::{put, taken};
use crate::links::copy;
use crate::page::Page;
use crate::status::{WLB_IDLE, WLB_NO_HANDLE, WLB_NOTHING, WLB_OK, WLB_SHORT_BUFFER};
use std::alloc::Global;
use wl_agent::{LockInfo, Snapshot};
use wl_broadcast::Hearing;
use wl_client::Event;
use wl_draft::Mode;
use wl_world_messages::{Effect, Ended};

/// Number of bytes that a buffer for a name must have.
pub const WLB_NAME_BYTES: usize = 255;

/// The welcome has arrived. The number is the tab.
pub const WLB_WELCOMED: u32 = 1;
/// The tab has entered a generation. The number is the generation, and the items are the numbers that ended.
pub const WLB_ENTERED: u32 = 2;
/// The tab holds the lock with the number.
pub const WLB_GRANTED: u32 = 3;
/// The request with the number waits.
pub const WLB_WAITING: u32 = 4;
/// The probe with the number was refused.
pub const WLB_NOT_AVAILABLE: u32 = 5;
/// The query with the number is lost.
pub const WLB_LOST: u32 = 6;
/// The query with this number is answered. The count is the number of entries in its snapshot.
pub const WLB_ANSWERED: u32 = 7;
/// A post can be read. The items are the channels.
pub const WLB_POSTED: u32 = 8;
/// A frame has changed nothing that the page can see.
pub const WLB_OTHER: u32 = 9;

/// An event as a C program receives it.
#[repr(C)]
#[derive(Clone, Copy)]
pub struct Happening {
    pub kind: u32,
    pub number: u32,
    /// Number of items or entries.
    pub count: u32,
}

/// An entry of a snapshot as a C program receives it, without its name.
#[repr(C)]
#[derive(Clone, Copy)]
pub struct Entry {
    pub tab: u16,
    pub shared: bool,
    pub held: bool,
}

/// Creates an event from its parts.
fn happens(kind: u32, number: u32, count: usize) -> Happening
    ensures { result ≡ happens kind number count }
{
    Happening {
        kind,
        number,
        count: capped(count),
    }
}

/// Converts the answer to a query.
fn happening_of_snapshot(number: u32, snapshot: &Snapshot) -> Happening
    ensures { result ≡ happens WLB_ANSWERED number (length snapshot.now.held + length snapshot.now.pending) }
{
    let held = snapshot.held.as_slice().len();
    happens(
        WLB_ANSWERED,
        number,
        held.saturating_add(snapshot.pending.as_slice().len()),
    )
}

/// Converts an effect on the tab's locks.
fn happening_of_effect(effect: &Effect) -> Happening
    ensures { result ≡ happening_of_effect effect.now }
{
    match effect {
        Effect::Entered { generation, ended } => {
            happens(WLB_ENTERED, *generation, ended.as_slice().len())
        }
        Effect::Granted(number) => happens(WLB_GRANTED, *number, 0),
        Effect::Waiting(number) => happens(WLB_WAITING, *number, 0),
        Effect::Null(number) => happens(WLB_NOT_AVAILABLE, *number, 0),
        Effect::Lost(number) => happens(WLB_LOST, *number, 0),
        Effect::Whole { number, snapshot } => happening_of_snapshot(*number, snapshot),
        _ => happens(WLB_OTHER, 0, 0),
    }
}

/// Converts the arrival of a post.
fn happening_of_hearing(hearing: &Hearing) -> Happening
    ensures { result ≡ happening_of_hearing hearing.now }
{
    match hearing {
        Hearing::New { took, .. } => happens(WLB_POSTED, 0, took.as_slice().len()),
        Hearing::Old => happens(WLB_OTHER, 0, 0),
    }
}

/// Converts an event.
fn happening_of(event: &Event) -> Happening
    ensures { result ≡ happening_of event.now }
{
    match event {
        Event::Welcomed(tab) => happens(WLB_WELCOMED, u32::from(*tab), 0),
        Event::Told(effect) => happening_of_effect(effect),
        Event::Heard(hearing) => happening_of_hearing(hearing),
    }
}

/// Takes the oldest event. It becomes the last one.
fn next_event(page: &mut Page, happening: &mut Happening) -> i32
    ensures status { result ≡ status_of_events page.old.client.events }
    ensures ok { result ≡ WLB_OK → IsTaken page.old page.new happening.new }
    ensures same { result ≢ WLB_OK → page.new ≡ page.old }
    ensures unwritten { result ≢ WLB_OK → happening.new ≡ happening.old }
{
    let Some(event) = page.client.next_event() else {
        return WLB_IDLE;
    };
    *happening = happening_of(&event);
    page.last = Some(event);
    WLB_OK
}

/// Returns the number that ended.
fn ended_number(ended: Ended) -> u32
    ensures { result ≡ ended_number ended }
{
    match ended {
        Ended::Null(number) | Ended::Lost(number) => number,
    }
}

/// Returns an item of an event.
fn item_at(index: usize, event: &Option<Event>) -> Option<u32>
    ensures { result ≡ item_at index event.now }
{
    match event {
        Some(Event::Told(Effect::Entered { ended, .. })) => {
            let ended = ended.as_slice().get(index)?;
            Some(ended_number(*ended))
        }
        Some(Event::Heard(Hearing::New { took, .. })) => {
            let channel = took.as_slice().get(index)?;
            Some(capped(*channel))
        }
        _ => None,
    }
}

/// Returns an entry of a snapshot, and whether it is held. Held locks come first.
fn entry_of(index: usize, snapshot: &Snapshot) -> Option<(&LockInfo, bool)>
    ensures { option_map (λ r. (r.0.now, r.1)) result ≡ entry_of index snapshot.now }
{
    let held = snapshot.held.as_slice();
    if index < held.len() {
        let lock = held.get(index)?;
        return Some((lock, true));
    }
    let lock = snapshot.pending.as_slice().get(index - held.len())?;
    Some((lock, false))
}

/// Returns an entry of an event, and whether it is held.
fn entry_at(index: usize, event: &Option<Event>) -> Option<(&LockInfo, bool)>
    ensures { option_map (λ r. (r.0.now, r.1)) result ≡ entry_at index event.now }
{
    match event {
        Some(Event::Told(Effect::Whole { snapshot, .. })) => entry_of(index, snapshot),
        _ => None,
    }
}

/// Converts a lock.
fn entry_from(lock: &LockInfo, held: bool) -> Entry
    ensures tab { result.tab ≡ lock.now.tab }
    ensures mode { mode_of result.shared ≡ lock.now.mode }
    ensures held { result.held ≡ held }
{
    Entry {
        tab: lock.tab,
        shared: matches!(lock.mode, Mode::Shared),
        held,
    }
}

/// Writes an item of the last event.
fn write_item(last: &Option<Event>, index: usize, number: &mut u32) -> i32
    ensures status { result ≡ status_of_search (is_some (item_at index last.now)) }
    ensures ok { result ≡ WLB_OK → item_at index last.now ≡ Some number.new }
    ensures unwritten { result ≢ WLB_OK → number.new ≡ number.old }
{
    match item_at(index, last) {
        Some(item) => {
            *number = item;
            WLB_OK
        }
        None => WLB_NOTHING,
    }
}

/// Writes an entry of the last event.
fn write_entry(
    last: &Option<Event>,
    index: usize,
    entry: &mut Entry,
    name: &mut [u8],
    written: &mut usize,
) -> i32
    ensures status { (result ≡ WLB_SHORT_BUFFER) ⊎ (result ≡ status_of_search (is_some (entry_at index last.now))) }
    ensures ok { result ≡ WLB_OK → IsEntryWritten (entry_at index last.now) entry.new name.new written.new }
    ensures unwritten { result ≢ WLB_OK → (entry.new ≡ entry.old) × (name.new ≡ name.old) × (written.new ≡ written.old) }
{
    let Some((lock, held)) = entry_at(index, last) else {
        return WLB_NOTHING;
    };
    let text = lock.name.as_str().as_bytes();
    if name.len() < WLB_NAME_BYTES || name.len() < text.len() {
        return WLB_SHORT_BUFFER;
    }
    copy(text, name);
    *written = text.len();
    *entry = entry_from(lock, held);
    WLB_OK
}

/// Takes the oldest event, and writes it.
#[unsafe(no_mangle)]
pub extern "C" fn wlb_client_next_event(
    handle: &mut Handle,
    alloc: Global,
    happening: &mut Happening,
) -> i32
    ensures empty { handle.old.value ≡ None → result ≡ WLB_NO_HANDLE }
    ensures kept { is_some handle.new.value ≡ is_some handle.old.value }
    ensures status { IfSome handle.old.value (λ p. result ≡ status_of_events p.client.events) }
    ensures ok { result ≡ WLB_OK → IfSome handle.old.value (λ old. IfSome handle.new.value (λ new. IsTaken old new happening.new)) }
    ensures same { result ≢ WLB_OK → handle.new.value ≡ handle.old.value }
    ensures unwritten { result ≢ WLB_OK → happening.new ≡ happening.old }
{
    let Some(mut page) = taken(handle, alloc) else {
        return WLB_NO_HANDLE;
    };
    let status = next_event(&mut page, happening);
    put(handle, page);
    status
}

/// Writes an item of the last event: a number that ended, or a channel with a post.
#[unsafe(no_mangle)]
pub extern "C" fn wlb_client_item(
    handle: &mut Handle,
    alloc: Global,
    index: usize,
    number: &mut u32,
) -> i32
    ensures empty { handle.old.value ≡ None → result ≡ WLB_NO_HANDLE }
    ensures same { handle.new.value ≡ handle.old.value }
    ensures status { IfSome handle.old.value (λ p. result ≡ status_of_search (is_some (item_at index p.last))) }
    ensures ok { result ≡ WLB_OK → IfSome handle.old.value (λ p. item_at index p.last ≡ Some number.new) }
    ensures unwritten { result ≢ WLB_OK → number.new ≡ number.old }
{
    let Some(page) = taken(handle, alloc) else {
        return WLB_NO_HANDLE;
    };
    let status = write_item(&page.last, index, number);
    put(handle, page);
    status
}

/// Writes an entry of the last event's snapshot, with its name and the length of the name. Held locks come
/// first, in the order of granting, and then requests, in the order of queueing.
#[unsafe(no_mangle)]
pub extern "C" fn wlb_client_entry(
    handle: &mut Handle,
    alloc: Global,
    index: usize,
    entry: &mut Entry,
    name: &mut [u8],
    written: &mut usize,
) -> i32
    ensures empty { handle.old.value ≡ None → result ≡ WLB_NO_HANDLE }
    ensures same { handle.new.value ≡ handle.old.value }
    ensures status { IfSome handle.old.value (λ p. (result ≡ WLB_SHORT_BUFFER)
        ⊎ (result ≡ status_of_search (is_some (entry_at index p.last)))) }
    ensures ok { result ≡ WLB_OK → IfSome handle.old.value (λ p.
        IsEntryWritten (entry_at index p.last) entry.new name.new written.new) }
    ensures unwritten { result ≢ WLB_OK → (entry.new ≡ entry.old) × (name.new ≡ name.old) × (written.new ≡ written.old) }
{
    let Some(page) = taken(handle, alloc) else {
        return WLB_NO_HANDLE;
    };
    let status = write_entry(&page.last, index, entry, name, written);
    put(handle, page);
    status
}
