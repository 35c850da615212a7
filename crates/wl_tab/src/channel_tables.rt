//! Table of the tabs' channels. Each tab has a row from its opening on.

ghost use Rattle.std.specs.Prelude.{◌≡◌, nat_lt, length, true, is_some, Some, None, Ok, Err, IfOk, OnOk, OnErr, if◌then◌else◌};
ghost use Rattle.wl_draft.specs.Refusals.{RefusesBy, RefusesOnlyBy};
ghost use Rattle.wl_draft.specs.Tables.{find, put};
ghost use Rattle.wl_broadcast.specs.Channels.{opened, open_refusal, posted, post_frame, name_at, taking, full, after_hearing, hearing_of, heard_refusal, read_at, closed_at, first_of, inbox_at, is_open_at};
ghost use Rattle.wl_tab.specs.Tabs.{channels_in};
ghost use Rattle.wl_tab.specs.TabChannels.{number_refusal, posting_refusal};

use crate::channels::{ChannelRefusal, TabChannels};
use std::alloc::AllocError;
use std::collections::BTreeMap;
use wl_broadcast::{ChannelFault, Hearing, Letter, Posted};
use wl_draft::Name;
use wl_grammar::Frame;

/// Opens a channel object of a tab and returns its number.
pub fn open_at(
    rows: &mut BTreeMap<u16, TabChannels>,
    tab: u16,
    name: &Name,
) -> Result<usize, ChannelFault>
    requires there { is_some (find rows.old.entries tab) ≡ true }
    ensures ok { let c = channels_in tab (find rows.old.entries tab) in
        OnOk result (rows.new.entries ≡ put tab (opened name.now c) rows.old.entries) }
    ensures number { IfOk result (λ n. n ≡ length (channels_in tab (find rows.old.entries tab)).objects) }
    ensures refused { RefusesBy result
        (open_refusal name.now (channels_in tab (find rows.old.entries tab))) ChannelFault.Memory }
    ensures err { OnErr result (rows.new.entries ≡ rows.old.entries) }
{
    let Some(channels) = rows.get_mut(&tab) else {
        unreachable!()
    };
    channels.open(name)
}

/// Delivers another tab's post to a tab.
pub fn hear_at(
    rows: &mut BTreeMap<u16, TabChannels>,
    tab: u16,
    frame: &Frame,
) -> Result<Hearing, AllocError>
    requires there { is_some (find rows.old.entries tab) ≡ true }
    requires heard { heard_refusal frame.now ≡ None }
    ensures ok { let c = channels_in tab (find rows.old.entries tab) in
        OnOk result (rows.new.entries ≡ put tab (after_hearing frame.now c) rows.old.entries) }
    ensures hearing { IfOk result (λ h.
        h ≡ hearing_of frame.now (channels_in tab (find rows.old.entries tab))) }
    ensures err { OnErr result (rows.new.entries ≡ rows.old.entries) }
{
    let Some(channels) = rows.get_mut(&tab) else {
        unreachable!()
    };
    channels.heard(frame)
}

/// Posts on a tab's channel object.
pub fn post_at(
    rows: &mut BTreeMap<u16, TabChannels>,
    tab: u16,
    number: usize,
    bytes: &[u8],
) -> Result<Posted, ChannelRefusal>
    requires there { is_some (find rows.old.entries tab) ≡ true }
    ensures ok { let c = channels_in tab (find rows.old.entries tab) in
        OnOk result (rows.new.entries ≡ put tab (posted number bytes.now c) rows.old.entries) }
    ensures posted { let c = channels_in tab (find rows.old.entries tab) in IfOk result (λ p.
        (p.frame ≡ post_frame c.posts (name_at c.objects number) bytes.now)
        × (p.took ≡ taking (Some number) (name_at c.objects number) c.objects)
        × (p.full ≡ full (Some number) (name_at c.objects number) c.objects)) }
    ensures refused { RefusesBy result
        (posting_refusal number bytes.now (channels_in tab (find rows.old.entries tab)))
        (ChannelRefusal.Fault ChannelFault.Memory) }
    ensures err { OnErr result (rows.new.entries ≡ rows.old.entries) }
{
    let Some(channels) = rows.get_mut(&tab) else {
        unreachable!()
    };
    channels.post(number, bytes)
}

/// Takes the oldest post out of an inbox. Returns `None` if the inbox is empty.
pub fn read_at(
    rows: &mut BTreeMap<u16, TabChannels>,
    tab: u16,
    number: usize,
) -> Result<Option<Letter>, ChannelRefusal>
    requires there { is_some (find rows.old.entries tab) ≡ true }
    ensures ok { let c = channels_in tab (find rows.old.entries tab) in
        OnOk result (rows.new.entries ≡ put tab (read_at number c) rows.old.entries) }
    ensures letter { IfOk result (λ letter.
        letter ≡ first_of (inbox_at (channels_in tab (find rows.old.entries tab)).objects number)) }
    ensures refused { RefusesOnlyBy result
        (number_refusal number (channels_in tab (find rows.old.entries tab))) }
    ensures err { OnErr result (rows.new.entries ≡ rows.old.entries) }
{
    let Some(channels) = rows.get_mut(&tab) else {
        unreachable!()
    };
    channels.read(number)
}

/// Closes a tab's channel object.
pub fn close_at(
    rows: &mut BTreeMap<u16, TabChannels>,
    tab: u16,
    number: usize,
) -> Result<(), ChannelRefusal>
    requires there { is_some (find rows.old.entries tab) ≡ true }
    ensures result { result ≡ (if nat_lt number (length (channels_in tab (find rows.old.entries tab)).objects)
        then Ok tt else Err ChannelRefusal.NoChannel) }
    ensures rows { let c = channels_in tab (find rows.old.entries tab) in
        rows.new.entries ≡ (if is_open_at c.objects number
        then put tab (closed_at number c) rows.old.entries else rows.old.entries) }
{
    let Some(channels) = rows.get_mut(&tab) else {
        unreachable!()
    };
    channels.close(number)
}
