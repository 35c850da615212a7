//! Channels of tabs: opening, posting, reading, closing, and the arrival of posts.

ghost use Rattle.std.specs.Prelude.{◌≡◌, ◌≢◌, ◌≤◌, [], ◌++◌, length, map, true, is_some, IfOk, OnOk, OnErr, None};
ghost use Rattle.std.specs.List.{filter_map};
ghost use Rattle.wl_draft.specs.Tables.{find, put};
ghost use Rattle.wl_grammar.specs.declared.frame.Frame.TheVariants as frame;
ghost use Rattle.wl_broadcast.specs.Channels.{after_hearing, hearing_of};
ghost use Rattle.wl_tab.specs.Tabs.{channels_in};
ghost use Rattle.wl_world_messages.specs.declared.effect.Reached.TheVariants.{Took};
ghost use Rattle.wl_world_model.specs.World.{opens_channel, posts, reads, closes, becomes, channels_of, if_allowed, lives};
ghost use Rattle.wl_world_model.specs.Replies.{opening_channel, posting, reading, closing, hearing, alive_or};
ghost use Rattle.wl_world.specs.Merging.{count_below, merged, across_to, number_in, posted_said, hearing_said};
ghost use Rattle.wl_world.specs.Components.{crossed, of_posting};

use crate::components::{Components, EventResult, refused, silent};
use bytes::Bytes;
use std::alloc::{AllocError, Global};
use std::collections::BTreeMap;
use wl_broadcast::{ChannelFault, Hearing, Letter, Posted};
use wl_draft::Name;
use wl_grammar::{Frame, Heard, Sequence};
use wl_kernel::{Routed, Tabs};
use wl_tab::{ChannelRefusal, TabChannels, channel_tables};
use wl_world_messages::{Effect, Message, Reached, Reason, Refusal};

impl Components {
    /// Opens a channel object.
    #[tactic(auto, unfolding(wl_world_model::specs::World::becomes))]
    pub fn open_channel(&mut self, tab: u16, name: &Name) -> Result<EventResult, AllocError>
        ensures world { OnOk result (self.new ≡ (opens_channel self.old tab name.now).world) }
        ensures said { IfOk result (λ done. done.said ≡ opening_channel self.old tab name.now) }
        ensures sends { IfOk result (λ done. done.sends.items ≡ (opens_channel self.old tab name.now).sends) }
    {
        if !self.lives(tab) {
            return Ok(refused(self.alloc, Refusal::NoTab));
        }
        match channel_tables::open_at(&mut self.channels, tab, name) {
            Ok(channel) => Ok(silent(self.alloc, Effect::ChannelOpened { channel })),
            Err(fault) => Ok(refused(self.alloc, open_refusal(fault)?)),
        }
    }

    /// Posts on a channel object. The tab's own other objects get the post at once. Other tabs are sent a message.
    #[tactic(auto, unfolding(wl_world_model::specs::World::becomes))]
    pub fn post(
        &mut self,
        tab: u16,
        channel: usize,
        bytes: &Bytes,
    ) -> Result<EventResult, AllocError>
        ensures world { OnOk result (self.new ≡ (posts self.old tab channel bytes.now).world) }
        ensures said { IfOk result (λ done. done.said ≡ posting self.old tab channel bytes.now) }
        ensures sends { IfOk result (λ done.
            done.sends.items ≡ (posts self.old tab channel bytes.now).sends) }
    {
        if !self.lives(tab) {
            return Ok(refused(self.alloc, Refusal::NoTab));
        }
        match channel_tables::post_at(&mut self.channels, tab, channel, bytes.as_slice()) {
            Ok(posted) => posting(self.alloc, self.supervisor.tabs(), tab, bytes, posted),
            Err(refusal) => Ok(refused(self.alloc, post_refusal(refusal)?)),
        }
    }

    /// Takes the oldest post out of an inbox.
    #[tactic(auto, unfolding(wl_world_model::specs::World::becomes))]
    pub fn read(&mut self, tab: u16, channel: usize) -> Result<EventResult, AllocError>
        ensures world { OnOk result (self.new ≡ (reads self.old tab channel).world) }
        ensures said { IfOk result (λ done. done.said ≡ reading self.old tab channel) }
        ensures sends { IfOk result (λ done. done.sends.items ≡ (reads self.old tab channel).sends) }
    {
        if !self.lives(tab) {
            return Ok(refused(self.alloc, Refusal::NoTab));
        }
        match channel_tables::read_at(&mut self.channels, tab, channel) {
            Ok(Some(letter)) => Ok(silent(self.alloc, Effect::Read(letter))),
            Ok(None) => Ok(refused(self.alloc, Refusal::Nothing)),
            Err(refusal) => Ok(refused(self.alloc, post_refusal(refusal)?)),
        }
    }

    /// Closes a channel object. A closed object stays closed.
    #[tactic(auto, unfolding(wl_world_model::specs::World::becomes))]
    pub fn close(&mut self, tab: u16, channel: usize) -> EventResult
        ensures world { self.new ≡ (closes self.old tab channel).world }
        ensures said { result.said ≡ closing self.old tab channel }
        ensures sends { result.sends.items ≡ (closes self.old tab channel).sends }
    {
        if !self.lives(tab) {
            return refused(self.alloc, Refusal::NoTab);
        }
        match channel_tables::close_at(&mut self.channels, tab, channel) {
            Ok(()) => silent(self.alloc, Effect::Closed { channel }),
            Err(_) => refused(self.alloc, Refusal::NoChannel),
        }
    }

    /// Delivers a post to another tab.
    #[tactic(auto, unfolding(wl_world_model::specs::World::becomes))]
    pub fn hear_post(&mut self, tab: u16, heard: &Heard) -> Result<EventResult, AllocError>
        ensures world { OnOk result
            (self.new ≡ (if_allowed (lives self.old tab) self.old
            (becomes self.old tab (after_hearing (frame.Heard heard.now)
            (channels_of self.old tab)) [])).world) }
        ensures said { IfOk result (λ done.
            done.said ≡ alive_or self.old tab (hearing tab heard.now (channels_of self.old tab))) }
        ensures sends { IfOk result (λ done. done.sends.items ≡ []) }
    {
        if !self.lives(tab) {
            return Ok(silent(self.alloc, Effect::Dropped(Reason::DeadTab)));
        }
        let hearing = heard_at(&mut self.channels, tab, heard)?;
        let said = hearing_said(self.alloc, tab, heard, hearing)?;
        Ok(silent(self.alloc, said))
    }
}

/// Returns the effect of a post.
fn posting(
    alloc: Global,
    kernel: &Tabs,
    tab: u16,
    bytes: &Bytes,
    posted: Posted,
) -> Result<EventResult, AllocError>
    ensures said { IfOk result (λ done. done.said ≡ posted_said tab bytes.now posted) }
    ensures sends { IfOk result (λ done. done.sends.items ≡ crossed kernel.now tab posted.frame) }
{
    let Posted { frame, took, full } = posted;
    let number = number_in(&frame);
    let sends = to_others(alloc, kernel, tab, frame)?;
    let said = Effect::Posted {
        tab,
        number,
        bytes: bytes.clone()?,
        objects: Sequence::new(reached(alloc, took.as_slice(), full.as_slice())?),
    };
    Ok(EventResult { said, sends })
}

/// Returns the number of a post, or 0 for any other frame.
fn number_in(frame: &Frame) -> u32
    ensures { result ≡ number_in frame.now }
{
    match frame {
        Frame::Post(post) => post.number,
        _ => 0,
    }
}

/// Delivers another tab's post to a tab's channels.
fn heard_at(
    channels: &mut BTreeMap<u16, TabChannels>,
    tab: u16,
    heard: &Heard,
) -> Result<Hearing, AllocError>
    requires there { is_some (find channels.old.entries tab) ≡ true }
    ensures ok { let c = channels_in tab (find channels.old.entries tab) in
        OnOk result (channels.new.entries
        ≡ put tab (after_hearing (frame.Heard heard.now) c) channels.old.entries) }
    ensures hearing { IfOk result (λ h.
        h ≡ hearing_of (frame.Heard heard.now) (channels_in tab (find channels.old.entries tab))) }
    ensures err { OnErr result (channels.new.entries ≡ channels.old.entries) }
{
    let frame = Frame::Heard(heard.clone()?);
    channel_tables::hear_at(channels, tab, &frame)
}

/// Returns the reply to the arrival of another tab's post.
fn hearing_said(
    alloc: Global,
    tab: u16,
    heard: &Heard,
    hearing: Hearing,
) -> Result<Effect, AllocError>
    ensures { IfOk result (λ said. said ≡ hearing_said tab heard.now hearing) }
{
    match hearing {
        Hearing::Old => Ok(Effect::Dropped(Reason::OldPost)),
        Hearing::New { took, full } => Ok(Effect::Heard {
            tab,
            letter: Letter {
                source: heard.source,
                number: heard.number,
                bytes: heard.bytes.clone()?,
            },
            objects: Sequence::new(reached(alloc, took.as_slice(), full.as_slice())?),
        }),
    }
}

/// Converts a fault of an opening into a refusal. Fails if the fault is out of memory.
fn open_refusal(fault: ChannelFault) -> Result<Refusal, AllocError>
    ensures refusal { IfOk result (λ refusal. refusal ≡ Refusal.Channel fault) }
    ensures fault { OnOk result (fault ≢ ChannelFault.Memory) }
{
    match fault {
        ChannelFault::Memory => Err(AllocError),
        fault => Ok(Refusal::Channel(fault)),
    }
}

/// Converts the error of a post or a read into a refusal. Fails if the error is out of memory.
fn post_refusal(refusal: ChannelRefusal) -> Result<Refusal, AllocError>
    ensures refusal { IfOk result (λ r. r ≡ of_posting refusal) }
    ensures fault { OnOk result (refusal ≢ ChannelRefusal.Fault ChannelFault.Memory) }
{
    match refusal {
        ChannelRefusal::NoChannel => Ok(Refusal::NoChannel),
        ChannelRefusal::Closed => Ok(Refusal::InvalidState),
        ChannelRefusal::Fault(ChannelFault::Memory) => Err(AllocError),
        ChannelRefusal::Fault(fault) => Ok(Refusal::Channel(fault)),
    }
}

/// Merges the destinations that took a post with those that were full, by rising number.
fn reached(alloc: Global, took: &[usize], full: &[usize]) -> Result<Vec<Reached>, AllocError>
    ensures { IfOk result (λ objects. objects.items ≡ merged took.now full.now) }
{
    let mut objects = Vec::new(alloc);
    let mut rest = took;
    for number in full {
        let below = count_below(rest, *number);
        add_taking(&rest[..below], &mut objects)?;
        objects.push(Reached::Full(*number))?;
        rest = &rest[below..];
    }
    add_taking(rest, &mut objects)?;
    Ok(objects)
}

/// Returns the length of the longest prefix of numbers below the bound.
fn count_below(numbers: &[usize], bound: usize) -> usize
    ensures count { result ≡ count_below bound numbers.now }
    ensures within { result ≤ length numbers.now }
{
    numbers.iter().take_while(|number| **number < bound).count()
}

fn add_taking(took: &[usize], objects: &mut Vec<Reached>) -> Result<(), AllocError>
    ensures { OnOk result (objects.new.items ≡ objects.old.items ++ map Took took.now) }
{
    for number in took {
        objects.push(Reached::Took(*number))?;
    }
    Ok(())
}

/// Returns the tab's post as messages to the other living tabs of its partition.
pub(super) fn to_others(
    alloc: Global,
    kernel: &Tabs,
    tab: u16,
    frame: Frame,
) -> Result<Vec<Message>, AllocError>
    ensures { IfOk result (λ ms. ms.items ≡ crossed kernel.now tab frame) }
{
    match kernel.route_up(tab, frame) {
        Ok(Routed::Tabs(posts)) => all_across(alloc, posts),
        // A living tab's post is always routed to tabs, so memory has run out.
        _ => Err(AllocError),
    }
}

fn all_across(alloc: Global, posts: Sequence<(u16, Frame)>) -> Result<Vec<Message>, AllocError>
    ensures { IfOk result (λ ms. ms.items ≡ filter_map (λ p. across_to p.0 p.1) posts) }
{
    posts
        .into_vec()
        .into_iter()
        .filter_map(|(tab, frame)| across(tab, frame))
        .collect(alloc)
}

/// Converts a frame that the kernel routes to a tab into a message. Returns `None` unless it is a post.
fn across(tab: u16, frame: Frame) -> Option<Message>
    ensures { result ≡ across_to tab frame }
{
    match frame {
        Frame::Heard(heard) => Some(Message::Across { tab, heard }),
        _ => None,
    }
}
