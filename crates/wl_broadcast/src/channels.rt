//! Channels of a tab.

ghost use Rattle.std.specs.Prelude.{◌≡◌, ◌==◌, ◌<◌, ◌^◌, ◌++◌, length, filter, not, true, None, Some, Err, IfOk, OnOk, IfErr, OnErr, IsTrue};
ghost use Rattle.wl_draft.specs.Refusals.{RefusesBy, RefusesOnlyBy};
ghost use Rattle.wl_draft.specs.Tables.{put};
ghost use Rattle.wl_grammar.specs.Grammar.{IsWellFormed};
ghost use Rattle.wl_broadcast.specs.OpenObjects.{all_seen, open_from, AreChannels};
ghost use Rattle.wl_broadcast.specs.Channels.{no_channels, opened, delivered, posted, post_frame, name_at, taking, full, after_hearing, hearing_of, read_at, closed_at, inbox_at, first_of, is_own, is_old, is_news, open_refusal, post_refusal, own_refusal, heard_refusal};

use crate::channel::{Channel, Foreign};
use crate::fault::ChannelFault;
use crate::letter::{Hearing, Letter, Posted};
use crate::object::{self, ChannelObject, Delivery, PostDelivery};
use bytes::Bytes;
use std::alloc::{AllocError, Global};
use std::collections::BTreeMap;
use std::marker::Model;
use wl_draft::Name;
use wl_grammar::{Frame, Post, Sequence};
use wl_limits::texts::{DATA_LIMIT, NAME_LIMIT};

/// Maximum number of open channels of a tab.
pub const CHANNEL_LIMIT: usize = 64;

/// Maximum number of posts of a tab over its life.
pub const POST_LIMIT: u32 = 1_000_000;

/// The channels of a tab, its posts, and the last post received from each other tab (HTML Standard
/// 9.5 BroadcastChannel).
#[derive(Drop)]
pub struct Channels {
    alloc: Global,
    tab: u16,
    /// All objects ever opened, including the closed ones.
    objects: Vec<ChannelObject>,
    /// Numbers of the open objects, oldest first.
    open_numbers: Vec<usize>,
    posts: u32,
    /// Number of the last post received from each source.
    last: BTreeMap<u16, u32>,
}

impl Model for Channels {
    ghost use Rattle.wl_broadcast.specs.Channels.{ChannelState};
    ghost use Rattle.wl_broadcast.specs.OpenObjects.{all_seen, IsKept};

    ghost Value = { ChannelState };

    ghost view = { λ c. record { tab = c.tab; objects = all_seen c.objects.items; posts = c.posts; last = c.last.entries } };

    ghost invariant = { λ c. IsKept c.open_numbers.items (all_seen c.objects.items) };
}

impl Channels {
    /// Returns the channels of a tab that has opened none.
    pub fn new(alloc: Global, tab: u16) -> Channels
        ensures { result ≡ no_channels tab }
    {
        Channels {
            alloc,
            tab,
            objects: Vec::new(alloc),
            open_numbers: Vec::new(alloc),
            posts: 0,
            last: BTreeMap::new(alloc),
        }
    }

    /// Opens a channel object with this name. Fails with `NameTooLong` or `TooManyChannels`, or
    /// with `Memory` if out of memory.
    pub fn open(&mut self, name: &str) -> Result<Channel, ChannelFault>
        ensures ok { OnOk result (self.new ≡ opened name.now self.old) }
        ensures channel { IfOk result (λ c. (c.tab ≡ self.old.tab) × (c.number ≡ length self.old.objects)) }
        ensures refused { RefusesBy result (open_refusal name.now self.old) ChannelFault.Memory }
        ensures err { OnErr result (self.new ≡ self.old) }
    {
        if let Some(fault) = self.open_refusal(name) {
            return Err(fault);
        }
        let name = Name::new(String::from_str(self.alloc, name)?);
        let object = ChannelObject::new(self.alloc, name);
        let number = self.objects.len();
        self.open_numbers.reserve(1)?;
        self.objects.push(object)?;
        self.open_numbers.push_reserved(number);
        Ok(Channel {
            tab: self.tab,
            number,
        })
    }

    /// Returns the fault with which `open` fails even if there is enough memory, or `None`. Never
    /// returns `Memory`.
    pub fn open_refusal(&self, name: &str) -> Option<ChannelFault>
        ensures { result ≡ open_refusal name.now self.now }
    {
        if name.len() > NAME_LIMIT {
            return Some(ChannelFault::NameTooLong);
        }
        if self.open_numbers.len() >= CHANNEL_LIMIT {
            return Some(ChannelFault::TooManyChannels);
        }
        None
    }

    /// Posts data on a channel. The tab's other open objects of its name receive the post at once,
    /// oldest first. Fails with `DataTooLong`, `PostsUsedUp` or `ForeignChannel`, or with `Memory`
    /// if out of memory.
    pub fn post(&mut self, channel: &Channel, bytes: &[u8]) -> Result<Posted, ChannelFault>
        ensures ok { OnOk result (self.new ≡ posted channel.now.number bytes.now self.old) }
        ensures posted { IfOk result (λ p.
            (p.frame ≡ post_frame self.old.posts (name_at self.old.objects channel.now.number) bytes.now)
            × (p.took ≡ taking (Some channel.now.number)
            (name_at self.old.objects channel.now.number) self.old.objects)
            × (p.full ≡ full (Some channel.now.number)
            (name_at self.old.objects channel.now.number) self.old.objects)) }
        ensures refused { RefusesBy result
            (post_refusal channel.now.tab channel.now.number bytes.now self.old) ChannelFault.Memory }
        ensures well_formed { IfOk result (λ p. IsWellFormed p.frame) }
        ensures err { OnErr result (self.new ≡ self.old) }
    {
        if bytes.len() > DATA_LIMIT {
            return Err(ChannelFault::DataTooLong);
        }
        if self.posts >= POST_LIMIT {
            return Err(ChannelFault::PostsUsedUp);
        }
        if !self.is_own(channel) {
            return Err(ChannelFault::ForeignChannel);
        }
        let name = copy_of(object::name_at(&self.objects, channel.number))?;
        let content = Bytes::copy_from_slice(self.alloc, bytes)?;
        let letter = Letter {
            source: self.tab,
            number: self.posts,
            bytes: content.clone()?,
        };
        let delivery = Delivery {
            sender: Some(channel.number),
            name: &name,
            letter: &letter,
        };
        let PostDelivery { took, full } = self.deliver(&delivery)?;
        let number = self.posts;
        self.posts += 1;
        Ok(Posted {
            frame: Frame::Post(Post {
                number,
                channel: name,
                bytes: content,
            }),
            took: Sequence::new(took),
            full: Sequence::new(full),
        })
    }

    /// Receives another tab's post. An old post changes nothing. Fails with `WrongKind` if the
    /// frame is not a Heard frame, and with `Memory` if out of memory.
    pub fn heard(&mut self, frame: &Frame) -> Result<Hearing, ChannelFault>
        ensures ok { OnOk result (self.new ≡ after_hearing frame.now self.old) }
        ensures hearing { IfOk result (λ h. h ≡ hearing_of frame.now self.old) }
        ensures refused { RefusesBy result (heard_refusal frame.now) ChannelFault.Memory }
        ensures growth { result ≡ Err ChannelFault.Memory → is_news frame.now self.old ≡ true }
        ensures err { OnErr result (self.new ≡ self.old) }
    {
        let Frame::Heard(heard) = frame else {
            return Err(ChannelFault::WrongKind);
        };
        if self.is_old(heard.source, heard.number) {
            return Ok(Hearing::Old);
        }
        let letter = Letter {
            source: heard.source,
            number: heard.number,
            bytes: heard.bytes.clone()?,
        };
        let delivery = Delivery {
            sender: None,
            name: &heard.channel,
            letter: &letter,
        };
        let mut takers = PostDelivery::new(self.alloc);
        hear(
            &mut self.objects,
            &self.open_numbers,
            &mut self.last,
            &delivery,
            &mut takers,
        )?;
        let PostDelivery { took, full } = takers;
        Ok(Hearing::New {
            took: Sequence::new(took),
            full: Sequence::new(full),
        })
    }

    /// Returns the number of unread posts in the channel's inbox. Fails with `ForeignChannel`.
    pub fn inbox(&self, channel: &Channel) -> Result<usize, ChannelFault>
        ensures ok { IfOk result (λ n. n ≡ length (inbox_at self.now.objects channel.now.number)) }
        ensures refused { RefusesOnlyBy result (own_refusal channel.now.tab channel.now.number self.now) }
    {
        if !self.is_own(channel) {
            return Err(ChannelFault::ForeignChannel);
        }
        Ok(object::waiting_at(&self.objects, channel.number))
    }

    /// Removes and returns the oldest unread post. Fails with `ForeignChannel`. Does not allocate.
    pub fn read(&mut self, channel: &Channel) -> Result<Option<Letter>, ChannelFault>
        ensures ok { OnOk result (self.new ≡ read_at channel.now.number self.old) }
        ensures letter { IfOk result (λ letter.
            letter ≡ first_of (inbox_at self.old.objects channel.now.number)) }
        ensures refused { RefusesOnlyBy result (own_refusal channel.now.tab channel.now.number self.old) }
        ensures err { OnErr result (self.new ≡ self.old) }
    {
        if !self.is_own(channel) {
            return Err(ChannelFault::ForeignChannel);
        }
        Ok(object::read_at(&mut self.objects, channel.number))
    }

    /// Closes a channel and discards its unread posts. Fails if the channel belongs to another tab,
    /// and then returns it. Does not allocate.
    pub fn close(&mut self, channel: Channel) -> Result<(), Foreign<Channel>>
        ensures ok { OnOk result (self.new ≡ closed_at channel.number self.old) }
        ensures allowed { OnOk result (own_refusal channel.tab channel.number self.old ≡ None) }
        ensures refused { OnErr result (own_refusal channel.tab channel.number self.old
            ≡ Some ChannelFault.ForeignChannel) }
        ensures given_back { IfErr result (λ foreign. foreign.value ≡ channel) }
        ensures err { OnErr result (self.new ≡ self.old) }
    {
        if !self.is_own(&channel) {
            return Err(Foreign { value: channel });
        }
        let Channel { tab: _, number } = channel;
        object::close_at(&mut self.objects, number, self.alloc);
        forget(&mut self.open_numbers, number);
        Ok(())
    }

    /// Ends the tab's channels, and consumes the handles that the tab still holds.
    pub fn end(self, mut channels: Vec<Channel>) {
        while let Some(channel) = channels.pop() {
            let Channel { tab: _, number: _ } = channel;
        }
        channels.destroy_empty();
    }

    /// Delivers a post to all its destinations. If out of memory, it delivers to none of them.
    fn deliver(&mut self, delivery: &Delivery) -> Result<PostDelivery, AllocError>
        ensures ok { OnOk result (self.new
            ≡ record self.old {
              objects = delivered delivery.now.sender delivery.now.name.now
                  delivery.now.letter.now self.old.objects;
            }) }
        ensures took { IfOk result (λ takers.
            takers.took.items ≡ taking delivery.now.sender delivery.now.name.now self.old.objects) }
        ensures full { IfOk result (λ takers.
            takers.full.items ≡ full delivery.now.sender delivery.now.name.now self.old.objects) }
        ensures err { OnErr result (self.new ≡ self.old) }
    {
        let mut takers = PostDelivery::new(self.alloc);
        object::deliver(
            &mut self.objects,
            0,
            &self.open_numbers,
            delivery,
            &mut takers,
        )?;
        Ok(takers)
    }

    /// Returns whether this post or a later one of its source was received before.
    fn is_old(&self, source: u16, number: u32) -> bool
        ensures { result ≡ is_old self.now source number }
    {
        match self.last.get(&source) {
            Some(last) => number <= *last,
            None => false,
        }
    }

    /// Returns whether the channel is an open one of this tab.
    fn is_own(&self, channel: &Channel) -> bool
        ensures value { result ≡ is_own self.now channel.now.tab channel.now.number }
        ensures within { IsTrue result → channel.now.number < length self.now.objects }
    {
        channel.tab == self.tab && object::is_open_at(&self.objects, channel.number)
    }
}

/// Removes the number from the list.
fn forget(numbers: &mut Vec<usize>, number: usize)
    ensures { numbers.new.items ≡ filter (λ n. not (n == number)) numbers.old.items }
{
    numbers.retain(|n| *n != number);
}

/// Delivers another tab's post, and records its number as the last one of its source. If out of
/// memory, it does neither.
fn hear(
    objects: &mut [ChannelObject],
    open_numbers: &[usize],
    last: &mut BTreeMap<u16, u32>,
    delivery: &Delivery,
    takers: &mut PostDelivery,
) -> Result<(), AllocError>
    requires numbers { length objects.old < 2 ^ 64 }
    requires open { open_numbers.now ≡ open_from 0 (all_seen objects.old) }
    ensures ok { OnOk result (all_seen objects.new
        ≡ delivered delivery.now.sender delivery.now.name.now delivery.now.letter.now
        (all_seen objects.old)) }
    ensures kept_open { OnOk result (open_from 0 (all_seen objects.new)
        ≡ open_from 0 (all_seen objects.old)) }
    ensures kept_names { OnOk result (AreChannels (all_seen objects.old)
        → AreChannels (all_seen objects.new)) }
    ensures last { OnOk result (last.new.entries
        ≡ put delivery.now.letter.now.source delivery.now.letter.now.number last.old.entries) }
    ensures took { OnOk result (takers.new.took.items
        ≡ takers.old.took.items ++ taking delivery.now.sender delivery.now.name.now (all_seen objects.old)) }
    ensures full { OnOk result (takers.new.full.items
        ≡ takers.old.full.items ++ full delivery.now.sender delivery.now.name.now (all_seen objects.old)) }
    ensures err { OnErr result ((all_seen objects.new ≡ all_seen objects.old)
        × (last.new.entries ≡ last.old.entries)) }
{
    let Letter { source, number, .. } = delivery.letter;
    if last.contains_key(source) {
        object::deliver(objects, 0, open_numbers, delivery, takers)?;
        // The row exists, so this insert never fails.
        last.insert(*source, *number)?;
        return Ok(());
    }
    // Inserting the row of a new source may fail, so this happens before any object takes the post.
    last.insert(*source, *number)?;
    if let Err(refused) = object::deliver(objects, 0, open_numbers, delivery, takers) {
        last.remove(source);
        return Err(refused);
    }
    Ok(())
}

fn copy_of(name: &Name) -> Result<Name, AllocError>
    ensures { IfOk result (λ copy. copy ≡ name.now) }
{
    name.clone()
}
