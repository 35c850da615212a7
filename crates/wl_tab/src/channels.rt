//! Channels of a tab by number, with the tokens of the open ones.

ghost use Rattle.std.specs.Prelude.{◌≡◌, ◌==◌, nat_lt, length, position, Some, None, Ok, Err, IfOk, OnOk, OnErr, if◌then◌else◌};
ghost use Rattle.wl_draft.specs.Refusals.{RefusesBy, RefusesOnlyBy};
ghost use Rattle.wl_broadcast.specs.Channels.{no_channels, opened, posted, post_frame, name_at, taking, full, after_hearing, hearing_of, read_at, closed_at, inbox_at, first_of, is_open_at, open_refusal, heard_refusal};
ghost use Rattle.wl_tab.specs.TabChannels.{number_refusal, posting_refusal, place_in};
ghost use Rattle.wl_tab.specs.declared.channels.ChannelRefusal.TheVariants.{Fault as refused_for};

use std::alloc::{AllocError, Global};
use std::marker::Model;
use wl_broadcast::{Channel, ChannelFault, Channels, Foreign, Hearing, Letter, Posted};
use wl_draft::Name;
use wl_grammar::Frame;

/// A tab's channels. Callers name a channel by its number.
pub struct TabChannels {
    channels: Channels,
    /// The number of the channel that was opened last.
    latest: Option<usize>,
    /// The open channels, oldest first.
    kept: Vec<Channel>,
}

impl Model for TabChannels {
    ghost use Rattle.wl_broadcast.specs.Channels.{ChannelState};
    ghost use Rattle.wl_tab.specs.TabChannels.{IsNumbered};

    ghost Value = { ChannelState };

    ghost view = { λ t. t.channels };

    ghost invariant = { λ t. IsNumbered t.channels t.latest t.kept.items };
}

impl Drop for TabChannels {
    fn drop(self) {
        let TabChannels {
            channels,
            latest: _,
            kept,
        } = self;
        channels.end(kept);
    }
}

/// Reason for which a call on a channel number was refused.
#[derive(Clone, Copy)]
pub enum ChannelRefusal {
    /// No channel with this number was ever opened.
    NoChannel,
    Closed,
    Fault(ChannelFault),
}

impl From<ChannelFault> for ChannelRefusal {
    ghost from_gives = { λ fault refusal. refusal ≡ refused_for fault };

    fn from(fault: ChannelFault) -> ChannelRefusal {
        ChannelRefusal::Fault(fault)
    }
}

impl TabChannels {
    /// Returns the channels of a tab that has opened none.
    pub fn new(alloc: Global, tab: u16) -> TabChannels
        ensures { result ≡ no_channels tab }
    {
        TabChannels {
            channels: Channels::new(alloc, tab),
            latest: None,
            kept: Vec::new(alloc),
        }
    }

    /// Opens a channel and returns its number. Memory for its token is reserved before it is opened.
    pub fn open(&mut self, name: &Name) -> Result<usize, ChannelFault>
        ensures ok { OnOk result (self.new ≡ opened name.now self.old) }
        ensures number { IfOk result (λ n. n ≡ length self.old.objects) }
        ensures refused { RefusesBy result (open_refusal name.now self.old) ChannelFault.Memory }
        ensures err { OnErr result (self.new ≡ self.old) }
    {
        let text = name.as_str();
        if let Some(fault) = self.channels.open_refusal(text) {
            return Err(fault);
        }
        self.kept.reserve(1)?;
        let channel = self.channels.open(text)?;
        let number = channel.number();
        self.latest = Some(number);
        self.kept.push_reserved(channel);
        Ok(number)
    }

    /// Posts data on a channel.
    pub fn post(&mut self, number: usize, bytes: &[u8]) -> Result<Posted, ChannelRefusal>
        ensures ok { OnOk result (self.new ≡ posted number bytes.now self.old) }
        ensures posted { IfOk result (λ p.
            (p.frame ≡ post_frame self.old.posts (name_at self.old.objects number) bytes.now)
            × (p.took ≡ taking (Some number) (name_at self.old.objects number) self.old.objects)
            × (p.full ≡ full (Some number) (name_at self.old.objects number) self.old.objects)) }
        ensures refused { RefusesBy result (posting_refusal number bytes.now self.old)
            (ChannelRefusal.Fault ChannelFault.Memory) }
        ensures err { OnErr result (self.new ≡ self.old) }
    {
        let place = place_of(&self.kept, self.latest, number)?;
        Ok(self.channels.post(&self.kept[place], bytes)?)
    }

    /// Takes another tab's post. An old post changes nothing.
    pub fn heard(&mut self, frame: &Frame) -> Result<Hearing, AllocError>
        requires { heard_refusal frame.now ≡ None }
        ensures ok { OnOk result (self.new ≡ after_hearing frame.now self.old) }
        ensures hearing { IfOk result (λ h. h ≡ hearing_of frame.now self.old) }
        ensures err { OnErr result (self.new ≡ self.old) }
    {
        match self.channels.heard(frame) {
            Ok(hearing) => Ok(hearing),
            Err(_) => Err(AllocError),
        }
    }

    /// Takes the oldest post out of a channel's inbox. Allocates no memory.
    pub fn read(&mut self, number: usize) -> Result<Option<Letter>, ChannelRefusal>
        ensures ok { OnOk result (self.new ≡ read_at number self.old) }
        ensures letter { IfOk result (λ letter. letter ≡ first_of (inbox_at self.old.objects number)) }
        ensures refused { RefusesOnlyBy result (number_refusal number self.old) }
        ensures err { OnErr result (self.new ≡ self.old) }
    {
        let place = place_of(&self.kept, self.latest, number)?;
        Ok(self.channels.read(&self.kept[place])?)
    }

    /// Closes a channel. A closed channel stays closed. Allocates no memory.
    pub fn close(&mut self, number: usize) -> Result<(), ChannelRefusal>
        ensures result { result
            ≡ (if nat_lt number (length self.old.objects) then Ok tt else Err ChannelRefusal.NoChannel) }
        ensures new { self.new
            ≡ (if is_open_at self.old.objects number then closed_at number self.old else self.old) }
    {
        match place_of(&self.kept, self.latest, number) {
            Ok(place) => {
                let channel = self.kept.remove(place);
                if let Err(Foreign { value }) = self.channels.close(channel) {
                    // Unreachable: a stored open channel belongs to this tab.
                    self.kept.push_reserved(value);
                }
                Ok(())
            }
            Err(ChannelRefusal::Closed) => Ok(()),
            Err(ChannelRefusal::NoChannel) => Err(ChannelRefusal::NoChannel),
            Err(ChannelRefusal::Fault(fault)) => Err(ChannelRefusal::Fault(fault)),
        }
    }
}

/// Returns the index of the open channel with this number in `kept`.
fn place_of(kept: &[Channel], latest: Option<usize>, number: usize) -> Result<usize, ChannelRefusal>
    ensures { result ≡ place_in number latest kept.now }
{
    match latest {
        Some(latest) if number <= latest => {}
        _ => return Err(ChannelRefusal::NoChannel),
    }
    match position_of(kept, number) {
        Some(place) => Ok(place),
        None => Err(ChannelRefusal::Closed),
    }
}

/// Returns the index of the channel with this number.
fn position_of(kept: &[Channel], number: usize) -> Option<usize>
    ensures { result ≡ position (λ channel. channel.number == number) kept.now }
{
    kept.iter().position(|channel| channel.number() == number)
}
