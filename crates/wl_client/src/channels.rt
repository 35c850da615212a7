//! Channels of the tab (HTML Standard, section 9.5, "Broadcasting to other browsing contexts").

ghost use Rattle.std.specs.Prelude.{◌≡◌, ◌⊎◌, length, None, Some, IfOk, IfErr, OnOk, OnErr, option_map};
ghost use Rattle.wl_draft.specs.Refusals.{RefusesBy, RefusesOnlyBy};
ghost use Rattle.wl_broadcast.specs.Channels.{opened, open_refusal, read_at, first_of, inbox_at};
ghost use Rattle.wl_tab.specs.TabChannels.{number_refusal, posting_refusal};
ghost use Rattle.wl_tab.specs.declared.channels.ChannelRefusal.TheVariants.{Fault};
ghost use Rattle.wl_client.specs.Client.{after_close, after_post, channel_refusal, closing_refusal, with_channels};
ghost use Rattle.wl_client.specs.declared.fault.ChannelCallFault.TheVariants as faults;

use crate::client::{Client, Event, Unsent};
use crate::fault::ChannelCallFault;
use crate::receiving::has_post;
use wl_broadcast::{Hearing, Letter, Posted};
use wl_draft::Name;

impl Client {
    /// Opens a channel and returns its number.
    pub fn open_channel(&mut self, name: &Name) -> Result<usize, ChannelCallFault>
        ensures ok { OnOk result (self.new ≡ with_channels (opened name.now self.old.channels) self.old) }
        ensures number { IfOk result (λ n. n ≡ length self.old.channels.objects) }
        ensures refused { RefusesBy result (channel_refusal (option_map Fault (open_refusal name.now self.old.channels)) self.old) faults.Memory }
        ensures err { OnErr result (self.new ≡ self.old) }
    {
        if !self.is_welcomed {
            return Err(ChannelCallFault::NotWelcomed);
        }
        self.channels
            .open(name)
            .map_err(ChannelCallFault::of_opening)
    }

    /// Posts data on a channel. The tab's other open channels of the name take the post at once.
    pub fn post(&mut self, channel: usize, data: &[u8]) -> Result<(), ChannelCallFault>
        ensures ok { OnOk result (self.new ≡ after_post channel data.now self.old) }
        ensures allowed { OnOk result (channel_refusal (posting_refusal channel data.now self.old.channels) self.old ≡ None) }
        ensures refused { IfErr result (λ e. (e ≡ faults.Memory)
            ⊎ (channel_refusal (posting_refusal channel data.now self.old.channels) self.old ≡ Some e)) }
        ensures err { OnErr result (self.new ≡ self.old) }
    {
        if !self.is_welcomed {
            return Err(ChannelCallFault::NotWelcomed);
        }
        self.unsent.reserve(1)?;
        self.events.reserve(1)?;
        let posted = self
            .channels
            .post(channel, data)
            .map_err(ChannelCallFault::of_channel)?;
        let Posted { frame, took, full } = posted;
        self.unsent.push_back_reserved(Unsent::Post(frame));
        let hearing = Hearing::New { took, full };
        if !has_post(&hearing) {
            drop(hearing);
            return Ok(());
        }
        self.events.push_back_reserved(Event::Heard(hearing));
        Ok(())
    }

    /// Takes the oldest post out of a channel's inbox. Allocates no memory.
    pub fn read(&mut self, channel: usize) -> Result<Option<Letter>, ChannelCallFault>
        ensures ok { OnOk result (self.new ≡ with_channels (read_at channel self.old.channels) self.old) }
        ensures letter { IfOk result (λ letter. letter ≡ first_of (inbox_at self.old.channels.objects channel)) }
        ensures refused { RefusesOnlyBy result (channel_refusal (number_refusal channel self.old.channels) self.old) }
        ensures err { OnErr result (self.new ≡ self.old) }
    {
        if !self.is_welcomed {
            return Err(ChannelCallFault::NotWelcomed);
        }
        self.channels
            .read(channel)
            .map_err(ChannelCallFault::of_channel)
    }

    /// Closes a channel. A closed channel stays closed. Allocates no memory.
    pub fn close_channel(&mut self, channel: usize) -> Result<(), ChannelCallFault>
        ensures new { self.new ≡ after_close channel self.old }
        ensures refused { RefusesOnlyBy result (channel_refusal (closing_refusal channel self.old.channels) self.old) }
    {
        if !self.is_welcomed {
            return Err(ChannelCallFault::NotWelcomed);
        }
        self.channels
            .close(channel)
            .map_err(ChannelCallFault::of_channel)
    }
}
