//! Dispatch of one event to the part of the world that it concerns.

ghost use Rattle.std.specs.Prelude.{◌≡◌, true, IfOk, OnOk};
ghost use Rattle.wl_world_messages.specs.Messages.{sent_all};
ghost use Rattle.wl_world_model.specs.World.{step_result, after_event};
ghost use Rattle.wl_world_model.specs.Replies.{said_of, sendings, reply_of};
ghost use Rattle.wl_world.specs.Components.{is_in_place};

use crate::components::{Components, EventResult};
use crate::event::Event;
use crate::reply::Reply;
use std::alloc::{AllocError, Global};
use wl_grammar::Sequence;
use wl_world_messages::{Bag, Message, Sent};

impl Components {
    /// Applies an event, puts the messages that it sends into the bag, and returns the reply.
    pub fn happen(self, event: &Event) -> Result<(Components, Reply), AllocError>
        ensures world { IfOk result (λ r. r.0 ≡ after_event self event.now) }
        ensures reply { IfOk result (λ r. r.1 ≡ reply_of self event.now) }
    {
        let (mut parts, done) = self.act(event)?;
        let EventResult { said, sends } = done;
        let sent = parts.send(sends)?;
        let reply = Reply {
            said,
            sent: Sequence::new(sent),
        };
        Ok((parts, reply))
    }

    /// Applies an event. The messages that it sends are returned and are not yet in the bag.
    #[tactic(auto, unfolding(wl_world_model::specs::World::step_result, wl_world_model::specs::Replies::said_of))]
    fn act(self, event: &Event) -> Result<(Components, EventResult), AllocError>
        ensures world { IfOk result (λ r. r.0 ≡ (step_result self event.now).world) }
        ensures said { IfOk result (λ r. r.1.said ≡ said_of self event.now) }
        ensures sends { IfOk result (λ r. r.1.sends.items ≡ (step_result self event.now).sends) }
    {
        match event {
            Event::Open { tab, partition } => self.open(*tab, partition),
            Event::OpenTwo { tab, partition } => self.open_two(*tab, partition),
            _ => {
                let mut parts = self;
                let done = parts.act_in_place(event)?;
                Ok((parts, done))
            }
        }
    }

    /// Applies an event other than an opening.
    #[tactic(auto, unfolding(wl_world_model::specs::World::step_result, wl_world_model::specs::Replies::said_of))]
    fn act_in_place(&mut self, event: &Event) -> Result<EventResult, AllocError>
        requires { is_in_place event.now ≡ true }
        ensures world { OnOk result (self.new ≡ (step_result self.old event.now).world) }
        ensures said { IfOk result (λ done. done.said ≡ said_of self.old event.now) }
        ensures sends { IfOk result (λ done. done.sends.items ≡ (step_result self.old event.now).sends) }
    {
        match event {
            Event::Ask { tab, mode, name } => self.ask(*tab, *mode, false, name),
            Event::Probe { tab, mode, name } => self.ask(*tab, *mode, true, name),
            Event::Query { tab } => self.query(*tab),
            Event::Abort { tab, number } => self.abort(*tab, *number),
            Event::Release { tab, number } => self.release(*tab, *number),
            Event::Resend { tab } => self.resend(*tab),
            Event::Channel { tab, name } => self.open_channel(*tab, name),
            Event::Post {
                tab,
                channel,
                bytes,
            } => self.post(*tab, *channel, bytes),
            Event::Read { tab, channel } => self.read(*tab, *channel),
            Event::Close { tab, channel } => Ok(self.close(*tab, *channel)),
            Event::Deliver(message) => self.deliver(message),
            Event::Kill { tab } => Ok(self.kill(*tab)),
            Event::Tell { tab } => self.tell(*tab),
            Event::Start(listed) => self.start(listed.as_slice()),
            Event::Stop => Ok(self.stop()),
            Event::Hello { tab } => self.greet(*tab),
            Event::Corrupt { tab } => self.corrupt(*tab),
            Event::Forge { tab, forged } => self.forge(*tab, forged),
            Event::Open { .. } | Event::OpenTwo { .. } => unreachable!(),
        }
    }

    /// Puts these messages into the bag.
    fn send(&mut self, messages: Vec<Message>) -> Result<Vec<Sent>, AllocError>
        ensures bag { OnOk result (self.new
            ≡ record self.old { bag = sent_all messages.items self.old.bag }) }
        ensures sent { IfOk result (λ sent. sent.items ≡ sendings messages.items self.old.bag) }
    {
        send_all(self.alloc, &mut self.bag, messages)
    }
}

fn send_all(alloc: Global, bag: &mut Bag, messages: Vec<Message>) -> Result<Vec<Sent>, AllocError>
    ensures bag { OnOk result (bag.new ≡ sent_all messages.items bag.old) }
    ensures sent { IfOk result (λ sent. sent.items ≡ sendings messages.items bag.old) }
{
    let mut sent = Vec::new(alloc);
    for message in messages {
        sent.push(bag.put(message)?)?;
    }
    Ok(sent)
}
