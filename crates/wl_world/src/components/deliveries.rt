//! Delivery of messages to the broker, to tabs and to their channels.

ghost use Rattle.std.specs.Prelude.{◌≡◌, ℕ, IfOk, OnOk, true, is_some, if◌then◌else◌};
ghost use Rattle.wl_draft.specs.Tables.{find, put};
ghost use Rattle.wl_kernel.specs.Routes.{frame_of};
ghost use Rattle.wl_world_messages.specs.declared.effect.Effect.TheVariants as said;
ghost use Rattle.wl_world_messages.specs.declared.effect.Refusal.TheVariants.{NoMessage};
ghost use Rattle.wl_world_messages.specs.Messages.{is_sent};
ghost use Rattle.wl_agent.specs.Delivery.{delivery};
ghost use Rattle.wl_tab.specs.Tabs.{tab_in, told};
ghost use Rattle.wl_tab.specs.Arrivals.{arrival};
ghost use Rattle.wl_supervised_broker.specs.Supervising.{message_effect};
ghost use Rattle.wl_world_model.specs.World.{lives, takes_frame, arrives, arrives_at_broker, if_allowed, tab_of};
ghost use Rattle.wl_world_model.specs.Replies.{alive_or, delivering};
ghost use Rattle.wl_world.specs.Components.{report_if_said};

use crate::components::{Components, EventResult, of_broker, refused, silent};
use crate::sending;
use std::alloc::{AllocError, Global};
use std::collections::BTreeMap;
use wl_grammar::{Addressed, Answer, Downward, Frame, Hello, Stamped};
use wl_tab::{TabLocks, lock_tables};
use wl_world_messages::{Effect, Message, Reason, Refusal};

impl Components {
    /// Delivers a message. It is refused if it was never sent.
    pub fn deliver(&mut self, message: &Message) -> Result<EventResult, AllocError>
        ensures world { OnOk result (self.new
            ≡ (if_allowed (is_sent message.now self.old.bag)
            self.old (arrives self.old message.now)).world) }
        ensures said { IfOk result (λ done. done.said ≡ (if is_sent message.now self.old.bag
            then delivering self.old message.now else said.Refused NoMessage)) }
        ensures sends { IfOk result (λ done. done.sends.items
            ≡ (if_allowed (is_sent message.now self.old.bag)
            self.old (arrives self.old message.now)).sends) }
    {
        if !self.was_sent(message) {
            return Ok(refused(self.alloc, Refusal::NoMessage));
        }
        match message {
            Message::Up(stamped) => self.bring(stamped),
            Message::Down { addressed, .. } => self.hear(addressed),
            Message::Across { tab, heard } => self.hear_post(*tab, heard),
        }
    }

    fn was_sent(&self, message: &Message) -> bool
        ensures { result ≡ is_sent message.now self.now.bag }
    {
        self.bag.find(message).is_some()
    }

    /// Delivers a command or a report to the broker.
    pub fn bring(&mut self, stamped: &Stamped) -> Result<EventResult, AllocError>
        ensures world { OnOk result (self.new ≡ (arrives_at_broker self.old stamped.now self.old.broker).world) }
        ensures said { IfOk result (λ done. done.said ≡ message_effect stamped.now self.old.broker) }
        ensures sends { IfOk result (λ done.
            done.sends.items ≡ (arrives_at_broker self.old stamped.now self.old.broker).sends) }
    {
        let outcome = self.supervisor.take(self.alloc, stamped)?;
        of_broker(self.alloc, outcome)
    }

    /// Delivers a message of the broker or the kernel to a tab.
    #[tactic(auto, unfolding(wl_world_model::specs::World::acts, wl_tab::specs::Arrivals::arrival))]
    pub fn hear(&mut self, addressed: &Addressed) -> Result<EventResult, AllocError>
        ensures world { OnOk result (self.new ≡ (if_allowed (lives self.old addressed.now.tab) self.old
            (takes_frame self.old addressed.now.tab (frame_of addressed.now.inner))).world) }
        ensures said { IfOk result (λ done. done.said ≡ alive_or self.old addressed.now.tab
            (arrival (frame_of addressed.now.inner) (tab_of self.old addressed.now.tab))) }
        ensures sends { IfOk result (λ done.
            done.sends.items ≡ (if_allowed (lives self.old addressed.now.tab) self.old
            (takes_frame self.old addressed.now.tab (frame_of addressed.now.inner))).sends) }
    {
        let tab = addressed.tab;
        if !self.lives(tab) {
            return Ok(silent(self.alloc, Effect::Dropped(Reason::DeadTab)));
        }
        let said = delivered(&mut self.tabs, tab, &addressed.inner)?;
        let sends = self.reported(tab, &said)?;
        Ok(EventResult { said, sends })
    }

    /// Returns the tab's report if the reply says that the tab has entered a generation, else nothing.
    fn reported(&self, tab: u16, said: &Effect) -> Result<Vec<Message>, AllocError>
        requires { lives self.now tab ≡ true }
        ensures { IfOk result (λ ms.
            ms.items ≡ report_if_said self.now.kernel tab (tab_of self.now tab) said.now) }
    {
        let Effect::Entered { .. } = said else {
            return Ok(Vec::new(self.alloc));
        };
        let mut sends = Vec::new(self.alloc);
        sending::add_report(self.supervisor.tabs(), tab, self.locks(tab), &mut sends)?;
        Ok(sends)
    }
}

/// Delivers a frame of the broker or the kernel to a tab's locks and returns the reply.
fn delivered(
    tabs: &mut BTreeMap<u16, TabLocks>,
    tab: u16,
    inner: &Downward,
) -> Result<Effect, AllocError>
    requires there { is_some (find tabs.old.entries tab) ≡ true }
    ensures tabs { let a = tab_in tab (find tabs.old.entries tab) in
        OnOk result (tabs.new.entries ≡ put tab (told (delivery (frame_of inner.now) a).0) tabs.old.entries) }
    ensures said { IfOk result (λ said.
        said ≡ arrival (frame_of inner.now) (tab_in tab (find tabs.old.entries tab))) }
    ensures rows { (t : ℕ) → is_some (find tabs.new.entries t) ≡ is_some (find tabs.old.entries t) }
{
    let frame = frame_of(inner)?;
    lock_tables::deliver_at(tabs, tab, &frame)
}

/// Converts a body addressed to a tab into the frame that the tab receives.
fn frame_of(inner: &Downward) -> Result<Frame, AllocError>
    ensures { IfOk result (λ f. f ≡ frame_of inner.now) }
{
    Ok(match inner {
        Downward::Hello(hello) => Frame::Hello(Hello {
            generation: hello.generation,
        }),
        Downward::Answer(answer) => Frame::Answer(Answer {
            generation: answer.generation,
            upto: answer.upto,
            number: answer.number,
            outcome: answer.outcome,
        }),
        Downward::Snapshot(snapshot) => Frame::Snapshot(snapshot.get().clone()?),
    })
}
