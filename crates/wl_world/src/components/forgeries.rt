//! Tabs that are taken over, and the frames that they forge.

ghost use Rattle.std.specs.Prelude.{◌≡◌, IfOk, OnOk};
ghost use Rattle.wl_world_model.specs.World.{corrupts, forges, is_corrupt};
ghost use Rattle.wl_world_model.specs.Sends.{forgery};
ghost use Rattle.wl_world_model.specs.Replies.{corrupting, forging, some_forged};
ghost use Rattle.wl_agent.specs.Tab.{upward_frame};

use crate::components::channels::to_others;
use crate::components::{Components, EventResult, refused, silent};
use crate::event::Forged;
use crate::sending::add_stamped;
use std::alloc::{AllocError, Global};
use wl_grammar::{Frame, Upward};
use wl_kernel::Tabs;
use wl_world_messages::{Effect, Message, Refusal};

impl Components {
    /// Marks a tab as taken over, for good.
    pub fn corrupt(&mut self, tab: u16) -> Result<EventResult, AllocError>
        ensures world { OnOk result (self.new ≡ (corrupts self.old tab).world) }
        ensures said { IfOk result (λ done. done.said ≡ corrupting self.old tab) }
        ensures sends { IfOk result (λ done. done.sends.items ≡ (corrupts self.old tab).sends) }
    {
        if !self.lives(tab) {
            return Ok(refused(self.alloc, Refusal::NoTab));
        }
        if !self.is_corrupt(tab) {
            self.corrupt.push(tab)?;
        }
        Ok(silent(self.alloc, Effect::Corrupted { tab }))
    }

    /// Sends an arbitrary body from a tab. Fails with a refusal if the tab is honest.
    pub fn forge(&self, tab: u16, forged: &Forged) -> Result<EventResult, AllocError>
        ensures said { IfOk result (λ done. done.said ≡ forging self.now tab forged.now) }
        ensures sends { IfOk result (λ done. done.sends.items ≡ (forges self.now tab forged.now).sends) }
        ensures world { (forges self.now tab forged.now).world ≡ self.now }
    {
        if !self.lives(tab) {
            return Ok(refused(self.alloc, Refusal::NoTab));
        }
        if !self.is_corrupt(tab) {
            return Ok(refused(self.alloc, Refusal::Honest));
        }
        let sends = forgery(self.alloc, self.supervisor.tabs(), tab, forged)?;
        let said = forged_said(sends.as_slice());
        Ok(EventResult { said, sends })
    }

    fn is_corrupt(&self, tab: u16) -> bool
        ensures { result ≡ is_corrupt self.now tab }
    {
        self.corrupt.iter().any(|corrupt| *corrupt == tab)
    }
}

/// Returns the reply to a forgery: a refusal if a post reaches no other tab.
fn forged_said(sends: &[Message]) -> Effect
    ensures { result ≡ some_forged sends.now }
{
    if sends.is_empty() {
        return Effect::Refused(Refusal::Nothing);
    }
    Effect::Forged
}

/// Returns the messages of a forged body, as the kernel routes them.
fn forgery(
    alloc: Global,
    kernel: &Tabs,
    tab: u16,
    forged: &Forged,
) -> Result<Vec<Message>, AllocError>
    ensures { IfOk result (λ ms. ms.items ≡ forgery kernel.now tab forged.now) }
{
    match forged {
        Forged::Upward(upward) => {
            let frame = frame_of(upward.clone()?);
            let mut sends = Vec::new(alloc);
            add_stamped(kernel, tab, frame, &mut sends)?;
            Ok(sends)
        }
        Forged::Post(post) => to_others(alloc, kernel, tab, Frame::Post(post.clone()?)),
    }
}

/// Converts a command, a report or a part of a report into the frame that a tab sends.
fn frame_of(upward: Upward) -> Frame
    ensures { result ≡ upward_frame upward }
{
    match upward {
        Upward::Command(command) => Frame::Command(command),
        Upward::Report(report) => Frame::Report(report),
        Upward::ReportPart(part) => Frame::ReportPart(part),
    }
}
