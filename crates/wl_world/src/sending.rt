//! Messages that tabs and the broker send, in the form that the bag stores.

ghost use Rattle.std.specs.Prelude.{◌≡◌, ◌++◌, [], ◌∷◌, IfOk, OnOk, map};
ghost use Rattle.std.specs.List.{flat_map};
ghost use Rattle.wl_world.specs.Components.{passed_up};
ghost use Rattle.wl_world_model.specs.World.{from_broker};
ghost use Rattle.wl_world_model.specs.Sends.{command_message, issued_messages, report_messages, resent};

use std::alloc::{AllocError, Global};
use wl_broker::Outs;
use wl_grammar::{Addressed, Frame, Sequence};
use wl_kernel::{Routed, Tabs};
use wl_tab::TabLocks;
use wl_world_messages::{Message, Sender};

/// Converts the broker's output frames into messages. Fails if out of memory.
pub fn from_broker(alloc: Global, outs: Outs) -> Result<Vec<Message>, AllocError>
    ensures { IfOk result (λ ms. ms.items ≡ map from_broker outs) }
{
    let list = outs.into_list(alloc)?;
    list.into_iter().map(message_of).collect(alloc)
}

/// Converts one frame of the broker into a message.
fn message_of(addressed: Addressed) -> Message
    ensures { result ≡ from_broker addressed }
{
    Message::Down {
        sender: Sender::Broker,
        addressed,
    }
}

/// Adds a tab's frame for the broker, with the kernel's stamp. Fails if out of memory.
pub fn add_stamped(
    kernel: &Tabs,
    tab: u16,
    frame: Frame,
    sends: &mut Vec<Message>,
) -> Result<(), AllocError>
    ensures { OnOk result (sends.new.items ≡ sends.old.items ++ passed_up kernel.now tab frame) }
{
    match kernel.route_up(tab, frame) {
        Ok(Routed::Broker(Frame::Stamped(stamped))) => sends.push(Message::Up(stamped))?,
        // A living tab's frame for the broker is always routed there, so the kernel ran out of memory.
        _ => return Err(AllocError),
    }
    Ok(())
}

/// Returns the message of a newly issued command, or none if the tab has not entered a generation.
pub fn issued(
    alloc: Global,
    kernel: &Tabs,
    tab: u16,
    locks: &TabLocks,
    number: u32,
) -> Result<Vec<Message>, AllocError>
    ensures { IfOk result (λ ms. ms.items ≡ issued_messages kernel.now tab locks.now number) }
{
    let mut sends = Vec::new(alloc);
    if locks.entered() != 0 {
        add_command(kernel, tab, locks, number, &mut sends)?;
    }
    Ok(sends)
}

/// Adds the message of a command.
fn add_command(
    kernel: &Tabs,
    tab: u16,
    locks: &TabLocks,
    number: u32,
    sends: &mut Vec<Message>,
) -> Result<(), AllocError>
    ensures { OnOk result (sends.new.items
        ≡ sends.old.items ++ command_message kernel.now tab locks.now number ∷ []) }
{
    match locks.message(number) {
        Ok(frame) => add_stamped(kernel, tab, frame, sends),
        // The tab has issued the command and entered a generation, so memory has run out.
        Err(_) => Err(AllocError),
    }
}

/// Adds the messages of the tab's report, one for each part. Fails if out of memory.
pub fn add_report(
    kernel: &Tabs,
    tab: u16,
    locks: &TabLocks,
    sends: &mut Vec<Message>,
) -> Result<(), AllocError>
    ensures { OnOk result (sends.new.items ≡ sends.old.items ++ report_messages kernel.now tab locks.now) }
{
    match locks.report_frames() {
        Ok(frames) => add_all_stamped(kernel, tab, frames, sends),
        // The tab has entered a generation, so memory has run out.
        Err(_) => Err(AllocError),
    }
}

fn add_all_stamped(
    kernel: &Tabs,
    tab: u16,
    frames: Sequence<Frame>,
    sends: &mut Vec<Message>,
) -> Result<(), AllocError>
    ensures { OnOk result (sends.new.items ≡ sends.old.items ++ flat_map (passed_up kernel.now tab) frames) }
{
    for frame in frames.into_vec() {
        add_stamped(kernel, tab, frame, sends)?;
    }
    Ok(())
}

/// Returns the messages that the tab sends again: its report and commands, as far as they are due.
pub fn resent(
    alloc: Global,
    kernel: &Tabs,
    tab: u16,
    locks: &TabLocks,
) -> Result<Vec<Message>, AllocError>
    ensures { IfOk result (λ ms. ms.items ≡ resent kernel.now tab locks.now) }
{
    let resend = locks.resend()?;
    let mut sends = Vec::new(alloc);
    if resend.report {
        add_report(kernel, tab, locks, &mut sends)?;
    }
    for number in &resend.numbers {
        add_command(kernel, tab, locks, *number, &mut sends)?;
    }
    Ok(sends)
}
