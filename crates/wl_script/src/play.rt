//! Playing of script lines: the effect of a line on the world and the text printed for it. Each
//! function appends to the output.

ghost use Rattle.std.specs.Prelude.{◌≡◌, ◌≢◌, false, true, ◌++◌, is_none, IfOk, OnOk};
ghost use Rattle.std.specs.List.{flat_map};
ghost use Rattle.std.specs.Option.{option_copied};
ghost use Rattle.wl_origin.specs.Partition.{partition_of, partition_of_pair};
ghost use Rattle.wl_kernel.specs.Kernel.{open_refusal};
ghost use Rattle.wl_script.specs.ReplyTexts.{reply_text};
ghost use Rattle.wl_script.specs.Played.{plays, says, fault_text, opening, opens, opens_url, named as message_named, delivers, holding_text, holdings_text, played};
ghost use Rattle.wl_script.specs.SimSteps.{Becomes, is_opened};

use crate::message_text::put_lock;
use crate::reply_text::put_reply;
use crate::sim_line::SimLine;
use std::alloc::{AllocError, Global};
use wl_frames::Sequence;
use wl_origin::{OriginFault, Partition, partition, partition_pair};
use wl_script_words::printing::{put, put_number};
use wl_world::event::Event;
use wl_world::holding::Holding;
use wl_world::message::Message;
use wl_world::reply::{Effect, Reply};
use wl_world::world::World;

/// Plays a line and returns the world after it.
#[tactic(auto, unfolding(crate::specs::Played::played))]
pub(crate) fn play(
    alloc: Global,
    world: World,
    line: SimLine,
    out: &mut Vec<u8>,
) -> Result<World, AllocError>
    ensures { IfOk result (λ after. Becomes (played world.world line) after out.old.items out.new.items) }
{
    match line {
        SimLine::Blank => Ok(world),
        SimLine::Open { tab, url } => open(alloc, world, tab, url.as_str(), out),
        SimLine::OpenTwo { tab, top, url } => {
            open_two(alloc, world, tab, top.as_str(), url.as_str(), out)
        }
        SimLine::StartAll => {
            let living = Sequence::new(world.living().to_vec(alloc)?);
            happen(alloc, world, Event::Start(living), out)
        }
        SimLine::Deliver { name } => deliver(alloc, world, name, out),
        SimLine::Show => show(world, out),
        SimLine::Happens(event) => happen(alloc, world, event, out),
    }
}

/// Plays an event and prints the reply.
fn happen(alloc: Global, world: World, event: Event, out: &mut Vec<u8>) -> Result<World, AllocError>
    ensures { IfOk result (λ after. Becomes (plays world.world event) after out.old.items out.new.items) }
{
    let (world, reply) = world.step(event)?;
    answer(alloc, reply, out)?;
    Ok(world)
}

/// Prints a reply and drops it.
fn answer(alloc: Global, reply: Reply, out: &mut Vec<u8>) -> Result<(), AllocError>
    ensures { OnOk result (out.new.items ≡ out.old.items ++ reply_text reply) }
{
    put_reply(alloc, out, &reply)
}

/// Prints a line and leaves the world unchanged.
fn say(world: World, text: &str, out: &mut Vec<u8>) -> Result<World, AllocError>
    ensures { IfOk result (λ after. Becomes (says world.world text.now) after out.old.items out.new.items) }
{
    put(out, text)?;
    put(out, "\n")?;
    Ok(world)
}

// Openings

/// Opens a tab if its URL has a partition.
fn open(
    alloc: Global,
    world: World,
    tab: u16,
    url: &str,
    out: &mut Vec<u8>,
) -> Result<World, AllocError>
    ensures { IfOk result (λ after.
        Becomes (opens_url false world.world tab (partition_of url.now)) after out.old.items out.new.items) }
{
    match partition(alloc, url) {
        Ok(partition) => open_in(alloc, world, tab, partition, false, out),
        Err(fault) => refuse(world, fault, out),
    }
}

/// Opens a tab that reports in parts, if its URLs have a partition.
fn open_two(
    alloc: Global,
    world: World,
    tab: u16,
    top: &str,
    url: &str,
    out: &mut Vec<u8>,
) -> Result<World, AllocError>
    ensures { IfOk result (λ after.
        Becomes (opens_url true world.world tab
        (partition_of_pair top.now url.now)) after out.old.items out.new.items) }
{
    match partition_pair(alloc, top, url) {
        Ok(partition) => open_in(alloc, world, tab, partition, true, out),
        Err(fault) => refuse(world, fault, out),
    }
}

/// Prints why the URLs have no partition. Fails if out of memory.
fn refuse(world: World, fault: OriginFault, out: &mut Vec<u8>) -> Result<World, AllocError>
    ensures says { IfOk result (λ after.
        Becomes (says world.world (fault_text fault)) after out.old.items out.new.items) }
    ensures fault { OnOk result (fault ≢ OriginFault.Memory) }
{
    match fault {
        OriginFault::BadUrl => say(world, "BadUrl", out),
        OriginFault::Security => say(world, "SecurityError", out),
        OriginFault::Memory => Err(AllocError),
    }
}

/// Opens a tab if the kernel allows it. The kernel then greets the tab if a broker is up.
fn open_in(
    alloc: Global,
    world: World,
    tab: u16,
    partition: Partition,
    in_parts: bool,
    out: &mut Vec<u8>,
) -> Result<World, AllocError>
    ensures { IfOk result (λ after.
        Becomes (opens in_parts world.world tab partition) after out.old.items out.new.items) }
{
    let is_up = world.is_up();
    let (world, is_opened) = try_open(alloc, world, tab, partition, in_parts, out)?;
    if is_opened && is_up {
        return happen(alloc, world, Event::Hello { tab }, out);
    }
    Ok(world)
}

/// Plays the opening event. Returns the world and whether the tab was opened.
fn try_open(
    alloc: Global,
    world: World,
    tab: u16,
    partition: Partition,
    in_parts: bool,
    out: &mut Vec<u8>,
) -> Result<(World, bool), AllocError>
    ensures plays { IfOk result (λ r.
        Becomes (plays world.world (opening in_parts tab partition)) r.0 out.old.items out.new.items) }
    ensures opened { IfOk result (λ r. r.1 ≡ is_none (open_refusal tab partition world.world.kernel)) }
{
    let (world, reply) = world.step(opening(tab, partition, in_parts))?;
    let is_opened = is_opening(&reply);
    answer(alloc, reply, out)?;
    Ok((world, is_opened))
}

fn opening(tab: u16, partition: Partition, in_parts: bool) -> Event
    ensures { result ≡ opening in_parts tab partition }
{
    if in_parts {
        Event::OpenTwo { tab, partition }
    } else {
        Event::Open { tab, partition }
    }
}

fn is_opening(reply: &Reply) -> bool
    ensures { result ≡ is_opened reply.now.said }
{
    matches!(
        &reply.said,
        Effect::Opened { .. } | Effect::OpenedTwo { .. }
    )
}

// Deliveries

/// Delivers the message of this name, or prints `no message`.
fn deliver(alloc: Global, world: World, name: u64, out: &mut Vec<u8>) -> Result<World, AllocError>
    ensures { IfOk result (λ after.
        Becomes (delivers world.world (message_named world.world name)) after out.old.items out.new.items) }
{
    let Some(message) = named(&world, name) else {
        return say(world, "no message", out);
    };
    let message = message.copy()?;
    happen(alloc, world, Event::Deliver(message), out)
}

/// Returns the message of this name. Names count from 1 in the order of sending.
fn named(world: &World, name: u64) -> Option<&Message>
    ensures { option_copied result ≡ message_named world.now.world name }
{
    if name == 0 {
        return None;
    }
    world.message((name - 1) as usize)
}

// Holdings

/// Prints the locks held by living tabs.
#[tactic(auto, unfolding(crate::specs::Played::played))]
fn show(world: World, out: &mut Vec<u8>) -> Result<World, AllocError>
    ensures { IfOk result (λ after.
        Becomes (played world.world SimLine.Show) after out.old.items out.new.items) }
{
    let holdings = world.holdings()?;
    put_holdings(out, holdings.as_slice())?;
    Ok(world)
}

#[tactic(auto, unfolding(crate::specs::Played::holdings_text))]
fn put_holdings(out: &mut Vec<u8>, holdings: &[Holding]) -> Result<(), AllocError>
    ensures { OnOk result (out.new.items ≡ out.old.items ++ holdings_text holdings.now) }
{
    match holdings {
        [] => put(out, "nothing held\n"),
        _ => put_all_holdings(out, holdings),
    }
}

fn put_all_holdings(out: &mut Vec<u8>, holdings: &[Holding]) -> Result<(), AllocError>
    ensures { OnOk result (out.new.items ≡ out.old.items ++ flat_map holding_text holdings.now) }
{
    for holding in holdings {
        put_holding(out, holding)?;
    }
    Ok(())
}

#[tactic(auto, unfolding(crate::specs::Played::holding_text))]
fn put_holding(out: &mut Vec<u8>, holding: &Holding) -> Result<(), AllocError>
    ensures { OnOk result (out.new.items ≡ out.old.items ++ holding_text holding.now) }
{
    put_number(out, u64::from(holding.tab))?;
    put(out, "#")?;
    put_number(out, u64::from(holding.number))?;
    put(out, " ")?;
    put_lock(out, holding.mode, &holding.name)?;
    put(out, "\n")
}
