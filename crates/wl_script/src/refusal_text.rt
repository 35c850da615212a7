//! The words for refused events and dropped messages. No reply reports a lack of memory, by
//! `law_answers`.

ghost use Rattle.std.specs.Prelude.{◌≡◌, ◌++◌, OnOk};
ghost use Rattle.wl_script.specs.ReplyTexts.{open_fault_text, start_fault_text, agent_fault_text, channel_fault_text, refusal_text, unheard_text, dropped_text, reason_text};

use std::alloc::AllocError;
use wl_agent::{AgentFault, DropReason};
use wl_broadcast::ChannelFault;
use wl_broker::Dropped;
use wl_kernel::{OpenFault, StartFault};
use wl_script_words::printing::{put, put_number};
use wl_world::reply::{Reason, Refusal};

/// Appends the reason why an event did nothing.
#[tactic(auto, unfolding(crate::specs::ReplyTexts::refusal_text))]
pub fn put_refusal(out: &mut Vec<u8>, refusal: Refusal) -> Result<(), AllocError>
    ensures { OnOk result (out.new.items ≡ out.old.items ++ refusal_text refusal) }
{
    match refusal {
        Refusal::NoTab => put(out, "no tab"),
        Refusal::Open(fault) => put(out, open_words(fault)),
        Refusal::AlreadyUp => put(out, "already up"),
        Refusal::Start(fault) => put_start_fault(out, fault),
        Refusal::AlreadyDown => put(out, "already down"),
        Refusal::GenerationsUsedUp => put(out, "GenerationsUsedUp"),
        Refusal::Down => put(out, "down"),
        Refusal::Living => put(out, "living"),
        Refusal::Ask(fault) => put(out, agent_words(fault)),
        Refusal::Held => put(out, "held"),
        Refusal::Nothing => put(out, "nothing"),
        Refusal::NoMessage => put(out, "no message"),
        Refusal::Channel(fault) => put(out, channel_words(fault)),
        Refusal::NoChannel => put(out, "no channel"),
        Refusal::InvalidState => put(out, "InvalidStateError"),
        Refusal::Honest => put(out, "honest"),
    }
}

#[tactic(auto, unfolding(crate::specs::ReplyTexts::open_fault_text))]
fn open_words(fault: OpenFault) -> &'static str
    ensures { result.now ≡ open_fault_text fault }
{
    match fault {
        OpenFault::NumberTaken => "NumberTaken",
        OpenFault::TooManyLiving => "TooManyLiving",
        OpenFault::PartitionFull => "PartitionFull",
        OpenFault::Memory => "Memory",
    }
}

#[tactic(auto, unfolding(crate::specs::ReplyTexts::start_fault_text))]
fn put_start_fault(out: &mut Vec<u8>, fault: StartFault) -> Result<(), AllocError>
    ensures { OnOk result (out.new.items ≡ out.old.items ++ start_fault_text fault) }
{
    match fault {
        StartFault::TooManyListed => put(out, "too many"),
        StartFault::NotRising => put(out, "not rising"),
        StartFault::Stranger(tab) => {
            put(out, "stranger ")?;
            put_number(out, u64::from(tab))
        }
        StartFault::Missing(tab) => {
            put(out, "missing ")?;
            put_number(out, u64::from(tab))
        }
        StartFault::Memory => put(out, "Memory"),
    }
}

#[tactic(auto, unfolding(crate::specs::ReplyTexts::agent_fault_text))]
fn agent_words(fault: AgentFault) -> &'static str
    ensures { result.now ≡ agent_fault_text fault }
{
    match fault {
        AgentFault::NotSupported => "NotSupportedError",
        AgentFault::NameTooLong => "NameTooLong",
        AgentFault::TooMany => "TooMany",
        AgentFault::NumbersUsedUp => "NumbersUsedUp",
        AgentFault::Memory => "Memory",
    }
}

#[tactic(auto, unfolding(crate::specs::ReplyTexts::channel_fault_text))]
fn channel_words(fault: ChannelFault) -> &'static str
    ensures { result.now ≡ channel_fault_text fault }
{
    match fault {
        ChannelFault::NameTooLong => "NameTooLong",
        ChannelFault::DataTooLong => "DataTooLong",
        ChannelFault::TooManyChannels => "TooManyChannels",
        ChannelFault::PostsUsedUp => "PostsUsedUp",
        ChannelFault::ForeignChannel => "ForeignChannel",
        ChannelFault::WrongKind => "WrongKind",
        ChannelFault::Memory => "Memory",
    }
}

/// Returns the reason why a message was dropped.
#[tactic(auto, unfolding(crate::specs::ReplyTexts::reason_text))]
pub fn reason_words(reason: Reason) -> &'static str
    ensures { result.now ≡ reason_text reason }
{
    match reason {
        Reason::DeadTab => "dead tab",
        Reason::AtTab(why) => unheard_words(why),
        Reason::OldPost => "old post",
        Reason::Down => "down",
        Reason::AtBroker(why) => dropped_words(why),
    }
}

#[tactic(auto, unfolding(crate::specs::ReplyTexts::unheard_text))]
fn unheard_words(why: DropReason) -> &'static str
    ensures { result.now ≡ unheard_text why }
{
    match why {
        DropReason::OldGeneration => "old generation",
        DropReason::LaterGeneration => "later generation",
        DropReason::Held => "held",
        DropReason::Over => "over",
        DropReason::Odd => "odd",
        DropReason::Twice => "twice",
        DropReason::WrongKind => "wrong kind",
        DropReason::Memory => "Memory",
    }
}

#[tactic(auto, unfolding(crate::specs::ReplyTexts::dropped_text))]
fn dropped_words(why: Dropped) -> &'static str
    ensures { result.now ≡ dropped_text why }
{
    match why {
        Dropped::OldGeneration => "old generation",
        Dropped::LaterGeneration => "later generation",
        Dropped::NotJoined => "not joined",
        Dropped::Recovering => "recovering",
        Dropped::OutOfTurn => "out of turn",
        Dropped::DeadTab => "dead tab",
        Dropped::AlreadyJoined => "already joined",
        Dropped::HeldByNewcomer => "held by newcomer",
        Dropped::BadReport => "bad report",
        Dropped::Misplaced => "misplaced",
        Dropped::TooMany => "too many",
        Dropped::PartTwice => "part twice",
        Dropped::Memory => "Memory",
    }
}
