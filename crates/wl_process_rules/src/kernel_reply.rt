//! The kernel's output.

ghost use Rattle.std.specs.Prelude.{◌≡◌, ◌++◌, OnOk};
ghost use Rattle.wl_process_rules.specs.KernelReplies.{opened_text, opened_two_text, ended_text};

use std::alloc::AllocError;
use wl_script_words::printing::{put, put_number, put_numbered};

/// A line that the kernel prints.
#[derive(Clone, Copy, Debug, PartialEq, Eq)]
pub enum KernelReply<'a> {
    /// A broker of this generation was started.
    Up(u32),
    AlreadyUp,
    /// A tab was opened for a page of this origin.
    Opened {
        tab: u16,
        origin: &'a str,
    },
    /// A tab was opened for a page of this origin under a top-level origin.
    OpenedTwo {
        tab: u16,
        top: &'a str,
        origin: &'a str,
    },
    BadUrl,
    SecurityError,
    NumberTaken,
    TooManyLiving,
    PartitionFull,
    TabsUsedUp,
    /// The broker of this generation was stopped.
    Stopped(u32),
    AlreadyDown,
    GenerationsUsedUp,
    Killed(u16),
    NoTab,
    /// The tab's process ended with this status.
    Ended {
        tab: u16,
        status: u8,
    },
}

impl<'a> KernelReply<'a> {
    ghost use Rattle.wl_process_rules.specs.KernelReplies.{reply_text};

    /// Appends the line, with its line feed.
    #[tactic(auto, unfolding(crate::specs::KernelReplies::reply_text))]
    pub fn put(&self, out: &mut Vec<u8>) -> Result<(), AllocError>
        ensures { OnOk result (out.new.items ≡ out.old.items ++ reply_text self.now) }
    {
        match self {
            KernelReply::Up(generation) => put_numbered(out, "up", u64::from(*generation)),
            KernelReply::AlreadyUp => put(out, "already up\n"),
            KernelReply::Opened { tab, origin } => put_opened(out, *tab, origin),
            KernelReply::OpenedTwo { tab, top, origin } => put_opened_two(out, *tab, top, origin),
            KernelReply::BadUrl => put(out, "BadUrl\n"),
            KernelReply::SecurityError => put(out, "SecurityError\n"),
            KernelReply::NumberTaken => put(out, "NumberTaken\n"),
            KernelReply::TooManyLiving => put(out, "TooManyLiving\n"),
            KernelReply::PartitionFull => put(out, "PartitionFull\n"),
            KernelReply::TabsUsedUp => put(out, "TabsUsedUp\n"),
            KernelReply::Stopped(generation) => {
                put_numbered(out, "stopped", u64::from(*generation))
            }
            KernelReply::AlreadyDown => put(out, "already down\n"),
            KernelReply::GenerationsUsedUp => put(out, "GenerationsUsedUp\n"),
            KernelReply::Killed(tab) => put_numbered(out, "killed", u64::from(*tab)),
            KernelReply::NoTab => put(out, "no tab\n"),
            KernelReply::Ended { tab, status } => put_ended(out, *tab, *status),
        }
    }
}

#[tactic(auto, unfolding(crate::specs::KernelReplies::opened_text))]
fn put_opened(out: &mut Vec<u8>, tab: u16, origin: &str) -> Result<(), AllocError>
    ensures { OnOk result (out.new.items ≡ out.old.items ++ opened_text tab origin.now) }
{
    put(out, "opened ")?;
    put_number(out, u64::from(tab))?;
    put(out, " ")?;
    put(out, origin)?;
    put(out, "\n")
}

#[tactic(auto, unfolding(crate::specs::KernelReplies::opened_two_text))]
fn put_opened_two(out: &mut Vec<u8>, tab: u16, top: &str, origin: &str) -> Result<(), AllocError>
    ensures { OnOk result (out.new.items ≡ out.old.items ++ opened_two_text tab top.now origin.now) }
{
    put(out, "opened ")?;
    put_number(out, u64::from(tab))?;
    put(out, " ")?;
    put(out, top)?;
    put(out, " ")?;
    put(out, origin)?;
    put(out, "\n")
}

#[tactic(auto, unfolding(crate::specs::KernelReplies::ended_text))]
fn put_ended(out: &mut Vec<u8>, tab: u16, status: u8) -> Result<(), AllocError>
    ensures { OnOk result (out.new.items ≡ out.old.items ++ ended_text tab status) }
{
    put(out, "ended ")?;
    put_number(out, u64::from(tab))?;
    put(out, " ")?;
    put_number(out, u64::from(status))?;
    put(out, "\n")
}
