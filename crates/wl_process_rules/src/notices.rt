//! Frames that the kernel itself sends to tabs and the broker, and facts that it reads from theirs.

ghost use Rattle.std.specs.Prelude.{◌≡◌, IfOk, option_map};
ghost use Rattle.wl_grammar.specs.Grammar.{IsTab};
ghost use Rattle.wl_grammar.specs.declared.frame.Frame.TheVariants as frame_with;
ghost use Rattle.wl_process_rules.specs.Notices.{IsDeathOf, sent_for, late_for, is_beyond_hello};

use std::alloc::{AllocError, Global};
use std::marker::Model;
use wl_frames::{Dead, Downward, Frame, Hello};
use wl_kernel::KilledTab;
use wl_process::append;

/// The frame that tells the broker of a tab's death.
///
/// It is encoded when the tab is opened, because a death must not need memory. The kernel's table
/// reveals it: the broker cannot be told of a death that the table does not list.
#[derive(Drop)]
pub struct DeathNotice {
    tab: u16,
    bytes: Vec<u8>,
}

impl Model for DeathNotice {
    ghost use Rattle.std.specs.Prelude.{ℕ};
    ghost use Rattle.wl_process_rules.specs.Notices.{IsDeathOf};

    ghost Value = { ℕ };

    ghost view = { λ d. d.tab };

    ghost invariant = { λ d. IsDeathOf d.tab d.bytes.items };
}

impl DeathNotice {
    /// Encodes the notice of a tab's death.
    pub fn new(alloc: Global, tab: u16) -> Result<DeathNotice, AllocError>
        requires { IsTab tab }
        ensures { IfOk result (λ death. death ≡ tab) }
    {
        let mut bytes = Vec::new(alloc);
        append(&mut bytes, &Frame::Dead(Dead { tab }))?;
        Ok(DeathNotice { tab, bytes })
    }

    /// Returns the encoded frame for the broker.
    pub fn bytes(&self, killed: &KilledTab) -> &[u8]
        requires { killed.now ≡ self.now }
        ensures { IsDeathOf self.now result.now }
    {
        self.bytes.as_slice()
    }
}

/// Returns a Hello with the current generation, if the frame was sent for an earlier one. Returns `None` if no broker runs.
pub fn late_hello(frame: &Frame, current: Option<u32>) -> Option<Frame>
    ensures { result ≡ option_map (λ generation. frame_with.Hello (record { generation = generation }))
        (late_for (sent_for frame.now) current) }
{
    match (sent_for(frame), current) {
        (Some(sent), Some(generation)) if sent < generation => {
            Some(Frame::Hello(Hello { generation }))
        }
        _ => None,
    }
}

/// Returns the generation for which a stamped frame was sent.
fn sent_for(frame: &Frame) -> Option<u32>
    ensures { result ≡ sent_for frame.now }
{
    match frame {
        Frame::Stamped(stamped) => Some(stamped.inner.generation()),
        _ => None,
    }
}

/// Returns whether a broker's frame is an answer or a snapshot, not only a hello.
pub fn is_beyond_hello(frame: &Frame) -> bool
    ensures { result ≡ is_beyond_hello frame.now }
{
    match frame {
        Frame::Addressed(addressed) => !matches!(&addressed.inner, Downward::Hello(_)),
        _ => false,
    }
}
