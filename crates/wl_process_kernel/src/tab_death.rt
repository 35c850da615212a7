//! Death of a tab: the end of its process, and the announcement to the board, the kernel's table and
//! the broker.

ghost use Rattle.std.specs.Prelude.{◌≡◌, ◌≢◌};

use crate::child_link::Watched;
use crate::shared_kernel::SharedKernel;
use std::net::Shutdown;
use std::os::unix::net::UnixStream;
use std::os::unix::process::ExitStatusExt;
use std::process::Child;
use std::sync::{Mutex, Wait};
use std::thread;
use std::time::Duration;
use wl_process::Host;
use wl_process_rules::{DeathNotice, status_of};
use wl_workers::ReadEnd;

/// How a tab's process is ended after its link has ended.
#[derive(Clone, Copy, Debug, PartialEq, Eq)]
pub enum Ending {
    /// The link ended without a fault: the process has a second to exit.
    AfterGrace,
    /// The link failed: the process is killed at once.
    AtOnce,
}

/// Returns the treatment of a tab's process for the way its link ended.
pub fn ending_after(end: ReadEnd) -> Ending
    ensures grace { end ≡ ReadEnd.End → result ≡ Ending.AfterGrace }
    ensures none { end ≢ ReadEnd.End → result ≡ Ending.AtOnce }
{
    match end {
        ReadEnd::End => Ending::AfterGrace,
        ReadEnd::Frame(_) | ReadEnd::Read | ReadEnd::TooManyReads | ReadEnd::Dead => Ending::AtOnce,
    }
}

/// The time that a process has to exit after its link ended without a fault, in milliseconds.
const GRACE: u32 = 1_000;

/// A tab's process.
#[derive(Drop)]
pub(crate) struct TabProcess {
    pub(crate) tab: u16,
    pub(crate) child: Mutex<Child>,
    pub(crate) link: Option<UnixStream>,
    /// The notice of the tab's death for the broker.
    pub(crate) death: DeathNotice,
    ghost of_tab: { death ≡ tab },
}

impl TabProcess {
    /// Kills the process if it still runs, and shuts its link down, which the process's children
    /// may have inherited.
    pub(crate) fn kill<R: Host>(&self, rt: &R) {
        let _ = self.child.lock(rt).kill();
        self.hang_up();
    }

    /// Shuts the link down for both sides.
    pub(crate) fn hang_up(&self) {
        if let Some(link) = &self.link {
            let _ = link.shutdown(Shutdown::Both);
        }
    }

    /// Ends the process and announces the tab's death.
    pub(crate) fn end_and_announce<R: Host>(&self, rt: &R, shared: &SharedKernel, ending: Ending) {
        let status = self.end(rt, ending);
        shared.announce_death(rt, self.tab, &self.death, status);
    }

    /// Ends the process and returns its exit status.
    fn end<R: Host>(&self, rt: &R, ending: Ending) -> u8 {
        self.hang_up();
        if ending == Ending::AfterGrace {
            self.wait_a_while(rt);
        }
        let mut child = self.child.lock(rt);
        let _ = child.kill();
        match child.wait() {
            Ok(status) => status_of(status.code(), status.signal()),
            Err(_) => status_of(None, None),
        }
    }

    /// Waits until the process has ended, for at most `GRACE` milliseconds.
    fn wait_a_while<R: Host>(&self, rt: &R) {
        for _turn in 0..GRACE {
            match self.child.lock(rt).try_wait() {
                Ok(None) => {}
                _ => return,
            }
            thread::sleep(rt, Duration::from_millis(1));
        }
    }
}

impl Watched for TabProcess {
    fn has_ended<R: Wait>(&self, rt: &R) -> bool {
        matches!(self.child.lock(rt).try_wait(), Ok(Some(_)))
    }
}

impl SharedKernel {
    /// Announces a tab's death: on the board, in the kernel's table, and to the broker by `death`. Then
    /// records the tab's exit status.
    pub(crate) fn announce_death<R: Host>(&self, rt: &R, tab: u16, death: &DeathNotice, status: u8)
        requires { death.now ≡ tab }
    {
        if let Ok(seat) = self.liveness_seat(tab) {
            seat.lock(rt).mark_dead(tab);
        }
        let killed = self.supervisor.lock(rt).kill(tab);
        if let Ok(killed) = killed {
            self.write(rt, death.bytes(&killed));
        }
        let outbox = self.outboxes.lock(rt).remove(&tab);
        if let Some(tab_outbox) = outbox {
            tab_outbox.bell.unpark();
        }
        self.ends.lock(rt).end(tab, status);
        self.ended.notify_all();
    }
}
