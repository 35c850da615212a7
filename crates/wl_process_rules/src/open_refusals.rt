//! Reasons for which a tab was not opened, and their replies.

ghost use Rattle.std.specs.Prelude.{◌≡◌, Ok, Err};
ghost use Rattle.wl_process_rules.specs.declared.open_refusals.OpenError.TheVariants.{Failed as failed};
ghost use Rattle.wl_process.specs.declared.fault.ProcessFault.{ProcessFault};
ghost use Rattle.wl_process.specs.declared.fault.ProcessFault.TheVariants.{Memory as memory};

use crate::KernelReply;
use std::alloc::{AllocError, AllocFailed};
use wl_kernel::OpenFault;
use wl_origin::OriginFault;
use wl_process::ProcessFault;

/// Reason for which a tab was not opened.
#[derive(Clone, Copy, Debug, PartialEq, Eq)]
pub enum OpenError {
    /// Every tab number has been drawn.
    TabsUsedUp,
    /// The kernel refused the opening.
    Refused(OpenFault),
    /// The kernel process cannot continue.
    Failed(ProcessFault),
}

impl From<AllocError> for OpenError {
    ghost from_gives = { λ _ e. e ≡ failed memory };

    fn from(_refused: AllocError) -> OpenError {
        OpenError::Failed(ProcessFault::Memory)
    }
}

impl<T: Drop> From<AllocFailed<T>> for OpenError {
    ghost from_gives = { λ _ e. e ≡ failed memory };

    fn from(_refused: AllocFailed<T>) -> OpenError {
        OpenError::Failed(ProcessFault::Memory)
    }
}

impl From<OpenFault> for OpenError {
    ghost use Rattle.wl_process_rules.specs.OpenRefusals.{of_open};

    ghost from_gives = { λ fault e. e ≡ of_open fault };

    fn from(fault: OpenFault) -> OpenError {
        match fault {
            OpenFault::Memory => OpenError::Failed(ProcessFault::Memory),
            fault => OpenError::Refused(fault),
        }
    }
}

/// Returns the reply to a page without a partition. Fails with `Memory` if out of memory: nothing is printed
/// and the process ends.
pub fn unread_reply(fault: OriginFault) -> Result<KernelReply<'static>, ProcessFault>
    ensures bad_url { fault ≡ OriginFault.BadUrl → result ≡ Ok KernelReply.BadUrl }
    ensures security { fault ≡ OriginFault.Security → result ≡ Ok KernelReply.SecurityError }
    ensures memory { fault ≡ OriginFault.Memory → result ≡ Err ProcessFault.Memory }
{
    match fault {
        OriginFault::BadUrl => Ok(KernelReply::BadUrl),
        OriginFault::Security => Ok(KernelReply::SecurityError),
        OriginFault::Memory => Err(ProcessFault::Memory),
    }
}

/// Returns the reply to a tab that was not opened. Fails with the process's fault if it cannot continue, and
/// with `Memory` if out of memory. Nothing is printed then.
pub fn unopened_reply(fault: OpenError) -> Result<KernelReply<'static>, ProcessFault>
    ensures used_up { fault ≡ OpenError.TabsUsedUp → result ≡ Ok KernelReply.TabsUsedUp }
    ensures taken { fault ≡ OpenError.Refused OpenFault.NumberTaken → result ≡ Ok KernelReply.NumberTaken }
    ensures living { fault ≡ OpenError.Refused OpenFault.TooManyLiving
        → result ≡ Ok KernelReply.TooManyLiving }
    ensures full { fault ≡ OpenError.Refused OpenFault.PartitionFull
        → result ≡ Ok KernelReply.PartitionFull }
    ensures memory { fault ≡ OpenError.Refused OpenFault.Memory → result ≡ Err ProcessFault.Memory }
    ensures failed { (f : ProcessFault) → fault ≡ OpenError.Failed f → result ≡ Err f }
{
    match fault {
        OpenError::TabsUsedUp => Ok(KernelReply::TabsUsedUp),
        OpenError::Refused(OpenFault::NumberTaken) => Ok(KernelReply::NumberTaken),
        OpenError::Refused(OpenFault::TooManyLiving) => Ok(KernelReply::TooManyLiving),
        OpenError::Refused(OpenFault::PartitionFull) => Ok(KernelReply::PartitionFull),
        OpenError::Refused(OpenFault::Memory) => Err(ProcessFault::Memory),
        OpenError::Failed(fault) => Err(fault),
    }
}
