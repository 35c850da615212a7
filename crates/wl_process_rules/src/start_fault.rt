//! Fault of the kernel's process if no broker was started.

ghost use Rattle.std.specs.Prelude.{◌≡◌};
ghost use Rattle.wl_process_rules.specs.RunningKernel.{fault_of_start};

use wl_kernel::NotStarted;
use wl_process::ProcessFault;

/// Returns the fault of the process for the reason that no broker was started.
pub fn fault_of_start(reason: NotStarted) -> ProcessFault
    ensures { result ≡ fault_of_start reason }
{
    match reason {
        NotStarted::AlreadyUp => ProcessFault::Device,
        NotStarted::Memory => ProcessFault::Memory,
    }
}
