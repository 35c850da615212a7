//! Restart of the broker, and the status page.

ghost use Rattle.std.specs.Prelude.{◌≡◌, ◌≢◌, false, None, is_some, option_map, IfSome};
ghost use Rattle.wl_kernel.specs.Kernel.{may_stop};
ghost use Rattle.wl_hub.specs.Hub.{hub_down, hub_restarted, status_of};
ghost use Rattle.wlb_hub.specs.Numbers.{capped, numbers_of};
ghost use Rattle.wlb_hub.specs.Statuses.{IsStatusOfRestart};
ghost use Rattle.wlb_hub.specs.declared.status.TheConstants.{WLB_OK, WLB_MEMORY, WLB_NO_HANDLE, WLB_GENERATIONS_USED_UP};

use crate::handle::Handle;
use crate::life::{put, taken};
use crate::status::{WLB_NO_HANDLE, WLB_OK, of_restart};
use std::alloc::Global;
use wl_hub::{Hub, HubStatus};

/// Numbers of a status page.
#[repr(C)]
#[derive(Clone, Copy)]
pub struct Numbers {
    /// Generation of the broker, or 0 if no broker is up.
    pub generation: u32,
    /// Number of living tabs.
    pub living: u32,
    /// Number of dead tabs that the broker has not been told of.
    pub untold: u32,
    /// Number of frames for tabs.
    pub outputs: u64,
}

/// Converts a count. A count of more than 32 bits becomes the greatest number.
fn capped(n: usize) -> u32
    ensures { result ≡ capped n }
{
    u32::try_from(n).unwrap_or(u32::MAX)
}

/// Converts the numbers of a status page.
fn numbers_of(status: HubStatus) -> Numbers
    ensures { result ≡ numbers_of status }
{
    Numbers {
        generation: status.generation.unwrap_or(0),
        living: capped(status.living),
        untold: capped(status.untold),
        outputs: status.outputs as u64,
    }
}

/// Starts the broker of the next generation.
fn restart(hub: &mut Hub) -> i32
    ensures status { IsStatusOfRestart result }
    ensures ok { result ≡ WLB_OK → hub.new ≡ hub_restarted hub.old }
    ensures memory { result ≡ WLB_MEMORY → hub.new ≡ hub_down hub.old }
    ensures used_up { result ≡ WLB_GENERATIONS_USED_UP → hub.new ≡ hub.old }
    ensures last { result ≡ WLB_GENERATIONS_USED_UP → may_stop hub.old.supervised.kernel ≡ false }
{
    match hub.restart() {
        Ok(()) => WLB_OK,
        Err(fault) => of_restart(fault),
    }
}

/// Starts the broker of the next generation with all living tabs. If out of memory, no broker is up.
#[unsafe(no_mangle)]
pub extern "C" fn wlb_hub_restart(handle: &mut Handle, alloc: Global) -> i32
    ensures empty { handle.old.value ≡ None → result ≡ WLB_NO_HANDLE }
    ensures kept { is_some handle.new.value ≡ is_some handle.old.value }
    ensures status { IfSome handle.old.value (λ h. IsStatusOfRestart result) }
    ensures ok { result ≡ WLB_OK → handle.new.value ≡ option_map hub_restarted handle.old.value }
    ensures memory { result ≡ WLB_MEMORY → handle.new.value ≡ option_map hub_down handle.old.value }
    ensures used_up { result ≡ WLB_GENERATIONS_USED_UP → handle.new.value ≡ handle.old.value }
    ensures last { result ≡ WLB_GENERATIONS_USED_UP → IfSome handle.old.value (λ h. may_stop h.supervised.kernel ≡ false) }
{
    let Some(mut hub) = taken(handle, alloc) else {
        return WLB_NO_HANDLE;
    };
    let status = restart(&mut hub);
    put(handle, hub);
    status
}

/// Writes the numbers of a status page.
#[unsafe(no_mangle)]
pub extern "C" fn wlb_hub_status(handle: &mut Handle, alloc: Global, numbers: &mut Numbers) -> i32
    ensures empty { handle.old.value ≡ None → result ≡ WLB_NO_HANDLE }
    ensures status { IfSome handle.old.value (λ h. result ≡ WLB_OK) }
    ensures unwritten { result ≢ WLB_OK → numbers.new ≡ numbers.old }
    ensures ok { result ≡ WLB_OK → IfSome handle.old.value (λ h. numbers.new ≡ numbers_of (status_of h)) }
    ensures same { handle.new.value ≡ handle.old.value }
{
    let Some(hub) = taken(handle, alloc) else {
        return WLB_NO_HANDLE;
    };
    *numbers = numbers_of(hub.status());
    put(handle, hub);
    WLB_OK
}
