//! Creation and end of a hub.

ghost use Rattle.std.specs.Prelude.{◌≡◌, ◌⊎◌, IfOk, Some, None, option_map};
ghost use Rattle.wl_hub.specs.Hub.{new_hub};
ghost use Rattle.wlb_hub.specs.declared.status.TheConstants.{WLB_OK, WLB_MEMORY};

use crate::handle::Handle;
use crate::status::{WLB_MEMORY, WLB_OK};
use std::alloc::{AllocError, Global};
use wl_hub::Hub;
use wl_raw_box::RawBox;

/// Creates a handle that holds a new hub. Fails if out of memory.
fn made(alloc: Global) -> Result<Handle, AllocError>
    ensures { IfOk result (λ h. h.value ≡ Some new_hub) }
{
    let hub = Box::new(alloc, Hub::new(alloc))?;
    Ok(Handle::of(RawBox::of(hub)))
}

/// Takes the hub out of its handle. Returns `None` if the handle holds nothing.
pub(crate) fn taken(handle: &mut Handle, alloc: Global) -> Option<Box<Hub>>
    ensures hub { option_map (λ b. b.value) result ≡ handle.old.value }
    ensures empty { handle.new.value ≡ None }
{
    let handle = std::mem::replace(handle, Handle::empty());
    let raw = handle.into_raw_box(alloc)?;
    Some(raw.into_box())
}

/// Puts a hub into a handle.
pub(crate) fn put(handle: &mut Handle, hub: Box<Hub>)
    ensures { handle.new.value ≡ Some hub.value }
{
    *handle = Handle::of(RawBox::of(hub));
}

/// Creates a hub without tabs and without a broker. A hub that the handle holds is freed first.
#[unsafe(no_mangle)]
pub extern "C" fn wlb_hub_new(handle: &mut Handle, alloc: Global) -> i32
    ensures status { (result ≡ WLB_OK) ⊎ (result ≡ WLB_MEMORY) }
    ensures ok { result ≡ WLB_OK → handle.new.value ≡ Some new_hub }
    ensures memory { result ≡ WLB_MEMORY → handle.new.value ≡ None }
{
    drop(taken(handle, alloc));
    match made(alloc) {
        Ok(new) => {
            *handle = new;
            WLB_OK
        }
        Err(_) => WLB_MEMORY,
    }
}

/// Frees the hub. The handle holds nothing afterwards.
#[unsafe(no_mangle)]
pub extern "C" fn wlb_hub_free(handle: &mut Handle, alloc: Global)
    ensures { handle.new.value ≡ None }
{
    drop(taken(handle, alloc));
}
