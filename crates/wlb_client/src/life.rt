//! Creation and end of a client.

ghost use Rattle.std.specs.Prelude.{◌≡◌, ◌⊎◌, IfOk, Some, None, option_map};
ghost use Rattle.wlb_client.specs.Pages.{new_page};
ghost use Rattle.wlb_client.specs.declared.status.TheConstants.{WLB_OK, WLB_MEMORY};

use crate::handle::Handle;
use crate::page::Page;
use crate::status::{WLB_MEMORY, WLB_OK};
use std::alloc::{AllocError, Global};
use wl_raw_box::RawBox;

/// Creates a handle that holds a new client. Fails if out of memory.
fn made(alloc: Global) -> Result<Handle, AllocError>
    ensures { IfOk result (λ h. h.value ≡ Some new_page) }
{
    let page = Box::new(alloc, Page::new(alloc))?;
    Ok(Handle::of(RawBox::of(page)))
}

/// Takes the client out of its handle. Returns `None` if the handle holds nothing.
pub(crate) fn taken(handle: &mut Handle, alloc: Global) -> Option<Box<Page>>
    ensures page { option_map (λ b. b.value) result ≡ handle.old.value }
    ensures empty { handle.new.value ≡ None }
{
    let handle = std::mem::replace(handle, Handle::empty());
    let raw = handle.into_raw_box(alloc)?;
    Some(raw.into_box())
}

/// Puts a client into a handle.
pub(crate) fn put(handle: &mut Handle, page: Box<Page>)
    ensures { handle.new.value ≡ Some page.value }
{
    *handle = Handle::of(RawBox::of(page));
}

/// Creates a client that has not been welcomed. A client that the handle holds is freed first.
#[unsafe(no_mangle)]
pub extern "C" fn wlb_client_new(handle: &mut Handle, alloc: Global) -> i32
    ensures status { (result ≡ WLB_OK) ⊎ (result ≡ WLB_MEMORY) }
    ensures ok { result ≡ WLB_OK → handle.new.value ≡ Some new_page }
    ensures memory { result ≡ WLB_MEMORY → handle.new.value ≡ None }
{
    drop(taken(handle, alloc));
    match made(alloc) {
        Ok(new) => {
            *handle = new;
            WLB_OK
        }
        Err(_) => WLB_MEMORY,
    }
}

/// Frees the client. The handle holds nothing afterwards.
#[unsafe(no_mangle)]
pub extern "C" fn wlb_client_free(handle: &mut Handle, alloc: Global)
    ensures { handle.new.value ≡ None }
{
    drop(taken(handle, alloc));
}
