//! Handle of a client for C programs.

ghost use Rattle.std.specs.Prelude.{◌≡◌, Option, option_map};
ghost use Rattle.std.specs.declared.option.Option.TheVariants.{None, Some};
ghost use Rattle.wlb_client.specs.declared.page.Page.{Page};
ghost use Rattle.wlb_client.specs.Handle.{handle_owns};

use crate::page::Page;
use std::alloc::Global;
use std::marker::Model;
use wl_raw_box::RawBox;

/// A client with its last event, or nothing.
#[repr(C)]
#[derive(Drop)]
pub struct Handle {
    at: *mut u8,
    full: bool,
    /// State of the client, and its last event.
    pub ghost value: { Option Page },
}

impl Model for Handle {
    ghost also_owns = { λ h. handle_owns h.full h.at h.value };
}

unsafe impl Send for Handle {}

impl Handle {
    /// Creates a handle that holds nothing.
    pub fn empty() -> Handle
        ensures { result.value ≡ None }
    {
        Handle {
            at: std::ptr::null_mut(),
            full: false,
        }
    }

    /// Creates a handle that holds a client.
    pub fn of(raw: RawBox<Page, Global>) -> Handle
        ensures { result.value ≡ Some raw.value }
    {
        let RawBox { at, alloc: _ } = raw;
        Handle {
            at: at as *mut u8,
            full: true,
        }
    }

    /// Returns the box of the client that the handle holds.
    pub fn into_raw_box(self, alloc: Global) -> Option<RawBox<Page, Global>>
        ensures { option_map (λ b. b.value) result ≡ self.value }
    {
        let Handle { at, full } = self;
        if full {
            return Some(RawBox {
                at: at as *mut Page,
                alloc,
            });
        }
        None
    }
}
