//! A client with the event that its page has taken last.

ghost use Rattle.std.specs.Prelude.{◌≡◌};
ghost use Rattle.wlb_client.specs.Pages.{new_page};

use std::alloc::Global;
use wl_client::{Client, Event};

/// A client with the event that its page has taken last.
#[derive(Drop)]
pub struct Page {
    pub client: Client,
    /// Event of the last call of `wlb_client_next_event` that returned one.
    pub last: Option<Event>,
}

impl Page {
    /// Creates a page whose client has not been welcomed.
    pub fn new(alloc: Global) -> Page
        ensures { result ≡ new_page }
    {
        Page {
            client: Client::new(alloc),
            last: None,
        }
    }
}
