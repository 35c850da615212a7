//! Welcome of a tab: the first frame that it receives.

ghost use Rattle.std.specs.Prelude.{◌≡◌, IfOk};
ghost use Rattle.wl_kernel.specs.Welcome.{texts_of, welcome};

use std::alloc::{AllocError, Global};
use std::marker::Model;
use wl_grammar::{Frame, Origin, PairWelcome, Welcome};
use wl_origin::Partition;

/// The origins of a page that its welcome contains.
#[derive(Drop)]
pub struct Origins {
    /// The origin of the top-level page, if the welcome contains both origins.
    top: Option<Origin>,
    own: Origin,
}

impl Model for Origins {
    ghost use Rattle.wl_kernel.specs.Welcome.{Texts};

    ghost Value = { Texts };

    ghost view = { λ o. record { top = o.top; own = o.own } };
}

impl Origins {
    /// Returns the origins of a page of this partition. The top origin is included if the page was opened as a pair.
    pub fn new(alloc: Global, partition: &Partition, is_pair: bool) -> Result<Origins, AllocError>
        ensures { IfOk result (λ o. o ≡ texts_of partition.now is_pair) }
    {
        let own = origin_of(alloc, partition.text())?;
        let top = match is_pair {
            true => Some(origin_of(alloc, partition.top_text())?),
            false => None,
        };
        Ok(Origins { top, own })
    }

    /// Returns the welcome of a tab.
    pub fn welcome(self, tab: u16) -> Frame
        ensures { result ≡ welcome tab self.top self.own }
    {
        let Origins { top, own } = self;
        match top {
            Some(top) => Frame::PairWelcome(PairWelcome { tab, top, own }),
            None => Frame::Welcome(Welcome { tab, origin: own }),
        }
    }
}

fn origin_of(alloc: Global, text: &str) -> Result<Origin, AllocError>
    ensures { IfOk result (λ o. o ≡ text.now) }
{
    Ok(Origin::new(String::from_str(alloc, text)?))
}
