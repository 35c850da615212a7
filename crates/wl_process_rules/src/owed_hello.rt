//! Hello owed to a tab because the tab's outbox was full.

ghost use Rattle.std.specs.Prelude.{◌≡◌, None};
ghost use Rattle.wl_process_rules.specs.OwedHello.{greeting, refused, settled, hello_due, noted};

use std::marker::Model;
use wl_frames::{Frame, Hello};

/// The generation of the newest Hello that did not fit into a tab's outbox and has not been made up for.
#[derive(Clone, Copy, Debug, PartialEq, Eq)]
pub struct OwedHello {
    generation: Option<u32>,
}

impl Model for OwedHello {
    ghost use Rattle.std.specs.Prelude.{ℕ, Option};

    ghost Value = { Option ℕ };

    ghost view = { λ o. o.generation };

    ghost inverse = { λ generation. record { generation = generation } };
}

impl OwedHello {
    /// Returns a state in which no Hello is owed.
    pub fn new() -> OwedHello
        ensures { result ≡ None }
    {
        OwedHello { generation: None }
    }

    /// Records whether a frame was put into the outbox. `greeting` is the generation of a Hello;
    /// other frames change nothing.
    pub fn note(&mut self, greeting: Option<u32>, is_put: bool)
        ensures { self.new ≡ noted greeting is_put self.old }
    {
        match (greeting, is_put) {
            (Some(generation), true) => self.settle(generation),
            (Some(generation), false) => self.refuse(generation),
            (None, _) => {}
        }
    }

    /// Records that the Hello of this generation did not fit. Nothing changes if a later one is owed already.
    pub fn refuse(&mut self, generation: u32)
        ensures { self.new ≡ refused generation self.old }
    {
        self.generation = match self.generation {
            Some(owed) if owed >= generation => Some(owed),
            _ => Some(generation),
        };
    }

    /// Settles the debt up to this generation, whose Hello was put.
    pub fn settle(&mut self, generation: u32)
        ensures { self.new ≡ settled generation self.old }
    {
        self.generation = self.generation.filter(|owed| *owed > generation);
    }

    /// Returns the Hello that the tab is owed.
    pub fn due(&self) -> Option<Frame>
        ensures { result ≡ hello_due self.now }
    {
        self.generation
            .map(|generation| Frame::Hello(Hello { generation }))
    }
}

/// Returns the generation of a Hello, or `None` for any other frame.
pub fn greeting_of(frame: &Frame) -> Option<u32>
    ensures { result ≡ greeting frame.now }
{
    match frame {
        Frame::Hello(hello) => Some(hello.generation),
        _ => None,
    }
}
