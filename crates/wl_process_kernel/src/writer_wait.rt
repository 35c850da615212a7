//! Waiting of a tab's writer, which first flushes.

use crate::tab_outbox::TabOutbox;
use std::rt::Clock;
use std::sync::Wait;
use wl_board::Life;
use wl_process::link_buffer::LinkBuffer;
use wl_workers::Lives;

/// Lives of a tab's writer. Before it waits, it flushes the writer's buffer and puts the Hello owed to
/// the tab.
#[derive(Drop)]
pub(crate) struct FlushBeforeWait<'a, L> {
    pub(crate) buffer: &'a LinkBuffer<'a>,
    pub(crate) tab_outbox: &'a TabOutbox,
    pub(crate) lives: L,
}

impl<L: Lives> Lives for FlushBeforeWait<'_, L> {
    ghost answered = { λ f. L.answered f.lives };

    /// Flushes, puts the owed Hello, and waits.
    ///
    /// The writer waits only after it found the outbox empty, so there is room for the Hello. If a
    /// later Hello is refused, its put rings the bell, and this call does not sleep.
    fn wait<R: Wait + Clock>(&self, rt: &R) {
        self.buffer.flush();
        self.tab_outbox.put_owed(rt);
        self.lives.wait(rt);
    }

    fn look<R: Wait + Clock>(&mut self, rt: &R, tab: u16) -> Life {
        self.lives.look(rt, tab)
    }
}
