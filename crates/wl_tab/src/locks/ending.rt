//! Aborts and releases of requests and locks.

ghost use Rattle.std.specs.Prelude.{◌≡◌, ◌&&◌, ◌==◌, false, length, position, Some, None, IfOk, OnOk, OnErr, if◌then◌else◌};
ghost use Rattle.wl_agent.specs.Tab.{aborted, released, status_of, is_asked};
ghost use Rattle.wl_agent.specs.Tokens.{is_pending, is_holding};
ghost use Rattle.wl_tab.specs.TabTokens.{abortion, is_open, number_of, can_abort, can_release};

use crate::locks::live_command::LiveCommand;
use crate::locks::{AbortResult, TabLocks};
use wl_agent::{AbortFault, Agent, Foreign, Token};

impl TabLocks {
    /// Aborts a request that is asked. Allocates no memory.
    pub fn abort(&mut self, number: u32) -> AbortResult
        ensures said { result ≡ abortion number self.old }
        ensures new { self.new ≡ (if is_pending self.old number && is_asked (status_of self.old number)
            then aborted number self.old else self.old) }
    {
        let Some(place) = place_of(&self.kept, number) else {
            return AbortResult::Nothing;
        };
        if !self.kept[place].is_request() {
            return AbortResult::Nothing;
        }
        if self.kept[place].is_lock() {
            return AbortResult::Held;
        }
        let LiveCommand { operation, token } = self.kept.remove(place);
        match abort(&mut self.agent, token) {
            Ok(next) => AbortResult::Issued(next),
            Err(token) => {
                // Unreachable: the stored token of a request that is not held is a pending one.
                self.kept.push_reserved(LiveCommand { operation, token });
                AbortResult::Nothing
            }
        }
    }

    /// Releases a lock that is held and returns the command's number, or `None` if it is not held. Allocates no memory.
    pub fn release(&mut self, number: u32) -> Option<u32>
        ensures next { result ≡ (if is_holding self.old number then Some (length self.old.issued) else None) }
        ensures new { self.new ≡ (if is_holding self.old number then released number self.old else self.old) }
    {
        let place = place_of(&self.kept, number)?;
        if !self.kept[place].is_lock() {
            return None;
        }
        let LiveCommand { operation, token } = self.kept.remove(place);
        match release(&mut self.agent, token) {
            Ok(next) => Some(next),
            Err(token) => {
                // Unreachable: the stored token of a held lock is a lock token.
                self.kept.push_reserved(LiveCommand { operation, token });
                None
            }
        }
    }
}

impl TabLocks {
    /// Returns whether the number is a request, a probe or a query that is asked, so that nothing has come of it.
    pub fn is_open(&self, number: u32) -> bool
        ensures { result ≡ is_open (status_of self.now number) }
    {
        match place_of(&self.kept, number) {
            Some(place) => !self.kept[place].is_lock(),
            None => false,
        }
    }
}

/// Returns the index of the number in `kept`.
fn place_of(kept: &[LiveCommand], number: u32) -> Option<usize>
    ensures { result ≡ position (λ k. number_of k.token == number) kept.now }
{
    kept.iter().position(|kept| kept.number() == number)
}

/// Aborts by a token. Fails with the token if the agent refuses it.
fn abort(agent: &mut Agent, token: Token) -> Result<u32, Token>
    ensures ok { OnOk result (agent.new ≡ aborted (number_of token) agent.old) }
    ensures next { IfOk result (λ next. next ≡ length agent.old.issued) }
    ensures refused { OnErr result (can_abort agent.old token ≡ false) }
{
    match token {
        Token::Pending(pending) => match agent.abort(pending) {
            Ok(next) => Ok(next),
            Err(AbortFault::Foreign(pending)) => Err(Token::Pending(pending)),
            Err(AbortFault::Held(lock)) => Err(Token::HeldLock(lock)),
        },
        token => Err(token),
    }
}

/// Releases by a token. Fails with the token if the agent refuses it.
fn release(agent: &mut Agent, token: Token) -> Result<u32, Token>
    ensures ok { OnOk result (agent.new ≡ released (number_of token) agent.old) }
    ensures next { IfOk result (λ next. next ≡ length agent.old.issued) }
    ensures refused { OnErr result (can_release agent.old token ≡ false) }
{
    match token {
        Token::HeldLock(lock) => match agent.release(lock) {
            Ok(next) => Ok(next),
            Err(Foreign { value }) => Err(Token::HeldLock(value)),
        },
        token => Err(token),
    }
}
