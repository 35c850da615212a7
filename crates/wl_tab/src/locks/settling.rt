//! Settling of tokens by the results of their numbers.

ghost use Rattle.std.specs.Prelude.{◌≡◌, ◌≤◌, vec_len, vec_capacity};
ghost use Rattle.wl_tab.specs.Telling.{fate_of, after_telling, told_run};

use crate::locks::live_command::LiveCommand;
use wl_agent::{Agent, Foreign, ProbeSettled, QuerySettled, Settled, Snapshot, Token};

/// Result of settling a token.
pub enum Settlement {
    /// The token remains in use. It becomes a lock token if its request was granted.
    Stays(Token),
    /// The number is over.
    Over,
    /// The query's snapshot is complete.
    Whole(Snapshot),
}

/// Settles a token by the state of its number. A token that the agent does not know stays as it is.
pub(crate) fn tell(agent: &mut Agent, token: Token) -> Settlement
    ensures fate { result ≡ fate_of agent.old token }
    ensures agent { agent.new ≡ after_telling token agent.old }
{
    match token {
        Token::Pending(pending) => match agent.settle(pending) {
            Ok(Settled::Waiting(pending)) => Settlement::Stays(Token::Pending(pending)),
            Ok(Settled::Held(lock)) => Settlement::Stays(Token::HeldLock(lock)),
            Err(Foreign { value }) => Settlement::Stays(Token::Pending(value)),
        },
        Token::Probe(probe) => match agent.settle_probe(probe) {
            Ok(ProbeSettled::Waiting(probe)) => Settlement::Stays(Token::Probe(probe)),
            Ok(ProbeSettled::Held(lock)) => Settlement::Stays(Token::HeldLock(lock)),
            Ok(ProbeSettled::Null) => Settlement::Over,
            Err(Foreign { value }) => Settlement::Stays(Token::Probe(value)),
        },
        Token::HeldLock(lock) => Settlement::Stays(Token::HeldLock(lock)),
        Token::Asking(asking) => match agent.settle_query(asking) {
            Ok(QuerySettled::Waiting(asking)) => Settlement::Stays(Token::Asking(asking)),
            Ok(QuerySettled::Whole(snapshot)) => Settlement::Whole(snapshot),
            Ok(QuerySettled::Lost) => Settlement::Over,
            Err(Foreign { value }) => Settlement::Stays(Token::Asking(value)),
        },
    }
}

/// Settles all tokens in order. Tokens that stay keep their order. Returns the snapshot of a query that is complete.
pub(crate) fn tell_all(agent: &mut Agent, kept: &mut Vec<LiveCommand>) -> Option<Snapshot>
    ensures agent { agent.new ≡ (told_run agent.old kept.old.items).agent }
    ensures kept { kept.new.items ≡ (told_run agent.old kept.old.items).kept }
    ensures snapshot { result ≡ (told_run agent.old kept.old.items).snapshot }
    ensures fewer { vec_len kept.new ≤ vec_len kept.old }
    ensures capacity { vec_capacity kept.new ≡ vec_capacity kept.old }
{
    let LiveCommand { operation, token } = kept.pop()?;
    let before = tell_all(agent, kept);
    match tell(agent, token) {
        Settlement::Stays(token) => {
            kept.push_reserved(LiveCommand { operation, token });
            before
        }
        Settlement::Over => before,
        Settlement::Whole(snapshot) => Some(snapshot),
    }
}
