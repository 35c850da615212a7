//! Operations of a tab's commands, by number.

ghost use Rattle.std.specs.Prelude.{◌≡◌, ◌&&◌, true, get_or, length, nat_lt, Some, None, IfOk, if◌then◌else◌};
ghost use Rattle.wl_grammar.specs.declared.frame.Operation.TheVariants.{Query};
ghost use Rattle.wl_agent.specs.Tab.{is_request, is_probe, is_query};
ghost use Rattle.wl_agent.specs.AgentInvariant.{can_become, reports, entry_at};

use crate::status::Status;
use std::alloc::{AllocError, Global};
use wl_draft::Entry;
use wl_grammar::Operation;

pub(crate) fn is_request_at(issued: &[Operation], number: u32) -> bool
    ensures { result ≡ is_request (get_or issued.now number Query) }
{
    match issued.get(number as usize) {
        Some(Operation::Request { if_available, .. }) => !*if_available,
        _ => false,
    }
}

pub(crate) fn is_probe_at(issued: &[Operation], number: u32) -> bool
    ensures { result ≡ is_probe (get_or issued.now number Query) }
{
    match issued.get(number as usize) {
        Some(Operation::Request { if_available, .. }) => *if_available,
        _ => false,
    }
}

pub(crate) fn is_query_at(issued: &[Operation], number: u32) -> bool
    ensures { result ≡ (nat_lt number (length issued.now) && is_query (get_or issued.now number Query)) }
{
    matches!(issued.get(number as usize), Some(Operation::Query))
}

/// Returns the report entry of a number if its lock is held or its request is asked.
pub(crate) fn reported(
    issued: &[Operation],
    number: u32,
    status: &Status,
) -> Result<Option<Entry>, AllocError>
    requires { can_become (get_or issued.now number Query) status.now ≡ true }
    ensures { let o = get_or issued.now number Query in
        IfOk result (λ e. e ≡ (if reports o status.now then Some (entry_at number o status.now) else None)) }
{
    let Some(
        Operation::Request {
            mode,
            if_available,
            name,
        },
    ) = issued.get(number as usize)
    else {
        return Ok(None);
    };
    let held = matches!(status, Status::Held);
    if !held && *if_available {
        return Ok(None);
    }
    Ok(Some(Entry {
        number,
        held,
        mode: *mode,
        name: name.clone()?,
    }))
}
