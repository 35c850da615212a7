//! Results of answers, by the command that is answered and its outcome. A late answer is dropped, such as
//! a grant that arrives after the abort.

ghost use Rattle.std.specs.Prelude.{◌≡◌};
ghost use Rattle.std.specs.Option.{option_copied};
ghost use Rattle.wl_agent.specs.Delivery.{result_of_answer, result_of_lock_answer, result_of_asked_lock_answer, result_of_end_answer, result_of_query_answer, result_of_asked_query_answer};

use crate::delivered::Delivered;
use crate::drop_reason::DropReason;
use crate::status::Status;
use wl_grammar::{Operation, Outcome};

pub(crate) fn result_of_answer(
    number: u32,
    operation: &Operation,
    status: Option<&Status>,
    outcome: Outcome,
) -> Delivered
    ensures { result ≡ result_of_answer number operation.now (option_copied status.entry) outcome }
{
    match operation {
        Operation::Request { if_available, .. } => {
            result_of_lock_answer(number, *if_available, status, outcome)
        }
        Operation::Release { .. } | Operation::Abort { .. } => result_of_end_answer(
            number, outcome,
        ),
        Operation::Query => result_of_query_answer(number, status, outcome),
    }
}

fn result_of_lock_answer(
    number: u32,
    if_available: bool,
    status: Option<&Status>,
    outcome: Outcome,
) -> Delivered
    ensures { result ≡ result_of_lock_answer number if_available (option_copied status.entry) outcome }
{
    match status {
        Some(Status::Asked) => result_of_asked_lock_answer(number, if_available, outcome),
        Some(Status::Held) => Delivered::Dropped(DropReason::Held),
        _ => Delivered::Dropped(DropReason::Over),
    }
}

fn result_of_asked_lock_answer(number: u32, if_available: bool, outcome: Outcome) -> Delivered
    ensures { result ≡ result_of_asked_lock_answer number if_available outcome }
{
    match outcome {
        Outcome::Granted => Delivered::Granted(number),
        Outcome::Waiting if !if_available => Delivered::Waiting(number),
        Outcome::Gone if if_available => Delivered::Null(number),
        _ => Delivered::Dropped(DropReason::Odd),
    }
}

fn result_of_end_answer(number: u32, outcome: Outcome) -> Delivered
    ensures { result ≡ result_of_end_answer number outcome }
{
    match outcome {
        Outcome::Taken => Delivered::Taken(number),
        _ => Delivered::Dropped(DropReason::Odd),
    }
}

fn result_of_query_answer(number: u32, status: Option<&Status>, outcome: Outcome) -> Delivered
    ensures { result ≡ result_of_query_answer number (option_copied status.entry) outcome }
{
    match status {
        Some(Status::Querying(_)) => result_of_asked_query_answer(number, outcome),
        _ => Delivered::Dropped(DropReason::Over),
    }
}

fn result_of_asked_query_answer(number: u32, outcome: Outcome) -> Delivered
    ensures { result ≡ result_of_asked_query_answer number outcome }
{
    match outcome {
        Outcome::Gone => Delivered::Lost(number),
        _ => Delivered::Dropped(DropReason::Odd),
    }
}
