//! Memory for a step, all reserved before the broker is stepped.
//!
//! A list that grows step by step is moved repeatedly, each time to fresh memory. A history
//! therefore reserves space for all its steps at once, up to `STEP_LIMIT`, and each lane for its
//! share of them.

ghost use Rattle.std.specs.Prelude.{◌≡◌, ◌<◌, ◌↔◌, true, Err, OnOk, vec_len, vec_capacity};

use crate::locked::STEP_LIMIT;
use crate::receipt::{NotStepped, Step};
use std::alloc::AllocError;

/// Returns the number of steps that a history reserves space for at once.
fn steps_at_once(limit: u32) -> usize {
    limit.min(STEP_LIMIT) as usize
}

/// Returns the number of receipts that each lane reserves space for at once. All lanes together
/// reserve no more receipts than the history reserves steps.
pub(crate) fn receipts_at_once(limit: u32, lanes: u16) -> usize {
    steps_at_once(limit) / (lanes as usize).max(1)
}

/// Reserves space for at least one more item: for `reserve_step` items if memory allows, else for one.
pub(crate) fn for_one<T>(list: &mut Vec<T>, reserve_step: usize) -> Result<(), AllocError>
    ensures items { list.new.items ≡ list.old.items }
    ensures room { OnOk result (vec_len list.new < vec_capacity list.new) }
{
    if list.len() < list.capacity() || list.reserve(reserve_step.max(1)).is_ok() {
        return Ok(());
    }
    list.reserve(1)
}

/// Reserves space for a step and its mark. Fails with `GenerationSpent` if the book is spent.
pub(crate) fn for_step(
    is_spent: bool,
    limit: u32,
    steps: &mut Vec<Step>,
    marks: &mut Vec<bool>,
) -> Result<(), NotStepped>
    ensures steps { steps.new.items ≡ steps.old.items }
    ensures marks { marks.new.items ≡ marks.old.items }
    ensures step { OnOk result (vec_len steps.new < vec_capacity steps.new) }
    ensures mark { OnOk result (vec_len marks.new < vec_capacity marks.new) }
    ensures spent { (result ≡ Err NotStepped.GenerationSpent) ↔ (is_spent ≡ true) }
{
    if is_spent {
        return Err(NotStepped::GenerationSpent);
    }
    let reserve_step = steps_at_once(limit);
    for_one(steps, reserve_step)?;
    for_one(marks, reserve_step)?;
    Ok(())
}
