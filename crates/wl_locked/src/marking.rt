//! Comparison of a history with its lanes' receipts, by marking places.

ghost use Rattle.std.specs.Prelude.{◌≡◌, ◌↔◌, ℕ, ◌<◌, true, false, IsTrue, length, map, slice_index_or, replicate, OnOk, IfOk, IfErr};
ghost use Rattle.wl_locked.specs.Receipts.{IsMadeOf, IsMismatch, total};
ghost use Rattle.wl_locked.specs.declared.shards.TheConstants.{SHARD_LIMIT};
ghost use Rattle.wl_locked.specs.Marks.{IsFree, IsMarked, IsRefused, AreMarked, AreRefused};

use crate::event::Reply;
use crate::lane::ShardReceipts;
use crate::receipt::{Receipt, Step};
use crate::shared_event::SharedEvent;

fn is_event(one: &SharedEvent, other: &SharedEvent) -> bool
    ensures { IsTrue result ↔ (one.now ≡ other.now) }
{
    one == other
}

fn is_reply(one: &Reply, other: &Reply) -> bool
    ensures { IsTrue result ↔ (one.now ≡ other.now) }
{
    one == other
}

/// Returns true if the receipt equals the step at its place, and the place is unmarked and not
/// below `least`.
fn fits(steps: &[Step], marks: &[bool], least: usize, receipt: &Receipt) -> bool
    requires { length marks.now ≡ length steps.now }
    ensures yes { result ≡ true → IsFree steps.now marks.now least receipt.now }
    ensures no { result ≡ false → IsFree steps.now marks.now least receipt.now → ⊥ }
{
    let place = receipt.place as usize;
    if place < least || place >= steps.len() || marks[place] {
        return false;
    }
    let step = &steps[place];
    is_event(&step.event, &receipt.event) && is_reply(&step.reply, &receipt.reply)
}

/// Marks the places of one lane's receipts. Fails with the place of the first receipt that does not
/// fit.
fn mark_lane(steps: &[Step], marks: &mut [bool], receipts: &[Receipt]) -> Result<(), u32>
    requires { length marks.old ≡ length steps.now }
    ensures ok { OnOk result (IsMarked steps.now 0 receipts.now marks.old marks.new) }
    ensures err { IfErr result (λ p. IsRefused steps.now 0 receipts.now marks.old p) }
{
    let mut least: usize = 0;
    for receipt in receipts {
        if !fits(steps, marks, least, receipt) {
            return Err(receipt.place);
        }
        marks[receipt.place as usize] = true;
        least = receipt.place as usize + 1;
    }
    Ok(())
}

/// Marks the places of all lanes' receipts of one shard. Fails with the place of the first receipt
/// that does not fit.
fn mark_all<L: ShardReceipts>(
    steps: &[Step],
    marks: &mut [bool],
    shard: u16,
    lanes: &[L],
) -> Result<(), u32>
    requires marks { length marks.old ≡ length steps.now }
    requires shard { shard < SHARD_LIMIT }
    ensures ok { OnOk result (AreMarked steps.now (map (L.kept shard) lanes.now) marks.old marks.new) }
    ensures err { IfErr result (λ p. AreRefused steps.now (map (L.kept shard) lanes.now) marks.old p) }
{
    for lane in lanes {
        mark_lane(steps, marks, lane.kept(shard))?;
    }
    Ok(())
}

/// Returns true if every place is marked.
fn all_marked(marks: &[bool]) -> bool
    ensures yes { result ≡ true → (p : ℕ) → p < length marks.now → slice_index_or marks.now p false ≡ true }
    ensures no { result ≡ false
        → (p : ℕ) × (p < length marks.now) × (slice_index_or marks.now p false ≡ false) }
{
    for mark in marks {
        if !*mark {
            return false;
        }
    }
    true
}

#[tactic(auto, using(crate::proofs::Runs::made, crate::proofs::Runs::fewer, crate::proofs::Runs::mismatch))]
/// Returns whether the lanes' receipts of one shard cover all steps. Fails with the place of the
/// first receipt that does not fit.
pub(crate) fn compare<L: ShardReceipts>(
    steps: &[Step],
    marks: &mut [bool],
    shard: u16,
    lanes: &[L],
) -> Result<bool, u32>
    requires marks { marks.old ≡ replicate (length steps.now) false }
    requires shard { shard < SHARD_LIMIT }
    ensures made { IfOk result (λ whole. whole ≡ true → IsMadeOf steps.now (map (L.kept shard) lanes.now)) }
    ensures fewer { IfOk result (λ whole.
        whole ≡ false → total (map (L.kept shard) lanes.now) < length steps.now) }
    ensures err { IfErr result (λ p. IsMismatch steps.now (map (L.kept shard) lanes.now) p) }
{
    mark_all(steps, marks, shard, lanes)?;
    Ok(all_marked(marks))
}
