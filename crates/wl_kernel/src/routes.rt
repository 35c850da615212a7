//! Routes of frames, up from the tabs and down from the broker.

ghost use Rattle.std.specs.Prelude.{◌≡◌, ◌≢◌, ◌==◌, ◌<◌, [], ◌∷◌, ◌++◌, ℕ, Some, IfOk, IfSome, IfNone, OnOk, OnErr, count_by, filter, map, not, vec_len, vec_capacity};
ghost use Rattle.wl_grammar.specs.declared.frame.Frame.TheVariants as frame_with;
ghost use Rattle.wl_kernel.specs.Kernel.{KernelState};
ghost use Rattle.wl_kernel.specs.Routes.{address_refusal, generation_of, frame_of, heard_of, waiting};

use crate::fault::RouteFault;
use std::alloc::{AllocError, Global};
use wl_grammar::{Addressed, Downward, Frame, Heard, Post, Sequence};

/// Destination of a tab's frame.
#[derive(Drop)]
pub enum Routed {
    /// The broker, if one runs.
    Broker(Frame),
    /// These tabs, by rising number.
    Tabs(Sequence<(u16, Frame)>),
}

/// Returns the generation of a broker's message.
pub(crate) fn generation_of(inner: &Downward) -> u32
    ensures { result ≡ generation_of inner.now }
{
    match inner {
        Downward::Hello(hello) => hello.generation,
        Downward::Answer(answer) => answer.generation,
        Downward::Snapshot(snapshot) => snapshot.get().generation,
    }
}

/// Returns the addressed message in the frame, or `None` for any other frame.
pub(crate) fn addressed_in(frame: Frame) -> Option<Addressed>
    ensures some { IfSome result (λ addressed. frame ≡ frame_with.Addressed addressed) }
    ensures none { IfNone result
        ((k : KernelState) (link : ℕ) → address_refusal k link frame ≡ Some RouteFault.WrongKind) }
{
    match frame {
        Frame::Addressed(addressed) => Some(addressed),
        _ => None,
    }
}

pub(crate) fn frame_of(inner: Downward) -> Frame
    ensures { result ≡ frame_of inner }
{
    match inner {
        Downward::Hello(hello) => Frame::Hello(hello),
        Downward::Answer(answer) => Frame::Answer(answer),
        Downward::Snapshot(snapshot) => Frame::Snapshot(snapshot.into_inner()),
    }
}

/// Returns the number of members other than the source.
fn others_of(source: u16, members: &[u16]) -> usize
    ensures { result ≡ count_by (λ n. not (n == source)) members.now }
{
    members.iter().filter(|member| **member != source).count()
}

/// Appends a copy of a post for this member.
fn copy_for(member: u16, post: &Heard, heard: &mut Vec<(u16, Frame)>) -> Result<(), AllocError>
    ensures { OnOk result (heard.new.items ≡ heard.old.items ++ (member, frame_with.Heard post.now) ∷ []) }
{
    heard.reserve(1)?;
    let copy = post.clone()?;
    heard.push_reserved((member, Frame::Heard(copy)));
    Ok(())
}

/// Clones the post for every recipient but the last, whose number is returned. The list has spare capacity for one more.
fn copies(
    alloc: Global,
    post: &Heard,
    members: &[u16],
    others: usize,
) -> Result<(Vec<(u16, Frame)>, Option<u16>), AllocError>
    ensures heard { IfOk result (λ r. r.0.items ++ waiting post.now r.1
        ≡ map (λ n. (n, frame_with.Heard post.now)) (filter (λ n. not (n == post.now.source)) members.now)) }
    ensures room { IfOk result (λ r. vec_len r.0 < vec_capacity r.0) }
{
    let mut heard = Vec::with_capacity(alloc, others)?;
    let mut last = None;
    for member in members {
        if *member == post.source {
            continue;
        }
        if let Some(earlier) = last {
            copy_for(earlier, post, &mut heard)?;
        }
        last = Some(*member);
    }
    heard.reserve(1)?;
    Ok((heard, last))
}

/// Converts a post into the form that other tabs receive.
fn as_heard(source: u16, post: Post) -> Heard
    ensures { frame_with.Heard result ≡ heard_of source post }
{
    let Post {
        number,
        channel,
        bytes,
    } = post;
    Heard {
        source,
        number,
        channel,
        bytes,
    }
}

/// Appends the post itself for the last recipient, if there is one.
fn with_post(copies: (Vec<(u16, Frame)>, Option<u16>), post: Heard) -> Vec<(u16, Frame)>
    requires { vec_len copies.0 < vec_capacity copies.0 }
    ensures { result.items ≡ copies.0.items ++ waiting post copies.1 }
{
    let (mut heard, last) = copies;
    match last {
        Some(member) => heard.push_reserved((member, Frame::Heard(post))),
        None => drop(post),
    }
    heard
}

/// Returns the post for each other member of the partition. The last one gets the post itself, the others get copies.
pub(crate) fn heard(
    alloc: Global,
    source: u16,
    post: Post,
    members: &[u16],
) -> Result<Vec<(u16, Frame)>, AllocError>
    ensures heard { IfOk result (λ heard.
        heard.items ≡ map (λ n. (n, heard_of source post)) (filter (λ n. not (n == source)) members.now)) }
    ensures growth { OnErr result (filter (λ n. not (n == source)) members.now ≢ []) }
{
    let others = others_of(source, members);
    if others == 0 {
        drop(post);
        return Ok(Vec::new(alloc));
    }
    let post = as_heard(source, post);
    match copies(alloc, &post, members, others) {
        Ok(copies) => Ok(with_post(copies, post)),
        Err(refused) => {
            drop(post);
            Err(refused)
        }
    }
}
