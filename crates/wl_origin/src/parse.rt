//! Partitions from URLs.

ghost use Rattle.std.specs.Prelude.{◌≡◌, ◌⊎◌, ◌≤◌, length, IfOk, IfErr, Ok, Err};
ghost use Rattle.wl_origin.specs.Partition.{origin_of_text, partition_of, partition_of_pair};
ghost use Rattle.wl_limits.specs.declared.texts.TheConstants.{URL_LIMIT};

use crate::fault::OriginFault;
use crate::origin_pair::Partition;
use crate::tuple_origin::TupleOrigin;
use std::alloc::Global;
use url::Url;
use wl_limits::texts::URL_LIMIT;

/// Returns the partition of a top-level page, whose own origin is the top-level origin too. Fails
/// with `Memory` if out of memory, even if a later step would refuse the URL. Fails with `BadUrl`
/// if the URL is not valid or it or its origin is too long, and with `Security` if its origin is
/// opaque.
pub fn partition(alloc: Global, url: &str) -> Result<Partition, OriginFault>
    ensures ok { IfOk result (λ p. partition_of url.now ≡ Ok p) }
    ensures refused { IfErr result
        (λ e. (e ≡ OriginFault.Memory) ⊎ (partition_of url.now ≡ Err e)) }
    ensures memory { IfErr result (λ e. e ≡ OriginFault.Memory → length url.now ≤ URL_LIMIT) }
{
    let own = origin_of(alloc, url)?;
    let top = own.copy(alloc)?;
    Ok(Partition::new(top, own))
}

/// Returns the partition of a page under another top-level page. It parses the top-level URL first.
/// Fails with `Memory` if out of memory, even if a later step would refuse a URL. Other faults are
/// those of `partition`.
pub fn partition_pair(alloc: Global, top: &str, own: &str) -> Result<Partition, OriginFault>
    ensures ok { IfOk result (λ p. partition_of_pair top.now own.now ≡ Ok p) }
    ensures refused { IfErr result
        (λ e. (e ≡ OriginFault.Memory) ⊎ (partition_of_pair top.now own.now ≡ Err e)) }
    ensures memory { IfErr result (λ e. e ≡ OriginFault.Memory → length top.now ≤ URL_LIMIT) }
{
    let top_origin = origin_of(alloc, top)?;
    let own_origin = origin_of(alloc, own)?;
    Ok(Partition::new(top_origin, own_origin))
}

/// Returns the origin of an absolute URL.
fn origin_of(alloc: Global, url: &str) -> Result<TupleOrigin, OriginFault>
    ensures ok { IfOk result (λ o. origin_of_text url.now ≡ Ok o) }
    ensures refused { IfErr result
        (λ e. (e ≡ OriginFault.Memory) ⊎ (origin_of_text url.now ≡ Err e)) }
    ensures memory { IfErr result (λ e. e ≡ OriginFault.Memory → length url.now ≤ URL_LIMIT) }
{
    if url.len() > URL_LIMIT {
        return Err(OriginFault::BadUrl);
    }
    let origin = Url::parse(alloc, url)?.origin()?;
    TupleOrigin::of_origin(alloc, origin)
}
