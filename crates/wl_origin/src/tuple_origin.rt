//! Origin with a scheme, a host and a port.

ghost use Rattle.std.specs.Prelude.{◌≡◌, ◌⊎◌, ◌↔◌, ◌≤◌, length, IfOk, IfErr, IsTrue, Ok, Err};
ghost use Rattle.std.specs.Ordering.{as_partial_cmp};
ghost use Rattle.std.specs.Cmp.{partial_order_from_own_ties};
ghost use Rattle.std.specs.Cmp.Rules.{comparing};
ghost use Rattle.std.proofs.Common.{rules};
ghost use Rattle.url.specs.Host.{owned_host};
ghost use Rattle.url.specs.Origin.{origin_tuple};
ghost use Rattle.wl_origin.specs.Partition.{origin_text, triple_of_origin};
ghost use Rattle.wl_origin.specs.Order.{triple_eq, triple_cmp};
ghost use Rattle.wl_limits.specs.declared.texts.TheConstants.{ORIGIN_LIMIT};

use crate::fault::OriginFault;
use std::alloc::{AllocError, Global};
use std::cmp::Ordering;
use std::marker::Model;
use url::{Host, Origin};
use wl_limits::texts::ORIGIN_LIMIT;

/// An origin: the scheme, host and port that its URLs have in common. Its ASCII text is stored with
/// them.
#[derive(Debug, Drop)]
pub struct TupleOrigin {
    scheme: String,
    host: Host<String>,
    port: u16,
    text: String,
}

impl Model for TupleOrigin {
    ghost use Rattle.url.specs.Origin.{Triple};

    ghost Value = { Triple };

    ghost use Rattle.wl_origin.specs.OriginText.{triple_of, KeepsText};

    ghost view = { triple_of };

    ghost invariant = { KeepsText };
}

impl TupleOrigin {
    /// Converts an origin of `url`. Fails with `Security` if it is opaque, with `BadUrl` if its
    /// text is too long, and with `Memory` if out of memory.
    pub(crate) fn of_origin(alloc: Global, origin: Origin) -> Result<TupleOrigin, OriginFault>
        ensures ok { IfOk result (λ p. triple_of_origin (origin_tuple origin) ≡ Ok p) }
        ensures refused { IfErr result
            (λ e. (e ≡ OriginFault.Memory) ⊎ (triple_of_origin (origin_tuple origin) ≡ Err e)) }
    {
        let text = origin.ascii_serialization(alloc)?;
        match origin {
            Origin::Opaque => Err(OriginFault::Security),
            Origin::Tuple(..) if text.as_str().len() > ORIGIN_LIMIT => Err(OriginFault::BadUrl),
            Origin::Tuple(scheme, host, port) => Ok(TupleOrigin {
                scheme,
                host,
                port,
                text,
            }),
        }
    }

    /// Returns the origin in ASCII, without a default port.
    pub fn text(&self) -> &str
        ensures value { result.now ≡ origin_text self.now }
        ensures within { length result.now ≤ ORIGIN_LIMIT }
    {
        self.text.as_str()
    }

    /// Returns a deep copy. Fails if out of memory.
    pub fn copy(&self, alloc: Global) -> Result<TupleOrigin, AllocError>
        ensures { IfOk result (λ copy. copy ≡ self.now) }
    {
        Ok(TupleOrigin {
            scheme: String::from_str(alloc, self.scheme.as_str())?,
            host: copy_host(alloc, &self.host)?,
            port: self.port,
            text: String::from_str(alloc, self.text.as_str())?,
        })
    }
}

fn copy_host(alloc: Global, host: &Host<String>) -> Result<Host<String>, AllocError>
    ensures { IfOk result (λ copy. owned_host copy ≡ owned_host host.now) }
{
    match host {
        Host::Domain(domain) => Ok(Host::Domain(String::from_str(alloc, domain.as_str())?)),
        Host::Ipv4(address) => Ok(Host::Ipv4(*address)),
        Host::Ipv6(address) => Ok(Host::Ipv6(*address)),
    }
}

impl PartialEq for TupleOrigin {
    ghost eq = { triple_eq };

    ghost laws = { Prim.search (comparing, rules) };

    fn eq(&self, other: &TupleOrigin) -> bool
        ensures value { result ≡ triple_eq self.now other.now }
        ensures same { IsTrue result ↔ (self.now ≡ other.now) }
    {
        self.scheme == other.scheme && self.host == other.host && self.port == other.port
    }
}

impl Eq for TupleOrigin {
    ghost laws = { Prim.search (comparing, rules) };
}

impl PartialOrd for TupleOrigin {
    ghost partial_cmp = { as_partial_cmp triple_cmp };

    ghost laws = { partial_order_from_own_ties
        (Prim.search (comparing, rules) depth 9) (Prim.search (comparing, rules)) };

    fn partial_cmp(&self, other: &TupleOrigin) -> Option<Ordering> {
        Some(self.cmp(other))
    }
}

impl Ord for TupleOrigin {
    ghost cmp = { triple_cmp };

    ghost total = { Prim.search (comparing, rules) depth 9 };

    ghost matches_partial_cmp = { Prim.search (comparing, rules) };

    ghost matches_eq = { Prim.search (comparing, rules) };

    fn cmp(&self, other: &TupleOrigin) -> Ordering {
        self.scheme
            .cmp(&other.scheme)
            .then(self.host.cmp(&other.host))
            .then(self.port.cmp(&other.port))
    }
}
