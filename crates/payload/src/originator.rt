//! What a VRP says about its prefix.
ghost use Rattle.std.specs.Prelude.{◌≡◌};

use addr::{Asn, Origin, Route, Vrp};

/// An AS that may originate a prefix, and its more specifics up to `max` bits: the part of a VRP
/// beside its prefix.
#[derive(Clone, Copy, Debug, PartialEq, Eq, PartialOrd, Ord)]
pub(crate) struct Originator {
    pub(crate) max: u8,
    pub(crate) asn: Asn,
}

/// Fills the places of a `SmallVec` that hold no originator.
impl Default for Originator {
    fn default() -> Originator {
        Originator {
            max: 0,
            asn: Asn(0),
        }
    }
}

impl Originator {
    ghost use Rattle.payload.specs.steps.Trie.{authorizes, originator_of};

    /// The originator of the VRP.
    pub(crate) fn of(vrp: &Vrp) -> Originator
        ensures { result ≡ originator_of vrp.now }
    {
        Originator {
            max: vrp.max,
            asn: vrp.asn,
        }
    }

    /// Whether a VRP of this originator that covers the route matches it.
    pub(crate) fn authorizes(&self, route: &Route) -> bool
        ensures { result ≡ authorizes route.now self.now }
    {
        match route.origin {
            Origin::As(asn) => {
                route.prefix.length <= self.max && asn.0 != 0 && asn.0 == self.asn.0
            }
            Origin::None => false,
        }
    }
}
