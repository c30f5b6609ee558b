//! Validated ROA payloads.
ghost use Rattle.std.specs.Prelude.{◌≡◌, ◌≤◌, ◌↔◌, IsSome, IfSome};
ghost use Rattle.addr.specs.Family.{width};

use crate::{Asn, Prefix};

/// A validated ROA payload: this AS may originate this prefix, and its more specifics up to
/// `max` bits (RFC 6811 section 2).
///
/// VRPs rise by family, address, length, maxLength and AS.
#[derive(Clone, Copy, Debug, PartialEq, Eq, PartialOrd, Ord)]
pub struct Vrp {
    pub prefix: Prefix,
    /// The maxLength: from the prefix's length to the family's width.
    pub max: u8,
    pub asn: Asn,
    ghost at_least_length: { prefix.length ≤ max },
    ghost at_most_width: { max ≤ width prefix.family },
}

impl Vrp {
    ghost use Rattle.addr.specs.Address.{FitsMaxLength};

    /// The VRP of these parts; `None` if the maxLength is below the prefix's length or over the
    /// family's width.
    pub fn from_parts(prefix: Prefix, max: u8, asn: Asn) -> Option<Vrp>
        ensures some { IsSome result ↔ FitsMaxLength prefix max }
        ensures parts { IfSome result (λ v. (v.prefix ≡ prefix) × (v.max ≡ max) × (v.asn ≡ asn)) }
    {
        if prefix.fits_max_length(max) {
            Some(Vrp { prefix, max, asn })
        } else {
            None
        }
    }
}
