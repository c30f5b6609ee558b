//! Prefixes with their maxLength.
ghost use Rattle.std.specs.Prelude.{◌≡◌, ◌↔◌, IsSome, IfSome};
ghost use Rattle.addr.specs.Address.{FitsMaxLength};
ghost use Rattle.addr.specs.VrpParts.{is_entry, IsVrpOfEntry};

use crate::{Asn, Prefix, Vrp};

/// A prefix and its maxLength, the length of the longest prefixes in it that are authorized too
/// (RFC 9582 section 4.3.2).
///
/// They rise by family, first address, prefix length and maxLength.
#[derive(Clone, Copy, Debug, PartialEq, Eq, PartialOrd, Ord)]
pub struct RoaPrefix {
    pub prefix: Prefix,
    /// The maxLength, which may be out of range for the prefix.
    pub max: u8,
}

impl RoaPrefix {
    /// Whether the entry has this prefix and maxLength.
    pub fn is(&self, prefix: &Prefix, max: u8) -> bool
        ensures { result ≡ is_entry prefix.now max self.now }
    {
        self.prefix.is(prefix) && self.max == max
    }

    /// The VRP of the entry for the AS; `None` if the maxLength is out of range.
    pub fn vrp(&self, asn: Asn) -> Option<Vrp>
        ensures some { IsSome result ↔ FitsMaxLength self.now.prefix self.now.max }
        ensures value { IfSome result (IsVrpOfEntry self.now asn) }
    {
        Vrp::from_parts(self.prefix, self.max, asn)
    }
}
