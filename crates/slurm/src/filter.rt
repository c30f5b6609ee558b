//! Prefix filters.
ghost use Rattle.std.specs.Prelude.{◌≡◌};
ghost use Rattle.std.specs.List.{list_any};
ghost use Rattle.slurm.specs.Filter.{filter_matches};

use addr::{Asn, Prefix, Vrp};

/// A prefix filter (RFC 8416 section 3.3.1), which removes VRPs.
#[derive(Clone, Copy, Debug, PartialEq, Eq)]
pub enum Filter {
    /// The VRPs of this prefix or one in it.
    Under(Prefix),
    /// The VRPs of this AS.
    By(Asn),
    /// The VRPs of this AS, and of this prefix or one in it.
    Both(Prefix, Asn),
}

impl Filter {
    fn matches(&self, vrp: &Vrp) -> bool
        ensures { result ≡ filter_matches self.now vrp.now }
    {
        match self {
            Filter::Under(prefix) => prefix.contains(&vrp.prefix),
            Filter::By(asn) => asn.0 == vrp.asn.0,
            Filter::Both(prefix, asn) => prefix.contains(&vrp.prefix) && asn.0 == vrp.asn.0,
        }
    }
}

pub(crate) fn some_matches(filters: &[Filter], vrp: &Vrp) -> bool
    ensures { result ≡ list_any (λ filter. filter_matches filter vrp.now) filters.now }
{
    filters.iter().any(|filter| filter.matches(vrp))
}
