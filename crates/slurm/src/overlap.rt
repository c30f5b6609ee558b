//! Files that name prefixes with an address in common (RFC 8416 section 4.2).
ghost use Rattle.std.specs.Prelude.{◌≡◌, ◌↔◌, IsTrue};
ghost use Rattle.std.specs.List.{list_any};
ghost use Rattle.addr.specs.Address.{overlaps};
ghost use Rattle.slurm.specs.Overlap.{filter_prefix, overlap, shares, Overlap};
ghost use Rattle.slurm.specs.steps.Overlap.{filter_passes};

use crate::{Filter, Slurm};
use addr::{Prefix, Vrp};

impl Filter {
    /// The prefix that the filter names, if it names one.
    pub(crate) fn prefix(&self) -> Option<Prefix>
        ensures { result ≡ filter_prefix self.now }
    {
        match *self {
            Filter::Under(prefix) => Some(prefix),
            Filter::By(_) => None,
            Filter::Both(prefix, _) => Some(prefix),
        }
    }

    fn shares(&self, prefix: &Prefix) -> bool
        ensures { result ≡ filter_passes (λ p. overlaps prefix.now p) self.now }
    {
        match self.prefix() {
            Some(named) => prefix.overlaps(&named),
            None => false,
        }
    }

    fn overlaps(&self, file: &Slurm) -> bool
        ensures { result ≡ filter_passes (λ p. shares file.now p) self.now }
    {
        match self.prefix() {
            Some(named) => file.shares(&named),
            None => false,
        }
    }
}

impl Slurm {
    /// Whether some prefix that a filter or an assertion of this file names shares an address with
    /// one that is named in the other. It takes no memory.
    pub fn overlaps(&self, other: &Slurm) -> bool
        ensures some { IsTrue result ↔ Overlap self.now other.now }
        ensures by_test { result ≡ overlap self.now other.now }
    {
        some_filter_overlaps(self.filters(), other)
            || some_assertion_overlaps(self.assertions(), other)
    }

    fn shares(&self, prefix: &Prefix) -> bool
        ensures { result ≡ shares self.now prefix.now }
    {
        some_filter_shares(self.filters(), prefix)
            || some_assertion_shares(self.assertions(), prefix)
    }
}

fn some_filter_overlaps(filters: &[Filter], file: &Slurm) -> bool
    ensures { result ≡ list_any (filter_passes (λ p. shares file.now p)) filters.now }
{
    filters.iter().any(|filter| filter.overlaps(file))
}

fn some_assertion_overlaps(assertions: &[Vrp], file: &Slurm) -> bool
    ensures { result ≡ list_any (λ v. shares file.now v.prefix) assertions.now }
{
    assertions.iter().any(|vrp| file.shares(&vrp.prefix))
}

fn some_filter_shares(filters: &[Filter], prefix: &Prefix) -> bool
    ensures { result ≡ list_any (filter_passes (λ p. overlaps prefix.now p)) filters.now }
{
    filters.iter().any(|filter| filter.shares(prefix))
}

fn some_assertion_shares(assertions: &[Vrp], prefix: &Prefix) -> bool
    ensures { result ≡ list_any (λ v. overlaps prefix.now v.prefix) assertions.now }
{
    assertions.iter().any(|vrp| prefix.overlaps(&vrp.prefix))
}
