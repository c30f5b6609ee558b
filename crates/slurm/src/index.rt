//! Prefix filters that are sorted for searches.
ghost use Rattle.std.specs.Prelude.{◌≡◌, ◌↔◌, Any, IsTrue, IfOk};
ghost use Rattle.std.specs.List.{list_any};
ghost use Rattle.slurm.specs.Filter.{FilterMatches, filter_matches};

use crate::Filter;
use crate::reach::{Reach, keep_widest, reaches_of, some_reaches};
use addr::Vrp;
use std::alloc::{AllocError, Global};
use std::marker::Model;

/// Prefix filters for matching many VRPs: each VRP takes two binary searches.
#[derive(Debug, Drop)]
pub struct FilterIndex {
    filters: Vec<Filter>,
    reaches: Vec<Reach>,
}

impl Model for FilterIndex {
    ghost use Rattle.std.specs.Prelude.{List};
    ghost use Rattle.slurm.specs.declared.filter.Filter.{Filter};
    ghost use Rattle.slurm.specs.steps.Reach.{AreReachesOf, AreWidest};

    ghost Value = { List Filter };

    ghost view = { λ index. index.filters.items };

    ghost invariant = { λ index. AreReachesOf index.filters.items index.reaches.items
        × AreWidest index.reaches.items };
}

impl FilterIndex {
    /// The index of these filters, whatever their order.
    pub fn of(alloc: Global, filters: Vec<Filter>) -> Result<FilterIndex, AllocError>
        ensures { IfOk result (λ index. index ≡ filters.items) }
    {
        let mut reaches = reaches_of(alloc, &filters)?;
        keep_widest(&mut reaches);
        Ok(FilterIndex { filters, reaches })
    }

    /// Whether some filter matches the VRP.
    pub fn matches(&self, vrp: &Vrp) -> bool
        ensures some { IsTrue result ↔ Any (λ filter. FilterMatches filter vrp.now) self.now }
        ensures by_test { result ≡ list_any (λ filter. filter_matches filter vrp.now) self.now }
    {
        some_reaches(&self.reaches, vrp)
    }

    /// The filters, in the order in which they were given.
    pub fn filters(&self) -> &[Filter]
        ensures { result.now ≡ self.now }
    {
        &self.filters
    }
}
