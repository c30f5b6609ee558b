//! The order of prefixes: by family, first address and length.
ghost use Rattle.std.specs.Prelude.{refl, Some};
ghost use Rattle.std.specs.Cmp.{partial_equiv_from_equiv};
ghost use Rattle.addr.specs.Address.{prefix_eq};
ghost use Rattle.addr.specs.Order.{prefix_cmp};
ghost use Rattle.addr.specs.steps.TotalOrders.{prefix_equivalence, prefix_partial_order, prefix_ties, prefix_total};

use crate::Prefix;
use std::cmp::Ordering;

impl PartialEq for Prefix {
    ghost eq = { prefix_eq };

    ghost laws = { partial_equiv_from_equiv prefix_equivalence };

    fn eq(&self, other: &Prefix) -> bool {
        self.is(other)
    }
}

impl Eq for Prefix {
    ghost laws = { prefix_equivalence };
}

impl PartialOrd for Prefix {
    ghost partial_cmp = { λ p q. Some (prefix_cmp p q) };

    ghost laws = { prefix_partial_order };

    fn partial_cmp(&self, other: &Prefix) -> Option<Ordering> {
        Some(self.cmp(other))
    }
}

impl Ord for Prefix {
    ghost cmp = { prefix_cmp };

    ghost total = { prefix_total };

    ghost matches_partial_cmp = { λ p q. refl };

    ghost matches_eq = { prefix_ties };

    fn cmp(&self, other: &Prefix) -> Ordering {
        let by_place = self
            .first
            .cmp(&other.first)
            .then(self.length.cmp(&other.length));
        self.family.cmp(&other.family).then(by_place)
    }
}
