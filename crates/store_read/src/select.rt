//! The values of a holder, and the queries of them.
ghost use Rattle.std.specs.Prelude.{List, [], ◌∷◌, map, flat_map};
ghost use Rattle.std.specs.declared.cmp.Ordering.{Ordering};
ghost use Rattle.std.specs.declared.cmp.Ordering.TheVariants.{Equal};
ghost use Rattle.std.specs.Ordering.{then_cmp};
ghost use Rattle.registry.specs.Rows.{Rows};
ghost use Rattle.sqlite_value.specs.Order.{Row as Cells};
ghost use Rattle.store_read.specs.steps.Queries.{Selects, by_column};
ghost use Rattle.store_tables.specs.Authorizations.{claim_of, entry_rows_of};

use addr::Span;
use registry::Granted;
use store_tables::{
    Claim, Counters, EntryRow, FromRow, SELECT_COUNTERS, SELECT_HOLDER_CLAIMS,
    SELECT_HOLDER_ENTRIES, SELECT_HOLDER_GRANTS, SELECT_HOLDER_SPANS,
};

/// A value of a holder, which a row of one table shows.
pub(crate) trait OfHolder: FromRow {
    // Such values among the rows of a holder.
    ghost items: { Rows → List Self };

    // What the rows of a holder rise by.
    ghost order: { Cells → Cells → Ordering };

    /// The query of a holder's values, whose parameter is the holder's name.
    fn select() -> &'static str
        ensures { Selects Self.cells Self.width items order result.now };
}

impl OfHolder for Span {
    ghost items = { λ r. r.holdings };

    ghost order = { then_cmp (by_column 0) (by_column 1) };

    fn select() -> &'static str {
        SELECT_HOLDER_SPANS
    }
}

impl OfHolder for Counters {
    ghost items = { λ r. record { granted = r.granted; created = r.created } ∷ [] };

    ghost order = { λ _ _. Equal };

    fn select() -> &'static str {
        SELECT_COUNTERS
    }
}

impl OfHolder for Granted {
    ghost items = { λ r. r.grants };

    ghost order = { by_column 0 };

    fn select() -> &'static str {
        SELECT_HOLDER_GRANTS
    }
}

impl OfHolder for Claim {
    ghost items = { λ r. map claim_of r.auths };

    ghost order = { by_column 0 };

    fn select() -> &'static str {
        SELECT_HOLDER_CLAIMS
    }
}

impl OfHolder for EntryRow {
    ghost items = { λ r. flat_map entry_rows_of r.auths };

    ghost order = { then_cmp (by_column 0)
        (then_cmp (by_column 2) (then_cmp (by_column 3) (by_column 4))) };

    fn select() -> &'static str {
        SELECT_HOLDER_ENTRIES
    }
}
