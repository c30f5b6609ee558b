//! Theorems, stated as contracts of functions with empty bodies.
ghost use Rattle.store_transactions.specs.Laws.{ClaimsDiffer, EntriesDiffer};

/// No two entries of a desk, of whatever authorizations, have the same AS, prefix and maxLength.
pub fn entries_differ()
    ensures { EntriesDiffer }
{}

/// No two authorizations of a desk have the same holder and number.
pub fn claims_differ()
    ensures { ClaimsDiffer }
{}
