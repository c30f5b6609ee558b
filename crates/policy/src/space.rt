//! Addresses that a command moves.

ghost use Rattle.std.specs.Prelude.{IfOk};
ghost use Rattle.addr.specs.Address.{has_address};
ghost use Rattle.addr.specs.Spans.{AddsAddresses, TakesAddresses};
ghost use Rattle.policy.specs.steps.Exchange.{Exchanges};

use crate::Edit;
use addr::{Holdings, Prefix};
use std::alloc::AllocError;

/// The holdings with the prefix.
pub(crate) fn with_prefix(holdings: &Holdings, prefix: &Prefix) -> Result<Holdings, AllocError>
    ensures { IfOk result (λ more. AddsAddresses holdings.now more (has_address prefix.now)) }
{
    let mut more = holdings.clone()?;
    more.add(prefix)?;
    Ok(more)
}

/// The holdings without the prefix.
pub(crate) fn without_prefix(holdings: &Holdings, prefix: &Prefix) -> Result<Holdings, AllocError>
    ensures { IfOk result (λ less. TakesAddresses holdings.now less (has_address prefix.now)) }
{
    let mut less = holdings.clone()?;
    less.take(prefix)?;
    Ok(less)
}

/// The edit from one holder's runs to others, which ends the authorizations of these numbers.
pub(crate) fn exchange(
    before: &Holdings,
    after: &Holdings,
    ended: Vec<u32>,
) -> Result<Edit, AllocError>
    ensures { IfOk result (Exchanges before.now after.now ended) }
{
    Ok(Edit::Hold {
        removed: before.without_runs(after)?,
        added: after.without_runs(before)?,
        ended,
    })
}
