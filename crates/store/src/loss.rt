//! What is loaded of a holder that loses a prefix, by a transfer or a reclaim.
ghost use Rattle.std.specs.Prelude.{◌≡◌, ℕ, map, filter, IfOk};
ghost use Rattle.std.specs.List.Sorted.{IsStrictlySortedBy};
ghost use Rattle.std.specs.Ordering.{nat_cmp};
ghost use Rattle.addr.specs.Address.{overlaps};
ghost use Rattle.store_transactions.specs.Queries.{IsAsked, IsReadyToAsk};
ghost use Rattle.store_read.specs.Loads.{AreOverlapping, FindsOf, IsForLoss, RefusesUnfit, auths_held};
ghost use Rattle.store.specs.steps.PartNumbers.{has_number, overlaps_numbered};

use crate::part::load_each;
use addr::{Name, Prefix};
use registry::{Auth, HolderRows};
use sorted_items::sort_and_dedup;
use sqlite::{Alter, Connection};
use std::alloc::{AllocError, Global};
use store_read::{load_entries_up_to, load_holdings};
use store_tables::EntryRow;
use store_transactions::StoreFault;

/// The numbers of the rows whose prefixes share an address with the prefix.
fn numbers_overlapping(
    alloc: Global,
    rows: &[EntryRow],
    prefix: &Prefix,
) -> Result<Vec<u32>, AllocError>
    ensures { IfOk result (λ numbers. numbers.items ≡ map (λ (r : EntryRow). r.number)
        (filter (λ (r : EntryRow). overlaps r.entry.prefix prefix.now) rows.now)) }
{
    rows.iter()
        .filter(|row| row.entry.prefix.overlaps(prefix))
        .map(|row| row.number)
        .collect(alloc)
}

/// The numbers of the holder's authorizations that share an address with the prefix, rising.
fn load_numbers<S: Alter>(
    conn: &mut Connection<S>,
    alloc: Global,
    holder: &Name,
    prefix: &Prefix,
) -> Result<Vec<u32>, StoreFault>
    requires { IsReadyToAsk S.Store conn.old }
    ensures asked { IsAsked S.Store conn.old conn.new result }
    ensures found { FindsOf S.Store conn.old conn.new holder.now result (λ rows numbers. (n : ℕ)
        → has_number numbers.items n ≡ overlaps_numbered prefix.now (auths_held rows) n) }
    ensures rising { IfOk result (λ numbers. IsStrictlySortedBy nat_cmp numbers.items) }
    ensures schema { RefusesUnfit S.Store conn.old conn.new holder.now result }
{
    let entries = load_entries_up_to(conn, alloc, holder, prefix)?;
    let mut numbers = numbers_overlapping(alloc, &entries, prefix)?;
    sort_and_dedup(&mut numbers);
    Ok(numbers)
}

/// The authorizations of the holder that share an address with the prefix.
fn load_overlapping<S: Alter>(
    conn: &mut Connection<S>,
    alloc: Global,
    holder: &Name,
    prefix: &Prefix,
) -> Result<Vec<Auth>, StoreFault>
    requires { IsReadyToAsk S.Store conn.old }
    ensures asked { IsAsked S.Store conn.old conn.new result }
    ensures found { FindsOf S.Store conn.old conn.new holder.now result (λ rows auths.
        AreOverlapping prefix.now (auths_held rows) auths.items) }
    ensures schema { RefusesUnfit S.Store conn.old conn.new holder.now result }
{
    // For the proof: its contract says that what the connection shows obeys the schema.
    let _schema = conn.schema();
    store_transactions::laws::claims_differ();
    let numbers = load_numbers(conn, alloc, holder, prefix)?;
    load_each(conn, alloc, holder, &numbers)
}

/// What the rules read of the holder that loses the prefix.
pub(crate) fn load_for_loss<S: Alter>(
    conn: &mut Connection<S>,
    alloc: Global,
    holder: &Name,
    prefix: &Prefix,
) -> Result<Option<HolderRows>, StoreFault>
    requires { IsReadyToAsk S.Store conn.old }
    ensures asked { IsAsked S.Store conn.old conn.new result }
    ensures found { FindsOf S.Store conn.old conn.new holder.now result (IsForLoss prefix.now) }
    ensures schema { RefusesUnfit S.Store conn.old conn.new holder.now result }
{
    let Some(held) = load_holdings(conn, alloc, holder)? else {
        return Ok(None);
    };
    let auths = load_overlapping(conn, alloc, holder, prefix)?;
    Ok(Some(HolderRows {
        holdings: held.holdings,
        grants: held.grants,
        auths,
        granted: held.granted,
        created: held.created,
    }))
}
