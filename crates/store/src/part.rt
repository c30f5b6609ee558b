//! What is loaded for hypothetical changes.
ghost use Rattle.std.specs.Prelude.{◌≡◌, ◌≢◌, ◌≤◌, ◌+◌, ◌<◌, ◌||◌, ◌⊎◌, ◌++◌, ℕ, map, filter, length, Err, IfOk, OnOk, IsTrue};
ghost use Rattle.std.specs.List.Sorted.{IsStrictlySortedBy};
ghost use Rattle.std.specs.Ordering.{nat_cmp};
ghost use Rattle.sqlite.specs.Held.{state};
ghost use Rattle.registry.specs.declared.authorization.Auth.{Auth};
ghost use Rattle.registry.specs.declared.limits.TheConstants.{MOST_AUTHORIZATIONS};
ghost use Rattle.registry.specs.PartOfRows.{looked_for};
ghost use Rattle.store_transactions.specs.Queries.{IsAsked, IsClean, IsReadyToAsk};
ghost use Rattle.store_read.specs.Loads.{AreInOrder, EachRowsOf, FindsOf, RefusesUnfit, auths_held};
ghost use Rattle.store.specs.PartLoaded.{IsForChanges};
ghost use Rattle.store.specs.steps.PartNumbers.{AreOfNumbers, asks_for, gives_numbered, has_number, some_asks_for};

use addr::{Asn, Name, RoaPrefix};
use registry::{Auth, HolderRows, MOST_AUTHORIZATIONS, Proposed};
use sorted_items::sort_and_dedup;
use sqlite::{Alter, Connection};
use std::alloc::{AllocError, Global};
use store_read::{count_auths, load_auths_numbered, load_given, load_grants_counted, load_runs};
use store_tables::EntryRow;
use store_transactions::StoreFault;

/// What is loaded of a holder for hypothetical changes: rows with at least what their rules read,
/// if it is registered, and how many of its authorizations these leave out; or 0, if the changes
/// cannot make more than it may have.
#[derive(Drop)]
pub struct Part {
    pub rows: Option<HolderRows>,
    pub left_out: u32,
}

/// Adds the numbers of the rows.
fn push_numbers(numbers: &mut Vec<u32>, rows: &[EntryRow]) -> Result<(), AllocError>
    ensures { OnOk result
        (numbers.new.items ≡ numbers.old.items ++ map (λ (r : EntryRow). r.number) rows.now) }
{
    for row in rows {
        numbers.push(row.number)?;
    }
    Ok(())
}

/// Adds the numbers of the holder's authorizations that give the AS with an entry of the list.
fn push_given<S: Alter>(
    conn: &mut Connection<S>,
    alloc: Global,
    holder: &Name,
    asn: Asn,
    entries: &[RoaPrefix],
    numbers: &mut Vec<u32>,
) -> Result<(), StoreFault>
    requires ready { IsReadyToAsk S.Store conn.old }
    requires is_open { IsClean S.Store conn.old → IsTrue (state S.Store conn.old).is_open }
    ensures asked { IsAsked S.Store conn.old conn.new result }
    ensures found { IsClean S.Store conn.new → OnOk result (EachRowsOf (λ rows. (n : ℕ)
        → has_number numbers.new.items n ≡ (has_number numbers.old.items n
        || gives_numbered asn entries.now (auths_held rows) n))
        holder.now (state S.Store conn.old)) }
    ensures schema { RefusesUnfit S.Store conn.old conn.new holder.now result }
{
    for entry in entries {
        let given = load_given(conn, alloc, holder, asn, entry)?;
        push_numbers(numbers, &given)?;
    }
    Ok(())
}

/// Adds the numbers of the holder's authorizations that the rules of the change look for.
fn push_looked_for<S: Alter>(
    conn: &mut Connection<S>,
    alloc: Global,
    holder: &Name,
    change: &Proposed,
    numbers: &mut Vec<u32>,
) -> Result<(), StoreFault>
    requires ready { IsReadyToAsk S.Store conn.old }
    requires is_open { IsClean S.Store conn.old → IsTrue (state S.Store conn.old).is_open }
    ensures asked { IsAsked S.Store conn.old conn.new result }
    ensures found { IsClean S.Store conn.new → OnOk result (EachRowsOf (λ rows. (n : ℕ)
        → has_number numbers.new.items n
        ≡ (has_number numbers.old.items n || asks_for change.now (auths_held rows) n))
        holder.now (state S.Store conn.old)) }
    ensures schema { RefusesUnfit S.Store conn.old conn.new holder.now result }
{
    match change {
        Proposed::Create(terms) => {
            let entries = terms.entries.as_slice();
            push_given(conn, alloc, holder, terms.asn, entries, numbers)
        }
        Proposed::Withdraw(number) => match numbers.push(*number) {
            Ok(()) => Ok(()),
            Err(_) => Err(StoreFault::Database),
        },
    }
}

/// The numbers of the holder's authorizations that the rules of the changes look for, rising.
fn load_numbers<S: Alter>(
    conn: &mut Connection<S>,
    alloc: Global,
    holder: &Name,
    changes: &[Proposed],
) -> Result<Vec<u32>, StoreFault>
    requires ready { IsReadyToAsk S.Store conn.old }
    requires is_open { IsClean S.Store conn.old → IsTrue (state S.Store conn.old).is_open }
    ensures asked { IsAsked S.Store conn.old conn.new result }
    ensures found { FindsOf S.Store conn.old conn.new holder.now result (λ rows numbers. (n : ℕ)
        → has_number numbers.items n ≡ some_asks_for changes.now (auths_held rows) n) }
    ensures rising { IfOk result (λ numbers. IsStrictlySortedBy nat_cmp numbers.items) }
    ensures schema { RefusesUnfit S.Store conn.old conn.new holder.now result }
{
    let mut numbers = Vec::new(alloc);
    for change in changes {
        push_looked_for(conn, alloc, holder, change, &mut numbers)?;
    }
    sort_and_dedup(&mut numbers);
    Ok(numbers)
}

/// The authorizations of the holder that have one of these numbers.
pub(crate) fn load_each<S: Alter>(
    conn: &mut Connection<S>,
    alloc: Global,
    holder: &Name,
    numbers: &[u32],
) -> Result<Vec<Auth>, StoreFault>
    requires ready { IsReadyToAsk S.Store conn.old }
    requires is_open { IsClean S.Store conn.old → IsTrue (state S.Store conn.old).is_open }
    requires rising { IsStrictlySortedBy nat_cmp numbers.now }
    ensures asked { IsAsked S.Store conn.old conn.new result }
    ensures found { FindsOf S.Store conn.old conn.new holder.now result (λ rows auths.
        AreOfNumbers numbers.now (auths_held rows) auths.items) }
    ensures schema { RefusesUnfit S.Store conn.old conn.new holder.now result }
{
    let mut auths = Vec::new(alloc);
    for number in numbers {
        let mut numbered = load_auths_numbered(conn, alloc, holder, *number)?;
        auths.append(&mut numbered)?;
    }
    Ok(auths)
}

/// The authorizations of the holder that the rules of the changes look for.
fn load_looked_for<S: Alter>(
    conn: &mut Connection<S>,
    alloc: Global,
    holder: &Name,
    changes: &[Proposed],
) -> Result<Vec<Auth>, StoreFault>
    requires ready { IsReadyToAsk S.Store conn.old }
    requires is_open { IsClean S.Store conn.old → IsTrue (state S.Store conn.old).is_open }
    ensures asked { IsAsked S.Store conn.old conn.new result }
    ensures found { FindsOf S.Store conn.old conn.new holder.now result (λ rows auths.
        AreInOrder (λ (x : Auth). x.number) (filter (looked_for changes.now) (auths_held rows))
        auths.items) }
    ensures schema { RefusesUnfit S.Store conn.old conn.new holder.now result }
{
    // For the proof: its contract says that what the connection shows obeys the schema.
    let _schema = conn.schema();
    store_transactions::laws::claims_differ();
    let numbers = load_numbers(conn, alloc, holder, changes)?;
    load_each(conn, alloc, holder, &numbers)
}

/// How many authorizations the holder has beside so many that are loaded. They are not counted,
/// and 0 is answered, if fewer than it may have were made, with so many more.
fn count_others<S: Alter>(
    conn: &mut Connection<S>,
    holder: &Name,
    created: u32,
    more: usize,
    loaded: usize,
) -> Result<u32, StoreFault>
    requires ready { IsReadyToAsk S.Store conn.old }
    requires is_open { IsClean S.Store conn.old → IsTrue (state S.Store conn.old).is_open }
    ensures asked { IsAsked S.Store conn.old conn.new result }
    ensures found { FindsOf S.Store conn.old conn.new holder.now result (λ rows others.
        loaded ≤ length (auths_held rows) → (others + loaded ≡ length (auths_held rows))
        ⊎ ((others ≡ 0) × (created + more < MOST_AUTHORIZATIONS))) }
    ensures no_schema { result ≢ Err StoreFault.Schema }
{
    if (created as usize).saturating_add(more) < MOST_AUTHORIZATIONS {
        return Ok(0);
    }
    let count = count_auths(conn, holder)?;
    Ok((count as usize).saturating_sub(loaded) as u32)
}

/// What the rules of the changes read of the holder.
pub(crate) fn load_part<S: Alter>(
    conn: &mut Connection<S>,
    alloc: Global,
    holder: &Name,
    changes: &[Proposed],
) -> Result<Part, StoreFault>
    requires { IsReadyToAsk S.Store conn.old }
    ensures asked { IsAsked S.Store conn.old conn.new result }
    ensures found { FindsOf S.Store conn.old conn.new holder.now result
        (IsForChanges changes.now) }
    ensures schema { RefusesUnfit S.Store conn.old conn.new holder.now result }
{
    let Some(counted) = load_grants_counted(conn, alloc, holder)? else {
        return Ok(Part {
            rows: None,
            left_out: 0,
        });
    };
    let holdings = load_runs(conn, alloc, holder)?;
    let auths = load_looked_for(conn, alloc, holder, changes)?;
    let created = counted.created;
    let left_out = count_others(conn, holder, created, changes.len(), auths.len())?;
    let rows = HolderRows {
        holdings,
        grants: counted.grants,
        auths,
        granted: counted.granted,
        created,
    };
    Ok(Part {
        rows: Some(rows),
        left_out,
    })
}
