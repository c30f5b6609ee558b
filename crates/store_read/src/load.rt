//! What is loaded from the tables.
ghost use Rattle.std.specs.Prelude.{◌≡◌, ◌≢◌, ◌↔◌, ◌==◌, ℕ, List, map, filter, length, is_some, All, AllPairs, Contains, Err, IfOk, IsPermutation, IsSorted};
ghost use Rattle.std.specs.declared.cmp.Ordering.{Ordering};
ghost use Rattle.sqlite.specs.Given.{IsPlain};
ghost use Rattle.sqlite.specs.Listing.{understood};
ghost use Rattle.sqlite.specs.Values.{bound};
ghost use Rattle.sqlite_value.specs.Order.{Row as Cells};
ghost use Rattle.addr.specs.Spans.{AreMaximal};
ghost use Rattle.addr.specs.declared.vrp.Vrp.{Vrp};
ghost use Rattle.registry.specs.declared.authorization.Auth.{Auth};
ghost use Rattle.registry.specs.Rows.{Rows};
ghost use Rattle.registry.specs.RowsOfAll.{IsGivenOn};
ghost use Rattle.store_read.specs.Loads.{HaveSame, AreGrants, AreHoldings, AreInOrder, AreListed, AreLoaded, AreNumbered, AllGiveOn, auths_held, Finds, FindsOf, Refuses, RefusesUnfit};
ghost use Rattle.store_tables.specs.Tables.{OverDesk};
ghost use Rattle.store_tables.specs.TablesHold.{items_if_any};
ghost use Rattle.store_transactions.specs.Queries.{IsAsked, IsClean, IsReadyToAsk};
ghost use Rattle.store_read.specs.steps.Queries.{SelectsWith, counters_if_any};

use crate::across::take_in_force;
use crate::select::OfHolder;
use addr::{Day, Holdings, Name, Span, Vrp};
use registry::{Auth, Granted, HolderRows};
use sqlite::types::ValueRef;
use sqlite::{Alter, Connection};
use std::alloc::{AllocError, Global};
use store_tables::{
    COUNT_HOLDER_CLAIMS, Claim, Counters, EntryRow, FromRow, SELECT_NUMBERED_CLAIM,
    SELECT_NUMBERED_ENTRIES, auths_of, count_in, name_values, number_values,
};
use store_transactions::{StoreFault, ask, read_all};

/// The addresses of the runs, as maximal runs.
fn holdings_of(alloc: Global, spans: &[Span]) -> Result<Holdings, AllocError>
    ensures same { IfOk result (λ holdings. HaveSame spans.now holdings) }
    ensures maximal { IfOk result AreMaximal }
{
    let mut holdings = Holdings::new(alloc);
    for span in spans {
        holdings.add_span(span)?;
    }
    // For the proof: its contract says that the runs are maximal.
    let _ = holdings.spans();
    Ok(holdings)
}

/// The values that the text selects with these parameters, in the order of their rows.
pub(crate) fn load_selected<T: FromRow, S: Alter>(
    conn: &mut Connection<S>,
    alloc: Global,
    sql: &str,
    values: &[ValueRef<'_>],
) -> Result<Vec<T>, StoreFault>
    requires ready { IsReadyToAsk S.Store conn.old }
    requires plain { OverDesk (λ s. IsPlain (understood s sql.now)) }
    ensures asked { IsAsked S.Store conn.old conn.new result }
    ensures found { (h : List ℕ) (params : Cells) (items : Rows → List T)
        (cmp : Cells → Cells → Ordering) → bound values.now ≡ params
        → SelectsWith T.cells T.width items cmp sql.now h params
        → FindsOf S.Store conn.old conn.new h result (λ rows values.
        IsPermutation (items_if_any items rows) values.items) }
    ensures rising { (h : List ℕ) (params : Cells) (items : Rows → List T)
        (cmp : Cells → Cells → Ordering) → bound values.now ≡ params
        → SelectsWith T.cells T.width items cmp sql.now h params → IsClean S.Store conn.new
        → IfOk result (λ values. IsSorted cmp (map T.cells values.items)) }
    ensures schema { (h : List ℕ) (params : Cells) (items : Rows → List T)
        (cmp : Cells → Cells → Ordering) → bound values.now ≡ params
        → SelectsWith T.cells T.width items cmp sql.now h params
        → Refuses S.Store conn.old conn.new result (λ all.
        ¬ All T.fits (items_if_any items (all.of_holder h))) }
{
    let rows = ask(conn, sql, values)?;
    read_all(alloc, &rows)
}

/// The values of the holder of one type, in the order of their rows.
pub(crate) fn load_values<T: OfHolder, S: Alter>(
    conn: &mut Connection<S>,
    alloc: Global,
    holder: &Name,
) -> Result<Vec<T>, StoreFault>
    requires { IsReadyToAsk S.Store conn.old }
    ensures asked { IsAsked S.Store conn.old conn.new result }
    ensures found { FindsOf S.Store conn.old conn.new holder.now result (λ rows values.
        IsPermutation (items_if_any T.items rows) values.items) }
    ensures rising { IsClean S.Store conn.new → IfOk result (λ values.
        IsSorted T.order (map T.cells values.items)) }
    ensures schema { Refuses S.Store conn.old conn.new result (λ all.
        ¬ All T.fits (items_if_any T.items (all.of_holder holder.now))) }
{
    load_selected(conn, alloc, T::select(), &name_values(holder))
}

/// The counters of the holder; `None` if it is not registered.
pub(crate) fn load_counters<S: Alter>(
    conn: &mut Connection<S>,
    alloc: Global,
    holder: &Name,
) -> Result<Option<Counters>, StoreFault>
    requires { IsReadyToAsk S.Store conn.old }
    ensures asked { IsAsked S.Store conn.old conn.new result }
    ensures found { FindsOf S.Store conn.old conn.new holder.now result (λ rows counters.
        counters ≡ counters_if_any rows) }
    ensures schema { RefusesUnfit S.Store conn.old conn.new holder.now result }
{
    let counters: Vec<Counters> = load_values(conn, alloc, holder)?;
    Ok(counters.first().copied())
}

/// Whether the holder is registered.
pub fn is_registered<S: Alter>(
    conn: &mut Connection<S>,
    alloc: Global,
    holder: &Name,
) -> Result<bool, StoreFault>
    requires { IsReadyToAsk S.Store conn.old }
    ensures asked { IsAsked S.Store conn.old conn.new result }
    ensures found { FindsOf S.Store conn.old conn.new holder.now result (λ rows registered.
        registered ≡ is_some rows) }
    ensures schema { RefusesUnfit S.Store conn.old conn.new holder.now result }
{
    let counters = load_counters(conn, alloc, holder)?;
    Ok(counters.is_some())
}

/// The addresses of the holder; none if it is not registered.
pub fn load_runs<S: Alter>(
    conn: &mut Connection<S>,
    alloc: Global,
    holder: &Name,
) -> Result<Holdings, StoreFault>
    requires { IsReadyToAsk S.Store conn.old }
    ensures asked { IsAsked S.Store conn.old conn.new result }
    ensures found { FindsOf S.Store conn.old conn.new holder.now result (λ rows runs.
        HaveSame (items_if_any (λ r. r.holdings) rows) runs) }
    ensures maximal { IfOk result AreMaximal }
    ensures schema { RefusesUnfit S.Store conn.old conn.new holder.now result }
{
    let spans: Vec<Span> = load_values(conn, alloc, holder)?;
    Ok(holdings_of(alloc, &spans)?)
}

/// The addresses of the holder, as rows with nothing else, if it is registered.
pub fn load_holdings<S: Alter>(
    conn: &mut Connection<S>,
    alloc: Global,
    holder: &Name,
) -> Result<Option<HolderRows>, StoreFault>
    requires { IsReadyToAsk S.Store conn.old }
    ensures asked { IsAsked S.Store conn.old conn.new result }
    ensures found { FindsOf S.Store conn.old conn.new holder.now result AreHoldings }
    ensures schema { RefusesUnfit S.Store conn.old conn.new holder.now result }
{
    if !is_registered(conn, alloc, holder)? {
        return Ok(None);
    }
    let holdings = load_runs(conn, alloc, holder)?;
    Ok(Some(HolderRows {
        holdings,
        grants: Vec::new(alloc),
        auths: Vec::new(alloc),
        granted: 0,
        created: 0,
    }))
}

/// The grants of the holder that are not revoked, by rising number.
pub(crate) fn load_grants<S: Alter>(
    conn: &mut Connection<S>,
    alloc: Global,
    holder: &Name,
) -> Result<Vec<Granted>, StoreFault>
    requires { IsReadyToAsk S.Store conn.old }
    ensures asked { IsAsked S.Store conn.old conn.new result }
    ensures found { FindsOf S.Store conn.old conn.new holder.now result (λ rows grants.
        AreGrants rows grants.items) }
    ensures schema { RefusesUnfit S.Store conn.old conn.new holder.now result }
{
    load_values(conn, alloc, holder)
}

/// The authorizations of the holder, by rising number.
fn load_auths<S: Alter>(
    conn: &mut Connection<S>,
    alloc: Global,
    holder: &Name,
) -> Result<Vec<Auth>, StoreFault>
    requires { IsReadyToAsk S.Store conn.old }
    ensures asked { IsAsked S.Store conn.old conn.new result }
    ensures found { FindsOf S.Store conn.old conn.new holder.now result (λ rows auths.
        AreInOrder (λ (x : Auth). x.number) (items_if_any (λ r. r.auths) rows) auths.items) }
    ensures schema { RefusesUnfit S.Store conn.old conn.new holder.now result }
{
    // For the proof: its contract says that what the connection shows obeys the schema.
    let _schema = conn.schema();
    store_transactions::laws::claims_differ();
    let claims: Vec<Claim> = load_values(conn, alloc, holder)?;
    let rows: Vec<EntryRow> = load_values(conn, alloc, holder)?;
    auths_of(alloc, &claims, &rows)?.ok_or(StoreFault::Schema)
}

/// How many authorizations the holder has. Fault `Database`: 2 ^ 32 or more.
pub fn count_auths<S: Alter>(conn: &mut Connection<S>, holder: &Name) -> Result<u32, StoreFault>
    requires { IsReadyToAsk S.Store conn.old }
    ensures asked { IsAsked S.Store conn.old conn.new result }
    ensures found { FindsOf S.Store conn.old conn.new holder.now result (λ rows count.
        count ≡ length (auths_held rows)) }
    ensures no_schema { result ≢ Err StoreFault.Schema }
{
    let found = ask(conn, COUNT_HOLDER_CLAIMS, &name_values(holder))?;
    let Some(row) = found.first() else {
        return Err(StoreFault::Database);
    };
    count_in(row).ok_or(StoreFault::Database)
}

/// The authorizations of the holder that have the number. In a history there is one at most.
pub fn load_auths_numbered<S: Alter>(
    conn: &mut Connection<S>,
    alloc: Global,
    holder: &Name,
    number: u32,
) -> Result<Vec<Auth>, StoreFault>
    requires { IsReadyToAsk S.Store conn.old }
    ensures asked { IsAsked S.Store conn.old conn.new result }
    ensures found { FindsOf S.Store conn.old conn.new holder.now result (λ rows auths.
        AreInOrder (λ (x : Auth). x.number) (filter (λ x. x.number == number) (auths_held rows))
        auths.items) }
    ensures schema { RefusesUnfit S.Store conn.old conn.new holder.now result }
{
    // For the proof: its contract says that what the connection shows obeys the schema.
    let _schema = conn.schema();
    store_transactions::laws::claims_differ();
    let values = number_values(holder, number);
    let claims: Vec<Claim> = load_selected(conn, alloc, SELECT_NUMBERED_CLAIM, &values)?;
    let rows: Vec<EntryRow> = load_selected(conn, alloc, SELECT_NUMBERED_ENTRIES, &values)?;
    auths_of(alloc, &claims, &rows)?.ok_or(StoreFault::Schema)
}

/// The grants of the holder and its authorization that has the number, as rows with nothing else.
pub fn load_numbered<S: Alter>(
    conn: &mut Connection<S>,
    alloc: Global,
    holder: &Name,
    number: u32,
) -> Result<HolderRows, StoreFault>
    requires { IsReadyToAsk S.Store conn.old }
    ensures asked { IsAsked S.Store conn.old conn.new result }
    ensures found { FindsOf S.Store conn.old conn.new holder.now result (AreNumbered number) }
    ensures schema { RefusesUnfit S.Store conn.old conn.new holder.now result }
{
    let grants = load_grants(conn, alloc, holder)?;
    let auths = load_auths_numbered(conn, alloc, holder, number)?;
    Ok(HolderRows {
        holdings: Holdings::new(alloc),
        grants,
        auths,
        granted: 0,
        created: 0,
    })
}

/// The grants and the authorizations of the holder, as rows with nothing else; neither if it is not
/// registered.
pub fn load_listed<S: Alter>(
    conn: &mut Connection<S>,
    alloc: Global,
    holder: &Name,
) -> Result<HolderRows, StoreFault>
    requires { IsReadyToAsk S.Store conn.old }
    ensures asked { IsAsked S.Store conn.old conn.new result }
    ensures found { FindsOf S.Store conn.old conn.new holder.now result AreListed }
    ensures schema { RefusesUnfit S.Store conn.old conn.new holder.now result }
{
    let grants = load_grants(conn, alloc, holder)?;
    let auths = load_auths(conn, alloc, holder)?;
    Ok(HolderRows {
        holdings: Holdings::new(alloc),
        grants,
        auths,
        granted: 0,
        created: 0,
    })
}

/// The rows of the holder, if it is registered.
pub fn load_rows<S: Alter>(
    conn: &mut Connection<S>,
    alloc: Global,
    holder: &Name,
) -> Result<Option<HolderRows>, StoreFault>
    requires { IsReadyToAsk S.Store conn.old }
    ensures asked { IsAsked S.Store conn.old conn.new result }
    ensures found { FindsOf S.Store conn.old conn.new holder.now result AreLoaded }
    ensures schema { RefusesUnfit S.Store conn.old conn.new holder.now result }
{
    let Some(Counters { granted, created }) = load_counters(conn, alloc, holder)? else {
        return Ok(None);
    };
    let holdings = load_runs(conn, alloc, holder)?;
    let grants = load_grants(conn, alloc, holder)?;
    let auths = load_auths(conn, alloc, holder)?;
    Ok(Some(HolderRows {
        holdings,
        grants,
        auths,
        granted,
        created,
    }))
}

/// The VRPs of the authorizations of all holders that are in force on the day.
pub fn load_vrps<S: Alter>(
    conn: &mut Connection<S>,
    alloc: Global,
    day: Day,
) -> Result<Vec<Vrp>, StoreFault>
    requires { IsReadyToAsk S.Store conn.old }
    ensures asked { IsAsked S.Store conn.old conn.new result }
    ensures found { Finds S.Store conn.old conn.new result (λ rows vrps.
        (v : Vrp) → Contains vrps.items v ↔ IsGivenOn rows day v) }
    ensures once { Finds S.Store conn.old conn.new result (λ _ vrps. AllPairs ◌≢◌ vrps.items) }
    ensures schema { Refuses S.Store conn.old conn.new result (λ rows. ¬ AllGiveOn rows day) }
{
    // For the proof: its contract says that what the connection shows obeys the schema.
    let _schema = conn.schema();
    store_transactions::laws::claims_differ();
    store_transactions::laws::entries_differ();
    let taken = take_in_force(conn, alloc, day)?;
    let Some(vrps) = taken.into_vrps() else {
        return Err(StoreFault::Schema);
    };
    Ok(vrps)
}
