//! Reading all rows of a database that has the tables of a desk.
ghost use Rattle.std.specs.Prelude.{◌≡◌, ◌≢◌, ◌↔◌, true, false, ◌||◌, nat_eq, ℕ, List, [], ◌∷◌, length, Any, Err, OnOk, OnErr, IfOk, IsPermutation, IsSorted, IsTrue};
ghost use Rattle.std.specs.declared.cmp.Ordering.{Ordering};
ghost use Rattle.std.specs.Cmp.{IsTotalOrder};
ghost use Rattle.std.specs.Cmp.Lexicographic.{pointwise};
ghost use Rattle.sqlite.specs.Effect.{Database};
ghost use Rattle.sqlite.specs.Given.{IsPlain};
ghost use Rattle.sqlite.specs.Held.{state};
ghost use Rattle.sqlite.specs.Listing.{understood, reads_listing};
ghost use Rattle.sqlite.specs.State.{HasCleanDisk};
ghost use Rattle.addr.specs.Address.{prefix_eq};
ghost use Rattle.registry.specs.Charter.{operators_of, pool_of};
ghost use Rattle.registry.specs.CharterSets.{AreAllowedCounts};
ghost use Rattle.registry.specs.Repeats.{has_repeat};
ghost use Rattle.store_tables.specs.Decode.{ClaimFits, NamedFits, first_columns};
ghost use Rattle.store_tables.specs.Groups.{AllApart, claim_entry, holder_entry};
ghost use Rattle.store_tables.specs.Tables.{operator, pool, holder, holding, granted, slurm, claim, entry, OverDesk};
ghost use Rattle.store_tables.proofs.GroupOrder.{claim_cmp, claim_orders, entry_row_cmp, of_holder_cmp, of_holder_total};
ghost use Rattle.store_transactions.specs.Statements.{state_in, IsReady, OnCleanDisk};
ghost use Rattle.store_open.specs.TablesRead.{TablesRead};
ghost use Rattle.store_open.specs.steps.Numbered.{AreRead, AscendByNumber, SelectsAll, shown_in};
ghost use Rattle.store_open.specs.steps.Reading.{EachShows, FindsIn, FindsThat, HasTree, RefusesIn, RefusesUnread};
ghost use Rattle.store_transactions.specs.steps.Statements.{AnswersSelect};
ghost use Rattle.store_open.specs.steps.Joining.{MakeOfTable, MakeNoneOfTable};
ghost use Rattle.store_open.specs.steps.Keys.{AreOfAll, AreOfSome, ClaimsInOrder, ClaimsRead};
ghost use Rattle.store_open.specs.steps.Opened.{HasNoOldAuths, HasNumber, ReadAndHold, ShowsNumber, number_row, MakeAuths, ShowAuths, ShowExceptions, ShowHolders, ShowsCharter, ShowsOthers, claim_places, entry_places, show_claim};
ghost use Rattle.store_transactions.specs.Queries.{IsAsked, IsAskedOnce, IsClean, IsReadyToAsk, IsAskedInside, ObeysSchema};

use crate::collect::{Collected, Rowids};
use crate::join::Joined;
use crate::key::ClaimKey;
use crate::rise::{last_value, rise};
use addr::{Name, Prefix, Span};
use registry::{Charter, Granted, RoaPrefixes};
use sqlite::types::ValueRef;
use sqlite::{Alter, Connection, Row, Transaction};
use std::alloc::Global;
use std::cmp::Ordering;
use store_schema::shows_old_schema;
use store_tables::{
    Claim, EntryRow, ExceptionRow, FromRow, OfHolder, Registered, SELECT_ALL_AUTHS,
    SELECT_ALL_CLAIMS, SELECT_ALL_ENTRIES, SELECT_ALL_EXCEPTIONS, SELECT_ALL_GRANTS,
    SELECT_ALL_HOLDERS, SELECT_ALL_OPERATORS, SELECT_ALL_PREFIXES, SELECT_ALL_SPANS,
    SELECT_ENTRIES_BY_KEY, SELECT_ENTRY_ROWIDS, SELECT_SCHEMA, first_entries, shows_schema,
};
use store_transactions::{StoreFault, ask, ask_inside, group_files, read_all, take_each};

/// A value that each row of one table shows.
trait InTable: FromRow {
    // The tree of the table, and the columns that show the value.
    ghost tree: { ℕ };

    ghost places: { List ℕ };

    /// The query of those columns of all rows, and of their rowids after them. Where the tables
    /// read, each row shows a value.
    fn select_all() -> &'static str
        ensures selects { SelectsAll Self.width tree places result.now }
        ensures shows { (db : Database) → TablesRead db.trees
            → EachShows Self.cells Self.fits tree places db };
}

/// A value that each row of one table shows, with an order of such values.
trait InOrder: InTable {
    ghost order: { Self → Self → Ordering };

    ghost total: { IsTotalOrder order };

    fn order(&self, other: &Self) -> Ordering
        ensures { result ≡ order self.now other.now };
}

/// Counts the rows of the table `claim`.
const COUNT_CLAIMS: &str = "SELECT COUNT(*) FROM claim";

/// All rows that a query of numbered rows answers.
fn ask_all<S: Alter>(tx: &mut Transaction<'_, S>, sql: &str) -> Result<Vec<Row>, StoreFault>
    requires ready { OnCleanDisk S.Store IsReady tx.old }
    requires plain { OverDesk (λ s. IsPlain (understood s sql.now)) }
    requires unlisted { OverDesk (λ s. reads_listing s sql.now ≡ false) }
    ensures asked { IsAskedInside S.Store tx.old tx.new result }
    ensures answered { FindsIn S.Store tx.old.conn.now tx.new.conn.now result (λ rows db.
        AnswersSelect sql.now db rows.items) }
    ensures rise { IfOk result (λ rows. AscendByNumber rows.items) }
    ensures no_schema { result ≢ Err StoreFault.Schema }
{
    let rows = ask_inside(tx, sql, &[])?;
    if !rise(&rows) {
        return Err(StoreFault::Database);
    }
    Ok(rows)
}

/// The values of all rows of a table.
fn read_table<T: InTable, S: Alter>(
    tx: &mut Transaction<'_, S>,
    alloc: Global,
) -> Result<Vec<T>, StoreFault>
    requires { OnCleanDisk S.Store IsReady tx.old }
    ensures asked { IsAskedInside S.Store tx.old tx.new result }
    ensures tree { FindsThat S.Store tx.old.conn.now tx.new.conn.now result (HasTree T.tree) }
    ensures read { FindsIn S.Store tx.old.conn.now tx.new.conn.now result (λ values db.
        AreRead T.cells T.fits (shown_in T.tree T.places db) values.items) }
    ensures schema { RefusesIn S.Store tx.old.conn.now tx.new.conn.now result
        (λ db. ¬ EachShows T.cells T.fits T.tree T.places db) }
    ensures unread { RefusesUnread S.Store tx.old.conn.now tx.new.conn.now result }
{
    let rows = ask_all(tx, T::select_all())?;
    read_all(alloc, &rows)
}

/// The values of all rows of a table, in their order.
fn read_in_order<T: InOrder, S: Alter>(
    tx: &mut Transaction<'_, S>,
    alloc: Global,
) -> Result<Vec<T>, StoreFault>
    requires { OnCleanDisk S.Store IsReady tx.old }
    ensures asked { IsAskedInside S.Store tx.old tx.new result }
    ensures tree { FindsThat S.Store tx.old.conn.now tx.new.conn.now result (HasTree T.tree) }
    ensures read { FindsIn S.Store tx.old.conn.now tx.new.conn.now result (λ values db.
        AreRead T.cells T.fits (shown_in T.tree T.places db) values.items) }
    ensures sorted { HasCleanDisk (state_in S.Store tx.new)
        → IfOk result (λ values. IsSorted T.order values.items) }
    ensures schema { RefusesIn S.Store tx.old.conn.now tx.new.conn.now result
        (λ db. ¬ EachShows T.cells T.fits T.tree T.places db) }
    ensures unread { RefusesUnread S.Store tx.old.conn.now tx.new.conn.now result }
{
    let mut values: Vec<T> = read_table(tx, alloc)?;
    values.sort_unstable_by(|one, other| one.order(other));
    Ok(values)
}

/// The number that a query of one number answers, or 0. It decides only for how many values room is
/// made at once, so no clause says which number it is.
fn ask_number<S: Alter>(conn: &mut Connection<S>, sql: &str) -> Result<usize, StoreFault>
    requires ready { IsReadyToAsk S.Store conn.old }
    requires plain { OverDesk (λ s. IsPlain (understood s sql.now)) }
    ensures asked { IsAsked S.Store conn.old conn.new result }
    ensures no_schema { result ≢ Err StoreFault.Schema }
{
    let rows = ask(conn, sql, &[])?;
    let Some(ValueRef::Int(number)) = rows.first().map(last_value) else {
        return Ok(0);
    };
    Ok(usize::try_from(number).unwrap_or(0))
}

/// The keys of all claims, outside a transaction. One row is held at a time. The vector is made at
/// once, since one that grows is held twice while it is moved.
fn collect_claims<S: Alter>(
    conn: &mut Connection<S>,
    alloc: Global,
) -> Result<Vec<ClaimKey>, StoreFault>
    requires { IsReadyToAsk S.Store conn.old }
    ensures asked { IsAsked S.Store conn.old conn.new result }
    ensures tree { FindsThat S.Store conn.old conn.new result (HasTree claim.tree) }
    ensures read { FindsIn S.Store conn.old conn.new result (λ keys db.
        AreOfSome (ClaimsRead db) keys.items) }
    ensures schema { RefusesIn S.Store conn.old conn.new result (λ db.
        ¬ EachShows show_claim (NamedFits ClaimFits) claim.tree claim_places db) }
{
    let count = ask_number(conn, COUNT_CLAIMS)?;
    let none = Collected::none(alloc, count);
    let collected = take_each(conn, SELECT_ALL_CLAIMS, &[], none)?;
    let Some(keys) = collected.into_keys() else {
        return Err(StoreFault::Schema);
    };
    Ok(keys)
}

/// The same in the order of claims.
fn collect_in_order<S: Alter>(
    conn: &mut Connection<S>,
    alloc: Global,
) -> Result<Vec<ClaimKey>, StoreFault>
    requires { IsReadyToAsk S.Store conn.old }
    ensures asked { IsAsked S.Store conn.old conn.new result }
    ensures tree { FindsThat S.Store conn.old conn.new result (HasTree claim.tree) }
    ensures read { FindsIn S.Store conn.old conn.new result (λ keys db.
        AreOfSome (ClaimsInOrder db) keys.items) }
    ensures schema { RefusesIn S.Store conn.old conn.new result (λ db.
        ¬ EachShows show_claim (NamedFits ClaimFits) claim.tree claim_places db) }
{
    let mut keys = collect_claims(conn, alloc)?;
    keys.sort_unstable_by(|one, other| one.order(other));
    Ok(keys)
}

impl InTable for Name {
    ghost tree = { operator.tree };

    ghost places = { 0 ∷ [] };

    fn select_all() -> &'static str {
        SELECT_ALL_OPERATORS
    }
}

impl InTable for Prefix {
    ghost tree = { pool.tree };

    ghost places = { 0 ∷ 1 ∷ 2 ∷ [] };

    fn select_all() -> &'static str {
        SELECT_ALL_PREFIXES
    }
}

impl InTable for Registered {
    ghost tree = { holder.tree };

    ghost places = { 0 ∷ 1 ∷ 2 ∷ [] };

    fn select_all() -> &'static str {
        SELECT_ALL_HOLDERS
    }
}

impl InTable for Span {
    ghost tree = { holding.tree };

    ghost places = { 0 ∷ 1 ∷ 2 ∷ [] };

    fn select_all() -> &'static str {
        SELECT_ALL_SPANS
    }
}

impl InTable for Granted {
    ghost tree = { granted.tree };

    ghost places = { 1 ∷ 2 ∷ 3 ∷ 4 ∷ 5 ∷ 6 ∷ 7 ∷ [] };

    fn select_all() -> &'static str {
        SELECT_ALL_GRANTS
    }
}

impl InTable for ExceptionRow {
    ghost tree = { slurm.tree };

    ghost places = { 0 ∷ 1 ∷ 2 ∷ 3 ∷ 4 ∷ 5 ∷ 6 ∷ 7 ∷ [] };

    fn select_all() -> &'static str {
        SELECT_ALL_EXCEPTIONS
    }
}

impl InTable for OfHolder<Claim> {
    ghost tree = { claim.tree };

    ghost places = { claim_places };

    fn select_all() -> &'static str {
        SELECT_ALL_CLAIMS
    }
}

impl InTable for OfHolder<EntryRow> {
    ghost tree = { entry.tree };

    ghost places = { entry_places };

    fn select_all() -> &'static str {
        SELECT_ALL_ENTRIES
    }
}

impl InOrder for OfHolder<Claim> {
    ghost order = { of_holder_cmp claim_cmp };

    ghost total = { of_holder_total claim_cmp claim_orders.claims_total };

    fn order(&self, other: &OfHolder<Claim>) -> Ordering {
        let holders = self.holder.cmp(&other.holder);
        holders.then(self.row.number.cmp(&other.row.number))
    }
}

impl InOrder for OfHolder<EntryRow> {
    ghost order = { of_holder_cmp entry_row_cmp };

    ghost total = { of_holder_total entry_row_cmp claim_orders.rows_total };

    fn order(&self, other: &OfHolder<EntryRow>) -> Ordering {
        let holders = self.holder.cmp(&other.holder);
        let numbers = self.row.number.cmp(&other.row.number);
        let prefixes = self.row.entry.prefix.cmp(&other.row.entry.prefix);
        holders.then(numbers.then(prefixes))
    }
}

/// Whether some row has the number of this schema, or that of schema 1.
fn some_shows(rows: &[Row], is_old: bool) -> bool
    ensures { IsTrue result
        ↔ Any (λ row. first_columns 2 row ≡ number_row is_old) rows.now }
{
    if is_old {
        rows.iter().any(|row| shows_old_schema(row))
    } else {
        rows.iter().any(|row| shows_schema(row))
    }
}

/// Checks that the one row has the number of this schema, or that of schema 1. Fault `Schema`: no
/// row has it. Fault `Database`: another row is beside the one that has it.
fn check_number(rows: &[Row], is_old: bool) -> Result<(), StoreFault>
    ensures found { OnOk result (Any (λ row. first_columns 2 row ≡ number_row is_old) rows.now
        × (length rows.now ≡ 1)) }
    ensures schema { result ≡ Err StoreFault.Schema
        → ¬ Any (λ row. first_columns 2 row ≡ number_row is_old) rows.now }
    ensures others { result ≡ Err StoreFault.Database
        → Any (λ row. first_columns 2 row ≡ number_row is_old) rows.now
        × (length rows.now ≢ 1) }
{
    if !some_shows(rows, is_old) {
        return Err(StoreFault::Schema);
    }
    if rows.len() != 1 {
        return Err(StoreFault::Database);
    }
    Ok(())
}

/// Checks that the one row of the table `meta` has the number of this schema, or that of schema 1.
pub(crate) fn read_number<S: Alter>(
    tx: &mut Transaction<'_, S>,
    is_old: bool,
) -> Result<(), StoreFault>
    requires { OnCleanDisk S.Store IsReady tx.old }
    ensures asked { IsAskedInside S.Store tx.old tx.new result }
    ensures found { FindsThat S.Store tx.old.conn.now tx.new.conn.now result
        (ShowsNumber is_old) }
    ensures schema { RefusesIn S.Store tx.old.conn.now tx.new.conn.now result
        (λ db. ¬ HasNumber is_old db.trees) }
{
    let rows = ask_all(tx, SELECT_SCHEMA)?;
    check_number(&rows, is_old)
}

/// The charter of these operators and this pool. If they make none, the fault is `Schema`.
fn make_charter(operators: Vec<Name>, pool: Vec<Prefix>) -> Result<Charter, StoreFault>
    ensures operators { IfOk result
        (λ charter. IsPermutation operators.items (operators_of charter)) }
    ensures pool { IfOk result (λ charter. IsPermutation pool.items (pool_of charter)) }
    ensures schema { OnErr result (AreAllowedCounts operators.items pool.items
        → (has_repeat (pointwise nat_eq) operators.items || has_repeat prefix_eq pool.items)
        ≡ true) }
{
    Charter::make(operators, pool).map_err(|_| StoreFault::Schema)
}

/// The charter that the tables have.
fn read_charter<S: Alter>(tx: &mut Transaction<'_, S>, alloc: Global) -> Result<Charter, StoreFault>
    requires { OnCleanDisk S.Store IsReady tx.old }
    ensures asked { IsAskedInside S.Store tx.old tx.new result }
    ensures found { FindsIn S.Store tx.old.conn.now tx.new.conn.now result ShowsCharter }
    ensures schema { RefusesUnread S.Store tx.old.conn.now tx.new.conn.now result }
{
    let operators = read_table(tx, alloc)?;
    let pool = read_table(tx, alloc)?;
    make_charter(operators, pool)
}

/// Checks that each row of the tables of holders, of what they hold and of grants reads.
fn read_holders<S: Alter>(tx: &mut Transaction<'_, S>, alloc: Global) -> Result<(), StoreFault>
    requires { OnCleanDisk S.Store IsReady tx.old }
    ensures asked { IsAskedInside S.Store tx.old tx.new result }
    ensures found { FindsThat S.Store tx.old.conn.now tx.new.conn.now result ShowHolders }
    ensures schema { RefusesUnread S.Store tx.old.conn.now tx.new.conn.now result }
{
    let _holders: Vec<Registered> = read_table(tx, alloc)?;
    let _holdings: Vec<Span> = read_table(tx, alloc)?;
    let _grants: Vec<Granted> = read_table(tx, alloc)?;
    Ok(())
}

/// Checks that the table of authorizations of schema 1 has no row.
fn read_unused<S: Alter>(tx: &mut Transaction<'_, S>) -> Result<(), StoreFault>
    requires { OnCleanDisk S.Store IsReady tx.old }
    ensures asked { IsAskedInside S.Store tx.old tx.new result }
    ensures found { FindsThat S.Store tx.old.conn.now tx.new.conn.now result HasNoOldAuths }
    ensures schema { RefusesUnread S.Store tx.old.conn.now tx.new.conn.now result }
{
    let rows = ask_all(tx, SELECT_ALL_AUTHS)?;
    if !rows.is_empty() {
        return Err(StoreFault::Schema);
    }
    Ok(())
}

/// Checks that claims and entries, both in order, make authorizations. It keeps the entries of one
/// claim at a time, since this takes most of the memory of an opening.
fn check_auths(
    alloc: Global,
    claims: &[OfHolder<Claim>],
    entries: &[OfHolder<EntryRow>],
) -> Result<(), StoreFault>
    ensures found { OnOk result (MakeAuths claims.now entries.now) }
    ensures schema { result ≡ Err StoreFault.Schema
        → AllApart (holder_entry claim_entry) claims.now → ¬ MakeAuths claims.now entries.now }
{
    let mut rest = entries;
    for claim in claims {
        let found = first_entries(alloc, claim, rest)?;
        (_, rest) = rest.split_at(found.len());
        let Some(_) = RoaPrefixes::in_order(found) else {
            return Err(StoreFault::Schema);
        };
    }
    if rest.is_empty() {
        Ok(())
    } else {
        Err(StoreFault::Schema)
    }
}

/// Checks that the rows of claims and of entries read, and that they make authorizations.
fn read_auths<S: Alter>(tx: &mut Transaction<'_, S>, alloc: Global) -> Result<(), StoreFault>
    requires ready { OnCleanDisk S.Store IsReady tx.old }
    requires unused { OnCleanDisk S.Store (λ s. HasNoOldAuths s.now) tx.old }
    requires sound { OnCleanDisk S.Store ObeysSchema tx.old }
    ensures asked { IsAskedInside S.Store tx.old tx.new result }
    ensures found { FindsThat S.Store tx.old.conn.now tx.new.conn.now result ShowAuths }
    ensures schema { RefusesUnread S.Store tx.old.conn.now tx.new.conn.now result }
{
    let claims: Vec<OfHolder<Claim>> = read_in_order(tx, alloc)?;
    let entries: Vec<OfHolder<EntryRow>> = read_in_order(tx, alloc)?;
    check_auths(alloc, &claims, &entries)
}

/// Checks that each row of the table `slurm` reads. If a SLURM file has more exceptions than it may
/// have, the fault is `Schema`.
fn read_exceptions<S: Alter>(tx: &mut Transaction<'_, S>, alloc: Global) -> Result<(), StoreFault>
    requires { OnCleanDisk S.Store IsReady tx.old }
    ensures asked { IsAskedInside S.Store tx.old tx.new result }
    ensures found { FindsThat S.Store tx.old.conn.now tx.new.conn.now result ShowExceptions }
    ensures schema { RefusesUnread S.Store tx.old.conn.now tx.new.conn.now result }
{
    let exceptions = read_table(tx, alloc)?;
    let _files = group_files(alloc, exceptions)?;
    Ok(())
}

/// Reads all rows but those of claims and of entries, and returns the charter that they have.
fn read_others<S: Alter>(tx: &mut Transaction<'_, S>, alloc: Global) -> Result<Charter, StoreFault>
    requires { OnCleanDisk S.Store IsReady tx.old }
    ensures asked { IsAskedInside S.Store tx.old tx.new result }
    ensures shown { FindsIn S.Store tx.old.conn.now tx.new.conn.now result ShowsOthers }
    ensures schema { RefusesUnread S.Store tx.old.conn.now tx.new.conn.now result }
{
    read_number(tx, false)?;
    let charter = read_charter(tx, alloc)?;
    // For the proof: its contract says that the operators and the pool make a charter.
    let _operators = charter.operators();
    read_holders(tx, alloc)?;
    read_unused(tx)?;
    read_exceptions(tx, alloc)?;
    Ok(charter)
}

/// Reads all rows of a database that has the tables of a desk, and returns the charter that they
/// have.
pub(crate) fn read_inside<S: Alter>(
    tx: &mut Transaction<'_, S>,
    alloc: Global,
) -> Result<Charter, StoreFault>
    requires ready { OnCleanDisk S.Store IsReady tx.old }
    requires sound { OnCleanDisk S.Store ObeysSchema tx.old }
    ensures asked { IsAskedInside S.Store tx.old tx.new result }
    ensures held { FindsIn S.Store tx.old.conn.now tx.new.conn.now result ReadAndHold }
    ensures schema { RefusesUnread S.Store tx.old.conn.now tx.new.conn.now result }
{
    let charter = read_others(tx, alloc)?;
    read_auths(tx, alloc)?;
    Ok(charter)
}

/// `read_others` in a transaction of its own, which is rolled back.
fn read_others_once<S: Alter>(
    conn: &mut Connection<S>,
    alloc: Global,
) -> Result<Charter, StoreFault>
    requires { IsReadyToAsk S.Store conn.old }
    ensures asked { IsAskedOnce S.Store conn.old conn.new result }
    ensures shown { FindsIn S.Store conn.old conn.new result ShowsOthers }
    ensures schema { RefusesUnread S.Store conn.old conn.new result }
{
    // For the proof: its contract says that outside a transaction all that is shown is committed.
    let _idle = conn.is_autocommit();
    let mut tx = conn.transaction();
    let charter = read_others(&mut tx, alloc)?;
    tx.rollback();
    // Only a connection that compiled a text is known to be open.
    conn.prepare(SELECT_SCHEMA)?;
    Ok(charter)
}

/// Checks that the rowids of the table of entries rise.
fn check_rowids<S: Alter>(conn: &mut Connection<S>) -> Result<(), StoreFault>
    requires { IsReadyToAsk S.Store conn.old }
    ensures asked { IsAsked S.Store conn.old conn.new result }
    ensures tree { FindsThat S.Store conn.old conn.new result (HasTree entry.tree) }
    ensures no_schema { result ≢ Err StoreFault.Schema }
{
    take_each(conn, SELECT_ENTRY_ROWIDS, &[], Rowids::none())?;
    Ok(())
}

/// Checks that the rows of entries read, and that they make authorizations with the claims of these
/// keys, which are in order. It holds the entries of one claim at a time.
fn join_entries<S: Alter>(
    conn: &mut Connection<S>,
    alloc: Global,
    claims: Vec<ClaimKey>,
) -> Result<(), StoreFault>
    requires { IsReadyToAsk S.Store conn.old }
    ensures asked { IsAsked S.Store conn.old conn.new result }
    ensures found { FindsThat S.Store conn.old conn.new result (λ db.
        AreOfAll (λ all. MakeOfTable all db) claims.items) }
    ensures schema { RefusesIn S.Store conn.old conn.new result (λ db.
        AreOfAll (λ all. MakeNoneOfTable all db) claims.items) }
{
    let start = Joined::start(alloc, claims);
    let joined = take_each(conn, SELECT_ENTRIES_BY_KEY, &[], start)?;
    if !joined.is_whole() {
        return Err(StoreFault::Schema);
    }
    Ok(())
}

/// Checks that the rows of claims and of entries read, and that they make authorizations. It holds
/// the keys of the claims, since they are the smaller part, and one row of an entry at a time.
fn collect_auths<S: Alter>(conn: &mut Connection<S>, alloc: Global) -> Result<(), StoreFault>
    requires ready { IsReadyToAsk S.Store conn.old }
    requires unused { IsClean S.Store conn.old → HasNoOldAuths (state S.Store conn.old).now }
    ensures asked { IsAsked S.Store conn.old conn.new result }
    ensures found { FindsThat S.Store conn.old conn.new result ShowAuths }
    ensures schema { RefusesUnread S.Store conn.old conn.new result }
{
    // For the proof: its contract says that what is shown obeys the schema.
    let _schema = conn.schema();
    let claims = collect_in_order(conn, alloc)?;
    check_rowids(conn)?;
    join_entries(conn, alloc, claims)
}

/// Reads all rows of a database that has the tables of a desk, outside a transaction, and returns
/// the charter that they have.
pub(crate) fn read_tables<S: Alter>(
    conn: &mut Connection<S>,
    alloc: Global,
) -> Result<Charter, StoreFault>
    requires { IsReadyToAsk S.Store conn.old }
    ensures asked { IsAskedOnce S.Store conn.old conn.new result }
    ensures held { FindsIn S.Store conn.old conn.new result ReadAndHold }
    ensures schema { RefusesUnread S.Store conn.old conn.new result }
{
    // For the proof: its contract says that what is shown obeys the schema.
    let _schema = conn.schema();
    let charter = read_others_once(conn, alloc)?;
    collect_auths(conn, alloc)?;
    Ok(charter)
}
