//! Finds which tables a database has.
ghost use Rattle.std.specs.Prelude.{◌≡◌, ◌↔◌, true, false, Err, IfOk, OnOk, OnErr};
ghost use Rattle.sqlite_schema.specs.declared.schema.Schema.{Schema as shown_schema};
ghost use Rattle.store_tables.specs.Schemas.{has_names, HasPlainTables};
ghost use Rattle.store_tables.specs.Tables.{desk_schema, desk_tables};
ghost use Rattle.store_schema.specs.OldTables.{old_tables};
ghost use Rattle.store_schema.specs.Moving.{old_schema_if};
ghost use Rattle.store_open.specs.Opening as spec;
ghost use Rattle.store_open.specs.Opening.{HasOtherNames, IsStrange};
ghost use Rattle.store_open.specs.steps.Found.{HasFound, IsFoundOf, IsSamePlain};

use sqlite::{Connection, Error, MemStore};
use sqlite_schema::schema::Schema;
use std::alloc::Global;
use store_schema::{make_old_schema, make_schema};
use store_tables::{has_names, same_schema, same_tables};
use store_transactions::StoreFault;

/// The tables that a database has.
#[derive(Clone, Copy, PartialEq, Eq)]
pub(crate) enum Found {
    /// The tables of a desk.
    Desk,
    /// The tables of schema 1, and whether the index of a holder's runs is there.
    Old(bool),
}

/// A database in memory that has the tables of a desk, with which others are compared.
fn tables_in_memory(alloc: Global) -> Result<Connection<MemStore>, Error>
    ensures { IfOk result (λ conn. conn.schema ≡ desk_schema) }
{
    let mut conn = Connection::open_in_memory(alloc)?;
    let mut tx = conn.transaction();
    make_schema(&mut tx)?;
    tx.commit()?;
    Ok(conn)
}

/// A database in memory of schema 1, with the index of a holder's runs or without it.
fn old_tables_in_memory(alloc: Global, has_index: bool) -> Result<Connection<MemStore>, Error>
    ensures { IfOk result (λ conn. conn.schema ≡ old_schema_if has_index) }
{
    let mut conn = Connection::open_in_memory(alloc)?;
    let mut tx = conn.transaction();
    make_old_schema(&mut tx, has_index)?;
    tx.commit()?;
    Ok(conn)
}

/// Whether the schema has the tables of a desk. Fault `Schema`: one of their names is missing.
/// Fault `Database`: all names are there, but the tables differ.
fn compare_tables(schema: &Schema, desk: &Schema) -> Result<(), StoreFault>
    ensures tables { OnOk result (schema.now.tables ≡ desk.now.tables) }
    ensures names { result ≡ Err StoreFault.Schema
        ↔ (has_names schema.now desk.now.tables ≡ false) }
    ensures others { result ≡ Err StoreFault.Database
        → ¬ (HasPlainTables schema.now × (schema.now.tables ≡ desk.now.tables)) }
{
    if !has_names(schema, desk) {
        return Err(StoreFault::Schema);
    }
    if !same_tables(schema, desk) {
        return Err(StoreFault::Database);
    }
    Ok(())
}

/// Whether a table is there that schema 1 does not have.
fn has_new_table(schema: &Schema) -> bool
    ensures { result ≡ spec.has_new_table schema.now }
{
    schema.tables.as_slice().iter().any(|table| table.is_named(b"claim")
        || table.is_named(b"entry"))
}

/// Whether the schema is schema 1, with or without the index of a holder's runs. Fault `Database`:
/// all names of schema 1 are there, but something else differs, so it cannot be moved. Fault
/// `Schema`: a name is missing, or `claim` or `entry` is there without the rest of a desk.
fn compare_old(schema: &Schema, indexed: &Schema, bare: &Schema) -> Result<Found, StoreFault>
    ensures found { IfOk result (IsFoundOf schema.now indexed.now bare.now) }
    ensures neither { OnErr result (¬ IsSamePlain schema.now indexed.now
        × ¬ IsSamePlain schema.now bare.now) }
    ensures named { result ≡ Err StoreFault.Database
        → ¬ HasOtherNames schema.now bare.now.tables }
    ensures other { result ≡ Err StoreFault.Schema → HasOtherNames schema.now bare.now.tables }
{
    if same_schema(schema, indexed) {
        return Ok(Found::Old(true));
    }
    if same_schema(schema, bare) {
        return Ok(Found::Old(false));
    }
    if has_names(schema, bare) && !has_new_table(schema) {
        return Err(StoreFault::Database);
    }
    Err(StoreFault::Schema)
}

/// Compares a schema that lacks a name of a desk's tables with schema 1, as `compare_old` does.
fn find_old(alloc: Global, schema: &Schema) -> Result<Found, StoreFault>
    ensures found { IfOk result (HasFound schema.now) }
    ensures schema { result ≡ Err StoreFault.Schema → HasOtherNames schema.now old_tables }
{
    let indexed = old_tables_in_memory(alloc, true)?;
    let bare = old_tables_in_memory(alloc, false)?;
    compare_old(schema, indexed.schema(), bare.schema())
}

/// Which tables the schema has. A desk may have other indexes and views beside its tables.
pub(crate) fn find_tables(alloc: Global, schema: &Schema) -> Result<Found, StoreFault>
    ensures found { IfOk result (HasFound schema.now) }
    ensures schema { result ≡ Err StoreFault.Schema → IsStrange schema.now }
{
    let desk = tables_in_memory(alloc)?;
    match compare_tables(schema, desk.schema()) {
        Ok(()) => Ok(Found::Desk),
        Err(StoreFault::Schema) => find_old(alloc, schema),
        Err(fault) => Err(fault),
    }
}
