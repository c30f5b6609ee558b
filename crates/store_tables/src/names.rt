//! Whether a schema has the tables and the columns of another by their names.
ghost use Rattle.std.specs.Prelude.{◌≡◌, ◌&&◌};
ghost use Rattle.store_tables.specs.Schemas as spec;

use sqlite_schema::names::same_name;
use sqlite_schema::schema::{Column, Schema, Table, View};

/// Whether the table has columns of these names.
fn has_columns(table: &Table, columns: &[Column]) -> bool
    ensures { result ≡ spec.has_columns table.now columns.now }
{
    columns.iter().all(|column| table.column_named(column.name.as_slice()).is_some())
}

/// Whether the view is of a table of this name that SQL does not reach.
fn is_of_table(name: &[u8], view: &View) -> bool
    ensures { result ≡ spec.is_of_table name.now view.now }
{
    match &view.foreign {
        Some(owner) => same_name(owner.as_slice(), name),
        None => false,
    }
}

/// Whether a table of this name, with its columns, is among these.
fn is_table_among(table: &Table, tables: &[Table]) -> bool
    ensures { result ≡ spec.is_table_among table.now tables.now }
{
    tables.iter().any(|found| {
        found.is_named(table.name.as_slice()) && has_columns(found, table.columns.as_slice())
    })
}

/// Whether a table of this name is there that SQL does not reach, such as one with a trigger.
fn is_out_of_reach(name: &[u8], views: &[View]) -> bool
    ensures { result ≡ spec.is_out_of_reach name.now views.now }
{
    views.iter().any(|view| is_of_table(name, view))
}

/// Whether the schema has the table, within reach of SQL or out of it.
fn has_table(schema: &Schema, table: &Table) -> bool
    ensures { result ≡ spec.has_table schema.now table.now }
{
    is_table_among(table, schema.tables.as_slice())
        || is_out_of_reach(table.name.as_slice(), schema.views.as_slice())
}

/// Whether the schema has each table of the other by its name, and each of its columns.
pub fn has_names(schema: &Schema, other: &Schema) -> bool
    ensures { result ≡ spec.has_names schema.now other.now.tables }
{
    let tables = other.tables.as_slice();
    tables.iter().all(|table| has_table(schema, table))
}
