//! The table `slurm`: the exceptions of the SLURM files in force.
ghost use Rattle.std.specs.Prelude.{◌≡◌, [], ◌∷◌};
ghost use Rattle.sqlite.specs.Values.{bound};
ghost use Rattle.registry.specs.Values.{FilterFits};
ghost use Rattle.sqlite_value.specs.Value.{owned};
ghost use Rattle.store_tables.specs.Cells.{address_bytes, number_cell, kind_number, filter_first, filter_cells, assertion_cells, exception_first, exception_cells, exception_row};
ghost use Rattle.store_tables.specs.Decode.{Decodes, IsPosition, ExceptionFits, ExceptionRowFits};
ghost use Rattle.store_tables.specs.Tables.{columns};

use crate::FromRow;
use crate::cells::prefix_values;
use crate::decode::{cell, decode_asn, decode_name, decode_prefix, decode_u32, decode_vrp};
use addr::{Name, Vrp};
use slurm::Filter;
use sqlite::Row;
use sqlite::types::{ToSql, ValueRef};

/// Makes the table.
pub const CREATE_SLURM: &str = "\
    CREATE TABLE slurm (file TEXT NOT NULL, kind INTEGER NOT NULL, position INTEGER NOT NULL, \
    family INTEGER, lo BLOB, len INTEGER, max INTEGER, asn INTEGER, \
    PRIMARY KEY (file, kind, position)) STRICT";

/// Puts an exception.
pub const INSERT_EXCEPTION: &str = "\
    INSERT INTO slurm (file, kind, position, family, lo, len, max, asn) \
    VALUES (?1, ?2, ?3, ?4, ?5, ?6, ?7, ?8)";

/// Deletes all exceptions.
pub const DELETE_EXCEPTIONS: &str = "DELETE FROM slurm";

/// All exceptions, and their rowids.
pub const SELECT_ALL_EXCEPTIONS: &str = "\
    SELECT file, kind, position, family, lo, len, max, asn, rowid FROM slurm ORDER BY rowid";

/// A prefix filter or a prefix assertion.
#[derive(Clone, Copy, Debug, PartialEq, Eq)]
pub enum Exception {
    Filter(Filter),
    Assertion(Vrp),
}

/// An exception of a SLURM file, and its place among those of its kind.
#[derive(Clone, Copy, Debug, PartialEq, Eq)]
pub struct ExceptionRow {
    pub file: Name,
    /// The place, counted from 1.
    pub position: u32,
    pub exception: Exception,
}

impl FromRow for ExceptionRow {
    ghost cells = { exception_row };

    ghost width = { 8 };

    ghost fits = { ExceptionRowFits };

    fn in_row(row: &Row) -> Option<ExceptionRow> {
        Some(ExceptionRow {
            file: decode_name(cell(row, 0))?,
            position: decode_position(cell(row, 2))?,
            exception: decode_exception(row)?,
        })
    }
}

/// The place of an exception among those of its kind.
fn decode_position(value: ValueRef<'_>) -> Option<u32>
    ensures { Decodes number_cell IsPosition (owned value.entry) result }
{
    match decode_u32(value)? {
        0 => None,
        position => Some(position),
    }
}

/// The exception that the other columns show, after those of the file and the position.
fn decode_exception(row: &Row) -> Option<Exception>
    ensures { Decodes (λ e. number_cell (kind_number e) ∷ exception_cells e) ExceptionFits
        (columns (1 ∷ 3 ∷ 4 ∷ 5 ∷ 6 ∷ 7 ∷ []) row.now) result }
{
    let (family, first, length) = (cell(row, 3), cell(row, 4), cell(row, 5));
    let (max, asn) = (cell(row, 6), cell(row, 7));
    match cell(row, 1) {
        ValueRef::Int(1) => Some(Exception::Filter(decode_filter(
            family, first, length, max, asn,
        )?)),
        ValueRef::Int(2) => Some(Exception::Assertion(decode_vrp(
            asn, family, first, length, max,
        )?)),
        _ => None,
    }
}

/// The prefix filter that the columns show.
fn decode_filter(
    family: ValueRef<'_>,
    first: ValueRef<'_>,
    length: ValueRef<'_>,
    max: ValueRef<'_>,
    asn: ValueRef<'_>,
) -> Option<Filter>
    ensures { Decodes filter_cells FilterFits
        (owned family.entry ∷ owned first.entry ∷ owned length.entry ∷ owned max.entry
        ∷ owned asn.entry ∷ []) result }
{
    match (family, first, length, max, asn) {
        (ValueRef::Null, ValueRef::Null, ValueRef::Null, ValueRef::Null, _) => {
            Some(Filter::By(decode_asn(asn)?))
        }
        (_, _, _, ValueRef::Null, ValueRef::Null) => {
            Some(Filter::Under(decode_prefix(family, first, length)?))
        }
        (_, _, _, ValueRef::Null, _) => {
            Some(Filter::Both(decode_prefix(family, first, length)?, decode_asn(asn)?))
        }
        _ => None,
    }
}

/// The first address of the prefix of an exception, as a number; 0 if it has none.
pub fn exception_first(exception: &Exception) -> u128
    ensures { result ≡ exception_first exception.now }
{
    match exception {
        Exception::Filter(Filter::Under(prefix) | Filter::Both(prefix, _)) => prefix.first,
        Exception::Filter(Filter::By(_)) => 0,
        Exception::Assertion(vrp) => vrp.prefix.first,
    }
}

/// The columns of a prefix filter, with the bytes of the first address of its prefix.
fn filter_values<'a>(filter: &Filter, first: &'a [u8]) -> [ValueRef<'a>; 5]
    requires { first.now ≡ address_bytes (filter_first filter.now) }
    ensures { bound result ≡ filter_cells filter.now }
{
    match filter {
        Filter::Under(prefix) => {
            let [family, lo, length] = prefix_values(prefix, first);
            [family, lo, length, ValueRef::Null, ValueRef::Null]
        }
        Filter::By(asn) => [
            ValueRef::Null,
            ValueRef::Null,
            ValueRef::Null,
            ValueRef::Null,
            asn.0.to_sql(),
        ],
        Filter::Both(prefix, asn) => {
            let [family, lo, length] = prefix_values(prefix, first);
            [family, lo, length, ValueRef::Null, asn.0.to_sql()]
        }
    }
}

/// The columns of a prefix assertion, with the bytes of the first address of its prefix.
fn assertion_values<'a>(vrp: &Vrp, first: &'a [u8]) -> [ValueRef<'a>; 5]
    requires { first.now ≡ address_bytes vrp.now.prefix.first }
    ensures { bound result ≡ assertion_cells vrp.now }
{
    let [family, lo, length] = prefix_values(&vrp.prefix, first);
    [
        family,
        lo,
        length,
        u32::from(vrp.max).to_sql(),
        vrp.asn.0.to_sql(),
    ]
}

/// A row of the table, with the bytes of the first address of its prefix.
pub fn exception_values<'a>(row: &'a ExceptionRow, first: &'a [u8]) -> [ValueRef<'a>; 8]
    requires { first.now ≡ address_bytes (exception_first row.now.exception) }
    ensures { bound result ≡ exception_row row.now }
{
    let (kind, [family, lo, length, max, asn]) = match &row.exception {
        Exception::Filter(filter) => (1u32, filter_values(filter, first)),
        Exception::Assertion(vrp) => (2, assertion_values(vrp, first)),
    };
    [
        row.file.as_str().to_sql(),
        kind.to_sql(),
        row.position.to_sql(),
        family,
        lo,
        length,
        max,
        asn,
    ]
}
