//! Databases that were made by SQL, and what opening them as a store answers: `ok`, or the fault.
//! The statements and the answers follow from the formats of the tables.
use crate::example_database::{TABLES, made, made_old};
use crate::tables::{assert_output, assert_same, given, rows_of};
use sqlite::{Alter, Connection, MemStore};
use sqlite_disk::{Disk, Files, Memory};
use sqlite_pager::Options;
use std::alloc::Global;
use std::process::Abort;
use store::{Store, StoreFault};

/// Statements over the rows of the example, and what the opening answers then.
const CHANGED_ROWS: &str = r#"
# number_of_the_schema
UPDATE meta SET value = 2 => ok
UPDATE meta SET value = 1 => schema
UPDATE meta SET value = 3 => schema
UPDATE meta SET value = 0 => schema
UPDATE meta SET name = 'version' => schema
DELETE FROM meta => schema
# further_row_of_meta
INSERT INTO meta VALUES ('notes', 1) => database
INSERT INTO meta VALUES ('Schema', 2) => database
UPDATE meta SET value = 3; INSERT INTO meta VALUES ('notes', 1) => schema
# charter
INSERT INTO operator VALUES ('-reg') => schema
INSERT INTO operator VALUES ('Reg') => schema
INSERT INTO operator VALUES ('') => schema
DELETE FROM operator => schema
INSERT INTO operator WITH RECURSIVE n (i) AS (SELECT 1 UNION ALL SELECT i + 1 FROM n WHERE i < 15) SELECT 'reg' || i FROM n => ok
INSERT INTO operator WITH RECURSIVE n (i) AS (SELECT 1 UNION ALL SELECT i + 1 FROM n WHERE i < 16) SELECT 'reg' || i FROM n => schema
UPDATE pool SET family = 5 => schema
UPDATE pool SET len = 33 => schema
UPDATE pool SET lo = x'000000000000000000000000c0000201' WHERE lo = x'000000000000000000000000c0000200' => schema
DELETE FROM pool => schema
INSERT INTO pool WITH RECURSIVE n (i) AS (SELECT 1 UNION ALL SELECT i + 1 FROM n WHERE i < 62) SELECT 6, x'00000000000000000000000000000000', i FROM n => ok
INSERT INTO pool WITH RECURSIVE n (i) AS (SELECT 1 UNION ALL SELECT i + 1 FROM n WHERE i < 63) SELECT 6, x'00000000000000000000000000000000', i FROM n => schema
# holders
INSERT INTO holder VALUES ('a2345678901234567890123456789012', 0, 0) => ok
INSERT INTO holder VALUES ('a23456789012345678901234567890123', 0, 0) => schema
INSERT INTO holder VALUES ('', 0, 0) => schema
INSERT INTO holder VALUES ('Alpha', 0, 0) => schema
INSERT INTO holder VALUES ('-alpha', 0, 0) => schema
INSERT INTO holder VALUES ('ålpha', 0, 0) => schema
UPDATE holder SET grants = 999999, auths = 999999 => ok
UPDATE holder SET grants = 1000000 => schema
UPDATE holder SET auths = 1000000 => schema
UPDATE holder SET grants = -1 => schema
UPDATE holder SET auths = 4294967296 => schema
# runs_of_addresses
UPDATE holding SET hi = x'000000000000000000000000c0000200' => ok
UPDATE holding SET hi = x'000000000000000000000000c00001ff' => schema
UPDATE holding SET lo = x'000000000000000000000000c00003' => schema
UPDATE holding SET hi = x'00000000000000000000000000c00002ff' => schema
UPDATE holding SET lo = x'' => schema
UPDATE holding SET hi = x'000000000000000000000000ffffffff' => ok
UPDATE holding SET hi = x'00000000000000000000000100000000' => schema
UPDATE holding SET family = 6, hi = x'ffffffffffffffffffffffffffffffff' => ok
UPDATE holding SET family = 5 => schema
UPDATE holding SET family = 0 => schema
# grants
UPDATE granted SET number = 999999 => ok
UPDATE granted SET number = 0 => schema
UPDATE granted SET number = 1000000 => schema
UPDATE granted SET number = -1 => schema
UPDATE granted SET caller = 'a23456789012345678901234567890123' => schema
UPDATE granted SET role = 3 => ok
UPDATE granted SET role = 4 => schema
UPDATE granted SET role = 0 => schema
UPDATE granted SET role = 2, family = 4, lo = x'000000000000000000000000c0000200', len = 25 => ok
UPDATE granted SET role = 2, lo = x'000000000000000000000000c0000200', len = 25 => schema
UPDATE granted SET role = 2, family = 4, len = 25 => schema
UPDATE granted SET role = 2, family = 4, lo = x'000000000000000000000000c0000200' => schema
UPDATE granted SET role = 2, len = 25 => schema
UPDATE granted SET role = 2, family = 4, lo = x'000000000000000000000000c0000201', len = 25 => schema
UPDATE granted SET until = 2932896 => ok
UPDATE granted SET until = 2932897 => schema
UPDATE granted SET until = -1 => schema
"#;

/// Statements over the claims and entries of the example.
const CHANGED_CLAIMS: &str = r#"
# claims
INSERT INTO claim VALUES ('alpha', 999999, 64496, 20454, 20818); UPDATE entry SET number = 999999; DELETE FROM claim WHERE number = 1 => ok
INSERT INTO claim VALUES ('alpha', 0, 64496, 20454, 20818); UPDATE entry SET number = 0; DELETE FROM claim WHERE number = 1 => schema
INSERT INTO claim VALUES ('alpha', 1000000, 64496, 20454, 20818); UPDATE entry SET number = 1000000; DELETE FROM claim WHERE number = 1 => schema
UPDATE claim SET asn = 4294967295; UPDATE entry SET asn = 4294967295 => ok
UPDATE claim SET asn = 4294967296; UPDATE entry SET asn = 4294967296 => schema
UPDATE claim SET asn = -1; UPDATE entry SET asn = -1 => schema
UPDATE claim SET opens = 0, ends = 2932896 => ok
UPDATE claim SET ends = 2932897 => schema
UPDATE claim SET opens = 2932897 => schema
UPDATE claim SET opens = -1 => schema
# entries
UPDATE entry SET family = 6, len = 120, max = 128 => ok
UPDATE entry SET family = 6 => schema
UPDATE entry SET family = 5 => schema
UPDATE entry SET lo = x'0000000000000000000000c0000200' => schema
UPDATE entry SET lo = x'0000000000000000000000000000c0000200' => schema
UPDATE entry SET lo = x'000000000000000000000000c0000280' => schema
UPDATE entry SET lo = x'000000000000000000000001c0000200' => schema
UPDATE entry SET len = 33, max = 33 => schema
UPDATE entry SET len = 22 => schema
UPDATE entry SET len = -1 => schema
UPDATE entry SET max = 32 => ok
UPDATE entry SET max = 33 => schema
UPDATE entry SET max = 23 => schema
UPDATE entry SET family = 6, len = 120, max = 129 => schema
UPDATE entry SET max = 280 => schema
# entries_of_each_claim
DELETE FROM claim => ok
DELETE FROM entry => schema
UPDATE entry SET asn = 64497 => schema
UPDATE claim SET asn = 64497 => schema
INSERT INTO claim VALUES ('alpha', 2, 64497, 20454, 20818) => schema
INSERT INTO claim VALUES ('alpha', 2, 64497, 20454, 20818); INSERT INTO entry VALUES ('alpha', 2, 64497, 4, x'000000000000000000000000c0000200', 24, 24) => ok
INSERT INTO claim VALUES ('alpha', 2, 64497, 20454, 20818); INSERT INTO entry VALUES ('alpha', 2, 64496, 4, x'000000000000000000000000c0000200', 24, 25) => schema
INSERT INTO claim VALUES ('alpha', 2, 64497, 20454, 20818); UPDATE entry SET number = 2, asn = 64497 => schema
INSERT INTO holder VALUES ('beta', 0, 1); INSERT INTO claim VALUES ('beta', 1, 64496, 20454, 20818); INSERT INTO entry VALUES ('beta', 1, 64496, 4, x'000000000000000000000000c0000280', 25, 25) => ok
# several_entries_of_a_claim
INSERT INTO entry VALUES ('alpha', 1, 64496, 4, x'000000000000000000000000c0000200', 25, 25) => ok
INSERT INTO entry VALUES ('alpha', 1, 64496, 6, x'20010db8000000000000000000000000', 32, 48) => ok
INSERT INTO entry VALUES ('alpha', 1, 64497, 6, x'20010db8000000000000000000000000', 32, 48) => schema
INSERT INTO entry WITH RECURSIVE n (i) AS (SELECT 66 UNION ALL SELECT i + 1 FROM n WHERE i < 128) SELECT 'alpha', 1, 64496, 6, x'20010db8000000000000000000000000', i, i FROM n => ok
INSERT INTO entry WITH RECURSIVE n (i) AS (SELECT 65 UNION ALL SELECT i + 1 FROM n WHERE i < 128) SELECT 'alpha', 1, 64496, 6, x'20010db8000000000000000000000000', i, i FROM n => schema
# table_of_schema_1_is_empty
INSERT INTO auth VALUES ('alpha', 2, 64497, 4, x'000000000000000000000000c0000200', 24, 24, 20454, 20818) => schema
INSERT INTO auth VALUES ('alpha', 1, 64496, 4, x'000000000000000000000000c0000200', 24, 24, 20454, 20818) => schema
INSERT INTO auth VALUES ('alpha', 1, 64496, 4, x'000000000000000000000000c0000200', 24, 24, 20454, 20818); DELETE FROM claim => schema
# rows_are_asked_one_by_one
UPDATE holder SET grants = 0, auths = 0 => ok
UPDATE claim SET opens = 20818, ends = 20454 => ok
UPDATE granted SET family = 4, lo = x'000000000000000000000000c0000200', len = 25 => ok
DELETE FROM holding => ok
INSERT INTO holding VALUES (4, x'000000000000000000000000c0000300', x'000000000000000000000000c00003ff', 'alpha') => ok
INSERT INTO holder VALUES ('beta', 0, 0); INSERT INTO holding VALUES (4, x'000000000000000000000000c0000280', x'000000000000000000000000c00002ff', 'beta') => ok
"#;

/// Statements over the tables of the example, and the indexes and views beside them.
const CHANGED_TABLES: &str = r#"
# indexes_and_views_beside_the_tables
DROP INDEX holding_of => ok
CREATE INDEX claim_by_as ON claim (asn, opens) => ok
CREATE INDEX entry_by_prefix ON entry (family, lo) => ok
CREATE UNIQUE INDEX one_caller ON granted (caller) => ok
DROP INDEX holding_of; CREATE INDEX claim_by_as ON claim (asn, opens); CREATE INDEX holding_of ON holding (holder) => ok
CREATE VIEW in_force AS SELECT holder, number FROM claim WHERE opens <= 20513 AND ends >= 20513 => ok
DROP INDEX holding_of; CREATE INDEX entry_by_prefix ON entry (family, lo); CREATE VIEW originated AS SELECT asn, family, lo, len, max FROM entry => ok
# table_too_few
DROP TABLE meta => schema
DROP TABLE operator => schema
DROP TABLE pool => schema
DROP TABLE entry; DROP TABLE claim; DROP TABLE auth; DROP TABLE granted; DROP TABLE holding; DROP TABLE holder => schema
DROP TABLE holding => schema
DROP TABLE granted => schema
DROP TABLE auth => schema
DROP TABLE slurm => schema
DROP TABLE entry => schema
DROP INDEX holding_of; DROP TABLE entry; DROP TABLE claim => schema
DROP TABLE slurm; CREATE TABLE exceptions (file TEXT) STRICT => schema
# table_too_many
CREATE TABLE notes (text TEXT) STRICT => database
CREATE TABLE notes (holder TEXT REFERENCES holder (name)) STRICT => database
# table_made_again
DROP TABLE meta; CREATE TABLE meta (name TEXT NOT NULL, value INTEGER NOT NULL, PRIMARY KEY (name)) STRICT; INSERT INTO meta VALUES ('schema', 2) => database
"#;

/// Statements that make a database of schema 1 of one of schema 2 without its index, and others
/// after them.
const OLD_ROWS: &str = r#"
# old_tables_are_moved_on_opening
CREATE INDEX holding_of ON holding (holder) => ok
DELETE FROM slurm => ok
DELETE FROM auth => ok
INSERT INTO slurm VALUES ('main', 1, 1, NULL, NULL, NULL, NULL, 64496) => ok
INSERT INTO auth VALUES ('alpha', 2, 64497, 6, x'20010db8000000000000000000000000', 32, 48, 20454, 20818) => ok
# number_of_schema_1
UPDATE meta SET value = 2 => schema
UPDATE meta SET value = 3 => schema
INSERT INTO meta VALUES ('notes', 1) => database
DELETE FROM meta => schema
# old_rows_that_do_not_read
UPDATE auth SET number = 0 => schema
UPDATE auth SET asn = 4294967296 => schema
UPDATE auth SET max = 23 => schema
UPDATE auth SET lo = x'000000000000000000000000c0000201' => schema
UPDATE auth SET ends = 2932897 => schema
UPDATE granted SET role = 4 => schema
DELETE FROM pool => schema
# old_tables_with_others_beside_them_are_not_moved
CREATE INDEX auth_by_as ON auth (asn, opens) => database
CREATE INDEX holding_of ON holding (holder); CREATE INDEX auth_by_as ON auth (asn, opens) => database
CREATE VIEW in_force AS SELECT holder, number FROM auth WHERE opens <= 20513 => database
CREATE TABLE notes (text TEXT) STRICT => database
# a_part_of_the_new_tables
CREATE TABLE claim (holder TEXT NOT NULL REFERENCES holder (name), number INTEGER NOT NULL, asn INTEGER NOT NULL, opens INTEGER NOT NULL, ends INTEGER NOT NULL, PRIMARY KEY (holder, number)) STRICT => schema
"#;

/// Rows of exceptions, and what the opening answers then.
const EXCEPTIONS: &str = r#"
# exceptions_that_read
INSERT INTO slurm VALUES ('main', 1, 1, NULL, NULL, NULL, NULL, 64496) => ok
INSERT INTO slurm VALUES ('main', 1, 1, 4, x'000000000000000000000000c0000200', 24, NULL, NULL) => ok
INSERT INTO slurm VALUES ('main', 1, 7, 4, x'000000000000000000000000c0000200', 24, NULL, 0) => ok
INSERT INTO slurm VALUES ('main', 2, 1, 4, x'000000000000000000000000c6336400', 24, 24, 64496) => ok
INSERT INTO slurm VALUES ('main', 2, 1, 6, x'20010db8000000000000000000000000', 32, 128, 4294967295) => ok
INSERT INTO slurm VALUES ('other', 1, 1, NULL, NULL, NULL, NULL, 64496) => ok
INSERT INTO slurm VALUES ('b', 1, 1, NULL, NULL, NULL, NULL, 64496), ('a', 1, 1, NULL, NULL, NULL, NULL, 64496) => ok
# exceptions_that_do_not_read
INSERT INTO slurm VALUES ('', 1, 1, NULL, NULL, NULL, NULL, 64496) => schema
INSERT INTO slurm VALUES ('Main', 1, 1, NULL, NULL, NULL, NULL, 64496) => schema
INSERT INTO slurm VALUES ('main', 0, 1, NULL, NULL, NULL, NULL, 64496) => schema
INSERT INTO slurm VALUES ('main', 3, 1, NULL, NULL, NULL, NULL, 64496) => schema
INSERT INTO slurm VALUES ('main', 1, 0, NULL, NULL, NULL, NULL, 64496) => schema
INSERT INTO slurm VALUES ('main', 1, 1, NULL, NULL, NULL, NULL, NULL) => schema
INSERT INTO slurm VALUES ('main', 1, 1, NULL, NULL, NULL, NULL, 4294967296) => schema
INSERT INTO slurm VALUES ('main', 1, 1, 4, NULL, 24, NULL, NULL) => schema
INSERT INTO slurm VALUES ('main', 1, 1, NULL, x'000000000000000000000000c0000200', 24, NULL, 64496) => schema
INSERT INTO slurm VALUES ('main', 1, 1, 4, x'000000000000000000000000c0000200', NULL, NULL, NULL) => schema
INSERT INTO slurm VALUES ('main', 1, 1, 4, x'000000000000000000000000c0000201', 24, NULL, NULL) => schema
INSERT INTO slurm VALUES ('main', 1, 1, 4, x'000000000000000000000000c0000200', 24, 24, NULL) => schema
INSERT INTO slurm VALUES ('main', 2, 1, 4, x'000000000000000000000000c0000200', 24, 24, NULL) => schema
INSERT INTO slurm VALUES ('main', 2, 1, 4, x'000000000000000000000000c0000200', 24, NULL, 64496) => schema
INSERT INTO slurm VALUES ('main', 2, 1, NULL, NULL, NULL, NULL, 64496) => schema
INSERT INTO slurm VALUES ('main', 2, 1, 4, x'000000000000000000000000c0000200', 24, 23, 64496) => schema
INSERT INTO slurm VALUES ('main', 2, 1, 4, x'000000000000000000000000c0000200', 24, 33, 64496) => schema
"#;

/// A part of the statements that make the tables, what replaces it, and what the opening answers
/// then.
const OTHER_TABLES: &str = r#"
# spelling_of_the_statements
CREATE TABLE meta (name TEXT NOT NULL | create table "meta" ( name text not null => ok
# table_of_another_name
CREATE TABLE slurm | CREATE TABLE exceptions => schema
# column_is_missing
, asn INTEGER, PRIMARY KEY (file | , PRIMARY KEY (file => schema
max INTEGER, asn INTEGER | greatest INTEGER, asn INTEGER => schema
ends INTEGER NOT NULL, PRIMARY KEY (holder, number)) STRICT | until INTEGER NOT NULL, PRIMARY KEY (holder, number)) STRICT => schema
# column_too_many
, asn INTEGER, PRIMARY KEY (file | , asn INTEGER, comment TEXT, PRIMARY KEY (file => database
# columns_in_another_order
max INTEGER, asn INTEGER | asn INTEGER, max INTEGER => database
# name_in_other_letters
CREATE TABLE slurm | CREATE TABLE Slurm => database
max INTEGER, asn INTEGER | max INTEGER, ASN INTEGER => database
# column_of_another_kind
max INTEGER, asn INTEGER | max INTEGER, asn TEXT => database
max INTEGER, asn INTEGER | max INTEGER, asn ANY => database
max INTEGER, asn INTEGER | max INTEGER, asn INTEGER NOT NULL => database
max INTEGER, asn INTEGER | max INTEGER, asn INTEGER DEFAULT 0 => database
max INTEGER, asn INTEGER | max INTEGER, asn INTEGER CHECK (asn > 0) => database
# key_is_missing
, PRIMARY KEY (file, kind, position)) STRICT | ) STRICT => database
, UNIQUE (asn, family, lo, len, max)) STRICT | ) STRICT => database
, UNIQUE (asn, family, lo, len, max), FOREIGN KEY | , FOREIGN KEY => database
PRIMARY KEY (holder, number, family, lo, len), UNIQUE | UNIQUE => database
PRIMARY KEY (file, kind, position)) STRICT | PRIMARY KEY (file, position, kind)) STRICT => database
PRIMARY KEY (file, kind, position)) STRICT | PRIMARY KEY (file, kind, position)) => database
# holder_of_a_run_is_not_tested
holder TEXT NOT NULL REFERENCES holder (name), PRIMARY KEY (family, lo) | holder TEXT NOT NULL, PRIMARY KEY (family, lo) => database
# entries_are_not_tested_or_do_not_end_with_their_claim
, FOREIGN KEY (holder, number) REFERENCES claim (holder, number) ON DELETE CASCADE) STRICT | ) STRICT => database
(holder, number) ON DELETE CASCADE | (holder, number) => database
# table_before_the_others
CREATE TABLE meta | CREATE TABLE notes (text TEXT) STRICT; CREATE TABLE meta => database
# index_of_another_name
CREATE INDEX holding_of | CREATE INDEX run_of => ok
# index_was_never_made
CREATE INDEX holding_of ON holding (holder); | DELETE FROM slurm; => ok
# index_is_made_before_a_table
CREATE TABLE claim | CREATE INDEX run_of ON holding (holder); CREATE TABLE claim => database
CREATE TABLE entry | CREATE INDEX run_of ON holding (holder); CREATE TABLE entry => database
CREATE TABLE entry | CREATE INDEX claim_by_as ON claim (asn, opens); CREATE TABLE entry => database
"#;

type Database = Connection<MemStore>;

fn answer_of<S: Alter + Drop>(alloc: Global, conn: Connection<S>) -> &'static str {
    match Store::open_from(alloc, conn) {
        Ok(_store) => "ok",
        Err(StoreFault::Database) => "database",
        Err(StoreFault::Schema) => "schema",
    }
}

/// The example with these tables.
pub(crate) fn database(rt: &impl Abort, alloc: Global, tables: &str) -> Database {
    given(rt, made(alloc, tables), "no database")
}

/// The example of schema 1.
fn old_database(rt: &impl Abort, alloc: Global) -> Database {
    given(rt, made_old(alloc), "no database of schema 1")
}

/// What the opening answers once these statements ran.
fn answer_after(rt: &impl Abort, alloc: Global, mut conn: Database, batch: &str) -> &'static str {
    conn.execute_batch(batch).expect(rt, batch);
    answer_of(alloc, conn)
}

fn assert_answers(rt: &impl Abort, alloc: Global, rows: &str) {
    for row in &rows_of(rt, alloc, rows) {
        let answer = answer_after(rt, alloc, database(rt, alloc, TABLES), row.input);
        assert_output(rt, answer, row);
    }
}

#[test]
fn opening_asks_each_row(rt: HostRuntime) {
    assert_answers(&rt, rt.alloc(), CHANGED_ROWS);
}

#[test]
fn opening_asks_each_claim(rt: HostRuntime) {
    assert_answers(&rt, rt.alloc(), CHANGED_CLAIMS);
}

#[test]
fn opening_asks_for_each_table(rt: HostRuntime) {
    assert_answers(&rt, rt.alloc(), CHANGED_TABLES);
}

#[test]
fn opening_asks_each_exception(rt: HostRuntime) {
    assert_answers(&rt, rt.alloc(), EXCEPTIONS);
}

#[test]
fn opening_moves_the_tables_of_schema_1(rt: HostRuntime) {
    for row in &rows_of(&rt, rt.alloc(), OLD_ROWS) {
        let conn = old_database(&rt, rt.alloc());
        let answer = answer_after(&rt, rt.alloc(), conn, row.input);
        assert_output(&rt, answer, row);
    }
}

pub(crate) fn opened(rt: &impl Abort, alloc: Global, conn: Database) -> Store<MemStore> {
    Store::open_from(alloc, conn).expect(rt, "an open store")
}

/// How many rows are in `meta`, `claim`, `entry` and `auth`.
fn count_rows(rt: &impl Abort, conn: &mut Database) -> usize {
    let rows = conn.query_all(
        "SELECT value FROM meta UNION ALL SELECT number FROM claim UNION ALL SELECT max FROM entry UNION ALL SELECT number FROM auth",
        &[],
    );
    rows.expect(rt, "rows").len()
}

/// What was moved is a desk of this schema, with its index.
#[test]
fn moved_database_is_opened_again(rt: HostRuntime) {
    let moved = opened(&rt, rt.alloc(), old_database(&rt, rt.alloc()));
    let mut conn = moved.close();
    assert_same(&rt, count_rows(&rt, &mut conn), 3, "rows");
    let answer = answer_after(&rt, rt.alloc(), conn, "DROP INDEX holding_of");
    assert_same(&rt, answer, "ok", "opened again");
}

/// What the opening answers where a part of the statements of the tables is replaced.
fn answer_of_tables(rt: &impl Abort, alloc: Global, parts: &str) -> &'static str {
    let (old, new) = parts.split_once(" | ").expect(rt, parts);
    let (before, after) = TABLES.split_once(old).expect(rt, parts);
    let tables = format!(in alloc; "{before}{new}{after}").expect(rt, "statements");
    answer_of(alloc, database(rt, alloc, &tables))
}

#[test]
fn opening_asks_the_tables(rt: HostRuntime) {
    for row in &rows_of(&rt, rt.alloc(), OTHER_TABLES) {
        let answer = answer_of_tables(&rt, rt.alloc(), row.input);
        assert_output(&rt, answer, row);
    }
}

/// A desk without its index stays so: what has no index of this name makes one.
#[test]
fn opening_makes_no_index(rt: HostRuntime) {
    let mut conn = database(&rt, rt.alloc(), TABLES);
    conn.execute_batch("DROP INDEX holding_of")
        .expect(&rt, "an index");
    let mut conn = opened(&rt, rt.alloc(), conn).close();
    conn.execute_batch("CREATE INDEX holding_of ON holding (holder)")
        .expect(&rt, "no index of this name");
}

#[test]
fn connection_in_a_transaction_is_refused(rt: HostRuntime) {
    let conn = database(&rt, rt.alloc(), TABLES);
    let answer = answer_after(&rt, rt.alloc(), conn, "BEGIN");
    assert_same(&rt, answer, "database", "in a transaction");
}

#[test]
fn limit_of_steps_is_lifted(rt: HostRuntime) {
    let mut conn = database(&rt, rt.alloc(), TABLES);
    conn.set_step_limit(Some(1));
    assert_same(&rt, answer_of(rt.alloc(), conn), "ok", "limit of steps");
}

/// What opening a file of these bytes answers; `refused` where the database refuses it.
fn answer_of_file(rt: &impl Abort, alloc: Global, bytes: &[u8]) -> &'static str {
    let log = Memory::new(alloc);
    let mut db = Memory::new(alloc);
    db.write_at(0, bytes).expect(rt, "a file");
    match Connection::open_files(alloc, Files { log, db }, Options::new(1)) {
        Ok(conn) => answer_of(alloc, conn),
        Err(_) => "refused",
    }
}

#[test]
fn files_that_have_no_table(rt: HostRuntime) {
    for (bytes, expected) in [("", "schema"), ("register,alpha\n", "refused")] {
        let answer = answer_of_file(&rt, rt.alloc(), bytes.as_bytes());
        assert_same(&rt, answer, expected, bytes);
    }
}
