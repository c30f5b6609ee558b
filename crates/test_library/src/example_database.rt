//! A database with the tables of a desk, made by SQL as the formats of the tables say.
ghost use Rattle.std.specs.Prelude.{◌≡◌, None, IfOk};

use sqlite::{Connection, MemStore};
use std::alloc::Global;
use std::test::Fail;

/// The tables of a desk and then its index, in the order in which a desk makes them.
pub const TABLES: &str = "
CREATE TABLE meta (name TEXT NOT NULL, value INTEGER NOT NULL, PRIMARY KEY (name)) STRICT;
CREATE TABLE operator (name TEXT NOT NULL, PRIMARY KEY (name)) STRICT;
CREATE TABLE pool (family INTEGER NOT NULL, lo BLOB NOT NULL, len INTEGER NOT NULL, PRIMARY KEY (family, lo, len)) STRICT;
CREATE TABLE holder (name TEXT NOT NULL, grants INTEGER NOT NULL, auths INTEGER NOT NULL, PRIMARY KEY (name)) STRICT;
CREATE TABLE holding (family INTEGER NOT NULL, lo BLOB NOT NULL, hi BLOB NOT NULL, holder TEXT NOT NULL REFERENCES holder (name), PRIMARY KEY (family, lo)) STRICT;
CREATE TABLE granted (holder TEXT NOT NULL REFERENCES holder (name), number INTEGER NOT NULL, caller TEXT NOT NULL, role INTEGER NOT NULL, family INTEGER, lo BLOB, len INTEGER, until INTEGER NOT NULL, PRIMARY KEY (holder, number)) STRICT;
CREATE TABLE auth (holder TEXT NOT NULL REFERENCES holder (name), number INTEGER NOT NULL, asn INTEGER NOT NULL, family INTEGER NOT NULL, lo BLOB NOT NULL, len INTEGER NOT NULL, max INTEGER NOT NULL, opens INTEGER NOT NULL, ends INTEGER NOT NULL, PRIMARY KEY (holder, number), UNIQUE (asn, family, lo, len, max)) STRICT;
CREATE TABLE slurm (file TEXT NOT NULL, kind INTEGER NOT NULL, position INTEGER NOT NULL, family INTEGER, lo BLOB, len INTEGER, max INTEGER, asn INTEGER, PRIMARY KEY (file, kind, position)) STRICT;
CREATE TABLE claim (holder TEXT NOT NULL REFERENCES holder (name), number INTEGER NOT NULL, asn INTEGER NOT NULL, opens INTEGER NOT NULL, ends INTEGER NOT NULL, PRIMARY KEY (holder, number)) STRICT;
CREATE TABLE entry (holder TEXT NOT NULL, number INTEGER NOT NULL, asn INTEGER NOT NULL, family INTEGER NOT NULL, lo BLOB NOT NULL, len INTEGER NOT NULL, max INTEGER NOT NULL, PRIMARY KEY (holder, number, family, lo, len), UNIQUE (asn, family, lo, len, max), FOREIGN KEY (holder, number) REFERENCES claim (holder, number) ON DELETE CASCADE) STRICT;
CREATE INDEX holding_of ON holding (holder);
";

/// `alpha` has 192.0.2.0/24, `ann` is its manager, and AS 64496 is authorized for all of it in 2026.
const ROWS: &str = "
INSERT INTO meta VALUES ('schema', 2);
INSERT INTO operator VALUES ('reg');
INSERT INTO pool VALUES (4, x'000000000000000000000000c0000200', 24), (4, x'000000000000000000000000c6336400', 24);
INSERT INTO holder VALUES ('alpha', 1, 1);
INSERT INTO holding VALUES (4, x'000000000000000000000000c0000200', x'000000000000000000000000c00002ff', 'alpha');
INSERT INTO granted VALUES ('alpha', 1, 'ann', 1, NULL, NULL, NULL, 20818);
INSERT INTO claim VALUES ('alpha', 1, 64496, 20454, 20818);
INSERT INTO entry VALUES ('alpha', 1, 64496, 4, x'000000000000000000000000c0000200', 24, 24);
";

/// A database in memory that these statements gave its tables, with the rows above. No limit is set
/// on its steps.
pub fn made(alloc: Global, tables: &str) -> Result<Connection<MemStore>, Fail>
    ensures { IfOk result (λ conn. conn.step_limit ≡ None) }
{
    let mut conn = Connection::open_in_memory(alloc)?;
    conn.execute_batch(tables)?;
    conn.execute_batch(ROWS)?;
    Ok(conn)
}

/// The same of schema 1 and without the index.
const OLD: &str = "
INSERT INTO auth SELECT holder, number, asn, family, lo, len, max, opens, ends FROM claim JOIN entry USING (holder, number, asn);
DROP INDEX holding_of;
DROP TABLE entry;
DROP TABLE claim;
UPDATE meta SET value = 1;
";

/// A database in memory of schema 1, without its index, with the rows above. No limit is set on its
/// steps.
pub fn made_old(alloc: Global) -> Result<Connection<MemStore>, Fail>
    ensures { IfOk result (λ conn. conn.step_limit ≡ None) }
{
    let mut conn = made(alloc, TABLES)?;
    conn.execute_batch(OLD)?;
    Ok(conn)
}
