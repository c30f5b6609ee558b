//! What tests begin with, and their one comparison. A test that lacks something ends here, so that
//! the functions which call these have no early end of their own to prove.
use addr::{Name, Prefix};
use desk::Desk;
use policy::Charter;
use sqlite::{Connection, MemStore};
use std::alloc::Global;
use std::fmt::Debug;
use std::process::Abort;
use std::test::Fail;
use test_library::example_database::{TABLES, made, made_old};
use test_library::rows::split_row;

/// What a helper of another crate made.
pub(crate) fn value_of<T>(rt: &impl Abort, given: Result<T, Fail>, what: &str) -> T {
    match given {
        Ok(value) => value,
        Err(_) => rt.panic(format_args!("no {what}")),
    }
}

/// What was found is what was expected. The message names the case where it is not.
pub(crate) fn assert_same<T: PartialEq + Debug + Drop, C: Debug + Drop>(
    rt: &impl Abort,
    found: T,
    expected: T,
    case: C,
) {
    assert_eq!(rt; found, expected, "at {case:?}");
}

/// The pool of the scripts that name no other.
pub(crate) const EXAMPLE_POOL: &[&str] = &["192.0.2.0/24", "198.51.100.0/24", "2001:db8::/32"];

/// The charter of the operator `reg` and this pool.
fn charter_of(rt: &impl Abort, alloc: Global, pool: &[&str]) -> Charter {
    let mut prefixes = Vec::new(alloc);
    for text in pool {
        let prefix = Prefix::read(text.as_bytes()).expect(rt, "a prefix");
        prefixes.push(prefix).expect(rt, "memory");
    }
    let operator = Name::read(b"reg").expect(rt, "a name");
    let operators = vec![in alloc; operator].expect(rt, "memory");
    Charter::make(operators, prefixes).expect(rt, "a charter")
}

/// The charter of the operator `reg` and `EXAMPLE_POOL`.
pub(crate) fn example_charter(rt: &impl Abort, alloc: Global) -> Charter {
    charter_of(rt, alloc, EXAMPLE_POOL)
}

/// A new desk with the operator `reg` and this pool.
fn desk_of(rt: &impl Abort, alloc: Global, pool: &[&str]) -> Desk<MemStore> {
    Desk::open_memory(alloc, &charter_of(rt, alloc, pool)).expect(rt, "a desk")
}

/// A new desk with the charter of the example.
pub(crate) fn new_desk(rt: &impl Abort, alloc: Global) -> Desk<MemStore> {
    desk_of(rt, alloc, EXAMPLE_POOL)
}

/// Lends a new desk with the operator `reg` and this pool. What owns a desk is slow to prove, so
/// tests borrow theirs.
pub(crate) fn on_desk_of<F: FnOnce(&mut Desk<MemStore>)>(
    rt: &impl Abort,
    alloc: Global,
    pool: &[&str],
    ask: F,
)
    requires { F.IsAlwaysCallable ask }
{
    let mut desk = desk_of(rt, alloc, pool);
    ask(&mut desk);
}

/// Lends a new desk with the charter of the example.
pub(crate) fn on_new_desk<F: FnOnce(&mut Desk<MemStore>)>(rt: &impl Abort, alloc: Global, ask: F)
    requires { F.IsAlwaysCallable ask }
{
    on_desk_of(rt, alloc, EXAMPLE_POOL, ask);
}

/// The desk of a database.
pub(crate) fn opened_desk(
    rt: &impl Abort,
    alloc: Global,
    conn: Connection<MemStore>,
) -> Desk<MemStore> {
    Desk::open_from(alloc, conn).expect(rt, "an open desk")
}

/// The database that another program made.
pub(crate) fn database(rt: &impl Abort, alloc: Global) -> Connection<MemStore> {
    value_of(rt, made(alloc, TABLES), "database")
}

/// The same of schema 1.
pub(crate) fn old_database(rt: &impl Abort, alloc: Global) -> Connection<MemStore> {
    value_of(rt, made_old(alloc), "database of schema 1")
}

/// The input and the output of a row.
pub(crate) fn row_of<'a>(rt: &impl Abort, row: &'a str) -> (&'a str, &'a str) {
    value_of(rt, split_row(row), row)
}
