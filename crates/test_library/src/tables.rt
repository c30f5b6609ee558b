//! The rows that a test goes over, and what it says where a value is not the expected one.
use crate::rows::{Row, split_row, table_rows};
use std::alloc::Global;
use std::fmt::Debug;
use std::process::Abort;
use std::test::Fail;

/// What a call gives.
pub(crate) fn given<T>(rt: &impl Abort, made: Result<T, Fail>, what: &str) -> T {
    match made {
        Ok(value) => value,
        Err(_) => rt.panic(what),
    }
}

/// The rows of a table.
pub(crate) fn rows_of<'a>(rt: &impl Abort, alloc: Global, table: &'a str) -> Vec<Row<'a>> {
    given(rt, table_rows(alloc, table), "no rows")
}

/// The input and the output of a row without a name.
pub(crate) fn row_of<'a>(rt: &impl Abort, line: &'a str) -> (&'a str, &'a str) {
    given(rt, split_row(line), line)
}

/// What is found is what is expected. The message has the name, which says where.
pub(crate) fn assert_same<T: PartialEq + Debug + Drop, N: Debug + Drop>(
    rt: &impl Abort,
    found: T,
    expected: T,
    name: N,
) {
    assert_eq!(rt; found, expected, "{name:?}");
}

/// The text that is found is the output of the row.
pub(crate) fn assert_output(rt: &impl Abort, found: &str, row: &Row<'_>) {
    assert_eq!(rt; found, row.output, "{}: {:?}", row.name, row.input);
}
