//! Desks that go on where another one ended.
use crate::ready::{database, old_database, opened_desk};
use crate::scripts::exceptions::FILTER_AND_ASSERTION;
use crate::scripts::{ALPHA, AUTHORIZATION, assert_lines, closed_after};
use sqlite::{Connection, MemStore};
use std::alloc::Global;
use std::process::Abort;

/// What comes after the opening, over the rows above.
const AFTERWARDS: &str = r#"
ann {"do":"show","holder":"alpha","number":1} => {"shown":{"number":1,"asn":64496,"prefix":"192.0.2.0/24","max":24,"from":"2026-01-01","until":"2026-12-31"}}
ann {"do":"list","holder":"alpha"} => {"listed":[{"number":1,"asn":64496,"prefix":"192.0.2.0/24","max":24,"from":"2026-01-01","until":"2026-12-31"}]}
bob {"do":"payloads"} => {"payloads":[{"asn":64496,"prefix":"192.0.2.0/24","max":24}]}
ann {"do":"create","holder":"alpha","asn":64497,"prefix":"192.0.2.0/24","max":24,"from":"2026-01-01","until":"2026-12-31"} => {"done":2}
ann {"do":"import","holder":"alpha","rows":[{"asn":64497,"prefix":"192.0.2.0/24","max":24,"from":"2026-01-01","until":"2026-12-31"},{"asn":64498,"prefix":"192.0.2.0/24","max":24,"from":"2026-01-01","until":"2026-12-31"},{"asn":64496,"prefix":"192.0.2.0/24","max":24,"from":"2026-01-01","until":"2026-12-31"}]} => {"made":1,"present":2}
ann {"do":"whatif","holder":"alpha","changes":[{"do":"withdraw","number":3},{"do":"withdraw","number":1}],"routes":[{"prefix":"192.0.2.0/24","origin":64498},{"prefix":"192.0.2.0/24","origin":64497}]} => {"report":[["Valid","Invalid"],["Valid","Valid"]]}
reg {"do":"grant","holder":"alpha","name":"cora","role":"auditor","scope":"all","until":"2026-12-31"} => {"done":2}
reg {"do":"register","holder":"beta"} => {"done":null}
reg {"do":"delegate","holder":"beta","prefix":"192.0.2.0/25"} => {"denied":"free"}
reg {"do":"delegate","holder":"beta","prefix":"198.51.100.0/24"} => {"done":null}
reg {"do":"delegate","holder":"beta","prefix":"203.0.113.0/24"} => {"denied":"pool"}
"#;

/// Opens the desk of a database, which has these replies, and closes it.
fn assert_opened(
    rt: &impl Abort,
    alloc: Global,
    name: &str,
    conn: Connection<MemStore>,
    lines: &str,
) -> Connection<MemStore> {
    let mut desk = opened_desk(rt, alloc, conn);
    assert_lines(rt, alloc, name, &mut desk, &[lines]);
    desk.close()
}

fn assert_goes_on(rt: &impl Abort, alloc: Global, name: &str, conn: Connection<MemStore>) {
    assert_opened(rt, alloc, name, conn, AFTERWARDS);
}

/// What a database of schema 1 shows, and what is made then.
const FIRST_OPENING: &str = r#"
ann {"do":"show","holder":"alpha","number":1} => {"shown":{"number":1,"asn":64496,"prefix":"192.0.2.0/24","max":24,"from":"2026-01-01","until":"2026-12-31"}}
ann {"do":"create","holder":"alpha","asn":64497,"prefix":"192.0.2.0/24","max":24,"from":"2026-01-01","until":"2026-12-31"} => {"done":2}
"#;

/// What it shows when it is opened again.
const SECOND_OPENING: &str = r#"
ann {"do":"list","holder":"alpha"} => {"listed":[{"number":1,"asn":64496,"prefix":"192.0.2.0/24","max":24,"from":"2026-01-01","until":"2026-12-31"},{"number":2,"asn":64497,"prefix":"192.0.2.0/24","max":24,"from":"2026-01-01","until":"2026-12-31"}]}
"#;

#[test]
fn old_tables_are_moved_on_opening(rt: HostRuntime) {
    let name = "old_tables_are_moved_on_opening";
    let old = old_database(&rt, rt.alloc());
    let moved = assert_opened(&rt, rt.alloc(), name, old, FIRST_OPENING);
    assert_opened(&rt, rt.alloc(), name, moved, SECOND_OPENING);
}

#[test]
fn closed_desk_is_opened(rt: HostRuntime) {
    let name = "closed_desk_is_opened";
    let conn = closed_after(&rt, rt.alloc(), name, &[ALPHA, AUTHORIZATION]);
    assert_goes_on(&rt, rt.alloc(), name, conn);
}

#[test]
fn rows_of_another_program_are_a_desk(rt: HostRuntime) {
    let conn = database(&rt, rt.alloc());
    let name = "rows_of_another_program_are_a_desk";
    assert_goes_on(&rt, rt.alloc(), name, conn);
}

/// A desk that was left with a SLURM file goes on with it.
const EXCEPTIONS_AFTERWARDS: &str = r#"
ann {"do":"withdraw","holder":"alpha","number":1} => {"done":null}
bob {"do":"payloads"} => {"payloads":[{"asn":64496,"prefix":"192.0.2.0/24","max":24}]}
bob {"do":"validity","routes":[{"prefix":"192.0.2.0/24","origin":64496}]} => {"answers":["Valid"]}
slurm ; => {"done":null}
bob {"do":"payloads"} => {"payloads":[]}
"#;

#[test]
fn opened_desk_has_its_exceptions(rt: HostRuntime) {
    let name = "opened_desk_has_its_exceptions";
    let setup = [ALPHA, AUTHORIZATION, FILTER_AND_ASSERTION];
    let conn = closed_after(&rt, rt.alloc(), name, &setup);
    assert_opened(&rt, rt.alloc(), name, conn, EXCEPTIONS_AFTERWARDS);
}

/// Two files of a set, and what is left of them when the desk is opened again.
const FILES: &str = r#"
slurms b ; {"asn":64496,"prefix":"192.0.2.128/25"} | a {"prefix":"192.0.2.0/25"},{"asn":64496} ; | c ; => {"done":null}
"#;

const FILES_AFTERWARDS: &str = r#"
bob {"do":"payloads"} => {"payloads":[{"asn":64496,"prefix":"192.0.2.128/25","max":25}]}
slurms a {"prefix":"192.0.2.0/25"} ; => {"done":null}
bob {"do":"payloads"} => {"payloads":[{"asn":64496,"prefix":"192.0.2.0/24","max":24}]}
"#;

#[test]
fn opened_desk_has_its_slurm_files(rt: HostRuntime) {
    let name = "opened_desk_has_its_slurm_files";
    let conn = closed_after(&rt, rt.alloc(), name, &[ALPHA, AUTHORIZATION, FILES]);
    assert_opened(&rt, rt.alloc(), name, conn, FILES_AFTERWARDS);
}

/// The rows of a file as schema 1 has them.
const OLD_EXCEPTIONS: &str = "
INSERT INTO slurm VALUES ('main', 1, 1, 4, x'000000000000000000000000c0000200', 24, NULL, NULL);
INSERT INTO slurm VALUES ('main', 2, 1, 4, x'000000000000000000000000c0000200', 24, 24, 64496);
";

#[test]
fn old_slurm_entries_are_file_main(rt: HostRuntime) {
    let name = "old_slurm_entries_are_file_main";
    let mut old = old_database(&rt, rt.alloc());
    old.execute_batch(OLD_EXCEPTIONS).expect(&rt, "rows");
    assert_opened(&rt, rt.alloc(), name, old, EXCEPTIONS_AFTERWARDS);
}

/// All numbers of authorizations but the last were given.
const ALL_BUT_ONE_MADE: &str = "UPDATE holder SET auths = 999998 WHERE name = 'alpha';";

const LAST_NUMBER: &str = r#"
ann {"do":"import","holder":"alpha","rows":[{"asn":64497,"prefix":"192.0.2.0/24","max":24,"from":"2026-01-01","until":"2026-12-31"},{"asn":64498,"prefix":"192.0.2.0/24","max":24,"from":"2026-01-01","until":"2026-12-31"}]} => {"denied":"room","row":2}
ann {"do":"create","holder":"alpha","asn":64497,"prefix":"192.0.2.0/24","max":24,"from":"2026-01-01","until":"2026-12-31"} => {"done":999999}
ann {"do":"show","holder":"alpha","number":999999} => {"shown":{"number":999999,"asn":64497,"prefix":"192.0.2.0/24","max":24,"from":"2026-01-01","until":"2026-12-31"}}
ann {"do":"create","holder":"alpha","asn":64498,"prefix":"192.0.2.0/24","max":24,"from":"2026-01-01","until":"2026-12-31"} => {"denied":"room"}
ann {"do":"withdraw","holder":"alpha","number":999999} => {"done":null}
ann {"do":"create","holder":"alpha","asn":64497,"prefix":"192.0.2.0/24","max":24,"from":"2026-01-01","until":"2026-12-31"} => {"denied":"room"}
ann {"do":"list","holder":"alpha"} => {"listed":[{"number":1,"asn":64496,"prefix":"192.0.2.0/24","max":24,"from":"2026-01-01","until":"2026-12-31"}]}
"#;

/// The last number is kept by the tables, and is given once.
#[test]
fn last_number_of_a_holder(rt: HostRuntime) {
    let mut conn = database(&rt, rt.alloc());
    conn.execute_batch(ALL_BUT_ONE_MADE).expect(&rt, "numbers");
    let name = "last_number_of_a_holder";
    assert_opened(&rt, rt.alloc(), name, conn, LAST_NUMBER);
}
