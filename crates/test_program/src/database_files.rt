//! Tasks over files, and the desk that they leave in a file.
use crate::clients::{AfterText, CREATE, Callers, HOLDER, Served, answers_to, requests, serve};
use crate::desks::{assert_same, first_of_march, rows_of, spelled};
use addr::Day;
use cli_tasks::help::help_text;
use cli_tasks::{Host, run_task};
use cli_texts::{ProgramFault, Task};
use desk::Desk;
use desk_files::{close_desk, open_desk};
use sqlite::Connection;
use sqlite_std_file::{FileFrom, Unknown};
use sqlite_store::FileStore;
use std::fs;
use std::process::Abort;
use std::rt::HostRuntime;

const FOLDER: &str = "roadesk_test";

const CHARTER: &str = "kind,value\noperator,reg\npool,192.0.2.0/24\n";

const CHARTER_FILE: &str = "roadesk_test/charter.csv";

const DATABASE: &str = "roadesk_test/a.db";

const PAYLOADS: &str = "roadesk_test/payloads.csv";

const ROUTES: &str = "roadesk_test/routes.csv";

fn run(rt: &HostRuntime, task: &Task<'_>) -> Result<(), ProgramFault> {
    run_task(rt, task, &mut Host(rt))
}

fn init(rt: &HostRuntime, database: &str) -> Result<(), ProgramFault> {
    run(
        rt,
        &Task::Init {
            database,
            charter: CHARTER_FILE,
        },
    )
}

fn serve_once(
    rt: &HostRuntime,
    database: &str,
    address: &str,
    day: Day,
) -> Result<(), ProgramFault> {
    run(
        rt,
        &Task::Serve {
            database,
            address,
            count: 1,
            day,
        },
    )
}

/// The desk in the database of these tests.
fn open(test: &impl Abort, rt: &HostRuntime) -> Desk<FileStore<FileFrom<Unknown>>> {
    match open_desk(rt, DATABASE, Unknown) {
        Ok(desk) => desk,
        Err(_) => test.panic("no desk"),
    }
}

/// An empty folder with a charter in it.
fn make_folder(test: &impl Abort, rt: &HostRuntime) {
    // Only a run that was cut off has left the folder.
    let _ = fs::remove_dir_all(rt, FOLDER);
    fs::create_dir(rt, FOLDER).expect(test, FOLDER);
    fs::write(rt, CHARTER_FILE, CHARTER.as_bytes()).expect(test, CHARTER_FILE);
}

fn remove_folder(test: &impl Abort, rt: &HostRuntime) {
    fs::remove_dir_all(rt, FOLDER).expect(test, FOLDER);
}

const USAGES: [&str; 5] = [
    "roadesk script --charter FILE",
    "roadesk init --db FILE --charter FILE",
    "roadesk serve --db FILE --listen ADDR --count N --day D",
    "roadesk check PAYLOADS ROUTES",
    "roadesk help",
];

#[test]
fn help_names_the_five_tasks(rt: HostRuntime) {
    let text = help_text(rt.alloc()).expect(&rt, "a text");
    for usage in USAGES {
        assert!(rt; text.as_str().contains(usage), "{usage}");
    }
}

/// If there is no database, none is served, and one is made once there is a folder for it.
fn make_database(test: &impl Abort, rt: &HostRuntime, day: Day) {
    let ended = serve_once(rt, DATABASE, "127.0.0.1:0", day);
    assert_same(test, ended, Err(ProgramFault::Database), "no database");
    assert!(test; !fs::exists(rt, DATABASE).expect(test, DATABASE));
    let ended = init(rt, "roadesk_test/none/a.db");
    assert_same(test, ended, Err(ProgramFault::Database), "no folder");
    fs::write(rt, DATABASE, b"".as_slice()).expect(test, DATABASE);
    assert_same(test, init(rt, DATABASE), Ok(()), "an empty file");
}

/// What there is already is not replaced, and neither another file nor another word is served.
fn assert_refused(test: &impl Abort, rt: &HostRuntime, day: Day) {
    let ended = init(rt, DATABASE);
    assert_same(test, ended, Err(ProgramFault::Exists), "a database");
    let ended = init(rt, CHARTER_FILE);
    assert_same(test, ended, Err(ProgramFault::Exists), "another file");
    let ended = serve_once(rt, CHARTER_FILE, "127.0.0.1:0", day);
    assert_same(test, ended, Err(ProgramFault::Database), "no database");
    let ended = serve_once(rt, DATABASE, "no address", day);
    assert_same(test, ended, Err(ProgramFault::Socket), "no address");
}

/// Ends the desk, and returns whether its files were closed.
fn closes(desk: Desk<FileStore<FileFrom<Unknown>>>) -> bool {
    match close_desk(desk) {
        Ok(_) => true,
        Err(fault) => {
            drop(fault.store.close());
            false
        }
    }
}

/// The desk in the database answers these requests, each on a connection of its own, and is closed.
fn serve_database(test: &impl Abort, rt: &HostRuntime, tables: &[&str]) -> Served {
    let texts = requests(test, rt.alloc(), tables);
    let mut desk = open(test, rt);
    let served = serve(test, rt, rt, &mut desk, &texts, AfterText::ShutsWriting);
    assert!(test; closes(desk));
    served
}

/// The desk in the database has the authorization of `CREATE`.
fn assert_authorization(test: &impl Abort, rt: &HostRuntime) {
    let served = serve_database(test, rt, &["GET /holders/alpha/auths/1 ann "]);
    assert_same(test, served.answers.len(), 1, "answers");
    let answer = served.answers.first().expect(test, "an answer");
    assert!(test;
        answer.ends_with(
            "{\"shown\":{\"number\":1,\"asn\":64496,\"prefix\":\"192.0.2.0/24\",\"max\":24,\
            \"from\":\"2026-01-01\",\"until\":\"2026-12-31\"}}\n"
        ),
        "{}",
        answer.as_str()
    );
}

#[test]
fn a_desk_in_a_file_is_served_again(rt: HostRuntime) {
    let day = first_of_march(&rt);
    make_folder(&rt, &rt);
    make_database(&rt, &rt, day);
    assert_refused(&rt, &rt, day);
    let served = serve_database(&rt, &rt, &[HOLDER, CREATE]);
    assert_same(&rt, served.errors.len(), 0, "lines on connections");
    assert_authorization(&rt, &rt);
    remove_folder(&rt, &rt);
}

#[test]
fn an_empty_file_is_not_served(rt: HostRuntime) {
    let empty = "roadesk_test_empty.db";
    fs::write(&rt, empty, b"".as_slice()).expect(&rt, empty);
    let ended = serve_once(&rt, empty, "127.0.0.1:0", first_of_march(&rt));
    assert_same(&rt, ended, Err(ProgramFault::Schema), empty);
    let size = fs::metadata(&rt, empty).expect(&rt, empty).len();
    assert_same(&rt, size, 0, empty);
    fs::remove_file(&rt, empty).expect(&rt, empty);
}

/// Runs the task `serve` for a connection for each of the requests, and returns the answers.
fn serve_requests(test: &impl Abort, rt: &HostRuntime, day: Day, tables: &[&str]) -> Vec<String> {
    let texts = requests(test, rt.alloc(), tables);
    let mut callers = Callers::new(rt, &texts, AfterText::ShutsWriting);
    let task = Task::Serve {
        database: DATABASE,
        address: "127.0.0.1:0",
        count: callers.count(),
        day,
    };
    run_task(rt, &task, &mut callers).expect(test, "the task serve");
    answers_to(test, rt.alloc(), &mut callers.clients)
}

/// Days, and the payloads that a desk exports on them which has the authorization of `CREATE`.
const DAYS: &str = r#"
2025-12-31 => asn,prefix,maxlength;
2026-01-01 => asn,prefix,maxlength;AS64496,192.0.2.0/24,24;
2026-12-31 => asn,prefix,maxlength;AS64496,192.0.2.0/24,24;
2027-01-01 => asn,prefix,maxlength;
"#;

/// Each request up to the create is accepted.
fn serve_setup(test: &impl Abort, rt: &HostRuntime) {
    let answers = serve_requests(test, rt, first_of_march(test), &[HOLDER, CREATE]);
    assert_same(test, answers.len(), 4, "answers");
    for (number, answer) in answers.iter().enumerate() {
        assert!(test;
            answer.starts_with("HTTP/1.1 200 OK\r\n"),
            "request {number}"
        );
    }
}

/// The desk exports the payloads of each of `DAYS`.
fn assert_days(test: &impl Abort, rt: &HostRuntime) {
    for row in &rows_of(test, rt.alloc(), DAYS) {
        let text = row.input;
        let payloads = spelled(test, rt.alloc(), row.output);
        let day = Day::read(text.as_bytes()).expect(test, text);
        let answers = serve_requests(test, rt, day, &["GET /payloads bob "]);
        let answer = answers.first().expect(test, text);
        assert!(test; answer.ends_with(payloads.as_str()), "{text}");
    }
}

#[test]
fn serve_answers_each_connection_on_its_day(rt: HostRuntime) {
    make_folder(&rt, &rt);
    assert_same(&rt, init(&rt, DATABASE), Ok(()), DATABASE);
    serve_setup(&rt, &rt);
    assert_days(&rt, &rt);
    remove_folder(&rt, &rt);
}

/// Statements over the database of a desk, and the line and the status of `serve` on what they
/// leave.
const OTHER_TABLES: [(&str, &str, &str, u8); 2] = [
    ("one too few", "DROP TABLE slurm", "roadesk: schema", 5),
    (
        "one too many",
        "CREATE TABLE further (name TEXT NOT NULL) STRICT",
        "roadesk: database",
        3,
    ),
];

/// Executes the statement over the database.
fn execute(test: &impl Abort, rt: &HostRuntime, statement: &str) {
    let mut conn = Connection::open(rt, DATABASE).expect(test, DATABASE);
    conn.execute_batch(statement).expect(test, statement);
    conn.close().expect(test, DATABASE);
}

/// What a row of `OTHER_TABLES` leaves is not served.
fn assert_not_served(
    test: &impl Abort,
    rt: &HostRuntime,
    (name, statement, line, status): (&str, &str, &str, u8),
) {
    make_folder(test, rt);
    assert_same(test, init(rt, DATABASE), Ok(()), name);
    execute(test, rt, statement);
    let ended = serve_once(rt, DATABASE, "127.0.0.1:0", first_of_march(test));
    let fault = ended.err().expect(test, name);
    assert_same(test, fault.line().as_str(), line, name);
    assert_same(test, fault.status(), status, name);
}

#[test]
fn a_file_of_other_tables_is_not_served(rt: HostRuntime) {
    for row in &OTHER_TABLES {
        assert_not_served(&rt, &rt, *row);
    }
    remove_folder(&rt, &rt);
}

/// Files of payloads and of routes, and the line of the fault of their check, which is empty where
/// there is none.
const CHECKED: [(&str, &str, &str, &str); 2] = [
    (
        "good files",
        "asn,prefix,maxlength\nAS64496,192.0.2.0/24,24\n",
        "prefix,origin\n192.0.2.0/24,AS64496\n",
        "",
    ),
    (
        "exchanged files",
        "prefix,origin\n192.0.2.0/24,AS64496\n",
        "asn,prefix,maxlength\nAS64496,192.0.2.0/24,24\n",
        "roadesk: payloads header",
    ),
];

/// The check of the files of a row of `CHECKED` ends with its line.
fn assert_checked(
    test: &impl Abort,
    rt: &HostRuntime,
    (name, payloads, routes, line): (&str, &str, &str, &str),
) {
    fs::write(rt, PAYLOADS, payloads.as_bytes()).expect(test, PAYLOADS);
    fs::write(rt, ROUTES, routes.as_bytes()).expect(test, ROUTES);
    let task = Task::Check {
        payloads: PAYLOADS,
        routes: ROUTES,
    };
    match run(rt, &task) {
        Ok(()) => assert_same(test, "", line, name),
        Err(fault) => assert_same(test, fault.line().as_str(), line, name),
    }
}

#[test]
fn check_judges_the_routes_on_the_payloads(rt: HostRuntime) {
    make_folder(&rt, &rt);
    for row in &CHECKED {
        assert_checked(&rt, &rt, *row);
    }
    remove_folder(&rt, &rt);
}
