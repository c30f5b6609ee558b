//! The words after the program's name, and the tasks that they name.
use crate::tables::{assert_output, assert_same, rows_of};
use cli_texts::{Task, WordsFault, read_words};
use std::alloc::{AllocError, Global};

/// The words of a line, which a space parts, and the task that they name.
const LINES: &str = r#"
# script
script --charter charter.csv => script charter.csv
script --charter  => script 
script --charter --charter => script --charter
script charter.csv --charter => words
Script --charter charter.csv => words
# init
init --db a.db --charter b.csv => init a.db b.csv
init --charter b.csv --db a.db => words
init --db a.db => words
# serve
serve --db a.db --listen 127.0.0.1:8080 --count 3 --day 1970-01-11 => serve a.db 127.0.0.1:8080 3 10
serve --db a --listen b --count 1000000 --day 9999-12-31 => serve a b 1000000 2932896
serve --db a --listen b --day 1970-01-11 --count 3 => words
# count_of_serve
serve --db a --listen b --count 1000001 --day 1970-01-11 => words
serve --db a --listen b --count 0 --day 1970-01-11 => words
serve --db a --listen b --count 03 --day 1970-01-11 => words
# day_of_serve
serve --db a --listen b --count 3 --day 1970-1-11 => day
serve --db a --listen b --count 0 --day 1970-1-11 => words
# check
check a.csv b.csv => check a.csv b.csv
check -- --help => check -- --help
check a.csv => words
check a.csv b.csv c.csv => words
# help
help => help
help check => words
--help => words
# empty_word
 => words
"#;

fn shown(alloc: Global, read: &Result<Task<'_>, WordsFault>) -> Result<String, AllocError> {
    match read {
        Ok(Task::Script { charter }) => format!(in alloc; "script {charter}"),
        Ok(Task::Init { database, charter }) => format!(in alloc; "init {database} {charter}"),
        Ok(
            Task::Serve {
                database,
                address,
                count,
                day,
            },
        ) => format!(in alloc; "serve {database} {address} {count} {}", day.number()),
        Ok(Task::Check { payloads, routes }) => format!(in alloc; "check {payloads} {routes}"),
        Ok(Task::Help) => String::from_str(alloc, "help"),
        Err(WordsFault::Words) => String::from_str(alloc, "words"),
        Err(WordsFault::Day) => String::from_str(alloc, "day"),
    }
}

#[test]
fn words_of_each_task(rt: HostRuntime) {
    for row in &rows_of(&rt, rt.alloc(), LINES) {
        let words = row
            .input
            .split(' ')
            .collect::<Vec<_>>(rt.alloc())
            .expect(&rt, "memory");
        let task = shown(rt.alloc(), &read_words(&words)).expect(&rt, "a text");
        assert_output(&rt, task.as_str(), row);
    }
}

#[test]
fn no_word(rt: HostRuntime) {
    assert_eq!(rt; read_words(&[]), Err(WordsFault::Words));
}

#[test]
fn numbers_of_faults(rt: HostRuntime) {
    assert_same(&rt, WordsFault::Words.number(), 1, "words");
    assert_same(&rt, WordsFault::Day.number(), 2, "day");
}
