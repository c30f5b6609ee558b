//! The day that `serve` prepares before its first connection, and again after one that lost it.
ghost use Rattle.std.specs.Prelude.{⊤};

use crate::clients::{AfterText, Bound, CREATE, HOLDER, requests, serve};
use crate::desks::{assert_same, first_of_march, on_desk, rows_of};
use crate::lines_on_faults::Clients;
use crate::refused_memory::assert_made;
use addr::Day;
use cli_tasks::serve::{AnswerConnections, Incoming, Printed, answer_each, serve_on};
use desk::Desk;
use requests::Routes;
use sqlite::MemStore;
use std::alloc::Global;
use std::process::Abort;
use std::rt::HostRuntime;
use web::{Drain, Extent, Failed, Source, WebFault};

/// The desk serves no connection.
fn serve_none(rt: &HostRuntime, desk: &mut Desk<MemStore>, day: Day) -> Result<(), Failed> {
    let mut network = Bound(None);
    let mut connections = Incoming::new(rt, &mut network, "");
    let mut errors = Vec::new(rt.alloc());
    let mut log = Printed::new(&mut errors);
    serve_on(rt.alloc(), &mut connections, 0, desk, day, &mut log)
}

#[test]
fn the_day_is_kept_before_the_first_connection(rt: HostRuntime) {
    on_desk(&rt, |desk| {
        let day = first_of_march(&rt);
        assert!(rt; desk.kept().is_none());
        let served = serve_none(&rt, desk, day);
        assert_same(&rt, served, Ok(()), "no connection");
        assert!(rt; desk.kept() == Some(day));
    });
}

/// A request after that of `CREATE`, and how its response begins.
const AFTER_CREATE: &str = r#"
GET /holders/alpha/auths/1 ann  => HTTP/1.1 200 
PUT /slurms reg {"files":[]} => HTTP/1.1 200 
PUT /slurms ann {"files":[]} => HTTP/1.1 403 
PUT /slurms reg { => HTTP/1.1 400 
"#;

/// The desk answers the requests, the last of them so, and the day is kept then.
fn assert_kept_after(
    test: &impl Abort,
    rt: &HostRuntime,
    desk: &mut Desk<MemStore>,
    texts: &[String],
    begins: &str,
) {
    let served = serve(test, rt, rt, desk, texts, AfterText::ShutsWriting);
    let answer = served.answers.last().expect(test, "an answer");
    assert!(test; answer.as_str().starts_with(begins), "{}", answer.as_str());
    assert!(test; desk.kept() == Some(first_of_march(test)), "{begins}");
}

#[test]
fn the_day_is_kept_after_each_connection(rt: HostRuntime) {
    for row in &rows_of(&rt, rt.alloc(), AFTER_CREATE) {
        let texts = requests(&rt, rt.alloc(), &[HOLDER, CREATE, row.input]);
        on_desk(&rt, |desk| {
            assert_kept_after(&rt, &rt, desk, &texts, row.output);
        });
    }
}

/// Loses at some connections what was ready, and finds memory for it at some tries.
#[derive(Drop)]
struct Forgetful<'a> {
    loses: &'a [bool],
    finds_memory: &'a [bool],
    answered: usize,
    tries: usize,
    is_ready: bool,
}

impl AnswerConnections for Forgetful<'_> {
    ghost answers = { λ _ _ _ _. ⊤ };

    ghost tells_ready = { λ _ _ _. ⊤ };

    ghost readied = { λ _ _ _. ⊤ };

    fn is_ready(&self, _day: Day) -> bool {
        self.is_ready
    }

    fn make_ready(&mut self, _day: Day) {
        if self.is_ready {
            return;
        }
        self.is_ready = self.finds_memory.get(self.tries) == Some(&true);
        self.tries = self.tries.saturating_add(1);
    }

    fn answer<S: Source, D: Drain>(
        &mut self,
        _alloc: Global,
        _routes: Option<&Routes>,
        _source: &mut S,
        _drain: &mut D,
        _day: Day,
    ) -> Result<Extent, WebFault> {
        if self.loses.get(self.answered) == Some(&true) {
            self.is_ready = false;
        }
        self.answered = self.answered.saturating_add(1);
        Ok(Extent::Whole)
    }
}

/// At which of three connections what was ready is lost, at which tries there is memory for it, how
/// many tries there are, and whether all is ready at the end. After a try without memory there is
/// none any more.
const LOSSES: [([bool; 3], &[bool], usize, bool); 4] = [
    ([false, false, false], &[], 0, true),
    ([true, true, true], &[true, true, true], 3, true),
    ([true, false, false], &[false, true, true], 1, false),
    ([true, true, false], &[true, false, true], 2, false),
];

const THREE_CLIENTS: [(Option<&str>, usize); 3] = [(None, 0), (None, 0), (None, 0)];

/// A row of `LOSSES` is so.
fn assert_tries(
    test: &impl Abort,
    alloc: Global,
    (loses, finds_memory, tries, is_ready): ([bool; 3], &[bool], usize, bool),
) {
    let mut engine = Forgetful {
        loses: &loses,
        finds_memory,
        answered: 0,
        tries: 0,
        is_ready: true,
    };
    let mut connections = Clients::new(&THREE_CLIENTS);
    let mut errors = Vec::new(alloc);
    let mut log = Printed::new(&mut errors);
    let day = first_of_march(test);
    let ended = answer_each(alloc, None, &mut connections, 3, &mut engine, day, &mut log);
    assert_same(test, ended, Ok(()), finds_memory);
    assert_same(test, engine.tries, tries, finds_memory);
    assert_same(test, engine.is_ready, is_ready, finds_memory);
}

#[test]
fn a_day_that_found_no_memory_is_not_tried_again(rt: HostRuntime) {
    for row in &LOSSES {
        assert_tries(&rt, rt.alloc(), *row);
    }
}

/// A what-if as the first request, and one after an accepted SLURM set.
const WHAT_IFS: [&str; 2] = [
    r#"
POST /holders/alpha/whatif ann {"changes":[{"do":"withdraw","number":1}],"routes":[{"prefix":"192.0.2.0/24","origin":64496}]}
"#,
    r#"
PUT /slurms reg {"files":[]}
POST /holders/alpha/whatif ann {"changes":[{"do":"withdraw","number":1}],"routes":[{"prefix":"192.0.2.0/24","origin":64496}]}
"#,
];

/// A what-if keeps no day itself.
#[test]
fn the_day_is_kept_before_a_what_if(rt: HostRuntime) {
    for table in WHAT_IFS {
        let texts = requests(&rt, rt.alloc(), &[table]);
        on_desk(&rt, |desk| {
            assert_made(&rt, rt.alloc(), desk, 4);
            assert_kept_after(&rt, &rt, desk, &texts, "HTTP/1.1 200 ");
        });
    }
}

/// Holds whichever one allocation is refused. If the VRPs of the day were not kept, it was refused
/// for them, and they are answered.
#[test]
fn a_desk_without_memory_for_its_day_answers(rt: HostRuntime) {
    let day = first_of_march(&rt);
    on_desk(&rt, |desk| {
        assert_made(&rt, rt.alloc(), desk, 4);
        let served = serve_none(&rt, desk, day);
        assert_same(&rt, served, Ok(()), "no connection");
        let is_lent = desk.payloads(day).is_some();
        assert!(rt; is_lent);
        assert!(rt; desk.kept() == Some(day));
    });
}
