//! Scripts over a new desk, from their first line to their last reply. The expected replies follow
//! from the rules and formats of the desk.
//!
//! Each script begins with a line `# NAME`, or `# NAME after SETUP, SETUP, ..` where other lines
//! come before its own. A line is `CALLER {"do":..} => REPLY`, sent on the first of March, or
//! `day DAY`, the day of the lines that follow it.
use crate::fakes::Tape;
use crate::ready::{EXAMPLE_POOL, new_desk, on_desk_of, row_of};
use desk::{Asked, Desk, Reply};
use sqlite::{Connection, MemStore};
use std::alloc::Global;
use std::process::Abort;
use test_library::sheet::Sheet;
use web::{Device, read_line_request, run_script, write_reply};

mod amendments;
mod authorizations;
pub(crate) mod exceptions;
mod grants;
mod imports;
mod other_holders;
mod repeats;
mod resources;
mod roa_contents;
mod several_prefixes;
mod slurm_sets;
mod vrps;
mod what_if;

/// `alpha` has 192.0.2.0/24, and `ann` is its manager.
pub(crate) const ALPHA: &str = r#"
reg {"do":"register","holder":"alpha"} => {"done":null}
reg {"do":"delegate","holder":"alpha","prefix":"192.0.2.0/24"} => {"done":null}
reg {"do":"grant","holder":"alpha","name":"ann","role":"manager","scope":"all","until":"2026-12-31"} => {"done":1}
"#;

/// Beyond that, AS 64496 is authorized for all of it.
pub(crate) const AUTHORIZATION: &str = r#"
ann {"do":"create","holder":"alpha","asn":64496,"prefix":"192.0.2.0/24","max":24,"from":"2026-01-01","until":"2026-12-31"} => {"done":1}
"#;

/// Every kind of request once. A reply of Unavailable would say that an allocation failed.
const EVERY_REQUEST: &str = r#"
ann {"do":"amend","holder":"alpha","number":1,"max":26,"until":"2026-06-30"} => {"done":null}
ann {"do":"show","holder":"alpha","number":1} => {"shown":{"number":1,"asn":64496,"prefix":"192.0.2.0/24","max":26,"from":"2026-01-01","until":"2026-06-30"}}
ann {"do":"content","holder":"alpha","number":1} => {"content":"301a020300fbf03013301104020001300b3009030400c0000202011a"}
ann {"do":"list","holder":"alpha"} => {"listed":[{"number":1,"asn":64496,"prefix":"192.0.2.0/24","max":26,"from":"2026-01-01","until":"2026-06-30"}]}
bob {"do":"payloads"} => {"payloads":[{"asn":64496,"prefix":"192.0.2.0/24","max":26}]}
bob {"do":"validity","routes":[{"prefix":"192.0.2.64/26","origin":64496}]} => {"answers":["Valid"]}
slurm {"asn":64497} ; {"asn":64500,"prefix":"192.0.2.0/24"} => {"done":null}
bob {"do":"payloads"} => {"payloads":[{"asn":64500,"prefix":"192.0.2.0/24","max":24},{"asn":64496,"prefix":"192.0.2.0/24","max":26}]}
ann {"do":"import","holder":"alpha","rows":[{"asn":64496,"prefix":"192.0.2.0/24","max":26,"from":"2026-01-01","until":"2026-06-30"},{"asn":64498,"prefix":"192.0.2.0/25","max":25,"from":"2026-01-01","until":"2026-12-31"}]} => {"made":1,"present":1}
ann {"do":"whatif","holder":"alpha","changes":[{"do":"withdraw","number":1},{"do":"create","asn":64499,"prefix":"192.0.2.128/25","max":25,"from":"2026-01-01","until":"2026-12-31"}],"routes":[{"prefix":"192.0.2.0/24","origin":64496},{"prefix":"192.0.2.128/25","origin":64499}]} => {"report":[["Valid","Invalid"],["Invalid","Valid"]]}
ann {"do":"withdraw","holder":"alpha","number":1} => {"done":null}
reg {"do":"register","holder":"beta"} => {"done":null}
reg {"do":"transfer","prefix":"192.0.2.0/25","giver":"alpha","taker":"beta"} => {"done":null}
reg {"do":"reclaim","holder":"beta","prefix":"192.0.2.0/26"} => {"done":null}
reg {"do":"revoke","holder":"alpha","number":1} => {"done":null}
"#;

/// Beside `alpha`, `beta` has 198.51.100.0/24, and `bea` is its manager.
const BETA: &str = r#"
reg {"do":"register","holder":"beta"} => {"done":null}
reg {"do":"delegate","holder":"beta","prefix":"198.51.100.0/24"} => {"done":null}
reg {"do":"grant","holder":"beta","name":"bea","role":"manager","scope":"all","until":"2026-12-31"} => {"done":1}
"#;

/// The day of the lines of a script before its first `day`.
pub(crate) const FIRST_DAY: &str = "2026-03-01";

const HALVES: &[&str] = &["192.0.2.0/25", "192.0.2.128/25"];

/// The line of a script on a day, of a request with its caller before it.
pub(crate) fn line_of(rt: &impl Abort, alloc: Global, day: &str, request: &str) -> String {
    let (caller, members) = request.split_once(" {").expect(rt, "a caller");
    let line = format!(in alloc; "{{\"day\":\"{day}\",\"caller\":\"{caller}\",{members}");
    line.expect(rt, "a line")
}

/// Sets the day of the rows that follow.
pub(crate) fn set_day(rt: &impl Abort, day: &mut String, next: &str) {
    day.clear();
    day.push_str(next).expect(rt, "a day");
}

/// The line of a script on a day, of the request of a row.
fn row_line(rt: &impl Abort, alloc: Global, day: &str, request: &str) -> String {
    let request = exceptions::request_line(rt, alloc, request);
    line_of(rt, alloc, day, &request)
}

/// What the desk writes to a script, which a source gives few bytes at a time.
pub(crate) fn replies_to(
    rt: &impl Abort,
    alloc: Global,
    desk: &mut Desk<MemStore>,
    script: &str,
) -> String {
    let mut source = Device::new(Tape {
        bytes: script.as_bytes(),
        piece: 7,
        fails: false,
        is_interrupted: false,
    });
    let mut sheet = Sheet {
        bytes: Vec::new(alloc),
        room: usize::MAX,
        is_interrupted: false,
    };
    let result = {
        let mut drain = Device::new(&mut sheet);
        run_script(alloc, &mut source, &mut drain, desk)
    };
    result.expect(rt, "replies");
    String::from_utf8(sheet.bytes).expect(rt, "replies in UTF-8")
}

/// The reply of the desk to the request of a row on a day.
pub(crate) fn reply_to(
    rt: &impl Abort,
    alloc: Global,
    desk: &mut Desk<MemStore>,
    day: &str,
    request: &str,
) -> String {
    let line = row_line(rt, alloc, day, request);
    replies_to(rt, alloc, desk, &line)
}

/// The texts of these replies, a line each.
pub(crate) fn text_of(rt: &impl Abort, alloc: Global, replies: &[Reply]) -> String {
    let mut sheet = Sheet {
        bytes: Vec::new(alloc),
        room: usize::MAX,
        is_interrupted: false,
    };
    for reply in replies {
        let mut drain = Device::new(&mut sheet);
        write_reply(reply, &mut drain).expect(rt, "a reply");
    }
    String::from_utf8(sheet.bytes).expect(rt, "replies in UTF-8")
}

/// The reply to a request of a script is the expected one.
pub(crate) fn assert_reply(
    rt: &impl Abort,
    reply: &str,
    expected: &str,
    name: &str,
    request: &str,
) {
    assert_eq!(rt; reply, expected, "{name}: {request}");
}

/// Appends a line to a text.
pub(crate) fn push_line(rt: &impl Abort, text: &mut String, line: &str) {
    text.push_str(line).expect(rt, "a longer text");
    text.push('\n').expect(rt, "a longer text");
}

/// Appends an item of a list, with a comma before it if it is not the first.
pub(crate) fn push_item(rt: &impl Abort, list: &mut String, item: &str) {
    let separator = if list.is_empty() { "" } else { "," };
    list.push_str(separator).expect(rt, "a longer list");
    list.push_str(item).expect(rt, "a longer list");
}

/// The database of a new desk that was closed after these lines.
pub(crate) fn closed_after(
    rt: &impl Abort,
    alloc: Global,
    name: &str,
    texts: &[&str],
) -> Connection<MemStore> {
    let mut desk = new_desk(rt, alloc);
    assert_lines(rt, alloc, name, &mut desk, texts);
    desk.close()
}

/// These lines, sent to the desk one by one, have their replies.
pub(crate) fn assert_lines(
    rt: &impl Abort,
    alloc: Global,
    name: &str,
    desk: &mut Desk<MemStore>,
    texts: &[&str],
) {
    Dialogue::of(rt, alloc, texts).assert_replies_of_lines(rt, name, desk);
}

/// The lines of a script, and the replies that are expected.
#[derive(Drop)]
pub(crate) struct Dialogue {
    alloc: Global,
    script: String,
    expected: String,
}

impl Dialogue {
    /// The lines of these texts, one after the other.
    pub(crate) fn of(rt: &impl Abort, alloc: Global, texts: &[&str]) -> Dialogue {
        let mut dialogue = Dialogue {
            alloc,
            script: String::new(alloc),
            expected: String::new(alloc),
        };
        for text in texts {
            dialogue.add(rt, text);
        }
        dialogue
    }

    fn add(&mut self, rt: &impl Abort, text: &str) {
        let mut day = String::from_str(self.alloc, FIRST_DAY).expect(rt, "a day");
        for line in text.lines() {
            if let Some(next) = line.strip_prefix("day ") {
                set_day(rt, &mut day, next);
            } else if !line.is_empty() {
                self.add_row(rt, &day, line);
            }
        }
    }

    fn add_row(&mut self, rt: &impl Abort, day: &str, row: &str) {
        let (request, reply) = row_of(rt, row);
        let line = row_line(rt, self.alloc, day, request);
        push_line(rt, &mut self.script, &line);
        push_line(rt, &mut self.expected, reply);
    }

    /// The lines, sent to the desk one by one, have their replies.
    pub(crate) fn assert_replies_of_lines(
        &self,
        rt: &impl Abort,
        name: &str,
        desk: &mut Desk<MemStore>,
    ) {
        let written = replies_to(rt, self.alloc, desk, &self.script);
        assert_reply(rt, &written, &self.expected, name, "line by line");
    }

    /// Each way of sending the lines has its own new desk.
    fn assert_on_new_desks(&self, rt: &impl Abort, name: &str, pool: &[&str]) {
        on_desk_of(rt, self.alloc, pool, |desk| {
            self.assert_replies_of_lines(rt, name, desk);
        });
        on_desk_of(rt, self.alloc, pool, |desk| {
            self.assert_replies_of_run(rt, name, desk);
        });
    }

    /// The lines that are requests, and their replies.
    fn requests(&self, rt: &impl Abort) -> Requests {
        let mut requests = Requests {
            asked: Vec::new(self.alloc),
            expected: String::new(self.alloc),
        };
        for (line, reply) in self.script.lines().zip(self.expected.lines()) {
            requests.add(rt, self.alloc, line, reply);
        }
        requests
    }

    /// The lines that are requests, sent as one list, have the same replies.
    fn assert_replies_of_run(&self, rt: &impl Abort, name: &str, desk: &mut Desk<MemStore>) {
        let requests = self.requests(rt);
        let replies = desk.run(requests.asked.as_slice()).expect(rt, "replies");
        let written = text_of(rt, self.alloc, &replies);
        assert_reply(rt, &written, &requests.expected, name, "as one list");
    }
}

/// Requests that are sent as one list, and the replies that are expected.
#[derive(Drop)]
struct Requests {
    asked: Vec<Asked>,
    expected: String,
}

impl Requests {
    /// A line that is no request is left out.
    fn add(&mut self, rt: &impl Abort, alloc: Global, line: &str, reply: &str) {
        if let Ok(one) = read_line_request(alloc, line.as_bytes()) {
            self.asked.push(one).expect(rt, "a longer list");
            push_line(rt, &mut self.expected, reply);
        }
    }
}

/// The script has these replies, line by line and as one list.
fn assert_replies(
    rt: &impl Abort,
    alloc: Global,
    pool: &[&str],
    name: &str,
    texts: &[&str],
    lines: &str,
) {
    let mut dialogue = Dialogue::of(rt, alloc, texts);
    dialogue.add(rt, lines);
    dialogue.assert_on_new_desks(rt, name, pool);
}

/// The lines of a set-up.
fn setup_of(rt: &impl Abort, name: &str) -> &'static str {
    match name {
        "holder" => ALPHA,
        "authorization" => AUTHORIZATION,
        "amendment" => amendments::AMENDMENT,
        "clerk" => grants::CLERK_OF_THE_LOWER_HALF,
        "exceptions" => exceptions::FILTER_AND_ASSERTION,
        "import" => imports::TWO_ROWS,
        "other holder" => BETA,
        "two families" => several_prefixes::TWO_FAMILIES,
        "reclaimed part" => resources::PART_RECLAIMED,
        _ => rt.panic(format_args!("no set-up {name}")),
    }
}

/// The lines of the set-ups that a heading names.
pub(crate) fn setups_of(rt: &impl Abort, alloc: Global, heading: &str) -> Vec<&'static str> {
    let mut texts = Vec::new(alloc);
    if let Some((_, setups)) = heading.split_once(" after ") {
        for setup in setups.split(',') {
            texts
                .push(setup_of(rt, setup.trim()))
                .expect(rt, "a longer list");
        }
    }
    texts
}

/// The script of a heading and lines has its replies.
pub(crate) fn assert_script(rt: &impl Abort, alloc: Global, script: &str) {
    let (heading, lines) = script.split_once('\n').unwrap_or((script, ""));
    let texts = setups_of(rt, alloc, heading);
    assert_replies(rt, alloc, EXAMPLE_POOL, heading, &texts, lines);
}

fn assert_all(rt: &impl Abort, alloc: Global, scripts: &str) {
    for script in scripts.split("\n# ").skip(1) {
        assert_script(rt, alloc, script);
    }
}

/// The script of a pair whose own lines begin so; the other's begin with `other`.
fn one_of_pair(rt: &impl Abort, alloc: Global, pair: &str, own: &str, other: &str) -> String {
    let mut script = String::new(alloc);
    for line in pair.lines() {
        if !line.starts_with(other) {
            push_line(rt, &mut script, line.strip_prefix(own).unwrap_or(line));
        }
    }
    script
}

/// A script that sends its first line twice, and all lines that follow the second reply after each
/// of the two.
fn asked_twice(rt: &impl Abort, alloc: Global, script: &str) -> String {
    let (heading, lines) = script.split_once('\n').expect(rt, "lines");
    let (first, after_first) = lines.split_once('\n').expect(rt, "a second reply");
    let (again, looks) = after_first.split_once('\n').expect(rt, "what is looked at");
    let (request, _) = row_of(rt, first);
    let second = again.strip_prefix("again").expect(rt, "a second reply");
    let asked = format!(in alloc; "{heading}\n{first}\n{looks}\n{request}{second}\n{looks}");
    asked.expect(rt, "a script")
}

#[test]
fn scripts_have_their_replies(rt: HostRuntime) {
    assert_all(&rt, rt.alloc(), resources::SCRIPTS);
    assert_all(&rt, rt.alloc(), grants::SCRIPTS);
    assert_all(&rt, rt.alloc(), authorizations::SCRIPTS);
    assert_all(&rt, rt.alloc(), amendments::SCRIPTS);
    assert_all(&rt, rt.alloc(), several_prefixes::SCRIPTS);
    assert_all(&rt, rt.alloc(), slurm_sets::SCRIPTS);
    assert_all(&rt, rt.alloc(), roa_contents::SCRIPTS);
    assert_all(&rt, rt.alloc(), imports::SCRIPTS);
    assert_all(&rt, rt.alloc(), what_if::SCRIPTS);
    assert_all(&rt, rt.alloc(), vrps::SCRIPTS);
    assert_all(&rt, rt.alloc(), exceptions::SCRIPTS);
}

fn assert_one_of_pair(rt: &impl Abort, alloc: Global, pair: &str, own: &str, other: &str) {
    let script = one_of_pair(rt, alloc, pair, own, other);
    assert_script(rt, alloc, &script);
}

#[test]
fn other_holders_change_no_reply(rt: HostRuntime) {
    for pair in other_holders::PAIRS.split("\n# ").skip(1) {
        assert_one_of_pair(&rt, rt.alloc(), pair, "first: ", "second: ");
        assert_one_of_pair(&rt, rt.alloc(), pair, "second: ", "first: ");
    }
}

#[test]
fn asked_again_changes_nothing(rt: HostRuntime) {
    for script in repeats::TWICE.split("\n# ").skip(1) {
        let script = asked_twice(&rt, rt.alloc(), script);
        assert_script(&rt, rt.alloc(), &script);
    }
}

#[test]
fn answers_without_want_of_memory_in_ample_memory(rt: HostRuntime) {
    let name = "answers_without_want_of_memory_in_ample_memory";
    let texts = [ALPHA, AUTHORIZATION];
    assert_replies(&rt, rt.alloc(), EXAMPLE_POOL, name, &texts, EVERY_REQUEST);
}

#[test]
fn delegate_over_two_prefixes_of_the_pool(rt: HostRuntime) {
    let name = "delegate_over_two_prefixes_of_the_pool";
    assert_replies(&rt, rt.alloc(), HALVES, name, &[ALPHA], "");
}

/// The rows of grants 2 to 64.
fn filling_grants(rt: &impl Abort, alloc: Global) -> String {
    let mut filling = String::new(alloc);
    for number in 2u32..=64 {
        let row = format!(in alloc; "{} => {{\"done\":{number}}}", grants::SHORT_GRANT);
        push_line(rt, &mut filling, &row.expect(rt, "a row"));
    }
    filling
}

#[test]
fn unrevoked_grants_fill_the_room(rt: HostRuntime) {
    let filling = filling_grants(&rt, rt.alloc());
    let texts = [ALPHA, filling.as_str()];
    let name = "unrevoked_grants_fill_the_room";
    assert_replies(&rt, rt.alloc(), EXAMPLE_POOL, name, &texts, grants::NO_ROOM);
}

#[test]
fn import_of_1001_rows_has_no_room(rt: HostRuntime) {
    let alloc = rt.alloc();
    let refused = imports::import_of_many(&rt, alloc, 1001, r#"{"denied":"room","row":1001}"#);
    let made = imports::import_of_many(&rt, alloc, 1000, r#"{"made":1000,"present":0}"#);
    let present = imports::import_of_many(&rt, alloc, 1000, r#"{"made":0,"present":1000}"#);
    let texts = [
        ALPHA,
        refused.as_str(),
        imports::NOTHING_LISTED,
        made.as_str(),
        present.as_str(),
        refused.as_str(),
    ];
    let name = "import_of_1001_rows_has_no_room";
    assert_replies(&rt, alloc, EXAMPLE_POOL, name, &texts, imports::FULL);
}

#[test]
fn thousandth_authorization_is_created(rt: HostRuntime) {
    let made = imports::import_of_many(&rt, rt.alloc(), 999, r#"{"made":999,"present":0}"#);
    let texts = [ALPHA, made.as_str()];
    let name = "thousandth_authorization_is_created";
    let lines = imports::ALMOST_FULL;
    assert_replies(&rt, rt.alloc(), EXAMPLE_POOL, name, &texts, lines);
}

#[test]
fn families_are_asked_apart(rt: HostRuntime) {
    let name = "families_are_asked_apart";
    let lines = resources::FAMILIES_OF_ZEROS;
    assert_replies(&rt, rt.alloc(), resources::ZEROS, name, &[], lines);
}

#[test]
fn what_if_takes_a_thousand_changes(rt: HostRuntime) {
    let alloc = rt.alloc();
    let report = r#"{"report":[["NotFound","Valid"]]}"#;
    let most = imports::what_if_of_many(&rt, alloc, 1000, report);
    let more = imports::what_if_of_many(&rt, alloc, 1001, r#"{"malformed":12}"#);
    let texts = [ALPHA, most.as_str(), more.as_str()];
    let name = "what_if_takes_a_thousand_changes";
    let lines = imports::NOTHING_LISTED;
    assert_replies(&rt, alloc, EXAMPLE_POOL, name, &texts, lines);
}
