//! A desk that keeps a day beside one that builds it anew before each question, over the same
//! commands, which a fixed seed chooses.
use crate::ready::{database, new_desk, old_database, opened_desk, row_of};
use crate::scripts::{ALPHA, AUTHORIZATION, assert_reply, closed_after, reply_to};
use addr::Day;
use desk::Desk;
use sqlite::{Connection, MemStore};
use std::alloc::Global;
use std::process::Abort;

const COMMANDS: u64 = 400;

/// The day that both are asked about. All commands are of an earlier one.
const DAY: &str = "2026-06-15";

const DAY_OF_COMMANDS: &str = "2026-03-01";

const OTHER_DAY: &str = "2026-06-14";

/// Two holders, at which `ann` is a manager.
const SETUP: [&str; 6] = [
    r#"reg {"do":"register","holder":"alpha"}"#,
    r#"reg {"do":"register","holder":"beta"}"#,
    r#"reg {"do":"delegate","holder":"alpha","prefix":"192.0.2.0/24"}"#,
    r#"reg {"do":"delegate","holder":"beta","prefix":"198.51.100.0/24"}"#,
    r#"reg {"do":"grant","holder":"alpha","name":"ann","role":"manager","scope":"all","until":"2026-12-31"}"#,
    r#"reg {"do":"grant","holder":"beta","name":"ann","role":"manager","scope":"all","until":"2026-12-31"}"#,
];

const PAYLOADS: &str = r#"bob {"do":"payloads"}"#;

const VALIDITY: &str =
    r#"bob {"do":"validity","routes":[{"prefix":"192.0.2.0/24","origin":64496},{"prefix":"192.0.2.0/25","origin":64497},{"prefix":"192.0.2.192/26","origin":64496},{"prefix":"198.51.100.0/24","origin":64498},{"prefix":"198.51.100.0/25","origin":64496},{"prefix":"198.51.100.128/25","origin":null}]}"#;

const HOLDERS: [&str; 2] = ["alpha", "beta"];

const HALVES: [&str; 4] = [
    "192.0.2.0/25",
    "192.0.2.128/25",
    "198.51.100.0/25",
    "198.51.100.128/25",
];

/// AS numbers and prefixes, each to its own length or beyond it.
const ASNS: [&str; 3] = ["64496", "64497", "64498"];

const PREFIXES: [&str; 8] = [
    r#""192.0.2.0/24","max":24"#,
    r#""192.0.2.0/24","max":25"#,
    r#""192.0.2.0/25","max":25"#,
    r#""192.0.2.128/25","max":26"#,
    r#""192.0.2.192/26","max":26"#,
    r#""198.51.100.0/24","max":24"#,
    r#""198.51.100.0/25","max":26"#,
    r#""198.51.100.128/25","max":25"#,
];

/// First and last days, on both sides of the day that is asked about.
const DAYS: [&str; 5] = [
    r#""2026-01-01","until":"2026-12-31""#,
    r#""2026-06-15","until":"2026-06-15""#,
    r#""2026-01-01","until":"2026-06-15""#,
    r#""2026-01-01","until":"2026-06-14""#,
    r#""2026-06-16","until":"2026-12-31""#,
];

const LAST_DAYS: [&str; 3] = ["2026-06-14", "2026-06-15", "2026-12-31"];

const MAX_LENGTHS: [&str; 3] = ["24", "25", "26"];

const EXCEPTIONS: [&str; 4] = [
    "slurm ;",
    r#"slurm {"prefix":"192.0.2.0/25"} ; {"asn":64496,"prefix":"192.0.2.0/25"}"#,
    r#"slurm {"asn":64497} ; {"asn":64498,"prefix":"198.51.100.0/24"},{"asn":64497,"prefix":"192.0.2.0/25"}"#,
    r#"slurm {"prefix":"198.51.100.0/24","asn":64496} ; {"asn":64496,"prefix":"192.0.2.0/24","maxPrefixLength":25}"#,
];

/// A linear congruential generator.
#[derive(Drop)]
struct Dice {
    state: u64,
}

impl Dice {
    fn below(&mut self, count: u64) -> u64 {
        self.state = self
            .state
            .wrapping_mul(6_364_136_223_846_793_005)
            .wrapping_add(1_442_695_040_888_963_407);
        (self.state >> 33).checked_rem(count).unwrap_or(0)
    }

    fn pick(&mut self, rt: &impl Abort, texts: &[&'static str]) -> &'static str {
        let at = self.below(texts.len() as u64);
        *texts.get(at as usize).expect(rt, "a text")
    }
}

/// The terms of an authorization.
fn terms(rt: &impl Abort, alloc: Global, dice: &mut Dice) -> String {
    let asn = dice.pick(rt, &ASNS);
    let prefix = dice.pick(rt, &PREFIXES);
    let days = dice.pick(rt, &DAYS);
    let text = format!(in alloc; "\"asn\":{asn},\"prefix\":{prefix},\"from\":{days}");
    text.expect(rt, "terms")
}

/// An import of two rows.
fn import(rt: &impl Abort, alloc: Global, dice: &mut Dice) -> String {
    let first = terms(rt, alloc, dice);
    let second = terms(rt, alloc, dice);
    let text = format!(in alloc; "\"import\",\"rows\":[{{{first}}},{{{second}}}]");
    text.expect(rt, "an import")
}

fn create(rt: &impl Abort, alloc: Global, dice: &mut Dice) -> String {
    let terms = terms(rt, alloc, dice);
    format!(in alloc; "\"create\",{terms}").expect(rt, "a create")
}

/// An amendment of one of the first so many authorizations.
fn amend(rt: &impl Abort, alloc: Global, dice: &mut Dice, made: u64) -> String {
    let number = dice.below(made).saturating_add(1);
    let max = dice.pick(rt, &MAX_LENGTHS);
    let until = dice.pick(rt, &LAST_DAYS);
    let text = format!(in alloc;
        "\"amend\",\"number\":{number},\"max\":{max},\"until\":\"{until}\""
    );
    text.expect(rt, "an amendment")
}

fn withdraw(rt: &impl Abort, alloc: Global, dice: &mut Dice, made: u64) -> String {
    let number = dice.below(made).saturating_add(1);
    format!(in alloc; "\"withdraw\",\"number\":{number}").expect(rt, "a withdrawal")
}

/// What `ann` commands at a holder, of whose authorizations so many may be made.
fn members_of_ann(rt: &impl Abort, alloc: Global, dice: &mut Dice, made: u64) -> String {
    match dice.below(8) {
        0..=2 => create(rt, alloc, dice),
        3 => import(rt, alloc, dice),
        4..=6 => amend(rt, alloc, dice, made),
        _ => withdraw(rt, alloc, dice, made),
    }
}

/// A command of `ann` on the authorizations of a holder, of which so many may be made.
fn command_of_ann(rt: &impl Abort, alloc: Global, dice: &mut Dice, made: u64) -> String {
    let holder = dice.pick(rt, &HOLDERS);
    let members = members_of_ann(rt, alloc, dice, made);
    let text = format!(in alloc; "ann {{\"holder\":\"{holder}\",\"do\":{members}}}");
    text.expect(rt, "a command")
}

/// What the operator commands of the addresses of a holder.
fn members_of_reg(rt: &impl Abort, alloc: Global, dice: &mut Dice, holder: &str) -> String {
    let text = match dice.below(4) {
        0 => format!(in alloc; "\"reclaim\",\"holder\":\"{holder}\""),
        1 => {
            let taker = dice.pick(rt, &HOLDERS);
            format!(in alloc; "\"transfer\",\"giver\":\"{holder}\",\"taker\":\"{taker}\"")
        }
        _ => format!(in alloc; "\"delegate\",\"holder\":\"{holder}\""),
    };
    text.expect(rt, "members")
}

/// A command of the operator on the addresses of the holders.
fn command_of_reg(rt: &impl Abort, alloc: Global, dice: &mut Dice) -> String {
    let prefix = dice.pick(rt, &HALVES);
    let holder = dice.pick(rt, &HOLDERS);
    let members = members_of_reg(rt, alloc, dice, holder);
    let text = format!(in alloc; "reg {{\"prefix\":\"{prefix}\",\"do\":{members}}}");
    text.expect(rt, "a command")
}

fn command(rt: &impl Abort, alloc: Global, dice: &mut Dice, made: u64) -> String {
    match dice.below(16) {
        0 => String::from_str(alloc, dice.pick(rt, &EXCEPTIONS)).expect(rt, "exceptions"),
        1 | 2 => command_of_reg(rt, alloc, dice),
        _ => command_of_ann(rt, alloc, dice, made),
    }
}

/// Two desks that are sent the same requests.
#[derive(Drop)]
struct Pair {
    keeping: Desk<MemStore>,
    building: Desk<MemStore>,
}

impl Pair {
    /// The reply, which is the same of both.
    fn ask(
        &mut self,
        rt: &impl Abort,
        alloc: Global,
        day: &str,
        request: &str,
        name: &str,
    ) -> String {
        let reply = reply_to(rt, alloc, &mut self.keeping, day, request);
        let other = reply_to(rt, alloc, &mut self.building, day, request);
        assert_reply(rt, &reply, &other, name, request);
        reply
    }

    /// The day is still kept after a request, unless that changed the exceptions.
    fn assert_kept(&self, rt: &impl Abort, request: &str) {
        let is_kept = self.keeping.kept() == Day::read(DAY.as_bytes());
        assert!(rt; is_kept != request.starts_with("slurm "), "{request}");
    }

    /// Both have the same day, which one of them builds anew.
    fn assert_same_day(&mut self, rt: &impl Abort, alloc: Global, name: &str) {
        reply_to(rt, alloc, &mut self.building, OTHER_DAY, PAYLOADS);
        self.ask(rt, alloc, DAY, VALIDITY, name);
        self.ask(rt, alloc, DAY, PAYLOADS, name);
    }
}

/// Both desks have the holders and the grants, and the day.
fn set_up(rt: &impl Abort, alloc: Global, pair: &mut Pair) {
    for request in SETUP {
        pair.ask(rt, alloc, DAY_OF_COMMANDS, request, "setup");
    }
    pair.assert_same_day(rt, alloc, "setup");
}

/// Sends a command to both desks, and answers whether it was accepted.
fn send(rt: &impl Abort, alloc: Global, pair: &mut Pair, dice: &mut Dice, made: u64) -> bool {
    let request = command(rt, alloc, dice, made / 8 + 1);
    let reply = pair.ask(rt, alloc, DAY_OF_COMMANDS, &request, "command");
    pair.assert_kept(rt, &request);
    pair.assert_same_day(rt, alloc, &request);
    !reply.starts_with("{\"denied\"")
}

/// Many of the commands are accepted.
fn assert_accepted(rt: &impl Abort, alloc: Global, pair: &mut Pair) {
    let mut dice = Dice { state: 1 };
    let mut accepted: u64 = 0;
    for made in 0..COMMANDS {
        if send(rt, alloc, pair, &mut dice, made) {
            accepted = accepted.saturating_add(1);
        }
    }
    assert!(rt; accepted > COMMANDS / 5, "{accepted} accepted");
}

#[test]
fn kept_day_is_as_one_that_is_built_anew(rt: HostRuntime) {
    let mut pair = Pair {
        keeping: new_desk(&rt, rt.alloc()),
        building: new_desk(&rt, rt.alloc()),
    };
    set_up(&rt, rt.alloc(), &mut pair);
    assert_accepted(&rt, rt.alloc(), &mut pair);
}

/// Commands at `alpha`, of which AS 64496 is authorized for 192.0.2.0/24 by number 1.
const AFTER_OPENING: &str = r#"
ann {"do":"create","holder":"alpha","asn":64496,"prefix":"192.0.2.0/24","max":24,"from":"2026-06-15","until":"2026-06-15"} => {"denied":"same"}
ann {"do":"create","holder":"alpha","asn":64497,"prefix":"192.0.2.0/25","max":25,"from":"2026-06-15","until":"2026-06-15"} => {"done":2}
ann {"do":"create","holder":"alpha","asn":64496,"prefix":"192.0.2.0/24","max":25,"from":"2026-06-16","until":"2026-12-31"} => {"done":3}
ann {"do":"create","holder":"alpha","asn":64496,"prefix":"198.51.100.0/24","max":24,"from":"2026-06-15","until":"2026-06-15"} => {"denied":"held"}
ann {"do":"amend","holder":"alpha","number":1,"max":25,"until":"2026-12-31"} => {"denied":"same"}
ann {"do":"amend","holder":"alpha","number":1,"max":26,"until":"2026-12-31"} => {"done":null}
ann {"do":"amend","holder":"alpha","number":2,"max":26,"until":"2026-06-14"} => {"denied":"dates"}
ann {"do":"amend","holder":"alpha","number":2,"max":26,"until":"2026-06-15"} => {"done":null}
ann {"do":"amend","holder":"alpha","number":3,"max":25,"until":"2026-06-30"} => {"done":null}
ann {"do":"amend","holder":"alpha","number":4,"max":25,"until":"2026-06-30"} => {"denied":"number"}
ann {"do":"withdraw","holder":"alpha","number":4} => {"denied":"number"}
ann {"do":"withdraw","holder":"alpha","number":2} => {"done":null}
ann {"do":"create","holder":"alpha","asn":64497,"prefix":"192.0.2.0/25","max":26,"from":"2026-01-01","until":"2026-06-15"} => {"done":4}
ann {"do":"withdraw","holder":"alpha","number":1} => {"done":null}
ann {"do":"create","holder":"alpha","asn":64496,"prefix":"192.0.2.0/24","max":26,"from":"2026-01-01","until":"2026-06-14"} => {"done":5}
ann {"do":"amend","holder":"alpha","number":5,"max":24,"until":"2026-06-15"} => {"done":null}
"#;

/// Both desks have the reply of a row, and then the same day, which one of them kept.
fn assert_row(rt: &impl Abort, alloc: Global, pair: &mut Pair, row: &str) {
    let (request, expected) = row_of(rt, row);
    let reply = pair.ask(rt, alloc, DAY_OF_COMMANDS, request, "after opening");
    assert_reply(rt, reply.trim(), expected, "after opening", request);
    pair.assert_kept(rt, request);
    pair.assert_same_day(rt, alloc, request);
}

fn assert_rows(rt: &impl Abort, alloc: Global, pair: &mut Pair) {
    pair.assert_same_day(rt, alloc, "opened");
    for row in AFTER_OPENING.trim().lines() {
        assert_row(rt, alloc, pair, row);
    }
}

/// The desks of two databases that have the same rows keep the day.
fn assert_opened(
    rt: &impl Abort,
    alloc: Global,
    first: Connection<MemStore>,
    second: Connection<MemStore>,
) {
    let mut pair = Pair {
        keeping: opened_desk(rt, alloc, first),
        building: opened_desk(rt, alloc, second),
    };
    assert_rows(rt, alloc, &mut pair);
}

#[test]
fn rows_of_another_program_keep_the_day(rt: HostRuntime) {
    let first = database(&rt, rt.alloc());
    let second = database(&rt, rt.alloc());
    assert_opened(&rt, rt.alloc(), first, second);
}

#[test]
fn moved_tables_keep_the_day(rt: HostRuntime) {
    let first = old_database(&rt, rt.alloc());
    let second = old_database(&rt, rt.alloc());
    assert_opened(&rt, rt.alloc(), first, second);
}

/// The database of a desk that was closed.
fn closed(rt: &impl Abort, alloc: Global) -> Connection<MemStore> {
    closed_after(rt, alloc, "closed", &[ALPHA, AUTHORIZATION])
}

#[test]
fn closed_desks_keep_the_day(rt: HostRuntime) {
    let first = closed(&rt, rt.alloc());
    let second = closed(&rt, rt.alloc());
    assert_opened(&rt, rt.alloc(), first, second);
}
