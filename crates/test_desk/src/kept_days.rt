//! The day that a desk keeps: its VRPs follow what begins and ends on it, whatever the day of the
//! command.
//!
//! Beside the rows of a script there are two that call the desk: `payloads`, for the VRPs of the day,
//! which are written as the reply is, and `kept`, for the day that is kept, if one is.
use crate::ready::{on_new_desk, row_of, value_of};
use crate::scripts::{
    FIRST_DAY, assert_reply, assert_script, push_line, reply_to, set_day, setups_of, text_of,
};
use addr::Day;
use desk::{Desk, Reply, Vrps};
use sqlite::MemStore;
use std::alloc::Global;
use std::process::Abort;
use test_library::listing::listed;

const SCRIPTS: &str = r#"
# no_day_is_kept_before_a_question after holder, authorization
kept => none
ann {"do":"list","holder":"alpha"} => {"listed":[{"number":1,"asn":64496,"prefix":"192.0.2.0/24","max":24,"from":"2026-01-01","until":"2026-12-31"}]}
kept => none
# payloads_on_days_up_and_down after holder, authorization
day 2026-12-31
payloads => {"payloads":[{"asn":64496,"prefix":"192.0.2.0/24","max":24}]}
kept => 2026-12-31
day 2027-01-01
payloads => {"payloads":[]}
kept => 2027-01-01
day 2025-12-31
payloads => {"payloads":[]}
kept => 2025-12-31
day 2026-12-31
payloads => {"payloads":[{"asn":64496,"prefix":"192.0.2.0/24","max":24}]}
kept => 2026-12-31
# asserted_vrp_stays_after_withdraw after holder, authorization, exceptions
payloads => {"payloads":[{"asn":64496,"prefix":"192.0.2.0/24","max":24}]}
ann {"do":"withdraw","holder":"alpha","number":1} => {"done":null}
kept => 2026-03-01
payloads => {"payloads":[{"asn":64496,"prefix":"192.0.2.0/24","max":24}]}
slurm ; => {"done":null}
payloads => {"payloads":[]}
# kept_day_after_withdraw_denial_and_slurm after holder, authorization
day 2026-12-31
payloads => {"payloads":[{"asn":64496,"prefix":"192.0.2.0/24","max":24}]}
day 2026-03-01
ann {"do":"withdraw","holder":"alpha","number":1} => {"done":null}
kept => 2026-12-31
bob {"do":"list","holder":"alpha"} => {"denied":"grant"}
kept => 2026-12-31
slurm ; => {"done":null}
kept => none
day 2026-12-31
payloads => {"payloads":[]}
# same_file_again_drops_the_day after holder, authorization, exceptions
payloads => {"payloads":[{"asn":64496,"prefix":"192.0.2.0/24","max":24}]}
slurm {"prefix":"192.0.2.0/24"} ; {"asn":64496,"prefix":"192.0.2.0/24","maxPrefixLength":24} => {"done":null}
kept => none
payloads => {"payloads":[{"asn":64496,"prefix":"192.0.2.0/24","max":24}]}
kept => 2026-03-01
# validity_of_another_day_moves_the_kept_one after holder, authorization
payloads => {"payloads":[{"asn":64496,"prefix":"192.0.2.0/24","max":24}]}
day 2026-12-31
bob {"do":"validity","routes":[{"prefix":"192.0.2.0/24","origin":64496},{"prefix":"192.0.2.0/25","origin":64496}]} => {"answers":["Valid","Invalid"]}
kept => 2026-12-31
day 2027-01-01
bob {"do":"validity","routes":[{"prefix":"192.0.2.0/24","origin":64496}]} => {"answers":["NotFound"]}
kept => 2027-01-01
bob {"do":"payloads"} => {"payloads":[]}
day 2026-03-01
bob {"do":"payloads"} => {"payloads":[{"asn":64496,"prefix":"192.0.2.0/24","max":24}]}
kept => 2026-03-01
# create_on_another_day_than_the_kept_one after holder, authorization
day 2026-12-31
payloads => {"payloads":[{"asn":64496,"prefix":"192.0.2.0/24","max":24}]}
day 2026-03-01
ann {"do":"create","holder":"alpha","asn":64497,"prefix":"192.0.2.0/25","max":25,"from":"2026-12-31","until":"2026-12-31"} => {"done":2}
ann {"do":"create","holder":"alpha","asn":64498,"prefix":"192.0.2.0/25","max":25,"from":"2026-03-01","until":"2026-12-30"} => {"done":3}
kept => 2026-12-31
day 2026-12-31
payloads => {"payloads":[{"asn":64496,"prefix":"192.0.2.0/24","max":24},{"asn":64497,"prefix":"192.0.2.0/25","max":25}]}
day 2026-03-01
payloads => {"payloads":[{"asn":64496,"prefix":"192.0.2.0/24","max":24},{"asn":64498,"prefix":"192.0.2.0/25","max":25}]}
# create_after_withdraw_of_the_same_vrp after holder, authorization
payloads => {"payloads":[{"asn":64496,"prefix":"192.0.2.0/24","max":24}]}
ann {"do":"withdraw","holder":"alpha","number":1} => {"done":null}
payloads => {"payloads":[]}
ann {"do":"create","holder":"alpha","asn":64496,"prefix":"192.0.2.0/24","max":24,"from":"2026-01-01","until":"2026-12-31"} => {"done":2}
payloads => {"payloads":[{"asn":64496,"prefix":"192.0.2.0/24","max":24}]}
kept => 2026-03-01
# amendment_to_the_same_values after holder, authorization
payloads => {"payloads":[{"asn":64496,"prefix":"192.0.2.0/24","max":24}]}
ann {"do":"amend","holder":"alpha","number":1,"max":24,"until":"2026-12-31"} => {"done":null}
kept => 2026-03-01
payloads => {"payloads":[{"asn":64496,"prefix":"192.0.2.0/24","max":24}]}
# amendment_of_the_length after holder, authorization
payloads => {"payloads":[{"asn":64496,"prefix":"192.0.2.0/24","max":24}]}
ann {"do":"amend","holder":"alpha","number":1,"max":25,"until":"2026-12-31"} => {"done":null}
kept => 2026-03-01
payloads => {"payloads":[{"asn":64496,"prefix":"192.0.2.0/24","max":25}]}
# amendment_of_the_last_day_alone after holder, authorization
day 2026-12-31
payloads => {"payloads":[{"asn":64496,"prefix":"192.0.2.0/24","max":24}]}
day 2026-03-01
ann {"do":"amend","holder":"alpha","number":1,"max":24,"until":"2026-12-30"} => {"done":null}
kept => 2026-12-31
day 2026-12-31
payloads => {"payloads":[]}
day 2026-03-01
ann {"do":"amend","holder":"alpha","number":1,"max":24,"until":"2026-12-31"} => {"done":null}
kept => 2026-12-31
day 2026-12-31
payloads => {"payloads":[{"asn":64496,"prefix":"192.0.2.0/24","max":24}]}
# amendment_to_a_filtered_vrp after holder, authorization
slurm {"prefix":"192.0.2.0/24"} ; => {"done":null}
payloads => {"payloads":[]}
ann {"do":"amend","holder":"alpha","number":1,"max":25,"until":"2026-12-31"} => {"done":null}
kept => 2026-03-01
payloads => {"payloads":[]}
# amendment_from_an_asserted_vrp_to_a_filtered_one after holder, authorization, exceptions
payloads => {"payloads":[{"asn":64496,"prefix":"192.0.2.0/24","max":24}]}
ann {"do":"amend","holder":"alpha","number":1,"max":25,"until":"2026-12-31"} => {"done":null}
kept => 2026-03-01
payloads => {"payloads":[{"asn":64496,"prefix":"192.0.2.0/24","max":24}]}
# amendment_from_an_asserted_vrp_to_another after holder, authorization
slurm ; {"asn":64496,"prefix":"192.0.2.0/24"} => {"done":null}
payloads => {"payloads":[{"asn":64496,"prefix":"192.0.2.0/24","max":24}]}
ann {"do":"amend","holder":"alpha","number":1,"max":25,"until":"2026-12-31"} => {"done":null}
kept => 2026-03-01
payloads => {"payloads":[{"asn":64496,"prefix":"192.0.2.0/24","max":24},{"asn":64496,"prefix":"192.0.2.0/24","max":25}]}
# import_of_a_filtered_vrp_and_an_asserted_one after holder, authorization
slurm {"asn":64497} ; {"asn":64498,"prefix":"192.0.2.128/25"} => {"done":null}
payloads => {"payloads":[{"asn":64496,"prefix":"192.0.2.0/24","max":24},{"asn":64498,"prefix":"192.0.2.128/25","max":25}]}
ann {"do":"import","holder":"alpha","rows":[{"asn":64497,"prefix":"192.0.2.0/25","max":25,"from":"2026-01-01","until":"2026-12-31"},{"asn":64498,"prefix":"192.0.2.128/25","max":25,"from":"2026-01-01","until":"2026-12-31"}]} => {"made":2,"present":0}
kept => 2026-03-01
payloads => {"payloads":[{"asn":64496,"prefix":"192.0.2.0/24","max":24},{"asn":64498,"prefix":"192.0.2.128/25","max":25}]}
slurm ; => {"done":null}
payloads => {"payloads":[{"asn":64496,"prefix":"192.0.2.0/24","max":24},{"asn":64497,"prefix":"192.0.2.0/25","max":25},{"asn":64498,"prefix":"192.0.2.128/25","max":25}]}
# import_of_which_one_row_is_present after holder, authorization
payloads => {"payloads":[{"asn":64496,"prefix":"192.0.2.0/24","max":24}]}
ann {"do":"import","holder":"alpha","rows":[{"asn":64496,"prefix":"192.0.2.0/24","max":24,"from":"2026-01-01","until":"2026-12-31"},{"asn":64496,"prefix":"192.0.2.0/25","max":26,"from":"2026-01-01","until":"2026-12-31"}]} => {"made":1,"present":1}
kept => 2026-03-01
payloads => {"payloads":[{"asn":64496,"prefix":"192.0.2.0/24","max":24},{"asn":64496,"prefix":"192.0.2.0/25","max":26}]}
# import_of_rows_that_are_present after holder, authorization
payloads => {"payloads":[{"asn":64496,"prefix":"192.0.2.0/24","max":24}]}
ann {"do":"import","holder":"alpha","rows":[{"asn":64496,"prefix":"192.0.2.0/24","max":24,"from":"2026-01-01","until":"2026-12-31"}]} => {"made":0,"present":1}
kept => 2026-03-01
payloads => {"payloads":[{"asn":64496,"prefix":"192.0.2.0/24","max":24}]}
# import_of_a_row_that_begins_later after holder, authorization
payloads => {"payloads":[{"asn":64496,"prefix":"192.0.2.0/24","max":24}]}
ann {"do":"import","holder":"alpha","rows":[{"asn":64497,"prefix":"192.0.2.0/25","max":25,"from":"2026-03-02","until":"2026-12-31"}]} => {"made":1,"present":0}
kept => 2026-03-01
payloads => {"payloads":[{"asn":64496,"prefix":"192.0.2.0/24","max":24}]}
# amendment_of_one_that_begins_later after holder, authorization
payloads => {"payloads":[{"asn":64496,"prefix":"192.0.2.0/24","max":24}]}
ann {"do":"create","holder":"alpha","asn":64497,"prefix":"192.0.2.0/25","max":25,"from":"2026-03-02","until":"2026-12-31"} => {"done":2}
kept => 2026-03-01
ann {"do":"amend","holder":"alpha","number":2,"max":26,"until":"2026-12-31"} => {"done":null}
kept => 2026-03-01
payloads => {"payloads":[{"asn":64496,"prefix":"192.0.2.0/24","max":24}]}
# create_that_a_filter_takes_out after holder, authorization
slurm {"asn":64497} ; => {"done":null}
payloads => {"payloads":[{"asn":64496,"prefix":"192.0.2.0/24","max":24}]}
ann {"do":"create","holder":"alpha","asn":64497,"prefix":"192.0.2.0/25","max":25,"from":"2026-01-01","until":"2026-12-31"} => {"done":2}
kept => 2026-03-01
payloads => {"payloads":[{"asn":64496,"prefix":"192.0.2.0/24","max":24}]}
# create_of_an_asserted_vrp after holder, authorization
slurm ; {"asn":64498,"prefix":"192.0.2.128/25"} => {"done":null}
payloads => {"payloads":[{"asn":64496,"prefix":"192.0.2.0/24","max":24},{"asn":64498,"prefix":"192.0.2.128/25","max":25}]}
ann {"do":"create","holder":"alpha","asn":64498,"prefix":"192.0.2.128/25","max":25,"from":"2026-01-01","until":"2026-12-31"} => {"done":2}
kept => 2026-03-01
payloads => {"payloads":[{"asn":64496,"prefix":"192.0.2.0/24","max":24},{"asn":64498,"prefix":"192.0.2.128/25","max":25}]}
# transfer_that_ends_two after holder, authorization, import, other holder
bea {"do":"create","holder":"beta","asn":64500,"prefix":"198.51.100.0/24","max":24,"from":"2026-01-01","until":"2026-12-31"} => {"done":1}
day 2026-12-31
payloads => {"payloads":[{"asn":64496,"prefix":"192.0.2.0/24","max":24},{"asn":64496,"prefix":"192.0.2.0/25","max":25},{"asn":64497,"prefix":"192.0.2.128/25","max":26},{"asn":64500,"prefix":"198.51.100.0/24","max":24}]}
day 2026-03-01
reg {"do":"transfer","prefix":"192.0.2.0/25","giver":"alpha","taker":"beta"} => {"done":null}
kept => 2026-12-31
day 2026-12-31
payloads => {"payloads":[{"asn":64497,"prefix":"192.0.2.128/25","max":26},{"asn":64500,"prefix":"198.51.100.0/24","max":24}]}
day 2026-03-01
reg {"do":"transfer","prefix":"192.0.2.0/25","giver":"beta","taker":"alpha"} => {"done":null}
kept => 2026-12-31
day 2026-12-31
payloads => {"payloads":[{"asn":64497,"prefix":"192.0.2.128/25","max":26},{"asn":64500,"prefix":"198.51.100.0/24","max":24}]}
# reclaim_that_ends_two after holder, authorization, import
payloads => {"payloads":[{"asn":64496,"prefix":"192.0.2.0/24","max":24},{"asn":64496,"prefix":"192.0.2.0/25","max":25},{"asn":64497,"prefix":"192.0.2.128/25","max":26}]}
reg {"do":"reclaim","holder":"alpha","prefix":"192.0.2.192/26"} => {"done":null}
kept => 2026-03-01
payloads => {"payloads":[{"asn":64496,"prefix":"192.0.2.0/25","max":25}]}
# reclaim_of_what_an_assertion_names after holder, authorization, exceptions
payloads => {"payloads":[{"asn":64496,"prefix":"192.0.2.0/24","max":24}]}
reg {"do":"reclaim","holder":"alpha","prefix":"192.0.2.0/24"} => {"done":null}
kept => 2026-03-01
payloads => {"payloads":[{"asn":64496,"prefix":"192.0.2.0/24","max":24}]}
# denied_and_malformed_requests_leave_the_kept_day after holder, authorization
payloads => {"payloads":[{"asn":64496,"prefix":"192.0.2.0/24","max":24}]}
day 2026-12-31
bob {"do":"create","holder":"alpha","asn":64497,"prefix":"192.0.2.0/25","max":25,"from":"2026-01-01","until":"2026-12-31"} => {"denied":"grant"}
ann {"do":"create","holder":"alpha","asn":64496,"prefix":"192.0.2.0/24","max":24,"from":"2026-01-01","until":"2026-12-31"} => {"denied":"same"}
ann {"do":"amend","holder":"alpha","number":1,"max":23,"until":"2026-12-31"} => {"denied":"length"}
ann {"do":"withdraw","holder":"alpha","number":2} => {"denied":"number"}
ann {"do":"import","holder":"alpha","rows":[{"asn":64497,"prefix":"192.0.2.0/25","max":25,"from":"2026-01-01","until":"2026-12-31"},{"asn":64497,"prefix":"198.51.100.0/24","max":24,"from":"2026-01-01","until":"2026-12-31"}]} => {"denied":"held","row":2}
reg {"do":"transfer","prefix":"192.0.2.0/25","giver":"alpha","taker":"beta"} => {"denied":"holder"}
reg {"do":"reclaim","holder":"alpha","prefix":"198.51.100.0/24"} => {"denied":"held"}
ann {"do":"slurm","file":{"slurmVersion":1,"validationOutputFilters":{"prefixFilters":[{"prefix":"192.0.2.0/24"}],"bgpsecFilters":[]},"locallyAddedAssertions":{"prefixAssertions":[],"bgpsecAssertions":[]}}} => {"denied":"operator"}
slurm {} ; => {"malformed":11,"slurm":9}
bob {"do":"payloads","holder":"alpha"} => {"malformed":2}
Bob {"do":"payloads"} => {"malformed":4}
kept => 2026-03-01
day 2026-03-01
payloads => {"payloads":[{"asn":64496,"prefix":"192.0.2.0/24","max":24}]}
# commands_on_holders_and_grants_leave_the_kept_day after holder, authorization
payloads => {"payloads":[{"asn":64496,"prefix":"192.0.2.0/24","max":24}]}
day 2026-03-02
reg {"do":"register","holder":"beta"} => {"done":null}
kept => 2026-03-01
reg {"do":"delegate","holder":"beta","prefix":"198.51.100.0/24"} => {"done":null}
kept => 2026-03-01
ann {"do":"grant","holder":"alpha","name":"eve","role":"clerk","scope":"all","until":"2026-12-31"} => {"done":2}
kept => 2026-03-01
ann {"do":"revoke","holder":"alpha","number":2} => {"done":null}
kept => 2026-03-01
ann {"do":"revoke","holder":"alpha","number":1} => {"done":null}
kept => 2026-03-01
day 2026-03-01
payloads => {"payloads":[{"asn":64496,"prefix":"192.0.2.0/24","max":24}]}
# questions_about_authorizations_leave_the_kept_day after holder, authorization
payloads => {"payloads":[{"asn":64496,"prefix":"192.0.2.0/24","max":24}]}
day 2026-12-31
ann {"do":"show","holder":"alpha","number":1} => {"shown":{"number":1,"asn":64496,"prefix":"192.0.2.0/24","max":24,"from":"2026-01-01","until":"2026-12-31"}}
ann {"do":"content","holder":"alpha","number":1} => {"content":"3017020300fbf03010300e0402000130083006030400c00002"}
ann {"do":"list","holder":"alpha"} => {"listed":[{"number":1,"asn":64496,"prefix":"192.0.2.0/24","max":24,"from":"2026-01-01","until":"2026-12-31"}]}
ann {"do":"whatif","holder":"alpha","changes":[{"do":"withdraw","number":1}],"routes":[{"prefix":"192.0.2.0/24","origin":64496}]} => {"report":[["Valid","NotFound"]]}
kept => 2026-03-01
day 2026-03-01
payloads => {"payloads":[{"asn":64496,"prefix":"192.0.2.0/24","max":24}]}
"#;

/// The VRPs of the day as they are lent, written as a reply is.
fn payloads(rt: &impl Abort, alloc: Global, desk: &mut Desk<MemStore>, day: &str) -> String {
    let day = Day::read(day.as_bytes()).expect(rt, "a day");
    let index = desk.payloads(day).expect(rt, "VRPs");
    let vrps = value_of(rt, listed(alloc, index), "list");
    text_of(rt, alloc, &[Reply::Payloads(Vrps::from(vrps))])
}

/// What the desk answers on a day to the input of a row, with a line feed after it.
fn answer(
    rt: &impl Abort,
    alloc: Global,
    desk: &mut Desk<MemStore>,
    day: &str,
    input: &str,
) -> String {
    if input == "payloads" {
        payloads(rt, alloc, desk, day)
    } else {
        reply_to(rt, alloc, desk, day, input)
    }
}

/// The answer to a row of a script on a day.
fn assert_answer(
    rt: &impl Abort,
    alloc: Global,
    desk: &mut Desk<MemStore>,
    day: &str,
    row: &str,
    name: &str,
) {
    let (input, output) = row_of(rt, row);
    if input == "kept" {
        assert!(rt;
            desk.kept() == Day::read(output.as_bytes()),
            "{name}: {row}"
        );
    } else {
        let answered = answer(rt, alloc, desk, day, input);
        assert_reply(rt, answered.trim(), output, name, input);
    }
}

fn assert_answers(
    rt: &impl Abort,
    alloc: Global,
    desk: &mut Desk<MemStore>,
    name: &str,
    lines: &str,
) {
    let mut day = String::from_str(alloc, FIRST_DAY).expect(rt, "a day");
    for line in lines.lines() {
        if let Some(next) = line.strip_prefix("day ") {
            set_day(rt, &mut day, next);
        } else if !line.is_empty() {
            assert_answer(rt, alloc, desk, &day, line, name);
        }
    }
}

/// The script with a request in place of each call for VRPs, and without the day that is kept.
fn as_requests(rt: &impl Abort, alloc: Global, script: &str) -> String {
    let mut text = String::new(alloc);
    for line in script.lines() {
        if let Some(output) = line.strip_prefix("payloads => ") {
            text.push_str(r#"bob {"do":"payloads"} => "#)
                .expect(rt, "a longer text");
            push_line(rt, &mut text, output);
        } else if !line.starts_with("kept => ") {
            push_line(rt, &mut text, line);
        }
    }
    text
}

/// The desk answers the rows of a script, after those of its setups.
fn assert_follows(rt: &impl Abort, alloc: Global, desk: &mut Desk<MemStore>, script: &str) {
    let (heading, lines) = script.split_once('\n').expect(rt, "lines");
    for setup in &setups_of(rt, alloc, heading) {
        assert_answers(rt, alloc, desk, heading, setup);
    }
    assert_answers(rt, alloc, desk, heading, lines);
}

#[test]
fn kept_day_follows_commands(rt: HostRuntime) {
    for script in SCRIPTS.split("\n# ").skip(1) {
        on_new_desk(&rt, rt.alloc(), |desk| {
            assert_follows(&rt, rt.alloc(), desk, script);
        });
    }
}

#[test]
fn scripts_of_kept_days_have_their_replies(rt: HostRuntime) {
    for script in SCRIPTS.split("\n# ").skip(1) {
        let script = as_requests(&rt, rt.alloc(), script);
        assert_script(&rt, rt.alloc(), &script);
    }
}
