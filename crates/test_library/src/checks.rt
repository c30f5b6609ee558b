//! Checks of routes on VRPs: the lines of two files, and the line of the fault where one is refused.
use crate::sheet::Sheet;
use crate::tables::{assert_same, row_of, rows_of};
use cli_texts::{ProgramFault, check_on};
use std::alloc::Global;
use std::fmt::Write;
use std::process::Abort;
use streams::Device;

/// VRPs out of order, one of them twice.
const VRPS: &str = "asn,prefix,maxlength\n\
    AS64497,198.51.100.0/24,24\n\
    AS64496,198.51.100.0/22,24\n\
    AS64496,198.51.100.0/22,24\n";

const ROUTE: &str = "prefix,origin\n198.51.100.0/24,AS64496\n";

/// Payload files with a semicolon for each line feed, and the lines of their faults.
const BAD_PAYLOADS: &str = r#"
# header
 => roadesk: payloads header
;; => roadesk: payloads header
asn,prefix,max; => roadesk: payloads header
asn,prefix; => roadesk: payloads header
AS64496,198.51.100.0/22,24; => roadesk: payloads header
# fields
asn,prefix,maxlength;AS64496,198.51.100.0/22; => roadesk: payloads row 1: fields
asn,prefix,maxlength;AS64496,198.51.100.0/22,24,; => roadesk: payloads row 1: fields
# asn
asn,prefix,maxlength;AS4294967296,198.51.100.0/22,24; => roadesk: payloads row 1: asn
asn,prefix,maxlength;;AS64496,198.51.100.0/24,24;;as1,198.51.100.0/24,0; => roadesk: payloads row 2: asn
# prefix
asn,prefix,maxlength;AS64496,2001:DB8::/32,24; => roadesk: payloads row 1: prefix 2
asn,prefix,maxlength;AS64496,192.0.2.0/33,24; => roadesk: payloads row 1: prefix 3
# length
asn,prefix,maxlength;AS64496,192.0.2.0/24,23; => roadesk: payloads row 1: length
asn,prefix,maxlength;AS64496,192.0.2.0/24,33; => roadesk: payloads row 1: length
asn,prefix,maxlength;AS64496,192.0.2.0/24,024; => roadesk: payloads row 1: length
"#;

/// Route files with a semicolon for each line feed, and the lines of their faults.
const BAD_ROUTES: &str = r#"
# header
 => roadesk: routes header
prefix,asn; => roadesk: routes header
# fields
prefix,origin;198.51.100.0/24; => roadesk: routes row 1: fields
# prefix
prefix,origin;198.51.100.0/24,AS64496;198.51.100.1/24,64496; => roadesk: routes row 2: prefix 4
# origin
prefix,origin;198.51.100.0/24,none; => roadesk: routes row 1: origin
prefix,origin;198.51.100.0/24,AS00; => roadesk: routes row 1: origin
"#;

/// The payload file of examples/, and the routes of the other with the states that the guide prints.
const EXAMPLE_PAYLOADS: &str = "asn,prefix,maxlength\n\
    AS64496,192.0.2.0/24,24\n\
    AS64497,198.51.100.0/24,24\n\
    AS64496,198.51.100.0/22,24\n\
    AS64498,203.0.113.0/24,26\n\
    AS0,233.252.0.0/24,32\n\
    AS64499,2001:db8::/32,48\n\
    AS64500,2001:db8:1000::/36,36\n\
    AS65536,2001:db8:ffff::/48,48\n\
    AS64497,198.51.100.0/24,24\n";

const EXAMPLE_STATES: &str = "192.0.2.0/24,AS64496 => Valid
192.0.2.0/25,AS64496 => Invalid
192.0.2.0/24,NONE => Invalid
198.51.100.0/24,AS64496 => Valid
198.51.100.0/24,AS64497 => Valid
198.51.101.0/24,AS64496 => Valid
203.0.113.64/26,AS64498 => Valid
203.0.113.64/27,AS64498 => Invalid
233.252.0.0/24,AS0 => Invalid
2001:db8:1::/48,AS64499 => Valid
2001:db8:1::/49,AS64499 => Invalid
2001:db8:1000::/36,AS64500 => Valid
2001:db8:ffff::/48,AS65537 => Invalid
10.0.0.0/8,AS64496 => NotFound";

/// What a check wrote, and how it ended.
#[derive(Drop)]
struct Ended {
    written: Vec<u8>,
    result: Result<(), ProgramFault>,
}

/// The check writes to a drain that takes so many bytes.
fn checked(alloc: Global, payloads: &[u8], routes: &[u8], room: usize) -> Ended {
    let mut sheet = Sheet {
        bytes: Vec::new(alloc),
        room,
        is_interrupted: false,
    };
    let result = check_on(alloc, payloads, routes, &mut Device::new(&mut sheet));
    Ended {
        written: sheet.bytes,
        result,
    }
}

fn assert_prints(rt: &impl Abort, alloc: Global, payloads: &str, routes: &str, lines: &str) {
    let ended = checked(alloc, payloads.as_bytes(), routes.as_bytes(), 1000);
    assert_same(rt, ended.result, Ok(()), routes);
    assert_same(rt, ended.written.as_slice(), lines.as_bytes(), routes);
}

fn assert_fault(rt: &impl Abort, ended: &Ended, line: &str, status: u8) {
    let fault = ended.result.expect_err(rt, "a fault");
    assert_same(rt, fault.line().as_str(), line, line);
    assert_same(rt, fault.status(), status, line);
}

fn assert_refuses(rt: &impl Abort, alloc: Global, payloads: &[u8], routes: &[u8], line: &str) {
    let ended = checked(alloc, payloads, routes, 1000);
    assert_fault(rt, &ended, line, 5);
    assert_same(rt, ended.written.len(), 0, line);
}

/// The routes of these rows have these states.
fn assert_states(rt: &impl Abort, alloc: Global, payloads: &str, rows: &str) {
    let mut routes = String::from_str(alloc, "prefix,origin\n").expect(rt, "a text");
    let mut lines = String::new(alloc);
    for row in rows.lines() {
        let (route, state) = row_of(rt, row);
        write!(routes, "{route}\n").expect(rt, "a text");
        write!(lines, "{route},{state}\n").expect(rt, "a text");
    }
    assert_prints(rt, alloc, payloads, &routes, &lines);
}

/// Payload files with a semicolon for each line feed are refused with the lines of these rows.
fn assert_refuses_payloads(rt: &impl Abort, alloc: Global, rows: &str) {
    for row in &rows_of(rt, alloc, rows) {
        let payloads = row.input.replace(alloc, ';', "\n").expect(rt, "a text");
        assert_refuses(rt, alloc, payloads.as_bytes(), ROUTE.as_bytes(), row.output);
    }
}

/// Route files likewise.
fn assert_refuses_routes(rt: &impl Abort, alloc: Global, rows: &str) {
    for row in &rows_of(rt, alloc, rows) {
        let routes = row.input.replace(alloc, ';', "\n").expect(rt, "a text");
        assert_refuses(rt, alloc, VRPS.as_bytes(), routes.as_bytes(), row.output);
    }
}

#[test]
fn check_as_zero_never_matches(rt: HostRuntime) {
    let vrps = "asn,prefix,maxlength\nAS0,0.0.0.0/0,32\n";
    assert_states(&rt, rt.alloc(), vrps, "255.255.255.255/32,AS0 => Invalid");
}

#[test]
fn check_refuses_set_bit_and_shorter_vrp_matches(rt: HostRuntime) {
    let row =
        "\nasn,prefix,maxlength;AS64496,198.51.100.0/21,24;AS64497,198.51.100.0/24,24; => roadesk: payloads row 1: prefix 4";
    assert_refuses_payloads(&rt, rt.alloc(), row);
    let vrps = "asn,prefix,maxlength\nAS64496,198.51.100.0/22,24\nAS64497,198.51.100.0/24,24\n";
    assert_states(&rt, rt.alloc(), vrps, "198.51.100.0/24,AS64496 => Valid");
}

#[test]
fn check_payload_order_and_repeats(rt: HostRuntime) {
    let rows = "198.51.100.0/24,AS64496 => Valid
198.51.100.0/25,AS64496 => Invalid
198.51.100.0/24,NONE => Invalid
198.51.104.0/24,AS64496 => NotFound";
    assert_states(&rt, rt.alloc(), VRPS, rows);
}

/// More VRPs than a round limit, of which a route is judged on the last.
#[test]
fn check_takes_100_001_payloads(rt: HostRuntime) {
    let mut payloads = String::from_str(rt.alloc(), "asn,prefix,maxlength\n").expect(&rt, "a text");
    for asn in 1..100_002u32 {
        write!(payloads, "AS{asn},192.0.2.0/24,24\n").expect(&rt, "a text");
    }
    let rows = "192.0.2.0/24,AS100001 => Valid\n192.0.2.0/24,AS100002 => Invalid";
    assert_states(&rt, rt.alloc(), &payloads, rows);
}

#[test]
fn check_refuses_route_origin(rt: HostRuntime) {
    let row =
        "\nprefix,origin;198.51.100.0/24,AS64496;198.51.100.0/25,64496; => roadesk: routes row 2: origin";
    assert_refuses_routes(&rt, rt.alloc(), row);
}

/// The last form has CR LF, quotes, no last LF, empty lines and a byte order mark.
#[test]
fn check_takes_headers_alone_and_each_form_of_csv(rt: HostRuntime) {
    assert_states(&rt, rt.alloc(), VRPS, "");
    assert_prints(&rt, rt.alloc(), VRPS, "prefix,origin", "");
    let no_vrp = "asn,prefix,maxlength\n";
    assert_states(&rt, rt.alloc(), no_vrp, "2001:db8::/32,AS64496 => NotFound");
    let payloads = "\u{feff}asn,prefix,maxlength\r\n\r\n\"AS64496\",\"2001:db8::/32\",48\r\n\r\n";
    let routes =
        "\n\"prefix\",origin\r\n\"2001:db8:1::/48\",AS64496\r\n\n2001:db8::/31,\"AS64496\"";
    let lines = "2001:db8:1::/48,AS64496,Valid\n2001:db8::/31,AS64496,NotFound\n";
    assert_prints(&rt, rt.alloc(), payloads, routes, lines);
}

#[test]
fn check_refuses_bad_files(rt: HostRuntime) {
    assert_refuses_payloads(&rt, rt.alloc(), BAD_PAYLOADS);
    assert_refuses_routes(&rt, rt.alloc(), BAD_ROUTES);
    let no_text = b"asn,prefix,maxlength\nAS64496,198.51.100.\xff/22,24\n";
    let prefix_fault = "roadesk: payloads row 1: prefix 1";
    assert_refuses(&rt, rt.alloc(), no_text, ROUTE.as_bytes(), prefix_fault);
}

#[test]
fn check_judges_payloads_before_routes(rt: HostRuntime) {
    let no_length = b"asn,prefix,maxlength\nAS64496,192.0.2.0/24,\n";
    let length_fault = "roadesk: payloads row 1: length";
    assert_refuses(&rt, rt.alloc(), no_length, b"", length_fault);
}

const TWO_ROUTES: &str = "prefix,origin\n198.51.100.0/24,AS64496\n198.51.104.0/24,AS64496\n";

const TWO_STATES: &str = "198.51.100.0/24,AS64496,Valid\n198.51.104.0/24,AS64496,NotFound\n";

#[test]
fn ample_drain(rt: HostRuntime) {
    assert_prints(&rt, rt.alloc(), VRPS, TWO_ROUTES, TWO_STATES);
}

/// Of a drain that has room for these bytes alone.
fn assert_drain_fails(rt: &impl Abort, alloc: Global, bytes: &[u8]) {
    let room = bytes.len();
    let ended = checked(alloc, VRPS.as_bytes(), TWO_ROUTES.as_bytes(), room);
    assert_fault(rt, &ended, "roadesk: stream", 3);
    assert_same(rt, ended.written.as_slice(), bytes, room);
}

#[test]
fn failing_drain(rt: HostRuntime) {
    for room in 0..TWO_STATES.len() {
        assert_drain_fails(&rt, rt.alloc(), &TWO_STATES.as_bytes()[..room]);
    }
}

#[test]
fn example_files_are_judged_as_the_guide_prints(rt: HostRuntime) {
    assert_states(&rt, rt.alloc(), EXAMPLE_PAYLOADS, EXAMPLE_STATES);
}
