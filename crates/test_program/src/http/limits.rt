//! The limits of heads, of fields and of bodies.
use super::{AT_ONCE, Manner, assert_row, assert_served, assert_spelled, serve};
use crate::desks::{assert_same, on_desk, rows_of};
use desk::Desk;
use sqlite::MemStore;
use std::alloc::Global;
use std::process::Abort;
use test_library::rows::{Row, nested};

const HEAD_LIMIT: usize = 8192;

const BODY_LIMIT: usize = 1_048_576;

/// The beginning of a request for VRPs.
const HEAD: &str = "GET /payloads HTTP/1.1\r\nDesk-Caller: bob\r\n";

/// A request for VRPs whose head has so many bytes.
fn long_head(rt: &impl Abort, alloc: Global, length: usize) -> String {
    let others = HEAD.len() + "Filler: ".len() + "\r\n\r\n".len();
    let filler = "x".repeat(alloc, length.saturating_sub(others));
    let filler = filler.expect(rt, "a filler");
    format!(in alloc; "{HEAD}Filler: {filler}\r\n\r\n").expect(rt, "a head")
}

/// A request for VRPs with so many fields.
fn many_fields(rt: &impl Abort, alloc: Global, count: usize) -> String {
    let fillers = "Filler: x\r\n".repeat(alloc, count.saturating_sub(1));
    let fillers = fillers.expect(rt, "fillers");
    format!(in alloc; "{HEAD}{fillers}\r\n").expect(rt, "a head")
}

/// The response to a request for VRPs, of which there are none.
const READ: &str = "CSV asn,prefix,maxlength;";

const REFUSED: &str = "400 {\"error\":400}";

/// The longest head, and one that is too long.
#[test]
fn head_limit(rt: HostRuntime) {
    on_desk(&rt, |desk| {
        let head = long_head(&rt, rt.alloc(), HEAD_LIMIT);
        assert_spelled(&rt, rt.alloc(), desk, &head, READ);
        let longer = long_head(&rt, rt.alloc(), HEAD_LIMIT + 1);
        assert_spelled(&rt, rt.alloc(), desk, &longer, REFUSED);
    });
}

/// As many fields as a head may have, and one more.
#[test]
fn field_limit(rt: HostRuntime) {
    on_desk(&rt, |desk| {
        let fields = many_fields(&rt, rt.alloc(), 32);
        assert_spelled(&rt, rt.alloc(), desk, &fields, READ);
        let more = many_fields(&rt, rt.alloc(), 33);
        assert_spelled(&rt, rt.alloc(), desk, &more, REFUSED);
    });
}

/// A connection that fails after these bytes is answered before, and so many of them are left unread.
fn assert_refused_before(
    rt: &impl Abort,
    alloc: Global,
    desk: &mut Desk<MemStore>,
    bytes: &[u8],
    unread: usize,
) {
    let manner = Manner {
        fails: true,
        ..AT_ONCE
    };
    let outcome = serve(rt, alloc, desk, bytes, manner);
    assert_served(rt, alloc, &outcome, REFUSED, ("unread", unread));
    assert_same(rt, outcome.unread, unread, "unread");
}

/// A head that has no end within the limit is refused, and what follows the limit is not read.
#[test]
fn head_without_an_end(rt: HostRuntime) {
    on_desk(&rt, |desk| {
        let head = long_head(&rt, rt.alloc(), HEAD_LIMIT + 1);
        let beginning = head.as_bytes().get(..HEAD_LIMIT);
        let beginning = beginning.expect(&rt, "a long head");
        assert_refused_before(&rt, rt.alloc(), desk, beginning, 0);
        assert_refused_before(&rt, rt.alloc(), desk, head.as_bytes(), 1);
    });
}

/// The body of a request for validity, padded with spaces to so many bytes, has this response.
fn assert_padded(
    rt: &impl Abort,
    alloc: Global,
    desk: &mut Desk<MemStore>,
    length: usize,
    output: &str,
) {
    let body = r#"{"routes":[{"prefix":"192.0.2.0/24","origin":null}]}"#;
    let spaces = " ".repeat(alloc, length.saturating_sub(body.len()));
    let spaces = spaces.expect(rt, "spaces");
    let row = format!(in alloc; "POST /validity bob {body}{spaces}").expect(rt, "a row");
    assert_row(rt, alloc, desk, &row, output);
}

/// The longest body, and one that is too long.
#[test]
fn body_limit(rt: HostRuntime) {
    on_desk(&rt, |desk| {
        let answered = r#"200 {"answers":["NotFound"]}"#;
        assert_padded(&rt, rt.alloc(), desk, BODY_LIMIT, answered);
        let refused = r#"413 {"error":413}"#;
        assert_padded(&rt, rt.alloc(), desk, BODY_LIMIT + 1, refused);
    });
}

/// How deep an array nests, requests with it in the place of a number sign, and their responses.
const NESTED_BODIES: &str = r#"
# nesting_limits
127 POST /holders/alpha/auths ann # => 400 {"malformed":2}
128 POST /holders/alpha/auths ann # => 400 {"malformed":1}
127 PUT /slurm reg # => 400 {"malformed":11,"slurm":2}
128 PUT /slurm reg # => 400 {"malformed":11,"slurm":1}
127 PUT /slurms reg # => 400 {"malformed":2}
128 PUT /slurms reg # => 400 {"malformed":1}
"#;

const NESTED_ROUTES: &str = r#"
# body_nests_at_most_127_levels
126 POST /validity bob {"routes":#} => 400 {"malformed":2}
127 POST /validity bob {"routes":#} => 400 {"malformed":1}
"#;

/// The request with the nested array has the response of its row.
fn assert_nested(rt: &impl Abort, alloc: Global, desk: &mut Desk<MemStore>, row: &Row<'_>) {
    let (depth, request) = row.input.split_once(' ').expect(rt, "a depth");
    let depth = depth.parse::<u32>().expect(rt, depth);
    let array = nested(alloc, depth).expect(rt, "an array");
    let request = request.replace(alloc, '#', &array).expect(rt, "a request");
    assert_row(rt, alloc, desk, &request, row.output);
}

#[test]
fn nesting_limits(rt: HostRuntime) {
    for row in &rows_of(&rt, rt.alloc(), NESTED_BODIES) {
        on_desk(&rt, |desk| {
            assert_nested(&rt, rt.alloc(), desk, row);
        });
    }
}

#[test]
fn body_nests_at_most_127_levels(rt: HostRuntime) {
    on_desk(&rt, |desk| {
        for row in &rows_of(&rt, rt.alloc(), NESTED_ROUTES) {
            assert_nested(&rt, rt.alloc(), desk, row);
        }
    });
}
