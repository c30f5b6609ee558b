//! The texts of replies, and writes that fail.
use crate::ready::assert_same;
use addr::{Asn, Day, Prefix, Vrp};
use desk::{Reply, Vrps};
use payload::Validity;
use policy::{Auth, RoaPrefixes, Rule};
use std::alloc::Global;
use std::process::Abort;
use test_library::sheet::Sheet;
use web::{Device, Failed, Malformed, short_text, write_reply};

fn auth(rt: &impl Abort, alloc: Global, number: u32, prefix: &str) -> Auth {
    let prefix = Prefix::read(prefix.as_bytes()).expect(rt, "a prefix");
    let from = Day::read(b"2026-01-01").expect(rt, "a day");
    let until = Day::read(b"2026-12-31").expect(rt, "a day");
    Auth {
        number,
        asn: Asn(64496),
        entries: RoaPrefixes::one(alloc, prefix, prefix.length).expect(rt, "entries"),
        from,
        until,
    }
}

fn vrp(rt: &impl Abort, asn: u32, prefix: &str, max: u8) -> Vrp {
    let prefix = Prefix::read(prefix.as_bytes()).expect(rt, "a prefix");
    Vrp::from_parts(prefix, max, Asn(asn)).expect(rt, "a VRP")
}

/// What the reply writes to a device that takes `room` bytes.
fn written(alloc: Global, reply: &Reply, room: usize) -> (Result<(), Failed>, Vec<u8>) {
    let mut sheet = Sheet {
        bytes: Vec::new(alloc),
        room,
        is_interrupted: false,
    };
    let result = {
        let mut drain = Device::new(&mut sheet);
        write_reply(reply, &mut drain)
    };
    (result, sheet.bytes)
}

/// The reply writes this text, which is its short text if it has one.
fn assert_printed(rt: &impl Abort, alloc: Global, reply: &Reply, text: &str) {
    let (result, bytes) = written(alloc, reply, usize::MAX);
    assert_same(rt, result, Ok(()), text);
    assert_same(rt, bytes.as_slice(), text.as_bytes(), text);
    if let Some(short) = short_text(reply) {
        assert_same(rt, short.as_str(), text, "short text");
    }
}

/// The reply has this text as its short one, and writes it.
fn assert_short(rt: &impl Abort, alloc: Global, reply: &Reply, text: &str) {
    assert!(rt; short_text(reply).is_some(), "of {text}");
    assert_printed(rt, alloc, reply, text);
}

#[test]
fn prints_short_replies(rt: HostRuntime) {
    let alloc = rt.alloc();
    assert_short(&rt, alloc, &Reply::Done(None), "{\"done\":null}\n");
    assert_short(&rt, alloc, &Reply::Done(Some(7)), "{\"done\":7}\n");
    assert_short(&rt, alloc, &Reply::Unavailable, "{\"unavailable\":true}\n");
}

fn imported(made: u64, present: u64) -> Reply {
    Reply::Imported { made, present }
}

#[test]
fn prints_counts_of_imports(rt: HostRuntime) {
    let text = "{\"made\":2,\"present\":0}\n";
    assert_short(&rt, rt.alloc(), &imported(2, 0), text);
    let text = "{\"made\":18446744073709551615,\"present\":18446744073709551615}\n";
    assert_short(&rt, rt.alloc(), &imported(u64::MAX, u64::MAX), text);
}

#[test]
fn prints_denials(rt: HostRuntime) {
    let alloc = rt.alloc();
    let text = "{\"denied\":\"grant\"}\n";
    assert_short(&rt, alloc, &Reply::Denied(Rule::Grant, None), text);
    let text = "{\"denied\":\"held\",\"row\":2}\n";
    assert_short(&rt, alloc, &Reply::Denied(Rule::Held, Some(2)), text);
    let text = "{\"denied\":\"operator\",\"row\":18446744073709551615}\n";
    assert_short(
        &rt,
        alloc,
        &Reply::Denied(Rule::Operator, Some(u64::MAX)),
        text,
    );
}

#[test]
fn prints_an_authorization(rt: HostRuntime) {
    let shown = Reply::Shown(auth(&rt, rt.alloc(), 1, "192.0.2.0/24"));
    let text =
        "{\"shown\":{\"number\":1,\"asn\":64496,\"prefix\":\"192.0.2.0/24\",\"max\":24,\"from\":\"2026-01-01\",\"until\":\"2026-12-31\"}}\n";
    assert_printed(&rt, rt.alloc(), &shown, text);
}

#[test]
fn prints_a_content(rt: HostRuntime) {
    let content = Reply::Content(String::from_str(rt.alloc(), "3017c0").expect(&rt, "a text"));
    assert_printed(&rt, rt.alloc(), &content, "{\"content\":\"3017c0\"}\n");
}

#[test]
fn prints_empty_lists(rt: HostRuntime) {
    let alloc = rt.alloc();
    assert_printed(
        &rt,
        alloc,
        &Reply::Listed(Vec::new(alloc)),
        "{\"listed\":[]}\n",
    );
    let none = Reply::Payloads(Vrps::from(Vec::new(alloc)));
    assert_printed(&rt, alloc, &none, "{\"payloads\":[]}\n");
    assert_printed(
        &rt,
        alloc,
        &Reply::Report(Vec::new(alloc)),
        "{\"report\":[]}\n",
    );
}

#[test]
fn prints_authorizations(rt: HostRuntime) {
    let one = auth(&rt, rt.alloc(), 1, "192.0.2.0/24");
    let other = auth(&rt, rt.alloc(), 4_294_967_295, "2001:db8::/32");
    let two = Reply::Listed(vec![in rt.alloc(); one, other].expect(&rt, "two"));
    let listed =
        "{\"listed\":[{\"number\":1,\"asn\":64496,\"prefix\":\"192.0.2.0/24\",\"max\":24,\"from\":\"2026-01-01\",\"until\":\"2026-12-31\"},{\"number\":4294967295,\"asn\":64496,\"prefix\":\"2001:db8::/32\",\"max\":32,\"from\":\"2026-01-01\",\"until\":\"2026-12-31\"}]}\n";
    assert_printed(&rt, rt.alloc(), &two, listed);
}

#[test]
fn prints_vrps(rt: HostRuntime) {
    let v4 = vrp(&rt, 64496, "192.0.2.0/24", 24);
    let v6 = vrp(&rt, 4_294_967_295, "::/0", 128);
    let two = Reply::Payloads(Vrps::from(vec![in rt.alloc(); v4, v6].expect(&rt, "two")));
    let payloads =
        "{\"payloads\":[{\"asn\":64496,\"prefix\":\"192.0.2.0/24\",\"max\":24},{\"asn\":4294967295,\"prefix\":\"::/0\",\"max\":128}]}\n";
    assert_printed(&rt, rt.alloc(), &two, payloads);
}

#[test]
fn prints_validity_states(rt: HostRuntime) {
    let states = [Validity::Valid, Validity::NotFound, Validity::Invalid];
    let answers = Reply::Answers(Vec::from_slice(rt.alloc(), &states).expect(&rt, "states"));
    let text = "{\"answers\":[\"Valid\",\"NotFound\",\"Invalid\"]}\n";
    assert_printed(&rt, rt.alloc(), &answers, text);
}

#[test]
fn prints_reports(rt: HostRuntime) {
    let pairs = [
        (Validity::Valid, Validity::Invalid),
        (Validity::NotFound, Validity::Valid),
    ];
    let report = Reply::Report(Vec::from_slice(rt.alloc(), &pairs).expect(&rt, "pairs"));
    let text = "{\"report\":[[\"Valid\",\"Invalid\"],[\"NotFound\",\"Valid\"]]}\n";
    assert_printed(&rt, rt.alloc(), &report, text);
}

/// With room for less than this text, the reply writes its beginning and fails.
fn assert_cut(rt: &impl Abort, alloc: Global, reply: &Reply, whole: &[u8]) {
    for room in 0..whole.len() {
        let (result, bytes) = written(alloc, reply, room);
        assert_same(rt, result, Err(Failed), room);
        assert_same(rt, bytes.as_slice(), &whole[..room], room);
    }
}

#[test]
fn write_that_fails_leaves_a_beginning(rt: HostRuntime) {
    let one = auth(&rt, rt.alloc(), 1, "192.0.2.0/24");
    let other = auth(&rt, rt.alloc(), 2, "192.0.2.0/25");
    let reply = Reply::Listed(vec![in rt.alloc(); one, other].expect(&rt, "two"));
    let whole =
        b"{\"listed\":[{\"number\":1,\"asn\":64496,\"prefix\":\"192.0.2.0/24\",\"max\":24,\"from\":\"2026-01-01\",\"until\":\"2026-12-31\"},{\"number\":2,\"asn\":64496,\"prefix\":\"192.0.2.0/25\",\"max\":25,\"from\":\"2026-01-01\",\"until\":\"2026-12-31\"}]}\n";
    assert_cut(&rt, rt.alloc(), &reply, whole);
}

#[test]
fn prints_malformed_requests(rt: HostRuntime) {
    for (number, slurm, text) in [
        (5, None, "{\"malformed\":5}\n"),
        (11, Some(3), "{\"malformed\":11,\"slurm\":3}\n"),
    ] {
        assert_same(
            &rt,
            Malformed { number, slurm }.text().as_str(),
            text,
            number,
        );
    }
}
