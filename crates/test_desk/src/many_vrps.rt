//! Lists of 100,001 VRPs, which are more than a mebibyte of JSON and of CSV.
use crate::fakes::Drip;
use crate::ready::assert_same;
use addr::{Asn, Prefix, Vrp};
use csv_records::payload_lines;
use desk::{Reply, Vrps};
use std::alloc::Global;
use std::process::Abort;
use web::{Device, write_reply};

const COUNT: u32 = 100_001;

/// AS1, AS2 and so on, each with the same prefix.
fn vrps(rt: &impl Abort, alloc: Global) -> Vec<Vrp> {
    let prefix = Prefix::read(b"192.0.2.0/24").expect(rt, "a prefix");
    let mut vrps = Vec::new(alloc);
    for asn in 1..=COUNT {
        let vrp = Vrp::from_parts(prefix, 24, Asn(asn)).expect(rt, "a VRP");
        vrps.push(vrp).expect(rt, "a longer list");
    }
    vrps
}

/// What is printed of them as JSON.
fn json(rt: &impl Abort, alloc: Global) -> String {
    let mut text = String::from_str(alloc, "{\"payloads\":[").expect(rt, "a text");
    for asn in 1..=COUNT {
        let separator = if asn == 1 { "" } else { "," };
        let item = format!(in alloc;
            "{separator}{{\"asn\":{asn},\"prefix\":\"192.0.2.0/24\",\"max\":24}}"
        );
        text.push_str(&item.expect(rt, "an item"))
            .expect(rt, "a longer text");
    }
    text.push_str("]}\n").expect(rt, "a longer text");
    text
}

/// What is printed of them as CSV.
fn csv(rt: &impl Abort, alloc: Global) -> String {
    let mut text = String::from_str(alloc, "asn,prefix,maxlength\n").expect(rt, "a text");
    for asn in 1..=COUNT {
        let line = format!(in alloc; "AS{asn},192.0.2.0/24,24\n").expect(rt, "a line");
        text.push_str(&line).expect(rt, "a longer text");
    }
    text
}

#[test]
fn prints_100_001_vrps_as_json(rt: HostRuntime) {
    let reply = Reply::Payloads(Vrps::from(vrps(&rt, rt.alloc())));
    let text = json(&rt, rt.alloc());
    let mut drip = Drip {
        piece: usize::MAX,
        calls: 0,
        written: Vec::new(rt.alloc()),
    };
    let result = write_reply(&reply, &mut Device::new(&mut drip));
    assert_same(&rt, result, Ok(()), "the list");
    assert!(rt; drip.written.as_slice() == text.as_bytes());
}

#[test]
fn prints_100_001_vrps_as_csv(rt: HostRuntime) {
    let vrps = vrps(&rt, rt.alloc());
    let lines = payload_lines(rt.alloc(), vrps.as_slice()).expect(&rt, "lines");
    let text = csv(&rt, rt.alloc());
    assert!(rt; lines.as_slice() == text.as_bytes());
}
