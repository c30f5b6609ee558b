//! ROA contents as hex text, both ways, and octets that are none.
use crate::parsing::{host_entries, parse_asn, parse_entries, split_word};
use crate::tables::{assert_output, assert_same, rows_of};
use addr::Asn;
use roa::{Content, ContentFault, DecodeFault, decode, encode};
use std::alloc::Global;
use std::process::Abort;

/// Contents by their AS and entries, which need not rise, and their octets.
const VECTORS: &str = r#"
# content_of_one_ipv4_prefix
AS64496 192.0.2.0/24 24 => 3017020300fbf03010300e0402000130083006030400c00002
# content_with_unused_bits
AS64496 192.0.2.128/25 25 => 3018020300fbf03011300f0402000130093007030507c0000280
# content of AS 0 and all of IPv4
AS0 0.0.0.0/0 32 => 30150201003010300e0402000130083006030100020120
# content of one IPv6 prefix
AS64496 2001:db8::/32 48 => 301b020300fbf03014301204020002300c300a03050020010db8020130
# encode_whole_ipv6_to_128
AS4294967295 ::/0 128 => 301a020500ffffffff3011300f040200023009300703010002020080
# content of both families
AS64496 2001:db8::/32 48, 192.0.2.0/24 24 => 302b020300fbf03024300e0402000130083006030400c00002301204020002300c300a03050020010db8020130
"#;

/// Why octets are no content, and the octets.
const REFUSED: &str = r#"
decode_refuses_max_length_equal_to_length => 301b020300fbf03014301204020002300c300a03050020010db8020120
a negative AS number => 30160202fbf03010300e0402000130083006030400c00002
an unused bit that is set => 3017020300fbf03010300e0402000130083006030401c00003
the last octet is missing => 3017020300fbf03010300e0402000130083006030400c000
an octet after the content => 3017020300fbf03010300e0402000130083006030400c0000200
a length below 128 in the long form => 308117020300fbf03010300e0402000130083006030400c00002
an indefinite length => 3080020300fbf03010300e0402000130083006030400c000020000
a length past its parent => 3017020300fbf03011300e0402000130083006030400c00002
the version written out => 301ca003020100020300fbf03010300e0402000130083006030400c00002
an INTEGER with a needless octet => 301802040000fbf03010300e0402000130083006030400c00002
an INTEGER of no octets => 301402003010300e0402000130083006030400c00002
an AS number over 32 bits => 3019020501000000003010300e0402000130083006030400c00002
octets after the blocks => 301a020300fbf03010300e0402000130083006030400c00002020100
no block => 3007020300fbf03000
a block without addresses => 300f020300fbf030083006040200013000
two blocks of one family => 3027020300fbf03020300e0402000130083006030400c00002300e0402000130083006030400c00003
IPv6 before IPv4 => 302b020300fbf03024301204020002300c300a03050020010db8020130300e0402000130083006030400c00002
another family => 3017020300fbf03010300e0402000330083006030400c00002
a family of three octets => 3018020300fbf03011300f040300010130083006030400c00002
eight unused bits => 3018020300fbf03011300f0402000130093007030508c0000200
unused bits of no octets => 3014020300fbf0300d300b0402000130053003030103
a BIT STRING without its count => 3013020300fbf0300c300a04020001300430020300
more bits than an address has => 3019020300fbf03012301004020001300a3008030600c000020000
maxLength below the length => 301a020300fbf03013301104020001300b3009030400c00002020117
maxLength over the width => 301a020300fbf03013301104020001300b3009030400c00002020121
two equal entries => 301f020300fbf0301830160402000130103006030400c000023006030400c00002
entries that fall => 301f020300fbf0301830160402000130103006030400c000033006030400c00002
"#;

fn parse_octets(rt: &impl Abort, alloc: Global, hex: &str) -> Vec<u8> {
    hex::decode(alloc, hex).expect(rt, hex)
}

fn is_refused(alloc: Global, octets: &[u8]) -> bool {
    decode(alloc, octets).err() == Some(DecodeFault::NotContent)
}

/// A content by its AS, and its entries with commas between them.
fn parse_content(rt: &impl Abort, alloc: Global, text: &str) -> Content {
    let (asn, entries) = split_word(rt, text);
    let entries = parse_entries(rt, alloc, entries);
    Content::make(parse_asn(rt, asn), entries).expect(rt, text)
}

/// The content in hex, which is decoded to the same content.
fn encoded(rt: &impl Abort, alloc: Global, content: &Content, name: &str) -> String {
    let octets = encode(alloc, content).expect(rt, name);
    let decoded = decode(alloc, octets.as_slice()).expect(rt, name);
    assert_same(rt, decoded.asn(), content.asn(), name);
    assert_same(rt, decoded.entries(), content.entries(), name);
    hex::encode(alloc, octets.as_slice()).expect(rt, name)
}

#[test]
fn vectors_are_encoded_and_decoded(rt: HostRuntime) {
    for row in &rows_of(&rt, rt.alloc(), VECTORS) {
        let content = parse_content(&rt, rt.alloc(), row.input);
        let hex = encoded(&rt, rt.alloc(), &content, row.name);
        assert_output(&rt, hex.as_str(), row);
    }
}

/// The content of so many host prefixes has so many octets, which begin so.
fn assert_host_prefixes(rt: &impl Abort, alloc: Global, count: u8, length: usize, beginning: &str) {
    let content = Content::make(Asn(64496), host_entries(rt, alloc, count)).expect(rt, "a content");
    let hex = encoded(rt, alloc, &content, "a content of host prefixes");
    assert_same(rt, hex.len() / 2, length, count);
    assert!(rt; hex.starts_with(beginning), "{count} prefixes");
}

/// The lengths in the content take two octets.
#[test]
fn content_of_fourteen_prefixes(rt: HostRuntime) {
    let beginning = "30818f020300fbf030818730818404020001307e3007030500c0000200";
    assert_host_prefixes(&rt, rt.alloc(), 14, 146, beginning);
}

/// The lengths in the content take three octets.
#[test]
fn content_of_sixty_four_prefixes(rt: HostRuntime) {
    let beginning = "30820255020300fbf03082024c3082024804020001308202403007030500c0000200";
    assert_host_prefixes(&rt, rt.alloc(), 64, 601, beginning);
}

#[test]
fn content_of_sixty_five_prefixes_is_refused(rt: HostRuntime) {
    let made = Content::make(Asn(64496), host_entries(&rt, rt.alloc(), 65));
    assert_same(&rt, made.err(), Some(ContentFault::TooMany), "65 prefixes");
}

#[test]
fn decode_refuses_other_spellings(rt: HostRuntime) {
    for row in &rows_of(&rt, rt.alloc(), REFUSED) {
        let octets = parse_octets(&rt, rt.alloc(), row.output);
        assert!(rt; is_refused(rt.alloc(), octets.as_slice()), "{}", row.input);
    }
}

/// And every proper beginning of a content, no octets among them.
#[test]
fn decode_refuses_cut_negative_and_set_unused_bit(rt: HostRuntime) {
    for row in &rows_of(&rt, rt.alloc(), VECTORS) {
        let octets = parse_octets(&rt, rt.alloc(), row.output);
        for end in 0..octets.len() {
            let beginning = &octets.as_slice()[..end];
            assert!(rt; is_refused(rt.alloc(), beginning), "{end} octets");
        }
    }
}
