//! Texts of prefixes: their faults, and the spellings of another program.
use crate::tables::{assert_same, row_of};
use addr::{Family, Prefix, digits};
use arrayvec::ArrayString;
use hex::FromHex;
use std::process::Abort;

/// Each text, and the number of its fault, or 0 where it spells a prefix.
const TEXTS: &str = r#" => 1
 192.0.2.0/24 => 1
192.0.2.0/24  => 1
192.0.2.0 => 1
192.0.2.0/ => 1
/24 => 1
192.0.2.0/0024 => 1
256.0.0.0/8 => 1
192.0.2/24 => 1
1.2.3.4.5/32 => 1
192.0.2.0/2a => 1
192..2.0/24 => 1
::ffff:192.0.2.1/128 => 1
fe80::1%1/128 => 1
:::/0 => 1
1::2::3/64 => 1
1::2:3:4:5:6:7:8/128 => 1
1:2:3:4:5:6:7/128 => 1
1:2:3:4:5:6:7:8:9/128 => 1
:1:2:3:4:5:6:7/128 => 1
1:2:3:4:5:6:7:/128 => 1
12345::/16 => 1
g::/16 => 1
::/0/0 => 1
00.0.0.0/0 => 2
0.0.0.0/00 => 2
192.0.2.1/033 => 2
192.0.2.0/024 => 2
2001:DB8::/32 => 2
2001:db8:0::/32 => 2
0db8::/16 => 2
1:2:3:4:5:6:7::/112 => 2
::1:2:3:4:5:6:7/128 => 2
1:0:0:2:0:0:3:4/128 => 2
1::2:0:0:0:3/128 => 2
::0/0 => 2
0::/0 => 2
192.0.2.0/999 => 3
192.0.2.0/33 => 3
2001:db8::/129 => 3
192.0.2.1/33 => 3
192.0.2.1/24 => 4
2001:db8::1/64 => 4
128.0.0.0/0 => 4
::1/127 => 4
::/0 => 0
0.0.0.0/0 => 0
192.0.2.0/24 => 0
255.255.255.255/32 => 0
2001:db8::/32 => 0
1::2:0:0:3:4/128 => 0
1:0:0:2::3/128 => 0
1:2:3:4:5:6::/96 => 0
1:2:3:4:5:6:7:0/112 => 0
::ffff:c000:201/128 => 0
8000::/1 => 0"#;

/// Addresses in hex digits, each with the text that Python's `ipaddress` writes of it.
const ADDRESSES: &str = r#"00000000 => 0.0.0.0/32
ffffffff => 255.255.255.255/32
c0000201 => 192.0.2.1/32
0ac8032d => 10.200.3.45/32
01146364 => 1.20.99.100/32
640a0900 => 100.10.9.0/32
00000000000000000000000000000000 => ::/128
00000000000000000000000000000001 => ::1/128
00010000000000000000000000000000 => 1::/128
20010db8000000000000000000000000 => 2001:db8::/128
20010db8000000000000000000000001 => 2001:db8::1/128
20010db8000000010000000000000000 => 2001:db8:0:1::/128
20010000000000010000000000000001 => 2001:0:0:1::1/128
20010db8000000000001000000000001 => 2001:db8::1:0:0:1/128
20010db8000000010001000100010001 => 2001:db8:0:1:1:1:1:1/128
00000001000200030004000500060007 => 0:1:2:3:4:5:6:7/128
00010002000300040005000600070000 => 1:2:3:4:5:6:7:0/128
00010000000200000003000000040000 => 1:0:2:0:3:0:4:0/128
00000000000100000000000000010001 => 0:0:1::1:1/128
00000000000000010000000000000001 => ::1:0:0:0:1/128
00010000000000020000000000000003 => 1:0:0:2::3/128
fe8000000000000002005aeefeaa20a2 => fe80::200:5aee:feaa:20a2/128
ff0200000000000000000001ff000000 => ff02::1:ff00:0/128
ffffffffffffffffffffffffffffffff => ffff:ffff:ffff:ffff:ffff:ffff:ffff:ffff/128
000a000b000c000d000e000f00100100 => a:b:c:d:e:f:10:100/128
10000f000010000100000000abcd00ef => 1000:f00:10:1::abcd:ef/128
00000000000100000000000000000000 => 0:0:1::/128
00010001000100010001000100000000 => 1:1:1:1:1:1::/128
0064ff9b000000000000000000000000 => 64:ff9b::/128
2002c000020400000000000000000000 => 2002:c000:204::/128
01000000000000000001000000000000 => 100::1:0:0:0/128"#;

fn assert_written(rt: &impl Abort, prefix: &Prefix, text: &str) {
    let mut written = ArrayString::new();
    prefix.write_to(&mut written);
    assert_same(rt, written.as_str(), text, text);
}

#[test]
fn prefix_text_faults(rt: HostRuntime) {
    for row in TEXTS.lines() {
        let (text, fault) = row_of(&rt, row);
        match Prefix::read(text.as_bytes()) {
            Ok(prefix) => {
                assert_written(&rt, &prefix, text);
                assert_same(&rt, "0", fault, text);
            }
            Err(found) => {
                let number = digits(u64::from(found.number()));
                assert_same(&rt, number.as_str(), fault, text);
            }
        }
    }
}

/// The prefix of an address alone, of IPv4 where it has eight hex digits.
fn address(rt: &impl Abort, digits: &str) -> Prefix {
    let (family, first) = if digits.len() == 8 {
        let octets = <[u8; 4]>::from_hex(digits).expect(rt, digits);
        (Family::V4, u128::from(u32::from_be_bytes(octets)))
    } else {
        let octets = <[u8; 16]>::from_hex(digits).expect(rt, digits);
        (Family::V6, u128::from_be_bytes(octets))
    };
    Prefix::from_parts(family, first, family.width()).expect(rt, digits)
}

#[test]
fn spells_addresses_as_another_program_does(rt: HostRuntime) {
    for row in ADDRESSES.lines() {
        let (digits, text) = row_of(&rt, row);
        let prefix = address(&rt, digits);
        assert_written(&rt, &prefix, text);
        assert_same(&rt, Prefix::read(text.as_bytes()), Ok(prefix), text);
    }
}
