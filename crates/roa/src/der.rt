//! Tags and lengths of DER (X.690).
ghost use Rattle.std.specs.Prelude.{◌≡◌, length};
ghost use Rattle.roa.specs.RoaContent.{family_octets};
ghost use Rattle.roa.specs.ContentOctets.{integer_len};

use addr::Family;

/// The tags (X.690 section 8.1.2, X.680 section 8.4), of which SEQUENCE is constructed.
pub(crate) const INTEGER: u8 = 0x02;

pub(crate) const BIT_STRING: u8 = 0x03;

pub(crate) const OCTET_STRING: u8 = 0x04;

pub(crate) const SEQUENCE: u8 = 0x30;

/// The first octet of a length that takes one or two more octets (X.690 section 8.1.3.5).
pub(crate) const ONE_OCTET_LENGTH: u8 = 0x81;

pub(crate) const TWO_OCTET_LENGTH: u8 = 0x82;

/// How many octets the number takes as an INTEGER: its first bit is the sign.
pub(crate) fn integer_len(number: u32) -> usize
    ensures { result ≡ integer_len number }
{
    match number {
        0..=0x7f => 1,
        0x80..=0x7fff => 2,
        0x8000..=0x7f_ffff => 3,
        0x80_0000..=0x7fff_ffff => 4,
        _ => 5,
    }
}

/// The octets of an address family.
pub(crate) fn family_octets(family: Family) -> [u8; 2]
    ensures { result ≡ family_octets family }
{
    match family {
        Family::V4 => [0, 1],
        Family::V6 => [0, 2],
    }
}
