//! Reading: loosely first, and then by comparing with the one spelling.
ghost use Rattle.std.specs.Prelude.{◌≡◌, ◌==◌, ◌<◌, ◌^◌, None, Some, length, option_map, MatchResult, IfSome};
ghost use Rattle.std.specs.List.{position};
ghost use Rattle.std.specs.Int.Digits.{number_from_digits};
ghost use Rattle.addr.specs.Family.{width};
ghost use Rattle.addr.specs.PrefixText.{cut_at, dotted_address, loose, loose_address, loose_groups, octet, prefix_text_fault, short_number, Spells};

use super::write::push_spelling;
use super::{PrefixFault, PrefixParts};
use crate::{Family, Prefix};
use arrayvec::ArrayString;
use std::net::Ipv6Addr;

/// The place of the first separator.
fn find_byte(text: &[u8], separator: u8) -> Option<usize>
    ensures { result ≡ position (λ byte. byte == separator) text.now }
{
    text.iter().position(|byte| *byte == separator)
}

/// The texts before and after the first separator.
fn cut_text(text: &[u8], separator: u8) -> Option<(&[u8], &[u8])>
    ensures { option_map (λ cut. (cut.0.now, cut.1.now)) result ≡ cut_at separator text.now }
{
    let at = find_byte(text, separator)?;
    Some((&text[..at], &text[at + 1..]))
}

/// One to three decimal digits.
fn read_decimal(digits: &[u8]) -> Option<u16>
    ensures { result ≡ short_number 10 3 digits.now }
{
    if digits.is_empty() || digits.len() > 3 {
        return None;
    }
    let mut number = 0;
    for digit in digits {
        if !digit.is_ascii_digit() {
            return None;
        }
        number = number * 10 + u16::from(*digit - b'0');
    }
    Some(number)
}

fn read_octet(digits: &[u8]) -> Option<u8>
    ensures { result ≡ octet digits.now }
{
    let number = read_decimal(digits)?;
    if number > 255 {
        return None;
    }
    Some(number as u8)
}

#[tactic(auto, unfolding(crate::specs::PrefixText::dotted_address))]
fn read_dotted(text: &[u8]) -> Option<u32>
    ensures { result ≡ dotted_address text.now }
{
    let (a, rest) = cut_text(text, b'.')?;
    let (b, rest) = cut_text(rest, b'.')?;
    let (c, d) = cut_text(rest, b'.')?;
    let a = u32::from(read_octet(a)?);
    let b = u32::from(read_octet(b)?);
    let c = u32::from(read_octet(c)?);
    let d = u32::from(read_octet(d)?);
    Some(((a * 0x100 + b) * 0x100 + c) * 0x100 + d)
}

/// `Ipv6Addr` also reads an address that ends in dotted decimal, which no text of a prefix does.
fn read_groups(text: &[u8]) -> Option<[u16; 8]>
    ensures { result ≡ loose_groups text.now }
{
    if text.contains(&b'.') {
        return None;
    }
    let address = Ipv6Addr::parse_ascii(text).ok()?;
    Some(address.segments())
}

fn number_of(groups: &[u16; 8]) -> u128
    ensures { result ≡ number_from_digits 0x10000 groups.now }
{
    let mut number = 0;
    for group in groups {
        number = number * 0x10000 + u128::from(*group);
    }
    number
}

#[tactic(auto, unfolding(crate::specs::PrefixText::loose_address))]
fn read_address(text: &[u8]) -> Option<(Family, u128)>
    ensures value { result ≡ loose_address text.now }
    ensures fits { IfSome result (λ read. read.1 < 2 ^ width read.0) }
{
    if let Some(address) = read_dotted(text) {
        return Some((Family::V4, u128::from(address)));
    }
    let groups = read_groups(text)?;
    Some((Family::V6, number_of(&groups)))
}

#[tactic(auto, unfolding(crate::specs::PrefixText::loose))]
fn read_loosely(text: &[u8]) -> Option<PrefixParts>
    ensures value { result ≡ loose text.now }
    ensures fits { IfSome result (λ parts. parts.address < 2 ^ width parts.family) }
    ensures short { IfSome result (λ parts. parts.length < 1000) }
{
    let (address, digits) = cut_text(text, b'/')?;
    let (family, address) = read_address(address)?;
    let length = read_decimal(digits)?;
    Some(PrefixParts {
        family,
        address,
        length,
    })
}

/// The prefix that the text spells, or the first fault of the text.
#[tactic(auto, unfolding(crate::specs::PrefixText::prefix_text_fault))]
pub(super) fn read_prefix(text: &[u8]) -> Result<Prefix, PrefixFault>
    ensures { MatchResult result
        (λ prefix. (prefix_text_fault text.now ≡ None) × Spells prefix text.now)
        (λ fault. prefix_text_fault text.now ≡ Some fault) }
{
    let parts = read_loosely(text).ok_or(PrefixFault::Shape)?;
    let mut spelling = ArrayString::<48>::new();
    push_spelling(&mut spelling, parts.family, parts.address, parts.length);
    if spelling.as_str().as_bytes() != text {
        return Err(PrefixFault::Spelling);
    }
    if parts.length > u16::from(parts.family.width()) {
        return Err(PrefixFault::Length);
    }
    let length = parts.length as u8;
    Prefix::from_parts(parts.family, parts.address, length).ok_or(PrefixFault::HostBits)
}
