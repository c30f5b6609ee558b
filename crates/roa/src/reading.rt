//! Decoding a content.
ghost use Rattle.std.specs.Prelude.{◌≡◌, ◌<◌, ◌≤◌, ◌*◌, ◌-◌, ◌^◌, length, map, IfSome, IfOk, MatchResult};
ghost use Rattle.addr.specs.Family.{width};
ghost use Rattle.roa.specs.steps.Reading.{ReadsAs, length_at, contents_at, element_at, sole_element, integer_of, prefix_of, max_of, entry_of, entry_at, entries_in_octets, block_at, family_at, blocks_of, fields_of, content_of, numbers, Adds, AddsThen, IsReadAs};
ghost use Rattle.roa.specs.RoaContent.{RouteOriginAttestation, IsContent, Encodes, be_value};
ghost use Rattle.roa.specs.declared.content.TheConstants.Content.{MAX_ENTRIES};

use crate::der::{
    BIT_STRING, INTEGER, OCTET_STRING, ONE_OCTET_LENGTH, SEQUENCE, TWO_OCTET_LENGTH, family_octets,
    integer_len,
};
use crate::{Content, DecodeFault, Entry};
use addr::{Asn, Family, Prefix};
use std::alloc::Global;

/// A length, and the octets after it.
#[tactic(auto, unfolding(crate::specs::steps::Reading::length_at, crate::specs::steps::Reading::one_octet_at, crate::specs::steps::Reading::two_octets_at))]
fn read_length(octets: &[u8]) -> Option<(usize, &[u8])>
    ensures { ReadsAs (λ x. (x.0, x.1.now)) result (length_at octets.now) }
{
    match octets {
        [short, rest @ ..] if *short < 0x80 => Some((usize::from(*short), rest)),
        [ONE_OCTET_LENGTH, long, rest @ ..] if *long >= 0x80 => Some((usize::from(*long), rest)),
        [TWO_OCTET_LENGTH, high, low, rest @ ..] if *high != 0 => {
            Some((256 * usize::from(*high) + usize::from(*low), rest))
        }
        _ => None,
    }
}

/// The contents of an element after its tag, and the octets after it.
#[tactic(auto, unfolding(crate::specs::steps::Reading::contents_at))]
fn read_contents(octets: &[u8]) -> Option<(&[u8], &[u8])>
    ensures { ReadsAs (λ x. (x.0.now, x.1.now)) result (contents_at octets.now) }
{
    let (len, rest) = read_length(octets)?;
    if rest.len() < len {
        return None;
    }
    Some(rest.split_at(len))
}

/// The contents of an element with the tag, and the octets after it.
#[tactic(auto, unfolding(crate::specs::steps::Reading::element_at))]
fn read_element(tag: u8, octets: &[u8]) -> Option<(&[u8], &[u8])>
    ensures { ReadsAs (λ x. (x.0.now, x.1.now)) result (element_at tag octets.now) }
{
    match octets {
        [first, rest @ ..] if *first == tag => read_contents(rest),
        _ => None,
    }
}

/// The contents of an element with the tag that is all of the octets.
#[tactic(auto, unfolding(crate::specs::steps::Reading::sole_element))]
fn read_whole(tag: u8, octets: &[u8]) -> Option<&[u8]>
    ensures { ReadsAs (λ x. x.now) result (sole_element tag octets.now) }
{
    let (contents, rest) = read_element(tag, octets)?;
    if !rest.is_empty() {
        return None;
    }
    Some(contents)
}

/// The number that the octets spell, the most significant one first.
fn number_of(octets: &[u8]) -> u128
    requires { length octets.now ≤ 16 }
    ensures { result ≡ be_value octets.now }
{
    let mut number = 0;
    for octet in octets {
        number = 256 * number + u128::from(*octet);
    }
    number
}

/// The number of an INTEGER, by its contents; `None` if it has more than 32 bits.
#[tactic(auto, unfolding(crate::specs::steps::Reading::integer_of))]
fn read_integer(contents: &[u8]) -> Option<u32>
    ensures { ReadsAs (λ n. n) result (integer_of contents.now) }
{
    if contents.len() > 5 {
        return None;
    }
    let number = u32::try_from(number_of(contents)).ok()?;
    if contents.len() != integer_len(number) {
        return None;
    }
    Some(number)
}

/// The first address that the octets begin, whose bits from there on are zero.
fn first_address(family: Family, octets: &[u8]) -> u128
    requires { 8 * length octets.now ≤ width family }
    ensures { result ≡ be_value octets.now * 2 ^ (width family - 8 * length octets.now) }
{
    let missing_bits = usize::from(family.width()) - 8 * octets.len();
    number_of(octets)
        .checked_shl(missing_bits as u32)
        .unwrap_or(0)
}

/// The prefix of a BIT STRING, by its contents.
#[tactic(auto, unfolding(crate::specs::steps::Reading::prefix_of))]
fn read_prefix(family: Family, contents: &[u8]) -> Option<Prefix>
    ensures numbers { ReadsAs (λ p. (p.first, p.length)) result (prefix_of family contents.now) }
    ensures family { IfSome result (λ p. p.family ≡ family) }
{
    let (unused, octets) = contents.split_first()?;
    if *unused > 7 || octets.len() > usize::from(family.width() / 8) {
        return None;
    }
    let bits = 8 * octets.len();
    if usize::from(*unused) > bits {
        return None;
    }
    let length = (bits - usize::from(*unused)) as u8;
    Prefix::from_parts(family, first_address(family, octets), length)
}

/// The maxLength, by the octets after the BIT STRING of the prefix.
#[tactic(auto, unfolding(crate::specs::steps::Reading::max_of))]
fn read_max(prefix: &Prefix, octets: &[u8]) -> Option<u8>
    ensures { ReadsAs (λ n. n) result (max_of prefix.now.family prefix.now.length octets.now) }
{
    if octets.is_empty() {
        return Some(prefix.length);
    }
    let max = read_integer(read_whole(INTEGER, octets)?)?;
    if max <= u32::from(prefix.length) || max > u32::from(prefix.family.width()) {
        return None;
    }
    Some(max as u8)
}

/// An entry, by the contents of its SEQUENCE.
#[tactic(auto, unfolding(crate::specs::steps::Reading::entry_of))]
fn read_entry(family: Family, contents: &[u8]) -> Option<Entry>
    ensures { ReadsAs numbers result (entry_of family contents.now) }
{
    let (bits, rest) = read_element(BIT_STRING, contents)?;
    let prefix = read_prefix(family, bits)?;
    let max = read_max(&prefix, rest)?;
    Some(Entry { prefix, max })
}

/// An entry, and the octets after it.
#[tactic(auto, unfolding(crate::specs::steps::Reading::entry_at))]
fn take_entry(family: Family, octets: &[u8]) -> Option<(Entry, &[u8])>
    ensures { ReadsAs (λ x. (numbers x.0, x.1.now)) result (entry_at family octets.now) }
{
    let (contents, rest) = read_element(SEQUENCE, octets)?;
    let entry = read_entry(family, contents)?;
    Some((entry, rest))
}

/// Adds the entries of a family, which are all of the octets.
fn read_entries(family: Family, octets: &[u8], entries: &mut Vec<Entry>) -> Result<(), DecodeFault>
    requires { length entries.old.items ≤ MAX_ENTRIES }
    ensures adds { Adds result entries.old.items entries.new.items
        (entries_in_octets (MAX_ENTRIES - length entries.old.items) family octets.now) }
    ensures few { length entries.new.items ≤ MAX_ENTRIES }
{
    let mut rest = octets;
    while !rest.is_empty() {
        if entries.len() == Content::MAX_ENTRIES {
            return Err(DecodeFault::NotContent);
        }
        let (entry, after) = take_entry(family, rest).ok_or(DecodeFault::NotContent)?;
        entries.push(entry)?;
        rest = after;
    }
    Ok(())
}

/// The addresses of a block of the family, and the octets after the block.
#[tactic(auto, unfolding(crate::specs::steps::Reading::block_at))]
fn take_block(family: Family, octets: &[u8]) -> Option<(&[u8], &[u8])>
    ensures { ReadsAs (λ x. (x.0.now, x.1.now)) result (block_at family octets.now) }
{
    let (block, rest) = read_element(SEQUENCE, octets)?;
    let (address_family, addresses) = read_element(OCTET_STRING, block)?;
    if address_family != family_octets(family).as_slice() {
        return None;
    }
    let addresses = read_whole(SEQUENCE, addresses)?;
    if addresses.is_empty() {
        return None;
    }
    Some((addresses, rest))
}

/// Adds the entries of a family, if a block of it begins here; returns the octets after the block.
#[tactic(auto, unfolding(crate::specs::steps::Reading::family_at))]
fn read_family<'a>(
    family: Family,
    octets: &'a [u8],
    entries: &mut Vec<Entry>,
) -> Result<&'a [u8], DecodeFault>
    requires { length entries.old.items ≤ MAX_ENTRIES }
    ensures adds { AddsThen result entries.old.items entries.new.items
        (family_at (MAX_ENTRIES - length entries.old.items) family octets.now) }
    ensures few { length entries.new.items ≤ MAX_ENTRIES }
{
    match take_block(family, octets) {
        None => Ok(octets),
        Some((addresses, rest)) => {
            read_entries(family, addresses, entries)?;
            Ok(rest)
        }
    }
}

/// The entries of both families, which are all of the octets.
#[tactic(auto, unfolding(crate::specs::steps::Reading::blocks_of))]
fn read_blocks(alloc: Global, octets: &[u8]) -> Result<Vec<Entry>, DecodeFault>
    ensures { IsReadAs (λ entries. map numbers entries.items) result (blocks_of octets.now) }
{
    let mut entries = Vec::new(alloc);
    let rest = read_family(Family::V4, octets, &mut entries)?;
    let rest = read_family(Family::V6, rest, &mut entries)?;
    if !rest.is_empty() {
        return Err(DecodeFault::NotContent);
    }
    Ok(entries)
}

/// The AS number, and the octets of the blocks.
#[tactic(auto, unfolding(crate::specs::steps::Reading::fields_of))]
fn read_fields(octets: &[u8]) -> Option<(u32, &[u8])>
    ensures { ReadsAs (λ x. (x.0, x.1.now)) result (fields_of octets.now) }
{
    let fields = read_whole(SEQUENCE, octets)?;
    let (number, rest) = read_element(INTEGER, fields)?;
    let number = read_integer(number)?;
    let blocks = read_whole(SEQUENCE, rest)?;
    Some((number, blocks))
}

#[tactic(auto, unfolding(crate::specs::steps::Reading::content_of))]
fn read_content(alloc: Global, octets: &[u8]) -> Result<(Asn, Vec<Entry>), DecodeFault>
    ensures { IsReadAs (λ x. (x.0.0, map numbers x.1.items)) result (content_of octets.now) }
{
    let (number, blocks) = read_fields(octets).ok_or(DecodeFault::NotContent)?;
    let entries = read_blocks(alloc, blocks)?;
    Ok((Asn(number), entries))
}

/// The content of which these are the octets. Octets that no content has, as those of another
/// spelling, are `NotContent`.
pub fn decode(alloc: Global, octets: &[u8]) -> Result<Content, DecodeFault>
    ensures content { IfOk result IsContent }
    ensures encodes { IfOk result (λ content. Encodes content octets.now) }

    // The octets of a content are decoded, unless memory runs out.
    ensures only { (content : RouteOriginAttestation) → IsContent content
        → Encodes content octets.now
        → MatchResult result (λ found. found ≡ content) (λ fault. fault ≡ DecodeFault.Memory) }
{
    let (asn, entries) = read_content(alloc, octets)?;
    Content::from_rising(asn, entries).ok_or(DecodeFault::NotContent)
}
