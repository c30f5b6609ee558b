//! Encoding a content.
ghost use Rattle.std.specs.Prelude.{◌≡◌, ◌<◌, ◌≤◌, ◌*◌, ◌^◌, ◌++◌, length, IfOk, OnOk};
ghost use Rattle.std.specs.List.{flat_map};
ghost use Rattle.roa.specs.RoaContent.{of_family, Encodes};
ghost use Rattle.roa.specs.ContentOctets.{be_octets, length_octets, element, integer, prefix_octets, entry_contents, entry_octets, roa_ip_address_family, content_octets};
ghost use Rattle.roa.specs.declared.content.TheConstants.Content.{MAX_ENTRIES};

use crate::der::{
    BIT_STRING, INTEGER, OCTET_STRING, ONE_OCTET_LENGTH, SEQUENCE, TWO_OCTET_LENGTH, family_octets,
    integer_len,
};
use crate::{Content, Entry};
use addr::{Asn, Family, Prefix};
use std::alloc::{AllocError, Global};

/// Adds a length in the fewest octets.
fn push_length(out: &mut Vec<u8>, len: usize) -> Result<(), AllocError>
    requires { len < 2 ^ 16 }
    ensures { OnOk result (out.new.items ≡ out.old.items ++ length_octets len) }
{
    match len {
        0..=0x7f => out.push(len as u8)?,
        0x80..=0xff => out.extend_from_slice(&[ONE_OCTET_LENGTH, len as u8])?,
        _ => out.extend_from_slice(&[TWO_OCTET_LENGTH, (len / 256) as u8, (len % 256) as u8])?,
    }
    Ok(())
}

/// Adds the number in so many octets, the most significant one first.
fn push_number(out: &mut Vec<u8>, count: usize, number: u128) -> Result<(), AllocError>
    requires count { count ≤ 16 }
    requires fits { number < 2 ^ (8 * count) }
    ensures { OnOk result (out.new.items ≡ out.old.items ++ be_octets count number) }
{
    let mut rest = number;
    for place in (0..count).rev() {
        let unit = 1 << (8 * place);
        out.push((rest / unit) as u8)?;
        rest %= unit;
    }
    Ok(())
}

/// Adds an element with the tag.
fn push_element(out: &mut Vec<u8>, tag: u8, contents: &[u8]) -> Result<(), AllocError>
    requires { length contents.now < 2 ^ 16 }
    ensures { OnOk result (out.new.items ≡ out.old.items ++ element tag contents.now) }
{
    out.push(tag)?;
    push_length(out, contents.len())?;
    out.extend_from_slice(contents)
}

/// Adds an INTEGER.
fn push_integer(out: &mut Vec<u8>, number: u32) -> Result<(), AllocError>
    ensures { OnOk result (out.new.items ≡ out.old.items ++ integer number) }
{
    let len = integer_len(number);
    out.push(INTEGER)?;
    push_length(out, len)?;
    push_number(out, len, u128::from(number))
}

/// Adds the BIT STRING of the prefix.
fn push_prefix(out: &mut Vec<u8>, prefix: &Prefix) -> Result<(), AllocError>
    ensures { OnOk result (out.new.items ≡ out.old.items ++ prefix_octets prefix.now) }
{
    let len = prefix.length.div_ceil(8);
    let missing_bits = prefix.family.width() - 8 * len;
    let first_octets = prefix
        .first
        .checked_shr(u32::from(missing_bits))
        .unwrap_or(0);
    out.push(BIT_STRING)?;
    push_length(out, 1 + usize::from(len))?;
    out.push(8 * len - prefix.length)?;
    push_number(out, usize::from(len), first_octets)
}

/// Adds the contents of an entry's SEQUENCE.
fn push_entry(out: &mut Vec<u8>, entry: &Entry) -> Result<(), AllocError>
    ensures { OnOk result (out.new.items ≡ out.old.items ++ entry_contents entry.now) }
{
    push_prefix(out, &entry.prefix)?;
    if entry.max > entry.prefix.length {
        push_integer(out, u32::from(entry.max))?;
    }
    Ok(())
}

/// Adds the entries of the family.
fn push_entries(
    alloc: Global,
    out: &mut Vec<u8>,
    family: Family,
    entries: &[Entry],
) -> Result<(), AllocError>
    ensures { OnOk result
        (out.new.items ≡ out.old.items ++ flat_map entry_octets (of_family family entries.now)) }
{
    let mut contents = Vec::new(alloc);
    for entry in entries {
        if family.is(entry.prefix.family) {
            contents.clear();
            push_entry(&mut contents, entry)?;
            push_element(out, SEQUENCE, &contents)?;
        }
    }
    Ok(())
}

/// Adds the block of the family, if there are entries of it.
fn push_family(
    alloc: Global,
    out: &mut Vec<u8>,
    family: Family,
    entries: &[Entry],
) -> Result<(), AllocError>
    requires { length entries.now ≤ MAX_ENTRIES }
    ensures { OnOk result
        (out.new.items
        ≡ out.old.items ++ roa_ip_address_family family (of_family family entries.now)) }
{
    let mut addresses = Vec::new(alloc);
    push_entries(alloc, &mut addresses, family, entries)?;
    if addresses.is_empty() {
        return Ok(());
    }
    let mut block = Vec::new(alloc);
    push_element(&mut block, OCTET_STRING, &family_octets(family))?;
    push_element(&mut block, SEQUENCE, &addresses)?;
    push_element(out, SEQUENCE, &block)
}

#[tactic(auto, unfolding(crate::specs::ContentOctets::content_octets))]
fn write_content(alloc: Global, asn: Asn, entries: &[Entry]) -> Result<Vec<u8>, AllocError>
    requires { length entries.now ≤ MAX_ENTRIES }
    ensures { IfOk result
        (λ octets. octets.items ≡ content_octets (record { asn = asn; entries = entries.now })) }
{
    let mut blocks = Vec::new(alloc);
    push_family(alloc, &mut blocks, Family::V4, entries)?;
    push_family(alloc, &mut blocks, Family::V6, entries)?;
    let mut fields = Vec::new(alloc);
    push_integer(&mut fields, asn.0)?;
    push_element(&mut fields, SEQUENCE, &blocks)?;
    let mut octets = Vec::new(alloc);
    push_element(&mut octets, SEQUENCE, &fields)?;
    Ok(octets)
}

/// The octets of the content.
pub fn encode(alloc: Global, content: &Content) -> Result<Vec<u8>, AllocError>
    ensures { IfOk result (λ octets. Encodes content.now octets.items) }
{
    write_content(alloc, content.asn(), content.entries())
}
