//! The rows that the desk exports as CSV: a header and a line for each.
ghost use Rattle.std.specs.Prelude.{◌≡◌, ◌+◌, ◌≤◌, ◌<◌, ◌++◌, length, map, IfOk, OnOk};
ghost use Rattle.std.specs.List.{flat_map};
ghost use Rattle.addr.specs.Day.{day_text};
ghost use Rattle.arrayvec.specs.ArrayString.{array_string_len};
ghost use Rattle.csv_records.specs.Lines.{csv_line, csv_text, entry_fields, fields_text, list_header, list_rows, payload_header, payload_row, vrp_fields};

use addr::{Asn, Day, Prefix, RoaPrefix, Vrp, digits_length, push_digits};
use arrayvec::ArrayString;
use registry::Auth;
use std::alloc::{AllocError, Global};

/// The first line of the VRPs' CSV, with its line feed.
pub fn payload_header() -> &'static str
    ensures text { result.now ≡ csv_line payload_header }
    ensures short { length result.now < 100 }
{
    "asn,prefix,maxlength\n"
}

/// The line of a VRP, with its line feed.
pub fn payload_line(vrp: &Vrp) -> ArrayString<160>
    ensures { result.bytes ≡ csv_line (payload_row vrp.now) }
{
    let mut text = ArrayString::new();
    push_payload_line(&mut text, vrp);
    text
}

/// Appends the line of a VRP, with its line feed.
pub fn push_payload_line<const N: usize>(text: &mut ArrayString<N>, vrp: &Vrp)
    requires { array_string_len text.old + 160 ≤ N }
    ensures { text.new.bytes ≡ text.old.bytes ++ csv_line (payload_row vrp.now) }
{
    push_vrp_fields(text, vrp.asn, &vrp.prefix, vrp.max);
    text.push_str("\n");
}

/// The length of a VRP's line, found without making the line.
pub fn payload_line_length(vrp: &Vrp) -> usize
    ensures { result ≡ length (csv_line (payload_row vrp.now)) }
{
    let asn = "AS".len() + digits_length(u64::from(vrp.asn.0));
    let max = digits_length(u64::from(vrp.max));
    asn + ",".len() + vrp.prefix.text_length() + ",".len() + max + "\n".len()
}

/// VRPs with their header.
pub fn payload_lines(alloc: Global, vrps: &[Vrp]) -> Result<Vec<u8>, AllocError>
    ensures { IfOk result (λ text. text.items ≡ csv_text payload_header payload_row vrps.now) }
{
    let mut text = Vec::new(alloc);
    text.extend_from_slice(payload_header().as_bytes())?;
    for vrp in vrps {
        text.extend_from_slice(payload_line(vrp).as_str().as_bytes())?;
    }
    Ok(text)
}

/// Authorizations with their header, a line for each entry.
pub fn list_lines(alloc: Global, auths: &[Auth]) -> Result<Vec<u8>, AllocError>
    ensures { IfOk result (λ text. text.items
        ≡ csv_text list_header (λ row. row) (flat_map list_rows auths.now)) }
{
    let mut text = Vec::new(alloc);
    text.extend_from_slice(b"number,asn,prefix,maxlength,from,until\n")?;
    for auth in auths {
        push_lines(&mut text, auth, auth.entries.as_slice())?;
    }
    Ok(text)
}

/// Adds a line of the authorization for each of these entries.
fn push_lines(text: &mut Vec<u8>, auth: &Auth, entries: &[RoaPrefix]) -> Result<(), AllocError>
    ensures { OnOk result (text.new.items
        ≡ text.old.items ++ flat_map csv_line (map (entry_fields auth.now) entries.now)) }
{
    for entry in entries {
        text.extend_from_slice(entry_line(auth, entry).as_str().as_bytes())?;
    }
    Ok(())
}

/// The line of an authorization and this entry, with its line feed.
fn entry_line(auth: &Auth, entry: &RoaPrefix) -> ArrayString<160>
    ensures { result.bytes ≡ csv_line (entry_fields auth.now entry.now) }
{
    let mut text = ArrayString::new();
    push_digits(&mut text, u64::from(auth.number));
    text.push_str(",");
    push_vrp_fields(&mut text, auth.asn, &entry.prefix, entry.max);
    text.push_str(",");
    text.push_str(day_text(auth.from).as_str());
    text.push_str(",");
    text.push_str(day_text(auth.until).as_str());
    text.push_str("\n");
    text
}

/// Appends the fields that VRPs and authorizations share.
fn push_vrp_fields<const N: usize>(text: &mut ArrayString<N>, asn: Asn, prefix: &Prefix, max: u8)
    requires room { array_string_len text.old + 100 ≤ N }
    ensures bytes { text.new.bytes
        ≡ text.old.bytes ++ fields_text (vrp_fields asn prefix.now max) }
    ensures len { array_string_len text.new ≤ array_string_len text.old + 100 }
{
    text.push_str("AS");
    push_digits(text, u64::from(asn.0));
    text.push_str(",");
    prefix.push_to(text);
    text.push_str(",");
    push_digits(text, u64::from(max));
}

/// A day as `YYYY-MM-DD`.
pub fn day_text(day: Day) -> ArrayString<10>
    ensures { result.bytes ≡ day_text day }
{
    let mut text = ArrayString::new();
    day.write_to(&mut text);
    text
}
