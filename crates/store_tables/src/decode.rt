//! Reads typed values from the cells that show them.
ghost use Rattle.std.specs.Prelude.{◌≡◌, ◌≢◌, [], ◌∷◌, length, ⊤, IfSome, IsTrue};
ghost use Rattle.std.specs.Bool.{OnTrue, OnFalse};
ghost use Rattle.addr.specs.Address.{FitsMaxLength};
ghost use Rattle.addr.specs.Day.{IsDay};
ghost use Rattle.addr.specs.Name.{is_name};
ghost use Rattle.registry.specs.Values.{IsU8, IsU32, IsCount, IsNumber, VrpFits};
ghost use Rattle.sqlite_value.specs.declared.value.Value.TheVariants.{Text, Blob};
ghost use Rattle.sqlite_value.specs.Order.{column};
ghost use Rattle.sqlite_value.specs.Value.{owned};
ghost use Rattle.store_tables.specs.Cells.{address_bytes, number_cell, family_number, role_number, prefix_cells, scope_cells, span_cells, vrp_cells};
ghost use Rattle.store_tables.specs.Decode.{Decodes, first_columns};

use addr::{Asn, Day, Family, Name, Prefix, Span, Vrp};
use registry::{LAST_NUMBER, Role, Scope};
use sqlite::Row;
use sqlite::types::ValueRef;

/// The number that 16 bytes are, the most significant first.
fn address_from_bytes(bytes: &[u8]) -> Option<u128>
    ensures some { IfSome result (λ number. bytes.now ≡ address_bytes number) }
    ensures none { result ≡ None → length bytes.now ≢ 16 }
{
    if bytes.len() != 16 {
        return None;
    }
    let mut number: u128 = 0;
    for byte in bytes {
        number = number * 256 + u128::from(*byte);
    }
    Some(number)
}

/// The value in a column, and NULL past the end.
pub fn cell(row: &Row, at: usize) -> ValueRef<'_>
    ensures { owned result ≡ column row.now at }
{
    row.get_ref(at).unwrap_or(ValueRef::Null)
}

/// A number below 2 ^ 32.
pub(crate) fn decode_u32(value: ValueRef<'_>) -> Option<u32>
    ensures { Decodes number_cell IsU32 (owned value.entry) result }
{
    match value {
        ValueRef::Int(number) => u32::try_from(number).ok(),
        _ => None,
    }
}

/// The number in a row of one number, such as that of `SELECT COUNT(*)`, if it is below 2 ^ 32.
pub fn count_in(row: &Row) -> Option<u32>
    ensures { Decodes number_cell IsU32 (column row.now 0) result }
{
    decode_u32(cell(row, 0))
}

/// How many grants or authorizations were made.
pub(crate) fn decode_count(value: ValueRef<'_>) -> Option<u32>
    ensures { Decodes number_cell IsCount (owned value.entry) result }
{
    let count = decode_u32(value)?;
    (count <= LAST_NUMBER).then_some(count)
}

/// The number of a grant or an authorization.
pub(crate) fn decode_number(value: ValueRef<'_>) -> Option<u32>
    ensures { Decodes number_cell IsNumber (owned value.entry) result }
{
    let number = decode_count(value)?;
    (number >= 1).then_some(number)
}

/// A number below 256.
pub(crate) fn decode_u8(value: ValueRef<'_>) -> Option<u8>
    ensures { Decodes number_cell IsU8 (owned value.entry) result }
{
    match value {
        ValueRef::Int(number) => u8::try_from(number).ok(),
        _ => None,
    }
}

/// A day, by its number.
pub(crate) fn decode_day(value: ValueRef<'_>) -> Option<Day>
    ensures { Decodes number_cell IsDay (owned value.entry) result }
{
    Day::from_number(decode_u32(value)?)
}

/// A family, by its number.
fn decode_family(value: ValueRef<'_>) -> Option<Family>
    ensures { Decodes (λ family. number_cell (family_number family)) (λ _. ⊤)
        (owned value.entry) result }
{
    match value {
        ValueRef::Int(4) => Some(Family::V4),
        ValueRef::Int(6) => Some(Family::V6),
        _ => None,
    }
}

/// A role, by its number.
pub(crate) fn decode_role(value: ValueRef<'_>) -> Option<Role>
    ensures { Decodes (λ role. number_cell (role_number role)) (λ _. ⊤) (owned value.entry) result }
{
    match value {
        ValueRef::Int(1) => Some(Role::Manager),
        ValueRef::Int(2) => Some(Role::Clerk),
        ValueRef::Int(3) => Some(Role::Auditor),
        _ => None,
    }
}

/// The name of a holder, a caller or an operator.
pub(crate) fn decode_name(value: ValueRef<'_>) -> Option<Name>
    ensures { Decodes Text (λ text. IsTrue (is_name text)) (owned value.entry) result }
{
    match value {
        ValueRef::Text(text) => Name::read(text),
        _ => None,
    }
}

/// An address, as a number.
fn decode_address(value: ValueRef<'_>) -> Option<u128>
    ensures { Decodes (λ number. Blob (address_bytes number)) (λ _. ⊤) (owned value.entry) result }
{
    match value {
        ValueRef::Blob(bytes) => address_from_bytes(bytes),
        _ => None,
    }
}

/// The prefix that three columns show.
pub(crate) fn decode_prefix(
    family: ValueRef<'_>,
    first: ValueRef<'_>,
    length: ValueRef<'_>,
) -> Option<Prefix>
    ensures { Decodes prefix_cells (λ _. ⊤)
        (owned family.entry ∷ owned first.entry ∷ owned length.entry ∷ []) result }
{
    let family = decode_family(family)?;
    let first = decode_address(first)?;
    let length = decode_u8(length)?;
    Prefix::from_parts(family, first, length)
}

/// A maxLength of the prefix.
pub(crate) fn decode_max_length(prefix: &Prefix, value: ValueRef<'_>) -> Option<u8>
    ensures { Decodes number_cell (FitsMaxLength prefix.now) (owned value.entry) result }
{
    let max = decode_u8(value)?;
    prefix.fits_max_length(max).then_some(max)
}

/// The scope that three columns show, which are NULL if it is all prefixes.
pub(crate) fn decode_scope(
    family: ValueRef<'_>,
    first: ValueRef<'_>,
    length: ValueRef<'_>,
) -> Option<Scope>
    ensures { Decodes scope_cells (λ _. ⊤)
        (owned family.entry ∷ owned first.entry ∷ owned length.entry ∷ []) result }
{
    match (family, first, length) {
        (ValueRef::Null, ValueRef::Null, ValueRef::Null) => Some(Scope::All),
        _ => Some(Scope::Only(decode_prefix(family, first, length)?)),
    }
}

/// The run of addresses that three columns show.
pub(crate) fn decode_span(family: ValueRef<'_>, lo: ValueRef<'_>, hi: ValueRef<'_>) -> Option<Span>
    ensures { Decodes span_cells (λ _. ⊤)
        (owned family.entry ∷ owned lo.entry ∷ owned hi.entry ∷ []) result }
{
    let family = decode_family(family)?;
    let lo = decode_address(lo)?;
    let hi = decode_address(hi)?;
    Span::from_parts(family, lo, hi)
}

/// An AS number.
pub(crate) fn decode_asn(value: ValueRef<'_>) -> Option<Asn>
    ensures { Decodes (λ asn. number_cell asn.0) (λ asn. IsU32 asn.0) (owned value.entry) result }
{
    Some(Asn(decode_u32(value)?))
}

/// The VRP that five columns show.
pub(crate) fn decode_vrp(
    asn: ValueRef<'_>,
    family: ValueRef<'_>,
    first: ValueRef<'_>,
    length: ValueRef<'_>,
    max: ValueRef<'_>,
) -> Option<Vrp>
    ensures { Decodes vrp_cells VrpFits
        (owned asn.entry ∷ owned family.entry ∷ owned first.entry ∷ owned length.entry
        ∷ owned max.entry ∷ []) result }
{
    let asn = decode_asn(asn)?;
    let prefix = decode_prefix(family, first, length)?;
    Vrp::from_parts(prefix, decode_u8(max)?, asn)
}
