//! Fields of a head.
ghost use Rattle.std.specs.Prelude.{◌≡◌, map, length, All};
ghost use Rattle.std.specs.Str.{str_eq_ignore_ascii_case};
ghost use Rattle.httparse.specs.Spans.{IsHeaderWithin, header_bytes};
ghost use Rattle.http_messages.specs.Fields.{only_value, seen_value, values_of};

use httparse::spans::HeaderSpan;

/// A head has a field more than once.
#[derive(Clone, Copy, Debug, PartialEq, Eq)]
pub struct Repeated;

/// The one value of the field of this name, if there is one.
pub fn only_value<'a>(
    head: &'a [u8],
    fields: &[HeaderSpan],
    name: &[u8],
) -> Result<Option<&'a [u8]>, Repeated>
    requires { All (IsHeaderWithin (length head.now)) fields.now }
    ensures { seen_value result
        ≡ only_value (values_of name.now (map (header_bytes head.now) fields.now)) }
{
    let mut found = None;
    for field in fields {
        if !is_named(field.name.of(head), name) {
            continue;
        }
        if found.is_some() {
            return Err(Repeated);
        }
        found = Some(field.value.of(head));
    }
    Ok(found)
}

fn is_named(field_name: &[u8], name: &[u8]) -> bool
    ensures { result ≡ str_eq_ignore_ascii_case field_name.now name.now }
{
    field_name.eq_ignore_ascii_case(name)
}
