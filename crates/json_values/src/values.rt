//! Values as names, prefixes, days and numbers.
ghost use Rattle.std.specs.Prelude.{◌≡◌, ◌≤◌, IfSome};
ghost use Rattle.serde_json.specs.View.{view};
ghost use Rattle.json_values.specs.Values.{as_asn, as_day, as_name, as_number_in, as_prefix};

use addr::{Asn, Day, Name, Prefix};
use serde_json::Value;

/// The name that a JSON text is.
pub fn as_name(value: &Value) -> Option<Name>
    ensures { result ≡ as_name (view value.now) }
{
    Name::read(value.as_str()?.as_bytes())
}

/// The prefix of which a JSON text is the one spelling.
pub fn as_prefix(value: &Value) -> Option<Prefix>
    ensures { result ≡ as_prefix (view value.now) }
{
    Prefix::read(value.as_str()?.as_bytes()).ok()
}

/// The day that a JSON text names as `YYYY-MM-DD`.
pub fn as_day(value: &Value) -> Option<Day>
    ensures { result ≡ as_day (view value.now) }
{
    Day::read(value.as_str()?.as_bytes())
}

/// The AS number that a JSON number below 2 ^ 32 is, if it is written in plain decimal digits.
pub fn as_asn(value: &Value) -> Option<Asn>
    ensures { result ≡ as_asn (view value.now) }
{
    match value.as_u64() {
        Some(number) if number <= u64::from(u32::MAX) => Some(Asn(number as u32)),
        _ => None,
    }
}

/// The whole number from `least` to `most` that a JSON number is, if it is written in plain decimal
/// digits.
pub fn as_number_in(value: &Value, least: u64, most: u64) -> Option<u64>
    ensures value { result ≡ as_number_in least most (view value.now) }
    ensures range { IfSome result (λ number. (least ≤ number) × (number ≤ most)) }
{
    match value.as_u64() {
        Some(number) if least <= number && number <= most => Some(number),
        _ => None,
    }
}
