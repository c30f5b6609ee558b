//! The lengths of bodies.
ghost use Rattle.std.specs.Prelude.{◌≡◌, ◌+◌, ◌<◌, true, map, min, length, option_map, All};
ghost use Rattle.std.specs.Char.{digit_value, is_ascii_digit};
ghost use Rattle.std.specs.List.{list_all};
ghost use Rattle.std.specs.Str.Parse.{digits_value};
ghost use Rattle.httparse.specs.Spans.{IsHeaderWithin, header_bytes};
ghost use Rattle.http_messages.specs.Lengths.{body_length, content_length, is_number, length_within};

use crate::body::BODY_LIMIT;
use crate::field::only_value;
use crate::refusal::HttpRefusal;
use httparse::spans::HeaderSpan;

/// The length of the body that follows a head, if the request has a body.
pub fn body_length(
    head: &[u8],
    fields: &[HeaderSpan],
    has_body: bool,
) -> Result<Option<usize>, HttpRefusal>
    requires { All (IsHeaderWithin (length head.now)) fields.now }
    ensures { result ≡ body_length has_body (map (header_bytes head.now) fields.now) }
{
    let Ok(None) = only_value(head, fields, b"transfer-encoding") else {
        return Err(HttpRefusal::LengthRequired);
    };
    let Ok(value) = only_value(head, fields, b"content-length") else {
        return Err(HttpRefusal::BadRequest);
    };
    match value {
        Some(text) => length_within(text, has_body),
        None if has_body => Err(HttpRefusal::LengthRequired),
        None => Ok(None),
    }
}

/// The length that `Content-Length` gives, within the limit.
fn length_within(text: &[u8], has_body: bool) -> Result<Option<usize>, HttpRefusal>
    ensures { result ≡ length_within has_body (content_length text.now) }
{
    let Some(size) = capped_length(text) else {
        return Err(HttpRefusal::BadRequest);
    };
    if has_body {
        if size > BODY_LIMIT {
            return Err(HttpRefusal::ContentTooLarge);
        }
        return Ok(Some(size));
    }
    if size > 0 {
        return Err(HttpRefusal::BadRequest);
    }
    Ok(None)
}

/// The number that decimal digits write, or the limit plus 1 if it is over the limit.
fn capped_length(text: &[u8]) -> Option<usize>
    ensures { result ≡ option_map (λ size. min size (BODY_LIMIT + 1)) (content_length text.now) }
{
    if !is_number(text) {
        return None;
    }
    Some(capped_number(text))
}

/// Whether the text is one decimal digit or more.
fn is_number(text: &[u8]) -> bool
    ensures { result ≡ is_number text.now }
{
    !text.is_empty() && are_digits(text)
}

fn are_digits(text: &[u8]) -> bool
    ensures { result ≡ list_all is_ascii_digit text.now }
{
    text.iter().all(|byte| byte.is_ascii_digit())
}

/// The number that digits write, or the limit plus 1 if it is over the limit.
fn capped_number(digits: &[u8]) -> usize
    requires { is_number digits.now ≡ true }
    ensures { result ≡ min (digits_value 10 digits.now) (BODY_LIMIT + 1) }
{
    let mut number = 0;
    for digit in digits {
        number = (number * 10 + digit_value(*digit)).min(BODY_LIMIT + 1);
    }
    number
}

fn digit_value(digit: u8) -> usize
    ensures value { is_ascii_digit digit ≡ true → result ≡ digit_value digit }
    ensures small { result < 10 }
{
    if digit.is_ascii_digit() {
        (digit - b'0') as usize
    } else {
        0
    }
}
