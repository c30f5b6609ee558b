//! Numbers as decimal digits.
ghost use Rattle.std.specs.Prelude.{◌≡◌, ℕ, ◌+◌, ◌^◌, ◌<◌, ◌≤◌, ◌++◌, length, MatchOption};
ghost use Rattle.std.specs.Fmt.{decimal};
ghost use Rattle.arrayvec.specs.ArrayString.{array_string_len};
ghost use Rattle.addr.specs.Digits.{in_three_digits, number_in};

use crate::ascii::{push_ascii, push_ascii_if};
use arrayvec::ArrayString;

/// The decimal digits of `number`, without leading zeros.
pub fn digits(number: u64) -> ArrayString<20>
    ensures text { result.bytes ≡ decimal number }
    ensures len { array_string_len result ≤ 20 }
{
    let mut text = ArrayString::new();
    push_digits(&mut text, number);
    text
}

/// Appends the decimal digits of `number`, without leading zeros.
pub fn push_digits<const N: usize>(text: &mut ArrayString<N>, number: u64)
    requires room { array_string_len text.old + 20 ≤ N }
    ensures bytes { text.new.bytes ≡ text.old.bytes ++ decimal number }
    ensures len { array_string_len text.new ≤ array_string_len text.old + 20 }
{
    if number < 1000 {
        push_short(text, number as u16);
    } else {
        push_digits(text, number / 1000);
        push_three_digits(text, (number % 1000) as u16);
    }
}

/// Appends the decimal digits of a number below 1000, without leading zeros.
pub(crate) fn push_short<const N: usize>(text: &mut ArrayString<N>, number: u16)
    requires small { number < 1000 }
    requires room { array_string_len text.old + 3 ≤ N }
    ensures bytes { text.new.bytes ≡ text.old.bytes ++ decimal number }
    ensures len { array_string_len text.new ≤ array_string_len text.old + 3 }
{
    let last_two = number % 100;
    push_ascii_if(text, b'0' + (number / 100) as u8, number >= 100);
    if number >= 10 {
        push_ascii(text, b'0' + (last_two / 10) as u8);
    }
    push_ascii(text, b'0' + (last_two % 10) as u8);
}

fn push_three_digits<const N: usize>(text: &mut ArrayString<N>, number: u16)
    requires small { number < 1000 }
    requires room { array_string_len text.old + 3 ≤ N }
    ensures { text.new.bytes ≡ text.old.bytes ++ in_three_digits number }
{
    let last_two = number % 100;
    push_ascii(text, b'0' + (number / 100) as u8);
    push_ascii(text, b'0' + (last_two / 10) as u8);
    push_ascii(text, b'0' + (last_two % 10) as u8);
}

/// How many decimal digits `number` has, without leading zeros.
#[tactic(auto, using(crate::proofs::PrefixTextLemmas::length_by_thousands, crate::proofs::PrefixTextLemmas::length_decimal, crate::proofs::PrefixTextLemmas::length_thousands))]
pub fn digits_length(number: u64) -> usize
    ensures value { result ≡ length (decimal number) }
    ensures few { result ≤ 20 }
{
    if number < 1000 {
        short_length(number as u16)
    } else {
        digits_length(number / 1000) + 3
    }
}

/// How many decimal digits a number below 1000 has.
#[tactic(auto, using(crate::proofs::PrefixTextLemmas::decimal_one, crate::proofs::PrefixTextLemmas::decimal_two, crate::proofs::PrefixTextLemmas::decimal_three))]
pub(crate) fn short_length(number: u16) -> usize
    requires { number < 1000 }
    ensures value { result ≡ length (decimal number) }
    ensures few { result ≤ 3 }
{
    if number < 10 {
        1
    } else if number < 100 {
        2
    } else {
        3
    }
}

/// The number below 2^64 whose decimal digits `text` is, without leading zeros; `None` for any
/// other text.
pub fn number_from_text(text: &[u8]) -> Option<u64>
    ensures value { result ≡ number_in text.now }
    ensures exact { MatchOption result
        ((n : ℕ) → n < 2 ^ 64 → ¬ (text.now ≡ decimal n))
        (λ n. text.now ≡ decimal n) }
{
    let Some(number) = parse(text) else {
        return None;
    };
    if digits(number).as_str().as_bytes() == text {
        Some(number)
    } else {
        None
    }
}

/// Reads more spellings than one: a plus and leading zeros too.
fn parse(text: &[u8]) -> Option<u64>
    ensures { (n : ℕ) → n < 2 ^ 64 → text.now ≡ decimal n → result ≡ Some n }
{
    let Ok(text) = str::from_utf8(text) else {
        return None;
    };
    text.parse().ok()
}
