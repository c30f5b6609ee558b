//! Writing the one spelling.
ghost use Rattle.std.specs.Prelude.{◌≡◌, ◌+◌, ◌*◌, ◌<◌, ◌≤◌, ◌++◌, length};
ghost use Rattle.std.specs.Char.{digit_char};
ghost use Rattle.arrayvec.specs.ArrayString.{array_string_len};
ghost use Rattle.std.specs.Net.Text.{groups_text, hex, longest_zero_run, ipv4_text, hex_groups_text};
ghost use Rattle.addr.specs.PrefixText.{digits_in, groups_of, octets_of, spelling};

use crate::Family;
use crate::ascii::push_ascii;
use crate::decimal::{push_short, short_length};
use arrayvec::ArrayString;

fn hex_digit(digit: u16) -> u8
    requires { digit < 16 }
    ensures value { result ≡ digit_char digit }
    ensures ascii { result < 128 }
{
    if digit < 10 {
        b'0' + digit as u8
    } else {
        b'a' + (digit - 10) as u8
    }
}

#[tactic(auto, unfolding(std::specs::Net::Text::hex))]
fn push_group<const N: usize>(text: &mut ArrayString<N>, group: u16)
    requires { array_string_len text.old + 4 ≤ N }
    ensures bytes { text.new.bytes ≡ text.old.bytes ++ hex group }
    ensures len { array_string_len text.new ≤ array_string_len text.old + 4 }
{
    if group >= 0x1000 {
        push_ascii(text, hex_digit(group / 0x1000));
    }
    if group >= 0x100 {
        push_ascii(text, hex_digit(group / 0x100 % 16));
    }
    if group >= 0x10 {
        push_ascii(text, hex_digit(group / 0x10 % 16));
    }
    push_ascii(text, hex_digit(group % 16));
}

/// Groups with a colon between them.
fn push_groups<const N: usize>(text: &mut ArrayString<N>, groups: &[u16])
    requires { array_string_len text.old + 5 * length groups.now ≤ N }
    ensures bytes { text.new.bytes ≡ text.old.bytes ++ groups_text groups.now }
    ensures len { array_string_len text.new ≤ array_string_len text.old + 5 * length groups.now }
{
    if let [first, rest @ ..] = groups {
        push_group(text, *first);
        for group in rest {
            push_ascii(text, b':');
            push_group(text, *group);
        }
    }
}

/// The start and the length of the longest run of zero groups, of equal runs the first.
fn longest_run(groups: &[u16]) -> (usize, usize)
    ensures value { result ≡ longest_zero_run groups.now }
    ensures within { result.0 + result.1 ≤ length groups.now }
{
    let mut longest = (groups.len(), 0);
    let mut run = 0;
    for i in (0..groups.len()).rev() {
        run = if groups[i] == 0 { run + 1 } else { 0 };
        if run >= longest.1 {
            longest = (i, run);
        }
    }
    longest
}

/// Fills `digits` with the last digits of `number` in the base, the highest first.
fn write_digits(mut number: u128, base: u128, digits: &mut [u16])
    requires many { 2 ≤ base }
    requires few { base ≤ 0x10000 }
    ensures { digits.new ≡ digits_in base (length digits.old) number }
{
    for i in (0..digits.len()).rev() {
        digits[i] = (number % base) as u16;
        number /= base;
    }
}

#[tactic(auto, using(crate::proofs::PrefixTextLemmas::octet_small))]
fn push_dotted<const N: usize>(text: &mut ArrayString<N>, address: u128)
    requires { array_string_len text.old + 15 ≤ N }
    ensures bytes { text.new.bytes ≡ text.old.bytes ++ ipv4_text (octets_of address) }
    ensures len { array_string_len text.new ≤ array_string_len text.old + 15 }
{
    let mut octets = [0; 4];
    write_digits(address, 0x100, &mut octets);
    push_short(text, octets[0]);
    push_ascii(text, b'.');
    push_short(text, octets[1]);
    push_ascii(text, b'.');
    push_short(text, octets[2]);
    push_ascii(text, b'.');
    push_short(text, octets[3]);
}

/// How many characters `push_dotted` appends.
#[tactic(auto, using(crate::proofs::PrefixTextLemmas::octet_small, crate::proofs::PrefixTextLemmas::length_dotted))]
pub(super) fn dotted_length(address: u128) -> usize
    ensures value { result ≡ length (ipv4_text (octets_of address)) }
    ensures few { result ≤ 15 }
{
    let mut octets = [0; 4];
    write_digits(address, 0x100, &mut octets);
    let front = short_length(octets[0]) + short_length(octets[1]);
    let back = short_length(octets[2]) + short_length(octets[3]);
    front + back + 3
}

#[tactic(auto, unfolding(std::specs::Net::Text::hex_groups_text), using(crate::proofs::PrefixTextLemmas::length_digits_in))]
fn push_hex_groups<const N: usize>(text: &mut ArrayString<N>, address: u128)
    requires { array_string_len text.old + 40 ≤ N }
    ensures bytes { text.new.bytes ≡ text.old.bytes ++ hex_groups_text (groups_of address) }
    ensures len { array_string_len text.new ≤ array_string_len text.old + 40 }
{
    let mut groups = [0; 8];
    write_digits(address, 0x10000, &mut groups);
    let (start, len) = longest_run(&groups);
    if len < 2 {
        push_groups(text, &groups);
        return;
    }
    push_groups(text, &groups[..start]);
    push_ascii(text, b':');
    push_ascii(text, b':');
    push_groups(text, &groups[start + len..]);
}

/// Appends the one spelling: at most eight groups of four digits with seven colons, `/` and three digits.
#[tactic(auto, unfolding(crate::specs::PrefixText::spelling))]
pub(super) fn push_spelling<const N: usize>(
    text: &mut ArrayString<N>,
    family: Family,
    address: u128,
    length: u16,
)
    requires small { length < 1000 }
    requires room { array_string_len text.old + 48 ≤ N }
    ensures bytes { text.new.bytes ≡ text.old.bytes ++ spelling family address length }
    ensures len { array_string_len text.new ≤ array_string_len text.old + 48 }
{
    match family {
        Family::V4 => push_dotted(text, address),
        Family::V6 => push_hex_groups(text, address),
    }
    push_ascii(text, b'/');
    push_short(text, length);
}
