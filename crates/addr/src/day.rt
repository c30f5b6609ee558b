//! Days of the calendar.
ghost use Rattle.std.specs.Prelude.{◌≡◌, ◌+◌, ◌≤◌, ◌++◌, IfSome, nat_le, if◌then◌else◌, pos, Some, None};
ghost use Rattle.arrayvec.specs.ArrayString.{array_string_len};
ghost use Rattle.jiff.specs.Words.{epoch_day};
ghost use Rattle.addr.specs.Day.{IsDay, day_in, day_text, date_text, in_two_digits, day_number, digit, two_digits, four_digits, from_1970};
ghost use Rattle.addr.specs.declared.day.TheConstants.{LAST_DAY};

use crate::ascii::push_ascii;
use arrayvec::ArrayString;
use jiff::civil::Date;
use jiff::{ToSpan, civil};
use std::marker::Model;

/// The number of 9999-12-31.
pub(crate) const LAST_DAY: u32 = 2_932_896;

/// A day from 1970-01-01 to 9999-12-31, seen as the number of days since 1970-01-01.
#[derive(Clone, Copy, Debug, PartialEq, Eq, PartialOrd, Ord)]
pub struct Day {
    number: u32,
}

impl Model for Day {
    ghost use Rattle.std.specs.Prelude.{ℕ};
    ghost use Rattle.addr.specs.Day.{IsDay};

    ghost Value = { ℕ };

    ghost view = { λ day. day.number };

    ghost invariant = { λ day. IsDay day.number };

    ghost inverse = { λ number. record { number = number } };
}

impl Day {
    /// The day that `text` names as `YYYY-MM-DD`, or `None` for any other text.
    pub fn read(text: &[u8]) -> Option<Day>
        ensures { result ≡ day_in text.now }
    {
        match text {
            [a, b, c, d, b'-', e, f, b'-', g, h] => {
                let year = four_digits(*a, *b, *c, *d)?;
                let month = two_digits(*e, *f)?;
                let day = two_digits(*g, *h)?;
                Day::on(year, month, day)
            }
            _ => None,
        }
    }

    /// The day that is `number` days after 1970-01-01, or `None` past 9999-12-31.
    pub fn from_number(number: u32) -> Option<Day>
        ensures { result ≡ (if nat_le number LAST_DAY then Some number else None) }
    {
        if number <= LAST_DAY {
            Some(Day { number })
        } else {
            None
        }
    }

    /// How many days after 1970-01-01 it is.
    pub fn number(&self) -> u32
        ensures value { result ≡ self.now }
        ensures is_day { IsDay self.now }
    {
        self.number
    }

    /// Writes the day as `YYYY-MM-DD` in place of what `text` held.
    pub fn write_to(&self, text: &mut ArrayString<10>)
        ensures written { text.new.bytes ≡ day_text self.now }
        ensures reads_back { day_in text.new.bytes ≡ Some self.now }
        ensures len { array_string_len text.new ≡ 10 }
    {
        let date = self.date();
        write_date(
            text,
            date.year() as u16,
            date.month() as u8,
            date.day() as u8,
        );
    }

    fn date(&self) -> Date
        ensures { epoch_day result ≡ pos self.now }
    {
        match epoch().checked_add(i64::from(self.number).days()) {
            Ok(date) => date,
            Err(_) => unreachable!(),
        }
    }

    fn on(year: u16, month: u8, day: u8) -> Option<Day>
        requires year { year ≤ 9999 }
        requires month { month ≤ 99 }
        requires day { day ≤ 99 }
        ensures { result ≡ day_number year month day }
    {
        match Date::new(year as i16, month as i8, day as i8) {
            Ok(date) => Day::of(date),
            Err(_) => None,
        }
    }

    fn of(date: Date) -> Option<Day>
        ensures { result ≡ from_1970 (epoch_day date) }
    {
        let hours = date.duration_since(epoch()).as_hours();
        match u64::try_from(hours) {
            Ok(hours) => Some(Day {
                number: (hours / 24) as u32,
            }),
            Err(_) => None,
        }
    }
}

/// 1970-01-01.
#[tactic(auto, using(crate::proofs::DayLemmas::epoch_is_zero))]
fn epoch() -> Date
    ensures { epoch_day result ≡ pos 0 }
{
    civil::date(1970, 1, 1)
}

fn write_date(text: &mut ArrayString<10>, year: u16, month: u8, day: u8)
    requires year { year ≤ 9999 }
    requires month { month ≤ 99 }
    requires day { day ≤ 99 }
    ensures { text.new.bytes ≡ date_text year month day }
{
    text.clear();
    push_two_digits(text, (year / 100) as u8);
    push_two_digits(text, (year % 100) as u8);
    push_ascii(text, b'-');
    push_two_digits(text, month);
    push_ascii(text, b'-');
    push_two_digits(text, day);
}

fn push_two_digits(text: &mut ArrayString<10>, number: u8)
    requires small { number ≤ 99 }
    requires room { array_string_len text.old ≤ 8 }
    ensures bytes { text.new.bytes ≡ text.old.bytes ++ in_two_digits number }
    ensures len { array_string_len text.new ≡ array_string_len text.old + 2 }
{
    push_ascii(text, b'0' + number / 10);
    push_ascii(text, b'0' + number % 10);
}

fn digit(byte: u8) -> Option<u8>
    ensures { result ≡ digit byte }
{
    if byte.is_ascii_digit() {
        Some(byte - b'0')
    } else {
        None
    }
}

fn two_digits(tens: u8, ones: u8) -> Option<u8>
    ensures value { result ≡ two_digits tens ones }
    ensures small { IfSome result (λ n. n ≤ 99) }
{
    Some(10 * digit(tens)? + digit(ones)?)
}

fn four_digits(thousands: u8, hundreds: u8, tens: u8, ones: u8) -> Option<u16>
    ensures value { result ≡ four_digits thousands hundreds tens ones }
    ensures small { IfSome result (λ n. n ≤ 9999) }
{
    Some(100 * u16::from(two_digits(thousands, hundreds)?) + u16::from(two_digits(tens, ones)?))
}
