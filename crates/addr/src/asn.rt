//! AS numbers.
ghost use Rattle.std.specs.Prelude.{◌≡◌, ℕ, ◌^◌, ◌<◌, MatchOption, Some};
ghost use Rattle.std.specs.Option.{option_map};
ghost use Rattle.addr.specs.Digits.{asn_text, asn_in};

use crate::number_from_text;
use std::fmt;

/// The number of an autonomous system (RFC 6793).
#[derive(Clone, Copy, Debug, PartialEq, Eq, PartialOrd, Ord)]
pub struct Asn(pub u32);

impl Asn {
    /// The AS number that `text` writes as `AS64496`: the letters AS and decimal digits without
    /// leading zeros. `None` for any other text.
    pub fn from_text(text: &[u8]) -> Option<Asn>
        ensures value { option_map (λ asn. asn.0) result ≡ asn_in text.now }
        ensures exact { MatchOption result
            ((n : ℕ) → n < 2 ^ 32 → ¬ (text.now ≡ asn_text n))
            (λ asn. text.now ≡ asn_text asn.0) }
    {
        let [b'A', b'S', digits @ ..] = text else {
            return None;
        };
        match number_from_text(digits) {
            Some(number) if number <= u64::from(u32::MAX) => Some(Asn(number as u32)),
            _ => None,
        }
    }
}

impl fmt::Display for Asn {
    ghost output = { λ asn. Some (asn_text asn.0) };

    fn fmt<W: fmt::Write>(&self, f: &mut fmt::Formatter<W>) -> fmt::Result {
        let number = self.0;
        write!(f, "AS{number}")
    }
}
