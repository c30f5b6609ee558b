//! Prefixes.
ghost use Rattle.std.specs.Prelude.{◌≡◌, ◌+◌, ◌-◌, ◌/◌, ◌%◌, ◌^◌, ◌<◌, ◌≤◌, ◌↔◌, IsTrue, IsSome, IfSome};
ghost use Rattle.addr.specs.Family.{width};

use crate::{Family, Span};

/// All addresses of a family that share their first `length` bits (RFC 4291 section 2.3).
///
/// Prefixes rise by family, first address and length. The address comes first in memory, since it
/// is aligned to 16 octets: so a prefix takes 32, and not 48.
#[derive(Clone, Copy, Debug)]
pub struct Prefix {
    /// The first address, as a number.
    pub first: u128,
    pub family: Family,
    /// How many leading bits the addresses share, at most the family's width.
    pub length: u8,
    ghost length_fits: { length ≤ width family },
    ghost aligned: { first % 2 ^ (width family - length) ≡ 0 },
    ghost in_family: { first + 2 ^ (width family - length) ≤ 2 ^ width family },
}

impl Prefix {
    ghost use Rattle.addr.specs.Address.{last_of, contains, overlaps, fits_max_length, prefix_eq, bit_of, FitsMaxLength, IsPrefix, Contains, Overlaps};

    /// The prefix of these parts; `None` if the length is over the family's width, the address is
    /// over the family's last, or a bit past the length is set.
    pub fn from_parts(family: Family, first: u128, length: u8) -> Option<Prefix>
        ensures some { IsSome result ↔ IsPrefix family first length }
        ensures parts { IfSome result
            (λ p. (p.family ≡ family) × (p.first ≡ first) × (p.length ≡ length)) }
    {
        if length > family.width() || first > family.last_address() {
            return None;
        }
        if !is_multiple(first, family.width() - length) {
            return None;
        }
        Some(Prefix {
            family,
            first,
            length,
        })
    }

    /// The last address, as a number.
    pub fn last(&self) -> u128
        ensures { result ≡ last_of self.now }
    {
        let host_bits = self.family.width() - self.length;
        match 1u128.checked_shl(u32::from(host_bits)) {
            Some(size) => self.first + (size - 1),
            None => self.first + u128::MAX,
        }
    }

    /// The prefix as a run of addresses.
    pub fn span(&self) -> Span
        ensures family { result.family ≡ self.now.family }
        ensures first { result.lo ≡ self.now.first }
        ensures last { result.hi ≡ last_of self.now }
    {
        Span {
            family: self.family,
            lo: self.first,
            hi: self.last(),
        }
    }

    /// Whether each address of `other` is one of this prefix; so of a prefix and itself.
    #[tactic(auto, using(crate::proofs::AddressLemmas::contains_each))]
    pub fn contains(&self, other: &Prefix) -> bool
        ensures by_ends { result ≡ contains self.now other.now }
        ensures each { IsTrue result ↔ Contains self.now other.now }
    {
        self.span().covers(other)
    }

    /// Whether the two share an address. Of two prefixes that do, one contains the other.
    #[tactic(auto, using(crate::proofs::AddressLemmas::overlaps_some))]
    pub fn overlaps(&self, other: &Prefix) -> bool
        ensures by_ends { result ≡ overlaps self.now other.now }
        ensures some { IsTrue result ↔ Overlaps self.now other.now }
    {
        self.span().meets(other)
    }

    /// Whether the two are one prefix: `==` with the answer as a definition.
    pub fn is(&self, other: &Prefix) -> bool
        ensures { result ≡ prefix_eq self.now other.now }
    {
        self.family.is(other.family) && self.first == other.first && self.length == other.length
    }

    /// Whether `max` can be the prefix's maxLength: it is neither below the prefix's length nor over
    /// the family's width.
    pub fn fits_max_length(&self, max: u8) -> bool
        ensures value { result ≡ fits_max_length self.now max }
        ensures range { IsTrue result ↔ FitsMaxLength self.now max }
    {
        self.length <= max && max <= self.family.width()
    }

    /// The bit at place `i`, counted from 0 at the most significant one.
    pub fn bit(&self, i: u8) -> bool
        requires { i < self.now.length }
        ensures { IsTrue result ↔ (bit_of self.now i ≡ 1) }
    {
        let place = self.family.width() - 1 - i;
        (self.first >> place) % 2 == 1
    }
}

/// Whether the number is a multiple of 2 to the power `bits`.
fn is_multiple(number: u128, bits: u8) -> bool
    requires { bits ≤ 128 }
    ensures { IsTrue result ↔ (number % 2 ^ bits ≡ 0) }
{
    match 1u128.checked_shl(u32::from(bits)) {
        Some(size) => number % size == 0,
        None => number == 0,
    }
}
