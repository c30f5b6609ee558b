//! The bits that a node of a trie skips.
ghost use Rattle.std.specs.Prelude.{◌≡◌, ◌+◌, ◌≤◌, ◌<◌, suc, true, false, [], ◌∷◌, ◌++◌, length, take, drop};
ghost use Rattle.payload.specs.steps.Skipped.{common, number_of};
ghost use Rattle.payload.specs.steps.Trie.{bits_from};

use addr::Prefix;
use std::marker::Model;

/// The bits between two bits at which a trie branches, seen as the list of them. They are fewer
/// than 128, since one of a prefix's bits leads to the node.
#[derive(Drop)]
pub(crate) struct Skipped {
    /// The lowest `count` of these bits, the last one lowest; those above them say nothing.
    bits: u128,
    count: u8,
}

impl Model for Skipped {
    ghost use Rattle.std.specs.Prelude.{Bool, List, ◌<◌};
    ghost use Rattle.payload.specs.steps.Skipped.{low_bits};

    ghost Value = { List Bool };

    ghost view = { λ a. low_bits a.count a.bits };

    ghost invariant = { λ a. a.count < 128 };
}

impl Skipped {
    /// No bits.
    pub(crate) fn none() -> Skipped
        ensures { result ≡ [] }
    {
        Skipped { bits: 0, count: 0 }
    }

    /// This bit alone.
    pub(crate) fn one(bit: bool) -> Skipped
        ensures { result ≡ bit ∷ [] }
    {
        Skipped {
            bits: u128::from(bit),
            count: 1,
        }
    }

    /// The bits of the prefix from `at` on.
    pub(crate) fn of(prefix: &Prefix, at: u8) -> Skipped
        requires below_root { 0 < at }
        requires within { at ≤ prefix.now.length }
        ensures { result ≡ bits_from prefix.now at }
    {
        Skipped {
            bits: prefix.first >> (prefix.family.width() - prefix.length),
            count: prefix.length - at,
        }
    }

    /// How many bits there are.
    #[tactic(auto, using(crate::proofs::Skips::size_of))]
    pub(crate) fn count(&self) -> u8
        ensures { result ≡ length self.now }
    {
        self.count
    }

    /// The number that the bits are, the last one lowest.
    pub(crate) fn number(&self) -> u128
        ensures { result ≡ number_of self.now }
    {
        self.bits % (1 << self.count)
    }

    /// The bit at place `i`.
    #[tactic(auto, using(crate::proofs::Skips::size_of))]
    pub(crate) fn bit(&self, i: u8) -> bool
        requires { i < length self.now }
        ensures { drop i self.now ≡ result ∷ drop (i + 1) self.now }
    {
        (self.bits >> (self.count - 1 - i)) % 2 == 1
    }

    /// The first `n` bits.
    #[tactic(auto, using(crate::proofs::Skips::size_of))]
    pub(crate) fn first(&self, n: u8) -> Skipped
        requires { n ≤ length self.now }
        ensures { result ≡ take n self.now }
    {
        Skipped {
            bits: self.bits >> (self.count - n),
            count: n,
        }
    }

    /// The bits after the first `n`.
    #[tactic(auto, using(crate::proofs::Skips::size_of))]
    pub(crate) fn after(&self, n: u8) -> Skipped
        requires { n ≤ length self.now }
        ensures { result ≡ drop n self.now }
    {
        Skipped {
            bits: self.bits,
            count: self.count - n,
        }
    }

    /// How many of the bits the prefix has from `at` on, up to the first that it has not.
    #[tactic(auto, using(crate::proofs::Skips::size_of))]
    pub(crate) fn shared(&self, prefix: &Prefix, at: u8) -> u8
        requires { at ≤ prefix.now.length }
        ensures common { result ≡ common self.now (bits_from prefix.now at) }
        ensures within { at + result ≤ prefix.now.length }
        ensures most { result ≤ length self.now }
        ensures all { length self.now ≤ result
            → bits_from prefix.now at ≡ self.now ++ bits_from prefix.now (at + result) }
    {
        for i in 0..self.count {
            if !self.goes_on(prefix, at, i) {
                return i;
            }
        }
        self.count
    }

    /// Whether the prefix has the bit at place `i` too, given that it has those before it.
    fn goes_on(&self, prefix: &Prefix, at: u8, i: u8) -> bool
        requires bit { i < length self.now }
        requires within { at + i ≤ prefix.now.length }
        ensures all { result ≡ true → common (drop i self.now) (bits_from prefix.now (at + i))
            ≡ suc (common (drop (i + 1) self.now) (bits_from prefix.now (at + i + 1))) }
        ensures none { result ≡ false
            → common (drop i self.now) (bits_from prefix.now (at + i)) ≡ 0 }
        ensures within { result ≡ true → at + i < prefix.now.length }
    {
        at + i < prefix.length && prefix.bit(at + i) == self.bit(i)
    }
}
