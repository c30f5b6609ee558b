//! Runs of addresses.
ghost use Rattle.std.specs.Prelude.{◌≡◌, ◌+◌, ◌-◌, ◌^◌, ◌<◌, ◌≤◌, ◌↔◌, IsSome, IfSome};
ghost use Rattle.addr.specs.Family.{width};

use crate::{Family, Prefix};

/// A run of neighbouring addresses of one family, both ends among them.
#[derive(Clone, Copy, Debug, PartialEq, Eq, PartialOrd, Ord)]
pub struct Span {
    pub family: Family,
    /// The first address, as a number.
    pub lo: u128,
    /// The last address, as a number.
    pub hi: u128,
    ghost ordered: { lo ≤ hi },
    ghost in_family: { hi < 2 ^ width family },
}

impl Span {
    ghost use Rattle.std.specs.Prelude.{true, false, ◌&&◌, ◌||◌, not};
    ghost use Rattle.addr.specs.Family.{family_eq};
    ghost use Rattle.addr.specs.Address.{Address};
    ghost use Rattle.addr.specs.Spans.{span_has, span_covers, span_meets, is_apart_below, is_before};
    ghost use Rattle.addr.specs.steps.Parts.{part_has, is_after, EndsBefore, StartsAfter};

    /// The run of these parts; `None` if it ends before it starts, or after the family's last
    /// address.
    pub fn from_parts(family: Family, lo: u128, hi: u128) -> Option<Span>
        ensures some { IsSome result ↔ ((lo ≤ hi) × (hi < 2 ^ width family)) }
        ensures parts { IfSome result (λ s. (s.family ≡ family) × (s.lo ≡ lo) × (s.hi ≡ hi)) }
    {
        if lo <= hi && hi <= family.last_address() {
            Some(Span { family, lo, hi })
        } else {
            None
        }
    }

    /// Whether each address of the prefix lies in the run.
    pub(crate) fn covers(&self, prefix: &Prefix) -> bool
        ensures { result ≡ span_covers self.now prefix.now }
    {
        self.family.is(prefix.family) && self.lo <= prefix.first && prefix.last() <= self.hi
    }

    /// Whether some address of the prefix lies in the run.
    pub(crate) fn meets(&self, prefix: &Prefix) -> bool
        ensures { result ≡ span_meets self.now prefix.now }
    {
        self.family.is(prefix.family) && self.lo <= prefix.last() && prefix.first <= self.hi
    }

    /// Whether the run ends before the prefix starts.
    pub(crate) fn is_before(&self, prefix: &Prefix) -> bool
        ensures { result ≡ is_before self.now prefix.now }
    {
        match (self.family, prefix.family) {
            (Family::V4, Family::V6) => true,
            (Family::V6, Family::V4) => false,
            _ => self.hi < prefix.first,
        }
    }

    /// Whether the run ends before the other starts, with an address between them.
    pub(crate) fn is_apart_below(&self, other: &Span) -> bool
        ensures { result ≡ is_apart_below self.now other.now }
    {
        match (self.family, other.family) {
            (Family::V4, Family::V6) => true,
            (Family::V6, Family::V4) => false,
            _ => self.hi < other.lo && 1 < other.lo - self.hi,
        }
    }

    /// The run of the addresses of both runs, neither of which is apart below the other.
    pub(crate) fn joined(&self, other: &Span) -> Span
        requires below { is_apart_below self.now other.now ≡ false }
        requires above { is_apart_below other.now self.now ≡ false }
        ensures has { (a : Address)
            → span_has result a ≡ (span_has self.now a || span_has other.now a) }
        ensures first { (s : Span) → is_apart_below s self.now ≡ true
            → is_apart_below s other.now ≡ true → is_apart_below s result ≡ true }
    {
        Span {
            family: self.family,
            lo: self.lo.min(other.lo),
            hi: self.hi.max(other.hi),
        }
    }

    /// The part of the run that lies before the other.
    pub(crate) fn before(&self, other: &Span) -> Option<Span>
        ensures some { IfSome result (EndsBefore self.now other.now) }
        ensures has { (a : Address)
            → part_has result a
            ≡ (span_has self.now a && (not (span_has other.now a) && not (is_after a other.now))) }
    {
        if !self.family.is(other.family) {
            return Some(*self);
        }
        if self.lo < other.lo {
            Some(Span {
                family: self.family,
                lo: self.lo,
                hi: self.hi.min(other.lo - 1),
            })
        } else {
            None
        }
    }

    /// The part of the run that lies after the other.
    pub(crate) fn after(&self, other: &Span) -> Option<Span>
        ensures some { IfSome result (StartsAfter self.now other.now) }
        ensures has { (a : Address)
            → part_has result a ≡ (span_has self.now a && is_after a other.now) }
    {
        if self.family.is(other.family) && other.hi < self.hi {
            Some(Span {
                family: self.family,
                lo: self.lo.max(other.hi + 1),
                hi: self.hi,
            })
        } else {
            None
        }
    }
}
