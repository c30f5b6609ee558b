//! The entries of an authorization as a list in order.
ghost use Rattle.std.specs.Prelude.{◌≡◌, ◌↔◌, true, false, List, [], ◌∷◌, IsTrue, Err, IsOk, IfOk, MatchOption, IsPermutation};
ghost use Rattle.registry.specs.RoaPrefixes.{AreInNumber, AreEntries, Rise, repeats_prefix, with_maxes};
ghost use Rattle.addr.specs.declared.roa_prefix.RoaPrefix.{RoaPrefix};

use addr::{Prefix, RoaPrefix};
use sorted_items::{rise_by_key, sort_each_once};
use std::alloc::{AllocError, Global};
use std::marker::Model;
use thiserror::Error;

/// How many entries an authorization may have.
const MOST_ENTRIES: usize = 64;

/// Why a list is not that of the entries of an authorization. If both apply, the first one counts.
#[derive(Clone, Copy, Debug, PartialEq, Eq, Error)]
pub enum RoaPrefixesFault {
    /// There are not 1 to 64 entries.
    #[error("there are not 1 to 64 entries")]
    Count,
    /// Two entries have one prefix.
    #[error("two entries have one prefix")]
    Repeated,
}

/// The entries of an authorization: 1 to 64, whose prefixes rise strictly, so that none is there
/// twice.
#[derive(Clone, Debug, Drop)]
pub struct RoaPrefixes {
    entries: Vec<RoaPrefix>,
}

impl Model for RoaPrefixes {
    ghost Value = { List RoaPrefix };

    ghost view = { λ p. p.entries.items };

    ghost invariant = { λ p. AreEntries p.entries.items };
}

impl RoaPrefixes {
    /// The list of the entries, which it puts in order. It takes no memory.
    pub fn make(mut entries: Vec<RoaPrefix>) -> Result<RoaPrefixes, RoaPrefixesFault>
        ensures ok { IsOk result
            ↔ (AreInNumber entries.items × (repeats_prefix entries.items ≡ false)) }
        ensures same_entries { IfOk result (IsPermutation entries.items) }
        ensures rising { IfOk result Rise }
        ensures count { (result ≡ Err RoaPrefixesFault.Count) ↔ ¬ AreInNumber entries.items }
        ensures repeated { (result ≡ Err RoaPrefixesFault.Repeated)
            ↔ (AreInNumber entries.items × (repeats_prefix entries.items ≡ true)) }
    {
        if !are_in_number(&entries) {
            return Err(RoaPrefixesFault::Count);
        }
        if !sort_each_once(&mut entries, |entry| entry.prefix) {
            return Err(RoaPrefixesFault::Repeated);
        }
        Ok(RoaPrefixes { entries })
    }

    /// The list of these entries, if they are those of an authorization in order.
    pub fn in_order(entries: Vec<RoaPrefix>) -> Option<RoaPrefixes>
        ensures { MatchOption result (¬ AreEntries entries.items) (λ made.
            AreEntries made × (made ≡ entries.items)) }
    {
        if are_in_number(&entries) && rise(&entries) {
            Some(RoaPrefixes { entries })
        } else {
            None
        }
    }

    /// The list of one entry.
    pub fn one(alloc: Global, prefix: Prefix, max: u8) -> Result<RoaPrefixes, AllocError>
        ensures { IfOk result (λ made. made ≡ record { prefix = prefix; max = max } ∷ []) }
    {
        let entries = vec![in alloc; RoaPrefix { prefix, max }]?;
        Ok(RoaPrefixes { entries })
    }

    /// The entries, rising by prefix.
    pub fn as_slice(&self) -> &[RoaPrefix]
        ensures items { result.now ≡ self.now }
        ensures number { AreInNumber self.now }
        ensures rising { Rise self.now }
    {
        &self.entries
    }

    /// Sets the maxLengths, one an entry in order; if there are fewer, the others stay.
    pub fn set_maxes(&mut self, maxes: &[u8])
        ensures { self.new ≡ with_maxes maxes.now self.old }
    {
        set_maxes(&mut self.entries, maxes);
    }
}

fn set_maxes(entries: &mut [RoaPrefix], maxes: &[u8])
    ensures { entries.new ≡ with_maxes maxes.now entries.old }
{
    for index in 0..entries.len().min(maxes.len()) {
        entries[index].max = maxes[index];
    }
}

fn are_in_number(entries: &[RoaPrefix]) -> bool
    ensures { IsTrue result ↔ AreInNumber entries.now }
{
    (1..=MOST_ENTRIES).contains(&entries.len())
}

/// Whether the prefix of each entry is before that of the next one.
fn rise(entries: &[RoaPrefix]) -> bool
    ensures { IsTrue result ↔ Rise entries.now }
{
    rise_by_key(entries, |entry| entry.prefix)
}
