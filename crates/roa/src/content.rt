//! The content of a ROA (RFC 9582 section 4) as a value.
ghost use Rattle.std.specs.Prelude.{◌≡◌, ◌<◌, ◌≤◌, ◌↔◌, true, length, IsTrue, IfOk, IfErr, IfSome, IfNone, IsPermutation};
ghost use Rattle.std.specs.List.{list_all};
ghost use Rattle.roa.specs.declared.content.TheConstants.Content.{MAX_ENTRIES};

use addr::{Asn, RoaPrefix as Entry};
use sorted_items::{rise_by_key, sort_each_once};
use std::marker::Model;
use thiserror::Error;

/// Why a list of entries is no content. If several faults apply, the lowest one counts.
#[derive(Clone, Copy, Debug, PartialEq, Eq, Error)]
pub enum ContentFault {
    /// There is no entry.
    #[error("there is no entry")]
    Empty,
    /// There are more than 64 entries.
    #[error("there are more than 64 entries")]
    TooMany,
    /// A maxLength is below its prefix's length or over its family's width.
    #[error("a maxLength is below its prefix's length or over its family's width")]
    MaxLength,
    /// Two entries are equal.
    #[error("two entries are equal")]
    Repeated,
}

impl ContentFault {
    ghost use Rattle.roa.specs.RoaContent.{content_fault_number};

    /// The number of the fault, from 1 in the order above.
    pub fn number(self) -> u8
        ensures { result ≡ content_fault_number self }
    {
        match self {
            ContentFault::Empty => 1,
            ContentFault::TooMany => 2,
            ContentFault::MaxLength => 3,
            ContentFault::Repeated => 4,
        }
    }
}

/// The content of a route origin authorization (RFC 9582 section 4): one AS number, and 1 to 64
/// entries that rise strictly.
#[derive(Debug, Drop)]
pub struct Content {
    asn: Asn,
    entries: Vec<Entry>,
}

impl Model for Content {
    ghost use Rattle.roa.specs.RoaContent.{RouteOriginAttestation, IsContent};

    ghost Value = { RouteOriginAttestation };

    ghost view = { λ c. record { asn = c.asn; entries = c.entries.items } };

    ghost invariant = { λ c. IsContent (record { asn = c.asn; entries = c.entries.items }) };
}

impl Content {
    ghost use Rattle.roa.specs.RoaContent.{AreCanonical, IsContent, IsLowestFault, is_in_range};

    /// The most entries that a content has.
    pub const MAX_ENTRIES: usize = 64;

    /// The content of the entries, which it puts in order. If several faults apply, it reports the
    /// lowest, over all entries.
    pub fn make(asn: Asn, mut entries: Vec<Entry>) -> Result<Content, ContentFault>
        ensures asn { IfOk result (λ content. content.asn ≡ asn) }
        ensures same_entries { IfOk result
            (λ content. IsPermutation entries.items content.entries) }
        ensures content { IfOk result IsContent }
        ensures fault { IfErr result (IsLowestFault entries.items) }
    {
        if entries.is_empty() {
            return Err(ContentFault::Empty);
        }
        if entries.len() > Self::MAX_ENTRIES {
            return Err(ContentFault::TooMany);
        }
        if !are_in_range(&entries) {
            return Err(ContentFault::MaxLength);
        }
        if !sort_each_once(&mut entries, |entry| *entry) {
            return Err(ContentFault::Repeated);
        }
        Ok(Content { asn, entries })
    }

    /// The content of these entries; `None` if there is no entry, or the entries do not rise
    /// strictly.
    pub(crate) fn from_rising(asn: Asn, entries: Vec<Entry>) -> Option<Content>
        requires few { length entries.items ≤ MAX_ENTRIES }
        requires in_range { list_all is_in_range entries.items ≡ true }
        ensures some { IfSome result
            (λ content. (content.asn ≡ asn) × (content.entries ≡ entries.items)) }
        ensures content { IfSome result IsContent }
        ensures none { IfNone result (AreCanonical entries.items → ⊥) }
    {
        if entries.is_empty() || !rises(&entries) {
            return None;
        }
        Some(Content { asn, entries })
    }

    /// The AS that may originate the prefixes.
    pub fn asn(&self) -> Asn
        ensures { result ≡ self.now.asn }
    {
        self.asn
    }

    /// The entries, in rising order.
    pub fn entries(&self) -> &[Entry]
        ensures entries { result.now ≡ self.now.entries }
        ensures content { IsContent self.now }
    {
        &self.entries
    }
}

ghost use Rattle.roa.specs.RoaContent.{Rises, is_in_range};

fn are_in_range(entries: &[Entry]) -> bool
    ensures { result ≡ list_all is_in_range entries.now }
{
    entries
        .iter()
        .all(|entry| entry.prefix.fits_max_length(entry.max))
}

/// Whether each entry is before the next one.
fn rises(entries: &[Entry]) -> bool
    ensures { IsTrue result ↔ Rises entries.now }
{
    rise_by_key(entries, |entry| *entry)
}
