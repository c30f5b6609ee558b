//! Names of holders, callers and operators.
ghost use Rattle.std.specs.Prelude.{◌≡◌, IsTrue};
ghost use Rattle.std.specs.List.{list_all};
ghost use Rattle.std.specs.Cmp.Lexicographic.{pointwise, slice_cmp, texts_po, texts_ties};
ghost use Rattle.std.specs.Cmp.{partial_equiv_from_equiv};
ghost use Rattle.std.specs.Ordering.{nat_cmp};
ghost use Rattle.std.proofs.lemmas.Cmp.{nat_list_cmp_total, nat_list_eq_equiv};
ghost use Rattle.std.proofs.Common.{nat_eq, Some, refl};
ghost use Rattle.addr.specs.Name.{is_name, is_name_byte, name_in};

use std::cmp::Ordering;
use std::fmt;
use std::marker::Model;

/// The name of a resource holder, a caller or an operator: 1 to 32 bytes of `a-z`, `0-9` and `-`,
/// not beginning with `-`. Names are ordered by their bytes.
#[derive(Clone, Copy)]
pub struct Name {
    bytes: [u8; 32],
    len: u8,
}

impl Model for Name {
    ghost use Rattle.std.specs.Prelude.{◌≡◌, ℕ, List, ◌-◌, ◌++◌, length, take, replicate, IsTrue};
    ghost use Rattle.addr.specs.Name.{is_name};
    ghost use Rattle.std.proofs.Common.{ap, sym, ◌∙◌};

    ghost Value = { List ℕ };

    ghost view = { λ n. take n.len n.bytes };

    ghost invariant = { λ n.
        (n.bytes ≡ take n.len n.bytes ++ replicate (32 - n.len) 0)
        × (length (take n.len n.bytes) ≡ n.len)
        × IsTrue (is_name (take n.len n.bytes)) };

    ghost inverse = { λ t. record { bytes = t ++ replicate (32 - length t) 0; len = length t } };

    ghost inverse_ok = { λ n h i. record {
      bytes = (ap (λ k. take n.len n.bytes ++ replicate (32 - k) 0) h.1 ∙ sym h.0) i;
      len = h.1 i;
    } };
}

fn is_name_byte(byte: u8) -> bool
    ensures { result ≡ is_name_byte byte }
{
    matches!(byte, b'a'..=b'z' | b'0'..=b'9' | b'-')
}

fn are_name_bytes(text: &[u8]) -> bool
    ensures { result ≡ list_all is_name_byte text.now }
{
    text.iter().all(|byte| is_name_byte(*byte))
}

fn is_name(text: &[u8]) -> bool
    ensures { result ≡ is_name text.now }
{
    if text.is_empty() || text.len() > 32 {
        return false;
    }
    if text[0] == b'-' {
        return false;
    }
    are_name_bytes(text)
}

impl Name {
    /// The name that `text` is, or `None` if it is no name.
    pub fn read(text: &[u8]) -> Option<Name>
        ensures { result ≡ name_in text.now }
    {
        if !is_name(text) {
            return None;
        }
        let mut bytes = [0; 32];
        bytes[..text.len()].copy_from_slice(text);
        Some(Name {
            bytes,
            len: text.len() as u8,
        })
    }

    /// The name's bytes.
    pub fn as_bytes(&self) -> &[u8]
        ensures text { result.now ≡ self.now }
        ensures is_name { IsTrue (is_name self.now) }
    {
        &self.bytes[..self.len as usize]
    }

    /// The name as text.
    pub fn as_str(&self) -> &str
        ensures text { result.now ≡ self.now }
        ensures is_name { IsTrue (is_name self.now) }
    {
        match str::from_utf8(self.as_bytes()) {
            Ok(text) => text,
            Err(_) => unreachable!(),
        }
    }
}

impl PartialEq for Name {
    ghost eq = { pointwise nat_eq };

    ghost laws = { partial_equiv_from_equiv nat_list_eq_equiv };

    fn eq(&self, other: &Name) -> bool {
        self.as_bytes() == other.as_bytes()
    }
}

impl Eq for Name {
    ghost laws = { nat_list_eq_equiv };
}

impl PartialOrd for Name {
    ghost partial_cmp = { λ a b. Some (slice_cmp nat_cmp a b) };

    ghost laws = { texts_po };

    fn partial_cmp(&self, other: &Name) -> Option<Ordering> {
        Some(self.cmp(other))
    }
}

impl Ord for Name {
    ghost cmp = { slice_cmp nat_cmp };

    ghost total = { nat_list_cmp_total };

    ghost matches_partial_cmp = { λ a b. refl };

    ghost matches_eq = { texts_ties };

    fn cmp(&self, other: &Name) -> Ordering {
        self.as_bytes().cmp(other.as_bytes())
    }
}

impl fmt::Debug for Name {
    fn fmt<W: fmt::Write>(&self, f: &mut fmt::Formatter<W>) -> fmt::Result {
        fmt::Debug::fmt(self.as_str(), f)
    }
}

impl fmt::Display for Name {
    ghost output = { λ name. Some name };

    fn fmt<W: fmt::Write>(&self, f: &mut fmt::Formatter<W>) -> fmt::Result {
        f.write_str(self.as_str())
    }
}
