//! The texts of prefixes, as `192.0.2.0/24` and `2001:db8::/32`.
ghost use Rattle.std.specs.Prelude.{◌≡◌, ◌+◌, ◌≤◌, ◌↔◌, ◌++◌, length, Some, Ok, IfErr};
ghost use Rattle.std.specs.Result.{result_ok};
ghost use Rattle.addr.specs.PrefixText.{prefix_fault_number, prefix_text_fault, spelled_prefix, spelling, Spells};
ghost use Rattle.arrayvec.specs.ArrayString.{array_string_len};
ghost use Rattle.addr.specs.declared.prefix.Prefix.{Prefix};

use crate::decimal::short_length;
use crate::{Family, Prefix};
use arrayvec::ArrayString;
use thiserror::Error;

mod read;
mod write;

use read::read_prefix;
use write::{dotted_length, push_spelling};

/// Why a text is not the one spelling of a prefix. If several apply, the first one counts.
#[derive(Clone, Copy, Debug, PartialEq, Eq, Error)]
pub enum PrefixFault {
    /// It is no address, `/` and length in any spelling.
    #[error("not an address, a slash and a length")]
    Shape,
    /// The address or the length has another spelling (RFC 5952 section 4).
    #[error("the address or the length is not in its one spelling")]
    Spelling,
    /// The length is greater than the family's width.
    #[error("the length is greater than the addresses have bits")]
    Length,
    /// A bit past the length is set.
    #[error("a bit past the length is set")]
    HostBits,
}

impl PrefixFault {
    /// The number of the fault, from 1 in the order above.
    pub fn number(self) -> u8
        ensures { result ≡ prefix_fault_number self }
    {
        match self {
            PrefixFault::Shape => 1,
            PrefixFault::Spelling => 2,
            PrefixFault::Length => 3,
            PrefixFault::HostBits => 4,
        }
    }
}

/// What a text of the loose shape says: the length may be too great, and bits past it may be set.
#[derive(Clone, Copy)]
struct PrefixParts {
    family: Family,
    address: u128,
    length: u16,
}

impl Prefix {
    /// Reads the one spelling of a prefix: of IPv4 in dotted decimal, of IPv6 as RFC 5952
    /// section 4 writes it, never with a dotted tail.
    pub fn read(text: &[u8]) -> Result<Prefix, PrefixFault>
        ensures value { result_ok result ≡ spelled_prefix text.now }
        ensures fault { IfErr result (λ fault. prefix_text_fault text.now ≡ Some fault) }
        ensures each { (prefix : Prefix) → (result ≡ Ok prefix) ↔ Spells prefix text.now }
    {
        read_prefix(text)
    }

    /// Puts the one spelling in place of what `text` held.
    pub fn write_to(&self, text: &mut ArrayString<48>)
        ensures { Spells self.now text.new.bytes }
    {
        text.clear();
        self.push_to(text);
    }

    /// Appends the one spelling.
    pub fn push_to<const N: usize>(&self, text: &mut ArrayString<N>)
        requires room { array_string_len text.old + 48 ≤ N }
        ensures bytes { text.new.bytes ≡ text.old.bytes
            ++ spelling self.now.family self.now.first self.now.length }
        ensures len { array_string_len text.new ≤ array_string_len text.old + 48 }
    {
        push_spelling(text, self.family, self.first, u16::from(self.length));
    }

    /// How many characters the one spelling has. For IPv4 the spelling is not made.
    #[tactic(auto, unfolding(crate::specs::PrefixText::spelling))]
    pub fn text_length(&self) -> usize
        ensures value { result
            ≡ length (spelling self.now.family self.now.first self.now.length) }
        ensures few { result ≤ 48 }
    {
        match self.family {
            Family::V4 => dotted_length(self.first) + 1 + short_length(u16::from(self.length)),
            Family::V6 => {
                let mut text = ArrayString::<48>::new();
                self.push_to(&mut text);
                text.len()
            }
        }
    }
}
