//! The rules, and why a request is refused.

ghost use Rattle.std.specs.Prelude.{◌≡◌, None};
ghost use Rattle.registry.specs.declared.rule.Refusal.TheVariants.{Denied, Memory};

use std::alloc::{AllocError, AllocFailed};
use std::fmt;

/// The admission rules. Each kind of request has a list of them; the first that fails denies it.
#[derive(Clone, Copy, Debug, PartialEq, Eq)]
pub enum Rule {
    /// The caller is an operator of the desk.
    Operator,
    /// The caller is an operator, or a manager at the holder.
    Steward,
    /// Some grant gives the caller the access that the request needs, whatever its scope.
    Grant,
    /// Each holder that is named is registered.
    Holder,
    /// The holder is not registered yet.
    Fresh,
    /// There is a grant of the number, or an authorization of the number that the caller has access
    /// to.
    Number,
    /// Some grant gives the caller the access and has the prefix in its scope.
    Scope,
    /// Neither the first day nor the day of the request lies after the last day.
    Dates,
    /// The maxLength lies from the length of the prefix to the width of its family.
    Length,
    /// Every address of the prefix lies in the pool.
    Pool,
    /// Nobody holds an address of the prefix.
    Free,
    /// The giver and the taker are two holders.
    Distinct,
    /// The holder holds every address of the prefix.
    Held,
    /// No other active authorization of the holder has the same AS, prefix and maxLength.
    Same,
    /// The holder has fewer than 1000 active authorizations, or fewer than 64 unrevoked grants, and
    /// fewer than 999,999 of them were ever made.
    Room,
    /// No prefix that one SLURM file names shares an address with one that another file names (RFC 8416
    /// section 4.2).
    Overlap,
}

impl Rule {
    ghost use Rattle.std.specs.Prelude.{◌≤◌, length};
    ghost use Rattle.registry.specs.Rule.{rule_name};

    /// The rule's name, in lower case.
    pub fn as_str(self) -> &'static str
        ensures name { result.now ≡ rule_name self }
        ensures short { length result.now ≤ 8 }
    {
        match self {
            Rule::Operator => "operator",
            Rule::Steward => "steward",
            Rule::Grant => "grant",
            Rule::Holder => "holder",
            Rule::Fresh => "fresh",
            Rule::Number => "number",
            Rule::Scope => "scope",
            Rule::Dates => "dates",
            Rule::Length => "length",
            Rule::Pool => "pool",
            Rule::Free => "free",
            Rule::Distinct => "distinct",
            Rule::Held => "held",
            Rule::Same => "same",
            Rule::Room => "room",
            Rule::Overlap => "overlap",
        }
    }
}

impl fmt::Display for Rule {
    ghost use Rattle.std.specs.Prelude.{Some};
    ghost use Rattle.registry.specs.Rule.{rule_name};

    ghost output = { λ rule. Some (rule_name rule) };

    fn fmt<W: fmt::Write>(&self, f: &mut fmt::Formatter<W>) -> fmt::Result {
        f.write_str(self.as_str())
    }
}

/// Why a request was refused.
#[derive(Clone, Copy, Debug, PartialEq, Eq)]
pub enum Refusal {
    /// The first rule that fails; for an import also the row, and for a what-if the change, counted
    /// from 1.
    Denied(Rule, Option<u64>),
    /// An allocation failed.
    Memory,
}

impl From<Rule> for Refusal {
    ghost from_gives = { λ rule refusal. refusal ≡ Denied rule None };

    fn from(rule: Rule) -> Refusal {
        Refusal::Denied(rule, None)
    }
}

impl From<AllocError> for Refusal {
    ghost from_gives = { λ _ refusal. refusal ≡ Memory };

    fn from(_: AllocError) -> Refusal {
        Refusal::Memory
    }
}

impl<T: Drop> From<AllocFailed<T>> for Refusal {
    ghost from_gives = { λ _ refusal. refusal ≡ Memory };

    fn from(_: AllocFailed<T>) -> Refusal {
        Refusal::Memory
    }
}
