//! Theorems about the definitions that contracts use, stated as contracts of functions with empty
//! bodies.
ghost use Rattle.std.specs.Prelude.{◌≡◌};
ghost use Rattle.addr.specs.Address.{prefix_eq};
ghost use Rattle.addr.specs.Order.{prefix_cmp, vrp_cmp, IsOrder, TestsEquality};
ghost use Rattle.addr.specs.PrefixText.{PrefixTextLaw};

use crate::{Prefix, Vrp};

/// Prefixes are ordered by family, first address and length: of two that differ one is before the
/// other, and `==` holds of equal ones.
#[tactic(auto, using(crate::proofs::OrderLemmas::prefix_order, crate::proofs::OrderLemmas::prefix_equality))]
pub fn prefix_order()
    ensures order { IsOrder prefix_cmp }
    ensures equality { TestsEquality prefix_eq }
    ensures derived_order { ⟦<Prefix as Ord>⟧.cmp ≡ prefix_cmp }
    ensures derived_equality { ⟦<Prefix as PartialEq>⟧.eq ≡ prefix_eq }
{}

/// VRPs are ordered by prefix, maxLength and AS: of two that differ one is before the other, and
/// `==` holds of equal ones.
#[tactic(auto, using(crate::proofs::OrderLemmas::vrp_order, crate::proofs::OrderLemmas::vrp_equality))]
pub fn vrp_order()
    ensures order { IsOrder vrp_cmp }
    ensures derived_order { ⟦<Vrp as Ord>⟧.cmp ≡ vrp_cmp }
    ensures derived_equality { TestsEquality ⟦<Vrp as PartialEq>⟧.eq }
{}

/// A spelling is read back as what it was made of, the texts without a fault are the spellings of
/// the prefixes, and each spells one prefix.
#[tactic(auto, using(crate::proofs::PrefixSpellingLemmas::prefix_text_law))]
pub fn prefix_texts()
    ensures { PrefixTextLaw }
{}
