//! Theorems, stated as contracts of functions with empty bodies.

ghost use Rattle.registry_laws.specs.Ended.{EndsJustOverlapping};
ghost use Rattle.registry_laws.specs.Growth.{GrowthFits, GrowthIsLegal, HypotheticalIsLegal};
ghost use Rattle.registry_laws.specs.OneOutcome.{OneHypotheticalOutcome, OneOutcome};
ghost use Rattle.registry_laws.specs.Ranges.{FilesInForceFit, LegalRowsFit};
ghost use Rattle.registry_laws.specs.SharedVrps.{NoSharedVrp};

/// Over a legal history no two active authorizations, of whatever holders, give the same AS, prefix
/// and maxLength.
#[tactic(auto, using(crate::proofs::SharedVrps::no_shared_vrp))]
pub fn no_shared_vrp()
    ensures { NoSharedVrp }
{}

/// An accepted transfer or reclaim ends just those active authorizations of the former holder that
/// share an address with its prefix, and no authorization of another holder.
pub fn ends_just_overlapping()
    ensures { EndsJustOverlapping }
{}

/// The rows of a holder after a legal history whose values are those of their types are in their
/// ranges: numbers from 1 to 999,999, at most 999,999 grants and as many authorizations made, and each
/// maxLength neither below its prefix's length nor over its family's width.
#[tactic(auto, using(crate::proofs::Fitting::legal_rows_fit))]
pub fn legal_rows_fit()
    ensures { LegalRowsFit }
{}

/// The SLURM files in force after a history whose values are those of their types have names, and at
/// most 4096 entries each, with AS numbers below 2^32.
pub fn files_in_force_fit()
    ensures { FilesInForceFit }
{}

/// Every accepted command leaves a legal history legal, an import with the entries that its rows
/// make.
#[tactic(auto, using(crate::proofs::Growth::growth_is_legal))]
pub fn growth_is_legal()
    ensures { GrowthIsLegal }
{}

/// The values of the history that a command leaves are those of their types, if those of the
/// command and of the history before it are.
#[tactic(auto, using(crate::proofs::Growth::growth_fits))]
pub fn growth_fits()
    ensures { GrowthFits }
{}

/// The history that changes would leave after a legal one is legal.
#[tactic(auto, using(crate::proofs::Growth::hypothetical_is_legal))]
pub fn hypothetical_is_legal()
    ensures { HypotheticalIsLegal }
{}

/// A command has at most one outcome: one history that it leaves, or one rule that denies it, for
/// an import at one row.
pub fn one_outcome()
    ensures { OneOutcome }
{}

/// Hypothetical changes have at most one outcome: one history that they would leave, or one rule
/// that denies one of them.
pub fn one_hypothetical_outcome()
    ensures { OneHypotheticalOutcome }
{}
