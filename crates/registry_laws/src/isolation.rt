//! Theorems, stated as contracts of functions with empty bodies.

ghost use Rattle.registry_laws.specs.Isolation.{
  CommandsByEntries,
  HypotheticalByEntries,
  HypotheticalKeepsOthers,
  ImportsByEntries,
  OthersKeepRows,
  QueriesByEntries,
  RowsOfEntries,
  VrpsOfEntries,
};
ghost use Rattle.registry_laws.specs.RepeatedRequests.{ImportsRepeat, RepeatsLeaveRows};

/// After a legal history the rows of a holder are those of the entries that name it.
#[tactic(auto, using(crate::proofs::ByEntries::rows_of_entries))]
pub fn rows_of_entries()
    ensures { RowsOfEntries }
{}

/// An accepted command leaves the rows of each holder that it does not name.
#[tactic(auto, using(crate::proofs::Grown::others_keep_rows))]
pub fn others_keep_rows()
    ensures { OthersKeepRows }
{}

/// Hypothetical changes at a holder leave the rows of every other holder, and the SLURM files in
/// force.
#[tactic(auto, using(crate::proofs::Grown::hypothetical_keeps_others))]
pub fn hypothetical_keeps_others()
    ensures { HypotheticalKeepsOthers }
{}

/// After a legal history, the VRPs of a day are the same if each holder's authorizations in force
/// are taken from only the entries that name it.
pub fn parts()
    ensures { VrpsOfEntries }
{}

/// After a legal history, a command at a holder gets the verdict and the number that it would get
/// after only the entries that name the holder. For a transfer these are the entries that name
/// giver or taker; for SLURM files there are none. A delegation is the exception: it concerns all
/// holders.
pub fn commands_by_entries()
    ensures { CommandsByEntries }
{}

/// After a legal history, what is shown, listed or denied at a holder is the same as after only the
/// entries that name the holder.
#[tactic(auto, using(crate::proofs::ByEntries::queries_by_entries))]
pub fn queries_by_entries()
    ensures { QueriesByEntries }
{}

/// After a legal history, an import at a holder makes what it would make after only the entries
/// that name the holder, or the same row is denied by the same rule.
#[tactic(auto, using(crate::proofs::GrownAlike::imports_by_entries))]
pub fn imports_by_entries()
    ensures { ImportsByEntries }
{}

/// After a legal history, hypothetical changes at a holder come out as they would after only the
/// entries that name the holder, or the same change is denied by the same rule.
#[tactic(auto, using(crate::proofs::GrownAlike::hypothetical_by_entries))]
pub fn hypothetical_by_entries()
    ensures { HypotheticalByEntries }
{}

/// If a command other than a grant was accepted, and is accepted again, by any caller on any day,
/// the second time changes nothing: the rows of every holder and the SLURM files in force stay. In
/// between no entry may name one of its holders or, if it brings SLURM files, bring SLURM files.
/// The history is legal, and the command's values are those of their types.
#[tactic(auto, using(crate::proofs::Again::repeats_leave_rows))]
pub fn again()
    ensures { RepeatsLeaveRows }
{}

/// If an import was accepted, and no later entry of a legal history names its holder, the same
/// import makes nothing. Sent by its caller on its day it is accepted; sent by another caller or on
/// another day it may be denied.
#[tactic(auto, using(crate::proofs::Present::imports_repeat))]
pub fn import_again()
    ensures { ImportsRepeat }
{}
