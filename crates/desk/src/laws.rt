//! Theorems, stated as contracts of functions whose bodies at most call other theorems.

ghost use Rattle.desk.specs.HolderAnswers.{AnswersByEntries};
ghost use Rattle.desk.specs.Resumed.{PendingFits};

pub use registry_laws::isolation::{again, import_again, parts};

/// A reply that answers a request on a legal history also answers it on the entries that name the
/// request's holders alone. Exceptions are a delegation, the VRPs of a day and the validity of
/// routes, which concern all holders. Hypothetical changes are accepted or denied by those entries,
/// and their states are over the VRPs of all holders.
pub(crate) fn answers_by_entries()
    ensures { AnswersByEntries }
{
    registry_laws::isolation::commands_by_entries();
    registry_laws::isolation::queries_by_entries();
    registry_laws::isolation::imports_by_entries();
    registry_laws::isolation::hypothetical_by_entries();
}

/// Where the values of a history and of the pending requests are those of their types, so are those
/// of the history with one of these requests.
pub fn pending_fits()
    ensures { PendingFits }
{
    registry_laws::histories::growth_fits();
}
