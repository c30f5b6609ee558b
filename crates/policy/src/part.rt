//! Changes of one holder, and refusals of requests with several parts.

ghost use Rattle.std.specs.Prelude.{◌≡◌, None};
ghost use Rattle.policy.specs.steps.Part.{refusal_at};

use crate::{Change, Edit, HolderChange, Refusal};
use addr::Name;

/// The change of one holder.
pub(crate) fn change_of(holder: &Name, edit: Edit) -> Change
    ensures { result
        ≡ Change.Holders (record { holder = holder.now; edit = edit }) None }
{
    Change::Holders {
        first: HolderChange {
            holder: *holder,
            edit,
        },
        second: None,
    }
}

/// The refusal of a request with several parts, for the part in this place.
pub(crate) fn refusal_at(refusal: Refusal, place: u64) -> Refusal
    ensures { result ≡ refusal_at place refusal }
{
    match refusal {
        Refusal::Denied(rule, _) => Refusal::Denied(rule, Some(place)),
        Refusal::Memory => Refusal::Memory,
    }
}
