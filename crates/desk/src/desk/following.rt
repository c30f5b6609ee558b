//! How the kept day follows accepted commands.
ghost use Rattle.std.specs.Prelude.{◌≡◌, true, false, option_copied, OnOk, OnErr};
ghost use Rattle.desk.specs.steps.Following.{AddsSome, EditsTwoApart, MayDrop};
ghost use Rattle.desk.specs.steps.Following.{Follows, FollowsChange, FollowsDay, FollowsEdit};

use daily_vrps::DailyVrps;
use registry::{Auth, Change, Edit};
use std::alloc::AllocError;

/// The change that a command makes, with what the kept day needs to follow it: of each edited
/// holder at least the authorizations that the edit ends, and the one whose number it puts. `None`
/// if the holder has no rows, or no second holder is edited.
#[derive(Drop)]
pub(super) struct Decided {
    pub(super) change: Change,
    pub(super) first: Option<Vec<Auth>>,
    pub(super) second: Option<Vec<Auth>>,
}

/// Follows an edit of a holder's rows. If the holder has none, nothing ends and nothing begins.
fn follow_edit(
    kept: &mut DailyVrps,
    edit: &Edit,
    auths: Option<&Vec<Auth>>,
) -> Result<(), AllocError>
    ensures ok { OnOk result (FollowsEdit edit.now (option_copied auths.entry) kept.old kept.new) }
    ensures err { OnErr result (AddsSome edit.now (option_copied auths.entry) kept.old) }
{
    match auths {
        Some(auths) => kept.follow(edit, auths),
        None => Ok(()),
    }
}

/// Follows the change; returns whether it did. It does not follow new SLURM files, nor an edit that
/// puts a VRP in if an allocation fails.
fn follow_change(kept: &mut DailyVrps, decided: &Decided) -> bool
    ensures yes { result ≡ true
        → FollowsChange decided.now.change decided.now.first decided.now.second kept.old kept.new }
    ensures no { result ≡ false
        → MayDrop decided.now.change decided.now.first decided.now.second kept.old }
{
    let Change::Holders { first, second } = &decided.change else {
        return false;
    };
    if follow_edit(kept, &first.edit, decided.first.as_ref()).is_err() {
        return false;
    }
    match second {
        Some(second) => follow_edit(kept, &second.edit, decided.second.as_ref()).is_ok(),
        None => true,
    }
}

/// Makes the kept day that of the rows after the change, or drops it.
pub(super) fn follow(kept: &mut Option<DailyVrps>, decided: &Decided)
    ensures follows { EditsTwoApart decided.now.change
        → Follows decided.now.change decided.now.first decided.now.second kept.old kept.new }
    ensures day { FollowsDay decided.now.change decided.now.first decided.now.second
        kept.old kept.new }
{
    if let Some(mut day) = kept.take() {
        if follow_change(&mut day, decided) {
            kept.replace(day);
        }
    }
}
