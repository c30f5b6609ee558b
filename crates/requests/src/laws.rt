//! Theorems, stated as contracts of functions with empty bodies.
ghost use Rattle.std.specs.Prelude.{◌≡◌};
ghost use Rattle.addr.specs.Order.{TestsEquality};
ghost use Rattle.requests.specs.declared.head.TheConstants.{FIELD_LIMIT};
ghost use Rattle.requests.specs.declared.request.TheConstants.{LINE_LENGTH_LIMIT};
ghost use Rattle.requests.specs.declared.request.entries.TheConstants.{MOST_ENTRIES};
ghost use Rattle.requests.specs.declared.request.lists.TheConstants.{MOST_ITEMS, MOST_CHANGES};
ghost use Rattle.slurm.specs.declared.set.TheConstants.{MOST_FILES};
ghost use Rattle.requests.specs.declared.request.members.TheConstants.{GREATEST_MAX};

use crate::path::Path;

/// Two paths are equal for `==`, by which the definitions compare them, only where they are one.
pub(crate) fn path_equality()
    ensures { TestsEquality ⟦<Path as PartialEq>⟧.eq }
{}

/// States the limits of a request as numbers, so that the proof fails if a constant changes.
pub fn limits()
    ensures line { LINE_LENGTH_LIMIT ≡ 1048576 }
    ensures fields { FIELD_LIMIT ≡ 32 }
    ensures items { MOST_ITEMS ≡ 10000 }
    ensures changes { MOST_CHANGES ≡ 1000 }
    ensures entries { MOST_ENTRIES ≡ 64 }
    ensures files { MOST_FILES ≡ 16 }
    ensures greatest_max { GREATEST_MAX ≡ 255 }
{}
