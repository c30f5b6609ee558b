//! Theorems, stated as contracts of functions. Those whose names end in `fits` or `fit` are about
//! their arguments, which they read for the proof alone; the other bodies are empty.

ghost use Rattle.std.specs.Prelude.{◌≡◌, All, IsTrue};
ghost use Rattle.std.specs.List.{AllByRecursion};
ghost use Rattle.addr.specs.Name.{is_name};
ghost use Rattle.registry.specs.Charter.{operators_of};
ghost use Rattle.registry.specs.declared.charter.TheConstants.{MOST_OPERATORS, MOST_POOL_PREFIXES};
ghost use Rattle.registry.specs.declared.limits.TheConstants.{MOST_GRANTS, MOST_AUTHORIZATIONS, LAST_NUMBER};
ghost use Rattle.registry.specs.declared.roa_prefixes.TheConstants.{MOST_ENTRIES};
ghost use Rattle.registry.specs.Unregistered.{UnregisteredHaveNothing};
ghost use Rattle.registry.specs.Values.{AskedFits, EntryFits};

use crate::values::{command_fits, day_fits, name_fits, names_fit};
use crate::{Asked, Charter, Command, Request};
use addr::{Day, Name};

/// A holder that is not registered in a legal history has no address, no grant and no
/// authorization, and none was ever made at it.
pub fn unregistered_have_nothing()
    ensures { UnregisteredHaveNothing }
{}

/// The values of an entry that a call can make are those of their types.
pub fn entry_fits(day: Day, caller: &Name, command: &Command)
    ensures { EntryFits (record { day = day; caller = caller.now; command = command.now }) }
{
    day_fits(day);
    name_fits(caller);
    command_fits(command);
}

/// The values of a request are those of their types.
pub fn asked_fits(asked: &Asked)
    ensures { AskedFits asked.now }
{
    if let Request::Command(command) = &asked.request {
        entry_fits(asked.day, &asked.caller, command);
    }
}

/// The values of each request of the list are those of their types.
pub fn all_asked_fit(list: &[Asked])
    ensures { All AskedFits list.now }
{
    for asked in list {
        asked_fits(asked);
    }
}

/// The operators of a charter are names.
pub fn operators_fit(charter: &Charter)
    ensures { AllByRecursion (λ name. IsTrue (is_name name)) (operators_of charter.now) }
{
    names_fit(charter.operators());
}

/// States the limits of a charter, of the rule `room` and of the entries of an authorization as
/// numbers, so that the proof fails if a constant changes.
pub fn limits()
    ensures operators { MOST_OPERATORS ≡ 16 }
    ensures pool_prefixes { MOST_POOL_PREFIXES ≡ 64 }
    ensures grants { MOST_GRANTS ≡ 64 }
    ensures authorizations { MOST_AUTHORIZATIONS ≡ 1000 }
    ensures numbers { LAST_NUMBER ≡ 999999 }
    ensures entries { MOST_ENTRIES ≡ 64 }
{}
