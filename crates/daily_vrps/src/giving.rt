//! What authorizations give on a day.
ghost use Rattle.std.specs.Prelude.{◌↔◌, ◌⊎◌, Contains, IfOk, IsTrue, OnOk};
ghost use Rattle.addr.specs.declared.vrp.Vrp.{Vrp};
ghost use Rattle.addr.specs.VrpParts.{IsVrpOfEntry};
ghost use Rattle.daily_vrps.specs.Giving.{AreGivingOn, GivesOn};
ghost use Rattle.daily_vrps.specs.steps.Entries.{IsVrpOfSome};

use addr::{Asn, Day, RoaPrefix, Vrp};
use registry::Auth;
use std::alloc::{AllocError, Global};

/// Whether the authorization gives the VRP on the day.
fn gives_on(auth: &Auth, vrp: &Vrp, day: Day) -> bool
    ensures { IsTrue result ↔ GivesOn auth.now day vrp.now }
{
    auth.is_in_force(day) && auth.gives_vrp(vrp)
}

/// Whether one of the authorizations gives the VRP on the day.
pub(crate) fn is_given(vrp: &Vrp, auths: &[Auth], day: Day) -> bool
    ensures { IsTrue result ↔ AreGivingOn auths.now day vrp.now }
{
    for auth in auths {
        if gives_on(auth, vrp, day) {
            return true;
        }
    }
    false
}

/// The VRPs that the authorizations give on the day, in any order.
pub(crate) fn given_on(alloc: Global, auths: &[Auth], day: Day) -> Result<Vec<Vrp>, AllocError>
    ensures { IfOk result (λ vrps. (v : Vrp)
        → Contains vrps.items v ↔ AreGivingOn auths.now day v) }
{
    let mut vrps = Vec::new(alloc);
    for auth in auths {
        push_given(auth, day, &mut vrps)?;
    }
    Ok(vrps)
}

/// Puts the VRPs that the authorization gives on the day at the end of these.
fn push_given(auth: &Auth, day: Day, vrps: &mut Vec<Vrp>) -> Result<(), AllocError>
    ensures { OnOk result ((v : Vrp) → Contains vrps.new.items v
        ↔ (Contains vrps.old.items v ⊎ GivesOn auth.now day v)) }
{
    if auth.is_in_force(day) {
        push_entries(auth.entries.as_slice(), auth.asn, vrps)?;
    }
    Ok(())
}

/// Puts the VRPs of the entries for the AS at the end of these.
fn push_entries(entries: &[RoaPrefix], asn: Asn, vrps: &mut Vec<Vrp>) -> Result<(), AllocError>
    ensures { OnOk result ((v : Vrp) → Contains vrps.new.items v
        ↔ (Contains vrps.old.items v ⊎ IsVrpOfSome entries.now asn v)) }
{
    for entry in entries {
        push_entry(entry, asn, vrps)?;
    }
    Ok(())
}

fn push_entry(entry: &RoaPrefix, asn: Asn, vrps: &mut Vec<Vrp>) -> Result<(), AllocError>
    ensures { OnOk result ((v : Vrp) → Contains vrps.new.items v
        ↔ (Contains vrps.old.items v ⊎ IsVrpOfEntry entry.now asn v)) }
{
    if let Some(vrp) = entry.vrp(asn) {
        vrps.push(vrp)?;
    }
    Ok(())
}
