//! The VRPs of a day with the exceptions that they are after.
ghost use Rattle.std.specs.Prelude.{◌≡◌, ◌↔◌, ◌⊎◌, [], Contains, IfOk, IsTrue, OnOk, OnErr};
ghost use Rattle.addr.specs.declared.vrp.Vrp.{Vrp};
ghost use Rattle.payload.specs.VrpSet as set;
ghost use Rattle.registry.specs.Edits.{begun, ended};
ghost use Rattle.addr.specs.VrpParts.{IsVrpOfEntry};
ghost use Rattle.daily_vrps.specs.Changes.{AreJoined, IsAdded, IsJoined, IsLeft, IsSpared, IsWithSame};
ghost use Rattle.daily_vrps.specs.Giving.{AreGivingOn, GivesOn};
ghost use Rattle.daily_vrps.specs.KeptDay.{HasExceptions, FollowsExceptions};
ghost use Rattle.daily_vrps.specs.steps.Entries.{IsJoinedBy, IsLeftWithout, IsVrpOfSome};

use crate::CountedVrps;
use crate::exceptions::excepted;
use crate::giving::is_given;
use addr::{Asn, Day, RoaPrefix, Vrp};
use payload::{ListIndex, PayloadIndex, Trie};
use registry::{Auth, Edit};
use slurm::{Filter, FilterIndex};
use std::alloc::{AllocError, Global};
use std::marker::Model;

/// The VRPs of a day after local exceptions, with the day and the exceptions, so that they can
/// follow what ends and begins on the day.
#[derive(Drop)]
pub struct DailyVrps {
    day: Day,
    vrps: CountedVrps,
    filters: FilterIndex,
    asserted: ListIndex,
}

impl Model for DailyVrps {
    ghost use Rattle.daily_vrps.specs.KeptDay.{KeptDay, day_code};

    ghost Value = { KeptDay };

    ghost coded = { day_code };

    ghost view = { λ a. record {
      day = a.day;
      vrps = a.vrps;
      filters = a.filters;
      asserted = a.asserted;
    } };
}

impl DailyVrps {
    /// What is kept of a day on which these VRPs are given, in any order and also twice, and these
    /// exceptions are in force.
    pub fn of(
        alloc: Global,
        day: Day,
        given: Vec<Vrp>,
        filters: Vec<Filter>,
        assertions: Vec<Vrp>,
    ) -> Result<DailyVrps, AllocError>
        ensures kept { IfOk result (λ kept. FollowsExceptions (λ v. Contains given.items v) kept) }
        ensures day { IfOk result (λ kept. kept.day ≡ day) }
        ensures exceptions { IfOk result (λ kept. HasExceptions kept
            (record { filters = filters.items; assertions = assertions.items })) }
    {
        let filters = FilterIndex::of(alloc, filters)?;
        let vrps = CountedVrps::from(excepted(alloc, &filters, &assertions, given)?);
        let asserted = ListIndex::from(assertions);
        Ok(DailyVrps {
            day,
            vrps,
            filters,
            asserted,
        })
    }

    /// The day.
    pub fn day(&self) -> Day
        ensures { result ≡ self.now.day }
    {
        self.day
    }

    /// The VRPs after the exceptions.
    pub fn vrps(&self) -> &Trie
        ensures { result.now ≡ self.now.vrps }
    {
        self.vrps.vrps()
    }

    /// The same with the length of their CSV, which is counted here unless it is kept.
    pub fn counted_vrps(&self) -> &CountedVrps
        ensures { result.now ≡ self.now.vrps }
    {
        &self.vrps
    }

    /// Counts the length of the CSV, which is kept until the VRPs change.
    pub fn count(&mut self)
        ensures { self.new ≡ self.old }
    {
        self.vrps.count();
    }

    pub(crate) fn filters(&self) -> &FilterIndex
        ensures { result.now ≡ self.now.filters }
    {
        &self.filters
    }

    pub(crate) fn is_asserted(&self, vrp: &Vrp) -> bool
        ensures { result ≡ set.has_vrp self.now.asserted vrp.now }
    {
        self.asserted.contains(vrp)
    }

    /// Takes out what the authorization gives on the day, unless it is asserted. Allocates nothing.
    ///
    /// Where another authorization gives the same VRP, it is taken out all the same: over a legal
    /// history there is no other.
    pub fn end(&mut self, auth: &Auth)
        ensures left { (v : Vrp)
            → Contains (set.items self.new.vrps) v ↔ IsLeft self.old auth.now v }
        ensures same { IsWithSame self.old self.new }
    {
        self.end_unless_given(auth, &[]);
    }

    /// Puts in what the authorization gives on the day, unless a filter matches it. Where no memory
    /// is found for it, the VRPs are of no day any more.
    pub fn begin(&mut self, auth: &Auth) -> Result<(), AllocError>
        ensures ok { OnOk result ((v : Vrp)
            → Contains (set.items self.new.vrps) v ↔ IsJoined self.old auth.now v) }
        ensures err { OnErr result ((v : Vrp)
            × IsAdded self.old (GivesOn auth.now self.old.day) v) }
        ensures same { IsWithSame self.old self.new }
    {
        if auth.is_in_force(self.day) {
            self.begin_entries(auth.entries.as_slice(), auth.asn)?;
        }
        Ok(())
    }

    /// Follows an edit of the rows of a holder that has these authorizations. Only a VRP that is put
    /// in allocates; where that fails, the VRPs are of no day any more. What ends and begins again, as
    /// in an amendment, stays in its place.
    pub fn follow(&mut self, edit: &Edit, auths: &[Auth]) -> Result<(), AllocError>
        ensures ok { OnOk result ((v : Vrp) → Contains (set.items self.new.vrps) v
            ↔ (AreJoined self.old (begun edit.now auths.now) v
            × IsSpared self.old (ended edit.now auths.now) (begun edit.now auths.now) v)) }
        ensures err { OnErr result ((v : Vrp)
            × IsAdded self.old (AreGivingOn (begun edit.now auths.now) self.old.day) v) }
        ensures same { IsWithSame self.old self.new }
    {
        let begun = edit.begun(auths);
        self.begin_all(begun)?;
        self.end_all(edit, auths, begun);
        Ok(())
    }

    fn begin_all(&mut self, auths: &[Auth]) -> Result<(), AllocError>
        ensures ok { OnOk result ((v : Vrp)
            → Contains (set.items self.new.vrps) v ↔ AreJoined self.old auths.now v) }
        ensures err { OnErr result ((v : Vrp)
            × IsAdded self.old (AreGivingOn auths.now self.old.day) v) }
        ensures same { IsWithSame self.old self.new }
    {
        for auth in auths {
            self.begin(auth)?;
        }
        Ok(())
    }

    /// Takes out what the authorizations give that the edit ends, and none of the begun ones.
    fn end_all(&mut self, edit: &Edit, auths: &[Auth], begun: &[Auth])
        ensures left { (v : Vrp) → Contains (set.items self.new.vrps) v
            ↔ (Contains (set.items self.old.vrps) v
            × IsSpared self.old (ended edit.now auths.now) begun.now v) }
        ensures same { IsWithSame self.old self.new }
    {
        for auth in auths {
            if edit.ends(auth.number) {
                self.end_unless_given(auth, begun);
            }
        }
    }

    /// Takes out what the authorization gives on the day, unless one of the begun ones gives it too
    /// or it is asserted.
    fn end_unless_given(&mut self, auth: &Auth, begun: &[Auth])
        ensures left { (v : Vrp) → Contains (set.items self.new.vrps) v
            ↔ IsLeftWithout self.old (GivesOn auth.now self.old.day) begun.now v }
        ensures same { IsWithSame self.old self.new }
    {
        if auth.is_in_force(self.day) {
            self.end_entries(auth.entries.as_slice(), auth.asn, begun);
        }
    }

    fn end_entries(&mut self, entries: &[RoaPrefix], asn: Asn, begun: &[Auth])
        ensures left { (v : Vrp) → Contains (set.items self.new.vrps) v
            ↔ IsLeftWithout self.old (IsVrpOfSome entries.now asn) begun.now v }
        ensures same { IsWithSame self.old self.new }
    {
        for entry in entries {
            self.end_entry(entry, asn, begun);
        }
    }

    /// Takes out the VRP of the entry, unless one of the begun authorizations gives it on the day
    /// or it is asserted.
    fn end_entry(&mut self, entry: &RoaPrefix, asn: Asn, begun: &[Auth])
        ensures left { (v : Vrp) → Contains (set.items self.new.vrps) v
            ↔ IsLeftWithout self.old (IsVrpOfEntry entry.now asn) begun.now v }
        ensures same { IsWithSame self.old self.new }
    {
        if let Some(vrp) = entry.vrp(asn) {
            if !self.is_spared(&vrp, begun) {
                self.vrps.remove(&vrp);
            }
        }
    }

    fn is_spared(&self, vrp: &Vrp, begun: &[Auth]) -> bool
        ensures { IsTrue result ↔ (AreGivingOn begun.now self.now.day vrp.now
            ⊎ Contains (set.items self.now.asserted) vrp.now) }
    {
        self.is_asserted(vrp) || is_given(vrp, begun, self.day)
    }

    fn begin_entries(&mut self, entries: &[RoaPrefix], asn: Asn) -> Result<(), AllocError>
        ensures ok { OnOk result ((v : Vrp) → Contains (set.items self.new.vrps) v
            ↔ IsJoinedBy self.old (IsVrpOfSome entries.now asn) v) }
        ensures err { OnErr result ((v : Vrp)
            × IsAdded self.old (IsVrpOfSome entries.now asn) v) }
        ensures same { IsWithSame self.old self.new }
    {
        for entry in entries {
            self.begin_entry(entry, asn)?;
        }
        Ok(())
    }

    /// Puts in the VRP of the entry, unless a filter matches it.
    fn begin_entry(&mut self, entry: &RoaPrefix, asn: Asn) -> Result<(), AllocError>
        ensures ok { OnOk result ((v : Vrp) → Contains (set.items self.new.vrps) v
            ↔ IsJoinedBy self.old (IsVrpOfEntry entry.now asn) v) }
        ensures err { OnErr result ((v : Vrp)
            × IsAdded self.old (IsVrpOfEntry entry.now asn) v) }
        ensures same { IsWithSame self.old self.new }
    {
        if let Some(vrp) = entry.vrp(asn) {
            if !self.filters.matches(&vrp) {
                self.vrps.insert(vrp)?;
            }
        }
        Ok(())
    }
}
