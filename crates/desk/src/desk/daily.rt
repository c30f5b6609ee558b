//! The day that a desk keeps beside its tables.
ghost use Rattle.std.specs.Prelude.{◌≡◌, ◌≢◌, ◌↔◌, Contains, true, false, None, Some, option_copied, option_map, IfOk, IfSome, OnOk, OnErr};
ghost use Rattle.std.specs.Borrow.{sem};
ghost use Rattle.addr.specs.declared.vrp.Vrp.{Vrp};
ghost use Rattle.daily_vrps.specs.Days.{IsDayOf, IsDayOfRows};
ghost use Rattle.registry.specs.RowsOfAll.{IsGivenOn};
ghost use Rattle.store_read.specs.Loads.{AreFilesOf};
ghost use Rattle.store.specs.StoreRows.{OnCleanStore, IsRead, EachHeldRows};
ghost use Rattle.desk.specs.Desk.{EachHeld};
ghost use Rattle.desk.specs.Lent.{Lends};
ghost use Rattle.desk.specs.Prepared.{day_of, IsPrepared};

use super::Desk;
use addr::{Day, Name, Vrp};
use daily_vrps::{CountedVrps, DailyVrps, assertions_of, filters_of};
use payload::Trie;
use slurm::Slurm;
use sqlite::Alter;
use std::alloc::Global;
use store::{Store, StoreFault};

/// The VRPs that the authorizations of all holders give on the day, and the SLURM files in force.
fn read_day<S: Alter>(
    store: &mut Store<S>,
    alloc: Global,
    day: Day,
) -> Result<(Vec<Vrp>, Vec<Slurm>), StoreFault>
    ensures read { IsRead S.Store store.old store.new }
    ensures found { OnCleanStore S.Store store.new (IfOk result (λ found.
        EachHeldRows S.Store store.old (λ rows.
        ((v : Vrp) → Contains found.0.items v ↔ IsGivenOn rows day v)
        × AreFilesOf rows.files found.1.items))) }
{
    let vrps = store.all_auths_on(alloc, day)?;
    let files = store.slurm_files(alloc)?;
    Ok((vrps, files))
}

/// The day as it is to be kept, read from the store.
pub(super) fn kept_on<S: Alter>(
    store: &mut Store<S>,
    alloc: Global,
    day: Day,
) -> Result<DailyVrps, StoreFault>
    ensures read { IsRead S.Store store.old store.new }
    ensures day { IfOk result (λ kept. kept.day ≡ day) }
    ensures kept { OnCleanStore S.Store store.new (IfOk result (λ kept.
        EachHeldRows S.Store store.old (λ rows. IsDayOfRows rows kept))) }
{
    let (vrps, files) = read_day(store, alloc, day)?;
    let filters = filters_of(alloc, &files)?;
    let assertions = assertions_of(alloc, &files)?;
    Ok(DailyVrps::of(alloc, day, vrps, filters, assertions)?)
}

/// The kept day, if it is this day.
pub(super) fn kept_if(kept: &Option<DailyVrps>, day: Day) -> Option<&DailyVrps>
    ensures { IfSome (option_copied result) (λ found. (kept.now ≡ Some found) × (found.day ≡ day)) }
{
    kept.as_ref().filter(|kept| kept.day() == day)
}

impl<S: Alter> Desk<S> {
    /// The day whose VRPs are kept, if any.
    pub fn kept(&self) -> Option<Day>
        ensures { result ≡ day_of self.now.kept }
    {
        self.kept.as_ref().map(DailyVrps::day)
    }

    /// The VRPs of the day with the exceptions in force; `None` if an allocation fails or the
    /// database does not answer. They are kept in place of those of another day, so that the next
    /// query about the day neither allocates nor reads the database.
    pub fn payloads(&mut self, day: Day) -> Option<&Trie>
        ensures* { sem 𝓛 (Lends S.row S.Store day self.entry result) }
    {
        if self.prepare(day) {
            self.kept_vrps()
        } else {
            None
        }
    }

    /// Like `payloads`, with the length of the CSV, which is counted once for the kept set.
    pub fn counted_payloads(&mut self, day: Day) -> Option<&CountedVrps>
        ensures* { sem 𝓛 (Lends S.row S.Store day self.entry result) }
    {
        if self.prepare(day) {
            self.count_kept();
            self.counted_vrps()
        } else {
            None
        }
    }

    fn count_kept(&mut self)
        ensures { self.new ≡ self.old }
    {
        if let Some(kept) = &mut self.kept {
            kept.count();
        }
    }

    /// The VRPs that are kept, with the length of their CSV.
    fn counted_vrps(&self) -> Option<&CountedVrps>
        ensures { option_copied result ≡ option_map (λ kept. kept.vrps) self.now.kept }
    {
        self.kept.as_ref().map(DailyVrps::counted_vrps)
    }

    /// Keeps the VRPs of the day in place of those of another, which are dropped first; returns
    /// whether they are kept. If they were already, nothing is read. If an allocation fails or the
    /// database does not answer, none are kept.
    pub fn prepare(&mut self, day: Day) -> bool
        ensures { IsPrepared S.Store day result self.old self.new }
    {
        self.keeps_its_rows();
        if self.is_kept(day) {
            return true;
        }
        self.keep_anew(day).is_ok()
    }

    /// The VRPs that are kept.
    pub(super) fn kept_vrps(&self) -> Option<&Trie>
        ensures { option_copied result ≡ option_map (λ kept. kept.vrps) self.now.kept }
    {
        self.kept.as_ref().map(DailyVrps::vrps)
    }

    fn is_kept(&self, day: Day) -> bool
        ensures yes { result ≡ true → day_of self.now.kept ≡ Some day }
        ensures no { result ≡ false → day_of self.now.kept ≢ Some day }
    {
        self.kept() == Some(day)
    }

    /// Drops the kept day, then reads the day and keeps it.
    fn keep_anew(&mut self, day: Day) -> Result<(), StoreFault>
        ensures read { IsRead S.Store self.old.store self.new.store }
        ensures ok { OnOk result (day_of self.new.kept ≡ Some day) }
        ensures err { OnErr result (self.new.kept ≡ None) }
        ensures found { EachHeld S.Store self.old.store self.new.store (λ history.
            IfSome self.new.kept (IsDayOf history)) }
    {
        self.kept.take();
        let kept = kept_on(&mut self.store, self.alloc, day)?;
        self.kept.replace(kept);
        Ok(())
    }
}
