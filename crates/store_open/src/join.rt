//! Joins claims with the rows of their entries, which come in the order of their key, one at a
//! time.
ghost use Rattle.std.specs.Prelude.{◌≡◌, ◌≢◌, true, false, List, [], ◌∷◌, ◌++◌, drop, Err, IfOk, MatchBool};
ghost use Rattle.sqlite_value.specs.Order.{Row as Cells};
ghost use Rattle.store_tables.specs.declared.entry.EntryRow.{EntryRow};
ghost use Rattle.store_tables.specs.declared.groups.OfHolder.{OfHolder};
ghost use Rattle.store_open.specs.steps.Joining.{JoinsRows, MakeNoneOfRows, MakeOfRows, WalkStands, WalkGoesOn};
ghost use Rattle.store_open.specs.steps.Keys.{AreOfAll, first_key_entry};

use crate::key::ClaimKey;
use addr::RoaPrefix;
use registry::RoaPrefixes;
use sqlite::Row;
use std::alloc::Global;
use std::mem;
use store_tables::{EntryRow, FromRow, OfHolder};
use store_transactions::{StoreFault, TakeRow};

/// A walk along claims in order: how many it has passed, and the entries found of the next one.
#[derive(Drop)]
pub(crate) struct Joined {
    alloc: Global,
    claims: Vec<ClaimKey>,
    passed: usize,
    found: Vec<RoaPrefix>,
    fits: bool,
}

/// The entry of the claim at this place that the row is, if there is such a claim and it is one.
fn entry_at(claims: &[ClaimKey], place: usize, row: &OfHolder<EntryRow>) -> Option<RoaPrefix>
    ensures { result ≡ first_key_entry (drop place claims.now) row.now }
{
    let claim = claims.get(place)?;
    claim.entry_if(row)
}

impl Joined {
    /// The walk before any row.
    pub(crate) fn start(alloc: Global, claims: Vec<ClaimKey>) -> Joined
        ensures claims { result.claims ≡ claims }
        ensures joins { AreOfAll (λ all.
            JoinsRows all [] result.passed result.found.items result.fits) claims.items }
    {
        Joined {
            alloc,
            claims,
            passed: 0,
            found: Vec::new(alloc),
            fits: true,
        }
    }

    /// The walk with one more entry of the next claim.
    fn with(mut self, entry: RoaPrefix) -> Result<Joined, StoreFault>
        ensures place { IfOk result (λ now. (now.claims ≡ self.claims)
            × (now.passed ≡ self.passed) × (now.fits ≡ self.fits)) }
        ensures more { IfOk result (λ now. now.found.items ≡ self.found.items ++ entry ∷ []) }
        ensures no_schema { result ≢ Err StoreFault.Schema }
    {
        let Ok(()) = self.found.push(entry) else {
            return Err(StoreFault::Database);
        };
        Ok(self)
    }

    /// The walk of which no authorizations come.
    fn unfit(mut self) -> Joined
        ensures { (result.claims ≡ self.claims) × (result.passed ≡ self.passed)
            × (result.found ≡ self.found) × (result.fits ≡ false) }
    {
        self.fits = false;
        self
    }

    /// The walk after the row of one more entry.
    fn pass(mut self, row: &OfHolder<EntryRow>) -> Result<Joined, StoreFault>
        requires { self.fits ≡ true }
        ensures claims { IfOk result (λ now. now.claims ≡ self.claims) }
        ensures walks { IfOk result (λ now. AreOfAll (λ all. (entries : List (OfHolder EntryRow))
            → WalkStands all entries (drop self.passed all) self.found.items
            → WalkGoesOn all (entries ++ row.now ∷ []) now.passed now.found.items now.fits)
            self.claims.items) }
        ensures no_schema { result ≢ Err StoreFault.Schema }
    {
        if self.passed >= self.claims.len() {
            return Ok(self.unfit());
        }
        if let Some(entry) = entry_at(&self.claims, self.passed, row) {
            return self.with(entry);
        }
        let found = mem::replace(&mut self.found, Vec::new(self.alloc));
        let Some(_) = RoaPrefixes::in_order(found) else {
            return Ok(self.unfit());
        };
        let Some(entry) = entry_at(&self.claims, self.passed + 1, row) else {
            return Ok(self.unfit());
        };
        self.passed += 1;
        self.with(entry)
    }

    /// Whether the claims made authorizations with the rows.
    pub(crate) fn is_whole(self) -> bool
        ensures { AreOfAll (λ all. (rows : List Cells)
            → JoinsRows all rows self.passed self.found.items self.fits
            → MatchBool result (MakeOfRows all rows) (MakeNoneOfRows all rows))
            self.claims.items }
    {
        if !self.fits {
            return false;
        }
        if self.passed >= self.claims.len() {
            return true;
        }
        let Some(_) = RoaPrefixes::in_order(self.found) else {
            return false;
        };
        self.passed + 1 >= self.claims.len()
    }
}

impl TakeRow for Joined {
    ghost took = { λ start rows now. (now.claims ≡ start.claims)
        × AreOfAll (λ all. JoinsRows all rows now.passed now.found.items now.fits)
        start.claims.items };

    fn take(mut self, row: &Row) -> Result<Joined, StoreFault> {
        if !self.fits {
            return Ok(self);
        }
        let Some(entry) = OfHolder::<EntryRow>::in_row(row) else {
            self.fits = false;
            return Ok(self);
        };
        self.pass(&entry)
    }
}
