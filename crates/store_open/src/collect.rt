//! Takes the claims of the rows of their table, and the rowids of another, one row at a time.
ghost use Rattle.std.specs.Prelude.{◌≡◌, ◌≢◌, true, false, List, [], ◌∷◌, ◌++◌, Some, Err, IfOk, IfSome, MatchBool, MatchOption};
ghost use Rattle.std.specs.Ordering.{is_lt, int_cmp};
ghost use Rattle.sqlite_value.specs.declared.value.Value.TheVariants.{Int};
ghost use Rattle.store_open.specs.steps.Keys.{Collects, ShowsKey, ShowsNoClaim};
ghost use Rattle.store_open.specs.steps.Numbered.{last_value, EndApart};

use crate::key::ClaimKey;
use crate::rise::last_value;
use sqlite::Row;
use sqlite::types::ValueRef;
use std::alloc::Global;
use store_tables::{Claim, FromRow, OfHolder};
use store_transactions::{StoreFault, TakeRow};

/// The keys of the claims that the rows so far show, up to the first row that shows none.
#[derive(Drop)]
pub(crate) struct Collected {
    keys: Vec<ClaimKey>,
    last: Option<i64>,
    is_read: bool,
}

/// The rowid at the end of a row, if it is an integer above that of the row before.
fn rowid_above(last: Option<i64>, row: &Row) -> Option<i64>
    ensures { IfSome result (λ n. (last_value row.now ≡ Int n)
        × IfSome last (λ l. is_lt (int_cmp l n) ≡ true)) }
{
    let ValueRef::Int(rowid) = last_value(row) else {
        return None;
    };
    match last {
        Some(before) => (before < rowid).then_some(rowid),
        None => Some(rowid),
    }
}

/// The keys with that of the claim that the row shows, if it shows one.
fn with_claim(mut keys: Vec<ClaimKey>, rowid: i64, row: &Row) -> Result<Collected, StoreFault>
    ensures last { IfOk result (λ now. now.last ≡ Some rowid) }
    ensures taken { IfOk result (λ now. MatchBool now.is_read
        (ShowsKey row.now keys.items now.keys.items) (ShowsNoClaim row.now)) }
    ensures no_schema { result ≢ Err StoreFault.Schema }
{
    let last = Some(rowid);
    let Some(claim) = OfHolder::<Claim>::in_row(row) else {
        return Ok(Collected {
            keys,
            last,
            is_read: false,
        });
    };
    let Ok(()) = keys.push(ClaimKey::of(&claim)) else {
        return Err(StoreFault::Database);
    };
    Ok(Collected {
        keys,
        last,
        is_read: true,
    })
}

/// No keys, with room for so many. If there is no such room, the vector grows later.
fn no_keys(alloc: Global, count: usize) -> Vec<ClaimKey>
    ensures { result.items ≡ [] }
{
    match Vec::with_capacity(alloc, count) {
        Ok(keys) => keys,
        Err(_) => Vec::new(alloc),
    }
}

impl Collected {
    /// The keys of no claims, with room for so many.
    pub(crate) fn none(alloc: Global, count: usize) -> Collected
        ensures { Collects [] result.keys.items result.last result.is_read }
    {
        Collected {
            keys: no_keys(alloc, count),
            last: None,
            is_read: true,
        }
    }

    /// The keys, if each row showed a claim.
    pub(crate) fn into_keys(self) -> Option<Vec<ClaimKey>>
        ensures { MatchOption result (self.is_read ≡ false)
            (λ keys. (self.is_read ≡ true) × (keys ≡ self.keys)) }
    {
        let Collected {
            keys,
            last: _,
            is_read,
        } = self;
        if is_read { Some(keys) } else { None }
    }
}

impl TakeRow for Collected {
    ghost took = { λ _ rows now. Collects rows now.keys.items now.last now.is_read };

    fn take(self, row: &Row) -> Result<Collected, StoreFault> {
        let Collected {
            keys,
            last,
            is_read,
        } = self;
        if !is_read {
            return Ok(Collected {
                keys,
                last,
                is_read,
            });
        }
        let Some(rowid) = rowid_above(last, row) else {
            return Err(StoreFault::Database);
        };
        with_claim(keys, rowid, row)
    }
}

/// The rowid of the last of the rows so far, whose rowids rise.
#[derive(Drop)]
pub(crate) struct Rowids {
    last: Option<i64>,
}

impl Rowids {
    /// The rowids of no rows.
    pub(crate) fn none() -> Rowids
        ensures { EndApart [] result.last }
    {
        Rowids { last: None }
    }
}

impl TakeRow for Rowids {
    ghost took = { λ _ rows now. EndApart rows now.last };

    fn take(self, row: &Row) -> Result<Rowids, StoreFault> {
        let Some(rowid) = rowid_above(self.last, row) else {
            return Err(StoreFault::Database);
        };
        Ok(Rowids { last: Some(rowid) })
    }
}
