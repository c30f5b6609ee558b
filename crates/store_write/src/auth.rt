//! The authorizations of a holder, as rows of the table `claim`, and their entries, as rows of the
//! table `entry`.
ghost use Rattle.std.proofs.Common.{append-nil, append_assoc};
ghost use Rattle.std.specs.Prelude.{◌≡◌, true, [], ◌∷◌, map};
ghost use Rattle.registry.specs.declared.change.Edit.TheVariants.{Withdraw, Amend};
ghost use Rattle.registry.specs.Rows.{edited};
ghost use Rattle.store_tables.specs.Cells.{claim_row, entry_row};
ghost use Rattle.store_tables.specs.Groups.{claim_entry};
ghost use Rattle.store_tables.specs.TablesHold.{claim_part, entry_part};
ghost use Rattle.store_write.specs.steps.RowEdits.{with_auths, without_auths};
ghost use Rattle.sqlite.specs.Values.{bound};
ghost use Rattle.store_transactions.specs.Statements.{IsReady, OnCleanDisk, StaysInside, IfDone, IfAnswered};
ghost use Rattle.store_transactions.specs.steps.Statements.{PutsRows};
ghost use Rattle.store_write.specs.steps.Statements.{IfEdited, IsExecutedOn};

use crate::row::HolderRow;
use addr::{Name, RoaPrefix};
use registry::Auth;
use sqlite::types::ValueRef;
use sqlite::{Alter, Error, Transaction};
use store_tables::{
    Claim, DELETE_CLAIM, DELETE_ENTRIES, EntryRow, INSERT_CLAIM, INSERT_ENTRY, UPDATE_CLAIM,
    address_bytes, claim_of, claim_values, entry_row_of, entry_values, number_values,
};
use store_transactions::execute;

/// Puts an authorization without its entries.
#[tactic(auto, using(crate::proofs::AuthSteps::puts_claim))]
fn put_claim<S: Alter>(
    tx: &mut Transaction<'_, S>,
    holder: &Name,
    claim: &Claim,
) -> Result<(), Error>
    requires { OnCleanDisk S.Store IsReady tx.old }
    ensures done { IfDone S.Store result
        (PutsRows claim_part.tree (claim_row holder.now claim.now ∷ [])) tx.old tx.new }
    ensures inside { StaysInside S.Store tx.old tx.new }
{
    execute(tx, INSERT_CLAIM, &claim_values(holder, claim))
}

/// Puts an entry of an authorization.
#[tactic(auto, using(crate::proofs::AuthSteps::puts_entry))]
fn put_entry<S: Alter>(
    tx: &mut Transaction<'_, S>,
    holder: &Name,
    row: &EntryRow,
) -> Result<(), Error>
    requires { OnCleanDisk S.Store IsReady tx.old }
    ensures done { IfDone S.Store result
        (PutsRows entry_part.tree (entry_row holder.now row.now ∷ [])) tx.old tx.new }
    ensures inside { StaysInside S.Store tx.old tx.new }
{
    let first = address_bytes(row.entry.prefix.first);
    execute(tx, INSERT_ENTRY, &entry_values(holder, row, &first))
}

/// Puts the entries of an authorization.
fn put_entries<S: Alter>(
    tx: &mut Transaction<'_, S>,
    holder: &Name,
    claim: &Claim,
    entries: &[RoaPrefix],
) -> Result<(), Error>
    requires { OnCleanDisk S.Store IsReady tx.old }
    ensures done { IfDone S.Store result (PutsRows entry_part.tree
        (map (entry_row holder.now) (map (claim_entry claim.now) entries.now))) tx.old tx.new }
    ensures inside { StaysInside S.Store tx.old tx.new }
{
    for entry in entries {
        put_entry(tx, holder, &entry_row_of(claim, *entry))?;
    }
    Ok(())
}

impl HolderRow for Auth {
    ghost added = { with_auths };

    ghost none_added = { λ r i. record r { auths = append-nil r.auths i } };

    ghost one_more_added = { λ xs x r i.
        record r { auths = append_assoc r.auths xs (x ∷ []) i } };

    fn put<S: Alter>(&self, tx: &mut Transaction<'_, S>, holder: &Name) -> Result<(), Error> {
        let claim = claim_of(self);
        put_claim(tx, holder, &claim)?;
        put_entries(tx, holder, &claim, self.entries.as_slice())
    }
}

/// Executes a statement that shows no rows, and counts those that it changes.
fn execute_counting<S: Alter>(
    tx: &mut Transaction<'_, S>,
    sql: &str,
    values: &[ValueRef<'_>],
) -> Result<usize, Error>
    requires { OnCleanDisk S.Store (λ s. s.in_transaction ≡ true) tx.old }
    ensures ran { IfAnswered S.Store result
        (IsExecutedOn sql.now (bound values.now)) tx.old tx.new }
    ensures inside { StaysInside S.Store tx.old tx.new }
{
    tx.execute(sql, values)
}

/// Replaces the authorization of the same number, if there is one. The two may have different
/// entries, so those of the old one are deleted.
pub(crate) fn amend_auth<S: Alter>(
    tx: &mut Transaction<'_, S>,
    holder: &Name,
    auth: &Auth,
) -> Result<(), Error>
    requires { OnCleanDisk S.Store IsReady tx.old }
    ensures done { IfEdited S.Store result holder.now (edited (Amend auth.now)) tx.old tx.new }
    ensures inside { StaysInside S.Store tx.old tx.new }
{
    store_transactions::laws::claims_differ();
    let claim = claim_of(auth);
    let entries = auth.entries.as_slice();
    execute(tx, DELETE_ENTRIES, &number_values(holder, auth.number))?;
    let amended = execute_counting(tx, UPDATE_CLAIM, &claim_values(holder, &claim))?;
    if amended == 0 {
        return Ok(());
    }
    put_entries(tx, holder, &claim, entries)
}

/// Deletes the authorization of this number, if there is one. Its entries go first, since they name
/// it.
pub(crate) fn take_auth<S: Alter>(
    tx: &mut Transaction<'_, S>,
    holder: &Name,
    number: u32,
) -> Result<(), Error>
    requires { OnCleanDisk S.Store IsReady tx.old }
    ensures done { IfEdited S.Store result holder.now (edited (Withdraw number)) tx.old tx.new }
    ensures inside { StaysInside S.Store tx.old tx.new }
{
    execute(tx, DELETE_ENTRIES, &number_values(holder, number))?;
    execute(tx, DELETE_CLAIM, &number_values(holder, number))
}

/// Deletes the authorizations of these numbers.
pub(crate) fn take_auths<S: Alter>(
    tx: &mut Transaction<'_, S>,
    holder: &Name,
    numbers: &[u32],
) -> Result<(), Error>
    requires { OnCleanDisk S.Store IsReady tx.old }
    ensures done { IfEdited S.Store result holder.now (without_auths numbers.now) tx.old tx.new }
    ensures inside { StaysInside S.Store tx.old tx.new }
{
    for number in numbers {
        take_auth(tx, holder, *number)?;
    }
    Ok(())
}
