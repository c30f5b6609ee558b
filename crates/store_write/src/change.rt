//! What a change does to the tables.
ghost use Rattle.std.specs.Prelude.{◌≡◌, ◌≢◌, Err};
ghost use Rattle.registry.specs.Rows.{edited, changed_by_one};
ghost use Rattle.store_write.specs.steps.RowEdits.{with_new_auths, with_replaced_holdings, is_registration};
ghost use Rattle.store_transactions.specs.Statements.{IsReady, OnCleanDisk, StaysInside, IfDone};
ghost use Rattle.store_write.specs.steps.Statements.{IfEdited, HoldersBecome, each_holder};
ghost use Rattle.store_write.specs.Changes.{MakesChange, RowsBecome};

use crate::auth::{amend_auth, take_auth, take_auths};
use crate::exceptions::replace_files;
use crate::granted::take_grant;
use crate::holder::{is_registered, register, set_created, set_granted};
use crate::holding::take_holdings;
use crate::row::{HolderRow, put_rows};
use addr::{Name, Span};
use registry::{Auth, Change, Edit, Granted, HolderChange};
use sqlite::{Alter, Error, Transaction};
use std::slice;
use store_transactions::StoreFault;

/// Puts a grant, and its number as the counter.
fn put_new_grant<S: Alter>(
    tx: &mut Transaction<'_, S>,
    holder: &Name,
    grant: &Granted,
) -> Result<(), Error>
    requires { OnCleanDisk S.Store IsReady tx.old }
    ensures done { IfEdited S.Store result holder.now
        (edited (Edit.Grant grant.now)) tx.old tx.new }
    ensures inside { StaysInside S.Store tx.old tx.new }
{
    grant.put(tx, holder)?;
    set_granted(tx, holder, grant.number)
}

/// Puts authorizations, and sets how many were made at the holder.
fn put_new_auths<S: Alter>(
    tx: &mut Transaction<'_, S>,
    holder: &Name,
    auths: &[Auth],
    created: u32,
) -> Result<(), Error>
    requires { OnCleanDisk S.Store IsReady tx.old }
    ensures done { IfEdited S.Store result holder.now
        (with_new_auths auths.now created) tx.old tx.new }
    ensures inside { StaysInside S.Store tx.old tx.new }
{
    put_rows(tx, holder, auths)?;
    set_created(tx, holder, created)
}

/// Deletes some of the holder's runs, puts others, and deletes the authorizations of these numbers.
/// A new run may begin where a deleted one does, so the deletions come first.
fn replace_holdings<S: Alter>(
    tx: &mut Transaction<'_, S>,
    holder: &Name,
    removed: &[Span],
    added: &[Span],
    ended: &[u32],
) -> Result<(), Error>
    requires { OnCleanDisk S.Store IsReady tx.old }
    ensures done { IfEdited S.Store result holder.now
        (with_replaced_holdings removed.now added.now ended.now) tx.old tx.new }
    ensures inside { StaysInside S.Store tx.old tx.new }
{
    take_holdings(tx, holder, removed)?;
    put_rows(tx, holder, added)?;
    take_auths(tx, holder, ended)
}

/// Edits the rows of a registered holder. It cannot be registered again.
#[tactic(auto, using(crate::proofs::RowSteps::edited_same))]
fn edit_rows<S: Alter>(
    tx: &mut Transaction<'_, S>,
    holder: &Name,
    edit: &Edit,
) -> Result<(), StoreFault>
    requires { OnCleanDisk S.Store IsReady tx.old }
    ensures done { IfEdited S.Store result holder.now (edited edit.now) tx.old tx.new }
    ensures inside { StaysInside S.Store tx.old tx.new }
    ensures no_schema { result ≢ Err StoreFault.Schema }
{
    match edit {
        Edit::Register => return Err(StoreFault::Database),
        Edit::Hold {
            removed,
            added,
            ended,
        } => replace_holdings(tx, holder, removed, added, ended)?,
        Edit::Grant(granted) => put_new_grant(tx, holder, granted)?,
        Edit::Revoke(number) => take_grant(tx, holder, *number)?,
        Edit::Create(auth) => put_new_auths(tx, holder, slice::from_ref(auth), auth.number)?,
        Edit::Import { auths, created } => put_new_auths(tx, holder, auths, *created)?,
        Edit::Amend(auth) => amend_auth(tx, holder, auth)?,
        Edit::Withdraw(number) => take_auth(tx, holder, *number)?,
    }
    Ok(())
}

/// Whether the edit is the registration of the holder.
fn is_registration(edit: &Edit) -> bool
    ensures { result ≡ is_registration edit.now }
{
    matches!(edit, Edit::Register)
}

/// Edits the rows of one holder.
fn edit_holder<S: Alter>(
    tx: &mut Transaction<'_, S>,
    change: &HolderChange,
) -> Result<(), StoreFault>
    requires { OnCleanDisk S.Store IsReady tx.old }
    ensures done { IfDone S.Store result
        (MakesChange (HoldersBecome (each_holder (changed_by_one change.now)))) tx.old tx.new }
    ensures inside { StaysInside S.Store tx.old tx.new }
    ensures no_schema { result ≢ Err StoreFault.Schema }
{
    if is_registered(tx, &change.holder)? {
        return edit_rows(tx, &change.holder, &change.edit);
    }
    if is_registration(&change.edit) {
        register(tx, &change.holder)?;
    }
    Ok(())
}

/// Makes the change.
pub fn make_change<S: Alter>(tx: &mut Transaction<'_, S>, change: &Change) -> Result<(), StoreFault>
    requires { OnCleanDisk S.Store IsReady tx.old }
    ensures done { IfDone S.Store result
        (MakesChange (RowsBecome change.now)) tx.old tx.new }
    ensures inside { StaysInside S.Store tx.old tx.new }
    ensures no_schema { result ≢ Err StoreFault.Schema }
{
    match change {
        Change::Holders { first, second } => {
            edit_holder(tx, first)?;
            if let Some(second) = second {
                edit_holder(tx, second)?;
            }
        }
        Change::Exceptions(files) => replace_files(tx, files)?,
    }
    Ok(())
}
