//! Imports: each row is judged on the rows that those before it left.

ghost use Rattle.std.specs.Prelude.{◌≡◌, Some, Err, option_copied, IfOk, OnOk};
ghost use Rattle.std.specs.Global.{Vec};
ghost use Rattle.registry.specs.declared.authorization.ImportRow.{ImportRow as ImportRowValue};
ghost use Rattle.registry.specs.declared.charter.Charter.{Charter as CharterValue};
ghost use Rattle.registry.specs.declared.command.Command.{Command};
ghost use Rattle.registry.specs.History.{History};
ghost use Rattle.registry.specs.Import.{JudgesRow};
ghost use Rattle.registry.specs.Verdict.{IsLegal};
ghost use Rattle.registry.specs.Rows.{rows_of, rows_if_any, RowsIfAny};
ghost use Rattle.registry.specs.Answer.{AtEachHolder, IsAnswer};
ghost use Rattle.registry.specs.Edits.{HasEditsOf, IsImportOf};
ghost use Rattle.policy.specs.steps.Authorized.{AreAuthorized};
ghost use Rattle.policy.specs.steps.Import.{AnswersImport, IsRowDone, MakesOfRow};
ghost use Rattle.policy.specs.steps.Part.{Judged};

use super::{Basis, Holder};
use crate::authorized::{authorize, authorized_rows, is_present};
use crate::creation::create_in;
use crate::part::{change_of, refusal_at};
use crate::{Auth, Change, Edit, HolderRows, ImportRow, Refusal, Rule};
use addr::{Day, Name};
use std::alloc::Global;
use std::collections::BTreeSet;

/// Puts the authorization that a row makes among the rows of the holder, and among those made. A
/// row that is already authorized makes none. `authorized` are the rows of which this is so.
fn import_row(
    alloc: Global,
    rows: &mut HolderRows,
    authorized: &mut BTreeSet<ImportRow>,
    auths: &mut Vec<Auth>,
    day: Day,
    caller: &Name,
    row: &ImportRow,
) -> Result<(), Refusal>
    requires { AreAuthorized authorized.old rows.old.auths.items }
    ensures judged { (charter : CharterValue) → AtEachHolder charter (Some (rows_of rows.old))
        (λ history h. Judged
        (λ _. IsRowDone charter history h day caller.now row.now auths.old auths.new
        (rows_of rows.old) (rows_of rows.new))
        (λ rule. JudgesRow charter day caller.now h history row.now (Err rule)) result) }
    ensures terms { OnOk result (MakesOfRow row.now auths.old.items auths.new.items) }
    ensures authorized { OnOk result (AreAuthorized authorized.new rows.new.auths.items) }
{
    if is_present(rows, authorized, day, caller, row) {
        return Ok(());
    }
    let terms = row.terms(alloc)?;
    let auth = create_in(rows, 0, day, caller, &terms)?;
    authorize(authorized, row)?;
    auths.push(auth)?;
    Ok(())
}

/// The edit of all rows, on those of a registered holder.
fn import_rows(
    alloc: Global,
    before: &HolderRows,
    day: Day,
    caller: &Name,
    listed: &[ImportRow],
) -> Result<Edit, Refusal>
    ensures answer { (charter : CharterValue) → AtEachHolder charter (Some (rows_of before.now))
        (λ history h. AnswersImport charter history h day caller.now listed.now result) }
    ensures shape { IfOk result (IsImportOf listed.now) }
{
    let mut rows = before.clone()?;
    let mut authorized = authorized_rows(alloc, &rows.auths)?;
    let mut auths = Vec::new(alloc);
    let mut place = 0;
    for row in listed {
        place += 1;
        let done = import_row(
            alloc,
            &mut rows,
            &mut authorized,
            &mut auths,
            day,
            caller,
            row,
        );
        if let Err(refusal) = done {
            return Err(refusal_at(refusal, place));
        }
    }
    Ok(Edit::Import {
        auths,
        created: rows.created,
    })
}

/// The edit of all rows. A holder that is not registered has no grants, so the first row is denied
/// for it.
fn import_edit(
    alloc: Global,
    rows: Option<&HolderRows>,
    day: Day,
    caller: &Name,
    listed: &[ImportRow],
) -> Result<Edit, Refusal>
    ensures answer { (charter : CharterValue)
        → AtEachHolder charter (rows_if_any (option_copied rows.entry))
        (λ history h. AnswersImport charter history h day caller.now listed.now result) }
    ensures shape { IfOk result (IsImportOf listed.now) }
{
    match rows {
        Some(before) => import_rows(alloc, before, day, caller, listed),
        None if listed.is_empty() => Ok(Edit::Import {
            auths: Vec::new(alloc),
            created: 0,
        }),
        None => Err(Refusal::Denied(Rule::Grant, Some(1))),
    }
}

/// Decides an import: all rows or none.
pub(super) fn decide_import(
    alloc: Global,
    basis: Basis<'_>,
    holder: Holder<'_>,
    listed: &[ImportRow],
) -> Result<Change, Refusal>
    ensures answer { (history : History) (rows : Vec ImportRowValue) → rows.items ≡ listed.now
        → IsLegal basis.entry.charter.now history
        → RowsIfAny history holder.entry.name.now (rows_if_any (option_copied holder.entry.rows))
        → IsAnswer basis.entry.charter.now history basis.entry.day basis.entry.caller.now
        (Command.Import holder.entry.name.now rows) result }
    ensures shape { (rows : Vec ImportRowValue) → rows.items ≡ listed.now
        → IfOk result (HasEditsOf (Command.Import holder.entry.name.now rows)) }
{
    let edit = import_edit(alloc, holder.rows, basis.day, basis.caller, listed)?;
    Ok(change_of(holder.name, edit))
}
