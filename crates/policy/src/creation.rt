//! Creating an authorization.

ghost use Rattle.std.specs.Prelude.{◌≡◌, ℕ, ◌<◌, ◌↔◌, Bool, true, false, IsTrue, List, [], ◌∷◌, Some, option_copied, MatchResult, IfOk, OnOk};
ghost use Rattle.registry.specs.declared.charter.Charter.{Charter as CharterValue};
ghost use Rattle.registry.specs.declared.change.Edit.{Edit};
ghost use Rattle.registry.specs.declared.authorization.Auth.{Auth as AuthValue};
ghost use Rattle.registry.specs.declared.command.Command.{Command};
ghost use Rattle.registry.specs.declared.command.Proposed.{Proposed};
ghost use Rattle.registry.specs.declared.limits.TheConstants.{LAST_NUMBER};
ghost use Rattle.registry.specs.History.{History};
ghost use Rattle.registry.specs.RoaPrefixes.{AreInNumber};
ghost use Rattle.registry.specs.Rows.{Rows, rows_of, rows_if_any, grants_if_any, edited, RowsOf};
ghost use Rattle.registry.specs.Answer.{AnswersCreate, IsAnswer, AtEachHolder};
ghost use Rattle.registry.specs.Edits.{HasEditsOf, IsOfTerms};
ghost use Rattle.registry.specs.Terms.{numbered_terms};
ghost use Rattle.registry.specs.Verdict.{IsLegal, Verdict};
ghost use Rattle.registry.specs.PartOfRows.{IsPartFor};
ghost use Rattle.policy.specs.steps.Creation.{IsCreated};
ghost use Rattle.policy.specs.steps.HypotheticalChange.{OfPart};
ghost use Rattle.policy.specs.steps.Part.{Judged};

use crate::admission::{are_dates, holds_entries, is_full, require, require_access, some_gives};
use crate::part::change_of;
use crate::{
    Access, Answers, Auth, AuthTerms, Change, Edit, Granted, HolderRows, LAST_NUMBER, Refusal, Rule,
};
use addr::{Day, Name};
use registry::{are_permitted, fit_lengths};
use std::alloc::AllocError;

/// Whether another authorization may be made: neither too many are active, nor were too many made.
fn has_room(answers: Answers) -> bool
    ensures { IsTrue result ↔ ((answers.is_full ≡ false) × (answers.created < LAST_NUMBER)) }
{
    !answers.is_full && answers.created < LAST_NUMBER
}

/// The number of the authorization that a create of the terms makes, or the first rule that fails.
fn new_number(
    grants: &[Granted],
    answers: Answers,
    day: Day,
    caller: &Name,
    terms: &AuthTerms,
) -> Result<u32, Rule>
    ensures judged { (charter : CharterValue) (history : History) (h : List ℕ)
        → IsLegal charter history → AnswersCreate history h terms.now grants.now answers
        → MatchResult result
        (λ n. IsCreated charter history h day caller.now terms.now (numbered_terms terms.now n))
        (λ rule. Verdict charter history day caller.now (Command.Create h terms.now) (Some rule)) }
    ensures held { IfOk result (λ _. (answers.holds ≡ true) × AreInNumber terms.now.entries) }
{
    require_access(grants, day, caller, Access::Alter)?;
    let entries = terms.entries.as_slice();
    let permitted = are_permitted(grants, day, caller, Access::Alter, entries);
    require(permitted, Rule::Scope)?;
    require(are_dates(day, terms.from, terms.until), Rule::Dates)?;
    require(fit_lengths(entries), Rule::Length)?;
    require(answers.holds, Rule::Held)?;
    require(!answers.gives, Rule::Same)?;
    require(has_room(answers), Rule::Room)?;
    Ok(answers.created + 1)
}

/// The change that a create of the terms makes, or the first rule that fails. `grants` are the
/// holder's, and `answers` are what else the rules read.
pub(crate) fn create(
    holder: &Name,
    grants: &[Granted],
    answers: Answers,
    day: Day,
    caller: &Name,
    terms: &AuthTerms,
) -> Result<Change, Refusal>
    ensures answer { (charter : CharterValue) (history : History) → IsLegal charter history
        → AnswersCreate history holder.now terms.now grants.now answers
        → IsAnswer charter history day caller.now (Command.Create holder.now terms.now) result }
    ensures shape { IfOk result (HasEditsOf (Command.Create holder.now terms.now)) }
    ensures ruled { IfOk result (λ _. (answers.holds ≡ true) × AreInNumber terms.now.entries) }
{
    let number = new_number(grants, answers, day, caller, terms)?;
    let auth = terms.numbered(number)?;
    Ok(change_of(holder, Edit::Create(auth)))
}

/// What the rules of a create of the terms read of these rows, beside the grants, if they leave out
/// so many authorizations.
fn answers_of(rows: &HolderRows, left_out: u32, terms: &AuthTerms) -> Answers
    ensures { (history : History) (h : List ℕ) (keep : AuthValue → Bool) (whole : Rows)
        → RowsOf history h whole
        → IsPartFor (Proposed.Create terms.now ∷ []) 0 left_out keep whole (rows_of rows.now)
        → AnswersCreate history h terms.now rows.now.grants.items result }
{
    let entries = terms.entries.as_slice();
    Answers {
        created: rows.created,
        holds: holds_entries(rows, entries),
        gives: some_gives(&rows.auths, terms.asn, entries),
        is_full: is_full(&rows.auths, left_out),
        taken: false,
    }
}

/// Like `answers_of`, for all rows of the holder, also if there are none.
pub(crate) fn create_answers(rows: Option<&HolderRows>, terms: &AuthTerms) -> Answers
    ensures { (charter : CharterValue)
        → AtEachHolder charter (rows_if_any (option_copied rows.entry)) (λ history h.
        AnswersCreate history h terms.now (grants_if_any (option_copied rows.entry)) result) }
{
    // For the proof: its contract says that there is an entry, so a holder of the terms has rows.
    let _entries = terms.entries.as_slice();
    match rows {
        Some(rows) => answers_of(rows, 0, terms),
        None => Answers::NONE,
    }
}

/// Puts the authorization among the rows, and sets the counter to its number.
fn put(rows: &mut HolderRows, auth: &Auth) -> Result<(), AllocError>
    ensures { OnOk result (rows_of rows.new ≡ edited (Edit.Create auth.now) (rows_of rows.old)) }
{
    rows.auths.push(auth.clone()?)?;
    rows.created = auth.number;
    Ok(())
}

/// Puts the authorization that a create of the terms makes among the rows, unless a rule denies it.
/// The rows may leave out so many authorizations that the rules do not look for.
pub(crate) fn create_in(
    rows: &mut HolderRows,
    left_out: u32,
    day: Day,
    caller: &Name,
    terms: &AuthTerms,
) -> Result<Auth, Refusal>
    ensures rows { IfOk result
        (λ x. rows_of rows.new ≡ edited (Edit.Create x) (rows_of rows.old)) }
    ensures terms { IfOk result (IsOfTerms terms.now) }
    ensures number { IfOk result (λ _. AreInNumber terms.now.entries) }
    ensures judged { OfPart (Proposed.Create terms.now ∷ []) 0 left_out (rows_of rows.old)
        (λ charter history h _ _. Judged (IsCreated charter history h day caller.now terms.now)
        (λ rule. Verdict charter history day caller.now (Command.Create h terms.now) (Some rule))
        result) }
{
    let answers = answers_of(rows, left_out, terms);
    let number = new_number(&rows.grants, answers, day, caller, terms)?;
    let auth = terms.numbered(number)?;
    put(rows, &auth)?;
    Ok(auth)
}
