//! Deciding commands.

ghost use Rattle.std.specs.Prelude.{◌≡◌, ℕ, true, false, None, Some, Err, IsTrue, option_copied, IfOk, map, filter};
ghost use Rattle.registry.specs.declared.charter.Charter.{Charter as CharterValue};
ghost use Rattle.registry.specs.History.{History, same_name};
ghost use Rattle.registry.specs.Terms.{terms_overlap};
ghost use Rattle.registry.specs.Verdict.{IsLegal};
ghost use Rattle.registry.specs.Rows.{auths_if_any, rows_if_any};
ghost use Rattle.policy.specs.steps.Admission.{IsAdmitted};
ghost use Rattle.registry.specs.Answer.{AnswersLoss, AreFacts, HasRuns, IfRegistered, ReportsTaken, RowsOfNamed, IsAnswer, IsViewOf, is_transfer, takes_memory, holder_of, taker_of};
ghost use Rattle.registry.specs.Edits.{AreRuled, EndsOverlapping, HasEditsOf};

mod import;

use crate::admission::{auths_of, grants_of, holdings_of, holds, made_of, registered, require};
use crate::amendment::{Amendment, amend, is_found_shared};
use crate::creation::{create, create_answers};
use crate::delegation::{delegate, register};
use crate::granting::{grant, revoke};
use crate::part::change_of;
use crate::space::{exchange, with_prefix, without_prefix};
use crate::withdrawal::withdraw;
use crate::{
    Answers, Auth, Change, Charter, Command, HolderChange, HolderRows, Refusal, Rule, View,
};
use addr::{Day, Name, Prefix};
use import::decide_import;
use registry::auth_of_number;
use slurm::SlurmSet;
use std::alloc::{AllocError, Global};

/// What every command is judged by, besides its own members and the rows.
#[derive(Clone, Copy)]
struct Basis<'a> {
    charter: &'a Charter,
    day: Day,
    caller: &'a Name,
}

/// A holder that a command names, and its rows; `None` if it is not registered.
#[derive(Clone, Copy)]
struct Holder<'a> {
    name: &'a Name,
    rows: Option<&'a HolderRows>,
}

/// The numbers of the authorizations that share an address with the prefix.
fn numbers_overlapping(
    alloc: Global,
    auths: &[Auth],
    prefix: &Prefix,
) -> Result<Vec<u32>, AllocError>
    ensures { IfOk result (λ numbers. numbers.items
        ≡ map (λ x. x.number) (filter (λ x. terms_overlap x prefix.now) auths.now)) }
{
    auths
        .iter()
        .filter(|auth| auth.overlaps(prefix))
        .map(|auth| auth.number)
        .collect(alloc)
}

/// The rows of the holder if all rules of a reclaim hold; otherwise the first that fails.
fn rows_for_reclaim<'a>(
    charter: &Charter,
    caller: &Name,
    holder: Holder<'a>,
    prefix: &Prefix,
) -> Result<&'a HolderRows, Rule>
    ensures admitted { (history : History) (day : ℕ)
        → IfRegistered history holder.entry.name.now (option_copied holder.entry.rows)
        (AnswersLoss history holder.entry.name.now prefix.now)
        → IsAdmitted charter.now history day caller.now
        (Command.Reclaim holder.entry.name.now prefix.now)
        (λ rows. AnswersLoss history holder.entry.name.now prefix.now rows.now) result }
    ensures found { IfOk result (λ rows. option_copied holder.entry.rows ≡ Some rows.now) }
{
    require(charter.is_operator(caller), Rule::Operator)?;
    let rows = registered(holder.rows)?;
    require(holds(rows, prefix), Rule::Held)?;
    Ok(rows)
}

/// Decides a reclaim.
fn decide_reclaim(
    alloc: Global,
    basis: Basis<'_>,
    holder: Holder<'_>,
    prefix: &Prefix,
) -> Result<Change, Refusal>
    ensures answer { (history : History) → IsLegal basis.entry.charter.now history
        → IfRegistered history holder.entry.name.now (option_copied holder.entry.rows)
        (AnswersLoss history holder.entry.name.now prefix.now)
        → IsAnswer basis.entry.charter.now history basis.entry.day basis.entry.caller.now
        (Command.Reclaim holder.entry.name.now prefix.now) result }
    ensures shape { IfOk result (HasEditsOf (Command.Reclaim holder.entry.name.now prefix.now)) }
    ensures ended { IfOk result (EndsOverlapping prefix.now
        (auths_if_any (option_copied holder.entry.rows))) }
{
    let rows = rows_for_reclaim(basis.charter, basis.caller, holder, prefix)?;
    let less = without_prefix(&rows.holdings, prefix)?;
    let ended = numbers_overlapping(alloc, &rows.auths, prefix)?;
    let edit = exchange(&rows.holdings, &less, ended)?;
    Ok(change_of(holder.name, edit))
}

/// The rows of the giver and of the taker if all rules of a transfer hold; otherwise the first that
/// fails.
fn rows_for_transfer<'a>(
    charter: &Charter,
    caller: &Name,
    prefix: &Prefix,
    giver: Holder<'a>,
    taker: Holder<'a>,
) -> Result<(&'a HolderRows, &'a HolderRows), Rule>
    ensures admitted { (history : History) (day : ℕ)
        → IfRegistered history giver.entry.name.now (option_copied giver.entry.rows)
        (AnswersLoss history giver.entry.name.now prefix.now)
        → IfRegistered history taker.entry.name.now (option_copied taker.entry.rows)
        (λ rows. HasRuns history taker.entry.name.now rows.holdings)
        → IsAdmitted charter.now history day caller.now
        (Command.Transfer prefix.now giver.entry.name.now taker.entry.name.now)
        (λ both. AnswersLoss history giver.entry.name.now prefix.now both.0.now
        × HasRuns history taker.entry.name.now both.1.now.holdings) result }
    ensures distinct { IfOk result (λ _.
        same_name giver.entry.name.now taker.entry.name.now ≡ false) }
    ensures found { IfOk result (λ both. option_copied giver.entry.rows ≡ Some both.0.now) }
{
    require(charter.is_operator(caller), Rule::Operator)?;
    let giving = registered(giver.rows)?;
    let taking = registered(taker.rows)?;
    require(*giver.name != *taker.name, Rule::Distinct)?;
    require(holds(giving, prefix), Rule::Held)?;
    Ok((giving, taking))
}

/// Decides a transfer.
fn decide_transfer(
    alloc: Global,
    charter: &Charter,
    caller: &Name,
    prefix: &Prefix,
    giver: Holder<'_>,
    taker: Holder<'_>,
) -> Result<Change, Refusal>
    ensures answer { (history : History) (day : ℕ) → IsLegal charter.now history
        → IfRegistered history giver.entry.name.now (option_copied giver.entry.rows)
        (AnswersLoss history giver.entry.name.now prefix.now)
        → IfRegistered history taker.entry.name.now (option_copied taker.entry.rows)
        (λ rows. HasRuns history taker.entry.name.now rows.holdings)
        → IsAnswer charter.now history day caller.now
        (Command.Transfer prefix.now giver.entry.name.now taker.entry.name.now) result }
    ensures shape { IfOk result (HasEditsOf
        (Command.Transfer prefix.now giver.entry.name.now taker.entry.name.now)) }
    ensures ended { IfOk result (EndsOverlapping prefix.now
        (auths_if_any (option_copied giver.entry.rows))) }
{
    let (giving, taking) = rows_for_transfer(charter, caller, prefix, giver, taker)?;
    let less = without_prefix(&giving.holdings, prefix)?;
    let more = with_prefix(&taking.holdings, prefix)?;
    let ended = numbers_overlapping(alloc, &giving.auths, prefix)?;
    let from_giver = exchange(&giving.holdings, &less, ended)?;
    let to_taker = exchange(&taking.holdings, &more, Vec::new(alloc))?;
    Ok(Change::Holders {
        first: HolderChange {
            holder: *giver.name,
            edit: from_giver,
        },
        second: Some(HolderChange {
            holder: *taker.name,
            edit: to_taker,
        }),
    })
}

/// Decides a set of SLURM files. It replaces the last set as a whole.
fn decide_slurm(alloc: Global, basis: Basis<'_>, files: &SlurmSet) -> Result<Change, Refusal>
    ensures answer { (history : History) → IsLegal basis.entry.charter.now history
        → IsAnswer basis.entry.charter.now history basis.entry.day basis.entry.caller.now
        (Command.Slurm files.now) result }
    ensures shape { IfOk result (HasEditsOf (Command.Slurm files.now)) }
{
    require(basis.charter.is_operator(basis.caller), Rule::Operator)?;
    require(!files.has_overlap(alloc), Rule::Overlap)?;
    Ok(Change::Exceptions(files.clone()?))
}

/// What a command is judged on: rows with at least what its rules read, and answers.
#[derive(Clone, Copy)]
pub struct Facts<'a> {
    /// Rows of the holder that the command names, of a transfer the giver's.
    pub rows: Option<&'a HolderRows>,
    /// Of a transfer, rows of the taker.
    pub taker: Option<&'a HolderRows>,
    pub answers: Answers,
}

/// The change that a command of the caller on the day makes, or the first rule that fails.
///
/// If the facts are those of a legal history, the answer is that history's; of other facts nothing
/// is promised. It allocates only for a delegation, a transfer, a reclaim, a create, an amendment,
/// an import and SLURM files.
pub fn judge(
    alloc: Global,
    charter: &Charter,
    facts: Facts<'_>,
    day: Day,
    caller: &Name,
    command: &Command,
) -> Result<Change, Refusal>
    ensures answer { (history : History) → IsLegal charter.now history
        → AreFacts history command.now (option_copied facts.entry.rows)
        (option_copied facts.entry.taker) facts.entry.answers
        → IsAnswer charter.now history day caller.now command.now result }
    ensures memory { result ≡ Err Refusal.Memory → IsTrue (takes_memory command.now) }
    ensures shape { IfOk result (HasEditsOf command.now) }
    ensures ruled { IfOk result
        (AreRuled command.now (option_copied facts.entry.rows) facts.entry.answers) }
{
    let Facts {
        rows,
        taker,
        answers,
    } = facts;
    let basis = Basis {
        charter,
        day,
        caller,
    };
    match command {
        Command::Register { holder } => Ok(register(charter, holder, rows.is_some(), caller)?),
        Command::Delegate { holder, prefix } => {
            let held = holdings_of(rows);
            delegate(alloc, charter, holder, held, answers.taken, caller, prefix)
        }
        Command::Transfer {
            prefix,
            giver,
            taker: name,
        } => {
            let giver = Holder { name: giver, rows };
            let taker = Holder { name, rows: taker };
            decide_transfer(alloc, charter, caller, prefix, giver, taker)
        }
        Command::Reclaim { holder, prefix } => {
            decide_reclaim(alloc, basis, Holder { name: holder, rows }, prefix)
        }
        Command::Grant { holder, terms } => {
            let made = made_of(rows);
            Ok(grant(charter, holder, grants_of(rows), made, day, caller, terms)?)
        }
        Command::Revoke { holder, number } => {
            Ok(revoke(charter, holder, grants_of(rows), day, caller, *number)?)
        }
        Command::Create { holder, terms } => {
            create(holder, grants_of(rows), answers, day, caller, terms)
        }
        Command::Amend {
            holder,
            number,
            maxes,
            until,
        } => {
            let found = auth_of_number(auths_of(rows), *number);
            let amendment = Amendment {
                maxes,
                until: *until,
            };
            amend(
                holder,
                grants_of(rows),
                found,
                answers.gives,
                day,
                caller,
                amendment,
            )
        }
        Command::Withdraw { holder, number } => {
            let found = auth_of_number(auths_of(rows), *number);
            Ok(withdraw(holder, grants_of(rows), found, day, caller, *number)?)
        }
        Command::Import {
            holder,
            rows: listed,
        } => decide_import(alloc, basis, Holder { name: holder, rows }, listed),
        Command::Slurm { files } => decide_slurm(alloc, basis, files),
    }
}

/// What the rules of a command other than a transfer read beside these rows. `taken` is read only
/// for a delegation.
fn answers_for(rows: Option<&HolderRows>, taken: bool, command: &Command) -> Answers
    requires { is_transfer command.now ≡ false }
    ensures { (charter : CharterValue) (history : History) → IsLegal charter history
        → RowsOfNamed history (holder_of command.now) (rows_if_any (option_copied rows.entry))
        → ReportsTaken history command.now taken
        → AreFacts history command.now (option_copied rows.entry) None result }
{
    match command {
        Command::Create { terms, .. } => create_answers(rows, terms),
        Command::Amend { number, maxes, .. } => {
            let auths = auths_of(rows);
            Answers {
                gives: is_found_shared(auths, auth_of_number(auths, *number), maxes),
                ..Answers::NONE
            }
        }
        _ => Answers {
            taken,
            ..Answers::NONE
        },
    }
}

/// The change that a command of the caller on the day makes, or the first rule that fails; a
/// transfer has `decide_two`. The desk calls `judge`, on less than all rows of a holder.
///
/// If the view has the rows of a legal history, the answer is that history's; of other rows nothing
/// is promised. It allocates only for a delegation, a reclaim, a create, an amendment, an import
/// and SLURM files.
pub fn decide(
    alloc: Global,
    charter: &Charter,
    view: &View,
    day: Day,
    caller: &Name,
    command: &Command,
) -> Result<Change, Refusal>
    requires { is_transfer command.now ≡ false }
    ensures answer { (history : History) → IsLegal charter.now history
        → IsViewOf history command.now view.now
        → IsAnswer charter.now history day caller.now command.now result }
    ensures memory { result ≡ Err Refusal.Memory → IsTrue (takes_memory command.now) }
    ensures shape { IfOk result (HasEditsOf command.now) }
{
    let rows = view.holder.as_ref();
    let facts = Facts {
        rows,
        taker: None,
        answers: answers_for(rows, view.taken, command),
    };
    judge(alloc, charter, facts, day, caller, command)
}

/// The change that a transfer makes, or the first rule that fails, on the rows of the giver and of
/// the taker; for equal names the same rows twice.
pub fn decide_two(
    alloc: Global,
    charter: &Charter,
    giver: Option<&HolderRows>,
    taker: Option<&HolderRows>,
    caller: &Name,
    command: &Command,
) -> Result<Change, Refusal>
    requires { is_transfer command.now ≡ true }
    ensures answer { (history : History) (day : ℕ) → IsLegal charter.now history
        → RowsOfNamed history (holder_of command.now) (rows_if_any (option_copied giver.entry))
        → RowsOfNamed history (taker_of command.now) (rows_if_any (option_copied taker.entry))
        → IsAnswer charter.now history day caller.now command.now result }
    ensures shape { IfOk result (HasEditsOf command.now) }
{
    match command {
        Command::Transfer {
            prefix,
            giver: giver_name,
            taker: taker_name,
        } => {
            let giver = Holder {
                name: giver_name,
                rows: giver,
            };
            let taker = Holder {
                name: taker_name,
                rows: taker,
            };
            decide_transfer(alloc, charter, caller, prefix, giver, taker)
        }
        _ => unreachable!(),
    }
}
