//! The registered holders and their counters, as rows of the table `holder`.
ghost use Rattle.store_write.specs.steps.RowEdits.{with_granted, with_created};
ghost use Rattle.store_transactions.specs.Statements.{IsReady, OnCleanDisk, StaysInside, IfDone, IfAnswered};
ghost use Rattle.store_write.specs.steps.Statements.{IfEdited, AnswersWhetherRegistered, Registers};

use addr::Name;
use sqlite::{Alter, Error, Transaction};
use store_tables::{
    INSERT_HOLDER, SELECT_COUNTERS, UPDATE_CREATED, UPDATE_GRANTED, name_values, number_values,
};
use store_transactions::{ask_inside, execute};

/// Sets how many grants were made at the holder.
#[tactic(auto, using(crate::proofs::EditSteps::sets_granted))]
pub(crate) fn set_granted<S: Alter>(
    tx: &mut Transaction<'_, S>,
    holder: &Name,
    number: u32,
) -> Result<(), Error>
    requires { OnCleanDisk S.Store IsReady tx.old }
    ensures done { IfEdited S.Store result holder.now (with_granted number) tx.old tx.new }
    ensures inside { StaysInside S.Store tx.old tx.new }
{
    execute(tx, UPDATE_GRANTED, &number_values(holder, number))
}

/// Sets how many authorizations were made at the holder.
#[tactic(auto, using(crate::proofs::EditSteps::sets_created))]
pub(crate) fn set_created<S: Alter>(
    tx: &mut Transaction<'_, S>,
    holder: &Name,
    number: u32,
) -> Result<(), Error>
    requires { OnCleanDisk S.Store IsReady tx.old }
    ensures done { IfEdited S.Store result holder.now (with_created number) tx.old tx.new }
    ensures inside { StaysInside S.Store tx.old tx.new }
{
    execute(tx, UPDATE_CREATED, &number_values(holder, number))
}

/// Whether the holder is registered.
pub(crate) fn is_registered<S: Alter>(
    tx: &mut Transaction<'_, S>,
    holder: &Name,
) -> Result<bool, Error>
    requires { OnCleanDisk S.Store IsReady tx.old }
    ensures answered { IfAnswered S.Store result
        (AnswersWhetherRegistered holder.now) tx.old tx.new }
    ensures inside { StaysInside S.Store tx.old tx.new }
{
    let found = ask_inside(tx, SELECT_COUNTERS, &name_values(holder))?;
    Ok(!found.is_empty())
}

/// Registers a holder that is not registered.
#[tactic(auto, using(crate::proofs::EditSteps::registers))]
pub(crate) fn register<S: Alter>(tx: &mut Transaction<'_, S>, holder: &Name) -> Result<(), Error>
    requires { OnCleanDisk S.Store IsReady tx.old }
    ensures done { IfDone S.Store result (Registers holder.now) tx.old tx.new }
    ensures inside { StaysInside S.Store tx.old tx.new }
{
    execute(tx, INSERT_HOLDER, &name_values(holder))
}
