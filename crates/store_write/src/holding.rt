//! The runs that a holder holds, as rows of the table `holding`.
ghost use Rattle.std.proofs.Common.{append-nil, append_assoc};
ghost use Rattle.std.specs.Prelude.{[], ◌∷◌};
ghost use Rattle.store_write.specs.steps.RowEdits.{with_holdings, without_holdings};
ghost use Rattle.store_transactions.specs.Statements.{IsReady, OnCleanDisk, StaysInside};
ghost use Rattle.store_write.specs.steps.Statements.{IfEdited};

use crate::row::HolderRow;
use addr::{Name, Span};
use sqlite::{Alter, Error, Transaction};
use store_tables::{DELETE_HOLDING, INSERT_HOLDING, address_bytes, holding_values};
use store_transactions::execute;

impl HolderRow for Span {
    ghost added = { with_holdings };

    ghost none_added = { λ r i. record r { holdings = append-nil r.holdings i } };

    ghost one_more_added = { λ xs x r i.
        record r { holdings = append_assoc r.holdings xs (x ∷ []) i } };

    #[tactic(auto, using(crate::proofs::EditSteps::puts_holding))]
    fn put<S: Alter>(&self, tx: &mut Transaction<'_, S>, holder: &Name) -> Result<(), Error> {
        let first = address_bytes(self.lo);
        let last = address_bytes(self.hi);
        execute(
            tx,
            INSERT_HOLDING,
            &holding_values(holder, self, &first, &last),
        )
    }
}

/// Deletes a run of addresses, if the holder holds it.
#[tactic(auto, using(crate::proofs::EditSteps::takes_holding))]
fn take_holding<S: Alter>(
    tx: &mut Transaction<'_, S>,
    holder: &Name,
    span: &Span,
) -> Result<(), Error>
    requires { OnCleanDisk S.Store IsReady tx.old }
    ensures done { IfEdited S.Store result holder.now
        (without_holdings (span.now ∷ [])) tx.old tx.new }
    ensures inside { StaysInside S.Store tx.old tx.new }
{
    let first = address_bytes(span.lo);
    let last = address_bytes(span.hi);
    execute(
        tx,
        DELETE_HOLDING,
        &holding_values(holder, span, &first, &last),
    )
}

/// Deletes those of these runs that the holder holds.
pub(crate) fn take_holdings<S: Alter>(
    tx: &mut Transaction<'_, S>,
    holder: &Name,
    spans: &[Span],
) -> Result<(), Error>
    requires { OnCleanDisk S.Store IsReady tx.old }
    ensures done { IfEdited S.Store result holder.now (without_holdings spans.now) tx.old tx.new }
    ensures inside { StaysInside S.Store tx.old tx.new }
{
    for span in spans {
        take_holding(tx, holder, span)?;
    }
    Ok(())
}
