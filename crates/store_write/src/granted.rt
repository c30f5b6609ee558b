//! The grants at a holder, as rows of the table `granted`.
ghost use Rattle.std.proofs.Common.{append-nil, append_assoc};
ghost use Rattle.std.specs.Prelude.{[], ◌∷◌};
ghost use Rattle.registry.specs.declared.change.Edit.TheVariants.{Revoke};
ghost use Rattle.registry.specs.Rows.{edited};
ghost use Rattle.store_write.specs.steps.RowEdits.{with_grants};
ghost use Rattle.store_transactions.specs.Statements.{IsReady, OnCleanDisk, StaysInside};
ghost use Rattle.store_write.specs.steps.Statements.{IfEdited};

use crate::row::HolderRow;
use addr::Name;
use registry::Granted;
use sqlite::{Alter, Error, Transaction};
use store_tables::{
    DELETE_GRANT, INSERT_GRANT, address_bytes, granted_values, number_values, scope_first,
};
use store_transactions::execute;

impl HolderRow for Granted {
    ghost added = { with_grants };

    ghost none_added = { λ r i. record r { grants = append-nil r.grants i } };

    ghost one_more_added = { λ xs x r i.
        record r { grants = append_assoc r.grants xs (x ∷ []) i } };

    #[tactic(auto, using(crate::proofs::EditSteps::puts_grant))]
    fn put<S: Alter>(&self, tx: &mut Transaction<'_, S>, holder: &Name) -> Result<(), Error> {
        let first = address_bytes(scope_first(&self.scope));
        execute(tx, INSERT_GRANT, &granted_values(holder, self, &first))
    }
}

/// Deletes the grant of this number, if there is one.
#[tactic(auto, using(crate::proofs::EditSteps::takes_grant))]
pub(crate) fn take_grant<S: Alter>(
    tx: &mut Transaction<'_, S>,
    holder: &Name,
    number: u32,
) -> Result<(), Error>
    requires { OnCleanDisk S.Store IsReady tx.old }
    ensures done { IfEdited S.Store result holder.now (edited (Revoke number)) tx.old tx.new }
    ensures inside { StaysInside S.Store tx.old tx.new }
{
    execute(tx, DELETE_GRANT, &number_values(holder, number))
}
