//! Rows of a holder that are put into their table.
ghost use Rattle.std.specs.Prelude.{◌≡◌, List, [], ◌∷◌, ◌++◌};
ghost use Rattle.registry.specs.Rows.{Rows};
ghost use Rattle.store_transactions.specs.Statements.{IsReady, OnCleanDisk, StaysInside};
ghost use Rattle.store_write.specs.steps.Statements.{IfEdited};

use addr::Name;
use sqlite::{Alter, Error, Transaction};

/// A value of a holder that is a row of one table.
pub(crate) trait HolderRow: Sized {
    // The rows of a holder with such values added.
    ghost added: { List Self → Rows → Rows };

    /// Puts the row of the value.
    fn put<S: Alter>(&self, tx: &mut Transaction<'_, S>, holder: &Name) -> Result<(), Error>
        requires { OnCleanDisk S.Store IsReady tx.old }
        ensures done { IfEdited S.Store result holder.now (added (self.now ∷ [])) tx.old tx.new }
        ensures inside { StaysInside S.Store tx.old tx.new };

    // No value adds nothing, and one after others adds them all.
    ghost none_added: { (r : Rows) → added [] r ≡ r };

    ghost one_more_added: { (xs : List Self) (x : Self) (r : Rows)
        → added (x ∷ []) (added xs r) ≡ added (xs ++ x ∷ []) r };
}

/// Puts the rows of values of a holder.
pub(crate) fn put_rows<T: HolderRow, S: Alter>(
    tx: &mut Transaction<'_, S>,
    holder: &Name,
    rows: &[T],
) -> Result<(), Error>
    requires { OnCleanDisk S.Store IsReady tx.old }
    ensures done { IfEdited S.Store result holder.now (T.added rows.now) tx.old tx.new }
    ensures inside { StaysInside S.Store tx.old tx.new }
{
    for row in rows {
        row.put(tx, holder)?;
    }
    Ok(())
}
