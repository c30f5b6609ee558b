//! Theorems, stated as contracts of functions whose bodies at most call other theorems.
ghost use Rattle.store.specs.Laws.{AuthsOfHistoriesGive, FilesOfHistoriesFit, HistoriesRead};
ghost use Rattle.store.specs.Laws.{LoadsFactsOfHistories, LoadsListsOfHistories};
ghost use Rattle.store.specs.Laws.{LoadsNumberOfHistories};
ghost use Rattle.store.specs.Laws.{LoadsPartsOfHistories, LoadsRowsOfHistories, RowsOfHistoriesFit, RowsThatReadFit};
ghost use Rattle.store.specs.Laws.{MemoryHoldsRows, MemoryIsHonest, MemoryStaysOpen};
ghost use Rattle.store.specs.Laws.{OldHistoriesRead, OldTablesThatReadAreOurs, RowsInRangeGive};
ghost use Rattle.store.specs.Laws.{TablesThatReadAreOurs};

/// If the tables hold the rows of a history, the rows that are loaded of a holder are its rows
/// after that history, as `registry` defines them.
#[tactic(auto, using(crate::proofs::HistoryRows::loads_rows))]
pub fn rows_of_a_history()
    ensures { LoadsRowsOfHistories }
{}

/// If the tables hold the rows of a legal history, the grants and the authorization of a number
/// that are loaded of a holder are those of that history.
pub fn number_of_a_history()
    ensures { LoadsNumberOfHistories }
{}

/// If the tables hold the rows of a legal history, the grants and the authorizations that are
/// loaded of a holder for a list are those of that history.
pub fn list_of_a_history()
    ensures { LoadsListsOfHistories }
{}

/// If the tables hold the rows of a legal history, what is loaded for a command is what the rules
/// read of that history.
#[tactic(auto, using(crate::proofs::HistoryRows::loads_facts))]
pub fn facts_of_a_history()
    ensures { LoadsFactsOfHistories }
{}

/// If the tables hold the rows of a legal history, what is loaded of a holder for hypothetical
/// changes is a part of its rows that the rules judge as all of them.
#[tactic(auto, using(crate::proofs::HistoryRows::loads_parts))]
pub fn part_of_a_history()
    ensures { LoadsPartsOfHistories }
{}

/// The rows of a legal history whose values are those of their types are in their ranges, so that
/// by clause `schema` no load of a holder answers `Schema`.
pub fn rows_of_a_history_fit()
    ensures { RowsOfHistoriesFit }
{
    registry_laws::histories::legal_rows_fit();
}

/// The SLURM files of a history whose values are those of their types are in their ranges, so that
/// by clause `schema` no load of the SLURM files answers `Schema`.
pub fn files_of_a_history_fit()
    ensures { FilesOfHistoriesFit }
{
    registry_laws::histories::files_in_force_fit();
}

/// Each authorization in force of a legal history whose values are those of their types gives a
/// VRP, so that by clause `schema` no load of the VRPs of a day answers `Schema`.
pub fn auths_of_a_history_give()
    ensures { AuthsOfHistoriesGive }
{
    registry_laws::histories::legal_rows_fit();
}

/// If the tables hold a charter and the rows of a legal history whose values are those of their
/// types, no opening answers `Schema`.
pub fn tables_of_a_history_read()
    ensures { HistoriesRead }
{
    registry_laws::histories::legal_rows_fit();
    registry_laws::histories::files_in_force_fit();
}

/// If tables of schema 1 hold a charter and the rows of a legal history whose values are those of
/// their types, no opening answers `Schema`.
pub fn old_tables_of_a_history_read()
    ensures { OldHistoriesRead }
{
    registry_laws::histories::legal_rows_fit();
    registry_laws::histories::files_in_force_fit();
}

/// The rows of tables that read are in range, so that after an opening no load answers `Schema`:
/// by clause `opened` the store holds such rows, and by clause `schema` a load answers it only where
/// all rows that the store holds have a value that does not fit.
pub fn rows_that_read_fit()
    ensures fit { RowsThatReadFit }
    ensures give { RowsInRangeGive }
{}

/// A connection to memory is honest, so what contracts say of an honest disk holds for it.
pub fn memory_is_honest()
    ensures { MemoryIsHonest }
{}

/// A connection to memory is open after every call, so what contracts say of an open store holds
/// for one in memory.
pub fn memory_stays_open()
    ensures open { MemoryStaysOpen }
    ensures rows { MemoryHoldsRows }
{}

/// Tables of a desk that read, of this schema or of schema 1, are never refused as those of another
/// schema.
pub fn tables_that_read_are_ours()
    ensures now { TablesThatReadAreOurs }
    ensures old { OldTablesThatReadAreOurs }
{
    store_tables::laws::desk_tables_are_named();
}
