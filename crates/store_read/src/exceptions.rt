//! The SLURM files in force.
ghost use Rattle.registry.specs.Values.{FilesFit};
ghost use Rattle.store_transactions.specs.Queries.{IsAsked, IsReadyToAsk};
ghost use Rattle.store_read.specs.Loads.{AreFilesOf, Finds, Refuses};

use slurm::Slurm;
use sqlite::{Alter, Connection};
use std::alloc::Global;
use store_tables::SELECT_ALL_EXCEPTIONS;
use store_transactions::{StoreFault, ask, group_files, read_all};

/// The SLURM files in force, rising by name; none if there is no exception.
pub fn load_files<S: Alter>(
    conn: &mut Connection<S>,
    alloc: Global,
) -> Result<Vec<Slurm>, StoreFault>
    requires { IsReadyToAsk S.Store conn.old }
    ensures asked { IsAsked S.Store conn.old conn.new result }
    ensures found { Finds S.Store conn.old conn.new result (λ rows files.
        AreFilesOf rows.files files.items) }
    ensures schema { Refuses S.Store conn.old conn.new result (λ rows. ¬ FilesFit rows.files) }
{
    let rows = ask(conn, SELECT_ALL_EXCEPTIONS, &[])?;
    let exceptions = read_all(alloc, &rows)?;
    group_files(alloc, exceptions)
}
