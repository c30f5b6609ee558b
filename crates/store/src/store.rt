//! The store: a connection to the tables of a desk, and its charter.
ghost use Rattle.std.specs.Prelude.{◌≡◌, ◌≢◌, ◌↔◌, false, None, Err, OnOk, OnErr, IfOk, IfErr, IsTrue};
ghost use Rattle.sqlite.specs.Held.{state};
ghost use Rattle.sqlite.specs.State.{HasCleanDisk};
ghost use Rattle.registry.specs.RowsOfAll.{blank_rows, changed_rows};
ghost use Rattle.store.specs.RefusedOpening.{IsGivenBack, IsNotMade};
ghost use Rattle.store.specs.StoreRows.{IsOpened};
ghost use Rattle.store_transactions.specs.Databases.{HasDeskTables, IsUnused, IsNew, LeavesNew, IsHonest};
ghost use Rattle.store_open.specs.Opening.{IsOfAnotherSchema};
ghost use Rattle.store.specs.steps.Commits.{CommitsChange, MayCommit};
ghost use Rattle.store_transactions.specs.Statements.{IfCommitted, IfRolledBack, CommitsAtMost};

use crate::loss::load_for_loss;
use crate::part::{Part, load_part};
use addr::{Day, Name, Prefix, Vrp};
use registry::{Answers, Change, Charter, Command, HolderRows, Proposed};
use slurm::Slurm;
use sqlite::{Alter, Connection, MemStore};
use std::alloc::Global;
use std::marker::Model;
use store_open::{make_tables, open_tables};
use store_read::{
    Loaded, is_registered, load_files, load_for_amend, load_for_create, load_for_delegate,
    load_grants_counted, load_holdings, load_listed, load_numbered, load_rows, load_vrps,
    some_overlap,
};
use store_transactions::StoreFault;
use store_write::make_change;

/// Makes the change in one transaction.
fn commit_change<S: Alter>(conn: &mut Connection<S>, change: &Change) -> Result<(), StoreFault>
    requires idle { conn.old.in_transaction ≡ false }
    requires tables { HasDeskTables (state S.Store conn.old) }
    ensures idle { conn.new.in_transaction ≡ false }
    ensures ok { IfCommitted S.Store result
        (CommitsChange change.now) conn.old conn.new }
    ensures err { IfRolledBack S.Store result conn.old conn.new }
    ensures crash { CommitsAtMost S.Store (MayCommit change.now) conn.old conn.new }
    ensures no_schema { result ≢ Err StoreFault.Schema }
{
    // For the proof: their contracts say that outside a transaction all that is shown is committed,
    // and that it obeys the schema.
    let _idle = conn.is_autocommit();
    let _schema = conn.schema();
    let mut tx = conn.transaction();
    make_change(&mut tx, change)?;
    tx.commit()?;
    Ok(())
}

/// Rows that are loaded alone, where the rules read nothing beside them.
fn alone(rows: Option<HolderRows>) -> Loaded
    ensures { result.rows ≡ rows }
{
    Loaded {
        rows,
        taker: None,
        answers: Answers::NONE,
    }
}

/// The rows of a desk, in a database.
///
/// If a disk fails, the connection may shut. Then every call answers a fault, and the rows are
/// those that an open of the files finds.
#[derive(Drop)]
pub struct Store<S: Alter> {
    conn: Connection<S>,
    charter: Charter,
}

impl<S: Alter> Model for Store<S> {
    ghost use Rattle.std.specs.Prelude.{◌≡◌, false};
    ghost use Rattle.sqlite.specs.Held.{state};
    ghost use Rattle.store.specs.StoreRows.{StoreView, view_code};
    ghost use Rattle.store_transactions.specs.Databases.{IsDeskWhileOpen};

    ghost Value = { StoreView S };

    ghost coded = { view_code S.code };

    ghost view = { λ s. record { connection = s.conn; charter = s.charter } };

    ghost invariant = { λ s. (s.conn.in_transaction ≡ false)
        × IsDeskWhileOpen (state S.Store s.conn) };
}

impl<S: Alter + Drop> Store<S> {
    ghost use Rattle.store.specs.StoreRows.{connection_state, Holds, OnCleanStore};

    /// A store over a connection to a database that has no table yet, with this charter, where no
    /// holder is registered and no exception is in force. A connection in a transaction is refused,
    /// and a limit of its steps is lifted. What was done to a database that is refused is in no
    /// value: a caller that needs to know calls `create_or_return`.
    pub fn create_on(conn: Connection<S>, charter: &Charter) -> Result<Self, StoreFault>
        ensures charter { IfOk result (λ store. store.charter ≡ charter.now) }
        ensures rows { IfOk result (λ store. Holds S.Store store blank_rows) }
        ensures unused { OnOk result (IsUnused (state S.Store conn)) }
        ensures unlimited { IfOk result (λ store. store.connection.step_limit ≡ None) }
        ensures made { IfOk result (λ store. OnCleanStore S.Store store
            (IsNew charter.now (connection_state S.Store store))) }
        ensures clean { IfOk result (λ store. OnCleanStore S.Store store
            (HasCleanDisk (state S.Store conn))) }
        ensures left { IfOk result (λ store. OnCleanStore S.Store store
            (LeavesNew charter.now (connection_state S.Store store))) }
        ensures no_schema { result ≢ Err StoreFault.Schema }
    {
        match Store::create_or_return(conn, charter) {
            Ok(store) => Ok(store),
            Err((fault, _)) => Err(fault),
        }
    }

    /// Like `create_on`, but returns the connection if it is refused, so that a contract can say
    /// what is left of its database.
    pub fn create_or_return(
        mut conn: Connection<S>,
        charter: &Charter,
    ) -> Result<Self, (StoreFault, Connection<S>)>
        ensures charter { IfOk result (λ store. store.charter ≡ charter.now) }
        ensures rows { IfOk result (λ store. Holds S.Store store blank_rows) }
        ensures unused { OnOk result (IsUnused (state S.Store conn)) }
        ensures unlimited { IfOk result (λ store. store.connection.step_limit ≡ None) }
        ensures made { IfOk result (λ store. OnCleanStore S.Store store
            (IsNew charter.now (connection_state S.Store store))) }
        ensures clean { IfOk result (λ store. OnCleanStore S.Store store
            (HasCleanDisk (state S.Store conn))) }
        ensures left { IfOk result (λ store. OnCleanStore S.Store store
            (LeavesNew charter.now (connection_state S.Store store))) }
        ensures err { IfErr result (λ refused.
            IsNotMade S.Store charter.now (state S.Store conn) refused.0 refused.1) }
    {
        let Ok(kept) = charter.clone() else {
            return Err((StoreFault::Database, conn));
        };
        match make_tables(&mut conn, charter) {
            Ok(()) => Ok(Store {
                conn,
                charter: kept,
            }),
            Err(fault) => Err((fault, conn)),
        }
    }

    /// A store over a database that has the tables of a desk. One of schema 1 is moved in one
    /// commit; otherwise nothing is written, and indexes and views are left alone. A connection in
    /// a transaction is refused, and a limit of its steps is lifted. What was done to a database
    /// that is refused is in no value: a caller that needs to know calls `open_or_return`.
    pub fn open_from(alloc: Global, conn: Connection<S>) -> Result<Self, StoreFault>
        ensures opened { IfOk result (λ store. OnCleanStore S.Store store
            (IsOpened S.Store (state S.Store conn) store)) }
        ensures unlimited { IfOk result (λ store. store.connection.step_limit ≡ None) }
        ensures clean { IfOk result (λ store. OnCleanStore S.Store store
            (HasCleanDisk (state S.Store conn))) }
        ensures schema { IsHonest S.Store → result ≡ Err StoreFault.Schema
            → IsOfAnotherSchema (state S.Store conn).now }
    {
        match Store::open_or_return(alloc, conn) {
            Ok(store) => Ok(store),
            Err((fault, _)) => Err(fault),
        }
    }

    /// Like `open_from`, but returns the connection if it is refused, so that a contract can say
    /// whether its disk returned what was written, and what is left of its database.
    pub fn open_or_return(
        alloc: Global,
        mut conn: Connection<S>,
    ) -> Result<Self, (StoreFault, Connection<S>)>
        ensures opened { IfOk result (λ store. OnCleanStore S.Store store
            (IsOpened S.Store (state S.Store conn) store)) }
        ensures unlimited { IfOk result (λ store. store.connection.step_limit ≡ None) }
        ensures clean { IfOk result (λ store. OnCleanStore S.Store store
            (HasCleanDisk (state S.Store conn))) }
        ensures err { IfErr result (λ refused.
            IsGivenBack S.Store (state S.Store conn) refused.0 refused.1) }
    {
        match open_tables(&mut conn, alloc) {
            Ok(charter) => {
                // For the proof: their contracts say that the operators and the pool make a
                // charter, and that what is shown obeys the schema.
                let _rising = charter.operators();
                let _schema = conn.schema();
                Ok(Store { conn, charter })
            }
            Err(fault) => Err((fault, conn)),
        }
    }
}

impl<S: Alter> Store<S> {
    ghost use Rattle.std.specs.Prelude.{Option, AllPairs, Contains, is_some};
    ghost use Rattle.addr.specs.declared.vrp.Vrp.{Vrp};
    ghost use Rattle.registry.specs.RowsOfAll.{IsTaken, IsGivenOn};
    ghost use Rattle.registry.specs.Values.{FitIfAny, FilesFit};
    ghost use Rattle.store.specs.Given.{GivenOnce};
    ghost use Rattle.store.specs.PartLoaded.{IsForChanges};
    ghost use Rattle.store_read.specs.Loads.{AllGiveOn, AreCounted, AreFilesOf, AreLoaded};
    ghost use Rattle.store_read.specs.Loads.{AreHoldings, AreListed, AreNumbered, IsForLoss, IsLoadedFor};
    ghost use Rattle.store.specs.StoreRows.{connection_state, IsRead, NamedFit, EachHeldRows};
    ghost use Rattle.store.specs.StoreRows.{FindsHeld, FindsHeldOf, RefusesHeld, RefusesUnfitOf};
    ghost use Rattle.store_transactions.specs.Databases.{IsDeskWhileOpen};
    ghost use Rattle.store.specs.StoreRows.{OnCleanStore, HoldsAfter, MayLeave, LeavesOnly};
    ghost use Rattle.store.specs.StoreRows.{KeepsSchema, LeavesPlaced};

    /// The operators and the pool.
    pub fn charter(&self) -> &Charter
        ensures { result.now ≡ self.now.charter }
    {
        &self.charter
    }

    /// The rows of the holder; `None` if it is not registered.
    pub fn load_holder(
        &mut self,
        alloc: Global,
        holder: &Name,
    ) -> Result<Option<HolderRows>, StoreFault>
        ensures read { IsRead S.Store self.old self.new }
        ensures found { FindsHeldOf S.Store self.old self.new holder.now result AreLoaded }
        ensures schema { RefusesUnfitOf S.Store self.old self.new holder.now result }
    {
        load_rows(&mut self.conn, alloc, holder)
    }

    /// The grants of the holder and its authorization that has the number, as rows with nothing
    /// else; neither if it is not registered.
    pub fn load_numbered(
        &mut self,
        alloc: Global,
        holder: &Name,
        number: u32,
    ) -> Result<HolderRows, StoreFault>
        ensures read { IsRead S.Store self.old self.new }
        ensures found { FindsHeldOf S.Store self.old self.new holder.now result
            (AreNumbered number) }
        ensures schema { RefusesUnfitOf S.Store self.old self.new holder.now result }
    {
        load_numbered(&mut self.conn, alloc, holder, number)
    }

    /// The grants and the authorizations of the holder, as rows with nothing else; neither if it is
    /// not registered.
    pub fn load_listed(&mut self, alloc: Global, holder: &Name) -> Result<HolderRows, StoreFault>
        ensures read { IsRead S.Store self.old self.new }
        ensures found { FindsHeldOf S.Store self.old self.new holder.now result AreListed }
        ensures schema { RefusesUnfitOf S.Store self.old self.new holder.now result }
    {
        load_listed(&mut self.conn, alloc, holder)
    }

    /// Whether the holder is registered.
    pub fn is_registered(&mut self, alloc: Global, holder: &Name) -> Result<bool, StoreFault>
        ensures read { IsRead S.Store self.old self.new }
        ensures found { FindsHeldOf S.Store self.old self.new holder.now result (λ rows registered.
            registered ≡ is_some rows) }
        ensures schema { RefusesUnfitOf S.Store self.old self.new holder.now result }
    {
        is_registered(&mut self.conn, alloc, holder)
    }

    /// The rows of two holders; of equal names the same rows twice.
    pub fn load_two(
        &mut self,
        alloc: Global,
        first: &Name,
        second: &Name,
    ) -> Result<(Option<HolderRows>, Option<HolderRows>), StoreFault>
        ensures read { IsRead S.Store self.old self.new }
        ensures found { FindsHeld S.Store self.old self.new result (λ rows both.
            AreLoaded (rows.of_holder first.now) both.0
            × AreLoaded (rows.of_holder second.now) both.1) }
        ensures schema { RefusesHeld S.Store self.old self.new result (λ rows.
            ¬ (FitIfAny (rows.of_holder first.now)
            × FitIfAny (rows.of_holder second.now))) }
    {
        let one = self.load_holder(alloc, first)?;
        let other = self.load_holder(alloc, second)?;
        Ok((one, other))
    }

    /// What the rules of the command read. Of each rule it loads no more than it needs: of most
    /// commands a part of the holder's rows, by key.
    pub fn load_for(&mut self, alloc: Global, command: &Command) -> Result<Loaded, StoreFault>
        ensures read { IsRead S.Store self.old self.new }
        ensures found { FindsHeld S.Store self.old self.new result (IsLoadedFor command.now) }
        ensures schema { RefusesHeld S.Store self.old self.new result (λ rows.
            ¬ NamedFit command.now rows) }
    {
        match command {
            Command::Register { holder } => self.load_counted(alloc, holder),
            Command::Delegate { holder, prefix } => {
                load_for_delegate(&mut self.conn, alloc, holder, prefix)
            }
            Command::Transfer {
                prefix,
                giver,
                taker,
            } => self.load_for_transfer(alloc, prefix, giver, taker),
            Command::Reclaim { holder, prefix } => self.load_for_reclaim(alloc, holder, prefix),
            Command::Grant { holder, .. } => self.load_counted(alloc, holder),
            Command::Revoke { holder, .. } => self.load_counted(alloc, holder),
            Command::Create { holder, terms } => {
                load_for_create(&mut self.conn, alloc, holder, terms)
            }
            Command::Amend {
                holder,
                number,
                maxes,
                ..
            } => load_for_amend(&mut self.conn, alloc, holder, *number, maxes),
            Command::Withdraw { holder, number } => {
                let part = self.load_numbered(alloc, holder, *number)?;
                Ok(alone(Some(part)))
            }
            Command::Import { holder, .. } => self.load_whole(alloc, holder),
            Command::Slurm { .. } => Ok(alone(None)),
        }
    }

    /// What the rules of hypothetical changes read of the holder: of its authorizations only those
    /// that they look for, by key.
    pub fn load_for_changes(
        &mut self,
        alloc: Global,
        holder: &Name,
        changes: &[Proposed],
    ) -> Result<Part, StoreFault>
        ensures read { IsRead S.Store self.old self.new }
        ensures found { FindsHeldOf S.Store self.old self.new holder.now result
            (IsForChanges changes.now) }
        ensures schema { RefusesUnfitOf S.Store self.old self.new holder.now result }
    {
        load_part(&mut self.conn, alloc, holder, changes)
    }

    /// The grants of the holder and its counters.
    fn load_counted(&mut self, alloc: Global, holder: &Name) -> Result<Loaded, StoreFault>
        ensures read { IsRead S.Store self.old self.new }
        ensures found { FindsHeldOf S.Store self.old self.new holder.now result (λ rows loaded.
            AreCounted rows loaded.rows) }
        ensures schema { RefusesUnfitOf S.Store self.old self.new holder.now result }
    {
        Ok(alone(load_grants_counted(&mut self.conn, alloc, holder)?))
    }

    /// The addresses of the holder.
    fn load_holdings(
        &mut self,
        alloc: Global,
        holder: &Name,
    ) -> Result<Option<HolderRows>, StoreFault>
        ensures read { IsRead S.Store self.old self.new }
        ensures found { FindsHeldOf S.Store self.old self.new holder.now result AreHoldings }
        ensures schema { RefusesUnfitOf S.Store self.old self.new holder.now result }
    {
        load_holdings(&mut self.conn, alloc, holder)
    }

    /// The addresses of the holder, and of its authorizations those that share an address with the
    /// prefix.
    fn load_for_loss(
        &mut self,
        alloc: Global,
        holder: &Name,
        prefix: &Prefix,
    ) -> Result<Option<HolderRows>, StoreFault>
        ensures read { IsRead S.Store self.old self.new }
        ensures found { FindsHeldOf S.Store self.old self.new holder.now result
            (IsForLoss prefix.now) }
        ensures schema { RefusesUnfitOf S.Store self.old self.new holder.now result }
    {
        load_for_loss(&mut self.conn, alloc, holder, prefix)
    }

    /// What the rules of a transfer of the prefix read.
    fn load_for_transfer(
        &mut self,
        alloc: Global,
        prefix: &Prefix,
        giver: &Name,
        taker: &Name,
    ) -> Result<Loaded, StoreFault>
        ensures read { IsRead S.Store self.old self.new }
        ensures found { FindsHeld S.Store self.old self.new result (λ rows loaded.
            IsForLoss prefix.now (rows.of_holder giver.now) loaded.rows
            × AreHoldings (rows.of_holder taker.now) loaded.taker) }
        ensures schema { RefusesHeld S.Store self.old self.new result (λ rows.
            ¬ (FitIfAny (rows.of_holder giver.now)
            × FitIfAny (rows.of_holder taker.now))) }
    {
        let rows = self.load_for_loss(alloc, giver, prefix)?;
        let taker = self.load_holdings(alloc, taker)?;
        Ok(Loaded {
            rows,
            taker,
            answers: Answers::NONE,
        })
    }

    /// What the rules of a reclaim of the prefix read.
    fn load_for_reclaim(
        &mut self,
        alloc: Global,
        holder: &Name,
        prefix: &Prefix,
    ) -> Result<Loaded, StoreFault>
        ensures read { IsRead S.Store self.old self.new }
        ensures found { FindsHeldOf S.Store self.old self.new holder.now result (λ rows loaded.
            IsForLoss prefix.now rows loaded.rows) }
        ensures schema { RefusesUnfitOf S.Store self.old self.new holder.now result }
    {
        Ok(alone(self.load_for_loss(alloc, holder, prefix)?))
    }

    /// All rows of the holder.
    fn load_whole(&mut self, alloc: Global, holder: &Name) -> Result<Loaded, StoreFault>
        ensures read { IsRead S.Store self.old self.new }
        ensures found { FindsHeldOf S.Store self.old self.new holder.now result (λ rows loaded.
            AreLoaded rows loaded.rows) }
        ensures schema { RefusesUnfitOf S.Store self.old self.new holder.now result }
    {
        Ok(alone(self.load_holder(alloc, holder)?))
    }

    /// Whether some holder holds an address of the prefix.
    pub fn overlapping(&mut self, prefix: &Prefix) -> Result<bool, StoreFault>
        ensures read { IsRead S.Store self.old self.new }
        ensures found { FindsHeld S.Store self.old self.new result (λ rows some.
            IsTrue some ↔ IsTaken rows prefix.now) }
        ensures no_schema { result ≢ Err StoreFault.Schema }
    {
        Ok(some_overlap(&mut self.conn, prefix)?)
    }

    /// The VRPs of the authorizations of all holders that are in force on the day, in no order.
    pub fn all_auths_on(&mut self, alloc: Global, day: Day) -> Result<Vec<Vrp>, StoreFault>
        ensures read { IsRead S.Store self.old self.new }
        ensures found { FindsHeld S.Store self.old self.new result (λ rows vrps.
            (v : Vrp) → Contains vrps.items v ↔ IsGivenOn rows day v) }
        ensures once { FindsHeld S.Store self.old self.new result (λ _ vrps.
            AllPairs ◌≢◌ vrps.items) }
        ensures schema { RefusesHeld S.Store self.old self.new result (λ rows.
            ¬ AllGiveOn rows day) }
    {
        load_vrps(&mut self.conn, alloc, day)
    }

    /// The SLURM files in force, rising by name; none if there is no exception.
    pub fn slurm_files(&mut self, alloc: Global) -> Result<Vec<Slurm>, StoreFault>
        ensures read { IsRead S.Store self.old self.new }
        ensures found { FindsHeld S.Store self.old self.new result (λ rows files.
            AreFilesOf rows.files files.items) }
        ensures schema { RefusesHeld S.Store self.old self.new result (λ rows.
            ¬ FilesFit rows.files) }
    {
        load_files(&mut self.conn, alloc)
    }

    /// Makes the change in one transaction: all of it, or after a fault nothing. If it is made, the
    /// rows before it gave no VRP twice.
    pub fn apply(&mut self, change: &Change) -> Result<(), StoreFault>
        ensures charter { self.new.charter ≡ self.old.charter }
        ensures limit { self.new.connection.step_limit ≡ self.old.connection.step_limit }
        ensures ok { OnCleanStore S.Store self.new
            (OnOk result (HoldsAfter S.Store self.old self.new (changed_rows change.now))) }
        ensures err { OnCleanStore S.Store self.new
            (OnErr result (HoldsAfter S.Store self.old self.new (λ rows. rows))) }
        ensures crash { OnCleanStore S.Store self.new
            (MayLeave S.Store self.old self.new (changed_rows change.now)) }
        ensures left { OnCleanStore S.Store self.new
            (OnOk result (LeavesOnly S.Store self.old self.new (changed_rows change.now))) }
        ensures positions { OnCleanStore S.Store self.new
            (OnOk result (EachHeldRows S.Store self.old (λ _.
            LeavesPlaced S.Store change.now self.old self.new))) }
        ensures once { OnCleanStore S.Store self.new
            (OnOk result (EachHeldRows S.Store self.old GivenOnce)) }
        ensures beside { OnCleanStore S.Store self.new (KeepsSchema S.Store self.old self.new) }
        ensures clean { OnCleanStore S.Store self.new
            (HasCleanDisk (connection_state S.Store self.old)) }
        ensures is_open { OnCleanStore S.Store self.new
            (OnOk result (IsTrue (connection_state S.Store self.new).is_open)) }
        ensures no_schema { result ≢ Err StoreFault.Schema }
    {
        // For the proof: its contract says that what the connection shows obeys the schema.
        let _schema = self.conn.schema();
        store_transactions::laws::claims_differ();
        store_transactions::laws::entries_differ();
        commit_change(&mut self.conn, change)
    }

    /// Returns the connection.
    pub fn close(self) -> Connection<S>
        ensures same { result ≡ self.connection }
        ensures idle { result.in_transaction ≡ false }
        ensures desk { IsDeskWhileOpen (state S.Store result) }
    {
        let Store { conn, .. } = self;
        conn
    }
}

impl Store<MemStore> {
    ghost use Rattle.sqlite.specs.Steps.{over_memory};
    ghost use Rattle.store.specs.StoreRows.{Holds};

    /// A store in memory with this charter, where no holder is registered and no exception is in
    /// force.
    pub fn open_memory(alloc: Global, charter: &Charter) -> Result<Self, StoreFault>
        ensures charter { IfOk result (λ store. store.charter ≡ charter.now) }
        ensures rows { IfOk result (λ store. Holds over_memory store blank_rows) }
        ensures unlimited { IfOk result (λ store. store.connection.step_limit ≡ None) }
        ensures no_schema { result ≢ Err StoreFault.Schema }
    {
        let conn = Connection::open_in_memory(alloc)?;
        Store::create_on(conn, charter)
    }
}
