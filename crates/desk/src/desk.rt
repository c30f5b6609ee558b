//! The desk, and how it handles requests.
ghost use Rattle.std.specs.Prelude.{◌≡◌, ◌≢◌, true, false, None, [], ◌∷◌, Err, IfOk, IfErr, OnOk, OnErr};
ghost use Rattle.std.specs.List.{list_any};
ghost use Rattle.registry.specs.History.{History};
ghost use Rattle.sqlite.specs.Held.{state};
ghost use Rattle.sqlite.specs.State.{HasCleanDisk};
ghost use Rattle.sqlite.specs.Steps.{over_memory};
ghost use Rattle.store.specs.StoreRows.{connection_state, OnCleanStore, IsRead, IsOpened};
ghost use Rattle.store.specs.RefusedOpening.{IsGivenBack, IsNotMade};
ghost use Rattle.store_transactions.specs.Databases.{IsDeskWhileOpen, IsNew, IsUnused, LeavesNew, IsHonest};
ghost use Rattle.store_open.specs.Opening.{IsOfAnotherSchema};
ghost use Rattle.desk.specs.Answer.{is_accepted, only_reads, IsAnswered};
ghost use Rattle.desk.specs.CrashOutcomes.{asked_on, AreDurablyAnswered, HasNonePending, IsDurablyAnswered};
ghost use Rattle.desk.specs.CrashOutcomes.{LeavesAlong, LeavesAtMost, StaysOpen};
ghost use Rattle.desk.specs.Resumed.{FindsLeft, ResumesHistories};
ghost use Rattle.desk.specs.Run.{AreAnswered};
ghost use Rattle.desk.specs.HolderAnswers.{may_change, may_change_any, may_except, may_except_any};
ghost use Rattle.desk.specs.HolderAnswers.{IsAnswerByEntries, OthersStay, RunsByEntries};
ghost use Rattle.desk.specs.Desk.{charter_of, store_of, ContinuesHistories, HoldsHistory};
ghost use Rattle.desk.specs.Desk.{IsOnCleanDisk, RowsStay, EachHistory};
ghost use Rattle.desk.specs.DeskView.{HoldsRowsAndDay};
ghost use Rattle.desk.specs.DayAfter.{DayAfter, DayAfterAll, DropsForGainAll, DropsForGain};
ghost use Rattle.desk.specs.Prepared.{day_of};

mod commands;
mod daily;
mod following;
mod queries;
mod what_if;

use crate::{Asked, Reply, Request};
use addr::{Day, Name};
use daily_vrps::DailyVrps;
use registry::Charter;
use sqlite::{Alter, Connection, MemStore};
use std::alloc::{AllocError, Global};
use std::marker::Model;
use store::{Store, StoreFault};

/// A route origin authorization desk over the tables of a store, with the charter that they were
/// made with. Beside the tables it may keep the VRPs of one day.
#[derive(Drop)]
pub struct Desk<S: Alter> {
    alloc: Global,
    store: Store<S>,
    kept: Option<DailyVrps>,
}

impl<S: Alter> Model for Desk<S> {
    ghost use Rattle.desk.specs.DeskView.{desk_code, DeskView, HoldsRowsAndDay};

    ghost Value = { DeskView S };

    ghost coded = { desk_code S.code };

    ghost view = { λ desk. record { store = desk.store; kept = desk.kept } };

    ghost invariant = { λ desk. HoldsRowsAndDay S.Store desk.store desk.kept };
}

impl<S: Alter + Drop> Desk<S> {
    /// A desk of this charter on which nothing was accepted yet, over a connection to a database
    /// that has no table. A connection in a transaction is refused, and a limit of its steps is
    /// lifted. What was done to a database that is refused is in no value: a caller that needs to
    /// know calls `create_or_return`.
    pub fn create_on(
        alloc: Global,
        conn: Connection<S>,
        charter: &Charter,
    ) -> Result<Self, StoreFault>
        ensures charter { IfOk result (λ desk. charter_of desk ≡ charter.now) }
        ensures empty { IfOk result (λ desk. HoldsHistory S.Store desk []) }
        ensures unused { OnOk result (IsUnused (state S.Store conn)) }
        ensures no_day { IfOk result (λ desk. desk.kept ≡ None) }
        ensures unlimited { IfOk result (λ desk. (store_of desk).connection.step_limit ≡ None) }
        ensures made { IfOk result (λ desk. OnCleanStore S.Store (store_of desk)
            (IsNew charter.now (connection_state S.Store (store_of desk)))) }
        ensures clean { IfOk result (λ desk. IsOnCleanDisk S.Store desk
            → HasCleanDisk (state S.Store conn)) }
        ensures left { IfOk result (λ desk. OnCleanStore S.Store (store_of desk)
            (LeavesNew charter.now (connection_state S.Store (store_of desk)))) }
        ensures none_pending { IfOk result (λ desk. IsOnCleanDisk S.Store desk
            → LeavesAtMost S.Store charter.now desk [] []) }
        ensures no_schema { result ≢ Err StoreFault.Schema }
    {
        match Desk::create_or_return(alloc, conn, charter) {
            Ok(desk) => Ok(desk),
            Err((fault, _)) => Err(fault),
        }
    }

    /// Like `create_on`, but returns the connection if it is refused, so that a contract can say
    /// what is left of its database.
    pub fn create_or_return(
        alloc: Global,
        conn: Connection<S>,
        charter: &Charter,
    ) -> Result<Self, (StoreFault, Connection<S>)>
        ensures charter { IfOk result (λ desk. charter_of desk ≡ charter.now) }
        ensures empty { IfOk result (λ desk. HoldsHistory S.Store desk []) }
        ensures unused { OnOk result (IsUnused (state S.Store conn)) }
        ensures no_day { IfOk result (λ desk. desk.kept ≡ None) }
        ensures unlimited { IfOk result (λ desk. (store_of desk).connection.step_limit ≡ None) }
        ensures made { IfOk result (λ desk. OnCleanStore S.Store (store_of desk)
            (IsNew charter.now (connection_state S.Store (store_of desk)))) }
        ensures clean { IfOk result (λ desk. IsOnCleanDisk S.Store desk
            → HasCleanDisk (state S.Store conn)) }
        ensures left { IfOk result (λ desk. OnCleanStore S.Store (store_of desk)
            (LeavesNew charter.now (connection_state S.Store (store_of desk)))) }
        ensures none_pending { IfOk result (λ desk. IsOnCleanDisk S.Store desk
            → LeavesAtMost S.Store charter.now desk [] []) }
        ensures err { IfErr result (λ refused.
            IsNotMade S.Store charter.now (state S.Store conn) refused.0 refused.1) }
    {
        let store = Store::create_or_return(conn, charter)?;
        let kept = None;
        Ok(Desk { alloc, store, kept })
    }

    /// A desk over a database that has the tables of one, with the charter and the rows that they
    /// hold. One of schema 1 is moved in one commit. A connection in a transaction is refused, and
    /// a limit of its steps is lifted. What was done to a database that is refused is in no value:
    /// a caller that needs to know calls `open_or_return`.
    pub fn open_from(alloc: Global, conn: Connection<S>) -> Result<Self, StoreFault>
        ensures opened { IfOk result (λ desk. OnCleanStore S.Store (store_of desk)
            (IsOpened S.Store (state S.Store conn) (store_of desk))) }
        ensures history { IfOk result (λ desk. IsOnCleanDisk S.Store desk
            → ContinuesHistories S.Store (state S.Store conn) desk) }
        ensures resumed { IfOk result (λ desk. IsOnCleanDisk S.Store desk
            → ResumesHistories S.Store (state S.Store conn) desk) }
        ensures none_pending { IfOk result (λ desk. IsOnCleanDisk S.Store desk
            → HasNonePending S.Store desk) }
        ensures no_day { IfOk result (λ desk. desk.kept ≡ None) }
        ensures unlimited { IfOk result (λ desk. (store_of desk).connection.step_limit ≡ None) }
        ensures clean { IfOk result (λ desk. IsOnCleanDisk S.Store desk
            → HasCleanDisk (state S.Store conn)) }
        ensures schema { IsHonest S.Store → result ≡ Err StoreFault.Schema
            → IsOfAnotherSchema (state S.Store conn).now }
    {
        match Desk::open_or_return(alloc, conn) {
            Ok(desk) => Ok(desk),
            Err((fault, _)) => Err(fault),
        }
    }

    /// Like `open_from`, but returns the connection if it is refused, so that a contract can say
    /// whether its disk returned what was written, and what is left of its database.
    pub fn open_or_return(
        alloc: Global,
        conn: Connection<S>,
    ) -> Result<Self, (StoreFault, Connection<S>)>
        ensures opened { IfOk result (λ desk. OnCleanStore S.Store (store_of desk)
            (IsOpened S.Store (state S.Store conn) (store_of desk))) }
        ensures history { IfOk result (λ desk. IsOnCleanDisk S.Store desk
            → ContinuesHistories S.Store (state S.Store conn) desk) }
        ensures resumed { IfOk result (λ desk. IsOnCleanDisk S.Store desk
            → ResumesHistories S.Store (state S.Store conn) desk) }
        ensures none_pending { IfOk result (λ desk. IsOnCleanDisk S.Store desk
            → HasNonePending S.Store desk) }
        ensures no_day { IfOk result (λ desk. desk.kept ≡ None) }
        ensures unlimited { IfOk result (λ desk. (store_of desk).connection.step_limit ≡ None) }
        ensures clean { IfOk result (λ desk. IsOnCleanDisk S.Store desk
            → HasCleanDisk (state S.Store conn)) }
        ensures err { IfErr result (λ refused.
            IsGivenBack S.Store (state S.Store conn) refused.0 refused.1) }
        ensures not_schema { IfErr result (λ refused. HasCleanDisk (state S.Store refused.1)
            → refused.0 ≡ StoreFault.Schema → ¬ FindsLeft (state S.Store conn)) }
    {
        registry_laws::histories::growth_is_legal();
        store_open::laws::desk_trees_have_tables();
        store_open::laws::old_desk_trees_have_schema();
        store::laws::tables_that_read_are_ours();
        store::laws::tables_of_a_history_read();
        store::laws::old_tables_of_a_history_read();
        // For the proof: its contract says that what the connection shows obeys the schema.
        let _schema = conn.schema();
        match Store::open_or_return(alloc, conn) {
            Ok(store) => {
                let kept = None;
                Ok(Desk { alloc, store, kept })
            }
            Err(refused) => Err(refused),
        }
    }
}

impl<S: Alter> Desk<S> {
    /// Replies to a request of the caller on the day. Only a reply of `Done` or `Imported` changes
    /// anything.
    pub fn handle(&mut self, day: Day, caller: &Name, request: &Request) -> Reply
        ensures answered { EachHistory S.Store self.old self.new (λ history.
            IsAnswered S.Store (charter_of self.old) history day caller.now request.now
            result self.new) }
        ensures charter { charter_of self.new ≡ charter_of self.old }
        ensures limit { (store_of self.new).connection.step_limit
            ≡ (store_of self.old).connection.step_limit }
        ensures clean { IsOnCleanDisk S.Store self.new → IsOnCleanDisk S.Store self.old }
        ensures kept { is_accepted result ≡ false → RowsStay S.Store self.old self.new }
        ensures read { only_reads request.now result ≡ true
            → IsRead S.Store (store_of self.old) (store_of self.new) }
        ensures is_open { is_accepted result ≡ true → StaysOpen S.Store self.new }
        ensures left { EachHistory S.Store self.old self.new (λ history.
            IsDurablyAnswered S.Store (charter_of self.old) history
            (asked_on day caller.now request.now) result self.old self.new) }
        ensures crash { EachHistory S.Store self.old self.new (λ history.
            LeavesAlong S.Store (charter_of self.old) self.old history
            (λ pending. asked_on day caller.now request.now ∷ pending) self.new history) }
        ensures isolated { EachHistory S.Store self.old self.new (λ history.
            IsAnswerByEntries (charter_of self.old) history day caller.now request.now result) }
        ensures others { EachHistory S.Store self.old self.new (λ _.
            OthersStay S.Store (may_change request.now) (may_except request.now)
            self.old self.new) }
        ensures kept_day { DayAfter day request.now result
            (day_of self.old.kept) (day_of self.new.kept) }
        ensures dropped { EachHistory S.Store self.old self.new (λ history.
            (is : IsAnswered S.Store (charter_of self.old) history day caller.now request.now
            result self.new)
            × DropsForGain request.now history is.after
            (day_of self.old.kept) (day_of self.new.kept)) }
    {
        crate::laws::answers_by_entries();
        match request {
            Request::Command(command) => self.carry_out(day, caller, command),
            Request::Query(query) => self.answer(day, caller, query),
        }
    }

    /// Replies to each of the requests, in their order. Room is allocated for all replies first; if
    /// that fails, nothing is acted on.
    pub fn run(&mut self, asked: &[Asked]) -> Result<Vec<Reply>, AllocError>
        ensures answered { IfOk result (λ replies. EachHistory S.Store self.old self.new (λ history.
            AreAnswered S.Store (charter_of self.old) history asked.now replies.items self.new)) }
        ensures left { IfOk result (λ replies. EachHistory S.Store self.old self.new (λ history.
            AreDurablyAnswered S.Store (charter_of self.old) history asked.now replies.items
            self.old self.new)) }
        ensures charter { charter_of self.new ≡ charter_of self.old }
        ensures limit { (store_of self.new).connection.step_limit
            ≡ (store_of self.old).connection.step_limit }
        ensures clean { IsOnCleanDisk S.Store self.new → IsOnCleanDisk S.Store self.old }
        ensures err { OnErr result (self.new ≡ self.old) }
        ensures kept { IfOk result (λ replies. list_any is_accepted replies.items ≡ false
            → RowsStay S.Store self.old self.new) }
        ensures isolated { IfOk result (λ replies. EachHistory S.Store self.old self.new (λ history.
            RunsByEntries (charter_of self.old) history asked.now replies.items)) }
        ensures others { EachHistory S.Store self.old self.new (λ _.
            OthersStay S.Store (may_change_any asked.now) (may_except_any asked.now)
            self.old self.new) }
        ensures kept_day { IfOk result (λ replies. DayAfterAll asked.now replies.items
            (day_of self.old.kept) (day_of self.new.kept)) }
        ensures dropped { IfOk result (λ replies. EachHistory S.Store self.old self.new (λ history.
            (are : AreAnswered S.Store (charter_of self.old) history asked.now replies.items
            self.new)
            × DropsForGainAll (charter_of self.old) history asked.now replies.items are.after
            (day_of self.old.kept) (day_of self.new.kept))) }
    {
        crate::laws::answers_by_entries();
        registry_laws::histories::growth_is_legal();
        let mut replies = Vec::with_capacity(self.alloc, asked.len())?;
        for one in asked {
            let reply = self.handle(one.day, &one.caller, &one.request);
            replies.push(reply).unwrap();
        }
        Ok(replies)
    }

    /// For the proof: the kept day is of the rows that the tables hold.
    fn keeps_its_rows(&self)
        ensures { HoldsRowsAndDay S.Store self.now.store self.now.kept }
    {
        let _kept = &self.kept;
    }

    /// Returns the connection.
    pub fn close(self) -> Connection<S>
        ensures same { result ≡ (store_of self).connection }
        ensures idle { result.in_transaction ≡ false }
        ensures desk { IsDeskWhileOpen (state S.Store result) }
    {
        let Desk { store, .. } = self;
        store.close()
    }
}

impl Desk<MemStore> {
    /// A desk in memory of this charter on which nothing was accepted yet.
    pub fn open_memory(alloc: Global, charter: &Charter) -> Result<Self, StoreFault>
        ensures charter { IfOk result (λ desk. charter_of desk ≡ charter.now) }
        ensures empty { IfOk result (λ desk. HoldsHistory over_memory desk []) }
        ensures no_day { IfOk result (λ desk. desk.kept ≡ None) }
        ensures unlimited { IfOk result (λ desk. (store_of desk).connection.step_limit ≡ None) }
        ensures no_schema { result ≢ Err StoreFault.Schema }
    {
        let store = Store::open_memory(alloc, charter)?;
        let kept = None;
        Ok(Desk { alloc, store, kept })
    }
}
