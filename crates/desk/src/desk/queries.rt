//! Queries: answered from the rows.
ghost use Rattle.std.specs.Prelude.{◌≡◌, false, IfOk};
ghost use Rattle.store.specs.StoreRows.{IsRead};
ghost use Rattle.desk.specs.Answer.{is_accepted, AnswersShow, AnswersContent, AnswersList, AnswersPayloads, AnswersValidity};
ghost use Rattle.desk.specs.DayAfter.{MovesDay};
ghost use Rattle.desk.specs.Prepared.{day_of};
ghost use Rattle.desk.specs.steps.Following.{reply_of};
ghost use Rattle.desk.specs.steps.LookedUp.{IsLookedUp};
ghost use Rattle.desk.specs.Desk.{HoldsHistory, EachHistory, EachHeld};

use super::Desk;
use super::what_if::what_if;
use crate::content_text::content_text;
use crate::{Reply, Vrps};
use addr::{Day, Name, Route};
use daily_vrps::{gather, judge};
use registry::{Auth, Query};
use sqlite::Alter;
use std::alloc::{AllocError, Global};
use store::{Store, StoreFault};

/// The reply that shows the authorization.
fn shown(auth: &Auth) -> Result<Reply, AllocError>
    ensures { IfOk result (λ reply. reply ≡ Reply.Shown auth.now) }
{
    Ok(Reply::Shown(auth.clone()?))
}

/// The authorization of the number, or why the caller may not see it.
fn show<S: Alter>(
    store: &mut Store<S>,
    alloc: Global,
    holder: &Name,
    day: Day,
    caller: &Name,
    number: u32,
) -> Result<Reply, StoreFault>
    ensures read { IsRead S.Store store.old store.new }
    ensures answered { IfOk result (λ reply. EachHeld S.Store store.old store.new (λ history.
        AnswersShow history holder.now day caller.now number reply)) }
    ensures never_done { IfOk result (λ reply. is_accepted reply ≡ false) }
{
    store::laws::number_of_a_history();
    let rows = store.load_numbered(alloc, holder, number)?;
    match policy::see(Some(&rows), day, caller, number) {
        Ok(auth) => Ok(shown(auth)?),
        Err(rule) => Ok(Reply::Denied(rule, None)),
    }
}

/// The ROA content of the authorization that `show` shows.
fn content<S: Alter>(
    store: &mut Store<S>,
    alloc: Global,
    holder: &Name,
    day: Day,
    caller: &Name,
    number: u32,
) -> Result<Reply, StoreFault>
    ensures read { IsRead S.Store store.old store.new }
    ensures answered { IfOk result (λ reply. EachHeld S.Store store.old store.new (λ history.
        AnswersContent history holder.now day caller.now number reply)) }
    ensures never_done { IfOk result (λ reply. is_accepted reply ≡ false) }
{
    let auth = match show(store, alloc, holder, day, caller, number)? {
        Reply::Shown(auth) => auth,
        refused => return Ok(refused),
    };
    match content_text(alloc, &auth)? {
        Some(text) => Ok(Reply::Content(text)),
        // No history has terms without a content.
        None => Ok(Reply::Unavailable),
    }
}

/// The authorizations of the holder, or why the caller may not see them.
fn list<S: Alter>(
    store: &mut Store<S>,
    alloc: Global,
    holder: &Name,
    day: Day,
    caller: &Name,
) -> Result<Reply, StoreFault>
    ensures read { IsRead S.Store store.old store.new }
    ensures answered { IfOk result (λ reply. EachHeld S.Store store.old store.new (λ history.
        AnswersList history holder.now day caller.now reply)) }
    ensures never_done { IfOk result (λ reply. is_accepted reply ≡ false) }
{
    store::laws::list_of_a_history();
    let rows = store.load_listed(alloc, holder)?;
    match policy::see_all(alloc, Some(&rows), day, caller) {
        Ok(auths) => Ok(Reply::Listed(auths)),
        Err(refusal) => Ok(Reply::from(refusal)),
    }
}

impl<S: Alter> Desk<S> {
    /// Answers the query from the rows as they are now.
    pub(super) fn answer(&mut self, day: Day, caller: &Name, query: &Query) -> Reply
        ensures { IsLookedUp S.Store day caller.now query.now result self.old self.new }
    {
        match self.look_up(day, caller, query) {
            Ok(reply) => reply,
            Err(_) => Reply::Unavailable,
        }
    }

    /// Like `answer`, but fails if an allocation fails or the database does not answer.
    fn look_up(&mut self, day: Day, caller: &Name, query: &Query) -> Result<Reply, StoreFault>
        ensures { IsLookedUp S.Store day caller.now query.now (reply_of result)
            self.old self.new }
    {
        let alloc = self.alloc;
        match query {
            Query::Show { holder, number } => {
                show(&mut self.store, alloc, holder, day, caller, *number)
            }
            Query::Content { holder, number } => {
                content(&mut self.store, alloc, holder, day, caller, *number)
            }
            Query::List { holder } => list(&mut self.store, alloc, holder, day, caller),
            Query::Payloads => self.export(day),
            Query::Validity { routes } => self.validity(day, routes),
            Query::WhatIf {
                holder,
                changes,
                routes,
            } => what_if(
                &mut self.store,
                alloc,
                &self.kept,
                holder,
                day,
                caller,
                changes,
                routes,
            ),
        }
    }

    /// The VRPs of the day, rising.
    fn export(&mut self, day: Day) -> Result<Reply, StoreFault>
        ensures read { IsRead S.Store self.old.store self.new.store }
        ensures held { EachHistory S.Store self.old self.new (HoldsHistory S.Store self.new) }
        ensures answered { IfOk result (λ reply. EachHistory S.Store self.old self.new (λ history.
            AnswersPayloads history day reply)) }
        ensures moved { MovesDay day (reply_of result)
            (day_of self.old.kept) (day_of self.new.kept) }
        ensures never_done { IfOk result (λ reply. is_accepted reply ≡ false) }
    {
        let alloc = self.alloc;
        self.prepare(day);
        match self.kept_vrps() {
            Some(index) => Ok(Reply::Payloads(Vrps::from(gather(alloc, index)?))),
            None => Ok(Reply::Unavailable),
        }
    }

    /// The state of each route on the day.
    fn validity(&mut self, day: Day, routes: &[Route]) -> Result<Reply, StoreFault>
        ensures read { IsRead S.Store self.old.store self.new.store }
        ensures held { EachHistory S.Store self.old self.new (HoldsHistory S.Store self.new) }
        ensures answered { IfOk result (λ reply. EachHistory S.Store self.old self.new (λ history.
            AnswersValidity history day routes.now reply)) }
        ensures moved { MovesDay day (reply_of result)
            (day_of self.old.kept) (day_of self.new.kept) }
        ensures never_done { IfOk result (λ reply. is_accepted reply ≡ false) }
    {
        let alloc = self.alloc;
        self.prepare(day);
        match self.kept_vrps() {
            Some(index) => Ok(Reply::Answers(judge(alloc, index, routes)?)),
            None => Ok(Reply::Unavailable),
        }
    }
}
