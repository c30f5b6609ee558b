//! A desk over a disk that may crash, and its lives: lists of requests, with a crash after each.
ghost use Rattle.std.specs.Prelude.{◌≡◌, IfErr, IfOk, map};
ghost use Rattle.sqlite_trees.specs.View.{IsClean};
ghost use Rattle.desk.specs.Desk.{IsOnCleanDisk};
ghost use Rattle.desk_files.specs.Lives.{HoldsLegal, LeavesLives, LivesOn, RefusesAfter, ResumesAfter};

use desk::{Asked, Desk, Reply};
use sqlite::{Alter, Connection};
use sqlite_trees::store::Reopen;
use std::alloc::Global;
use store::StoreFault;

/// A desk after its lives, with the replies of each life.
#[derive(Drop)]
pub struct Lived<S: Alter> {
    pub desk: Desk<S>,
    pub replies: Vec<Vec<Reply>>,
}

/// Crashes the disk of the desk, and opens the desk over what that left. If it is refused, the store
/// is returned, so that a contract can say what is left there.
pub fn restart<S: Alter + Reopen + Drop>(
    alloc: Global,
    desk: Desk<S>,
) -> Result<Desk<S>, (StoreFault, S)>
    ensures clean { IfOk result (λ again. IsOnCleanDisk S.Store again
        → IsOnCleanDisk S.Store desk) }
    ensures resumed { IfOk result (λ again. IsOnCleanDisk S.Store again
        → ResumesAfter S.Store desk again) }
    ensures err { IfErr result (λ refused. RefusesAfter S.Store desk refused.0 refused.1) }
{
    let mut store = desk.close().into_store();
    let Ok(()) = store.crash_and_reopen() else {
        return Err((StoreFault::Database, store));
    };
    let conn = match Connection::over(alloc, store) {
        Ok(conn) => conn,
        Err((_, store)) => return Err((StoreFault::Database, store)),
    };
    match Desk::open_or_return(alloc, conn) {
        Ok(again) => Ok(again),
        Err((fault, conn)) => Err((fault, conn.into_store())),
    }
}

/// Runs each list of requests on the desk, and crashes and opens it again after each. If it is
/// refused, the store is returned, as `restart` does.
pub fn live<S: Alter + Reopen + Drop>(
    alloc: Global,
    mut desk: Desk<S>,
    lives: &[&[Asked]],
) -> Result<Lived<S>, (StoreFault, S)>
    ensures clean { IfOk result (λ lived. IsOnCleanDisk S.Store lived.desk
        → IsOnCleanDisk S.Store desk) }
    ensures lived { IfOk result (λ lived. IsOnCleanDisk S.Store lived.desk
        → LivesOn S.Store desk (map (λ asked. asked.now) lives.now)
        (map (λ list. list.items) lived.replies.items) lived.desk) }
    ensures err { IfErr result (λ refused. IsClean (S.Store.view refused.1)
        → IsOnCleanDisk S.Store desk) }
    ensures not_schema { IfErr result (λ refused. IsClean (S.Store.view refused.1)
        → refused.0 ≡ StoreFault.Schema → ¬ HoldsLegal S.Store desk) }
    ensures left { IfErr result (λ refused. IsClean (S.Store.view refused.1)
        → LeavesLives S.Store desk (map (λ asked. asked.now) lives.now) refused.1) }
{
    // For the proof: the theorem by which the values of the requests reach the next life.
    desk::laws::pending_fits();
    let Ok(mut replies) = Vec::with_capacity(alloc, lives.len()) else {
        return Err((StoreFault::Database, desk.close().into_store()));
    };
    for asked in lives {
        registry::laws::all_asked_fit(asked);
        let Ok(list) = desk.run(asked) else {
            return Err((StoreFault::Database, desk.close().into_store()));
        };
        replies.push(list).unwrap();
        desk = match restart(alloc, desk) {
            Ok(again) => again,
            Err(refused) => return Err(refused),
        };
    }
    Ok(Lived { desk, replies })
}
