//! The task `serve`: a desk that answers connections, one after the other.
ghost use Rattle.std.specs.Prelude.{◌≡◌, ◌<◌, ℕ, List, length, OnOk, OnErr, true};
ghost use Rattle.web.specs.ScriptAnswer.{IsLaterDesk};
ghost use Rattle.cli_tasks.specs.Connections.{Accepts, Logs};
ghost use Rattle.cli_tasks.specs.ServedHistories.{LeavesInTurn};
ghost use Rattle.cli_tasks.specs.Serving.{AnswersInTurn, AnswersReady, ReadiesAgain, ServesInTurn};
ghost use Rattle.cli_tasks.specs.Serving.{Transcript, fault_lines};

mod connections;
mod fault_log;
mod followed;
mod peer;
mod timed;

use addr::Day;
pub use connections::{AnswerConnections, Connections, Incoming, Network, answer_in_time};
use desk::Desk;
pub use fault_log::Log;
use fault_log::log_fault;
pub use peer::{Peer, Socket};
use requests::Routes;
use sqlite::Alter;
use std::alloc::Global;
pub use streams::Printed;
pub use timed::Timed;
use web::Failed;

/// Accepts this many connections in turn and answers one request on each, on this day. If a
/// connection fails, the log gets a line, and the next one is accepted. It ends early only if
/// accepting fails. The desk reads the VRPs of the day before the first connection, and again after
/// one that lost them.
pub fn serve_on<C: Connections, S: Alter, L: Log>(
    alloc: Global,
    connections: &mut C,
    count: u32,
    desk: &mut Desk<S>,
    day: Day,
    log: &mut L,
) -> Result<(), Failed>
    // `passed` are the connections: there are as many, they were accepted, the desk was made ready
    // and answered them, a crash leaves no more than they allow, and the log has the lines of those
    // that failed.
    ensures served { (passed : List Transcript)
        × OnOk result (length passed ≡ count) × OnErr result (length passed < count)
        × Accepts (C.accepted connections.old) (C.accepted connections.new) passed
        × ServesInTurn S.Store day desk.old passed desk.new
        × LeavesInTurn S.Store day desk.old passed desk.new
        × Logs (L.has_lost log.old) (L.has_lost log.new) (L.contents log.old)
        (L.contents log.new) (fault_lines 1 passed) }
    ensures failed { OnErr result (C.has_failed connections.new ≡ true) }
    ensures listens { (C.is_listening connections.new ≡ C.is_listening connections.old)
        × (C.listen_error connections.new ≡ C.listen_error connections.old) }
    ensures later { IsLaterDesk S.Store desk.old desk.new }
{
    // If there is no memory for them now, each connection tries to make its own.
    let routes = Routes::new(alloc).ok();
    // A client that connects meanwhile waits, and its time begins when it is accepted.
    desk.make_ready(day);
    answer_each(alloc, routes.as_ref(), connections, count, desk, day, log)
}

/// Has this many connections answered in turn. The log gets a line for each that failed. What was
/// ready for the day before a connection is made ready again after it.
pub fn answer_each<C: Connections, E: AnswerConnections, L: Log>(
    alloc: Global,
    routes: Option<&Routes>,
    connections: &mut C,
    count: u32,
    engine: &mut E,
    day: Day,
    log: &mut L,
) -> Result<(), Failed>
    ensures served { (passed : List Transcript)
        × OnOk result (length passed ≡ count) × OnErr result (length passed < count)
        × Accepts (C.accepted connections.old) (C.accepted connections.new) passed
        × AnswersInTurn (AnswersReady (E.answers day) (E.tells_ready day) (E.readied day))
        engine.old passed engine.new
        × Logs (L.has_lost log.old) (L.has_lost log.new) (L.contents log.old)
        (L.contents log.new) (fault_lines 1 passed) }
    ensures failed { OnErr result (C.has_failed connections.new ≡ true) }
    ensures listens { (C.is_listening connections.new ≡ C.is_listening connections.old)
        × (C.listen_error connections.new ≡ C.listen_error connections.old) }
{
    let mut served = 0;
    while served < count {
        let was_ready = engine.is_ready(day);
        let Ok(ended) = connections.answer_next(alloc, routes, engine, day) else {
            return Err(Failed);
        };
        served += 1;
        log_fault(log, served, ended);
        make_ready_again(engine, day, was_ready);
    }
    Ok(())
}

/// Makes ready for the day what was ready for it before the last connection. What was not had no
/// memory, or no database, and is not tried after each connection again.
fn make_ready_again<E: AnswerConnections>(engine: &mut E, day: Day, was_ready: bool)
    ensures { ReadiesAgain (E.readied day) was_ready engine.old engine.new }
{
    if was_ready {
        engine.make_ready(day);
    }
}
