//! Connections that are accepted and answered, one after the other.
ghost use Rattle.std.specs.Prelude.{◌≡◌, ◌<◌, ◌≤◌, ◌∷◌, ℕ, Bool, List, [], Option, None, Some, is_some, false, true, length, IfErr, IfOk, OnErr, OnOk};
ghost use Rattle.std.specs.IoError.{error_kind};
ghost use Rattle.std.specs.declared.io.ErrorKind.{ErrorKind as Kind};
ghost use Rattle.http_messages.specs.Input.{Gives, HasNoMore};
ghost use Rattle.cli_tasks.specs.ConnectionTime.{discard_limit};
ghost use Rattle.cli_tasks.specs.Connections.{Accepts, Passes};
ghost use Rattle.cli_tasks.specs.Serving.{IsReadied, Serves, TellsReady, Transcript};
ghost use Rattle.web.specs.declared.http.WebFault.{WebFault as Fault};

use crate::serve::followed::{Beginning, Place, Received, Sent};
use crate::serve::peer::{Peer, Socket};
use crate::serve::timed::Timed;
use addr::Day;
use desk::Desk;
use requests::Routes;
use sqlite::Alter;
use std::alloc::Global;
use std::io::{self, BufReader, ErrorKind, Read, Write};
use std::marker::Brand;
use std::net::{TcpListener, TcpStream};
use std::time::{Clock, Instant};
use web::{Device, Drain, Extent, Failed, Source, WebFault, serve_request};

/// Answers connections, one after the other.
pub trait AnswerConnections {
    // What may pass on a connection on a day, and which state that leaves.
    ghost answers: { ℕ → Self → Transcript → Self → Type 0 };

    // Whether this may be said of how ready it is for a day.
    ghost tells_ready: { ℕ → Self → Bool → Type 0 };

    // Which state it leaves to be made ready for a day.
    ghost readied: { ℕ → Self → Self → Type 0 };

    /// Whether nothing has to be prepared before a question about the day.
    fn is_ready(&self, day: Day) -> bool
        ensures { tells_ready day self.now result };

    /// Prepares what questions about the day need, if there is memory for it.
    fn make_ready(&mut self, day: Day)
        ensures { readied day self.old self.new };

    /// Answers the request of a new connection, and returns how much of it was read. The routes are
    /// those that all connections share, if there was memory for them.
    fn answer<S: Source, D: Drain>(
        &mut self,
        alloc: Global,
        routes: Option<&Routes>,
        source: &mut S,
        drain: &mut D,
        day: Day,
    ) -> Result<Extent, WebFault>
        ensures { S.handed_out source.old ≡ [] → D.written drain.old ≡ []
            → answers day self.old (record {
              received = S.handed_out source.new;
              has_ended = S.has_ended source.new;
              read_failed = S.has_failed source.new;
              sent = D.written drain.new;
              write_failed = D.has_failed drain.new;
              ended = result;
            }) self.new };
}

impl<A: Alter> AnswerConnections for Desk<A> {
    ghost answers = { Serves A.Store };

    ghost tells_ready = { TellsReady };

    ghost readied = { IsReadied A.Store };

    fn is_ready(&self, day: Day) -> bool {
        self.kept() == Some(day)
    }

    fn make_ready(&mut self, day: Day) {
        let _is_kept = self.prepare(day);
    }

    fn answer<S: Source, D: Drain>(
        &mut self,
        alloc: Global,
        routes: Option<&Routes>,
        source: &mut S,
        drain: &mut D,
        day: Day,
    ) -> Result<Extent, WebFault> {
        serve_request(alloc, routes, source, drain, self, day)
    }
}

/// A source of connections.
pub trait Connections {
    // The connections that were accepted, if they are known.
    ghost accepted: { Self → Option (List Transcript) } = { λ _. None };

    // Whether it listens.
    ghost is_listening: { Self → Bool };

    // Of which kind the error was with which listening failed last, if it has failed.
    ghost listen_error: { Self → Option Kind };

    // Whether the last one could not be accepted.
    ghost has_failed: { Self → Bool };

    /// Binds the socket, so that clients can connect.
    fn listen(&mut self) -> io::Result<()>
        ensures none { Accepts (accepted self.old) (accepted self.new) [] }
        ensures listens { OnOk result ((is_listening self.new ≡ true)
            × (listen_error self.new ≡ listen_error self.old)) }
        ensures failed { IfErr result (λ error. listen_error self.new ≡ Some (error_kind error)) };

    /// Accepts a connection and has it answered. The connection has ended when the call returns.
    fn answer_next<E: AnswerConnections>(
        &mut self,
        alloc: Global,
        routes: Option<&Routes>,
        engine: &mut E,
        day: Day,
    ) -> Result<Result<Extent, WebFault>, Failed>
        ensures ok { IfOk result (λ ended. (passed : Transcript) × (passed.ended ≡ ended)
            × Accepts (accepted self.old) (accepted self.new) (passed ∷ [])
            × E.answers day engine.old passed engine.new) }
        ensures err { OnErr result (engine.new ≡ engine.old) }
        ensures not_accepted { OnErr result (Accepts (accepted self.old) (accepted self.new) []) }
        ensures failed { OnErr result (has_failed self.new ≡ true) }
        ensures listens { (is_listening self.new ≡ is_listening self.old)
            × (listen_error self.new ≡ listen_error self.old) };
}

/// Binds a socket to an address.
pub trait Network {
    fn bind(&mut self, address: &str) -> io::Result<TcpListener>;
}

/// The connections to an address, once it is bound.
#[derive(Drop)]
pub struct Incoming<'a, R, N> {
    clock: &'a R,
    network: &'a mut N,
    address: &'a str,
    listener: Option<TcpListener>,
    // Both are kept for proofs.
    listen_error: Option<ErrorKind>,
    has_failed: bool,
}

impl<'a, R: Clock, N: Network> Incoming<'a, R, N> {
    /// The connections to this address, which is not bound yet.
    pub fn new(clock: &'a R, network: &'a mut N, address: &'a str) -> Incoming<'a, R, N>
        ensures clock { result.clock ≡ clock.entry }
        ensures network { (result.network.ghost_name ≡ network.entry.ghost_name)
            × (result.network.now ≡ network.old) }
        ensures address { result.address ≡ address.entry }
        ensures unbound { result.listener ≡ None }
        ensures flawless { (result.listen_error ≡ None) × (result.has_failed ≡ false) }
    {
        Incoming {
            clock,
            network,
            address,
            listener: None,
            listen_error: None,
            has_failed: false,
        }
    }
}

impl<R: Clock, N: Network> Connections for Incoming<'_, R, N> {
    ghost is_listening = { λ incoming. is_some incoming.listener };

    ghost listen_error = { λ incoming. incoming.listen_error };

    ghost has_failed = { λ incoming. incoming.has_failed };

    fn listen(&mut self) -> io::Result<()> {
        match self.network.bind(self.address) {
            Ok(listener) => {
                self.listener = Some(listener);
                Ok(())
            }
            Err(error) => {
                self.listen_error = Some(error.kind());
                Err(error)
            }
        }
    }

    fn answer_next<E: AnswerConnections>(
        &mut self,
        alloc: Global,
        routes: Option<&Routes>,
        engine: &mut E,
        day: Day,
    ) -> Result<Result<Extent, WebFault>, Failed> {
        let accepted = match &self.listener {
            Some(listener) => listener.accept(),
            None => Err(ErrorKind::NotConnected.into()),
        };
        let Ok((stream, _)) = accepted else {
            self.has_failed = true;
            return Err(Failed);
        };
        let began = Instant::now(self.clock).ok();
        let mut from = Socket::new(self.clock, &stream, began);
        let mut to = Socket::new(self.clock, &stream, began);
        Ok(answer_and_end(alloc, routes, &mut from, &mut to, engine, day))
    }
}

/// Answers a connection that is read from one peer and written to the other, and lets the response
/// arrive. Both peers have the one time of the connection, for what is discarded too.
fn answer_and_end<P: Peer, Q: Peer, E: AnswerConnections>(
    alloc: Global,
    routes: Option<&Routes>,
    from: &mut P,
    to: &mut Q,
    engine: &mut E,
    day: Day,
) -> Result<Extent, WebFault>
    requires { Q.began to.old ≡ P.began from.old }
    ensures passed { (passed : Transcript) × (after : Q) × (passed.ended ≡ result)
        × Passes (P.remaining from.old) (Q.contents to.old) passed (Q.contents after)
        × E.answers day engine.old passed engine.new }
    ensures arrives { IfOk result (λ read. read ≡ Extent.Part → Q.has_ended_writing to.new ≡ true) }
{
    let ended = answer_in_time(alloc, routes, from, to, engine, day);
    if let Ok(Extent::Part) = ended {
        let_response_arrive(from, to);
    }
    ended
}

/// Ends the response, and discards what the client still sends of its request: a stream that is
/// closed with bytes unread is reset, and the client may lose the response.
fn let_response_arrive<P: Peer, Q: Peer>(from: &mut P, to: &mut Q)
    ensures { Q.has_ended_writing to.new ≡ true }
{
    if to.end_writing().is_ok() {
        discard(&mut Device::new(Timed::new(from)));
    }
}

/// How many bytes are discarded at most.
const DISCARD_LIMIT: usize = 2 * 1_048_576;

/// Discards what the source still gives, until it ends or fails or `DISCARD_LIMIT` bytes have come.
fn discard<S: Source>(source: &mut S)
    ensures { (bytes : List ℕ) × Gives bytes (S.handed_out source.old) (S.handed_out source.new)
        × (length bytes ≤ discard_limit)
        × (length bytes < discard_limit
        → HasNoMore (S.has_ended source.new) (S.has_failed source.new)) }
{
    let mut piece = [0; 4096];
    let mut left = DISCARD_LIMIT;
    while left > 0 {
        let room = left.min(piece.len());
        match source.read(&mut piece[..room]) {
            Ok(count) if count > 0 => left -= count,
            _ => return,
        }
    }
}

/// Answers a connection that is read from one peer and written to the other, each within its time.
/// More of the stream than the request may be taken into a buffer, which is never looked at.
pub fn answer_in_time<P: Peer, Q: Peer, E: AnswerConnections>(
    alloc: Global,
    routes: Option<&Routes>,
    from: &mut P,
    to: &mut Q,
    engine: &mut E,
    day: Day,
) -> Result<Extent, WebFault>
    // What was received is what the one peer gave, and what was sent is what the other took, which
    // left it as it is in `after`.
    ensures { (passed : Transcript) × (after : Q) × (passed.ended ≡ result)
        × Passes (P.remaining from.old) (Q.contents to.old) passed (Q.contents after)
        × E.answers day engine.old passed engine.new }
{
    let from = Place {
        reader: Some(Timed::new(from)),
    };
    let to = Timed::new(to);
    // A head is read a few bytes at a time, which without a buffer are as many calls of the system.
    // If there is no memory for one, an empty place is lost, and not the reader.
    if let Ok(mut buffered) = BufReader::new(alloc, Place { reader: None }) {
        *buffered.get_mut() = from;
        return answer_between::<_, _, E, Brand>(alloc, routes, buffered, to, engine, day);
    }
    answer_between::<_, _, E, Brand>(alloc, routes, from, to, engine, day)
}

/// Answers a connection that is read from one stream and written to the other.
fn answer_between<R: Read + Drop, W: Write + Drop, E: AnswerConnections, B: Beginning>(
    alloc: Global,
    routes: Option<&Routes>,
    from: R,
    to: W,
    engine: &mut E,
    day: Day,
) -> Result<Extent, WebFault>
    requires remaining { R.remaining from ≡ B.remaining }
    requires contents { W.contents to ≡ B.contents }
    ensures { (passed : Transcript) × (after : W) × (passed.ended ≡ result)
        × Passes B.remaining B.contents passed (W.contents after)
        × E.answers day engine.old passed engine.new }
{
    let mut source = Received::<R, B>::new(from);
    let mut drain = Sent::<W, B>::new(to);
    engine.answer(alloc, routes, &mut source, &mut drain, day)
}
