//! The stream of a connection that has to end in time.
ghost use Rattle.std.specs.Prelude.{◌≡◌, ◌+◌, ◌-◌, ◌≤◌, Some, IfOk, OnErr};
ghost use Rattle.std.specs.Duration.{as_nanos};
ghost use Rattle.std.specs.Io.KnownBytes.{Keeps};
ghost use Rattle.cli_tasks.specs.ConnectionTime.{EndsInTime, IsUp};

use crate::serve::peer::Peer;
use std::io::{self, ErrorKind, Read, Write};
use std::time::Duration;

/// How long a whole connection may take, in seconds.
const TIME_LIMIT: u64 = 30;

/// A stream whose reads and writes fail once its time is up, so that a peer that sends or takes
/// nothing, or a byte now and then, does not hold the desk.
#[derive(Drop)]
pub struct Timed<'a, P> {
    peer: &'a mut P,
}

impl<'a, P: Peer> Timed<'a, P> {
    pub fn new(peer: &'a mut P) -> Timed<'a, P>
        ensures { result.peer ≡ peer.entry }
    {
        Timed { peer }
    }

    /// The time that is left, more than none. Fails if none is left, or if the clock fails.
    fn time_left(&mut self) -> io::Result<Duration>
        ensures ok { IfOk result (λ left. EndsInTime (P.began self.new.peer.now)
            (P.last_seen self.new.peer.now) (Some (as_nanos left))) }
        ensures err { OnErr result
            (IsUp (P.began self.new.peer.now) (P.last_seen self.new.peer.now)) }
        ensures remaining { Keeps (P.remaining self.old.peer.now) (P.remaining self.new.peer.now) }
        ensures contents { Keeps (P.contents self.old.peer.now) (P.contents self.new.peer.now) }
    {
        let Some(began) = self.peer.began() else {
            return Err(ErrorKind::TimedOut.into());
        };
        let elapsed = self.peer.now()?.duration_since(began);
        match Duration::from_secs(TIME_LIMIT).checked_sub(elapsed) {
            Some(left) if !left.is_zero() => Ok(left),
            _ => Err(ErrorKind::TimedOut.into()),
        }
    }
}

impl<P: Peer> Read for Timed<'_, P> {
    ghost remaining = { λ timed. P.remaining timed.peer.now };

    fn read(&mut self, buffer: &mut [u8]) -> io::Result<usize> {
        let left = self.time_left()?;
        self.peer.set_read_timeout(left)?;
        self.peer.read(buffer)
    }
}

impl<P: Peer> Write for Timed<'_, P> {
    ghost contents = { λ timed. P.contents timed.peer.now };

    fn write(&mut self, bytes: &[u8]) -> io::Result<usize> {
        let left = self.time_left()?;
        self.peer.set_write_timeout(left)?;
        self.peer.write(bytes)
    }

    /// Nothing is buffered here.
    fn flush(&mut self) -> io::Result<()> {
        Ok(())
    }
}
