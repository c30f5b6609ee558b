//! The other end of a connection, with the clock that its calls are held to.
ghost use Rattle.std.specs.Prelude.{◌≡◌, ℕ, Bool, List, Option, Some, None, IfOk, OnErr, OnOk, option_map, false, true};
ghost use Rattle.std.specs.Duration.{as_nanos};
ghost use Rattle.std.specs.Io.{ReadsAtMost, WritesAtMost};
ghost use Rattle.std.specs.Io.KnownBytes.{Keeps, ReadConsumes, WriteAppends};
ghost use Rattle.std.specs.Time.{instant_nanos};
ghost use Rattle.cli_tasks.specs.ConnectionTime.{EndsInTime};

use std::io::{self, Read, Write};
use std::net::{Shutdown, TcpStream};
use std::time::{Clock, Duration, Instant};

/// What a connection is read from and written to. A call that may wait is made only under a timeout
/// of all that is left of the connection's time, by a reading of the clock since the last call.
pub trait Peer {
    // The bytes that reads will give from here on, where they are known.
    ghost remaining: { Self → Option (List ℕ) } = { λ _. None };

    // The bytes that were written, where they are known.
    ghost contents: { Self → Option (List ℕ) } = { λ _. None };

    // When the connection began, in nanoseconds of the clock.
    ghost began: { Self → Option ℕ };

    // What the clock said last, unless a call may have waited since.
    ghost last_seen: { Self → Option ℕ };

    // The timeouts that were set last, in nanoseconds.
    ghost read_timeout: { Self → Option ℕ };

    ghost write_timeout: { Self → Option ℕ };

    // Whether the other end was to be told that no more is written.
    ghost has_ended_writing: { Self → Bool };

    /// When the connection began; `None` if the clock failed then.
    fn began(&self) -> Option<Instant>
        ensures { option_map instant_nanos result ≡ began self.now };

    fn now(&mut self) -> io::Result<Instant>
        ensures ok { IfOk result (λ now. last_seen self.new ≡ Some (instant_nanos now)) }
        ensures err { OnErr result (last_seen self.new ≡ None) }
        ensures began { began self.new ≡ began self.old }
        ensures remaining { Keeps (remaining self.old) (remaining self.new) }
        ensures contents { Keeps (contents self.old) (contents self.new) };

    fn set_read_timeout(&mut self, timeout: Duration) -> io::Result<()>
        ensures ok { OnOk result (read_timeout self.new ≡ Some (as_nanos timeout)) }
        ensures began { began self.new ≡ began self.old }
        ensures last_seen { last_seen self.new ≡ last_seen self.old }
        ensures remaining { Keeps (remaining self.old) (remaining self.new) }
        ensures contents { Keeps (contents self.old) (contents self.new) };

    fn set_write_timeout(&mut self, timeout: Duration) -> io::Result<()>
        ensures ok { OnOk result (write_timeout self.new ≡ Some (as_nanos timeout)) }
        ensures began { began self.new ≡ began self.old }
        ensures last_seen { last_seen self.new ≡ last_seen self.old }
        ensures remaining { Keeps (remaining self.old) (remaining self.new) }
        ensures contents { Keeps (contents self.old) (contents self.new) };

    fn read(&mut self, buffer: &mut [u8]) -> io::Result<usize>
        requires in_time { EndsInTime (began self.now) (last_seen self.now)
            (read_timeout self.now) }
        ensures bound { ReadsAtMost result buffer.new }
        ensures bytes { ReadConsumes (remaining self.old) (remaining self.new) result buffer.new }
        ensures contents { Keeps (contents self.old) (contents self.new) }
        ensures began { began self.new ≡ began self.old }
        ensures waited { last_seen self.new ≡ None };

    /// Tells the other end that no more is written. It does not wait.
    fn end_writing(&mut self) -> io::Result<()>
        ensures ended { has_ended_writing self.new ≡ true }
        ensures began { began self.new ≡ began self.old }
        ensures remaining { Keeps (remaining self.old) (remaining self.new) }
        ensures contents { Keeps (contents self.old) (contents self.new) };

    fn write(&mut self, bytes: &[u8]) -> io::Result<usize>
        requires in_time { EndsInTime (began self.now) (last_seen self.now)
            (write_timeout self.now) }
        ensures bound { WritesAtMost result bytes.now }
        ensures bytes { WriteAppends (contents self.old) (contents self.new) result bytes.now }
        ensures remaining { Keeps (remaining self.old) (remaining self.new) }
        ensures began { began self.new ≡ began self.old }
        ensures waited { last_seen self.new ≡ None };
}

/// A socket as a peer. Its times, and whether writing has ended, are kept for proofs.
#[derive(Drop)]
pub struct Socket<'a, R> {
    clock: &'a R,
    stream: &'a TcpStream,
    began: Option<Instant>,
    last_seen: Option<Instant>,
    read_timeout: Option<Duration>,
    write_timeout: Option<Duration>,
    has_ended_writing: bool,
}

impl<'a, R: Clock> Socket<'a, R> {
    /// The socket of a connection that began then.
    pub fn new(clock: &'a R, stream: &'a TcpStream, began: Option<Instant>) -> Socket<'a, R>
        ensures clock { result.clock ≡ clock.entry }
        ensures stream { result.stream ≡ stream.entry }
        ensures began { result.began ≡ began }
        ensures unread { result.last_seen ≡ None }
        ensures unset { (result.read_timeout ≡ None) × (result.write_timeout ≡ None) }
        ensures open { result.has_ended_writing ≡ false }
    {
        Socket {
            clock,
            stream,
            began,
            last_seen: None,
            read_timeout: None,
            write_timeout: None,
            has_ended_writing: false,
        }
    }
}

impl<R: Clock> Peer for Socket<'_, R> {
    ghost began = { λ socket. option_map instant_nanos socket.began };

    ghost last_seen = { λ socket. option_map instant_nanos socket.last_seen };

    ghost read_timeout = { λ socket. option_map as_nanos socket.read_timeout };

    ghost write_timeout = { λ socket. option_map as_nanos socket.write_timeout };

    ghost has_ended_writing = { λ socket. socket.has_ended_writing };

    fn began(&self) -> Option<Instant> {
        self.began
    }

    fn now(&mut self) -> io::Result<Instant> {
        self.last_seen = None;
        let now = Instant::now(self.clock)?;
        self.last_seen = Some(now);
        Ok(now)
    }

    fn set_read_timeout(&mut self, timeout: Duration) -> io::Result<()> {
        self.stream.set_read_timeout(Some(timeout))?;
        self.read_timeout = Some(timeout);
        Ok(())
    }

    fn set_write_timeout(&mut self, timeout: Duration) -> io::Result<()> {
        self.stream.set_write_timeout(Some(timeout))?;
        self.write_timeout = Some(timeout);
        Ok(())
    }

    fn read(&mut self, buffer: &mut [u8]) -> io::Result<usize> {
        self.last_seen = None;
        let mut stream = self.stream;
        stream.read(buffer)
    }

    fn end_writing(&mut self) -> io::Result<()> {
        self.has_ended_writing = true;
        self.stream.shutdown(Shutdown::Write)
    }

    fn write(&mut self, bytes: &[u8]) -> io::Result<usize> {
        self.last_seen = None;
        let mut stream = self.stream;
        stream.write(bytes)
    }
}
