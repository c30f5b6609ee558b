//! Clocks that need no time to pass.
use std::cell::Cell;
use std::io::{self, ErrorKind, Write};
use std::net::{Shutdown, TcpStream};
use std::time::{Clock, Duration};

/// A clock that advances after each reading, and where it is advanced by hand.
#[derive(Drop)]
pub(crate) struct Slow {
    elapsed: Cell<Duration>,
    step: Duration,
    readings: Cell<u32>,
}

impl Slow {
    pub(crate) fn by(step: Duration) -> Slow {
        Slow {
            elapsed: Cell::new(Duration::ZERO),
            step,
            readings: Cell::new(0),
        }
    }

    pub(crate) fn advance(&self, time: Duration) {
        self.elapsed.set(self.elapsed.get().saturating_add(time));
    }

    /// How often it was read.
    pub(crate) fn readings(&self) -> u32 {
        self.readings.get()
    }
}

impl Clock for Slow {
    fn monotonic(&self) -> io::Result<Duration> {
        let elapsed = self.elapsed.get();
        self.advance(self.step);
        self.readings.set(self.readings.get().saturating_add(1));
        Ok(elapsed)
    }

    fn since_1970(&self) -> io::Result<Duration> {
        Err(ErrorKind::Unsupported.into())
    }
}

/// A clock at whose readings a client sends as much of its text as there is room for, so that a
/// text of any length passes without a second thread. It shuts its writing side at the end.
#[derive(Drop)]
pub(crate) struct Sending<'a> {
    client: &'a TcpStream,
    text: &'a [u8],
    sent: Cell<usize>,
}

impl<'a> Sending<'a> {
    pub(crate) fn new(client: &'a TcpStream, text: &'a [u8]) -> io::Result<Sending<'a>> {
        client.set_nonblocking(true)?;
        Ok(Sending {
            client,
            text,
            sent: Cell::new(0),
        })
    }
}

impl Clock for Sending<'_> {
    fn monotonic(&self) -> io::Result<Duration> {
        let mut client = self.client;
        let rest = self.text.get(self.sent.get()..).unwrap_or_default();
        // A write for which there is no room fails, and the next reading goes on.
        let count = client.write(rest).unwrap_or(0);
        self.sent.set(self.sent.get().saturating_add(count));
        if count == rest.len() {
            // Fails where the server has closed the connection.
            let _ = client.shutdown(Shutdown::Write);
        }
        Ok(Duration::ZERO)
    }

    fn since_1970(&self) -> io::Result<Duration> {
        Err(ErrorKind::Unsupported.into())
    }
}
