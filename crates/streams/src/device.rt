//! Readers and writers of std as sources and drains.
ghost use Rattle.std.specs.Prelude.{◌≡◌, ◌≢◌, ◌++◌, ◌-◌, ◌^◌, ◌<◌, ◌≤◌, ◌&&◌, ◌==◌, nat_lt, [], true, false, length, take, is_err, IsErr, IfErr, IfOk, OnOk, OnErr};
ghost use Rattle.std.specs.Io.{ReadsAtMost, WritesAtMost, appended_bytes};
ghost use Rattle.std.specs.Io.KnownBytes.{Appends, Keeps, ReadConsumes, WriteAppends};
ghost use Rattle.std.specs.IoError.{error_kind};
ghost use Rattle.streams.specs.Device.{device_inner, device_bytes, device_has_ended, device_has_failed, device_calls_left};
ghost use Rattle.streams.specs.steps.Devices.{IsCalled};
ghost use Rattle.streams.specs.Streams.{AppendsBeginning};

use crate::stream::{Drain, Failed, Source};
use crate::trail::{Piece, Trail};
use std::io::{self, ErrorKind, Read, Write};

/// A reader or a writer of std as a [`Source`] or a [`Drain`]. A call that was interrupted is made
/// again, and any other error is a failure. What was written is flushed before the call returns, so
/// that a reply reaches a waiting peer through a buffered writer too.
#[derive(Drop)]
pub struct Device<T> {
    inner: T,
    /// Calls made so far. At `u64::MAX` every further call fails with `TimedOut`, so that each
    /// retry loop ends.
    calls: u64,
    has_ended: bool,
    has_failed: bool,
    trail: Trail,
}

impl<T> Device<T> {
    /// A device through which nothing has passed.
    pub fn new(inner: T) -> Device<T>
        ensures inner { device_inner result ≡ inner }
        ensures bytes { device_bytes result ≡ [] }
        ensures calls { device_calls_left result ≡ 2 ^ 64 - 1 }
        ensures ended { device_has_ended result ≡ false }
        ensures failed { device_has_failed result ≡ false }
    {
        Device {
            inner,
            calls: 0,
            has_ended: false,
            has_failed: false,
            trail: Trail::new(),
        }
    }

    /// Forgets that a call failed, so that the next one is made.
    pub(crate) fn forget_failure(&mut self)
        ensures failed { device_has_failed self.new ≡ false }
        ensures inner { device_inner self.new ≡ device_inner self.old }
        ensures bytes { device_bytes self.new ≡ device_bytes self.old }
    {
        self.has_failed = false;
    }
}

impl<T: Read> Source for Device<T> {
    ghost handed_out = { λ device. device_bytes device };

    ghost has_ended = { λ device. device_has_ended device };

    ghost has_failed = { λ device. device_has_failed device };

    ghost reads_left = { λ device. device_calls_left device };

    fn read(&mut self, buffer: &mut [u8]) -> Result<usize, Failed>
        ensures bound { IfOk result (λ n. n ≤ length buffer.new) }
        ensures bytes { IfOk result (λ n.
            device_bytes self.new ≡ device_bytes self.old ++ take n buffer.new) }
        ensures end { IfOk result (λ n.
            device_has_ended self.new ≡ (n == 0 && nat_lt 0 (length buffer.new))) }
        ensures err { OnErr result (device_bytes self.new ≡ device_bytes self.old) }

        ensures failed { device_has_failed self.new ≡ is_err result }
        ensures stays_failed { device_has_failed self.old ≡ true → IsErr result }

        ensures counted { OnOk result (device_calls_left self.new < device_calls_left self.old) }
        ensures few { device_calls_left self.old < 2 ^ 64 }

        // The bytes are the reader's, if those are known.
        ensures reads { ReadConsumes (T.remaining (device_inner self.old))
            (T.remaining (device_inner self.new)) result buffer.new }
    {
        if self.has_failed {
            return Err(Failed);
        }
        let Ok(count) = self.read_uninterrupted(buffer) else {
            self.has_failed = true;
            return Err(Failed);
        };
        self.trail = self.trail.then(&Piece {
            bytes: &buffer[..count],
        });
        self.has_ended = count == 0 && !buffer.is_empty();
        Ok(count)
    }
}

impl<T: Read> Device<T> {
    /// A read, repeated if it is interrupted.
    fn read_uninterrupted(&mut self, buffer: &mut [u8]) -> io::Result<usize>
        ensures bound { ReadsAtMost result buffer.new }
        ensures reads { ReadConsumes (T.remaining (device_inner self.old))
            (T.remaining (device_inner self.new)) result buffer.new }
        ensures retried { IfErr result (λ error. error_kind error ≢ ErrorKind.Interrupted) }
        ensures counted { OnOk result (device_calls_left self.new < device_calls_left self.old) }
        ensures kept { IsCalled self.old self.new }
    {
        while self.calls < u64::MAX {
            self.calls += 1;
            match self.inner.read(buffer) {
                Ok(count) => return Ok(count),
                Err(error) if error.kind() == ErrorKind::Interrupted => {}
                Err(error) => return Err(error),
            }
        }
        Err(ErrorKind::TimedOut.into())
    }
}

impl<T: Write> Drain for Device<T> {
    ghost written = { λ device. device_bytes device };

    ghost has_failed = { λ device. device_has_failed device };

    fn write(&mut self, bytes: &[u8]) -> Result<usize, Failed>
        ensures bound { IfOk result (λ n. n ≤ length bytes.now) }
        ensures some { IfOk result (λ n. 0 < length bytes.now → 0 < n) }
        ensures bytes { IfOk result (λ n.
            device_bytes self.new ≡ device_bytes self.old ++ take n bytes.now) }
        ensures err { OnErr result
            (AppendsBeginning (device_bytes self.old) (device_bytes self.new) bytes.now) }

        ensures failed { device_has_failed self.new ≡ is_err result }
        ensures stays_failed { device_has_failed self.old ≡ true → IsErr result }
        ensures ended { device_has_ended self.new ≡ device_has_ended self.old }
        ensures calls { device_calls_left self.new ≤ device_calls_left self.old }

        // The writer has what passed, whether the call failed or not, if its contents are known.
        ensures writes { Appends (T.contents (device_inner self.old))
            (T.contents (device_inner self.new))
            (appended_bytes (device_bytes self.old) (device_bytes self.new)) }
    {
        let count = self.write_some(bytes)?;
        self.flush()?;
        Ok(count)
    }
}

impl<T: Write> Device<T> {
    /// Writes a beginning of the bytes, which is not flushed yet.
    fn write_some(&mut self, bytes: &[u8]) -> Result<usize, Failed>
        ensures bound { IfOk result (λ n. n ≤ length bytes.now) }
        ensures some { IfOk result (λ n. 0 < length bytes.now → 0 < n) }
        ensures ok { IfOk result (λ n.
            device_bytes self.new ≡ device_bytes self.old ++ take n bytes.now) }
        ensures err { OnErr result (device_bytes self.new ≡ device_bytes self.old) }
        ensures failed { device_has_failed self.new ≡ is_err result }
        ensures stays_failed { device_has_failed self.old ≡ true → IsErr result }
        ensures ended { device_has_ended self.new ≡ device_has_ended self.old }
        ensures calls { device_calls_left self.new ≤ device_calls_left self.old }
        ensures writes { Appends (T.contents (device_inner self.old))
            (T.contents (device_inner self.new))
            (appended_bytes (device_bytes self.old) (device_bytes self.new)) }
    {
        if self.has_failed {
            return Err(Failed);
        }
        match self.write_uninterrupted(bytes) {
            Ok(count) if count > 0 || bytes.is_empty() => {
                self.trail = self.trail.then(&Piece {
                    bytes: &bytes[..count],
                });
                Ok(count)
            }
            _ => {
                self.has_failed = true;
                Err(Failed)
            }
        }
    }

    /// A write, repeated if it is interrupted.
    fn write_uninterrupted(&mut self, bytes: &[u8]) -> io::Result<usize>
        ensures bound { WritesAtMost result bytes.now }
        ensures writes { WriteAppends (T.contents (device_inner self.old))
            (T.contents (device_inner self.new)) result bytes.now }
        ensures retried { IfErr result (λ error. error_kind error ≢ ErrorKind.Interrupted) }
        ensures kept { IsCalled self.old self.new }
    {
        while self.calls < u64::MAX {
            self.calls += 1;
            match self.inner.write(bytes) {
                Ok(count) => return Ok(count),
                Err(error) if error.kind() == ErrorKind::Interrupted => {}
                Err(error) => return Err(error),
            }
        }
        Err(ErrorKind::TimedOut.into())
    }

    fn flush(&mut self) -> Result<(), Failed>
        ensures bytes { device_bytes self.new ≡ device_bytes self.old }
        ensures kept { Keeps (T.contents (device_inner self.old))
            (T.contents (device_inner self.new)) }
        ensures failed { device_has_failed self.new ≡ is_err result }
        ensures stays_failed { device_has_failed self.old ≡ true → IsErr result }
        ensures ended { device_has_ended self.new ≡ device_has_ended self.old }
        ensures calls { device_calls_left self.new ≤ device_calls_left self.old }
    {
        if self.has_failed {
            return Err(Failed);
        }
        let Ok(()) = self.flush_uninterrupted() else {
            self.has_failed = true;
            return Err(Failed);
        };
        Ok(())
    }

    /// A flush, repeated if it is interrupted.
    fn flush_uninterrupted(&mut self) -> io::Result<()>
        ensures writes { Keeps (T.contents (device_inner self.old))
            (T.contents (device_inner self.new)) }
        ensures retried { IfErr result (λ error. error_kind error ≢ ErrorKind.Interrupted) }
        ensures kept { IsCalled self.old self.new }
    {
        while self.calls < u64::MAX {
            self.calls += 1;
            match self.inner.flush() {
                Ok(()) => return Ok(()),
                Err(error) if error.kind() == ErrorKind::Interrupted => {}
                Err(error) => return Err(error),
            }
        }
        Err(ErrorKind::TimedOut.into())
    }
}
