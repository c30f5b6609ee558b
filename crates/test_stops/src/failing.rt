//! A disk that fails: it serves so many calls, and then stops, or refuses one call.
ghost use Rattle.std.specs.Prelude.{◌≡◌, ◌+◌, ◌&&◌, not, false};
ghost use Rattle.sqlite_disk.specs.Disk.{CountsFault};
ghost use Rattle.sqlite_disk.specs.Refusal.{finds_no_room};

use sqlite_disk::{Crash, Disk, Memory, Tally};
use std::io;

/// How a disk fails.
#[derive(Clone, Copy, PartialEq, Eq)]
pub(crate) enum Failure {
    /// It fails at each call from one on, until the machine comes back.
    Stop,
    /// It fails at one call, and serves those after it.
    Refusal,
}

/// Passes so many calls on before it fails.
#[derive(Drop)]
pub(crate) struct Failing<D: Disk> {
    inner: D,
    failure: Failure,
    /// How many calls come before the next one that fails; none if no further call does.
    calls_before: Option<u64>,
    refused: u64,
    sync_refused: bool,
}

/// A file in memory that fails. What owns a desk over such files is generic over their type, since
/// it is then proved several times as fast.
pub(crate) trait FailingFile: Crash {
    /// The file passes so many calls on before it fails.
    fn failing(file: Memory, failure: Failure, calls: u64) -> Self;

    fn bytes(&self) -> &[u8];

    /// How many calls come before the next one that fails; none if no further call does.
    fn calls_left(&self) -> Option<u64>;

    /// Whether it has refused a call, or stops at the next one.
    fn has_failed(&self) -> bool;
}

impl FailingFile for Failing<Memory> {
    fn failing(file: Memory, failure: Failure, calls: u64) -> Failing<Memory> {
        Failing {
            inner: file,
            failure,
            calls_before: Some(calls),
            refused: 0,
            sync_refused: false,
        }
    }

    fn bytes(&self) -> &[u8] {
        self.inner.bytes()
    }

    fn calls_left(&self) -> Option<u64> {
        self.calls_before
    }

    fn has_failed(&self) -> bool {
        match self.failure {
            Failure::Stop => self.calls_before == Some(0),
            Failure::Refusal => self.calls_before.is_none(),
        }
    }
}

/// Counts a call, and refuses it if it fails.
fn admit(failure: Failure, calls_before: &mut Option<u64>, refused: &mut u64) -> io::Result<()>
    ensures faults { CountsFault result refused.old refused.new }
    ensures kind { finds_no_room result ≡ false }
{
    match *calls_before {
        None => Ok(()),
        Some(0) => {
            if failure == Failure::Refusal {
                *calls_before = None;
            }
            *refused = refused.saturating_add(1);
            Err(io::Error::other("the call fails"))
        }
        Some(calls) => {
            *calls_before = Some(calls - 1);
            Ok(())
        }
    }
}

impl<D: Disk> Disk for Failing<D> {
    ghost seen = { λ r. D.Disk.seen r.inner };

    ghost may_leave = { λ r. D.Disk.may_leave r.inner };

    ghost is_usable = { λ r. D.Disk.is_usable r.inner && not r.sync_refused };

    ghost faults = { λ r. D.Disk.faults r.inner + r.refused };

    ghost tally_of = { λ r. D.Disk.tally_of r.inner };

    ghost is_rotten = { λ r. D.Disk.is_rotten r.inner };

    ghost key_of = { λ r. D.Disk.key_of r.inner };

    ghost is_clean = { λ r. D.Disk.is_clean r.inner };

    ghost is_fair = { λ r. D.Disk.is_fair r.inner };

    ghost fair_if_clean = { λ r. D.Disk.fair_if_clean r.inner };

    ghost seen_may_stay = { λ r. D.Disk.seen_may_stay r.inner };

    ghost is_mixing = { λ r. D.Disk.is_mixing r.inner };

    fn mixes(&self) -> bool {
        self.inner.mixes()
    }

    fn key(&self) -> u64 {
        self.inner.key()
    }

    fn tally(&self) -> Tally {
        self.inner.tally()
    }

    fn may_be_used(&self) -> bool {
        self.inner.may_be_used() && !self.sync_refused
    }

    fn len(&mut self) -> io::Result<usize> {
        admit(self.failure, &mut self.calls_before, &mut self.refused)?;
        self.inner.len()
    }

    fn read_at(&mut self, at: usize, buf: &mut [u8]) -> io::Result<()> {
        admit(self.failure, &mut self.calls_before, &mut self.refused)?;
        self.inner.read_at(at, buf)
    }

    fn read_checked(&mut self, key: u64, want: u64, at: usize, buf: &mut [u8]) -> io::Result<()> {
        admit(self.failure, &mut self.calls_before, &mut self.refused)?;
        self.inner.read_checked(key, want, at, buf)
    }

    fn write_at(&mut self, at: usize, bytes: &[u8]) -> io::Result<()> {
        admit(self.failure, &mut self.calls_before, &mut self.refused)?;
        self.inner.write_at(at, bytes)
    }

    fn set_len(&mut self, len: usize) -> io::Result<()> {
        admit(self.failure, &mut self.calls_before, &mut self.refused)?;
        self.inner.set_len(len)
    }

    fn sync(&mut self) -> io::Result<()> {
        if let Err(error) = admit(self.failure, &mut self.calls_before, &mut self.refused) {
            self.sync_refused = true;
            return Err(error);
        }
        self.inner.sync()
    }
}

/// The machine comes back with a disk that does not fail.
impl<D: Crash> Crash for Failing<D> {
    fn crash(&mut self) {
        self.inner.crash();
        self.calls_before = None;
        self.sync_refused = false;
    }
}
