//! Sources and drains of bytes, each modelled by the bytes that have passed so far, since what a
//! file or a socket will give is not known.
ghost use Rattle.std.specs.Prelude.{◌≡◌, ℕ, Bool, List, true, ◌++◌, ◌<◌, ◌≤◌, ◌^◌, ◌&&◌, ◌==◌, nat_lt, length, take, is_err, IsErr, IfOk, OnOk, OnErr};
ghost use Rattle.streams.specs.Streams.{AppendsBeginning};

/// A stream failed. From then on it always fails.
#[derive(Clone, Copy, Debug, PartialEq, Eq)]
pub struct Failed;

/// A source of bytes. It has ended if a read had room and got nothing.
pub trait Source {
    // The bytes given so far.
    ghost handed_out: { Self → List ℕ };

    // Whether the last read met the end.
    ghost has_ended: { Self → Bool };

    ghost has_failed: { Self → Bool };

    // How many more reads may succeed at most. So read number 2^64 fails at the latest.
    ghost reads_left: { Self → ℕ };

    /// Puts the next bytes at the buffer's start; returns how many. The rest of the buffer may
    /// change.
    fn read(&mut self, buffer: &mut [u8]) -> Result<usize, Failed>
        ensures bound { IfOk result (λ n. n ≤ length buffer.new) }
        ensures bytes { IfOk result (λ n.
            handed_out self.new ≡ handed_out self.old ++ take n buffer.new) }
        ensures end { IfOk result (λ n.
            has_ended self.new ≡ (n == 0 && nat_lt 0 (length buffer.new))) }
        ensures err { OnErr result (handed_out self.new ≡ handed_out self.old) }

        ensures failed { has_failed self.new ≡ is_err result }
        ensures stays_failed { has_failed self.old ≡ true → IsErr result }

        ensures counted { OnOk result (reads_left self.new < reads_left self.old) }
        ensures few { reads_left self.old < 2 ^ 64 };
}

/// A drain for bytes. Taking none of some bytes is a failure.
pub trait Drain {
    // The bytes written so far.
    ghost written: { Self → List ℕ };

    ghost has_failed: { Self → Bool };

    /// Writes a beginning of the bytes, and returns its length.
    fn write(&mut self, bytes: &[u8]) -> Result<usize, Failed>
        ensures bound { IfOk result (λ n. n ≤ length bytes.now) }
        ensures some { IfOk result (λ n. 0 < length bytes.now → 0 < n) }
        ensures bytes { IfOk result (λ n.
            written self.new ≡ written self.old ++ take n bytes.now) }
        ensures err { OnErr result
            (AppendsBeginning (written self.old) (written self.new) bytes.now) }

        ensures failed { has_failed self.new ≡ is_err result }
        ensures stays_failed { has_failed self.old ≡ true → IsErr result };
}

/// Writes the whole text.
pub fn write_all<D: Drain>(drain: &mut D, text: &[u8]) -> Result<(), Failed>
    ensures ok { OnOk result (D.written drain.new ≡ D.written drain.old ++ text.now) }
    ensures err { OnErr result
        (AppendsBeginning (D.written drain.old) (D.written drain.new) text.now) }
    ensures failed { OnErr result (D.has_failed drain.new ≡ true) }
{
    let mut rest = text;
    while !rest.is_empty() {
        let count = drain.write(rest)?;
        rest = &rest[count..];
    }
    Ok(())
}
