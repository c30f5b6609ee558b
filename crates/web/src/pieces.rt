//! Texts for a drain, gathered in pieces: each write may be a call of the system.
ghost use Rattle.std.specs.Prelude.{◌≡◌, ◌+◌, ◌≤◌, [], false, true, length, OnOk, OnErr};
ghost use Rattle.arrayvec.specs.ArrayString.{array_string_len};
ghost use Rattle.web.specs.steps.PieceWriting.{HasAdded};

use arrayvec::ArrayString;
use streams::{Drain, Failed, write_all};

/// Texts that are written to a drain, or wait in a piece, until the drain fails.
#[derive(Drop)]
pub(crate) struct Pieces<'a, D> {
    pub(crate) drain: &'a mut D,
    pub(crate) piece: ArrayString<32768>,
    pub(crate) has_failed: bool,
}

impl<'a, D: Drain> Pieces<'a, D> {
    /// The text, which waits.
    pub(crate) fn begin(drain: &'a mut D, text: &str) -> Pieces<'a, D>
        requires { length text.now ≤ 4096 }
        ensures drain { result.drain ≡ drain.entry }
        ensures piece { result.piece.bytes ≡ text.now }
        ensures unfailed { result.has_failed ≡ false }
    {
        let mut pieces = Pieces {
            drain,
            piece: ArrayString::new(),
            has_failed: false,
        };
        pieces.piece.push_str(text);
        pieces
    }

    /// Adds the text, after writing what waits if there is no room beside it. Once the drain has
    /// failed, what is added is lost.
    pub(crate) fn add(&mut self, text: &str)
        requires { length text.now ≤ 4096 }
        ensures { HasAdded D.written D.has_failed self.old text.now self.new }
    {
        self.make_room(text.len());
        self.piece.push_str(text);
    }

    /// Writes what waits if a text of this length has no room beside it.
    pub(crate) fn make_room(&mut self, length: usize)
        requires { length ≤ 4096 }
        ensures sent { HasAdded D.written D.has_failed self.old [] self.new }
        ensures room { array_string_len self.new.piece + length ≤ 32768 }
    {
        if self.piece.remaining_capacity() < length {
            self.send();
        }
    }

    /// Writes what waits, after the last text.
    pub(crate) fn finish(&mut self) -> Result<(), Failed>
        ensures sent { HasAdded D.written D.has_failed self.old [] self.new }
        ensures ok { OnOk result ((self.new.has_failed ≡ false) × (self.new.piece.bytes ≡ [])) }
        ensures err { OnErr result (self.new.has_failed ≡ true) }
    {
        self.send();
        if self.has_failed {
            return Err(Failed);
        }
        Ok(())
    }

    /// Writes what waits. If the drain fails, the rest of it is lost.
    fn send(&mut self)
        ensures sent { HasAdded D.written D.has_failed self.old [] self.new }
        ensures piece { self.new.piece.bytes ≡ [] }
    {
        if !self.has_failed {
            self.has_failed = write_all(self.drain, self.piece.as_str().as_bytes()).is_err();
        }
        self.piece.clear();
    }
}
