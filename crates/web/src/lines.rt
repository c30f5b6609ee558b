//! Lines: where they end, and the one that is being read.
ghost use Rattle.std.specs.Prelude.{◌≡◌, ◌≤◌, ◌↔◌, ℕ, List, [], ◌∷◌, ◌++◌, ◌<◌, length, Option, Some, None, IfOk, IfNone, IfSome, IsTrue, if◌then◌else◌, vec_len, vec_capacity};
ghost use Rattle.std.specs.Option.{option_copied};
ghost use Rattle.web.specs.ScriptLines.{pieces, within_limit};
ghost use Rattle.requests.specs.declared.request.TheConstants.{LINE_LENGTH_LIMIT};

use memchr::memchr;
use requests::LINE_LENGTH_LIMIT;
use std::alloc::{AllocError, Global};
use std::marker::Model;

/// The bytes of one line, or that it is too long. Room for the longest line is allocated once, when
/// the buffer is made.
#[derive(Drop)]
pub(crate) struct LineBuffer {
    bytes: Vec<u8>,
    is_too_long: bool,
}

impl Model for LineBuffer {
    ghost Value = { Option (List ℕ) };

    ghost view = { λ buffer. if buffer.is_too_long then None else Some buffer.bytes.items };

    ghost invariant = { λ buffer.
        (LINE_LENGTH_LIMIT ≤ vec_capacity buffer.bytes)
        × (vec_len buffer.bytes ≤ LINE_LENGTH_LIMIT) };
}

#[tactic(auto, unfolding(crate::specs::ScriptLines::within_limit))]
impl LineBuffer {
    /// An empty line.
    pub(crate) fn new(alloc: Global) -> Result<LineBuffer, AllocError>
        ensures { IfOk result (λ buffer. buffer ≡ within_limit []) }
    {
        Ok(LineBuffer {
            bytes: Vec::with_capacity(alloc, LINE_LENGTH_LIMIT)?,
            is_too_long: false,
        })
    }

    /// Appends the bytes to the line.
    pub(crate) fn append(&mut self, bytes: &[u8])
        ensures { (line : List ℕ) → self.old ≡ within_limit line
            → self.new ≡ within_limit (line ++ bytes.now) }
    {
        if self.is_too_long {
            return;
        }
        if bytes.len() > LINE_LENGTH_LIMIT - self.bytes.len() {
            self.is_too_long = true;
            return;
        }
        let Ok(()) = self.bytes.extend_from_slice(bytes) else {
            unreachable!()
        };
    }

    /// Begins the next line.
    pub(crate) fn clear(&mut self)
        ensures { self.new ≡ within_limit [] }
    {
        self.bytes.clear();
        self.is_too_long = false;
    }

    /// Whether the line has no byte.
    pub(crate) fn is_empty(&self) -> bool
        ensures { IsTrue result ↔ (self.now ≡ within_limit []) }
    {
        !self.is_too_long && self.bytes.is_empty()
    }

    /// The line, or `None` if it is too long.
    pub(crate) fn line(&self) -> Option<&[u8]>
        ensures { option_copied result ≡ self.now }
    {
        if self.is_too_long {
            None
        } else {
            Some(self.bytes.as_slice())
        }
    }
}

/// What is before the first line feed, and what is after it.
pub(crate) fn cut_at_line_feed(bytes: &[u8]) -> Option<(&[u8], &[u8])>
    ensures found { IfSome result (λ cut. pieces bytes.now ≡ cut.0.now ∷ pieces cut.1.now) }
    ensures shorter { IfSome result (λ cut. length cut.1.now < length bytes.now) }
    ensures none { IfNone result (pieces bytes.now ≡ bytes.now ∷ []) }
{
    let Some(end) = memchr(b'\n', bytes) else {
        return None;
    };
    Some((&bytes[..end], &bytes[end + 1..]))
}
