//! The bytes of a request's head.
ghost use Rattle.std.specs.Prelude.{◌≡◌, ℕ, ◌++◌, ◌<◌, ◌≤◌, true, List, length, Ok, Err, IfOk};
ghost use Rattle.http_messages.specs.HeadEnd.{IsWholeHead, LacksEnd, has_end};
ghost use Rattle.http_messages.specs.Input.{Gives, HasNoMore};

use crate::reading::{CutShort, read_some};
use arrayvec::ArrayVec;
use streams::Source;

/// How many bytes a head may have, its empty line included.
pub const HEAD_LIMIT: usize = 8192;

/// Why no head was read.
#[derive(Clone, Copy, Debug, PartialEq, Eq)]
pub enum HeadFault {
    /// The head did not end within the bytes that it may have.
    TooLong,
    /// The source ended or failed before the head's end.
    CutShort,
}

/// Reads the bytes of a head, and none after its end.
pub fn read_head<S: Source>(source: &mut S) -> Result<ArrayVec<u8, HEAD_LIMIT>, HeadFault>
    ensures ok { IfOk result (λ head.
        Gives head.items (S.handed_out source.old) (S.handed_out source.new)
        × IsWholeHead head.items) }
    ensures too_long { result ≡ Err HeadFault.TooLong → (bytes : List ℕ)
        × Gives bytes (S.handed_out source.old) (S.handed_out source.new)
        × (length bytes ≡ HEAD_LIMIT) × LacksEnd bytes }
    ensures cut_short { result ≡ Err HeadFault.CutShort → (bytes : List ℕ)
        × Gives bytes (S.handed_out source.old) (S.handed_out source.new)
        × (length bytes < HEAD_LIMIT) × LacksEnd bytes
        × HasNoMore (S.has_ended source.new) (S.has_failed source.new) }
{
    let mut head = ArrayVec::new();
    let mut piece = [0; 4];
    while head.len() < HEAD_LIMIT {
        let room = missing_bytes(&head).min(HEAD_LIMIT - head.len());
        let Ok(count) = read_some(source, &mut piece[..room]) else {
            return Err(HeadFault::CutShort);
        };
        let Ok(()) = head.try_extend_from_slice(&piece[..count]) else {
            unreachable!()
        };
        if head.ends_with(b"\r\n\r\n") {
            return Ok(head);
        }
    }
    Err(HeadFault::TooLong)
}

/// How many bytes have to come at least before the head ends, so that reading no more than these
/// never passes its end.
fn missing_bytes(head: &[u8]) -> usize
    ensures some { 0 < result }
    ensures few { result ≤ 4 }
    ensures enough { (more : List ℕ) → 0 < length more → has_end (head.now ++ more) ≡ true
        → result ≤ length more }
{
    if head.ends_with(b"\r\n\r") {
        1
    } else if head.ends_with(b"\r\n") {
        2
    } else if head.ends_with(b"\r") {
        3
    } else {
        4
    }
}
