//! The bytes of a request's body.
ghost use Rattle.std.specs.Prelude.{◌≡◌, ℕ, ◌++◌, ◌<◌, List, [], length, Err, IfOk};
ghost use Rattle.http_messages.specs.Input.{Gives, HasNoMore};

use crate::reading::read_some;
use std::alloc::Global;
use streams::Source;

/// How many bytes a body may have.
pub const BODY_LIMIT: usize = 1_048_576;

/// Why no body was read.
#[derive(Clone, Copy, Debug, PartialEq, Eq)]
pub enum BodyFault {
    /// The source ended or failed before the body's end.
    CutShort,
    /// An allocation failed for the body. Nothing was read.
    Memory,
}

/// Reads a body of exactly this many bytes.
pub fn read_body<S: Source>(
    alloc: Global,
    source: &mut S,
    length_of_body: usize,
) -> Result<Vec<u8>, BodyFault>
    ensures ok { IfOk result (λ body.
        Gives body.items (S.handed_out source.old) (S.handed_out source.new)
        × (length body.items ≡ length_of_body)) }
    ensures cut_short { result ≡ Err BodyFault.CutShort → (bytes : List ℕ)
        × Gives bytes (S.handed_out source.old) (S.handed_out source.new)
        × (length bytes < length_of_body)
        × HasNoMore (S.has_ended source.new) (S.has_failed source.new) }
    ensures memory { result ≡ Err BodyFault.Memory → source.new ≡ source.old }
{
    let Ok(mut body) = Vec::with_capacity(alloc, length_of_body) else {
        return Err(BodyFault::Memory);
    };
    let mut piece = [0; 4096];
    while body.len() < length_of_body {
        let room = (length_of_body - body.len()).min(piece.len());
        let Ok(count) = read_some(source, &mut piece[..room]) else {
            return Err(BodyFault::CutShort);
        };
        let Ok(()) = body.extend_from_slice(&piece[..count]) else {
            unreachable!()
        };
    }
    Ok(body)
}
