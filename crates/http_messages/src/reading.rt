//! Reading on from a source.
ghost use Rattle.std.specs.Prelude.{◌≡◌, ◌++◌, ◌<◌, ◌≤◌, length, take, IfOk, OnOk, OnErr};
ghost use Rattle.http_messages.specs.Input.{HasNoMore};

use streams::Source;

/// The source ended or failed where bytes were still to come.
#[derive(Clone, Copy, Debug, PartialEq, Eq)]
pub(crate) struct CutShort;

/// Reads at least one byte into the buffer, which has room.
pub(crate) fn read_some<S: Source>(source: &mut S, buffer: &mut [u8]) -> Result<usize, CutShort>
    requires { 0 < length buffer.old }
    ensures bound { IfOk result (λ n. n ≤ length buffer.new) }
    ensures some { IfOk result (λ n. 0 < n) }
    ensures bytes { IfOk result (λ n.
        S.handed_out source.new ≡ S.handed_out source.old ++ take n buffer.new) }
    ensures counted { OnOk result (S.reads_left source.new < S.reads_left source.old) }
    ensures err { OnErr result (S.handed_out source.new ≡ S.handed_out source.old) }
    ensures over { OnErr result (HasNoMore (S.has_ended source.new) (S.has_failed source.new)) }
{
    match source.read(buffer) {
        Ok(count) if count > 0 => Ok(count),
        _ => Err(CutShort),
    }
}
