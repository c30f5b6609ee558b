//! The task `check` on the bytes of its two files.
ghost use Rattle.std.specs.Prelude.{◌≡◌, ◌++◌, ℕ, List, IfErr, OnOk};
ghost use Rattle.cli_texts.specs.Check.{EndsCheck, JudgesFiles};

use cli_texts::{ProgramFault, check_routes, payload_index};
use std::alloc::Global;
use web::Drain;

/// The bytes of a file of payloads.
#[derive(Drop)]
pub struct PayloadFile(pub Vec<u8>);

/// The bytes of a file of routes.
#[derive(Drop)]
pub struct RouteFile(pub Vec<u8>);

/// Like `check_on`, with types that keep one file from being taken for the other. The payload file
/// is dropped before the routes are judged.
pub fn check_files<D: Drain>(
    alloc: Global,
    payloads: PayloadFile,
    routes: &RouteFile,
    drain: &mut D,
) -> Result<(), ProgramFault>
    ensures ok { OnOk result ((text : List ℕ)
        × JudgesFiles payloads.0.items routes.now.0.items text
        × (D.written drain.new ≡ D.written drain.old ++ text)) }
    ensures err { IfErr result (λ fault. EndsCheck fault payloads.0.items routes.now.0.items
        (D.written drain.old) (D.written drain.new) (D.has_failed drain.new)) }
{
    let index = payload_index(alloc, &payloads.0)?;
    drop(payloads);
    check_routes(alloc, &index, &routes.0, drain)
}
