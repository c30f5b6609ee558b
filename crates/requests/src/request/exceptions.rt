//! SLURM files (RFC 8416), each alone or as a list of files that have names.
ghost use Rattle.std.specs.Prelude.{◌≡◌, Some, IfOk};
ghost use Rattle.serde_json.specs.View.{view};
ghost use Rattle.json_values.specs.Parts.{and_then, mapped};
ghost use Rattle.requests.specs.RequestText.{main_alone};
ghost use Rattle.requests.specs.steps.RequestReading.{as_file, file_in, file_list_in, files_arranged, files_in, main_file_in, main_file_of, named_file_in, request_terms, slurm_request};

use super::fault::{Fault, Read};
use super::form::has_some;
use super::lists::items_in;
use super::members::file_name_in;
use crate::member_names::{FILE, FILES, NAME};
use addr::Name;
use json_values::{FromJsonIn, both, only, unless};
use registry::{Command, Request};
use serde_json::Value;
use slurm::{MOST_FILES, NamedSlurm, Slurm, SlurmFault, SlurmSet, SlurmSetFault};
use std::alloc::{AllocError, Global};

/// The name of a file that is brought without one.
const MAIN: &[u8] = b"main";

/// The request with the file or the files that are a member.
pub(crate) fn slurm_in(alloc: Global, value: &Value) -> Read<Request>
    ensures { IfOk result (λ asked. mapped request_terms asked
        ≡ slurm_request (files_in (view value.now))) }
{
    let files = files_in(alloc, value)?;
    Ok(asked_slurm(files))
}

/// The request with the files that are a member.
pub(crate) fn slurms_in(alloc: Global, value: &Value) -> Read<Request>
    ensures { IfOk result (λ asked. mapped request_terms asked
        ≡ slurm_request (file_list_in (view value.now))) }
{
    let files = file_list_in(alloc, value)?;
    Ok(asked_slurm(files))
}

/// The request with the file that the value is.
pub(crate) fn slurm_of(alloc: Global, value: &Value) -> Read<Request>
    ensures { IfOk result (λ asked. mapped request_terms asked
        ≡ slurm_request (main_file_of (Some (view value.now)))) }
{
    let file = as_file(alloc, value)?;
    let files = main_file(alloc, file)?;
    Ok(asked_slurm(files))
}

/// The request with these files.
fn asked_slurm(files: Result<SlurmSet, Fault>) -> Result<Request, Fault>
    ensures { result ≡ mapped (λ f. Request.Command (Command.Slurm f)) files }
{
    let files = files?;
    Ok(Request::Command(Command::Slurm { files }))
}

// ---- one file

/// The set of the file that is a member.
fn main_file_in(alloc: Global, value: &Value) -> Read<SlurmSet>
    ensures { IfOk result (λ files. files ≡ main_file_in (view value.now)) }
{
    let file = file_in(alloc, value)?;
    main_file(alloc, file)
}

/// The set of one file.
fn main_file(alloc: Global, file: Result<Slurm, Fault>) -> Read<SlurmSet>
    ensures { IfOk result (λ files. files ≡ mapped main_alone file) }
{
    match file {
        Ok(file) => Ok(Ok(main_alone(alloc, file)?)),
        Err(fault) => Ok(Err(fault)),
    }
}

/// The set of this file, which is named `main`: that is a name, and one file is a set, so that only
/// an allocation can fail.
fn main_alone(alloc: Global, file: Slurm) -> Result<SlurmSet, AllocError>
    ensures { IfOk result (λ files. files ≡ main_alone file) }
{
    let Some(name) = Name::read(MAIN) else {
        return Err(AllocError);
    };
    match SlurmSet::make(vec![in alloc; NamedSlurm { name, file }]?) {
        Ok(files) => Ok(files),
        Err(_) => Err(AllocError),
    }
}

/// The file that is the member `file`.
fn file_in(alloc: Global, value: &Value) -> Read<Slurm>
    ensures { IfOk result (λ file. file ≡ file_in (view value.now)) }
{
    match value.get(FILE) {
        Some(file) => as_file(alloc, file),
        None => Ok(Err(Fault::Members)),
    }
}

/// The file that a value is.
fn as_file(alloc: Global, value: &Value) -> Read<Slurm>
    ensures { IfOk result (λ file. file ≡ as_file (view value.now)) }
{
    match Slurm::of(alloc, value) {
        Ok(file) => Ok(Ok(file)),
        Err(fault) if fault == SlurmFault::Memory => Err(AllocError),
        Err(fault) => Ok(Err(Fault::File(fault))),
    }
}

// ---- files and their names

/// The files of a set: one, or a list in any order.
fn files_in(alloc: Global, value: &Value) -> Read<SlurmSet>
    ensures { IfOk result (λ files. files ≡ files_in (view value.now)) }
{
    match (has_some(value, &[FILE]), has_some(value, &[FILES])) {
        (true, false) => main_file_in(alloc, value),
        (false, true) => file_list_in(alloc, value),
        _ => Ok(Err(Fault::Members)),
    }
}

fn file_list_in(alloc: Global, value: &Value) -> Read<SlurmSet>
    ensures { IfOk result (λ files. files ≡ file_list_in (view value.now)) }
{
    let files = items_in(alloc, value, FILES, 0, MOST_FILES)?;
    Ok(arranged(files))
}

/// The set of these files in order.
fn arranged(files: Result<Vec<NamedSlurm>, Fault>) -> Result<SlurmSet, Fault>
    ensures { result ≡ and_then files_arranged (mapped (λ v. v.items) files) }
{
    match SlurmSet::make(files?) {
        Ok(made) => Ok(made),
        Err(SlurmSetFault::TooMany) => Err(Fault::Count),
        Err(SlurmSetFault::Repeated) => Err(Fault::FileName),
    }
}

impl FromJsonIn<Fault> for NamedSlurm {
    ghost reading = { named_file_in };

    fn from_json_in(alloc: Global, value: &Value) -> Read<NamedSlurm> {
        let file = file_in(alloc, value)?;
        let parts = both(file_name_in(value), file);
        let named = parts.map(|(name, file)| NamedSlurm { name, file });
        Ok(unless(named, only(value, &[NAME, FILE])))
    }
}
