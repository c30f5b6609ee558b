//! Reading the lists of entries.
ghost use Rattle.std.specs.Prelude.{◌≡◌, IfOk, option_map};
ghost use Rattle.serde_json.specs.Find.{get};
ghost use Rattle.serde_json.specs.View.{items_view, view};
ghost use Rattle.json_values.specs.Parts.{mapped};
ghost use Rattle.json_values.specs.Tree.{required};
ghost use Rattle.slurm.specs.SlurmFaults.{array_at};
ghost use Rattle.slurm.specs.steps.SlurmFile.{bgpsec_from, entries_from, part_in};

use crate::SlurmFault;
use json_values::{FromJson, Read, each, only, unless};
use serde_json::Value;
use std::alloc::Global;

/// The entries of a list, or the lowest fault of the list and of all of its entries.
type Listed<T> = Read<Vec<T>, SlurmFault>;

fn array_in<'a>(value: &'a Value, name: &str) -> Option<&'a Vec<Value>>
    ensures { option_map (λ v. items_view v.now.items) result ≡ array_at name.now (view value.now) }
{
    match value.get(name) {
        Some(member) => member.as_array(),
        None => None,
    }
}

/// The array of that name, each item read.
fn entries_in<T: FromJson<SlurmFault>>(alloc: Global, value: &Value, name: &str) -> Listed<T>
    ensures { IfOk result (λ read. mapped (λ v. v.items) read
        ≡ entries_from T.reading (array_at name.now (view value.now))) }
{
    match array_in(value, name) {
        Some(values) => each(alloc, values),
        None => Ok(Err(SlurmFault::Members)),
    }
}

/// Checks that the array of that name is there and empty.
fn bgpsec_in(value: &Value, name: &str) -> Result<(), SlurmFault>
    ensures { result ≡ bgpsec_from (array_at name.now (view value.now)) }
{
    let Some(values) = array_in(value, name) else {
        return Err(SlurmFault::Members);
    };
    if values.as_slice().is_empty() {
        Ok(())
    } else {
        Err(SlurmFault::Bgpsec)
    }
}

fn part<T: FromJson<SlurmFault>>(
    alloc: Global,
    value: &Value,
    entries: &str,
    bgpsec: &str,
) -> Listed<T>
    ensures { IfOk result (λ read. mapped (λ v. v.items) read
        ≡ part_in T.reading entries.now bgpsec.now (view value.now)) }
{
    let listed = entries_in(alloc, value, entries)?;
    let known = only(value, &[entries, bgpsec]);
    let unused = bgpsec_in(value, bgpsec);
    Ok(unless(unless(listed, known), unused))
}

/// The part of that name: an object with the entries, and with the BGPsec entries, of which there
/// must be none.
pub(crate) fn required_part<T: FromJson<SlurmFault>>(
    alloc: Global,
    value: &Value,
    name: &str,
    entries: &str,
    bgpsec: &str,
) -> Listed<T>
    ensures { IfOk result (λ read. mapped (λ v. v.items) read
        ≡ required SlurmFault.Members (part_in T.reading entries.now bgpsec.now)
        (get name.now (view value.now))) }
{
    match value.get(name) {
        Some(member) => part(alloc, member, entries, bgpsec),
        None => Ok(Err(SlurmFault::Members)),
    }
}
