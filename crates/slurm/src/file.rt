//! Reading a whole file.
ghost use Rattle.std.specs.Prelude.{◌≡◌, ◌≢◌, Ok, Some, IfOk, IfErr};
ghost use Rattle.std.specs.Result.{result_err};
ghost use Rattle.serde_json.specs.View.{view};
ghost use Rattle.json_values.specs.Parts.{mapped};
ghost use Rattle.slurm.specs.steps.SlurmFile.{lists_of, object_in, slurm_in};

use crate::lists::required_part;
use crate::members::Version;
use crate::{Filter, Slurm, SlurmFault};
use addr::Vrp;
use json_values::{both, only, required, unless};
use serde_json::Value;
use std::alloc::Global;

pub(crate) fn read_file(alloc: Global, value: &Value) -> Result<Slurm, SlurmFault>
    ensures file { IfOk result (λ file. slurm_in (view value.now) ≡ Ok file) }
    ensures fault { IfErr result (λ fault. fault ≢ SlurmFault.Memory
        → result_err (slurm_in (view value.now)) ≡ Some fault) }
{
    let filters = required_part(
        alloc,
        value,
        "validationOutputFilters",
        "prefixFilters",
        "bgpsecFilters",
    )?;
    let assertions = required_part(
        alloc,
        value,
        "locallyAddedAssertions",
        "prefixAssertions",
        "bgpsecAssertions",
    )?;
    let (filters, assertions) = whole(value, filters, assertions)?;
    Slurm::make(filters, assertions)
}

/// The two lists, or the lowest fault of them and of the object that they are in.
fn whole(
    value: &Value,
    filters: Result<Vec<Filter>, SlurmFault>,
    assertions: Result<Vec<Vrp>, SlurmFault>,
) -> Result<(Vec<Filter>, Vec<Vrp>), SlurmFault>
    ensures { mapped (λ lists. (lists.0.items, lists.1.items)) result
        ≡ lists_of (mapped (λ v. v.items) filters) (mapped (λ v. v.items) assertions)
        (view value.now) }
{
    let lists = unless(both(filters, assertions), object_in(value));
    let known = only(
        value,
        &[
            "slurmVersion",
            "validationOutputFilters",
            "locallyAddedAssertions",
        ],
    );
    unless(
        unless(lists, known),
        required::<Version, _>(value, "slurmVersion"),
    )
}

fn object_in(value: &Value) -> Result<(), SlurmFault>
    ensures { result ≡ object_in (view value.now) }
{
    if value.is_object() {
        Ok(())
    } else {
        Err(SlurmFault::NotObject)
    }
}
