//! Local exceptions to VRPs (RFC 8416).
ghost use Rattle.std.specs.Prelude.{◌≡◌, ◌↔◌, flat_map, Any, Contains, IfOk};
ghost use Rattle.addr.specs.declared.vrp.Vrp.{Vrp};
ghost use Rattle.payload.specs.VrpSet as set;
ghost use Rattle.registry.specs.DailyVrps.{IsAfterExceptions};
ghost use Rattle.slurm.specs.Filter.{FilterMatches};

use addr::Vrp;
use payload::Trie;
use slurm::{Filter, FilterIndex, Slurm};
use std::alloc::{AllocError, Global};

/// Takes away the VRPs that some filter matches.
pub(crate) fn keep_unfiltered(filters: &FilterIndex, vrps: &mut Vec<Vrp>)
    ensures { (v : Vrp) → Contains vrps.new.items v
        ↔ (Contains vrps.old.items v × ¬ Any (λ filter. FilterMatches filter v) filters.now) }
{
    vrps.retain(|vrp| !filters.matches(vrp));
}

/// The VRPs after the exceptions: without those that some filter matches, and with the assertions,
/// which no filter removes.
pub(crate) fn excepted(
    alloc: Global,
    filters: &FilterIndex,
    assertions: &[Vrp],
    given: Vec<Vrp>,
) -> Result<Trie, AllocError>
    ensures { IfOk result (λ vrps. (v : Vrp) → Contains (set.items vrps) v
        ↔ IsAfterExceptions (record { filters = filters.now; assertions = assertions.now })
        (Contains given.items v) v) }
{
    let mut vrps = given;
    keep_unfiltered(filters, &mut vrps);
    vrps.extend_from_slice(assertions)?;
    // Nodes that are made in the order of a visit lie beside one another in memory.
    vrps.sort_unstable();
    Trie::of(alloc, &vrps)
}

/// The filters of all files, file by file.
pub fn filters_of(alloc: Global, files: &[Slurm]) -> Result<Vec<Filter>, AllocError>
    ensures { IfOk result (λ filters. filters.items ≡ flat_map (λ f. f.filters) files.now) }
{
    let mut filters = Vec::new(alloc);
    for file in files {
        filters.extend_from_slice(file.filters())?;
    }
    Ok(filters)
}

/// The assertions of all files, file by file.
pub fn assertions_of(alloc: Global, files: &[Slurm]) -> Result<Vec<Vrp>, AllocError>
    ensures { IfOk result (λ assertions. assertions.items
        ≡ flat_map (λ f. f.assertions) files.now) }
{
    let mut assertions = Vec::new(alloc);
    for file in files {
        assertions.extend_from_slice(file.assertions())?;
    }
    Ok(assertions)
}
