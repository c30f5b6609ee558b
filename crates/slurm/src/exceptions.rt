//! The exceptions of a SLURM file (RFC 8416).
ghost use Rattle.std.specs.Prelude.{◌≡◌, ◌≢◌, ◌+◌, ◌≤◌, ◌↔◌, Any, IsTrue, length, None, Some, IfOk, IfErr, OnOk};
ghost use Rattle.std.specs.List.{list_any};
ghost use Rattle.serde_json.specs.View.{view};
ghost use Rattle.slurm.specs.Exceptions.{Exceptions};
ghost use Rattle.slurm.specs.declared.exceptions.TheConstants.{MOST_ENTRIES};

use crate::file::read_file;
use crate::filter::some_matches;
use crate::{Filter, SlurmFault};
use addr::Vrp;
use json_values::tree_of;
use serde_json::Value;
use std::alloc::{AllocError, Global};
use std::marker::Model;

/// How many filters and assertions a file may have together.
pub const MOST_ENTRIES: usize = 4096;

/// The local exceptions of one SLURM file: its prefix filters and its prefix assertions.
#[derive(Debug, Drop)]
pub struct Slurm {
    filters: Vec<Filter>,
    assertions: Vec<Vrp>,
}

impl Model for Slurm {
    ghost Value = { Exceptions };

    ghost view = { λ s. record { filters = s.filters.items; assertions = s.assertions.items } };

    ghost invariant = { λ s. length s.filters.items + length s.assertions.items ≤ MOST_ENTRIES };
}

impl Clone for Slurm {
    ghost use Rattle.std.specs.Prelude.{◌≡◌};

    ghost is_clone = { λ file copy. copy ≡ file };

    fn clone(&self) -> Result<Self, AllocError> {
        Ok(Slurm {
            filters: self.filters.clone()?,
            assertions: self.assertions.clone()?,
        })
    }
}

impl Slurm {
    ghost use Rattle.slurm.specs.Exceptions.{exceptions_of};
    ghost use Rattle.slurm.specs.Filter.{FilterMatches, filter_matches};
    ghost use Rattle.json_values.specs.Tree.{tree_of};
    ghost use Rattle.slurm.specs.SlurmEntries.{SaysExceptions};
    ghost use Rattle.slurm.specs.SlurmFaults.{slurm_fault};

    /// The exceptions of these lists, which are kept as they are; `TooMany` if they have more than
    /// 4096 entries together.
    pub fn make(filters: Vec<Filter>, assertions: Vec<Vrp>) -> Result<Slurm, SlurmFault>
        ensures { result ≡ exceptions_of filters.items assertions.items }
    {
        if filters.len() + assertions.len() > MOST_ENTRIES {
            return Err(SlurmFault::TooMany);
        }
        Ok(Slurm {
            filters,
            assertions,
        })
    }

    /// Reads a file from its text.
    pub fn read(alloc: Global, bytes: &[u8]) -> Result<Slurm, SlurmFault>
        ensures entries { IfOk result (SaysExceptions (tree_of bytes.now)) }
        ensures faultless { OnOk result (slurm_fault (tree_of bytes.now) ≡ None) }
        ensures fault { IfErr result (λ fault. fault ≢ SlurmFault.Memory
            → slurm_fault (tree_of bytes.now) ≡ Some fault) }
    {
        match tree_of(alloc, bytes)? {
            Some(value) => Slurm::of(alloc, &value),
            None => Err(SlurmFault::NotJson),
        }
    }

    /// Reads a file that is part of a larger JSON text.
    pub fn of(alloc: Global, value: &Value) -> Result<Slurm, SlurmFault>
        ensures entries { IfOk result (SaysExceptions (Some (view value.now))) }
        ensures faultless { OnOk result (slurm_fault (Some (view value.now)) ≡ None) }
        ensures fault { IfErr result (λ fault. fault ≢ SlurmFault.Memory
            → slurm_fault (Some (view value.now)) ≡ Some fault) }
        ensures is_json { result ≢ Err SlurmFault.NotJson }
    {
        read_file(alloc, value)
    }

    /// Whether some filter matches the VRP.
    pub fn filtered(&self, vrp: &Vrp) -> bool
        ensures some { IsTrue result
            ↔ Any (λ filter. FilterMatches filter vrp.now) self.now.filters }
        ensures by_test { result
            ≡ list_any (λ filter. filter_matches filter vrp.now) self.now.filters }
    {
        some_matches(self.filters.as_slice(), vrp)
    }

    /// The prefix filters, in the file's order.
    pub fn filters(&self) -> &[Filter]
        ensures list { result.now ≡ self.now.filters }
        ensures number { length self.now.filters + length self.now.assertions ≤ MOST_ENTRIES }
    {
        &self.filters
    }

    /// The prefix assertions as the VRPs that they add, in the file's order.
    pub fn assertions(&self) -> &[Vrp]
        ensures { result.now ≡ self.now.assertions }
    {
        &self.assertions
    }
}
