//! Why something is no SLURM file.
ghost use Rattle.std.specs.Prelude.{◌≡◌};
ghost use Rattle.slurm.specs.Fault.{slurm_fault_number};

use json_values::Fault;
use std::alloc::AllocError;
use thiserror::Error;

/// Why something is no SLURM file. If several faults apply, the one with the lowest number is
/// reported.
#[derive(Clone, Copy, Debug, PartialEq, Eq, Error)]
pub enum SlurmFault {
    /// The bytes are no JSON text, or arrays and objects nest deeper than 127.
    #[error("the text is not JSON")]
    NotJson = 1,
    #[error("the file is not an object")]
    NotObject,
    /// An object or an array is expected, or a member is missing or unknown.
    #[error("an object or array is wanted, or a member is missing or unknown")]
    Members,
    #[error("slurmVersion is not 1")]
    Version,
    #[error("BGPsec filters and assertions are not supported")]
    Bgpsec,
    #[error("a prefix is not in its one spelling")]
    Prefix,
    #[error("an asn is not an AS number")]
    Asn,
    #[error("a maxPrefixLength is not in its range")]
    MaxPrefixLength,
    #[error("a prefix filter has neither prefix nor asn")]
    EmptyFilter,
    #[error("a comment is not text")]
    Comment,
    #[error("there are more than 4096 filters and assertions")]
    TooMany,
    #[error("out of memory")]
    Memory,
}

impl SlurmFault {
    /// The number of the fault, from 1 for `NotJson` to 12 for `Memory`.
    pub fn number(self) -> u8
        ensures { result ≡ slurm_fault_number self }
    {
        self as u8
    }
}

impl Fault for SlurmFault {
    ghost use Rattle.slurm.specs.declared.fault.SlurmFault.TheVariants.{Members};

    ghost number = { slurm_fault_number };

    ghost members = { Members };

    fn number(self) -> u8 {
        SlurmFault::number(self)
    }

    fn members() -> SlurmFault {
        SlurmFault::Members
    }
}

impl From<AllocError> for SlurmFault {
    ghost use Rattle.slurm.specs.declared.fault.SlurmFault.TheVariants.{Memory};

    ghost from_gives = { λ _ fault. fault ≡ Memory };

    fn from(_: AllocError) -> SlurmFault {
        SlurmFault::Memory
    }
}
