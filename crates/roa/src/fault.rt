//! Why octets are no content.
ghost use Rattle.std.specs.Prelude.{◌≡◌};
ghost use Rattle.roa.specs.declared.fault.DecodeFault.TheVariants.{Memory};

use std::alloc::{AllocError, AllocFailed};
use thiserror::Error;

/// Why octets were not decoded.
#[derive(Clone, Copy, Debug, PartialEq, Eq, Error)]
pub enum DecodeFault {
    /// The octets are those of no content.
    #[error("not the content of a route origin authorization in DER")]
    NotContent,
    /// An allocation failed.
    #[error("out of memory")]
    Memory,
}

impl DecodeFault {
    ghost use Rattle.roa.specs.DecodeFault.{decode_fault_number};

    /// The number of the reason, from 1 in the order above.
    pub fn number(self) -> u8
        ensures { result ≡ decode_fault_number self }
    {
        match self {
            DecodeFault::NotContent => 1,
            DecodeFault::Memory => 2,
        }
    }
}

impl From<AllocError> for DecodeFault {
    ghost from_gives = { λ _ fault. fault ≡ Memory };

    fn from(_error: AllocError) -> DecodeFault {
        DecodeFault::Memory
    }
}

impl<T: Drop> From<AllocFailed<T>> for DecodeFault {
    ghost from_gives = { λ _ fault. fault ≡ Memory };

    fn from(_error: AllocFailed<T>) -> DecodeFault {
        DecodeFault::Memory
    }
}
