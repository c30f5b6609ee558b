//! Why a store failed.
use sqlite::Error;
use std::alloc::AllocError;

/// Why a store was not made, did not answer, or did not change its rows. After a fault its rows are
/// as before.
#[derive(Clone, Copy, Debug, PartialEq, Eq)]
pub enum StoreFault {
    /// The database refused, or an allocation failed.
    Database,
    /// A table or a row does not read as one of this schema.
    Schema,
}

impl StoreFault {
    ghost use Rattle.std.specs.Prelude.{◌≡◌};
    ghost use Rattle.store_transactions.specs.Fault.{store_fault_number};

    /// The fault as a number: 1 for the database, 2 for the schema.
    pub fn number(self) -> u8
        ensures { result ≡ store_fault_number self }
    {
        match self {
            StoreFault::Database => 1,
            StoreFault::Schema => 2,
        }
    }
}

impl From<Error> for StoreFault {
    ghost use Rattle.std.specs.Prelude.{◌≡◌};
    ghost use Rattle.store_transactions.specs.declared.fault.StoreFault.TheVariants.{Database};

    ghost from_gives = { λ _ fault. fault ≡ Database };

    fn from(_: Error) -> StoreFault {
        StoreFault::Database
    }
}

impl From<AllocError> for StoreFault {
    ghost use Rattle.std.specs.Prelude.{◌≡◌};
    ghost use Rattle.store_transactions.specs.declared.fault.StoreFault.TheVariants.{Database};

    ghost from_gives = { λ _ fault. fault ≡ Database };

    fn from(_: AllocError) -> StoreFault {
        StoreFault::Database
    }
}
