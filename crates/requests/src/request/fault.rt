//! What may be wrong with a request.
ghost use Rattle.std.specs.Prelude.{◌≡◌};
ghost use Rattle.requests.specs.HttpFaults.{fault_of_import};
ghost use Rattle.requests.specs.RequestFaults.{as_malformed, fault_order, malformed_number, slurm_number};

use crate::malformed::Malformed;
use csv_records::ImportFault;
use slurm::SlurmFault;

/// What is read of a request.
pub(crate) type Read<T> = json_values::Read<T, Fault>;

/// The faults of a request. If several apply, the one with the lowest number is reported; among
/// faults of SLURM files, the one with the lowest SLURM number.
#[derive(Clone, Copy, Debug, PartialEq, Eq)]
pub(crate) enum Fault {
    /// The text is not JSON, or nests deeper than 127.
    Json,
    /// The text is no object, `do` is unknown, a member is missing or unknown, or what should be a
    /// list is none.
    Members,
    /// `holder`, `giver` or `taker` is no name.
    Holder,
    /// `caller` or `name` is no name.
    Caller,
    Prefix,
    /// An AS number or an origin does not read as one.
    Asn,
    /// `max` is no whole number from 0 to 255.
    Max,
    Day,
    /// `role` or `scope` does not read as one, or a manager's scope is not all.
    Role,
    /// `number` is not 1 to 999999.
    Number,
    /// A SLURM file is refused, with its own fault.
    File(SlurmFault),
    /// A list has no items, or too many.
    Count,
    TooLong,
    /// Two entries of one create name the same prefix.
    Repeated,
    /// A file's name is no name, or two files have one name.
    FileName,
}

impl Fault {
    /// The number that is reported.
    pub(crate) fn number(self) -> u8
        ensures { result ≡ malformed_number self }
    {
        match self {
            Fault::Json => 1,
            Fault::Members => 2,
            Fault::Holder => 3,
            Fault::Caller => 4,
            Fault::Prefix => 5,
            Fault::Asn => 6,
            Fault::Max => 7,
            Fault::Day => 8,
            Fault::Role => 9,
            Fault::Number => 10,
            Fault::File(_) => 11,
            Fault::Count => 12,
            Fault::TooLong => 13,
            Fault::Repeated => 14,
            Fault::FileName => 15,
        }
    }

    /// The place in the order in which faults are reported: by their numbers, and SLURM files' by
    /// the numbers of those.
    fn order(self) -> u8
        ensures { result ≡ fault_order self }
    {
        match self {
            Fault::File(fault) => 16 * 11 + fault.number(),
            _ => 16 * self.number(),
        }
    }

    /// The fault of a request with a faulty import.
    pub(crate) fn of_import(fault: ImportFault) -> Fault
        ensures { result ≡ fault_of_import fault }
    {
        match fault {
            ImportFault::Form => Fault::Members,
            ImportFault::Prefix => Fault::Prefix,
            ImportFault::Asn => Fault::Asn,
            ImportFault::Max => Fault::Max,
            ImportFault::Day => Fault::Day,
            ImportFault::Count => Fault::Count,
        }
    }

    /// The number of the fault of a SLURM file.
    fn slurm_number(self) -> Option<u8>
        ensures { result ≡ slurm_number self }
    {
        match self {
            Fault::File(fault) => Some(fault.number()),
            _ => None,
        }
    }

    /// What is reported of a request with this fault.
    pub(crate) fn malformed(self) -> Malformed
        ensures { result ≡ as_malformed self }
    {
        Malformed {
            number: self.number(),
            slurm: self.slurm_number(),
        }
    }
}

impl json_values::Fault for Fault {
    ghost use Rattle.requests.specs.declared.request.fault.Fault.TheVariants.{Members};

    ghost number = { fault_order };

    ghost members = { Members };

    fn number(self) -> u8 {
        self.order()
    }

    fn members() -> Fault {
        Fault::Members
    }
}
