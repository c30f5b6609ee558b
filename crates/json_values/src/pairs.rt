//! Two parts together.
ghost use Rattle.std.specs.Prelude.{◌≡◌};
ghost use Rattle.json_values.specs.Parts.{both, unless};

use crate::Fault;
use crate::fault::lower;

/// Both values, or the lower of the faults.
pub fn both<A: Drop, B: Drop, F: Fault>(one: Result<A, F>, other: Result<B, F>) -> Result<(A, B), F>
    ensures { result ≡ both F.number one other }
{
    match one {
        Ok(a) => Ok((a, other?)),
        Err(fault) => match other.err() {
            None => Err(fault),
            Some(second) => Err(lower(fault, second)),
        },
    }
}

/// The value if the other has no fault, else the lower of the faults.
pub fn unless<A: Drop, B: Drop, F: Fault>(value: Result<A, F>, other: Result<B, F>) -> Result<A, F>
    ensures { result ≡ unless F.number value other }
{
    let (value, _) = both(value, other)?;
    Ok(value)
}
