//! Reading one prefix filter or prefix assertion.
ghost use Rattle.std.specs.Prelude.{◌≡◌};
ghost use Rattle.std.specs.Option.{ok_or};
ghost use Rattle.json_values.specs.Parts.{and_then};
ghost use Rattle.addr.specs.VrpParts.{vrp_with};
ghost use Rattle.slurm.specs.steps.SlurmFile.{filter_of, assertion_of};

use crate::members::{Comment, MaxPrefixLength};
use crate::{Filter, SlurmFault};
use addr::{Asn, Prefix, Vrp};
use json_values::{FromJson, both, only, optional, required, unless};
use serde_json::Value;

impl FromJson<SlurmFault> for Filter {
    ghost use Rattle.slurm.specs.steps.SlurmFile.{filter_in};

    ghost reading = { filter_in };

    fn from_json(value: &Value) -> Result<Filter, SlurmFault> {
        let prefix = optional::<Prefix, _>(value, "prefix");
        let asn = optional::<Asn, _>(value, "asn");
        let filter = filter_of(both(prefix, asn));
        let known = only(value, &["prefix", "asn", "comment"]);
        unless(
            unless(filter, known),
            optional::<Comment, _>(value, "comment"),
        )
    }
}

fn filter_of(
    members: Result<(Option<Prefix>, Option<Asn>), SlurmFault>,
) -> Result<Filter, SlurmFault>
    ensures { result ≡ and_then filter_of members }
{
    match members? {
        (Some(prefix), Some(asn)) => Ok(Filter::Both(prefix, asn)),
        (Some(prefix), None) => Ok(Filter::Under(prefix)),
        (None, Some(asn)) => Ok(Filter::By(asn)),
        (None, None) => Err(SlurmFault::EmptyFilter),
    }
}

impl FromJson<SlurmFault> for Vrp {
    ghost use Rattle.slurm.specs.steps.SlurmFile.{assertion_in};

    ghost reading = { assertion_in };

    fn from_json(value: &Value) -> Result<Vrp, SlurmFault> {
        let prefix = required::<Prefix, _>(value, "prefix");
        let asn = required::<Asn, _>(value, "asn");
        let max = optional::<MaxPrefixLength, _>(value, "maxPrefixLength");
        let vrp = assertion_of(both(prefix, both(asn, max)));
        let known = only(value, &["prefix", "asn", "maxPrefixLength", "comment"]);
        unless(unless(vrp, known), optional::<Comment, _>(value, "comment"))
    }
}

fn assertion_of(
    members: Result<(Prefix, (Asn, Option<MaxPrefixLength>)), SlurmFault>,
) -> Result<Vrp, SlurmFault>
    ensures { result ≡ and_then assertion_of members }
{
    let (prefix, (asn, max)) = members?;
    match max {
        Some(MaxPrefixLength(max)) => vrp_with(prefix, max, asn),
        None => vrp_with(prefix, u64::from(prefix.length), asn),
    }
}

fn vrp_with(prefix: Prefix, max: u64, asn: Asn) -> Result<Vrp, SlurmFault>
    ensures { result ≡ ok_or (vrp_with prefix max asn) SlurmFault.MaxPrefixLength }
{
    match u8::try_from(max) {
        Ok(max) => Vrp::from_parts(prefix, max, asn).ok_or(SlurmFault::MaxPrefixLength),
        Err(_) => Err(SlurmFault::MaxPrefixLength),
    }
}
