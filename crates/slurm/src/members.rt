//! Reading the members of an object.

use crate::SlurmFault;
use addr::{Asn, Prefix};
use json_values::{FromJson, as_asn, as_prefix};
use serde_json::Value;

impl FromJson<SlurmFault> for Prefix {
    ghost use Rattle.slurm.specs.steps.SlurmFile.{prefix_or_fault};

    ghost reading = { prefix_or_fault };

    fn from_json(value: &Value) -> Result<Prefix, SlurmFault> {
        as_prefix(value).ok_or(SlurmFault::Prefix)
    }
}

impl FromJson<SlurmFault> for Asn {
    ghost use Rattle.slurm.specs.steps.SlurmFile.{asn_or_fault};

    ghost reading = { asn_or_fault };

    fn from_json(value: &Value) -> Result<Asn, SlurmFault> {
        as_asn(value).ok_or(SlurmFault::Asn)
    }
}

/// A `maxPrefixLength`: any whole number, since its range depends on the prefix.
#[derive(Clone, Copy)]
pub(crate) struct MaxPrefixLength(pub(crate) u64);

impl FromJson<SlurmFault> for MaxPrefixLength {
    ghost use Rattle.slurm.specs.steps.SlurmFile.{length_in};

    ghost reading = { length_in };

    fn from_json(value: &Value) -> Result<MaxPrefixLength, SlurmFault> {
        match value.as_u64() {
            Some(number) => Ok(MaxPrefixLength(number)),
            None => Err(SlurmFault::MaxPrefixLength),
        }
    }
}

/// A `comment`, of which nothing is kept.
#[derive(Clone, Copy)]
pub(crate) struct Comment;

impl FromJson<SlurmFault> for Comment {
    ghost use Rattle.slurm.specs.steps.SlurmFile.{comment_in};

    ghost reading = { comment_in };

    fn from_json(value: &Value) -> Result<Comment, SlurmFault> {
        if value.is_string() {
            Ok(Comment)
        } else {
            Err(SlurmFault::Comment)
        }
    }
}

/// A `slurmVersion`: 1 is the only one.
#[derive(Clone, Copy)]
pub(crate) struct Version;

impl FromJson<SlurmFault> for Version {
    ghost use Rattle.slurm.specs.steps.SlurmFile.{version_in};

    ghost reading = { version_in };

    fn from_json(value: &Value) -> Result<Version, SlurmFault> {
        match value.as_u64() {
            Some(1) => Ok(Version),
            _ => Err(SlurmFault::Version),
        }
    }
}
