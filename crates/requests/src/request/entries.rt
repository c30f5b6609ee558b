//! The entries that a create names, and the maxLengths that an amendment gives to entries: each as
//! one or as a list.
ghost use Rattle.std.specs.Prelude.{◌≡◌, IfOk};
ghost use Rattle.serde_json.specs.View.{view};
ghost use Rattle.json_values.specs.Parts.{and_then, mapped};
ghost use Rattle.requests.specs.steps.RequestReading.{entries_arranged, entries_in, entry_in, entry_list_in, entry_members_in, max_item_in, maxes_in, one_entry_in, one_max_in};

use super::fault::{Fault, Read};
use super::form::has_some;
use super::lists::items_in;
use super::members::{as_max, max_in, prefix_in};
use crate::member_names::{ENTRIES, MAX, MAXES, PREFIX};
use addr::RoaPrefix;
use json_values::{FromJson, both, only, unless};
use registry::{RoaPrefixes, RoaPrefixesFault};
use serde_json::Value;
use std::alloc::Global;

/// How many entries an authorization may have: the limit of `RoaPrefixes`, which the proof of
/// `arranged` compares with it.
const MOST_ENTRIES: usize = 64;

// ---- entries

/// The entries that a create names: one by its members, or a list in any order.
pub(crate) fn entries_in(alloc: Global, value: &Value) -> Read<RoaPrefixes>
    ensures { IfOk result (λ entries. entries ≡ entries_in (view value.now)) }
{
    match (has_some(value, &[PREFIX, MAX]), has_some(value, &[ENTRIES])) {
        (true, false) => one_entry_in(alloc, value),
        (false, true) => entry_list_in(alloc, value),
        _ => Ok(Err(Fault::Members)),
    }
}

fn one_entry_in(alloc: Global, value: &Value) -> Read<RoaPrefixes>
    ensures { IfOk result (λ entries. entries ≡ one_entry_in (view value.now)) }
{
    match entry_members_in(value) {
        Ok(entry) => Ok(Ok(RoaPrefixes::one(alloc, entry.prefix, entry.max)?)),
        Err(fault) => Ok(Err(fault)),
    }
}

fn entry_list_in(alloc: Global, value: &Value) -> Read<RoaPrefixes>
    ensures { IfOk result (λ entries. entries ≡ entry_list_in (view value.now)) }
{
    let entries = items_in(alloc, value, ENTRIES, 1, MOST_ENTRIES)?;
    Ok(arranged(entries))
}

/// The entries of an authorization that these are in order.
fn arranged(entries: Result<Vec<RoaPrefix>, Fault>) -> Result<RoaPrefixes, Fault>
    ensures { result ≡ and_then entries_arranged (mapped (λ v. v.items) entries) }
{
    match RoaPrefixes::make(entries?) {
        Ok(made) => Ok(made),
        Err(RoaPrefixesFault::Count) => Err(Fault::Count),
        Err(RoaPrefixesFault::Repeated) => Err(Fault::Repeated),
    }
}

/// The members of an entry.
pub(crate) fn entry_members_in(value: &Value) -> Result<RoaPrefix, Fault>
    ensures { result ≡ entry_members_in (view value.now) }
{
    let (prefix, max) = both(prefix_in(value), max_in(value))?;
    Ok(RoaPrefix { prefix, max })
}

impl FromJson<Fault> for RoaPrefix {
    ghost reading = { entry_in };

    fn from_json(value: &Value) -> Result<RoaPrefix, Fault> {
        unless(entry_members_in(value), only(value, &[PREFIX, MAX]))
    }
}

// ---- maxLengths

/// The maxLengths that an amendment gives, in the order of the entries: one, or a list.
pub(crate) fn maxes_in(alloc: Global, value: &Value) -> Read<Vec<u8>>
    ensures { IfOk result (λ maxes. mapped (λ v. v.items) maxes ≡ maxes_in (view value.now)) }
{
    match (has_some(value, &[MAX]), has_some(value, &[MAXES])) {
        (true, false) => one_max_in(alloc, value),
        (false, true) => items_in(alloc, value, MAXES, 1, MOST_ENTRIES),
        _ => Ok(Err(Fault::Members)),
    }
}

fn one_max_in(alloc: Global, value: &Value) -> Read<Vec<u8>>
    ensures { IfOk result (λ maxes. mapped (λ v. v.items) maxes ≡ one_max_in (view value.now)) }
{
    match max_in(value) {
        Ok(max) => Ok(Ok(vec![in alloc; max]?)),
        Err(fault) => Ok(Err(fault)),
    }
}

/// An item of `maxes`: no other list of a request has numbers.
impl FromJson<Fault> for u8 {
    ghost reading = { max_item_in };

    fn from_json(value: &Value) -> Result<u8, Fault> {
        as_max(value).ok_or(Fault::Max)
    }
}
