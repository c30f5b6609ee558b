//! Members of objects.
ghost use Rattle.std.specs.Prelude.{◌≡◌, map, IfOk, Result, string_bytes};
ghost use Rattle.std.specs.BTreeMap.{keys};
ghost use Rattle.std.specs.List.{list_all, list_any};
ghost use Rattle.std.specs.Option.{ok_or};
ghost use Rattle.std.specs.Str.{bytes_eq};
ghost use Rattle.serde_json.specs.Data.{Data};
ghost use Rattle.serde_json.specs.Find.{get};
ghost use Rattle.serde_json.specs.View.{view};
ghost use Rattle.json_values.specs.Parts.{mapped};
ghost use Rattle.json_values.specs.Tree.{only, optional, required};

use crate::{Fault, Read};
use serde_json::{Map, Value};
use std::alloc::Global;

/// Types that are read from a JSON value.
pub trait FromJson<F: Fault>: Drop {
    ghost reading: { Data → Result Self F };

    fn from_json(value: &Value) -> Result<Self, F>
        ensures { result ≡ reading (view value.now) };
}

/// Types that are read from a JSON value and may allocate. A list in one is of a type whose `Model`
/// is the list: a `Vec` also has a capacity, which no JSON value gives.
pub trait FromJsonIn<F: Fault>: Drop {
    ghost reading: { Data → Result Self F };

    fn from_json_in(alloc: Global, value: &Value) -> Read<Self, F>
        ensures { IfOk result (λ read. read ≡ reading (view value.now)) };
}

/// Types that are read without allocating.
impl<T: FromJson<F>, F: Fault> FromJsonIn<F> for T {
    ghost reading = { T.FromJson.reading };

    fn from_json_in(_alloc: Global, value: &Value) -> Read<T, F> {
        Ok(T::from_json(value))
    }
}

/// The member of that name, which has to be there.
pub fn member<'a, F: Fault>(value: &'a Value, name: &str) -> Result<&'a Value, F>
    ensures { mapped (λ found. view found.now) result
        ≡ ok_or (get name.now (view value.now)) F.members }
{
    value.get(name).ok_or(F::members())
}

/// What the member of that name is read as, which has to be there.
pub fn required<T: FromJson<F>, F: Fault>(value: &Value, name: &str) -> Result<T, F>
    ensures { result ≡ required F.members T.reading (get name.now (view value.now)) }
{
    match value.get(name) {
        Some(found) => T::from_json(found),
        None => Err(F::members()),
    }
}

/// What the member of that name is read as, if it is there.
pub fn optional<T: FromJson<F>, F: Fault>(value: &Value, name: &str) -> Result<Option<T>, F>
    ensures { result ≡ optional T.reading (get name.now (view value.now)) }
{
    match value.get(name) {
        Some(found) => Ok(Some(T::from_json(found)?)),
        None => Ok(None),
    }
}

/// Refuses what is no object, or has a member of another name.
pub fn only<F: Fault>(value: &Value, names: &[&str]) -> Result<(), F>
    ensures { result ≡ only F.members (map (λ name. name.now) names.now) (view value.now) }
{
    let Some(members) = value.as_object() else {
        return Err(F::members());
    };
    if has_only(members, names) {
        Ok(())
    } else {
        Err(F::members())
    }
}

fn has_only(members: &Map<String, Value>, names: &[&str]) -> bool
    ensures { result
        ≡ list_all (λ key. list_any (λ known. bytes_eq known.now (string_bytes key)) names.now)
        (keys members.now) }
{
    members.keys().all(|name| is_among(name.as_str(), names))
}

fn is_among(name: &str, names: &[&str]) -> bool
    ensures { result ≡ list_any (λ known. bytes_eq known.now name.now) names.now }
{
    names.iter().any(|known| *known == name)
}
