//! Lists of rows, of changes and of routes.
ghost use Rattle.std.specs.Prelude.{◌≡◌, Some, IfOk};
ghost use Rattle.serde_json.specs.View.{view};
ghost use Rattle.json_values.specs.Parts.{mapped};
ghost use Rattle.requests.specs.steps.RequestReading.{change_by, change_in, count_of, import, items_in, of_two, request_in, request_terms, route_in, routes_in, row_in, validity};

use super::commands::Subject;
use super::fault::{Fault, Read};
use super::form::action_in;
use super::members::{number_in, origin_in, prefix_in};
use super::terms::{row_members_in, terms_in};
use crate::action::Action;
use crate::member_names::{
    ASN, CHANGES, DO, ENTRIES, FROM, MAX, NUMBER, ORIGIN, PREFIX, ROUTES, ROWS, UNTIL,
};
use addr::Route;
use json_values::{FromJson, FromJsonIn, both, each, only, unless};
use registry::{Command, ImportRow, Proposed, Query, Request};
use serde_json::Value;
use std::alloc::Global;

/// How many rows or routes a request may have.
const MOST_ITEMS: usize = 10_000;

/// How many changes a request may suppose.
const MOST_CHANGES: usize = 1_000;

// ---- requests

/// The import with the rows that are a member.
pub(crate) fn import_in(alloc: Global, subject: Subject, value: &Value) -> Read<Request>
    ensures { IfOk result (λ request. mapped request_terms request
        ≡ request_in Action.Import subject (view value.now)) }
{
    let rows = items_in(alloc, value, ROWS, 1, MOST_ITEMS)?;
    Ok(asked_import(subject, rows))
}

/// The import of these rows.
pub(crate) fn asked_import(
    subject: Subject,
    rows: Result<Vec<ImportRow>, Fault>,
) -> Result<Request, Fault>
    ensures { mapped request_terms result
        ≡ of_two import subject.holder (mapped (λ v. v.items) rows) }
{
    let (holder, rows) = both(subject.holder, rows)?;
    Ok(Request::Command(Command::Import { holder, rows }))
}

/// The query for the validity of the routes that are a member.
pub(crate) fn validity_in(alloc: Global, value: &Value) -> Read<Request>
    ensures { IfOk result (λ request. mapped request_terms request
        ≡ mapped validity (routes_in (view value.now))) }
{
    let routes = items_in(alloc, value, ROUTES, 1, MOST_ITEMS)?;
    Ok(routes.map(|routes| Request::Query(Query::Validity { routes })))
}

/// The query for what the changes that are a member would do to the routes that are another.
pub(crate) fn what_if_in(alloc: Global, subject: Subject, value: &Value) -> Read<Request>
    ensures { IfOk result (λ request. mapped request_terms request
        ≡ request_in Action.WhatIf subject (view value.now)) }
{
    let changes = items_in(alloc, value, CHANGES, 0, MOST_CHANGES)?;
    let routes = items_in(alloc, value, ROUTES, 1, MOST_ITEMS)?;
    let parts = both(subject.holder, both(changes, routes));
    Ok(parts.map(|(holder, (changes, routes))| {
        Request::Query(Query::WhatIf {
            holder,
            changes,
            routes,
        })
    }))
}

// ---- lists

/// What the items of the member of that name are read as, of which there may be `least` to `most`.
pub(crate) fn items_in<T: FromJsonIn<Fault>>(
    alloc: Global,
    value: &Value,
    name: &str,
    least: usize,
    most: usize,
) -> Read<Vec<T>>
    ensures { IfOk result (λ items. mapped (λ v. v.items) items
        ≡ items_in T.reading least most name.now (view value.now)) }
{
    let Some(member) = value.get(name) else {
        return Ok(Err(Fault::Members));
    };
    let Some(values) = member.as_array() else {
        return Ok(Err(Fault::Members));
    };
    let items = each(alloc, values.as_slice())?;
    Ok(unless(items, count_of(least, most, values.len())))
}

/// Whether there are `least` to `most` items.
fn count_of(least: usize, most: usize, count: usize) -> Result<(), Fault>
    ensures { result ≡ count_of least most count }
{
    if least <= count && count <= most {
        Ok(())
    } else {
        Err(Fault::Count)
    }
}

// ---- items

/// A row of an import.
impl FromJson<Fault> for ImportRow {
    ghost reading = { row_in };

    fn from_json(value: &Value) -> Result<ImportRow, Fault> {
        unless(
            row_members_in(value),
            only(value, &[ASN, FROM, UNTIL, PREFIX, MAX]),
        )
    }
}

impl FromJsonIn<Fault> for Proposed {
    ghost reading = { change_in };

    fn from_json_in(alloc: Global, value: &Value) -> Read<Proposed> {
        match action_in(value) {
            Some(Action::Create) => creation_in(alloc, value),
            Some(Action::Withdraw) => Ok(withdrawal_in(value)),
            _ => Ok(Err(Fault::Members)),
        }
    }
}

/// A change that creates an authorization.
fn creation_in(alloc: Global, value: &Value) -> Read<Proposed>
    ensures { IfOk result (λ change. change ≡ change_by (Some Action.Create) (view value.now)) }
{
    let terms = terms_in(alloc, value)?;
    let names = only(value, &[DO, ASN, FROM, UNTIL, PREFIX, MAX, ENTRIES]);
    Ok(unless(terms, names).map(Proposed::Create))
}

/// A change that withdraws one.
fn withdrawal_in(value: &Value) -> Result<Proposed, Fault>
    ensures { result ≡ change_by (Some Action.Withdraw) (view value.now) }
{
    let number = unless(number_in(value), only(value, &[DO, NUMBER]))?;
    Ok(Proposed::Withdraw(number))
}

impl FromJson<Fault> for Route {
    ghost reading = { route_in };

    fn from_json(value: &Value) -> Result<Route, Fault> {
        let parts = both(prefix_in(value), origin_in(value));
        let route = parts.map(|(prefix, origin)| Route { prefix, origin });
        unless(route, only(value, &[PREFIX, ORIGIN]))
    }
}
