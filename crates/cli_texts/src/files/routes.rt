//! Route files: announced routes.
ghost use Rattle.std.specs.Prelude.{◌≡◌, None, Some, MatchOption, MatchResult};
ghost use Rattle.csv.specs.Records.{fields_of};
ghost use Rattle.cli_texts.specs.CsvRows.{origin_fault, origin_text, route_fault, route_row, route_texts_fault};
ghost use Rattle.csv_records.specs.Lines.{prefix_text};
ghost use Rattle.cli_texts.specs.declared.fault.RowFault.TheVariants as row_fault;

use crate::fault::RowFault;
use addr::{Asn, Origin, Prefix, Route};
use csv::ByteRecord;
use csv_records::two_fields;

/// A route, and the row's texts of its prefix and its origin.
#[derive(Clone, Copy)]
pub(crate) struct RouteRow<'a> {
    pub(crate) route: Route,
    pub(crate) prefix: &'a [u8],
    pub(crate) origin: &'a [u8],
}

pub(crate) fn read_route(row: &ByteRecord) -> Result<RouteRow<'_>, RowFault>
    ensures { MatchResult result
        (λ read. (fields_of row.now ≡ route_row read.route)
        × (read.prefix.now ≡ prefix_text read.route.prefix)
        × (read.origin.now ≡ origin_text read.route.origin)
        × (route_fault (fields_of row.now) ≡ None))
        (λ fault. route_fault (fields_of row.now) ≡ Some fault) }
{
    let Some((prefix, origin)) = two_fields(row) else {
        return Err(RowFault::Fields);
    };
    match read_texts(prefix, origin) {
        Ok(route) => Ok(RouteRow {
            route,
            prefix,
            origin,
        }),
        Err(fault) => Err(fault),
    }
}

fn read_texts(prefix: &[u8], origin: &[u8]) -> Result<Route, RowFault>
    ensures { MatchResult result
        (λ route. (prefix.now ≡ prefix_text route.prefix)
        × (origin.now ≡ origin_text route.origin)
        × (route_texts_fault prefix.now origin.now ≡ None))
        (λ fault. route_texts_fault prefix.now origin.now ≡ Some fault) }
{
    let prefix = match Prefix::read(prefix) {
        Ok(prefix) => prefix,
        Err(fault) => return Err(RowFault::Prefix(fault)),
    };
    match read_origin(origin) {
        Some(origin) => Ok(Route { prefix, origin }),
        None => Err(RowFault::Origin),
    }
}

fn read_origin(text: &[u8]) -> Option<Origin>
    ensures { MatchOption result
        (origin_fault text.now ≡ Some row_fault.Origin)
        (λ origin. (text.now ≡ origin_text origin) × (origin_fault text.now ≡ None)) }
{
    if text == "NONE".as_bytes() {
        return Some(Origin::None);
    }
    match Asn::from_text(text) {
        Some(asn) => Some(Origin::As(asn)),
        None => None,
    }
}
