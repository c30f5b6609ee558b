//! The fields of a record.
ghost use Rattle.std.specs.Prelude.{◌≡◌, option_map};
ghost use Rattle.csv.specs.Records.{fields_of};
ghost use Rattle.csv_records.specs.Fields.{field_in, two_of, three_of, fields_eq, texts_of};

use csv::ByteRecord;

/// The fields of a record that has two.
pub fn two_fields(row: &ByteRecord) -> Option<(&[u8], &[u8])>
    ensures { option_map (λ pair. (pair.0.now, pair.1.now)) result ≡ two_of (fields_of row.now) }
{
    if row.len() != 2 {
        return None;
    }
    let Some(first) = row.get(0) else {
        return None;
    };
    let Some(second) = row.get(1) else {
        return None;
    };
    Some((first, second))
}

/// The fields of a record that has three.
pub fn three_fields(row: &ByteRecord) -> Option<(&[u8], &[u8], &[u8])>
    ensures { option_map (λ triple. (triple.0.now, (triple.1.now, triple.2.now))) result
        ≡ three_of (fields_of row.now) }
{
    if row.len() != 3 {
        return None;
    }
    let Some(first) = row.get(0) else {
        return None;
    };
    let Some(second) = row.get(1) else {
        return None;
    };
    let Some(third) = row.get(2) else {
        return None;
    };
    Some((first, second, third))
}

/// The field in a place, counted from 0; no bytes if the record has none there.
pub(crate) fn field(row: &ByteRecord, place: usize) -> &[u8]
    ensures { result.now ≡ field_in place (fields_of row.now) }
{
    match row.get(place) {
        Some(field) => field,
        None => &[],
    }
}

/// Whether the fields of a record are these texts.
pub(crate) fn are_fields(row: &ByteRecord, texts: &[&str]) -> bool
    ensures { result ≡ fields_eq (fields_of row.now) (texts_of texts.now) }
{
    if row.len() != texts.len() {
        return false;
    }
    let mut place = 0;
    while place < texts.len() {
        let Some(field) = row.get(place) else {
            return false;
        };
        if field != texts[place].as_bytes() {
            return false;
        }
        place += 1;
    }
    true
}
