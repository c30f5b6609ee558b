//! The lines of a check: kept while the routes are judged, and written after the last.
ghost use Rattle.std.specs.Prelude.{◌≡◌, ◌≤◌, ◌<◌, ◌+◌, ◌^◌, ◌++◌, ◌∷◌, [], length, slice_range, true, IfSome, OnOk, OnErr};
ghost use Rattle.addr.specs.OriginValidation.{state_text};
ghost use Rattle.payload.specs.ValidityState.{state_of};
ghost use Rattle.streams.specs.Streams.{AppendsBeginning};
ghost use Rattle.cli_texts.specs.steps.StateLines.{lines_text, row_line, rows_kept, rows_text, RowsLieIn, WritesBeginning, Stands};

use crate::files::RouteRow;
use arrayvec::ArrayVec;
use payload::Validity;
use std::alloc::{AllocError, Global};
use streams::{Drain, Failed, write_all};

/// How many bytes are written at once.
const PIECE: usize = 65536;

/// A row whose texts are in the file as they are printed, with a comma between them.
#[derive(Clone, Copy)]
pub(crate) struct JudgedRow {
    /// Where the texts start and end, counted from the end of the row before.
    start: u8,
    end: u8,
    state: Validity,
}

/// The lines of the routes that were judged so far. A line is long and a state is an octet, so a row
/// that is in the file as it is printed is written from there.
#[derive(Drop)]
pub(crate) struct StateLines<'a> {
    text: &'a [u8],
    rows: Vec<JudgedRow>,
    /// The text after these rows.
    rest: &'a [u8],
    /// The lines from the first row on that is not in the file as it is printed, for example
    /// because it has quotes.
    others: Vec<u8>,
}

impl<'a> StateLines<'a> {
    /// No lines yet of the file that has this text.
    pub(crate) fn new(alloc: Global, file: &'a [u8]) -> StateLines<'a>
        ensures stands { Stands result }
        ensures none { lines_text result ≡ [] }
        ensures kept { rows_kept result ≡ 0 }
    {
        let text = match file.strip_prefix("prefix,origin".as_bytes()) {
            Some(rows) => rows,
            None => file,
        };
        StateLines {
            text,
            rows: Vec::new(alloc),
            rest: text,
            others: Vec::new(alloc),
        }
    }

    /// Adds the line of a route. The texts of its row have one spelling, so they are what is printed.
    pub(crate) fn push(&mut self, read: &RouteRow<'_>, state: Validity) -> Result<(), AllocError>
        requires { Stands self.old }
        ensures stands { OnOk result (Stands self.new) }
        ensures line { OnOk result (lines_text self.new
            ≡ lines_text self.old ++ (read.now.prefix.now ++ 44 ∷ read.now.origin.now
            ++ 44 ∷ state_text (state_of state) ++ 10 ∷ [])) }
        ensures counted { OnOk result (rows_kept self.old + 1 ≤ rows_kept self.new) }
        ensures few { OnOk result (rows_kept self.new + 1 < 2 ^ 64) }
    {
        if self.others.is_empty() {
            if let Some(row) = row_at(self.rest, read, state) {
                let Ok(()) = self.rows.push(row) else {
                    return Err(AllocError);
                };
                self.rest = &self.rest[usize::from(row.end)..];
                return Ok(());
            }
        }
        push_line(&mut self.others, read, state)
    }

    /// Writes the lines.
    pub(crate) fn write_to<D: Drain>(&self, drain: &mut D) -> Result<(), Failed>
        requires { Stands self.now }
        ensures ok { OnOk result (D.written drain.new
            ≡ D.written drain.old ++ lines_text self.now) }
        ensures err { OnErr result (AppendsBeginning (D.written drain.old) (D.written drain.new)
            (lines_text self.now)) }
        ensures failed { OnErr result (D.has_failed drain.new ≡ true) }
    {
        let mut piece = ArrayVec::new();
        add_rows(drain, &mut piece, self.text, &self.rows)?;
        write_all(drain, piece.as_slice())?;
        write_all(drain, &self.others)
    }
}

/// The row, if its texts come next, with a comma between them.
fn row_at(rest: &[u8], read: &RouteRow<'_>, state: Validity) -> Option<JudgedRow>
    ensures fits { IfSome result (λ row. (row.start ≤ row.end) × (row.end ≤ length rest.now)) }
    ensures texts { IfSome result (λ row. slice_range rest.now row.start row.end
        ≡ read.now.prefix.now ++ 44 ∷ read.now.origin.now) }
    ensures state { IfSome result (λ row. row.state ≡ state) }
{
    let start = line_end(rest);
    let origin = after(
        after(&rest[usize::from(start)..], read.prefix)?,
        ",".as_bytes(),
    )?;
    let end = rest.len() - after(origin, read.origin)?.len();
    if end > usize::from(u8::MAX) {
        return None;
    }
    Some(JudgedRow {
        start,
        end: end as u8,
        state,
    })
}

/// The length of the line end that comes next.
fn line_end(rest: &[u8]) -> u8
    ensures { result ≤ length rest.now }
{
    match rest {
        [b'\r', b'\n', ..] => 2,
        [b'\r' | b'\n', ..] => 1,
        _ => 0,
    }
}

/// The text after the part, if the text starts with it.
fn after<'a>(text: &'a [u8], part: &[u8]) -> Option<&'a [u8]>
    ensures { IfSome result (λ rest. text.now ≡ part.now ++ rest.now) }
{
    text.strip_prefix(part)
}

fn push_line(lines: &mut Vec<u8>, read: &RouteRow<'_>, state: Validity) -> Result<(), AllocError>
    ensures { OnOk result (lines.new.items
        ≡ lines.old.items ++ (read.now.prefix.now ++ 44 ∷ read.now.origin.now
        ++ 44 ∷ state_text (state_of state) ++ 10 ∷ [])) }
{
    lines.extend_from_slice(read.prefix)?;
    lines.extend_from_slice(",".as_bytes())?;
    lines.extend_from_slice(read.origin)?;
    lines.extend_from_slice(state_end(state).as_bytes())
}

/// The end of a route's line.
fn state_end(state: Validity) -> &'static str
    ensures text { result.now ≡ 44 ∷ state_text (state_of state) ++ 10 ∷ [] }
    ensures short { length result.now ≤ 256 }
{
    match state {
        Validity::Valid => ",Valid\n",
        Validity::Invalid => ",Invalid\n",
        Validity::NotFound => ",NotFound\n",
    }
}

/// Adds the lines of these rows of the text.
fn add_rows<D: Drain>(
    drain: &mut D,
    piece: &mut ArrayVec<u8, PIECE>,
    text: &[u8],
    rows: &[JudgedRow],
) -> Result<(), Failed>
    requires { RowsLieIn text.now rows.now }
    ensures ok { OnOk result (WritesBeginning (D.written drain.old) piece.old.items
        (rows_text text.now rows.now) (D.written drain.new) piece.new.items) }
    ensures err { OnErr result (AppendsBeginning (D.written drain.old) (D.written drain.new)
        (piece.old.items ++ rows_text text.now rows.now)) }
    ensures failed { OnErr result (D.has_failed drain.new ≡ true) }
{
    let mut rest = text;
    for row in rows {
        add_row(drain, piece, rest, row)?;
        rest = &rest[usize::from(row.end)..];
    }
    Ok(())
}

fn add_row<D: Drain>(
    drain: &mut D,
    piece: &mut ArrayVec<u8, PIECE>,
    rest: &[u8],
    row: &JudgedRow,
) -> Result<(), Failed>
    requires order { row.now.start ≤ row.now.end }
    requires inside { row.now.end ≤ length rest.now }
    ensures ok { OnOk result (WritesBeginning (D.written drain.old) piece.old.items
        (row_line rest.now row.now) (D.written drain.new) piece.new.items) }
    ensures err { OnErr result (AppendsBeginning (D.written drain.old) (D.written drain.new)
        (piece.old.items ++ row_line rest.now row.now)) }
    ensures failed { OnErr result (D.has_failed drain.new ≡ true) }
{
    add(
        drain,
        piece,
        &rest[usize::from(row.start)..usize::from(row.end)],
    )?;
    add(drain, piece, state_end(row.state).as_bytes())
}

/// Adds a text to the piece, which is written first if there is no room beside it.
fn add<D: Drain>(drain: &mut D, piece: &mut ArrayVec<u8, PIECE>, text: &[u8]) -> Result<(), Failed>
    requires { length text.now ≤ 256 }
    ensures ok { OnOk result (WritesBeginning (D.written drain.old) piece.old.items text.now
        (D.written drain.new) piece.new.items) }
    ensures err { OnErr result (AppendsBeginning (D.written drain.old) (D.written drain.new)
        (piece.old.items ++ text.now)) }
    ensures failed { OnErr result (D.has_failed drain.new ≡ true) }
{
    if let Ok(()) = piece.try_extend_from_slice(text) {
        return Ok(());
    }
    write_all(drain, piece.as_slice())?;
    piece.clear();
    let _fits = piece.try_extend_from_slice(text);
    Ok(())
}
