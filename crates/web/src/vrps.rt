//! The VRPs of an index, written as it gives them: no list and no body is collected.
ghost use Rattle.std.specs.Prelude.{◌≡◌, ◌++◌, ◌<◌, ◌≤◌, ◌^◌, ◌↔◌, false, true, length, IsTrue, OnOk, OnErr};
ghost use Rattle.std.specs.Option.{SomeIff};
ghost use Rattle.csv_records.specs.Lines.{csv_line, csv_text, payload_header, payload_row, payload_rows};
ghost use Rattle.desk.specs.declared.reply.Reply.TheVariants.{Payloads};
ghost use Rattle.payload.specs.VrpSet as set;
ghost use Rattle.streams.specs.Streams.{AppendsBeginning};
ghost use Rattle.web.specs.ReplyText.{line_text};
ghost use Rattle.web.specs.steps.PieceWriting.{HasAdded};
ghost use Rattle.web.specs.steps.VrpWriting.{items_none, items_then, lines_none, lines_then, HasListed};

use crate::pieces::Pieces;
use crate::reply::items::vrp_item;
use addr::Vrp;
use arrayvec::ArrayString;
use csv_records::{payload_header, push_payload_line};
use payload::{PayloadIndex, Sink, Stop};
use registry::{Query, Request};
use streams::{Drain, Failed};

/// Whether the request is for the VRPs of a day.
pub(crate) fn asks_for_vrps(request: &Request) -> bool
    ensures { IsTrue result ↔ request.now ≡ Request.Query Query.Payloads }
{
    matches!(request, Request::Query(Query::Payloads))
}

/// Writes VRPs as lines of a CSV.
#[derive(Drop)]
struct Lines<'a, D> {
    pieces: Pieces<'a, D>,
}

impl<D: Drain> Sink for Lines<'_, D> {
    ghost took = { λ a vrps b.
        HasAdded D.written D.has_failed a.pieces (payload_rows vrps) b.pieces };

    ghost has_stopped = { λ l. l.pieces.has_failed };

    fn take(&mut self, vrp: &Vrp) -> Result<(), Stop> {
        add_line(&mut self.pieces, vrp);
        if self.pieces.has_failed {
            return Err(Stop);
        }
        Ok(())
    }

    ghost took_none = { λ l. lines_none D.written D.has_failed l.pieces };

    ghost took_then = { λ a b c. lines_then D.written D.has_failed a.pieces b.pieces c.pieces };
}

/// Adds the line of a VRP.
fn add_line<D: Drain>(pieces: &mut Pieces<'_, D>, vrp: &Vrp)
    ensures { HasAdded D.written D.has_failed pieces.old (csv_line (payload_row vrp.now))
        pieces.new }
{
    pieces.make_room(160);
    push_payload_line(&mut pieces.piece, vrp);
}

/// Writes this beginning and the CSV of an index's VRPs, in pieces of some kilobytes.
pub(crate) fn write_csv<I: PayloadIndex, D: Drain>(
    beginning: &str,
    index: &I,
    drain: &mut D,
) -> Result<(), Failed>
    requires { length beginning.now ≤ 256 }
    ensures ok { OnOk result (D.written drain.new ≡ D.written drain.old
        ++ (beginning.now ++ csv_text payload_header payload_row (set.items (I.vrps index.now)))) }
    ensures err { OnErr result (AppendsBeginning (D.written drain.old) (D.written drain.new)
        (beginning.now ++ csv_text payload_header payload_row (set.items (I.vrps index.now)))) }
    ensures failed { OnErr result (D.has_failed drain.new ≡ true) }
{
    let opening = csv_opening(beginning);
    let mut lines = Lines {
        pieces: Pieces::begin(drain, opening.as_str()),
    };
    match index.visit(&mut lines) {
        Ok(()) => lines.pieces.finish(),
        Err(Stop) => Err(Failed),
    }
}

/// This beginning and the first line of the CSV.
fn csv_opening(beginning: &str) -> ArrayString<512>
    requires { length beginning.now ≤ 256 }
    ensures { result.bytes ≡ beginning.now ++ csv_line payload_header }
{
    let mut text = ArrayString::new();
    text.push_str(beginning);
    text.push_str(payload_header());
    text
}

/// Writes VRPs as items of a JSON list.
#[derive(Drop)]
struct Items<'a, D> {
    pieces: Pieces<'a, D>,
    is_first: bool,
}

impl<D: Drain> Sink for Items<'_, D> {
    ghost took = { λ a vrps b.
        HasListed D.written D.has_failed a.pieces a.is_first vrps b.pieces b.is_first };

    ghost has_stopped = { λ i. i.pieces.has_failed };

    fn take(&mut self, vrp: &Vrp) -> Result<(), Stop> {
        self.pieces.add(vrp_item(self.is_first, vrp).as_str());
        self.is_first = false;
        if self.pieces.has_failed {
            return Err(Stop);
        }
        Ok(())
    }

    ghost took_none = { λ i. items_none D.written D.has_failed i.pieces i.is_first };

    ghost took_then = { λ a b c. items_then D.written D.has_failed a.pieces b.pieces c.pieces
        a.is_first b.is_first c.is_first };
}

/// Writes the reply's text that lists an index's VRPs, with its line feed, in pieces of some
/// kilobytes.
pub(crate) fn write_line<I: PayloadIndex, D: Drain>(index: &I, drain: &mut D) -> Result<(), Failed>
    ensures ok { OnOk result (D.written drain.new
        ≡ D.written drain.old ++ line_text (Payloads (set.items (I.vrps index.now)))) }
    ensures err { OnErr result (AppendsBeginning (D.written drain.old) (D.written drain.new)
        (line_text (Payloads (set.items (I.vrps index.now))))) }
    ensures failed { OnErr result (D.has_failed drain.new ≡ true) }
{
    let mut items = Items {
        pieces: Pieces::begin(drain, "{\"payloads\":["),
        is_first: true,
    };
    match index.visit(&mut items) {
        Ok(()) => {
            items.pieces.add("]}\n");
            items.pieces.finish()
        }
        Err(Stop) => Err(Failed),
    }
}
