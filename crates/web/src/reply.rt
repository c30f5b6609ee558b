//! The texts of replies.
ghost use Rattle.std.specs.Prelude.{◌≡◌, ◌++◌, true, option_map, OnOk, OnErr};
ghost use Rattle.streams.specs.Streams.{AppendsBeginning};
ghost use Rattle.web.specs.ReplyText.{content_text, denied_text, done_text, imported_text, line_text, short_text, shown_text, unavailable_text};

pub(crate) mod items;
mod list;

use crate::pieces::Pieces;
use addr::push_digits;
use arrayvec::ArrayString;
use desk::Reply;
use items::Item;
use list::write_list;
use registry::{Auth, Rule};
use streams::{Drain, Failed, write_all};

/// Writes the reply's text, with its line feed.
pub fn write_reply<D: Drain>(reply: &Reply, drain: &mut D) -> Result<(), Failed>
    ensures ok { OnOk result (D.written drain.new ≡ D.written drain.old ++ line_text reply.now) }
    ensures err { OnErr result
        (AppendsBeginning (D.written drain.old) (D.written drain.new) (line_text reply.now)) }
    ensures failed { OnErr result (D.has_failed drain.new ≡ true) }
{
    match reply {
        Reply::Done(number) => write_all(drain, done_text(*number).as_str().as_bytes()),
        Reply::Imported { made, present } => write_all(
            drain,
            imported_text(*made, *present).as_str().as_bytes(),
        ),
        Reply::Shown(auth) => write_shown(auth, drain),
        Reply::Content(text) => write_content(text.as_str(), drain),
        Reply::Listed(auths) => write_list("{\"listed\":[", auths.as_slice(), drain),
        Reply::Payloads(vrps) => write_list("{\"payloads\":[", vrps.as_slice(), drain),
        Reply::Answers(states) => write_list("{\"answers\":[", states.as_slice(), drain),
        Reply::Report(states) => write_list("{\"report\":[", states.as_slice(), drain),
        Reply::Denied(rule, row) => write_all(drain, denied_text(*rule, *row).as_str().as_bytes()),
        Reply::Unavailable => write_all(drain, unavailable_text().as_str().as_bytes()),
    }
}

/// The text of a reply that says only whether something was done, with its line feed; `None` for
/// the replies that show something.
pub fn short_text(reply: &Reply) -> Option<ArrayString<128>>
    ensures { option_map (λ text. text.bytes) result ≡ short_text reply.now }
{
    match reply {
        Reply::Done(number) => Some(done_text(*number)),
        Reply::Imported { made, present } => Some(imported_text(*made, *present)),
        Reply::Denied(rule, row) => Some(denied_text(*rule, *row)),
        Reply::Unavailable => Some(unavailable_text()),
        _ => None,
    }
}

/// The text for an accepted command, with the number of the grant or authorization that it made.
pub(crate) fn done_text(number: Option<u32>) -> ArrayString<128>
    ensures { result.bytes ≡ done_text number }
{
    let mut text = ArrayString::new();
    match number {
        None => text.push_str("{\"done\":null}\n"),
        Some(number) => {
            text.push_str("{\"done\":");
            push_digits(&mut text, u64::from(number));
            text.push_str("}\n");
        }
    }
    text
}

/// The text for an import: how many authorizations it made, and how many of its rows were already
/// authorized.
pub(crate) fn imported_text(made: u64, present: u64) -> ArrayString<128>
    ensures { result.bytes ≡ imported_text made present }
{
    let mut text = ArrayString::new();
    text.push_str("{\"made\":");
    push_digits(&mut text, made);
    text.push_str(",\"present\":");
    push_digits(&mut text, present);
    text.push_str("}\n");
    text
}

/// Writes the text that shows one authorization.
fn write_shown<D: Drain>(auth: &Auth, drain: &mut D) -> Result<(), Failed>
    ensures ok { OnOk result (D.written drain.new ≡ D.written drain.old ++ shown_text auth.now) }
    ensures err { OnErr result
        (AppendsBeginning (D.written drain.old) (D.written drain.new) (shown_text auth.now)) }
    ensures failed { OnErr result (D.has_failed drain.new ≡ true) }
{
    let mut pieces = Pieces::begin(drain, "{\"shown\":");
    auth.add_to(true, &mut pieces);
    pieces.add("}\n");
    pieces.finish()
}

/// Writes the text for a ROA content, which is given in hex.
fn write_content<D: Drain>(hex: &str, drain: &mut D) -> Result<(), Failed>
    ensures ok { OnOk result (D.written drain.new ≡ D.written drain.old ++ content_text hex.now) }
    ensures err { OnErr result
        (AppendsBeginning (D.written drain.old) (D.written drain.new) (content_text hex.now)) }
    ensures failed { OnErr result (D.has_failed drain.new ≡ true) }
{
    write_all(drain, b"{\"content\":\"")?;
    write_all(drain, hex.as_bytes())?;
    write_all(drain, b"\"}\n")?;
    Ok(())
}

/// The text for a denial: its rule, and the row of an import or the change of a what-if.
pub(crate) fn denied_text(rule: Rule, row: Option<u64>) -> ArrayString<128>
    ensures { result.bytes ≡ denied_text rule row }
{
    let mut text = ArrayString::new();
    text.push_str("{\"denied\":\"");
    text.push_str(rule.as_str());
    match row {
        None => text.push_str("\"}\n"),
        Some(row) => {
            text.push_str("\",\"row\":");
            push_digits(&mut text, row);
            text.push_str("}\n");
        }
    }
    text
}

/// The text for a failure of an allocation or the store.
pub(crate) fn unavailable_text() -> ArrayString<128>
    ensures { result.bytes ≡ unavailable_text }
{
    let mut text = ArrayString::new();
    text.push_str("{\"unavailable\":true}\n");
    text
}
