//! What replies list and show, item by item.
ghost use Rattle.std.specs.Prelude.{◌≡◌, ◌++◌, ◌≤◌, ℕ, List, length};
ghost use Rattle.web.specs.ReplyText.{auth_end, auth_start, auth_text, entries_list, entries_text, entry_text, prefix_members, quoted_state, states_text, vrp_text};
ghost use Rattle.web.specs.steps.PieceWriting.{HasAdded};
ghost use Rattle.web.specs.steps.ReplyItems.{auth_item, item_after, list_closing, list_opening, separator};

use super::list::add_items;
use crate::pieces::Pieces;
use addr::{Prefix, RoaPrefix, Vrp, push_digits};
use arrayvec::ArrayString;
use csv_records::day_text;
use payload::Validity;
use registry::Auth;
use streams::Drain;

/// An item of a list.
pub(super) trait Item {
    ghost text: { Self → List ℕ };

    /// Adds the item, after a comma unless it is the first of its list.
    fn add_to<D: Drain>(&self, is_first: bool, pieces: &mut Pieces<'_, D>)
        ensures { HasAdded D.written D.has_failed pieces.old
            (item_after is_first (text self.now)) pieces.new };
}

impl Item for Auth {
    ghost text = { auth_text };

    fn add_to<D: Drain>(&self, is_first: bool, pieces: &mut Pieces<'_, D>) {
        add_auth(is_first, self, self.entries.as_slice(), pieces);
    }
}

impl Item for RoaPrefix {
    ghost text = { entry_text };

    fn add_to<D: Drain>(&self, is_first: bool, pieces: &mut Pieces<'_, D>) {
        let mut text: ArrayString<256> = ArrayString::new();
        text.push_str(separator(is_first));
        text.push_str("{");
        text.push_str(prefix_members(&self.prefix, self.max).as_str());
        text.push_str("}");
        pieces.add(text.as_str());
    }
}

impl Item for Vrp {
    ghost text = { vrp_text };

    fn add_to<D: Drain>(&self, is_first: bool, pieces: &mut Pieces<'_, D>) {
        pieces.add(vrp_item(is_first, self).as_str());
    }
}

impl Item for Validity {
    ghost text = { quoted_state };

    fn add_to<D: Drain>(&self, is_first: bool, pieces: &mut Pieces<'_, D>) {
        let mut text: ArrayString<256> = ArrayString::new();
        text.push_str(separator(is_first));
        text.push_str(state_text(self));
        pieces.add(text.as_str());
    }
}

/// The states of a route now and after changes.
impl Item for (Validity, Validity) {
    ghost text = { states_text };

    fn add_to<D: Drain>(&self, is_first: bool, pieces: &mut Pieces<'_, D>) {
        let (now, after) = self;
        let mut text: ArrayString<256> = ArrayString::new();
        text.push_str(separator(is_first));
        text.push_str("[");
        text.push_str(state_text(now));
        text.push_str(",");
        text.push_str(state_text(after));
        text.push_str("]");
        pieces.add(text.as_str());
    }
}

/// Adds an authorization of these entries, after a comma unless it is the first of its list.
#[tactic(auto, using(crate::proofs::ReplyLemmas::several_entries))]
fn add_auth<D: Drain>(
    is_first: bool,
    auth: &Auth,
    entries: &[RoaPrefix],
    pieces: &mut Pieces<'_, D>,
)
    ensures { HasAdded D.written D.has_failed pieces.old
        (auth_item is_first auth.now (entries_text entries.now)) pieces.new }
{
    match entries {
        [entry] => pieces.add(one_entry_item(is_first, auth, entry).as_str()),
        _ => add_auth_list(is_first, auth, entries, pieces),
    }
}

/// An authorization of this one entry, after a comma unless it is the first of its list.
fn one_entry_item(is_first: bool, auth: &Auth, entry: &RoaPrefix) -> ArrayString<256>
    ensures { result.bytes
        ≡ auth_item is_first auth.now (prefix_members entry.now.prefix entry.now.max) }
{
    let mut text = ArrayString::new();
    text.push_str(auth_start(is_first, auth).as_str());
    text.push_str(prefix_members(&entry.prefix, entry.max).as_str());
    text.push_str(auth_end(auth).as_str());
    text
}

/// Adds an authorization with the list of these entries, one by one, since they are too many for
/// one text of bounded length.
fn add_auth_list<D: Drain>(
    is_first: bool,
    auth: &Auth,
    entries: &[RoaPrefix],
    pieces: &mut Pieces<'_, D>,
)
    ensures { HasAdded D.written D.has_failed pieces.old
        (auth_item is_first auth.now (entries_list entries.now)) pieces.new }
{
    pieces.add(list_opening(is_first, auth).as_str());
    add_items(entries, pieces);
    pieces.add(list_closing(auth).as_str());
}

/// The text before the list of an authorization's entries.
fn list_opening(is_first: bool, auth: &Auth) -> ArrayString<128>
    ensures { result.bytes ≡ list_opening is_first auth.now }
{
    let mut text = ArrayString::new();
    text.push_str(auth_start(is_first, auth).as_str());
    text.push_str("\"entries\":[");
    text
}

/// The text after the list of an authorization's entries.
fn list_closing(auth: &Auth) -> ArrayString<128>
    ensures { result.bytes ≡ list_closing auth.now }
{
    let mut text = ArrayString::new();
    text.push_str("]");
    text.push_str(auth_end(auth).as_str());
    text
}

/// The text before an authorization's entries.
fn auth_start(is_first: bool, auth: &Auth) -> ArrayString<64>
    ensures { result.bytes ≡ item_after is_first (auth_start auth.now) }
{
    let mut text = ArrayString::new();
    text.push_str(separator(is_first));
    text.push_str("{\"number\":");
    push_digits(&mut text, u64::from(auth.number));
    text.push_str(",\"asn\":");
    push_digits(&mut text, u64::from(auth.asn.0));
    text.push_str(",");
    text
}

/// The text after an authorization's entries.
fn auth_end(auth: &Auth) -> ArrayString<64>
    ensures { result.bytes ≡ auth_end auth.now }
{
    let mut text = ArrayString::new();
    text.push_str(",\"from\":\"");
    text.push_str(day_text(auth.from).as_str());
    text.push_str("\",\"until\":\"");
    text.push_str(day_text(auth.until).as_str());
    text.push_str("\"}");
    text
}

/// A VRP, after a comma unless it is the first of its list.
pub(crate) fn vrp_item(is_first: bool, vrp: &Vrp) -> ArrayString<256>
    ensures { result.bytes ≡ item_after is_first (vrp_text vrp.now) }
{
    let mut text = ArrayString::new();
    text.push_str(separator(is_first));
    text.push_str("{\"asn\":");
    push_digits(&mut text, u64::from(vrp.asn.0));
    text.push_str(",");
    text.push_str(prefix_members(&vrp.prefix, vrp.max).as_str());
    text.push_str("}");
    text
}

/// The text before an item.
fn separator(is_first: bool) -> &'static str
    ensures text { result.now ≡ separator is_first }
    ensures bound { length result.now ≤ 1 }
{
    if is_first { "" } else { "," }
}

/// A state, between quotation marks.
fn state_text(validity: &Validity) -> &'static str
    ensures { result.now ≡ quoted_state validity.now }
{
    match validity {
        Validity::Valid => "\"Valid\"",
        Validity::Invalid => "\"Invalid\"",
        Validity::NotFound => "\"NotFound\"",
    }
}

/// The members of a prefix with its maxLength.
fn prefix_members(prefix: &Prefix, max: u8) -> ArrayString<100>
    ensures { result.bytes ≡ prefix_members prefix.now max }
{
    let mut text = ArrayString::new();
    text.push_str("\"prefix\":\"");
    prefix.push_to(&mut text);
    text.push_str("\",\"max\":");
    push_digits(&mut text, u64::from(max));
    text
}
