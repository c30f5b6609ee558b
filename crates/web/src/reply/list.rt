//! Lists, gathered item by item.
ghost use Rattle.std.specs.Prelude.{◌≡◌, ◌≤◌, ◌++◌, true, length, map, OnOk, OnErr};
ghost use Rattle.streams.specs.Streams.{AppendsBeginning};
ghost use Rattle.web.specs.ReplyText.{comma_joined, list_text};
ghost use Rattle.web.specs.steps.PieceWriting.{HasAdded};

use super::items::Item;
use crate::pieces::Pieces;
use streams::{Drain, Failed};

/// Writes the object whose one member is the list, from `opening` on, with its line feed, in pieces
/// of some kilobytes.
pub(super) fn write_list<T: Item, D: Drain>(
    opening: &str,
    items: &[T],
    drain: &mut D,
) -> Result<(), Failed>
    requires { length opening.now ≤ 4096 }
    ensures ok { OnOk result (D.written drain.new
        ≡ D.written drain.old ++ list_text opening.now (map T.text items.now)) }
    ensures err { OnErr result (AppendsBeginning (D.written drain.old) (D.written drain.new)
        (list_text opening.now (map T.text items.now))) }
    ensures failed { OnErr result (D.has_failed drain.new ≡ true) }
{
    let mut pieces = Pieces::begin(drain, opening);
    add_items(items, &mut pieces);
    pieces.add("]}\n");
    pieces.finish()
}

/// Adds the items, with a comma between each two.
pub(super) fn add_items<T: Item, D: Drain>(items: &[T], pieces: &mut Pieces<'_, D>)
    ensures { HasAdded D.written D.has_failed pieces.old
        (comma_joined (map T.text items.now)) pieces.new }
{
    let mut is_first = true;
    for item in items {
        if pieces.has_failed {
            return;
        }
        item.add_to(is_first, pieces);
        is_first = false;
    }
}
