//! What is in an item.

ghost use Rattle.std.specs.Prelude.{◌≡◌, None};
ghost use Rattle.csp_app.specs.Making.{packet_in, mark_in, note_in};
ghost use Rattle.csp_deck.specs.Keeping.{with_content};
ghost use Rattle.csp_deck.specs.Regions.{IsItemOf};
ghost use Rattle.csp_log.specs.Pictures.{shown_item};

use csp_deck::Hand;
use csp_log::{Item, Note, UNMARKED};

/// The mark of an item's packet.
pub fn mark_in(item: &Item) -> u8
    ensures { result ≡ mark_in (shown_item item.now) }
{
    match item {
        Item::Packet { mark, .. } => *mark,
        Item::Frame(_) | Item::Note(_) => UNMARKED,
    }
}

/// The note that an item is, if it is one.
pub fn note_in(item: &Item) -> Option<Note>
    ensures { result ≡ note_in (shown_item item.now) }
{
    match item {
        Item::Packet { .. } | Item::Frame(_) => None,
        Item::Note(note) => Some(*note),
    }
}

/// Puts the buffer of an item, if it has one, into its empty place.
pub fn put_packet(place: &mut Hand, item: Item)
    requires empty { place.old.content ≡ None }
    requires of_it { IsItemOf place.old.region item }
    ensures { place.new ≡ with_content place.old (packet_in (shown_item item)) }
{
    match item {
        Item::Packet { mark: _, buffer } => place.put(buffer),
        Item::Frame(_) | Item::Note(_) => {}
    }
}
