//! What an application knows of its slots.

ghost use Rattle.std.specs.Prelude.{◌≡◌, ◌+◌, ◌-◌, ◌^◌, ◌<◌, ◌≤◌, [], ◌∷◌, length, sum_by};
ghost use Rattle.csp_app.specs.Collecting.{collectors_after};
ghost use Rattle.csp_app.specs.Slots.{fresh, slot_at, slots_after, noted, took, used_on, slots_count};
ghost use Rattle.csp_deck.specs.Carried.{IsDownItem};
ghost use Rattle.std.specs.Option.{option_to_list};
ghost use Rattle.csp_log.specs.Pictures.{shown_item};

use crate::collecting::{note_end, note_piece};
use csp_base::SLOTS;
use csp_log::{Event, Events, Item, ItemShown, Note};
use csp_sfp::Collector;

/// One slot for a connection.
#[derive(Clone, Copy)]
pub struct KnownSlot {
    /// How many of its connections were closed.
    pub ordinal: u32,
    /// How many packets were taken on it that no `recv` has used. On a slot that collects, how many blobs that no
    /// `collect` has used.
    pub unused: u32,
    /// Whether its present connection is down.
    pub down: bool,
}

/// A slot before anything came for it.
pub fn fresh_slot() -> KnownSlot
    ensures { result ≡ fresh }
{
    KnownSlot {
        ordinal: 0,
        unused: 0,
        down: false,
    }
}

/// An item was popped. Reports what there is to report of it.
pub fn note_item(
    slots: &mut [KnownSlot],
    collectors: &mut [Option<Collector>],
    item: &Item,
    report: &mut Events,
)
    requires slots { length slots.old ≡ SLOTS }
    requires collectors { length collectors.old ≡ SLOTS }
    requires item { IsDownItem (shown_item item.now) }
    requires room { slots_count slots.old < 2 ^ 32 - 1 }
    requires unwritten { report.old.items ≡ [] }
    ensures slots { slots.new ≡ slots_after (shown_item item.now) collectors.old slots.old }
    ensures collectors { collectors.new ≡ collectors_after (shown_item item.now) collectors.old }
    ensures events { report.new.items ≡ took (shown_item item.now) collectors.old slots.old }
{
    match item {
        Item::Packet { mark, buffer } => {
            let slot = &mut slots[*mark as usize];
            let ordinal = slot.ordinal;
            report.push(Event::Took {
                slot: *mark,
                ordinal,
            });
            let piece = note_piece(collectors, *mark, ordinal, buffer.payload());
            slot.unused += piece.count;
            if let Some(event) = piece.event {
                report.push(event);
            }
        }
        Item::Note(note) => {
            note_note(slots, note);
            note_end(collectors, note);
        }
        Item::Frame(_) => {}
    }
}

/// A note was popped.
fn note_note(slots: &mut [KnownSlot], note: &Note)
    requires slots { length slots.old ≡ SLOTS }
    requires item { IsDownItem (ItemShown.Note note.now) }
    requires room { slots_count slots.old < 2 ^ 32 - 1 }
    ensures { slots.new ≡ noted note.now slots.old }
{
    match note {
        Note::Closed { slot } => {
            let slot = &mut slots[*slot as usize];
            slot.ordinal += 1;
            slot.down = false;
        }
        Note::Down { slot } => slots[*slot as usize].down = true,
        Note::Bind { .. }
        | Note::Connect { .. }
        | Note::Close { .. }
        | Note::Bound
        | Note::Connected { .. }
        | Note::Refused { .. } => {}
    }
}

/// A `recv` uses so many packets of a slot, which has them.
pub fn use_packets(slots: &mut [KnownSlot], slot: u8, count: u32)
    requires slot { slot < length slots.old }
    requires enough { count ≤ (slot_at slots.old slot).unused }
    ensures { slots.new ≡ used_on slot count slots.old }
{
    slots[slot as usize].unused -= count;
}
