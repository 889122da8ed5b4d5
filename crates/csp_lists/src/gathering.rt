//! Taking back what is in queues.

ghost use Rattle.std.specs.Prelude.{◌≡◌, ◌+◌, ◌<◌, ◌≤◌, ◌++◌, All, length, map, vec_len, vec_capacity};
ghost use Rattle.csp_arena.specs.Cells.{RegionName};
ghost use Rattle.csp_deck.specs.Regions.{IsItemOf};
ghost use Rattle.csp_deck.specs.Step.{item_numbers};
ghost use Rattle.csp_buffer.specs.Memory.{AreAllOf};
ghost use Rattle.csp_lists.specs.Gathered.{numbers_back};
ghost use Rattle.csp_lists.specs.PlainDeck.{numbers_of};
ghost use Rattle.csp_log.specs.Pictures.{shown_item};

use crate::fifo::Fifo;
use csp_buffer::Buffer;
use csp_deck::{Item, ItemShown};

/// Shows each item of a list, notes the numbers of the buffers in them and appends these, the first
/// first. There is room for all of it.
pub fn pour_shown(
    mut from: Fifo<Item>,
    shown: &mut Vec<ItemShown>,
    numbers: &mut Vec<u16>,
    into: &mut Vec<Buffer>,
)
    requires shown_room { vec_len shown.old + length from.items ≤ vec_capacity shown.old }
    requires numbers_room { vec_len numbers.old + length from.items ≤ vec_capacity numbers.old }
    requires room { vec_len into.old + length (numbers_of (map shown_item from.items)) ≤ vec_capacity into.old }
    ensures shown { shown.new.items ≡ shown.old.items ++ map shown_item from.items }
    ensures numbers { numbers.new.items ≡ numbers.old.items ++ numbers_of (map shown_item from.items) }
    ensures buffers { numbers_back into.new.items ≡ numbers_back into.old.items ++ numbers_of (map shown_item from.items) }
    ensures of_it { (r : RegionName) → All (IsItemOf r) from.items → AreAllOf r into.old.items → AreAllOf r into.new.items }
    ensures len { vec_len into.new ≡ vec_len into.old + length (numbers_of (map shown_item from.items)) }
    ensures capacity { vec_capacity into.new ≡ vec_capacity into.old }
{
    while let Some(item) = from.pop() {
        shown.push_reserved(item.show());
        take_back(item, numbers, into);
    }
    from.end();
}

/// Notes the number of the buffer in an item and appends the buffer, where it has one.
fn take_back(item: Item, numbers: &mut Vec<u16>, into: &mut Vec<Buffer>)
    requires numbers_room { vec_len numbers.old < vec_capacity numbers.old }
    requires room { vec_len into.old + length (item_numbers (shown_item item)) ≤ vec_capacity into.old }
    ensures numbers { numbers.new.items ≡ numbers.old.items ++ item_numbers (shown_item item) }
    ensures buffers { numbers_back into.new.items ≡ numbers_back into.old.items ++ item_numbers (shown_item item) }
    ensures of_it { (r : RegionName) → IsItemOf r item → AreAllOf r into.old.items → AreAllOf r into.new.items }
    ensures few { vec_len numbers.new ≤ vec_len numbers.old + 1 }
    ensures into_len { vec_len into.new ≡ vec_len into.old + length (item_numbers (shown_item item)) }
    ensures numbers_capacity { vec_capacity numbers.new ≡ vec_capacity numbers.old }
    ensures into_capacity { vec_capacity into.new ≡ vec_capacity into.old }
{
    match item {
        Item::Packet { mark: _, buffer } => {
            numbers.push_reserved(buffer.number());
            into.push_reserved(buffer);
        }
        Item::Frame(_frame) => {}
        Item::Note(_note) => {}
    }
}
