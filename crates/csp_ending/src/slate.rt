//! What is noted of one queue.

ghost use Rattle.std.specs.Prelude.{◌≡◌, ◌+◌, ◌<◌, ◌≤◌, ◌++◌, ◌∷◌, [], IfOk, vec_len, vec_capacity};
ghost use Rattle.csp_deck.specs.Regions.{IsItemOf};
ghost use Rattle.csp_deck.specs.Step.{item_numbers};
ghost use Rattle.csp_ending.specs.Notes.{with_queue};
ghost use Rattle.csp_ending.specs.Stores.{TakesBack, HasRoom};
ghost use Rattle.csp_log.specs.Pictures.{shown_item};

use crate::notes::Notes;
use crate::store::Store;
use csp_deck::{Item, ItemShown, Place, QueueId};
use std::alloc::{AllocError, Global};
use std::marker::Model;

/// Room for the pictures of what was left in a queue, and for the numbers of the buffers among that. Contracts see it as a
/// `PlainSlate`.
#[derive(Drop)]
pub struct Slate {
    pub(crate) shown: Vec<ItemShown>,
    pub(crate) numbers: Vec<u16>,
    /// For how many more items there is room.
    pub(crate) spare: usize,
}

impl Model for Slate {
    ghost use Rattle.csp_ending.specs.Parts.{plain_slate, IsSlate};
    ghost use Rattle.csp_ending.specs.Slates.{PlainSlate};

    ghost Value = { PlainSlate };

    ghost view = { plain_slate };

    ghost invariant = { IsSlate };
}

impl Slate {
    /// Room for so many items.
    ///
    /// # Errors
    /// Want of memory.
    pub fn open(alloc: Global, room: usize) -> Result<Slate, AllocError>
        ensures { IfOk result (λ slate. slate ≡ record { items = []; spare = room }) }
    {
        let shown = Vec::with_capacity(alloc, room)?;
        let numbers = Vec::with_capacity(alloc, room)?;
        Ok(Slate {
            shown,
            numbers,
            spare: room,
        })
    }

    /// Notes an item, and takes the buffer in it back, where it has one.
    pub(crate) fn put(&mut self, item: Item, store: &mut Store)
        requires room { 0 < self.old.spare }
        requires store_room { HasRoom store.old 1 }
        requires of_it { IsItemOf store.old.region item }
        ensures items { self.new.items ≡ self.old.items ++ shown_item item ∷ [] }
        ensures spare { self.old.spare ≡ self.new.spare + 1 }
        ensures back { TakesBack store.old (item_numbers (shown_item item)) store.new }
    {
        self.spare -= 1;
        self.shown.push_reserved(item.show());
        take_back(item, &mut self.numbers, store);
    }

    /// Notes of a queue what stands here.
    pub(crate) fn note(self, node: u8, queue: QueueId, prio: u8, place: Place, notes: &mut Notes)
        requires room { 0 < notes.old.queues }
        ensures notes { notes.new ≡ with_queue notes.old node queue prio place self.items notes.new.queues }
        ensures rooms { notes.old.queues ≡ notes.new.queues + 1 }
    {
        let Slate {
            shown,
            numbers,
            spare: _,
        } = self;
        notes.add_queue(node, queue, prio, place, shown, numbers);
    }
}

/// Notes the number of the buffer in an item and takes the buffer back, where it has one.
fn take_back(item: Item, numbers: &mut Vec<u16>, store: &mut Store)
    requires numbers_room { vec_len numbers.old < vec_capacity numbers.old }
    requires store_room { HasRoom store.old 1 }
    requires of_it { IsItemOf store.old.region item }
    ensures numbers { numbers.new.items ≡ numbers.old.items ++ item_numbers (shown_item item) }
    ensures few { vec_len numbers.new ≤ vec_len numbers.old + 1 }
    ensures capacity { vec_capacity numbers.new ≡ vec_capacity numbers.old }
    ensures back { TakesBack store.old (item_numbers (shown_item item)) store.new }
{
    match item {
        Item::Packet { mark: _, buffer } => {
            numbers.push_reserved(buffer.number());
            store.take(buffer);
        }
        Item::Frame(_frame) => {}
        Item::Note(_note) => {}
    }
}
