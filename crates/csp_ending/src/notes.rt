//! The notes of a record on queues and places.

ghost use Rattle.std.specs.Prelude.{◌≡◌, ◌+◌, ◌<◌, ◌^◌, [], IfOk};
ghost use Rattle.csp_ending.specs.Notes.{with_queue, with_place};
ghost use Rattle.csp_lists.specs.PlainDeck.{numbers_of};

use csp_deck::{HeldBy, ItemShown, Left, Place, QueueId};
use std::alloc::{AllocError, Global};
use std::marker::Model;

/// What was left in each queue and which buffers each place held, with room for all of it from the opening on. Contracts
/// see it as a `PlainNotes`.
#[derive(Drop)]
pub struct Notes {
    pub(crate) left: Vec<Left>,
    pub(crate) held: Vec<HeldBy>,
    /// For how many more queues there is room.
    pub(crate) queues: usize,
    /// For how many more other places there is room.
    pub(crate) others: usize,
}

impl Model for Notes {
    ghost use Rattle.csp_ending.specs.Notes.{PlainNotes};
    ghost use Rattle.csp_ending.specs.Parts.{plain_notes, AreNotes};

    ghost Value = { PlainNotes };

    ghost view = { plain_notes };

    ghost invariant = { AreNotes };
}

impl Notes {
    /// No note yet, and room for those of so many queues and so many other places.
    ///
    /// # Errors
    /// Want of memory.
    pub fn open(alloc: Global, queues: usize, others: usize) -> Result<Notes, AllocError>
        requires { queues + others < 2 ^ 64 }
        ensures { IfOk result (λ notes. notes ≡ record { left = []; held = []; queues = queues; others = others }) }
    {
        let left = Vec::with_capacity(alloc, queues)?;
        let held = Vec::with_capacity(alloc, queues + others)?;
        Ok(Notes {
            left,
            held,
            queues,
            others,
        })
    }

    /// Notes of a queue what was left in it, and the numbers of the buffers among that.
    pub(crate) fn add_queue(
        &mut self,
        node: u8,
        queue: QueueId,
        prio: u8,
        place: Place,
        items: Vec<ItemShown>,
        numbers: Vec<u16>,
    )
        requires room { 0 < self.old.queues }
        requires numbers { numbers.items ≡ numbers_of items.items }
        ensures notes { self.new ≡ with_queue self.old node queue prio place items.items self.new.queues }
        ensures rooms { self.old.queues ≡ self.new.queues + 1 }
    {
        self.queues -= 1;
        self.left.push_reserved(Left {
            node,
            queue,
            prio,
            items,
        });
        self.held.push_reserved(HeldBy {
            node,
            place,
            numbers,
        });
    }

    /// Notes of another place which buffers it held.
    pub fn add_place(&mut self, node: u8, place: Place, numbers: Vec<u16>)
        requires room { 0 < self.old.others }
        ensures notes { self.new ≡ with_place self.old node place numbers.items self.new.others }
        ensures rooms { self.old.others ≡ self.new.others + 1 }
    {
        self.others -= 1;
        self.held.push_reserved(HeldBy {
            node,
            place,
            numbers,
        });
    }

    /// The notes on queues, and those on places.
    pub fn into_lists(self) -> (Vec<Left>, Vec<HeldBy>)
        ensures left { result.0.items ≡ self.left }
        ensures held { result.1.items ≡ self.held }
    {
        let Notes {
            left,
            held,
            queues: _,
            others: _,
        } = self;
        (left, held)
    }
}
