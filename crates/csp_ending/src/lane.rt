//! The end of a lane.

ghost use Rattle.std.specs.Prelude.{◌≡◌, ◌<◌, ◌≤◌, ◌++◌, [], All, IfOk, length, map};
ghost use Rattle.csp_deck.specs.Regions.{IsItemOf};
ghost use Rattle.csp_ending.specs.Ends.{LaneEnds};
ghost use Rattle.csp_ending.specs.Stores.{TakesBack, HasRoom};
ghost use Rattle.csp_lane.specs.Ends.{IsEndOf};
ghost use Rattle.csp_lists.specs.PlainDeck.{numbers_of};
ghost use Rattle.csp_log.specs.Pictures.{shown_item};

use crate::notes::Notes;
use crate::slate::Slate;
use crate::store::Store;
use csp_deck::{Item, Place, QueueId};
use csp_lane::{Consumer, Lane, Producer};
use std::alloc::{AllocError, Global};
use std::collections::VecDeque;
use std::marker::Model;
use std::sync::Wait;

/// Room for what is left in a lane at its end. Contracts see for how many items. It must be spent by `end_lane`, or by
/// `leave`.
pub struct LaneRoom {
    items: Vec<Item>,
    slate: Slate,
    room: usize,
}

impl Model for LaneRoom {
    ghost use Rattle.std.specs.Prelude.{◌≡◌, ℕ, [], vec_capacity};

    ghost Value = { ℕ };

    ghost view = { λ r. r.room };

    ghost invariant = { λ r. (r.items.items ≡ []) × (vec_capacity r.items ≡ r.room) × (r.slate.items ≡ []) × (r.slate.spare ≡ r.room) };
}

impl LaneRoom {
    /// Room for so many items.
    ///
    /// # Errors
    /// Want of memory.
    pub fn open(alloc: Global, room: usize) -> Result<LaneRoom, AllocError>
        ensures { IfOk result (λ r. r ≡ room) }
    {
        let slate = Slate::open(alloc, room)?;
        let items = Vec::with_capacity(alloc, room)?;
        Ok(LaneRoom { items, slate, room })
    }

    /// Leaves the room unused.
    pub fn leave(self) {
        let LaneRoom {
            items,
            slate: _,
            room: _,
        } = self;
        items.destroy_empty();
    }

    /// Closes a lane through which nothing went, and notes nothing.
    pub fn close<R: Wait>(self, rt: &R, lane: Lane, producer: Producer, consumer: Consumer)
        requires of_it { IsEndOf lane producer × IsEndOf lane consumer }
        requires room { lane.room ≤ self }
        requires unused { producer.items ≡ [] }
    {
        let LaneRoom {
            mut items,
            slate: _,
            room: _,
        } = self;
        lane.close(rt, producer, consumer, &mut items);
        items.destroy_empty();
    }
}

/// Ends a lane of a node with its two ends: what is left in it is noted, and the buffers among that are taken back. It
/// takes no memory.
pub fn end_lane<R: Wait>(
    rt: &R,
    lane: Lane,
    producer: Producer,
    consumer: Consumer,
    room: LaneRoom,
    node: u8,
    queue: QueueId,
    notes: &mut Notes,
    store: &mut Store,
)
    requires of_it { IsEndOf lane producer × IsEndOf lane consumer }
    requires region { producer.region ≡ store.old.region }
    requires room { lane.room ≤ room }
    requires store_room { HasRoom store.old lane.room }
    requires notes_room { 0 < notes.old.queues }
    ensures { LaneEnds lane producer consumer node queue notes.old notes.new store.old store.new }
{
    let LaneRoom {
        mut items,
        mut slate,
        room: _,
    } = room;
    lane.close(rt, producer, consumer, &mut items);
    pour(items, &mut slate, store);
    slate.note(node, queue, 0, Place::Lane(queue), notes);
}

/// Notes these items, and takes the buffers in them back.
fn pour(items: Vec<Item>, slate: &mut Slate, store: &mut Store)
    requires room { length items.items ≤ slate.old.spare }
    requires store_room { HasRoom store.old (length items.items) }
    requires of_it { All (IsItemOf store.old.region) items.items }
    ensures slate { slate.new.items ≡ slate.old.items ++ map shown_item items.items }
    ensures back { TakesBack store.old (numbers_of (map shown_item items.items)) store.new }
{
    let mut items = VecDeque::from_vec(items);
    while let Some(item) = items.pop_front() {
        slate.put(item, store);
    }
    items.destroy_empty();
}
