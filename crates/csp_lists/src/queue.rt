//! A queue of a list deck.

ghost use Rattle.std.specs.Prelude.{◌≡◌, ◌+◌, ◌<◌, ◌≤◌, [], ◌∷◌, ◌++◌, length, vec_len, vec_capacity, nat_lt, IfOk, IfErr, IfSome, MatchOption, MatchResult};
ghost use Rattle.csp_deck.specs.Carried.{IsCarried};
ghost use Rattle.csp_deck.specs.Regions.{IsItemOf};
ghost use Rattle.csp_buffer.specs.Memory.{AreAllOf};
ghost use Rattle.csp_lists.specs.Gathered.{left_at, held_at, queue_named, prio_named, numbers_back};
ghost use Rattle.csp_lists.specs.PlainDeck.{refilled, is_in, numbers_of};
ghost use Rattle.csp_lists.specs.Regioned.{shown_push, shown_pop};
ghost use Rattle.csp_log.specs.Pictures.{shown_item};

use crate::fifo::Fifo;
use crate::gathering::pour_shown;
use crate::numbers::holds;
use csp_arena::RegionToken;
use csp_buffer::Buffer;
use csp_deck::{HeldBy, Item, ItemShown, Left, Place, QueueId, Rule};
use std::alloc::{AllocError, Global};
use std::marker::Model;

/// A bounded list of items, where it stands, and what it carries: each of its items is such a one.
///
/// It has room for pictures of its items, and for the numbers of their buffers, from its opening on.
pub struct Queue {
    token: RegionToken,
    place: Place,
    rule: Rule,
    fifo: Fifo<Item>,
    shown: Vec<ItemShown>,
    numbers: Vec<u16>,
}

impl Model for Queue {
    ghost use Rattle.csp_lists.specs.QueueParts.{queue_seen, HasRoom};
    ghost use Rattle.csp_lists.specs.Regioned.{QueueAt};

    ghost Value = { QueueAt };

    ghost view = { queue_seen };

    ghost invariant = { HasRoom };
}

impl Queue {
    /// The empty queue of a place, which carries this, with buffers of this region, and has room for
    /// `room` items.
    pub fn open(
        alloc: Global,
        region: RegionToken,
        place: Place,
        rule: Rule,
        room: u16,
    ) -> Result<Queue, AllocError>
        ensures { IfOk result (λ q. q ≡ record { region = region.name; queue = record { place = place; rule = rule; room = room; items = [] } }) }
    {
        let shown = Vec::with_capacity(alloc, room as usize)?;
        let numbers = Vec::with_capacity(alloc, room as usize)?;
        let fifo = Fifo::open(alloc, room as usize)?;
        Ok(Queue {
            token: region,
            place,
            rule,
            fifo,
            shown,
            numbers,
        })
    }

    /// Where it stands.
    pub fn place(&self) -> Place
        ensures { result ≡ self.now.queue.place }
    {
        self.place
    }

    /// Appends an item, or hands it back where the queue is full.
    pub fn push(&mut self, item: Item) -> Result<(), Item>
        requires carried { IsCarried self.old.queue.rule (shown_item item) }
        requires of_it { IsItemOf self.old.region item }
        ensures answer { MatchResult (shown_push result)
            (λ _. (length self.old.queue.items < self.old.queue.room) × (self.new.queue ≡ refilled self.old.queue (self.old.queue.items ++ shown_item item ∷ [])))
            (λ i. (self.old.queue.room ≤ length self.old.queue.items) × (self.new.queue ≡ self.old.queue) × (i ≡ shown_item item)) }
        ensures back { IfErr result (λ i. i ≡ item) }
        ensures region { self.new.region ≡ self.old.region }
    {
        self.fifo.push(item)
    }

    /// Takes the first item, if there is one.
    pub fn pop(&mut self) -> Option<Item>
        ensures answer { MatchOption (shown_pop result)
            ((self.old.queue.items ≡ []) × (self.new.queue ≡ self.old.queue))
            (λ i. (self.old.queue.items ≡ i ∷ self.new.queue.items) × (self.new.queue ≡ refilled self.old.queue self.new.queue.items) × IsCarried self.old.queue.rule i) }
        ensures of_it { IfSome result (λ i. IsItemOf self.old.region i) }
        ensures region { self.new.region ≡ self.old.region }
    {
        self.fifo.pop()
    }

    /// Whether it has an item.
    pub fn has_items(&self) -> bool
        ensures { result ≡ nat_lt 0 (length self.now.queue.items) }
    {
        0 < self.fifo.len()
    }

    /// Whether the buffer of this number is in it.
    pub fn holds(&self, number: u16) -> bool
        ensures { result ≡ is_in number self.now.queue }
    {
        holds(&self.fifo, number)
    }

    /// Ends an empty queue.
    pub fn end(self)
        requires { self.queue.items ≡ [] }
    {
        let Queue {
            token: _,
            place: _,
            rule: _,
            fifo,
            shown: _,
            numbers: _,
        } = self;
        fifo.end();
    }

    /// Takes back its items and ends it: notes for `node` what was left in it and which buffers it
    /// held, and appends these, the first first. It takes no memory.
    pub fn gather(
        self,
        node: u8,
        left: &mut Vec<Left>,
        held: &mut Vec<HeldBy>,
        into: &mut Vec<Buffer>,
    )
        requires left_room { vec_len left.old < vec_capacity left.old }
        requires held_room { vec_len held.old < vec_capacity held.old }
        requires room { vec_len into.old + length (numbers_of self.queue.items) ≤ vec_capacity into.old }
        ensures left { left.new.items ≡ left.old.items ++ left_at node self.queue ∷ [] }
        ensures held { held.new.items ≡ held.old.items ++ held_at node self.queue ∷ [] }
        ensures buffers { numbers_back into.new.items ≡ numbers_back into.old.items ++ numbers_of self.queue.items }
        ensures of_it { AreAllOf self.region into.old.items → AreAllOf self.region into.new.items }
        ensures left_len { vec_len left.new ≡ vec_len left.old + 1 }
        ensures held_len { vec_len held.new ≡ vec_len held.old + 1 }
        ensures into_len { vec_len into.new ≡ vec_len into.old + length (numbers_of self.queue.items) }
        ensures left_capacity { vec_capacity left.new ≡ vec_capacity left.old }
        ensures held_capacity { vec_capacity held.new ≡ vec_capacity held.old }
        ensures into_capacity { vec_capacity into.new ≡ vec_capacity into.old }
    {
        let Queue {
            token: _,
            place,
            rule: _,
            fifo,
            mut shown,
            mut numbers,
        } = self;
        pour_shown(fifo, &mut shown, &mut numbers, into);
        left.push_reserved(Left {
            node,
            queue: queue_name(place),
            prio: prio_number_at(place),
            items: shown,
        });
        held.push_reserved(HeldBy {
            node,
            place,
            numbers,
        });
    }
}

/// The name of the queue at a place. A place that is no lane has that of the inbox.
fn queue_name(place: Place) -> QueueId
    ensures { result ≡ queue_named place }
{
    match place {
        Place::Lane(queue) => queue,
        Place::Pool | Place::Inbox(_) | Place::Router | Place::Iface(_) | Place::App(_) => {
            QueueId::Inbox
        }
    }
}

/// The number of its priority. A place outside the inbox has 0.
fn prio_number_at(place: Place) -> u8
    ensures { result ≡ prio_named place }
{
    match place {
        Place::Inbox(prio) => prio.number(),
        Place::Pool | Place::Lane(_) | Place::Router | Place::Iface(_) | Place::App(_) => 0,
    }
}
