//! The queues of a deck in one list.

ghost use Rattle.std.specs.Prelude.{◌≡◌, ◌+◌, ◌<◌, ◌≤◌, ◌++◌, ◌∷◌, [], Some, length, map, slice_get, slice_set, vec_len, vec_capacity, IfErr, IfSome, IfOk, MatchOption, MatchResult, IsSomeAnd, OnOk, OnErr};
ghost use Rattle.csp_deck.specs.Carried.{IsCarried};
ghost use Rattle.csp_deck.specs.Regions.{IsItemOf};
ghost use Rattle.csp_buffer.specs.Memory.{AreAllOf};
ghost use Rattle.csp_lists.specs.Gathered.{left_at, held_at, numbers_back};
ghost use Rattle.csp_lists.specs.PlainDeck.{PlainQueue, AllEmpty, has_items, refilled, holders_among, numbers_among};
ghost use Rattle.csp_lists.specs.Regioned.{shown_push, shown_pop};
ghost use Rattle.csp_log.specs.Pictures.{shown_item};

use crate::fifo::Fifo;
use crate::queue::Queue;
use csp_arena::RegionToken;
use csp_buffer::Buffer;
use csp_deck::{HeldBy, Item, Left, Place, Rule};
use std::alloc::{AllocError, Global};
use std::marker::Model;

/// Queues in order, whose buffers are all of one region. They must be spent by `end` or `gather`.
pub struct Queues {
    token: RegionToken,
    list: Vec<Queue>,
}

impl Model for Queues {
    ghost use Rattle.csp_lists.specs.QueuesParts.{queues_seen, AreOfOne};
    ghost use Rattle.csp_lists.specs.Regioned.{QueuesAt};

    ghost Value = { QueuesAt };

    ghost view = { queues_seen };

    ghost invariant = { AreOfOne };
}

impl Queues {
    /// No queue yet. It takes no memory.
    pub fn none(alloc: Global, region: RegionToken) -> Queues
        ensures { result ≡ record { region = region.name; queues = [] } }
    {
        Queues {
            token: region,
            list: Vec::new(alloc),
        }
    }

    /// Appends the empty queue of a place, which carries this and has room for `room` items. A refusal
    /// changes nothing.
    pub fn add(
        &mut self,
        alloc: Global,
        place: Place,
        rule: Rule,
        room: u16,
    ) -> Result<(), AllocError>
        ensures ok { OnOk result (self.new.queues ≡ self.old.queues ++ record { place = place; rule = rule; room = room; items = [] } ∷ []) }
        ensures err { OnErr result (self.new.queues ≡ self.old.queues) }
        ensures region { self.new.region ≡ self.old.region }
    {
        self.list.reserve_exact(1)?;
        let queue = Queue::open(alloc, self.token.copy(), place, rule, room)?;
        self.list.push_reserved(queue);
        Ok(())
    }

    /// Appends an item to the queue at this position, or hands it back where that is full.
    pub fn push(&mut self, at: usize, item: Item) -> Result<(), Item>
        requires carried { IsSomeAnd (slice_get self.old.queues at) (λ q. IsCarried q.rule (shown_item item)) }
        requires of_it { IsItemOf self.old.region item }
        ensures answer { (q new : PlainQueue) × (slice_get self.old.queues at ≡ Some q) × (self.new.queues ≡ slice_set self.old.queues at new) × MatchResult (shown_push result)
            (λ _. (length q.items < q.room) × (new ≡ refilled q (q.items ++ shown_item item ∷ [])))
            (λ i. (q.room ≤ length q.items) × (new ≡ q) × (i ≡ shown_item item)) }
        ensures back { IfErr result (λ i. i ≡ item) }
        ensures region { self.new.region ≡ self.old.region }
    {
        self.list[at].push(item)
    }

    /// Takes the first item of the queue at this position, if there is one.
    pub fn pop(&mut self, at: usize) -> Option<Item>
        requires { at < length self.old.queues }
        ensures answer { (q new : PlainQueue) × (slice_get self.old.queues at ≡ Some q) × (self.new.queues ≡ slice_set self.old.queues at new) × MatchOption (shown_pop result)
            ((q.items ≡ []) × (new ≡ q))
            (λ i. (q.items ≡ i ∷ new.items) × (new ≡ refilled q new.items) × IsCarried q.rule i) }
        ensures of_it { IfSome result (λ i. IsItemOf self.old.region i) }
        ensures region { self.new.region ≡ self.old.region }
    {
        self.list[at].pop()
    }

    /// Whether the queue at this position has an item.
    pub fn has_items(&self, at: usize) -> bool
        requires { at < length self.now.queues }
        ensures { result ≡ has_items (slice_get self.now.queues at) }
    {
        self.list[at].has_items()
    }

    /// The place of the first queue that holds the buffer of this number.
    pub fn place(&self, number: u16) -> Option<Place>
        ensures { result ≡ slice_get (holders_among self.now.queues number) 0 }
    {
        place_among(self.list.as_slice(), number)
    }

    /// Ends queues that are empty.
    pub fn end(self)
        requires { AllEmpty self.queues }
    {
        let Queues { token: _, list } = self;
        end_all(list);
    }

    /// Takes back what is in the queues and ends them, the first first. It takes no memory.
    pub fn gather(
        self,
        node: u8,
        left: &mut Vec<Left>,
        held: &mut Vec<HeldBy>,
        into: &mut Vec<Buffer>,
    )
        requires left_room { vec_len left.old + length self.queues ≤ vec_capacity left.old }
        requires held_room { vec_len held.old + length self.queues ≤ vec_capacity held.old }
        requires room { vec_len into.old + length (numbers_among self.queues) ≤ vec_capacity into.old }
        ensures left { left.new.items ≡ left.old.items ++ map (left_at node) self.queues }
        ensures held { held.new.items ≡ held.old.items ++ map (held_at node) self.queues }
        ensures buffers { numbers_back into.new.items ≡ numbers_back into.old.items ++ numbers_among self.queues }
        ensures of_it { AreAllOf self.region into.old.items → AreAllOf self.region into.new.items }
        ensures left_len { vec_len left.new ≡ vec_len left.old + length self.queues }
        ensures held_len { vec_len held.new ≡ vec_len held.old + length self.queues }
        ensures left_capacity { vec_capacity left.new ≡ vec_capacity left.old }
        ensures held_capacity { vec_capacity held.new ≡ vec_capacity held.old }
        ensures into_capacity { vec_capacity into.new ≡ vec_capacity into.old }
    {
        let Queues { token: _, list } = self;
        let mut queues = Fifo::full_of(list);
        while let Some(queue) = queues.pop() {
            queue.gather(node, left, held, into);
        }
        queues.end();
    }
}

/// The place of the first of these queues that holds the buffer of this number.
fn place_among(queues: &[Queue], number: u16) -> Option<Place>
    ensures { result ≡ slice_get (holders_among (map (λ q. q.queue) queues.now) number) 0 }
{
    for queue in queues {
        if queue.holds(number) {
            return Some(queue.place());
        }
    }
    None
}

/// Ends empty queues.
fn end_all(queues: Vec<Queue>)
    requires { AllEmpty (map (λ q. q.queue) queues.items) }
{
    let mut queues = Fifo::full_of(queues);
    while let Some(queue) = queues.pop() {
        queue.end();
    }
    queues.end();
}
