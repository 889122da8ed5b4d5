//! A node's pool and queues as plain lists.

ghost use Rattle.std.specs.Prelude.{◌≡◌, ◌+◌, ◌<◌, ◌≤◌, ◌++◌, length, map, slice_get, All, vec_len, vec_capacity, IfOk, IfErr, IfSome, IsSome, IsTrue, None};
ghost use Rattle.csp_deck.specs.Carried.{place_for};
ghost use Rattle.csp_deck.specs.Regions.{IsItemOf};
ghost use Rattle.csp_buffer.specs.Memory.{AreAllOf};
ghost use Rattle.csp_lists.specs.Gathered.{pictures};
ghost use Rattle.csp_lists.specs.PlainDeck.{opening_deck, IsIdle, IsLinkRule};
ghost use Rattle.csp_lists.specs.Regioned.{shown_push, shown_pop};
ghost use Rattle.csp_log.specs.Pictures.{shown_item};

use crate::fifo::Fifo;
use crate::opening::open_queues;
use crate::pool::Pool;
use crate::queues::Queues;
use crate::shape::Shape;
use csp_arena::RegionToken;
use csp_base::Prio;
use csp_buffer::Buffer;
use csp_deck::{Carries, Deck, HeldBy, Item, Left, Place, QueueId};
use csp_header::Header;
use std::alloc::{AllocError, Global};
use std::marker::Model;

/// The pool and the queues of a node, as plain bounded lists with exact answers. Contracts see it as
/// those lists, and the region of all its buffers.
///
/// It took all its room when it was opened, and must be spent by `close` or `gather`.
pub struct ListDeck {
    pool: Pool,
    shape: Shape,
    queues: Queues,
}

impl Model for ListDeck {
    ghost use Rattle.csp_lists.specs.PlainDeck.{DeckAt};

    ghost Value = { DeckAt };

    ghost use Rattle.csp_lists.specs.DeckParts.{deck_at, IsInOrder};

    ghost view = { deck_at };

    ghost invariant = { IsInOrder };
}

impl ListDeck {
    /// The lists of a node with `apps` applications and an interface for each of `ifaces`, which says
    /// what its link carries. The pool has just room for `buffers`, which are all of this region, and
    /// starts with them, the first in front; each queue of the inbox has room for `inbox` packets. A
    /// refusal gives the buffers back.
    pub fn open(
        alloc: Global,
        region: RegionToken,
        buffers: Vec<Buffer>,
        inbox: u16,
        apps: u8,
        ifaces: &[Carries],
    ) -> Result<ListDeck, (AllocError, Vec<Buffer>)>
        requires of_it { AreAllOf region.name buffers.items }
        requires links { All IsLinkRule ifaces.now }
        requires few { length ifaces.now < 256 }
        ensures ok { IfOk result (λ d. d ≡ record { region = region.name; deck = opening_deck (pictures buffers.items) inbox apps ifaces.now }) }
        ensures err { IfErr result (λ e. e.1.items ≡ buffers.items) }
    {
        let numbers = match Vec::with_capacity(alloc, buffers.len()) {
            Ok(numbers) => numbers,
            Err(error) => return Err((error, buffers)),
        };
        let shape = Shape {
            ifaces: ifaces.len() as u8,
            apps,
        };
        let mut queues = Queues::none(alloc, region.copy());
        match open_queues(&mut queues, alloc, shape, inbox, ifaces) {
            Ok(()) => Ok(ListDeck {
                pool: Pool::full_of(region, buffers, numbers),
                shape,
                queues,
            }),
            Err(error) => {
                queues.end();
                Err((error, buffers))
            }
        }
    }

    /// Ends the deck, whose queues are empty, and appends the pool's buffers, the first first. There
    /// is room for them.
    pub fn close(self, into: &mut Vec<Buffer>)
        requires idle { IsIdle self.deck }
        requires room { vec_len into.old + length self.deck.pool.items ≤ vec_capacity into.old }
        ensures items { pictures into.new.items ≡ pictures into.old.items ++ self.deck.pool.items }
        ensures of_it { AreAllOf self.region into.old.items → AreAllOf self.region into.new.items }
        ensures capacity { vec_capacity into.new ≡ vec_capacity into.old }
    {
        let ListDeck {
            pool,
            shape: _,
            queues,
        } = self;
        queues.end();
        pour(Fifo::full_of(pool.into_vec()), into);
    }
}

impl ListDeck {
    ghost use Rattle.csp_lists.specs.Gathered.{queued_numbers, left_at, held_at, numbers_back};
    ghost use Rattle.csp_lists.specs.PlainDeck.{holders_of};

    /// Takes back what is in the queues and ends them: for each queue, in the order `Rx`, `Tx`, `Out`,
    /// `Down`, `Up` and inbox, notes for `node` what was left in it and which buffers it held, and
    /// appends its buffers. It takes no memory.
    pub fn gather(
        self,
        node: u8,
        left: &mut Vec<Left>,
        held: &mut Vec<HeldBy>,
        into: &mut Vec<Buffer>,
    ) -> Pool
        requires left_room { vec_len left.old + length self.deck.queues ≤ vec_capacity left.old }
        requires held_room { vec_len held.old + length self.deck.queues ≤ vec_capacity held.old }
        requires room { vec_len into.old + length (queued_numbers self.deck) ≤ vec_capacity into.old }
        ensures left { left.new.items ≡ left.old.items ++ map (left_at node) self.deck.queues }
        ensures held { held.new.items ≡ held.old.items ++ map (held_at node) self.deck.queues }
        ensures buffers { numbers_back into.new.items ≡ numbers_back into.old.items ++ queued_numbers self.deck }
        ensures of_it { AreAllOf self.region into.old.items → AreAllOf self.region into.new.items }
        ensures left_len { vec_len left.new ≡ vec_len left.old + length self.deck.queues }
        ensures held_len { vec_len held.new ≡ vec_len held.old + length self.deck.queues }
        ensures left_capacity { vec_capacity left.new ≡ vec_capacity left.old }
        ensures held_capacity { vec_capacity held.new ≡ vec_capacity held.old }
        ensures into_capacity { vec_capacity into.new ≡ vec_capacity into.old }
        ensures pool { result ≡ record { region = self.region; pool = self.deck.pool } }
    {
        let ListDeck {
            pool,
            shape: _,
            queues,
        } = self;
        queues.gather(node, left, held, into);
        pool
    }

    /// The pool or the queue that holds the buffer of this number: the first of the places that do.
    /// `None` where no place does.
    pub fn place(&self, number: u16) -> Option<Place>
        ensures { result ≡ slice_get (holders_of self.now.deck number) 0 }
    {
        if self.pool.holds(number) {
            Some(Place::Pool)
        } else {
            self.queues.place(number)
        }
    }
}

impl ListDeck {
    ghost use Rattle.csp_lists.specs.PlainDeck.{PushesSo, PopsSo, has_packet, most_urgent, pops_at, rule_of};
    ghost use Rattle.csp_deck.specs.Carried.{IsCarriedIn};

    fn push_to(&mut self, queue: QueueId, item: Item) -> Result<(), Item>
        requires carried { IsCarriedIn (rule_of self.old.deck queue) (shown_item item) }
        requires of_it { IsItemOf self.old.region item }
        ensures so { PushesSo self.old.deck queue (shown_item item) (shown_push result) self.new.deck }
        ensures back { IfErr result (λ i. i ≡ item) }
        ensures region { self.new.region ≡ self.old.region }
    {
        let at = self.shape.position(goes_to(queue, &item));
        self.queues.push(at, item)
    }

    fn pop_from(&mut self, queue: QueueId) -> Option<Item>
        requires { IsSome (rule_of self.old.deck queue) }
        ensures so { PopsSo self.old.deck queue (shown_pop result) self.new.deck }
        ensures of_it { IfSome result (λ i. IsItemOf self.old.region i) }
        ensures region { self.new.region ≡ self.old.region }
    {
        let at = self.shape.position(self.pops_at(queue));
        self.queues.pop(at)
    }

    /// Whether a pop of this queue finds nothing.
    pub fn is_empty_at(&self, queue: QueueId) -> bool
        requires { IsSome (rule_of self.now.deck queue) }
        ensures { IsTrue result → PopsSo self.now.deck queue None self.now.deck }
    {
        let at = self.shape.position(self.pops_at(queue));
        !self.queues.has_items(at)
    }

    /// Where a pop of this queue takes its item, if there is one.
    fn pops_at(&self, queue: QueueId) -> Place
        ensures { result ≡ pops_at self.now.deck queue }
    {
        match queue {
            QueueId::Inbox => Place::Inbox(self.most_urgent()),
            QueueId::Up(_) | QueueId::Down(_) | QueueId::Out(_) | QueueId::Tx(_) | QueueId::Rx(_) =>
                Place::Lane(queue),
        }
    }

    /// The most urgent priority of which the inbox has a packet, and the lowest where it has none.
    fn most_urgent(&self) -> Prio
        ensures { result ≡ most_urgent self.now.deck }
    {
        if self.has_packet(Prio::Critical) {
            Prio::Critical
        } else if self.has_packet(Prio::High) {
            Prio::High
        } else if self.has_packet(Prio::Normal) {
            Prio::Normal
        } else {
            Prio::Low
        }
    }

    /// Whether the inbox has a packet of this priority.
    fn has_packet(&self, prio: Prio) -> bool
        ensures { result ≡ has_packet self.now.deck prio }
    {
        let at = self.shape.position(Place::Inbox(prio));
        self.queues.has_items(at)
    }
}

impl Deck for ListDeck {
    ghost use Rattle.std.specs.Prelude.{◌≡◌, Option};
    ghost use Rattle.csp_lists.specs.PlainDeck.{answer_of, rule_of, IsEmptyAt, IsFullAt};

    ghost rule = { λ d. rule_of d.deck };

    ghost region = { λ d. d.region };

    ghost answers = { λ d o a e. answer_of d.deck o ≡ (a, e.deck) };

    ghost was_empty = { λ d _. IsEmptyAt d.deck };

    ghost was_full = { λ d _. IsFullAt d.deck };

    fn rest(&mut self) {}

    fn take(&mut self) -> Option<Buffer> {
        match self.pool.pop() {
            Some(mut buffer) => {
                buffer.clear();
                Some(buffer)
            }
            None => None,
        }
    }

    fn give(&mut self, buffer: Buffer) -> Result<(), Buffer> {
        self.pool.push(buffer)
    }

    fn push(&mut self, queue: QueueId, item: Item) -> Result<(), Item> {
        self.push_to(queue, item)
    }

    fn pop(&mut self, queue: QueueId) -> Option<Item> {
        self.pop_from(queue)
    }

    fn misses(&mut self, queue: QueueId) -> bool {
        self.is_empty_at(queue)
    }
}

/// Where a push of this item goes.
fn goes_to(queue: QueueId, item: &Item) -> Place
    ensures { result ≡ place_for queue (shown_item item.now) }
{
    match queue {
        QueueId::Inbox => match item {
            Item::Packet { buffer, .. } => Place::Inbox(Header::decode(buffer.header()).prio),
            Item::Frame(_) | Item::Note(_) => Place::Lane(queue),
        },
        QueueId::Up(_) | QueueId::Down(_) | QueueId::Out(_) | QueueId::Tx(_) | QueueId::Rx(_) =>
            Place::Lane(queue),
    }
}

/// Appends the elements of a list, the first first. There is room for them.
fn pour(mut from: Fifo<Buffer>, into: &mut Vec<Buffer>)
    requires { vec_len into.old + length from.items ≤ vec_capacity into.old }
    ensures items { into.new.items ≡ into.old.items ++ from.items }
    ensures capacity { vec_capacity into.new ≡ vec_capacity into.old }
{
    while let Some(buffer) = from.pop() {
        into.push_reserved(buffer);
    }
    from.end();
}
