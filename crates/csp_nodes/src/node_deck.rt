//! The pool and the queues of one node, with room for all its buffers, and their memory.

ghost use Rattle.std.specs.Prelude.{◌≡◌, ◌+◌, ◌<◌, ◌≤◌, ◌++◌, [], length, map, slice_get, vec_len, vec_capacity, All, IfOk};
ghost use Rattle.csp_lists.specs.Gathered.{queued_numbers, left_at, held_at};
ghost use Rattle.csp_lists.specs.PlainDeck.{opening_deck, holders_of, IsLinkRule};
ghost use Rattle.csp_nodes.specs.Fresh.{fresh_buffers};
ghost use Rattle.csp_nodes.specs.Unused.{IsUnused};

use crate::emptied::Emptied;
use csp_arena::RegionToken;
use csp_buffer::{Buffer, Memory};
use csp_deck::{Carries, Deck, HeldBy, Item, Left, Place, QueueId};
use csp_lists::{ListDeck, keeps_shape};
use std::alloc::{AllocError, Global};
use std::marker::Model;

/// A node's pool and queues. Contracts see them as the lists that they are, and the region of the
/// node's buffers.
pub struct NodeDeck {
    pub(crate) deck: ListDeck,
    pub(crate) gathered: Vec<Buffer>,
    pub(crate) memory: Memory,
}

impl Model for NodeDeck {
    ghost use Rattle.std.specs.Prelude.{◌≡◌, [], vec_capacity};
    ghost use Rattle.csp_lists.specs.PlainDeck.{DeckAt};

    ghost Value = { DeckAt };

    ghost view = { λ n. n.deck };

    ghost invariant = { λ n. (n.gathered.items ≡ []) × (vec_capacity n.gathered ≡ n.deck.deck.pool.room) × (n.memory.region ≡ n.deck.region) × (n.memory.count ≡ n.deck.deck.pool.room) };
}

impl NodeDeck {
    /// The lists of a node with so many buffers, which are all in its pool, room for so many packets in
    /// each queue of its inbox, so many applications, and interfaces whose links carry these. Its
    /// queues are empty.
    ///
    /// # Errors
    /// Want of memory.
    pub(crate) fn open(
        alloc: Global,
        count: u16,
        inbox: u16,
        apps: u8,
        ifaces: &[Carries],
    ) -> Result<NodeDeck, AllocError>
        requires some { 0 < count }
        requires links { All IsLinkRule ifaces.now }
        requires few { length ifaces.now < 256 }
        ensures { IfOk result (λ d. d.deck ≡ opening_deck (fresh_buffers count) inbox apps ifaces.now) }
    {
        let gathered = Vec::with_capacity(alloc, usize::from(count))?;
        let (memory, buffers) = match Memory::open(alloc, count) {
            Ok(opened) => opened,
            Err(error) => {
                gathered.destroy_empty();
                return Err(error);
            }
        };
        match ListDeck::open(alloc, memory.token(), buffers, inbox, apps, ifaces) {
            Ok(deck) => Ok(NodeDeck {
                deck,
                gathered,
                memory,
            }),
            Err((error, buffers)) => {
                memory.close(buffers);
                gathered.destroy_empty();
                Err(error)
            }
        }
    }

    /// The token of the region of the node's buffers.
    pub(crate) fn token(&self) -> RegionToken
        ensures { result.name ≡ self.now.region }
    {
        self.memory.token()
    }

    /// The pool or the queue that holds the buffer of this number, if one of them does.
    pub(crate) fn place(&self, number: u16) -> Option<Place>
        ensures { result ≡ slice_get (holders_of self.now.deck number) 0 }
    {
        self.deck.place(number)
    }

    /// Empties the queues, and notes for the node at this place what was left in each and which
    /// buffers it held. It takes no memory.
    pub(crate) fn gather(self, node: u8, left: &mut Vec<Left>, held: &mut Vec<HeldBy>) -> Emptied
        requires left_room { vec_len left.old + length self.deck.queues ≤ vec_capacity left.old }
        requires held_room { vec_len held.old + length self.deck.queues ≤ vec_capacity held.old }
        requires few { length (queued_numbers self.deck) ≤ self.deck.pool.room }
        ensures left { left.new.items ≡ left.old.items ++ map (left_at node) self.deck.queues }
        ensures held { held.new.items ≡ held.old.items ++ map (held_at node) self.deck.queues }
        ensures left_len { vec_len left.new ≡ vec_len left.old + length self.deck.queues }
        ensures held_len { vec_len held.new ≡ vec_len held.old + length self.deck.queues }
        ensures left_capacity { vec_capacity left.new ≡ vec_capacity left.old }
        ensures held_capacity { vec_capacity held.new ≡ vec_capacity held.old }
        ensures emptied { result ≡ record { region = self.region; emptied = record { pool = self.deck.pool; gathered = queued_numbers self.deck } } }
    {
        let NodeDeck {
            deck,
            mut gathered,
            memory,
        } = self;
        let pool = deck.gather(node, left, held, &mut gathered);
        Emptied {
            pool,
            gathered,
            memory,
        }
    }

    /// Closes the lists of a node with which nothing was done. It takes no memory.
    pub(crate) fn leave(self)
        requires { IsUnused self.deck }
    {
        let NodeDeck {
            deck,
            mut gathered,
            memory,
        } = self;
        deck.close(&mut gathered);
        memory.close(gathered);
    }
}

impl NodeDeck {
    ghost use Rattle.std.specs.Prelude.{IfSome, IfErr, IsSome, IsTrue, None};
    ghost use Rattle.std.specs.Option.{option_map};
    ghost use Rattle.csp_deck.specs.Carried.{IsCarriedIn};
    ghost use Rattle.csp_deck.specs.Regions.{IsItemOf};
    ghost use Rattle.csp_deck.specs.Step.{IsCleared};
    ghost use Rattle.csp_lists.specs.PlainDeck.{PushesSo, PopsSo, rule_of};
    ghost use Rattle.csp_lists.specs.Regioned.{shown_push, shown_pop};
    ghost use Rattle.csp_log.specs.Pictures.{shown_item};
    ghost use Rattle.csp_nodes.specs.NodeAt.{TakesAt, GivesAt};
    ghost use Rattle.csp_nodes.specs.Returned.{shown_give};

    /// Takes a buffer from the pool, cleared.
    pub(crate) fn take(&mut self) -> Option<Buffer>
        ensures so { TakesAt self.old.deck (option_map (λ b. b.picture) result) self.new.deck }
        ensures cleared { IfSome result (λ b. IsCleared b.picture) }
        ensures of_it { IfSome result (λ b. b.region ≡ self.old.region) }
        ensures region { self.new.region ≡ self.old.region }
    {
        keeps_shape();
        self.deck.take()
    }

    /// Puts a buffer into the pool, or hands it back where the pool is full.
    pub(crate) fn give(&mut self, buffer: Buffer) -> Result<(), Buffer>
        requires { buffer.region ≡ self.old.region }
        ensures so { GivesAt self.old.deck buffer.picture (shown_give result) self.new.deck }
        ensures back { IfErr result (λ b. b ≡ buffer) }
        ensures region { self.new.region ≡ self.old.region }
    {
        keeps_shape();
        self.deck.give(buffer)
    }

    /// Appends an item to a queue that carries it, or hands it back where the queue is full.
    pub(crate) fn push(&mut self, queue: QueueId, item: Item) -> Result<(), Item>
        requires carried { IsCarriedIn (rule_of self.old.deck queue) (shown_item item) }
        requires of_it { IsItemOf self.old.region item }
        ensures so { PushesSo self.old.deck queue (shown_item item) (shown_push result) self.new.deck }
        ensures back { IfErr result (λ i. i ≡ item) }
        ensures region { self.new.region ≡ self.old.region }
    {
        keeps_shape();
        self.deck.push(queue, item)
    }

    /// Takes the first item of a queue, if there is one.
    pub(crate) fn pop(&mut self, queue: QueueId) -> Option<Item>
        requires { IsSome (rule_of self.old.deck queue) }
        ensures so { PopsSo self.old.deck queue (shown_pop result) self.new.deck }
        ensures of_it { IfSome result (λ i. IsItemOf self.old.region i) }
        ensures region { self.new.region ≡ self.old.region }
    {
        keeps_shape();
        self.deck.pop(queue)
    }

    /// Whether a pop of this queue finds nothing.
    pub(crate) fn is_empty_at(&self, queue: QueueId) -> bool
        requires { IsSome (rule_of self.now.deck queue) }
        ensures { IsTrue result → PopsSo self.now.deck queue None self.now.deck }
    {
        self.deck.is_empty_at(queue)
    }
}
