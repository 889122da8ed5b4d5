//! The lists of all nodes, as the party whose turn it is sees them.

ghost use Rattle.std.specs.Prelude.{◌≡◌, ◌+◌, ◌<◌, ◌≤◌, ◌++◌, [], ◌∷◌, Some, length, map, slice_get, All, ℕ, OnOk, OnErr, IsSomeAnd, max, vec_len, vec_capacity};
ghost use Rattle.std.specs.List.{AllByRecursion};
ghost use Rattle.csp_lists.specs.Gathered.{queued_numbers};
ghost use Rattle.csp_lists.specs.PlainDeck.{opening_deck, holders_of, IsLinkRule};
ghost use Rattle.csp_nodes.specs.Emptied.{emptied_in};
ghost use Rattle.csp_nodes.specs.Fresh.{fresh_buffers};
ghost use Rattle.csp_nodes.specs.Gathering.{all_left, queues_held, queue_count};
ghost use Rattle.csp_nodes.specs.Seeing.{decks_of, regions_of};
ghost use Rattle.csp_nodes.specs.Serving.{at_end, goes};
ghost use Rattle.csp_nodes.specs.Unused.{IsUnused};

use crate::emptied::Emptied;
use crate::laws::keeps_shape;
use crate::node_deck::NodeDeck;
use arrayvec::ArrayVec;
use csp_arena::RegionToken;
use csp_buffer::Buffer;
use csp_deck::{Carries, Deck, End, HeldBy, Item, LINK_ENDS, Left, Place, QueueId};
use csp_record::Who;
use std::alloc::{AllocError, Global};
use std::collections::VecDeque;
use std::marker::Model;

/// The lists of all nodes, the ends of all links, and the party whose turn it is. As a deck it serves
/// that party: over the lists of its node, and a link over those of the nodes at its ends, where the
/// link's lanes have the names of the interfaces there. Contracts see it as a `DecksAt`.
///
/// It must be spent by `gather`, or by `leave`.
pub struct Decks {
    pub(crate) nodes: Vec<NodeDeck>,
    pub(crate) links: Vec<ArrayVec<End, LINK_ENDS>>,
    pub(crate) whose: Who,
}

impl Model for Decks {
    ghost use Rattle.csp_nodes.specs.DecksAt.{DecksAt};
    ghost use Rattle.csp_nodes.specs.Seeing.{decks_at};

    ghost Value = { DecksAt };

    ghost view = { decks_at };
}

impl Decks {
    /// The lists of no node. It takes no memory.
    pub fn new(alloc: Global) -> Decks
        ensures decks { result.decks ≡ [] }
        ensures regions { result.regions ≡ [] }
        ensures links { result.links ≡ [] }
    {
        Decks {
            nodes: Vec::new(alloc),
            links: Vec::new(alloc),
            whose: Who::Router(0),
        }
    }

    /// How many nodes there are.
    pub fn len(&self) -> usize
        ensures count { result ≡ length self.now.decks }
        ensures regions { length self.now.regions ≡ length self.now.decks }
    {
        self.nodes.len()
    }

    /// Appends the lists of a node with so many buffers, which are all in its pool, room for so many
    /// packets in each queue of its inbox, so many applications, and interfaces whose links carry these.
    /// A refusal changes nothing.
    ///
    /// # Errors
    /// Want of memory.
    pub fn add_node(
        &mut self,
        alloc: Global,
        count: u16,
        inbox: u16,
        apps: u8,
        ifaces: &[Carries],
    ) -> Result<(), AllocError>
        requires some { 0 < count }
        requires links { All IsLinkRule ifaces.now }
        requires few { length ifaces.now < 256 }
        ensures decks { OnOk result (self.new.decks ≡ self.old.decks ++ opening_deck (fresh_buffers count) inbox apps ifaces.now ∷ []) }
        ensures regions { OnOk result ((node : ℕ) → node < length self.old.decks → slice_get self.new.regions node ≡ slice_get self.old.regions node) }
        ensures links { self.new.links ≡ self.old.links }
        ensures refused { OnErr result (self.new ≡ self.old) }
    {
        one_more(&mut self.nodes)?;
        let node = NodeDeck::open(alloc, count, inbox, apps, ifaces)?;
        self.nodes.push_reserved(node);
        Ok(())
    }

    /// Appends a link with these ends. A refusal changes nothing.
    ///
    /// # Errors
    /// Want of memory.
    pub fn add_link(&mut self, ends: ArrayVec<End, LINK_ENDS>) -> Result<(), AllocError>
        ensures links { OnOk result (self.new ≡ record self.old { links = self.old.links ++ ends.items ∷ [] }) }
        ensures refused { OnErr result (self.new ≡ self.old) }
    {
        one_more(&mut self.links)?;
        self.links.push_reserved(ends);
        Ok(())
    }

    /// It is this party's turn.
    pub fn serve(&mut self, whose: Who)
        ensures { self.new ≡ record self.old { whose = whose } }
    {
        self.whose = whose;
    }

    /// The token of the region of a node's buffers.
    pub fn token(&self, node: u8) -> RegionToken
        requires { node < length self.now.decks }
        ensures { slice_get self.now.regions node ≡ Some result.name }
    {
        self.nodes[usize::from(node)].token()
    }

    /// The pool or the queue of a node that holds the buffer of this number, if one of them does.
    pub fn place(&self, node: u8, number: u16) -> Option<Place>
        requires { node < length self.now.decks }
        ensures { IsSomeAnd (slice_get self.now.decks node) (λ d. result ≡ slice_get (holders_of d number) 0) }
    {
        self.nodes[usize::from(node)].place(number)
    }

    /// Empties the queues of all nodes: notes what was left in each and which buffers it held, and
    /// appends what is left of each node. It takes no memory.
    pub fn gather(self, emptied: &mut Vec<Emptied>, left: &mut Vec<Left>, held: &mut Vec<HeldBy>)
        requires few { length self.decks ≤ 255 }
        requires fits { All (λ d. length (queued_numbers d) ≤ d.pool.room) self.decks }
        requires emptied_room { vec_len emptied.old + length self.decks ≤ vec_capacity emptied.old }
        requires left_room { vec_len left.old + queue_count self.decks ≤ vec_capacity left.old }
        requires held_room { vec_len held.old + queue_count self.decks ≤ vec_capacity held.old }
        ensures emptied { emptied_in emptied.new.items ≡ emptied_in emptied.old.items ++ map (λ d. record { pool = d.pool; gathered = queued_numbers d }) self.decks }
        ensures regions { map (λ e. e.region) emptied.new.items ≡ map (λ e. e.region) emptied.old.items ++ self.regions }
        ensures left { left.new.items ≡ left.old.items ++ all_left 0 self.decks }
        ensures held { held.new.items ≡ held.old.items ++ queues_held 0 self.decks }
        ensures held_len { vec_len held.new ≡ vec_len held.old + queue_count self.decks }
        ensures held_capacity { vec_capacity held.new ≡ vec_capacity held.old }
    {
        let Decks {
            nodes,
            links: _,
            whose: _,
        } = self;
        empty_queues(nodes, emptied, left, held);
    }

    /// Closes the lists of nodes with which nothing was done. It takes no memory.
    pub fn leave(self)
        requires { AllByRecursion IsUnused self.decks }
    {
        let Decks {
            nodes,
            links: _,
            whose: _,
        } = self;
        leave_nodes(nodes);
    }

    /// Where a queue of the party whose turn it is stands: at which node, and its name there.
    fn goes(&self, queue: QueueId) -> Option<(usize, QueueId)>
        ensures { result ≡ goes self.now.links self.now.whose queue }
    {
        match self.whose {
            Who::Link(link) => match self.links.get(usize::from(link)) {
                Some(ends) => at_end(ends, queue),
                None => None,
            },
            Who::Router(node) | Who::Bridge(node) | Who::Iface(node, _) | Who::App(node, _) => Some(
                (usize::from(node), queue),
            ),
        }
    }
}

impl Decks {
    ghost use Rattle.std.specs.Prelude.{IfSome, IfErr, IsSome, IsTrue, None};
    ghost use Rattle.std.specs.Option.{option_map};
    ghost use Rattle.csp_deck.specs.Carried.{IsCarriedIn};
    ghost use Rattle.csp_deck.specs.Regions.{IsItemOf};
    ghost use Rattle.csp_deck.specs.Step.{IsCleared};
    ghost use Rattle.csp_lists.specs.Regioned.{shown_push, shown_pop};
    ghost use Rattle.csp_log.specs.Pictures.{shown_item};
    ghost use Rattle.csp_nodes.specs.DecksAt.{home_among, rule_at, region_at, TakesSo, GivesSo, PushesSo, PopsSo};
    ghost use Rattle.csp_nodes.specs.Returned.{shown_give};
    ghost use Rattle.csp_log.specs.Who.{node_of};

    /// The place of the node of the party whose turn it is, where it is one of these nodes.
    fn home(&self) -> Option<usize>
        ensures { result ≡ home_among self.now.decks (node_of self.now.whose) }
    {
        match self.whose.node() {
            Some(node) => {
                if usize::from(node) < self.nodes.len() {
                    Some(usize::from(node))
                } else {
                    None
                }
            }
            None => None,
        }
    }

    fn take_from(&mut self) -> Option<Buffer>
        ensures so { TakesSo self.old (option_map (λ b. b.picture) result) self.new }
        ensures cleared { IfSome result (λ b. IsCleared b.picture) }
        ensures of_it { IfSome result (λ b. b.region ≡ region_at self.old) }
    {
        keeps_shape();
        match self.home() {
            Some(node) => self.nodes[node].take(),
            None => None,
        }
    }

    fn give_to(&mut self, buffer: Buffer) -> Result<(), Buffer>
        requires { buffer.region ≡ region_at self.old }
        ensures so { GivesSo self.old buffer.picture (shown_give result) self.new }
        ensures back { IfErr result (λ b. b ≡ buffer) }
    {
        keeps_shape();
        match self.home() {
            Some(node) => self.nodes[node].give(buffer),
            None => Err(buffer),
        }
    }

    fn push_to(&mut self, queue: QueueId, item: Item) -> Result<(), Item>
        requires carried { IsCarriedIn (rule_at self.old queue) (shown_item item) }
        requires of_it { IsItemOf (region_at self.old) item }
        ensures so { PushesSo self.old queue (shown_item item) (shown_push result) self.new }
        ensures back { IfErr result (λ i. i ≡ item) }
    {
        keeps_shape();
        match self.goes(queue) {
            Some((node, name)) => self.nodes[node].push(name, item),
            None => unreachable!(),
        }
    }

    fn pop_from(&mut self, queue: QueueId) -> Option<Item>
        requires { IsSome (rule_at self.old queue) }
        ensures so { PopsSo self.old queue (shown_pop result) self.new }
        ensures of_it { IfSome result (λ i. IsItemOf (region_at self.old) i) }
    {
        keeps_shape();
        match self.goes(queue) {
            Some((node, name)) => self.nodes[node].pop(name),
            None => unreachable!(),
        }
    }

    #[inline(always)]
    fn is_empty_at(&self, queue: QueueId) -> bool
        requires { IsSome (rule_at self.now queue) }
        ensures { IsTrue result → PopsSo self.now queue None self.now }
    {
        keeps_shape();
        match self.goes(queue) {
            Some((node, name)) => self.nodes[node].is_empty_at(name),
            None => unreachable!(),
        }
    }
}

impl Deck for Decks {
    ghost use Rattle.csp_nodes.specs.DecksAt.{rule_at, region_at, Answers, IsEmpty, IsFull};

    ghost rule = { rule_at };

    ghost region = { region_at };

    ghost answers = { Answers };

    ghost was_empty = { λ d _. IsEmpty d };

    ghost was_full = { λ d _. IsFull d };

    fn rest(&mut self) {}

    fn take(&mut self) -> Option<Buffer> {
        self.take_from()
    }

    fn give(&mut self, buffer: Buffer) -> Result<(), Buffer> {
        self.give_to(buffer)
    }

    fn push(&mut self, queue: QueueId, item: Item) -> Result<(), Item> {
        self.push_to(queue, item)
    }

    fn pop(&mut self, queue: QueueId) -> Option<Item> {
        self.pop_from(queue)
    }

    #[inline(always)]
    fn misses(&mut self, queue: QueueId) -> bool {
        self.is_empty_at(queue)
    }
}

/// The lane of a link at one of its ends: the node there, and the name of the lane at that node.
fn at_end(ends: &ArrayVec<End, LINK_ENDS>, queue: QueueId) -> Option<(usize, QueueId)>
    ensures { result ≡ at_end ends.now.items queue }
{
    match queue {
        QueueId::Tx(number) => match ends.get(usize::from(number)) {
            Some(end) => Some((usize::from(end.node), QueueId::Tx(end.iface))),
            None => None,
        },
        QueueId::Rx(number) => match ends.get(usize::from(number)) {
            Some(end) => Some((usize::from(end.node), QueueId::Rx(end.iface))),
            None => None,
        },
        QueueId::Inbox | QueueId::Up(_) | QueueId::Down(_) | QueueId::Out(_) => None,
    }
}

/// Empties the queues of all nodes.
fn empty_queues(
    nodes: Vec<NodeDeck>,
    emptied: &mut Vec<Emptied>,
    left: &mut Vec<Left>,
    held: &mut Vec<HeldBy>,
)
    requires few { length nodes.items ≤ 255 }
    requires fits { All (λ d. length (queued_numbers d) ≤ d.pool.room) (decks_of nodes.items) }
    requires emptied_room { vec_len emptied.old + length nodes.items ≤ vec_capacity emptied.old }
    requires left_room { vec_len left.old + queue_count (decks_of nodes.items) ≤ vec_capacity left.old }
    requires held_room { vec_len held.old + queue_count (decks_of nodes.items) ≤ vec_capacity held.old }
    ensures emptied { emptied_in emptied.new.items ≡ emptied_in emptied.old.items ++ map (λ d. record { pool = d.pool; gathered = queued_numbers d }) (decks_of nodes.items) }
    ensures regions { map (λ e. e.region) emptied.new.items ≡ map (λ e. e.region) emptied.old.items ++ regions_of nodes.items }
    ensures left { left.new.items ≡ left.old.items ++ all_left 0 (decks_of nodes.items) }
    ensures held { held.new.items ≡ held.old.items ++ queues_held 0 (decks_of nodes.items) }
    ensures held_len { vec_len held.new ≡ vec_len held.old + queue_count (decks_of nodes.items) }
    ensures held_capacity { vec_capacity held.new ≡ vec_capacity held.old }
{
    let mut nodes = VecDeque::from_vec(nodes);
    let mut place = 0;
    while let Some(node) = nodes.pop_front() {
        emptied.push_reserved(node.gather(place, left, held));
        place += 1;
    }
    nodes.destroy_empty();
}

/// Closes the lists of nodes with which nothing was done.
fn leave_nodes(nodes: Vec<NodeDeck>)
    requires { AllByRecursion IsUnused (decks_of nodes.items) }
{
    let mut nodes = VecDeque::from_vec(nodes);
    while let Some(node) = nodes.pop_front() {
        node.leave();
    }
    nodes.destroy_empty();
}

/// Takes room for one element more, and for no more. A refusal changes nothing.
fn one_more<T>(list: &mut Vec<T>) -> Result<(), AllocError>
    ensures items { list.new.items ≡ list.old.items }
    ensures len { vec_len list.new ≡ vec_len list.old }
    ensures room { OnOk result (vec_capacity list.new ≡ max (vec_capacity list.old) (vec_len list.old + 1)) }
{
    list.reserve_exact(1)
}
