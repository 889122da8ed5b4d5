//! The end of an inbox.

ghost use Rattle.std.specs.Prelude.{◌≡◌, ◌+◌, ◌*◌, ◌<◌, ◌≤◌, ◌++◌, ◌∷◌, [], All, IfOk, true, ℕ, length, map};
ghost use Rattle.csp_base.specs.declared.priority.Prio.{Prio};
ghost use Rattle.csp_deck.specs.Carried.{IsInboxItem};
ghost use Rattle.csp_deck.specs.Regions.{IsItemOf};
ghost use Rattle.csp_deck.specs.Step.{item_numbers};
ghost use Rattle.csp_ending.specs.Ends.{InboxEnds, with_inbox};
ghost use Rattle.csp_ending.specs.Slates.{HaveRoom, slate_of, of_priority, is_of};
ghost use Rattle.csp_ending.specs.Stores.{TakesBack, HasRoom};
ghost use Rattle.csp_inbox.specs.Passes.{IsPassOf, AllIn, mail_at};
ghost use Rattle.csp_lists.specs.PlainDeck.{numbers_of};
ghost use Rattle.csp_log.specs.Pictures.{shown_item};

use crate::notes::Notes;
use crate::slate::Slate;
use crate::store::Store;
use csp_base::Prio as Priority;
use csp_deck::{Item, Place, QueueId};
use csp_header::Header;
use csp_inbox::{Inbox, InboxPass};
use std::alloc::{AllocError, Global};
use std::collections::VecDeque;
use std::marker::Model;
use std::sync::Wait;

/// A slate for each priority.
#[derive(Drop)]
struct Slates {
    critical: Slate,
    high: Slate,
    normal: Slate,
    low: Slate,
}

impl Model for Slates {
    ghost use Rattle.csp_ending.specs.Slates.{PlainSlates};

    ghost Value = { PlainSlates };

    ghost view = { λ s. record { critical = s.critical; high = s.high; normal = s.normal; low = s.low } };
}

/// Room for what is left in an inbox at its end. Contracts see for how many items of each priority. It must be spent by
/// `end_inbox`, or by `leave`.
pub struct InboxRoom {
    items: Vec<Item>,
    slates: Slates,
    room: usize,
}

impl Model for InboxRoom {
    ghost use Rattle.std.specs.Prelude.{◌≡◌, ◌*◌, ℕ, [], vec_capacity};
    ghost use Rattle.csp_ending.specs.Slates.{HaveJust, AreBlank};

    ghost Value = { ℕ };

    ghost view = { λ r. r.room };

    ghost invariant = { λ r. (r.items.items ≡ []) × (vec_capacity r.items ≡ 4 * r.room) × AreBlank r.slates × HaveJust (4 * r.room) r.slates };
}

impl InboxRoom {
    /// Room for so many items of each priority.
    ///
    /// # Errors
    /// Want of memory.
    pub fn open(alloc: Global, room: u16) -> Result<InboxRoom, AllocError>
        ensures { IfOk result (λ r. r ≡ room) }
    {
        let most = 4 * usize::from(room);
        let slates = Slates {
            critical: Slate::open(alloc, most)?,
            high: Slate::open(alloc, most)?,
            normal: Slate::open(alloc, most)?,
            low: Slate::open(alloc, most)?,
        };
        let items = Vec::with_capacity(alloc, most)?;
        Ok(InboxRoom {
            items,
            slates,
            room: usize::from(room),
        })
    }

    /// Leaves the room unused.
    pub fn leave(self) {
        let InboxRoom {
            items,
            slates: _,
            room: _,
        } = self;
        items.destroy_empty();
    }

    /// Closes an inbox into which nothing was put, with its opening pass, and notes nothing.
    pub fn close<R: Wait>(self, rt: &R, inbox: Inbox, pass: InboxPass)
        requires of_it { IsPassOf inbox pass }
        requires all_in { AllIn pass }
        requires room { inbox.room ≤ self }
        requires unused { (p : Prio) → (mail_at pass p).kept ≡ [] }
    {
        let InboxRoom {
            mut items,
            slates: _,
            room: _,
        } = self;
        inbox.close(rt, pass, &mut items);
        items.destroy_empty();
    }
}

/// Ends the inbox of a node with its opening pass, into which all others were joined: what is left of each priority is
/// noted, and the buffers among that are taken back. It takes no memory.
pub fn end_inbox<R: Wait>(
    rt: &R,
    inbox: Inbox,
    pass: InboxPass,
    room: InboxRoom,
    node: u8,
    notes: &mut Notes,
    store: &mut Store,
)
    requires of_it { IsPassOf inbox pass }
    requires all_in { AllIn pass }
    requires region { pass.role.token.name ≡ store.old.region }
    requires room { inbox.room ≤ room }
    requires store_room { HasRoom store.old (4 * inbox.room) }
    requires notes_room { 4 ≤ notes.old.queues }
    ensures { InboxEnds inbox pass node notes.old notes.new store.old store.new }
{
    let InboxRoom {
        mut items,
        mut slates,
        room: _,
    } = room;
    inbox.close(rt, pass, &mut items);
    sort(items, &mut slates, store);
    slates.note(node, notes);
}

/// Notes these packets by priority, and takes their buffers back.
fn sort(items: Vec<Item>, slates: &mut Slates, store: &mut Store)
    requires room { HaveRoom (length items.items) slates.old }
    requires store_room { HasRoom store.old (length items.items) }
    requires packets { All (λ i. IsInboxItem (shown_item i)) items.items }
    requires of_it { All (IsItemOf store.old.region) items.items }
    ensures slates { (p : Prio) → (slate_of slates.new p).items ≡ (slate_of slates.old p).items ++ of_priority p (map shown_item items.items) }
    ensures back { TakesBack store.old (numbers_of (map shown_item items.items)) store.new }
{
    let mut items = VecDeque::from_vec(items);
    while let Some(item) = items.pop_front() {
        slates.put(item, store);
    }
    items.destroy_empty();
}

impl Slates {
    /// Notes a packet by its priority, and takes its buffer back.
    fn put(&mut self, item: Item, store: &mut Store)
        requires room { HaveRoom 1 self.old }
        requires store_room { HasRoom store.old 1 }
        requires packet { IsInboxItem (shown_item item) }
        requires of_it { IsItemOf store.old.region item }
        ensures slates { (p : Prio) → (slate_of self.new p).items ≡ (slate_of self.old p).items ++ of_priority p (shown_item item ∷ []) }
        ensures room { (n : ℕ) → HaveRoom (n + 1) self.old → HaveRoom n self.new }
        ensures back { TakesBack store.old (item_numbers (shown_item item)) store.new }
    {
        match priority_of(&item) {
            Priority::Critical => self.critical.put(item, store),
            Priority::High => self.high.put(item, store),
            Priority::Normal => self.normal.put(item, store),
            Priority::Low => self.low.put(item, store),
        }
    }

    /// Notes of the four queues of a node's inbox what stands here.
    fn note(self, node: u8, notes: &mut Notes)
        requires room { 4 ≤ notes.old.queues }
        ensures notes { notes.new ≡ with_inbox notes.old node (λ p. (slate_of self p).items) notes.new.queues }
        ensures rooms { notes.old.queues ≡ notes.new.queues + 4 }
    {
        let Slates {
            critical,
            high,
            normal,
            low,
        } = self;
        let inbox = QueueId::Inbox;
        critical.note(node, inbox, 0, Place::Inbox(Priority::Critical), notes);
        high.note(node, inbox, 1, Place::Inbox(Priority::High), notes);
        normal.note(node, inbox, 2, Place::Inbox(Priority::Normal), notes);
        low.note(node, inbox, 3, Place::Inbox(Priority::Low), notes);
    }
}

/// The priority of a packet.
fn priority_of(item: &Item) -> Priority
    requires { IsInboxItem (shown_item item.now) }
    ensures { is_of result (shown_item item.now) ≡ true }
{
    match item {
        Item::Packet { buffer, .. } => Header::decode(buffer.header()).prio,
        Item::Frame(_) | Item::Note(_) => unreachable!(),
    }
}
