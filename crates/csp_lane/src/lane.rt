//! A lane.

ghost use Rattle.std.specs.Prelude.{◌≡◌, ◌+◌, ◌<◌, ◌≤◌, List, None, Some, ◌++◌, ⊤, length, max, true, IfOk, IfErr, IfSome, MatchOption, MatchResult, vec_len, vec_capacity};
ghost use Rattle.std.specs.Option.{option_map};
ghost use Rattle.crossbeam_queue.specs.Passes.{view, IsPassOf, IsSamePass, ruled_capacity};
ghost use Rattle.csp_lane.specs.Ends.{PlainLane, IsEndOf, IsFor, Closes, HadNoRoom, HadNothing, fresh_end, knowing, with_item};
ghost use Rattle.csp_lane.specs.Marks.{AreHeeded, reached};
ghost use Rattle.csp_lane.specs.Relays.{HasBoth, Takes, terms_of, with_got};
ghost use Rattle.csp_lane.specs.Seen.{IsHeard};
ghost use Rattle.csp_log.specs.Pictures.{shown_item};
ghost use Rattle.csp_log.specs.declared.item.Item as plain;

use crate::cargo::Cargo;
use crate::rule::{Empties, GetNote, Gets, Port, PutNote, Puts, Queue, Rejoins, heed, part};
use crate::{Consumer, Producer};
use csp_arena::RegionToken;
use csp_deck::{Carries, Item};
use csp_tally::{Tally, TallyName, Witness};
use std::alloc::{AllocError, Global};
use std::marker::{Brand, Model};
use std::mem::ManuallyDrop;
use std::sync::Wait;

/// A queue of items from one party to another, which both may use at the same time. It must be closed,
/// with its two ends.
///
/// A lane may have marks: with each item its sender tells how many items of another lane it had got, and
/// who gets it learns that so many had been put there. Nothing of this takes place at run time.
///
/// Contracts see it as a `PlainLane`.
pub struct Lane {
    queue: Queue,
    room: u16,
    tally: TallyName,
    about: Option<TallyName>,
}

impl Model for Lane {
    ghost use Rattle.std.specs.Prelude.{◌≡◌};
    ghost use Rattle.std.specs.Option.{option_map};
    ghost use Rattle.crossbeam_queue.specs.Passes.{ruled_capacity};
    ghost use Rattle.csp_lane.specs.Ends.{PlainLane};

    ghost Value = { PlainLane };

    ghost view = { λ l. record { name = l.queue.table.shared.table_id; room = l.room; tally = l.tally.name; about = option_map (λ t. t.name) l.about } };

    ghost invariant = { λ l. ruled_capacity l.queue ≡ l.room };
}

impl Lane {
    /// A lane for items of this kind, with room for so many, and its two ends. Buffers that go through it
    /// are of the region that the token names, and its marks tell of the lane with that tally, if any.
    ///
    /// # Errors
    /// Want of memory.
    pub fn open(
        alloc: Global,
        region: &RegionToken,
        capacity: u16,
        carries: Carries,
        about: Option<TallyName>,
    ) -> Result<(Lane, Producer, Consumer), AllocError>
        requires { 0 < capacity }
        ensures room { IfOk result (λ l. l.0.room ≡ capacity) }
        ensures about { IfOk result (λ l. l.0.about ≡ option_map (λ t. t.name) about) }
        ensures ends { IfOk result (λ l. (l.1 ≡ fresh_end l.0 region.now.name carries) × (l.2 ≡ fresh_end l.0 region.now.name carries)) }
    {
        let (queue, mut pass) = Queue::ruled(alloc, usize::from(capacity))?;
        let tally = Tally::open();
        let other = part::<Brand>(&queue, &mut pass, region, carries, capacity, &tally, &about);
        let consumer = Consumer {
            pass: other,
            tally: TallyName::of(&tally),
            heard: None,
        };
        let lane = Lane {
            queue,
            room: capacity,
            tally: TallyName::of(&tally),
            about,
        };
        Ok((lane, Producer { pass, tally }, consumer))
    }

    /// Appends an item that the lane carries, with the last item of that other lane which its sender had
    /// got, where it had got one and the lane has marks. `Err`, with the item, only where the lane was full
    /// at a moment of this call: the puts are then at least the room and the gets that the producer knew.
    pub fn push<R: Wait>(
        &self,
        rt: &R,
        producer: &mut Producer,
        item: Item,
        note: Option<Witness>,
    ) -> Result<(), Item>
        requires of_it { IsEndOf self.now producer.old }
        requires carried { IsFor producer.old.region producer.old.carries item }
        requires noted { IfSome note (λ w. producer.old.about ≡ Some w.name) }
        ensures pushed { MatchResult result (λ _. producer.new ≡ with_item producer.old (shown_item item) (reached note)) (λ _. producer.new ≡ producer.old) }
        ensures full { IfErr result (λ _. HadNoRoom producer.old) }
        ensures back { IfErr result (λ i. i ≡ item) }
    {
        let ticket = producer.tally.ticket();
        let cargo = Cargo { item, ticket, note };
        match self.queue.push_as::<Puts, R>(rt, &mut producer.pass, cargo) {
            Ok(()) => Ok(()),
            Err(cargo) => {
                let Cargo {
                    item,
                    ticket,
                    note: _,
                } = cargo;
                producer.tally.take_back(ticket);
                Err(item)
            }
        }
    }

    /// Takes the first item of a lane without marks. `None` only where the lane was empty at a moment of
    /// this call: the gets are then at least the puts that the consumer knew.
    pub fn pop<R: Wait>(&self, rt: &R, consumer: &mut Consumer) -> Option<Item>
        requires of_it { IsEndOf self.now consumer.old }
        requires plain { consumer.old.about ≡ None }
        ensures popped { MatchOption result (consumer.new ≡ consumer.old) (λ i. consumer.new ≡ with_item consumer.old (shown_item i) 0) }
        ensures empty { MatchOption result (HadNothing consumer.old) (λ _. ⊤) }
        ensures carried { IfSome result (λ i. IsFor consumer.old.region consumer.old.carries i) }
    {
        match draw(rt, &self.queue, &mut consumer.pass, &mut consumer.heard) {
            Some((item, _)) => Some(item),
            None => None,
        }
    }

    /// Takes the first item of a lane whose marks tell of the lane that this other end puts into: at most
    /// what was put there had its sender got. `None` as of `pop`.
    pub fn pop_after<R: Wait>(
        &self,
        rt: &R,
        consumer: &mut Consumer,
        back: &mut Producer,
    ) -> Option<Item>
        requires of_it { IsEndOf self.now consumer.old }
        requires about { consumer.old.about ≡ Some back.old.tally }
        ensures popped { MatchOption result (consumer.new ≡ consumer.old) (λ i. consumer.new ≡ with_item consumer.old (shown_item i) (length back.old.items)) }
        ensures back { back.new ≡ back.old }
        ensures empty { MatchOption result (HadNothing consumer.old) (λ _. ⊤) }
        ensures carried { IfSome result (λ i. IsFor consumer.old.region consumer.old.carries i) }
    {
        match draw(rt, &self.queue, &mut consumer.pass, &mut consumer.heard) {
            Some((item, note)) => {
                if let Some(witness) = note {
                    back.tally.knows(witness);
                }
                heed::<Brand>(&self.queue, &mut consumer.pass, &back.tally);
                Some(item)
            }
            None => None,
        }
    }

    /// Lets each end know how many items went through the other, or more where it knew of more.
    pub fn meet(&self, producer: &mut Producer, consumer: &mut Consumer)
        requires { IsEndOf self.now producer.old × IsEndOf self.now consumer.old }
        ensures producer { producer.new ≡ knowing producer.old (max producer.old.known (length consumer.old.items)) }
        ensures consumer { consumer.new ≡ knowing consumer.old (max consumer.old.known (length producer.old.items)) }
    {
        self.tell_puts(producer, consumer);
        self.tell_gets(producer, consumer);
    }

    /// Lets the consumer know what was put.
    fn tell_puts(&self, producer: &mut Producer, consumer: &mut Consumer)
        requires { IsEndOf self.now producer.old × IsEndOf self.now consumer.old }
        ensures producer { producer.new ≡ producer.old }
        ensures consumer { consumer.new ≡ knowing consumer.old (max consumer.old.known (length producer.old.items)) }
    {
        let note = self.queue.another::<PutNote>(&mut producer.pass);
        self.queue.absorb::<PutNote>(&mut consumer.pass, note);
    }

    /// Lets the producer know what was got.
    fn tell_gets(&self, producer: &mut Producer, consumer: &mut Consumer)
        requires { IsEndOf self.now producer.old × IsEndOf self.now consumer.old }
        ensures producer { producer.new ≡ knowing producer.old (max producer.old.known (length consumer.old.items)) }
        ensures consumer { consumer.new ≡ consumer.old }
    {
        let note = self.queue.another::<GetNote>(&mut consumer.pass);
        self.queue.absorb::<GetNote>(&mut producer.pass, note);
    }

    /// Ends the lane with its two ends, and appends what is left in it, the first first. What was got and
    /// then what is left is what was put; and what marks told had come to pass when they were got.
    pub fn close<R: Wait>(
        self,
        rt: &R,
        producer: Producer,
        consumer: Consumer,
        into: &mut Vec<Item>,
    )
        requires of_it { IsEndOf self producer × IsEndOf self consumer }
        requires room { vec_len into.old + self.room ≤ vec_capacity into.old }
        ensures left { (left : List plain.Item) × (into.new.items ≡ into.old.items ++ left) × Closes producer consumer left }
    {
        let Lane {
            queue,
            room: _,
            tally: _,
            about: _,
        } = self;
        let Producer { mut pass, tally: _ } = producer;
        let Consumer {
            pass: other,
            tally: _,
            heard: _,
        } = consumer;
        queue.absorb::<Rejoins>(&mut pass, other);
        drain(rt, &queue, &mut pass, into);
        let _emptied = unsafe { ManuallyDrop::new_unchecked(queue) };
    }
}

/// Takes the first item, with what its sender tells, and notes that it was got.
fn draw<R: Wait>(
    rt: &R,
    queue: &Queue,
    pass: &mut Port,
    heard: &mut Option<Witness>,
) -> Option<(Item, Option<Witness>)>
    requires pass { IsPassOf queue.now pass.old }
    requires reads { (view pass.old).reads ≡ true }
    ensures same { IsSamePass pass.old pass.new }
    ensures none { MatchOption result ((view pass.new ≡ view pass.old) × (heard.new ≡ heard.old) × ((view pass.old).known_puts ≤ length (view pass.old).got.items)) (λ _. ⊤) }
    ensures got { IfSome result (λ x. view pass.new ≡ with_got (view pass.old) (shown_item x.0) (reached x.1)) }
    ensures heard { IfSome result (λ _. IsHeard (view pass.old).tally (length (view pass.new).got.items) heard.new) }
    ensures carried { IfSome result (λ x. IsFor (view pass.old).token.name (view pass.old).carries x.0) }
    ensures noted { IfSome result (λ x. IfSome x.1 (λ w. (view pass.old).about ≡ Some w.name)) }
{
    match queue.pop_as::<Gets, R>(rt, pass) {
        Some(cargo) => {
            let Cargo { item, ticket, note } = cargo;
            *heard = Some(ticket.used());
            Some((item, note))
        }
        None => None,
    }
}

/// Takes out what is left, by the pass that put and got all.
fn drain<R: Wait>(rt: &R, queue: &Queue, pass: &mut Port, into: &mut Vec<Item>)
    requires pass { IsPassOf queue.now pass.old × HasBoth (view pass.old) }
    requires room { vec_len into.old + ruled_capacity queue.now ≤ vec_capacity into.old }
    ensures taken { Takes (view pass.old) (view pass.new) into.old.items into.new.items }
    ensures all { (view pass.new).put.items ≡ (view pass.new).got.items }
    ensures heeded { AreHeeded (view pass.old).put.marks (view pass.old).bounds }
    ensures few { length (view pass.old).put.items ≤ length (view pass.old).got.items + ruled_capacity queue.now }
{
    let count = queue.len_as::<Empties, R>(rt, pass);
    for _ in 0..count {
        let Some(cargo) = queue.pop_as::<Empties, R>(rt, pass) else {
            unreachable!()
        };
        let Cargo {
            item,
            ticket: _,
            note: _,
        } = cargo;
        into.push_reserved(item);
    }
    queue.learn_as::<Empties>(pass);
}
