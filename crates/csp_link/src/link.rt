//! The link itself.

ghost use Rattle.std.specs.Prelude.{◌≡◌, ◌+◌, ◌-◌, ◌^◌, ◌<◌, ◌≤◌, false, Some, None, All, IsSome, IfOk, IfSome, MatchOption};
ghost use Rattle.csp_deck.specs.Step.{CanServe, IsAnswerOf};
ghost use Rattle.csp_link.specs.Fates.{IsFault};
ghost use Rattle.csp_link.specs.Turns.{frame_in};
ghost use Rattle.csp_log.specs.Pictures.{shown_op, shown_answer, shown_item};

use crate::direction::Direction;
use crate::doing::Doing;
use crate::{Fault, Way};
use csp_buffer::Buffer;
use csp_deck::Circle;
use csp_log::{Answer, AnswerShown, BoxedFrame, Item, LinkKind, Op, OpShown, QueueId, Spares};
use std::alloc::{AllocError, Global};
use std::marker::Model;

/// A link between two ends: a party that takes the frames which each end sends to the other, as its
/// plan of faults says. Contracts see it as a record of plain lists and numbers.
#[derive(Drop)]
pub struct Link {
    kind: LinkKind,
    forth: Direction,
    back: Direction,
    way: Way,
    doing: Doing,
}

impl Model for Link {
    ghost use Rattle.csp_link.specs.PlainLink.{PlainLink};

    ghost Value = { PlainLink };

    ghost use Rattle.csp_link.specs.Room.{IsLink, plain_link};

    ghost view = { plain_link };

    ghost invariant = { λ l. IsLink (plain_link l) };
}

impl Link {
    ghost use Rattle.csp_link.specs.PlainLink.{opening, uses, count};
    ghost use Rattle.csp_link.specs.Circling.{circle};
    ghost use Rattle.csp_link.specs.Stocking.{needs, stocks};
    ghost use Rattle.csp_link.specs.Turns.{asks, asked, awaits, tells, turned};

    /// A link of this kind that has carried nothing yet, with room for `LINK_HOLDS` held frames in each
    /// direction. Its plan says what happens to which frames.
    ///
    /// # Errors
    /// Want of memory.
    pub fn open(alloc: Global, kind: LinkKind, plan: Vec<Fault>) -> Result<Link, AllocError>
        requires { All IsFault plan.items }
        ensures { IfOk result (λ l. l ≡ opening kind plan.items) }
    {
        Ok(Link {
            kind,
            forth: Direction::open(alloc, plan.as_slice(), Way::Forth)?,
            back: Direction::open(alloc, plan.as_slice(), Way::Back)?,
            way: Way::Forth,
            doing: Doing::Rest,
        })
    }

    /// The operation of this turn.
    pub(crate) fn ask_now(&mut self, now: u64) -> Op
        ensures op { shown_op result ≡ asks self.old now }
        ensures state { self.new ≡ asked self.old now }
        ensures served { CanServe (uses self.old) (shown_op result) }
    {
        let (op, doing) = match self.way {
            Way::Forth => self.forth.ask(Way::Forth, now),
            Way::Back => self.back.ask(Way::Back, now),
        };
        self.doing = doing;
        op
    }

    /// The queue that this turn looks into, where it does no more.
    #[tactic(auto, using(crate::proofs::Due::looks_pop))]
    pub(crate) fn look_now(&mut self, now: u64) -> Option<QueueId>
        ensures looks { MatchOption result (self.new ≡ self.old) (λ q. (asks self.old now ≡ OpShown.Pop q) × (self.new ≡ asked self.old now)) }
        ensures served { IfSome result (λ q. CanServe (uses self.old) (OpShown.Pop q)) }
    {
        let looks = match self.way {
            Way::Forth => self.forth.looks(now),
            Way::Back => self.back.looks(now),
        };
        if !looks {
            return None;
        }
        self.doing = Doing::Pop;
        Some(self.way.from_queue())
    }

    /// The queues that it looks into until it is as it is now, where each is empty: those of its two directions,
    /// unless one of them has something else to do.
    pub(crate) fn circle_now(&self, now: u64) -> Circle
        ensures { result.items ≡ circle self.now now }
    {
        let mut circle = Circle::new();
        if matches!(self.doing, Doing::Rest) && self.forth.looks(now) && self.back.looks(now) {
            circle.push(self.way.from_queue());
            circle.push(self.way.other().from_queue());
        }
        circle
    }

    /// Ends the turn with the operation's answer.
    pub(crate) fn told_now(&mut self, answer: Answer, now: u64, spares: &mut Spares)
        requires fits { IsAnswerOf (uses self.old) (awaits self.old) (shown_answer answer) }
        requires early { now < 2 ^ 62 }
        requires countable { count self.old < 2 ^ 32 - 1 }
        requires stock { needs self.old ≤ spares.old.boxes }
        ensures state { self.new ≡ tells self.old now (shown_answer answer) }
        ensures stock { spares.new ≡ stocks self.old now (shown_answer answer) spares.old }
        ensures least { spares.old.boxes ≤ spares.new.boxes + needs self.old }
        ensures most { spares.new.boxes ≤ spares.old.boxes + 1 }
    {
        match answer {
            Answer::Full(item) => self.told_full(item, now),
            Answer::Popped(item) => self.told_popped(item, now, spares),
            Answer::Nothing | Answer::Pushed | Answer::Empty => self.told_rest(),
            Answer::Taken(_buffer) | Answer::PoolFull(_buffer) => unreachable!(),
            Answer::NoBuffer | Answer::Given => unreachable!(),
        }
    }

    /// The queue was full: the frame is held again.
    fn told_full(&mut self, item: Item, now: u64)
        requires fits { IsAnswerOf (uses self.old) (awaits self.old) (AnswerShown.Full (shown_item item)) }
        ensures state { self.new ≡ tells self.old now (AnswerShown.Full (shown_item item)) }
    {
        let frame = frame_of(item);
        let Doing::Push { place, due } = self.doing else {
            unreachable!()
        };
        match self.way {
            Way::Forth => self.forth.keep(place, due, frame),
            Way::Back => self.back.keep(place, due, frame),
        }
        self.way = self.way.other();
        self.doing = Doing::Rest;
    }

    /// A frame was popped.
    fn told_popped(&mut self, item: Item, now: u64, spares: &mut Spares)
        requires fits { IsAnswerOf (uses self.old) (awaits self.old) (AnswerShown.Popped (shown_item item)) }
        requires early { now < 2 ^ 62 }
        requires countable { count self.old < 2 ^ 32 - 1 }
        requires stock { needs self.old ≤ spares.old.boxes }
        ensures state { self.new ≡ tells self.old now (AnswerShown.Popped (shown_item item)) }
        ensures stock { spares.new ≡ stocks self.old now (AnswerShown.Popped (shown_item item)) spares.old }
        ensures least { spares.old.boxes ≤ spares.new.boxes + needs self.old }
        ensures most { spares.new.boxes ≤ spares.old.boxes + 1 }
    {
        let frame = frame_of(item);
        match self.way {
            Way::Forth => self.forth.take(frame, now, spares),
            Way::Back => self.back.take(frame, now, spares),
        }
        self.way = self.way.other();
        self.doing = Doing::Rest;
    }

    /// Nothing changes but that the other direction is next.
    pub(crate) fn told_rest(&mut self)
        ensures { self.new ≡ turned self.old }
    {
        self.way = self.way.other();
        self.doing = Doing::Rest;
    }

    /// The most copies that its plan adds to a frame, which is the most boxes that a turn takes.
    pub(crate) fn copies(&self) -> u8
        ensures { result ≡ needs self.now }
    {
        self.forth.copies().max(self.back.copies())
    }

    /// Whether it holds the buffer of this number: a link holds none.
    pub fn holds(&self, _number: u16) -> bool
        ensures { result ≡ false }
    {
        false
    }

    /// Hands out a buffer that it holds: never one.
    pub fn drain(&mut self) -> Option<Buffer>
        ensures none { result ≡ None }
        ensures rest { self.new ≡ self.old }
    {
        None
    }

    /// Ends the link, which holds no buffer.
    pub fn end(self) {}
}

/// The frame in an item of a link.
fn frame_of(item: Item) -> BoxedFrame
    requires { IsSome (frame_in (shown_item item)) }
    ensures { frame_in (shown_item item) ≡ Some result }
{
    match item {
        Item::Frame(frame) => frame,
        Item::Packet {
            mark: _,
            buffer: _buffer,
        } => unreachable!(),
        Item::Note(_) => unreachable!(),
    }
}
