//! The hub itself.

ghost use Rattle.std.specs.Prelude.{◌≡◌, ◌+◌, ◌-◌, ◌*◌, ◌^◌, ◌<◌, ◌≤◌, ◌++◌, false, Some, None, All, length, map, vec_capacity, IsSome, IfOk, IfSome, MatchOption};
ghost use Rattle.std.specs.List.{list_all, range_with_len};
ghost use Rattle.csp_deck.specs.Circles.{LooksInto};
ghost use Rattle.csp_deck.specs.Step.{CanServe, IsAnswerOf};
ghost use Rattle.csp_hub.specs.Applied.{hub_steps};
ghost use Rattle.csp_hub.specs.Circling.{sources};
ghost use Rattle.csp_hub.specs.PlainHub.{next_end, opening_end};
ghost use Rattle.csp_hub.specs.Planning.{is_idle};
ghost use Rattle.csp_hub.specs.Stocking.{most_of};
ghost use Rattle.csp_link.specs.Fates.{IsFault};
ghost use Rattle.csp_link.specs.Turns.{frame_in};
ghost use Rattle.csp_log.specs.Pictures.{shown_op, shown_answer, shown_item};

use crate::doing::Doing;
use crate::end::HubEnd;
use crate::spread::{have_room, spread};
use csp_buffer::Buffer;
use csp_deck::{Circle, MAX_CIRCLE};
use csp_link::{Fault, MAX_REPEATS};
use csp_log::{Answer, AnswerShown, BoxedFrame, Item, Op, OpShown, QueueId, Spares};
use std::alloc::{AllocError, Global};
use std::marker::Model;

/// The fewest ends of a hub.
pub const MIN_ENDS: u8 = 2;

/// The most ends of a hub.
pub const MAX_ENDS: u8 = 8;

/// A hub between two to eight interfaces, its ends: a party that takes the frames which each end sends to every other, as
/// its plan of faults says. Contracts see it as a record of plain lists and numbers.
#[derive(Drop)]
pub struct Hub {
    ends: Vec<HubEnd>,
    serving: u8,
    doing: Doing,
}

impl Model for Hub {
    ghost use Rattle.csp_hub.specs.PlainHub.{PlainHub};

    ghost Value = { PlainHub };

    ghost use Rattle.csp_hub.specs.Room.{IsHub, plain_hub};

    ghost view = { plain_hub };

    ghost invariant = { λ h. IsHub (plain_hub h) };
}

impl Hub {
    ghost use Rattle.csp_hub.specs.PlainHub.{opening, uses, count};
    ghost use Rattle.csp_hub.specs.Asking.{asks, asked, awaits};
    ghost use Rattle.csp_hub.specs.Circling.{circle};
    ghost use Rattle.csp_hub.specs.Stocking.{needs, stocks};
    ghost use Rattle.csp_hub.specs.Telling.{tells, turned};

    /// A hub with so many ends that has carried nothing yet, with room for `LINK_HOLDS` held frames for each of them. Its
    /// plan says what happens to which frames; the direction of a fault is the end that its frame comes from.
    ///
    /// # Errors
    /// Want of memory.
    pub fn open(alloc: Global, ends: u8, plan: Vec<Fault>) -> Result<Hub, AllocError>
        requires few { MIN_ENDS ≤ ends }
        requires most { ends ≤ MAX_ENDS }
        requires plan { All IsFault plan.items }
        ensures { IfOk result (λ h. h ≡ opening ends plan.items) }
    {
        Ok(Hub {
            ends: open_ends(alloc, ends, plan.as_slice())?,
            serving: 0,
            doing: Doing::Rest,
        })
    }

    /// The operation of this turn.
    pub(crate) fn ask_now(&mut self, now: u64) -> Op
        ensures op { shown_op result ≡ asks self.old now }
        ensures state { self.new ≡ asked self.old now }
        ensures served { CanServe (uses self.old) (shown_op result) }
    {
        let from = usize::from(self.serving);
        if let Some((place, held)) = self.ends[from].take_due(now) {
            self.doing = Doing::Push {
                place,
                due: held.due,
            };
            return Op::Push(QueueId::Rx(self.serving), Item::Frame(held.frame));
        }
        if have_room(self.ends.as_slice(), from) {
            self.doing = Doing::Pop;
            Op::Pop(QueueId::Tx(self.serving))
        } else {
            self.doing = Doing::Wait;
            Op::Nothing
        }
    }

    /// The queue that this turn looks into, where it does no more.
    pub(crate) fn look_now(&mut self, now: u64) -> Option<QueueId>
        ensures looks { MatchOption result (self.new ≡ self.old) (λ q. (asks self.old now ≡ OpShown.Pop q) × (self.new ≡ asked self.old now)) }
        ensures served { IfSome result (λ q. CanServe (uses self.old) (OpShown.Pop q)) }
    {
        let from = usize::from(self.serving);
        if self.ends[from].first_due(now).is_some() || !have_room(self.ends.as_slice(), from) {
            return None;
        }
        self.doing = Doing::Pop;
        Some(QueueId::Tx(self.serving))
    }

    /// The queues that it looks into until it is as it is now, where each is empty: those of all ends, unless at one of
    /// them it has something else to do.
    pub(crate) fn circle_now(&self, now: u64) -> Circle
        ensures circle { result.items ≡ circle self.now now }
        ensures looks { LooksInto hub_steps now self.now result.items self.now }
        ensures served { All (λ q. IsSome (uses self.now q)) result.items }
    {
        let mut circle = Circle::new();
        if matches!(self.doing, Doing::Rest) && all_idle(self.ends.as_slice(), now) {
            push_sources(&mut circle, self.serving, self.ends.len() as u8);
            push_sources(&mut circle, 0, self.serving);
        }
        circle
    }

    /// Ends the turn with the operation's answer.
    pub(crate) fn told_now(&mut self, answer: Answer, now: u64, spares: &mut Spares)
        requires fits { IsAnswerOf (uses self.old) (awaits self.old) (shown_answer answer) }
        requires early { now < 2 ^ 62 }
        requires countable { count self.old < 2 ^ 32 - 1 }
        requires stock { needs self.old ≤ spares.old.boxes }
        ensures state { self.new ≡ tells self.old now (shown_answer answer) }
        ensures stock { spares.new ≡ stocks self.old now (shown_answer answer) spares.old }
        ensures least { spares.old.boxes ≤ spares.new.boxes + needs self.old }
        ensures most { spares.new.boxes ≤ spares.old.boxes + 1 }
    {
        match answer {
            Answer::Full(item) => self.told_full(item, now),
            Answer::Popped(item) => self.told_popped(item, now, spares),
            Answer::Nothing | Answer::Pushed | Answer::Empty => self.told_rest(),
            Answer::Taken(_buffer) | Answer::PoolFull(_buffer) => unreachable!(),
            Answer::NoBuffer | Answer::Given => unreachable!(),
        }
    }

    /// The queue was full: the frame is held again.
    fn told_full(&mut self, item: Item, now: u64)
        requires fits { IsAnswerOf (uses self.old) (awaits self.old) (AnswerShown.Full (shown_item item)) }
        ensures state { self.new ≡ tells self.old now (AnswerShown.Full (shown_item item)) }
    {
        let frame = frame_of(item);
        let Doing::Push { place, due } = self.doing else {
            unreachable!()
        };
        self.ends[usize::from(self.serving)].keep(place, due, frame);
        self.serving = next_end(self.serving, self.ends.len());
        self.doing = Doing::Rest;
    }

    /// A frame was popped.
    fn told_popped(&mut self, item: Item, now: u64, spares: &mut Spares)
        requires fits { IsAnswerOf (uses self.old) (awaits self.old) (AnswerShown.Popped (shown_item item)) }
        requires early { now < 2 ^ 62 }
        requires countable { count self.old < 2 ^ 32 - 1 }
        requires stock { needs self.old ≤ spares.old.boxes }
        ensures state { self.new ≡ tells self.old now (AnswerShown.Popped (shown_item item)) }
        ensures stock { spares.new ≡ stocks self.old now (AnswerShown.Popped (shown_item item)) spares.old }
        ensures least { spares.old.boxes ≤ spares.new.boxes + needs self.old }
        ensures most { spares.new.boxes ≤ spares.old.boxes + 1 }
    {
        let frame = frame_of(item);
        let from = usize::from(self.serving);
        let fate = self.ends[from].send();
        spread(self.ends.as_mut_slice(), from, fate, now, frame, spares);
        self.serving = next_end(self.serving, self.ends.len());
        self.doing = Doing::Rest;
    }

    /// Nothing changes but that the next end is served next.
    pub(crate) fn told_rest(&mut self)
        ensures { self.new ≡ turned self.old }
    {
        self.serving = next_end(self.serving, self.ends.len());
        self.doing = Doing::Rest;
    }

    /// The most boxes that a turn takes: for every other end as many as the plan makes copies of a frame at most.
    pub(crate) fn most_boxes(&self) -> u8
        ensures { result ≡ needs self.now }
    {
        (self.ends.len() as u8 - 1) * (most_copies(self.ends.as_slice()) + 1)
    }

    /// Whether it holds the buffer of this number: a hub holds none.
    pub fn holds(&self, _number: u16) -> bool
        ensures { result ≡ false }
    {
        false
    }

    /// Hands out a buffer that it holds: never one.
    pub fn drain(&mut self) -> Option<Buffer>
        ensures none { result ≡ None }
        ensures rest { self.new ≡ self.old }
    {
        None
    }

    /// Ends the hub, which holds no buffer.
    pub fn end(self) {}
}

/// The ends of a hub that has carried nothing yet, and no room for more.
fn open_ends(alloc: Global, count: u8, plan: &[Fault]) -> Result<Vec<HubEnd>, AllocError>
    requires { All IsFault plan.now }
    ensures ends { IfOk result (λ ends. ends.items ≡ map (opening_end plan.now) (range_with_len 0 count)) }
    ensures room { IfOk result (λ ends. vec_capacity ends ≡ count) }
{
    let mut ends = Vec::with_capacity(alloc, usize::from(count))?;
    for number in 0..count {
        ends.push_reserved(HubEnd::open(alloc, number, plan)?);
    }
    Ok(ends)
}

/// Whether there is room at each of these ends, and nothing is due to go on to it.
fn all_idle(ends: &[HubEnd], now: u64) -> bool
    ensures { result ≡ list_all (is_idle now) ends.now }
{
    ends.iter().all(|end| end.is_idle(now))
}

/// Appends the `Tx` of the ends from the first number up to the other.
fn push_sources(circle: &mut Circle, first: u8, past: u8)
    requires order { first ≤ past }
    requires room { length circle.old.items + (past - first) ≤ MAX_CIRCLE }
    ensures { circle.new.items ≡ circle.old.items ++ sources first (past - first) }
{
    for number in first..past {
        circle.push(QueueId::Tx(number));
    }
}

/// The end that is served after this one.
fn next_end(serving: u8, ends: usize) -> u8
    requires { ends ≤ MAX_ENDS }
    ensures { result ≡ next_end ends serving }
{
    if usize::from(serving) + 1 < ends {
        serving + 1
    } else {
        0
    }
}

/// The most copies that the plan adds to a frame from any of these ends.
fn most_copies(ends: &[HubEnd]) -> u8
    ensures most { result ≡ most_of ends.now }
    ensures few { result ≤ MAX_REPEATS }
{
    let mut most = 0u8;
    for end in ends {
        most = most.max(end.copies());
    }
    most
}

/// The frame in an item of a hub.
fn frame_of(item: Item) -> BoxedFrame
    requires { IsSome (frame_in (shown_item item)) }
    ensures { frame_in (shown_item item) ≡ Some result }
{
    match item {
        Item::Frame(frame) => frame,
        Item::Packet {
            mark: _,
            buffer: _buffer,
        } => unreachable!(),
        Item::Note(_) => unreachable!(),
    }
}
