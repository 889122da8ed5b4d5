//! How a party uses its ends of lanes.

ghost use Rattle.std.specs.Prelude.{◌≡◌, ◌<◌, ℕ, ⊤, true, false, not, Some, None, length, slice_get, slice_set, IfErr, IfSome, MatchOption, MatchResult};
ghost use Rattle.std.specs.List.{AllByRecursion};
ghost use Rattle.std.specs.Option.{option_map};
ghost use Rattle.csp_consistent.specs.Reading.{is_queue};
ghost use Rattle.csp_deck.specs.Carried.{IsCarriedIn};
ghost use Rattle.csp_deck.specs.Regions.{IsItemOf};
ghost use Rattle.csp_ends.specs.Causes.{HasNothingAt, HasNoRoomAt};
ghost use Rattle.csp_ends.specs.Ends.{PlainSide, AreOf, AreEnds, IsSideOf, region_of, rule_of, side_named};
ghost use Rattle.csp_ends.specs.Moves.{side_through};
ghost use Rattle.csp_ends.specs.Serving.{Serves};
ghost use Rattle.csp_ends.specs.Sides.{IsBacked, back_of, beside, is_back};
ghost use Rattle.csp_lane.specs.Ends.{IsFor, HadNoRoom, HadNothing};
ghost use Rattle.csp_lane.specs.Marks.{reached};
ghost use Rattle.csp_log.specs.Pictures.{shown_item};
ghost use Rattle.csp_log.specs.declared.shown.AnswerShown.{AnswerShown};
ghost use Rattle.csp_log.specs.declared.shown.OpShown.{OpShown};

use crate::ends::{Ends, LaneEnd, Side};
use crate::queues::Queues;
use csp_deck::{Item, QueueId};
use csp_tally::Witness;
use std::sync::Wait;

impl Side {
    /// Whether it is called by this name.
    pub(crate) fn is_called(&self, queue: QueueId) -> bool
        ensures { result ≡ is_queue queue self.now.queue }
    {
        match (queue, self.queue) {
            (QueueId::Inbox, QueueId::Inbox) => true,
            (QueueId::Up(number), QueueId::Up(k))
            | (QueueId::Down(number), QueueId::Down(k))
            | (QueueId::Out(number), QueueId::Out(k))
            | (QueueId::Tx(number), QueueId::Tx(k))
            | (QueueId::Rx(number), QueueId::Rx(k)) => k == number,
            _ => false,
        }
    }

    /// Whether it is the end that puts.
    fn is_putting(&self) -> bool
        ensures { result ≡ self.now.puts }
    {
        match &self.end {
            LaneEnd::Puts(_) => true,
            LaneEnd::Gets(_) => false,
        }
    }

    /// Whether it is of the lane that the marks of this other end tell of, and goes the other way.
    fn is_back_of(&self, side: &Side) -> bool
        ensures { result ≡ is_back side.now self.now }
    {
        match side.queue {
            QueueId::Up(number) => self.is_called(QueueId::Down(number))
                && self.is_putting() != side.is_putting(),
            QueueId::Inbox | QueueId::Down(_) | QueueId::Out(_) | QueueId::Tx(_) | QueueId::Rx(_) =>
                false,
        }
    }

    /// What was got last here, as an item of another lane may tell of it: nothing where this is the end that puts.
    fn heard(&mut self) -> Option<Witness>
        ensures same { self.new ≡ self.old }
        ensures name { IfSome result (λ w. w.name ≡ self.old.end.tally) }
        ensures count { self.old.puts ≡ false → reached result ≡ length self.old.end.items }
    {
        match &mut self.end {
            LaneEnd::Gets(consumer) => consumer.heard(),
            LaneEnd::Puts(_) => None,
        }
    }

    /// Puts an item into its lane, with what it tells of another lane. `Err`, with the item, where this is the end that
    /// gets, and else only where the lane was full at a moment of this call.
    pub(crate) fn put<R: Wait>(
        &mut self,
        rt: &R,
        queues: &Queues,
        item: Item,
        note: Option<Witness>,
    ) -> Result<(), Item>
        requires of_it { IsSideOf queues.now self.old }
        requires carried { IsFor self.old.end.region self.old.end.carries item }
        requires noted { IfSome note (λ w. self.old.end.about ≡ Some w.name) }
        ensures put { MatchResult result
            (λ _. (self.old.puts ≡ true) × (self.new ≡ side_through self.old (shown_item item) (reached note)))
            (λ _. (self.new ≡ self.old) × (self.old.puts ≡ true → HadNoRoom self.old.end)) }
        ensures back { IfErr result (λ i. i ≡ item) }
    {
        let lane = queues.lane(self.node, self.lane);
        match &mut self.end {
            LaneEnd::Puts(producer) => lane.push(rt, producer, item, note),
            LaneEnd::Gets(_) => Err(item),
        }
    }

    /// Gets the first item of its lane, which has no marks. `None` where this is the end that puts, and else only where
    /// the lane was empty at a moment of this call.
    pub(crate) fn get<R: Wait>(&mut self, rt: &R, queues: &Queues) -> Option<Item>
        requires of_it { IsSideOf queues.now self.old }
        requires plain { self.old.end.about ≡ None }
        ensures got { MatchOption result
            ((self.new ≡ self.old) × (self.old.puts ≡ false → HadNothing self.old.end))
            (λ i. (self.old.puts ≡ false) × (self.new ≡ side_through self.old (shown_item i) 0)) }
        ensures carried { IfSome result (λ i. IsFor self.old.end.region self.old.end.carries i) }
    {
        let lane = queues.lane(self.node, self.lane);
        match &mut self.end {
            LaneEnd::Gets(consumer) => lane.pop(rt, consumer),
            LaneEnd::Puts(_) => None,
        }
    }

    /// Gets the first item of its lane, whose marks tell of the lane of this other end, which goes the other way. `None`
    /// as of `get`.
    fn get_after<R: Wait>(&mut self, rt: &R, queues: &Queues, back: &mut Side) -> Option<Item>
        requires of_it { IsSideOf queues.now self.old }
        requires turned { back.old.puts ≡ not self.old.puts }
        requires about { self.old.end.about ≡ Some back.old.end.tally }
        ensures got { MatchOption result
            ((self.new ≡ self.old) × (self.old.puts ≡ false → HadNothing self.old.end))
            (λ i. (self.old.puts ≡ false) × (self.new ≡ side_through self.old (shown_item i) (length back.old.end.items))) }
        ensures back { back.new ≡ back.old }
        ensures carried { IfSome result (λ i. IsFor self.old.end.region self.old.end.carries i) }
    {
        let lane = queues.lane(self.node, self.lane);
        match &mut self.end {
            LaneEnd::Gets(consumer) => match &mut back.end {
                LaneEnd::Puts(producer) => lane.pop_after(rt, consumer, producer),
                LaneEnd::Gets(_) => unreachable!(),
            },
            LaneEnd::Puts(_) => None,
        }
    }
}

/// Whether it is the name of the inbox, and of no lane.
pub(crate) fn is_inbox(queue: QueueId) -> bool
    ensures { result ≡ is_queue QueueId.Inbox queue }
{
    match queue {
        QueueId::Inbox => true,
        QueueId::Up(_) | QueueId::Down(_) | QueueId::Out(_) | QueueId::Tx(_) | QueueId::Rx(_) =>
            false,
    }
}

/// The place of the first end that is called so.
fn position(sides: &[Side], queue: QueueId) -> Option<usize>
    ensures missing { MatchOption result (AllByRecursion (λ s. is_queue queue s.queue ≡ false) sides.now) (λ _. ⊤) }
    ensures found { IfSome result (λ at. (s : PlainSide) × (slice_get sides.now at ≡ Some s) × (is_queue queue s.queue ≡ true) × (side_named queue sides.now ≡ Some s)) }
{
    for at in 0..sides.len() {
        if sides[at].is_called(queue) {
            return Some(at);
        }
    }
    None
}

/// The place of the end that the marks of the end at this place tell of.
fn back_position(sides: &[Side], at: usize) -> Option<usize>
    requires { at < length sides.now }
    ensures within { IfSome result (λ k. k < length sides.now) }
    ensures missing { (s : PlainSide) → slice_get sides.now at ≡ Some s → MatchOption result (back_of sides.now s ≡ None) (λ _. ⊤) }
    ensures found { (s : PlainSide) → slice_get sides.now at ≡ Some s → IfSome result (λ k. (t : PlainSide) × (slice_get sides.now k ≡ Some t) × (is_back s t ≡ true) × (back_of sides.now s ≡ Some t)) }
{
    for place in 0..sides.len() {
        if sides[place].is_back_of(&sides[at]) {
            return Some(place);
        }
    }
    None
}

/// What an item tells that is put by the end at this place.
fn note_of(sides: &mut [Side], at: usize) -> Option<Witness>
    requires { at < length sides.old }
    ensures same { sides.new ≡ sides.old }
    ensures name { (s : PlainSide) → slice_get sides.old at ≡ Some s → IfSome result (λ w. option_map (λ t. t.end.tally) (back_of sides.old s) ≡ Some w.name) }
    ensures count { (s : PlainSide) → slice_get sides.old at ≡ Some s → s.puts ≡ true → reached result ≡ beside sides.old s }
{
    match back_position(sides, at) {
        Some(place) => sides[place].heard(),
        None => None,
    }
}

/// Gets from the end at this place.
fn get_at<R: Wait>(rt: &R, queues: &Queues, sides: &mut [Side], at: usize) -> Option<Item>
    requires there { at < length sides.old }
    requires of_it { (s : PlainSide) → slice_get sides.old at ≡ Some s → IsSideOf queues.now s }
    requires backed { (s : PlainSide) → slice_get sides.old at ≡ Some s → IsBacked sides.old s }
    ensures count { length sides.new ≡ length sides.old }
    ensures got { (s : PlainSide) → slice_get sides.old at ≡ Some s → MatchOption result
        ((sides.new ≡ sides.old) × (s.puts ≡ false → HadNothing s.end))
        (λ i. (s.puts ≡ false) × (sides.new ≡ slice_set sides.old at (side_through s (shown_item i) (beside sides.old s)))) }
    ensures carried { (s : PlainSide) → slice_get sides.old at ≡ Some s → IfSome result (λ i. IsFor s.end.region s.end.carries i) }
{
    match back_position(sides, at) {
        Some(back) => if back < at {
            let (front, rest) = sides.split_at_mut(at);
            rest[0].get_after(rt, queues, &mut front[back])
        } else {
            let (front, rest) = sides.split_at_mut(back);
            front[at].get_after(rt, queues, &mut rest[0])
        },
        None => sides[at].get(rt, queues),
    }
}

/// Serves a push to a lane.
pub(crate) fn put<R: Wait>(
    rt: &R,
    queues: &Queues,
    ends: &mut Ends,
    queue: QueueId,
    item: Item,
) -> Result<(), Item>
    requires of_it { AreOf queues.now ends.old }
    requires whole { AreEnds ends.old }
    requires lane { is_queue QueueId.Inbox queue ≡ false }
    requires carried { IsCarriedIn (rule_of ends.old queue) (shown_item item) }
    requires within { IsItemOf (region_of ends.old) item }
    ensures served { MatchResult result
        (λ _. Serves queues.now ends.old (OpShown.Push queue (shown_item item)) AnswerShown.Pushed ends.new)
        (λ i. Serves queues.now ends.old (OpShown.Push queue (shown_item item)) (AnswerShown.Full (shown_item i)) ends.new) }
    ensures full { IfErr result (λ _. AllByRecursion (HasNoRoomAt queue) ends.old.sides) }
    ensures back { IfErr result (λ i. i ≡ item) }
{
    match position(ends.sides.as_slice(), queue) {
        Some(at) => {
            let note = note_of(ends.sides.as_mut_slice(), at);
            ends.sides[at].put(rt, queues, item, note)
        }
        None => Err(item),
    }
}

/// Serves a pop of a lane.
pub(crate) fn get<R: Wait>(rt: &R, queues: &Queues, ends: &mut Ends, queue: QueueId) -> Option<Item>
    requires of_it { AreOf queues.now ends.old }
    requires whole { AreEnds ends.old }
    requires lane { is_queue QueueId.Inbox queue ≡ false }
    ensures served { MatchOption result
        (Serves queues.now ends.old (OpShown.Pop queue) AnswerShown.Empty ends.new)
        (λ i. Serves queues.now ends.old (OpShown.Pop queue) (AnswerShown.Popped (shown_item i)) ends.new) }
    ensures empty { MatchOption result (AllByRecursion (HasNothingAt queue) ends.old.sides) (λ _. ⊤) }
    ensures carried { IfSome result (λ i. IsCarriedIn (rule_of ends.old queue) (shown_item i)) }
    ensures within { IfSome result (λ i. IsItemOf (region_of ends.old) i) }
{
    match position(ends.sides.as_slice(), queue) {
        Some(at) => get_at(rt, queues, ends.sides.as_mut_slice(), at),
        None => None,
    }
}
