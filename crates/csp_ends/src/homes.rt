//! How a party uses its passes of its own node.

ghost use Rattle.std.specs.Prelude.{◌≡◌, ◌≢◌, true, slice_get, IfErr, IfSome, IsSomeAnd, MatchOption, MatchResult};
ghost use Rattle.std.specs.Option.{option_map};
ghost use Rattle.csp_deck.specs.Carried.{IsInboxItem, IsOfPriority};
ghost use Rattle.csp_deck.specs.Regions.{IsItemOf};
ghost use Rattle.csp_deck.specs.Step.{IsCleared};
ghost use Rattle.csp_ends.specs.Causes.{HasGotEach, HasPassedOver, OfPass};
ghost use Rattle.csp_ends.specs.Ends.{IsHomeOf};
ghost use Rattle.csp_ends.specs.Moves.{post_after, room_among, with_hand, with_inbox};
ghost use Rattle.csp_inbox.specs.Marks.{mark_of};
ghost use Rattle.csp_inbox.specs.Passes.{IsPassOf};
ghost use Rattle.csp_log.specs.Pictures.{shown_item};
ghost use Rattle.csp_log.specs.declared.shown.AnswerShown.{AnswerShown};
ghost use Rattle.csp_log.specs.declared.shown.OpShown.{OpShown};
ghost use Rattle.csp_pool.specs.Hands.{took, gave, found_empty, found_full};

use crate::ends::{Home, InboxEnd};
use crate::queues::Queues;
use csp_base::Prio;
use csp_buffer::Buffer;
use csp_deck::{Item, QueueId};
use csp_header::Header;
use csp_inbox::Inbox;
use std::sync::Wait;

impl InboxEnd {
    /// Puts a packet under the pass's own mark. `Err`, with the packet, where it has another, and else only where the
    /// queue of its priority was full at a moment of this call.
    pub(crate) fn put<R: Wait>(&mut self, rt: &R, inbox: &Inbox, item: Item) -> Result<(), Item>
        requires of_it { IsPassOf inbox.now self.old }
        requires carried { IsInboxItem (shown_item item) }
        requires within { IsItemOf self.old.role.token.name item }
        ensures put { MatchResult result
            (λ _. (mark_of (shown_item item) ≡ self.old.role.mark) × (self.new ≡ post_after (OpShown.Push QueueId.Inbox (shown_item item)) AnswerShown.Pushed self.old))
            (λ i. self.new ≡ post_after (OpShown.Push QueueId.Inbox (shown_item item)) (AnswerShown.Full (shown_item i)) self.old) }
        ensures back { IfErr result (λ i. i ≡ item) }
    {
        match priority_under(self.mark, &item) {
            Some(prio) => inbox.push(rt, &mut self.pass, prio, item),
            None => Err(item),
        }
    }

    /// Gets the first packet of the most urgent priority that has one. `None` where the pass doesn't read, and else only
    /// where each of the four queues was empty at a moment of this call.
    pub(crate) fn get<R: Wait>(&mut self, rt: &R, inbox: &Inbox) -> Option<Item>
        requires { IsPassOf inbox.now self.old }
        ensures got { MatchOption result
            ((self.new ≡ self.old) × HasGotEach self.old)
            (λ i. (self.old.role.reads ≡ true) × HasPassedOver (shown_item i) self.old × (self.new ≡ post_after (OpShown.Pop QueueId.Inbox) (AnswerShown.Popped (shown_item i)) self.old)) }
        ensures carried { IfSome result (λ i. IsInboxItem (shown_item i)) }
        ensures within { IfSome result (λ i. IsItemOf self.old.role.token.name i) }
    {
        if self.reads {
            inbox.pop(rt, &mut self.pass)
        } else {
            None
        }
    }
}

/// The priority of a packet with this mark. `None` where its mark is another.
fn priority_under(mark: u8, item: &Item) -> Option<Prio>
    requires { IsInboxItem (shown_item item.now) }
    ensures mark { MatchOption result (mark_of (shown_item item.now) ≢ mark) (λ _. mark_of (shown_item item.now) ≡ mark) }
    ensures prio { IfSome result (λ p. IsOfPriority p (shown_item item.now)) }
{
    match item {
        Item::Packet { mark: own, buffer } => if *own == mark {
            Some(Header::decode(buffer.header()).prio)
        } else {
            None
        },
        Item::Frame(_) | Item::Note(_) => unreachable!(),
    }
}

impl Home {
    /// Takes a buffer from the pool, cleared. `None` only where the pool was empty at a moment of this call.
    pub(crate) fn take<R: Wait>(&mut self, rt: &R, queues: &Queues) -> Option<Buffer>
        requires { IsHomeOf queues.now self.old }
        ensures taken { MatchOption result
            (self.new ≡ with_hand self.old (found_empty self.old.pool.hand))
            (λ b. self.new ≡ with_hand self.old (took self.old.pool.hand b.picture.number)) }
        ensures cleared { IfSome result (λ b. IsCleared b.picture) }
        ensures within { IfSome result (λ b. b.region ≡ self.old.pool.hand.region) }
    {
        let node = queues.node(self.node);
        match node.pool.take(rt, &mut self.pool) {
            Some(mut buffer) => {
                buffer.clear();
                Some(buffer)
            }
            None => None,
        }
    }

    /// Puts a buffer into the pool. `Err`, with the buffer, only where the pool was full at a moment of this call.
    pub(crate) fn give<R: Wait>(
        &mut self,
        rt: &R,
        queues: &Queues,
        buffer: Buffer,
    ) -> Result<(), Buffer>
        requires of_it { IsHomeOf queues.now self.old }
        requires within { buffer.region ≡ self.old.pool.hand.region }
        ensures given { MatchResult result
            (λ _. self.new ≡ with_hand self.old (gave self.old.pool.hand buffer.picture.number))
            (λ _. self.new ≡ with_hand self.old (found_full (room_among (slice_get queues.now self.old.node)) self.old.pool.hand)) }
        ensures back { IfErr result (λ b. b ≡ buffer) }
    {
        let node = queues.node(self.node);
        node.pool.give(rt, &mut self.pool, buffer)
    }

    /// Puts a packet into the inbox, as `InboxEnd::put` does. `Err` also where there is no pass of it.
    pub(crate) fn put<R: Wait>(&mut self, rt: &R, queues: &Queues, item: Item) -> Result<(), Item>
        requires of_it { IsHomeOf queues.now self.old }
        requires carried { IsInboxItem (shown_item item) }
        requires within { IfSome self.old.inbox (λ x. IsItemOf x.role.token.name item) }
        ensures put { MatchResult result
            (λ _. IsSomeAnd self.old.inbox (λ x. mark_of (shown_item item) ≡ x.role.mark) × (self.new ≡ with_inbox self.old (option_map (post_after (OpShown.Push QueueId.Inbox (shown_item item)) AnswerShown.Pushed) self.old.inbox)))
            (λ i. self.new ≡ with_inbox self.old (option_map (post_after (OpShown.Push QueueId.Inbox (shown_item item)) (AnswerShown.Full (shown_item i))) self.old.inbox)) }
        ensures back { IfErr result (λ i. i ≡ item) }
    {
        let node = queues.node(self.node);
        match &mut self.inbox {
            Some(end) => end.put(rt, &node.inbox, item),
            None => Err(item),
        }
    }

    /// Gets a packet from the inbox, as `InboxEnd::get` does. `None` also where there is no pass of it.
    pub(crate) fn get<R: Wait>(&mut self, rt: &R, queues: &Queues) -> Option<Item>
        requires { IsHomeOf queues.now self.old }
        ensures got { MatchOption result
            ((self.new ≡ self.old) × OfPass HasGotEach self.old.inbox)
            (λ i. IsSomeAnd self.old.inbox (λ x. (x.role.reads ≡ true) × HasPassedOver (shown_item i) x) × (self.new ≡ with_inbox self.old (option_map (post_after (OpShown.Pop QueueId.Inbox) (AnswerShown.Popped (shown_item i))) self.old.inbox))) }
        ensures carried { IfSome result (λ i. IsInboxItem (shown_item i)) }
        ensures within { IfSome result (λ i. IfSome self.old.inbox (λ x. IsItemOf x.role.token.name i)) }
    {
        let node = queues.node(self.node);
        match &mut self.inbox {
            Some(end) => end.get(rt, &node.inbox),
            None => None,
        }
    }
}
