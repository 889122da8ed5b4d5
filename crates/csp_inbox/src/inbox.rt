//! An inbox.

ghost use Rattle.std.specs.Prelude.{◌≡◌, true, false, ◌*◌, ◌+◌, ◌<◌, ◌≤◌, IfOk, IfErr, MatchOption, MatchResult, vec_len, vec_capacity};
ghost use Rattle.csp_inbox.specs.Marks.{mark_of};
ghost use Rattle.csp_inbox.specs.Passes.{IsPassOf, IsFor, IsFree, AllIn, FoundNothing, GivesFrom, Closes, mail_at, with_mail, with_kept, found_full, opening_pass, split_pass, parted_pass, joined_pass, hearing, heard_by};
ghost use Rattle.csp_base.specs.declared.priority.Prio.TheVariants.{Critical, High, Normal, Low};
ghost use Rattle.csp_inbox.specs.Sorts.{opening_at};
ghost use Rattle.csp_log.specs.Pictures.{shown_item};
ghost use Rattle.csp_ring.specs.Passes.{IsPassOf as IsPortOf, ring_capacity};
ghost use Rattle.crossbeam_queue.specs.Passes.{view};

use crate::InboxPass;
use crate::one::{drain, join_one, meet_one, open_one, pop_one, push_one, split_one};
use crate::rule::{Port, Queue};
use csp_arena::RegionToken;
use csp_base::Prio;
use csp_deck::Item;
use std::alloc::{AllocError, Global};
use std::marker::{Brand, Model};
use std::mem::ManuallyDrop;
use std::sync::Wait;

/// Four queues of packets, one for each priority, from several parties to one, which all may use them at
/// the same time. It must be closed, with the opening pass.
///
/// Contracts see it as a `PlainInbox`.
pub struct Inbox {
    pub(crate) critical: Queue,
    pub(crate) high: Queue,
    pub(crate) normal: Queue,
    pub(crate) low: Queue,
    pub(crate) room: u16,
}

impl Model for Inbox {
    ghost use Rattle.csp_inbox.specs.Passes.{PlainInbox};

    ghost Value = { PlainInbox };

    ghost use Rattle.csp_inbox.specs.Seen.{plain_inbox, IsInbox};

    ghost view = { plain_inbox };

    ghost invariant = { IsInbox };
}

impl Inbox {
    /// Four queues with room for so many packets each, and the opening pass, whose mark is `UNMARKED`.
    /// Buffers that go through them are of the region that the token names.
    ///
    /// # Errors
    /// Want of memory.
    pub fn open(
        alloc: Global,
        region: &RegionToken,
        capacity: u16,
    ) -> Result<(Inbox, InboxPass), AllocError>
        requires { 0 < capacity }
        ensures room { IfOk result (λ x. x.0.room ≡ capacity) }
        ensures pass { IfOk result (λ x. x.1 ≡ opening_pass x.0 region.now.name) }
    {
        let critical = open_one::<Brand>(alloc, region, capacity, Prio::Critical);
        let high = open_one::<Brand>(alloc, region, capacity, Prio::High);
        let normal = open_one::<Brand>(alloc, region, capacity, Prio::Normal);
        let low = open_one::<Brand>(alloc, region, capacity, Prio::Low);
        match (critical, high, normal, low) {
            (Ok(critical), Ok(high), Ok(normal), Ok(low)) => {
                Ok(gather(region, capacity, critical, high, normal, low))
            }
            (critical, high, normal, low) => {
                leave(critical);
                leave(high);
                leave(normal);
                leave(low);
                Err(AllocError)
            }
        }
    }

    /// Appends a packet to the queue of its priority. `Err`, with the packet, only where that queue was full
    /// at a moment of this call: all puts there are then at least its room and the gets that the pass knew.
    pub fn push<R: Wait>(
        &self,
        rt: &R,
        pass: &mut InboxPass,
        prio: Prio,
        item: Item,
    ) -> Result<(), Item>
        requires of_it { IsPassOf self.now pass.old }
        requires marked { mark_of (shown_item item) ≡ pass.old.role.mark }
        requires carried { IsFor pass.old.role.token.name prio item }
        ensures pushed { MatchResult result (λ _. pass.new ≡ with_mail pass.old prio (with_kept (mail_at pass.old prio) (shown_item item))) (λ _. pass.new ≡ with_mail pass.old prio (found_full self.now.room (mail_at pass.old prio))) }
        ensures back { IfErr result (λ i. i ≡ item) }
        ensures stays { (pass.new.role ≡ pass.old.role) × (pass.new.inbox ≡ pass.old.inbox) }
    {
        match prio {
            Prio::Critical => push_one(rt, &self.critical, &mut pass.critical, item),
            Prio::High => push_one(rt, &self.high, &mut pass.high, item),
            Prio::Normal => push_one(rt, &self.normal, &mut pass.normal, item),
            Prio::Low => push_one(rt, &self.low, &mut pass.low, item),
        }
    }

    /// Takes the first packet of the most urgent priority that has one. A priority is served only where each
    /// higher one was seen empty in this call, and `None` comes only where all four were: for each mark the
    /// gets there are then at least the puts that the pass knew.
    pub fn pop<R: Wait>(&self, rt: &R, pass: &mut InboxPass) -> Option<Item>
        requires of_it { IsPassOf self.now pass.old }
        requires opening { pass.old.role.reads ≡ true }
        ensures popped { MatchOption result ((pass.new ≡ pass.old) × FoundNothing pass.old) (λ i. GivesFrom pass.old i pass.new) }
        ensures stays { (pass.new.role ≡ pass.old.role) × (pass.new.inbox ≡ pass.old.inbox) }
    {
        if let Some(item) = pop_one(rt, &self.critical, &mut pass.critical) {
            return Some(item);
        }
        if let Some(item) = pop_one(rt, &self.high, &mut pass.high) {
            return Some(item);
        }
        if let Some(item) = pop_one(rt, &self.normal, &mut pass.normal) {
            return Some(item);
        }
        pop_one(rt, &self.low, &mut pass.low)
    }

    /// Splits off a pass with this mark, which none has and under which nothing was put.
    pub fn split(&self, pass: &mut InboxPass, mark: u8) -> InboxPass
        requires of_it { IsPassOf self.now pass.old }
        requires opening { pass.old.role.reads ≡ true }
        requires free { IsFree pass.old mark }
        ensures pass { pass.new ≡ parted_pass pass.old mark }
        ensures split { result ≡ split_pass pass.old mark }
    {
        InboxPass {
            critical: split_one::<Brand>(&self.critical, &mut pass.critical, mark),
            high: split_one::<Brand>(&self.high, &mut pass.high, mark),
            normal: split_one::<Brand>(&self.normal, &mut pass.normal, mark),
            low: split_one::<Brand>(&self.low, &mut pass.low, mark),
        }
    }

    /// Takes another pass into the opening pass, which keeps what the other put, under its mark, and of each
    /// floor the greater.
    pub fn join(&self, pass: &mut InboxPass, other: InboxPass)
        requires of_it { IsPassOf self.now pass.old × IsPassOf self.now other }
        requires roles { (pass.old.role.reads ≡ true) × (other.role.reads ≡ false) }
        ensures { pass.new ≡ joined_pass pass.old other }
    {
        let InboxPass {
            critical,
            high,
            normal,
            low,
        } = other;
        join_one(&self.critical, &mut pass.critical, critical);
        join_one(&self.high, &mut pass.high, high);
        join_one(&self.normal, &mut pass.normal, normal);
        join_one(&self.low, &mut pass.low, low);
    }

    /// Lets the opening pass know what the other put, and the other what was got, of each priority.
    pub fn meet(&self, pass: &mut InboxPass, other: &mut InboxPass)
        requires of_it { IsPassOf self.now pass.old × IsPassOf self.now other.old }
        requires opening { pass.old.role.reads ≡ true }
        ensures pass { pass.new ≡ hearing pass.old other.old }
        ensures other { other.new ≡ heard_by other.old pass.old }
    {
        meet_one(&self.critical, &mut pass.critical, &mut other.critical);
        meet_one(&self.high, &mut pass.high, &mut other.high);
        meet_one(&self.normal, &mut pass.normal, &mut other.normal);
        meet_one(&self.low, &mut pass.low, &mut other.low);
    }

    /// Ends the inbox with the opening pass, into which all others were joined, and appends what is left, by
    /// priority and in order. For each mark what was got and then what is left is what was put.
    pub fn close<R: Wait>(self, rt: &R, pass: InboxPass, into: &mut Vec<Item>)
        requires of_it { IsPassOf self pass }
        requires all_in { AllIn pass }
        requires room { vec_len into.old + 4 * self.room ≤ vec_capacity into.old }
        ensures { Closes pass into.old.items into.new.items }
    {
        let Inbox {
            critical,
            high,
            normal,
            low,
            room: _,
        } = self;
        let InboxPass {
            critical: mut first,
            high: mut second,
            normal: mut third,
            low: mut fourth,
        } = pass;
        drain(rt, &critical, &mut first, into);
        drain(rt, &high, &mut second, into);
        drain(rt, &normal, &mut third, into);
        drain(rt, &low, &mut fourth, into);
        let _emptied = unsafe { ManuallyDrop::new_unchecked((critical, high, normal, low)) };
    }
}

/// An inbox of these queues, and a pass of these parts.
fn gather(
    region: &RegionToken,
    room: u16,
    critical: (Queue, Port),
    high: (Queue, Port),
    normal: (Queue, Port),
    low: (Queue, Port),
) -> (Inbox, InboxPass)
    requires rooms { (ring_capacity critical.0 ≡ room) × (ring_capacity high.0 ≡ room) × (ring_capacity normal.0 ≡ room) × (ring_capacity low.0 ≡ room) }
    requires ports { IsPortOf critical.0 critical.1 × IsPortOf high.0 high.1 × IsPortOf normal.0 normal.1 × IsPortOf low.0 low.1 }
    requires first { (view critical.1 ≡ opening_at region.now.name room Critical) × (view high.1 ≡ opening_at region.now.name room High) × (view normal.1 ≡ opening_at region.now.name room Normal) × (view low.1 ≡ opening_at region.now.name room Low) }
    ensures room { result.0.room ≡ room }
    ensures pass { result.1 ≡ opening_pass result.0 region.now.name }
{
    let inbox = Inbox {
        critical: critical.0,
        high: high.0,
        normal: normal.0,
        low: low.0,
        room,
    };
    let pass = InboxPass {
        critical: critical.1,
        high: high.1,
        normal: normal.1,
        low: low.1,
    };
    (inbox, pass)
}

/// Leaves a queue to the process that was opened in vain: its items could not be dropped, and it has none.
fn leave(opened: Result<(Queue, Port), AllocError>) {
    let _left = unsafe { ManuallyDrop::new_unchecked(opened) };
}
