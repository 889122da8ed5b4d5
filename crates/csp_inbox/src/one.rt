//! One queue of an inbox: what a call on the inbox does with each of the four.

ghost use Rattle.std.specs.Prelude.{◌≡◌, ◌+◌, ◌<◌, ◌≤◌, false, true, length, IfOk, IfErr, MatchOption, MatchResult, vec_len, vec_capacity};
ghost use Rattle.crossbeam_queue.specs.Passes.{view, IsSamePass};
ghost use Rattle.csp_inbox.specs.Marks.{mark_of};
ghost use Rattle.csp_inbox.specs.Passes.{IsFor, with_kept, found_full, heard_from, hears_gets};
ghost use Rattle.csp_inbox.specs.Sorts.{hand, terms, opening_at, parted_hand, split_hand, both_hands, HasNothingOf, IsAllIn, Drains, Misses};
ghost use Rattle.csp_inbox.specs.Sorts as sorts;
ghost use Rattle.csp_log.specs.Pictures.{shown_item};
ghost use Rattle.csp_ring.specs.Passes.{IsPassOf, ring_capacity};

use crate::rule::{
    Empties, GetNote, Gets, Marking, Opening, Opens, Parts, Port, PutNote, Puts, Queue, Rejoins,
};
use csp_arena::RegionToken;
use csp_base::Prio;
use csp_deck::Item;
use std::alloc::{AllocError, Global};
use std::sync::Wait;

/// A queue on these terms, with the opening pass's part.
pub(crate) fn open_one<K: Opening>(
    alloc: Global,
    region: &RegionToken,
    room: u16,
    prio: Prio,
) -> Result<(Queue, Port), AllocError>
    requires terms { K.terms ≡ terms region.now.name room prio }
    requires room { 0 < room }
    ensures queue { IfOk result (λ q. (ring_capacity q.0 ≡ room) × IsPassOf q.0 q.1) }
    ensures opening { IfOk result (λ q. view q.1 ≡ opening_at region.now.name room prio) }
{
    let (queue, mut port) = Queue::open(alloc, usize::from(room))?;
    let _spent = queue.split::<Opens<K>>(&mut port);
    Ok((queue, port))
}

/// Appends an item. `Err` only where the queue was full at a moment of this call, which makes that a floor
/// for all puts.
pub(crate) fn push_one<R: Wait>(
    rt: &R,
    queue: &Queue,
    port: &mut Port,
    item: Item,
) -> Result<(), Item>
    requires of_it { IsPassOf queue.now port.old }
    requires writes { (view port.old).role.writes ≡ true }
    requires marked { mark_of (shown_item item) ≡ (view port.old).role.mark }
    requires carried { IsFor (view port.old).role.token.name (view port.old).prio item }
    ensures same { IsSamePass port.old port.new }
    ensures pushed { MatchResult result (λ _. view port.new ≡ hand (view port.old).role (view port.old).prio (with_kept (view port.old).mail (shown_item item))) (λ _. view port.new ≡ hand (view port.old).role (view port.old).prio (found_full (ring_capacity queue.now) (view port.old).mail)) }
    ensures back { IfErr result (λ i. i ≡ item) }
{
    queue.push_as::<Puts, R>(rt, port, item)
}

/// Takes the first item. `None` only where the queue was empty at a moment of this call.
pub(crate) fn pop_one<R: Wait>(rt: &R, queue: &Queue, port: &mut Port) -> Option<Item>
    requires of_it { IsPassOf queue.now port.old }
    requires reads { (view port.old).role.reads ≡ true }
    ensures same { IsSamePass port.old port.new }
    ensures popped { MatchOption result (Misses (view port.old) (view port.new)) (λ i. sorts.Gets (view port.old) i (view port.new)) }
{
    queue.pop_as::<Gets, R>(rt, port)
}

/// Splits off the part of a pass with this mark.
pub(crate) fn split_one<K: Marking>(queue: &Queue, port: &mut Port, mark: u8) -> Port
    requires mark { K.mark ≡ mark }
    requires of_it { IsPassOf queue.now port.old }
    requires reads { (view port.old).role.reads ≡ true }
    requires free { HasNothingOf (view port.old) mark }
    ensures same { IsSamePass port.old port.new × IsPassOf queue.now result }
    ensures split { (view port.new ≡ parted_hand (view port.old) mark) × (view result ≡ split_hand (view port.old) mark) }
{
    queue.split::<Parts<K>>(port)
}

/// Takes in another pass's part.
pub(crate) fn join_one(queue: &Queue, port: &mut Port, other: Port)
    requires of_it { IsPassOf queue.now port.old × IsPassOf queue.now other }
    requires roles { ((view port.old).role.reads ≡ true) × ((view other).role.reads ≡ false) × ((view other).role.writes ≡ true) }
    ensures same { IsSamePass port.old port.new }
    ensures both { view port.new ≡ both_hands (view port.old) (view other) }
{
    queue.join::<Rejoins>(port, other);
}

/// Lets the opening pass know what the other put, and the other what was got.
pub(crate) fn meet_one(queue: &Queue, port: &mut Port, other: &mut Port)
    requires of_it { IsPassOf queue.now port.old × IsPassOf queue.now other.old }
    requires roles { ((view port.old).role.reads ≡ true) × ((view other.old).role.writes ≡ true) }
    ensures same { IsSamePass port.old port.new × IsSamePass other.old other.new }
    ensures port { view port.new ≡ hand (view port.old).role (view port.old).prio (heard_from (view port.old).mail (view other.old).mail (view other.old).role.mark) }
    ensures other { view other.new ≡ hand (view other.old).role (view other.old).prio (hears_gets (length (view port.old).mail.got) (view other.old).mail) }
{
    let note = queue.split::<PutNote>(other);
    queue.join::<PutNote>(port, note);
    let note = queue.split::<GetNote>(port);
    queue.join::<GetNote>(other, note);
}

/// Takes out what is left, by the opening pass with all marks at home.
pub(crate) fn drain<R: Wait>(rt: &R, queue: &Queue, port: &mut Port, into: &mut Vec<Item>)
    requires of_it { IsPassOf queue.now port.old }
    requires all_in { IsAllIn (view port.old) }
    requires room { vec_len into.old + ring_capacity queue.now ≤ vec_capacity into.old }
    ensures drained { Drains (ring_capacity queue.now) (view port.old) (view port.new) into.old.items into.new.items }
    ensures few { vec_len into.new ≤ vec_len into.old + ring_capacity queue.now }
    ensures capacity { vec_capacity into.new ≡ vec_capacity into.old }
{
    let count = queue.len_as::<Empties, R>(rt, port);
    for _ in 0..count {
        let Some(item) = queue.pop_as::<Empties, R>(rt, port) else {
            unreachable!()
        };
        into.push_reserved(item);
    }
    queue.learn_as::<Empties>(port);
}
