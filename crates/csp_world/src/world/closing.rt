//! The end of a run: what was where is noted, and every buffer is taken back and ended.

ghost use Rattle.std.specs.Prelude.{◌≡◌, ℕ, ◌+◌, ◌<◌, ◌≤◌, ◌++◌, [], ◌∷◌, Some, All, length, map, slice_get, vec_len, vec_capacity};
ghost use Rattle.std.specs.List.{flat_map};
ghost use Rattle.std.specs.Option.{option_map};
ghost use Rattle.csp_consistent.specs.Consistent.{IsConsistent};
ghost use Rattle.csp_nodes.specs.Emptied.{IsComplete, PlainEmptied, emptied_in, with_gathered};
ghost use Rattle.csp_nodes.specs.Gathering.{pools_held};
ghost use Rattle.csp_record.specs.Whole.{IsWhole};
ghost use Rattle.csp_scene.specs.Kept.{AreLinksAfter};
ghost use Rattle.csp_scene.specs.Ranges.{IsScene};
ghost use Rattle.csp_scene.specs.Scene.{PlainScene};
ghost use Rattle.csp_world.specs.Holders.{counts, holds_at};
ghost use Rattle.csp_world.specs.Reached.{IsReached};
ghost use Rattle.csp_world.specs.Record.{member_held, member_log, record_of};
ghost use Rattle.csp_world.specs.Seen.{plain_member};
ghost use Rattle.csp_world.specs.Taking.{IsTakeable};

use crate::laws::is_consistent;
use crate::member::Member;
use crate::room::Room;
use crate::world::{World, all_done};
use csp_lists::{gathers, weighs};
use csp_nodes::Emptied;
use csp_record::{HeldBy, PartyLog, Record};
use std::collections::VecDeque;

impl World {
    /// Ends the run: what each place held is noted, then every buffer is taken back, of each node those
    /// of its queues, of its parties and of its pool, and ended. It takes no memory.
    pub fn close(self) -> Record
        ensures record { result ≡ record_of self.plain }
        ensures whole { IsWhole (counts self.plain) result }
        ensures consistent { (scene : PlainScene) → IsScene scene → AreLinksAfter (length scene.nodes) [] scene.links → IsReached scene self.plain → IsConsistent scene result }
    {
        is_consistent();
        gathers();
        weighs();
        let World {
            decks,
            members,
            time,
            room,
            desk: _,
            boxes: _,
        } = self;
        let finished = all_done(&members);
        let Room {
            mut logs,
            mut left,
            mut held,
            mut emptied,
            queues: _,
        } = room;
        decks.gather(&mut emptied, &mut left, &mut held);
        empty_members(members, &mut emptied, &mut logs, &mut held);
        end_nodes(emptied, &mut held);
        Record {
            parties: logs,
            left,
            held,
            rounds: time,
            finished,
        }
    }
}

/// Takes back what the parties hold, and notes their logs.
fn empty_members(
    members: Vec<Member>,
    emptied: &mut Vec<Emptied>,
    logs: &mut Vec<PartyLog>,
    held: &mut Vec<HeldBy>,
)
    requires parties { All (IsTakeable (map (λ e. e.region) emptied.old.items)) members.items }
    requires fits { (node : ℕ) (e : PlainEmptied) → slice_get (emptied_in emptied.old.items) node ≡ Some e → length e.gathered + length (flat_map (holds_at node) (map plain_member members.items)) ≤ e.pool.room }
    requires logs_room { vec_len logs.old + length members.items ≤ vec_capacity logs.old }
    requires held_room { vec_len held.old + length members.items ≤ vec_capacity held.old }
    ensures emptied { (node : ℕ) → slice_get (emptied_in emptied.new.items) node ≡ option_map (with_gathered (flat_map (holds_at node) (map plain_member members.items))) (slice_get (emptied_in emptied.old.items) node) }
    ensures emptied_len { length emptied.new.items ≡ length emptied.old.items }
    ensures logs { logs.new.items ≡ logs.old.items ++ map (λ m. member_log (plain_member m)) members.items }
    ensures held { held.new.items ≡ held.old.items ++ flat_map (λ m. member_held (plain_member m)) members.items }
    ensures held_len { vec_len held.new ≤ vec_len held.old + length members.items }
    ensures held_capacity { vec_capacity held.new ≡ vec_capacity held.old }
{
    let mut members = VecDeque::from_vec(members);
    while let Some(member) = members.pop_front() {
        empty_member(member, emptied, logs, held);
    }
    members.destroy_empty();
}

/// Takes back what a party holds, and notes its log.
fn empty_member(
    member: Member,
    emptied: &mut Vec<Emptied>,
    logs: &mut Vec<PartyLog>,
    held: &mut Vec<HeldBy>,
)
    requires party { IsTakeable (map (λ e. e.region) emptied.old.items) member }
    requires fits { (node : ℕ) (e : PlainEmptied) → slice_get (emptied_in emptied.old.items) node ≡ Some e → length e.gathered + length (holds_at node (plain_member member)) ≤ e.pool.room }
    requires logs_room { vec_len logs.old + 1 ≤ vec_capacity logs.old }
    requires held_room { vec_len held.old + 1 ≤ vec_capacity held.old }
    ensures emptied { (node : ℕ) → slice_get (emptied_in emptied.new.items) node ≡ option_map (with_gathered (holds_at node (plain_member member))) (slice_get (emptied_in emptied.old.items) node) }
    ensures emptied_len { length emptied.new.items ≡ length emptied.old.items }
    ensures regions { map (λ e. e.region) emptied.new.items ≡ map (λ e. e.region) emptied.old.items }
    ensures logs { logs.new.items ≡ logs.old.items ++ member_log (plain_member member) ∷ [] }
    ensures held { held.new.items ≡ held.old.items ++ member_held (plain_member member) }
    ensures logs_len { vec_len logs.new ≡ vec_len logs.old + 1 }
    ensures held_len { vec_len held.new ≤ vec_len held.old + 1 }
    ensures logs_capacity { vec_capacity logs.new ≡ vec_capacity logs.old }
    ensures held_capacity { vec_capacity held.new ≡ vec_capacity held.old }
{
    match member.who.home() {
        Some((node, place)) => member.end(place, &mut emptied[usize::from(node)], logs, held, node),
        None => member.end_empty(logs),
    }
}

/// Notes what the pools held, takes that back too, and ends all buffers.
fn end_nodes(emptied: Vec<Emptied>, held: &mut Vec<HeldBy>)
    requires few { length emptied.items ≤ 255 }
    requires complete { All IsComplete (emptied_in emptied.items) }
    requires held_room { vec_len held.old + length emptied.items ≤ vec_capacity held.old }
    ensures { held.new.items ≡ held.old.items ++ pools_held 0 (map (λ e. e.pool) (emptied_in emptied.items)) }
{
    let mut emptied = VecDeque::from_vec(emptied);
    let mut node = 0;
    while let Some(rest) = emptied.pop_front() {
        rest.end(node, held);
        node += 1;
    }
    emptied.destroy_empty();
}
