//! The world: the lists of each node, every party with its log, and the time.

ghost use Rattle.std.specs.Prelude.{◌≡◌, ◌≢◌, ◌+◌, ◌-◌, ◌<◌, ◌≤◌, ◌^◌, ℕ, None, Some, max, List, [], ◌∷◌, length, OnOk, OnErr, replicate, slice_index, slice_get, sum_by, find};
ghost use Rattle.std.specs.List.{list_all};
ghost use Rattle.std.specs.Option.{option_map};
ghost use Rattle.csp_buffer.specs.Content.{Content};
ghost use Rattle.csp_log.specs.Weights.{weight_of_all};
ghost use Rattle.csp_log.specs.declared.shown.AnswerShown.TheVariants as answer;
ghost use Rattle.csp_party.specs.Any.{plain, is_done};
ghost use Rattle.csp_log.specs.Who.{home_of, node_of};
ghost use Rattle.csp_scene.specs.Scene.{PlainScene};
ghost use Rattle.csp_world.specs.Holders.{holders, deck_holders, counts, HasOneHolder};
ghost use Rattle.csp_world.specs.Reached.{IsReached};
ghost use Rattle.csp_world.specs.Record.{HasConsistentRecord};
ghost use Rattle.csp_world.specs.Schedule.{names, place_named, turns};
ghost use Rattle.csp_world.specs.Seen.{has_number, answer_at_place, turn_told, log_len};
ghost use Rattle.csp_world.specs.World.{turn, tick, finished, weight};

mod closing;
mod opening;

use crate::laws::is_consistent;
use crate::looking::look_round;
use crate::member::{Member, take_turn};
use crate::moves::place_among;
use crate::room::Room;
use csp_base::Turn;
use csp_deck::{Desk, Place, Spares};
use csp_lists::{counts_holders, gathers, weighs};
use csp_nodes::Decks;
use csp_record::Who;
use csp_topology::MAX_PARTIES;
use std::alloc::AllocError;
use std::marker::Model;

/// The lists of all nodes, all parties with their logs, and the number of complete rounds. Contracts
/// see it as plain lists, for how many turns each log has room, and the region of each node's buffers.
///
/// Only `open` and `reserve` take memory. It must be spent by `close`.
pub struct World {
    pub(crate) decks: Decks,
    pub(crate) members: Vec<Member>,
    pub(crate) time: u64,
    pub(crate) room: Room,
    pub(crate) desk: Desk,
    /// The boxes that no party has in its stock: those that one uses up another takes.
    pub(crate) boxes: Spares,
}

impl Model for World {
    ghost use Rattle.std.specs.Coded.{codes};
    ghost use Rattle.csp_route.specs.Codes.{routes_code};
    ghost use Rattle.csp_world.specs.SeenWorld.{SeenWorld};

    ghost Value = { SeenWorld };

    ghost coded = { Prim.hlevel (codes, routes_code) };

    ghost use Rattle.csp_world.specs.Inside.{seen_world, IsWorld};

    ghost view = { seen_world };

    ghost invariant = { IsWorld };
}

impl World {
    /// How many parties there are.
    pub fn parties(&self) -> usize
        ensures { result ≡ length self.now.plain.members }
    {
        self.members.len()
    }

    /// What the entries of all logs weigh together.
    pub fn entries(&self) -> u64
        ensures { result ≡ weight self.now.plain }
    {
        weigh_entries(&self.members)
    }

    /// Whether each application has ended.
    pub fn finished(&self) -> bool
        ensures { result ≡ finished self.now.plain }
    {
        all_done(self.members.as_slice())
    }

    /// The place of the first party that has this name, or how many parties there are where none has it.
    pub(crate) fn place_named(&self, who: Who) -> usize
        ensures { result ≡ place_named (names self.now.plain) who }
    {
        place_among(self.members.as_slice(), who)
    }

    /// Makes room in the log of the party at this place for this many turns. A refusal changes nothing.
    pub fn reserve(&mut self, party: usize, turns: u32) -> Result<(), AllocError>
        requires party { party < length self.old.plain.members }
        requires fits { log_len (slice_get self.old.plain.members party) + turns ≤ 2 ^ 32 - 2 }
        ensures plain { self.new.plain ≡ self.old.plain }
        ensures room { OnOk result (slice_index self.new.spares party ≡ max (slice_index self.old.spares party) turns) }
        ensures others { (k : ℕ) → k ≢ party → slice_index self.new.spares k ≡ slice_index self.old.spares k }
        ensures refused { OnErr result (self.new ≡ self.old) }
    {
        self.members[party].reserve(turns, &mut self.boxes)
    }

    /// Takes one turn of the party at this place, whose log has room for it: it asks one operation, which
    /// the lists of its node answer, or for a link those of the nodes at its ends.
    ///
    /// `Turn::Ended` where it had ended before: then nothing is done or logged. `Turn::Idle` where
    /// nothing was asked, or the pool or queue was empty or full.
    ///
    /// Whatever turns and ticks came before it, the record of the world after it is consistent with the scene that the
    /// world was opened for, under the conditions of the law `is_consistent`.
    #[inline(always)]
    pub fn step(&mut self, party: usize) -> Turn
        requires party { party < length self.old.plain.members }
        requires room { 0 < slice_index self.old.spares party }
        ensures plain { self.new.plain ≡ turn self.old.plain party }
        ensures reached { (scene : PlainScene) → IsReached scene self.old.plain → IsReached scene self.new.plain }
        ensures consistent { HasConsistentRecord self.new.plain }
        ensures turn { result ≡ turn_told (answer_at_place self.old.plain party) }
        ensures spares { slice_index self.old.spares party ≤ slice_index self.new.spares party + 1 }
        ensures others { (k : ℕ) → k ≢ party → slice_index self.new.spares k ≡ slice_index self.old.spares k }
        ensures counts { counts self.new.plain ≡ counts self.old.plain }

        // Each number of each node has exactly one holder, and no party is answered that the pool is full.
        ensures one_holder { HasOneHolder self.new.plain }
        ensures never_full { (buffer : Content) → answer_at_place self.old.plain party ≢ Some (answer.PoolFull buffer) }
    {
        counts_holders();
        gathers();
        weighs();
        is_consistent();
        take_turn(
            &mut self.members[party],
            &mut self.decks,
            &mut self.desk,
            self.time,
        )
    }

    /// Takes turns of the party at this place, whose log has room for so many, where it looks into queues which are
    /// all empty until it is as it was: as many whole circles of them as so many turns have. Answers how many turns it
    /// took, and takes none where the party does anything else. The law `is_consistent` is a clause as it
    /// is of `step`.
    #[inline(always)]
    pub(crate) fn look_round(&mut self, party: usize, most: usize) -> usize
        requires party { party < length self.old.plain.members }
        requires some { 0 < most }
        requires room { most ≤ slice_index self.old.spares party }
        ensures plain { self.new.plain ≡ turns self.old.plain (replicate result party) }
        ensures reached { (scene : PlainScene) → IsReached scene self.old.plain → IsReached scene self.new.plain }
        ensures consistent { HasConsistentRecord self.new.plain }
        ensures most { result ≤ most }
        ensures spares { slice_index self.new.spares party + result ≡ slice_index self.old.spares party }
        ensures others { (k : ℕ) → k ≢ party → slice_index self.new.spares k ≡ slice_index self.old.spares k }
        ensures counts { counts self.new.plain ≡ counts self.old.plain }
        ensures one_holder { HasOneHolder self.new.plain }
    {
        counts_holders();
        is_consistent();
        let member = &mut self.members[party];
        look_round(member, &mut self.decks, self.time, most)
    }

    /// One more round is complete. The law `is_consistent` is a clause as it is of `step`.
    pub fn tick(&mut self)
        requires { self.old.plain.time + 1 < 2 ^ 62 }
        ensures plain { self.new.plain ≡ tick self.old.plain }
        ensures reached { (scene : PlainScene) → IsReached scene self.old.plain → IsReached scene self.new.plain }
        ensures consistent { HasConsistentRecord self.new.plain }
        ensures spares { self.new.spares ≡ self.old.spares }
        ensures one_holder { HasOneHolder self.new.plain }
    {
        counts_holders();
        is_consistent();
        self.time += 1;
    }

    /// Each number of each node has exactly one holder.
    pub(crate) fn one_holder(&self)
        ensures { HasOneHolder self.now.plain }
    {
        // Read for the checker alone, which then knows what is true of every world.
        let _time = self.time;
        counts_holders();
    }

    /// Who holds the buffer of this number of the node at this place: no other place does.
    pub fn holder(&self, node: u8, number: u16) -> Place
        requires node { node < length (counts self.now.plain) }
        requires number { number < slice_index (counts self.now.plain) node }
        ensures { holders self.now.plain node number ≡ result ∷ [] }
    {
        counts_holders();
        match self.decks.place(node, number) {
            Some(place) => place,
            None => self.party_with(node, number),
        }
    }

    /// The party of a node that holds the buffer of this number, where no list of the node does.
    fn party_with(&self, node: u8, number: u16) -> Place
        requires one { length (holders self.now.plain node number) ≡ 1 }
        requires unlisted { deck_holders (slice_get self.now.plain.decks node) number ≡ [] }
        ensures { holders self.now.plain node number ≡ result ∷ [] }
    {
        match member_with(self.members.as_slice(), node, number) {
            Some(member) => place_of(member.who),
            None => unreachable!(),
        }
    }
}

/// The place of a party that is one of a node.
fn place_of(who: Who) -> Place
    requires { node_of who ≢ None }
    ensures { option_map (λ h. h.1) (home_of who) ≡ Some result }
{
    match who.home() {
        Some((_, place)) => place,
        None => unreachable!(),
    }
}

/// The first of these parties that is one of this node and holds the buffer of this number.
fn member_with(members: &[Member], node: u8, number: u16) -> Option<&Member>
    ensures { option_map (λ m. m.now) result ≡ find (has_number node number) members.now }
{
    members.iter().find(|member| member.has(node, number))
}

/// Whether each of these parties is no application, or one that has ended.
pub(crate) fn all_done(members: &[Member]) -> bool
    ensures { result ≡ list_all (λ m. is_done (plain m.party)) members.now }
{
    members.iter().all(|member| member.is_done())
}

/// What the entries of the logs of these parties weigh together.
fn weigh_entries(members: &[Member]) -> u64
    requires { length members.now ≤ MAX_PARTIES }
    ensures { result ≡ sum_by (λ m. weight_of_all m.log.entries) members.now }
{
    let mut total = 0;
    for member in members {
        total += member.log.weight();
    }
    total
}
