//! The world of a scene before its first turn.

ghost use Rattle.std.specs.Prelude.{◌≡◌, ◌+◌, ◌<◌, ◌≤◌, ◌^◌, ◌++◌, ◌∷◌, [], length, map, max, vec_len, vec_capacity, OnOk, IfOk};
ghost use Rattle.std.specs.List.{AllByRecursion};
ghost use Rattle.csp_party.specs.Any.{holds, plain};
ghost use Rattle.csp_scene.specs.Ranges.{IsScene};
ghost use Rattle.csp_topology.specs.Opened.{opened_as};
ghost use Rattle.csp_topology.specs.Opening.{CanOpen, opening_of};
ghost use Rattle.csp_topology.specs.Plan.{IsPlan};
ghost use Rattle.csp_world.specs.Holders.{HasOneHolder};
ghost use Rattle.csp_world.specs.Inside.{IsNew};
ghost use Rattle.csp_world.specs.Opening.{deck_of, new_member, opening};
ghost use Rattle.csp_world.specs.Reached.{IsReached};
ghost use Rattle.csp_world.specs.Settling.{AreBuffersOf, CanSettle};

use crate::decks::open_decks;
use crate::member::Member;
use crate::room::Room;
use crate::world::World;
use arrayvec::ArrayVec;
use csp_deck::{Desk, End, LINK_ENDS, Log, Spares};
use csp_lists::opens;
use csp_scene::{MAX_NODES, Scene};
use csp_topology::{
    MAX_PARTIES, NewParty, NodeBuffers, NodePlan, Opening, Topology, counts_parties, end_parties,
    open_parties,
};
use std::alloc::{AllocError, Global};
use std::collections::VecDeque;

impl World {
    /// The world of a scene in which nothing has happened: each pool is full, and each queue empty.
    #[tactic(auto, unfolding(crate::specs::Opening::opening))]
    pub fn open(alloc: Global, scene: &Scene) -> Result<World, AllocError>
        requires { IsScene scene.now }
        ensures plain { IfOk result (λ world. world.plain ≡ opening scene.now) }
        ensures reached { IfOk result (λ world. IsReached scene.now world.plain) }
        ensures one_holder { IfOk result (λ world. HasOneHolder world.plain) }
    {
        opens();
        counts_parties();
        let Topology {
            nodes,
            lanes: _,
            writers: _,
            links,
            parties,
        } = Topology::of(alloc, scene)?;
        let mut world = World::over(alloc, &nodes, links)?;
        match world.add_parties(alloc, &nodes, parties) {
            Ok(()) => {
                world.one_holder();
                Ok(world)
            }
            Err(error) => {
                let _unused = world.close();
                Err(error)
            }
        }
    }

    /// The world without a party of the nodes with these plans, and links with these ends.
    fn over(
        alloc: Global,
        nodes: &[NodePlan],
        links: Vec<ArrayVec<End, LINK_ENDS>>,
    ) -> Result<World, AllocError>
        requires plans { AllByRecursion IsPlan nodes.now }
        requires few { length nodes.now ≤ MAX_NODES }
        ensures { IfOk result (λ world. world.plain ≡ record { decks = map deck_of nodes.now; links = map (λ ends. ends.items) links.items; members = []; time = 0 }) }
    {
        opens();
        let desk = Desk::open(alloc)?;
        let decks = open_decks(alloc, nodes, links)?;
        match Room::open(alloc, nodes) {
            Ok(room) => Ok(World {
                decks,
                members: Vec::new(alloc),
                time: 0,
                room,
                desk,
                boxes: Spares::new(alloc),
            }),
            Err(error) => {
                decks.leave();
                Err(error)
            }
        }
    }

    /// Opens parties, and adds them to a world without a party, whose nodes are these.
    fn add_parties(
        &mut self,
        alloc: Global,
        nodes: &[NodePlan],
        openings: Vec<Opening>,
    ) -> Result<(), AllocError>
        requires bare { self.old.plain.members ≡ [] }
        requires decks { self.old.plain.decks ≡ map deck_of nodes.now }
        requires few_nodes { length nodes.now ≤ MAX_NODES }
        requires ready { AllByRecursion CanOpen openings.items }
        requires new { AllByRecursion (IsNew self.old.plain.decks self.old.plain.links) (map opening_of openings.items) }
        requires few { length openings.items ≤ MAX_PARTIES }
        ensures { OnOk result (self.new.plain ≡ record self.old.plain { members = map new_member (map opening_of openings.items) }) }
    {
        let buffers = self.buffers(alloc, nodes)?;
        let parties = open_parties(alloc, openings, &buffers)?;
        self.settle(alloc, parties)
    }

    /// The buffers of each node, where the nodes are these.
    fn buffers(&self, alloc: Global, nodes: &[NodePlan]) -> Result<Vec<NodeBuffers>, AllocError>
        requires decks { self.now.plain.decks ≡ map deck_of nodes.now }
        requires few { length nodes.now ≤ MAX_NODES }
        ensures buffers { IfOk result (λ all. AreBuffersOf self.now.plain.decks self.now.regions all.items) }
        ensures room { IfOk result (λ all. vec_capacity all ≡ length nodes.now) }
    {
        let mut all = Vec::with_capacity(alloc, nodes.len())?;
        for (place, node) in nodes.iter().enumerate() {
            all.push_reserved(NodeBuffers {
                region: self.decks.token(place as u8),
                count: usize::from(node.buffers),
            });
        }
        Ok(all)
    }

    /// Adds parties that were opened to a world without a party. A refusal ends those that were not added.
    fn settle(&mut self, alloc: Global, parties: Vec<NewParty>) -> Result<(), AllocError>
        requires bare { self.old.plain.members ≡ [] }
        requires can { AllByRecursion (CanSettle self.old.plain.decks self.old.plain.links self.old.regions) parties.items }
        requires empty { AllByRecursion (λ p. holds (plain p.party) ≡ []) parties.items }
        requires few { length parties.items ≤ MAX_PARTIES }
        ensures { OnOk result (self.new.plain ≡ record self.old.plain { members = map new_member (map opened_as parties.items) }) }
    {
        let mut parties = VecDeque::from_vec(parties);
        while let Some(party) = parties.pop_front() {
            match self.add_member(alloc, party) {
                Ok(()) => {}
                Err(error) => {
                    end_parties(parties);
                    return Err(error);
                }
            }
        }
        parties.destroy_empty();
        Ok(())
    }

    /// Adds a party that was opened. A refusal ends it.
    fn add_member(&mut self, alloc: Global, party: NewParty) -> Result<(), AllocError>
        requires can { CanSettle self.old.plain.decks self.old.plain.links self.old.regions party }
        requires few { length self.old.plain.members + 1 ≤ MAX_PARTIES }
        ensures plain { OnOk result (self.new.plain ≡ record self.old.plain { members = self.old.plain.members ++ new_member (opened_as party) ∷ [] }) }
        ensures regions { self.new.regions ≡ self.old.regions }
    {
        let nodes = self.decks.len();
        match member_room(&mut self.members, &mut self.room, nodes) {
            Ok(()) => {
                let NewParty {
                    who,
                    party,
                    numbers,
                } = party;
                self.members.push_reserved(Member {
                    who,
                    party,
                    log: Log::new(alloc),
                    spares: Spares::new(alloc),
                    numbers,
                    idle: true,
                });
                Ok(())
            }
            Err(error) => {
                party.end();
                Err(error)
            }
        }
    }
}

/// Takes room for one more party.
fn member_room(members: &mut Vec<Member>, room: &mut Room, nodes: usize) -> Result<(), AllocError>
    requires few { room.old.queues + length members.old.items + 1 + nodes < 2 ^ 64 }
    requires no_logs { room.old.logs.items ≡ [] }
    requires no_held { room.old.held.items ≡ [] }
    ensures members { members.new.items ≡ members.old.items }
    ensures more { OnOk result (vec_len members.new + 1 ≤ vec_capacity members.new) }
    ensures members_room { OnOk result (vec_capacity members.new ≡ max (vec_capacity members.old) (length members.old.items + 1)) }
    ensures logs { room.new.logs.items ≡ [] }
    ensures logs_room { OnOk result (vec_capacity room.new.logs ≡ max (vec_capacity room.old.logs) (length members.old.items + 1)) }
    ensures logs_capacity { vec_capacity room.old.logs ≤ vec_capacity room.new.logs }
    ensures held { room.new.held.items ≡ [] }
    ensures held_room { OnOk result (vec_capacity room.new.held ≡ max (vec_capacity room.old.held) (room.old.queues + length members.old.items + 1 + nodes)) }
    ensures held_capacity { vec_capacity room.old.held ≤ vec_capacity room.new.held }
    ensures left { room.new.left ≡ room.old.left }
    ensures emptied { room.new.emptied ≡ room.old.emptied }
    ensures queues { room.new.queues ≡ room.old.queues }
{
    members.reserve_exact(1)?;
    room.logs.reserve_exact(members.len() + 1)?;
    room.held
        .reserve_exact(room.queues + members.len() + 1 + nodes)
}
