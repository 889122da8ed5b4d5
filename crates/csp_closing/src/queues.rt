//! The end of the queues of all nodes.

ghost use Rattle.std.specs.Prelude.{◌≡◌, ◌+◌, ◌<◌, ◌≤◌, ◌∷◌, [], length, map};
ghost use Rattle.csp_closing.specs.Hands.{without_home};
ghost use Rattle.csp_closing.specs.Nodes.{CanAllEnd, CanEnd, NodeEnds, NodesEnd, queue_count};
ghost use Rattle.csp_closing.specs.Retired.{all_homes, all_rest, all_sides};
ghost use Rattle.csp_closing.specs.Wires.{without_all};

use crate::hands::take_passes;
use crate::lanes::end_lanes;
use crate::passes::Passes;
use csp_ending::{Notes, end_inbox};
use csp_ends::{NodeQueues, Queues};
use csp_posts::Retired;
use csp_standing::{NodeRooms, NodeStore};
use csp_topology::Wire;
use std::collections::VecDeque;
use std::sync::Wait;

/// Ends the queues of all nodes with the passes and the ends that parties have of them.
pub(crate) fn end_queues<R: Wait>(
    rt: &R,
    queues: Queues,
    rooms: Vec<NodeRooms>,
    wires: &[Vec<Wire>],
    parties: &mut [Retired],
    stores: &mut [NodeStore],
    notes: &mut Notes,
)
    requires can { CanAllEnd 0 queues rooms.items (map (λ ws. ws.items) wires.now) stores.old (all_homes parties.old) (all_sides parties.old) }
    requires few { length stores.old ≤ 255 }
    requires notes_room { queue_count (map (λ ws. ws.items) wires.now) ≤ notes.old.queues }
    ensures ends { NodesEnd 0 queues (map (λ ws. ws.items) wires.now) (all_homes parties.old) (all_sides parties.old) notes.old notes.new stores.old stores.new }
    ensures rest { all_rest parties.new ≡ all_rest parties.old }
{
    let Queues { nodes } = queues;
    let mut nodes = VecDeque::from_vec(nodes);
    let mut rooms = VecDeque::from_vec(rooms);
    end_nodes(rt, &mut nodes, &mut rooms, wires, 0, parties, stores, notes);
    nodes.destroy_empty();
    rooms.destroy_empty();
}

/// Ends the queues of each of these nodes, the first of which stands at this place.
fn end_nodes<R: Wait>(
    rt: &R,
    nodes: &mut VecDeque<NodeQueues>,
    rooms: &mut VecDeque<NodeRooms>,
    wires: &[Vec<Wire>],
    node: u8,
    parties: &mut [Retired],
    stores: &mut [NodeStore],
    notes: &mut Notes,
)
    requires can { CanAllEnd node nodes.old.items rooms.old.items (map (λ ws. ws.items) wires.now) stores.old (all_homes parties.old) (all_sides parties.old) }
    requires few { node + length stores.old ≤ 255 }
    requires notes_room { queue_count (map (λ ws. ws.items) wires.now) ≤ notes.old.queues }
    ensures ends { NodesEnd node nodes.old.items (map (λ ws. ws.items) wires.now) (all_homes parties.old) (all_sides parties.old) notes.old notes.new stores.old stores.new }
    ensures nodes { nodes.new.items ≡ [] }
    ensures rooms { rooms.new.items ≡ [] }
    ensures rest { all_rest parties.new ≡ all_rest parties.old }
{
    if let Some((store, later)) = stores.split_first_mut() {
        let queues = next_queues(nodes);
        let room = next_rooms(rooms);
        end_node(rt, queues, room, &wires[0], node, parties, store, notes);
        end_nodes(
            rt,
            nodes,
            rooms,
            &wires[1..],
            node + 1,
            parties,
            later,
            notes,
        );
    }
}

/// Ends the queues of a node: its lanes, then its inbox, then its pool.
fn end_node<R: Wait>(
    rt: &R,
    queues: NodeQueues,
    rooms: NodeRooms,
    wires: &[Wire],
    node: u8,
    parties: &mut [Retired],
    store: &mut NodeStore,
    notes: &mut Notes,
)
    requires can { CanEnd node queues rooms wires.now store.old (all_homes parties.old) (all_sides parties.old) }
    requires notes_room { length wires.now + 4 ≤ notes.old.queues }
    ensures ends { NodeEnds node queues.inbox.room wires.now (all_homes parties.old) (all_sides parties.old) notes.old notes.new store.old store.new }
    ensures homes { all_homes parties.new ≡ map (without_home node) (all_homes parties.old) }
    ensures sides { all_sides parties.new ≡ without_all wires.now (all_sides parties.old) }
    ensures rest { all_rest parties.new ≡ all_rest parties.old }
{
    let Passes {
        pool: pool_pass,
        inbox: inbox_pass,
    } = take_passes(&queues, node, parties);
    let NodeQueues { pool, inbox, lanes } = queues;
    let NodeRooms {
        inbox: inbox_room,
        lanes: lane_rooms,
    } = rooms;
    end_lanes(
        rt,
        lanes,
        lane_rooms,
        wires,
        node,
        parties,
        notes,
        &mut store.store,
    );
    end_inbox(
        rt,
        inbox,
        inbox_pass,
        inbox_room,
        node,
        notes,
        &mut store.store,
    );
    let (first, last) = store.store.end_pool(rt, pool, pool_pass);
    store.first = first;
    store.last = last;
}

/// The first of these.
fn next_queues(nodes: &mut VecDeque<NodeQueues>) -> NodeQueues
    requires { 0 < length nodes.old.items }
    ensures { nodes.old.items ≡ result ∷ nodes.new.items }
{
    match nodes.pop_front() {
        Some(queues) => queues,
        None => unreachable!(),
    }
}

/// The first of these rooms.
fn next_rooms(rooms: &mut VecDeque<NodeRooms>) -> NodeRooms
    requires { 0 < length rooms.old.items }
    ensures { rooms.old.items ≡ result ∷ rooms.new.items }
{
    match rooms.pop_front() {
        Some(room) => room,
        None => unreachable!(),
    }
}
