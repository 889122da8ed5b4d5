//! The room that the end of a run needs, taken before its first turn.

ghost use Rattle.std.specs.Prelude.{◌≡◌, ◌+◌, ◌*◌, ◌≤◌, IfOk, length, map, sum_by, vec_capacity};
ghost use Rattle.std.specs.List.{AllByRecursion};
ghost use Rattle.csp_topology.specs.Plan.{IsPlan};
ghost use Rattle.csp_world.specs.Inside.{HasRoom};
ghost use Rattle.csp_world.specs.Opening.{deck_of, queues_of};

use csp_base::MAX_APPS;
use csp_lists::{Shape, opens};
use csp_nodes::Emptied;
use csp_record::{HeldBy, Left, PartyLog};
use csp_scene::{MAX_LINKS, MAX_NODES};
use csp_topology::NodePlan;
use std::alloc::{AllocError, Global};

/// Lists with room for a record, and for what is left of the nodes once their queues are emptied.
pub struct Room {
    pub(crate) logs: Vec<PartyLog>,
    pub(crate) left: Vec<Left>,
    pub(crate) held: Vec<HeldBy>,
    pub(crate) emptied: Vec<Emptied>,
    /// How many queues the nodes have.
    pub(crate) queues: usize,
}

impl Room {
    /// The room for what is left of the nodes with these plans, where there is no party yet, and no more.
    pub(crate) fn open(alloc: Global, nodes: &[NodePlan]) -> Result<Room, AllocError>
        requires plans { AllByRecursion IsPlan nodes.now }
        requires few { length nodes.now ≤ MAX_NODES }
        ensures has { IfOk result (HasRoom (map deck_of nodes.now) 0) }
        ensures logs_room { IfOk result (λ r. vec_capacity r.logs ≡ 0) }
        ensures left_room { IfOk result (λ r. vec_capacity r.left ≡ r.queues) }
        ensures held_room { IfOk result (λ r. vec_capacity r.held ≡ r.queues + length nodes.now) }
        ensures emptied_room { IfOk result (λ r. vec_capacity r.emptied ≡ length nodes.now) }
    {
        opens();
        let queues = queues_in(nodes);
        let logs = Vec::new(alloc);
        let left = Vec::with_capacity(alloc, queues)?;
        let held = Vec::with_capacity(alloc, queues + nodes.len())?;
        let emptied = Vec::with_capacity(alloc, nodes.len())?;
        Ok(Room {
            logs,
            left,
            held,
            emptied,
            queues,
        })
    }
}

/// How many queues the nodes with these plans have.
fn queues_in(nodes: &[NodePlan]) -> usize
    requires plans { AllByRecursion IsPlan nodes.now }
    requires few { length nodes.now ≤ MAX_NODES }
    ensures count { result ≡ sum_by queues_of nodes.now }
    ensures few { result ≤ (4 + 2 * MAX_APPS + 3 * MAX_LINKS) * MAX_NODES }
{
    let mut queues = 0;
    for node in nodes {
        queues += queues_of(node);
    }
    queues
}

/// How many queues a node has.
fn queues_of(node: &NodePlan) -> usize
    requires { IsPlan node.now }
    ensures count { result ≡ queues_of node.now }
    ensures few { result ≤ 4 + 2 * MAX_APPS + 3 * MAX_LINKS }
{
    let shape = Shape {
        ifaces: node.lanes.len() as u8,
        apps: node.apps,
    };
    shape.queues()
}
