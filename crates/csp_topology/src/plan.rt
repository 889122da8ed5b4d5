//! The pool and the queues of a node.

ghost use Rattle.std.specs.Prelude.{◌≡◌, ◌≤◌, length, IfOk};
ghost use Rattle.std.specs.List.{AllByRecursion};
ghost use Rattle.csp_scene.specs.Links.{links_at};
ghost use Rattle.csp_scene.specs.Ranges.{IsNode};
ghost use Rattle.csp_topology.specs.Plan.{plan_of, plans_from};

use crate::links::lanes_at;
use csp_log::Carries;
use csp_scene::{MAX_LINKS, MAX_NODES, SceneLink, SceneNode};
use std::alloc::{AllocError, Global};
use std::marker::Model;

/// The pool and the queues of a node, as their opening needs them. Contracts see it as a `PlainNodePlan`.
#[derive(Drop)]
pub struct NodePlan {
    /// How many buffers its pool has.
    pub buffers: u16,
    /// For how many packets each queue of its inbox has room.
    pub inbox: u16,
    /// What the link of each interface carries: each interface has an `Out`, a `Tx` and an `Rx`.
    pub lanes: Vec<Carries>,
    /// How many applications it has: each has an `Up` and a `Down`.
    pub apps: u8,
}

impl Model for NodePlan {
    ghost use Rattle.csp_topology.specs.Plan.{PlainNodePlan};

    ghost Value = { PlainNodePlan };

    ghost view = { λ n. record { buffers = n.buffers; inbox = n.inbox; apps = n.apps; lanes = n.lanes.items } };
}

/// The plan of the node at this place, where these are the links of the scene.
fn plan_of(
    alloc: Global,
    place: u8,
    node: &SceneNode,
    links: &[SceneLink],
) -> Result<NodePlan, AllocError>
    requires node { IsNode node.now }
    requires links { length links.now ≤ MAX_LINKS }
    ensures { IfOk result (λ plan. plan ≡ plan_of node.now (links_at place links.now)) }
{
    Ok(NodePlan {
        buffers: node.buffers,
        inbox: node.inbox,
        apps: node.apps.len() as u8,
        lanes: lanes_at(alloc, place, links)?,
    })
}

/// The plans of all nodes, in their order.
pub(crate) fn plans_of(
    alloc: Global,
    nodes: &[SceneNode],
    links: &[SceneLink],
) -> Result<Vec<NodePlan>, AllocError>
    requires each { AllByRecursion IsNode nodes.now }
    requires few { length nodes.now ≤ MAX_NODES }
    requires links { length links.now ≤ MAX_LINKS }
    ensures { IfOk result (λ plans. plans.items ≡ plans_from 0 nodes.now links.now) }
{
    let mut plans = Vec::with_capacity(alloc, nodes.len())?;
    for (place, node) in nodes.iter().enumerate() {
        plans.push(plan_of(alloc, place as u8, node, links)?)?;
    }
    Ok(plans)
}
