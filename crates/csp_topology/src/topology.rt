//! A scene's network.

ghost use Rattle.std.specs.Prelude.{◌≡◌, [], IfOk, length, map};
ghost use Rattle.std.specs.List.{AllByRecursion};
ghost use Rattle.csp_scene.specs.Kept.{AreLinksAfter};
ghost use Rattle.csp_scene.specs.Ranges.{IsScene};
ghost use Rattle.csp_topology.specs.Opening.{CanOpen};
ghost use Rattle.csp_topology.specs.Plan.{IsPlan};
ghost use Rattle.csp_topology.specs.Topology.{seen_topology, topology_of};
ghost use Rattle.csp_topology.specs.Wiring.{AreWires};

use crate::opening::Opening;
use crate::parties::{push_links, push_nodes};
use crate::plan::{NodePlan, plans_of};
use crate::wire::Wire;
use crate::wiring::wires_of;
use crate::writers::{Writer, writers_of};
use arrayvec::ArrayVec;
use csp_base::MAX_APPS;
use csp_log::{End, LINK_ENDS};
use csp_scene::{MAX_LINKS, MAX_NODES, Scene, SceneLink};
use std::alloc::{AllocError, Global};

/// No scene has more parties: a node has its router or is a bridge, and has at most one interface for each
/// link, and its applications.
pub const MAX_PARTIES: usize = MAX_NODES * (1 + MAX_LINKS + MAX_APPS) + MAX_LINKS;

/// A scene's network: what its opening needs, in the order of the parties. Contracts see it by `seen_topology`.
#[derive(Drop)]
pub struct Topology {
    /// The pool and the queues of each node, in the order of the nodes.
    pub nodes: Vec<NodePlan>,
    /// The lanes of each node, in the order in which a record tells of them: those from the node's links, to its links, to
    /// its interfaces, to its applications, and from its applications.
    pub lanes: Vec<Vec<Wire>>,
    /// Who puts into the inbox of each node, and under which marks: its router or bridge under `UNMARKED`, and each
    /// interface under its number.
    pub writers: Vec<Vec<Writer>>,
    /// The ends of each link, in the order of the links.
    pub links: Vec<ArrayVec<End, LINK_ENDS>>,
    /// The parties: of each node its router or bridge, its interfaces in the order of the links, its applications; then
    /// the links.
    pub parties: Vec<Opening>,
}

impl Topology {
    /// The network of a scene.
    ///
    /// # Errors
    /// Want of memory.
    pub fn of(alloc: Global, scene: &Scene) -> Result<Topology, AllocError>
        requires { IsScene scene.now }
        ensures whole { IfOk result (λ t. seen_topology t ≡ topology_of scene.now) }
        ensures wires { AreLinksAfter (length scene.now.nodes) [] scene.now.links → IfOk result (λ t. AreWires scene.now (map (λ ws. ws.items) t.lanes.items)) }
        ensures nodes { IfOk result (λ t. AllByRecursion IsPlan t.nodes.items) }
        ensures ready { IfOk result (λ t. AllByRecursion CanOpen t.parties.items) }
    {
        let mut parties = Vec::new(alloc);
        push_nodes(&mut parties, alloc, &scene.nodes, &scene.links)?;
        let first_link = parties.len() as u16;
        push_links(&mut parties, alloc, &scene.links)?;
        Ok(Topology {
            nodes: plans_of(alloc, &scene.nodes, &scene.links)?,
            links: ends_of(alloc, &scene.links)?,
            lanes: wires_of(alloc, &scene.nodes, &scene.links, first_link)?,
            writers: writers_of(alloc, &scene.nodes, &scene.links)?,
            parties,
        })
    }
}

/// The ends of links, in their order.
fn ends_of(alloc: Global, links: &[SceneLink]) -> Result<Vec<ArrayVec<End, LINK_ENDS>>, AllocError>
    ensures { IfOk result (λ all. map (λ ends. ends.items) all.items ≡ map (λ l. l.ends) links.now) }
{
    let mut all = Vec::with_capacity(alloc, links.len())?;
    for link in links {
        all.push(copied_ends(&link.ends))?;
    }
    Ok(all)
}

/// A copy of these ends.
fn copied_ends(ends: &ArrayVec<End, LINK_ENDS>) -> ArrayVec<End, LINK_ENDS>
    ensures { result.items ≡ ends.now.items }
{
    let mut copy = ArrayVec::new();
    copy.try_extend_from_slice(ends.as_slice()).unwrap();
    copy
}
