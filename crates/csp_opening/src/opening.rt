//! The opening of a network.

ghost use Rattle.std.specs.Prelude.{◌≡◌, [], IfOk, IfSome, length, map};
ghost use Rattle.std.specs.List.{AllByRecursion};
ghost use Rattle.csp_opening.specs.Opened.{AreNodesWith, AreWired, queues_in};
ghost use Rattle.csp_opening.specs.Unposted.{IsUnposted, unposted_name};
ghost use Rattle.csp_opening.specs.Whole.{AreBlanks, AreLists, CanAssemble, posts_of, rooms_in, store_in};
ghost use Rattle.csp_posts.specs.Books.{IsFresh};
ghost use Rattle.csp_scene.specs.Kept.{AreLinksAfter};
ghost use Rattle.csp_scene.specs.Ranges.{IsScene};
ghost use Rattle.csp_standing.specs.Fabrics.{IsFabricOf};
ghost use Rattle.csp_topology.specs.Opened.{AreParties};
ghost use Rattle.csp_topology.specs.Opening.{opening_of};

use crate::hands::Hands;
use crate::lists::{Blanks, Lists};
use crate::nodes::{Node, leave_nodes, open_nodes};
use crate::parting::Parts;
use crate::unposted::{Unposted, open_unposted};
use csp_ends::Queues;
use csp_posts::Post;
use csp_scene::Scene;
use csp_standing::Fabric;
use csp_topology::{
    NodePlan, Opening, Topology, Wire, counts_parties, names_ends_apart, names_parties_apart,
    orders_wires, serves_parties, stays_home,
};
use std::alloc::{AllocError, Global};
use std::sync::Wait;

/// The network of a scene in which nothing has happened, and its posts in the order of the parties: each pool is full, and each
/// queue empty. A refusal closes what was opened.
///
/// # Errors
/// Want of memory.
pub fn open_fabric<R: Wait>(
    rt: &R,
    alloc: Global,
    scene: &Scene,
) -> Result<(Fabric, Vec<Post>), AllocError>
    requires scene { IsScene scene.now }
    requires links { AreLinksAfter (length scene.now.nodes) [] scene.now.links }
    ensures fabric { IfOk result (λ r. IsFabricOf scene.now r.0 r.1.items) }
    ensures new { IfOk result (λ r. AllByRecursion (λ s. s.plain.entries ≡ []) r.1.items) }
    ensures fresh { IfOk result (λ r. AllByRecursion (λ s. IfSome s.plain.ends.home IsFresh) r.1.items) }
{
    counts_parties();
    names_ends_apart();
    names_parties_apart();
    orders_wires();
    serves_parties();
    stays_home();
    let Topology {
        nodes: plans,
        lanes,
        writers: _,
        links: _,
        parties,
    } = Topology::of(alloc, scene)?;
    let blanks = Blanks::open(alloc, parties.len() as u16, &lanes)?;
    let (lists, nodes, unposted) = open_all(rt, alloc, &plans, &lanes, parties)?;
    Ok(assemble(alloc, lanes, blanks, lists, nodes, unposted))
}

/// Opens the nodes with these plans and the lanes of these wires, and these parties.
fn open_all<R: Wait>(
    rt: &R,
    alloc: Global,
    nodes: &[NodePlan],
    wires: &[Vec<Wire>],
    parties: Vec<Opening>,
) -> Result<(Lists, Vec<Node>, Vec<Unposted>), AllocError>
    requires wired { AreWired nodes.now wires.now }
    requires parties { AreParties (length nodes.now) parties.items }
    ensures lists { IfOk result (λ r. AreLists (length parties.items) (length nodes.now) r.0) }
    ensures nodes { IfOk result (λ r. AreNodesWith nodes.now (map (λ ws. ws.items) wires.now) r.1.items) }
    ensures names { IfOk result (λ r. map unposted_name r.2.items ≡ map opening_of parties.items) }
    ensures unposted { IfOk result (λ r. AllByRecursion (IsUnposted r.1.items) r.2.items) }
{
    let lists = Lists::open(alloc, parties.len(), nodes.len())?;
    match open_members(rt, alloc, nodes, wires, parties) {
        Ok((nodes, unposted)) => Ok((lists, nodes, unposted)),
        Err(error) => {
            lists.leave();
            Err(error)
        }
    }
}

/// Opens the nodes with these plans, and then these parties.
fn open_members<R: Wait>(
    rt: &R,
    alloc: Global,
    nodes: &[NodePlan],
    wires: &[Vec<Wire>],
    parties: Vec<Opening>,
) -> Result<(Vec<Node>, Vec<Unposted>), AllocError>
    requires wired { AreWired nodes.now wires.now }
    requires parties { AreParties (length nodes.now) parties.items }
    ensures nodes { IfOk result (λ r. AreNodesWith nodes.now (map (λ ws. ws.items) wires.now) r.0.items) }
    ensures names { IfOk result (λ r. map unposted_name r.1.items ≡ map opening_of parties.items) }
    ensures unposted { IfOk result (λ r. AllByRecursion (IsUnposted r.0.items) r.1.items) }
{
    let nodes = open_nodes(rt, alloc, nodes, wires)?;
    match open_unposted(alloc, parties, &nodes) {
        Ok(unposted) => Ok((nodes, unposted)),
        Err(error) => {
            leave_nodes(rt, nodes);
            Err(error)
        }
    }
}

/// Hands out what the parties have in hand. It takes no memory.
fn assemble(
    alloc: Global,
    wires: Vec<Vec<Wire>>,
    blanks: Blanks,
    lists: Lists,
    nodes: Vec<Node>,
    unposted: Vec<Unposted>,
) -> (Fabric, Vec<Post>)
    requires blanks { AreBlanks (length unposted.items) (length nodes.items) wires.items blanks }
    requires lists { AreLists (length unposted.items) (length nodes.items) lists }
    requires can { CanAssemble blanks.sides.items nodes.items unposted.items }
    ensures queues { result.0.queues ≡ map queues_in nodes.items }
    ensures stores { result.0.stores.items ≡ map store_in nodes.items }
    ensures rooms { result.0.rooms.items ≡ map rooms_in nodes.items }
    ensures wires { result.0.wires ≡ wires }
    ensures notes { result.0.notes ≡ blanks.notes }
    ensures logs { result.0.logs ≡ blanks.logs }
    ensures retired { result.0.retired ≡ lists.retired }
    ensures posts { result.1.items ≡ posts_of nodes.items unposted.items }
{
    let Lists {
        mut posts,
        retired,
        queues,
        stores,
        rooms,
    } = lists;
    let mut parts = Parts {
        queues,
        stores,
        rooms,
        leads: blanks.leads,
        ends: blanks.ends,
    };
    parts.add_all(nodes);
    let Parts {
        queues,
        stores,
        rooms,
        leads,
        ends,
    } = parts;
    let queues = Queues { nodes: queues };
    let hands = Hands {
        leads,
        ends,
        sides: blanks.sides,
        homes: blanks.homes,
    };
    hands.post(alloc, &queues, unposted, &mut posts);
    let fabric = Fabric {
        queues,
        stores,
        rooms,
        wires,
        notes: blanks.notes,
        logs: blanks.logs,
        retired,
    };
    (fabric, posts)
}
