//! The lanes of all nodes.

ghost use Rattle.std.specs.Prelude.{◌≡◌, ◌≤◌, ◌+◌, ◌++◌, ◌*◌, length, map, IfOk, OnOk};
ghost use Rattle.std.specs.List.{AllByRecursion, range_with_len};
ghost use Rattle.csp_scene.specs.Ranges.{IsLink, IsNode};
ghost use Rattle.csp_topology.specs.Lanes.{leader_of};
ghost use Rattle.csp_topology.specs.Wires.{wires_with};
ghost use Rattle.csp_topology.specs.Wiring.{inner_lane, outer_lane, wire_by, wired_from};

use crate::joint::{Joint, joints_at, joints_of};
use crate::topology::MAX_PARTIES;
use crate::wire::{Inner, Outer, Spots, Wire};
use csp_record::Who;
use csp_scene::{MAX_LINKS, MAX_NODES, SceneLink, SceneNode};
use std::alloc::{AllocError, Global};

/// The lanes of all nodes, in their order, where the links are the last parties, from this place on.
#[tactic(auto, using(crate::proofs::WireSteps::joints_few))]
pub(crate) fn wires_of(
    alloc: Global,
    nodes: &[SceneNode],
    links: &[SceneLink],
    first_link: u16,
) -> Result<Vec<Vec<Wire>>, AllocError>
    requires nodes { AllByRecursion IsNode nodes.now }
    requires few { length nodes.now ≤ MAX_NODES }
    requires few_links { length links.now ≤ MAX_LINKS }
    requires ends { AllByRecursion (IsLink nodes.now links.now) links.now }
    requires links { first_link ≤ MAX_PARTIES }
    ensures { IfOk result (λ wires. map (λ ws. ws.items) wires.items ≡ wired_from 0 0 first_link nodes.now links.now) }
{
    let joints = joints_of(alloc, links)?;
    let mut first = 0;
    let mut all = Vec::with_capacity(alloc, nodes.len())?;
    for (place, node) in nodes.iter().enumerate() {
        let here = joints_at(alloc, place as u8, &joints)?;
        let spots = Spots {
            first,
            ifaces: here.len() as u16,
            links: first_link,
        };
        all.push(wires_at(alloc, place as u8, node, &here, spots)?)?;
        first += 1 + here.len() as u16 + node.apps.len() as u16;
    }
    Ok(all)
}

/// The lanes of the node at this place, where these are the ends of links there.
fn wires_at(
    alloc: Global,
    place: u8,
    node: &SceneNode,
    joints: &[Joint],
    spots: Spots,
) -> Result<Vec<Wire>, AllocError>
    requires node { IsNode node.now }
    requires few { length joints.now ≤ MAX_LINKS }
    requires first { spots.first ≤ MAX_PARTIES }
    requires ifaces { spots.ifaces ≤ MAX_PARTIES }
    requires links { spots.links ≤ MAX_PARTIES }
    ensures { IfOk result (λ wires. wires.items ≡ map (wire_by spots) (wires_with place (leader_of place node.now.addr) joints.now (length joints.now) (length node.now.apps))) }
{
    let hub = leader_of(place, node);
    let ifaces = joints.len() as u8;
    let apps = node.apps.len() as u8;
    let mut wires = Vec::new(alloc);
    push_outer(&mut wires, Outer::Rx, joints, spots)?;
    push_outer(&mut wires, Outer::Tx, joints, spots)?;
    push_inner(&mut wires, Inner::Out, place, hub, ifaces, spots)?;
    push_inner(&mut wires, Inner::Down, place, hub, apps, spots)?;
    push_inner(&mut wires, Inner::Up, place, hub, apps, spots)?;
    Ok(wires)
}

/// The router of the node at this place, or the bridge that stands in its place.
pub(crate) fn leader_of(place: u8, node: &SceneNode) -> Who
    ensures { result ≡ leader_of place node.now.addr }
{
    match node.addr {
        Some(_) => Who::Router(place),
        None => Who::Bridge(place),
    }
}

/// Appends the lanes of this kind between links and the interfaces at these ends.
fn push_outer(
    wires: &mut Vec<Wire>,
    kind: Outer,
    joints: &[Joint],
    spots: Spots,
) -> Result<(), AllocError>
    requires first { spots.first ≤ MAX_PARTIES }
    requires ifaces { spots.ifaces ≤ MAX_PARTIES }
    requires links { spots.links ≤ MAX_PARTIES }
    ensures { OnOk result (wires.new.items ≡ wires.old.items ++ map (wire_by spots) (map (outer_lane kind) joints.now)) }
{
    for joint in joints {
        wires.push(spots.outer(kind, joint))?;
    }
    Ok(())
}

/// Appends the lanes of this kind between the router or bridge of this node and so many interfaces or applications.
fn push_inner(
    wires: &mut Vec<Wire>,
    kind: Inner,
    node: u8,
    hub: Who,
    count: u8,
    spots: Spots,
) -> Result<(), AllocError>
    requires first { spots.first ≤ MAX_PARTIES }
    requires ifaces { spots.ifaces ≤ MAX_PARTIES }
    requires links { spots.links ≤ MAX_PARTIES }
    ensures { OnOk result (wires.new.items ≡ wires.old.items ++ map (λ k. wire_by spots (inner_lane kind node hub k)) (range_with_len 0 count)) }
{
    for number in 0..count {
        wires.push(spots.inner(kind, node, hub, number))?;
    }
    Ok(())
}
