//! The parties of a scene, in their order.

ghost use Rattle.std.specs.Prelude.{◌≡◌, ◌<◌, ◌≤◌, ◌++◌, ◌∷◌, ℕ, [], Some, All, length, map, slice_get, OnOk, IfOk};
ghost use Rattle.std.specs.List.{AllByRecursion};
ghost use Rattle.csp_scene.specs.Links.{links_at};
ghost use Rattle.csp_scene.specs.Ranges.{HasEnds, IsApp, IsJoined, IsLink, IsNode, IsPlanned};
ghost use Rattle.csp_scene.specs.Scene.{PlainNode};
ghost use Rattle.csp_topology.specs.Opening.{CanOpen, FitsBuffers, opening_of};
ghost use Rattle.csp_topology.specs.Parties.{app_at, apps_from, config_of, heeded, leader_opening, ifaces_from, link_at, links_from, parties_at, parties_from};

use crate::links::names_at;
use crate::opening::Opening;
use csp_base::Addr;
use csp_link::Fault;
use csp_scene::{MAX_LINKS, MAX_NODES, SceneApp, SceneLink, SceneNode};
use csp_stack::StackConfig;
use std::alloc::{AllocError, Global};

/// Appends the parties of nodes, where these are the links of the scene.
pub(crate) fn push_nodes(
    openings: &mut Vec<Opening>,
    alloc: Global,
    nodes: &[SceneNode],
    links: &[SceneLink],
) -> Result<(), AllocError>
    requires nodes { AllByRecursion IsNode nodes.now }
    requires joined { (k : ℕ) (node : PlainNode) → slice_get nodes.now k ≡ Some node → IsJoined links.now k node }
    requires few { length nodes.now ≤ MAX_NODES }
    requires few_links { length links.now ≤ MAX_LINKS }
    requires fit { AllByRecursion FitsBuffers links.now }
    requires shaped { AllByRecursion HasEnds links.now }
    requires ready { AllByRecursion CanOpen openings.old.items }
    ensures parties { OnOk result (map opening_of openings.new.items ≡ map opening_of openings.old.items ++ parties_from 0 nodes.now links.now) }
    ensures ready { OnOk result (AllByRecursion CanOpen openings.new.items) }
{
    for (place, node) in nodes.iter().enumerate() {
        push_node(openings, alloc, place as u8, node, links)?;
    }
    Ok(())
}

/// Appends the parties of the node at this place: its router or bridge, its interfaces in the order of the links, its
/// applications.
fn push_node(
    openings: &mut Vec<Opening>,
    alloc: Global,
    place: u8,
    node: &SceneNode,
    links: &[SceneLink],
) -> Result<(), AllocError>
    requires node { IsNode node.now }
    requires joined { IsJoined links.now place node.now }
    requires few_links { length links.now ≤ MAX_LINKS }
    requires fit { AllByRecursion FitsBuffers links.now }
    requires shaped { AllByRecursion HasEnds links.now }
    requires ready { AllByRecursion CanOpen openings.old.items }
    ensures parties { OnOk result (map opening_of openings.new.items ≡ map opening_of openings.old.items ++ parties_at place node.now (links_at place links.now)) }
    ensures ready { OnOk result (AllByRecursion CanOpen openings.new.items) }
{
    openings.push(leader_of(place, node, links))?;
    push_ifaces(openings, place, node, links)?;
    push_apps(openings, alloc, place, node)
}

/// The router of the node at this place, or the bridge that stands in its place.
fn leader_of(place: u8, node: &SceneNode, links: &[SceneLink]) -> Opening
    requires node { IsNode node.now }
    requires joined { IsJoined links.now place node.now }
    requires few_links { length links.now ≤ MAX_LINKS }
    ensures party { opening_of result ≡ leader_opening node.now.addr place node.now (links_at place links.now) }
    ensures ready { CanOpen result }
{
    match node.addr {
        Some(addr) => Opening::Router(config_of(place, addr, node, links)),
        None => Opening::Bridge(place),
    }
}

/// What the router of a node is given.
fn config_of(place: u8, addr: Addr, node: &SceneNode, links: &[SceneLink]) -> StackConfig
    requires node { IsNode node.now }
    requires few_links { length links.now ≤ MAX_LINKS }
    ensures { result ≡ config_of place addr node.now (links_at place links.now) }
{
    StackConfig {
        node: place,
        addr,
        name: node.name,
        seed: node.seed,
        options: node.options,
        routes: node.routes.copy(),
        ifaces: names_at(place, links),
        apps: node.apps.len() as u8,
    }
}

/// What an interface of a node heeds on a link: the node's address where that is a hub.
fn heeded(node: &SceneNode, link: &SceneLink) -> Option<Addr>
    ensures { result ≡ heeded node.now.addr link.now }
{
    if link.hub { node.addr } else { None }
}

/// Appends the interfaces of the node at this place, one for each of its links.
fn push_ifaces(
    openings: &mut Vec<Opening>,
    place: u8,
    node: &SceneNode,
    links: &[SceneLink],
) -> Result<(), AllocError>
    requires few_links { length links.now ≤ MAX_LINKS }
    requires fit { AllByRecursion FitsBuffers links.now }
    requires shaped { AllByRecursion HasEnds links.now }
    requires ready { AllByRecursion CanOpen openings.old.items }
    ensures parties { OnOk result (map opening_of openings.new.items ≡ map opening_of openings.old.items ++ ifaces_from place node.now.addr 0 (links_at place links.now)) }
    ensures ready { OnOk result (AllByRecursion CanOpen openings.new.items) }
{
    let mut number = 0;
    for link in links {
        if link.touches(usize::from(place)) {
            openings.push(Opening::Iface {
                node: place,
                number,
                kind: link.kind,
                mtu: link.mtu,
                heeds: heeded(node, link),
            })?;
            number += 1;
        }
    }
    Ok(())
}

/// Appends the applications of the node at this place.
fn push_apps(
    openings: &mut Vec<Opening>,
    alloc: Global,
    place: u8,
    node: &SceneNode,
) -> Result<(), AllocError>
    requires node { IsNode node.now }
    requires ready { AllByRecursion CanOpen openings.old.items }
    ensures parties { OnOk result (map opening_of openings.new.items ≡ map opening_of openings.old.items ++ apps_from place 0 node.now.apps) }
    ensures ready { OnOk result (AllByRecursion CanOpen openings.new.items) }
{
    for (number, app) in node.apps.iter().enumerate() {
        openings.push(app_of(alloc, place, number as u8, app)?)?;
    }
    Ok(())
}

/// An application of the node at this place, with its steps.
fn app_of(alloc: Global, node: u8, number: u8, app: &SceneApp) -> Result<Opening, AllocError>
    requires { IsApp app.now }
    ensures party { IfOk result (λ o. opening_of o ≡ app_at node number app.now) }
    ensures ready { IfOk result CanOpen }
{
    Ok(Opening::App {
        node,
        number,
        script: app.script.copy(alloc)?,
    })
}

/// Appends links.
pub(crate) fn push_links(
    openings: &mut Vec<Opening>,
    alloc: Global,
    links: &[SceneLink],
) -> Result<(), AllocError>
    requires planned { AllByRecursion (λ l. All (IsPlanned (length l.ends)) l.plan) links.now }
    requires shaped { AllByRecursion HasEnds links.now }
    requires few_links { length links.now ≤ MAX_LINKS }
    requires ready { AllByRecursion CanOpen openings.old.items }
    ensures parties { OnOk result (map opening_of openings.new.items ≡ map opening_of openings.old.items ++ links_from 0 links.now) }
    ensures ready { OnOk result (AllByRecursion CanOpen openings.new.items) }
{
    for (number, link) in links.iter().enumerate() {
        openings.push(link_of(alloc, number as u8, link)?)?;
    }
    Ok(())
}

/// A link or a hub, with its plan.
fn link_of(alloc: Global, number: u8, link: &SceneLink) -> Result<Opening, AllocError>
    requires planned { All (IsPlanned (length link.now.ends)) link.now.plan }
    requires shaped { HasEnds link.now }
    ensures party { IfOk result (λ o. opening_of o ≡ link_at number link.now) }
    ensures ready { IfOk result CanOpen }
{
    let plan = copied_plan(alloc, &link.plan)?;
    if link.hub {
        Ok(Opening::Hub {
            number,
            ends: link.ends.len() as u8,
            plan,
        })
    } else {
        Ok(Opening::Link {
            number,
            kind: link.kind,
            plan,
        })
    }
}

/// A copy of this plan.
fn copied_plan(alloc: Global, plan: &[Fault]) -> Result<Vec<Fault>, AllocError>
    ensures { IfOk result (λ copy. copy.items ≡ plan.now) }
{
    let mut copy = Vec::with_capacity(alloc, plan.len())?;
    copy.extend_from_slice(plan)?;
    Ok(copy)
}
