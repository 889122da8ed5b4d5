//! The lists of the nodes of a network, opened.

ghost use Rattle.std.specs.Prelude.{◌≡◌, ◌++◌, [], ◌∷◌, IfOk, OnErr, OnOk, length, map};
ghost use Rattle.std.specs.List.{AllByRecursion};
ghost use Rattle.csp_nodes.specs.Unused.{IsUnused};
ghost use Rattle.csp_topology.specs.Plan.{IsPlan};
ghost use Rattle.csp_world.specs.Opening.{deck_of};

use arrayvec::ArrayVec;
use csp_deck::{End, LINK_ENDS};
use csp_nodes::Decks;
use csp_topology::NodePlan;
use std::alloc::{AllocError, Global};
use std::collections::VecDeque;

/// Opens the lists of the nodes with these plans, over links with these ends: all buffers of a node are in its pool, and
/// its queues are empty. Each node has a region of its own. A refusal closes what was opened.
///
/// # Errors
/// Want of memory.
pub fn open_decks(
    alloc: Global,
    nodes: &[NodePlan],
    links: Vec<ArrayVec<End, LINK_ENDS>>,
) -> Result<Decks, AllocError>
    requires { AllByRecursion IsPlan nodes.now }
    ensures decks { IfOk result (λ d. d.decks ≡ map deck_of nodes.now) }
    ensures regions { IfOk result (λ d. length d.regions ≡ length nodes.now) }
    ensures links { IfOk result (λ d. d.links ≡ map (λ ends. ends.items) links.items) }
{
    let mut decks = Decks::new(alloc);
    match add_all(&mut decks, alloc, nodes, links) {
        Ok(()) => {
            // Read for the checker alone, which then knows that there are as many regions.
            let _nodes = decks.len();
            Ok(decks)
        }
        Err(error) => {
            decks.leave();
            Err(error)
        }
    }
}

/// Adds the lists of nodes, and then links, to those of no node.
fn add_all(
    decks: &mut Decks,
    alloc: Global,
    nodes: &[NodePlan],
    links: Vec<ArrayVec<End, LINK_ENDS>>,
) -> Result<(), AllocError>
    requires plans { AllByRecursion IsPlan nodes.now }
    requires no_decks { decks.old.decks ≡ [] }
    requires no_links { decks.old.links ≡ [] }
    ensures decks { OnOk result (decks.new.decks ≡ map deck_of nodes.now) }
    ensures links { OnOk result (decks.new.links ≡ map (λ ends. ends.items) links.items) }
    ensures unused { AllByRecursion IsUnused decks.new.decks }
{
    add_nodes(decks, alloc, nodes)?;
    add_links(decks, links)
}

/// Adds the lists of nodes to those of no node.
fn add_nodes(decks: &mut Decks, alloc: Global, nodes: &[NodePlan]) -> Result<(), AllocError>
    requires plans { AllByRecursion IsPlan nodes.now }
    requires none { decks.old.decks ≡ [] }
    ensures decks { OnOk result (decks.new.decks ≡ map deck_of nodes.now) }
    ensures unused { AllByRecursion IsUnused decks.new.decks }
    ensures links { decks.new.links ≡ decks.old.links }
{
    for node in nodes {
        add_node(decks, alloc, node)?;
    }
    Ok(())
}

/// Adds the lists of a node. A refusal changes nothing.
fn add_node(decks: &mut Decks, alloc: Global, node: &NodePlan) -> Result<(), AllocError>
    requires { IsPlan node.now }
    ensures decks { OnOk result (decks.new.decks ≡ decks.old.decks ++ deck_of node.now ∷ []) }
    ensures links { decks.new.links ≡ decks.old.links }
    ensures refused { OnErr result (decks.new ≡ decks.old) }
{
    decks.add_node(
        alloc,
        node.buffers,
        node.inbox,
        node.apps,
        node.lanes.as_slice(),
    )
}

/// Adds links, by their ends, to none.
fn add_links(decks: &mut Decks, links: Vec<ArrayVec<End, LINK_ENDS>>) -> Result<(), AllocError>
    requires { decks.old.links ≡ [] }
    ensures links { OnOk result (decks.new.links ≡ map (λ ends. ends.items) links.items) }
    ensures decks { decks.new.decks ≡ decks.old.decks }
{
    let mut links = VecDeque::from_vec(links);
    while let Some(ends) = links.pop_front() {
        decks.add_link(ends)?;
    }
    Ok(())
}
