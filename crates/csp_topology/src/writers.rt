//! Who puts into the inboxes.

ghost use Rattle.std.specs.Prelude.{◌≡◌, ◌≤◌, ◌++◌, ◌∷◌, [], length, map, Some, IfOk, OnOk};
ghost use Rattle.std.specs.Option.{option_map, option_to_list};
ghost use Rattle.csp_log.specs.declared.places.TheConstants.{UNMARKED};
ghost use Rattle.csp_topology.specs.Writers.{mark_for, writers_from, writers_with};

use crate::links::count_at;
use crate::wiring::leader_of;
use csp_log::UNMARKED;
use csp_record::Who;
use csp_scene::{MAX_LINKS, MAX_NODES, SceneLink, SceneNode};
use std::alloc::{AllocError, Global};

/// Who puts into an inbox under a mark.
#[derive(Clone, Copy)]
pub struct Writer {
    /// The mark: an interface's number, or `UNMARKED`.
    pub mark: u8,
    /// The party.
    pub who: Who,
}

/// Who puts into the inbox of each node, in the order of the nodes.
pub(crate) fn writers_of(
    alloc: Global,
    nodes: &[SceneNode],
    links: &[SceneLink],
) -> Result<Vec<Vec<Writer>>, AllocError>
    requires few { length nodes.now ≤ MAX_NODES }
    requires links { length links.now ≤ MAX_LINKS }
    ensures { IfOk result (λ all. map (λ ws. ws.items) all.items ≡ writers_from 0 nodes.now links.now) }
{
    let mut all = Vec::with_capacity(alloc, nodes.len())?;
    for (place, node) in nodes.iter().enumerate() {
        let ifaces = count_at(place as u8, links);
        let hub = leader_of(place as u8, node);
        all.push(writers_with(alloc, place as u8, hub, ifaces)?)?;
    }
    Ok(all)
}

/// Who puts into the inbox of a node with this router or bridge and so many interfaces.
fn writers_with(alloc: Global, node: u8, hub: Who, ifaces: u8) -> Result<Vec<Writer>, AllocError>
    requires hub { mark_for hub ≡ Some UNMARKED }
    requires few { ifaces ≤ MAX_LINKS }
    ensures { IfOk result (λ writers. writers.items ≡ writers_with node hub ifaces) }
{
    let mut writers = Vec::with_capacity(alloc, 1 + usize::from(ifaces))?;
    add(&mut writers, hub)?;
    for number in 0..ifaces {
        add(&mut writers, Who::Iface(node, number))?;
    }
    Ok(writers)
}

/// Adds a party that puts into the inbox, with its mark.
fn add(writers: &mut Vec<Writer>, who: Who) -> Result<(), AllocError>
    ensures { OnOk result (writers.new.items ≡ writers.old.items ++ option_to_list (option_map (λ mark. record { mark = mark; who = who }) (mark_for who))) }
{
    if let Some(mark) = mark_for(who) {
        writers.push(Writer { mark, who })?;
    }
    Ok(())
}

/// The mark of a party's puts into its node's inbox. `None` for an application and a link, which have no pass of an inbox.
pub fn mark_for(who: Who) -> Option<u8>
    ensures { result ≡ mark_for who }
{
    match who {
        Who::Router(_) | Who::Bridge(_) => Some(UNMARKED),
        Who::Iface(_, number) => Some(number),
        Who::App(_, _) | Who::Link(_) => None,
    }
}
