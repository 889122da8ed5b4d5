//! The links that a node is on.

ghost use Rattle.std.specs.Prelude.{◌≡◌, ◌≤◌, IfOk, length, map};
ghost use Rattle.csp_log.specs.Kinds.{carried_on};
ghost use Rattle.csp_scene.specs.Links.{links_at};

use arrayvec::ArrayVec;
use csp_base::Name;
use csp_log::Carries;
use csp_scene::{MAX_LINKS, SceneLink};
use csp_stack::IFACE_ROOM;
use std::alloc::{AllocError, Global};

/// What the links of a node carry, in their order.
pub(crate) fn lanes_at(
    alloc: Global,
    place: u8,
    links: &[SceneLink],
) -> Result<Vec<Carries>, AllocError>
    ensures { IfOk result (λ lanes. lanes.items ≡ map (λ l. carried_on l.kind) (links_at place links.now)) }
{
    let mut lanes = Vec::new(alloc);
    for link in links {
        if link.touches(usize::from(place)) {
            lanes.push(link.kind.carries())?;
        }
    }
    Ok(lanes)
}

/// How many links a node is on: as many as it has interfaces.
pub(crate) fn count_at(place: u8, links: &[SceneLink]) -> u8
    requires { length links.now ≤ MAX_LINKS }
    ensures value { result ≡ length (links_at place links.now) }
    ensures few { result ≤ MAX_LINKS }
{
    let place = usize::from(place);
    links.iter().filter(|link| link.touches(place)).count() as u8
}

/// The names of a node's links, in their order: those of its interfaces.
pub(crate) fn names_at(place: u8, links: &[SceneLink]) -> ArrayVec<Name, IFACE_ROOM>
    requires { length links.now ≤ MAX_LINKS }
    ensures { map (λ n. n.bytes) result.items ≡ map (λ l. l.name) (links_at place links.now) }
{
    let mut names = ArrayVec::new();
    for link in links {
        if link.touches(usize::from(place)) {
            names.push(link.name);
        }
    }
    names
}
