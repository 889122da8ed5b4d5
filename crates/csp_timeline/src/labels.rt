//! The names of nodes, interfaces, applications and links.

ghost use Rattle.std.specs.Prelude.{◌≡◌, ◌++◌, OnOk};
ghost use Rattle.std.specs.String.{string_bytes};
ghost use Rattle.csp_timeline.specs.Labels.{node_name, iface_name, app_name, link_name, end_name, from_word, to_word, from_end, to_end, iface_label, app_label, label};

use csp_record::Who;
use csp_scene::{Scene, SceneLink, SceneNode};
use std::alloc::AllocError;

/// The name of the node in a place.
pub(crate) fn node_name(scene: &Scene, node: u8) -> &str
    ensures { result.now ≡ node_name scene.now node }
{
    match scene.nodes.get(usize::from(node)) {
        Some(node) => node.name.as_str(),
        None => "-",
    }
}

/// The name of the link of an interface.
fn iface_name(scene: &Scene, node: u8, number: u8) -> &str
    ensures { result.now ≡ iface_name scene.now node number }
{
    let mut left = number;
    for link in scene.links.as_slice() {
        if link.touches(usize::from(node)) {
            if left == 0 {
                return link.name.as_str();
            }
            left -= 1;
        }
    }
    "-"
}

/// The name of an application.
pub(crate) fn app_name(scene: &Scene, node: u8, number: u8) -> &str
    ensures { result.now ≡ app_name scene.now node number }
{
    match scene.nodes.get(usize::from(node)) {
        Some(node) => match node.apps.get(usize::from(number)) {
            Some(app) => app.name.as_str(),
            None => "-",
        },
        None => "-",
    }
}

/// The name of the link in a place.
fn link_name(scene: &Scene, place: u8) -> &str
    ensures { result.now ≡ link_name scene.now place }
{
    match scene.links.get(usize::from(place)) {
        Some(link) => link.name.as_str(),
        None => "-",
    }
}

/// The name of the node at an end of a link.
fn end_name<'a>(nodes: &'a [SceneNode], link: &SceneLink, end: u8) -> &'a str
    ensures { result.now ≡ end_name nodes.now link.now end }
{
    match link.ends.as_slice().get(usize::from(end)) {
        Some(end) => match nodes.get(usize::from(end.node)) {
            Some(node) => node.name.as_str(),
            None => "-",
        },
        None => "-",
    }
}

/// The word for the frames that come from this end: of a link their direction, of a hub the name of the node at the end.
pub fn from_word<'a>(nodes: &'a [SceneNode], link: &SceneLink, end: u8) -> &'a str
    ensures { result.now ≡ from_word nodes.now link.now end }
{
    if link.hub {
        end_name(nodes, link, end)
    } else if end == 0 {
        "ab"
    } else {
        "ba"
    }
}

/// The word for those that go to this end.
fn to_word<'a>(nodes: &'a [SceneNode], link: &SceneLink, end: u8) -> &'a str
    ensures { result.now ≡ to_word nodes.now link.now end }
{
    if link.hub {
        end_name(nodes, link, end)
    } else if end == 0 {
        "ba"
    } else {
        "ab"
    }
}

/// The word for the frames that come from this end of the link in a place.
pub(crate) fn from_end(scene: &Scene, place: u8, end: u8) -> &str
    ensures { result.now ≡ from_end scene.now place end }
{
    match scene.links.get(usize::from(place)) {
        Some(link) => from_word(scene.nodes.as_slice(), link, end),
        None => "-",
    }
}

/// The word for those that go to it.
pub(crate) fn to_end(scene: &Scene, place: u8, end: u8) -> &str
    ensures { result.now ≡ to_end scene.now place end }
{
    match scene.links.get(usize::from(place)) {
        Some(link) => to_word(scene.nodes.as_slice(), link, end),
        None => "-",
    }
}

/// Appends the name of an interface, `NODE/LINK`.
pub(crate) fn push_iface_label(
    out: &mut String,
    scene: &Scene,
    node: u8,
    number: u8,
) -> Result<(), AllocError>
    ensures { OnOk result (string_bytes out.new ≡ string_bytes out.old ++ iface_label scene.now node number) }
{
    out.push_str(node_name(scene, node))?;
    out.push('/')?;
    out.push_str(iface_name(scene, node, number))
}

/// Appends the name of an application, `NODE.APP`.
fn push_app_label(out: &mut String, scene: &Scene, node: u8, number: u8) -> Result<(), AllocError>
    ensures { OnOk result (string_bytes out.new ≡ string_bytes out.old ++ app_label scene.now node number) }
{
    out.push_str(node_name(scene, node))?;
    out.push('.')?;
    out.push_str(app_name(scene, node, number))
}

/// Appends the name of a party.
pub(crate) fn push_label(out: &mut String, scene: &Scene, who: Who) -> Result<(), AllocError>
    ensures { OnOk result (string_bytes out.new ≡ string_bytes out.old ++ label scene.now who) }
{
    match who {
        Who::Router(node) | Who::Bridge(node) => out.push_str(node_name(scene, node)),
        Who::Iface(node, number) => push_iface_label(out, scene, node, number),
        Who::App(node, number) => push_app_label(out, scene, node, number),
        Who::Link(place) => out.push_str(link_name(scene, place)),
    }
}
