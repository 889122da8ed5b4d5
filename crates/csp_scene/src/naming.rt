//! Who has a name.

ghost use Rattle.std.specs.Prelude.{◌≡◌, ◌≢◌, ◌||◌, ◌≤◌, ◌<◌, IfSome, Some, None, length, map, is_some};
ghost use Rattle.std.specs.List.{list_any, position};
ghost use Rattle.std.specs.Str.{bytes_eq};
ghost use Rattle.csp_route.specs.Text.{names_of};
ghost use Rattle.csp_scene.specs.Links.{links_at, node_at};
ghost use Rattle.csp_scene.specs.Naming.{has_name, is_link_called, is_hub_called, is_called, is_router, node_named, router_named, link_named, app_named, iface_names, iface_named, is_name_taken, has_addr, is_addr_taken};

use crate::limits::MAX_LINKS;
use crate::links::LinkSketch;
use crate::scenario::{SceneApp, SceneNode};
use arrayvec::ArrayVec;
use csp_base::{Addr, Name};

/// The names of a node's interfaces.
pub(crate) type IfaceNames = ArrayVec<Name, MAX_LINKS>;

/// The place of the node or bridge of this name.
pub(crate) fn node_named(nodes: &[SceneNode], name: &[u8]) -> Option<usize>
    ensures value { result ≡ node_named name.now nodes.now }
    ensures inside { IfSome result (λ place. place < length nodes.now) }
{
    nodes.iter().position(|node| node.name.as_bytes() == name)
}

/// Whether this is a node, not a bridge, of this name.
fn is_router(node: &SceneNode, name: &[u8]) -> bool
    ensures { result ≡ is_router name.now node.now }
{
    node.name.as_bytes() == name && node.addr.is_some()
}

/// The place of the node, not a bridge, of this name.
pub(crate) fn router_named(nodes: &[SceneNode], name: &[u8]) -> Option<usize>
    ensures value { result ≡ router_named name.now nodes.now }
    ensures router { IfSome result (λ place. (node_at nodes.now place).addr ≢ None) }
    ensures inside { IfSome result (λ place. place < length nodes.now) }
{
    nodes.iter().position(|node| is_router(node, name))
}

/// Whether a link has this name.
fn is_link_called(link: &LinkSketch, name: &[u8]) -> bool
    ensures { result ≡ is_link_called name.now link.now }
{
    link.name().as_bytes() == name
}

/// The place of the link of this name.
pub(crate) fn link_named(links: &[LinkSketch], name: &[u8]) -> Option<usize>
    ensures value { result ≡ link_named name.now links.now }
    ensures inside { IfSome result (λ place. place < length links.now) }
{
    links.iter().position(|link| is_link_called(link, name))
}

/// Whether a link has this name.
pub(crate) fn is_link_name(links: &[LinkSketch], name: &[u8]) -> bool
    ensures { result ≡ list_any (is_link_called name.now) links.now }
{
    links.iter().any(|link| is_link_called(link, name))
}

/// Whether a hub has this name.
pub(crate) fn is_hub_called(links: &[LinkSketch], name: &[u8]) -> bool
    ensures { result ≡ is_hub_called name.now links.now }
{
    links
        .iter()
        .any(|link| link.is_hub() && is_link_called(link, name))
}

/// The place of the application of this name.
pub(crate) fn app_named(apps: &[SceneApp], name: &[u8]) -> Option<usize>
    ensures value { result ≡ app_named name.now apps.now }
    ensures inside { IfSome result (λ place. place < length apps.now) }
{
    apps.iter().position(|app| app.name.as_bytes() == name)
}

/// Whether an application has this name.
pub(crate) fn is_called(apps: &[SceneApp], name: &[u8]) -> bool
    ensures { result ≡ list_any (is_called name.now) apps.now }
{
    apps.iter().any(|app| app.name.as_bytes() == name)
}

/// Whether a node or bridge has this name.
fn is_node_name(nodes: &[SceneNode], name: &[u8]) -> bool
    ensures { result ≡ list_any (has_name name.now) nodes.now }
{
    nodes.iter().any(|node| node.name.as_bytes() == name)
}

/// Whether a node, a bridge or a link has this name.
pub(crate) fn is_name_taken(nodes: &[SceneNode], links: &[LinkSketch], name: &[u8]) -> bool
    ensures { result ≡ is_name_taken name.now nodes.now links.now }
{
    is_node_name(nodes, name) || is_link_name(links, name)
}

/// Whether this is the address of a node, which a bridge lacks.
fn has_addr(own: Option<Addr>, addr: Addr) -> bool
    ensures { result ≡ has_addr addr own }
{
    match own {
        Some(own) => own.get() == addr.get(),
        None => false,
    }
}

/// Whether this is the address of some node.
fn is_node_addr(nodes: &[SceneNode], addr: Addr) -> bool
    ensures { result ≡ list_any (λ node. has_addr addr node.addr) nodes.now }
{
    nodes.iter().any(|node| has_addr(node.addr, addr))
}

/// Whether this is an address, and that of some node.
pub(crate) fn is_addr_taken(nodes: &[SceneNode], addr: Option<Addr>) -> bool
    ensures { result ≡ is_addr_taken addr nodes.now }
{
    match addr {
        Some(addr) => is_node_addr(nodes, addr),
        None => false,
    }
}

/// How many links touch the node in a place: how many interfaces it has.
pub(crate) fn iface_count(links: &[LinkSketch], place: usize) -> usize
    ensures value { result ≡ length (links_at place links.now) }
    ensures most { result ≤ length links.now }
{
    links.iter().filter(|link| link.touches(place)).count()
}

/// The names of a node's interfaces, which are those of its links.
pub(crate) fn iface_names(links: &[LinkSketch], place: usize) -> IfaceNames
    requires { length links.now ≤ MAX_LINKS }
    ensures names { names_of result.items ≡ iface_names place links.now }
    ensures count { length result.items ≡ length (links_at place links.now) }
{
    let mut names = ArrayVec::new();
    for link in links {
        if link.touches(place) {
            names.push(link.name());
        }
    }
    names
}

/// The first of these names that is the word.
fn name_place(names: &[Name], word: &[u8]) -> Option<usize>
    ensures value { result ≡ position (λ name. bytes_eq name.bytes word.now) names.now }
    ensures inside { IfSome result (λ place. place < length names.now) }
{
    names.iter().position(|name| name.as_bytes() == word)
}

/// The interface of a node on the link of this name.
pub(crate) fn iface_named(links: &[LinkSketch], place: usize, name: &[u8]) -> Option<usize>
    requires { length links.now ≤ MAX_LINKS }
    ensures value { result ≡ iface_named name.now place links.now }
    ensures inside { IfSome result (λ iface. iface < length (links_at place links.now)) }
{
    name_place(&iface_names(links, place), name)
}
