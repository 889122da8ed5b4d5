//! Which party of which node, or of which link.

ghost use Rattle.std.specs.Prelude.{◌≡◌};
ghost use Rattle.csp_log.specs.Who.{home_of, node_of};

use crate::places::Place;

/// Which party is meant: by the place of its node among the nodes, and its number there. A link belongs to no
/// node.
#[derive(Clone, Copy, PartialEq, Eq, Debug)]
pub enum Who {
    /// The router of this node.
    Router(u8),
    /// This bridge, by its place among the nodes.
    Bridge(u8),
    /// The interface of this node with this number.
    Iface(u8, u8),
    /// The application of this node with this number.
    App(u8, u8),
    /// The link at this place among the links.
    Link(u8),
}

impl Who {
    /// The place of its node among the nodes, and the place of that node where the buffers are that the party
    /// holds: `None` for a link. A bridge counts as the router of its node.
    pub fn home(self) -> Option<(u8, Place)>
        ensures { result ≡ home_of self }
    {
        match self {
            Who::Router(node) | Who::Bridge(node) => Some((node, Place::Router)),
            Who::Iface(node, number) => Some((node, Place::Iface(number))),
            Who::App(node, number) => Some((node, Place::App(number))),
            Who::Link(_) => None,
        }
    }

    /// The place of its node among the nodes: `None` for a link.
    pub fn node(self) -> Option<u8>
        ensures { result ≡ node_of self }
    {
        match self {
            Who::Router(node) | Who::Bridge(node) => Some(node),
            Who::Iface(node, _) | Who::App(node, _) => Some(node),
            Who::Link(_) => None,
        }
    }
}
