//! The parties of a record that something is told of.

ghost use Rattle.std.specs.Prelude.{◌≡◌};
ghost use Rattle.csp_log.specs.Who.{is_iface};
ghost use Rattle.csp_exports.specs.Unused.{is_iface_of, is_link, is_router_of};

use csp_log::End;
use csp_record::Who;

/// Whether a party is the interface at this end.
pub(crate) fn is_iface_at(who: Who, end: End) -> bool
    ensures { result ≡ is_iface end.node end.iface who }
{
    match who {
        Who::Iface(node, iface) => node == end.node && iface == end.iface,
        Who::Router(_) | Who::Bridge(_) | Who::App(_, _) | Who::Link(_) => false,
    }
}

/// Whether a party is the link at this place among the links.
pub(crate) fn is_link(who: Who, number: usize) -> bool
    ensures { result ≡ is_link number who }
{
    match who {
        Who::Link(place) => usize::from(place) == number,
        Who::Router(_) | Who::Bridge(_) | Who::Iface(_, _) | Who::App(_, _) => false,
    }
}

/// Whether a party is an interface of the node at this place.
pub(crate) fn is_iface_of(who: Who, place: usize) -> bool
    ensures { result ≡ is_iface_of place who }
{
    match who {
        Who::Iface(node, _) => usize::from(node) == place,
        Who::Router(_) | Who::Bridge(_) | Who::App(_, _) | Who::Link(_) => false,
    }
}

/// Whether a party is the router of the node at this place.
pub(crate) fn is_router_of(who: Who, place: usize) -> bool
    ensures { result ≡ is_router_of place who }
{
    match who {
        Who::Router(node) => usize::from(node) == place,
        Who::Bridge(_) | Who::Iface(_, _) | Who::App(_, _) | Who::Link(_) => false,
    }
}
