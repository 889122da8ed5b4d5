//! What a router is given when it is opened.

use arrayvec::ArrayVec;
use csp_base::{Addr, Name};
use csp_rdp_header::Options;
use csp_route::Table;
use csp_service::IFACE_ROOM;
use std::marker::Model;

/// The configuration of a node's router. Contracts see it as a `PlainConfig`: the names as their
/// bytes, and the routing table as a finite map.
#[derive(Drop)]
pub struct StackConfig {
    /// The node's place among the nodes, by which the record names it.
    pub node: u8,
    /// The node's address.
    pub addr: Addr,
    /// The node's name.
    pub name: Name,
    /// What the first sequence numbers of its connections are drawn from.
    pub seed: u16,
    /// The options of the reliable connections that it asks for.
    pub options: Options,
    /// The routing table at the opening.
    pub routes: Table,
    /// The names of its interfaces, in the order of their numbers.
    pub ifaces: ArrayVec<Name, IFACE_ROOM>,
    /// The number of its applications.
    pub apps: u8,
}

impl Model for StackConfig {
    ghost use Rattle.std.specs.Coded.{codes};
    ghost use Rattle.csp_route.specs.Codes.{routes_code};
    ghost use Rattle.std.specs.Prelude.{map};
    ghost use Rattle.csp_stack.specs.Config.{PlainConfig};

    ghost Value = { PlainConfig };

    ghost coded = { Prim.hlevel (codes, routes_code) };

    ghost view = { λ c. record { facts = record { node = c.node; addr = c.addr; name = c.name.bytes; seed = c.seed; options = c.options; apps = c.apps; ifaces = map (λ n. n.bytes) c.ifaces.items }; routes = c.routes } };
}
