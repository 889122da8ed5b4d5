//! What no turn of a router changes.

ghost use Rattle.std.specs.Prelude.{◌≡◌};
ghost use Rattle.csp_stack.specs.Router.{flows_of};

use csp_base::Addr;
use csp_ports::OwnFlows;
use csp_rdp_header::Options;
use csp_service::Names;
use std::marker::Model;

/// What a router knows of its node from its opening on.
#[derive(Drop)]
pub struct Facts {
    pub node: u8,
    pub addr: Addr,
    pub seed: u16,
    pub options: Options,
    pub apps: u8,
    pub names: Names,
}

impl Model for Facts {
    ghost use Rattle.std.specs.Prelude.{map};
    ghost use Rattle.csp_stack.specs.Router.{Facts as Plain};

    ghost Value = { Plain };

    ghost view = { λ f. record { node = f.node; addr = f.addr; name = f.names.node.bytes; seed = f.seed; options = f.options; apps = f.apps; ifaces = map (λ n. n.bytes) f.names.ifaces.items } };
}

impl Facts {
    /// What the node's reliable connections begin with.
    pub fn own_flows(&self) -> OwnFlows
        ensures { result ≡ flows_of self.now }
    {
        OwnFlows {
            node: self.node,
            seed: self.seed,
            options: self.options,
        }
    }
}
