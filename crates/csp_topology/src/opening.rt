//! A party with all that its opening needs.

ghost use Rattle.std.specs.Prelude.{◌≡◌, ◌+◌, ◌<◌, ◌≤◌, ◌^◌, All, IfOk, IfSome, IsSome, length};
ghost use Rattle.csp_app.specs.PlainApp.{opening};
ghost use Rattle.csp_app.specs.Room.{IsStep};
ghost use Rattle.csp_party.specs.Any.{plain};
ghost use Rattle.csp_log.specs.Who.{node_of};
ghost use Rattle.csp_topology.specs.Opening.{CanOpen, IsOfRegion, opening_of};
ghost use Rattle.csp_topology.specs.Parties.{iface_opening};

use csp_app::{App, Script, open_collectors};
use csp_arena::RegionToken;
use csp_base::{Addr, MAX_PAYLOAD};
use csp_bridge::Bridge;
use csp_hub::Hub;
use csp_iface::Iface;
use csp_link::{Fault, Link};
use csp_log::{IFACES, LinkKind};
use csp_party::AnyParty;
use csp_record::Who;
use csp_scene::DEFAULT_MTU;
use csp_stack::{Stack, StackConfig};
use std::alloc::{AllocError, Global};

/// A party that is yet to be opened: who it is, and all that its opening needs but the region of its node's buffers.
/// Contracts see by `opening_of` who it is, and its state before its first turn.
#[derive(Drop)]
pub enum Opening {
    /// The router of a node.
    Router(StackConfig),
    /// The bridge at this place among the nodes.
    Bridge(u8),
    /// An interface.
    Iface {
        /// The place of its node among the nodes.
        node: u8,
        /// Its number there.
        number: u8,
        /// What its link carries.
        kind: LinkKind,
        /// The most bytes of a payload on its link.
        mtu: u16,
        /// On a hub its node's address, whose frames alone it takes; elsewhere it takes each.
        heeds: Option<Addr>,
    },
    /// An application.
    App {
        /// The place of its node among the nodes.
        node: u8,
        /// Its number there.
        number: u8,
        /// What it does.
        script: Script,
    },
    /// A link.
    Link {
        /// Its place among the links.
        number: u8,
        /// What it carries.
        kind: LinkKind,
        /// What goes wrong on it.
        plan: Vec<Fault>,
    },
    /// A hub.
    Hub {
        /// Its place among the links.
        number: u8,
        /// How many ends it has.
        ends: u8,
        /// What goes wrong on it.
        plan: Vec<Fault>,
    },
}

impl Opening {
    /// Who the party is.
    pub fn who(&self) -> Who
        ensures { result ≡ (opening_of self.now).who }
    {
        match self {
            Opening::Router(config) => Who::Router(config.node),
            Opening::Bridge(node) => Who::Bridge(*node),
            Opening::Iface { node, number, .. } => Who::Iface(*node, *number),
            Opening::App { node, number, .. } => Who::App(*node, *number),
            Opening::Link { number, .. } => Who::Link(*number),
            Opening::Hub { number, .. } => Who::Link(*number),
        }
    }

    /// Opens the party. Its buffers are to be of this region, that of its node; a link or a hub has none.
    ///
    /// # Errors
    /// Want of memory.
    pub fn open(self, alloc: Global, region: Option<RegionToken>) -> Result<AnyParty, AllocError>
        requires ready { CanOpen self }
        requires region { IsSome (node_of (opening_of self).who) → IsSome region }
        ensures party { IfOk result (λ p. plain p ≡ (opening_of self).party) }
        ensures region { IfOk result (λ p. IsOfRegion (node_of (opening_of self).who) region p) }
    {
        match (self, region) {
            (Opening::Router(config), Some(region)) => Ok(AnyParty::Router(Stack::open(
                alloc, config, region,
            )?)),
            (Opening::Bridge(_), Some(region)) => Ok(AnyParty::Bridge(Bridge::new(region))),
            (
                Opening::Iface {
                    node,
                    number,
                    kind,
                    mtu,
                    heeds,
                },
                Some(region),
            ) => Ok(AnyParty::Iface(open_iface(node, number, kind, mtu, heeds, region))),
            (
                Opening::App {
                    node: _,
                    number,
                    script,
                },
                Some(region),
            ) => {
                let collectors = open_collectors(alloc, &script)?;
                let app = App::with_sfp(alloc, number, script, region, collectors)?;
                Ok(AnyParty::App(app))
            }
            (
                Opening::Link {
                    number: _,
                    kind,
                    plan,
                },
                _,
            ) => Ok(AnyParty::Link(Link::open(alloc, kind, plan)?)),
            (
                Opening::Hub {
                    number: _,
                    ends,
                    plan,
                },
                _,
            ) => Ok(AnyParty::Hub(Hub::open(alloc, ends, plan)?)),
            _ => unreachable!(),
        }
    }
}

/// Opens an interface: one on a hub, where there is an address that it is to heed.
fn open_iface(
    node: u8,
    number: u8,
    kind: LinkKind,
    mtu: u16,
    heeds: Option<Addr>,
    region: RegionToken,
) -> Iface
    requires number { number < IFACES }
    requires mtu { mtu ≤ MAX_PAYLOAD }
    requires hub { IfSome heeds (λ addr. (kind ≡ LinkKind.Can) × (mtu ≡ DEFAULT_MTU)) }
    ensures { result ≡ record { region = region.name; iface = iface_opening node number kind mtu heeds } }
{
    match heeds {
        Some(addr) => Iface::hub(node, number, addr, region),
        None => Iface::new(node, number, kind, mtu, region),
    }
}
