//! A scene: what the lines of a scenario state.

ghost use Rattle.std.specs.Prelude.{◌≡◌, ◌==◌, ◌<◌, IfSome, length};
ghost use Rattle.std.specs.List.{position};
ghost use Rattle.csp_scene.specs.Links.{touches};
ghost use Rattle.csp_scene.specs.Naming.{router_or_bridge};

use arrayvec::ArrayVec;
use csp_app::Script;
use csp_base::{Addr, Name};
use csp_link::Fault;
use csp_log::{End, LINK_ENDS, LinkKind, Who};
use csp_rdp_header::Options;
use csp_route::Table;
use std::marker::Model;

/// An application of a node, with its steps in order.
#[derive(Drop)]
pub struct SceneApp {
    /// Its name, which no other application of the node has, and no link of the node.
    pub name: Name,
    /// What it does.
    pub script: Script,
}

impl Model for SceneApp {
    ghost use Rattle.csp_scene.specs.Scene.{PlainApp};

    ghost Value = { PlainApp };

    ghost view = { λ app. record { name = app.name.bytes; steps = app.script } };
}

/// A node of the network, or a bridge between two links.
#[derive(Drop)]
pub struct SceneNode {
    /// Its name, which no other node, bridge or link has.
    pub name: Name,
    /// Its address, 0 to 30, which no other node has. A bridge has none.
    pub addr: Option<Addr>,
    /// How many buffers its pool has, `MIN_BUFFERS` to `MAX_BUFFERS`.
    pub buffers: u16,
    /// From where its connections' sequence numbers start, up to `MAX_SEED`.
    pub seed: u16,
    /// The room of its inbox for each priority, `MIN_INBOX` to `MAX_INBOX`.
    pub inbox: u16,
    /// The options of the reliable connections that it asks for: the usual ones where no line gives
    /// others. A bridge asks for none.
    pub options: Options,
    /// Its routing table, whose rows lead to its interfaces. A bridge has no row.
    pub routes: Table,
    /// Its applications, in the order of their lines. A bridge has none.
    pub apps: Vec<SceneApp>,
}

impl Model for SceneNode {
    ghost use Rattle.std.specs.Coded.{codes};
    ghost use Rattle.csp_route.specs.Codes.{routes_code};
    ghost use Rattle.csp_scene.specs.Scene.{PlainNode};

    ghost Value = { PlainNode };

    ghost coded = { Prim.hlevel (codes, routes_code) };

    ghost view = { λ node. record {
      name = node.name.bytes;
      addr = node.addr;
      buffers = node.buffers;
      seed = node.seed;
      inbox = node.inbox;
      options = node.options;
      routes = node.routes;
      apps = node.apps.items;
    } };
}

impl SceneNode {
    /// Its router, or the bridge itself, by its place among the nodes.
    pub(crate) fn router_or_bridge(&self, place: u8) -> Who
        ensures { result ≡ router_or_bridge self.now.addr place }
    {
        match self.addr {
            Some(_) => Who::Router(place),
            None => Who::Bridge(place),
        }
    }
}

/// A link between interfaces.
#[derive(Debug, Drop)]
pub struct SceneLink {
    /// Its name, which no node, bridge or other link has.
    pub name: Name,
    /// What it carries.
    pub kind: LinkKind,
    /// Whether it is a hub: a bus on which each frame goes to every other end.
    pub hub: bool,
    /// The most bytes that a packet's payload may have on it, `MIN_MTU` to `MAX_MTU`.
    pub mtu: u16,
    /// Its ends, in the order of its line: two, and of a hub two to `MAX_HUB_NODES`.
    pub ends: ArrayVec<End, LINK_ENDS>,
    /// What goes wrong on it, in the order of the lines.
    pub plan: Vec<Fault>,
}

impl Model for SceneLink {
    ghost use Rattle.csp_scene.specs.Scene.{PlainLink};

    ghost Value = { PlainLink };

    ghost view = { λ link. record { name = link.name.bytes; kind = link.kind; hub = link.hub; mtu = link.mtu; ends = link.ends.items; plan = link.plan.items } };
}

impl SceneLink {
    /// Whether it ends at the node at this place among the nodes.
    pub fn touches(&self, place: usize) -> bool
        ensures { result ≡ touches place self.now }
    {
        self.ends.iter().any(|end| usize::from(end.node) == place)
    }

    /// The number of its end at the node at this place.
    pub(crate) fn end_at(&self, place: usize) -> Option<usize>
        ensures value { result ≡ position (λ end. end.node == place) self.now.ends }
        ensures inside { IfSome result (λ end. end < length self.now.ends) }
        ensures few { IfSome result (λ end. end < LINK_ENDS) }
    {
        self.ends
            .iter()
            .position(|end| usize::from(end.node) == place)
    }
}

/// One entry of a schedule that is stated step by step.
#[derive(Clone, Copy, Debug)]
pub enum Move {
    /// A turn of this party.
    Turn(Who),
    /// The end of a round.
    Tick,
}

/// In which order the parties take their turns.
#[derive(Debug, Drop)]
pub enum Schedule {
    /// Round by round, each party in its place.
    Rounds,
    /// Round by round, each turn that of a party drawn from this seed.
    Shuffle(u32),
    /// These moves alone.
    Steps(Vec<Move>),
}

/// What a scenario states.
#[derive(Drop)]
pub struct Scene {
    /// After how many rounds the run stops, 1 to `MAX_UNTIL`.
    pub until: u32,
    /// In which order the parties take their turns.
    pub schedule: Schedule,
    /// The nodes and bridges, in the order of their lines.
    pub nodes: Vec<SceneNode>,
    /// The links, in the order of their lines.
    pub links: Vec<SceneLink>,
}

impl Model for Scene {
    ghost use Rattle.std.specs.Coded.{codes};
    ghost use Rattle.csp_route.specs.Codes.{routes_code};
    ghost use Rattle.csp_scene.specs.Scene.{PlainScene, plain_schedule};

    ghost Value = { PlainScene };

    ghost coded = { Prim.hlevel (codes, routes_code) };

    ghost view = { λ scene. record {
      until = scene.until;
      schedule = plain_schedule scene.schedule;
      nodes = scene.nodes.items;
      links = scene.links.items;
    } };
}
