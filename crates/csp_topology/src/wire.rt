//! A lane of a node, with the parties at its ends.

ghost use Rattle.std.specs.Prelude.{◌≡◌, ◌≤◌};
ghost use Rattle.csp_lists.specs.PlainDeck.{lane_room};
ghost use Rattle.csp_topology.specs.Wiring.{inner_lane, outer_lane, place_by, wire_by};

use crate::joint::Joint;
use crate::topology::MAX_PARTIES;
use csp_log::{Carries, DOWN_ROOM, LINK_ROOM, OUT_ROOM, QueueId, UP_ROOM};
use csp_record::Who;

/// An end of a lane.
#[derive(Clone, Copy)]
pub struct WireEnd {
    /// Which party uses it.
    pub who: Who,
    /// The place of that party among the parties of the topology.
    pub party: u16,
    /// What that party calls the lane: a link names its lanes by its ends.
    pub queue: QueueId,
}

/// A lane of a node.
#[derive(Clone, Copy)]
pub struct Wire {
    /// Its name at its node.
    pub queue: QueueId,
    /// What it carries.
    pub carries: Carries,
    /// For how many items it has room.
    pub room: u16,
    /// Who puts into it.
    pub from: WireEnd,
    /// Who gets from it.
    pub to: WireEnd,
}

/// A kind of lane at the end of a link.
#[derive(Clone, Copy)]
pub(crate) enum Outer {
    /// From the link to the interface.
    Rx,
    /// From the interface to the link.
    Tx,
}

/// A kind of lane inside a node, whose ends both call it by its name.
#[derive(Clone, Copy)]
pub(crate) enum Inner {
    /// From the router or bridge to an interface.
    Out,
    /// From the router to an application.
    Down,
    /// From an application to the router.
    Up,
}

/// Where parties stand among those of a scene: those of one node, and the links.
#[derive(Clone, Copy)]
pub(crate) struct Spots {
    /// The place of the node's router or bridge, before its interfaces and its applications.
    pub first: u16,
    /// How many interfaces it has.
    pub ifaces: u16,
    /// The place of the first link.
    pub links: u16,
}

impl Spots {
    /// Where this party stands, where it is one of the node's or a link.
    fn place(self, who: Who) -> u16
        requires first { self.first ≤ MAX_PARTIES }
        requires ifaces { self.ifaces ≤ MAX_PARTIES }
        requires links { self.links ≤ MAX_PARTIES }
        ensures { result ≡ place_by self who }
    {
        match who {
            Who::Router(_) | Who::Bridge(_) => self.first,
            Who::Iface(_, number) => self.first + 1 + u16::from(number),
            Who::App(_, number) => self.first + 1 + self.ifaces + u16::from(number),
            Who::Link(number) => self.links + u16::from(number),
        }
    }

    /// The end of this party, which calls the lane so.
    fn end(self, who: Who, queue: QueueId) -> WireEnd
        requires first { self.first ≤ MAX_PARTIES }
        requires ifaces { self.ifaces ≤ MAX_PARTIES }
        requires links { self.links ≤ MAX_PARTIES }
        ensures { result ≡ record { who = who; party = place_by self who; queue = queue } }
    {
        WireEnd {
            who,
            party: self.place(who),
            queue,
        }
    }

    /// The lane of this kind between a link and the interface at this end.
    pub(crate) fn outer(self, kind: Outer, joint: &Joint) -> Wire
        requires first { self.first ≤ MAX_PARTIES }
        requires ifaces { self.ifaces ≤ MAX_PARTIES }
        requires links { self.links ≤ MAX_PARTIES }
        ensures { result ≡ wire_by self (outer_lane kind joint.now) }
    {
        let link = Who::Link(joint.link);
        let iface = Who::Iface(joint.end.node, joint.end.iface);
        let (queue, from, to) = match kind {
            Outer::Rx => {
                let queue = QueueId::Rx(joint.end.iface);
                let from = self.end(link, QueueId::Rx(joint.place));
                (queue, from, self.end(iface, queue))
            }
            Outer::Tx => {
                let queue = QueueId::Tx(joint.end.iface);
                let to = self.end(link, QueueId::Tx(joint.place));
                (queue, self.end(iface, queue), to)
            }
        };
        Wire {
            queue,
            carries: joint.carries,
            room: LINK_ROOM,
            from,
            to,
        }
    }

    /// The lane of this kind between the router or bridge of this node and its interface or application of this number.
    pub(crate) fn inner(self, kind: Inner, node: u8, hub: Who, number: u8) -> Wire
        requires first { self.first ≤ MAX_PARTIES }
        requires ifaces { self.ifaces ≤ MAX_PARTIES }
        requires links { self.links ≤ MAX_PARTIES }
        ensures { result ≡ wire_by self (inner_lane kind node hub number) }
    {
        let (queue, carries, room, from, to) = match kind {
            Inner::Out => (
                QueueId::Out(number),
                Carries::Out,
                OUT_ROOM,
                hub,
                Who::Iface(node, number),
            ),
            Inner::Down => (
                QueueId::Down(number),
                Carries::Down,
                DOWN_ROOM,
                hub,
                Who::App(node, number),
            ),
            Inner::Up => (
                QueueId::Up(number),
                Carries::Up,
                UP_ROOM,
                Who::App(node, number),
                hub,
            ),
        };
        Wire {
            queue,
            carries,
            room,
            from: self.end(from, queue),
            to: self.end(to, queue),
        }
    }
}
