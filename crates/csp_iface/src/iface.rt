//! The interface itself.

ghost use Rattle.std.specs.Prelude.{◌≡◌, ◌↔◌, ◌<◌, ◌≤◌, [], ◌∷◌, ◌++◌, IsTrue, IfSome, MatchOption};
ghost use Rattle.csp_deck.specs.Step.{times};

use crate::packet::Whole;
use crate::plan::{IfacePlan, Side};
use crate::receiver::Receiver;
use crate::sender::Sender;
use csp_arena::RegionToken;
use csp_base::{Addr, MAX_PAYLOAD};
use csp_buffer::Buffer;
use csp_deck::Hand;
use csp_log::{IFACES, LinkKind};
use std::marker::Model;

/// How many payload bytes a packet on a hub has at most.
pub const HUB_MTU: u16 = 256;

/// An interface: a party that sends packets as frames and receives frames as packets, the two sides in
/// turn. Contracts see it as plain lists and numbers, and the region that its buffers are of.
///
/// It must be spent by `end`, when it holds no buffer.
pub struct Iface {
    pub(crate) node: u8,
    pub(crate) number: u8,
    pub(crate) kind: LinkKind,
    pub(crate) mtu: u16,
    /// On a hub the address of its node.
    pub(crate) heeds: Option<Addr>,
    pub(crate) side: Side,
    pub(crate) back: Hand,
    pub(crate) sender: Sender,
    pub(crate) serial: u64,
    pub(crate) receiver: Receiver,
    pub(crate) whole: Whole,
    pub(crate) accepted: Hand,
    pub(crate) doing: IfacePlan,
}

impl Model for Iface {
    ghost use Rattle.csp_iface.specs.PlainIface.{IfaceAt};

    ghost Value = { IfaceAt };

    ghost use Rattle.csp_iface.specs.Room.{iface_at, IsIface};

    ghost view = { iface_at };

    ghost invariant = { IsIface };
}

impl Iface {
    ghost use Rattle.csp_iface.specs.Drained.{drained};
    ghost use Rattle.csp_iface.specs.PlainIface.{opening, opening_on_hub, buffers, holds, with_iface};

    /// The interface of this number of a node, on a link of this kind, at its opening. It sends and takes packets
    /// of at most `mtu` payload bytes. Its buffers are of this region. It takes no memory.
    pub fn new(node: u8, number: u8, kind: LinkKind, mtu: u16, region: RegionToken) -> Iface
        requires number { number < IFACES }
        requires mtu { mtu ≤ MAX_PAYLOAD }
        ensures { result ≡ record { region = region.name; iface = opening node number kind mtu } }
    {
        Iface {
            node,
            number,
            kind,
            mtu,
            heeds: None,
            side: Side::Sending,
            back: Hand::empty(region.copy()),
            sender: Sender::idle(region.copy()),
            serial: 0,
            receiver: Receiver::for_link(kind, mtu),
            whole: Whole::none(),
            accepted: Hand::empty(region),
            doing: IfacePlan::Rest,
        }
    }

    /// The interface of this number of a node of this address, on a hub, at its opening. As on a CAN bus, but it takes
    /// only the frames for that address and for every node. It takes no memory.
    pub fn hub(node: u8, number: u8, addr: Addr, region: RegionToken) -> Iface
        requires { number < IFACES }
        ensures { result ≡ record { region = region.name; iface = opening_on_hub node number addr } }
    {
        let mut iface = Iface::new(node, number, LinkKind::Can, HUB_MTU, region);
        iface.heeds = Some(addr);
        iface
    }

    /// Whether it holds the buffer of this number.
    pub fn holds(&self, number: u16) -> bool
        ensures { IsTrue result ↔ (0 < times number (holds self.now.iface)) }
    {
        self.back.holds(number) || self.sender.holds(number) || self.accepted.holds(number)
    }

    /// Hands out a buffer that it holds. `None` exactly where it holds none.
    pub fn drain(&mut self) -> Option<Buffer>
        ensures buffers { MatchOption result ((buffers self.old.iface ≡ []) × (self.new ≡ self.old)) (λ b. buffers self.old.iface ≡ b.picture ∷ buffers self.new.iface) }
        ensures holds { MatchOption result ((holds self.old.iface ≡ []) × (self.new ≡ self.old)) (λ b. holds self.old.iface ≡ b.picture.number ∷ holds self.new.iface) }
        ensures of_it { IfSome result (λ b. b.region ≡ self.old.region) }
        ensures first { self.new ≡ with_iface self.old (drained self.old.iface) }
    {
        if let Some(buffer) = self.back.take() {
            return Some(buffer);
        }
        if let Some(buffer) = self.sender.release() {
            return Some(buffer);
        }
        self.accepted.take()
    }

    /// Ends the interface, which holds no buffer.
    pub fn end(self)
        requires { holds self.iface ≡ [] }
    {
        let Iface {
            node: _,
            number: _,
            kind: _,
            mtu: _,
            heeds: _,
            side: _,
            back,
            sender,
            serial: _,
            receiver: _,
            whole: _,
            accepted,
            doing: _,
        } = self;
        back.end();
        sender.end();
        accepted.end();
    }
}
