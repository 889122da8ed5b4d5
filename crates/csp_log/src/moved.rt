//! The packet that a turn moved, read from a log without a copy.

ghost use Rattle.std.specs.Prelude.{◌≡◌};
ghost use Rattle.csp_buffer.specs.Trails.{trace_of};
ghost use Rattle.csp_log.specs.Rows.{packet_of, op_of, answer_of};
ghost use Rattle.csp_log.specs.Moving.{moved_by};

use crate::QueueId;
use crate::row::{Deed, ItemHead, PacketHead};
use csp_base::Trace;
use csp_buffer::Trail;
use std::marker::Model;

/// A packet in a log, its payload borrowed from it. Contracts see it as its number, header word, payload and trace.
#[derive(Drop)]
pub struct LoggedPacket<'a> {
    head: PacketHead,
    trail: Trail,
    bytes: &'a [u8],
}

impl<'a> Model for LoggedPacket<'a> {
    ghost use Rattle.csp_buffer.specs.Content.{Content};
    ghost use Rattle.csp_buffer.specs.Trails.{trace_of};
    ghost use Rattle.csp_log.specs.Rows.{packet_of};

    ghost Value = { Content };

    ghost view = { λ p. packet_of p.bytes.now (trace_of p.trail) p.head };
}

impl<'a> LoggedPacket<'a> {
    /// The packet with this head, trail and payload.
    fn of(head: &PacketHead, trail: &Trail, bytes: &'a [u8]) -> LoggedPacket<'a>
        ensures { result ≡ packet_of bytes.now (trace_of trail.now) head.now }
    {
        LoggedPacket {
            head: *head,
            trail: *trail,
            bytes,
        }
    }

    /// The same packet once more.
    pub fn again(&self) -> LoggedPacket<'a>
        ensures { result ≡ self.now }
    {
        LoggedPacket {
            head: self.head,
            trail: self.trail,
            bytes: self.bytes,
        }
    }

    /// The header word.
    pub fn header(&self) -> u32
        ensures { result ≡ self.now.header }
    {
        self.head.header
    }

    /// The payload.
    pub fn payload(&self) -> &'a [u8]
        ensures { result.now ≡ self.now.payload }
    {
        self.bytes
    }

    /// The trace.
    pub fn trace(&self) -> Trace
        ensures { result ≡ self.now.trace }
    {
        self.trail.trace()
    }
}

/// What a turn moved between its party and a queue.
#[derive(Drop)]
pub enum Moved<'a> {
    /// This packet, into this queue.
    Pushed(QueueId, LoggedPacket<'a>),
    /// This packet, out of this queue.
    Popped(QueueId, LoggedPacket<'a>),
    /// No packet.
    NoPacket,
}

/// What a deed with these bytes and this trail moved.
pub(crate) fn read_moved<'a>(bytes: &'a [u8], trail: &Trail, deed: &Deed) -> Moved<'a>
    ensures { result ≡ moved_by (op_of bytes.now (trace_of trail.now) deed.now) (answer_of bytes.now (trace_of trail.now) deed.now) }
{
    match deed {
        Deed::Pushed(queue, ItemHead::Packet { packet, .. }) => {
            Moved::Pushed(*queue, LoggedPacket::of(packet, trail, bytes))
        }
        Deed::Popped(queue, ItemHead::Packet { packet, .. }) => {
            Moved::Popped(*queue, LoggedPacket::of(packet, trail, bytes))
        }
        _ => Moved::NoPacket,
    }
}
