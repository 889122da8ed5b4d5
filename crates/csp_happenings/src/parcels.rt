//! What is told of packets and frames.

ghost use Rattle.std.specs.Prelude.{◌≡◌};
ghost use Rattle.csp_happenings.specs.Happenings.{kind_in, without_crc, kind_of, kind_at, parcel_of, parcel_in};

use crate::kinds::{Kind, Parcel};
use csp_log::{LoggedPacket, Moved, QueueId};
use csp_rdp_header::{EAK, RST, RdpHead, SYN};

/// What a packet with this head, and these bytes before it, is.
fn kind_in(before: &[u8], head: RdpHead) -> Kind
    ensures { result ≡ kind_in before.now head }
{
    if head.has(SYN) {
        Kind::Syn
    } else if head.has(RST) {
        Kind::Rst
    } else if head.has(EAK) {
        Kind::Eak
    } else if before.is_empty() {
        Kind::Ack
    } else {
        Kind::Data
    }
}

/// A payload without its checksum, where the header says that it has one.
fn without_crc(header: u32, payload: &[u8]) -> &[u8]
    ensures { result.now ≡ without_crc header payload.now }
{
    if header % 2 == 1 {
        &payload[..payload.len().saturating_sub(4)]
    } else {
        payload
    }
}

/// What a packet is to its reliable connection, by the head at the end of its payload.
fn kind_of(header: u32, payload: &[u8]) -> Kind
    ensures { result ≡ kind_of header payload.now }
{
    match RdpHead::decode(without_crc(header, payload)) {
        Ok((before, head)) => kind_in(before, head),
        Err(_) => Kind::Short,
    }
}

/// What a packet in this queue is to its reliable connection.
fn kind_at(queue: QueueId, header: u32, payload: &[u8]) -> Kind
    ensures { result ≡ kind_at queue header payload.now }
{
    match queue {
        QueueId::Up(_) | QueueId::Down(_) => Kind::Data,
        QueueId::Inbox | QueueId::Out(_) | QueueId::Tx(_) | QueueId::Rx(_) => {
            kind_of(header, payload)
        }
    }
}

/// What is told of a packet in this queue.
pub(crate) fn parcel_of(queue: QueueId, packet: &LoggedPacket) -> Parcel
    ensures { result ≡ parcel_of queue packet.now }
{
    let payload = packet.payload();
    Parcel {
        header: packet.header(),
        len: payload.len(),
        kind: kind_at(queue, packet.header(), payload),
        trace: packet.trace(),
    }
}

/// What is told of the packet that a turn moved, if it moved one.
pub(crate) fn parcel_in(moved: &Moved) -> Option<Parcel>
    ensures { result ≡ parcel_in moved.now }
{
    match moved {
        Moved::Pushed(queue, packet) | Moved::Popped(queue, packet) => {
            Some(parcel_of(*queue, packet))
        }
        Moved::NoPacket => None,
    }
}
