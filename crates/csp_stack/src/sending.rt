//! The sending of a node's own packets.

ghost use Rattle.std.specs.Prelude.{◌≡◌, ◌+◌, ◌≤◌, ◌∷◌, [], true, length};
ghost use Rattle.csp_base.specs.declared.limits.TheConstants.{MAX_PAYLOAD};
ghost use Rattle.csp_buffer.specs.PlainBuffer.{with_picture};
ghost use Rattle.csp_route.specs.Routes.{IsWithin};
ghost use Rattle.csp_stack.specs.Comes.{ComesTo, IsFree};
ghost use Rattle.csp_stack.specs.Keeps.{Keeps};
ghost use Rattle.csp_stack.specs.Party.{IsSendable};
ghost use Rattle.csp_stack.specs.Readings.{is_checked};
ghost use Rattle.csp_stack.specs.Rules.{addressed, sent};
ghost use Rattle.csp_stack.specs.Sending.{headed, protected};

use crate::Outgoing;
use crate::facts::Facts;
use crate::readings::is_packet_checked;
use crate::state::State;
use csp_buffer::Buffer;
use csp_conn::Connection;
use csp_crc::crc32c;
use csp_deck::{Discard, Events};
use csp_header::{FlagSet, Header};
use csp_ports::Terms;

/// Sends a packet of the node as it is: to its own address through its inbox, else by the row of its
/// route. Without one it is discarded.
#[tactic(auto, using(crate::proofs::Sendable::by_row_sendable))]
pub fn send(facts: &Facts, state: &mut State, buffer: Buffer, report: &mut Events)
    requires free { IsFree state.old.state report.old.items }
    requires of_it { buffer.region ≡ state.old.region }
    requires within { IsWithin (length facts.now.ifaces) state.old.state.routes }
    ensures told { ComesTo state.old state.new report.old.items report.new.items (sent facts.now state.old.state buffer.picture) }
    ensures sendable { IsSendable facts.now state.new.state.out }
    ensures keeps { Keeps (length facts.now.ifaces) state.old.state state.new.state (buffer.picture.number ∷ []) }
{
    let destination = Header::decode(buffer.header()).dst;
    if destination == facts.addr {
        state.leave(Outgoing::to_itself(buffer));
        return;
    }
    match state.route(destination) {
        Some(row) => state.leave(Outgoing::by_row(row, buffer)),
        None => state.discard(Discard::NoRoute, buffer, report),
    }
}

/// A packet of a connection: with the connection's priority, flags, addresses and ports.
pub fn addressed(facts: &Facts, connection: Connection, terms: Terms, buffer: Buffer) -> Buffer
    requires { length buffer.picture.payload + 4 ≤ MAX_PAYLOAD }
    ensures { result ≡ with_picture buffer (addressed facts.now connection terms buffer.picture) }
{
    let header = Header {
        prio: terms.prio,
        src: facts.addr,
        dst: connection.peer,
        dport: connection.peer_port,
        sport: connection.own_port,
        flags: FlagSet(terms.flags),
    };
    headed(header, buffer)
}

/// A packet with this header, and with the checksum of its payload where the header's flags say so.
pub fn headed(header: Header, buffer: Buffer) -> Buffer
    requires { is_checked header ≡ true → length buffer.picture.payload + 4 ≤ MAX_PAYLOAD }
    ensures { result ≡ with_picture buffer (headed header buffer.picture) }
{
    let mut packet = protected(is_packet_checked(&header), buffer);
    packet.set_header(header.encode());
    packet
}

/// Appends the checksum of its payload to a packet that is to have one.
#[tactic(auto, unfolding(csp_crc::specs::Crc::checked))]
fn protected(is_checked: bool, buffer: Buffer) -> Buffer
    requires { is_checked ≡ true → length buffer.picture.payload + 4 ≤ MAX_PAYLOAD }
    ensures { result ≡ with_picture buffer (protected is_checked buffer.picture) }
{
    let mut packet = buffer;
    if is_checked {
        let checksum = crc32c(packet.payload()).to_be_bytes();
        packet.push_tail(&checksum).unwrap();
    }
    packet
}
