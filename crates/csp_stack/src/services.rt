//! What becomes of a packet to the port of a service.

ghost use Rattle.std.specs.Prelude.{◌≡◌, ◌≢◌, ◌+◌, ◌<◌, ◌≤◌, ◌^◌, [], ◌∷◌, true, length};
ghost use Rattle.csp_base.specs.declared.limits.TheConstants.{MAX_PAYLOAD};
ghost use Rattle.csp_base.specs.Trace.{no_trace};
ghost use Rattle.csp_buffer.specs.PlainBuffer.{with_picture};
ghost use Rattle.csp_route.specs.Routes.{IsWithin};
ghost use Rattle.csp_stack.specs.Comes.{ComesTo, IsFree, arrival_of};
ghost use Rattle.csp_stack.specs.Keeps.{Keeps};
ghost use Rattle.csp_stack.specs.Party.{IsSendable};
ghost use Rattle.csp_stack.specs.Readings.{is_checked};
ghost use Rattle.csp_stack.specs.Rules.{by_service, sent};
ghost use Rattle.csp_service.specs.Answers.{answered, outcome};
ghost use Rattle.csp_stack.specs.Serving.{facts_of, reply_header, reply_in, with_facts};

use crate::facts::Facts;
use crate::packet::Packet;
use crate::sending::{headed, send};
use crate::state::State;
use bitflags::Flags;
use csp_base::Trace;
use csp_buffer::Buffer;
use csp_cmp::CmpReply;
use csp_deck::{Discard, Events};
use csp_header::{FlagSet, Header};
use csp_service::{Served, Service, answer};

/// 6. A packet to the port of a service is the service's request.
pub fn judge_service(
    facts: &Facts,
    state: &mut State,
    now: u64,
    packet: Packet,
    report: &mut Events,
)
    requires free { IsFree state.old.state report.old.items }
    requires of_it { packet.buffer.region ≡ state.old.region }
    requires early { now < 2 ^ 62 }
    requires room { is_checked packet.header ≡ true → length packet.buffer.picture.payload + 4 ≤ MAX_PAYLOAD }
    requires within { IsWithin (length facts.now.ifaces) state.old.state.routes }
    ensures told { ComesTo state.old state.new report.old.items report.new.items (by_service facts.now state.old.state now (arrival_of packet)) }
    ensures sendable { IsSendable facts.now state.new.state.out }
    ensures keeps { Keeps (length facts.now.ifaces) state.old.state state.new.state (packet.buffer.picture.number ∷ []) }
{
    match packet.service() {
        Some(Service::Ping) => echo(facts, state, packet, report),
        Some(_) => ask_service(facts, state, now, packet, report),
        None => state.discard(Discard::NoSocket, packet.into_buffer(), report),
    }
}

/// A ping comes back with its payload as it stands, also where that is longer than other replies are.
fn echo(facts: &Facts, state: &mut State, packet: Packet, report: &mut Events)
    requires free { IsFree state.old.state report.old.items }
    requires of_it { packet.buffer.region ≡ state.old.region }
    requires room { is_checked packet.header ≡ true → length packet.buffer.picture.payload + 4 ≤ MAX_PAYLOAD }
    requires within { IsWithin (length facts.now.ifaces) state.old.state.routes }
    ensures told { ComesTo state.old state.new report.old.items report.new.items (sent facts.now state.old.state (reply_in facts.now packet.header packet.buffer.picture packet.buffer.picture.payload)) }
    ensures sendable { IsSendable facts.now state.new.state.out }
    ensures keeps { Keeps (length facts.now.ifaces) state.old.state state.new.state (packet.buffer.picture.number ∷ []) }
{
    let header = reply_header(facts, &packet.header);
    let mut buffer = packet.into_buffer();
    buffer.set_trace(Trace::empty());
    send(facts, state, headed(header, buffer), report);
}

/// A service is asked, where one has the packet's port.
fn ask_service(facts: &Facts, state: &mut State, now: u64, packet: Packet, report: &mut Events)
    requires free { IsFree state.old.state report.old.items }
    requires of_it { packet.buffer.region ≡ state.old.region }
    requires early { now < 2 ^ 62 }
    requires short { packet.header.dport ≢ 1 }
    requires within { IsWithin (length facts.now.ifaces) state.old.state.routes }
    ensures told { ComesTo state.old state.new report.old.items report.new.items (by_service facts.now state.old.state now (arrival_of packet)) }
    ensures sendable { IsSendable facts.now state.new.state.out }
    ensures keeps { Keeps (length facts.now.ifaces) state.old.state state.new.state (packet.buffer.picture.number ∷ []) }
{
    let mut reply = CmpReply::new();
    let served = ask(facts, state, now, &packet, &mut reply);
    match served {
        Served::Reply => send_reply(facts, state, packet, &reply, report),
        Served::Silent(event) => state.spend(event, packet.into_buffer(), report),
        Served::Refused(_) => state.discard(Discard::Malformed, packet.into_buffer(), report),
        Served::NoService => state.discard(Discard::NoSocket, packet.into_buffer(), report),
    }
}

/// What the services answer to a packet.
fn ask(facts: &Facts, state: &mut State, now: u64, packet: &Packet, reply: &mut CmpReply) -> Served
    requires early { now < 2 ^ 62 }
    requires short { packet.now.header.dport ≢ 1 }
    ensures value { outcome result reply.new.items (facts_of facts.now state.new.state) ≡ answered packet.now.header.dport packet.now.buffer.picture.payload (facts_of facts.now state.old.state) now }
    ensures state { state.new ≡ record state.old { state = with_facts state.old.state (facts_of facts.now state.new.state) } }
    ensures within { IsWithin (length facts.now.ifaces) state.old.state.routes → IsWithin (length facts.now.ifaces) state.new.state.routes }
{
    answer(
        packet.header.dport,
        packet.buffer.payload(),
        &facts.names,
        &mut state.routes,
        &mut state.services,
        now,
        reply,
    )
}

/// A reply goes to where its request came from, in the request's buffer.
fn send_reply(
    facts: &Facts,
    state: &mut State,
    packet: Packet,
    reply: &CmpReply,
    report: &mut Events,
)
    requires free { IsFree state.old.state report.old.items }
    requires of_it { packet.buffer.region ≡ state.old.region }
    requires within { IsWithin (length facts.now.ifaces) state.old.state.routes }
    ensures told { ComesTo state.old state.new report.old.items report.new.items (sent facts.now state.old.state (reply_in facts.now packet.header packet.buffer.picture reply.now.items)) }
    ensures sendable { IsSendable facts.now state.new.state.out }
    ensures keeps { Keeps (length facts.now.ifaces) state.old.state state.new.state (packet.buffer.picture.number ∷ []) }
{
    let header = reply_header(facts, &packet.header);
    let buffer = refilled(packet.into_buffer(), reply);
    send(facts, state, headed(header, buffer), report);
}

/// The header of a reply: addresses and ports are swapped, and the source is the node's own address, also
/// where the request came to 31; the priority stays, and of the flags that of a checksum.
fn reply_header(facts: &Facts, header: &Header) -> Header
    ensures { result ≡ reply_header facts.now header.now }
{
    Header {
        prio: header.prio,
        src: facts.addr,
        dst: header.src,
        dport: header.sport,
        sport: header.dport,
        flags: FlagSet(header.flags.bits() & FlagSet::CRC32.0),
    }
}

/// A buffer with the bytes of a reply in place of its payload, and with no trace.
fn refilled(buffer: Buffer, reply: &CmpReply) -> Buffer
    ensures value { result ≡ with_picture buffer (record buffer.picture { header = 0; payload = reply.now.items; trace = no_trace }) }
    ensures room { length result.picture.payload + 4 ≤ MAX_PAYLOAD }
{
    let mut packet = buffer;
    packet.clear();
    packet.push_tail(reply.as_slice()).unwrap();
    packet
}
