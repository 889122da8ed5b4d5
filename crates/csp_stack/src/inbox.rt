//! What becomes of a packet from the inbox: the rules, in their order.

ghost use Rattle.std.specs.Prelude.{◌≡◌, ◌+◌, ◌<◌, ◌≤◌, ◌^◌, ℕ, ⊤, [], ◌∷◌, None, true, IfSome, MatchOption, length};
ghost use Rattle.csp_base.specs.declared.limits.TheConstants.{MAX_PAYLOAD};
ghost use Rattle.csp_route.specs.Routes.{IsWithin};
ghost use Rattle.csp_ports.specs.Counts.{IsCountable};
ghost use Rattle.csp_stack.specs.Comes.{ComesTo, IsFree, IsServing, Rules, arrival_of};
ghost use Rattle.csp_stack.specs.Keeps.{Keeps};
ghost use Rattle.csp_stack.specs.Party.{IsSendable};
ghost use Rattle.csp_stack.specs.Readings.{is_checked};
ghost use Rattle.csp_stack.specs.Rules.{by_way, for_this_node, heard, not_secured, without_checksum};

use crate::Outgoing;
use crate::at_port::hear_at_port;
use crate::counting::count;
use crate::facts::Facts;
use crate::packet::Packet;
use crate::readings::{is_packet_checked, is_packet_here, is_packet_secured};
use crate::state::State;
use csp_deck::{Discard, Events};
use csp_route::Row;
use csp_service::Count;

/// The first rule that decides.
pub fn hear(facts: &Facts, state: &mut State, now: u64, packet: Packet, report: &mut Events)
    requires sound { IsServing facts.now state.old.state }
    requires unwritten { report.old.items ≡ [] }
    requires of_it { packet.buffer.region ≡ state.old.region }
    requires countable { IsCountable state.old.state.ports }
    requires early { now < 2 ^ 62 }
    ensures told { ComesTo state.old state.new report.old.items report.new.items (heard facts.now state.old.state now (arrival_of packet)) }
    ensures sendable { IsSendable facts.now state.new.state.out }
    ensures keeps { Keeps (length facts.now.ifaces) state.old.state state.new.state (packet.buffer.picture.number ∷ []) }
{
    let Some(packet) = judge_destination(facts, state, packet, report) else {
        return;
    };
    let Some(packet) = judge_security(state, packet, report) else {
        return;
    };
    let Some(packet) = judge_checksum(state, packet, report) else {
        return;
    };
    hear_at_port(facts, state, now, packet, report);
}

/// 1. A packet for another node goes on as it is by the row of its route.
fn judge_destination(
    facts: &Facts,
    state: &mut State,
    packet: Packet,
    report: &mut Events,
) -> Option<Packet>
    requires free { IsFree state.old.state report.old.items }
    requires of_it { packet.buffer.region ≡ state.old.region }
    requires within { IsWithin (length facts.now.ifaces) state.old.state.routes }
    ensures told { Rules result (state.old, report.old.items) (state.new, report.new.items) (for_this_node facts.now state.old.state (arrival_of packet)) }
    ensures same { IfSome result (λ p. p ≡ packet) }
    ensures sendable { IsSendable facts.now state.new.state.out }
    ensures keeps { MatchOption result (Keeps (length facts.now.ifaces) state.old.state state.new.state (packet.buffer.picture.number ∷ [])) (λ _. ⊤) }
{
    if is_packet_here(facts.addr, &packet.header) {
        return Some(packet);
    }
    let Some(row) = state.route(packet.destination()) else {
        state.discard(Discard::NoRoute, packet.into_buffer(), report);
        return None;
    };
    forward(facts, state, row, packet, report);
    None
}

/// Forwards a packet by a row, but not back to where it came in.
#[tactic(auto, using(crate::proofs::Sendable::by_row_sendable))]
fn forward(facts: &Facts, state: &mut State, row: Row, packet: Packet, report: &mut Events)
    requires free { IsFree state.old.state report.old.items }
    requires of_it { packet.buffer.region ≡ state.old.region }
    requires way { row.iface < length facts.now.ifaces }
    ensures told { ComesTo state.old state.new report.old.items report.new.items (by_way row state.old.state (arrival_of packet)) }
    ensures sendable { IsSendable facts.now state.new.state.out }
    ensures keeps { Keeps (length facts.now.ifaces) state.old.state state.new.state (packet.buffer.picture.number ∷ []) }
{
    if row.iface == packet.mark {
        state.discard(Discard::BackOut, packet.into_buffer(), report);
    } else {
        state.leave(Outgoing::by_row(row, packet.into_buffer()));
    }
}

/// 2. A packet that is authenticated or encrypted is refused.
fn judge_security(state: &mut State, packet: Packet, report: &mut Events) -> Option<Packet>
    requires free { IsFree state.old.state report.old.items }
    requires of_it { packet.buffer.region ≡ state.old.region }
    ensures told { Rules result (state.old, report.old.items) (state.new, report.new.items) (not_secured state.old.state (arrival_of packet)) }
    ensures same { IfSome result (λ p. p ≡ packet) }
    ensures none { state.new.state.out ≡ None }
    ensures keeps { MatchOption result ((ifaces : ℕ) → Keeps ifaces state.old.state state.new.state (packet.buffer.picture.number ∷ [])) (λ _. ⊤) }
{
    if !is_packet_secured(&packet.header) {
        return Some(packet);
    }
    count(state, packet.mark, Count::AuthErrors, 1);
    state.discard(Discard::Refused, packet.into_buffer(), report);
    None
}

/// 3. Of a packet with a checksum the checksum is cut off.
fn judge_checksum(state: &mut State, packet: Packet, report: &mut Events) -> Option<Packet>
    requires free { IsFree state.old.state report.old.items }
    requires of_it { packet.buffer.region ≡ state.old.region }
    ensures told { Rules result (state.old, report.old.items) (state.new, report.new.items) (without_checksum state.old.state (arrival_of packet)) }
    ensures room { IfSome result (λ p. is_checked p.header ≡ true → length p.buffer.picture.payload + 4 ≤ MAX_PAYLOAD) }
    ensures none { state.new.state.out ≡ None }
    ensures keeps { MatchOption result ((ifaces : ℕ) → Keeps ifaces state.old.state state.new.state (packet.buffer.picture.number ∷ [])) (λ p. p.buffer.picture.number ≡ packet.buffer.picture.number) }
{
    if !is_packet_checked(&packet.header) {
        return Some(packet);
    }
    match packet.without_checksum() {
        Ok(packet) => Some(packet),
        Err(packet) => {
            count(state, packet.mark, Count::ReceiveErrors, 1);
            state.discard(Discard::CrcWrong, packet.into_buffer(), report);
            None
        }
    }
}
