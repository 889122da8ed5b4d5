//! What becomes of a packet at its port: the rules from the fourth on.

ghost use Rattle.std.specs.Prelude.{◌≡◌, ◌+◌, ◌<◌, ◌≤◌, ◌^◌, ℕ, ⊤, [], ◌∷◌, None, true, IfSome, MatchOption, length};
ghost use Rattle.csp_base.specs.declared.limits.TheConstants.{MAX_PAYLOAD};
ghost use Rattle.csp_conn.specs.Opening.{free_seat};
ghost use Rattle.csp_conn.specs.PlainConns.{IsThere};
ghost use Rattle.csp_ports.specs.Counts.{IsCountable};
ghost use Rattle.csp_rdp_header.specs.Head.{parted};
ghost use Rattle.csp_stack.specs.Comes.{ComesTo, IsFree, IsServing, Rules, arrival_of, heard_at_port, heard_at_socket, heard_elsewhere};
ghost use Rattle.csp_stack.specs.Keeps.{Keeps};
ghost use Rattle.csp_stack.specs.Party.{IsSendable};
ghost use Rattle.csp_stack.specs.Readings.{is_checked};
ghost use Rattle.csp_stack.specs.Router.{router};
ghost use Rattle.csp_stack.specs.Rules.{accepting, inviting, invitation_of, is_mixed, of_no_connection, opening, seat_for, to_connection, to_machine, to_no_socket, to_slot};
ghost use Rattle.csp_stack.specs.Told.{leaving};

use crate::Outgoing;
use crate::facts::Facts;
use crate::invitation::read_invitation;
use crate::packet::Packet;
use crate::readings::{are_flags_reliable, is_packet_lacking, is_packet_reliable};
use crate::services::judge_service;
use crate::state::State;
use csp_base::{SLOTS, Seat};
use csp_deck::{Discard, Event, Events};

/// The first of the rules from the fourth on that decides.
pub fn hear_at_port(facts: &Facts, state: &mut State, now: u64, packet: Packet, report: &mut Events)
    requires sound { IsServing facts.now state.old.state }
    requires unwritten { report.old.items ≡ [] }
    requires of_it { packet.buffer.region ≡ state.old.region }
    requires countable { IsCountable state.old.state.ports }
    requires early { now < 2 ^ 62 }
    requires room { is_checked packet.header ≡ true → length packet.buffer.picture.payload + 4 ≤ MAX_PAYLOAD }
    ensures told { ComesTo state.old state.new report.old.items report.new.items (heard_at_port facts.now state.old.state now (arrival_of packet)) }
    ensures sendable { IsSendable facts.now state.new.state.out }
    ensures keeps { Keeps (length facts.now.ifaces) state.old.state state.new.state (packet.buffer.picture.number ∷ []) }
{
    let Some(packet) = judge_connection(facts, state, now, packet, report) else {
        return;
    };
    hear_at_socket(facts, state, now, packet, report);
}

/// The first of the rules from the fifth on that decides.
fn hear_at_socket(facts: &Facts, state: &mut State, now: u64, packet: Packet, report: &mut Events)
    requires sound { IsServing facts.now state.old.state }
    requires unwritten { report.old.items ≡ [] }
    requires of_it { packet.buffer.region ≡ state.old.region }
    requires countable { IsCountable state.old.state.ports }
    requires early { now < 2 ^ 62 }
    requires room { is_checked packet.header ≡ true → length packet.buffer.picture.payload + 4 ≤ MAX_PAYLOAD }
    ensures told { ComesTo state.old state.new report.old.items report.new.items (heard_at_socket facts.now state.old.state now (arrival_of packet)) }
    ensures sendable { IsSendable facts.now state.new.state.out }
    ensures keeps { Keeps (length facts.now.ifaces) state.old.state state.new.state (packet.buffer.picture.number ∷ []) }
{
    let Some(packet) = judge_socket(facts, state, now, packet, report) else {
        return;
    };
    hear_elsewhere(facts, state, now, packet, report);
}

/// The first of the rules from the sixth on that decides.
fn hear_elsewhere(facts: &Facts, state: &mut State, now: u64, packet: Packet, report: &mut Events)
    requires sound { IsServing facts.now state.old.state }
    requires unwritten { report.old.items ≡ [] }
    requires of_it { packet.buffer.region ≡ state.old.region }
    requires early { now < 2 ^ 62 }
    requires room { is_checked packet.header ≡ true → length packet.buffer.picture.payload + 4 ≤ MAX_PAYLOAD }
    ensures told { ComesTo state.old state.new report.old.items report.new.items (heard_elsewhere facts.now state.old.state now (arrival_of packet)) }
    ensures sendable { IsSendable facts.now state.new.state.out }
    ensures keeps { Keeps (length facts.now.ifaces) state.old.state state.new.state (packet.buffer.picture.number ∷ []) }
{
    if is_packet_reliable(&packet.header) {
        state.discard(Discard::NoSocket, packet.into_buffer(), report);
    } else {
        judge_service(facts, state, now, packet, report);
    }
}

/// 4. A packet of a connection in use goes to the connection's application, or its machine.
fn judge_connection(
    facts: &Facts,
    state: &mut State,
    now: u64,
    packet: Packet,
    report: &mut Events,
) -> Option<Packet>
    requires sound { IsServing facts.now state.old.state }
    requires unwritten { report.old.items ≡ [] }
    requires of_it { packet.buffer.region ≡ state.old.region }
    requires countable { IsCountable state.old.state.ports }
    ensures told { Rules result (state.old, report.old.items) (state.new, report.new.items) (of_no_connection state.old.state now (arrival_of packet)) }
    ensures same { IfSome result (λ p. p ≡ packet) }
    ensures sendable { IsSendable facts.now state.new.state.out }
    ensures keeps { MatchOption result (Keeps (length facts.now.ifaces) state.old.state state.new.state (packet.buffer.picture.number ∷ [])) (λ _. ⊤) }
{
    let header = packet.header;
    let Some(seat) = seat_for(state, &packet) else {
        return Some(packet);
    };
    if is_apart(state, seat, &packet) {
        state.discard(Discard::Mixed, packet.into_buffer(), report);
    } else if is_packet_lacking(state.ports.owner(header.dport), &header) {
        state.discard(Discard::Required, packet.into_buffer(), report);
    } else {
        hear_on(facts, state, seat, now, packet, report);
    }
    None
}

/// The slot whose connection a packet is of.
fn seat_for(state: &State, packet: &Packet) -> Option<Seat>
    ensures value { result ≡ seat_for state.now.state (arrival_of packet.now) }
    ensures there { IfSome result (λ seat. IsThere state.now.state.ports.conns seat) }
{
    state.ports.find(packet.connection())
}

/// Whether a packet is of the reliable transport and the connection on a slot is not, or the other way round.
fn is_apart(state: &State, seat: Seat, packet: &Packet) -> bool
    requires there { IsThere state.now.state.ports.conns seat }
    ensures { result ≡ is_mixed state.now.state seat (arrival_of packet.now) }
{
    is_packet_reliable(&packet.header) != are_flags_reliable(state.ports.terms(seat).flags)
}

/// A packet of the connection on a slot goes to its application, or its machine.
fn hear_on(
    facts: &Facts,
    state: &mut State,
    seat: Seat,
    now: u64,
    packet: Packet,
    report: &mut Events,
)
    requires sound { IsServing facts.now state.old.state }
    requires unwritten { report.old.items ≡ [] }
    requires there { IsThere state.old.state.ports.conns seat }
    requires of_it { packet.buffer.region ≡ state.old.region }
    requires countable { IsCountable state.old.state.ports }
    ensures told { ComesTo state.old state.new report.old.items report.new.items (to_connection state.old.state seat now (arrival_of packet)) }
    ensures sendable { IsSendable facts.now state.new.state.out }
    ensures keeps { Keeps (length facts.now.ifaces) state.old.state state.new.state (packet.buffer.picture.number ∷ []) }
{
    if is_packet_reliable(&packet.header) {
        hear_by_machine(facts, state, seat, now, packet, report);
    } else {
        leave_to_slot(facts, state, seat, packet);
    }
}

/// A packet of the reliable transport goes to the machine of its connection, without its head.
fn hear_by_machine(
    facts: &Facts,
    state: &mut State,
    seat: Seat,
    now: u64,
    packet: Packet,
    report: &mut Events,
)
    requires sound { IsServing facts.now state.old.state }
    requires unwritten { report.old.items ≡ [] }
    requires there { IsThere state.old.state.ports.conns seat }
    requires of_it { packet.buffer.region ≡ state.old.region }
    requires countable { IsCountable state.old.state.ports }
    ensures told { ComesTo state.old state.new report.old.items report.new.items (to_machine (parted packet.buffer.picture.payload) state.old.state seat now (arrival_of packet)) }
    ensures out { state.new.state.out ≡ None }
    ensures keeps { Keeps (length facts.now.ifaces) state.old.state state.new.state (packet.buffer.picture.number ∷ []) }
{
    match packet.without_head() {
        Ok((head, buffer)) => state.hand(seat, head, buffer, now, report),
        Err(buffer) => state.discard(Discard::Malformed, buffer, report),
    }
}

/// A packet is to go to a slot of an application.
#[tactic(auto, using(crate::proofs::Sendable::to_slot_sendable))]
fn leave_to_slot(facts: &Facts, state: &mut State, seat: Seat, packet: Packet)
    requires none { state.old.state.out ≡ None }
    requires of_it { packet.buffer.region ≡ state.old.region }
    requires app { seat.app < facts.now.apps }
    requires slot { seat.slot < SLOTS }
    ensures told { ComesTo state.old state.new [] [] (leaving state.old.state (to_slot seat packet.buffer.picture)) }
    ensures sendable { IsSendable facts.now state.new.state.out }
    ensures keeps { (ifaces : ℕ) → Keeps ifaces state.old.state state.new.state (packet.buffer.picture.number ∷ []) }
{
    state.leave(Outgoing::to_slot(seat, packet.into_buffer()));
}

/// 5. A packet to a bound port opens a connection of the application that bound the port.
fn judge_socket(
    facts: &Facts,
    state: &mut State,
    now: u64,
    packet: Packet,
    report: &mut Events,
) -> Option<Packet>
    requires sound { IsServing facts.now state.old.state }
    requires unwritten { report.old.items ≡ [] }
    requires of_it { packet.buffer.region ≡ state.old.region }
    requires countable { IsCountable state.old.state.ports }
    ensures told { Rules result (state.old, report.old.items) (state.new, report.new.items) (to_no_socket facts.now state.old.state now (arrival_of packet)) }
    ensures same { IfSome result (λ p. p ≡ packet) }
    ensures sendable { IsSendable facts.now state.new.state.out }
    ensures keeps { MatchOption result (Keeps (length facts.now.ifaces) state.old.state state.new.state (packet.buffer.picture.number ∷ [])) (λ _. ⊤) }
{
    let header = packet.header;
    let owner = state.ports.owner(header.dport);
    let Some((app, _)) = owner else {
        return Some(packet);
    };
    if is_packet_lacking(owner, &header) {
        state.discard(Discard::Required, packet.into_buffer(), report);
    } else {
        hear_at(facts, state, app, now, packet, report);
    }
    None
}

/// A packet to a port that an application has bound opens a connection.
fn hear_at(facts: &Facts, state: &mut State, app: u8, now: u64, packet: Packet, report: &mut Events)
    requires sound { IsServing facts.now state.old.state }
    requires unwritten { report.old.items ≡ [] }
    requires of_it { packet.buffer.region ≡ state.old.region }
    requires countable { IsCountable state.old.state.ports }
    requires app { app < facts.now.apps }
    ensures told { ComesTo state.old state.new report.old.items report.new.items (opening app facts.now state.old.state now (arrival_of packet)) }
    ensures sendable { IsSendable facts.now state.new.state.out }
    ensures keeps { Keeps (length facts.now.ifaces) state.old.state state.new.state (packet.buffer.picture.number ∷ []) }
{
    if is_packet_reliable(&packet.header) {
        invite(facts, state, app, now, packet, report);
    } else {
        accept(facts, state, app, packet, report);
    }
}

/// A packet opens a connection in the least free slot of an application, and goes there.
fn accept(facts: &Facts, state: &mut State, app: u8, packet: Packet, report: &mut Events)
    requires sound { IsServing facts.now state.old.state }
    requires unwritten { report.old.items ≡ [] }
    requires of_it { packet.buffer.region ≡ state.old.region }
    requires app { app < facts.now.apps }
    ensures told { ComesTo state.old state.new report.old.items report.new.items (accepting (free_seat state.old.state.ports.conns app) state.old.state (arrival_of packet)) }
    ensures sendable { IsSendable facts.now state.new.state.out }
    ensures keeps { Keeps (length facts.now.ifaces) state.old.state state.new.state (packet.buffer.picture.number ∷ []) }
{
    let (connection, flags) = (packet.connection(), packet.answer_flags());
    match state
        .ports
        .accept(app, connection, packet.header.prio, flags)
    {
        Some(seat) => {
            let Seat { app, slot } = seat;
            report.push(Event::Opened {
                app,
                slot,
                nth: None,
                peer: None,
            });
            leave_to_slot(facts, state, seat, packet);
        }
        None => state.discard(Discard::NoSlot, packet.into_buffer(), report),
    }
}

/// A packet that asks for a reliable connection opens one in the least free slot of an application.
fn invite(facts: &Facts, state: &mut State, app: u8, now: u64, packet: Packet, report: &mut Events)
    requires sound { IsServing facts.now state.old.state }
    requires unwritten { report.old.items ≡ [] }
    requires of_it { packet.buffer.region ≡ state.old.region }
    requires countable { IsCountable state.old.state.ports }
    requires app { app < facts.now.apps }
    ensures told { ComesTo state.old state.new report.old.items report.new.items (inviting (invitation_of packet.buffer.picture) (free_seat state.old.state.ports.conns app) (router facts.now state.old.state) now (arrival_of packet)) }
    ensures out { state.new.state.out ≡ None }
    ensures keeps { Keeps (length facts.now.ifaces) state.old.state state.new.state (packet.buffer.picture.number ∷ []) }
{
    let invitation = match read_invitation(&packet.buffer) {
        Ok(invitation) => invitation,
        Err(why) => {
            state.discard(why, packet.into_buffer(), report);
            return;
        }
    };
    let (connection, flags) = (packet.connection(), packet.answer_flags());
    let prio = packet.header.prio;
    let buffer = packet.into_buffer();
    if let Err(buffer) = state.invite(
        facts, app, connection, prio, flags, invitation, buffer, now,
    ) {
        state.discard(Discard::NoSlot, buffer, report);
    }
}
