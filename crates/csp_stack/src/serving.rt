//! What becomes of what an application pushed.

ghost use Rattle.std.specs.Prelude.{◌≡◌, ◌==◌, ◌<◌, ◌≤◌, ℕ, [], ◌∷◌, None, length};
ghost use Rattle.csp_conn.specs.PlainConns.{IsThere, slot_at};
ghost use Rattle.csp_deck.specs.Carried.{IsRequest};
ghost use Rattle.csp_deck.specs.Regions.{IsItemOf};
ghost use Rattle.csp_deck.specs.Step.{item_numbers};
ghost use Rattle.csp_log.specs.Pictures.{shown_item};
ghost use Rattle.csp_ports.specs.Asking.{bind};
ghost use Rattle.csp_ports.specs.Counts.{IsCountable};
ghost use Rattle.csp_ports.specs.PlainPorts.{stalls_of, waiting};
ghost use Rattle.csp_stack.specs.Comes.{ComesTo, IsServing};
ghost use Rattle.csp_stack.specs.Keeps.{Keeps};
ghost use Rattle.csp_stack.specs.Party.{IsFrom, IsSendable};
ghost use Rattle.csp_stack.specs.Router.{router};
ghost use Rattle.csp_stack.specs.Rules.{by_slot, on_connection, requested, served};
ghost use Rattle.csp_stack.specs.Told.{unchanged, with_ports};

use crate::facts::Facts;
use crate::readings::are_flags_reliable;
use crate::sending::{addressed, send};
use crate::state::State;
use csp_base::{Port, Seat};
use csp_buffer::Buffer;
use csp_conn::{Connection, Slot};
use csp_deck::{Discard, Event, Events, Item, ItemShown, MAX_DATA, Note, UNMARKED};
use csp_ports::Request;

/// What becomes of an item of the application of this number.
#[tactic(auto, using(crate::proofs::Keeping::unchanged_keeps))]
pub fn serve(facts: &Facts, state: &mut State, now: u64, app: u8, item: Item, report: &mut Events)
    requires sound { IsServing facts.now state.old.state }
    requires unwritten { report.old.items ≡ [] }
    requires of_it { IsItemOf state.old.region item }
    requires from { IsFrom facts.now app (shown_item item) }
    requires first { waiting app state.old.state.ports.owed ≡ 0 }
    requires alone { stalls_of app state.old.state.ports.slots ≡ 0 }
    requires countable { IsCountable state.old.state.ports }
    ensures told { ComesTo state.old state.new report.old.items report.new.items (served facts.now state.old.state now app (shown_item item)) }
    ensures sendable { IsSendable facts.now state.new.state.out }
    ensures keeps { Keeps (length facts.now.ifaces) state.old.state state.new.state (item_numbers (shown_item item)) }
{
    match item {
        Item::Packet { mark, buffer } => {
            serve_packet(facts, state, now, app, mark, buffer, report);
        }
        Item::Note(note) => request(facts, state, now, app, note, report),
        Item::Frame(_) => {}
    }
}

/// An unmarked packet is sent as it is, and one for a slot by its connection.
fn serve_packet(
    facts: &Facts,
    state: &mut State,
    now: u64,
    app: u8,
    mark: u8,
    buffer: Buffer,
    report: &mut Events,
)
    requires sound { IsServing facts.now state.old.state }
    requires unwritten { report.old.items ≡ [] }
    requires of_it { buffer.region ≡ state.old.region }
    requires from { IsFrom facts.now app (ItemShown.Packet mark buffer.picture) }
    requires alone { stalls_of app state.old.state.ports.slots ≡ 0 }
    requires countable { IsCountable state.old.state.ports }
    ensures told { ComesTo state.old state.new report.old.items report.new.items (served facts.now state.old.state now app (ItemShown.Packet mark buffer.picture)) }
    ensures sendable { IsSendable facts.now state.new.state.out }
    ensures keeps { Keeps (length facts.now.ifaces) state.old.state state.new.state (buffer.picture.number ∷ []) }
{
    if mark == UNMARKED {
        send(facts, state, buffer, report);
    } else {
        let seat = Seat { app, slot: mark };
        serve_slot(facts, state, now, seat, buffer, report);
    }
}

/// A packet for a slot is sent on the slot's connection. Without one it is discarded.
fn serve_slot(
    facts: &Facts,
    state: &mut State,
    now: u64,
    seat: Seat,
    buffer: Buffer,
    report: &mut Events,
)
    requires sound { IsServing facts.now state.old.state }
    requires unwritten { report.old.items ≡ [] }
    requires of_it { buffer.region ≡ state.old.region }
    requires there { IsThere state.old.state.ports.conns seat }
    requires room { length buffer.picture.payload ≤ MAX_DATA }
    requires alone { stalls_of seat.app state.old.state.ports.slots ≡ 0 }
    requires countable { IsCountable state.old.state.ports }
    ensures told { ComesTo state.old state.new report.old.items report.new.items (by_slot (slot_at state.old.state.ports.conns seat) (router facts.now state.old.state) seat now buffer.picture) }
    ensures sendable { IsSendable facts.now state.new.state.out }
    ensures keeps { Keeps (length facts.now.ifaces) state.old.state state.new.state (buffer.picture.number ∷ []) }
{
    match state.ports.slot(seat) {
        Slot::Free | Slot::Held => state.discard(Discard::NoConn, buffer, report),
        Slot::Open(connection) => {
            serve_connection(facts, state, now, seat, connection, buffer, report);
        }
    }
}

/// A packet for a slot is sent on a plain connection, or handed over to a reliable one.
fn serve_connection(
    facts: &Facts,
    state: &mut State,
    now: u64,
    seat: Seat,
    connection: Connection,
    buffer: Buffer,
    report: &mut Events,
)
    requires sound { IsServing facts.now state.old.state }
    requires unwritten { report.old.items ≡ [] }
    requires of_it { buffer.region ≡ state.old.region }
    requires there { IsThere state.old.state.ports.conns seat }
    requires room { length buffer.picture.payload ≤ MAX_DATA }
    requires alone { stalls_of seat.app state.old.state.ports.slots ≡ 0 }
    requires countable { IsCountable state.old.state.ports }
    ensures told { ComesTo state.old state.new report.old.items report.new.items (on_connection connection (router facts.now state.old.state) seat now buffer.picture) }
    ensures sendable { IsSendable facts.now state.new.state.out }
    ensures keeps { Keeps (length facts.now.ifaces) state.old.state state.new.state (buffer.picture.number ∷ []) }
{
    let terms = state.ports.terms(seat);
    if are_flags_reliable(terms.flags) {
        state.submit(seat, buffer, now, report);
        return;
    }
    report.push(Event::Sent {
        slot: seat.slot,
        ordinal: terms.ordinal,
    });
    send(
        facts,
        state,
        addressed(facts, connection, terms, buffer),
        report,
    );
}

/// A request is answered.
#[tactic(auto, using(crate::proofs::Keeping::unchanged_keeps))]
fn request(facts: &Facts, state: &mut State, now: u64, app: u8, note: Note, report: &mut Events)
    requires sound { IsServing facts.now state.old.state }
    requires unwritten { report.old.items ≡ [] }
    requires app { app < state.old.state.ports.conns.apps }
    requires asks { IsRequest note }
    requires first { waiting app state.old.state.ports.owed ≡ 0 }
    requires countable { IsCountable state.old.state.ports }
    ensures told { ComesTo state.old state.new report.old.items report.new.items (requested facts.now state.old.state app now note) }
    ensures out { state.new.state.out ≡ None }
    ensures keeps { Keeps (length facts.now.ifaces) state.old.state state.new.state [] }
{
    match note {
        Note::Bind { port, need } => bind(state, app, port, need),
        Note::Connect {
            slot,
            dest,
            port,
            prio,
            flags,
            from,
        } => {
            let seat = Seat { app, slot };
            let request = Request {
                seat,
                dest,
                port,
                prio,
                flags,
                from,
            };
            state.connect(facts, request, now, report);
        }
        Note::Close { slot } => state.close(Seat { app, slot }, now),
        Note::Bound | Note::Connected { .. } | Note::Refused { .. } => {}
        Note::Closed { .. } | Note::Down { .. } => {}
    }
}

/// A port is bound, or refused.
#[tactic(auto, using(crate::proofs::Keeping::ported_keeps))]
fn bind(state: &mut State, app: u8, port: Port, need: u8)
    requires app { app < state.old.state.ports.conns.apps }
    requires first { waiting app state.old.state.ports.owed ≡ 0 }
    ensures told { ComesTo state.old state.new [] [] (unchanged (with_ports state.old.state (bind state.old.state.ports app port need))) }
    ensures keeps { (ifaces : ℕ) → Keeps ifaces state.old.state state.new.state [] }
{
    state.ports.bind(app, port, need);
}
