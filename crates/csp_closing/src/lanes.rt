//! The end of the lanes of a node.

ghost use Rattle.std.specs.Prelude.{◌≡◌, ◌+◌, ◌<◌, ◌≤◌, ◌∷◌, ℕ, [], true, false, length};
ghost use Rattle.csp_closing.specs.Retired.{all_homes, all_rest, all_sides, rest_of};
ghost use Rattle.csp_closing.specs.Wires.{AreAllNext, AreNext, HaveRooms, IsFirstAt, WireEnds, WiresEnd, rooms_in, without_all, without_ends, without_first};
ghost use Rattle.csp_ending.specs.Stores.{HasRoom};
ghost use Rattle.csp_ends.specs.Ends.{PlainSide};

use csp_ending::{LaneRoom, Notes, Store, end_lane};
use csp_ends::{LaneEnd, Side};
use csp_lane::{Consumer, Lane, Producer};
use csp_posts::Retired;
use csp_topology::Wire;
use std::collections::VecDeque;
use std::sync::Wait;

/// Ends the lanes of a node, in the order of its wires, with the ends that come next in the hands of parties.
pub(crate) fn end_lanes<R: Wait>(
    rt: &R,
    lanes: Vec<Lane>,
    rooms: Vec<LaneRoom>,
    wires: &[Wire],
    node: u8,
    parties: &mut [Retired],
    notes: &mut Notes,
    store: &mut Store,
)
    requires next { AreAllNext node 0 store.old.region wires.now lanes.items (all_sides parties.old) }
    requires rooms { HaveRooms lanes.items rooms.items }
    requires store_room { HasRoom store.old (rooms_in lanes.items) }
    requires notes_room { length wires.now ≤ notes.old.queues }
    ensures ends { WiresEnd (all_sides parties.old) wires.now node 0 notes.old notes.new store.old store.new }
    ensures few { length store.new.numbers ≤ length store.old.numbers + rooms_in lanes.items }
    ensures sides { all_sides parties.new ≡ without_all wires.now (all_sides parties.old) }
    ensures homes { all_homes parties.new ≡ all_homes parties.old }
    ensures rest { all_rest parties.new ≡ all_rest parties.old }
{
    let mut lanes = VecDeque::from_vec(lanes);
    let mut rooms = VecDeque::from_vec(rooms);
    end_each(
        rt, &mut lanes, &mut rooms, wires, node, parties, notes, store,
    );
    lanes.destroy_empty();
    rooms.destroy_empty();
}

/// Ends each of these lanes.
fn end_each<R: Wait>(
    rt: &R,
    lanes: &mut VecDeque<Lane>,
    rooms: &mut VecDeque<LaneRoom>,
    wires: &[Wire],
    node: u8,
    parties: &mut [Retired],
    notes: &mut Notes,
    store: &mut Store,
)
    requires next { (lane : ℕ) × AreAllNext node lane store.old.region wires.now lanes.old.items (all_sides parties.old) }
    requires rooms { HaveRooms lanes.old.items rooms.old.items }
    requires store_room { HasRoom store.old (rooms_in lanes.old.items) }
    requires notes_room { length wires.now ≤ notes.old.queues }
    ensures ends { (lane : ℕ) → AreAllNext node lane store.old.region wires.now lanes.old.items (all_sides parties.old) → WiresEnd (all_sides parties.old) wires.now node lane notes.old notes.new store.old store.new }
    ensures few { length store.new.numbers ≤ length store.old.numbers + rooms_in lanes.old.items }
    ensures lanes { lanes.new.items ≡ [] }
    ensures rooms { rooms.new.items ≡ [] }
    ensures sides { all_sides parties.new ≡ without_all wires.now (all_sides parties.old) }
    ensures homes { all_homes parties.new ≡ all_homes parties.old }
    ensures rest { all_rest parties.new ≡ all_rest parties.old }
{
    if let Some((wire, rest)) = wires.split_first() {
        let lane = next_lane(lanes);
        let room = next_room(rooms);
        end_wire(rt, lane, room, wire, node, parties, notes, store);
        end_each(rt, lanes, rooms, rest, node, parties, notes, store);
    }
}

/// Ends a lane with the two ends that come next in the hands of its parties.
fn end_wire<R: Wait>(
    rt: &R,
    lane: Lane,
    room: LaneRoom,
    wire: &Wire,
    node: u8,
    parties: &mut [Retired],
    notes: &mut Notes,
    store: &mut Store,
)
    requires next { (number : ℕ) × AreNext (all_sides parties.old) wire.now lane store.old.region node number }
    requires room { lane.room ≤ room }
    requires store_room { HasRoom store.old lane.room }
    requires notes_room { 0 < notes.old.queues }
    ensures ends { (number : ℕ) → AreNext (all_sides parties.old) wire.now lane store.old.region node number → WireEnds (all_sides parties.old) wire.now node number notes.old notes.new store.old store.new }
    ensures few { length store.new.numbers ≤ length store.old.numbers + lane.room }
    ensures sides { all_sides parties.new ≡ without_ends wire.now (all_sides parties.old) }
    ensures homes { all_homes parties.new ≡ all_homes parties.old }
    ensures rest { all_rest parties.new ≡ all_rest parties.old }
{
    let producer = take_producer(parties, usize::from(wire.from.party));
    let consumer = take_consumer(parties, usize::from(wire.to.party));
    end_lane(
        rt, lane, producer, consumer, room, node, wire.queue, notes, store,
    );
}

/// The first of these lanes.
fn next_lane(lanes: &mut VecDeque<Lane>) -> Lane
    requires { 0 < length lanes.old.items }
    ensures { lanes.old.items ≡ result ∷ lanes.new.items }
{
    match lanes.pop_front() {
        Some(lane) => lane,
        None => unreachable!(),
    }
}

/// The first of these rooms.
fn next_room(rooms: &mut VecDeque<LaneRoom>) -> LaneRoom
    requires { 0 < length rooms.old.items }
    ensures { rooms.old.items ≡ result ∷ rooms.new.items }
{
    match rooms.pop_front() {
        Some(room) => room,
        None => unreachable!(),
    }
}

/// Takes the first end of the party at this place, one that puts.
fn take_producer(parties: &mut [Retired], place: usize) -> Producer
    requires { (s : PlainSide) × IsFirstAt (all_sides parties.old) place s × (s.puts ≡ true) }
    ensures end { (s : PlainSide) → IsFirstAt (all_sides parties.old) place s → result ≡ s.end }
    ensures sides { all_sides parties.new ≡ without_first place (all_sides parties.old) }
    ensures homes { all_homes parties.new ≡ all_homes parties.old }
    ensures rest { all_rest parties.new ≡ all_rest parties.old }
{
    match take_side(&mut parties[place]).end {
        LaneEnd::Puts(producer) => producer,
        LaneEnd::Gets(_) => unreachable!(),
    }
}

/// Takes the first end of the party at this place, one that gets.
fn take_consumer(parties: &mut [Retired], place: usize) -> Consumer
    requires { (s : PlainSide) × IsFirstAt (all_sides parties.old) place s × (s.puts ≡ false) }
    ensures end { (s : PlainSide) → IsFirstAt (all_sides parties.old) place s → result ≡ s.end }
    ensures sides { all_sides parties.new ≡ without_first place (all_sides parties.old) }
    ensures homes { all_homes parties.new ≡ all_homes parties.old }
    ensures rest { all_rest parties.new ≡ all_rest parties.old }
{
    match take_side(&mut parties[place]).end {
        LaneEnd::Gets(consumer) => consumer,
        LaneEnd::Puts(_) => unreachable!(),
    }
}

/// Takes the first end of a party.
fn take_side(party: &mut Retired) -> Side
    requires { 0 < length party.old.ends.sides }
    ensures sides { party.old.ends.sides ≡ result ∷ party.new.ends.sides }
    ensures home { party.new.ends.home ≡ party.old.ends.home }
    ensures rest { rest_of party.new ≡ rest_of party.old }
{
    party.ends.sides.remove(0)
}
