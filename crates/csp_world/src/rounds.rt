//! A round: the turns of all parties, party by party or drawn, and then a tick.

ghost use Rattle.std.specs.Prelude.{◌≡◌, ◌≢◌, ◌+◌, ◌-◌, ◌*◌, ◌<◌, ◌≤◌, ◌^◌, ℕ, length, replicate, slice_index, OnOk, IfOk};
ghost use Rattle.csp_world.specs.Holders.{counts};
ghost use Rattle.csp_world.specs.World.{turn, entries};
ghost use Rattle.csp_world.specs.Schedule.{turns, round, round_places, drawn_places, draws, places_in, next_order};

use crate::limits::{MAX_ENTRIES, TURNS_PER_ROUND};
use crate::world::World;
use csp_draw::{drawn, next_draw};
use csp_topology::MAX_PARTIES;
use std::alloc::AllocError;

/// How the rounds of a run go.
#[derive(Clone, Copy)]
pub(crate) enum Order {
    /// Party by party.
    ByParty,
    /// Each turn is that of a party drawn; the number is the one that the next draw goes on from.
    ByDraw(u64),
}

/// Makes one round, and answers how the next one goes.
pub(crate) fn make_round(world: &mut World, order: Order) -> Result<Order, AllocError>
    requires some { 0 < length world.old.plain.members }
    requires few { length world.old.plain.members ≤ MAX_PARTIES }
    requires time { world.old.plain.time + 1 < 2 ^ 62 }
    requires entries { entries world.old.plain < MAX_ENTRIES }
    ensures round { OnOk result (world.new.plain ≡ round order world.old.plain) }
    ensures next { IfOk result (λ next. next ≡ next_order (length world.old.plain.members) order) }
    ensures counts { OnOk result (counts world.new.plain ≡ counts world.old.plain) }
{
    let next = take_turns(world, order)?;
    world.tick();
    Ok(next)
}

/// Takes the turns of a round, and answers how the next one goes.
fn take_turns(world: &mut World, order: Order) -> Result<Order, AllocError>
    requires some { 0 < length world.old.plain.members }
    requires few { length world.old.plain.members ≤ MAX_PARTIES }
    requires entries { entries world.old.plain < MAX_ENTRIES }
    ensures turns { OnOk result (world.new.plain ≡ turns world.old.plain (places_in (length world.old.plain.members) order)) }
    ensures next { IfOk result (λ next. next ≡ next_order (length world.old.plain.members) order) }
    ensures counts { OnOk result (counts world.new.plain ≡ counts world.old.plain) }
{
    match order {
        Order::ByParty => {
            turns_by_party(world)?;
            Ok(Order::ByParty)
        }
        Order::ByDraw(number) => {
            let number = turns_by_draw(world, number)?;
            Ok(Order::ByDraw(number))
        }
    }
}

/// Takes the turns of each party, party by party.
fn turns_by_party(world: &mut World) -> Result<(), AllocError>
    requires { entries world.old.plain < MAX_ENTRIES }
    ensures turns { OnOk result (world.new.plain ≡ turns world.old.plain (round_places (length world.old.plain.members))) }
    ensures counts { OnOk result (counts world.new.plain ≡ counts world.old.plain) }
{
    make_room(world)?;
    for place in 0..world.parties() {
        party_turns(world, place);
    }
    Ok(())
}

/// Makes room in each log for the turns of a round. A refusal leaves the world as it was but for the room.
fn make_room(world: &mut World) -> Result<(), AllocError>
    requires { entries world.old.plain < MAX_ENTRIES }
    ensures plain { world.new.plain ≡ world.old.plain }
    ensures room { OnOk result ((k : ℕ) → k < length world.new.plain.members → TURNS_PER_ROUND ≤ slice_index world.new.spares k) }
{
    for place in 0..world.parties() {
        world.reserve(place, TURNS_PER_ROUND as u32)?;
    }
    Ok(())
}

/// Takes the turns of one party in a round.
fn party_turns(world: &mut World, place: usize)
    requires place { place < length world.old.plain.members }
    requires room { TURNS_PER_ROUND ≤ slice_index world.old.spares place }
    ensures plain { world.new.plain ≡ turns world.old.plain (replicate TURNS_PER_ROUND place) }
    ensures counts { counts world.new.plain ≡ counts world.old.plain }
    ensures others { (k : ℕ) → k ≢ place → slice_index world.new.spares k ≡ slice_index world.old.spares k }
{
    let taken = world.look_round(place, TURNS_PER_ROUND);
    for _ in taken..TURNS_PER_ROUND {
        world.step(place);
    }
}

/// Takes the drawn turns of a round, the first by the number that follows this one, and answers the last
/// turn's number.
fn turns_by_draw(world: &mut World, last: u64) -> Result<u64, AllocError>
    requires some { 0 < length world.old.plain.members }
    requires few { length world.old.plain.members ≤ MAX_PARTIES }
    requires entries { entries world.old.plain < MAX_ENTRIES }
    ensures turns { OnOk result (world.new.plain ≡ turns world.old.plain (drawn_places (length world.old.plain.members) (TURNS_PER_ROUND * length world.old.plain.members) last)) }
    ensures number { IfOk result (λ next. next ≡ draws (TURNS_PER_ROUND * length world.old.plain.members) last) }
    ensures counts { OnOk result (counts world.new.plain ≡ counts world.old.plain) }
{
    let parties = world.parties();
    let mut number = last;
    for _ in 0..TURNS_PER_ROUND * parties {
        number = next_draw(number);
        one_turn(world, drawn(parties as u64, number) as usize)?;
    }
    Ok(number)
}

/// Takes one turn of the party at this place, once its log has room for it.
pub(crate) fn one_turn(world: &mut World, place: usize) -> Result<(), AllocError>
    requires place { place < length world.old.plain.members }
    requires fits { entries world.old.plain + 1 ≤ 2 ^ 32 - 2 }
    ensures turn { OnOk result (world.new.plain ≡ turn world.old.plain place) }
    ensures counts { OnOk result (counts world.new.plain ≡ counts world.old.plain) }
{
    world.reserve(place, 1)?;
    world.step(place);
    Ok(())
}
