//! The run of a scene, by its schedule.

ghost use Rattle.std.specs.Prelude.{◌≡◌, ◌+◌, ◌-◌, ◌<◌, ◌≤◌, ◌^◌, Some, None, All, [], length, map, OnOk, IfOk, IsErrOf};
ghost use Rattle.csp_consistent.specs.Consistent.{IsConsistent};
ghost use Rattle.csp_record.specs.Whole.{IsWhole};
ghost use Rattle.csp_scene.specs.Kept.{AreLinksAfter};
ghost use Rattle.csp_scene.specs.Ranges.{IsScene};
ghost use Rattle.csp_scene.specs.Scene.{moves_in};
ghost use Rattle.csp_world.specs.Holders.{counts};
ghost use Rattle.csp_world.specs.Record.{sim_record};
ghost use Rattle.csp_world.specs.Schedule.{IsThere, names, run_as, run_moves, run_rounds};
ghost use Rattle.csp_world.specs.Schedule as schedule;
ghost use Rattle.csp_world.specs.World.{entries};

use crate::limits::MAX_ENTRIES;
use crate::moves::make_moves;
use crate::rounds::{Order, make_round};
use crate::world::World;
use csp_record::Record;
use csp_scene::{Move, Scene, Schedule};
use csp_topology::{MAX_PARTIES, counts_parties};
use std::alloc::{AllocError, Global};

/// Why a scene has no record.
#[derive(Clone, Copy)]
pub enum SimError {
    /// Memory was wanting.
    NoMemory,
    /// The logs reached the entry limit, `MAX_ENTRIES`, while an application had not ended.
    Entries,
}

impl From<AllocError> for SimError {
    ghost use Rattle.std.specs.Prelude.{◌≡◌};
    ghost use Rattle.csp_world.specs.declared.schedule.SimError.TheVariants.{NoMemory};

    ghost from_gives = { λ _ e. e ≡ NoMemory };

    fn from(_error: AllocError) -> SimError {
        SimError::NoMemory
    }
}

/// Runs a scene to its end, and answers the record of its run. After each round these are looked at, in
/// this order: every application has ended, the entry limit, the number of rounds. Where the schedule is
/// stated step by step, the first two are looked at once, at its end.
pub fn simulate(alloc: Global, scene: &Scene) -> Result<Record, SimError>
    requires scene { IsScene scene.now }
    requires few { length (moves_in scene.now.schedule) < 2 ^ 32 - 2 }
    ensures record { IfOk result (λ r. sim_record scene.now ≡ Some r) }
    ensures entries { IsErrOf result SimError.Entries → sim_record scene.now ≡ None }
    ensures conserved { IfOk result (IsWhole (map (λ n. n.buffers) scene.now.nodes)) }
    ensures consistent { AreLinksAfter (length scene.now.nodes) [] scene.now.links → IfOk result (IsConsistent scene.now) }
{
    counts_parties();
    let mut world = World::open(alloc, scene)?;
    let ran = run(&mut world, scene);
    let record = world.close();
    match ran {
        Ok(()) => Ok(record),
        Err(error) => Err(error),
    }
}

/// Runs a world in which nothing has happened to the end of a scene's schedule.
fn run(world: &mut World, scene: &Scene) -> Result<(), SimError>
    requires parties { length world.old.plain.members ≤ MAX_PARTIES }
    requires there { All (IsThere (names world.old.plain)) (moves_in scene.now.schedule) }
    requires few { length (moves_in scene.now.schedule) < 2 ^ 32 - 2 }
    requires start { world.old.plain.time ≡ 0 }
    requires empty { entries world.old.plain ≡ 0 }
    ensures run { OnOk result (run_as scene.now.schedule scene.now.until world.old.plain ≡ Some world.new.plain) }
    ensures entries { IsErrOf result SimError.Entries → run_as scene.now.schedule scene.now.until world.old.plain ≡ None }
    ensures counts { OnOk result (counts world.new.plain ≡ counts world.old.plain) }
{
    match &scene.schedule {
        Schedule::Rounds => run_rounds(world, scene.until, Order::ByParty),
        Schedule::Shuffle(seed) => {
            run_rounds(world, scene.until, Order::ByDraw(u64::from(*seed)))
        }
        Schedule::Steps(moves) => run_moves(world, moves),
    }
}

/// Makes rounds until every application has ended, the logs reach the entry limit, or so many are made.
fn run_rounds(world: &mut World, most: u32, first: Order) -> Result<(), SimError>
    requires few { length world.old.plain.members ≤ MAX_PARTIES }
    requires time { world.old.plain.time + most < 2 ^ 62 }
    requires entries { entries world.old.plain < MAX_ENTRIES }
    ensures run { OnOk result (run_rounds most first world.old.plain ≡ Some world.new.plain) }
    ensures entries { IsErrOf result SimError.Entries → run_rounds most first world.old.plain ≡ None }
    ensures counts { OnOk result (counts world.new.plain ≡ counts world.old.plain) }
{
    if world.finished() {
        return Ok(());
    }
    let mut order = first;
    for _ in 0..most {
        order = make_round(world, order)?;
        if world.finished() {
            return Ok(());
        }
        if world.entries() >= MAX_ENTRIES {
            return Err(SimError::Entries);
        }
    }
    Ok(())
}

/// Makes all moves, and looks then whether the logs have reached the entry limit.
fn run_moves(world: &mut World, moves: &[Move]) -> Result<(), SimError>
    requires there { All (IsThere (names world.old.plain)) moves.now }
    requires time { world.old.plain.time + length moves.now < 2 ^ 62 }
    requires fits { entries world.old.plain + length moves.now ≤ 2 ^ 32 - 2 }
    ensures run { OnOk result (run_moves (schedule.moves world.old.plain moves.now) ≡ Some world.new.plain) }
    ensures entries { IsErrOf result SimError.Entries → run_moves (schedule.moves world.old.plain moves.now) ≡ None }
    ensures counts { OnOk result (counts world.new.plain ≡ counts world.old.plain) }
{
    make_moves(world, moves)?;
    if world.finished() {
        return Ok(());
    }
    if world.entries() >= MAX_ENTRIES {
        return Err(SimError::Entries);
    }
    Ok(())
}
