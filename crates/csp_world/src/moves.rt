//! The moves of a schedule that is stated step by step.

ghost use Rattle.std.specs.Prelude.{◌≡◌, ◌+◌, ◌-◌, ◌<◌, ◌≤◌, ◌^◌, All, length, OnOk};
ghost use Rattle.std.specs.List.{position_or_len};
ghost use Rattle.csp_log.specs.Who.{is_who};
ghost use Rattle.csp_world.specs.Holders.{counts};
ghost use Rattle.csp_world.specs.Schedule as schedule;
ghost use Rattle.csp_world.specs.World.{entries};
ghost use Rattle.csp_world.specs.Schedule.{IsThere, names, moved};

use crate::member::Member;
use crate::rounds::one_turn;
use crate::world::World;
use csp_record::Who;
use csp_scene::Move;
use std::alloc::AllocError;

/// Makes the moves of a schedule, one after the other.
pub(crate) fn make_moves(world: &mut World, moves: &[Move]) -> Result<(), AllocError>
    requires there { All (IsThere (names world.old.plain)) moves.now }
    requires time { world.old.plain.time + length moves.now < 2 ^ 62 }
    requires fits { entries world.old.plain + length moves.now ≤ 2 ^ 32 - 2 }
    ensures moves { OnOk result (world.new.plain ≡ schedule.moves world.old.plain moves.now) }
    ensures counts { OnOk result (counts world.new.plain ≡ counts world.old.plain) }
{
    for next in moves {
        make_move(world, *next)?;
    }
    Ok(())
}

/// Makes one move: a turn of the party that it names, or a tick.
fn make_move(world: &mut World, next: Move) -> Result<(), AllocError>
    requires there { IsThere (names world.old.plain) next }
    requires time { world.old.plain.time + 1 < 2 ^ 62 }
    requires fits { entries world.old.plain + 1 ≤ 2 ^ 32 - 2 }
    ensures moved { OnOk result (world.new.plain ≡ moved world.old.plain next) }
    ensures counts { OnOk result (counts world.new.plain ≡ counts world.old.plain) }
{
    match next {
        Move::Turn(who) => {
            let place = world.place_named(who);
            one_turn(world, place)
        }
        Move::Tick => {
            world.tick();
            Ok(())
        }
    }
}

/// The place of the first of these parties that has this name, or how many they are where none has it.
pub(crate) fn place_among(members: &[Member], who: Who) -> usize
    ensures { result ≡ position_or_len (λ m. is_who who m.who) members.now }
{
    members
        .iter()
        .position(|member| member.who == who)
        .unwrap_or(members.len())
}
