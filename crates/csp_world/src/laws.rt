//! What is true of every world that turns and ticks make of a scene's opening.

ghost use Rattle.std.specs.Prelude.{◌≡◌, ℕ, Some, [], length};
ghost use Rattle.csp_consistent.specs.Consistent.{IsConsistent};
ghost use Rattle.csp_consistent.specs.Inboxes.{AreInboxesInOrder};
ghost use Rattle.csp_consistent.specs.Lanes.{AreInOrder};
ghost use Rattle.csp_topology.specs.Parties.{parties_of};
ghost use Rattle.csp_consistent.specs.Pools.{AreNumbersKept};
ghost use Rattle.csp_consistent.specs.Runs.{AreLogsOf};
ghost use Rattle.csp_scene.specs.Kept.{AreLinksAfter};
ghost use Rattle.csp_scene.specs.Ranges.{IsScene};
ghost use Rattle.csp_scene.specs.Scene.{PlainScene};
ghost use Rattle.csp_world.specs.Opening.{opening};
ghost use Rattle.csp_world.specs.Reached.{IsReached};
ghost use Rattle.csp_world.specs.Record.{record_of};
ghost use Rattle.csp_world.specs.Schedule.{run};
ghost use Rattle.csp_world.specs.World.{PlainWorld, turn, tick};

use csp_consistent::{applies_plans, names_origins, spreads_by_plans};
use csp_lists::{keeps_shape, opens};

/// The logs of its record are runs of the scene's parties. What was got from each lane, followed by what was
/// left, is what was put; no more was left than the lane has room for, and a push was refused only after as
/// many puts as that. Of each priority of an inbox, what was got with what was left has each
/// producer's packets in its order, and nothing else. Of each pool, the numbers at the opening together with
/// those given are those taken together with those left; and each other place held what was left there, or what
/// its party held.
pub fn holds_parts()
    ensures runs { (scene : PlainScene) (w : PlainWorld) → IsReached scene w → AreLogsOf (parties_of scene) (record_of w).parties }
    ensures lanes { (scene : PlainScene) (w : PlainWorld) → IsScene scene → AreLinksAfter (length scene.nodes) [] scene.links → IsReached scene w → AreInOrder scene (record_of w) }
    ensures inboxes { (scene : PlainScene) (w : PlainWorld) → IsScene scene → IsReached scene w → AreInboxesInOrder scene (record_of w) }
    ensures numbers { (scene : PlainScene) (w : PlainWorld) → IsReached scene w → AreNumbersKept scene (record_of w) }
{
    keeps_shape();
    opens();
}

/// Its record is consistent with the scene, where each link of the scene ends at the interfaces after those of
/// the earlier links.
pub fn is_consistent()
    ensures { (scene : PlainScene) (w : PlainWorld) → IsScene scene → AreLinksAfter (length scene.nodes) [] scene.links → IsReached scene w → IsConsistent scene (record_of w) }
{
    holds_parts();
    applies_plans();
    spreads_by_plans();
    names_origins();
}

/// The opening world is reached, what a turn or a tick makes of a reached world is, and so is the world at the
/// end of a scene's run.
pub fn reaches()
    ensures opening { (scene : PlainScene) → IsReached scene (opening scene) }
    ensures turn { (scene : PlainScene) (w : PlainWorld) (place : ℕ) → IsReached scene w → IsReached scene (turn w place) }
    ensures tick { (scene : PlainScene) (w : PlainWorld) → IsReached scene w → IsReached scene (tick w) }
    ensures run { (scene : PlainScene) (w : PlainWorld) → run scene ≡ Some w → IsReached scene w }
{}
