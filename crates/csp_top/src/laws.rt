//! What the text of a report says of the record that it is made of, and what holds of every world that a scene's run reaches.

ghost use Rattle.std.specs.Prelude.{◌≡◌, Some, [], length, map};
ghost use Rattle.csp_causal.specs.Causal.{IsCausal};
ghost use Rattle.csp_topology.specs.Parties.{parties_of};
ghost use Rattle.csp_peers.specs.Window.{LastIsWithinWindow};
ghost use Rattle.csp_prefix.specs.Prefix.{IsReliablePrefix};
ghost use Rattle.csp_consistent.specs.Runs.{AreLogsOf};
ghost use Rattle.csp_record.specs.Passed.{passed};
ghost use Rattle.csp_record.specs.Record.{PlainRecord};
ghost use Rattle.csp_record.specs.Stale.{stale};
ghost use Rattle.csp_record.specs.Whole.{IsWhole};
ghost use Rattle.csp_report.specs.ReliablePrefix.{HasReliablePrefix};
ghost use Rattle.csp_report.specs.Report.{report};
ghost use Rattle.csp_scene.specs.Kept.{AreLinksAfter};
ghost use Rattle.csp_scene.specs.Naming.{AreNamedApart};
ghost use Rattle.csp_scene.specs.Ranges.{IsScene};
ghost use Rattle.csp_scene.specs.Scene.{PlainScene};
ghost use Rattle.csp_top.specs.Main.{StaysReliable};
ghost use Rattle.csp_top.specs.Prefix.{AreReadable, TellsNumbered};
ghost use Rattle.csp_world.specs.Reached.{IsReached};
ghost use Rattle.csp_world.specs.Record.{record_of, sim_record};
ghost use Rattle.csp_world.specs.World.{PlainWorld};
ghost use Rattle.std.specs.List.{AllByRecursion};

use csp_blobs::tells_of_blobs;
use csp_causal::grows_causal;
use csp_peers::keeps_window;
use csp_prefix::takes_a_prefix;
use csp_report::tells_prefix;
use csp_world::{is_consistent, reaches};

/// Where a record of a scene's parties has, if it counts neither stale copies nor changed packets, the reliable
/// prefix, the text of its report has it.
pub fn tells_reliable_prefix()
    ensures { (scene : PlainScene) (r : PlainRecord) → IsScene scene → AreNamedApart scene.nodes → AreLogsOf (parties_of scene) r.parties → IsWhole (map (λ n. n.buffers) scene.nodes) r → AllByRecursion TellsNumbered r.parties → AreReadable scene r → (stale r ≡ 0 → passed r ≡ 0 → IsReliablePrefix r) → HasReliablePrefix (report scene r) }
{
    tells_prefix()
}

/// After each turn and each tick of a scene's run, where the record so far counts neither stale copies nor changed packets, what was
/// taken on each reliable connection with a peer is a beginning of what the peer sent.
pub fn stays_reliable()
    ensures { (scene : PlainScene) (w : PlainWorld) → IsScene scene → AreLinksAfter (length scene.nodes) [] scene.links → IsReached scene w → stale (record_of w) ≡ 0 → passed (record_of w) ≡ 0 → IsReliablePrefix (record_of w) }
{
    is_consistent();
    takes_a_prefix();
}

/// After each turn and each tick of a scene's run, where the record so far counts neither stale copies nor changed packets: if the turn
/// handed a data packet to one of two reliable connections which are each other's peers, the packet's index is at most a window of its
/// sender past the last one that the connection delivered.
pub fn stays_within_window()
    ensures { (scene : PlainScene) (w : PlainWorld) → IsScene scene → AreLinksAfter (length scene.nodes) [] scene.links → IsReached scene w → stale (record_of w) ≡ 0 → passed (record_of w) ≡ 0 → LastIsWithinWindow scene (record_of w) }
{
    is_consistent();
    keeps_window();
}

/// After each turn and each tick of a scene's run the record so far is causal.
pub fn stays_causal()
    ensures { (scene : PlainScene) (w : PlainWorld) → IsScene scene → AreLinksAfter (length scene.nodes) [] scene.links → IsReached scene w → IsCausal (record_of w) }
{
    is_consistent();
    grows_causal();
}

/// So is the record of a scene's run by its schedule.
pub(crate) fn ends_causal()
    ensures { (scene : PlainScene) (r : PlainRecord) → IsScene scene → AreLinksAfter (length scene.nodes) [] scene.links → sim_record scene ≡ Some r → IsCausal r }
{
    reaches();
    stays_causal();
}

/// So the record of a scene's run, whatever the order of its turns and ticks, is consistent and reliable after each of them.
pub(crate) fn stays_reliable_throughout()
    ensures { (scene : PlainScene) → IsScene scene → AreLinksAfter (length scene.nodes) [] scene.links → StaysReliable scene }
{
    is_consistent();
    stays_reliable();
    stays_within_window();
    tells_of_blobs();
    stays_causal();
}
