//! Who uses which queue.

ghost use Rattle.csp_topology.specs.Parties.{parties_of};
ghost use Rattle.csp_consistent.specs.Queues.{UseTheirQueues};
ghost use Rattle.csp_consistent.specs.Runs.{AreLogsOf};
ghost use Rattle.csp_record.specs.Record.{PlainPartyLog};
ghost use Rattle.csp_scene.specs.Scene.{PlainScene};
ghost use Rattle.std.specs.Prelude.{List};

/// Each party whose log is a run of its turns uses its own queues alone: an application the lanes of its number,
/// an interface the inbox, its `Out` and the lanes to its link, and puts its number as the mark on what it puts
/// into the inbox, a link the lanes at its ends, a router or a bridge those of its node that are left, and
/// without a mark the inbox.
pub fn use_their_own()
    ensures { (scene : PlainScene) (logs : List PlainPartyLog) → AreLogsOf (parties_of scene) logs → UseTheirQueues logs }
{}
