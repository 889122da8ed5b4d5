//! That the record of a run neither loses a number of a buffer nor makes one.

ghost use Rattle.std.specs.Prelude.{[], length};
ghost use Rattle.csp_conserved.specs.Flow.{IsFlow};
ghost use Rattle.csp_conserved.specs.Kept.{KeepNumbers};
ghost use Rattle.csp_consistent.specs.Inboxes.{AreInboxesInOrder};
ghost use Rattle.csp_consistent.specs.Lanes.{AreInOrder};
ghost use Rattle.csp_consistent.specs.Pools.{AreNumbersKept};
ghost use Rattle.csp_consistent.specs.Runs.{AreLogsOf};
ghost use Rattle.csp_record.specs.Record.{PlainRecord};
ghost use Rattle.csp_scene.specs.Kept.{AreLinksAfter};
ghost use Rattle.csp_scene.specs.Ranges.{IsScene};
ghost use Rattle.csp_scene.specs.Scene.{PlainScene};
ghost use Rattle.csp_topology.specs.Parties.{parties_of};

/// Where each log is a run of its party, and each lane is in order, each party holds at the end what it held at first and received
/// since, less what it handed over.
pub fn keeps_numbers()
    ensures { (scene : PlainScene) (r : PlainRecord) → IsScene scene → AreLinksAfter (length scene.nodes) [] scene.links → AreLogsOf (parties_of scene) r.parties → AreInOrder scene r → KeepNumbers (parties_of scene) r.parties }
{}

/// Where each log is a run of its party, each lane and each inbox is in order, and the numbers of each pool are kept, each number of
/// each node is held at the end by just one place, once: without an order of all turns.
pub fn conserves_numbers()
    ensures { (scene : PlainScene) (r : PlainRecord) → IsScene scene → AreLinksAfter (length scene.nodes) [] scene.links → AreLogsOf (parties_of scene) r.parties → AreInOrder scene r → AreInboxesInOrder scene r → AreNumbersKept scene r → IsFlow scene r }
{}
