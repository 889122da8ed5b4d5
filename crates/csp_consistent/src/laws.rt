//! What follows from the consistency of a record.

ghost use Rattle.csp_consistent.specs.Inboxes.{AreInboxesInOrder};
ghost use Rattle.csp_consistent.specs.Lanes.{AreInOrder};
ghost use Rattle.csp_consistent.specs.Links.{ArePlanned, AreSpread};
ghost use Rattle.csp_consistent.specs.Origins.{HaveOrigins};
ghost use Rattle.csp_consistent.specs.Pools.{AreNumbersKept};
ghost use Rattle.csp_topology.specs.Parties.{parties_of};
ghost use Rattle.csp_consistent.specs.Runs.{AreLogsOf};
ghost use Rattle.csp_consistent.specs.Told.{AreQueuesTold};
ghost use Rattle.csp_record.specs.Record.{PlainRecord};
ghost use Rattle.csp_scene.specs.Kept.{AreLinksAfter};
ghost use Rattle.csp_scene.specs.Ranges.{IsScene};
ghost use Rattle.csp_scene.specs.Scene.{PlainScene};
ghost use Rattle.std.specs.Prelude.{[], length};

/// A record whose logs are runs of its parties shows links that apply their plans.
pub fn applies_plans()
    ensures { (scene : PlainScene) (r : PlainRecord) → AreLogsOf (parties_of scene) r.parties → ArePlanned scene r }
{}

/// And hubs that do.
pub fn spreads_by_plans()
    ensures { (scene : PlainScene) (r : PlainRecord) → AreLogsOf (parties_of scene) r.parties → AreSpread scene r }
{}

/// Where each lane besides is in order, and each link of the scene ends at the interfaces after those
/// of the earlier links, each packet that an interface handed to its inbox was sent by an interface
/// at another end of its link, and has the tag of what was sent and one hop more.
pub fn names_origins()
    ensures { (scene : PlainScene) (r : PlainRecord) → AreLinksAfter (length scene.nodes) [] scene.links → AreLogsOf (parties_of scene) r.parties → AreInOrder scene r → HaveOrigins scene r }
{}

/// Where each queue of a scene kept its promise, and a record tells what was put there, got there and
/// left there, the lanes and the inboxes of the record are in order and its numbers are kept: what has a
/// mark in an inbox is what the one party put whose mark it is.
pub fn keeps_promises()
    ensures lanes { (scene : PlainScene) (r : PlainRecord) → IsScene scene → AreLogsOf (parties_of scene) r.parties → AreQueuesTold scene r → AreInOrder scene r }
    ensures inboxes { (scene : PlainScene) (r : PlainRecord) → IsScene scene → AreLogsOf (parties_of scene) r.parties → AreQueuesTold scene r → AreInboxesInOrder scene r }
    ensures numbers { (scene : PlainScene) (r : PlainRecord) → IsScene scene → AreLogsOf (parties_of scene) r.parties → AreQueuesTold scene r → AreNumbersKept scene r }
{}
