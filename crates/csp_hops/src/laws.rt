//! What follows for a record of a scene whose tables lead by addresses.

ghost use Rattle.csp_consistent.specs.Lanes.{AreInOrder};
ghost use Rattle.csp_consistent.specs.Runs.{AreLogsOf};
ghost use Rattle.csp_consistent.specs.Addressed.{AreHopsOut};
ghost use Rattle.csp_hops.specs.Hops.{LeadByAddresses};
ghost use Rattle.csp_record.specs.Record.{PlainRecord};
ghost use Rattle.csp_scene.specs.Scene.{PlainScene};
ghost use Rattle.csp_topology.specs.Parties.{parties_of};

/// Where the logs of a record are those of the parties of its scene, whose tables lead by addresses, and its lanes are in order, each packet that an
/// interface got from its `Out` is marked with the address of a next hop, or not at all.
pub fn marks_next_hops()
    ensures { (scene : PlainScene) (r : PlainRecord) → LeadByAddresses scene → AreLogsOf (parties_of scene) r.parties → AreInOrder scene r → AreHopsOut r }
{}
