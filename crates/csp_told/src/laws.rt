//! What the text of a report tells of the numbers of transmissions, and of its two counts.

ghost use Rattle.std.specs.Prelude.{◌≡◌};
ghost use Rattle.csp_consistent.specs.Runs.{AreLogsOf};
ghost use Rattle.csp_ordinary.specs.Ordinary.{HasNumbersForAll};
ghost use Rattle.csp_record.specs.Passed.{passed};
ghost use Rattle.csp_record.specs.Record.{PlainRecord};
ghost use Rattle.csp_record.specs.Stale.{stale};
ghost use Rattle.csp_report.specs.ReliablePrefix.{IsUndisturbed};
ghost use Rattle.csp_report.specs.Report.{report};
ghost use Rattle.csp_scene.specs.Ranges.{IsScene};
ghost use Rattle.csp_scene.specs.Scene.{PlainScene};
ghost use Rattle.csp_told.specs.LastLines.{EndsUnchanged};
ghost use Rattle.csp_told.specs.WithinNumbers.{SendsWithinNumbers};
ghost use Rattle.csp_topology.specs.Parties.{parties_of};

/// Where each `iface` line of a CAN link, in the text of the report of a record with the logs of a scene's parties, has `sent` of at
/// most as many as there are numbers for transmissions, each interface on a CAN link made no more transmissions than that.
pub fn within_by_report()
    ensures { (scene : PlainScene) (r : PlainRecord) → IsScene scene → AreLogsOf (parties_of scene) r.parties → SendsWithinNumbers scene (report scene r) → HasNumbersForAll scene r }
{}

/// The report of a record that counts no changed packet ends with the line `passed 0`.
pub fn ends_unchanged()
    ensures { (scene : PlainScene) (r : PlainRecord) → passed r ≡ 0 → EndsUnchanged (report scene r) }
{}

/// That of one which counts no stale copy either ends with `stale 0` and `passed 0`.
pub fn ends_undisturbed()
    ensures { (scene : PlainScene) (r : PlainRecord) → stale r ≡ 0 → passed r ≡ 0 → IsUndisturbed (report scene r) }
{}
