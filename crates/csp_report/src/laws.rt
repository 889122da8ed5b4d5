//! What the text of a report tells of reliable connections.

ghost use Rattle.std.specs.Prelude.{◌≡◌, map};
ghost use Rattle.csp_record.specs.Passed.{passed};
ghost use Rattle.csp_record.specs.Record.{PlainRecord};
ghost use Rattle.csp_record.specs.Stale.{stale};
ghost use Rattle.csp_record.specs.Whole.{IsWhole};
ghost use Rattle.csp_report.specs.ReliablePrefix.{HasReliablePrefix};
ghost use Rattle.csp_report.specs.Report.{report};
ghost use Rattle.csp_report.specs.Shown.{AreNumbered, HavePeersFirst};
ghost use Rattle.csp_scene.specs.Naming.{AreNamedApart};
ghost use Rattle.csp_scene.specs.Ranges.{IsScene};
ghost use Rattle.csp_scene.specs.Scene.{PlainScene};

/// Where a run without stale copies and changed packets has, on each reliable connection with a peer, taken the
/// first of what the peer sent, the text of its report tells so.
pub fn tells_prefix()
    ensures { (scene : PlainScene) (run : PlainRecord) → IsScene scene → IsWhole (map (λ n. n.buffers) scene.nodes) run → AreNamedApart scene.nodes → AreNumbered scene.nodes run.parties → (stale run ≡ 0 → passed run ≡ 0 → HavePeersFirst scene.nodes run.parties) → HasReliablePrefix (report scene run) }
{}
