//! What is read of the bytes that an end of a KISS link put there.

ghost use Rattle.std.specs.Prelude.{◌≡◌, ◌≤◌, ℕ, Bool, Some, List, slice_get};
ghost use Rattle.std.specs.List.{AllByRecursion};
ghost use Rattle.csp_base.specs.declared.limits.TheConstants.{MAX_PAYLOAD};
ghost use Rattle.csp_consistent.specs.Runs.{AreLogsOf};
ghost use Rattle.csp_exports.specs.Frames.{exported};
ghost use Rattle.csp_log.specs.declared.places.End.{End};
ghost use Rattle.csp_record.specs.Record.{PlainRecord};
ghost use Rattle.csp_scene.specs.Links.{links_at};
ghost use Rattle.csp_scene.specs.Scene.{PlainLink, PlainScene};
ghost use Rattle.csp_topology.specs.Parties.{parties_of};
ghost use Rattle.csp_reread.specs.Reread.{covers, sent_by, HasWord, ReadsAs};

use csp_exports::Form;

/// Of the bytes that an end of a KISS link put there, whatever became of them on the link, just the packets are read that it
/// sent, in order, with nothing between them; but perhaps the last, whose frame it had not yet put there.
pub fn reads_what_was_sent()
    ensures { (scene : PlainScene) (r : PlainRecord) (link : PlainLink) (end : End) (cover : Bool) (name : List ℕ) → AreLogsOf (parties_of scene) r.parties → slice_get (links_at end.node scene.links) end.iface ≡ Some link → covers link.kind ≡ Some cover → link.mtu ≤ MAX_PAYLOAD → AllByRecursion HasWord (sent_by r end) → ReadsAs cover (exported Form.Kiss name end r) (sent_by r end) }
{}
