//! The reliable prefix.

ghost use Rattle.csp_consistent.specs.Consistent.{IsConsistent};
ghost use Rattle.csp_prefix.specs.Prefix.{IsOpened, IsReliablePrefix};
ghost use Rattle.csp_base.specs.declared.limits.TheConstants.{SLOTS};
ghost use Rattle.csp_record.specs.declared.connections.Opening.{Opening};
ghost use Rattle.csp_scene.specs.Links.{node_at};
ghost use Rattle.csp_record.specs.Passed.{passed};
ghost use Rattle.csp_record.specs.Record.{PlainRecord};
ghost use Rattle.csp_record.specs.Stale.{stale};
ghost use Rattle.csp_scene.specs.Ranges.{IsScene};
ghost use Rattle.csp_scene.specs.Scene.{PlainScene};
ghost use Rattle.std.specs.Prelude.{◌≡◌, ◌<◌, ℕ, length};

/// In a record that is consistent with its scene and counts no stale copy and no changed packet, what was taken on a reliable
/// connection is a beginning of what was sent on its peer's connection: each packet once, whole and in order.
pub fn takes_a_prefix()
    ensures { (scene : PlainScene) (r : PlainRecord) → IsScene scene → IsConsistent scene r → stale r ≡ 0 → passed r ≡ 0 → IsReliablePrefix r }
{}

/// In a record that is consistent with its scene, each connection that became open is on a slot of an application that
/// its node has.
pub fn opens_on_slots()
    ensures { (scene : PlainScene) (r : PlainRecord) → IsScene scene → IsConsistent scene r → (node app : ℕ) (x : Opening) → IsOpened r node app x → (app < length (node_at scene.nodes node).apps) × (x.slot < SLOTS) }
{}
