//! The run of a scene by its schedule.

ghost use Rattle.std.specs.Prelude.{◌≡◌, ◌≢◌, ◌≤◌, ℕ, [], None, Some, Err, IfOk, length, map};
ghost use Rattle.csp_bench.specs.declared.status.TheConstants.{MAX_SCENARIO};
ghost use Rattle.csp_consistent.specs.Consistent.{IsConsistent};
ghost use Rattle.csp_record.specs.Whole.{IsWhole};
ghost use Rattle.csp_scene.specs.Kept.{AreLinksAfter};
ghost use Rattle.csp_scene.specs.Ranges.{IsScene};
ghost use Rattle.csp_scene.specs.Scene.{moves_in};
ghost use Rattle.csp_scene.specs.declared.refusal.SceneKind.{SceneKind};
ghost use Rattle.csp_world.specs.Record.{sim_record};

use crate::reading::Refusal;
use csp_record::Record;
use csp_scene::Scene;
use csp_world::{SimError, simulate};
use std::alloc::Global;

/// The record of the run of a scene, whose text is within the limit, by its schedule.
pub fn run_of(alloc: Global, scene: &Scene) -> Result<Record, Refusal>
    requires ranges { IsScene scene.now }
    requires ends { AreLinksAfter (length scene.now.nodes) [] scene.now.links }
    requires few { length (moves_in scene.now.schedule) ≤ MAX_SCENARIO }
    ensures ran { IfOk result (λ run. sim_record scene.now ≡ Some run) }
    ensures consistent { IfOk result (IsConsistent scene.now) }
    ensures whole { IfOk result (IsWhole (map (λ n. n.buffers) scene.now.nodes)) }
    ensures entries { result ≡ Err Refusal.Entries → sim_record scene.now ≡ None }
    ensures no_scene { (line : ℕ) (kind : SceneKind) → result ≢ Err (Refusal.Scene line kind) }
{
    match simulate(alloc, scene) {
        Ok(run) => Ok(run),
        Err(SimError::Entries) => Err(Refusal::Entries),
        Err(SimError::NoMemory) => Err(Refusal::NoMemory),
    }
}
