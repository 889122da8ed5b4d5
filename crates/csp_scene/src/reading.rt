//! A text line by line.

ghost use Rattle.std.specs.Prelude.{◌≡◌, ℕ, ◌≤◌, [], IfOk, length};
ghost use Rattle.csp_scene.specs.Scene.{moves_in};
ghost use Rattle.csp_scene.specs.Ranges.{IsScene};
ghost use Rattle.csp_scene.specs.Judge.{scene_of};
ghost use Rattle.csp_scene.specs.Kept.{AreLinksAfter, error_at};
ghost use Rattle.csp_scene.specs.Naming.{AreNamedApart};
ghost use Rattle.csp_scene.specs.declared.refusal.SceneKind.{SceneKind};

use crate::refusal::SceneError;
use crate::rows::all_rows;
use crate::scenario::Scene;
use crate::sketch::{LineError, Sketch};
use csp_text::lines;
use std::alloc::Global;

impl LineError {
    /// The error of a text whose line of this number has this one.
    fn at(self, line: u32) -> SceneError
        ensures { result ≡ error_at self line }
    {
        match self {
            LineError::Kind(kind) => SceneError::Refused { line, kind },
            LineError::NoMemory => SceneError::NoMemory,
        }
    }
}

/// Reads a scenario: the scene that its lines state, or the first line that is refused with the
/// first kind that fits it. `NoMemory` comes where memory ran out, or where the text has more
/// lines than a line number counts.
pub fn parse(alloc: Global, bytes: &[u8]) -> Result<Scene, SceneError>
    ensures scene { IfOk result (λ scene. scene_of bytes.now ≡ Ok scene) }
    ensures refused { (line : ℕ) (kind : SceneKind) → result ≡ Err (SceneError.Refused line kind) → scene_of bytes.now ≡ Err (record { line = line; kind = kind }) }
    ensures ranges { IfOk result IsScene }
    ensures ends { IfOk result (λ scene. AreLinksAfter (length scene.nodes) [] scene.links) }
    ensures apart { IfOk result (λ scene. AreNamedApart scene.nodes) }
    ensures moves { IfOk result (λ scene. length (moves_in scene.schedule) ≤ length bytes.now) }
{
    let Ok(table) = all_rows(alloc) else {
        return Err(SceneError::NoMemory);
    };
    let Ok(lines) = lines(alloc, bytes) else {
        return Err(SceneError::NoMemory);
    };
    let mut sketch = Sketch::new(alloc);
    let mut number: u32 = 1;
    let mut in_app = false;
    for line in lines.iter() {
        match sketch.judge(alloc, &table, in_app, line) {
            Ok(stays) => in_app = stays,
            Err(error) => return Err(error.at(number)),
        }
        if number == u32::MAX {
            return Err(SceneError::NoMemory);
        }
        number += 1;
    }
    match sketch.finish(alloc) {
        Ok(scene) => Ok(scene),
        Err(error) => Err(error.at(number)),
    }
}
