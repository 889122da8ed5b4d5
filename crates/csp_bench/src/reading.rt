//! The text that was read, and the scene that it states.

ghost use Rattle.std.specs.Prelude.{◌≡◌, ◌≢◌, ◌≤◌, ℕ, [], Ok, Err, IfOk, length};
ghost use Rattle.csp_bench.specs.Statuses.{status_of_read, status_of};
ghost use Rattle.csp_scene.specs.Judge.{scene_of};
ghost use Rattle.csp_scene.specs.Kept.{AreLinksAfter};
ghost use Rattle.csp_scene.specs.Naming.{AreNamedApart};
ghost use Rattle.csp_scene.specs.Ranges.{IsScene};
ghost use Rattle.csp_scene.specs.Scene.{moves_in};
ghost use Rattle.csp_scene.specs.declared.refusal.SceneKind.{SceneKind};

use crate::status::{LimitKind, MAX_SCENARIO, Status};
use csp_base::ReadError;
use csp_scene::{Scene, SceneError, SceneKind, parse};
use csp_world::MAX_ENTRIES;
use std::alloc::Global;

/// What a program answers where the source was not read to its end.
pub fn read_status(error: ReadError) -> Status
    ensures { result ≡ status_of_read error }
{
    match error {
        ReadError::NoMemory => Status::NoMemory,
        ReadError::Fault => Status::ReadFault,
        ReadError::TooLong => Status::Limit {
            kind: LimitKind::Bytes,
            number: MAX_SCENARIO as u64,
        },
    }
}

/// Why nothing can be told of a text.
#[derive(Clone, Copy)]
pub enum Refusal {
    /// Memory was wanting.
    NoMemory,
    /// The text is refused at this line.
    Scene {
        /// The number of the line.
        line: u32,
        /// What is wrong with it.
        kind: SceneKind,
    },
    /// The logs reached the entry limit.
    Entries,
}

impl Refusal {
    /// What a program answers then.
    pub fn status(self) -> Status
        ensures { result ≡ status_of self }
    {
        match self {
            Refusal::NoMemory => Status::NoMemory,
            Refusal::Scene { line, kind } => Status::Scene { line, kind },
            Refusal::Entries => Status::Limit {
                kind: LimitKind::Entries,
                number: MAX_ENTRIES,
            },
        }
    }
}

/// The scene that a text states.
pub fn read_scene(alloc: Global, text: &[u8]) -> Result<Scene, Refusal>
    ensures scene { IfOk result (λ scene. scene_of text.now ≡ Ok scene) }
    ensures refused { (line : ℕ) (kind : SceneKind) → result ≡ Err (Refusal.Scene line kind) → scene_of text.now ≡ Err (record { line = line; kind = kind }) }
    ensures entries { result ≢ Err Refusal.Entries }
    ensures ranges { IfOk result IsScene }
    ensures ends { IfOk result (λ scene. AreLinksAfter (length scene.nodes) [] scene.links) }
    ensures apart { IfOk result (λ scene. AreNamedApart scene.nodes) }
    ensures moves { IfOk result (λ scene. length (moves_in scene.schedule) ≤ length text.now) }
{
    match parse(alloc, text) {
        Ok(scene) => Ok(scene),
        Err(SceneError::Refused { line, kind }) => Err(Refusal::Scene { line, kind }),
        Err(SceneError::NoMemory) => Err(Refusal::NoMemory),
    }
}
