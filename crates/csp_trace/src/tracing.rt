//! The text of what is asked: the scenario judged, the names looked up, the run, the text built whole. The first refusal in
//! this order is the answer.

ghost use Rattle.std.specs.Prelude.{◌≡◌, ◌≤◌, ℕ, Err, IfOk, length};
ghost use Rattle.csp_bench.specs.Running.{IsPastEntries};
ghost use Rattle.csp_bench.specs.declared.reading.Refusal.TheVariants as why;
ghost use Rattle.csp_scene.specs.Judge.{scene_of};
ghost use Rattle.csp_scene.specs.declared.refusal.SceneKind.{SceneKind};
ghost use Rattle.csp_trace.specs.Owes.{IsTraceOf, IsUnnamed, status_without};

use crate::asked::{asked_of, told};
use crate::mode::Mode;
use csp_bench::{MAX_SCENARIO, Refusal, Status, read_scene, run_of};
use csp_ordinary::hold_words;
use csp_reread::reads_what_was_sent;
use csp_scene::SceneKind;
use std::alloc::Global;

/// Why nothing is told.
#[derive(Clone, Copy)]
pub(crate) enum Untold {
    /// The text has no scene, or the scene no record.
    Text(Refusal),
    /// The scene lacks what is named.
    Names,
}

impl Untold {
    /// What the program answers then.
    pub(crate) fn status(self) -> Status
        ensures { result ≡ status_without self }
    {
        match self {
            Untold::Text(refusal) => refusal.status(),
            Untold::Names => Status::Words,
        }
    }
}

/// What a mode asks of the scene that a text states, and of its run.
pub(crate) fn traced(alloc: Global, mode: &Mode, text: &[u8]) -> Result<Vec<u8>, Untold>
    requires { length text.now ≤ MAX_SCENARIO }
    ensures trace { IfOk result (λ bytes. IsTraceOf mode.now text.now bytes.items) }
    ensures names { result ≡ Err Untold.Names → IsUnnamed mode.now text.now }
    ensures scene { (line : ℕ) (kind : SceneKind) → result ≡ Err (Untold.Text (why.Scene line kind)) → scene_of text.now ≡ Err (record { line = line; kind = kind }) }
    ensures entries { result ≡ Err (Untold.Text why.Entries) → IsPastEntries text.now }
{
    let scene = match read_scene(alloc, text) {
        Ok(scene) => scene,
        Err(refusal) => return Err(Untold::Text(refusal)),
    };
    let Some(asked) = asked_of(mode, &scene) else {
        return Err(Untold::Names);
    };
    let run = match run_of(alloc, &scene) {
        Ok(run) => run,
        Err(refusal) => return Err(Untold::Text(refusal)),
    };
    reads_what_was_sent();
    hold_words(&run);
    match told(alloc, &asked, &scene, &run) {
        Ok(bytes) => Ok(bytes),
        Err(_) => Err(Untold::Text(Refusal::NoMemory)),
    }
}
