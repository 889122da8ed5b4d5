//! What the words ask for: the source read to its end, the text built whole, the text written.

ghost use Rattle.std.specs.Prelude.{◌≡◌, ◌≢◌, ◌+◌, ℕ, None, Some, Err, IfSome, map};
ghost use Rattle.std.specs.String.{string_bytes};
ghost use Rattle.csp_base.specs.Faults.{Rose};
ghost use Rattle.csp_base.specs.Transfer.{TookAtMost, TookExactly};
ghost use Rattle.csp_bench.specs.Edge.{edge, WasRead};
ghost use Rattle.csp_bench.specs.Running.{IsPastEntries, IsUnhindered};
ghost use Rattle.csp_bench.specs.declared.status.LimitKind.{LimitKind};
ghost use Rattle.csp_scene.specs.Judge.{scene_of};
ghost use Rattle.csp_scene.specs.declared.refusal.SceneKind.{SceneKind};
ghost use Rattle.csp_trace.specs.Modes.{mode_of};
ghost use Rattle.csp_trace.specs.Owes.{IsTracedOrNoMemory, IsUnnamed, Owes, WroteTrace, WroteTracePart};
ghost use Rattle.csp_trace.specs.declared.mode.Mode.{Mode};

use crate::mode::{Mode, mode_of};
use crate::tracing::traced;
use csp_base::{Sink, Source, read_up_to, write_whole};
use csp_bench::{LimitKind, MAX_SCENARIO, Status, read_status};
use csp_scene::SceneKind;
use csp_world::MAX_ENTRIES;
use std::alloc::Global;

/// Writes what the words ask of the run, by its schedule, of the scenario that the source gives. `words` doesn't hold the
/// program's name. Words outside the grammar are refused, and then nothing is read; words that name what the scene lacks are
/// refused too, before the run.
#[tactic(auto, using(crate::proofs::Owing::took_none))]
pub fn trace_main<S: Source, K: Sink>(
    alloc: Global,
    words: &[String],
    source: &mut S,
    sink: &mut K,
) -> Status
    ensures words { mode_of (map string_bytes words.now) ≡ None → result ≡ Status.Words }
    ensures unread { mode_of (map string_bytes words.now) ≡ None → source.new ≡ source.old }

    // What each mode owes.
    ensures owes { (mode : Mode) → mode_of (map string_bytes words.now) ≡ Some mode → Owes mode (edge (S.left source.old) (S.faults source.old) (K.written sink.old) (K.faults sink.old)) (edge (S.left source.new) (S.faults source.new) (K.written sink.new) (K.faults sink.new)) result }
    ensures read_fault { result ≡ Status.ReadFault → Rose (S.faults source.old) (S.faults source.new) }
    ensures no_read_fault { result ≢ Status.ReadFault → S.faults source.new ≡ S.faults source.old }

    // However it ends, no more was taken from the source than shows that the text is too long.
    ensures stops { TookAtMost (S.left source.old) (S.left source.new) (MAX_SCENARIO + 1) }
    ensures write_fault { result ≡ Status.WriteFault → Rose (K.faults sink.old) (K.faults sink.new) }
    ensures no_write_fault { result ≢ Status.WriteFault → K.faults sink.new ≡ K.faults sink.old }
    ensures bytes { (number : ℕ) → result ≡ Status.Limit LimitKind.Bytes number → (number ≡ MAX_SCENARIO) × TookExactly (S.left source.old) (S.left source.new) (MAX_SCENARIO + 1) }
    ensures unwritten { result ≢ Status.Done → result ≢ Status.WriteFault → sink.new ≡ sink.old }
{
    match mode_of(words) {
        Some(mode) => write_trace(alloc, &mode, source, sink),
        None => Status::Words,
    }
}

/// Writes what a mode asks of the run of the scenario that the source gives.
fn write_trace<S: Source, K: Sink>(
    alloc: Global,
    mode: &Mode,
    source: &mut S,
    sink: &mut K,
) -> Status
    ensures done { result ≡ Status.Done → IfSome (S.left source.old) (λ text. WroteTrace mode.now text (K.written sink.old) (K.written sink.new)) }
    ensures read { result ≡ Status.Done → WasRead (S.left source.old) (S.left source.new) }
    ensures read_fault { result ≡ Status.ReadFault → Rose (S.faults source.old) (S.faults source.new) }
    ensures no_read_fault { result ≢ Status.ReadFault → S.faults source.new ≡ S.faults source.old }
    ensures stops { TookAtMost (S.left source.old) (S.left source.new) (MAX_SCENARIO + 1) }
    ensures write_fault { result ≡ Status.WriteFault → Rose (K.faults sink.old) (K.faults sink.new) }
    ensures no_write_fault { result ≢ Status.WriteFault → K.faults sink.new ≡ K.faults sink.old }
    ensures part { result ≡ Status.WriteFault → IfSome (S.left source.old) (λ text. WroteTracePart mode.now text (K.written sink.old) (K.written sink.new)) }
    ensures part_read { result ≡ Status.WriteFault → WasRead (S.left source.old) (S.left source.new) }
    ensures names { result ≡ Status.Words → IfSome (S.left source.old) (IsUnnamed mode.now) }
    ensures names_read { result ≡ Status.Words → WasRead (S.left source.old) (S.left source.new) }
    ensures scene { (line : ℕ) (kind : SceneKind) → result ≡ Status.Scene line kind → IfSome (S.left source.old) (λ text. scene_of text ≡ Err (record { line = line; kind = kind })) }
    ensures scene_read { (line : ℕ) (kind : SceneKind) → result ≡ Status.Scene line kind → WasRead (S.left source.old) (S.left source.new) }
    ensures bytes { (number : ℕ) → result ≡ Status.Limit LimitKind.Bytes number → (number ≡ MAX_SCENARIO) × TookExactly (S.left source.old) (S.left source.new) (MAX_SCENARIO + 1) }
    ensures entries { (number : ℕ) → result ≡ Status.Limit LimitKind.Entries number → (number ≡ MAX_ENTRIES) × IfSome (S.left source.old) IsPastEntries }
    ensures entries_read { (number : ℕ) → result ≡ Status.Limit LimitKind.Entries number → WasRead (S.left source.old) (S.left source.new) }
    ensures complete { IfSome (S.left source.old) (λ text. IsUnhindered text (S.faults source.old) (S.faults source.new) (K.faults sink.old) (K.faults sink.new) → IsTracedOrNoMemory mode.now text (K.written sink.old) (K.written sink.new) result) }
    ensures unwritten { result ≢ Status.Done → result ≢ Status.WriteFault → sink.new ≡ sink.old }
{
    let text = match read_up_to(alloc, source, MAX_SCENARIO) {
        Ok(text) => text,
        Err(error) => return read_status(error),
    };
    let bytes = match traced(alloc, mode, text.as_slice()) {
        Ok(bytes) => bytes,
        Err(refusal) => return refusal.status(),
    };
    match write_whole(sink, bytes.as_slice()) {
        Ok(()) => Status::Done,
        Err(_) => Status::WriteFault,
    }
}
