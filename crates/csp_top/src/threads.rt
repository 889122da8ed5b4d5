//! The command `run`: the source read to its end, the scenario judged, the run in threads, the report built whole, the report
//! written. The first refusal in this order is the answer.

ghost use Rattle.std.specs.Prelude.{◌≡◌, ◌≢◌, ◌≤◌, ◌+◌, ℕ, Err, IfSome, IfOk, length};
ghost use Rattle.csp_base.specs.Faults.{Rose};
ghost use Rattle.csp_base.specs.Transfer.{TookAtMost, TookExactly};
ghost use Rattle.csp_report.specs.PlacesAddUp.{PlacesAddUp};
ghost use Rattle.csp_report.specs.ReliablePrefix.{HasReliablePrefix};
ghost use Rattle.csp_scene.specs.Judge.{scene_of};
ghost use Rattle.csp_scene.specs.declared.refusal.SceneKind.{SceneKind};
ghost use Rattle.csp_bench.specs.Edge.{WasRead};
ghost use Rattle.csp_top.specs.Main.{WroteReliably, WroteWhole};
ghost use Rattle.csp_top.specs.Threads.{IsRunReportOf, IsFree, IsRunOrNoMemory, WroteRun, WroteRunPart};
ghost use Rattle.csp_bench.specs.declared.status.LimitKind.{LimitKind};

use crate::simulation::told;
use csp_base::{Sink, Source, read_up_to, write_whole};
use csp_bench::{LimitKind, MAX_SCENARIO, Refusal, Status, read_scene, read_status};
use csp_node::run;
use csp_peers::addresses_differ;
use csp_rounds::Gate;
use csp_scene::SceneKind;
use csp_world::MAX_ENTRIES;
use std::alloc::Global;
use std::sync::Wait;
use std::thread::Threads;

/// Runs the scenario that the source gives, with so many workers, and writes the report of its run.
pub(crate) fn run_main<R: Threads + Wait + Sync, S: Source, K: Sink, G: Gate>(
    rt: &R,
    alloc: Global,
    workers: u32,
    source: &mut S,
    sink: &mut K,
    gate: &G,
) -> Status
    requires { 1 ≤ workers }
    ensures done { result ≡ Status.Done → IfSome (S.left source.old) (λ text. WroteRun text (K.written sink.old) (K.written sink.new)) }
    ensures places { result ≡ Status.Done → WroteWhole (K.written sink.old) (K.written sink.new) }
    ensures reliable { result ≡ Status.Done → WroteReliably (K.written sink.old) (K.written sink.new) }
    ensures read { result ≡ Status.Done → WasRead (S.left source.old) (S.left source.new) }
    ensures read_fault { result ≡ Status.ReadFault → Rose (S.faults source.old) (S.faults source.new) }
    ensures no_read_fault { result ≢ Status.ReadFault → S.faults source.new ≡ S.faults source.old }

    // However it ends, no more was taken from the source than shows that the text is too long.
    ensures stops { TookAtMost (S.left source.old) (S.left source.new) (MAX_SCENARIO + 1) }
    ensures write_fault { result ≡ Status.WriteFault → Rose (K.faults sink.old) (K.faults sink.new) }
    ensures no_write_fault { result ≢ Status.WriteFault → K.faults sink.new ≡ K.faults sink.old }
    ensures part { result ≡ Status.WriteFault → IfSome (S.left source.old) (λ text. WroteRunPart text (K.written sink.old) (K.written sink.new)) }
    ensures part_read { result ≡ Status.WriteFault → WasRead (S.left source.old) (S.left source.new) }
    ensures scene { (line : ℕ) (kind : SceneKind) → result ≡ Status.Scene line kind → IfSome (S.left source.old) (λ text. scene_of text ≡ Err (record { line = line; kind = kind })) }
    ensures scene_read { (line : ℕ) (kind : SceneKind) → result ≡ Status.Scene line kind → WasRead (S.left source.old) (S.left source.new) }
    ensures bytes { (number : ℕ) → result ≡ Status.Limit LimitKind.Bytes number → (number ≡ MAX_SCENARIO) × TookExactly (S.left source.old) (S.left source.new) (MAX_SCENARIO + 1) }
    ensures no_entries { (number : ℕ) → result ≢ Status.Limit LimitKind.Entries number }
    ensures no_words { result ≢ Status.Words }
    ensures complete { IfSome (S.left source.old) (λ text. IsFree text (S.faults source.old) (S.faults source.new) (K.faults sink.old) (K.faults sink.new) → IsRunOrNoMemory text (K.written sink.old) (K.written sink.new) result) }
    ensures unwritten { result ≢ Status.Done → result ≢ Status.WriteFault → sink.new ≡ sink.old }
{
    let text = match read_up_to(alloc, source, MAX_SCENARIO) {
        Ok(text) => text,
        Err(error) => return read_status(error),
    };
    let report = match report_of_run(rt, alloc, text.as_slice(), workers, gate) {
        Ok(report) => report,
        Err(refusal) => return refusal.status(),
    };
    match write_whole(sink, report.as_slice()) {
        Ok(()) => Status::Done,
        Err(_) => Status::WriteFault,
    }
}

/// The report of a text: of a run in threads of the scene that it states.
fn report_of_run<R: Threads + Wait + Sync, G: Gate>(
    rt: &R,
    alloc: Global,
    text: &[u8],
    workers: u32,
    gate: &G,
) -> Result<Vec<u8>, Refusal>
    requires workers { 1 ≤ workers }
    ensures report { IfOk result (λ bytes. IsRunReportOf text.now bytes.items) }
    ensures places { IfOk result (λ bytes. PlacesAddUp bytes.items) }
    ensures reliable { IfOk result (λ bytes. HasReliablePrefix bytes.items) }
    ensures scene { (line : ℕ) (kind : SceneKind) → result ≡ Err (Refusal.Scene line kind) → scene_of text.now ≡ Err (record { line = line; kind = kind }) }
    ensures entries { result ≢ Err Refusal.Entries }
{
    let scene = match read_scene(alloc, text) {
        Ok(scene) => scene,
        Err(refusal) => return Err(refusal),
    };
    addresses_differ();
    match run(rt, alloc, &scene, workers, gate, MAX_ENTRIES) {
        Ok(record) => told(alloc, &record, &scene),
        Err(_) => Err(Refusal::NoMemory),
    }
}
