//! The command `gen`: the scenario made, the run, the summary of its report built whole, the summary written.
//! Nothing is read.

ghost use Rattle.std.specs.Prelude.{◌≡◌, ◌≢◌, ◌≤◌, ℕ, IfOk, IfErr};
ghost use Rattle.csp_base.specs.Faults.{Rose};
ghost use Rattle.csp_report.specs.PlacesAddUp.{PlacesAddUp};
ghost use Rattle.csp_scene.specs.declared.refusal.SceneKind.{SceneKind};
ghost use Rattle.csp_top.specs.Gen.{IsSummaryOf, WroteSummary, WroteSummaryPart, HasReport, IsSummedUpOrNoMemory};
ghost use Rattle.csp_top.specs.Main.{WroteWhole};
ghost use Rattle.csp_bench.specs.declared.status.LimitKind.{LimitKind};

use crate::simulation::report_of;
use csp_base::{Sink, write_whole};
use csp_bench::{Refusal, Status};
use csp_gen::{MAX_PACKETS, text};
use csp_report::summary;
use csp_sizes::stays_below;
use std::alloc::Global;

/// Runs the scenario in which so many packets are sent, and writes the summary of its report.
pub(crate) fn gen_main<K: Sink>(alloc: Global, packets: u32, sink: &mut K) -> Status
    requires least { 1 ≤ packets }
    requires most { packets ≤ MAX_PACKETS }
    ensures done { result ≡ Status.Done → WroteSummary packets (K.written sink.old) (K.written sink.new) }
    ensures places { result ≡ Status.Done → WroteWhole (K.written sink.old) (K.written sink.new) }
    ensures write_fault { result ≡ Status.WriteFault → Rose (K.faults sink.old) (K.faults sink.new) }
    ensures no_write_fault { result ≢ Status.WriteFault → K.faults sink.new ≡ K.faults sink.old }
    ensures part { result ≡ Status.WriteFault → WroteSummaryPart packets (K.written sink.old) (K.written sink.new) }
    ensures no_scene { (line : ℕ) (kind : SceneKind) → result ≢ Status.Scene line kind }
    ensures no_limit { (kind : LimitKind) (number : ℕ) → result ≢ Status.Limit kind number }
    ensures no_words { result ≢ Status.Words }
    ensures no_reading { result ≢ Status.ReadFault }
    ensures report { HasReport packets }
    ensures complete { (Rose (K.faults sink.old) (K.faults sink.new) → ⊥) → IsSummedUpOrNoMemory packets (K.written sink.old) (K.written sink.new) result }
    ensures unwritten { result ≢ Status.Done → result ≢ Status.WriteFault → sink.new ≡ sink.old }
{
    let summary = match summary_of(alloc, packets) {
        Ok(summary) => summary,
        Err(refusal) => return refusal.status(),
    };
    match write_whole(sink, summary.as_slice()) {
        Ok(()) => Status::Done,
        Err(_) => Status::WriteFault,
    }
}

/// The summary of the report of the scenario in which so many packets are sent. Its text is never refused, and its
/// run never reaches the entry limit.
fn summary_of(alloc: Global, packets: u32) -> Result<Vec<u8>, Refusal>
    requires least { 1 ≤ packets }
    requires most { packets ≤ MAX_PACKETS }
    ensures summary { IfOk result (λ bytes. IsSummaryOf packets bytes.items) }
    ensures places { IfOk result (λ bytes. PlacesAddUp bytes.items) }
    ensures report { HasReport packets }
    ensures refused { IfErr result (λ why. why ≡ Refusal.NoMemory) }
{
    stays_below();
    let text = match text(alloc, packets) {
        Ok(text) => text,
        Err(_) => return Err(Refusal::NoMemory),
    };
    let report = match report_of(alloc, text.as_slice()) {
        Ok(report) => report,
        Err(refusal) => return Err(refusal),
    };
    match summary(alloc, packets, report.as_slice()) {
        Ok(summary) => Ok(summary),
        Err(_) => Err(Refusal::NoMemory),
    }
}
