//! The command `sim`: the source read to its end, the scenario judged, the run, the report built whole, the
//! report written. The first refusal in this order is the answer.

ghost use Rattle.std.specs.Prelude.{◌≡◌, ◌≢◌, ◌≤◌, ◌+◌, ℕ, [], Err, IfSome, IfOk, IfErr, length, map};
ghost use Rattle.csp_base.specs.Faults.{Rose};
ghost use Rattle.csp_base.specs.Transfer.{TookAtMost, TookExactly};
ghost use Rattle.csp_bench.specs.Edge.{WasRead};
ghost use Rattle.csp_bench.specs.Running.{IsPastEntries, IsUnhindered};
ghost use Rattle.csp_consistent.specs.Consistent.{IsConsistent};
ghost use Rattle.csp_peers.specs.Addressed.{AreAddressedApart};
ghost use Rattle.csp_record.specs.Whole.{IsWhole};
ghost use Rattle.csp_report.specs.Report.{report};
ghost use Rattle.csp_scene.specs.Judge.{scene_of};
ghost use Rattle.csp_scene.specs.Kept.{AreLinksAfter};
ghost use Rattle.csp_scene.specs.Naming.{AreNamedApart};
ghost use Rattle.csp_scene.specs.Ranges.{IsScene};
ghost use Rattle.csp_scene.specs.declared.refusal.SceneKind.{SceneKind};
ghost use Rattle.csp_top.specs.Main.{HasBlobPrefix, IsUncountedIfOrdinary, WroteReport, WrotePart, WroteReliably, WroteWhole, IsReportOf, IsDoneOrNoMemory};
ghost use Rattle.csp_report.specs.PlacesAddUp.{PlacesAddUp};
ghost use Rattle.csp_report.specs.ReliablePrefix.{HasReliablePrefix};

use crate::laws::{ends_causal, stays_reliable_throughout, tells_reliable_prefix};
use crate::numbers::hold_numbers;
use csp_base::{Sink, Source, read_up_to, write_whole};
use csp_bench::{LimitKind, MAX_SCENARIO, Refusal, Status, read_scene, read_status, run_of};
use csp_blobs::tells_of_blobs;
use csp_delivery::delivers_on_hubs;
use csp_hops::{hold_addresses, marks_next_hops};
use csp_ordinary::{apart_without_hubs, hold_words, passes_nothing, undamaged_without_flips};
use csp_peers::{addresses_differ, counts_no_stale};
use csp_prefix::{opens_on_slots, takes_a_prefix};
use csp_record::Record;
use csp_report::report;
use csp_scene::{Scene, SceneKind};
use csp_told::{ends_unchanged, ends_undisturbed, within_by_report};
use csp_world::MAX_ENTRIES;
use std::alloc::Global;

/// Runs the scenario that the source gives, and writes the report of its run.
pub fn sim_main<S: Source, K: Sink>(alloc: Global, source: &mut S, sink: &mut K) -> Status
    ensures done { result ≡ Status.Done → IfSome (S.left source.old) (λ text. WroteReport text (K.written sink.old) (K.written sink.new)) }
    ensures places { result ≡ Status.Done → WroteWhole (K.written sink.old) (K.written sink.new) }
    ensures reliable { result ≡ Status.Done → WroteReliably (K.written sink.old) (K.written sink.new) }
    ensures read { result ≡ Status.Done → WasRead (S.left source.old) (S.left source.new) }
    ensures read_fault { result ≡ Status.ReadFault → Rose (S.faults source.old) (S.faults source.new) }
    ensures no_read_fault { result ≢ Status.ReadFault → S.faults source.new ≡ S.faults source.old }

    // However it ends, no more was taken from the source than shows that the text is too long.
    ensures stops { TookAtMost (S.left source.old) (S.left source.new) (MAX_SCENARIO + 1) }
    ensures write_fault { result ≡ Status.WriteFault → Rose (K.faults sink.old) (K.faults sink.new) }
    ensures no_write_fault { result ≢ Status.WriteFault → K.faults sink.new ≡ K.faults sink.old }
    ensures part { result ≡ Status.WriteFault → IfSome (S.left source.old) (λ text. WrotePart text (K.written sink.old) (K.written sink.new)) }
    ensures part_read { result ≡ Status.WriteFault → WasRead (S.left source.old) (S.left source.new) }
    ensures scene { (line : ℕ) (kind : SceneKind) → result ≡ Status.Scene line kind → IfSome (S.left source.old) (λ text. scene_of text ≡ Err (record { line = line; kind = kind })) }
    ensures scene_read { (line : ℕ) (kind : SceneKind) → result ≡ Status.Scene line kind → WasRead (S.left source.old) (S.left source.new) }
    ensures bytes { (number : ℕ) → result ≡ Status.Limit LimitKind.Bytes number → (number ≡ MAX_SCENARIO) × TookExactly (S.left source.old) (S.left source.new) (MAX_SCENARIO + 1) }
    ensures entries { (number : ℕ) → result ≡ Status.Limit LimitKind.Entries number → (number ≡ MAX_ENTRIES) × IfSome (S.left source.old) IsPastEntries }
    ensures entries_read { (number : ℕ) → result ≡ Status.Limit LimitKind.Entries number → WasRead (S.left source.old) (S.left source.new) }
    ensures no_words { result ≢ Status.Words }
    ensures complete { IfSome (S.left source.old) (λ text. IsUnhindered text (S.faults source.old) (S.faults source.new) (K.faults sink.old) (K.faults sink.new) → IsDoneOrNoMemory text (K.written sink.old) (K.written sink.new) result) }
    ensures unwritten { result ≢ Status.Done → result ≢ Status.WriteFault → sink.new ≡ sink.old }
{
    let text = match read_up_to(alloc, source, MAX_SCENARIO) {
        Ok(text) => text,
        Err(error) => return read_status(error),
    };
    let report = match report_of(alloc, text.as_slice()) {
        Ok(report) => report,
        Err(refusal) => return refusal.status(),
    };
    match write_whole(sink, report.as_slice()) {
        Ok(()) => Status::Done,
        Err(_) => Status::WriteFault,
    }
}

/// The report of a text: of the run of the scene that it states.
pub(crate) fn report_of(alloc: Global, text: &[u8]) -> Result<Vec<u8>, Refusal>
    requires { length text.now ≤ MAX_SCENARIO }
    ensures report { IfOk result (λ bytes. IsReportOf text.now bytes.items) }
    ensures places { IfOk result (λ bytes. PlacesAddUp bytes.items) }
    ensures reliable { IfOk result (λ bytes. HasReliablePrefix bytes.items) }
    ensures scene { (line : ℕ) (kind : SceneKind) → result ≡ Err (Refusal.Scene line kind) → scene_of text.now ≡ Err (record { line = line; kind = kind }) }
    ensures entries { result ≡ Err Refusal.Entries → IsPastEntries text.now }
{
    let scene = match read_scene(alloc, text) {
        Ok(scene) => scene,
        Err(refusal) => return Err(refusal),
    };
    addresses_differ();
    ends_causal();
    stays_reliable_throughout();
    match run_of(alloc, &scene) {
        Ok(run) => told(alloc, &run, &scene),
        Err(refusal) => Err(refusal),
    }
}

/// The report of a record that is consistent with its scene, and whose places hold together just the buffers of each node.
pub(crate) fn told(alloc: Global, run: &Record, scene: &Scene) -> Result<Vec<u8>, Refusal>
    requires ranges { IsScene scene.now }
    requires apart { AreNamedApart scene.now.nodes }
    requires addressed { AreAddressedApart scene.now.nodes }
    requires ends { AreLinksAfter (length scene.now.nodes) [] scene.now.links }
    requires consistent { IsConsistent scene.now run.now }
    requires whole { IsWhole (map (λ n. n.buffers) scene.now.nodes) run.now }
    ensures bytes { IfOk result (λ bytes. bytes.items ≡ report scene.now run.now) }
    ensures places { IfOk result (λ bytes. PlacesAddUp bytes.items) }
    ensures reliable { IfOk result (λ bytes. HasReliablePrefix bytes.items) }
    ensures ordinary { IfOk result (λ bytes. IsUncountedIfOrdinary scene.now run.now bytes.items) }
    ensures blobs { IfOk result (λ bytes. HasBlobPrefix scene.now run.now) }
    ensures refused { IfErr result (λ why. why ≡ Refusal.NoMemory) }
{
    takes_a_prefix();
    tells_of_blobs();
    opens_on_slots();
    tells_reliable_prefix();
    passes_nothing();
    counts_no_stale();
    undamaged_without_flips();
    apart_without_hubs();
    marks_next_hops();
    delivers_on_hubs();
    within_by_report();
    ends_unchanged();
    ends_undisturbed();
    hold_numbers(run);
    hold_words(run);
    hold_addresses(scene);
    match report(alloc, run, scene) {
        Ok(bytes) => Ok(bytes),
        Err(_) => Err(Refusal::NoMemory),
    }
}
