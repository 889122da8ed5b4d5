//! The command `tap`: the source read to its end, the text of the stream built whole, the text written.

ghost use Rattle.std.specs.Prelude.{◌≡◌, ◌≢◌, ◌+◌, ℕ, IfSome};
ghost use Rattle.csp_base.specs.Faults.{Rose};
ghost use Rattle.csp_base.specs.Transfer.{TookAtMost, TookExactly};
ghost use Rattle.csp_scene.specs.declared.refusal.SceneKind.{SceneKind};
ghost use Rattle.csp_bench.specs.Edge.{WasRead};
ghost use Rattle.csp_top.specs.Tap.{IsOpenStream, IsTappedOrNoMemory, WroteTap, WroteTapPart};
ghost use Rattle.csp_bench.specs.declared.status.LimitKind.{LimitKind};

use csp_base::{Sink, Source, read_up_to, write_whole};
use csp_bench::{LimitKind, MAX_SCENARIO, Status, read_status};
use csp_tap::tapped;
use std::alloc::Global;

/// Writes what the stream that the source gives holds, where the CRC of a frame covers the header or not. Every text of bytes is
/// a stream.
pub(crate) fn tap_main<S: Source, K: Sink>(
    alloc: Global,
    cover: bool,
    source: &mut S,
    sink: &mut K,
) -> Status
    ensures done { result ≡ Status.Done → IfSome (S.left source.old) (λ stream. WroteTap cover stream (K.written sink.old) (K.written sink.new)) }
    ensures read { result ≡ Status.Done → WasRead (S.left source.old) (S.left source.new) }
    ensures read_fault { result ≡ Status.ReadFault → Rose (S.faults source.old) (S.faults source.new) }
    ensures no_read_fault { result ≢ Status.ReadFault → S.faults source.new ≡ S.faults source.old }

    // However it ends, no more was taken from the source than shows that the stream is too long.
    ensures stops { TookAtMost (S.left source.old) (S.left source.new) (MAX_SCENARIO + 1) }
    ensures write_fault { result ≡ Status.WriteFault → Rose (K.faults sink.old) (K.faults sink.new) }
    ensures no_write_fault { result ≢ Status.WriteFault → K.faults sink.new ≡ K.faults sink.old }
    ensures part { result ≡ Status.WriteFault → IfSome (S.left source.old) (λ stream. WroteTapPart cover stream (K.written sink.old) (K.written sink.new)) }
    ensures part_read { result ≡ Status.WriteFault → WasRead (S.left source.old) (S.left source.new) }
    ensures no_scene { (line : ℕ) (kind : SceneKind) → result ≢ Status.Scene line kind }
    ensures no_entries { (number : ℕ) → result ≢ Status.Limit LimitKind.Entries number }
    ensures bytes { (number : ℕ) → result ≡ Status.Limit LimitKind.Bytes number → (number ≡ MAX_SCENARIO) × TookExactly (S.left source.old) (S.left source.new) (MAX_SCENARIO + 1) }
    ensures no_words { result ≢ Status.Words }
    ensures complete { IfSome (S.left source.old) (λ stream. IsOpenStream stream (S.faults source.old) (S.faults source.new) (K.faults sink.old) (K.faults sink.new) → IsTappedOrNoMemory cover stream (K.written sink.old) (K.written sink.new) result) }
    ensures unwritten { result ≢ Status.Done → result ≢ Status.WriteFault → sink.new ≡ sink.old }
{
    let stream = match read_up_to(alloc, source, MAX_SCENARIO) {
        Ok(stream) => stream,
        Err(error) => return read_status(error),
    };
    let text = match tapped(alloc, cover, stream.as_slice()) {
        Ok(text) => text,
        Err(_) => return Status::NoMemory,
    };
    match write_whole(sink, text.as_slice()) {
        Ok(()) => Status::Done,
        Err(_) => Status::WriteFault,
    }
}
