//! The command that the words name.

ghost use Rattle.std.specs.Prelude.{◌≡◌, ◌≢◌, ◌+◌, ◌↔◌, ℕ, Ok, Err, map};
ghost use Rattle.std.specs.String.{string_bytes};
ghost use Rattle.csp_base.specs.Faults.{Rose};
ghost use Rattle.csp_base.specs.Transfer.{TookAtMost, TookExactly};
ghost use Rattle.csp_bench.specs.Edge.{edge};
ghost use Rattle.csp_top.specs.Owes.{Owes};
ghost use Rattle.csp_bench.specs.declared.status.LimitKind.{LimitKind};
ghost use Rattle.csp_words.specs.Grammar.{command_of};
ghost use Rattle.csp_words.specs.declared.grammar.Command.{Command};

use crate::generation::gen_main;
use crate::simulation::sim_main;
use crate::tapping::tap_main;
use crate::threads::run_main;
use csp_base::{Sink, Source};
use csp_bench::{LimitKind, MAX_SCENARIO, Status};
use csp_rounds::Gate;
use csp_words::{Command, WordsError, command};
use std::alloc::Global;
use std::sync::Wait;
use std::thread::Threads;

/// Runs the command that the words name, over the source and the sink; `gen` reads nothing from the source, and only `run` uses
/// the runtime and the gate. `words` doesn't hold the program's name. Words outside the grammar are refused, and then nothing is
/// read.
#[tactic(auto, using(crate::proofs::Untaken::took_none))]
pub fn csp_main<R: Threads + Wait + Sync, S: Source, K: Sink, G: Gate>(
    rt: &R,
    alloc: Global,
    words: &[String],
    source: &mut S,
    sink: &mut K,
    gate: &G,
) -> Status
    ensures words { (result ≡ Status.Words) ↔ (command_of (map string_bytes words.now) ≡ Err WordsError.Grammar) }
    ensures unread { result ≡ Status.Words → source.new ≡ source.old }
    ensures untouched { (packets : ℕ) → command_of (map string_bytes words.now) ≡ Ok (Command.Gen packets) → source.new ≡ source.old }

    // What each command owes.
    ensures owes { (c : Command) → command_of (map string_bytes words.now) ≡ Ok c → Owes c (edge (S.left source.old) (S.faults source.old) (K.written sink.old) (K.faults sink.old)) (edge (S.left source.new) (S.faults source.new) (K.written sink.new) (K.faults sink.new)) result }
    ensures read_fault { result ≡ Status.ReadFault → Rose (S.faults source.old) (S.faults source.new) }
    ensures no_read_fault { result ≢ Status.ReadFault → S.faults source.new ≡ S.faults source.old }

    // However it ends, no more was taken from the source than shows that the text is too long.
    ensures stops { TookAtMost (S.left source.old) (S.left source.new) (MAX_SCENARIO + 1) }
    ensures write_fault { result ≡ Status.WriteFault → Rose (K.faults sink.old) (K.faults sink.new) }
    ensures no_write_fault { result ≢ Status.WriteFault → K.faults sink.new ≡ K.faults sink.old }
    ensures bytes { (number : ℕ) → result ≡ Status.Limit LimitKind.Bytes number → (number ≡ MAX_SCENARIO) × TookExactly (S.left source.old) (S.left source.new) (MAX_SCENARIO + 1) }
    ensures unwritten { result ≢ Status.Done → result ≢ Status.WriteFault → sink.new ≡ sink.old }
{
    match command(words) {
        Ok(Command::Sim) => sim_main(alloc, source, sink),
        Ok(Command::Run { workers }) => run_main(rt, alloc, workers, source, sink, gate),
        Ok(Command::Gen { packets }) => gen_main(alloc, packets, sink),
        Ok(Command::Tap { cover }) => tap_main(alloc, cover, source, sink),
        Err(_) => Status::Words,
    }
}
