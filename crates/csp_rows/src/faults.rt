//! Runs in which one read or one write fails, each in turn. A file has one case a line, `reads SOURCE REPORT | WORDS => ANSWER` or
//! `writes ..`. The two names are those of the files with what there is to read and what is to be written, `-` for an empty one;
//! then come the words of the program. The sink takes 16 bytes in a call.
//!
//! After a failing read nothing is read any more, and nothing is written. After the failing write of number k, from 0, nothing
//! is written any more, and just the first 16 * k bytes of the report were. A run none of whose calls fails is done, and has
//! written the whole report. The answer is how many calls failed, and how many runs ended otherwise.
//!
//! Of two workers the first goes first in each round, so that the parties take their turns in the order of a simulation.

use crate::files::bytes_of;
use crate::program::strings;
use csp_base::{MemSink, MemSource};
use csp_rounds::OrderGate;
use csp_top::{Status, csp_main};
use std::alloc::{AllocError, Global};
use std::fs::Files;
use std::sync::Wait;
use std::thread::Threads;

/// So many bytes the sink takes in a call.
const PIECE: usize = 16;

/// The room of the sink.
const ROOM: usize = 65_536;

/// More calls than a run makes.
const MOST: u64 = 10_000;

/// Which calls fail, one in a run.
#[derive(Clone, Copy)]
enum Calls {
    /// Those that read.
    Reads,
    /// Those that write.
    Writes,
}

/// What is run, and what it must write.
#[derive(Drop)]
struct Case {
    calls: Calls,
    words: Vec<String>,
    text: Vec<u8>,
    report: Vec<u8>,
}

/// How a run ended: whether the call that was to fail was made, and whether the answer is what it must be.
#[derive(Clone, Copy)]
struct Ended {
    failed: bool,
    is_right: bool,
}

/// How many cases a file has, and a line for each that differs. A line that begins with `#` is none.
pub(crate) fn judged<R: Files + AllocGlobal + Clone + Threads + Wait + Sync>(
    rt: &R,
    text: &[u8],
) -> Result<String, AllocError> {
    let mut cases = 0u64;
    let mut differing = String::new(rt.alloc());
    for line in str::from_utf8(text).unwrap_or("no text").lines() {
        if !line.starts_with("#") {
            cases = cases.saturating_add(1);
            judge(rt, line, &mut differing)?;
        }
    }
    format!(in rt.alloc(); "{cases} cases\n{differing}")
}

/// Judges the case of a line, and appends it where it differs.
fn judge<R: Files + AllocGlobal + Clone + Threads + Wait + Sync>(
    rt: &R,
    line: &str,
    differing: &mut String,
) -> Result<(), AllocError> {
    let (asked, wanted) = line.split_once(" => ").unwrap_or((line, ""));
    match failing(rt, asked) {
        None => write!(differing, "  {asked}: no case\n"),
        Some(answer) => {
            if answer.as_str() == wanted {
                return Ok(());
            }
            write!(differing, "  {asked}: {answer}\n")
        }
    }
}

/// Makes the runs of a case, and tells how many calls failed and how many answers were others than they must be.
fn failing<R: Files + AllocGlobal + Clone + Threads + Wait + Sync>(
    rt: &R,
    asked: &str,
) -> Option<String> {
    let case = Case::read(rt, asked)?;
    let mut others = 0u64;
    for number in 0..MOST {
        let ended = case.run(rt, rt.alloc(), number)?;
        if !ended.is_right {
            others = others.saturating_add(1);
        }
        if !ended.failed {
            return format!(in rt.alloc(); "{number} failed, {others} other answers").ok();
        }
    }
    None
}

/// The bytes of the file of this name, none where it is `-`.
fn bytes_in<R: Files + AllocGlobal + Clone>(rt: &R, name: &str) -> Option<Vec<u8>> {
    if name == "-" {
        return Some(Vec::new(rt.alloc()));
    }
    bytes_of(rt, name, "").ok()
}

impl Case {
    /// The case that names these calls, files and words.
    fn read<R: Files + AllocGlobal + Clone>(rt: &R, asked: &str) -> Option<Case> {
        let (front, words) = asked.split_once(" | ")?;
        let (calls, files) = front.split_once(" ")?;
        let (source, report) = files.split_once(" ")?;
        let calls = match calls {
            "reads" => Calls::Reads,
            "writes" => Calls::Writes,
            _ => return None,
        };
        Some(Case {
            calls,
            words: strings(rt.alloc(), words).ok()?,
            text: bytes_in(rt, source)?,
            report: bytes_in(rt, report)?,
        })
    }

    /// The run in which the call of this number fails.
    fn run<R: Threads + Wait + Sync>(&self, rt: &R, alloc: Global, number: u64) -> Option<Ended> {
        let failing = vec![in alloc; number; 1].ok()?;
        let (reads, writes) = match self.calls {
            Calls::Reads => (failing, Vec::new(alloc)),
            Calls::Writes => (Vec::new(alloc), failing),
        };
        let mut source = MemSource::new(Vec::from_slice(alloc, self.text.as_slice()).ok()?, reads);
        let mut sink = MemSink::open(alloc, ROOM, PIECE, writes).ok()?;
        let gate = OrderGate::new(0);
        let words = self.words.as_slice();
        let status = csp_main(rt, alloc, words, &mut source, &mut sink, &gate);
        let made = match self.calls {
            Calls::Reads => source.calls(),
            Calls::Writes => sink.calls(),
        };
        let is_right = if made <= number {
            status == Status::Done && sink.written() == self.report.as_slice()
        } else {
            made == number.saturating_add(1) && self.is_cut(number, status, &sink)
        };
        Some(Ended {
            failed: made > number,
            is_right: is_right && !gate.gave_up(),
        })
    }

    /// Whether a run ended as it must where the call of this number failed.
    fn is_cut(&self, number: u64, status: Status, sink: &MemSink) -> bool {
        match self.calls {
            Calls::Reads => status == Status::ReadFault
                && sink.calls() == 0
                && sink.written().is_empty(),
            Calls::Writes => status == Status::WriteFault
                && self.front(number) == Some(sink.written()),
        }
    }

    /// The bytes of the report that so many calls write.
    fn front(&self, calls: u64) -> Option<&[u8]> {
        let bytes = usize::try_from(calls).ok()?.checked_mul(PIECE)?;
        self.report.as_slice().get(..bytes)
    }
}
