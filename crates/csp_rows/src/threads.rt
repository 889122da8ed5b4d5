//! A run in threads, and what its report must say whatever the threads do.
//!
//! It is a file of lines. The first names the scenario, the second has the words; the third is `open`, or says which of two
//! workers goes first in each round. Then come lines of the report, in their order: `..` stands for any lines, and a line
//! that ends so for one that begins as it does.

use crate::files::bytes_of;
use crate::program::strings;
use csp_base::{MemSink, MemSource};
use csp_rounds::{Gate, OpenGate, OrderGate};
use csp_top::{csp_main, say};
use std::alloc::{AllocError, Global};
use std::fs::Files;
use std::io;
use std::sync::Wait;
use std::thread::Threads;

/// Room for what a run prints.
const ROOM: usize = 262_144;

/// A run in threads.
#[derive(Clone, Copy)]
struct Case<'a> {
    scenario: &'a str,
    words: &'a str,
    first: Option<u32>,
    wanted: &'a str,
}

/// Whether a run said what it should.
#[derive(Clone, Copy)]
enum Verdict {
    /// It did.
    AsWanted,
    /// The first line, from 1, of those that it should say and did not.
    Lacks(usize),
    /// It said more.
    GoesOn,
    /// A worker waited in vain for the other.
    GaveUp,
    /// No run is stated.
    NoRun,
}

impl Verdict {
    /// What is printed of it.
    fn told(self, alloc: Global) -> Result<String, AllocError> {
        let text = match self {
            Verdict::AsWanted => "as it should be",
            Verdict::Lacks(line) => return format!(in alloc; "without line {line}"),
            Verdict::GoesOn => "more than it should",
            Verdict::GaveUp => "waited in vain",
            Verdict::NoRun => "states no run",
        };
        String::from_str(alloc, text)
    }
}

/// Makes the run that a file states, and tells whether it said what it should.
pub(crate) fn told<R: Files + AllocGlobal + Clone + Threads + Wait + Sync>(
    rt: &R,
    stated: &[u8],
) -> io::Result<String> {
    let verdict = match Case::read(stated) {
        None => Verdict::NoRun,
        Some(case) => {
            let text = bytes_of(rt, case.scenario, ".scn")?;
            case.run(rt, rt.alloc(), text)?
        }
    };
    Ok(verdict.told(rt.alloc())?)
}

impl<'a> Case<'a> {
    /// The run that a file states, where it states one.
    fn read(stated: &'a [u8]) -> Option<Case<'a>> {
        let text = str::from_utf8(stated).ok()?;
        let (scenario, rest) = text.split_once("\n")?;
        let (words, rest) = rest.split_once("\n")?;
        let (gate, wanted) = rest.split_once("\n")?;
        let first = match gate {
            "open" => None,
            "worker 0 first" => Some(0),
            "worker 1 first" => Some(1),
            _ => return None,
        };
        Some(Case {
            scenario,
            words,
            first,
            wanted,
        })
    }

    /// Makes the run of the scenario over memory.
    fn run<R: Threads + Wait + Sync>(
        &self,
        rt: &R,
        alloc: Global,
        text: Vec<u8>,
    ) -> Result<Verdict, AllocError> {
        let Some(worker) = self.first else {
            return self.run_past(rt, alloc, text, &OpenGate);
        };
        let gate = OrderGate::new(worker);
        let verdict = self.run_past(rt, alloc, text, &gate)?;
        if gate.gave_up() {
            return Ok(Verdict::GaveUp);
        }
        Ok(verdict)
    }

    /// Makes it past this gate.
    fn run_past<R: Threads + Wait + Sync, G: Gate>(
        &self,
        rt: &R,
        alloc: Global,
        text: Vec<u8>,
        gate: &G,
    ) -> Result<Verdict, AllocError> {
        let words = strings(alloc, self.words)?;
        let mut source = MemSource::new(text, Vec::new(alloc));
        let mut sink = MemSink::open(alloc, ROOM, ROOM, Vec::new(alloc))?;
        let status = csp_main(rt, alloc, words.as_slice(), &mut source, &mut sink, gate);
        let _ = say(status, &mut sink);
        match str::from_utf8(sink.written()) {
            Ok(report) => judged(alloc, report, self.wanted),
            Err(_) => Ok(Verdict::Lacks(1)),
        }
    }
}

/// Whether a report has the lines that are wanted, and no more.
fn judged(alloc: Global, report: &str, wanted: &str) -> Result<Verdict, AllocError> {
    let lines = lines_of(alloc, report)?;
    let mut from = 0;
    let mut skips = false;
    for (place, line) in wanted.lines().enumerate() {
        if line == ".." {
            skips = true;
            continue;
        }
        match after(lines.as_slice(), from, line, skips) {
            None => return Ok(Verdict::Lacks(place.saturating_add(1))),
            Some(next) => from = next,
        }
        skips = false;
    }
    if !skips && from < lines.len() {
        return Ok(Verdict::GoesOn);
    }
    Ok(Verdict::AsWanted)
}

/// The lines of a text.
fn lines_of(alloc: Global, text: &str) -> Result<Vec<&str>, AllocError> {
    let mut lines = Vec::new(alloc);
    for line in text.lines() {
        lines.push(line)?;
    }
    Ok(lines)
}

/// The place behind the first line, from this place on, that is as wanted; none where there is no such line, or where another
/// one stands before it and none may be skipped.
fn after(lines: &[&str], from: usize, wanted: &str, skips: bool) -> Option<usize> {
    for place in from..lines.len() {
        if is_as(lines[place], wanted) {
            return Some(place.saturating_add(1));
        }
        if !skips {
            return None;
        }
    }
    None
}

/// Whether a line is as wanted, or begins so.
fn is_as(line: &str, wanted: &str) -> bool {
    match wanted.strip_suffix("..") {
        Some(front) => line.starts_with(front),
        None => line == wanted,
    }
}
