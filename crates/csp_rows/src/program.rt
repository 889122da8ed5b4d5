//! Runs by the schedule over memory: `sim | reads N .. | writes N .. | piece N | TEXT`, where the numbers say
//! which calls of the source and of the sink fail, counted from 0, and a piece is what the sink takes in a call. The
//! line on standard error: `say scene LINE`, `say bytes N`, .. And the words behind the program's name: `own WORDS`.

use csp_base::{MemSink, MemSource};
use csp_cases::{Answers, Case};
use csp_scene::SceneKind;
use csp_top::{LimitKind, Status, own_words, say, sim_main};
use std::alloc::{AllocError, Global};

/// The room of the sink.
const ROOM: usize = 65_536;

/// The program over memory.
pub(crate) struct Program;

impl Answers for Program {
    /// Tells the answer to what a case asks. Its first word says of what.
    fn answer(&self, case: &mut Case) {
        match case.word() {
            "sim" => sim(case),
            "say" => match status(case) {
                Some(status) => tell_said(case, status),
                None => case.misread(),
            },
            "own" => own(case),
            _ => case.misread(),
        }
    }
}

/// Words as strings of their own.
pub(crate) fn strings(alloc: Global, text: &str) -> Result<Vec<String>, AllocError> {
    let mut strings = Vec::new(alloc);
    for word in text.split_whitespace() {
        strings.push(String::from_str(alloc, word)?)?;
    }
    Ok(strings)
}

/// The words that are left of these.
fn left(alloc: Global, text: &str) -> Result<Vec<String>, AllocError> {
    let told = strings(alloc, text)?;
    own_words(alloc, Ok(told.into_iter()))
        .ok()
        .ok_or(AllocError)
}

/// Tells the words that are left, one after the other.
fn own(case: &mut Case) {
    match left(case.alloc(), case.rest()) {
        Err(_) => case.lacks_memory(),
        Ok(words) => {
            for word in words.as_slice() {
                case.next();
                case.tell(word.as_str());
            }
        }
    }
}

/// Tells how a run ends, what is said of it, how often it read and wrote, and how many bytes it wrote.
fn sim(case: &mut Case) {
    if !case.passes("|") {
        case.misread();
    }
    let (reads, rest) = case.halves(case.rest(), " | ");
    let (writes, rest) = case.halves(rest, " | ");
    let (piece, text) = case.halves(rest, " | ");
    let (reads, writes) = (numbers(case, reads), numbers(case, writes));
    let (Some(reads), Some(writes)) = (reads, writes) else {
        return case.lacks_memory();
    };
    case.turn_to(piece);
    let _piece = case.word();
    let piece = usize::from(case.short());
    if piece == 0 {
        return case.misread();
    }
    let mut source = MemSource::new(case.unescaped(text), reads);
    match MemSink::open(case.alloc(), ROOM, piece, writes) {
        Err(_) => case.lacks_memory(),
        Ok(mut sink) => {
            let status = sim_main(case.alloc(), &mut source, &mut sink);
            tell_said(case, status);
            let (reads, writes, written) = (source.calls(), sink.calls(), sink.written().len());
            write!(case, ", {reads} reads, {writes} writes, {written} bytes");
        }
    }
}

/// The numbers behind the first word.
fn numbers(case: &mut Case, text: &str) -> Option<Vec<u64>> {
    let mut numbers = Vec::new(case.alloc());
    for word in text.split_whitespace().skip(1) {
        numbers.push(case.long_of(word)).ok()?;
    }
    Some(numbers)
}

/// Tells the exit status of an answer, and the line that is said of it, without its end.
fn tell_said(case: &mut Case, status: Status) {
    write!(case, "status {}", status.code());
    let Ok(mut errors) = MemSink::open(case.alloc(), 256, 256, Vec::new(case.alloc())) else {
        return case.lacks_memory();
    };
    let said = say(status, &mut errors);
    match (said, str::from_utf8(errors.written())) {
        (Ok(()), Ok(line)) if line.trim().is_empty() => {}
        (Ok(()), Ok(line)) => write!(case, " {}", line.trim()),
        _ => case.misread(),
    }
}

/// The answer of these words.
fn status(case: &mut Case) -> Option<Status> {
    match case.word() {
        "done" => Some(Status::Done),
        "memory" => Some(Status::NoMemory),
        "words" => Some(Status::Words),
        "read" => Some(Status::ReadFault),
        "write" => Some(Status::WriteFault),
        "scene" => Some(Status::Scene {
            line: case.number(),
            kind: SceneKind::Missing,
        }),
        "bytes" => Some(Status::Limit {
            kind: LimitKind::Bytes,
            number: case.long(),
        }),
        "entries" => Some(Status::Limit {
            kind: LimitKind::Entries,
            number: case.long(),
        }),
        _ => None,
    }
}
