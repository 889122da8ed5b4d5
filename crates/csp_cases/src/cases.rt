//! The cases of a table, and which of them differ.

use crate::case::Case;
use crate::texts::expanded;
use crate::told_text::ToldText;
use std::alloc::{AllocError, Global};

/// Who answers the cases of a table.
pub trait Answers {
    /// Tells the answer to what a case asks.
    fn answer(&self, case: &mut Case);
}

/// A table that is read: the lines that name pieces, what a case asks as far as it was read, and what came of those
/// before.
#[derive(Drop)]
struct Reading {
    alloc: Global,
    line: u64,
    pieces: String,
    asked: ToldText,
    cases: u64,
    differing: ToldText,
}

/// How many cases a table has, and a line for each that differs. A line that begins with `#` and a blank one are no part of a case; a line
/// without an arrow goes on in the next. `NAME := TEXT` lets `{NAME}` stand for the text from there on.
pub fn judged<A: Answers>(alloc: Global, who: &A, text: &str) -> Result<String, AllocError> {
    let mut reading = Reading {
        alloc,
        line: 0,
        pieces: String::new(alloc),
        asked: ToldText::new(alloc),
        cases: 0,
        differing: ToldText::new(alloc),
    };
    for line in text.lines() {
        reading.line(who, line);
    }
    let cases = reading.cases;
    let differing = reading.differing.whole()?;
    format!(in alloc; "{cases} cases\n{differing}")
}

impl Reading {
    /// Reads the next line.
    fn line<A: Answers>(&mut self, who: &A, line: &str) {
        self.line = self.line.saturating_add(1);
        if line.starts_with("#") || line.trim().is_empty() {
            return;
        }
        if line.contains(" := ") {
            return self.keep(line);
        }
        match line.split_once("=>") {
            None => self.asked.push(line),
            Some((more, wanted)) => {
                self.asked.push(more);
                self.judge(who, wanted.trim());
            }
        }
    }

    /// Keeps a line that names a piece.
    fn keep(&mut self, line: &str) {
        let made = write!(self.pieces, "{line}\n");
        self.differing.noted(made);
    }

    /// Judges the case that has been read, and notes it where it differs.
    fn judge<A: Answers>(&mut self, who: &A, wanted: &str) {
        self.cases = self.cases.saturating_add(1);
        let asked = expanded(self.alloc, self.pieces.as_str(), &self.asked);
        let mut case = Case::of(self.alloc, &asked);
        who.answer(&mut case);
        self.differing
            .push_difference(self.line, case.told(), wanted);
        self.asked.clear();
    }
}
