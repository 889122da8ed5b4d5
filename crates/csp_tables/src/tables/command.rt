//! The words of the command line: `command WORDS`, where `''` is a word without letters.

use csp_cases::Case;
use csp_words::{Command, command};
use std::alloc::{AllocError, Global};

/// Tells the command that words are.
pub(super) fn answer(case: &mut Case) {
    match strings(case.alloc(), case.rest()) {
        Err(_) => case.lacks_memory(),
        Ok(words) => match command(words.as_slice()) {
            Ok(Command::Sim) => case.tell("sim"),
            Ok(Command::Run { workers }) => write!(case, "run by {workers} workers"),
            Ok(Command::Gen { packets }) => write!(case, "gen of {packets} packets"),
            Ok(Command::Tap { cover: false }) => case.tell("tap"),
            Ok(Command::Tap { cover: true }) => case.tell("tap with header"),
            Err(_) => case.tell("bad words"),
        },
    }
}

/// Words as strings of their own.
fn strings(alloc: Global, text: &str) -> Result<Vec<String>, AllocError> {
    let mut strings = Vec::new(alloc);
    for word in text.split_whitespace() {
        let word = if word == "''" { "" } else { word };
        strings.push(String::from_str(alloc, word)?)?;
    }
    Ok(strings)
}
